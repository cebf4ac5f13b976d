//! Long messages over a line in memory: with ample memory each is received and sent whole.
use crate::rows::BOTH;
use crate::scripts::one_piece;
use crate::serving::{App, serve_script};
use crate::texts::{ACCEPTED, HANDSHAKE};
use asgi_conn::{Host, Outcome};
use asgi_fakes::Way;
use asgi_types::{Chars, Limits, Octets, Payload};
use asgi_ws::{Msg, Script, ScriptRead, SentMessage};
use std::alloc::{AllocError, Global};
use std::collections::VecDeque;
use std::io;
use std::test::Fail;

/// How many bytes a message has.
const LONG: usize = 100_000;

const TEN: &str = "0123456789";

/// A text of ten digits again and again.
fn long_text(alloc: Global) -> Result<Msg, AllocError> {
    let mut text = String::new(alloc);
    for _ten in 0..LONG / 10 {
        text.push_str(TEN)?;
    }
    Ok(Msg::Text(Chars::new(text)))
}

/// The same bytes, as a binary message.
fn long_bytes(alloc: Global) -> Result<Msg, AllocError> {
    let mut bytes = Vec::new(alloc);
    for _ten in 0..LONG / 10 {
        bytes.extend_from_slice(TEN.as_bytes())?;
    }
    Ok(Msg::Bytes(Octets::new(bytes)))
}

fn add_message(turns: &mut VecDeque<ScriptRead>, message: Msg) -> Result<(), AllocError> {
    turns.push_back(ScriptRead::Message(message))?;
    Ok(())
}

/// A line that reads a handshake, the text, and the binary message.
fn long_line(alloc: Global) -> Result<Script, AllocError> {
    let pieces = one_piece(alloc, &[HANDSHAKE])?;
    let mut turns = VecDeque::new(alloc);
    add_message(&mut turns, long_text(alloc)?)?;
    add_message(&mut turns, long_bytes(alloc)?)?;
    Ok(Script::new(alloc, pieces, turns))
}

/// Whether these are the bytes of a long message.
fn is_long(bytes: &[u8]) -> bool {
    let mut rest = bytes;
    for _ten in 0..LONG / 10 {
        match rest.strip_prefix(TEN.as_bytes()) {
            Some(after) => rest = after,
            None => return false,
        }
    }
    rest.is_empty()
}

fn is_long_text(item: &SentMessage) -> bool {
    match item {
        SentMessage::Payload(Payload::Text(text)) => is_long(text.as_str().as_bytes()),
        _ => false,
    }
}

fn is_long_binary(item: &SentMessage) -> bool {
    match item {
        SentMessage::Payload(Payload::Bytes(bytes)) => is_long(bytes.bytes()),
        _ => false,
    }
}

fn are_sent_back(items: &[SentMessage]) -> bool {
    match items {
        [text, binary] => is_long_text(text) && is_long_binary(binary),
        _ => false,
    }
}

fn is_echoed_over<H: Host>(rt: &H, way: Way, line: &mut Script) -> io::Result<bool> {
    let (end, _) = serve_script(rt, way, &Limits::usual(), App::WsEcho, line)?;
    let is_so = end == (Outcome::InputBroke, 1, 0) && line.text() == ACCEPTED;
    Ok(is_so && line.received().len() == 2 && are_sent_back(line.handed()))
}

fn is_echoed<H: Host>(rt: &H, way: Way) -> io::Result<bool> {
    let mut line = long_line(rt.alloc())?;
    is_echoed_over(rt, way, &mut line)
}

#[test]
fn a_text_and_a_binary_message_of_100000_bytes_are_echoed(rt: HostRuntime) -> Result<(), Fail> {
    for way in BOTH {
        let is_so = is_echoed(&rt, *way)?;
        assert!(rt; is_so);
    }
    Ok(())
}
