//! Lines in memory, by tables: what they read, and what was sent.
use crate::rows::{Parts, after, joined};
use asgi_types::{Chars, Payload, Reason};
use asgi_ws::{Msg, Script, ScriptBytes, ScriptRead, SentMessage};
use std::alloc::{AllocError, Global};
use std::collections::VecDeque;

/// What one read of a message returns.
#[derive(Clone, Copy)]
pub enum Given {
    Text(&'static str),
    Ping,
    Pong,
    Close(u16, &'static str),
    /// A close with no body.
    BareClose,
    /// Nothing yet.
    Idle,
    /// The read fails.
    Fault,
}

impl Given {
    fn turn(self, alloc: Global) -> Result<ScriptRead, AllocError> {
        match self {
            Given::Text(text) => text_turn(alloc, text),
            Given::Ping => Ok(ScriptRead::Message(Msg::Ping)),
            Given::Pong => Ok(ScriptRead::Message(Msg::Pong)),
            Given::Close(code, reason) => Ok(close(code, reason)),
            Given::BareClose => Ok(ScriptRead::Message(Msg::Close(None))),
            Given::Idle => Ok(ScriptRead::Idle),
            Given::Fault => Ok(ScriptRead::Fault),
        }
    }
}

fn text_turn(alloc: Global, text: &str) -> Result<ScriptRead, AllocError> {
    let text = Chars::new(String::from_str(alloc, text)?);
    Ok(ScriptRead::Message(Msg::Text(text)))
}

fn close(code: u16, reason: &str) -> ScriptRead {
    match Reason::new(reason) {
        Some(reason) => ScriptRead::Message(Msg::Close(Some((code, reason)))),
        None => ScriptRead::Fault,
    }
}

/// A line that reads this text in one piece, and then these messages.
pub fn script_of(alloc: Global, text: Parts, given: &[Given]) -> Result<Script, AllocError> {
    let pieces = one_piece(alloc, text)?;
    let turns = turns_of(alloc, given)?;
    Ok(Script::new(alloc, pieces, turns))
}

/// This text in one piece.
pub fn one_piece(alloc: Global, text: Parts) -> Result<VecDeque<ScriptBytes>, AllocError> {
    let bytes = joined(alloc, b"", text)?;
    let mut pieces = VecDeque::new(alloc);
    pieces.push_back(ScriptBytes::Bytes(bytes))?;
    Ok(pieces)
}

/// A read for each of these.
pub fn turns_of(alloc: Global, given: &[Given]) -> Result<VecDeque<ScriptRead>, AllocError> {
    let mut turns = VecDeque::new(alloc);
    add_turns(&mut turns, alloc, given)?;
    Ok(turns)
}

fn add_turns(
    turns: &mut VecDeque<ScriptRead>,
    alloc: Global,
    given: &[Given],
) -> Result<(), AllocError> {
    for message in given {
        let turn = message.turn(alloc)?;
        turns.push_back(turn)?;
    }
    Ok(())
}

/// What is sent.
#[derive(Clone, Copy)]
pub enum Out {
    Text(&'static str),
    Close(u16, &'static str),
}

impl Out {
    fn is(self, item: &SentMessage) -> bool {
        match (self, item) {
            (Out::Text(text), SentMessage::Payload(Payload::Text(given))) => given.as_str() == text,
            (Out::Close(code, reason), SentMessage::Close(given, why)) => {
                code == *given && why.as_str() == reason
            }
            _ => false,
        }
    }
}

/// Whether exactly these parts were written to the line as text.
pub fn is_text(line: &Script, parts: Parts) -> bool {
    after(line.text(), parts) == Some(b"")
}

/// Whether exactly this was sent over the line.
pub fn is_handed(line: &Script, wanted: &[Out]) -> bool {
    line.handed().len() == wanted.len() && is_front(line, wanted)
}

/// Whether what was sent over the line is a beginning of this.
pub fn is_front(line: &Script, wanted: &[Out]) -> bool {
    for (at, item) in line.handed().iter().enumerate() {
        let Some(out) = wanted.get(at) else {
            return false;
        };
        if !out.is(item) {
            return false;
        }
    }
    true
}
