//! Lines over streams, by the examples of RFC 6455.
use super::calls::{
    Kind, bye, bytes, close, counts, failures, kind_of, next, of, read, read_text, reads_held,
    send, write_text,
};
use super::wire::Wire;
use asgi_types::{Chars, Payload, Reason};
use asgi_ws::{Got, Line, Msg, Pair, Put, Wired};
use std::alloc::{AllocError, Global};
use std::test::Fail;

// "A single-frame masked text message", RFC 6455, section 5.7.
const HELLO: &[u8] = b"\x81\x85\x37\xfa\x21\x3d\x7f\x9f\x4d\x51\x58";

/// "A single-frame unmasked text message", of the same section: how it is sent back.
const HELLO_BACK: &[u8] = b"\x81\x05Hello";

/// The bytes that went to the stream of a line.
fn output_of(line: &Wired<Wire>) -> &[u8] {
    match line.stream() {
        Some(wire) => wire.output.as_slice(),
        None => &[],
    }
}

/// A line over this stream that was upgraded, with these bytes after the handshake.
fn upgraded_with(alloc: Global, wire: Wire, held: Vec<u8>) -> Wired<Wire> {
    let mut line = Wired::new(alloc, wire);
    line.upgrade(held);
    line
}

/// A line that was upgraded, whose stream reads these bytes.
fn upgraded(alloc: Global, input: &[u8], blocks: bool) -> Result<Wired<Wire>, AllocError> {
    let wire = Wire::new(alloc, input, 100, blocks)?;
    Ok(upgraded_with(alloc, wire, Vec::new(alloc)))
}

/// The text that a read returned, to be sent back, or what else it returned.
fn text_in(got: Got) -> Result<Payload, Kind> {
    match got {
        Got::Message(Msg::Text(text)) => Ok(Payload::Text(text)),
        other => Err(kind_of(&other)),
    }
}

/// Sends each text back, until the line has ended, and returns how many there were and how many reads found nothing.
fn echo<L: Line>(line: &mut L) -> (u8, u8) {
    let mut texts = 0u8;
    let mut idle = 0u8;
    for _ in 0..100 {
        match text_in(read(line)) {
            Ok(text) => {
                if send(line, text) == Put::Done {
                    texts = texts.wrapping_add(1);
                }
            }
            Err(Kind::Idle) => idle = idle.wrapping_add(1),
            Err(_) => return (texts, idle),
        }
    }
    (texts, idle)
}

/// Whether one text is read and sent back without a failure, and some reads find nothing if the stream blocks.
fn echoes_one<L: Line>(line: &mut L, blocks: bool) -> bool {
    let (texts, idle) = echo(line);
    texts == 1 && (idle > 0) == blocks && failures(line) == 0
}

/// The same, and whether the text is in the output.
fn is_echoed(mut line: Wired<Wire>, blocks: bool) -> bool {
    let echoed = echoes_one(&mut line, blocks);
    echoed && output_of(&line) == HELLO_BACK
}

/// Whether the text is echoed if this many bytes of it follow the handshake.
fn cut_is_echoed(
    alloc: Global,
    held: usize,
    part: usize,
    blocks: bool,
) -> Result<bool, AllocError> {
    if held > HELLO.len() {
        return Ok(false);
    }
    let after = HELLO[..held].to_vec(alloc)?;
    let wire = Wire::new(alloc, &HELLO[held..], part, blocks)?;
    Ok(is_echoed(upgraded_with(alloc, wire, after), blocks))
}

/// How many bytes follow the handshake, how many are read at once, and whether each read would block first.
const CUTS: &[(usize, usize, bool)] = &[
    (0, 1, false),
    (0, 1, true),
    (0, 2, false),
    (0, 2, true),
    (0, 100, false),
    (0, 100, true),
    (1, 1, false),
    (1, 1, true),
    (1, 2, false),
    (1, 2, true),
    (1, 100, false),
    (1, 100, true),
    (5, 1, false),
    (5, 1, true),
    (5, 2, false),
    (5, 2, true),
    (5, 100, false),
    (5, 100, true),
    (11, 1, false),
    (11, 1, true),
    (11, 2, false),
    (11, 2, true),
    (11, 100, false),
    (11, 100, true),
];

#[test]
fn a_message_is_read_however_it_is_cut(rt: HostRuntime) -> Result<(), Fail> {
    for (held, part, blocks) in CUTS {
        let echoed = cut_is_echoed(rt.alloc(), *held, *part, *blocks)?;
        assert!(rt;
            echoed,
            "{held} bytes held, parts of {part}, blocks: {blocks}"
        );
    }
    Ok(())
}

/// Whether the line echoes a text, has ended, and still takes a message and a close.
fn takes_after_the_end<L: Line>(line: &mut L, payload: Payload, reason: Reason) -> [bool; 4] {
    let echoed = echo(line) == (1, 0);
    let ended = next(line) == Kind::Ended;
    let sent = send(line, payload) == Put::Done;
    [echoed, ended, sent, close(line, 1000, reason) == Put::Done]
}

/// The text sent back, a message of one byte, and the close.
const AFTER_THE_END: &[u8] = b"\x81\x05Hello\x82\x01!\x88\x05\x03\xe8bye";

/// The same, and whether all that was sent is in the output.
fn taken_after_the_end(
    mut line: Wired<Wire>,
    payload: Payload,
    reason: Reason,
) -> ([bool; 4], bool) {
    let taken = takes_after_the_end(&mut line, payload, reason);
    (taken, output_of(&line) == AFTER_THE_END)
}

#[test]
fn an_ended_stream_still_takes_messages(rt: HostRuntime) -> Result<(), Fail> {
    let reason = bye()?;
    let payload = bytes(rt.alloc(), b"!")?;
    let line = upgraded(rt.alloc(), HELLO, false)?;
    let taken = taken_after_the_end(line, payload, reason);
    assert!(rt; taken == ([true; 4], true));
    Ok(())
}

/// Before `upgrade` there are no messages, and text goes both ways.
fn has_text_alone<L: Line>(line: &mut L, payload: Payload) -> bool {
    let mut buf = [0; 4];
    let got = next(line);
    let put = send(line, payload);
    got == Kind::Failed
        && put == Put::Failed
        && read_text(line, &mut buf) == Some(2)
        && write_text(line, b"HTTP") == Some(4)
        && counts(line) == (0, 2)
}

/// After `upgrade` there is no text.
fn has_no_text<L: Line>(line: &mut L) -> bool {
    let mut buf = [0; 4];
    read_text(line, &mut buf) == None && write_text(line, b"x") == None && counts(line) == (1, 3)
}

/// Whether the line has text alone, and then, upgraded twice, no text.
fn keeps_apart<L: Line>(
    line: &mut L,
    payload: Payload,
    first: Vec<u8>,
    second: Vec<u8>,
) -> [bool; 2] {
    let before = has_text_alone(line, payload);
    line.upgrade(first);
    // A second call changes nothing.
    line.upgrade(second);
    [before, has_no_text(line)]
}

/// The same, and whether the output is the text.
fn kept_apart(
    mut line: Wired<Wire>,
    payload: Payload,
    first: Vec<u8>,
    second: Vec<u8>,
) -> ([bool; 2], bool) {
    let kept = keeps_apart(&mut line, payload, first, second);
    (kept, output_of(&line) == b"HTTP".as_slice())
}

#[test]
fn text_and_messages_keep_apart(rt: HostRuntime) -> Result<(), Fail> {
    let alloc = rt.alloc();
    let payload = bytes(alloc, b"!")?;
    let second = HELLO.to_vec(alloc)?;
    let line = Wired::new(alloc, Wire::new(alloc, b"GET", 2, false)?);
    let kept = kept_apart(line, payload, Vec::new(alloc), second);
    assert!(rt; kept == ([true; 2], true));
    Ok(())
}

/// The frame of a close, its code, and its reason (RFC 6455, section 5.5.1).
const CLOSES: &[(&[u8], u16, &str)] = &[
    (b"\x88\x82\0\0\0\0\x03\xe8", 1000, ""),
    (b"\x88\x84\0\0\0\0\x03\xe9by", 1001, "by"),
    (b"\x88\x80\0\0\0\0", 1005, ""),
];

/// Whether the message is a close with this code and reason; 1005 means one without a body.
fn is_close(got: &Got, code: u16, expected: &str) -> bool {
    match got {
        Got::Message(Msg::Close(Some((given, reason)))) => {
            *given == code && reason.as_str() == expected
        }
        Got::Message(Msg::Close(None)) => code == 1005,
        _ => false,
    }
}

/// Whether this close is read, and after it the layer takes no payload and returns no message.
fn is_closed<L: Line>(line: &mut L, payload: Payload, code: u16, expected: &str) -> bool {
    let read = of(read(line), |got| is_close(got, code, expected));
    let put = send(line, payload);
    read && put == Put::Failed && next(line) == Kind::Ended && failures(line) == 1
}

fn close_is_read(
    alloc: Global,
    input: &[u8],
    code: u16,
    expected: &str,
) -> Result<bool, AllocError> {
    let payload = bytes(alloc, b"")?;
    let mut line = upgraded(alloc, input, false)?;
    Ok(is_closed(&mut line, payload, code, expected))
}

#[test]
fn closes_are_read(rt: HostRuntime) -> Result<(), Fail> {
    for (input, code, expected) in CLOSES {
        let read = close_is_read(rt.alloc(), input, *code, expected)?;
        assert!(rt; read, "{code}");
    }
    Ok(())
}

/// A ping and a pong, and what reads of them return.
const PINGS: &[u8] = b"\x89\x80\0\0\0\0\x8a\x80\0\0\0\0";

const PINGS_READ: &[Kind] = &[Kind::Ping, Kind::Pong, Kind::Ended];

fn pings_held(alloc: Global) -> Result<usize, AllocError> {
    let mut line = upgraded(alloc, PINGS, false)?;
    Ok(reads_held(&mut line, PINGS_READ))
}

#[test]
fn pings_and_pongs_are_messages(rt: HostRuntime) -> Result<(), Fail> {
    let held = pings_held(rt.alloc())?;
    assert!(rt; held == PINGS_READ.len(), "read {held}");
    Ok(())
}

/// What a client sends by its own fault, and what tells it why (RFC 6455, section 7.4.1): a frame without a mask (section
/// 5.1), a ping that is not its last fragment (5.5), text that isn't UTF-8 (5.6), and the header of a frame over 16 MiB.
const FAULTS: &[(&[u8], &[u8])] = &[
    (b"\x81\x01a", b"\x88\x02\x03\xea"),
    (b"\x09\x80\0\0\0\0", b"\x88\x02\x03\xea"),
    (b"\x81\x81\0\0\0\0\xff", b"\x88\x02\x03\xef"),
    (b"\x82\xff\0\0\0\0\x01\0\0\x01\0\0\0\0", b"\x88\x02\x03\xf1"),
];

/// Whether the line fails, and counts it.
fn fails<L: Line>(line: &mut L) -> bool {
    next(line) == Kind::Failed && failures(line) == 1
}

/// Whether it fails, and the client is told this.
fn fails_with(mut line: Wired<Wire>, told: &[u8]) -> bool {
    let failed = fails(&mut line);
    failed && output_of(&line) == told
}

/// The same over a stream that reads these bytes.
fn is_failure(alloc: Global, input: &[u8], told: &[u8]) -> Result<bool, AllocError> {
    let line = upgraded(alloc, input, false)?;
    Ok(fails_with(line, told))
}

/// A stream that fails.
fn failing(alloc: Global) -> Result<Wire, AllocError> {
    let mut wire = Wire::new(alloc, b"", 100, false)?;
    wire.fails = true;
    Ok(wire)
}

/// What a read of the line returns, and the result of a send after it.
fn read_and_sent<L: Line>(line: &mut L, payload: Payload) -> (Kind, Put) {
    (next(line), send(line, payload))
}

/// A message of one byte, as it is sent.
const MESSAGE: &[u8] = b"\x82\x01a";

/// Both, and whether the message is all that was written: a fault of the stream is told to nobody.
fn read_and_sent_alone(mut line: Wired<Wire>, payload: Payload) -> (Kind, Put, bool) {
    let (kind, put) = read_and_sent(&mut line, payload);
    (kind, put, output_of(&line) == MESSAGE)
}

/// The same over a stream that fails.
fn sent_over_fault(alloc: Global) -> Result<(Kind, Put, bool), AllocError> {
    let payload = bytes(alloc, b"a")?;
    let line = upgraded_with(alloc, failing(alloc)?, Vec::new(alloc));
    Ok(read_and_sent_alone(line, payload))
}

#[test]
fn a_client_is_told_why_its_session_fails(rt: HostRuntime) -> Result<(), Fail> {
    for (input, told) in FAULTS {
        let failed = is_failure(rt.alloc(), input, told)?;
        assert!(rt; failed, "{input:?}");
    }
    // A stream that fails is one too, and still takes what is sent.
    let answers = sent_over_fault(rt.alloc())?;
    assert!(rt; answers == (Kind::Failed, Put::Done, true));
    Ok(())
}

/// How often in a row a write would block, and the result of the send.
const WAITS: &[(u32, Put)] = &[(0, Put::Done), (1_000, Put::Done), (1_001, Put::Failed)];

/// The result of a send if the stream would block this often.
fn sent_after(alloc: Global, waits: u32) -> Result<Put, AllocError> {
    let payload = bytes(alloc, b"a")?;
    let mut wire = Wire::new(alloc, b"", 100, false)?;
    wire.waits = waits;
    let mut line = upgraded_with(alloc, wire, Vec::new(alloc));
    Ok(send(&mut line, payload))
}

#[test]
fn a_send_that_would_block_is_tried_again(rt: HostRuntime) -> Result<(), Fail> {
    for (waits, answer) in WAITS {
        let given = sent_after(rt.alloc(), *waits)?;
        assert!(rt; (given, *waits) == (*answer, *waits), "{waits} waits");
    }
    Ok(())
}

/// How often in a row a write would block, what reads return for two pings whose pongs are due, and how often a write
/// would still block.
type Pinged = (u32, &'static [Kind], u32);

const PINGED: &[Pinged] = &[
    (0, &[Kind::Ping, Kind::Ping, Kind::Ended], 0),
    (1_000, &[Kind::Ping, Kind::Ping, Kind::Ended], 0),
    (1_001, &[Kind::Ping, Kind::Failed, Kind::Failed], 0),
    (3_000, &[Kind::Ping, Kind::Failed, Kind::Failed], 1_999),
];

fn waits_of(line: &Wired<Wire>) -> u32 {
    match line.stream() {
        Some(wire) => wire.waits,
        None => 0,
    }
}

/// Whether the reads of a line whose writes would block this often return this, and leave this many.
fn is_pinged(alloc: Global, waits: u32, kinds: &[Kind], left: u32) -> Result<bool, AllocError> {
    let mut wire = Wire::new(alloc, b"\x89\x80\0\0\0\0\x89\x80\0\0\0\0", 100, false)?;
    wire.waits = waits;
    let mut line = upgraded_with(alloc, wire, Vec::new(alloc));
    let held = reads_held(&mut line, kinds);
    Ok(held == kinds.len() && waits_of(&line) == left)
}

#[test]
fn a_pong_that_is_not_taken_ends_the_session(rt: HostRuntime) -> Result<(), Fail> {
    for (waits, kinds, left) in PINGED {
        let held = is_pinged(rt.alloc(), *waits, kinds, *left)?;
        assert!(rt; held, "{waits} waits");
    }
    Ok(())
}

/// A stream of a reader and a writer.
type Ends = Pair<&'static [u8], Vec<u8>>;

fn is_hello(got: &Got) -> bool {
    match got {
        Got::Message(Msg::Text(text)) => text.as_str() == "Hello",
        _ => false,
    }
}

/// The bytes that went to the writer.
fn written_of(line: &Wired<Ends>) -> &[u8] {
    match line.stream() {
        Some(pair) => pair.writer.as_slice(),
        None => &[],
    }
}

/// Whether "Hello" is read, nothing after it, and whether the text is sent.
fn passes_hello<L: Line>(line: &mut L, text: Chars) -> [bool; 3] {
    let is_read = of(read(line), is_hello);
    let ended = next(line) == Kind::Ended;
    [is_read, ended, send(line, Payload::Text(text)) == Put::Done]
}

/// The same, and whether the text was written.
fn passed_hello(mut line: Wired<Ends>, text: Chars) -> ([bool; 3], bool) {
    let passed = passes_hello(&mut line, text);
    (passed, written_of(&line) == HELLO_BACK)
}

#[test]
fn a_reader_and_a_writer_make_a_stream(rt: HostRuntime) -> Result<(), Fail> {
    let alloc = rt.alloc();
    let text = Chars::new(String::from_str(alloc, "Hello")?);
    let pair = Pair {
        reader: HELLO,
        writer: Vec::new(alloc),
    };
    let mut line = Wired::new(alloc, pair);
    line.upgrade(Vec::new(alloc));
    let passed = passed_hello(line, text);
    assert!(rt; passed == ([true; 3], true));
    Ok(())
}

/// What the line returns if the next message is a text that is sent back.
fn sent_back<L: Line>(line: &mut L) -> Put {
    match text_in(read(line)) {
        Ok(text) => send(line, text),
        Err(Kind::NoMemory) => Put::NoMemory,
        Err(_) => Put::Failed,
    }
}

/// What the line returns, and whether the text is in its output.
fn echoed_on(mut line: Wired<Wire>) -> (Put, bool) {
    let answer = sent_back(&mut line);
    (answer, output_of(&line) == HELLO_BACK)
}

/// One message read and sent back. If memory was refused, all of it is done once more.
fn echoed(alloc: Global) -> Result<bool, AllocError> {
    match echoed_on(upgraded(alloc, HELLO, false)?) {
        (Put::NoMemory, _) => Err(AllocError),
        (answer, output) => Ok(answer == Put::Done && output),
    }
}

#[test]
fn memory_for_an_echo(rt: HostRuntime) -> Result<(), Fail> {
    let echoed = echoed(rt.alloc()).or_else(|_| echoed(rt.alloc()))?;
    assert!(rt; echoed);
    Ok(())
}
