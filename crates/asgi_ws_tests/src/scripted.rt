//! Lines in memory follow their scripts, and record each call.
use super::calls::{
    Kind, bye, bytes, close, counts, failures, next, read_text, reads_held, send, write_text,
};
use asgi_types::{Chars, Payload, Reason};
use asgi_ws::{Line, Msg, Put, Script, ScriptBytes, ScriptRead, SentMessage};
use std::alloc::{AllocError, Global};
use std::collections::VecDeque;
use std::test::Fail;

fn pieces(alloc: Global) -> Result<VecDeque<ScriptBytes>, AllocError> {
    let mut pieces = VecDeque::new(alloc);
    pieces.push_back(ScriptBytes::Bytes(b"abc".to_vec(alloc)?))?;
    pieces.push_back(ScriptBytes::WouldBlock)?;
    pieces.push_back(ScriptBytes::Bytes(b"d".to_vec(alloc)?))?;
    pieces.push_back(ScriptBytes::Fault)?;
    Ok(pieces)
}

fn turns(alloc: Global) -> Result<VecDeque<ScriptRead>, AllocError> {
    let mut turns = VecDeque::new(alloc);
    turns.push_back(ScriptRead::Idle)?;
    let text = Chars::new(String::from_str(alloc, "a")?);
    turns.push_back(ScriptRead::Message(Msg::Text(text)))?;
    turns.push_back(ScriptRead::Message(Msg::Ping))?;
    turns.push_back(ScriptRead::Fault)?;
    turns.push_back(ScriptRead::Message(Msg::Close(None)))?;
    Ok(turns)
}

/// What reads of two bytes return, from the first on; None: they fail.
const READS: &[Option<usize>] = &[Some(2), Some(1), None, Some(1), None, Some(0)];

/// Texts to write, and how many bytes are taken.
const WRITES: &[(&[u8], Option<usize>)] = &[(b"wxyz", Some(3)), (b"z", Some(1)), (b"z", None)];

/// How many reads, from the first on, return what is expected.
fn texts_read<L: Line>(line: &mut L) -> usize {
    let mut buf = [0; 2];
    for (index, read) in READS.iter().enumerate() {
        if read_text(line, &mut buf) != *read {
            return index;
        }
    }
    READS.len()
}

/// How many writes, from the first on, take what is expected.
fn texts_written<L: Line>(line: &mut L) -> usize {
    for (index, (bytes, expected)) in WRITES.iter().enumerate() {
        if write_text(line, bytes) != *expected {
            return index;
        }
    }
    WRITES.len()
}

/// Whether the text that was written is kept, and both failures are counted.
fn keeps_text(line: &Script) -> bool {
    line.text() == b"wxyz".as_slice() && counts(line) == (1, 1)
}

/// Whether the line has kept the leftover, and neither reads nor writes text.
fn has_no_text(line: &mut Script) -> bool {
    let mut buf = [0; 2];
    line.leftover() == Some(b"left".as_slice())
        && read_text(line, &mut buf) == None
        && write_text(line, b"z") == None
        && counts(line) == (2, 2)
}

/// How many reads and writes are right, and whether the line keeps the text, and has none after the first `upgrade`.
fn text_held(mut line: Script, first: Vec<u8>, second: Vec<u8>) -> (usize, usize, [bool; 2]) {
    let reads = texts_read(&mut line);
    let writes = texts_written(&mut line);
    let keeps = keeps_text(&line);
    line.upgrade(first);
    line.upgrade(second);
    (reads, writes, [keeps, has_no_text(&mut line)])
}

#[test]
fn text_is_read_and_written_as_the_script_says(rt: HostRuntime) -> Result<(), Fail> {
    let alloc = rt.alloc();
    let left = b"left".to_vec(alloc)?;
    let line = Script::new(alloc, pieces(alloc)?, VecDeque::new(alloc)).failing_write(2, 3);
    let held = text_held(line, left, Vec::new(alloc));
    assert!(rt; held == (READS.len(), WRITES.len(), [true; 2]));
    Ok(())
}

/// What reads of messages return after `upgrade`.
const MESSAGES: &[Kind] = &[
    Kind::Idle,
    Kind::Text,
    Kind::Ping,
    Kind::Failed,
    Kind::EmptyClose,
    Kind::Ended,
];

/// What a read returns before `upgrade`, how many are as expected after it, and how many calls failed.
fn messages_held<L: Line>(line: &mut L, leftover: Vec<u8>) -> (Kind, usize, u64) {
    let before = next(line);
    line.upgrade(leftover);
    let held = reads_held(line, MESSAGES);
    (before, held, failures(line))
}

fn are_received(messages: &[Msg]) -> bool {
    matches!(messages, [Msg::Text(_), Msg::Ping, Msg::Close(None)])
}

/// The same, and whether the messages are kept.
fn held_and_kept(mut line: Script, leftover: Vec<u8>) -> ((Kind, usize, u64), bool) {
    let held = messages_held(&mut line, leftover);
    (held, are_received(line.received()))
}

#[test]
fn messages_are_read_and_kept(rt: HostRuntime) -> Result<(), Fail> {
    let alloc = rt.alloc();
    let line = Script::new(alloc, VecDeque::new(alloc), turns(alloc)?);
    let held = held_and_kept(line, Vec::new(alloc));
    assert!(rt; held == ((Kind::Failed, MESSAGES.len(), 2), true));
    Ok(())
}

/// The result of a close before `upgrade`, then of a payload, and then of two closes.
fn sends<L: Line>(line: &mut L, payload: Payload, leftover: Vec<u8>, reason: Reason) -> [Put; 4] {
    let before = close(line, 1000, reason);
    line.upgrade(leftover);
    let sent = send(line, payload);
    let closed = close(line, 1000, reason);
    [before, sent, closed, close(line, 1001, reason)]
}

fn are_sent(handed: &[SentMessage]) -> bool {
    matches!(
        handed,
        [
            SentMessage::Payload(Payload::Bytes(_)),
            SentMessage::Close(1000, _)
        ]
    )
}

/// The results, and whether what went out is kept, and both failures are counted.
fn sent_and_kept(
    mut line: Script,
    payload: Payload,
    leftover: Vec<u8>,
    reason: Reason,
) -> ([Put; 4], bool) {
    let answers = sends(&mut line, payload, leftover, reason);
    (answers, are_sent(line.handed()) && failures(&line) == 2)
}

#[test]
fn what_goes_out_is_kept(rt: HostRuntime) -> Result<(), Fail> {
    let alloc = rt.alloc();
    let reason = bye()?;
    let payload = bytes(alloc, b"a")?;
    let line = Script::new(alloc, VecDeque::new(alloc), VecDeque::new(alloc)).failing_send(2);
    let sent = sent_and_kept(line, payload, Vec::new(alloc), reason);
    assert!(rt; sent == ([Put::Failed, Put::Done, Put::Done, Put::Failed], true));
    Ok(())
}

/// The kind of the first message of a script. If memory is refused, the message stays, and the next read returns it.
fn first_kind<L: Line>(line: &mut L) -> Kind {
    match next(line) {
        Kind::NoMemory => next(line),
        kind => kind,
    }
}

/// The result of a close; if memory is refused, it is sent again.
fn closed<L: Line>(line: &mut L, reason: Reason) -> Put {
    match close(line, 1000, reason) {
        Put::NoMemory => close(line, 1000, reason),
        answer => answer,
    }
}

/// The first three messages after `upgrade`.
fn first_three<L: Line>(line: &mut L, leftover: Vec<u8>) -> [Kind; 3] {
    line.upgrade(leftover);
    [first_kind(line), first_kind(line), first_kind(line)]
}

fn are_text_and_ping(messages: &[Msg]) -> bool {
    matches!(messages, [Msg::Text(_), Msg::Ping])
}

fn is_one_close(handed: &[SentMessage]) -> bool {
    matches!(handed, [SentMessage::Close(1000, _)])
}

/// The first three messages, the result of a close, and whether the messages and the close are kept.
fn first_held(mut line: Script, leftover: Vec<u8>, reason: Reason) -> ([Kind; 3], Put, [bool; 2]) {
    let kinds = first_three(&mut line, leftover);
    let received = are_text_and_ping(line.received());
    let answer = closed(&mut line, reason);
    (kinds, answer, [received, is_one_close(line.handed())])
}

#[test]
fn memory_for_a_message(rt: HostRuntime) -> Result<(), Fail> {
    let alloc = rt.alloc();
    let reason = bye()?;
    let turns = turns(alloc).or_else(|_| turns(alloc))?;
    let line = Script::new(alloc, VecDeque::new(alloc), turns);
    let held = first_held(line, Vec::new(alloc), reason);
    assert!(rt; held == ([Kind::Idle, Kind::Text, Kind::Ping], Put::Done, [true; 2]));
    Ok(())
}
