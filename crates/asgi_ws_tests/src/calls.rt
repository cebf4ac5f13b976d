//! The calls of a line of any kind, and checks of their results. What a test proves needs none of their clauses.
use asgi_types::{Octets, Payload, Reason};
use asgi_ws::{Got, Line, Msg, Put};
use std::alloc::{AllocError, Global};
use std::test::Fail;

/// What a read returned, without its data.
#[derive(Clone, Copy, PartialEq, Eq)]
pub enum Kind {
    Text,
    Bytes,
    Ping,
    Pong,
    /// A close with a code and a reason.
    Close,
    /// A close without a body.
    EmptyClose,
    Idle,
    Ended,
    Failed,
    NoMemory,
}

fn kind_of_message(message: &Msg) -> Kind {
    match message {
        Msg::Text(_) => Kind::Text,
        Msg::Bytes(_) => Kind::Bytes,
        Msg::Ping => Kind::Ping,
        Msg::Pong => Kind::Pong,
        Msg::Close(Some(_)) => Kind::Close,
        Msg::Close(None) => Kind::EmptyClose,
    }
}

pub fn kind_of(got: &Got) -> Kind {
    match got {
        Got::Message(message) => kind_of_message(message),
        Got::Idle => Kind::Idle,
        Got::Ended => Kind::Ended,
        Got::Failed => Kind::Failed,
        Got::NoMemory => Kind::NoMemory,
    }
}

/// The result of `says` on a value, which is then dropped. The value has any type, so the proof sees no field of it.
pub fn of<T: Drop, S, F: FnOnce(&T) -> S>(value: T, says: F) -> S
    requires { F.IsAlwaysCallable says }
{
    says(&value)
}

/// A message of these bytes.
pub fn bytes(alloc: Global, content: &[u8]) -> Result<Payload, AllocError> {
    Ok(Payload::Bytes(Octets::new(content.to_vec(alloc)?)))
}

pub fn bye() -> Result<Reason, Fail> {
    Ok(Reason::new("bye").ok_or("a short reason")?)
}

pub fn read<L: Line>(line: &mut L) -> Got {
    line.read_message()
}

/// The kind of the next message.
pub fn next<L: Line>(line: &mut L) -> Kind {
    of(read(line), kind_of)
}

pub fn send<L: Line>(line: &mut L, payload: Payload) -> Put {
    line.send_message(payload)
}

pub fn close<L: Line>(line: &mut L, code: u16, reason: Reason) -> Put {
    line.send_close(code, reason)
}

/// How many reads, from the first on, return these kinds.
pub fn reads_held<L: Line>(line: &mut L, kinds: &[Kind]) -> usize {
    for (index, kind) in kinds.iter().enumerate() {
        if (next(line), index) != (*kind, index) {
            return index;
        }
    }
    kinds.len()
}

/// How many bytes of text a read returned, None if it failed.
pub fn read_text<L: Line>(line: &mut L, buf: &mut [u8]) -> Option<usize> {
    line.read_some(buf).ok()
}

/// How many bytes of text a write took, None if it failed.
pub fn write_text<L: Line>(line: &mut L, bytes: &[u8]) -> Option<usize> {
    line.write_some(bytes).ok()
}

/// How many reads of text and how many other calls failed.
pub fn counts<L: Line>(line: &L) -> (u64, u64) {
    (line.faults(), line.failures())
}

pub fn failures<L: Line>(line: &L) -> u64 {
    line.failures()
}
