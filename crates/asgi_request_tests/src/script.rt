//! Calls of a reader, one after another, with what each has to give. If memory is refused, a call is made again.
use crate::calls::{
    Setting, held, holds, is_event, is_need, is_whole, new_reader, of_given, of_given_beside, put,
    take,
};
use asgi_request::{Next, RequestReader};
use asgi_types::{HttpScope, Scope};
use std::alloc::{AllocError, Global};
use std::process::Abort;
use std::test::Fail;

/// A call, and what it has to give.
#[derive(Clone, Copy)]
pub enum Call {
    Feed(&'static [u8]),
    Head,
    Event(&'static [u8], bool),
    Whole,
    Refusal,
    /// More bytes are needed.
    Need,
    /// Anything else.
    NoNeed,
    Held(&'static [u8]),
    HeldCount(usize),
}

fn answers(reader: &mut RequestReader, call: &Call) -> Result<bool, AllocError> {
    match call {
        Call::Feed(piece) => feed(reader, piece),
        Call::Head => of_given(next(reader), is_post),
        Call::Event(block, more) => of_given_beside(next(reader), &(*block, *more), is_event),
        Call::Whole => of_given(next(reader), is_whole),
        Call::Refusal => of_given(next(reader), is_refusal),
        Call::Need => of_given(next(reader), is_need),
        Call::NoNeed => of_given(next(reader), is_no_need),
        Call::Held(bytes) => Ok(holds(reader, bytes)),
        Call::HeldCount(count) => Ok(held(reader).len() == *count),
    }
}

/// A reader of this setting answers all calls.
pub fn answer(
    rt: &impl Abort,
    alloc: Global,
    setting: Setting,
    calls: &[Call],
) -> Result<(), Fail> {
    let count = answered(&mut new_reader(alloc, setting), calls)?;
    assert!(rt; count == calls.len(), "call {count}");
    Ok(())
}

/// How many calls were answered as they have to be, up to the first that was not.
fn answered(reader: &mut RequestReader, calls: &[Call]) -> Result<usize, AllocError> {
    for (index, call) in calls.iter().enumerate() {
        if !answers(reader, call)? {
            return Ok(index);
        }
    }
    Ok(calls.len())
}

/// Feeds the piece, and again if memory was refused: then nothing was taken.
fn feed(reader: &mut RequestReader, piece: &[u8]) -> Result<bool, AllocError> {
    let before = held(reader).len();
    match put(reader, piece) {
        Ok(()) => Ok(true),
        Err(_) => feed_again(reader, piece, before),
    }
}

fn feed_again(reader: &mut RequestReader, piece: &[u8], before: usize) -> Result<bool, AllocError> {
    let kept = held(reader).len() == before;
    put(reader, piece)?;
    Ok(kept)
}

/// The next result, asked for again if memory was refused.
fn next(reader: &mut RequestReader) -> Result<Next, AllocError> {
    match take(reader) {
        Ok(next) => Ok(next),
        Err(_) => take(reader),
    }
}

/// Whether the result is the head of a request for `/a%20b?c` with two fields.
fn is_post(next: &Next) -> bool {
    let Next::Head(Scope::Http(http), _) = next else {
        return false;
    };
    is_scope(http)
}

fn is_scope(http: &HttpScope) -> bool {
    http.method.as_str() == "POST"
        && http.scheme.as_str() == "http"
        && http.path.as_str() == "/a b"
        && http.raw_path.bytes() == b"/a%20b".as_slice()
        && http.query_string.bytes() == b"c".as_slice()
        && http.headers.len() == 2
}

fn is_refusal(next: &Next) -> bool {
    matches!(next, Next::Bad(400))
}

fn is_no_need(next: &Next) -> bool {
    !is_need(next)
}
