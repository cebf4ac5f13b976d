//! The calls of a reader, limits, and what is checked of one result.
use asgi_request::{Next, NextOfBody, RequestReader};
use asgi_types::{Incoming, Limits};
use std::alloc::{AllocError, Global};

/// What is checked of the result that a call gave. The result is of any type, so the proof sees no field of it.
pub fn of_given<T: Drop, E: Drop, S, F: FnOnce(&T) -> S>(
    given: Result<T, E>,
    says: F,
) -> Result<S, E>
    requires { F.IsAlwaysCallable says }
{
    let result = given?;
    Ok(says(&result))
}

/// The same, checked beside something else.
pub fn of_given_beside<T: Drop, E: Drop, B, S, F: FnOnce(&T, &B) -> S>(
    given: Result<T, E>,
    beside: &B,
    says: F,
) -> Result<S, E>
    requires { F.IsAlwaysCallable says }
{
    let result = given?;
    Ok(says(&result, beside))
}

/// The limits of a reader, by what they are for.
#[derive(Clone, Copy)]
pub enum Setting {
    Usual,
    /// Blocks of 4.
    Blocks,
    /// Heads of 64 bytes, with two fields, and blocks and bodies of 4.
    Small,
    /// No body, and two fields.
    NoBody,
    /// The greatest limits on a head, with bodies of 1 MiB in blocks of this many bytes.
    Greatest(usize),
}

fn limits_of(setting: Setting) -> Limits {
    match setting {
        Setting::Usual => Limits::usual(),
        Setting::Blocks => limits(16_384, 64, 1_048_576, 4),
        Setting::Small => limits(64, 2, 4, 4),
        Setting::NoBody => limits(16_384, 2, 0, 4),
        Setting::Greatest(block) => limits(65_535, 128, 1_048_576, block),
    }
}

/// The usual limits but for these.
fn limits(max_head: usize, max_headers: usize, max_body: u64, block: usize) -> Limits {
    let made = Limits::new(max_head, max_headers, max_body, block, 16, 30_000, 1 << 40);
    made.unwrap_or(Limits::usual())
}

// What a test proves needs none of the clauses of these calls.
pub fn new_reader(alloc: Global, setting: Setting) -> RequestReader {
    RequestReader::new(alloc, limits_of(setting))
}

pub fn put(reader: &mut RequestReader, piece: &[u8]) -> Result<(), AllocError> {
    reader.feed(piece)
}

pub fn take(reader: &mut RequestReader) -> Result<Next, AllocError> {
    reader.next()
}

pub fn take_inside(reader: &mut RequestReader) -> Result<NextOfBody, AllocError> {
    reader.next_of_body()
}

pub fn held(reader: &RequestReader) -> &[u8] {
    reader.held()
}

pub fn is_head(next: &Next) -> bool {
    matches!(next, Next::Head(_, _))
}

pub fn is_whole(next: &Next) -> bool {
    matches!(next, Next::Whole)
}

pub fn is_need(next: &Next) -> bool {
    matches!(next, Next::Need)
}

/// A block of a body, and whether more follows.
pub type Block<'a> = (&'a [u8], bool);

/// Whether the result is this block of a body.
pub fn is_event(next: &Next, block: &Block) -> bool {
    let Next::Event(Incoming::HttpRequest { body, more_body }) = next else {
        return false;
    };
    body.bytes() == block.0 && *more_body == block.1
}

/// Whether the bytes are what the reader holds.
pub fn holds(reader: &RequestReader, bytes: &[u8]) -> bool {
    held(reader) == bytes
}

/// Whether the reader needs more bytes; its next result is lost.
pub fn waits(reader: &mut RequestReader) -> Result<bool, AllocError> {
    of_given(take(reader), is_need)
}
