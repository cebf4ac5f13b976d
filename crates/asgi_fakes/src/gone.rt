//! A stream without end, and lines whose client goes away in it.
use crate::apps::{Said, Scripted, Step};
use crate::texts::GET;
use asgi_ws::{Script, ScriptBytes};
use std::alloc::{AllocError, AllocGlobal, Global};
use std::collections::VecDeque;

/// Sends a response without end, and receives nothing. The head leaves with the first chunk, 53 bytes; each other has 6.
pub const STREAM: Scripted = Scripted(&[
    Step::Says(Said::Start(200, &[])),
    Step::Repeats(Said::Part("x")),
]);

/// How many writes succeed, how many bytes one takes at most, and how many of the text in hand are out when the next fails.
pub type Gone = (u64, usize, usize);

/// Of `STREAM`.
pub const GONE: &[Gone] = &[
    (0, 100, 0),
    (1, 9, 9),
    (1, 52, 52),
    (1, 53, 0),
    (2, 50, 0),
    (3, 50, 0),
    (21, 4, 4),
    (50, 100, 0),
];

/// A line of one request, whose client goes away as the row has it.
pub fn gone_line<H: AllocGlobal>(rt: &H, row: &Gone) -> Result<Script, AllocError> {
    let alloc = rt.alloc();
    let pieces = one_request(alloc)?;
    let script = Script::new(alloc, pieces, VecDeque::new(alloc));
    Ok(script.failing_write(row.0, row.1))
}

fn one_request(alloc: Global) -> Result<VecDeque<ScriptBytes>, AllocError> {
    let bytes = Vec::from_slice(alloc, GET)?;
    let mut pieces = VecDeque::new(alloc);
    pieces.push_back(ScriptBytes::Bytes(bytes))?;
    Ok(pieces)
}
