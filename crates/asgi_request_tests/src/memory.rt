//! Each call that allocates, when one allocation is refused: the call returns that error, the reader is as before, and
//! the call can be made again. `tests/memory.py` runs these with each allocation refused in turn; with ample memory
//! none is refused.
use crate::calls::Setting;
use crate::script::Call::{self, Event, Feed, Head, Held, HeldCount, Refusal, Whole};
use crate::script::answer;
use std::test::Fail;

const FED: &[Call] = &[
    Feed(&[b'\n'; 10]),
    Feed(&[b'\r'; 100]),
    Feed(&[b'\n'; 1_000]),
    HeldCount(1_110),
];

#[test]
fn memory_for_what_is_fed(rt: HostRuntime) -> Result<(), Fail> {
    answer(&rt, rt.alloc(), Setting::Blocks, FED)
}

const BODY: &[Call] = &[
    Feed(b"post /a%20b?c HTTP/1.1\r\nHost: a\r\nContent-Length: 5\r\n\r\nabcdeGET"),
    Head,
    Event(b"abcd", true),
    Event(b"e", false),
    Whole,
    Held(b"GET"),
];

#[test]
fn memory_for_a_body(rt: HostRuntime) -> Result<(), Fail> {
    answer(&rt, rt.alloc(), Setting::Blocks, BODY)
}

const CHUNKED_BODY: &[Call] = &[
    Feed(b"post /a%20b?c HTTP/1.1\r\nHost: a\r\nTransfer-Encoding: chunked\r\n\r\n"),
    Head,
    Feed(b"5\r\nabcde\r\n0\r\n\r\nGET"),
    Event(b"abcd", true),
    Event(b"e", true),
    Event(b"", false),
    Whole,
    Held(b"GET"),
];

#[test]
fn memory_for_a_chunked_body(rt: HostRuntime) -> Result<(), Fail> {
    answer(&rt, rt.alloc(), Setting::Blocks, CHUNKED_BODY)
}

const REFUSALS: &[Call] = &[
    Feed(b"GET / HTTP/1.1\r\n\r\n"),
    Refusal,
    Feed(b"GET / HTTP/1.1\r\nHost: a\r\n\r\n"),
    Refusal,
];

#[test]
fn memory_for_a_refusal(rt: HostRuntime) -> Result<(), Fail> {
    answer(&rt, rt.alloc(), Setting::Blocks, REFUSALS)
}
