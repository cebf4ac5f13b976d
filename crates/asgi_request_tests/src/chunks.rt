//! Chunked bodies: chunks, blocks, trailer sections, and what is none of these.
use crate::calls::Setting;
use crate::feeding::{Row, gives_in_all_ways};
use crate::inputs::joined;
use std::alloc::Global;
use std::process::Abort;
use std::test::Fail;

const HEAD: &[u8] = b"POST / HTTP/1.1\r\nHost: a\r\nTransfer-Encoding: chunked\r\n\r\n";

/// Each body gives this after a head that announces a chunked one, in blocks of 4.
fn bodies_give(rt: &impl Abort, alloc: Global, rows: &[Row]) -> Result<(), Fail> {
    for (bodies, wanted) in rows {
        for body in *bodies {
            body_gives(rt, alloc, body, wanted)?;
        }
    }
    Ok(())
}

fn body_gives(rt: &impl Abort, alloc: Global, body: &[u8], wanted: &str) -> Result<(), Fail> {
    let bytes = joined(alloc, &[HEAD, body])?;
    gives_in_all_ways(rt, alloc, Setting::Blocks, &bytes, wanted)
}

const CHUNKS: &[Row] = &[
    (
        &[b"4\r\nabcd\r\n5\r\nefghi\r\n0\r\nx: y\r\n\r\n"],
        "head POST chunked; more(abcd) more(efgh) more(i) last() whole;",
    ),
    (
        &[b"2\r\nab\r\n2\r\ncd\r\n0\r\n\r\n"],
        "head POST chunked; more(ab) more(cd) last() whole;",
    ),
];

#[test]
fn each_chunk_has_blocks_of_its_own(rt: HostRuntime) -> Result<(), Fail> {
    bodies_give(&rt, rt.alloc(), CHUNKS)
}

/// Digits in both cases, and chunk extensions (RFC 9112, section 7.1.1).
const SIZES: &[Row] = &[(
    &[b"A;n=v\r\n0123456789\r\na\r\n0123456789\r\n0;z\r\n\r\n"],
    "head POST chunked; more(0123) more(4567) more(89) more(0123) more(4567) more(89) last() whole;",
)];

#[test]
fn sizes_are_hexadecimal(rt: HostRuntime) -> Result<(), Fail> {
    bodies_give(&rt, rt.alloc(), SIZES)
}

const LAST: &[Row] = &[
    (
        &[b"0\r\n\r\n", b"0\r\n\n"],
        "head POST chunked; last() whole;",
    ),
    (&[b"0\r\n"], "head POST chunked;"),
];

#[test]
fn the_last_event_comes_once_the_trailer_section_is_whole(rt: HostRuntime) -> Result<(), Fail> {
    bodies_give(&rt, rt.alloc(), LAST)
}

const TRAILERS: &[Row] = &[(
    &[b"00\r\nx: y\nz: w\n\nGET / HTTP/1.1\r\nHost: a\r\n\r\n"],
    "head POST chunked; last() whole;head GET 0; last() whole;",
)];

#[test]
fn trailer_fields_are_dropped(rt: HostRuntime) -> Result<(), Fail> {
    bodies_give(&rt, rt.alloc(), TRAILERS)
}

const OPEN: &[Row] = &[
    (&[b"6\r\nabcde"], "head POST chunked; more(abcd)"),
    (&[b"2\r\nab\r", b"2\r\nabx"], "head POST chunked; more(ab)"),
];

#[test]
fn bytes_that_are_not_there_are_awaited(rt: HostRuntime) -> Result<(), Fail> {
    bodies_give(&rt, rt.alloc(), OPEN)
}

const ENDS: &[Row] = &[(
    &[b"2\r\nabcd\r\n", b"2\r\nab\n\n"],
    "head POST chunked; more(ab) bad 400",
)];

#[test]
fn a_chunk_ends_with_cr_lf(rt: HostRuntime) -> Result<(), Fail> {
    bodies_give(&rt, rt.alloc(), ENDS)
}

/// The last one has 17 digits.
const NO_SIZES: &[Row] = &[(
    &[
        b"-1\r\n",
        b"0x2\r\n",
        b"\r\n",
        b"2\nab\r\n",
        b"00000000000000002\r\n",
    ],
    "head POST chunked; bad 400",
)];

#[test]
fn what_is_no_size_line_is_bad(rt: HostRuntime) -> Result<(), Fail> {
    bodies_give(&rt, rt.alloc(), NO_SIZES)
}

const NO_TRAILERS: &[Row] = &[(&[b"0\r\nno colon\r\n\r\n"], "head POST chunked; bad 400")];

#[test]
fn what_is_no_trailer_section_is_bad(rt: HostRuntime) -> Result<(), Fail> {
    bodies_give(&rt, rt.alloc(), NO_TRAILERS)
}

const LARGEST: &[Row] = &[(&[b"ffffffffffffffff\r\n"], "head POST chunked; bad 413")];

#[test]
fn the_largest_size_is_too_large(rt: HostRuntime) -> Result<(), Fail> {
    bodies_give(&rt, rt.alloc(), LARGEST)
}
