//! Inputs at the edge of each limit, and one past it.
use crate::calls::Setting;
use crate::feeding::{Row, gives, gives_in_all_ways};
use crate::inputs::filled;
use std::alloc::Global;
use std::process::Abort;
use std::test::Fail;

/// A front, how many letters come after it, the end, and the words of what the reader gives for it.
type Filled = (&'static [u8], usize, &'static [u8], &'static str);

fn filled_give(rt: &impl Abort, alloc: Global, rows: &[Filled]) -> Result<(), Fail> {
    for row in rows {
        row_gives(rt, alloc, row)?;
    }
    Ok(())
}

fn row_gives(
    rt: &impl Abort,
    alloc: Global,
    (front, letters, end, wanted): &Filled,
) -> Result<(), Fail> {
    let bytes = filled(alloc, front, *letters, end)?;
    gives_in_all_ways(rt, alloc, Setting::Small, &bytes, wanted)
}

const HEADS: &[Filled] = &[
    (
        b"GET / HTTP/1.1\r\nHost: a\r\nX: ",
        32,
        b"\r\n\r\n",
        "head GET 0; last() whole;",
    ),
    (
        b"GET / HTTP/1.1\r\nHost: a\r\nX: ",
        33,
        b"\r\n\r\n",
        " bad 431",
    ),
];

#[test]
fn a_head_keeps_to_its_length(rt: HostRuntime) -> Result<(), Fail> {
    filled_give(&rt, rt.alloc(), HEADS)
}

const EMPTY_LINES: &[Row] = &[(&[&[b'\n'; 64]], " bad 431"), (&[&[b'\n'; 63]], "")];

#[test]
fn empty_lines_count_in_a_head(rt: HostRuntime) -> Result<(), Fail> {
    gives(&rt, rt.alloc(), Setting::Small, EMPTY_LINES)
}

const FIELDS: &[Row] = &[(
    &[b"GET / HTTP/1.1\r\nHost: a\r\nb: c\r\nd: e\r\n\r\n"],
    " bad 400",
)];

#[test]
fn a_head_keeps_to_its_count_of_fields(rt: HostRuntime) -> Result<(), Fail> {
    gives(&rt, rt.alloc(), Setting::Small, FIELDS)
}

const SECTIONS: &[Filled] = &[
    (
        b"POST / HTTP/1.1\r\nHost: a\r\nTransfer-Encoding: chunked\r\n\r\n0\r\nx: ",
        57,
        b"\r\n\r\n",
        "head POST chunked; last() whole;",
    ),
    (
        b"POST / HTTP/1.1\r\nHost: a\r\nTransfer-Encoding: chunked\r\n\r\n0\r\nx: ",
        58,
        b"\r\n\r\n",
        "head POST chunked; bad 400",
    ),
];

#[test]
fn a_trailer_section_keeps_to_the_length_of_a_head(rt: HostRuntime) -> Result<(), Fail> {
    filled_give(&rt, rt.alloc(), SECTIONS)
}

const SIZE_LINES: &[Filled] = &[
    (
        b"POST / HTTP/1.1\r\nHost: a\r\nTransfer-Encoding: chunked\r\n\r\n0;",
        252,
        b"\r\n\r\n",
        "head POST chunked; last() whole;",
    ),
    (
        b"POST / HTTP/1.1\r\nHost: a\r\nTransfer-Encoding: chunked\r\n\r\n0;",
        253,
        b"\r\n\r\n",
        "head POST chunked; bad 400",
    ),
];

#[test]
fn a_size_line_has_256_bytes(rt: HostRuntime) -> Result<(), Fail> {
    filled_give(&rt, rt.alloc(), SIZE_LINES)
}

const LENGTHS: &[Row] = &[
    (
        &[b"POST / HTTP/1.1\r\nHost: a\r\nContent-Length: 4\r\n\r\nabcd"],
        "head POST 4; last(abcd) whole;",
    ),
    (
        &[b"POST / HTTP/1.1\r\nHost: a\r\nContent-Length: 5\r\n\r\nabcde"],
        " bad 413",
    ),
];

#[test]
fn a_body_keeps_to_its_length(rt: HostRuntime) -> Result<(), Fail> {
    gives(&rt, rt.alloc(), Setting::Small, LENGTHS)
}

/// The sum of the chunks counts.
const SUMS: &[Row] = &[
    (
        &[
            b"POST / HTTP/1.1\r\nHost: a\r\nTransfer-Encoding: chunked\r\n\r\n5\r\nabcde\r\n0\r\n\r\n",
        ],
        "head POST chunked; bad 413",
    ),
    (
        &[
            b"POST / HTTP/1.1\r\nHost: a\r\nTransfer-Encoding: chunked\r\n\r\n3\r\nabc\r\n2\r\nde\r\n0\r\n\r\n",
        ],
        "head POST chunked; more(abc) bad 413",
    ),
    (
        &[
            b"POST / HTTP/1.1\r\nHost: a\r\nTransfer-Encoding: chunked\r\n\r\n3\r\nabc\r\n1\r\nd\r\n0\r\n\r\n",
        ],
        "head POST chunked; more(abc) more(d) last() whole;",
    ),
];

#[test]
fn a_chunked_body_keeps_to_its_length(rt: HostRuntime) -> Result<(), Fail> {
    gives(&rt, rt.alloc(), Setting::Small, SUMS)
}

const TRAILERS: &[Row] = &[
    (
        &[
            b"POST / HTTP/1.1\r\nHost: a\r\nTransfer-Encoding: chunked\r\n\r\n0\r\na: b\r\nc: d\r\ne: f\r\n\r\n",
        ],
        "head POST chunked; bad 400",
    ),
    (
        &[
            b"POST / HTTP/1.1\r\nHost: a\r\nTransfer-Encoding: chunked\r\n\r\n0\r\na: b\r\nc: d\r\n\r\n",
        ],
        "head POST chunked; last() whole;",
    ),
];

#[test]
fn a_trailer_section_keeps_to_its_count_of_fields(rt: HostRuntime) -> Result<(), Fail> {
    gives(&rt, rt.alloc(), Setting::Small, TRAILERS)
}

const NO_BODY: &[Row] = &[
    (
        &[b"POST / HTTP/1.1\r\nHost: a\r\nContent-Length: 1\r\n\r\na"],
        " bad 413",
    ),
    (
        &[b"POST / HTTP/1.1\r\nHost: a\r\nContent-Length: 0\r\n\r\n"],
        "head POST 0; last() whole;",
    ),
    (
        &[b"POST / HTTP/1.1\r\nHost: a\r\nTransfer-Encoding: chunked\r\n\r\n0\r\n\r\n"],
        "head POST chunked; last() whole;",
    ),
    (
        &[b"POST / HTTP/1.1\r\nHost: a\r\nTransfer-Encoding: chunked\r\n\r\n1\r\n"],
        "head POST chunked; bad 413",
    ),
];

#[test]
fn no_body_may_be_served(rt: HostRuntime) -> Result<(), Fail> {
    gives(&rt, rt.alloc(), Setting::NoBody, NO_BODY)
}
