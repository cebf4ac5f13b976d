//! Bodies of an announced length: blocks, and what follows them.
use crate::calls::Setting;
use crate::feeding::{Row, gives};
use std::test::Fail;

const EMPTY: &[Row] = &[
    (
        &[b"POST / HTTP/1.1\r\nHost: a\r\nContent-Length: 0\r\n\r\n"],
        "head POST 0; last() whole;",
    ),
    (
        &[b"GET / HTTP/1.1\r\nHost: a\r\n\r\n"],
        "head GET 0; last() whole;",
    ),
];

#[test]
fn an_empty_body_has_one_event(rt: HostRuntime) -> Result<(), Fail> {
    gives(&rt, rt.alloc(), Setting::Blocks, EMPTY)
}

const CUT: &[Row] = &[
    (
        &[b"POST / HTTP/1.1\r\nHost: a\r\nContent-Length: 8\r\n\r\nabcdefgh"],
        "head POST 8; more(abcd) last(efgh) whole;",
    ),
    (
        &[b"POST / HTTP/1.1\r\nHost: a\r\nContent-Length: 9\r\n\r\nabcdefghi"],
        "head POST 9; more(abcd) more(efgh) last(i) whole;",
    ),
];

#[test]
fn a_body_is_cut_into_blocks(rt: HostRuntime) -> Result<(), Fail> {
    gives(&rt, rt.alloc(), Setting::Blocks, CUT)
}

const OPEN: &[Row] = &[
    (
        &[b"POST / HTTP/1.1\r\nHost: a\r\nContent-Length: 10\r\n\r\nabcd"],
        "head POST 10; more(abcd)",
    ),
    (
        &[b"POST / HTTP/1.1\r\nHost: a\r\nContent-Length: 3\r\n\r\nab"],
        "head POST 3;",
    ),
];

#[test]
fn a_block_is_given_once_it_is_whole(rt: HostRuntime) -> Result<(), Fail> {
    gives(&rt, rt.alloc(), Setting::Blocks, OPEN)
}

const FOLLOWED: &[Row] = &[
    (
        &[
            b"POST / HTTP/1.1\r\nHost: a\r\nExpect: 100-continue\r\nContent-Length: 3\r\n\r\nabcGET / HTTP/1.1\r\nHost: a\r\n\r\n",
        ],
        "head POST 3 expect; last(abc) whole;head GET 0; last() whole;",
    ),
    (
        &[
            b"POST / HTTP/1.1\r\nHost: a\r\nContent-Length: 5\r\n\r\nabcdeGET / HTTP/1.1\r\nHost: a\r\n\r\n",
        ],
        "head POST 5; more(abcd) last(e) whole;head GET 0; last() whole;",
    ),
];

#[test]
fn the_next_request_follows_a_body(rt: HostRuntime) -> Result<(), Fail> {
    gives(&rt, rt.alloc(), Setting::Blocks, FOLLOWED)
}

const UNEXPECTED: &[Row] = &[(
    &[b"POST / HTTP/1.0\r\nExpect: 100-continue\r\nContent-Length: 3\r\n\r\nabc"],
    "head POST 3 close; last(abc) whole;",
)];

#[test]
fn nothing_is_expected_in_http_10(rt: HostRuntime) -> Result<(), Fail> {
    gives(&rt, rt.alloc(), Setting::Blocks, UNEXPECTED)
}

/// The whole length is one block, and nothing is given of a part of it.
const USUAL: &[Row] = &[
    (
        &[b"POST / HTTP/1.1\r\nHost: a\r\nContent-Length: 9\r\n\r\nabcdefghi"],
        "head POST 9; last(abcdefghi) whole;",
    ),
    (
        &[b"POST / HTTP/1.1\r\nHost: a\r\nContent-Length: 10\r\n\r\nabcd"],
        "head POST 10;",
    ),
    (
        &[
            b"POST / HTTP/1.1\r\nHost: a\r\nContent-Length: 5\r\n\r\nabcdeGET / HTTP/1.1\r\nHost: a\r\n\r\n",
        ],
        "head POST 5; last(abcde) whole;head GET 0; last() whole;",
    ),
];

#[test]
fn the_usual_block_is_larger(rt: HostRuntime) -> Result<(), Fail> {
    gives(&rt, rt.alloc(), Setting::Usual, USUAL)
}
