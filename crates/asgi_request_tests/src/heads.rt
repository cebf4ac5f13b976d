//! Heads that are refused, by the first case that holds, and those beside them that are served.
use crate::calls::Setting;
use crate::feeding::{Row, gives};
use std::test::Fail;

/// In whatever case the method is, and even if the target is bad.
const TUNNELS: &[Row] = &[(
    &[
        b"CONNECT a:1 HTTP/1.1\r\nHost: a\r\n\r\n",
        b"connect a:1 HTTP/1.1\r\n\r\n",
    ],
    " bad 501",
)];

#[test]
fn there_are_no_tunnels(rt: HostRuntime) -> Result<(), Fail> {
    gives(&rt, rt.alloc(), Setting::Usual, TUNNELS)
}

const TARGETS: &[Row] = &[(
    &[
        b"GET a HTTP/1.1\r\nHost: a\r\n\r\n",
        b"GET * HTTP/1.1\r\nHost: a\r\n\r\n",
        b"GET ftp://a/ HTTP/1.1\r\nHost: a\r\n\r\n",
        b"GET http:///x HTTP/1.1\r\nHost: a\r\n\r\n",
        b"GET http://?x HTTP/1.1\r\nHost: a\r\n\r\n",
        b"GET http:// HTTP/1.1\r\nHost: a\r\n\r\n",
    ],
    " bad 400",
)];

#[test]
fn any_other_target_is_bad(rt: HostRuntime) -> Result<(), Fail> {
    gives(&rt, rt.alloc(), Setting::Usual, TARGETS)
}

const HOSTS: &[Row] = &[(
    &[
        b"GET / HTTP/1.1\r\n\r\n",
        b"GET / HTTP/1.1\r\nHost: a\r\nhost: a\r\n\r\n",
    ],
    " bad 400",
)];

#[test]
fn one_host_is_asked_for(rt: HostRuntime) -> Result<(), Fail> {
    gives(&rt, rt.alloc(), Setting::Usual, HOSTS)
}

const HOSTS_OF_10: &[Row] = &[(
    &[
        b"GET / HTTP/1.0\r\n\r\n",
        b"GET / HTTP/1.0\r\nHost: a\r\nHost: b\r\n\r\n",
    ],
    "head GET 0 close; last() whole;",
)];

#[test]
fn no_host_is_asked_for_in_http_10(rt: HostRuntime) -> Result<(), Fail> {
    gives(&rt, rt.alloc(), Setting::Usual, HOSTS_OF_10)
}

const BOTH: &[Row] = &[(
    &[
        b"POST / HTTP/1.1\r\nHost: a\r\nContent-Length: 3\r\nTransfer-Encoding: chunked\r\n\r\n0\r\n\r\n",
        b"POST / HTTP/1.1\r\nHost: a\r\nTransfer-Encoding: gzip\r\nContent-Length: 3\r\n\r\n",
    ],
    " bad 400",
)];

#[test]
fn a_length_beside_a_coding_is_bad(rt: HostRuntime) -> Result<(), Fail> {
    gives(&rt, rt.alloc(), Setting::Usual, BOTH)
}

const NO_NUMBERS: &[Row] = &[(
    &[
        b"POST / HTTP/1.1\r\nHost: a\r\nContent-Length: 3\r\nContent-Length: 3\r\n\r\nabc",
        b"POST / HTTP/1.1\r\nHost: a\r\nContent-Length: 3\r\nContent-Length: 4\r\n\r\nabcd",
        b"POST / HTTP/1.1\r\nHost: a\r\nContent-Length: +3\r\n\r\nabc",
        b"POST / HTTP/1.1\r\nHost: a\r\nContent-Length: -3\r\n\r\nabc",
        b"POST / HTTP/1.1\r\nHost: a\r\nContent-Length: 3 3\r\n\r\nabc",
        b"POST / HTTP/1.1\r\nHost: a\r\nContent-Length: 3, 3\r\n\r\nabc",
        b"POST / HTTP/1.1\r\nHost: a\r\nContent-Length: 0x3\r\n\r\nabc",
        b"POST / HTTP/1.1\r\nHost: a\r\nContent-Length:\r\n\r\n",
        b"POST / HTTP/1.1\r\nHost: a\r\nContent-Length: 00000000000000000003\r\n\r\nabc",
    ],
    " bad 400",
)];

#[test]
fn a_length_that_is_no_number_is_bad(rt: HostRuntime) -> Result<(), Fail> {
    gives(&rt, rt.alloc(), Setting::Usual, NO_NUMBERS)
}

const DIGITS: &[Row] = &[
    (
        &[b"POST / HTTP/1.1\r\nHost: a\r\nContent-Length: 0000000000000000003\r\n\r\nabc"],
        "head POST 3; last(abc) whole;",
    ),
    (
        &[b"POST / HTTP/1.1\r\nHost: a\r\nContent-Length: 9999999999999999999\r\n\r\n"],
        " bad 413",
    ),
];

#[test]
fn a_length_has_up_to_19_digits(rt: HostRuntime) -> Result<(), Fail> {
    gives(&rt, rt.alloc(), Setting::Usual, DIGITS)
}

const CODINGS: &[Row] = &[
    (
        &[
            b"POST / HTTP/1.1\r\nHost: a\r\nTransfer-Encoding: gzip, chunked\r\n\r\n0\r\n\r\n",
            b"POST / HTTP/1.1\r\nHost: a\r\nTransfer-Encoding: chunked, identity\r\n\r\n0\r\n\r\n",
            b"POST / HTTP/1.1\r\nHost: a\r\nTransfer-Encoding: xchunked\r\n\r\n0\r\n\r\n",
            b"POST / HTTP/1.1\r\nHost: a\r\nTransfer-Encoding: chunked\r\nTransfer-Encoding: chunked\r\n\r\n",
            b"POST / HTTP/1.1\r\nHost: a\r\nTransfer-Encoding: identity\r\n\r\n",
        ],
        " bad 501",
    ),
    (
        &[b"POST / HTTP/1.1\r\nHost: a\r\nTransfer-Encoding: CHUNKED\r\n\r\n0\r\n\r\n"],
        "head POST chunked; last() whole;",
    ),
];

#[test]
fn one_coding_is_known(rt: HostRuntime) -> Result<(), Fail> {
    gives(&rt, rt.alloc(), Setting::Usual, CODINGS)
}

const CODING_OF_10: &[Row] = &[(
    &[b"POST / HTTP/1.0\r\nTransfer-Encoding: chunked\r\n\r\n0\r\n\r\n"],
    " bad 400",
)];

#[test]
fn a_coding_in_http_10_is_bad(rt: HostRuntime) -> Result<(), Fail> {
    gives(&rt, rt.alloc(), Setting::Usual, CODING_OF_10)
}

/// A folded line, a space before the colon, both if they would hide a coding, a bare CR, a NUL, another version.
const NO_HEADS: &[Row] = &[(
    &[
        b"GET / HTTP/1.1\r\nHost: a\r\nX: b\r\n c\r\n\r\n",
        b"GET / HTTP/1.1\r\nHost : a\r\n\r\n",
        b"POST / HTTP/1.1\r\nHost: a\r\nTransfer-Encoding:\r\n chunked\r\n\r\n0\r\n\r\n",
        b"POST / HTTP/1.1\r\nHost: a\r\nTransfer-Encoding : chunked\r\n\r\n0\r\n\r\n",
        b"GET / HTTP/1.1\r\nHost: a\rb\r\n\r\n",
        b"GET / HTTP/1.1\r\nHost: a\0\r\n\r\n",
        b"GET / HTTP/2.0\r\nHost: a\r\n\r\n",
    ],
    " bad 400",
)];

#[test]
fn what_is_no_head_is_bad(rt: HostRuntime) -> Result<(), Fail> {
    gives(&rt, rt.alloc(), Setting::Usual, NO_HEADS)
}

const FACTS: &[Row] = &[
    (
        &[b"\r\n\r\nhead / HTTP/1.1\r\nHost: a\r\nConnection: x, Close\r\n\r\n\r\nGE"],
        "head HEAD 0 head_only close; last() whole;",
    ),
    (
        &[b"GET / HTTP/1.1\nHost: a\nExpect: 100-continue\n\n\r\nGET * HTTP/1.1\n\n"],
        "head GET 0; last() whole; bad 400",
    ),
    (
        &[
            b"POST / HTTP/1.1\r\nHost: a\r\nExpect: 100-continue\r\nTransfer-Encoding: chunked\r\n\r\n0\r\n\r\n",
        ],
        "head POST chunked expect; last() whole;",
    ),
];

const TRAILERS: &[Row] = &[
    (
        &[
            b"GET / HTTP/1.1\r\nHost: a\r\nTE: trailers\r\n\r\n",
            b"GET / HTTP/1.1\r\nHost: a\r\nte: deflate;q=0.5 ,\tTrailers\r\n\r\n",
            b"GET / HTTP/1.1\r\nHost: a\r\nTE: deflate\r\nX: y\r\nTE: trailers\r\n\r\n",
        ],
        "head GET 0 trailers; last() whole;",
    ),
    (
        &[
            b"GET / HTTP/1.1\r\nHost: a\r\nTE: trailers;q=1\r\n\r\n",
            b"GET / HTTP/1.1\r\nHost: a\r\nTE: trailer, trailersx\r\n\r\n",
            b"GET / HTTP/1.1\r\nHost: a\r\nTE:\r\nTrailer: trailers\r\n\r\n",
        ],
        "head GET 0; last() whole;",
    ),
    (
        &[b"GET / HTTP/1.0\r\nTE: trailers\r\n\r\n"],
        "head GET 0 close; last() whole;",
    ),
];

#[test]
fn a_client_takes_trailers_by_a_token_of_te(rt: HostRuntime) -> Result<(), Fail> {
    gives(&rt, rt.alloc(), Setting::Usual, TRAILERS)
}

#[test]
fn facts_are_those_of_the_head(rt: HostRuntime) -> Result<(), Fail> {
    gives(&rt, rt.alloc(), Setting::Usual, FACTS)
}
