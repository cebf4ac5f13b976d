//! Where a line ends and what it is made of: bare line feeds and carriage returns, folds, blanks, and bytes that have no
//! place. `Targets` answers, with the target of each request that it hears.
use crate::rows::{BAD, EVIL, ONE, Row, TWO, check};
use asgi_fakes::App;
use std::test::Fail;

const LINE_FEEDS: &[Row] = &[
    // RFC 9112, 2.2: LF alone ends a line too, with a CR before the other one or not.
    ("LF alone", &[b"GET / HTTP/1.1\nHost: a\n\n", EVIL], TWO),
    (
        "LF, and CR LF at the end",
        &[b"GET / HTTP/1.1\nHost: a\n\r\n", EVIL],
        TWO,
    ),
    (
        "CR LF, and LF at the end",
        &[b"GET / HTTP/1.1\r\nHost: a\r\n\n", EVIL],
        TWO,
    ),
    (
        "LF after the request line",
        &[b"GET / HTTP/1.1\nHost: a\r\n\r\n", EVIL],
        TWO,
    ),
    (
        "LF after a field",
        &[b"GET / HTTP/1.1\r\nHost: a\n\r\n", EVIL],
        TWO,
    ),
    (
        "a head hidden behind LF LF",
        &[b"GET / HTTP/1.1\r\nHost: a\r\nX: y\n\n", EVIL],
        TWO,
    ),
    (
        "a field hidden behind LF",
        &[
            b"GET / HTTP/1.1\r\nHost: a\r\nX: y\nContent-Length: 31\r\n\r\n",
            EVIL,
        ],
        ONE,
    ),
    (
        "LF in the target",
        &[b"GET /\n HTTP/1.1\r\nHost: a\r\n\r\n", EVIL],
        BAD,
    ),
    (
        "LF in the method",
        &[b"GE\nT / HTTP/1.1\r\nHost: a\r\n\r\n", EVIL],
        BAD,
    ),
    (
        "LF in a name",
        &[b"GET / HTTP/1.1\r\nHost: a\r\nX\n: y\r\n\r\n", EVIL],
        BAD,
    ),
    // RFC 9112, 2.2: empty lines before a request are ignored.
    (
        "empty lines before both",
        &[b"\r\n\n\r\nGET / HTTP/1.1\r\nHost: a\r\n\r\n\n\r\n", EVIL],
        TWO,
    ),
];

#[test]
fn a_line_feed_ends_a_line(rt: HostRuntime) -> Result<(), Fail> {
    check(&rt, App::Targets, LINE_FEEDS)
}

const CARRIAGE_RETURNS: &[Row] = &[
    // RFC 9112, 2.2: a bare CR makes what it stands in invalid.
    (
        "CR before the method",
        &[b"\rGET / HTTP/1.1\r\nHost: a\r\n\r\n", EVIL],
        BAD,
    ),
    (
        "two CR before the method",
        &[b"\r\r\nGET / HTTP/1.1\r\nHost: a\r\n\r\n", EVIL],
        BAD,
    ),
    (
        "CR after the method",
        &[b"GET\r/ HTTP/1.1\r\nHost: a\r\n\r\n", EVIL],
        BAD,
    ),
    (
        "CR in the target",
        &[b"GET /\rx HTTP/1.1\r\nHost: a\r\n\r\n", EVIL],
        BAD,
    ),
    (
        "CR after the target",
        &[b"GET /\rHTTP/1.1\r\nHost: a\r\n\r\n", EVIL],
        BAD,
    ),
    (
        "CR in the version",
        &[b"GET / HTTP/1\r.1\r\nHost: a\r\n\r\n", EVIL],
        BAD,
    ),
    (
        "CR ends the request line",
        &[b"GET / HTTP/1.1\rHost: a\r\n\r\n", EVIL],
        BAD,
    ),
    (
        "CR CR LF ends the request line",
        &[b"GET / HTTP/1.1\r\r\nHost: a\r\n\r\n", EVIL],
        BAD,
    ),
    (
        "CR CR LF ends a field",
        &[b"GET / HTTP/1.1\r\nHost: a\r\r\n\r\n", EVIL],
        BAD,
    ),
    (
        "CR before a name",
        &[b"GET / HTTP/1.1\r\nHost: a\r\n\rX: y\r\n\r\n", EVIL],
        BAD,
    ),
    (
        "CR in a name",
        &[b"GET / HTTP/1.1\r\nHost: a\r\nX\r: y\r\n\r\n", EVIL],
        BAD,
    ),
    (
        "CR before a value",
        &[b"GET / HTTP/1.1\r\nHost: a\r\nX:\ry\r\n\r\n", EVIL],
        BAD,
    ),
    (
        "CR ends a field",
        &[b"GET / HTTP/1.1\r\nHost: a\r\nX: y\rZ: w\r\n\r\n", EVIL],
        BAD,
    ),
    (
        "CR LF CR ends no head",
        &[b"GET / HTTP/1.1\r\nHost: a\r\n\r", EVIL],
        BAD,
    ),
    (
        "CR CR LF ends no head",
        &[b"GET / HTTP/1.1\r\nHost: a\r\n\r\r\n\r\n", EVIL],
        BAD,
    ),
    (
        "CR CR ends no head",
        &[b"GET / HTTP/1.1\r\nHost: a\r\r", EVIL],
        BAD,
    ),
];

#[test]
fn a_bare_carriage_return_is_refused(rt: HostRuntime) -> Result<(), Fail> {
    check(&rt, App::Targets, CARRIAGE_RETURNS)
}

const FIELDS: &[Row] = &[
    // RFC 9112, 2.2: no blank stands before the first field; 5.2: no line is folded.
    (
        "a fold before the first field",
        &[b"GET / HTTP/1.1\r\n Host: a\r\n\r\n", EVIL],
        BAD,
    ),
    (
        "a fold by a tab",
        &[b"GET / HTTP/1.1\r\nHost: a\r\nX: y\r\n\tz\r\n\r\n", EVIL],
        BAD,
    ),
    (
        "a fold by LF",
        &[b"GET / HTTP/1.1\r\nHost: a\r\nX: y\n z\r\n\r\n", EVIL],
        BAD,
    ),
    (
        "a fold of an empty value",
        &[b"GET / HTTP/1.1\r\nHost: a\r\nX:\r\n y\r\n\r\n", EVIL],
        BAD,
    ),
    (
        "a fold of nothing",
        &[b"GET / HTTP/1.1\r\nHost: a\r\n \r\n\r\n", EVIL],
        BAD,
    ),
    (
        "a fold of the request line",
        &[b"GET /\r\n HTTP/1.1\r\nHost: a\r\n\r\n", EVIL],
        BAD,
    ),
    (
        "a fold of a length",
        &[
            b"GET / HTTP/1.1\r\nHost: a\r\nContent-Length:\r\n 31\r\n\r\n",
            EVIL,
        ],
        BAD,
    ),
    // RFC 9112, 5.1: no blank stands between a name and its colon.
    (
        "a blank before the colon of a length",
        &[
            b"GET / HTTP/1.1\r\nHost: a\r\nContent-Length : 31\r\n\r\n",
            EVIL,
        ],
        BAD,
    ),
    (
        "a tab before the colon",
        &[b"GET / HTTP/1.1\r\nHost: a\r\nX\t: y\r\n\r\n", EVIL],
        BAD,
    ),
    (
        "a blank in a name",
        &[b"GET / HTTP/1.1\r\nHost: a\r\nX Y: z\r\n\r\n", EVIL],
        BAD,
    ),
    (
        "a vertical tab before the colon",
        &[b"GET / HTTP/1.1\r\nHost: a\r\nX\x0b: y\r\n\r\n", EVIL],
        BAD,
    ),
    (
        "a line with no colon",
        &[b"GET / HTTP/1.1\r\nHost: a\r\nX\r\n\r\n", EVIL],
        BAD,
    ),
    // RFC 9110, 5.1 and 5.6.2: a name is a token.
    (
        "a bracket in a name",
        &[b"GET / HTTP/1.1\r\nHost: a\r\nX(: y\r\n\r\n", EVIL],
        BAD,
    ),
    (
        "a byte above 127 in a name",
        &[b"GET / HTTP/1.1\r\nHost: a\r\nX\x80: y\r\n\r\n", EVIL],
        BAD,
    ),
    (
        "a delete byte in a name",
        &[b"GET / HTTP/1.1\r\nHost: a\r\nX\x7f: y\r\n\r\n", EVIL],
        BAD,
    ),
    // RFC 9110, 5.5: no control byte is part of a value, and bytes above 127 are.
    (
        "a control byte in a value",
        &[b"GET / HTTP/1.1\r\nHost: a\r\nX: \x01\r\n\r\n", EVIL],
        BAD,
    ),
    (
        "a delete byte in a value",
        &[b"GET / HTTP/1.1\r\nHost: a\r\nX: \x7f\r\n\r\n", EVIL],
        BAD,
    ),
    (
        "bytes above 127 in a value",
        &[b"GET / HTTP/1.1\r\nHost: a\r\nX: \x80\xff\r\n\r\n", EVIL],
        TWO,
    ),
];

#[test]
fn a_field_is_a_token_a_colon_and_a_value(rt: HostRuntime) -> Result<(), Fail> {
    check(&rt, App::Targets, FIELDS)
}

const REQUEST_LINES: &[Row] = &[
    // RFC 9112, 3: method, one space, target, one space, version, and nothing else.
    (
        "a blank before the method",
        &[b" GET / HTTP/1.1\r\nHost: a\r\n\r\n", EVIL],
        BAD,
    ),
    (
        "a tab after the method",
        &[b"GET\t/ HTTP/1.1\r\nHost: a\r\n\r\n", EVIL],
        BAD,
    ),
    (
        "a tab after the target",
        &[b"GET /\tHTTP/1.1\r\nHost: a\r\n\r\n", EVIL],
        BAD,
    ),
    (
        "a blank in the target",
        &[b"GET / x HTTP/1.1\r\nHost: a\r\n\r\n", EVIL],
        BAD,
    ),
    (
        "two blanks before the version",
        &[b"GET /  HTTP/1.1\r\nHost: a\r\n\r\n", EVIL],
        BAD,
    ),
    (
        "a blank after the version",
        &[b"GET / HTTP/1.1 \r\nHost: a\r\n\r\n", EVIL],
        BAD,
    ),
    (
        "a NUL in the target",
        &[b"GET /\x00 HTTP/1.1\r\nHost: a\r\n\r\n", EVIL],
        BAD,
    ),
    // RFC 9110, 9.1: a method is a token.
    (
        "a colon in the method",
        &[b"G:T / HTTP/1.1\r\nHost: a\r\n\r\n", EVIL],
        BAD,
    ),
    ("no method", &[b"/ HTTP/1.1\r\nHost: a\r\n\r\n", EVIL], BAD),
    // RFC 9112, 2.3: the name of the protocol has a case, and its version two digits.
    (
        "a version in lower case",
        &[b"GET / http/1.1\r\nHost: a\r\n\r\n", EVIL],
        BAD,
    ),
    // RFC 9112, 2.3: only 1.0 and 1.1 are served.
    (
        "version 1.2",
        &[b"GET / HTTP/1.2\r\nHost: a\r\n\r\n", EVIL],
        BAD,
    ),
    (
        "version 1.10",
        &[b"GET / HTTP/1.10\r\nHost: a\r\n\r\n", EVIL],
        BAD,
    ),
    (
        "version 01.1",
        &[b"GET / HTTP/01.1\r\nHost: a\r\n\r\n", EVIL],
        BAD,
    ),
    (
        "version 1",
        &[b"GET / HTTP/1\r\nHost: a\r\n\r\n", EVIL],
        BAD,
    ),
    (
        "version 0.9",
        &[b"GET / HTTP/0.9\r\nHost: a\r\n\r\n", EVIL],
        BAD,
    ),
];

#[test]
fn a_request_line_has_three_parts(rt: HostRuntime) -> Result<(), Fail> {
    check(&rt, App::Targets, REQUEST_LINES)
}
