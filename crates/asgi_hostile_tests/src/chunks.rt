//! Chunked bodies that two readers may take differently. `Echo` answers, with the body of each request that it hears.
use crate::rows::{Answer, EVIL, Row, check};
use asgi_conn::Outcome;
use asgi_fakes::App;
use asgi_fakes::texts::{BAD_REQUEST, ECHO_HEAD, LAST_CHUNK, TOO_LARGE_CONTENT};
use std::test::Fail;

const CHUNKED: &[u8] = b"POST / HTTP/1.1\r\nHost: a\r\nTransfer-Encoding: chunked\r\n\r\n";

/// The body is `ab`, and the request after it is one of its own.
const AB: Answer = (
    &[ECHO_HEAD, b"2\r\nab\r\n", LAST_CHUNK, ECHO_HEAD, LAST_CHUNK],
    Outcome::Finished,
    2,
);

/// The same with an empty body.
const EMPTY: Answer = (
    &[ECHO_HEAD, LAST_CHUNK, ECHO_HEAD, LAST_CHUNK],
    Outcome::Finished,
    2,
);

/// The body is faulty before any of it is heard.
const FAULTY: Answer = (&[BAD_REQUEST], Outcome::Refused(400), 1);

const TOO_MUCH: Answer = (&[TOO_LARGE_CONTENT], Outcome::Refused(413), 1);

/// The body is faulty once `ab` was heard, and sent back: then nothing is added.
const AB_FAULTY: Answer = (&[ECHO_HEAD, b"2\r\nab\r\n"], Outcome::InputBroke, 1);

/// The same with the seven bytes of a chunk that is shorter than its size.
const CRLF_FAULTY: Answer = (
    &[ECHO_HEAD, b"7\r\nab\r\n0\r\n\r\n"],
    Outcome::InputBroke,
    1,
);

/// What follows an empty body is no head.
const TWO_ENDS: Answer = (
    &[ECHO_HEAD, LAST_CHUNK, BAD_REQUEST],
    Outcome::Refused(400),
    1,
);

const EXTENSIONS: &[Row] = &[
    // RFC 9112, 7.1.1: extensions are ignored, whatever they are made of, up to CR LF.
    (
        "an extension in quotes",
        &[CHUNKED, b"2;a=\"b;c\"\r\nab\r\n0\r\n\r\n", EVIL],
        AB,
    ),
    (
        "an open quote at the end of the line",
        &[CHUNKED, b"2;a=\"\r\nab\r\n0\r\n\r\n", EVIL],
        AB,
    ),
    (
        "an escaped quote",
        &[CHUNKED, b"2;a=\"\\\"\r\nab\r\n0;\"\r\n\r\n", EVIL],
        AB,
    ),
    (
        "an extension with no name",
        &[CHUNKED, b"2;\r\nab\r\n0;\r\n\r\n", EVIL],
        AB,
    ),
    (
        "blanks around an extension",
        &[CHUNKED, b"2 \t; a = b \r\nab\r\n0\t\r\n\r\n", EVIL],
        AB,
    ),
    (
        "a NUL in an extension",
        &[CHUNKED, b"2;\x00\r\nab\r\n0\r\n\r\n", EVIL],
        AB,
    ),
    // RFC 9112, 7.1: CR LF alone ends a size line, and neither byte is part of an extension.
    (
        "a line feed in a quoted extension",
        &[CHUNKED, b"2;a=\"\n\"\r\nab\r\n0\r\n\r\n", EVIL],
        FAULTY,
    ),
    (
        "a line feed after an extension",
        &[CHUNKED, b"2;a\nab\r\n0\r\n\r\n", EVIL],
        FAULTY,
    ),
    (
        "a bare CR in an extension",
        &[CHUNKED, b"2;a\rb\r\nab\r\n0\r\n\r\n", EVIL],
        FAULTY,
    ),
    (
        "two CR after an extension",
        &[CHUNKED, b"2;a\r\r\nab\r\n0\r\n\r\n", EVIL],
        FAULTY,
    ),
    (
        "two CR after a size",
        &[CHUNKED, b"2\r\r\nab\r\n0\r\n\r\n", EVIL],
        FAULTY,
    ),
    (
        "a line feed after the last size",
        &[CHUNKED, b"0\n\r\n", EVIL],
        FAULTY,
    ),
];

#[test]
fn an_extension_hides_no_line_end(rt: HostRuntime) -> Result<(), Fail> {
    check(&rt, App::Echo, EXTENSIONS)
}

const SIZES: &[Row] = &[
    // RFC 9112, 7.1: hexadecimal digits, and leading zeros are digits.
    (
        "a size of 16 digits",
        &[CHUNKED, b"0000000000000002\r\nab\r\n0\r\n\r\n", EVIL],
        AB,
    ),
    (
        "a last size of 3 zeros",
        &[CHUNKED, b"2\r\nab\r\n000\r\n\r\n", EVIL],
        AB,
    ),
    (
        "a last size of 16 zeros",
        &[CHUNKED, b"2\r\nab\r\n0000000000000000\r\n\r\n", EVIL],
        AB,
    ),
    // RFC 9112, 7.1 asks to guard against numbers that overflow: at most 16 digits are taken.
    (
        "a last size of 17 zeros",
        &[CHUNKED, b"00000000000000000\r\n\r\n", EVIL],
        FAULTY,
    ),
    (
        "a size that is 2 in 64 bits",
        &[CHUNKED, b"10000000000000002\r\nab\r\n0\r\n\r\n", EVIL],
        FAULTY,
    ),
    // RFC 9110, 15.5.14: the body may have 1 MiB.
    (
        "a size that is 2 in 32 bits",
        &[CHUNKED, b"100000002\r\nab\r\n0\r\n\r\n", EVIL],
        TOO_MUCH,
    ),
    (
        "a size that is below 0 in 64 bits",
        &[CHUNKED, b"fffffffffffffffe\r\nab\r\n0\r\n\r\n", EVIL],
        TOO_MUCH,
    ),
    // RFC 9112, 7.1: a size is digits alone.
    (
        "a blank before a size",
        &[CHUNKED, b" 2\r\nab\r\n0\r\n\r\n", EVIL],
        FAULTY,
    ),
    (
        "a blank in a size",
        &[CHUNKED, b"0 2\r\nab\r\n0\r\n\r\n", EVIL],
        FAULTY,
    ),
    (
        "a plus sign",
        &[CHUNKED, b"+2\r\nab\r\n0\r\n\r\n", EVIL],
        FAULTY,
    ),
    (
        "a size in capital hexadecimal notation",
        &[CHUNKED, b"0X2\r\nab\r\n0\r\n\r\n", EVIL],
        FAULTY,
    ),
    (
        "a size with an underscore",
        &[CHUNKED, b"0_2\r\nab\r\n0\r\n\r\n", EVIL],
        FAULTY,
    ),
    (
        "a size with an h",
        &[CHUNKED, b"2h\r\nab\r\n0\r\n\r\n", EVIL],
        FAULTY,
    ),
    (
        "a size with a comma",
        &[CHUNKED, b"2,\r\nab\r\n0\r\n\r\n", EVIL],
        FAULTY,
    ),
    (
        "a size before a vertical tab",
        &[CHUNKED, b"2\x0b\r\nab\r\n0\r\n\r\n", EVIL],
        FAULTY,
    ),
    (
        "a size in quotes",
        &[CHUNKED, b"\"2\"\r\nab\r\n0\r\n\r\n", EVIL],
        FAULTY,
    ),
    (
        "no size before an extension",
        &[CHUNKED, b";a\r\nab\r\n0\r\n\r\n", EVIL],
        FAULTY,
    ),
    (
        "an empty line before a size",
        &[CHUNKED, b"\r\n2\r\nab\r\n0\r\n\r\n", EVIL],
        FAULTY,
    ),
];

#[test]
fn a_size_is_hexadecimal_digits(rt: HostRuntime) -> Result<(), Fail> {
    check(&rt, App::Echo, SIZES)
}

const ENDS: &[Row] = &[
    // RFC 9112, 7.1: after the last chunk and the trailer section comes the next request.
    (
        "two ends",
        &[CHUNKED, b"0\r\n\r\n0\r\n\r\n", EVIL],
        TWO_ENDS,
    ),
    (
        "a chunk after the end",
        &[CHUNKED, b"0\r\n\r\n2\r\nab\r\n0\r\n\r\n", EVIL],
        TWO_ENDS,
    ),
    // RFC 9112, 7.1: CR LF follows the data of a chunk.
    (
        "a chunk that is longer than its size",
        &[CHUNKED, b"2\r\nabc\r\n0\r\n\r\n", EVIL],
        AB_FAULTY,
    ),
    (
        "a chunk with LF after it",
        &[CHUNKED, b"2\r\nab\n0\r\n\r\n", EVIL],
        AB_FAULTY,
    ),
    (
        "a chunk with CR CR after it",
        &[CHUNKED, b"2\r\nab\r\r\n0\r\n\r\n", EVIL],
        AB_FAULTY,
    ),
    (
        "a chunk with nothing after it",
        &[CHUNKED, b"2\r\nab0\r\n\r\n", EVIL],
        AB_FAULTY,
    ),
    // RFC 9112, 7.1: its data are the seven bytes that follow, CR LF among them.
    (
        "a chunk that is shorter than its size",
        &[CHUNKED, b"7\r\nab\r\n0\r\n\r\n\r\n", EVIL],
        CRLF_FAULTY,
    ),
    // RFC 9112, 7.1.2, and RFC 9110, 6.5.1: trailer fields frame nothing.
    (
        "a coding in the trailer section",
        &[CHUNKED, b"0\r\nTransfer-Encoding: chunked\r\n\r\n", EVIL],
        EMPTY,
    ),
    (
        "a length in the trailer section",
        &[CHUNKED, b"0\r\nContent-Length: 31\r\n\r\n", EVIL],
        EMPTY,
    ),
    // RFC 9112, 5.1, 5.2 and 2.2: they hold there too.
    (
        "a fold in the trailer section",
        &[CHUNKED, b"0\r\nX: y\r\n z\r\n\r\n", EVIL],
        FAULTY,
    ),
    (
        "a blank before a colon in the trailer section",
        &[CHUNKED, b"0\r\nX : y\r\n\r\n", EVIL],
        FAULTY,
    ),
    (
        "a bare CR in the trailer section",
        &[CHUNKED, b"0\r\nX: y\rZ: w\r\n\r\n", EVIL],
        FAULTY,
    ),
    (
        "a request in the trailer section",
        &[CHUNKED, b"0\r\n", EVIL],
        FAULTY,
    ),
];

#[test]
fn a_chunked_body_has_one_end(rt: HostRuntime) -> Result<(), Fail> {
    check(&rt, App::Echo, ENDS)
}
