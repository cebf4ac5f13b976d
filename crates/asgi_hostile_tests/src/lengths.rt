//! Where a body ends: lengths and codings that two readers may take differently. `Targets` answers, with the target of
//! each request that it hears.
use crate::rows::{Answer, BAD, EVIL, ONE, ONE_AND_BAD, ROOT, Row, TWO, UNKNOWN, check};
use asgi_conn::Outcome;
use asgi_fakes::App;
use asgi_fakes::texts::{END, POST};
use std::test::Fail;

/// One request is heard, and the input ends within its body.
const BROKEN: Answer = (&[ROOT], Outcome::InputBroke, 1);

const LENGTHS: &[Row] = &[
    // RFC 9112, 6.1 and 6.3, rule 3: both fields, in either order, with whatever length and in whatever case.
    (
        "CL.TE",
        &[
            POST,
            b"Content-Length: 6\r\nTransfer-Encoding: chunked\r\n\r\n0\r\n\r\nG",
            EVIL,
        ],
        BAD,
    ),
    (
        "TE.CL",
        &[
            POST,
            b"Transfer-Encoding: chunked\r\nContent-Length: 4\r\n\r\n1f\r\n",
            EVIL,
            b"\r\n0\r\n\r\n",
        ],
        BAD,
    ),
    (
        "CL.TE in other cases",
        &[
            POST,
            b"content-length: 6\r\nTRANSFER-ENCODING: chunked\r\n\r\n0\r\n\r\nG",
            EVIL,
        ],
        BAD,
    ),
    (
        "CL.TE with a length of 0",
        &[
            POST,
            b"Content-Length: 0\r\nTransfer-Encoding: chunked\r\n\r\n1f\r\n",
            EVIL,
            b"\r\n0\r\n\r\n",
        ],
        BAD,
    ),
    (
        "CL.TE with an unknown coding",
        &[
            POST,
            b"Content-Length: 6\r\nTransfer-Encoding: xchunked\r\n\r\n0\r\n\r\nG",
            EVIL,
        ],
        BAD,
    ),
    (
        "CL.TE with no length",
        &[
            POST,
            b"Content-Length: \r\nTransfer-Encoding: chunked\r\n\r\n0\r\n\r\n",
            EVIL,
        ],
        BAD,
    ),
    // RFC 9112, 6.3, rule 5: more than one length, also if they are equal.
    (
        "CL.CL with two lengths",
        &[
            POST,
            b"Content-Length: 31\r\ncontent-length: 0\r\n\r\n",
            EVIL,
        ],
        BAD,
    ),
    (
        "CL.CL with 0 and 31",
        &[
            POST,
            b"Content-Length: 0\r\nContent-Length: 31\r\n\r\n",
            EVIL,
        ],
        BAD,
    ),
    (
        "CL.CL with equal lengths",
        &[
            POST,
            b"Content-Length: 31\r\nCONTENT-LENGTH: 31\r\n\r\n",
            EVIL,
        ],
        BAD,
    ),
    (
        "a list of lengths",
        &[POST, b"Content-Length: 31,31\r\n\r\n", EVIL],
        BAD,
    ),
    // RFC 9110, 8.6: a length is digits and nothing else.
    (
        "a length and a word",
        &[POST, b"Content-Length: 31;a\r\n\r\n", EVIL],
        BAD,
    ),
    (
        "a length with a fraction",
        &[POST, b"Content-Length: 31.0\r\n\r\n", EVIL],
        BAD,
    ),
    (
        "a length with an exponent",
        &[POST, b"Content-Length: 3e1\r\n\r\n", EVIL],
        BAD,
    ),
    (
        "a hexadecimal length",
        &[POST, b"Content-Length: 1f\r\n\r\n", EVIL],
        BAD,
    ),
    (
        "a length with an underscore",
        &[POST, b"Content-Length: 3_1\r\n\r\n", EVIL],
        BAD,
    ),
    (
        "a length in quotes",
        &[POST, b"Content-Length: \"31\"\r\n\r\n", EVIL],
        BAD,
    ),
    (
        "a length with a tab inside",
        &[POST, b"Content-Length: 3\t1\r\n\r\n", EVIL],
        BAD,
    ),
    (
        "a length after a byte above 127",
        &[POST, b"Content-Length: \xa031\r\n\r\n", EVIL],
        BAD,
    ),
    (
        "a length that is 31 in 64 bits",
        &[POST, b"Content-Length: 18446744073709551647\r\n\r\n", EVIL],
        BAD,
    ),
];

#[test]
fn a_length_that_is_not_one_is_refused(rt: HostRuntime) -> Result<(), Fail> {
    check(&rt, App::Targets, LENGTHS)
}

const BODIES: &[Row] = &[
    // RFC 9112, 5.1: the blanks around a value are no part of it.
    (
        "blanks around a length",
        &[POST, b"Content-Length: \t 3 \t\r\n\r\nabc", EVIL],
        TWO,
    ),
    // RFC 9112, 6.3, rules 4 and 6: the body is as long as the fields say, whatever it looks like and whatever the
    // method is.
    (
        "a request as a body",
        &[POST, b"Content-Length: 31\r\n\r\n", EVIL],
        ONE,
    ),
    (
        "a request as the body of GET",
        &[
            b"GET / HTTP/1.1\r\nHost: a\r\nContent-Length: 31\r\n\r\n",
            EVIL,
        ],
        ONE,
    ),
    (
        "a request as a chunk",
        &[
            POST,
            b"Transfer-Encoding: chunked\r\n\r\n1f\r\n",
            EVIL,
            b"\r\n0\r\n\r\n",
        ],
        ONE,
    ),
    (
        "a request in two chunks",
        &[
            POST,
            b"Transfer-Encoding: chunked\r\n\r\n4\r\nGET \r\n1b\r\n/evil HTTP/1.1\r\nHost: a\r\n\r\n\r\n0\r\n\r\n",
        ],
        ONE,
    ),
    // RFC 9112, 2.2: the last line feed is an empty line before a request.
    (
        "a length that is one too short",
        &[POST, b"Content-Length: 30\r\n\r\n", EVIL],
        ONE,
    ),
    // RFC 9112, 8: the body is not whole.
    (
        "a length that is one too long",
        &[POST, b"Content-Length: 32\r\n\r\n", EVIL],
        BROKEN,
    ),
    // RFC 9112, 6.3, rules 6 and 7: no body, and then a request.
    (
        "a length of 0 and a request",
        &[POST, b"Content-Length: 0\r\n\r\n", EVIL],
        TWO,
    ),
    ("no length and a request", &[POST, END, EVIL], TWO),
    // RFC 9110, 9.1: the method GGET is a token.
    (
        "no length and a letter before a request",
        &[POST, b"\r\nG", EVIL],
        TWO,
    ),
    // RFC 9112, 3: what follows is no request line.
    (
        "no length and a body",
        &[POST, b"\r\nabc\r\n\r\n"],
        ONE_AND_BAD,
    ),
    // RFC 9110, 5.1: another name is another field, so there is no body.
    (
        "a coding under another name",
        &[POST, b"Transfer_Encoding: chunked\r\n\r\n0\r\n\r\n", EVIL],
        ONE_AND_BAD,
    ),
    (
        "a coding under a longer name",
        &[POST, b"X-Transfer-Encoding: chunked\r\n\r\n0\r\n\r\n", EVIL],
        ONE_AND_BAD,
    ),
    (
        "a length under another name",
        &[POST, b"Content_Length: 31\r\n\r\n", EVIL],
        TWO,
    ),
];

#[test]
fn a_request_in_a_body_is_no_request(rt: HostRuntime) -> Result<(), Fail> {
    check(&rt, App::Targets, BODIES)
}

const CODINGS: &[Row] = &[
    // RFC 9112, 7: names of codings have no case; 5.1: blanks around a value are no part of it.
    (
        "chunked in mixed case",
        &[POST, b"Transfer-Encoding: cHuNkEd\r\n\r\n0\r\n\r\n", EVIL],
        TWO,
    ),
    (
        "chunked with blanks around it",
        &[
            POST,
            b"Transfer-Encoding: \t chunked\t \r\n\r\n0\r\n\r\n",
            EVIL,
        ],
        TWO,
    ),
    (
        "chunked with no blank",
        &[POST, b"Transfer-Encoding:chunked\r\n\r\n0\r\n\r\n", EVIL],
        TWO,
    ),
    // RFC 9112, 6.1: any other value is no coding that the server knows.
    (
        "chunked twice",
        &[
            POST,
            b"Transfer-Encoding: chunked, chunked\r\n\r\n0\r\n\r\n",
            EVIL,
        ],
        UNKNOWN,
    ),
    (
        "chunked and an empty element",
        &[POST, b"Transfer-Encoding: chunked,\r\n\r\n0\r\n\r\n", EVIL],
        UNKNOWN,
    ),
    (
        "an empty element and chunked",
        &[POST, b"Transfer-Encoding: ,chunked\r\n\r\n0\r\n\r\n", EVIL],
        UNKNOWN,
    ),
    (
        "identity and chunked",
        &[
            POST,
            b"Transfer-Encoding: identity, chunked\r\n\r\n0\r\n\r\n",
            EVIL,
        ],
        UNKNOWN,
    ),
    (
        "chunked and identity",
        &[
            POST,
            b"Transfer-Encoding: chunked, identity\r\n\r\n0\r\n\r\n",
            EVIL,
        ],
        UNKNOWN,
    ),
    (
        "chunked with a parameter",
        &[
            POST,
            b"Transfer-Encoding: chunked;q=1\r\n\r\n0\r\n\r\n",
            EVIL,
        ],
        UNKNOWN,
    ),
    (
        "chunked in quotes",
        &[
            POST,
            b"Transfer-Encoding: \"chunked\"\r\n\r\n0\r\n\r\n",
            EVIL,
        ],
        UNKNOWN,
    ),
    (
        "chunked in single quotes",
        &[POST, b"Transfer-Encoding: 'chunked'\r\n\r\n0\r\n\r\n", EVIL],
        UNKNOWN,
    ),
    (
        "chunked and a number",
        &[POST, b"Transfer-Encoding: chunked1\r\n\r\n0\r\n\r\n", EVIL],
        UNKNOWN,
    ),
    (
        "chunked without its end",
        &[POST, b"Transfer-Encoding: chunke\r\n\r\n0\r\n\r\n", EVIL],
        UNKNOWN,
    ),
    (
        "chunked twice with a blank",
        &[
            POST,
            b"Transfer-Encoding: chunked chunked\r\n\r\n0\r\n\r\n",
            EVIL,
        ],
        UNKNOWN,
    ),
    (
        "chunked after a word",
        &[POST, b"Transfer-Encoding: x chunked\r\n\r\n0\r\n\r\n", EVIL],
        UNKNOWN,
    ),
    (
        "chunked in two words",
        &[POST, b"Transfer-Encoding: chun ked\r\n\r\n0\r\n\r\n", EVIL],
        UNKNOWN,
    ),
    (
        "chunked before a byte above 127",
        &[
            POST,
            b"Transfer-Encoding: chunked\xa0\r\n\r\n0\r\n\r\n",
            EVIL,
        ],
        UNKNOWN,
    ),
    (
        "no coding at all",
        &[POST, b"Transfer-Encoding:\r\n\r\n0\r\n\r\n", EVIL],
        UNKNOWN,
    ),
    (
        "deflate",
        &[POST, b"Transfer-Encoding: deflate\r\n\r\n0\r\n\r\n", EVIL],
        UNKNOWN,
    ),
    // RFC 9112, 6.1: more than one field.
    (
        "identity in a second field",
        &[
            POST,
            b"Transfer-Encoding: chunked\r\nTransfer-Encoding: identity\r\n\r\n0\r\n\r\n",
            EVIL,
        ],
        UNKNOWN,
    ),
    (
        "chunked in a second field",
        &[
            POST,
            b"Transfer-Encoding: identity\r\ntransfer-encoding: chunked\r\n\r\n0\r\n\r\n",
            EVIL,
        ],
        UNKNOWN,
    ),
    (
        "an empty second field",
        &[
            POST,
            b"Transfer-Encoding: chunked\r\nTransfer-Encoding:\r\n\r\n0\r\n\r\n",
            EVIL,
        ],
        UNKNOWN,
    ),
    // RFC 9110, 5.5: control bytes are no part of a value.
    (
        "chunked before a vertical tab",
        &[
            POST,
            b"Transfer-Encoding: chunked\x0b\r\n\r\n0\r\n\r\n",
            EVIL,
        ],
        BAD,
    ),
    (
        "chunked after a vertical tab",
        &[
            POST,
            b"Transfer-Encoding:\x0bchunked\r\n\r\n0\r\n\r\n",
            EVIL,
        ],
        BAD,
    ),
    (
        "chunked before a form feed",
        &[
            POST,
            b"Transfer-Encoding: chunked\x0c\r\n\r\n0\r\n\r\n",
            EVIL,
        ],
        BAD,
    ),
    (
        "chunked before a NUL",
        &[
            POST,
            b"Transfer-Encoding: chunked\x00\r\n\r\n0\r\n\r\n",
            EVIL,
        ],
        BAD,
    ),
    (
        "chunked before a delete byte",
        &[
            POST,
            b"Transfer-Encoding: chunked\x7f\r\n\r\n0\r\n\r\n",
            EVIL,
        ],
        BAD,
    ),
    // RFC 9112, 5.1: no blank stands before the colon.
    (
        "a tab before the colon",
        &[POST, b"Transfer-Encoding\t: chunked\r\n\r\n0\r\n\r\n", EVIL],
        BAD,
    ),
    (
        "a blank in the name",
        &[POST, b"Transfer Encoding: chunked\r\n\r\n0\r\n\r\n", EVIL],
        BAD,
    ),
    // RFC 9112, 2.2 and 5.2: a line that begins with a blank is no field.
    (
        "a blank before the name",
        &[POST, b" Transfer-Encoding: chunked\r\n\r\n0\r\n\r\n", EVIL],
        BAD,
    ),
    (
        "a tab before the name",
        &[POST, b"\tTransfer-Encoding: chunked\r\n\r\n0\r\n\r\n", EVIL],
        BAD,
    ),
    // RFC 9112, 2.2: a bare CR is an error.
    (
        "a bare CR before the name",
        &[
            POST,
            b"X: y\rTransfer-Encoding: chunked\r\n\r\n0\r\n\r\n",
            EVIL,
        ],
        BAD,
    ),
    (
        "a bare CR before the value",
        &[POST, b"Transfer-Encoding:\rchunked\r\n\r\n0\r\n\r\n", EVIL],
        BAD,
    ),
    // RFC 9112, 5.2: no line is folded.
    (
        "a fold by LF before the value",
        &[POST, b"Transfer-Encoding:\n chunked\r\n\r\n0\r\n\r\n", EVIL],
        BAD,
    ),
    (
        "a fold after the value",
        &[
            POST,
            b"Transfer-Encoding: chunked\r\n ,identity\r\n\r\n0\r\n\r\n",
            EVIL,
        ],
        BAD,
    ),
    // RFC 9112, 2.2: a bare LF ends a line, so that is a field.
    (
        "a bare LF before the name",
        &[
            POST,
            b"X: y\nTransfer-Encoding: chunked\r\n\r\n0\r\n\r\n",
            EVIL,
        ],
        TWO,
    ),
    // RFC 9110, 5.1: a name is a token.
    (
        "a NUL in the name",
        &[
            POST,
            b"Transfer-Encoding\x00: chunked\r\n\r\n0\r\n\r\n",
            EVIL,
        ],
        BAD,
    ),
];

#[test]
fn only_chunked_is_a_coding(rt: HostRuntime) -> Result<(), Fail> {
    check(&rt, App::Targets, CODINGS)
}
