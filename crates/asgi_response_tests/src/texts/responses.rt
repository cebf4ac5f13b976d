//! The text of a response, for lawful lists and for others.

use super::{CLOSING, EXPECTING, GET, HEAD, OLD, Row, Say, are_written, of_written};
use asgi_types::HeaderError;
use std::alloc::Global;
use std::test::Fail;

const PLAIN: Say = Say::Start(200, &[("content-type", "text/plain")]);

const LAWFUL: &[Row] = &[
    (
        "HTTP/1.0 with a length",
        OLD,
        &[Say::Start(200, &[("content-length", "2")]), Say::Last("ok")],
        "HTTP/1.1 200 OK\r\ncontent-length: 2\r\nconnection: close\r\n\r\nok",
    ),
    (
        "HEAD with a length",
        HEAD,
        &[Say::Start(200, &[("content-length", "5")]), Say::Last("")],
        "HTTP/1.1 200 OK\r\ncontent-length: 5\r\n\r\n",
    ),
    (
        "the application closes",
        GET,
        &[
            Say::Start(200, &[("connection", "close"), ("x-a", "q")]),
            Say::Last(""),
        ],
        "HTTP/1.1 200 OK\r\nx-a: q\r\ntransfer-encoding: chunked\r\nconnection: close\r\n\r\n0\r\n\r\n",
    ),
    (
        "304 with a length",
        GET,
        &[
            Say::Start(304, &[("content-length", "5")]),
            Say::Last("abcde"),
        ],
        "HTTP/1.1 304 Not Modified\r\ncontent-length: 5\r\n\r\n",
    ),
    (
        "an unknown status",
        GET,
        &[Say::Start(299, &[("content-length", "0")]), Say::Last("")],
        "HTTP/1.1 299 \r\ncontent-length: 0\r\n\r\n",
    ),
    (
        "204 has no length",
        GET,
        &[
            Say::Start(204, &[("content-length", "3")]),
            Say::Last("abc"),
        ],
        "HTTP/1.1 204 No Content\r\n\r\n",
    ),
    (
        "HTTP/1.0 until the connection closes",
        OLD,
        &[PLAIN, Say::Last("hello\n")],
        "HTTP/1.1 200 OK\r\ncontent-type: text/plain\r\nconnection: close\r\n\r\nhello\n",
    ),
    (
        "HEAD shows the same fields",
        HEAD,
        &[PLAIN, Say::Last("hello\n")],
        "HTTP/1.1 200 OK\r\ncontent-type: text/plain\r\ntransfer-encoding: chunked\r\n\r\n",
    ),
    (
        "one chunk",
        GET,
        &[Say::Start(200, &[]), Say::Last("x")],
        "HTTP/1.1 200 OK\r\ntransfer-encoding: chunked\r\n\r\n1\r\nx\r\n0\r\n\r\n",
    ),
    (
        "a part for each event, none for an empty one",
        GET,
        &[
            PLAIN,
            Say::Part("hello "),
            Say::Part(""),
            Say::Part("world, 26 bytes in one part"),
            Say::Last(""),
        ],
        "HTTP/1.1 200 OK\r\ncontent-type: text/plain\r\ntransfer-encoding: chunked\r\n\r\n6\r\nhello \r\n1b\r\nworld, 26 bytes in one part\r\n0\r\n\r\n",
    ),
    (
        "parts by length",
        GET,
        &[
            Say::Start(200, &[("content-length", "5")]),
            Say::Part("abcd"),
            Say::Part(""),
            Say::Last("e"),
        ],
        "HTTP/1.1 200 OK\r\ncontent-length: 5\r\n\r\nabcde",
    ),
    (
        "the request closes",
        CLOSING,
        &[PLAIN, Say::Last("hello\n")],
        "HTTP/1.1 200 OK\r\ncontent-type: text/plain\r\ntransfer-encoding: chunked\r\nconnection: close\r\n\r\n6\r\nhello\n\r\n0\r\n\r\n",
    ),
    (
        "the client waits to go on",
        EXPECTING,
        &[PLAIN, Say::Last("")],
        "HTTP/1.1 100 Continue\r\n\r\nHTTP/1.1 200 OK\r\ncontent-type: text/plain\r\ntransfer-encoding: chunked\r\n\r\n0\r\n\r\n",
    ),
    (
        "no event, a client that waits",
        EXPECTING,
        &[],
        "HTTP/1.1 100 Continue\r\n\r\n",
    ),
    ("no event", GET, &[], ""),
    ("a start alone", GET, &[PLAIN], ""),
    (
        "the server says how the message is framed",
        GET,
        &[
            Say::Start(
                200,
                &[
                    ("Transfer-Encoding", "gzip"),
                    ("x-b", "1"),
                    ("Connection", "keep-alive, x-b"),
                    ("x-b", ""),
                ],
            ),
            Say::Last("x"),
        ],
        "HTTP/1.1 200 OK\r\nx-b: 1\r\nx-b: \r\ntransfer-encoding: chunked\r\n\r\n1\r\nx\r\n0\r\n\r\n",
    ),
    (
        "close among other tokens, in any case",
        GET,
        &[
            Say::Start(
                200,
                &[("connection", "x-a,\t Close "), ("content-length", "1")],
            ),
            Say::Last("x"),
        ],
        "HTTP/1.1 200 OK\r\ncontent-length: 1\r\nconnection: close\r\n\r\nx",
    ),
    (
        "304 without a length",
        GET,
        &[Say::Start(304, &[]), Say::Last("")],
        "HTTP/1.1 304 Not Modified\r\n\r\n",
    ),
    (
        "204 over HTTP/1.0",
        OLD,
        &[Say::Start(204, &[]), Say::Last("")],
        "HTTP/1.1 204 No Content\r\nconnection: close\r\n\r\n",
    ),
];

#[test]
fn lawful_lists_have_the_text_of_the_standard(rt: HostRuntime) -> Result<(), Fail> {
    are_written(&rt, LAWFUL)
}

const ONE_CHUNK: &str = "HTTP/1.1 200 OK\r\ntransfer-encoding: chunked\r\n\r\n1\r\nx\r\n0\r\n\r\n";

const START: Say = Say::Start(200, &[]);

const UNLAWFUL: &[Row] = &[
    (
        "a body first",
        GET,
        &[Say::Last("a"), START, Say::Last("x")],
        ONE_CHUNK,
    ),
    (
        "another start",
        GET,
        &[START, Say::Start(404, &[]), Say::Last("x")],
        ONE_CHUNK,
    ),
    (
        "a start after a body",
        GET,
        &[START, Say::Part("x"), START, Say::Last("")],
        ONE_CHUNK,
    ),
    (
        "a body after the last",
        GET,
        &[START, Say::Last("x"), Say::Last("y")],
        ONE_CHUNK,
    ),
    (
        "a start after the last",
        GET,
        &[START, Say::Last("x"), START],
        ONE_CHUNK,
    ),
    (
        "events of another kind",
        GET,
        &[
            Say::DenialStart(401, &[]),
            START,
            Say::DenialLast("no"),
            Say::StopComplete,
            Say::Last("x"),
        ],
        ONE_CHUNK,
    ),
    (
        "a status below 200",
        GET,
        &[Say::Start(199, &[]), START, Say::Last("x")],
        ONE_CHUNK,
    ),
    (
        "a status above 599",
        GET,
        &[Say::Start(600, &[]), START, Say::Last("x")],
        ONE_CHUNK,
    ),
    (
        "two lengths",
        GET,
        &[
            Say::Start(200, &[("content-length", "1"), ("content-length", "1")]),
            START,
            Say::Last("x"),
        ],
        ONE_CHUNK,
    ),
    (
        "a length that is no number",
        GET,
        &[
            Say::Start(200, &[("content-length", "+1")]),
            START,
            Say::Last("x"),
        ],
        ONE_CHUNK,
    ),
    (
        "a body past the length",
        GET,
        &[
            Say::Start(200, &[("content-length", "5")]),
            Say::Part("abcdef"),
            Say::Last("abcde"),
        ],
        "HTTP/1.1 200 OK\r\ncontent-length: 5\r\n\r\nabcde",
    ),
    (
        "a last body before the length",
        GET,
        &[
            Say::Start(200, &[("content-length", "5")]),
            Say::Last("abcd"),
            Say::Part("abcd"),
            Say::Last("e"),
        ],
        "HTTP/1.1 200 OK\r\ncontent-length: 5\r\n\r\nabcde",
    ),
];

#[test]
fn unlawful_events_have_no_text(rt: HostRuntime) -> Result<(), Fail> {
    are_written(&rt, UNLAWFUL)
}

const CHUNKED_HEAD: &[u8] = b"HTTP/1.1 200 OK\r\ntransfer-encoding: chunked\r\n\r\n";

/// The content of the only chunk, whose size has these digits.
fn chunk<'a>(out: &'a [u8], digits: &str) -> Option<&'a [u8]> {
    let sized = out.strip_prefix(CHUNKED_HEAD)?;
    let after = sized.strip_prefix(digits.as_bytes())?;
    after.strip_prefix(b"\r\n")?.strip_suffix(b"\r\n0\r\n\r\n")
}

fn are_letters(content: &[u8], size: usize) -> bool {
    content.len() == size && content.iter().all(|byte| *byte == b'z')
}

/// Whether this is one chunk of this many letters, whose size has these digits.
fn is_one_chunk(out: &[u8], size: usize, digits: &str) -> bool {
    match chunk(out, digits) {
        Some(content) => are_letters(content, size),
        None => false,
    }
}

/// The size of a body, and its digits.
const SIZES: &[(usize, &str)] = &[
    (1, "1"),
    (10, "a"),
    (16, "10"),
    (255, "ff"),
    (4096, "1000"),
    (43_981, "abcd"),
];

/// Whether a body of this size is written as one chunk, whose size has these digits.
fn is_chunk(alloc: Global, size: usize, digits: &str) -> Result<bool, HeaderError> {
    let said = [START, Say::LastLetters(size)];
    of_written(
        alloc,
        GET,
        &said,
        None,
        move |out| is_one_chunk(out, size, digits),
    )
}

/// A size is in lowercase hexadecimal, without leading zeros.
#[test]
fn chunk_sizes_are_hexadecimal(rt: HostRuntime) -> Result<(), Fail> {
    for (size, digits) in SIZES {
        let is_so = is_chunk(rt.alloc(), *size, *digits)?;
        assert!(rt; is_so, "{size}");
    }
    Ok(())
}
