//! The text of a denial, and of other responses to an opening handshake.

use super::{HANDSHAKE, Row, Say, are_written};
use std::test::Fail;

const KEEPS: &[(&str, &str)] = &[("connection", "keep-alive"), ("x-a", "q")];

const ROWS: &[Row] = &[
    (
        "a denial",
        HANDSHAKE,
        &[Say::DenialStart(401, &[]), Say::DenialLast("no")],
        "HTTP/1.1 401 Unauthorized\r\ntransfer-encoding: chunked\r\nconnection: close\r\n\r\n2\r\nno\r\n0\r\n\r\n",
    ),
    (
        "in parts",
        HANDSHAKE,
        &[
            Say::DenialStart(403, &[]),
            Say::DenialPart("n"),
            Say::DenialPart(""),
            Say::DenialLast("o"),
        ],
        "HTTP/1.1 403 Forbidden\r\ntransfer-encoding: chunked\r\nconnection: close\r\n\r\n1\r\nn\r\n1\r\no\r\n0\r\n\r\n",
    ),
    (
        "with a length",
        HANDSHAKE,
        &[
            Say::DenialStart(404, &[("content-length", "2")]),
            Say::DenialLast("no"),
        ],
        "HTTP/1.1 404 Not Found\r\ncontent-length: 2\r\nconnection: close\r\n\r\nno",
    ),
    (
        "the application can't keep the connection",
        HANDSHAKE,
        &[Say::DenialStart(401, KEEPS), Say::DenialLast("")],
        "HTTP/1.1 401 Unauthorized\r\nx-a: q\r\ntransfer-encoding: chunked\r\nconnection: close\r\n\r\n0\r\n\r\n",
    ),
    (
        "a start alone",
        HANDSHAKE,
        &[Say::DenialStart(401, &[])],
        "",
    ),
    (
        "a session",
        HANDSHAKE,
        &[Say::Accept, Say::Send("hi"), Say::Close],
        "",
    ),
    ("a close", HANDSHAKE, &[Say::Close], ""),
];

#[test]
fn a_denial_is_a_response_that_closes(rt: HostRuntime) -> Result<(), Fail> {
    are_written(&rt, ROWS)
}
