//! Reason phrases and refusals.

use super::{GET, REFUSED_400, REFUSED_413, REFUSED_426, REFUSED_500, Say, of_written};
use asgi_response::refusal_text;
use asgi_types::HeaderError;
use std::alloc::Global;
use std::test::Fail;

/// A status, and the status line of a response that has it.
const LINES: &[(u16, &str)] = &[
    (200, "HTTP/1.1 200 OK\r\n"),
    (201, "HTTP/1.1 201 Created\r\n"),
    (202, "HTTP/1.1 202 Accepted\r\n"),
    (204, "HTTP/1.1 204 No Content\r\n"),
    (206, "HTTP/1.1 206 Partial Content\r\n"),
    (301, "HTTP/1.1 301 Moved Permanently\r\n"),
    (302, "HTTP/1.1 302 Found\r\n"),
    (303, "HTTP/1.1 303 See Other\r\n"),
    (304, "HTTP/1.1 304 Not Modified\r\n"),
    (307, "HTTP/1.1 307 Temporary Redirect\r\n"),
    (308, "HTTP/1.1 308 Permanent Redirect\r\n"),
    (400, "HTTP/1.1 400 Bad Request\r\n"),
    (401, "HTTP/1.1 401 Unauthorized\r\n"),
    (403, "HTTP/1.1 403 Forbidden\r\n"),
    (404, "HTTP/1.1 404 Not Found\r\n"),
    (405, "HTTP/1.1 405 Method Not Allowed\r\n"),
    (406, "HTTP/1.1 406 Not Acceptable\r\n"),
    (409, "HTTP/1.1 409 Conflict\r\n"),
    (410, "HTTP/1.1 410 Gone\r\n"),
    (411, "HTTP/1.1 411 Length Required\r\n"),
    (412, "HTTP/1.1 412 Precondition Failed\r\n"),
    (413, "HTTP/1.1 413 Content Too Large\r\n"),
    (415, "HTTP/1.1 415 Unsupported Media Type\r\n"),
    (422, "HTTP/1.1 422 Unprocessable Content\r\n"),
    (426, "HTTP/1.1 426 Upgrade Required\r\n"),
    (429, "HTTP/1.1 429 Too Many Requests\r\n"),
    (431, "HTTP/1.1 431 Request Header Fields Too Large\r\n"),
    (500, "HTTP/1.1 500 Internal Server Error\r\n"),
    (501, "HTTP/1.1 501 Not Implemented\r\n"),
    (502, "HTTP/1.1 502 Bad Gateway\r\n"),
    (503, "HTTP/1.1 503 Service Unavailable\r\n"),
    (504, "HTTP/1.1 504 Gateway Timeout\r\n"),
    (205, "HTTP/1.1 205 \r\n"),
    (599, "HTTP/1.1 599 \r\n"),
];

/// Whether a response of the status begins with this line.
fn has_line(alloc: Global, status: u16, line: &str) -> Result<bool, HeaderError> {
    let said = [Say::Start(status, &[]), Say::Last("")];
    of_written(
        alloc,
        GET,
        &said,
        None,
        |out| out.starts_with(line.as_bytes()),
    )
}

#[test]
fn statuses_have_their_phrases(rt: HostRuntime) -> Result<(), Fail> {
    for (status, line) in LINES {
        let is_so = has_line(rt.alloc(), *status, *line)?;
        assert!(rt; is_so, "{status}");
    }
    Ok(())
}

const REFUSALS: &[(u16, &str)] = &[
    (400, REFUSED_400),
    (
        403,
        "HTTP/1.1 403 Forbidden\r\ncontent-length: 0\r\nconnection: close\r\n\r\n",
    ),
    (413, REFUSED_413),
    (426, REFUSED_426),
    (
        431,
        "HTTP/1.1 431 Request Header Fields Too Large\r\ncontent-length: 0\r\nconnection: close\r\n\r\n",
    ),
    (500, REFUSED_500),
    (
        501,
        "HTTP/1.1 501 Not Implemented\r\ncontent-length: 0\r\nconnection: close\r\n\r\n",
    ),
];

/// The text of the refusal, for the statuses that have one.
fn refusal_of(status: u16) -> &'static [u8] {
    match status {
        400 => refusal_text(400),
        403 => refusal_text(403),
        413 => refusal_text(413),
        426 => refusal_text(426),
        431 => refusal_text(431),
        500 => refusal_text(500),
        501 => refusal_text(501),
        _ => b"",
    }
}

fn is_refusal(row: &(u16, &str)) -> bool {
    refusal_of(row.0) == row.1.as_bytes()
}

#[test]
fn refusals_have_their_texts(rt: HostRuntime) {
    for row in REFUSALS {
        assert!(rt; is_refusal(row), "{}", row.0);
    }
}
