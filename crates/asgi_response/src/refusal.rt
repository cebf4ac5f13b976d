//! What a server sends in place of an application's response.
ghost use Rattle.std.specs.Prelude.{◌≡◌, ◌++◌, ◌==◌, ◌||◌, IsTrue, OnOk, OnErr};
ghost use Rattle.std.specs.Vec.{vec_len, vec_capacity};
ghost use Rattle.asgi_response.specs.Exchange as spec;
ghost use Rattle.asgi_response.specs.Refusals.{is_refusal};
ghost use Rattle.asgi_types.specs.Room.{LacksRoom};

use crate::append::append_all;
use crate::head::{CRLF, SPACE, VERSION, reason_phrase};
use itoa::Buffer;
use std::alloc::AllocError;

/// The body of a request, as far as it is known when its task ends.
#[derive(Clone, Copy, Debug, PartialEq, Eq)]
pub enum Input {
    /// The body was complete.
    Whole,
    /// The body is faulty, with the status for which the reader refused it.
    Faulty(u16),
    /// The input ended or failed inside the body.
    Broken,
}

const REFUSED_400: &[u8] =
    b"HTTP/1.1 400 Bad Request\r\ncontent-length: 0\r\nconnection: close\r\n\r\n";

const REFUSED_403: &[u8] =
    b"HTTP/1.1 403 Forbidden\r\ncontent-length: 0\r\nconnection: close\r\n\r\n";

const REFUSED_413: &[u8] =
    b"HTTP/1.1 413 Content Too Large\r\ncontent-length: 0\r\nconnection: close\r\n\r\n";

const REFUSED_426: &[u8] =
    b"HTTP/1.1 426 Upgrade Required\r\nupgrade: websocket\r\nsec-websocket-version: 13\r\ncontent-length: 0\r\nconnection: upgrade, close\r\n\r\n";

const REFUSED_431: &[u8] =
    b"HTTP/1.1 431 Request Header Fields Too Large\r\ncontent-length: 0\r\nconnection: close\r\n\r\n";

const REFUSED_500: &[u8] =
    b"HTTP/1.1 500 Internal Server Error\r\ncontent-length: 0\r\nconnection: close\r\n\r\n";

const REFUSED_501: &[u8] =
    b"HTTP/1.1 501 Not Implemented\r\ncontent-length: 0\r\nconnection: close\r\n\r\n";

const CLOSING_FIELDS: &[u8] = b"content-length: 0\r\nconnection: close\r\n";

/// The bytes of a refusal, a whole response without content after which the connection closes
/// (RFC 9112, section 9.6): of 400, 403, 413, 426, 431, 500 or 501. 426 names the version that is
/// served (RFC 6455, section 4.4).
pub fn refusal_text(status: u16) -> &'static [u8]
    requires { IsTrue (is_refusal status) }
    ensures { result.now ≡ spec.refusal_text status }
{
    if status == 400 {
        return REFUSED_400;
    }
    if status == 403 {
        return REFUSED_403;
    }
    if status == 413 {
        return REFUSED_413;
    }
    if status == 426 {
        return REFUSED_426;
    }
    if status == 431 {
        return REFUSED_431;
    }
    if status == 501 {
        return REFUSED_501;
    }
    REFUSED_500
}

/// Appends the text of a refusal, of any status. `AllocError` if memory is refused; then the vector
/// is as before.
pub fn append_refusal(status: u16, out: &mut Vec<u8>) -> Result<(), AllocError>
    ensures ok { OnOk result (out.new.items ≡ out.old.items ++ spec.refusal_text status) }
    ensures err { OnErr result (out.new.items ≡ out.old.items) }
    ensures full { OnErr result (LacksRoom (vec_capacity out.old) (vec_len out.old) (spec.refusal_text status)) }
{
    if status == 426 {
        return out.extend_from_slice(REFUSED_426);
    }
    let mut buffer = Buffer::new();
    let code = buffer.format(status).as_bytes();
    let reason = reason_phrase(status).as_bytes();
    append_all(
        out,
        &[VERSION, code, SPACE, reason, CRLF, CLOSING_FIELDS, CRLF],
    )
}
