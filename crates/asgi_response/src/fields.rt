//! What the fields of a response determine about its framing.
ghost use Rattle.std.specs.Prelude.{◌≡◌, ◌||◌, codes};
ghost use Rattle.asgi_types.specs.Tokens.{has_token, is_listed};
ghost use Rattle.asgi_response.specs.Fields as fields;

use asgi_types::{Headers, lists_token};

pub const CONTENT_LENGTH: &[u8] = b"content-length";

pub const TRANSFER_ENCODING: &[u8] = b"transfer-encoding";

pub const CONNECTION: &[u8] = b"connection";

const CLOSE: &[u8] = b"close";

/// Whether an application's field of this name, in lower case, is sent: the server alone determines
/// `transfer-encoding` (ASGI HTTP and WebSocket message format 2.4, "Response Start") and
/// `connection`, and 204 has no `content-length` (RFC 9110, section 8.6).
pub fn is_shown(status: u16, name: &[u8]) -> bool
    ensures { result ≡ fields.is_shown status name.now }
{
    name != TRANSFER_ENCODING && name != CONNECTION && !(status == 204 && name == CONTENT_LENGTH)
}

/// Whether the response has `close`: if the connection closes for the request, or if a `connection`
/// field of the application has it (RFC 9112, section 9.6).
pub fn closes(close: bool, headers: &Headers) -> bool
    ensures { result ≡ fields.closes close headers.now }
{
    close || has_close(headers)
}

/// Whether a `connection` field lists `close`. Most responses have no such field, and it is sought
/// in line.
fn has_close(headers: &Headers) -> bool
    ensures { result ≡ has_token headers.now (codes "connection") (codes "close") }
{
    headers.iter().any(|field| is_close(field.0, field.1))
}

fn is_close(name: &[u8], value: &[u8]) -> bool
    ensures { result ≡ is_listed (record { name = name.now; value = value.now }) (codes "connection") (codes "close") }
{
    name == CONNECTION && lists_token(value, CLOSE)
}
