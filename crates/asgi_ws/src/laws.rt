//! Laws of the opening handshake.
ghost use Rattle.asgi_ws.specs.AcceptValue.{AcceptValueExample};
ghost use Rattle.asgi_ws.specs.Laws.{HandshakeIsReadBack, IsHandshakeReadBack};

use asgi_types::Headers;

/// The key `dGhlIHNhbXBsZSBub25jZQ==` has the accept value `s3pPLMBiTxaQ9kYGzzhZRbK+xOo=` (RFC
/// 6455, section 1.3).
pub fn accept_value_example()
    ensures { AcceptValueExample }
{}

/// A client reads 101 and exactly the fields that were sent: no value can add a line, and no other
/// head is read.
pub fn handshake_is_read_back()
    ensures { HandshakeIsReadBack }
{}

/// The same for the fields of any `Headers`, with no condition on them: that they can be sent is
/// its own law.
pub fn headers_are_read_back(headers: &Headers)
    ensures { IsHandshakeReadBack headers.now }
{
    headers.fields_are_valid();
}
