//! The reason of a WebSocket close.
ghost use Rattle.std.specs.Prelude.{◌≡◌, ◌<◌, ◌≤◌, ◌↔◌, IfSome, IsNone, length};
ghost use Rattle.asgi_types.specs.private.Reasons.{padded};

use std::marker::Model;

/// A short text, which takes no memory of its own. Its bytes are UTF-8.
///
/// The text has at most 123 bytes: a control frame has at most 125, and two are the code's
/// (RFC 6455, sections 5.5 and 5.5.1).
#[derive(Clone, Copy, Debug)]
pub struct Reason {
    // The bytes after the text are zero.
    text: [u8; 123],
    len: usize,
}

impl Model for Reason {
    ghost use Rattle.std.specs.Prelude.{◌≡◌, ℕ, ◌-◌, List, ◌++◌, length, take, drop, replicate};
    ghost use Rattle.asgi_types.specs.private.Reasons.{IsReason, padded};

    ghost Value = { List ℕ };

    ghost view = { λ r. take r.len r.text };

    ghost invariant = { λ r. IsReason r.text r.len };

    ghost inverse = { λ bytes. record { text = padded bytes; len = length bytes } };

    ghost use Rattle.asgi_types.specs.private.Buffers.{buffer_back};

    ghost inverse_ok = { buffer_back };
}

impl Reason {
    /// The text, or `None` if it has more than 123 bytes.
    pub fn new(text: &str) -> Option<Self>
        ensures long { IsNone result ↔ (123 < length text.now) }
        ensures kept { IfSome result (λ reason. reason ≡ text.now) }
    {
        let bytes = text.as_bytes();
        if bytes.len() > 123 {
            return None;
        }
        Some(Reason {
            text: buffer_of(bytes),
            len: bytes.len(),
        })
    }

    /// The bytes of the text, without the zero bytes after it.
    pub fn bytes(&self) -> &[u8]
        ensures { result.now ≡ self.now }
    {
        &self.text[..self.len]
    }

    /// The text, without the zero bytes after it.
    pub fn as_str(&self) -> &str
        ensures { result.now ≡ self.now }
    {
        match std::str::from_utf8(&self.text[..self.len]) {
            Ok(text) => text,
            Err(_) => unreachable!(),
        }
    }
}

/// The bytes with zero bytes after them.
fn buffer_of(bytes: &[u8]) -> [u8; 123]
    requires { length bytes.now ≤ 123 }
    ensures { result ≡ padded bytes.now }
{
    let mut buffer = [0; 123];
    buffer[..bytes.len()].copy_from_slice(bytes);
    buffer
}
