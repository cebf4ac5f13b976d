//! The key of the opening handshake.
ghost use Rattle.std.specs.Prelude.{◌≡◌, ◌↔◌, IsTrue, length};
ghost use Rattle.asgi_request.specs.Key as spec;
ghost use Rattle.asgi_request.specs.Key.{IsKey, is_nonce};
ghost use Rattle.base64.specs.Engines.{standard};
ghost use Rattle.base64.specs.GeneralPurpose.{decoded_of};

use base64::engine::general_purpose::STANDARD;

/// Whether the bytes are a key: the base64 of 16 bytes, which is 24 bytes (RFC 6455,
/// section 4.2.1). It takes no memory.
pub fn is_key(key: &[u8]) -> bool
    ensures decides { result ≡ spec.is_key key.now }
    ensures key { IsTrue result ↔ IsKey key.now }
{
    key.len() == 24 && decodes_to_nonce(key, &mut [0; 18])
}

/// Whether the bytes are the base64 of 16 bytes.
fn decodes_to_nonce(key: &[u8], decoded: &mut [u8]) -> bool
    requires size { length key.now ≡ 24 }
    requires room { length decoded.old ≡ 18 }
    ensures decides { result ≡ is_nonce (decoded_of standard key.now) }
    ensures key { IsTrue result ↔ IsKey key.now }
{
    match STANDARD.decode_slice_unchecked(key, decoded) {
        Ok(size) => size == 16,
        Err(_) => false,
    }
}
