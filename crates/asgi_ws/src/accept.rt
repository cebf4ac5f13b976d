//! The `sec-websocket-accept` value for a key.
ghost use Rattle.std.specs.Prelude.{◌≡◌};
ghost use Rattle.asgi_ws.specs.AcceptValue.{accept_value_of};

use base64::engine::general_purpose::STANDARD;
use sha1::Sha1;

/// RFC 6455, section 1.3.
const GUID: &[u8] = b"258EAFA5-E914-47DA-95CA-C5AB0DC85B11";

/// The value of `sec-websocket-accept`, 28 base64 characters, for a value of `sec-websocket-key` as
/// received, 24 bytes (RFC 6455, section 4.2.2). Allocates nothing.
pub fn accept_value(key: &[u8; 24]) -> [u8; 28]
    ensures { result ≡ accept_value_of key.now }
{
    let mut hasher = Sha1::new();
    hasher.update(key);
    hasher.update(GUID);
    let digest = hasher.finalize();
    let mut value = [0; 28];
    match STANDARD.encode_slice(&digest, &mut value) {
        Ok(_) => value,
        // Twenty bytes take 28 characters.
        Err(_) => unreachable!(),
    }
}
