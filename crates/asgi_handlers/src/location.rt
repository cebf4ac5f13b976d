//! The place of a redirect, as a URI reference.
ghost use Rattle.std.specs.Prelude.{◌≡◌, ◌++◌, ◌↔◌, IfOk, OnOk, IsTrue};
ghost use Rattle.http_header.specs.FieldValue.{IsFieldValue};
ghost use Rattle.asgi_handlers.specs.Locations.{is_uri_byte as is_uri_byte_at, uri_octet, uri_reference};

use percent_encoding::percent_encode_byte;
use std::alloc::{AllocError, Global};

/// What stands in a URI besides letters and digits (RFC 3986, sections 2.2 to 2.4).
const MARKS: &[u8] = b"-._~:/?#[]@!$&'()*+,;=%";

/// Whether the bytes have no control byte but the tab, so that a field may have them as its value.
pub(crate) fn is_field_value(bytes: &[u8]) -> bool
    ensures { IsTrue result ↔ IsFieldValue bytes.now }
{
    bytes
        .iter()
        .all(|b| *b == b'\t' || (*b >= b' ' && *b != 127))
}

/// The text with each byte that stands in no URI percent-encoded. `AllocError` if memory is refused.
pub(crate) fn uri_of(alloc: Global, text: &[u8]) -> Result<Vec<u8>, AllocError>
    ensures uri { IfOk result (λ uri. uri.items ≡ uri_reference text.now) }
{
    let mut uri = Vec::with_capacity(alloc, text.len())?;
    for byte in text {
        push_octet(&mut uri, *byte)?;
    }
    Ok(uri)
}

/// Appends the byte, or its percent-encoding.
fn push_octet(uri: &mut Vec<u8>, byte: u8) -> Result<(), AllocError>
    ensures { OnOk result (uri.new.items ≡ uri.old.items ++ uri_octet byte) }
{
    if is_uri_byte(byte) {
        uri.push(byte)?;
        return Ok(());
    }
    uri.extend_from_slice(percent_encode_byte(byte).as_bytes())?;
    Ok(())
}

/// Whether the byte stands in a URI as it is.
fn is_uri_byte(byte: u8) -> bool
    ensures { result ≡ is_uri_byte_at byte }
{
    byte.is_ascii_alphanumeric() || MARKS.contains(&byte)
}
