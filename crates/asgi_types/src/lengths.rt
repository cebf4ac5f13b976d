//! Lengths as they are written in fields.
ghost use Rattle.std.specs.Prelude.{◌≡◌};
ghost use Rattle.asgi_types.specs.Lengths.{length_of_text};

/// The number of bytes in the value of a content-length field: 1 to 19 decimal digits, with no sign
/// and no blanks (RFC 9110, section 8.6). `None` for any other text.
pub fn parse_length(text: &[u8]) -> Option<u64>
    ensures { result ≡ length_of_text text.now }
{
    if text.is_empty() || text.len() > 19 {
        return None;
    }
    let mut number = 0;
    for byte in text {
        if !byte.is_ascii_digit() {
            return None;
        }
        number = number * 10 + (*byte - b'0') as u64;
    }
    Some(number)
}
