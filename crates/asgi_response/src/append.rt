//! Texts appended together or not at all.
ghost use Rattle.std.specs.Prelude.{◌≡◌, ◌++◌, ◌^◌, ◌≤◌, ◌<◌, OnOk, OnErr, IfOk, flat_map, drop, false, length};
ghost use Rattle.std.specs.Vec.{vec_len, vec_capacity};
ghost use Rattle.asgi_types.specs.Room.{LacksRoom};
ghost use Rattle.std.specs.Fmt.{digits, digit_glyph};

use std::alloc::AllocError;

/// Appends the texts in order, in one reservation. `AllocError` if memory is refused; then the
/// vector is as before. For the crates of this repository only.
#[doc(hidden)]
pub fn append_all(out: &mut Vec<u8>, texts: &[&[u8]]) -> Result<(), AllocError>
    ensures ok { OnOk result (out.new.items ≡ out.old.items ++ flat_map (λ text. text.now) texts.now) }
    ensures err { OnErr result (out.new.items ≡ out.old.items) }
    ensures capacity { vec_capacity out.old ≤ vec_capacity out.new }
    ensures full { OnErr result (LacksRoom (vec_capacity out.old) (vec_len out.old) (flat_map (λ text. text.now) texts.now)) }
{
    out.reserve(total_len(texts)?)?;
    for text in texts {
        // The room is reserved, so this never fails: only its type allows an error.
        out.extend_from_slice(*text)?;
    }
    Ok(())
}

/// How many bytes the texts have together. `AllocError` if that does not fit a `usize`: no memory
/// holds that many.
pub fn total_len(texts: &[&[u8]]) -> Result<usize, AllocError>
    ensures ok { IfOk result (λ n. n ≡ length (flat_map (λ text. text.now) texts.now)) }
    ensures err { OnErr result (2 ^ 64 ≤ length (flat_map (λ text. text.now) texts.now)) }
{
    let mut total = 0usize;
    for text in texts {
        total = total.checked_add(text.len()).ok_or(AllocError)?;
    }
    Ok(total)
}

/// Writes the number in lowercase hexadecimal, without leading zeros, at the end of the buffer, and
/// returns the index at which it begins: the form of a chunk size (RFC 9112, section 7.1).
pub fn hexadecimal(number: usize, buffer: &mut [u8; 16]) -> usize
    ensures inside { result ≤ 16 }
    ensures digits { drop result buffer.new ≡ digits 16 false number }
{
    let mut at = 16;
    let mut rest = number;
    while at > 0 {
        at -= 1;
        buffer[at] = digit(rest % 16);
        rest /= 16;
        if rest == 0 {
            return at;
        }
    }
    at
}

/// The hexadecimal digit of this value.
fn digit(value: usize) -> u8
    requires { value < 16 }
    ensures { result ≡ digit_glyph false value }
{
    if value < 10 {
        return b'0' + value as u8;
    }
    b'a' + (value - 10) as u8
}
