//! The tokens that the fields of a name list.
ghost use Rattle.std.specs.Prelude.{◌≡◌, ◌||◌, reverse};
ghost use Rattle.httparse.specs.Grammar.{is_ows, skip_ows, trim_ows};
ghost use Rattle.asgi_types.specs.Tokens as spec;

use crate::Headers;

impl Headers {
    /// Whether a field of the name lists the token, in any case (RFC 9110, sections 5.1 and 5.6.1).
    /// The name is in lower case, as names in `Headers` are. No field lists an empty token. It
    /// takes no memory.
    pub fn has_token(&self, name: &[u8], token: &[u8]) -> bool
        ensures { result ≡ spec.has_token self.now name.now token.now }
    {
        self.iter()
            .any(|field| is_listed(field.0, field.1, name, token))
    }
}

/// Whether a field has the name, and lists the token.
fn is_listed(field_name: &[u8], value: &[u8], name: &[u8], token: &[u8]) -> bool
    ensures { result ≡ spec.is_listed (record { name = field_name.now; value = value.now }) name.now token.now }
{
    field_name == name && lists_token(value, token)
}

/// Whether the token is among the parts between commas, in any case. For the crates of this
/// repository only.
#[doc(hidden)]
pub fn lists_token(value: &[u8], token: &[u8]) -> bool
    ensures { result ≡ spec.lists_token value.now token.now }
{
    value
        .split(|b| *b == b',')
        .any(|part| is_token(part, token))
}

/// Whether the part is the token in any case, between spaces and tabs. An empty part is no token.
fn is_token(part: &[u8], token: &[u8]) -> bool
    ensures { result ≡ spec.is_element part.now token.now }
{
    let trimmed = trimmed(part);
    !trimmed.is_empty() && trimmed.eq_ignore_ascii_case(token)
}

/// The part without the spaces and tabs at its ends (RFC 9110, section 5.6.3). For the crates of
/// this repository only.
#[doc(hidden)]
pub fn trimmed(part: &[u8]) -> &[u8]
    ensures { result.now ≡ trim_ows part.now }
{
    trim_end(trim_start(part))
}

fn is_blank(b: u8) -> bool
    ensures { result ≡ is_ows b }
{
    b == b' ' || b == b'\t'
}

/// The bytes from the first that is neither a space nor a tab.
fn trim_start(bytes: &[u8]) -> &[u8]
    ensures { result.now ≡ skip_ows bytes.now }
{
    for (i, b) in bytes.iter().enumerate() {
        if !is_blank(*b) {
            return &bytes[i..];
        }
    }
    &[]
}

/// The bytes up to the last that is neither a space nor a tab.
fn trim_end(bytes: &[u8]) -> &[u8]
    ensures { result.now ≡ reverse (skip_ows (reverse bytes.now)) }
{
    let mut rest = bytes;
    while let [front @ .., last] = rest {
        if !is_blank(*last) {
            return rest;
        }
        rest = front;
    }
    rest
}
