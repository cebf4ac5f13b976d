//! The subprotocols that a client offers.
ghost use Rattle.std.specs.Prelude.{◌≡◌, ◌<◌, ◌++◌, [], ◌∷◌, IfOk, OnOk, OnErr, IfSome, IsNone, length, true};
ghost use Rattle.httparse.specs.Grammar.{is_token};
ghost use Rattle.asgi_request.specs.Upgrade as spec;
ghost use Rattle.asgi_request.specs.Upgrade.{parts_of};

use asgi_types::{Chars, Headers, Names, trimmed};
use httparse::is_token;
use memchr::memchr;
use std::alloc::{AllocError, Global};

const SEC_WEBSOCKET_PROTOCOL: &[u8] = b"sec-websocket-protocol";

/// The subprotocols that the client offers, each a token as it is spelled, in its order over all
/// `sec-websocket-protocol` fields (RFC 6455, section 4.2.1); what is no token is left out. It
/// takes memory only if there are some; `AllocError` if that is refused.
pub fn subprotocols_of(alloc: Global, headers: &Headers) -> Result<Names, AllocError>
    ensures same { IfOk result (λ names. names ≡ spec.subprotocols_of headers.now) }
    ensures needed { OnErr result (¬ (spec.subprotocols_of headers.now ≡ [])) }
{
    let mut names = Names::new(alloc);
    for (name, value) in headers.iter() {
        if name == SEC_WEBSOCKET_PROTOCOL {
            push_tokens(alloc, &mut names, value)?;
        }
    }
    Ok(names)
}

/// Adds the tokens that the value lists.
fn push_tokens(alloc: Global, names: &mut Names, value: &[u8]) -> Result<(), AllocError>
    ensures ok { OnOk result (names.new ≡ names.old ++ spec.tokens_of value.now) }
    ensures needed { OnErr result (¬ (spec.tokens_of value.now ≡ [])) }
{
    let mut rest = value;
    while let Some((part, after)) = cut_at_comma(rest) {
        push_token(alloc, names, trimmed(part))?;
        rest = after;
    }
    push_token(alloc, names, trimmed(rest))
}

/// The bytes before the first comma, and those after it.
fn cut_at_comma(value: &[u8]) -> Option<(&[u8], &[u8])>
    ensures none { IsNone result → parts_of value.now ≡ value.now ∷ [] }
    ensures cut { IfSome result (λ cut. parts_of value.now ≡ cut.0.now ∷ parts_of cut.1.now) }
    ensures shorter { IfSome result (λ cut. length cut.1.now < length value.now) }
{
    let comma = memchr(b',', value)?;
    Some((&value[..comma], &value[comma + 1..]))
}

/// Adds the part, if it is a token.
fn push_token(alloc: Global, names: &mut Names, part: &[u8]) -> Result<(), AllocError>
    ensures ok { OnOk result (names.new ≡ names.old ++ spec.token_of part.now) }
    ensures needed { OnErr result (is_token part.now ≡ true) }
{
    if !is_token(part) {
        return Ok(());
    }
    names.push(token(alloc, part)?)?;
    Ok(())
}

/// The token as a text.
fn token(alloc: Global, part: &[u8]) -> Result<Chars, AllocError>
    requires { is_token part.now ≡ true }
    ensures { IfOk result (λ text. text ≡ part.now) }
{
    match str::from_utf8(part) {
        Ok(text) => Ok(Chars::new(String::from_str(alloc, text)?)),
        Err(_) => unreachable!(),
    }
}
