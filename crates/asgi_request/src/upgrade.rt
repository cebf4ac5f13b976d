//! The client's opening handshake of WebSocket (RFC 6455, section 4.2.1).
ghost use Rattle.std.specs.Prelude.{◌≡◌, IfOk, OnErr, IsTrue, Ok, true, codes};
ghost use Rattle.asgi_types.specs.Tokens.{has_token, is_listed};
ghost use Rattle.asgi_types.specs.declared.facts.Framing.{Framing};
ghost use Rattle.asgi_request.specs.Key.{IsKey};
ghost use Rattle.asgi_request.specs.RequestFraming as framings;
ghost use Rattle.asgi_request.specs.Upgrade as spec;
ghost use Rattle.asgi_request.specs.Upgrade.{HasKey, OffersSome, upgrade_of, upgrade_answer};

use crate::fields::{count_named, value_named};
use crate::framing::{HeadFraming, framing_or_refusal};
use crate::head::HeadRecord;
use crate::key::is_key;
use crate::refusal::Refusal;
use crate::scope::has_body;
use crate::subprotocols::subprotocols_of;
use asgi_types::{Framing, Headers, HttpVersion, Limits, Names, lists_token};
use std::alloc::{AllocError, Global};

const GET: &[u8] = b"GET";

const UPGRADE: &[u8] = b"upgrade";

const WEBSOCKET: &[u8] = b"websocket";

const CONNECTION: &[u8] = b"connection";

const SEC_WEBSOCKET_VERSION: &[u8] = b"sec-websocket-version";

const VERSION: &[u8] = b"13";

const SEC_WEBSOCKET_KEY: &[u8] = b"sec-websocket-key";

/// Whether a request asks for WebSocket (RFC 6455, section 4.2.1).
#[derive(Debug, Drop)]
pub enum UpgradeAsk {
    /// The request does not: it is an HTTP request.
    Plain,
    /// The request is an opening handshake.
    Upgrade {
        /// The value of `sec-websocket-key`: 16 bytes in base64.
        key: [u8; 24],
        /// The subprotocols that the client offers, in its order; none if it offers none.
        subprotocols: Names,
    },
    /// The request is refused with this status: 400 or 426 for its opening handshake, or the status
    /// with which its framing is refused.
    Bad(u16),
}

/// Whether the request asks for WebSocket, and with what (RFC 6455, section 4.2.1); `framing` is
/// that of its body, by `framing_of`. A head whose framing is refused stays refused, with the same
/// status. It takes memory only if subprotocols are offered; `AllocError` if that is refused.
pub fn check_upgrade(
    alloc: Global,
    head: &HeadRecord,
    framing: &HeadFraming,
) -> Result<UpgradeAsk, AllocError>
    ensures ask { IfOk result (λ ask. ask ≡ upgrade_of head.now framing.now) }
    ensures key { IfOk result HasKey }
    ensures memory { OnErr result (OffersSome (upgrade_of head.now framing.now)) }
{
    match framing {
        HeadFraming::Length(n) => ask_of(alloc, head, *n > 0),
        HeadFraming::Chunked => ask_of(alloc, head, true),
        HeadFraming::Bad(status) => Ok(UpgradeAsk::Bad(*status)),
    }
}

/// The same, with `has_body` in place of the framing.
fn ask_of(alloc: Global, head: &HeadRecord, has_body: bool) -> Result<UpgradeAsk, AllocError>
    ensures ask { IfOk result (λ ask. ask ≡ upgrade_answer head.now.headers (spec.handshake_or_refusal head.now has_body)) }
    ensures key { IfOk result HasKey }
    ensures memory { OnErr result (OffersSome (upgrade_answer head.now.headers (spec.handshake_or_refusal head.now has_body))) }
{
    match handshake_or_refusal(head, has_body) {
        Ok(true) => handshake(alloc, &head.headers),
        Ok(false) => Ok(UpgradeAsk::Plain),
        Err(refusal) => Ok(UpgradeAsk::Bad(refusal.status())),
    }
}

/// The key and the subprotocols of an opening handshake.
fn handshake(alloc: Global, headers: &Headers) -> Result<UpgradeAsk, AllocError>
    requires { IsKey (spec.key_of headers.now) }
    ensures ask { IfOk result (λ ask. ask ≡ upgrade_answer headers.now (Ok true)) }
    ensures key { IfOk result HasKey }
    ensures memory { OnErr result (OffersSome (upgrade_answer headers.now (Ok true))) }
{
    let key = key_of(headers);
    let subprotocols = subprotocols_of(alloc, headers)?;
    Ok(UpgradeAsk::Upgrade { key, subprotocols })
}

/// The key of an opening handshake, as the first `sec-websocket-key` field has it: the field is
/// there, and its value is a key.
pub fn key_of(headers: &Headers) -> [u8; 24]
    requires { IsKey (spec.key_of headers.now) }
    ensures { result ≡ spec.key_of headers.now }
{
    let mut key = [0; 24];
    key.copy_from_slice(value_named(headers, SEC_WEBSOCKET_KEY));
    key
}

/// What follows the head of a request, or why it is refused: for its body first (RFC 9112,
/// section 6.3), and then as an opening handshake (RFC 6455, section 4.2.1). It takes no memory.
pub fn request_framing(head: &HeadRecord, limits: &Limits) -> Result<Framing, Refusal>
    ensures framing { result ≡ framings.request_framing head.now limits.now }
    ensures key { result ≡ Ok Framing.Upgrade → IsKey (spec.key_of head.now.headers) }
{
    let framing = framing_or_refusal(head, limits)?;
    if handshake_or_refusal(head, has_body(framing))? {
        return Ok(Framing::Upgrade);
    }
    Ok(framing)
}

/// Whether the request is an opening handshake, or why it is refused: the first case that holds
/// (RFC 6455, section 4.2.1). `BadRequest` is returned for a method other than GET, for a body, and
/// if `sec-websocket-key` is not there exactly once with a key; `UpgradeRequired` if
/// `sec-websocket-version` is not there exactly once with 13. It takes no memory.
pub fn handshake_or_refusal(head: &HeadRecord, has_body: bool) -> Result<bool, Refusal>
    ensures first { result ≡ spec.handshake_or_refusal head.now has_body }
    ensures key { result ≡ Ok true → IsKey (spec.key_of head.now.headers) }
{
    if !asks_for_websocket(head) {
        return Ok(false);
    }
    if head.method.as_str().as_bytes() != GET {
        return Err(Refusal::BadRequest);
    }
    if has_body {
        return Err(Refusal::BadRequest);
    }
    if !has_version(&head.headers) {
        return Err(Refusal::UpgradeRequired);
    }
    if !has_key(&head.headers) {
        return Err(Refusal::BadRequest);
    }
    Ok(true)
}

/// Whether the request asks to switch to WebSocket.
fn asks_for_websocket(head: &HeadRecord) -> bool
    ensures { result ≡ spec.asks_for_websocket head.now }
{
    head.version == HttpVersion::V11
        && names_websocket(&head.headers)
        && head.headers.has_token(CONNECTION, UPGRADE)
}

/// Whether an `upgrade` field lists `websocket`. Most requests have no such field, and it is sought
/// in line.
fn names_websocket(headers: &Headers) -> bool
    ensures { result ≡ has_token headers.now (codes "upgrade") (codes "websocket") }
{
    headers.iter().any(|field| is_websocket(field.0, field.1))
}

fn is_websocket(name: &[u8], value: &[u8]) -> bool
    ensures { result ≡ is_listed (record { name = name.now; value = value.now }) (codes "upgrade") (codes "websocket") }
{
    name == UPGRADE && lists_token(value, WEBSOCKET)
}

/// Whether one field, and no other, gives the version that is served.
fn has_version(headers: &Headers) -> bool
    ensures { result ≡ spec.has_version headers.now }
{
    count_named(headers, SEC_WEBSOCKET_VERSION) == 1
        && value_named(headers, SEC_WEBSOCKET_VERSION) == VERSION
}

/// Whether one field, and no other, gives the key.
fn has_key(headers: &Headers) -> bool
    ensures only { result ≡ spec.has_key headers.now }
    ensures key { IsTrue result → IsKey (spec.key_of headers.now) }
{
    count_named(headers, SEC_WEBSOCKET_KEY) == 1 && is_key(value_named(headers, SEC_WEBSOCKET_KEY))
}
