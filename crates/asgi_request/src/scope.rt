//! The scope and the facts of a request.
ghost use Rattle.std.specs.Prelude.{◌≡◌, ◌≢◌, ◌≤◌, ◌||◌, codes, length, take, IfOk};
ghost use Rattle.asgi_types.specs.Tokens.{has_token, is_listed};
ghost use Rattle.asgi_request.specs.Scopes as spec;
ghost use Rattle.asgi_request.specs.Key.{IsKey};
ghost use Rattle.asgi_request.specs.Target as target_parts;
ghost use Rattle.asgi_request.specs.Upgrade as upgrade;
ghost use Rattle.asgi_types.specs.declared.facts.Framing.{Framing};

use crate::head::HeadRecord;
use crate::subprotocols::subprotocols_of;
use crate::target::{path_in_front, path_of, query_of};
use crate::upgrade::key_of;
use asgi_types::{
    Asgi, Chars, Extensions, Facts, Framing, Headers, HttpScope, HttpVersion, Kind, Names, Octets,
    Scope, State, WsScope, lists_token,
};
use percent_encoding::percent_decode;
use std::alloc::{AllocError, Global};

const HEAD: &[u8] = b"HEAD";

const CONNECTION: &[u8] = b"connection";

const CLOSE: &[u8] = b"close";

const EXPECT: &[u8] = b"expect";

const CONTINUE: &[u8] = b"100-continue";

const TE: &[u8] = b"te";

const TRAILERS: &[u8] = b"trailers";

/// The scope of a request that is no opening handshake, without a client, a server and a state
/// (ASGI HTTP and WebSocket message format 2.4, "HTTP Connection Scope"). `AllocError` if memory is
/// refused.
pub fn http_scope_of(alloc: Global, head: HeadRecord) -> Result<Scope, AllocError>
    ensures { IfOk result (λ scope. scope ≡ spec.http_scope_of head) }
{
    let path = decoded(alloc, path_of(head.target.bytes()))?;
    let query_string = Octets::new(Vec::from_slice(alloc, query_of(head.target.bytes()))?);
    let scheme = Chars::new(String::from_str(alloc, "http")?);
    let raw_path = raw_path_of(alloc, head.target)?;
    Ok(Scope::Http(HttpScope {
        asgi: Asgi::of(Kind::Http),
        http_version: head.version,
        method: head.method,
        scheme,
        path,
        raw_path,
        query_string,
        root_path: Chars::new(String::new(alloc)),
        headers: head.headers,
        client: None,
        server: None,
        state: State::new(alloc),
        extensions: Extensions {
            websocket_http_response: false,
            http_response_trailers: true,
        },
    }))
}

/// The scope of an opening handshake, without a client, a server and a state (ASGI HTTP and
/// WebSocket message format 2.4, "WebSocket Connection Scope"). `AllocError` if memory is refused.
pub fn websocket_scope_of(alloc: Global, head: HeadRecord) -> Result<Scope, AllocError>
    ensures { IfOk result (λ scope. scope ≡ spec.websocket_scope_of head) }
{
    let subprotocols = subprotocols_of(alloc, &head.headers)?;
    let path = decoded(alloc, path_of(head.target.bytes()))?;
    let query_string = Octets::new(Vec::from_slice(alloc, query_of(head.target.bytes()))?);
    let scheme = Chars::new(String::from_str(alloc, "ws")?);
    let raw_path = raw_path_of(alloc, head.target)?;
    Ok(Scope::WebSocket(WsScope {
        asgi: Asgi::of(Kind::WebSocket),
        http_version: head.version,
        scheme,
        path,
        raw_path,
        query_string,
        root_path: Chars::new(String::new(alloc)),
        headers: head.headers,
        client: None,
        server: None,
        subprotocols,
        state: State::new(alloc),
        extensions: Extensions {
            websocket_http_response: true,
            http_response_trailers: false,
        },
    }))
}

/// The path as it was received. If the target begins with it, it stays in that memory.
fn raw_path_of(alloc: Global, target: Octets) -> Result<Octets, AllocError>
    ensures { IfOk result (λ path. path ≡ target_parts.path_of target) }
{
    if let Some(n) = path_in_front(target.bytes()) {
        return Ok(front(target, n));
    }
    let path = Vec::from_slice(alloc, path_of(target.bytes()))?;
    Ok(Octets::new(path))
}

/// The first `n` bytes, in the same memory.
fn front(bytes: Octets, n: usize) -> Octets
    requires { n ≤ length bytes }
    ensures { result ≡ take n bytes }
{
    let mut bytes = bytes.into_vec();
    bytes.truncate(n);
    Octets::new(bytes)
}

/// The path, percent-decoded, with U+FFFD for what is not UTF-8.
fn decoded(alloc: Global, path: &[u8]) -> Result<Chars, AllocError>
    ensures { IfOk result (λ text. text ≡ spec.decoded path.now) }
{
    // If nothing is encoded, these are the bytes of the path itself.
    let bytes = percent_decode(path).into_cow(alloc)?;
    Ok(Chars::new(String::from_utf8_lossy(alloc, &bytes)?))
}

/// What the server keeps of a request that is no opening handshake. It takes no memory.
pub fn facts_of(alloc: Global, head: &HeadRecord, framing: Framing) -> Facts
    requires plain { framing ≢ Framing.Upgrade }
    ensures { result ≡ spec.facts_of head.now framing }
{
    match framing {
        Framing::Length(_) | Framing::Chunked => {
            facts_with(head, framing, [0; 24], Names::new(alloc))
        }
        Framing::Upgrade => unreachable!(),
    }
}

/// What the server keeps of an opening handshake, whose head has a key. It takes memory only for
/// the subprotocols that the client offers; `AllocError` if that is refused.
pub fn handshake_facts_of(alloc: Global, head: &HeadRecord) -> Result<Facts, AllocError>
    requires key { IsKey (upgrade.key_of head.now.headers) }
    ensures { IfOk result (λ facts. facts ≡ spec.facts_of head.now Framing.Upgrade) }
{
    let subprotocols = subprotocols_of(alloc, &head.headers)?;
    let key = key_of(&head.headers);
    Ok(facts_with(head, Framing::Upgrade, key, subprotocols))
}

/// The facts with this key and these subprotocols.
fn facts_with(head: &HeadRecord, framing: Framing, key: [u8; 24], subprotocols: Names) -> Facts
    ensures { result ≡ record (spec.facts_of head.now framing) { key = key; subprotocols = subprotocols } }
{
    let asked = Asked::of(&head.headers);
    Facts {
        version: head.version,
        head_only: head.method.as_str().as_bytes() == HEAD,
        close: head.version == HttpVersion::V10 || asked.close,
        expect: expects(head, framing),
        trailers_ok: head.version == HttpVersion::V11 && asked.trailers,
        framing,
        key,
        subprotocols,
    }
}

/// What the fields of a request ask of its connection and of its response.
#[derive(Clone, Copy, Debug)]
struct Asked {
    /// `connection` lists `close`.
    close: bool,
    /// `te` lists `trailers`.
    trailers: bool,
}

impl Asked {
    /// What the fields ask, in one look at each.
    fn of(headers: &Headers) -> Self
        ensures close { result.close ≡ has_token headers.now (codes "connection") (codes "close") }
        ensures trailers { result.trailers ≡ has_token headers.now (codes "te") (codes "trailers") }
    {
        let mut asked = Asked {
            close: false,
            trailers: false,
        };
        for (name, value) in headers.iter() {
            asked = asked.with(name, value);
        }
        asked
    }

    /// What is asked once a further field was looked at.
    fn with(self, name: &[u8], value: &[u8]) -> Self
        ensures close { result.close ≡ self.close || is_listed (record { name = name.now; value = value.now }) (codes "connection") (codes "close") }
        ensures trailers { result.trailers ≡ self.trailers || is_listed (record { name = name.now; value = value.now }) (codes "te") (codes "trailers") }
    {
        Asked {
            close: self.close || (name == CONNECTION && lists_token(value, CLOSE)),
            trailers: self.trailers || (name == TE && lists_token(value, TRAILERS)),
        }
    }
}

/// Whether the client waits for `100 Continue` before its body.
fn expects(head: &HeadRecord, framing: Framing) -> bool
    ensures { result ≡ spec.expects head.now framing }
{
    head.version == HttpVersion::V11
        && has_body(framing)
        && head.headers.has_token(EXPECT, CONTINUE)
}

/// Whether the framing announces a body: more than 0 bytes, or chunks, even if these turn out to be
/// empty. An opening handshake has none.
pub fn has_body(framing: Framing) -> bool
    ensures { result ≡ spec.has_body framing }
{
    match framing {
        Framing::Length(n) => n > 0,
        Framing::Chunked => true,
        Framing::Upgrade => false,
    }
}
