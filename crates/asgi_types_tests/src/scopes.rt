//! The three kinds of scope, with what a connection adds to them, and their copies.

use crate::values::{Sort, is_name, is_of_sort, new_octets, new_text, of, of_given, value_of_sort};
use asgi_types::{
    Asgi, Chars, Extensions, Headers, HttpScope, HttpVersion, Kind, LifespanScope, Names, Octets,
    Peer, Scope, State, WsScope,
};
use std::alloc::{AllocError, Global};
use std::test::Fail;

// Each part of a scope is made, and asked for again if memory was refused.

fn text(alloc: Global, text: &str) -> Chars {
    match new_text(alloc, text) {
        Ok(made) => made,
        Err(_) => Chars::new(String::new(alloc)),
    }
}

fn bytes(alloc: Global, bytes: &[u8]) -> Octets {
    match new_octets(alloc, bytes) {
        Ok(made) => made,
        Err(_) => Octets::new(Vec::new(alloc)),
    }
}

fn peer(alloc: Global, host: &str, port: u16) -> Option<Peer> {
    Some(Peer {
        host: text(alloc, host),
        port,
    })
}

fn headers(alloc: Global) -> Headers {
    let mut headers = Headers::new(alloc);
    let _is_kept = add_field(&mut headers) || add_field(&mut headers);
    headers
}

fn add_field(headers: &mut Headers) -> bool {
    headers.push(b"X-A", b"q").is_ok()
}

fn subprotocols(alloc: Global) -> Names {
    let mut names = Names::new(alloc);
    let _is_kept = add_name(alloc, &mut names) || add_name(alloc, &mut names);
    names
}

fn add_name(alloc: Global, names: &mut Names) -> bool {
    names.push(text(alloc, "chat")).is_ok()
}

fn http_scope(alloc: Global) -> HttpScope {
    HttpScope {
        asgi: Asgi::of(Kind::Http),
        http_version: HttpVersion::V11,
        method: text(alloc, "GET"),
        scheme: text(alloc, "http"),
        path: text(alloc, "/a b"),
        raw_path: bytes(alloc, b"/a%20b"),
        query_string: bytes(alloc, b"q=%20"),
        root_path: text(alloc, "/a"),
        headers: headers(alloc),
        client: None,
        server: None,
        state: State::new(alloc),
        extensions: Extensions {
            websocket_http_response: false,
            http_response_trailers: false,
        },
    }
}

fn ws_scope(alloc: Global) -> WsScope {
    WsScope {
        asgi: Asgi::of(Kind::WebSocket),
        http_version: HttpVersion::V11,
        scheme: text(alloc, "ws"),
        path: text(alloc, "/a b"),
        raw_path: bytes(alloc, b"/a%20b"),
        query_string: bytes(alloc, b"q=%20"),
        root_path: text(alloc, "/a"),
        headers: headers(alloc),
        client: None,
        server: None,
        subprotocols: subprotocols(alloc),
        state: State::new(alloc),
        extensions: Extensions {
            websocket_http_response: true,
            http_response_trailers: false,
        },
    }
}

fn lifespan_scope(alloc: Global) -> LifespanScope {
    LifespanScope {
        asgi: Asgi::of(Kind::Lifespan),
        state: State::new(alloc),
    }
}

fn scope_of(alloc: Global, kind: Kind) -> Scope {
    match kind {
        Kind::Http => Scope::Http(http_scope(alloc)),
        Kind::WebSocket => Scope::WebSocket(ws_scope(alloc)),
        Kind::Lifespan => Scope::Lifespan(lifespan_scope(alloc)),
    }
}

/// Another sort of value for each kind of scope.
fn sort_of(kind: Kind) -> Sort {
    match kind {
        Kind::Http => Sort::Text,
        Kind::WebSocket => Sort::Bytes,
        Kind::Lifespan => Sort::Number,
    }
}

/// A state with the value of the kind.
fn state_of(alloc: Global, kind: Kind) -> State {
    let mut state = State::new(alloc);
    let _is_set = set_held(alloc, &mut state, kind) || set_held(alloc, &mut state, kind);
    state
}

fn set_held(alloc: Global, state: &mut State, kind: Kind) -> bool {
    match value_of_sort(alloc, sort_of(kind)) {
        Ok(value) => state.set("held", value).is_ok(),
        Err(_) => false,
    }
}

/// A scope of this kind with a client, a server and a state.
pub fn whole_scope(alloc: Global, kind: Kind) -> Scope {
    let client = peer(alloc, "127.0.0.1", 4_000);
    let server = peer(alloc, "::1", 80);
    scope_of(alloc, kind).with(client, server, state_of(alloc, kind))
}

fn has_value(state: &State, kind: Kind) -> bool {
    is_of_sort(state.get("held"), sort_of(kind))
}

pub fn is_peer(peer: &Peer, host: &str, port: u16) -> bool {
    peer.host.as_str() == host && peer.port == port
}

fn is_side(peer: &Option<Peer>, host: &str, port: u16) -> bool {
    match peer {
        Some(peer) => is_peer(peer, host, port),
        None => false,
    }
}

fn has_target(path: &Chars, raw_path: &Octets, query_string: &Octets, root_path: &Chars) -> bool {
    path.as_str() == "/a b"
        && raw_path.bytes() == b"/a%20b".as_slice()
        && query_string.bytes() == b"q=%20".as_slice()
        && root_path.as_str() == "/a"
}

fn has_chat(names: &Names) -> bool {
    names.len() == 1 && is_name(names, 0, "chat")
}

fn is_field(name: &[u8], value: &[u8]) -> bool {
    name == b"x-a".as_slice() && value == b"q".as_slice()
}

fn has_field(headers: &Headers) -> bool {
    match headers.at(0) {
        Some((name, value)) => is_field(name, value) && headers.len() == 1,
        None => false,
    }
}

/// The extensions of a scope of this kind.
fn has_kind(asgi: Asgi, extensions: Extensions, kind: Kind) -> bool {
    asgi == Asgi::of(kind)
        && extensions.websocket_http_response == (kind == Kind::WebSocket)
        && !extensions.http_response_trailers
}

fn has_peers(client: &Option<Peer>, server: &Option<Peer>) -> bool {
    is_side(client, "127.0.0.1", 4_000) && is_side(server, "::1", 80)
}

fn is_asked(scheme: &Chars, wanted: &str, version: HttpVersion) -> bool {
    scheme.as_str() == wanted && version == HttpVersion::V11
}

/// What the scope holds of its request.
fn is_http_request(held: &HttpScope) -> bool {
    let has_line = held.method.as_str() == "GET"
        && is_asked(&held.scheme, "http", held.http_version);
    let path = &held.path;
    has_line
        && has_target(path, &held.raw_path, &held.query_string, &held.root_path)
        && has_field(&held.headers)
}

fn is_http(held: &HttpScope) -> bool {
    has_kind(held.asgi, held.extensions, Kind::Http)
        && is_http_request(held)
        && has_value(&held.state, Kind::Http)
        && has_peers(&held.client, &held.server)
}

fn is_ws_request(held: &WsScope) -> bool {
    let path = &held.path;
    is_asked(&held.scheme, "ws", held.http_version)
        && has_target(path, &held.raw_path, &held.query_string, &held.root_path)
        && has_field(&held.headers)
        && has_chat(&held.subprotocols)
}

fn is_websocket(held: &WsScope) -> bool {
    has_kind(held.asgi, held.extensions, Kind::WebSocket)
        && is_ws_request(held)
        && has_value(&held.state, Kind::WebSocket)
        && has_peers(&held.client, &held.server)
}

fn is_lifespan(held: &LifespanScope) -> bool {
    held.asgi == Asgi::of(Kind::Lifespan) && has_value(&held.state, Kind::Lifespan)
}

/// The scope is the one of its kind above.
fn is_whole(scope: &Scope, kind: Kind) -> bool {
    match scope {
        Scope::Http(held) => kind == Kind::Http && is_http(held),
        Scope::WebSocket(held) => kind == Kind::WebSocket && is_websocket(held),
        Scope::Lifespan(held) => kind == Kind::Lifespan && is_lifespan(held),
    }
}

fn copy_of_scope(alloc: Global, held: &Scope) -> Result<Scope, AllocError> {
    match held.copy(alloc) {
        Ok(copied) => Ok(copied),
        Err(_) => held.copy(alloc),
    }
}

/// The scope is whole, and so is its copy, which is made once more if it was refused memory.
pub fn is_copied(alloc: Global, kind: Kind) -> Result<bool, AllocError> {
    of(
        whole_scope(alloc, kind),
        |scope| has_whole_copy(alloc, scope, kind),
    )
}

fn has_whole_copy(alloc: Global, scope: &Scope, kind: Kind) -> Result<bool, AllocError> {
    let is_so = of_given(copy_of_scope(alloc, scope), |copied| is_whole(copied, kind))?;
    Ok(is_so && is_whole(scope, kind))
}

fn is_made_whole(alloc: Global, kind: Kind) -> bool {
    of(whole_scope(alloc, kind), |scope| is_whole(scope, kind))
}

pub const KINDS: &[Kind] = &[Kind::Http, Kind::WebSocket, Kind::Lifespan];

#[test]
fn a_scope_has_what_its_connection_knows(rt: HostRuntime) {
    for kind in KINDS {
        assert!(rt; is_made_whole(rt.alloc(), *kind), "{kind:?}");
    }
}

#[test]
fn a_scope_is_copied_with_all_its_fields(rt: HostRuntime) -> Result<(), Fail> {
    for kind in KINDS {
        assert!(rt; is_copied(rt.alloc(), *kind)?, "{kind:?}");
    }
    Ok(())
}

/// A copy of what the scope has, which is made once more if it was refused memory.
fn copy_of_http(alloc: Global, held: &HttpScope) -> Result<HttpScope, AllocError> {
    match held.copy(alloc) {
        Ok(copied) => Ok(copied),
        Err(_) => held.copy(alloc),
    }
}

fn copy_of_session(alloc: Global, held: &WsScope) -> Result<WsScope, AllocError> {
    match held.copy(alloc) {
        Ok(copied) => Ok(copied),
        Err(_) => held.copy(alloc),
    }
}

/// The copy of what the scope has is the one of its kind; a lifespan scope has none of its own.
fn has_own_copy(alloc: Global, scope: &Scope) -> Result<bool, AllocError> {
    match scope {
        Scope::Http(held) => of_given(copy_of_http(alloc, held), is_http),
        Scope::WebSocket(held) => of_given(copy_of_session(alloc, held), is_websocket),
        Scope::Lifespan(_) => Ok(true),
    }
}

fn is_copied_alone(alloc: Global, kind: Kind) -> Result<bool, AllocError> {
    of(whole_scope(alloc, kind), |scope| has_own_copy(alloc, scope))
}

#[test]
fn the_scope_of_a_request_is_copied_by_itself(rt: HostRuntime) -> Result<(), Fail> {
    for kind in KINDS {
        assert!(rt; is_copied_alone(rt.alloc(), *kind)?, "{kind:?}");
    }
    Ok(())
}

/// An HTTP scope with no client, another server and no names.
fn is_replaced(scope: &Scope) -> bool {
    match scope {
        Scope::Http(held) => {
            held.client.is_none()
                && is_side(&held.server, "b", 1)
                && held.state.get("held").is_none()
        }
        _ => false,
    }
}

fn scope_again(alloc: Global) -> Scope {
    whole_scope(alloc, Kind::Http).with(None, peer(alloc, "b", 1), State::new(alloc))
}

#[test]
fn what_a_scope_had_before_is_replaced(rt: HostRuntime) {
    assert!(rt; of(scope_again(rt.alloc()), is_replaced));
}
