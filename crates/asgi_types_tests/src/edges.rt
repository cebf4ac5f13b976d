//! The values at the edges that no clause reaches: many fields, many bytes, and nothing at all. With ample memory each
//! call succeeds, and what was given comes back.

use crate::scopes::KINDS;
use crate::values::{is_number, of, of_given, set, wrong_given, wrong_name_in};
use asgi_types::{
    Asgi, Chars, Extensions, Facts, Framing, HeaderError, Headers, HttpScope, HttpVersion, Kind,
    LifespanScope, Names, Octets, Peer, Scope, State, WsScope,
};
use std::alloc::{AllocError, Global};
use std::test::Fail;

fn digit(number: usize) -> u8 {
    b'0' + (number % 10) as u8
}

/// The last three digits of the number.
fn digits(number: usize) -> [u8; 3] {
    [digit(number / 100), digit(number / 10), digit(number)]
}

/// Adds the field `X-NNN: NNN` of this number.
fn push(headers: &mut Headers, number: usize) -> Result<(), HeaderError> {
    let [a, b, c] = digits(number);
    headers.push(&[b'X', b'-', a, b, c], &[a, b, c])
}

/// The field is `x-nnn: nnn` of this number.
fn is_field(name: &[u8], value: &[u8], number: usize) -> bool {
    let [a, b, c] = digits(number);
    name == [b'x', b'-', a, b, c].as_slice() && value == [a, b, c].as_slice()
}

fn is_field_at(held: &Headers, number: usize) -> bool {
    match held.at(number) {
        Some((name, value)) => is_field(name, value, number),
        None => false,
    }
}

/// The first field that is not that of its number, in the order of iteration, or how many there are if it is not 200.
fn wrong_in_order(held: &Headers) -> Option<usize> {
    let mut count = 0usize;
    for (name, value) in held.iter() {
        if !is_field(name, value, count) {
            return Some(count);
        }
        count = count.saturating_add(1);
    }
    if count == 200 { None } else { Some(count) }
}

/// The same by their index.
fn wrong_by_index(held: &Headers) -> Option<usize> {
    for number in 0..200usize {
        if !is_field_at(held, number) {
            return Some(number);
        }
    }
    if held.len() == 200 && held.at(200).is_none() {
        None
    } else {
        Some(200)
    }
}

/// The first of the numbers 0 to 199 whose field is not there.
fn wrong_field(held: &Headers) -> Option<usize> {
    wrong_in_order(held).or(wrong_by_index(held))
}

/// The first of the numbers whose field is not pushed.
fn wrong_push(headers: &mut Headers) -> Option<usize> {
    for number in 0..200usize {
        if push(headers, number).is_err() {
            return Some(number);
        }
    }
    None
}

fn wrong_of_200(alloc: Global, headers: &mut Headers) -> Option<usize> {
    let pushed = wrong_push(headers);
    let copied = wrong_given(headers.copy(alloc), wrong_field);
    pushed.or(wrong_field(headers)).or(copied)
}

#[test]
fn two_hundred_fields_are_kept(rt: HostRuntime) {
    assert_eq!(rt;
        wrong_of_200(rt.alloc(), &mut Headers::new(rt.alloc())),
        None
    );
}

/// This many bytes, in rows of 251.
fn bytes_of(alloc: Global, count: usize) -> Result<Vec<u8>, AllocError> {
    let mut bytes = vec![in alloc; 0; count]?;
    fill(&mut bytes);
    Ok(bytes)
}

fn fill(bytes: &mut [u8]) {
    for (at, byte) in bytes.iter_mut().enumerate() {
        *byte = byte_at(at);
    }
}

fn byte_at(at: usize) -> u8 {
    (at % 251) as u8
}

fn are_bytes(bytes: &[u8], count: usize) -> bool {
    for (at, byte) in bytes.iter().enumerate() {
        if *byte != byte_at(at) {
            return false;
        }
    }
    bytes.len() == count
}

fn are_kept(alloc: Global, count: usize) -> Result<bool, AllocError> {
    let held = Octets::new(bytes_of(alloc, count)?);
    let copied = held.copy(alloc)?;
    let are_equal = are_bytes(held.bytes(), count) && are_bytes(copied.bytes(), count);
    let are_taken = are_bytes(held.into_vec().as_slice(), count);
    Ok(are_equal && are_taken && are_bytes(copied.into_vec().as_slice(), count))
}

const COUNTS: &[usize] = &[0, 1, 65_535, 65_536, 70_000, 1_048_576];

#[test]
fn octets_may_be_many(rt: HostRuntime) -> Result<(), Fail> {
    for count in COUNTS {
        assert!(rt; are_kept(rt.alloc(), *count)?, "{count} bytes");
    }
    Ok(())
}

#[test]
fn a_list_has_empty_names(rt: HostRuntime) {
    assert_eq!(rt; wrong_name_in(rt.alloc(), &["", "a", ""]), None);
}

/// The numbers under the empty name and under `a`, and nothing under another.
fn has_numbers(held: &State, empty: u64) -> bool {
    is_number(held.get(""), empty) && is_number(held.get("a"), 2) && held.get("b").is_none()
}

fn has_numbers_copied(alloc: Global, held: &State, empty: u64) -> Result<bool, AllocError> {
    let is_copied = of_given(held.copy(alloc), |copied| has_numbers(copied, empty))?;
    Ok(is_copied && has_numbers(held, empty))
}

fn is_set(state: &mut State, name: &str, number: u64) -> bool {
    set(state, name, number).is_ok()
}

fn is_first(alloc: Global, state: &mut State) -> Result<bool, AllocError> {
    Ok(is_set(state, "", 1) && is_set(state, "a", 2) && has_numbers_copied(alloc, state, 1)?)
}

fn is_replaced(alloc: Global, state: &mut State) -> Result<bool, AllocError> {
    Ok(is_set(state, "", 3) && has_numbers_copied(alloc, state, 3)?)
}

fn has_empty_name(alloc: Global, state: &mut State) -> Result<bool, AllocError> {
    Ok(is_first(alloc, state)? && is_replaced(alloc, state)?)
}

#[test]
fn a_state_has_a_value_under_the_empty_name(rt: HostRuntime) -> Result<(), Fail> {
    assert!(rt; has_empty_name(rt.alloc(), &mut State::new(rt.alloc()))?);
    Ok(())
}

fn gives_no_field(held: &Headers) -> bool {
    held.iter().next().is_none()
}

fn holds_no_field(held: &Headers) -> bool {
    held.is_empty() && held.len() == 0 && held.at(0).is_none() && gives_no_field(held)
}

fn has_no_names(held: &Names) -> bool {
    held.len() == 0 && held.at(0).is_none()
}

fn has_no_values(held: &State) -> bool {
    held.get("").is_none() && held.get("held").is_none()
}

fn is_empty_headers_copied(alloc: Global) -> Result<bool, AllocError> {
    let held = Headers::new(alloc);
    let copied = held.copy(alloc)?;
    Ok(holds_no_field(&held) && holds_no_field(&copied))
}

fn is_empty_names_copied(alloc: Global) -> Result<bool, AllocError> {
    let held = Names::new(alloc);
    let copied = held.copy(alloc)?;
    Ok(has_no_names(&held) && has_no_names(&copied))
}

fn is_empty_state_copied(alloc: Global) -> Result<bool, AllocError> {
    let held = State::new(alloc);
    let copied = held.copy(alloc)?;
    Ok(has_no_values(&held) && has_no_values(&copied))
}

#[test]
fn a_copy_of_nothing_is_nothing(rt: HostRuntime) -> Result<(), Fail> {
    assert!(rt; is_empty_headers_copied(rt.alloc())?);
    assert!(rt; is_empty_names_copied(rt.alloc())?);
    assert!(rt; is_empty_state_copied(rt.alloc())?);
    Ok(())
}

/// Facts with no subprotocols and a zero key.
fn bare_facts(alloc: Global) -> Facts {
    Facts {
        version: HttpVersion::V11,
        head_only: false,
        close: false,
        expect: true,
        trailers_ok: false,
        framing: Framing::Length(0),
        key: [0; 24],
        subprotocols: Names::new(alloc),
    }
}

fn are_bare_flags(held: &Facts) -> bool {
    held.version == HttpVersion::V11
        && !held.head_only
        && !held.close
        && held.expect
        && !held.trailers_ok
}

fn are_bare(held: &Facts) -> bool {
    are_bare_flags(held)
        && held.framing == Framing::Length(0)
        && held.key.as_slice() == [0; 24].as_slice()
        && has_no_names(&held.subprotocols)
}

/// What is kept of a request that asks for nothing: the same, but that it waits for nothing either.
fn are_plain(held: &Facts) -> bool {
    held.version == HttpVersion::V11
        && !(held.head_only || held.close || held.expect || held.trailers_ok)
        && held.framing == Framing::Length(0)
        && held.key.as_slice() == [0; 24].as_slice()
        && has_no_names(&held.subprotocols)
}

#[test]
fn a_plain_request_asks_for_nothing(rt: HostRuntime) -> Result<(), Fail> {
    assert!(rt; of(Facts::plain(rt.alloc()), are_plain));
    Ok(())
}

fn are_bare_copied(alloc: Global, held: &Facts) -> Result<bool, AllocError> {
    let are_copied = of_given(held.copy(alloc), are_bare)?;
    Ok(are_copied && are_bare(held))
}

#[test]
fn facts_with_no_subprotocols_are_copied(rt: HostRuntime) -> Result<(), Fail> {
    let alloc = rt.alloc();
    assert!(rt; of(bare_facts(alloc), |held| are_bare_copied(alloc, held))?);
    Ok(())
}

fn blank_text(alloc: Global) -> Chars {
    Chars::new(String::new(alloc))
}

fn empty_bytes(alloc: Global) -> Octets {
    Octets::new(Vec::new(alloc))
}

fn no_extensions() -> Extensions {
    Extensions {
        websocket_http_response: false,
        http_response_trailers: false,
    }
}

/// A scope whose every text and list is empty, with no peers, no fields and no state.
fn bare_http(alloc: Global) -> HttpScope {
    HttpScope {
        asgi: Asgi::of(Kind::Http),
        http_version: HttpVersion::V10,
        method: blank_text(alloc),
        scheme: blank_text(alloc),
        path: blank_text(alloc),
        raw_path: empty_bytes(alloc),
        query_string: empty_bytes(alloc),
        root_path: blank_text(alloc),
        headers: Headers::new(alloc),
        client: None,
        server: None,
        state: State::new(alloc),
        extensions: no_extensions(),
    }
}

fn bare_ws(alloc: Global) -> WsScope {
    WsScope {
        asgi: Asgi::of(Kind::WebSocket),
        http_version: HttpVersion::V10,
        scheme: blank_text(alloc),
        path: blank_text(alloc),
        raw_path: empty_bytes(alloc),
        query_string: empty_bytes(alloc),
        root_path: blank_text(alloc),
        headers: Headers::new(alloc),
        client: None,
        server: None,
        subprotocols: Names::new(alloc),
        state: State::new(alloc),
        extensions: no_extensions(),
    }
}

fn bare_lifespan(alloc: Global) -> LifespanScope {
    LifespanScope {
        asgi: Asgi::of(Kind::Lifespan),
        state: State::new(alloc),
    }
}

fn bare_scope(alloc: Global, kind: Kind) -> Scope {
    match kind {
        Kind::Http => Scope::Http(bare_http(alloc)),
        Kind::WebSocket => Scope::WebSocket(bare_ws(alloc)),
        Kind::Lifespan => Scope::Lifespan(bare_lifespan(alloc)),
    }
}

fn is_text_empty(text: &Chars) -> bool {
    text.as_str().is_empty()
}

fn are_texts_empty(scheme: &Chars, path: &Chars, root_path: &Chars) -> bool {
    is_text_empty(scheme) && is_text_empty(path) && is_text_empty(root_path)
}

fn are_bytes_empty(raw_path: &Octets, query_string: &Octets) -> bool {
    raw_path.bytes().is_empty() && query_string.bytes().is_empty()
}

fn are_unknown(client: &Option<Peer>, server: &Option<Peer>) -> bool {
    client.is_none() && server.is_none()
}

fn is_of(asgi: Asgi, version: HttpVersion, kind: Kind) -> bool {
    asgi == Asgi::of(kind) && version == HttpVersion::V10
}

fn is_bare_http(held: &HttpScope) -> bool {
    is_of(held.asgi, held.http_version, Kind::Http)
        && is_text_empty(&held.method)
        && are_texts_empty(&held.scheme, &held.path, &held.root_path)
        && are_bytes_empty(&held.raw_path, &held.query_string)
        && holds_no_field(&held.headers)
        && are_unknown(&held.client, &held.server)
        && has_no_values(&held.state)
        && held.extensions == no_extensions()
}

fn is_bare_ws(held: &WsScope) -> bool {
    is_of(held.asgi, held.http_version, Kind::WebSocket)
        && are_texts_empty(&held.scheme, &held.path, &held.root_path)
        && are_bytes_empty(&held.raw_path, &held.query_string)
        && holds_no_field(&held.headers)
        && are_unknown(&held.client, &held.server)
        && has_no_names(&held.subprotocols)
        && has_no_values(&held.state)
        && held.extensions == no_extensions()
}

fn is_bare_lifespan(held: &LifespanScope) -> bool {
    held.asgi == Asgi::of(Kind::Lifespan) && has_no_values(&held.state)
}

fn is_bare(scope: &Scope, kind: Kind) -> bool {
    match scope {
        Scope::Http(held) => kind == Kind::Http && is_bare_http(held),
        Scope::WebSocket(held) => kind == Kind::WebSocket && is_bare_ws(held),
        Scope::Lifespan(held) => kind == Kind::Lifespan && is_bare_lifespan(held),
    }
}

fn has_bare_copy(alloc: Global, scope: &Scope, kind: Kind) -> Result<bool, AllocError> {
    let is_so = of_given(scope.copy(alloc), |copied| is_bare(copied, kind))?;
    Ok(is_so && is_bare(scope, kind))
}

fn is_bare_copied(alloc: Global, kind: Kind) -> Result<bool, AllocError> {
    of(
        bare_scope(alloc, kind),
        |scope| has_bare_copy(alloc, scope, kind),
    )
}

#[test]
fn a_scope_with_nothing_known_is_copied(rt: HostRuntime) -> Result<(), Fail> {
    for kind in KINDS {
        assert!(rt; is_bare_copied(rt.alloc(), *kind)?, "{kind:?}");
    }
    Ok(())
}
