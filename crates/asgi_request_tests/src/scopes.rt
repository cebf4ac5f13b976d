//! The fields of a scope, what is held after a request, and the framing of a record.
use crate::calls::{Setting, new_reader, of_given, of_given_beside, put, take};
use crate::feeding::{Row, gives};
use crate::records::{Field, record};
use crate::script::Call::{self, Feed, Held, Need, NoNeed};
use crate::script::answer;
use asgi_request::{HeadFraming, HeadRecord, Next, RequestReader, framing_of, has_body};
use asgi_types::{
    Extensions, Facts, Framing, HeaderError, Headers, HttpScope, HttpVersion, Limits, Scope,
};
use std::alloc::{AllocError, Global};
use std::test::Fail;

const TARGETS: &[Row] = &[
    (
        &[
            b"OPTIONS / HTTP/1.1\r\nHost: a\r\n\r\n",
            b"OPTIONS /? HTTP/1.1\r\nHost: a\r\n\r\n",
        ],
        "head OPTIONS [/] [/] [] 0; last() whole;",
    ),
    (
        &[b"OPTIONS /a#b HTTP/1.1\r\nHost: a\r\n\r\n"],
        "head OPTIONS [/a#b] [/a#b] [] 0; last() whole;",
    ),
    (
        &[b"OPTIONS //a/b HTTP/1.1\r\nHost: a\r\n\r\n"],
        "head OPTIONS [//a/b] [//a/b] [] 0; last() whole;",
    ),
    (
        &[b"OPTIONS * HTTP/1.1\r\nHost: a\r\n\r\n"],
        "head OPTIONS [*] [*] [] 0; last() whole;",
    ),
];

#[test]
fn a_target_has_a_path_and_a_query(rt: HostRuntime) -> Result<(), Fail> {
    gives(&rt, rt.alloc(), Setting::Usual, TARGETS)
}

const AUTHORITIES: &[Row] = &[
    (
        &[b"OPTIONS http://a/x?y HTTP/1.1\r\nHost: a\r\n\r\n"],
        "head OPTIONS [/x] [/x] [y] 0; last() whole;",
    ),
    (
        &[
            b"OPTIONS http://a HTTP/1.1\r\nHost: a\r\n\r\n",
            b"OPTIONS http://a? HTTP/1.1\r\nHost: a\r\n\r\n",
        ],
        "head OPTIONS [/] [/] [] 0; last() whole;",
    ),
    (
        &[b"OPTIONS HTTPS://a:1?y?z HTTP/1.1\r\nHost: a\r\n\r\n"],
        "head OPTIONS [/] [/] [y?z] 0; last() whole;",
    ),
];

#[test]
fn a_target_may_name_an_authority(rt: HostRuntime) -> Result<(), Fail> {
    gives(&rt, rt.alloc(), Setting::Usual, AUTHORITIES)
}

const ENCODED: &[Row] = &[
    (
        &[b"OPTIONS /a/%ff?q=%20 HTTP/1.1\r\nHost: a\r\n\r\n"],
        "head OPTIONS [/a/\u{fffd}] [/a/%ff] [q=%20] 0; last() whole;",
    ),
    (
        &[b"OPTIONS /a%2Fb%2fc HTTP/1.1\r\nHost: a\r\n\r\n"],
        "head OPTIONS [/a/b/c] [/a%2Fb%2fc] [] 0; last() whole;",
    ),
    (
        &[b"OPTIONS /%c3%a9%c3 HTTP/1.1\r\nHost: a\r\n\r\n"],
        "head OPTIONS [/\u{e9}\u{fffd}] [/%c3%a9%c3] [] 0; last() whole;",
    ),
];

#[test]
fn a_path_is_percent_decoded(rt: HostRuntime) -> Result<(), Fail> {
    gives(&rt, rt.alloc(), Setting::Usual, ENCODED)
}

const STRAY: &[Row] = &[
    (
        &[b"OPTIONS /% HTTP/1.1\r\nHost: a\r\n\r\n"],
        "head OPTIONS [/%] [/%] [] 0; last() whole;",
    ),
    (
        &[b"OPTIONS /%4 HTTP/1.1\r\nHost: a\r\n\r\n"],
        "head OPTIONS [/%4] [/%4] [] 0; last() whole;",
    ),
    (
        &[b"OPTIONS /%zz%41 HTTP/1.1\r\nHost: a\r\n\r\n"],
        "head OPTIONS [/%zzA] [/%zz%41] [] 0; last() whole;",
    ),
];

#[test]
fn a_percent_sign_without_two_digits_stays(rt: HostRuntime) -> Result<(), Fail> {
    gives(&rt, rt.alloc(), Setting::Usual, STRAY)
}

const FIELDS: &[u8] = b"get /x HTTP/1.0\r\nX-A: \t q  q \r\nhost:a\r\nX-A:\r\n\r\n";

/// Whether the head of these fields is given with a scope and facts that are theirs.
fn gives_scope_and_facts(reader: &mut RequestReader) -> Result<bool, AllocError> {
    put(reader, FIELDS)?;
    of_given(take(reader), has_scope_and_facts)
}

fn has_scope_and_facts(next: &Next) -> bool {
    match next {
        Next::Head(Scope::Http(http), facts) => {
            is_scope_of_fields(http) && are_facts_of_fields(facts)
        }
        _ => false,
    }
}

#[test]
fn a_scope_has_the_fields_of_its_head(rt: HostRuntime) -> Result<(), Fail> {
    let is_so = gives_scope_and_facts(&mut new_reader(rt.alloc(), Setting::Usual))?;
    assert!(rt; is_so);
    Ok(())
}

fn is_scope_of_fields(scope: &HttpScope) -> bool {
    says_so(scope) && knows_nothing(scope)
}

/// What the scope holds of the request.
fn says_so(scope: &HttpScope) -> bool {
    scope.http_version == HttpVersion::V10
        && scope.method.as_str() == "GET"
        && scope.scheme.as_str() == "http"
        && scope.root_path.as_str() == ""
        && scope.asgi.spec_version() == "2.4"
}

/// What only a connection can know is not there.
fn knows_nothing(scope: &HttpScope) -> bool {
    scope.client.is_none()
        && scope.server.is_none()
        && scope.state.get("").is_none()
        && sends_trailers_alone(scope.extensions)
}

/// The one extension of a request is that of trailers.
fn sends_trailers_alone(extensions: Extensions) -> bool {
    !extensions.websocket_http_response && extensions.http_response_trailers
}

fn are_facts_of_fields(facts: &Facts) -> bool {
    facts.version == HttpVersion::V10
        && facts.close
        && !facts.expect
        && !facts.trailers_ok
        && !facts.head_only
        && facts.key == [0; 24]
        && facts.subprotocols.len() == 0
}

fn gives_fields(reader: &mut RequestReader) -> Result<bool, AllocError> {
    put(reader, FIELDS)?;
    of_given(take(reader), has_fields)
}

fn has_fields(next: &Next) -> bool {
    match next {
        Next::Head(Scope::Http(http), _) => are_fields(http),
        _ => false,
    }
}

#[test]
fn header_names_are_in_lower_case(rt: HostRuntime) -> Result<(), Fail> {
    let is_so = gives_fields(&mut new_reader(rt.alloc(), Setting::Usual))?;
    assert!(rt; is_so);
    Ok(())
}

fn are_fields(scope: &HttpScope) -> bool {
    scope.headers.len() == 3
        && has_field(&scope.headers, 0, b"x-a", b"q  q")
        && has_field(&scope.headers, 1, b"host", b"a")
        && has_field(&scope.headers, 2, b"x-a", b"")
}

fn has_field(headers: &Headers, index: usize, name: &[u8], value: &[u8]) -> bool {
    let Some((kept_name, kept_value)) = headers.at(index) else {
        return false;
    };
    kept_name == name && kept_value == value
}

const AFTER: &[Call] = &[
    Feed(b"\r\n"),
    Held(b"\r\n"),
    Feed(b"GET / HTTP/1.1\r\nHost: a\r\n\r\n\r\nGE"),
    NoNeed,
    NoNeed,
    NoNeed,
    Held(b"\r\nGE"),
    Feed(b"T"),
    Need,
    Held(b"\r\nGET"),
];

#[test]
fn what_stands_after_a_whole_request_is_held(rt: HostRuntime) -> Result<(), Fail> {
    answer(&rt, rt.alloc(), Setting::Usual, AFTER)
}

const HOST: Field = ("host", "a");

/// A method, the fields, and the framing of a record of these.
type Framed = (&'static str, &'static [Field], HeadFraming);

const FRAMED: &[Framed] = &[
    ("GET", &[HOST, ("x", "a")], HeadFraming::Length(0)),
    (
        "POST",
        &[HOST, ("content-length", "3")],
        HeadFraming::Length(3),
    ),
    (
        "POST",
        &[HOST, ("transfer-encoding", "chunked")],
        HeadFraming::Chunked,
    ),
    (
        "POST",
        &[HOST, ("content-length", "1048576")],
        HeadFraming::Length(1_048_576),
    ),
    (
        "POST",
        &[HOST, ("content-length", "1048577")],
        HeadFraming::Bad(413),
    ),
    ("GET", &[HOST, ("host", "b")], HeadFraming::Bad(400)),
    (
        "POST",
        &[HOST, ("transfer-encoding", "gzip")],
        HeadFraming::Bad(501),
    ),
    ("CONNECT", &[HOST, ("x", "a")], HeadFraming::Bad(501)),
];

fn has_framing(head: &HeadRecord, framing: &HeadFraming) -> bool {
    (framing_of(head, &Limits::usual()), 0) == (*framing, 0)
}

fn is_framed(alloc: Global, row: &Framed) -> Result<bool, HeaderError> {
    let head = record(alloc, HttpVersion::V11, row.0, row.1);
    of_given_beside(head, &row.2, has_framing)
}

/// How many rows hold, up to the first that does not.
fn framed(alloc: Global, rows: &[Framed]) -> Result<usize, HeaderError> {
    for (index, row) in rows.iter().enumerate() {
        if !is_framed(alloc, row)? {
            return Ok(index);
        }
    }
    Ok(rows.len())
}

#[test]
fn a_record_has_a_framing(rt: HostRuntime) -> Result<(), Fail> {
    let count = framed(rt.alloc(), FRAMED)?;
    assert!(rt; count == FRAMED.len(), "row {count}");
    Ok(())
}

/// A framing, and whether it announces a body.
const BODIES: &[(Framing, bool)] = &[
    (Framing::Length(0), false),
    (Framing::Length(1), true),
    (Framing::Chunked, true),
    (Framing::Upgrade, false),
];

fn announces(row: &(Framing, bool)) -> bool {
    has_body(row.0) == row.1
}

#[test]
fn a_framing_may_announce_a_body(rt: HostRuntime) -> Result<(), Fail> {
    for (index, row) in BODIES.iter().enumerate() {
        assert!(rt; announces(row), "row {index}");
    }
    Ok(())
}
