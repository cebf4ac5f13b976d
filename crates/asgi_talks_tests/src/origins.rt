//! Which site has begun a session.
use crate::driver::root_scope;
use asgi_talks::is_own_origin;
use asgi_types::{HeaderError, Headers};
use std::alloc::Global;
use std::test::Fail;

type Fields = &'static [(&'static str, &'static str)];

/// The fields of a handshake, and whether its origin is its own (RFC 6454, section 6.2, has how an
/// origin is written).
const ORIGINS: &[(Fields, bool)] = &[
    // A program that is no browser.
    (&[("host", "a.example")], true),
    (
        &[("host", "a.example"), ("origin", "http://a.example")],
        true,
    ),
    (
        &[("host", "a.example"), ("Origin", "https://a.example")],
        true,
    ),
    (
        &[
            ("host", "127.0.0.1:8000"),
            ("origin", "http://127.0.0.1:8000"),
        ],
        true,
    ),
    (&[("host", "[::1]:80"), ("origin", "http://[::1]:80")], true),
    (
        &[("host", "a.example"), ("origin", "http://b.example")],
        false,
    ),
    // Another port is another origin.
    (
        &[("host", "a.example"), ("origin", "http://a.example:81")],
        false,
    ),
    (
        &[("host", "a.example:81"), ("origin", "http://a.example")],
        false,
    ),
    // A site whose name begins, or ends, as this one's.
    (
        &[
            ("host", "a.example"),
            ("origin", "http://a.example.b.example"),
        ],
        false,
    ),
    (
        &[("host", "a.example"), ("origin", "http://b.a.example")],
        false,
    ),
    // A page of a file, or in a frame of its own.
    (&[("host", "a.example"), ("origin", "null")], false),
    (
        &[("host", "a.example"), ("origin", "ws://a.example")],
        false,
    ),
    (&[("host", "a.example"), ("origin", "a.example")], false),
    (&[("host", "a.example"), ("origin", "")], false),
    (&[("origin", "http://a.example")], false),
    (&[("host", ""), ("origin", "http://a.example")], false),
];

fn headers(alloc: Global, fields: Fields) -> Result<Headers, HeaderError> {
    let mut headers = Headers::new(alloc);
    for (name, value) in fields {
        headers.push(name.as_bytes(), value.as_bytes())?;
    }
    Ok(headers)
}

/// Whether the handshake with these fields is judged as the row holds.
fn holds(alloc: Global, fields: Fields, expected: bool) -> Result<bool, HeaderError> {
    let headers = headers(alloc, fields)?;
    let mut scope = root_scope(alloc);
    scope.headers = headers;
    Ok(is_own_origin(&scope) == expected)
}

#[test]
fn a_page_of_another_site_has_another_origin(rt: HostRuntime) -> Result<(), Fail> {
    for (row, (fields, expected)) in ORIGINS.iter().enumerate() {
        assert!(rt; holds(rt.alloc(), *fields, *expected)?, "row {row}");
    }
    Ok(())
}
