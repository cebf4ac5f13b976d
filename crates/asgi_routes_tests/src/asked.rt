//! A request, and what a table replies to it: as a text of the status, the fields and the content.
use asgi_apps::AppFault;
use asgi_handlers::{Handler, Reply, Request};
use asgi_types::{Asgi, Chars, Extensions, Headers, HttpScope, HttpVersion, Kind, Octets, State};
use std::alloc::{AllocError, Global};
use std::test::Fail;

/// A method, a path, the prefix of it under which the application is mounted, and what is replied.
#[derive(Clone, Copy)]
pub struct Row(
    pub &'static str,
    pub &'static str,
    pub &'static str,
    pub &'static str,
);

// What a handler is given is made, and asked for again if memory was refused.

pub fn chars(alloc: Global, text: &str) -> Chars {
    let mut made = String::new(alloc);
    if made.push_str(text).is_err() {
        let _again = made.push_str(text);
    }
    Chars::new(made)
}

pub fn octets(alloc: Global, text: &str) -> Octets {
    let mut made = Vec::new(alloc);
    if made.extend_from_slice(text.as_bytes()).is_err() {
        let _again = made.extend_from_slice(text.as_bytes());
    }
    Octets::new(made)
}

pub const NO_EXTENSIONS: Extensions = Extensions {
    websocket_http_response: false,
    http_response_trailers: false,
};

fn scope_of(alloc: Global, method: &str, path: &str, root_path: &str) -> HttpScope {
    HttpScope {
        asgi: Asgi::of(Kind::Http),
        http_version: HttpVersion::V11,
        method: chars(alloc, method),
        scheme: chars(alloc, "http"),
        path: chars(alloc, path),
        raw_path: octets(alloc, path),
        query_string: Octets::new(Vec::new(alloc)),
        root_path: chars(alloc, root_path),
        headers: Headers::new(alloc),
        client: None,
        server: None,
        state: State::new(alloc),
        extensions: NO_EXTENSIONS,
    }
}

/// Whether the handler replies to the request what the row holds.
fn is_replied<H: Handler>(alloc: Global, handler: &H, row: Row) -> Result<bool, AppFault> {
    let Row(method, path, root_path, expected) = row;
    let scope = scope_of(alloc, method, path, root_path);
    is_replied_in(alloc, handler, &scope, expected)
}

fn is_replied_in<H: Handler>(
    alloc: Global,
    handler: &H,
    scope: &HttpScope,
    expected: &str,
) -> Result<bool, AppFault> {
    let request = Request::new(alloc, scope, &[], b"abc");
    let reply = handler.handle(&request)?;
    Ok(is_told(alloc, &reply, expected)?)
}

fn is_told(alloc: Global, reply: &Reply, expected: &str) -> Result<bool, AllocError> {
    let mut text = Vec::new(alloc);
    tell(alloc, &mut text, reply)?;
    Ok(text.as_slice() == expected.as_bytes())
}

fn tell(alloc: Global, text: &mut Vec<u8>, reply: &Reply) -> Result<(), AllocError> {
    let status = format!(in alloc; "{}", reply.status)?;
    text.extend_from_slice(status.as_bytes())?;
    for (name, value) in reply.headers.iter() {
        add(text, &[b" ", name, b"=", value])?;
    }
    add(text, &[b"|", reply.body.bytes()])
}

pub fn add(text: &mut Vec<u8>, parts: &[&[u8]]) -> Result<(), AllocError> {
    for part in parts {
        text.extend_from_slice(part)?;
    }
    Ok(())
}

/// The same; if memory was refused the request is asked again, and its reply is whole.
fn is_replied_at_last<H: Handler>(alloc: Global, handler: &H, row: Row) -> Result<bool, AppFault> {
    match is_replied(alloc, handler, row) {
        Err(AppFault::NoMemory(_)) => is_replied(alloc, handler, row),
        replied => replied,
    }
}

/// Whether the handler replies the row. For a fault of its own a row holds `failed`.
fn holds<H: Handler>(alloc: Global, handler: &H, row: &Row) -> bool {
    match is_replied_at_last(alloc, handler, *row) {
        Ok(is_same) => is_same,
        Err(_) => row.3 == "failed",
    }
}

/// Fails with what the first row holds that the handler does not reply.
pub fn check<H: Handler>(alloc: Global, handler: &H, rows: &[Row]) -> Result<(), Fail> {
    for row in rows {
        if !holds(alloc, handler, row) {
            return Err(Fail::from(row.3));
        }
    }
    Ok(())
}
