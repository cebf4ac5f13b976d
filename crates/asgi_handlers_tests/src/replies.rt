//! Each maker of a reply, and replies that may not be sent.
use crate::driver::Ask::Get;
use crate::driver::Offered::Last;
use crate::driver::{Row, check};
use asgi_apps::AppFault;
use asgi_handlers::{Handled, Handler, Reply, Request};
use asgi_types::Headers;
use serde_json::json;
use std::test::Fail;

/// Makes a reply of each sort, by the path.
#[derive(Clone, Copy, Debug)]
struct Makes;

impl Handler for Makes {
    fn handle(&self, request: &Request<'_>) -> Result<Reply, AppFault> {
        let alloc = request.alloc();
        match request.segments() {
            ["text"] => Reply::text(alloc, "über"),
            ["html"] => Reply::html(alloc, "<p>a</p>"),
            ["json"] => {
                let value = json!(in alloc; { "item": 7, "names": ["a", "b"] })?;
                Reply::json(alloc, &value)
            }
            ["empty"] => Ok(Reply::empty(alloc)),
            ["status"] => Reply::status(alloc, 418),
            ["unchanged"] => Reply::status(alloc, 304),
            ["redirect"] => Reply::redirect(alloc, "/items/7"),
            ["words"] => Reply::redirect(alloc, "/a b\té?q=1&r=%20#x"),
            ["marks"] => Reply::redirect(alloc, "http://[::1]:80/\"<>\\^`{|}-._~!$'()*+,;@"),
            ["field"] => Reply::status(alloc, 405)?.with_field("Allow", "GET"),
            ["dropped"] => Reply::new(alloc, 204, "a/b", text(request, "abc")?),
            _ => turned_away(request),
        }
    }
}

/// Replies that may not be sent.
fn turned_away(request: &Request<'_>) -> Result<Reply, AppFault> {
    let alloc = request.alloc();
    match request.segments() {
        ["low"] => Reply::status(alloc, 199),
        ["lengths"] => Reply::text(alloc, "abc")?.with_field("content-length", "4"),
        ["longer"] => {
            let mut longer = Reply::text(alloc, "abc")?;
            longer.headers = Headers::new(alloc);
            longer.with_field("content-length", "2")
        }
        ["name"] => Reply::empty(alloc).with_field("a b", "c"),
        ["value"] => Reply::redirect(alloc, "/a\r\nb: c"),
        _ => Err(AppFault::Failed),
    }
}

fn text(request: &Request<'_>, text: &str) -> Result<Vec<u8>, AppFault> {
    Ok(Vec::from_slice(request.alloc(), text.as_bytes())?)
}

const MADE: &[Row] = &[
    (
        Get("/text"),
        &[Last("")],
        "start 200 content-type=text/plain; charset=utf-8 content-length=5|last über|returned",
    ),
    (
        Get("/html"),
        &[Last("")],
        "start 200 content-type=text/html; charset=utf-8 content-length=8|last <p>a</p>|returned",
    ),
    (
        Get("/json"),
        &[Last("")],
        "start 200 content-type=application/json content-length=28|last {\"item\":7,\"names\":[\"a\",\"b\"]}|returned",
    ),
    (Get("/empty"), &[Last("")], "start 204|last |returned"),
    (
        Get("/status"),
        &[Last("")],
        "start 418 content-length=0|last |returned",
    ),
    (Get("/unchanged"), &[Last("")], "start 304|last |returned"),
    (
        Get("/redirect"),
        &[Last("")],
        "start 303 location=/items/7 content-length=0|last |returned",
    ),
    // RFC 3986, section 2.1: what stands in no URI is encoded, and what was encoded stays (2.4).
    (
        Get("/words"),
        &[Last("")],
        "start 303 location=/a%20b%09%C3%A9?q=1&r=%20#x content-length=0|last |returned",
    ),
    (
        Get("/marks"),
        &[Last("")],
        "start 303 location=http://[::1]:80/%22%3C%3E%5C%5E%60%7B%7C%7D-._~!$'()*+,;@ content-length=0|last |returned",
    ),
    (
        Get("/field"),
        &[Last("")],
        "start 405 content-length=0 allow=GET|last |returned",
    ),
    (Get("/dropped"), &[Last("")], "start 204|last |returned"),
    // A status below 200, and two lengths: nothing is sent.
    (Get("/low"), &[Last("")], "faulted"),
    (Get("/lengths"), &[Last("")], "faulted"),
    // More content than its length: the start is sent, and the content is turned away.
    (
        Get("/longer"),
        &[Last("")],
        "start 200 content-length=2|faulted",
    ),
    (Get("/name"), &[Last("")], "faulted"),
    (Get("/value"), &[Last("")], "faulted"),
];

#[test]
fn each_maker_sets_its_fields(rt: HostRuntime) -> Result<(), Fail> {
    check(&rt, Handled::new(Makes), MADE)
}

/// Whether a field was refused, and not memory.
fn is_refused(made: Result<Reply, AppFault>) -> bool {
    match made {
        Ok(_) => false,
        Err(AppFault::Failed) => true,
        Err(AppFault::NoMemory(_)) => false,
    }
}

#[test]
fn a_bad_field_is_refused(rt: HostRuntime) -> Result<(), Fail> {
    let alloc = rt.alloc();
    let refused = [
        is_refused(Reply::empty(alloc).with_field("", "a")),
        is_refused(Reply::empty(alloc).with_field("a", "b\n")),
        is_refused(Reply::redirect(alloc, "/\0")),
    ];
    assert_eq!(rt; refused, [true; 3]);
    Ok(())
}
