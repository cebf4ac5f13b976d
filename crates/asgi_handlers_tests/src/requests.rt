//! What a handler sees of a request, and what comes of what it answers.
use crate::driver::Ask::{Delete, Get, Lifespan, Mounted, Post, Query, Session};
use crate::driver::Offered::{Connect, Disconnect, Last, Long, Part};
use crate::driver::{Ask, Row, check, is_said};
use asgi_apps::AppFault;
use asgi_handlers::{Handled, Handler, Reply, Request, Shared, ask};
use asgi_types::StateValue;
use std::test::Fail;

/// Replies with the body that it got.
#[derive(Clone, Copy, Debug)]
struct Bodies;

impl Handler for Bodies {
    fn handle(&self, request: &Request<'_>) -> Result<Reply, AppFault> {
        let alloc = request.alloc();
        let body = Vec::from_slice(alloc, request.body())?;
        Reply::new(alloc, 200, "a/b", body)
    }
}

const POST: Ask = Post("/");

const BODIES: &[Row] = &[
    (
        POST,
        &[Last("abc")],
        "start 200 content-type=a/b content-length=3|last abc|returned",
    ),
    (
        POST,
        &[Part("ab"), Part(""), Part("c"), Last("de")],
        "start 200 content-type=a/b content-length=5|last abcde|returned",
    ),
    (
        POST,
        &[Part("abc"), Last("")],
        "start 200 content-type=a/b content-length=3|last abc|returned",
    ),
    (
        POST,
        &[Last("")],
        "start 200 content-type=a/b content-length=0|last |returned",
    ),
    // The client is gone before its request is whole: nothing is sent.
    (POST, &[Part("ab"), Disconnect], "returned"),
    (POST, &[Disconnect], "returned"),
    // No more comes: the task waits, until it is stopped.
    (POST, &[Part("ab")], "idle"),
    (POST, &[], "idle"),
    (Session, &[Connect], "close 1000|returned"),
    (Lifespan, &[], "faulted"),
];

#[test]
fn a_handler_gets_the_whole_body(rt: HostRuntime) -> Result<(), Fail> {
    check(&rt, Handled::new(Bodies), BODIES)
}

/// Replies with the length of the body that it got.
#[derive(Clone, Copy, Debug)]
struct Lengths;

impl Handler for Lengths {
    fn handle(&self, request: &Request<'_>) -> Result<Reply, AppFault> {
        let alloc = request.alloc();
        let line = format!(in alloc; "{}", request.body().len())?;
        Reply::text(alloc, line.as_str())
    }
}

/// One byte more than the usual limit of a server, which may be raised.
const LONG: &[Row] = &[(
    POST,
    &[Long(1_000_000), Long(48_577), Last("")],
    "start 200 content-type=text/plain; charset=utf-8 content-length=7|last 1048577|returned",
)];

#[test]
fn a_body_is_as_long_as_the_server_lets_it(rt: HostRuntime) -> Result<(), Fail> {
    check(&rt, Handled::new(Lengths), LONG)
}

#[test]
fn a_borrowed_handler_is_a_handler(rt: HostRuntime) -> Result<(), Fail> {
    let bodies = Bodies;
    check(&rt, Handled::new(&bodies), BODIES)
}

#[test]
fn a_shared_handler_is_a_handler(rt: HostRuntime) -> Result<(), Fail> {
    for row in BODIES {
        let app = Shared::new(rt.alloc(), Bodies)?;
        assert!(rt; is_said(&rt, app, *row), "{}", row.2);
    }
    Ok(())
}

/// Fails after the whole body.
#[derive(Clone, Copy, Debug)]
struct Fails;

impl Handler for Fails {
    fn handle(&self, _request: &Request<'_>) -> Result<Reply, AppFault> {
        Err(AppFault::Failed)
    }
}

const FAULTS: &[Row] = &[
    (POST, &[Last("abc")], "faulted"),
    (POST, &[Part("abc"), Disconnect], "returned"),
];

#[test]
fn a_fault_of_a_handler_is_one_of_its_task(rt: HostRuntime) -> Result<(), Fail> {
    check(&rt, Handled::new(Fails), FAULTS)
}

/// Replies with what it sees of the request.
#[derive(Clone, Copy, Debug)]
struct Sees;

impl Handler for Sees {
    fn handle(&self, request: &Request<'_>) -> Result<Reply, AppFault> {
        let alloc = request.alloc();
        match (request.method(), request.segments()) {
            ("GET", []) => Reply::text(alloc, "home"),
            ("GET", ["path"]) => Reply::text(alloc, request.path()),
            ("GET", ["items", n]) => Reply::text(alloc, *n),
            ("GET", ["query"]) => query(request),
            ("GET", ["field"]) => field(request, "x-a"),
            // A name in any case.
            ("GET", ["other"]) => field(request, "X-b"),
            ("GET", ["none"]) => field(request, "x-c"),
            ("GET", ["client"]) => client(request),
            ("GET", ["state"]) => state(request),
            ("DELETE", ["items", _, ""]) => Ok(Reply::empty(alloc)),
            _ => Reply::status(alloc, 404),
        }
    }
}

/// The value of `a`, and then how many pairs the query has.
fn query(request: &Request<'_>) -> Result<Reply, AppFault> {
    let alloc = request.alloc();
    let mut count = 0u64;
    for pair in request.query_pairs() {
        let (_name, _value) = pair?;
        count = count.saturating_add(1);
    }
    let Some(value) = request.query("a")? else {
        return Reply::status(alloc, 400);
    };
    let text = format!(in alloc; "{} {}", value.as_str(), count)?;
    Reply::text(alloc, text.as_str())
}

fn field(request: &Request<'_>, name: &str) -> Result<Reply, AppFault> {
    let alloc = request.alloc();
    let Some(value) = request.field(name) else {
        return Reply::status(alloc, 400);
    };
    let value = Vec::from_slice(alloc, value)?;
    Reply::new(alloc, 200, "a/b", value)
}

fn client(request: &Request<'_>) -> Result<Reply, AppFault> {
    let alloc = request.alloc();
    let Some(client) = request.client() else {
        return Reply::status(alloc, 400);
    };
    let text = format!(in alloc; "{} {}", client.host.as_str(), client.port)?;
    Reply::text(alloc, text.as_str())
}

fn state(request: &Request<'_>) -> Result<Reply, AppFault> {
    let alloc = request.alloc();
    match request.state().get("n") {
        Some(StateValue::Number(n)) => {
            let text = format!(in alloc; "{n}")?;
            Reply::text(alloc, text.as_str())
        }
        _ => Reply::status(alloc, 400),
    }
}

const MISSING: &str = "start 404 content-length=0|last |returned";

const BAD: &str = "start 400 content-length=0|last |returned";

const SEEN: &[Row] = &[
    (
        Get("/"),
        &[Last("")],
        "start 200 content-type=text/plain; charset=utf-8 content-length=4|last home|returned",
    ),
    (
        Get("/path"),
        &[Last("")],
        "start 200 content-type=text/plain; charset=utf-8 content-length=5|last /path|returned",
    ),
    (
        Get("/items/7"),
        &[Last("")],
        "start 200 content-type=text/plain; charset=utf-8 content-length=1|last 7|returned",
    ),
    // A slash at the end makes an empty last part.
    (Get("/items/7/"), &[Last("")], MISSING),
    (Delete("/items/7/"), &[Last("")], "start 204|last |returned"),
    (Post("/items/7"), &[Last("")], MISSING),
    // The target `*` has no parts.
    (
        Get("*"),
        &[Last("")],
        "start 200 content-type=text/plain; charset=utf-8 content-length=4|last home|returned",
    ),
    (
        Mounted("/a/items/7", "/a"),
        &[Last("")],
        "start 200 content-type=text/plain; charset=utf-8 content-length=1|last 7|returned",
    ),
    (
        Mounted("/a", "/a"),
        &[Last("")],
        "start 200 content-type=text/plain; charset=utf-8 content-length=4|last home|returned",
    ),
    (
        Query("b=1&a=x%20y&a=z"),
        &[Last("")],
        "start 200 content-type=text/plain; charset=utf-8 content-length=5|last x y 3|returned",
    ),
    (
        Query("a=x+y&&b"),
        &[Last("")],
        "start 200 content-type=text/plain; charset=utf-8 content-length=5|last x y 2|returned",
    ),
    (Query("b=1"), &[Last("")], BAD),
    (Query(""), &[Last("")], BAD),
    (
        Get("/field"),
        &[Last("")],
        "start 200 content-type=a/b content-length=1|last 1|returned",
    ),
    (
        Get("/other"),
        &[Last("")],
        "start 200 content-type=a/b content-length=1|last 2|returned",
    ),
    (Get("/none"), &[Last("")], BAD),
    (
        Get("/client"),
        &[Last("")],
        "start 200 content-type=text/plain; charset=utf-8 content-length=14|last 192.0.2.1 5000|returned",
    ),
    (
        Get("/state"),
        &[Last("")],
        "start 200 content-type=text/plain; charset=utf-8 content-length=1|last 7|returned",
    ),
];

#[test]
fn a_handler_sees_the_request(rt: HostRuntime) -> Result<(), Fail> {
    check(&rt, Handled::new(Sees), SEEN)
}

/// The method, the path and the body of a request that is made by hand, and the status and the content
/// of its reply.
type AskRow = (&'static str, &'static str, &'static str, u16, &'static str);

const ASKED: &[AskRow] = &[
    ("GET", "/", "", 200, "home"),
    ("GET", "/items/7", "", 200, "7"),
    ("GET", "/path", "", 200, "/path"),
    ("GET", "/query", "", 400, ""),
    ("GET", "/field", "", 400, ""),
    ("GET", "/client", "", 400, ""),
    ("GET", "/state", "", 400, ""),
    ("DELETE", "/items/7/", "", 204, ""),
    ("POST", "/", "abc", 404, ""),
];

/// Whether a handler that is asked by hand replies so.
fn is_reply(reply: &Reply, row: &AskRow) -> bool {
    reply.status == row.3 && reply.body.bytes() == row.4.as_bytes()
}

#[test]
fn a_handler_is_asked_by_hand(rt: HostRuntime) -> Result<(), Fail> {
    for row in ASKED {
        let reply = ask(rt.alloc(), &Sees, row.0, row.1, row.2.as_bytes())?;
        assert!(rt; is_reply(&reply, row), "{} {}", row.0, row.1);
    }
    let reply = ask(rt.alloc(), &Bodies, "POST", "/", b"abc")?;
    assert!(rt; is_reply(&reply, &("POST", "/", "abc", 200, "abc")));
    Ok(())
}
