//! How a session is opened.
use crate::driver::Ask::Session;
use crate::driver::Offered::{Connect, Gone, Text};
use crate::driver::{Row, check, check_memory};
use asgi_apps::AppFault;
use asgi_talks::{Answer, Opened, Talk, Talked, Talker};
use asgi_types::{Chars, HeaderError, Payload, WsScope};
use std::alloc::Global;
use std::test::Fail;

/// Opens a session by its path.
#[derive(Clone, Copy, Debug)]
struct ByPath;

/// Sends each message back.
#[derive(Clone, Copy, Debug, Drop)]
struct Back;

impl Talk for Back {
    fn hear(&mut self, alloc: Global, message: Payload) -> Result<Answer, AppFault> {
        Ok(Answer::message(alloc, message)?)
    }
}

impl Talker for ByPath {
    type Session = Back;

    fn open(&self, alloc: Global, scope: &WsScope) -> Result<Opened<Back>, AppFault> {
        match scope.path.as_str() {
            "/" => Ok(Opened::accept(alloc, Back)),
            "/chat" => chosen(alloc, "chat"),
            "/other" => chosen(alloc, "other"),
            "/field" => fielded(alloc, "X-A", "1"),
            "/upgrade" => fielded(alloc, "upgrade", "h2c"),
            "/name" => fielded(alloc, "a b", "1"),
            "/fail" => Err(AppFault::Failed),
            _ => Ok(Opened::Refused),
        }
    }
}

/// Accepts with this subprotocol.
fn chosen(alloc: Global, name: &str) -> Result<Opened<Back>, AppFault> {
    let name = Chars::new(String::from_str(alloc, name)?);
    Ok(Opened::accept(alloc, Back).with_subprotocol(name))
}

/// Accepts with this field.
fn fielded(alloc: Global, name: &str, value: &str) -> Result<Opened<Back>, AppFault> {
    match Opened::accept(alloc, Back).with_field(name, value) {
        Ok(opened) => Ok(opened),
        Err(HeaderError::NoMemory(e)) => Err(AppFault::NoMemory(e)),
        Err(HeaderError::BadName) => Err(AppFault::Failed),
        Err(HeaderError::BadValue) => Err(AppFault::Failed),
    }
}

const CHOSEN: Row = (
    Session("/chat"),
    &[Connect, Text("a"), Gone(1000)],
    "accept chat|text a|returned",
);

const FIELDED: Row = (
    Session("/field"),
    &[Connect, Gone(1000)],
    "accept x-a=1|returned",
);

const REFUSED: Row = (
    Session("/no"),
    &[Connect, Text("a")],
    "close 1000 |returned",
);

const OPENED: &[Row] = &[
    CHOSEN,
    FIELDED,
    REFUSED,
    (
        Session("/"),
        &[Connect, Text("a"), Gone(1000)],
        "accept|text a|returned",
    ),
    // The client does not offer it, and a field that is the server's own.
    (Session("/other"), &[Connect, Text("a")], "faulted"),
    (Session("/upgrade"), &[Connect, Text("a")], "faulted"),
    // The talker has failed.
    (Session("/name"), &[Connect], "faulted"),
    (Session("/fail"), &[Connect], "faulted"),
    // Nothing is sent before "Connect".
    (Session("/no"), &[], "idle"),
    (Session("/fail"), &[Gone(1006)], "returned"),
];

#[test]
fn a_session_is_opened_as_the_talker_says(rt: HostRuntime) -> Result<(), Fail> {
    check(&rt, Talked::new(ByPath), OPENED)
}

#[test]
fn memory_for_a_handshake(rt: HostRuntime) -> Result<(), Fail> {
    check_memory(&rt, Talked::new(ByPath), &[CHOSEN, FIELDED, REFUSED])
}
