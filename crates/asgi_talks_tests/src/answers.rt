//! What sessions answer, and what is sent of it.
use crate::driver::Ask::{Lifespan, Request, Session};
use crate::driver::Offered::{Bytes, Connect, Gone, Last, Text};
use crate::driver::{Ask, Row, check, check_memory};
use asgi_apps::AppFault;
use asgi_talks::{Answer, Close, Opened, Talk, Talked, Talker};
use asgi_types::{Chars, Payload, WsScope};
use std::alloc::Global;
use std::test::Fail;

/// Accepts each session, and counts its messages.
#[derive(Clone, Copy, Debug)]
pub struct Counts;

/// How many messages were heard.
#[derive(Clone, Copy, Debug, Drop)]
pub struct Count {
    heard: u64,
}

impl Talker for Counts {
    type Session = Count;

    fn open(&self, alloc: Global, _scope: &WsScope) -> Result<Opened<Count>, AppFault> {
        Ok(Opened::accept(alloc, Count { heard: 0 }))
    }
}

impl Talk for Count {
    fn hear(&mut self, alloc: Global, message: Payload) -> Result<Answer, AppFault> {
        self.heard = self.heard.saturating_add(1);
        match message {
            Payload::Text(text) => numbered(alloc, self.heard, text.as_str()),
            Payload::Bytes(bytes) => Ok(Answer::bytes(alloc, bytes.bytes())?),
        }
    }
}

/// The answer to the nth text.
fn numbered(alloc: Global, n: u64, text: &str) -> Result<Answer, AppFault> {
    match text {
        "none" => Ok(Answer::nothing(alloc)),
        "two" => {
            let last = Chars::new(String::from_str(alloc, "two")?);
            Ok(Answer::text(alloc, "one")?.and(Payload::Text(last))?)
        }
        "bye" => {
            let reason = Chars::new(String::from_str(alloc, "done")?);
            Ok(Answer::text(alloc, "bye")?.and_close(Close { code: 1000, reason }))
        }
        "close" => Ok(Answer::closing(alloc, 3000, "own")?),
        "code" => Ok(Answer::closing(alloc, 1005, "")?),
        "fail" => Err(AppFault::Failed),
        _ => {
            let line = format!(in alloc; "{n} {text}")?;
            Ok(Answer::text(alloc, line.as_str())?)
        }
    }
}

const ROOT: Ask = Session("/");

const WHOLE: Row = (
    ROOT,
    &[Connect, Text("a"), Bytes("b"), Text("c"), Gone(1005)],
    "accept|text 1 a|bytes b|text 3 c|returned",
);

const CLOSED: Row = (
    ROOT,
    &[Connect, Text("a"), Text("bye"), Text("b"), Gone(1000)],
    "accept|text 1 a|text bye|close 1000 done|returned",
);

pub const MISSED: Row = (
    Request,
    &[Last("abc")],
    "start 404 content-length=0|last |returned",
);

pub const ANSWERS: &[Row] = &[
    WHOLE,
    CLOSED,
    MISSED,
    // Each answer is sent whole before the next message is heard.
    (
        ROOT,
        &[Connect, Text("two"), Text("a"), Text("two")],
        "accept|text one|text two|text 2 a|text one|text two|idle",
    ),
    // A message may have no answer.
    (
        ROOT,
        &[Connect, Text("none"), Text("none"), Text("a")],
        "accept|text 3 a|idle",
    ),
    // A close, and nothing after it.
    (
        ROOT,
        &[Connect, Text("close"), Text("a")],
        "accept|close 3000 own|returned",
    ),
    // The client is gone.
    (ROOT, &[Connect, Gone(1001)], "accept|returned"),
    (
        ROOT,
        &[Connect, Text("two"), Gone(1006)],
        "accept|text one|text two|returned",
    ),
    (ROOT, &[Gone(1006)], "returned"),
    // No more comes: the task waits, until it is stopped.
    (ROOT, &[Connect], "accept|idle"),
    (ROOT, &[], "idle"),
    // No message is heard before the session was accepted, and it is accepted once.
    (
        ROOT,
        &[Text("a"), Connect, Text("b"), Connect, Text("c")],
        "accept|text 1 b|text 2 c|idle",
    ),
    // A session that fails, and a close that may not be sent.
    (
        ROOT,
        &[Connect, Text("a"), Text("fail"), Text("b")],
        "accept|text 1 a|faulted",
    ),
    (ROOT, &[Connect, Text("code")], "accept|faulted"),
    (Lifespan, &[], "faulted"),
];

#[test]
fn each_message_is_answered_in_turn(rt: HostRuntime) -> Result<(), Fail> {
    check(&rt, Talked::new(Counts), ANSWERS)
}

#[test]
fn a_borrowed_talker_is_a_talker(rt: HostRuntime) -> Result<(), Fail> {
    let counts = Counts;
    check(&rt, Talked::new(&counts), ANSWERS)
}

#[test]
fn memory_for_a_session(rt: HostRuntime) -> Result<(), Fail> {
    check_memory(&rt, Talked::new(Counts), &[WHOLE, CLOSED, MISSED])
}
