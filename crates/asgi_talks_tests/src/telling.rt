//! What sessions say unasked.
ghost use Rattle.std.specs.Prelude.{◌≡◌, ◌<◌, ◌+◌, ◌^◌};

use crate::answers::{ANSWERS, Counts, MISSED};
use crate::driver::Ask::{Lifespan, Session};
use crate::driver::Offered::{Bytes, Connect, Gone, Text};
use crate::driver::{Ask, Row, check, check_memory, is_said};
use asgi_apps::AppFault;
use asgi_talks::{Answer, Close, Hosted, Hushed, Opened, Talk, Talker, Tells, Told};
use asgi_types::{Chars, Payload, WsScope};
use std::alloc::{AllocError, AllocGlobal, Global};
use std::random::RandomSource;
use std::test::Fail;

/// Accepts each session.
#[derive(Clone, Copy, Debug)]
struct Later;

/// A session that says each text that it heard once nothing else is to be heard, and answers binary
/// messages at once.
#[derive(Debug, Drop)]
struct Kept {
    texts: Vec<Chars>,
    told: usize,
}

impl Talker for Later {
    type Session = Kept;

    fn open(&self, alloc: Global, _scope: &WsScope) -> Result<Opened<Kept>, AppFault> {
        let texts = Vec::new(alloc);
        Ok(Opened::accept(alloc, Kept { texts, told: 0 }))
    }
}

impl Talk for Kept {
    fn hear(&mut self, alloc: Global, message: Payload) -> Result<Answer, AppFault> {
        match message {
            Payload::Text(text) => {
                self.texts.push(text)?;
                Ok(Answer::nothing(alloc))
            }
            Payload::Bytes(bytes) => Ok(Answer::bytes(alloc, bytes.bytes())?),
        }
    }
}

impl Tells for Kept {
    fn tell(&mut self, alloc: Global) -> Result<Answer, AppFault> {
        match self.texts.get(self.told) {
            Some(text) => {
                let said = said_of(alloc, text.as_str())?;
                self.told = self.told.saturating_add(1);
                Ok(said)
            }
            None => Ok(Answer::nothing(alloc)),
        }
    }
}

/// What is said for a text.
fn said_of(alloc: Global, text: &str) -> Result<Answer, AppFault> {
    match text {
        "none" => Ok(Answer::nothing(alloc)),
        "two" => {
            let last = Chars::new(String::from_str(alloc, "two")?);
            Ok(Answer::text(alloc, "one")?.and(Payload::Text(last))?)
        }
        "bye" => {
            let reason = Chars::new(String::from_str(alloc, "done")?);
            Ok(Answer::text(alloc, "bye")?.and_close(Close { code: 1000, reason }))
        }
        "close" => Ok(Answer::closing(alloc, 3000, "own")?),
        "code" => Ok(Answer::closing(alloc, 1005, "")?),
        "fail" => Err(AppFault::Failed),
        _ => Ok(Answer::text(alloc, text)?),
    }
}

const ROOT: Ask = Session("/");

const TOLD: Row = (
    ROOT,
    &[Connect, Text("a"), Bytes("b"), Text("two")],
    "accept|bytes b|text a|text one|text two|idle",
);

const CLOSED: Row = (
    ROOT,
    &[Connect, Text("a"), Text("bye"), Text("b")],
    "accept|text a|text bye|close 1000 done|returned",
);

const SAID: &[Row] = &[
    TOLD,
    CLOSED,
    MISSED,
    // Nothing to say, once and for good.
    (ROOT, &[Connect], "accept|idle"),
    (
        ROOT,
        &[Connect, Text("none"), Text("a")],
        "accept|text a|idle",
    ),
    // A message that is there is heard before anything is said unasked.
    (
        ROOT,
        &[Connect, Text("a"), Bytes("b"), Bytes("c")],
        "accept|bytes b|bytes c|text a|idle",
    ),
    // Nothing is said before the session was accepted, or to a client that is gone.
    (ROOT, &[], "idle"),
    (ROOT, &[Text("a"), Connect], "accept|idle"),
    (ROOT, &[Connect, Text("a"), Gone(1001)], "accept|returned"),
    // A close, and nothing after it.
    (
        ROOT,
        &[Connect, Text("close"), Text("a")],
        "accept|close 3000 own|returned",
    ),
    // A session that fails, and a close that may not be sent.
    (
        ROOT,
        &[Connect, Text("a"), Text("fail"), Text("b")],
        "accept|text a|faulted",
    ),
    (ROOT, &[Connect, Text("code")], "accept|faulted"),
    (Lifespan, &[], "faulted"),
];

#[test]
fn a_session_speaks_unasked(rt: HostRuntime) -> Result<(), Fail> {
    check(&rt, Told::new(Later), SAID)
}

#[test]
fn a_quiet_session_only_answers(rt: HostRuntime) -> Result<(), Fail> {
    check(&rt, Told::new(Hushed::new(Counts)), ANSWERS)
}

#[test]
fn memory_for_what_is_said_unasked(rt: HostRuntime) -> Result<(), Fail> {
    check_memory(&rt, Told::new(Later), &[TOLD, CLOSED, MISSED])
}

/// Whether the talker sends what the row holds if its tasks share it: at the first try, or at the second one.
fn is_hosted<R: RandomSource + AllocGlobal>(rt: &R, row: Row) -> Result<bool, AllocError> {
    if is_said(rt, Hosted::new(rt.alloc(), Later)?, row) {
        return Ok(true);
    }
    Ok(is_said(rt, Hosted::new(rt.alloc(), Later)?, row))
}

#[test]
fn a_hosted_talker_is_a_talker(rt: HostRuntime) -> Result<(), Fail> {
    for row in SAID {
        let app = Hosted::new(rt.alloc(), Later)?;
        assert!(rt; is_said(&rt, app, *row), "{}", row.2);
    }
    for row in ANSWERS {
        let app = Hosted::new(rt.alloc(), Hushed::new(Counts))?;
        assert!(rt; is_said(&rt, app, *row), "{}", row.2);
    }
    Ok(())
}

#[test]
fn memory_for_a_hosted_talker(rt: HostRuntime) -> Result<(), Fail> {
    for row in [TOLD, CLOSED, MISSED] {
        let said = match is_hosted(&rt, row) {
            Ok(said) => said,
            Err(_) => is_hosted(&rt, row)?,
        };
        assert!(rt; said, "{}", row.2);
    }
    Ok(())
}

/// Accepts each session, and promises how it counts.
#[derive(Clone, Copy, Debug)]
struct Counter;

/// How often the session was asked.
#[derive(Clone, Copy, Debug, Drop)]
struct Asked {
    turns: u64,
}

impl Talker for Counter {
    type Session = Asked;

    fn open(&self, alloc: Global, _scope: &WsScope) -> Result<Opened<Asked>, AppFault> {
        Ok(Opened::accept(alloc, Asked { turns: 0 }))
    }
}

impl Talk for Asked {
    fn hear(&mut self, alloc: Global, _message: Payload) -> Result<Answer, AppFault> {
        Ok(Answer::nothing(alloc))
    }
}

impl Tells for Asked {
    // Each turn is counted. A session that can't count one more may fail, and no other.
    ghost tells = { λ before after _. after.turns ≡ before.turns + 1 };

    ghost fails = { λ session. ¬ (session.turns + 1 < 2 ^ 64) };

    fn tell(&mut self, alloc: Global) -> Result<Answer, AppFault> {
        let Some(turns) = self.turns.checked_add(1) else {
            return Err(AppFault::Failed);
        };
        self.turns = turns;
        Ok(Answer::nothing(alloc))
    }
}

#[test]
fn a_promise_of_what_is_said_unasked_takes_one_line(rt: HostRuntime) -> Result<(), Fail> {
    check(
        &rt,
        Told::new(Counter),
        &[(ROOT, &[Connect, Text("a")], "accept|idle")],
    )
}
