//! Talkers that promise what they answer.
ghost use Rattle.std.specs.Prelude.{◌≡◌, ◌+◌, [], None};
ghost use Rattle.asgi_talks.specs.declared.opened.Opened.TheVariants.{Accepted};
ghost use Rattle.asgi_talks.specs.Making.{message_answer};

use crate::driver::Ask::Session;
use crate::driver::Offered::{Bytes, Connect, Gone, Text};
use crate::driver::{Row, check};
use asgi_apps::AppFault;
use asgi_talks::{Answer, Opened, Talk, Talked, Talker};
use asgi_types::{Payload, WsScope};
use std::alloc::Global;
use std::test::Fail;

/// Sends each message back, and promises so.
#[derive(Clone, Copy, Debug)]
struct Echo;

/// One session of it.
#[derive(Clone, Copy, Debug, Drop)]
struct Echoes;

impl Talker for Echo {
    type Session = Echoes;

    fn open(&self, alloc: Global, _scope: &WsScope) -> Result<Opened<Echoes>, AppFault> {
        Ok(Opened::accept(alloc, Echoes))
    }
}

impl Talk for Echoes {
    // Each message is answered by itself.
    ghost answers = { λ _ message _ answer. answer ≡ message_answer message };

    fn hear(&mut self, alloc: Global, message: Payload) -> Result<Answer, AppFault> {
        Ok(Answer::message(alloc, message)?)
    }
}

const ECHOED: &[Row] = &[(
    Session("/"),
    &[Connect, Text("a"), Bytes("b"), Text(""), Gone(1000)],
    "accept|text a|bytes b|text |returned",
)];

#[test]
fn a_promise_takes_one_line(rt: HostRuntime) -> Result<(), Fail> {
    check(&rt, Talked::new(Echo), ECHOED)
}

/// Answers nothing, and promises to count.
#[derive(Clone, Copy, Debug)]
struct Silent;

/// How many messages were heard.
#[derive(Clone, Copy, Debug, Drop)]
struct Heard {
    messages: u64,
}

impl Talker for Silent {
    type Session = Heard;

    // Each session is accepted before any message.
    ghost opens = { λ _ _ opened. opened ≡ Accepted None [] (record { messages = 0 }) };

    // None is failed.
    ghost fails = { λ _ _. ⊥ };

    fn open(&self, alloc: Global, _scope: &WsScope) -> Result<Opened<Heard>, AppFault> {
        Ok(Opened::accept(alloc, Heard { messages: 0 }))
    }
}

impl Talk for Heard {
    // The session after a message has heard one more.
    ghost answers = { λ before _ after _. after.messages ≡ before.messages + 1 };

    fn hear(&mut self, alloc: Global, _message: Payload) -> Result<Answer, AppFault> {
        let Some(messages) = self.messages.checked_add(1) else {
            return Err(AppFault::Failed);
        };
        self.messages = messages;
        Ok(Answer::nothing(alloc))
    }
}

const COUNTED: &[Row] = &[(
    Session("/"),
    &[Connect, Text("a"), Text("b"), Gone(1000)],
    "accept|returned",
)];

#[test]
fn a_promise_may_be_about_the_state(rt: HostRuntime) -> Result<(), Fail> {
    check(&rt, Talked::new(Silent), COUNTED)
}
