//! Sending what a turn of a session has to send, one event a poll.
ghost use Rattle.std.specs.Prelude.{◌≡◌, ◌∷◌, [], None, IfSome, IfNone};
ghost use Rattle.futures.specs.Task.{IsArmed, Keeps};
ghost use Rattle.asgi_apps.specs.Ends.{GoesOn};
ghost use Rattle.asgi_talks.specs.Answering.{answer_events};
ghost use Rattle.asgi_talks.specs.Talking.{left_of};
ghost use Rattle.asgi_talks.specs.private.Steps.{IfLeft, IsRest, Sends};

use crate::answer::Answer;
use asgi_pipes::{AppEnd, Sent};
use asgi_types::Outgoing;
use futures::task::{Context, Poll};
use std::alloc::Global;

/// What is left to send in a turn.
#[derive(Drop)]
pub struct Sending {
    /// The event to send next: the reply to the handshake, or an event that found no free place.
    waiting: Option<Outgoing>,
    /// What is sent after it.
    rest: Answer,
}

/// What came of one poll that sends.
#[derive(Clone, Copy, Debug)]
pub enum Said {
    /// Something is left to send.
    Left,
    /// All was sent.
    All,
    /// The next event may not be sent.
    Refused,
}

impl Sending {
    /// This event is left to send. Takes no memory.
    pub fn event(alloc: Global, event: Outgoing) -> Self
        ensures { left_of result ≡ event ∷ [] }
    {
        Sending {
            waiting: Some(event),
            rest: Answer::nothing(alloc),
        }
    }

    /// This answer is left to send. Takes no memory.
    pub fn answer(answer: Answer) -> Self
        ensures { left_of result ≡ answer_events answer }
    {
        Sending {
            waiting: None,
            rest: answer,
        }
    }

    /// The event to send next.
    fn next(&mut self) -> Option<Outgoing>
        ensures some { IfSome result (λ event. left_of self.old ≡ event ∷ left_of self.new) }
        ensures none { IfNone result ((left_of self.old ≡ []) × (left_of self.new ≡ [])) }
        ensures waiting { self.new.waiting ≡ None }
    {
        match self.waiting.take() {
            Some(event) => Some(event),
            None => self.rest.take_next(),
        }
    }

    /// Asks for another poll if something is left.
    fn go_on(&self, cx: &mut Context<'_>) -> Said
        requires { self.now.waiting ≡ None }
        ensures left { IsRest (left_of self.now) result }
        ensures armed { IfLeft result (IsArmed cx.new) }
        ensures kept { Keeps cx.old cx.new }
    {
        if self.rest.is_empty() {
            return Said::All;
        }
        let _pending: Poll<()> = cx.yield_now();
        Said::Left
    }

    /// Sends the next event. If something is left, the poll has asked for another or registered with
    /// the end's source.
    pub fn say<E: AppEnd>(&mut self, cx: &mut Context<'_>, end: &mut E) -> Said
        requires { E.ended end.old ≡ None }
        ensures end { GoesOn E.AppEnd None end.old end.new }
        ensures heard { E.heard end.new ≡ E.heard end.old }
        ensures says { Sends (E.kind end.old) (E.facts end.old) (E.heard end.old) (E.said end.old) (left_of self.old) (E.said end.new) (left_of self.new) result }
        ensures armed { IfLeft result (IsArmed cx.new) }
        ensures kept { Keeps cx.old cx.new }
    {
        let Some(event) = self.next() else {
            return Said::All;
        };
        match end.poll_send(cx, event) {
            Sent::Done => self.go_on(cx),
            Sent::Full(event) => {
                self.waiting = Some(event);
                Said::Left
            }
            Sent::Ignored => Said::Refused,
            Sent::Refused(_, _) => Said::Refused,
        }
    }
}
