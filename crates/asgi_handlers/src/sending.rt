//! Sending a reply, one event a poll.
ghost use Rattle.std.specs.Prelude.{◌≡◌, ◌∷◌, [], None, IfSome, IfNone};
ghost use Rattle.futures.specs.Task.{IsArmed, Keeps};
ghost use Rattle.asgi_apps.specs.Ends.{GoesOn};
ghost use Rattle.asgi_handlers.specs.Handling.{left_of};
ghost use Rattle.asgi_handlers.specs.Replies.{reply_events};
ghost use Rattle.asgi_handlers.specs.private.Hearing.{IfLeft, IsRest, Sends};

use crate::reply::Reply;
use asgi_pipes::{AppEnd, Sent};
use asgi_types::Outgoing;
use futures::task::{Context, Poll};

/// What is left to send of a reply.
#[derive(Drop)]
pub struct Sending {
    /// The event to send next: the start, or an event that found no free place.
    start: Option<Outgoing>,
    /// The body, to send after it.
    last: Option<Outgoing>,
}

/// What came of one poll that sends.
#[derive(Clone, Copy, Debug)]
pub enum Said {
    /// Something is left to send.
    Left,
    /// All was sent.
    All,
    /// The next event may not be sent.
    Refused,
}

impl Sending {
    /// The start of the reply and its body are left to send. Takes no memory.
    pub fn of(reply: Reply) -> Self
        ensures { left_of result ≡ reply_events reply }
    {
        let Reply {
            status,
            headers,
            body,
        } = reply;
        Sending {
            start: Some(Outgoing::ResponseStart {
                status,
                headers,
                trailers: false,
            }),
            last: Some(Outgoing::ResponseBody {
                body,
                more_body: false,
            }),
        }
    }

    /// The event to send next.
    fn next(&mut self) -> Option<Outgoing>
        ensures some { IfSome result (λ event. left_of self.old ≡ event ∷ left_of self.new) }
        ensures none { IfNone result ((left_of self.old ≡ []) × (left_of self.new ≡ [])) }
        ensures start { self.new.start ≡ None }
    {
        match self.start.take() {
            Some(event) => Some(event),
            None => self.last.take(),
        }
    }

    /// Asks for another poll if something is left.
    fn go_on(&self, cx: &mut Context<'_>) -> Said
        requires { self.now.start ≡ None }
        ensures left { IsRest (left_of self.now) result }
        ensures armed { IfLeft result (IsArmed cx.new) }
        ensures kept { Keeps cx.old cx.new }
    {
        match &self.last {
            Some(_) => {
                let _pending: Poll<()> = cx.yield_now();
                Said::Left
            }
            None => Said::All,
        }
    }

    /// Sends the next event. If something is left, the poll has asked for another or registered
    /// with the end's source.
    pub fn say<E: AppEnd>(&mut self, cx: &mut Context<'_>, end: &mut E) -> Said
        requires { E.ended end.old ≡ None }
        ensures end { GoesOn E.AppEnd None end.old end.new }
        ensures heard { E.heard end.new ≡ E.heard end.old }
        ensures says { Sends (E.kind end.old) (E.facts end.old) (E.heard end.old) (E.said end.old) (left_of self.old) (E.said end.new) (left_of self.new) result }
        ensures armed { IfLeft result (IsArmed cx.new) }
        ensures kept { Keeps cx.old cx.new }
    {
        let Some(event) = self.next() else {
            return Said::All;
        };
        match end.poll_send(cx, event) {
            Sent::Done => self.go_on(cx),
            Sent::Full(event) => {
                self.start = Some(event);
                Said::Left
            }
            Sent::Ignored => Said::Refused,
            Sent::Refused(_, _) => Said::Refused,
        }
    }
}
