//! A task that has a list of events to send.
ghost use Rattle.std.specs.Prelude.{◌≡◌, List, [], ◌∷◌, ◌++◌, None, OnOk, OnErr, IfOk, IfSome, IfNone};
ghost use Rattle.std.specs.Result.{IsErrOf};
ghost use Rattle.futures.specs.Poll.{IfReady, OnPending};
ghost use Rattle.futures.specs.Task.{IsArmed, Keeps};
ghost use Rattle.asgi_apps.specs.Ends.{GoesOn};

use crate::task::{AppFault, AppTask};
use asgi_io::History;
use asgi_pipes::{AppEnd, Sent};
use asgi_types::{Kind, Outgoing};
use futures::task::{Context, Poll};
use std::alloc::{AllocError, Global};
use std::collections::VecDeque;

/// Sends a list of events, one a poll, and returns. Receives nothing. If an event is refused or
/// ignored, the task fails. A task of one's own sends a list by `send`.
#[derive(Drop)]
pub struct Says {
    kind: Kind,
    /// An event that found no free place when it was sent.
    waiting: Option<Outgoing>,
    events: VecDeque<Outgoing>,
    script: History<Outgoing>,
}

impl Says {
    ghost use Rattle.asgi_types.specs.declared.outgoing.Outgoing.{Outgoing};
    ghost use Rattle.asgi_apps.specs.Saying.{IsToSay, IsTurnedAway, left_of, script};

    /// Nothing to send yet, in a scope of this kind, with room for `events` events. `AllocError` if
    /// memory for them is refused.
    pub fn with_room(alloc: Global, kind: Kind, events: usize) -> Result<Self, AllocError>
        ensures { IfOk result (λ says. IsToSay says kind []) }
    {
        let events = VecDeque::with_capacity(alloc, events)?;
        Ok(Says {
            kind,
            waiting: None,
            events,
            script: History::new(),
        })
    }

    /// Adds an event to send, after the others. `AllocError` if memory is refused; then what is to
    /// be sent is as before.
    pub fn add(&mut self, event: Outgoing) -> Result<(), AllocError>
        ensures ok { OnOk result ((script self.new ≡ script self.old ++ event ∷ []) × (left_of self.new ≡ left_of self.old ++ event ∷ [])) }
        ensures err { OnErr result ((script self.new ≡ script self.old) × (left_of self.new ≡ left_of self.old)) }
        ensures kind { self.new.kind ≡ self.old.kind }
    {
        let script = History::with(&self.script, &event);
        self.events.push_back(event)?;
        self.script = script;
        Ok(())
    }

    /// Sends the next event of the list. Ready once all were sent; `Failed` if the event is refused
    /// or ignored. For a task of one's own that sends a list after others, or after it has received
    /// what it waits for: it may be called in any poll.
    pub fn send<E: AppEnd>(
        &mut self,
        cx: &mut Context<'_>,
        end: &mut E,
    ) -> Poll<Result<(), AppFault>>
        requires { E.ended end.old ≡ None }
        ensures end { GoesOn E.AppEnd None end.old end.new }
        ensures heard { E.heard end.new ≡ E.heard end.old }
        ensures pending { OnPending result (E.said end.new ++ left_of self.new ≡ E.said end.old ++ left_of self.old) }
        ensures ok { IfReady result (λ done. OnOk done ((E.said end.new ≡ E.said end.old ++ left_of self.old) × (left_of self.new ≡ []))) }
        ensures failed { IfReady result (λ done. OnErr done (IsErrOf done AppFault.Failed × (E.said end.new ≡ E.said end.old)
            × IsTurnedAway self.old (E.kind end.old) (E.facts end.old) (E.heard end.old) (E.said end.old))) }
        ensures same { (self.new.kind ≡ self.old.kind) × (script self.new ≡ script self.old) }
        ensures armed { OnPending result (IsArmed cx.new) }
        ensures kept { Keeps cx.old cx.new }
    {
        let Some(event) = self.next() else {
            return Poll::Ready(Ok(()));
        };
        match end.poll_send(cx, event) {
            Sent::Done => {
                if self.events.is_empty() {
                    return Poll::Ready(Ok(()));
                }
                cx.yield_now()
            }
            Sent::Full(event) => {
                self.waiting = Some(event);
                Poll::Pending
            }
            Sent::Ignored => Poll::Ready(Err(AppFault::Failed)),
            Sent::Refused(_, _) => Poll::Ready(Err(AppFault::Failed)),
        }
    }

    /// The event to send next.
    fn next(&mut self) -> Option<Outgoing>
        ensures some { IfSome result (λ event. left_of self.old ≡ event ∷ self.new.events.items) }
        ensures none { IfNone result ((left_of self.old ≡ []) × (self.new.events.items ≡ [])) }
        ensures waiting { self.new.waiting ≡ None }
        ensures same { (self.new.kind ≡ self.old.kind) × (script self.new ≡ script self.old) }
    {
        match self.waiting.take() {
            Some(event) => Some(event),
            None => self.events.pop_front(),
        }
    }
}

impl AppTask for Says {
    ghost use Rattle.asgi_apps.specs.Saying.{HasSaid, SaysList, left_of, script};

    ghost stands = { HasSaid };

    ghost answers = { λ says heard said ended. SaysList says.kind (script says) said ended };

    fn poll<E: AppEnd>(&mut self, cx: &mut Context<'_>, end: &mut E) -> Poll<Result<(), AppFault>> {
        self.send(cx, end)
    }

    ghost keeps = { λ says kind heard said stands. (left_of says, stands.in_order) };
}
