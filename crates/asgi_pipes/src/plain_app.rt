//! The end of the application, with queues of its own.
ghost use Rattle.std.specs.Prelude.{◌≡◌, ◌<◌, None};
ghost use Rattle.std.proofs.Math.Logic.{∥∥₁_map};
ghost use Rattle.asgi_pipes.specs.Boxes.{put_by, free_in};
ghost use Rattle.asgi_pipes.specs.Items.{items_of};

use crate::app_state::AppState;
use crate::ends::AppEnd;
use crate::inbox::Inbox;
use crate::items::{OutItem, Sent};
use crate::outbox::Outbox;
use asgi_protocol::Verdict;
use asgi_types::{EndKind, Facts, Incoming, Kind, Outgoing};
use futures::task::{Context, Poll};

/// The end of the application, for one thread: see `Plain::carry`.
#[derive(Drop)]
pub struct PlainApp {
    pub(crate) inn: Inbox<Incoming>,
    pub(crate) out: Outbox<OutItem>,
    /// In a place of its own, which a renewed pair keeps, so that an end is small where it is moved.
    pub(crate) state: Box<AppState>,
    ghost reserved: { state.value.ended ≡ None → 0 < free_in out },
    ghost same_places: { inn.places ≡ out.places },
    ghost put_is: { put_by out ≡ items_of state.value.said.items state.value.ended },
    ghost pulled_is: { inn.taken.items ≡ state.value.pulled.items },
}

impl PlainApp {
    ghost use Rattle.asgi_pipes.specs.private.AppStates.{IsFresh};
    ghost use Rattle.asgi_pipes.specs.Boxes.{IsNewOutbox, IsNewInbox};

    /// The end of a new pair, with these queues.
    pub(crate) fn new(inn: Inbox<Incoming>, out: Outbox<OutItem>, state: Box<AppState>) -> PlainApp
        requires inn { IsNewInbox out.places inn }
        requires out { IsNewOutbox out.places out }
        requires places { 0 < out.places }
        requires fresh { (kind : Kind) × (facts : Facts) × IsFresh kind facts state.value }
        ensures as_given { (result.inn ≡ inn) × (result.out ≡ out) × (result.state ≡ state) }
    {
        PlainApp { inn, out, state }
    }

    /// The end of a new pair, with the queues of this one. What is left in them is dropped.
    pub(crate) fn renewed(self, kind: Kind, facts: Facts) -> PlainApp
        requires { 0 < self.out.places }
        ensures out { IsNewOutbox self.out.places result.out }
        ensures inn { IsNewInbox self.out.places result.inn }
        ensures fresh { IsFresh kind facts result.state.value }
    {
        let PlainApp {
            mut inn,
            mut out,
            mut state,
        } = self;
        inn.clear();
        out.clear();
        *state = AppState::new(kind, facts);
        PlainApp::new(inn, out, state)
    }
}

impl AppEnd for PlainApp {
    ghost use Rattle.std.specs.Prelude.{◌-◌};
    ghost use Rattle.std.specs.VecDeque.{deque_capacity};
    ghost use Rattle.asgi_pipes.specs.Boxes.{free_in, carriage_from, carriage_to};
    ghost use Rattle.asgi_pipes.specs.Pairs.{Carried, carried};

    ghost Tag = { Carried };

    ghost tag = { λ s. carried (carriage_to s.inn) (carriage_from s.out) };

    ghost ring = { λ s. s.out.places - 1 };

    ghost capacity = { λ s. (deque_capacity s.out.queue, deque_capacity s.inn.queue) };

    ghost kind = { λ s. s.state.value.kind };

    ghost facts = { λ s. s.state.value.facts };

    ghost heard = { λ s. s.state.value.heard.items };

    ghost pulled = { λ s. s.state.value.pulled.items };

    ghost seen = { λ s. s.inn.queue.items };

    ghost said = { λ s. s.state.value.said.items };

    ghost ended = { λ s. s.state.value.ended };

    ghost room = { λ s. free_in s.out - 1 };

    ghost has_moved = { λ s. s.state.value.has_moved };

    // This end has no sources: when it must wait, it asks for another poll.
    ghost arrivals = { λ _. 0 };

    ghost vacancies = { λ _. 0 };

    fn poll_receive(&mut self, cx: &mut Context<'_>) -> Poll<Incoming> {
        if let Some(event) = self.state.hear_at_once() {
            return Poll::Ready(event);
        }
        let Some(event) = self.inn.take() else {
            return cx.yield_now();
        };
        self.state.hear(&event);
        Poll::Ready(event)
    }

    fn poll_send(&mut self, cx: &mut Context<'_>, event: Outgoing) -> Sent {
        let (verdict, judge) = self.state.look(&event);
        if let Verdict::Ignored = verdict {
            return Sent::Ignored;
        }
        if let Verdict::Refused(number) = verdict {
            return Sent::Refused(number, event);
        }
        if 2 <= self.out.free() {
            self.state.say(judge, &event);
            self.out.put(OutItem::Event(event));
            return Sent::Done;
        }
        let _: Poll<()> = cx.yield_now();
        Sent::Full(event)
    }

    fn finish(&mut self, end: EndKind) -> bool {
        if !self.state.finish(end) {
            return false;
        }
        self.out.put(OutItem::Ended(end));
        true
    }

    fn moved(&mut self) -> bool {
        self.state.moved()
    }

    ghost lawful = { λ s. ∥∥₁_map s.state.value.judged (λ stands. stands.lawful) };

    ghost hears = { λ s. s.state.value.hears_is };
}
