//! The end of the application, over two rings.
ghost use Rattle.std.specs.Prelude.{◌≡◌, ◌<◌, [], None};
ghost use Rattle.std.proofs.Math.Logic.{∥∥₁_map};
ghost use Rattle.rtrb.specs.Ring.{sent, received, known_free};
ghost use Rattle.rtrb.specs.Ends.{capacity_of};
ghost use Rattle.asgi_pipes.specs.Items.{items_of};

use crate::app_state::AppState;
use crate::ends::AppEnd;
use crate::items::{OutItem, Sent};
use asgi_protocol::Verdict;
use asgi_types::{EndKind, Facts, Incoming, Kind, Outgoing};
use futures::task::{Context, Poll};
use rtrb::{Consumer, Producer};

/// The end of the application; the other end may be in another thread.
#[derive(Drop)]
pub struct RingApp {
    pub(crate) from_conn: Consumer<Incoming>,
    pub(crate) to_conn: Producer<OutItem>,
    pub(crate) state: AppState,
    ghost reserved: { state.ended ≡ None → 0 < known_free to_conn },
    ghost same_places: { capacity_of from_conn.end ≡ capacity_of to_conn.end },
    ghost put_is: { sent to_conn ≡ items_of state.said.items state.ended },
    ghost pulled_is: { received from_conn ≡ state.pulled.items },
}

impl RingApp {
    ghost use Rattle.asgi_pipes.specs.private.AppStates.{IsFresh};

    /// The end of a new pair, over these rings.
    pub(crate) fn new(
        from_conn: Consumer<Incoming>,
        to_conn: Producer<OutItem>,
        kind: Kind,
        facts: Facts,
    ) -> RingApp
        requires fresh { (received from_conn ≡ []) × (sent to_conn ≡ []) }
        requires free { 0 < known_free to_conn }
        requires places { capacity_of from_conn.end ≡ capacity_of to_conn.end }
        ensures rings { (result.from_conn ≡ from_conn) × (result.to_conn ≡ to_conn) }
        ensures fresh { IsFresh kind facts result.state }
    {
        RingApp {
            from_conn,
            to_conn,
            state: AppState::new(kind, facts),
        }
    }
}

impl AppEnd for RingApp {
    ghost use Rattle.std.specs.Prelude.{◌-◌};
    ghost use Rattle.rtrb.specs.Ring.{known_free, known_items, producer_capacity, consumer_capacity};
    ghost use Rattle.rtrb.specs.Ends.{capacity_of};
    ghost use Rattle.asgi_pipes.specs.RingPairs.{Names, names_of};

    ghost Tag = { Names };

    ghost tag = { λ s. names_of s.from_conn.end s.to_conn.end };

    ghost ring = { λ s. capacity_of s.to_conn.end - 1 };

    ghost capacity = { λ s. (producer_capacity s.to_conn, consumer_capacity s.from_conn) };

    ghost kind = { λ s. s.state.kind };

    ghost facts = { λ s. s.state.facts };

    ghost heard = { λ s. s.state.heard.items };

    ghost pulled = { λ s. s.state.pulled.items };

    ghost seen = { λ s. known_items s.from_conn };

    ghost said = { λ s. s.state.said.items };

    ghost ended = { λ s. s.state.ended };

    ghost room = { λ s. known_free s.to_conn - 1 };

    ghost has_moved = { λ s. s.state.has_moved };

    // This end has no sources: when it must wait, it asks for another poll.
    ghost arrivals = { λ _. 0 };

    ghost vacancies = { λ _. 0 };

    fn poll_receive(&mut self, cx: &mut Context<'_>) -> Poll<Incoming> {
        if let Some(event) = self.state.hear_at_once() {
            return Poll::Ready(event);
        }
        let Ok(event) = self.from_conn.pop() else {
            return cx.yield_now();
        };
        self.state.hear(&event);
        Poll::Ready(event)
    }

    fn poll_send(&mut self, cx: &mut Context<'_>, event: Outgoing) -> Sent {
        let (verdict, judge) = self.state.look(&event);
        if let Verdict::Ignored = verdict {
            return Sent::Ignored;
        }
        if let Verdict::Refused(number) = verdict {
            return Sent::Refused(number, event);
        }
        if 2 <= self.to_conn.slots() {
            self.state.say(judge, &event);
            self.to_conn.push_reserved(OutItem::Event(event));
            return Sent::Done;
        }
        let _: Poll<()> = cx.yield_now();
        Sent::Full(event)
    }

    fn finish(&mut self, end: EndKind) -> bool {
        if !self.state.finish(end) {
            return false;
        }
        self.to_conn.push_reserved(OutItem::Ended(end));
        true
    }

    fn moved(&mut self) -> bool {
        self.state.moved()
    }

    ghost lawful = { λ s. ∥∥₁_map s.state.judged (λ stands. stands.lawful) };

    ghost hears = { λ s. s.state.hears_is };
}
