//! The two ends of an exchange, by the lists of what went through them. A contract is about the
//! lists of its own end alone, since the other end may be in another thread.
ghost use Rattle.std.specs.Prelude.{◌≡◌, ℕ, ◌+◌, ◌≤◌, ◌⊎◌, Bool, true, false, not, List, [], ◌∷◌, ◌++◌, Option, Some, None, is_none, IsTrue, IsFalse, IfSome, IfNone, IsOk, OnOk, IfErr};
ghost use mathlib.Core.List.{IsPrefix};
ghost use Rattle.futures.specs.Poll.{IfReady, OnPending};
ghost use Rattle.futures.specs.Task as task;
ghost use Rattle.futures.specs.Task.{IsArmed, Keeps};
ghost use Rattle.asgi_types.specs.declared.scope.Kind.{Kind};
ghost use Rattle.asgi_types.specs.declared.facts.Facts.{Facts};
ghost use Rattle.asgi_types.specs.declared.end_kind.EndKind.{EndKind};
ghost use Rattle.asgi_types.specs.declared.incoming.Incoming.{Incoming};
ghost use Rattle.asgi_types.specs.declared.outgoing.Outgoing.{Outgoing};
ghost use Rattle.asgi_protocol.specs.Lawful.{IsLawful};
ghost use Rattle.asgi_protocol.specs.Verdicts.{verdict_on};
ghost use Rattle.asgi_pipes.specs.declared.items.OutItem.{OutItem};
ghost use Rattle.asgi_pipes.specs.Disconnects.{has_disconnect, answer_at_once, Hears};
ghost use Rattle.asgi_pipes.specs.Items.{Answers, IfDone, IfFull, IfTurnedAway};

use crate::items::{OutItem, Sent};
use asgi_types::{EndKind, Incoming, Outgoing};
use futures::task::{Context, Poll};

/// The end of the connection, which offers events and takes what the application sends. No call
/// allocates memory or waits.
pub trait ConnEnd: Drop {
    // What identifies the pair that the end belongs to.
    ghost Tag: { Type 0 };

    ghost tag: { Self → Tag };

    // The places of each direction, without the reserved one.
    ghost ring: { Self → ℕ };

    // The places that memory is reserved for: in the queue of what the end puts, and in that of what it takes.
    ghost capacity: { Self → ℕ × ℕ };

    // What was offered, the disconnect last.
    ghost offered: { Self → List Incoming };

    // The disconnect was offered.
    ghost is_broken: { Self → Bool };

    // The places that the end knows to be free, without the reserved one.
    ghost room: { Self → ℕ };

    // What was taken.
    ghost got: { Self → List OutItem };

    // The items that the end knows to be waiting for a take, oldest first.
    ghost seen: { Self → List OutItem };

    /// Offers an event after those before it, in one place. The event is returned if no place is
    /// free, and after the disconnect was offered; then nothing was offered.
    fn offer(&mut self, event: Incoming) -> Result<(), Incoming>
        ensures ok { OnOk result ((offered self.new ≡ offered self.old ++ event ∷ []) × (is_broken self.old ≡ false) × (room self.old ≤ room self.new + 1)) }
        ensures err { IfErr result (λ back. (back ≡ event) × (offered self.new ≡ offered self.old) × ((is_broken self.old ≡ true) ⊎ ((room self.old ≡ 0) × (room self.new ≡ 0)))) }
        ensures same { (is_broken self.new ≡ is_broken self.old) × (got self.new ≡ got self.old) × (seen self.new ≡ seen self.old) }
        ensures tag { (tag self.new ≡ tag self.old) × (ring self.new ≡ ring self.old) }
        ensures capacity { capacity self.new ≡ capacity self.old };

    /// Offers the one disconnect, after all events, in the reserved place (ASGI HTTP and WebSocket
    /// message format 2.4, "Disconnect"). Returns true the first time; after that nothing changes.
    fn offer_disconnect(&mut self, event: Incoming) -> bool
        ensures first { result ≡ not (is_broken self.old) }
        ensures yes { IsTrue result → offered self.new ≡ offered self.old ++ event ∷ [] }
        ensures no { IsFalse result → self.new ≡ self.old }
        ensures broken { is_broken self.new ≡ true }
        ensures same { (got self.new ≡ got self.old) × (seen self.new ≡ seen self.old) }
        ensures tag { (tag self.new ≡ tag self.old) × (ring self.new ≡ ring self.old) }
        ensures capacity { capacity self.new ≡ capacity self.old };

    /// Takes the oldest item, or `None` if there is none.
    fn take(&mut self) -> Option<OutItem>
        ensures some { IfSome result (λ item. (got self.new ≡ got self.old ++ item ∷ []) × IsPrefix (seen self.old) (item ∷ seen self.new)) }
        ensures none { IfNone result ((got self.new ≡ got self.old) × (seen self.old ≡ []) × (seen self.new ≡ [])) }
        ensures same { (offered self.new ≡ offered self.old) × (is_broken self.new ≡ is_broken self.old) × (room self.new ≡ room self.old) }
        ensures tag { (tag self.new ≡ tag self.old) × (ring self.new ≡ ring self.old) }
        ensures capacity { capacity self.new ≡ capacity self.old };
}

/// The end of the application, which receives events and sends others. The polls allocate no memory
/// of their own, and no call waits.
pub trait AppEnd: Drop {
    // What identifies the pair that the end belongs to.
    ghost Tag: { Type 0 };

    ghost tag: { Self → Tag };

    // The places of each direction, without the reserved one.
    ghost ring: { Self → ℕ };

    // The places that memory is reserved for: in the queue of what the end puts, and in that of what it takes.
    ghost capacity: { Self → ℕ × ℕ };

    // The kind of scope, and what is known of its request.
    ghost kind: { Self → Kind };

    ghost facts: { Self → Facts };

    // What the application received.
    ghost heard: { Self → List Incoming };

    // What came through the queue; `heard` has further disconnects.
    ghost pulled: { Self → List Incoming };

    // The events that the end knows to be waiting for a receive, oldest first.
    ghost seen: { Self → List Incoming };

    // What the application sent, and how it ended.
    ghost said: { Self → List Outgoing };

    ghost ended: { Self → Option EndKind };

    // The places that the end knows to be free, without the reserved one.
    ghost room: { Self → ℕ };

    // A call of this end put an item into a queue or took one out since `moved` was last called.
    ghost has_moved: { Self → Bool };

    // The source that fires when an event came, and the one when a place became free. An end that
    // only asks for another poll may name any.
    ghost arrivals: { Self → ℕ };

    ghost vacancies: { Self → ℕ };

    /// The next event. After the application's own closing event that is its disconnect, and after
    /// a received disconnect an equal one, but not in a lifespan scope (ASGI HTTP and WebSocket
    /// message format 2.4, "Disconnect"); else the front of the queue. If the queue is empty the
    /// poll is pending, and has registered with the source of arrivals or asked for another poll.
    fn poll_receive(&mut self, cx: &mut Context<'_>) -> Poll<Incoming>
        ensures ready { IfReady result (λ event. heard self.new ≡ heard self.old ++ event ∷ []) }
        ensures at_once { (event : Incoming) → answer_at_once (kind self.old) (said self.old) (heard self.old) ≡ Some event
            → (result ≡ Poll.Ready event) × (pulled self.new ≡ pulled self.old) × (seen self.new ≡ seen self.old) × (has_moved self.new ≡ has_moved self.old) }
        ensures front { answer_at_once (kind self.old) (said self.old) (heard self.old) ≡ None
            → IfReady result (λ event. (pulled self.new ≡ pulled self.old ++ event ∷ []) × IsPrefix (seen self.old) (event ∷ seen self.new) × (has_moved self.new ≡ true)) }
        ensures pending { OnPending result ((heard self.new ≡ heard self.old) × (pulled self.new ≡ pulled self.old) × (seen self.old ≡ []) × (seen self.new ≡ []) × (has_moved self.new ≡ has_moved self.old) × IsArmed cx.new × task.Hears cx.new (arrivals self.old)) }
        ensures grows { IsPrefix (heard self.old) (heard self.new) × IsPrefix (pulled self.old) (pulled self.new) }
        ensures same { (said self.new ≡ said self.old) × (ended self.new ≡ ended self.old) × (room self.new ≡ room self.old) }
        ensures scope { (kind self.new ≡ kind self.old) × (facts self.new ≡ facts self.old) }
        ensures tag { (tag self.new ≡ tag self.old) × (ring self.new ≡ ring self.old) }
        ensures capacity { capacity self.new ≡ capacity self.old }
        ensures sources { (arrivals self.new ≡ arrivals self.old) × (vacancies self.new ≡ vacancies self.old) }
        ensures kept { Keeps cx.old cx.new };

    /// Sends an event, before `finish`. The judge first decides whether it may follow what was sent
    /// (ASGI HTTP and WebSocket message format 2.4, lifespan protocol 2.0). `Full` comes only for
    /// an event that would pass, which is then not sent, and has registered with the source of
    /// vacancies or asked for another poll; `Ignored` and `Refused` change nothing.
    fn poll_send(&mut self, cx: &mut Context<'_>, event: Outgoing) -> Sent
        requires { ended self.old ≡ None }
        ensures verdict { Answers (verdict_on (kind self.old) (facts self.old) (said self.old) (has_disconnect (heard self.old)) event) event (said self.old) (said self.new) result }
        ensures done { IfDone result ((has_moved self.new ≡ true) × (room self.old ≤ room self.new + 1)) }
        ensures full { IfFull result ((room self.old ≡ 0) × (room self.new ≡ 0) × (has_moved self.new ≡ has_moved self.old) × IsArmed cx.new × task.Hears cx.new (vacancies self.old)) }
        ensures turned_away { IfTurnedAway result (self.new ≡ self.old) }
        ensures grows { IsPrefix (said self.old) (said self.new) }
        ensures same { (heard self.new ≡ heard self.old) × (pulled self.new ≡ pulled self.old) × (seen self.new ≡ seen self.old) × (ended self.new ≡ ended self.old) }
        ensures scope { (kind self.new ≡ kind self.old) × (facts self.new ≡ facts self.old) }
        ensures tag { (tag self.new ≡ tag self.old) × (ring self.new ≡ ring self.old) }
        ensures capacity { capacity self.new ≡ capacity self.old }
        ensures sources { (arrivals self.new ≡ arrivals self.old) × (vacancies self.new ≡ vacancies self.old) }
        ensures kept { Keeps cx.old cx.new };

    /// Puts the end after everything that was sent, in the reserved place. Returns true the first
    /// time; after that nothing changes.
    fn finish(&mut self, end: EndKind) -> bool
        ensures first { result ≡ is_none (ended self.old) }
        ensures yes { IsTrue result → (ended self.new ≡ Some end) × (has_moved self.new ≡ true) }
        ensures no { IsFalse result → self.new ≡ self.old }
        ensures same { (heard self.new ≡ heard self.old) × (pulled self.new ≡ pulled self.old) × (seen self.new ≡ seen self.old) × (said self.new ≡ said self.old) }
        ensures scope { (kind self.new ≡ kind self.old) × (facts self.new ≡ facts self.old) }
        ensures tag { (tag self.new ≡ tag self.old) × (ring self.new ≡ ring self.old) }
        ensures capacity { capacity self.new ≡ capacity self.old }
        ensures sources { (arrivals self.new ≡ arrivals self.old) × (vacancies self.new ≡ vacancies self.old) };

    /// Whether a call of this end put an item into a queue or took one out since the last call of
    /// `moved`.
    fn moved(&mut self) -> bool
        ensures said { result ≡ has_moved self.old }
        ensures cleared { has_moved self.new ≡ false }
        ensures lists { (heard self.new ≡ heard self.old) × (pulled self.new ≡ pulled self.old) × (seen self.new ≡ seen self.old) }
        ensures same { (said self.new ≡ said self.old) × (ended self.new ≡ ended self.old) × (room self.new ≡ room self.old) }
        ensures scope { (kind self.new ≡ kind self.old) × (facts self.new ≡ facts self.old) }
        ensures tag { (tag self.new ≡ tag self.old) × (ring self.new ≡ ring self.old) }
        ensures capacity { capacity self.new ≡ capacity self.old }
        ensures sources { (arrivals self.new ≡ arrivals self.old) × (vacancies self.new ≡ vacancies self.old) };

    // What was sent is lawful.
    ghost lawful: { (end : Self) → ∥ IsLawful (kind end) (facts end) (said end) ∥₁ };

    // What was received is what came through the queue, and then equal disconnects.
    ghost hears: { (end : Self) → ∥ Hears (kind end) (said end) (pulled end) (heard end) ∥₁ };
}
