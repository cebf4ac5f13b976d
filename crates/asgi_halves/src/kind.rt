//! What the connection's half does in an exchange of its kind, over HTTP or in a session.
ghost use Rattle.std.specs.Prelude.{◌≡◌, ◌⊎◌, ◌∷◌, [], ◌++◌, ℕ, Bool, List, IsFalse, IsTrue};
ghost use Rattle.asgi_types.specs.declared.end_kind.EndKind.{EndKind};
ghost use Rattle.asgi_types.specs.declared.incoming.Incoming.{Incoming};
ghost use Rattle.asgi_types.specs.declared.outgoing.Outgoing.{Outgoing};
ghost use Rattle.asgi_exchange.specs.Calls.{IsViewOf};
ghost use Rattle.asgi_exchange.specs.Views.{ConnView};
ghost use Rattle.asgi_conversation.specs.declared.following.NextStep.TheVariants.{ConnectionEnds};
ghost use Rattle.asgi_conversation.specs.declared.report.Outcome.{Outcome};
ghost use Rattle.asgi_run.specs.AnyHalf.{PreservesInLine};
ghost use Rattle.asgi_ws.specs.Lines.{LineState};
ghost use Rattle.asgi_halves.specs.Kinds.{HasEnded, HasGrown, IsCutOff, IsOpen, IsShut, IsTurnOfRead, IsTurnOfRest, OffersAll, OffersMost, PreservesAlone, ReadsNone, TakesNone};
ghost use Rattle.asgi_halves.specs.declared.stage.Stage.{Stage};

use crate::stage::Stage;
use asgi_conversation::Outcome;
use asgi_io::Turn;
use asgi_pipes::{ConnEnd, EndKind, OutItem};
use asgi_types::{Incoming, Outgoing};
use asgi_ws::Line;

/// What the connection's half does in an exchange of its kind. `turn` and `abandon` put these calls
/// together, once for all kinds.
pub trait ExchangeKind {
    // What arrives, and what is written: bytes, or messages.
    ghost In: { Type 0 };

    ghost Out: { Type 0 };

    // The constants of one exchange.
    ghost Scene: { Type 0 };

    // The half's invariant in its exchange, with the bytes read since the connection began.
    ghost stands: { Scene → LineState → Self → List ℕ → ConnView In Out → Type 0 };

    // How far the exchange is.
    ghost reached: { Self → Stage };

    // The half may read: nothing more is due of what it holds.
    ghost may_read: { Self → Type 0 };

    // All that is due of what the half holds was offered.
    ghost none_due: { Self → Type 0 };

    // Nothing more is read: the input has ended, what was read waits, or enough was.
    ghost rests: { Self → Type 0 };

    // What the application receives if the connection is cut short.
    ghost cut_event: { Incoming };

    // How many events each queue of the exchange holds.
    ghost ring: { Self → ℕ };

    /// How far the exchange is.
    fn stage(&self) -> Stage
        ensures { result ≡ reached self.now };

    /// How many events each queue of the exchange holds.
    fn places(&self) -> usize
        ensures { result ≡ ring self.now };

    /// The disconnect of a connection that is cut short. Once it is offered, what the application sends is
    /// dropped.
    fn cut_disconnect(&self) -> Incoming
        ensures event { result ≡ cut_event }
        ensures waits { (outcome : Outcome) → reached self.now ≡ Stage.Cut outcome
            → (scene : Scene) (now : LineState) (read : List ℕ) (view later : ConnView In Out) → stands scene now self.now read view
            → IsCutOff cut_event view later → stands scene now self.now read later }
        ensures drops { (outcome : Outcome) → reached self.now ≡ Stage.Cut outcome
            → (scene : Scene) (now : LineState) (read : List ℕ) (view : ConnView In Out) (event : Outgoing) → stands scene now self.now read view
            → stands scene now self.now read (record view { got = view.got ++ OutItem.Event event ∷ [] }) };

    /// Ends the exchange: the connection ends with this outcome, that of the cut if it is cut short.
    fn end_with(&mut self, outcome: Outcome)
        ensures over { reached self.new ≡ Stage.Over (ConnectionEnds outcome) }
        // the end of the task was taken
        ensures ends { reached self.old ≡ Stage.Cut outcome → (scene : Scene) (now : LineState) (read : List ℕ) (view : ConnView In Out) (kind : EndKind) → stands scene now self.old read view
            → stands scene now self.new read (record view { got = view.got ++ OutItem.Ended kind ∷ [] }) }
        // the exchange is given up, and the disconnect is offered
        ensures cut { reached self.old ≡ Stage.Cut outcome → (scene : Scene) (now : LineState) (read : List ℕ) (view later : ConnView In Out) → stands scene now self.old read view
            → IsCutOff cut_event view later → stands scene now self.new read later }
        ensures stops { IsOpen (reached self.old) → outcome ≡ Outcome.Idle
            → (scene : Scene) (now : LineState) (read : List ℕ) (view later : ConnView In Out) → stands scene now self.old read view
            → IsCutOff cut_event view later → stands scene now self.new read later };

    /// Takes note that the end of the task was taken.
    fn take_end(&mut self, kind: EndKind)
        requires running { reached self.old ≡ Stage.Running }
        ensures ends { (scene : Scene) (now : LineState) (read : List ℕ) (view : ConnView In Out) → stands scene now self.old read view
            → (first : Bool) × stands scene now self.new read (record view { got = view.got ++ OutItem.Ended kind ∷ []; broken_first = first }) };

    /// Writes or hands over what an event adds.
    fn say<L: Line>(&mut self, event: Outgoing, line: &mut L)
        requires running { reached self.old ≡ Stage.Running }
        ensures says { (scene : Scene) (read : List ℕ) (view : ConnView In Out) → stands scene (L.state line.old) self.old read view
            → (written : List Out) × stands scene (L.state line.new) self.new read (record view { got = view.got ++ OutItem.Event event ∷ []; written = written }) }
        ensures unread { ReadsNone (L.state line.old) (L.state line.new) };

    /// Offers what is due, as far as places are free. Returns whether something was offered.
    fn offer_due<C: ConnEnd>(&mut self, end: &mut C) -> bool
        requires running { reached self.old ≡ Stage.Running }
        ensures leads { PreservesInLine stands self.old (IsViewOf C.ConnEnd end.old) self.new (IsViewOf C.ConnEnd end.new) }
        ensures tag { (C.tag end.new ≡ C.tag end.old) × (C.ring end.new ≡ C.ring end.old) }
        ensures asked { IsFalse result → reached self.new ≡ Stage.Running → may_read self.new }
        ensures taken { TakesNone C.ConnEnd end.old end.new }
        ensures grown { HasGrown result (C.offered end.old) (C.offered end.new) }
        ensures all { reached self.new ≡ Stage.Running
            → OffersAll C.ConnEnd (none_due self.new) end.new ⊎ (IsTrue result × OffersMost C.ConnEnd (ring self.new) end.old end.new) };

    /// Reads once, if nothing waits for a place and not too much is held.
    fn read_on<L: Line>(&mut self, line: &mut L) -> Turn
        requires running { reached self.old ≡ Stage.Running }
        requires asked { may_read self.old }
        ensures leads { PreservesAlone stands (L.state line.old) self.old (L.state line.new) self.new }
        ensures turn { reached self.new ≡ Stage.Running → IsTurnOfRead (rests self.new) (L.state line.old) (L.state line.new) result }
        ensures keeps { result ≡ Turn.Idle → none_due self.old → none_due self.new }
        ensures moves { IsShut (reached self.new) → result ≡ Turn.Moved };

    /// Ends the exchange once the task has ended, or reads on before it does.
    fn finish<L: Line>(&mut self, kind: EndKind, line: &mut L) -> Turn
        requires ending { reached self.old ≡ Stage.Ending kind }
        ensures leads { PreservesAlone stands (L.state line.old) self.old (L.state line.new) self.new }
        ensures ended { HasEnded (reached self.new) }
        ensures turn { (other : EndKind) → reached self.new ≡ Stage.Ending other → IsTurnOfRest (L.state line.old) (L.state line.new) result }
        ensures moves { IsShut (reached self.new) → result ≡ Turn.Moved };
}
