//! The connection's half of one exchange, whether bytes or messages arrive and are written.
ghost use Rattle.std.specs.Prelude.{◌≡◌, ◌↔◌, ℕ, Bool, List, Option, Some, true, IsNone, IsSome, IsTrue};
ghost use Rattle.asgi_io.specs.declared.turns.Turn.{Turn};
ghost use Rattle.asgi_types.specs.declared.limits.Limits.{Limits};
ghost use Rattle.asgi_exchange.specs.Calls.{IsViewOf};
ghost use Rattle.asgi_exchange.specs.Exchange.{Exchange, IsSteady};
ghost use Rattle.asgi_exchange.specs.Halves.{ConnKeeps};
ghost use Rattle.asgi_exchange.specs.Views.{ConnView};
ghost use Rattle.asgi_conversation.specs.declared.following.NextStep.{NextStep};
ghost use Rattle.asgi_conversation.specs.declared.following.NextStep.TheVariants.{NextRequest};
ghost use Rattle.asgi_run.specs.AnyHalf.{PreservesOn, PreservesInLine};
ghost use Rattle.asgi_run.specs.Limits.{IsSettled};
ghost use Rattle.asgi_ws.specs.Lines.{LineState};

use asgi_io::Turn;
use asgi_pipes::ConnEnd;
use asgi_ws::Line;

/// The connection's half of one exchange, as a runner sees it. The half knows only its own end of the pair.
pub trait Half {
    // What arrives, and what is written: bytes, or messages.
    ghost In: { Type 0 };

    ghost Out: { Type 0 };

    // The constants of one exchange, and its protocol (HTTP or WebSocket).
    ghost Scene: { Type 0 };

    ghost exchange: { Scene → Exchange In Out };

    // The half's invariant in its exchange, with the bytes read since the connection began.
    ghost stands: { Scene → LineState → Self → List ℕ → ConnView In Out → Type 0 };

    // What follows the exchange, once it is over.
    ghost following: { Self → Option NextStep };

    // One turn of the half, with whether the application went on, what it was said to be, and the line before and
    // after. Of a half of which nothing else is known, only `turn` shows that one was taken.
    ghost takes: { LineState → Self → (app_goes_on : Bool) → Turn → LineState → Self → Type 0 };

    /// Takes one turn, and returns whether it moved anything. While the application goes on, nothing is read.
    fn turn<L: Line, C: ConnEnd>(&mut self, line: &mut L, end: &mut C, app_goes_on: bool) -> Turn
        ensures leads { PreservesOn stands (L.state line.old) self.old (IsViewOf C.ConnEnd end.old) (L.state line.new) self.new (IsViewOf C.ConnEnd end.new) }
        ensures over { IsSome (following self.old) → self.new ≡ self.old }
        ensures taken { takes (L.state line.old) self.old app_goes_on result (L.state line.new) self.new }
        ensures tag { (C.tag end.new ≡ C.tag end.old) × (C.ring end.new ≡ C.ring end.old) };

    /// True once the exchange has ended for any reason but a limit on turns.
    fn is_settled(&self) -> bool
        ensures { IsTrue result ↔ IsSettled (following self.now) };

    /// Gives the exchange up, if it is not over: a limit on turns was reached. Then it is over.
    fn abandon<C: ConnEnd>(&mut self, end: &mut C)
        ensures leads { PreservesInLine stands self.old (IsViewOf C.ConnEnd end.old) self.new (IsViewOf C.ConnEnd end.new) }
        ensures over { IsSome (following self.new) }
        ensures stays { IsSome (following self.old) → self.new ≡ self.old }
        // the disconnect is offered
        ensures told { IsNone (following self.old) → C.is_broken end.new ≡ true }
        ensures follows { following self.new ≡ Some NextRequest → following self.old ≡ Some NextRequest }
        ensures tag { (C.tag end.new ≡ C.tag end.old) × (C.ring end.new ≡ C.ring end.old) };

    /// How many events each queue of the exchange holds.
    fn ring(&self) -> usize
        ensures { (scene : Scene) (now : LineState) (read : List ℕ) (view : ConnView In Out) → stands scene now self.now read view → result ≡ (exchange scene).ring };

    // A half whose invariant holds keeps what a connection owes, and each exchange is steady.
    ghost keeps: { (scene : Scene) (now : LineState) (half : Self) (read : List ℕ) (view : ConnView In Out) → stands scene now half read view → ConnKeeps (exchange scene) view };

    ghost steady: { (scene : Scene) → IsSteady (exchange scene) };
}
