//! What takes up the two halves of an exchange, turn by turn.
ghost use Rattle.std.specs.Prelude.{◌≡◌, ◌+◌, Bool, false, [], ℕ, List, Some, None, IfErr, IfOk, IsOk, IsSome};
ghost use Rattle.asgi_io.specs.declared.turns.Turn.{Turn};
ghost use Rattle.asgi_exchange.specs.Calls.{IsViewOf, IsExchangeOf};
ghost use Rattle.asgi_exchange.specs.Views.{ConnView};
ghost use Rattle.asgi_conversation.specs.declared.following.NextStep.TheVariants.{NextRequest};
ghost use Rattle.asgi_ws.specs.Lines.{LineState};
ghost use Rattle.asgi_run.specs.AnyHalf.{PreservesOn};
ghost use Rattle.asgi_run.specs.declared.runner.AppSide.{AppSide};
ghost use Rattle.asgi_run.specs.declared.runner.NoEnds.{NoEnds};
ghost use Rattle.asgi_run.specs.declared.runner.NoEnds.TheVariants.{NoMemory};
ghost use Rattle.asgi_run.specs.Running.{OfEnd, MayRun, HasRun, Drives, IsTurnWith};

use crate::exchange_half::Half;
use asgi_apps::{AppTask, Running};
use asgi_io::{Turn, Turns};
use asgi_pipes::{EndKind, Pipes};
use asgi_types::{Facts, Kind};
use asgi_ws::Line;
use std::alloc::{AllocError, Global};

/// The application's side of an exchange.
#[derive(Drop)]
pub enum AppSide<T, E> {
    /// The task runs, with the end that it has borrowed.
    Runs(Running<T, E>),
    /// The task has ended like this, or its call faulted, and `finish` was called on its end.
    HasEnded { app_end: E, kind: EndKind },
}

/// Why an exchange got no ends. No task was begun.
#[derive(Clone, Copy, Debug, PartialEq, Eq)]
pub enum NoEnds {
    /// Memory was refused.
    NoMemory,
    /// A thread, or memory for it, was refused.
    NoThread,
}

impl From<AllocError> for NoEnds {
    ghost from_gives = { λ _ why. why ≡ NoMemory };

    fn from(_: AllocError) -> NoEnds {
        NoEnds::NoMemory
    }
}

/// Takes up exchanges whose task is of this type, turn by turn.
pub trait Runner<T: AppTask> {
    /// The pairs of ends between the halves.
    type Pipes: Pipes + Drop;

    /// What runs of one exchange.
    type Exchange;

    // The number of exchanges whose ends did not meet.
    ghost not_met: { Self → ℕ };

    // How often the runner itself paused.
    ghost pauses: { Self → ℕ };

    // The turns of the last task that the runner itself drove.
    ghost driven: { Self → ℕ };

    // The runner has what the exchange needs whose ends it made last.
    ghost is_ready: { Self → Type 0 };

    // The runner as it is may refuse the ends of an exchange for this reason.
    ghost refuses: { Self → NoEnds → Type 0 };

    // One turn of an exchange, with what it was said to be. Of a runner of which nothing else is known, only `turn`
    // shows that one was taken.
    ghost takes: { Self.Exchange → Turn → Self.Exchange → Type 0 };

    // The connection's end of an exchange.
    ghost conn: { Self.Exchange → Self.Pipes.Conn };

    // The exchange began with this side of the application.
    ghost began: { Self.Exchange → AppSide T Self.Pipes.App → Type 0 };

    // It began within these limits on turns and on idle ones in a row, when the runner had counted these pauses and turns.
    ghost limited: { Self.Exchange → (turn_limit idle_limit paused turned : ℕ) → Type 0 };

    /// The ends of an exchange, as `make` of those pairs gives them, with `ring` places for events each
    /// way. Memory of the exchange before may be reused. Refused if memory is, or a thread that the
    /// exchange would need.
    fn make(
        &mut self,
        alloc: Global,
        kind: Kind,
        facts: Facts,
        ring: usize,
    ) -> Result<(<Self::Pipes as Pipes>::Conn, <Self::Pipes as Pipes>::App), NoEnds>
        ensures inward { IfOk result (λ ends. (Self.Pipes.Conn.offered ends.0 ≡ []) × (Self.Pipes.Conn.is_broken ends.0 ≡ false)
            × (Self.Pipes.App.heard ends.1 ≡ []) × (Self.Pipes.App.pulled ends.1 ≡ []) × (Self.Pipes.App.seen ends.1 ≡ [])) }
        ensures outward { IfOk result (λ ends. (Self.Pipes.App.said ends.1 ≡ []) × (Self.Pipes.App.ended ends.1 ≡ None)
            × (Self.Pipes.Conn.got ends.0 ≡ []) × (Self.Pipes.Conn.seen ends.0 ≡ [])) }
        ensures places { IfOk result (λ ends. (Self.Pipes.Conn.ring ends.0 ≡ ring) × (Self.Pipes.Conn.room ends.0 ≡ ring)
            × (Self.Pipes.App.ring ends.1 ≡ ring) × (Self.Pipes.App.room ends.1 ≡ ring)) }
        ensures capacity { IfOk result (λ ends. (Self.Pipes.Conn.capacity ends.0 ≡ (ring + 1, ring + 1)) × (Self.Pipes.App.capacity ends.1 ≡ (ring + 1, ring + 1))) }
        ensures scope { IfOk result (λ ends. (Self.Pipes.App.kind ends.1 ≡ kind) × (Self.Pipes.App.facts ends.1 ≡ facts) × (Self.Pipes.App.has_moved ends.1 ≡ false)) }
        ensures pair { IfOk result (λ ends. Self.Pipes.is_pair ends.0 ends.1) }
        ensures ready { IsOk result → is_ready self.new }
        ensures refused { IfErr result (λ why. refuses self.old why) }
        ensures counts { (not_met self.new ≡ not_met self.old) × (pauses self.new ≡ pauses self.old) × (driven self.new ≡ driven self.old) };

    /// Begins an exchange with these ends. If the runner itself drives the task, it does so within the limits
    /// of these turns.
    fn begin(
        &mut self,
        end: <Self::Pipes as Pipes>::Conn,
        side: AppSide<T, <Self::Pipes as Pipes>::App>,
        turns: &Turns,
    ) -> Self::Exchange
        requires ready { is_ready self.old }
        requires pair { OfEnd side (λ app. Self.Pipes.is_pair end app) }
        requires may { MayRun T.stands Self.Pipes.App.AppEnd side }
        ensures conn { conn result ≡ end }
        ensures began { began result side }
        ensures limits { limited result turns.now.turn_limit turns.now.idle_limit (pauses self.old) (driven self.old) }
        ensures met { not_met self.new ≡ not_met self.old };

    /// Takes one turn of the connection's half, and of the application's if that runs in this thread. Returns
    /// whether anything moved.
    fn turn<H: Half, L: Line>(
        &mut self,
        exchange: &mut Self::Exchange,
        half: &mut H,
        line: &mut L,
    ) -> Turn
        requires began { (side : AppSide T Self.Pipes.App) × began exchange.old side }
        ensures leads { PreservesOn H.stands (L.state line.old) half.old (IsViewOf Self.Pipes.Conn.ConnEnd (conn exchange.old))
            (L.state line.new) half.new (IsViewOf Self.Pipes.Conn.ConnEnd (conn exchange.new)) }
        ensures began { (side : AppSide T Self.Pipes.App) → began exchange.old side → began exchange.new side }
        ensures limits { (turn_limit idle_limit paused turned : ℕ) → limited exchange.old turn_limit idle_limit paused turned
            → limited exchange.new turn_limit idle_limit paused turned }
        ensures taken { takes exchange.old result exchange.new }
        // The connection's half took one turn. What it moved has moved, and else only the application's half did.
        ensures half { (goes_on : Bool) × (moved : Turn) × H.takes (L.state line.old) half.old goes_on moved (L.state line.new) half.new × IsTurnWith moved result }
        // What is over stays as it is.
        ensures over { IsSome (H.following half.old) → half.new ≡ half.old }
        ensures met { not_met self.new ≡ not_met self.old };

    /// Gives the exchange up if it is not over, ends a task that still runs here or waits for it, and brings
    /// the ends together. Returns how the task ended.
    fn finish<H: Half>(&mut self, exchange: Self::Exchange, half: &mut H) -> EndKind
        requires began { (side : AppSide T Self.Pipes.App) × began exchange side }
        // If the half's invariant holds with these ends, it holds after it, and both halves ran.
        ensures runs { (side : AppSide T Self.Pipes.App) (scene : H.Scene) (now : LineState) (read : List ℕ) (view : ConnView H.In H.Out)
            → began exchange side → H.stands scene now half.old read view
            → IsViewOf Self.Pipes.Conn.ConnEnd (conn exchange) view → OfEnd side (λ app. IsExchangeOf Self.Pipes.App.AppEnd app (H.exchange scene))
            → HasRun H.Half T.answers Self.Pipes.App.AppEnd scene now half.new read side result }
        ensures over { IsSome (H.following half.new) }
        ensures stays { IsSome (H.following half.old) → half.new ≡ half.old }
        ensures follows { H.following half.new ≡ Some NextRequest → H.following half.old ≡ Some NextRequest }
        // If the runner itself drove the task, its turns and pauses are those of this task.
        ensures drives { (turn_limit idle_limit paused turned : ℕ) → limited exchange turn_limit idle_limit paused turned
            → Drives turn_limit idle_limit paused (pauses self.new) turned (driven self.new) result }
        // The runner may begin the next exchange.
        ensures ready { is_ready self.new }
        // The ends of a pair always meet.
        ensures met { not_met self.new ≡ not_met self.old };

    /// How many exchanges had ends that did not meet.
    fn unmet(&self) -> u64
        ensures { result ≡ not_met self.now };

    /// How often the runner itself paused.
    fn paused(&self) -> u64
        ensures { result ≡ pauses self.now };

    /// How many turns the last task took that the runner itself drove.
    fn turned(&self) -> u64
        ensures { result ≡ driven self.now };
}
