//! An exchange from its first turn to its last.
ghost use Rattle.std.specs.Prelude.{◌≡◌, ◌<◌, ◌⊎◌, ◌++◌, ℕ, List, Some, IsSome, IsTrue, IsFalse};
ghost use Rattle.asgi_io.specs.declared.turns.Turn.{Turn};
ghost use Rattle.asgi_io.specs.Turns.{CountsTurns};
ghost use Rattle.asgi_exchange.specs.Calls.{IsViewOf, IsExchangeOf};
ghost use Rattle.asgi_exchange.specs.Views.{ConnView};
ghost use Rattle.asgi_conversation.specs.declared.following.NextStep.TheVariants.{NextRequest};
ghost use Rattle.asgi_run.specs.Limits.{IsAtLimit, IsOverIdle, IsSettled};
ghost use Rattle.asgi_run.specs.Running.{OfEnd, MayRun, HasRun, Drives};

use crate::exchange_half::Half;
use crate::runner::{AppSide, Runner};
use asgi_apps::AppTask;
use asgi_io::{Pause, Turns};
use asgi_pipes::{EndKind, Pipes};
use asgi_ws::Line;

/// Runs both halves of an exchange until it is over, or a limit on turns is reached: then it is given
/// up, and a task that still runs is ended as idle. Returns how the task ended.
pub fn run_on<T: AppTask, R: Runner<T>, H: Half, L: Line, P: Pause>(
    runner: &mut R,
    half: &mut H,
    line: &mut L,
    pause: &mut P,
    turns: &mut Turns,
    end: <R::Pipes as Pipes>::Conn,
    side: AppSide<T, <R::Pipes as Pipes>::App>,
) -> EndKind
    requires ready { R.is_ready runner.old }
    requires pair { OfEnd side (λ app. R.Pipes.is_pair end app) }
    requires may { MayRun T.stands R.Pipes.App.AppEnd side }
    // If the half's invariant held in an exchange of these ends, it holds after it.
    ensures runs { (scene : H.Scene) (read : List ℕ) (view : ConnView H.In H.Out) → H.stands scene (L.state line.old) half.old read view
        → IsViewOf R.Pipes.Conn.ConnEnd end view → OfEnd side (λ app. IsExchangeOf R.Pipes.App.AppEnd app (H.exchange scene))
        → (more : List ℕ) × HasRun H.Half T.answers R.Pipes.App.AppEnd scene (L.state line.new) half.new (read ++ more) side result }
    ensures over { IsSome (H.following half.new) }
    ensures counts { (turned : List Turn) (pauses : ℕ) → CountsTurns turns.old.turn_limit turns.old.idle_limit turned pauses (P.count pause.old) turns.old.turns turns.old.idle
        → (more : List Turn) × CountsTurns turns.old.turn_limit turns.old.idle_limit (turned ++ more) pauses (P.count pause.new) turns.new.turns turns.new.idle }
    ensures turn_limits { (turns.new.turn_limit ≡ turns.old.turn_limit) × (turns.new.idle_limit ≡ turns.old.idle_limit) }
    ensures takes_a_turn { H.following half.new ≡ Some NextRequest → (H.following half.old ≡ Some NextRequest) ⊎ (turns.old.turns < turns.new.turns) }
    // Once an exchange is over, and not as idle, no turn is taken, and it is not given up.
    ensures settled { IsSettled (H.following half.old) → (half.new ≡ half.old) × (turns.new.turns ≡ turns.old.turns) }
    // An exchange is over as idle only at a limit.
    ensures idle { IsOverIdle (H.following half.new) → IsAtLimit turns.new }
    // If the runner itself drives the task, its turns and pauses are those of this task.
    ensures drives { Drives turns.old.turn_limit turns.old.idle_limit (R.pauses runner.old) (R.pauses runner.new) (R.driven runner.old) (R.driven runner.new) result }
    // The runner may begin the next exchange.
    ensures ready { R.is_ready runner.new }
    // The ends of a pair always meet.
    ensures met { R.not_met runner.new ≡ R.not_met runner.old }
{
    let mut exchange = runner.begin(end, side, turns);
    while goes_on(half, turns) {
        let moved = runner.turn(&mut exchange, half, line);
        turns.take(moved, pause);
    }
    runner.finish(exchange, half)
}

/// Whether one more turn is taken: until the exchange is over, or a limit is reached. An exchange that is
/// over as idle waits for the limit.
fn goes_on<H: Half>(half: &H, turns: &Turns) -> bool
    ensures yes { IsTrue result → (turns.now.turns < turns.now.turn_limit) × (turns.now.idle < turns.now.idle_limit) }
    ensures open { IsTrue result → ¬ (IsSettled (H.following half.now)) }
    ensures over { IsFalse result → IsAtLimit turns.now ⊎ IsSettled (H.following half.now) }
{
    !turns.is_over() && !half.is_settled()
}
