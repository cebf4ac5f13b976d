//! Driving a task to its end, within two limits.
ghost use Rattle.std.specs.Prelude.{◌≡◌, ◌≤◌, ◌⊎◌, IsSomeAnd};
ghost use Rattle.futures.specs.Task.{Keeps};
ghost use Rattle.asgi_io.specs.Counting.{RoseBy};
ghost use Rattle.asgi_io.specs.Turns.{CountsTurns, idle_in_a_row};
ghost use Rattle.asgi_types.specs.declared.end_kind.EndKind.{EndKind};
ghost use Rattle.asgi_apps.specs.Driving.{IsDriven};
ghost use Rattle.asgi_apps.specs.Ends.{GoesOn, IsStill, MayGoOn, TakeTurns, own_end};

use crate::running::{Driven, Ended, Running, Took};
use crate::task::AppTask;
use asgi_io::{Pause, Turn, Turns};
use asgi_pipes::AppEnd;
use futures::task::Context;

/// Polls the task until it ends. Once `turns` polls were made, or `idle_turns` polls in a row moved
/// nothing, the task is ended as `Idle`. Pauses after each poll that moved nothing. `turns` of the
/// result counts the polls of this call.
pub fn drive<T: AppTask, E: AppEnd, P: Pause>(
    cx: &mut Context<'_>,
    running: Running<T, E>,
    pause: &mut P,
    idle_turns: u32,
    turns: u64,
) -> Ended<T, E>
    requires { IsSomeAnd running.lent (λ was. MayGoOn T.stands E.AppEnd was.task was.app_end) }
    ensures end { IsSomeAnd running.lent (λ was. GoesOn E.AppEnd (Some result.kind) was.app_end result.app_end) }
    ensures answers { IsSomeAnd running.lent (λ was. T.answers was.task (E.heard result.app_end) (E.said result.app_end) (own_end result.kind)) }
    ensures turns { IsDriven turns idle_turns (P.count pause.old) (P.count pause.new) result.turns result.kind }
    ensures at_most { result.turns ≤ turns }
    ensures idle { result.kind ≡ EndKind.Idle → RoseBy idle_turns (P.count pause.old) (P.count pause.new) ⊎ (result.turns ≡ turns) }
    ensures did { CountsTurns turns idle_turns result.did.items (P.count pause.old) (P.count pause.new) result.turns (idle_in_a_row result.did.items) }
    ensures took { IsSomeAnd running.lent (λ was. (last : E) × TakeTurns E.AppEnd result.did.items result.left.items was.app_end last × IsStill E.AppEnd last result.app_end) }
    ensures kept { Keeps cx.old cx.new }
{
    let mut driven = Driven::new(running);
    let mut taken = Turns::new(turns, idle_turns);
    while !taken.is_over() {
        match driven.turn(cx) {
            Took::Runs(turn) => taken.take(turn, pause),
            Took::Ends(kind) => {
                taken.take(Turn::Last, pause);
                return driven.give_back(kind, taken.turns);
            }
        }
    }
    driven.stop(taken.turns)
}
