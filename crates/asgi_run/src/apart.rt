//! The task of an exchange with a thread that is kept, and how it is taken back from there.
ghost use Rattle.std.specs.Prelude.{◌≡◌, ℕ, List, Some, IsSome};
ghost use Rattle.asgi_exchange.specs.Calls.{IsViewOf, IsExchangeOf};
ghost use Rattle.asgi_exchange.specs.Views.{ConnView};
ghost use Rattle.asgi_conversation.specs.declared.following.NextStep.TheVariants.{NextRequest};
ghost use Rattle.asgi_ws.specs.Lines.{LineState};
ghost use Rattle.asgi_run.specs.Jobs.{HasJob, HasLimits, IsApart};
ghost use Rattle.asgi_run.specs.Running.{OfEnd, MayRun, HasRun, Drives, DrivesRunning, EndsSo};
ghost use Rattle.asgi_run.specs.declared.runner.AppSide.{AppSide};

use crate::exchange_half::Half;
use crate::runner::AppSide;
use asgi_apps::{AppTask, Ended};
use asgi_exchange::join;
use asgi_io::{Pause, Turns};
use asgi_kept::{Job, Kept, Returned, Waking, Working};
use asgi_pipes::{AppEnd, ConnEnd, EndKind, Pipes};
use std::sync::Wait;

/// The task of an exchange.
#[derive(Drop)]
pub enum JobState<T: AppTask, E: AppEnd, Q: Pause> {
    /// The thread works on it.
    Works(Working<T, E, Q>),
    /// It has ended, and the thread is at rest.
    Done(Ran<T, E, Q>),
}

/// How a task ended, with its end, and the thread at rest with its pause.
#[derive(Drop)]
pub struct Ran<T: AppTask, E: AppEnd, Q: Pause> {
    pub kept: Kept<T, E, Q>,
    pub pause: Q,
    pub app_end: E,
    pub kind: EndKind,
    /// The turns of the last task that the thread worked on.
    pub turns: u64,
}

impl<T: AppTask, E: AppEnd, Q: Pause + Drop> JobState<T, E, Q> {
    /// Gives a task that runs to the thread. Its limits are those of `turns`. The task before it took
    /// `driven` turns.
    pub fn begin<R: Wait>(
        rt: &R,
        kept: Kept<T, E, Q>,
        pause: Q,
        side: AppSide<T, E>,
        turns: &Turns,
        driven: u64,
    ) -> Self
        requires { MayRun T.stands E.AppEnd side }
        ensures job { HasJob result side }
        ensures limits { HasLimits Q.count result turns.now.turn_limit turns.now.idle_limit (Q.count pause) driven }
    {
        match side {
            AppSide::HasEnded { app_end, kind } => JobState::Done(Ran {
                kept,
                pause,
                app_end,
                kind,
                turns: driven,
            }),
            AppSide::Runs(running) => {
                let job = Job {
                    running,
                    pause,
                    idle_turns: turns.idle_limit,
                    turns: turns.turn_limit,
                };
                JobState::Works(kept.give(rt, job))
            }
        }
    }

    /// Takes the task back, once it has ended.
    fn end<R: Wait>(self, rt: &R) -> Ran<T, E, Q>
        ensures side { (side : AppSide T E) → HasJob self side → MayRun T.stands E.AppEnd side → EndsSo T.stands T.answers E.AppEnd side result.app_end result.kind }
        ensures drives { (turn_limit idle_limit paused turned : ℕ) → HasLimits Q.count self turn_limit idle_limit paused turned
            → Drives turn_limit idle_limit paused (Q.count result.pause) turned result.turns result.kind }
        ensures drove { (side : AppSide T E) (turn_limit idle_limit paused turned : ℕ) → HasJob self side → HasLimits Q.count self turn_limit idle_limit paused turned
            → DrivesRunning side turn_limit idle_limit paused (Q.count result.pause) turned result.turns result.kind }
    {
        match self {
            JobState::Done(ran) => ran,
            JobState::Works(working) => {
                let (kept, returned) = working.take_back(rt);
                let Returned { ended, pause } = returned;
                let Ended {
                    app_end,
                    kind,
                    turns,
                    ..
                } = ended;
                Ran {
                    kept,
                    pause,
                    app_end,
                    kind,
                    turns,
                }
            }
        }
    }
}

/// Gives an exchange up if it is not over, waits for the end of its task, and brings the ends together.
pub fn finish_apart<
    H: Half,
    Q: Pause + Drop,
    T: AppTask,
    E: AppEnd,
    C: ConnEnd,
    N: Pipes<Conn = C, App = E>,
    R: Wait,
>(rt: &R, half: &mut H, conn: &mut Waking<C>, job: JobState<T, E, Q>) -> Ran<T, E, Q>
    requires { (side : AppSide T E) × IsApart N.is_pair T.stands E.AppEnd conn.old.end job side }
    ensures runs { (side : AppSide T E) (scene : H.Scene) (now : LineState) (read : List ℕ) (view : ConnView H.In H.Out)
        → IsApart N.is_pair T.stands E.AppEnd conn.old.end job side → H.stands scene now half.old read view
        → IsViewOf C.ConnEnd conn.old.end view → OfEnd side (λ app. IsExchangeOf E.AppEnd app (H.exchange scene))
        → HasRun H.Half T.answers E.AppEnd scene now half.new read side result.kind }
    ensures over { IsSome (H.following half.new) }
    ensures stays { IsSome (H.following half.old) → half.new ≡ half.old }
    ensures follows { H.following half.new ≡ Some NextRequest → H.following half.old ≡ Some NextRequest }
    ensures drives { (turn_limit idle_limit paused turned : ℕ) → HasLimits Q.count job turn_limit idle_limit paused turned
        → Drives turn_limit idle_limit paused (Q.count result.pause) turned result.turns result.kind }
    ensures drove { (side : AppSide T E) (turn_limit idle_limit paused turned : ℕ) → HasJob job side → HasLimits Q.count job turn_limit idle_limit paused turned
        → DrivesRunning side turn_limit idle_limit paused (Q.count result.pause) turned result.turns result.kind }
{
    half.abandon(conn);
    let mut ran = job.end(rt);
    let _met = join::<N>(&mut conn.end, &mut ran.app_end);
    ran
}
