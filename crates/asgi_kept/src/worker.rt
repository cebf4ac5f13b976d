//! The side of the kept thread.
ghost use Rattle.std.specs.Prelude.{◌≡◌, ◌∷◌, ◌++◌, [], Some, IfSome, IfNone, length};
ghost use Rattle.rtrb.specs.Ring.{known_items, received, sent};
ghost use Rattle.asgi_pipes.specs.RingPairs.{Ring, ring_of};
ghost use Rattle.asgi_kept.specs.Answers.{Answered, HasAnswered, MayDrive, home_of};

use crate::job::{Job, Returned};
use crate::resting::Resting;
use crate::tokens::{HasOneJob, KeptItsPromise, Token};
use asgi_apps::{AppTask, drive};
use asgi_io::Pause;
use asgi_pipes::AppEnd;
use futures::task::Context;
use rtrb::{Consumer, Producer, Protocol, PushError};
use std::alloc::Global;
use std::sync::Wait;
use std::thread;

/// Drives the job's task to its end.
fn drive_job<T: AppTask, E: AppEnd, P: Pause + Drop>(
    cx: &mut Context<'_>,
    job: Job<T, E, P>,
) -> Returned<T, E, P>
    requires { MayDrive T.stands E.AppEnd job }
    ensures { Answered T.answers E.AppEnd P.count job result.ended result.pause }
{
    let Job {
        running,
        mut pause,
        idle_turns,
        turns,
    } = job;
    let ended = drive(cx, running, &mut pause, idle_turns, turns);
    Returned { ended, pause }
}

/// Takes the job that is there, and drives its task.
fn answer_one<T: AppTask, E: AppEnd, P: Pause + Drop>(
    cx: &mut Context<'_>,
    go: Token<T, E, P>,
) -> Token<T, E, P>
    requires { length (known_items go.jobs) ≡ 1 }
    ensures ring { ring_of result.jobs.end ≡ ring_of go.jobs.end }
    ensures answered { IfSome result.back (λ back. HasAnswered T.answers E.AppEnd P.count (received result.jobs) back.ended back.pause) }
{
    let Token { mut jobs, back: _ } = go;
    let job = jobs.pop_known();
    let back = drive_job(cx, job);
    Token {
        jobs,
        back: Some(back),
    }
}

/// Pushes the item if there is room.
fn try_push<A, Q: Protocol<A>>(producer: &mut Producer<A, Global, Q>, item: A) -> Option<A>
    requires { Q.allows (sent producer.old) item }
    ensures full { IfSome result (λ same. (same ≡ item) × (sent producer.new ≡ sent producer.old)) }
    ensures pushed { IfNone result (sent producer.new ≡ sent producer.old ++ item ∷ []) }
{
    match producer.push(item) {
        Ok(()) => None,
        Err(PushError::Full(same)) => Some(same),
    }
}

/// Pushes the item, as soon as there is room.
pub fn push_waiting<A, Q: Protocol<A>, R: Wait>(
    rt: &R,
    producer: &mut Producer<A, Global, Q>,
    item: A,
)
    requires { Q.allows (sent producer.old) item }
    ensures { sent producer.new ≡ sent producer.old ++ item ∷ [] }
{
    let mut item = item;
    for _ in rt.forever() {
        let Some(same) = try_push(producer, item) else {
            return;
        };
        item = same;
        thread::yield_now();
    }
    unreachable!()
}

/// What a look at the jobs found.
enum Look {
    Drove,
    Nothing,
    Over,
}

/// Drives the task of the next job, if one has come.
fn turn<T: AppTask, E: AppEnd, P: Pause + Drop, R: Wait>(
    rt: &R,
    cx: &mut Context<'_>,
    going: &mut Consumer<Token<T, E, P>, Global, HasOneJob>,
    backs: &mut Producer<Token<T, E, P>, Global, KeptItsPromise>,
) -> Look
    requires tied { (ring : Ring) × (home_of (λ t. ring_of t.jobs.end) (received going.old) ≡ Some ring) × (home_of (λ t. ring_of t.jobs.end) (sent backs.old) ≡ Some ring) }
    ensures tied { (ring : Ring) × (home_of (λ t. ring_of t.jobs.end) (received going.new) ≡ Some ring) × (home_of (λ t. ring_of t.jobs.end) (sent backs.new) ≡ Some ring) }
{
    let Ok(go) = going.pop() else {
        if going.is_abandoned() {
            return Look::Over;
        }
        return Look::Nothing;
    };
    let token = answer_one(cx, go);
    push_waiting(rt, backs, token);
    Look::Drove
}

/// Drives the tasks of all jobs that come, until no more can come.
pub fn keep<T: AppTask, E: AppEnd, P: Pause + Drop, R: Wait>(
    rt: &R,
    cx: &mut Context<'_>,
    resting: &mut Resting,
    going: &mut Consumer<Token<T, E, P>, Global, HasOneJob>,
    backs: &mut Producer<Token<T, E, P>, Global, KeptItsPromise>,
)
    requires tied { (ring : Ring) × (home_of (λ t. ring_of t.jobs.end) (received going.old) ≡ Some ring) × (home_of (λ t. ring_of t.jobs.end) (sent backs.old) ≡ Some ring) }
{
    for _ in rt.forever() {
        match turn(rt, cx, going, backs) {
            Look::Drove => resting.wake(),
            Look::Nothing => resting.rest_until_woken(rt),
            Look::Over => return,
        }
    }
    unreachable!()
}
