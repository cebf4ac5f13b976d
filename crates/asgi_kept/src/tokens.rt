//! What goes between the two threads, and what is known of it there.
use crate::job::{Job, Returned};
use asgi_apps::AppTask;
use asgi_io::Pause;
use asgi_pipes::AppEnd;
use rtrb::{Consumer, Protocol};
use std::alloc::Global;

/// The rule of the ring of jobs: each task may be polled.
#[derive(Clone, Copy)]
pub struct MayBeDriven;

impl<T: AppTask, E: AppEnd, P> Protocol<Job<T, E, P>> for MayBeDriven {
    ghost use Rattle.asgi_kept.specs.Answers.{MayDrive};

    ghost allows = { λ _ job. MayDrive T.stands E.AppEnd job };
}

/// The right to take the next job, and what became of the one before. One goes from thread to thread.
#[derive(Drop)]
pub struct Token<T: AppTask, E: AppEnd, P> {
    pub(crate) jobs: Consumer<Job<T, E, P>, Global, MayBeDriven>,
    pub(crate) back: Option<Returned<T, E, P>>,
}

/// The rule of the tokens that go to the kept thread: after the first, each has the same ring, in which one job is.
#[derive(Clone, Copy)]
pub struct HasOneJob;

impl<T: AppTask, E: AppEnd, P> Protocol<Token<T, E, P>> for HasOneJob {
    ghost use Rattle.std.specs.Prelude.{◌≡◌, Some, length};
    ghost use Rattle.rtrb.specs.Ring.{known_items};
    ghost use Rattle.asgi_pipes.specs.RingPairs.{Ring, ring_of};
    ghost use Rattle.asgi_kept.specs.Answers.{home_of};

    ghost allows = { λ before token. (ring : Ring) → home_of (λ t. ring_of t.jobs.end) before ≡ Some ring → (ring_of token.jobs.end ≡ ring) × (length (known_items token.jobs) ≡ 1) };
}

/// The rule of those that come back: after the first, each has the same ring, and the promise of the job that was taken last was kept.
#[derive(Clone, Copy)]
pub struct KeptItsPromise;

impl<T: AppTask, E: AppEnd, P: Pause> Protocol<Token<T, E, P>> for KeptItsPromise {
    ghost use Rattle.std.specs.Prelude.{◌≡◌, Some, IfSome};
    ghost use Rattle.rtrb.specs.Ring.{received};
    ghost use Rattle.asgi_pipes.specs.RingPairs.{Ring, ring_of};
    ghost use Rattle.asgi_kept.specs.Answers.{HasAnswered, home_of};

    ghost allows = { λ before token. (ring : Ring) → home_of (λ t. ring_of t.jobs.end) before ≡ Some ring
        → (ring_of token.jobs.end ≡ ring) × IfSome token.back (λ back. HasAnswered T.answers E.AppEnd P.count (received token.jobs) back.ended back.pause) };
}
