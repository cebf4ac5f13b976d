//! The side of the caller.
ghost use Rattle.std.specs.Prelude.{◌≡◌, Some, IfSome, length};
ghost use Rattle.rtrb.specs.Ring.{known_items, sent, received, producer_capacity};
ghost use Rattle.asgi_pipes.specs.RingPairs.{ring_of};
ghost use Rattle.asgi_kept.specs.Answers.{Answered, MayDrive, home_of, last_of};
ghost use Rattle.asgi_kept.specs.declared.job.Job.{Job};

use crate::job::{Job, Returned};
use crate::resting::Resting;
use crate::tokens::{HasOneJob, KeptItsPromise, MayBeDriven, Token};
use crate::worker::push_waiting;
use asgi_apps::AppTask;
use asgi_io::Pause;
use asgi_pipes::AppEnd;
use rtrb::{Consumer, Producer};
use std::alloc::Global;
use std::sync::Wait;

/// The kept thread at rest, as its caller sees it.
#[derive(Drop)]
pub struct Kept<T: AppTask, E: AppEnd, P: Pause> {
    pub(crate) thread: Working<T, E, P>,
    /// The other end of the ring of the jobs.
    pub(crate) jobs: Consumer<Job<T, E, P>, Global, MayBeDriven>,
    ghost same: { ring_of jobs.end ≡ ring_of thread.giver.end },
    ghost taken: { length (sent thread.giver) ≡ length (received jobs) },
}

/// The kept thread while it works on a job: the other end of the ring of the jobs is with it.
#[derive(Drop)]
pub struct Working<T: AppTask, E: AppEnd, P: Pause> {
    pub(crate) giver: Producer<Job<T, E, P>, Global, MayBeDriven>,
    pub(crate) going: Producer<Token<T, E, P>, Global, HasOneJob>,
    pub(crate) backs: Consumer<Token<T, E, P>, Global, KeptItsPromise>,
    pub(crate) resting: Resting,
    ghost goes: { home_of (λ t. ring_of t.jobs.end) (sent going) ≡ Some (ring_of giver.end) },
    ghost comes: { home_of (λ t. ring_of t.jobs.end) (received backs) ≡ Some (ring_of giver.end) },
    ghost one: { producer_capacity giver ≡ 1 },
}

impl<T: AppTask, E: AppEnd, P: Pause + Drop> Kept<T, E, P> {
    /// Gives a job to the thread.
    pub fn give<R: Wait>(self, rt: &R, job: Job<T, E, P>) -> Working<T, E, P>
        requires { MayDrive T.stands E.AppEnd job }
        ensures { last_of (sent result.giver) ≡ Some job }
    {
        let Kept { mut thread, jobs } = self;
        thread.begin(rt, jobs, job);
        thread
    }

    /// Ends the thread, and waits until it has dropped its ends of the rings, which it does last. A `Kept` that is
    /// only dropped leaves a thread that sleeps until the program ends.
    pub fn end<R: Wait>(self, rt: &R) {
        let Kept { thread, jobs: _ } = self;
        let Working {
            going,
            mut backs,
            mut resting,
            ..
        } = thread;
        drop(going);
        resting.wake();
        for _ in rt.forever() {
            if backs.is_abandoned() {
                return;
            }
            resting.rest(rt);
        }
        unreachable!()
    }
}

impl<T: AppTask, E: AppEnd, P: Pause + Drop> Working<T, E, P> {
    /// Puts the job into its ring, and gives the thread the right to take it.
    #[tactic(auto, using(crate::proofs::ListLemmas::still_home, crate::proofs::ListLemmas::same_home))]
    fn begin<R: Wait>(
        &mut self,
        rt: &R,
        jobs: Consumer<Job<T, E, P>, Global, MayBeDriven>,
        job: Job<T, E, P>,
    )
        requires same { ring_of jobs.end ≡ ring_of self.old.giver.end }
        requires taken { length (sent self.old.giver) ≡ length (received jobs) }
        requires may { MayDrive T.stands E.AppEnd job }
        ensures { last_of (sent self.new.giver) ≡ Some job }
    {
        let token = load(&mut self.giver, jobs, job);
        push_waiting(rt, &mut self.going, token);
        self.resting.wake();
    }

    /// What became of the last job that was given, and the other end of the ring of the jobs, if the thread has ended
    /// the job: the promise of its task was kept.
    #[tactic(auto, using(crate::proofs::ListLemmas::still_home, crate::proofs::ListLemmas::same_home, crate::proofs::ListLemmas::last_all))]
    fn try_back(&mut self) -> Option<Back<T, E, P>>
        ensures answered { IfSome result (λ back. (job : Job T E P) → last_of (sent self.old.giver) ≡ Some job → Answered T.answers E.AppEnd P.count job back.returned.ended back.returned.pause) }
        ensures rests { IfSome result (λ back. (ring_of back.jobs.end ≡ ring_of self.new.giver.end) × (length (sent self.new.giver) ≡ length (received back.jobs))) }
        ensures same { sent self.new.giver ≡ sent self.old.giver }
    {
        let Ok(token) = self.backs.pop() else {
            return None;
        };
        let Token { mut jobs, back } = token;
        let left = jobs.slots_beside(&mut self.giver);
        if left != 0 {
            return None;
        }
        match back {
            Some(returned) => Some(Back { jobs, returned }),
            None => None,
        }
    }

    /// The same, and waits for it.
    fn wait_back<R: Wait>(&mut self, rt: &R) -> Back<T, E, P>
        ensures answered { (job : Job T E P) → last_of (sent self.old.giver) ≡ Some job → Answered T.answers E.AppEnd P.count job result.returned.ended result.returned.pause }
        ensures rests { (ring_of result.jobs.end ≡ ring_of self.new.giver.end) × (length (sent self.new.giver) ≡ length (received result.jobs)) }
    {
        for _ in rt.forever() {
            if let Some(back) = self.try_back() {
                return back;
            }
            self.resting.rest(rt);
        }
        unreachable!()
    }

    /// Waits until the thread has ended the job that was given last, and returns both.
    pub fn take_back<R: Wait>(self, rt: &R) -> (Kept<T, E, P>, Returned<T, E, P>)
        ensures { (job : Job T E P) → last_of (sent self.giver) ≡ Some job → Answered T.answers E.AppEnd P.count job result.1.ended result.1.pause }
    {
        let mut thread = self;
        let Back { jobs, returned } = thread.wait_back(rt);
        (Kept { thread, jobs }, returned)
    }
}

/// What came back: the other end of the ring of the jobs, and what became of the last one.
#[derive(Drop)]
struct Back<T: AppTask, E: AppEnd, P> {
    jobs: Consumer<Job<T, E, P>, Global, MayBeDriven>,
    returned: Returned<T, E, P>,
}

/// Puts the job into its ring, and gives the right to take it.
#[tactic(auto, using(crate::proofs::ListLemmas::last_snoc))]
fn load<T: AppTask, E: AppEnd, P: Pause + Drop>(
    giver: &mut Producer<Job<T, E, P>, Global, MayBeDriven>,
    jobs: Consumer<Job<T, E, P>, Global, MayBeDriven>,
    job: Job<T, E, P>,
) -> Token<T, E, P>
    requires same { ring_of jobs.end ≡ ring_of giver.old.end }
    requires one { producer_capacity giver.old ≡ 1 }
    requires taken { length (sent giver.old) ≡ length (received jobs) }
    requires may { MayDrive T.stands E.AppEnd job }
    ensures given { last_of (sent giver.new) ≡ Some job }
    ensures home { ring_of giver.new.end ≡ ring_of giver.old.end }
    ensures one { producer_capacity giver.new ≡ 1 }
    ensures go { (ring_of result.jobs.end ≡ ring_of giver.old.end) × (length (known_items result.jobs) ≡ 1) }
{
    let mut jobs = jobs;
    giver.slots_beside(&mut jobs);
    giver.push_reserved(job);
    jobs.slots_beside(giver);
    Token { jobs, back: None }
}
