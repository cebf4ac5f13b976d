//! Makes the thread.
ghost use Rattle.std.specs.Prelude.{◌≡◌, ◌<◌, [], Some};
ghost use Rattle.rtrb.specs.Ring.{known_free, sent, received, producer_capacity, IsPair};
ghost use Rattle.asgi_pipes.specs.RingPairs.{Ring, ring_of};
ghost use Rattle.asgi_kept.specs.Answers.{home_of};

use crate::caller::{Kept, Working};
use crate::host::Host;
use crate::job::Job;
use crate::resting::Resting;
use crate::tokens::{HasOneJob, KeptItsPromise, MayBeDriven, Token};
use crate::worker::keep;
use asgi_apps::AppTask;
use asgi_io::Pause;
use asgi_pipes::AppEnd;
use futures::task::{Doorbell, Solo};
use rtrb::{Consumer, Producer, Protocol, RingBuffer};
use std::alloc::Global;
use std::thread;

/// There is no thread: it was refused, or memory for it was. No job was given.
#[derive(Clone, Copy, Debug, PartialEq, Eq)]
pub struct NoThread;

/// Sends the first token through the ring, which then names the ring of the jobs.
fn name<T: AppTask, E: AppEnd, P: Pause, Q: Protocol<Token<T, E, P>>>(
    sender: &mut Producer<Token<T, E, P>, Global, Q>,
    taker: &mut Consumer<Token<T, E, P>, Global, Q>,
    token: Token<T, E, P>,
) -> Token<T, E, P>
    requires pair { IsPair sender.old taker.old }
    requires fresh { (sent sender.old ≡ []) × (received taker.old ≡ []) × (0 < known_free sender.old) }
    requires allowed { Q.allows [] token }
    ensures same { result ≡ token }
    ensures sender { home_of (λ t. ring_of t.jobs.end) (sent sender.new) ≡ Some (ring_of token.jobs.end) }
    ensures taker { home_of (λ t. ring_of t.jobs.end) (received taker.new) ≡ Some (ring_of token.jobs.end) }
{
    sender.push_reserved(token);
    taker.slots_beside(sender);
    taker.pop_known()
}

/// Makes the thread, which is at rest, and waits as `there` does when it has nothing to do. If there is none, no
/// task was begun.
pub fn start<
    T: AppTask + Send + 'static,
    E: AppEnd + Send + 'static,
    P: Pause + Drop + Send + 'static,
    R: Host,
>(rt: R, here: Resting, there: Resting) -> Result<Kept<T, E, P>, NoThread> {
    let alloc: Global = rt.alloc();
    let Ok((giver, jobs)) = RingBuffer::<Job<T, E, P>>::with_protocol::<Global, MayBeDriven>(
        alloc, 1,
    ) else {
        return Err(NoThread);
    };
    let Ok((mut going, mut goes)) = RingBuffer::<Token<T, E, P>>::with_protocol::<
        Global,
        HasOneJob,
    >(alloc, 1) else {
        return Err(NoThread);
    };
    let Ok((mut gives, mut backs)) = RingBuffer::<Token<T, E, P>>::with_protocol::<
        Global,
        KeptItsPromise,
    >(alloc, 1) else {
        return Err(NoThread);
    };
    let Ok(solo) = Solo::new(&rt, Doorbell::spinning()) else {
        return Err(NoThread);
    };
    let token = name(&mut going, &mut goes, Token { jobs, back: None });
    let Token { jobs, back: _ } = name(&mut gives, &mut backs, token);
    let child = thread::spawn(
        &rt,
        move || -> ()
            requires { (ring : Ring) × (home_of (λ t. ring_of t.jobs.end) (received goes) ≡ Some ring) × (home_of (λ t. ring_of t.jobs.end) (sent gives) ≡ Some ring) }
        {
            let mut theirs = there;
            let mut cx = solo.begin();
            keep(&rt, &mut cx, &mut theirs, &mut goes, &mut gives);
            cx.cancel();
        },
    );
    // No thread keeps the handle of this one, so that the caller's side may go to any.
    if child.is_err() {
        return Err(NoThread);
    }
    let thread = Working {
        giver,
        going,
        backs,
        resting: here,
    };
    Ok(Kept { thread, jobs })
}
