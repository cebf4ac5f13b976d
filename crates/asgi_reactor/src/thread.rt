//! A server of many connections in the caller's thread.
ghost use Rattle.std.specs.Prelude.{◌≡◌, IfOk, IsErr};
ghost use Rattle.asgi_many.specs.Moves.{KeepsSeats};
ghost use Rattle.asgi_many.specs.Serving.{ServesMany};

use asgi_apps::Application;
use asgi_many::{Departure, Inline, Reactor, Served, Teller, serve_many};
use asgi_types::{Limits, State};
use futures::task::{Doorbell, Solo};
use std::alloc::AllocGlobal;
use std::io;
use std::random::RandomSource;

/// Serves each connection that the reactor gives, as `serve_many` does, with each task run in the caller's thread: for
/// applications that never block. An error comes before the reactor was asked for anything: memory, or the random number that what
/// runs a task asks the system for, was refused.
pub fn serve_in_thread<
    H: AllocGlobal + RandomSource,
    A: Application,
    N: Reactor,
    K: Teller<Departure>,
>(
    rt: &H,
    limits: &Limits,
    seats: usize,
    state: &State,
    app: &A,
    reactor: &mut N,
    teller: &mut K,
) -> io::Result<Served>
    ensures serves { IfOk result (λ how. ServesMany K.tells (A.answers app.now) N.L.state limits.now state.now (N.answers reactor.old) (N.answers reactor.new)
        teller.old teller.new how) }
    ensures seats { IfOk result (λ how. KeepsSeats seats (N.moves reactor.old) (N.moves reactor.new) how) }
    ensures no_memory { IsErr result → (N.answers reactor.new ≡ N.answers reactor.old) × (N.moves reactor.new ≡ N.moves reactor.old) × (teller.new ≡ teller.old) }
    ensures kept { N.kept reactor.new ≡ N.kept reactor.old }
{
    let solo = Solo::new(rt, Doorbell::spinning())?;
    let mut runner = Inline::new(solo.begin());
    let served = serve_many(
        rt.alloc(),
        limits,
        seats,
        state,
        app,
        reactor,
        &mut runner,
        teller,
    );
    runner.end();
    Ok(served?)
}
