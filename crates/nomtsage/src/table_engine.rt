//! What serves the connections of a table, in the table's own thread.
ghost use Rattle.std.specs.Prelude.{◌≡◌, IfOk, IsErr};
ghost use Rattle.asgi_apps.specs.Promises.{Promise};
ghost use Rattle.asgi_many.specs.Moves.{KeepsSeats};
ghost use Rattle.asgi_many.specs.Serving.{ServesMany};
ghost use Rattle.nomtsage.specs.Promises.{PromisesWithin};

use asgi_apps::Application;
use asgi_reactor::{Departure, Reactor, Served, serve_in_thread};
use asgi_server::Teller;
use asgi_types::{Limits, State};
use std::alloc::AllocGlobal;
use std::io;
use std::random::RandomSource;

/// What serves the connections of a table by an application of this type, in whatever thread.
///
/// Of the application nothing is asked here, not even that it is one, as in `Engine` of asgi_server: what is known of an engine in
/// each thread then rests on the engine alone, and its tasks may be of a type that stays in one thread.
pub trait TableEngine<A> {
    // What is promised of each exchange that the application has part in.
    ghost answers: { A → Promise };

    /// Serves each connection that the reactor gives, as `serve_in_thread` of asgi_reactor does.
    fn serve<H: AllocGlobal + RandomSource, N: Reactor, K: Teller<Departure>>(
        &self,
        rt: &H,
        limits: &Limits,
        seats: usize,
        state: &State,
        app: &A,
        reactor: &mut N,
        teller: &mut K,
    ) -> io::Result<Served>
        ensures serves { IfOk result (λ how. ServesMany K.tells (answers app.now) N.L.state limits.now state.now (N.answers reactor.old) (N.answers reactor.new)
            teller.old teller.new how) }
        ensures seats { IfOk result (λ how. KeepsSeats seats (N.moves reactor.old) (N.moves reactor.new) how) }
        ensures no_memory { IsErr result → (N.answers reactor.new ≡ N.answers reactor.old) × (N.moves reactor.new ≡ N.moves reactor.old) × (teller.new ≡ teller.old) }
        ensures kept { N.kept reactor.new ≡ N.kept reactor.old };
}

/// An engine whose promise is the application's.
pub trait TableEngineOf<A: Application>: TableEngine<A> {
    // What is so by its promise is so by the application's.
    ghost keeps: { (app : A) → PromisesWithin (Self.TableEngine.answers app) (A.answers app) };
}

/// Runs each task in the thread of its table.
#[derive(Clone, Copy, Debug)]
pub struct OwnThread;

impl<A: Application> TableEngine<A> for OwnThread {
    ghost answers = { A.answers };

    fn serve<H: AllocGlobal + RandomSource, N: Reactor, K: Teller<Departure>>(
        &self,
        rt: &H,
        limits: &Limits,
        seats: usize,
        state: &State,
        app: &A,
        reactor: &mut N,
        teller: &mut K,
    ) -> io::Result<Served> {
        serve_in_thread(rt, limits, seats, state, app, reactor, teller)
    }
}

impl<A: Application> TableEngineOf<A> for OwnThread {
    ghost keeps = { λ app. record { within = λ scope heard said ended so. so } };
}
