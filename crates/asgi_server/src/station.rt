//! What each worker serves its connections with, how it is made, and how it ends.
ghost use Rattle.std.specs.Prelude.{◌≡◌, ◌+◌, ◌<◌, [], ◌∷◌, ◌++◌, All, true, is_some, vec_len, vec_capacity, IfOk, IsOk};

use crate::engine::Engine;
use crate::no_station::NoStation;
use crate::serving::serve;
use asgi_apps::{AppTask, Application};
use asgi_conn::{Beside, Host, Napping, Report};
use asgi_crew::Workers;
use asgi_types::{Limits, Peer, State};
use asgi_ws::Line;
use std::alloc::AllocGlobal;

/// What a worker serves connections with: what runs their exchanges, and their pause. Both are the worker's own.
#[derive(Drop)]
pub struct Station<U: Drop, P: Drop> {
    /// What runs the exchanges.
    pub runner: U,
    /// What is called after a turn in which nothing moved.
    pub pause: P,
}

/// A station whose tasks run in a thread of their own.
pub type BesideStation<T, R> = Station<Beside<T, Napping<R>, R>, Napping<R>>;

impl<T: AppTask, A: Application<Task = T>, R: Host> Engine<A> for BesideStation<T, R> {
    ghost answers = { A.answers };

    ghost pauses = { λ s. s.pause.count };

    fn serve<H: AllocGlobal, L: Line + Drop>(
        &mut self,
        rt: &H,
        limits: &Limits,
        state: &State,
        app: &A,
        line: L,
        client: &Option<Peer>,
        server: &Option<Peer>,
    ) -> Report {
        serve(
            rt,
            limits,
            state,
            app,
            line,
            client,
            server,
            &mut self.runner,
            &mut self.pause,
        )
    }

    fn end(self) {
        let Station { runner, pause: _ } = self;
        runner.end();
    }
}

/// A station for each worker, whose tasks run in a thread of their own, which is made here and kept for all
/// connections. `end_stations` ends these threads.
// The thread is made by a function for this one kind of station: the method of a trait can't make one.
pub fn stations<T: AppTask + Send + 'static, A: Application<Task = T>, R: Host>(
    rt: R,
    workers: Workers,
) -> Result<Vec<BesideStation<T, R>>, NoStation>
    ensures many { IfOk result (λ list. vec_len list ≡ workers.count) }
    ensures ready { IfOk result (λ list. All (λ s. is_some s.runner.kept ≡ true) list.items) }
    ensures fresh { IfOk result (λ list. All (λ s. s.pause.count ≡ 0) list.items) }
{
    let mut made = Vec::new(rt.alloc());
    for _worker in 0..workers.count() {
        if let Err(why) = add(rt, &mut made) {
            end_stations::<A, BesideStation<T, R>>(made);
            return Err(why);
        }
    }
    Ok(made)
}

/// Adds one more station.
fn add<T: AppTask + Send + 'static, R: Host>(
    rt: R,
    made: &mut Vec<BesideStation<T, R>>,
) -> Result<(), NoStation>
    requires ready { All (λ s. is_some s.runner.kept ≡ true) made.old.items }
    requires fresh { All (λ s. s.pause.count ≡ 0) made.old.items }
    ensures many { IsOk result → vec_len made.new ≡ vec_len made.old + 1 }
    ensures ready { All (λ s. is_some s.runner.kept ≡ true) made.new.items }
    ensures fresh { All (λ s. s.pause.count ≡ 0) made.new.items }
{
    made.reserve(1)?;
    put(made, make_station(rt)?);
    Ok(())
}

/// A station, whose thread is made.
fn make_station<T: AppTask + Send + 'static, R: Host>(
    rt: R,
) -> Result<BesideStation<T, R>, NoStation>
    ensures ready { IfOk result (λ s. is_some s.runner.kept ≡ true) }
    ensures fresh { IfOk result (λ s. s.pause.count ≡ 0) }
{
    let (mut runner, pause) = Beside::napping(rt)?;
    match runner.ready() {
        Ok(()) => Ok(Station { runner, pause }),
        Err(_) => Err(NoStation::NoThread),
    }
}

/// Puts a station after the others, for which there is room.
fn put<G: Drop>(made: &mut Vec<G>, station: G)
    requires { vec_len made.old < vec_capacity made.old }
    ensures { made.new.items ≡ made.old.items ++ station ∷ [] }
{
    match made.push(station) {
        Ok(()) => {}
        Err(_) => unreachable!(),
    }
}

/// Ends what the stations keep, as their threads, and waits for that.
pub fn end_stations<A, G: Engine<A> + Drop>(stations: Vec<G>) {
    let mut stations = stations;
    while let Some(station) = stations.pop() {
        station.end();
    }
}
