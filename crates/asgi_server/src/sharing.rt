//! Many connections at the same time, each with one of several workers.
ghost use Rattle.std.specs.Prelude.{◌≡◌, ℕ, List, map, vec_len};
ghost use Rattle.asgi_desk.specs.Told.{Told};
ghost use Rattle.asgi_crew.specs.Ran.{last_of};
ghost use Rattle.asgi_crew.specs.Shared.{IsShared};
ghost use Rattle.asgi_crew.specs.declared.give.End.TheVariants.{NoThread};
ghost use Rattle.asgi_server.specs.Connections.{served_by, arrived, IsServed};

use crate::engine::Engine;
use crate::listener::Listener;
use crate::on_end::OnEnd;
use asgi_conn::{Host, Report};
use asgi_crew::{Asks, Serves, Shared, Teller, Workers, share};
use asgi_types::{Limits, Peer, State};
use asgi_ws::Line;
use std::alloc::AllocGlobal;

/// What all workers borrow: the limits, the state, the application, and what is called as each connection ends.
#[derive(Drop)]
struct Serving<'a, H, A, E> {
    rt: &'a H,
    limits: &'a Limits,
    state: &'a State,
    app: &'a A,
    on_end: &'a E,
}

impl<'a, H, A, E, N: Listener> Asks<N, (N::L, Option<Peer>, Option<Peer>)>
    for Serving<'a, H, A, E> {
    ghost answers = { N.answers };

    ghost Source = { List (ℕ × ℕ) };

    ghost source = { N.asked };

    fn ask(&self, listener: &mut N) -> Option<(N::L, Option<Peer>, Option<Peer>)> {
        listener.next()
    }
}

impl<'a, H: AllocGlobal, A, E: OnEnd, L: Line + Drop, G: Engine<A>> Serves<
    G,
    (L, Option<Peer>, Option<Peer>),
> for Serving<'a, H, A, E> {
    type Report = Report;

    ghost serves = { λ how was is given report. served_by L.state (G.answers how.app.now) how.limits.now how.state.now (G.pauses was) (G.pauses is) given report };

    fn serve(&self, engine: &mut G, given: (L, Option<Peer>, Option<Peer>)) -> Report {
        let (line, client, server) = given;
        let report = engine.serve(
            self.rt,
            self.limits,
            self.state,
            self.app,
            line,
            &client,
            &server,
        );
        self.on_end.ended(&report, &client);
        report
    }
}

/// Serves each connection that the listener gives, as many at the same time as there are workers, each in a thread of
/// its own with one of these engines. The teller gets each report once, under its connection's number, 1 upwards, in
/// the order in which the connections were given, and each as soon as all those before it are there. `on_end` is called as
/// each connection ends, in the thread of its worker.
///
/// A worker serves one connection after another, to its end. A line is dropped once its connection has ended. If a
/// worker is refused its thread, the listener is not asked (`NoThread`). If memory for one more report is refused, no
/// more connections are asked for, and those given are served (`NoMemory`): so none that was given is left unserved.
// What goes to a thread may rest on no type that must stay in this one: so neither the application's tasks are named here,
// nor its trait, and an engine is all that is known of how connections are served.
pub fn serve_all<
    H: Host + Sync,
    A: Send + Sync,
    E: OnEnd + Send + Sync,
    L: Line + Drop + Send,
    N: Listener<L = L> + Send,
    K: Teller<Report> + Drop + Send,
    G: Engine<A> + Drop + Send,
>(
    rt: &H,
    limits: &Limits,
    state: &State,
    app: &A,
    on_end: &E,
    listener: &mut N,
    workers: Workers,
    stations: Vec<G>,
    teller: K,
) -> Shared<Report, G, K>
    requires { vec_len stations ≡ workers.count }
    ensures served { IsShared (served_by L.state (G.answers app.now) limits.now state.now) (N.answers listener.old) (N.answers listener.new) (last_of result.end)
        (map G.pauses stations.items) (map G.pauses result.workers.items) result.reports.items }
    ensures told { Told K.tells teller result.teller result.reports.items }
    ensures no_thread { result.end ≡ NoThread → N.answers listener.new ≡ N.answers listener.old }
    ensures asked { N.asked listener.new ≡ N.asked listener.old }
{
    let _few = workers.count();
    let how = Serving {
        rt,
        limits,
        state,
        app,
        on_end,
    };
    share(rt, rt.alloc(), &how, listener, stations, teller)
}
