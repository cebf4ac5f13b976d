//! An application between its start and its stop, and the connections in between, by workers.
ghost use Rattle.std.specs.Prelude.{◌≡◌, All, vec_len};
ghost use Rattle.nomtsage.specs.Serving.{ServesEach, ServesOn, around};

use crate::ending::{Ending, Served, served_of, without_stations};
use crate::living::{Begun, begin, solo_of};
use asgi_apps::{AppTask, Application};
use asgi_conn::{Host, Report};
use asgi_server::{
    Accepts, BesideStation, Listener, OnEnd, Shared, Teller, Workers, end_stations, serve_all,
    stations,
};
use asgi_types::{Limits, State};
use asgi_ws::Line;

/// How the connections of a listener are served, and by which application.
#[derive(Drop)]
pub(crate) struct ByWorkers<'a, H, A, E> {
    pub(crate) rt: &'a H,
    pub(crate) limits: &'a Limits,
    pub(crate) workers: Workers,
    pub(crate) app: &'a A,
    pub(crate) on_end: &'a E,
}

/// Serves the connections of a listener by this application and this many workers: starts it, serves each connection,
/// and stops it. `on_end` is called as each connection ends. The teller gets a report of each, in the order in which they
/// came, once it and all before it have ended, and is returned with how the server ended. Each worker and its tasks run in
/// threads of their own, and the application's start and stop in this one.
pub fn serve_on<
    H: Host + Sync,
    T: AppTask + Send + 'static,
    A: Application<Task = T> + Send + Sync,
    E: OnEnd + Send + Sync,
    L: Line + Drop + Send,
    N: Accepts + Listener<L = L> + Send,
    K: Teller<Report> + Drop + Send,
>(
    rt: &H,
    limits: &Limits,
    workers: Workers,
    app: &A,
    on_end: &E,
    listener: &mut N,
    teller: K,
) -> (Ending, K)
    ensures serves { ServesOn L.state K.tells (A.answers app.now) limits.now workers.count (N.has_failed listener.new)
        (around (N.Listener.own.answers listener.old) teller)
        (around (N.Listener.own.answers listener.new) result.1) result.0 }
    ensures asked { N.Listener.own.asked listener.new ≡ N.Listener.own.asked listener.old }
{
    let by = ByWorkers {
        rt,
        limits,
        workers,
        app,
        on_end,
    };
    serve_by(&by, listener, teller)
}

/// The same, so.
pub(crate) fn serve_by<
    H: Host + Sync,
    T: AppTask + Send + 'static,
    A: Application<Task = T> + Send + Sync,
    E: OnEnd + Send + Sync,
    L: Line + Drop + Send,
    N: Accepts + Listener<L = L> + Send,
    K: Teller<Report> + Drop + Send,
>(by: &ByWorkers<'_, H, A, E>, listener: &mut N, teller: K) -> (Ending, K)
    ensures serves { ServesOn L.state K.tells (A.answers by.now.app.now) by.now.limits.now by.now.workers.count (N.has_failed listener.new)
        (around (N.Listener.own.answers listener.old) teller)
        (around (N.Listener.own.answers listener.new) result.1) result.0 }
    ensures asked { N.Listener.own.asked listener.new ≡ N.Listener.own.asked listener.old }
{
    let Some((solo, pause)) = solo_of(by.rt) else {
        return (Ending::NoMemory, teller);
    };
    let list = match stations::<T, A, H>(*by.rt, by.workers) {
        Ok(list) => list,
        Err(why) => return (without_stations(why), teller),
    };
    match begin(by.rt, by.limits, by.app, &solo, pause) {
        Begun::Lives(living, state) => {
            let (served, told) = serve_each(by, &state, listener, list, teller);
            (living.stop(served), told)
        }
        Begun::Ends(ending) => {
            end_stations::<A, BesideStation<T, H>>(list);
            (ending, teller)
        }
    }
}

/// Serves the connections. The teller gets a report of each, and is returned with how they were served.
fn serve_each<
    H: Host + Sync,
    T: AppTask + Send + 'static,
    A: Application<Task = T> + Send + Sync,
    E: OnEnd + Send + Sync,
    L: Line + Drop + Send,
    N: Accepts + Listener<L = L> + Send,
    K: Teller<Report> + Drop + Send,
>(
    by: &ByWorkers<'_, H, A, E>,
    state: &State,
    listener: &mut N,
    list: Vec<BesideStation<T, H>>,
    teller: K,
) -> (Served, K)
    requires fresh { (vec_len list ≡ by.now.workers.count) × All (λ s. s.pause.count ≡ 0) list.items }
    ensures served { ServesEach L.state K.tells (A.answers by.now.app.now) by.now.limits.now by.now.workers.count (N.has_failed listener.new) state.now
        (around (N.Listener.own.answers listener.old) teller)
        (around (N.Listener.own.answers listener.new) result.1) result.0 }
    ensures asked { N.Listener.own.asked listener.new ≡ N.Listener.own.asked listener.old }
{
    let Shared {
        reports: _reports,
        workers: list,
        teller: told,
        end,
    } = serve_all(
        by.rt, by.limits, state, by.app, by.on_end, listener, by.workers, list, teller,
    );
    end_stations::<A, BesideStation<T, H>>(list);
    let how = served_of(end, listener.failed());
    (how, told)
}
