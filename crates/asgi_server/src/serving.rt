//! One connection after another, in the caller's thread.
ghost use Rattle.std.specs.Prelude.{◌≡◌};
ghost use Rattle.asgi_server.specs.Connections.{ServesNext, IsServed, arrived};

use crate::listener::Listener;
use asgi_apps::Application;
use asgi_conn::{Report, Runner, serve_connection};
use asgi_io::Pause;
use asgi_types::{Limits, Peer, State};
use asgi_ws::Line;
use std::alloc::AllocGlobal;

/// Serves the next connection that the listener gives, and returns its report; `None` if the listener
/// gives none any more. The line is dropped once its connection has ended.
pub fn serve_next<H: AllocGlobal, A: Application, N: Listener, U: Runner<A::Task>, P: Pause>(
    rt: &H,
    limits: &Limits,
    state: &State,
    app: &A,
    listener: &mut N,
    runner: &mut U,
    pause: &mut P,
) -> Option<Report>
    ensures serves { ServesNext N.L.state (A.answers app.now) limits.now state.now (N.answers listener.old) (N.answers listener.new)
        (P.count pause.old) (P.count pause.new) result }
    ensures asked { N.asked listener.new ≡ N.asked listener.old }
{
    let (line, client, server) = listener.next()?;
    Some(serve(
        rt, limits, state, app, line, &client, &server, runner, pause,
    ))
}

/// Serves one connection, and drops its line.
pub(crate) fn serve<H: AllocGlobal, A: Application, L: Line + Drop, U: Runner<A::Task>, P: Pause>(
    rt: &H,
    limits: &Limits,
    state: &State,
    app: &A,
    line: L,
    client: &Option<Peer>,
    server: &Option<Peer>,
    runner: &mut U,
    pause: &mut P,
) -> Report
    ensures { IsServed (A.answers app.now) limits.now state.now (arrived L.state (line, client.now, server.now)) (P.count pause.old) (P.count pause.new) result }
{
    let mut line = line;
    serve_connection(
        rt, limits, client, server, state, app, &mut line, runner, pause,
    )
}
