//! An application between its start and its stop, and in between many connections in one thread.
ghost use Rattle.std.specs.Prelude.{◌≡◌, ◌⊎◌, Option};
ghost use Rattle.std.specs.declared.io.Error.{Error};
ghost use Rattle.asgi_types.specs.declared.limits.Limits.{Limits};
ghost use Rattle.asgi_reactor.specs.Accepting.{in_all};
ghost use Rattle.nomtsage.specs.Seats.{AreSeconds, InSeconds, ServesSeats, served_in};
ghost use Rattle.nomtsage.specs.Serving.{LivesOn, around};

use crate::ending::{Ending, Served};
use crate::living::{Begun, begin, solo_of};
use crate::tellers::Tells;
use asgi_apps::Application;
use asgi_conn::{Host, Report};
use asgi_reactor::{PolledLine, Served as Ended, SocketReactor, serve_in_thread};
use asgi_server::{OnEnd, Teller};
use asgi_types::{Limits, State};
use asgi_ws::Line;
use log::Log;
use std::io;
use std::time::Clock;

/// How many idle turns of the limits that were set are a second without a move. A connection with a worker makes about as many in
/// two seconds.
const TURNS_A_SECOND: u32 = 400;

/// The limits of a connection in a seat, of which an idle turn takes a second.
pub(crate) fn in_seconds(limits: &Limits) -> Limits
    ensures { InSeconds limits.now result }
{
    Limits {
        max_head: limits.max_head,
        max_headers: limits.max_headers,
        max_body: limits.max_body,
        block: limits.block,
        ring: limits.ring,
        idle_turns: seconds_of(limits.idle_turns),
        turns: limits.turns,
    }
}

/// How many seconds so many idle turns are, at least one.
fn seconds_of(turns: u32) -> u32
    ensures { AreSeconds turns result }
{
    let seconds = turns / TURNS_A_SECOND;
    if seconds == 0 {
        return 1;
    }
    seconds
}

/// How the connections of one thread are served, and by which application.
#[derive(Drop)]
struct InOneThread<'a, H, A> {
    rt: &'a H,
    /// Those of a connection in a seat.
    limits: &'a Limits,
    seats: usize,
    state: &'a State,
    app: &'a A,
}

/// Starts the application, serves what the reactor gives, at most so many connections at a time, and stops the application. What
/// gets the reports is called as each connection ends. All that runs of the application runs in the caller's thread.
pub(crate) fn serve_in_seats<H: Host, R: Clock + Log, A: Application, E: OnEnd, K: Teller<Report>>(
    rt: &H,
    limits: &Limits,
    seats: usize,
    app: &A,
    reactor: &mut SocketReactor<'_, R>,
    tells: &mut Tells<'_, K, E>,
) -> Ending
    ensures serves { (seconds : Limits) × InSeconds limits.now seconds
        × LivesOn (ServesSeats ⟦<PolledLine as Line>⟧.state K.tells (A.answers app.now) seconds reactor.new.why) (A.answers app.now) limits.now
        (around reactor.old.told.items tells.old.on_report) (around reactor.new.told.items tells.new.on_report) result }
    ensures kept { in_all reactor.new.told.items reactor.new.left ≡ in_all reactor.old.told.items reactor.old.left }
{
    let seconds = in_seconds(limits);
    let Some((solo, pause)) = solo_of(rt) else {
        return Ending::NoMemory;
    };
    match begin(rt, limits, app, &solo, pause) {
        Begun::Lives(living, state) => {
            let how = InOneThread {
                rt,
                limits: &seconds,
                seats,
                state: &state,
                app,
            };
            living.stop(serve(&how, reactor, tells))
        }
        Begun::Ends(ending) => ending,
    }
}

/// Serves the connections.
fn serve<H: Host, R: Clock + Log, A: Application, E: OnEnd, K: Teller<Report>>(
    how: &InOneThread<'_, H, A>,
    reactor: &mut SocketReactor<'_, R>,
    tells: &mut Tells<'_, K, E>,
) -> Served
    ensures serves { ServesSeats ⟦<PolledLine as Line>⟧.state K.tells (A.answers how.now.app.now) how.now.limits.now reactor.new.why how.now.state.now
        (around reactor.old.told.items tells.old.on_report) (around reactor.new.told.items tells.new.on_report) result }
    ensures kept { in_all reactor.new.told.items reactor.new.left ≡ in_all reactor.old.told.items reactor.old.left }
{
    match serve_in_thread(
        how.rt, how.limits, how.seats, how.state, how.app, reactor, tells,
    ) {
        Ok(ended) => served_in(ended, reactor.why()),
        Err(_) => Served::NoMemory,
    }
}

/// How serving ended, by how the seats did, and the system's error if no connection could be accepted any more.
pub(crate) fn served_in(ended: Ended, why: Option<io::Error>) -> Served
    ensures { result ≡ served_in ended why }
{
    match ended {
        Ended::All => match why {
            Some(_) => Served::ListenerFailed,
            None => Served::Each,
        },
        Ended::TooLong => Served::TooLong,
    }
}
