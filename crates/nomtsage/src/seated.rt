//! A server of an address whose connections are in seats: the call that serves.
ghost use Rattle.std.specs.Prelude.{◌≡◌, []};
ghost use Rattle.std.specs.Process.{exit_status};
ghost use Rattle.nomtsage.specs.Running.{settings};
ghost use Rattle.nomtsage.specs.Seats.{RanFew, RunsSeats, RunsSeatsTo};

use crate::console::Console;
use crate::engines::InSeats;
use crate::fault::{ListenFault, ServeError};
use crate::opened::{Opened, open_reactor};
use crate::returning::result_of;
use crate::seats::serve_in_seats;
use crate::server::{Server, done, error_of, failed};
use crate::stop::flag_of;
use crate::tellers::Tells;
use asgi_apps::Application;
use asgi_conn::{Host, Report};
use asgi_reactor::{Linger, Numbers, PolledLine, SocketReactor};
use asgi_server::{OnEnd, Teller};
use asgi_types::Limits;
use asgi_ws::Line;
use log::{Log, info, warn};
use std::net::Net;
use std::process::ExitCode;
use std::time::{Clock, Duration};

/// How long an idle turn of a connection takes, in seconds.
const TICK: u64 = 1;

/// For how many of them bytes may wait for a client to take them, and one more for each `LEAST` that it takes meanwhile.
const PATIENCE: u32 = 30;

/// For how many bytes a client that sends a request, or takes its response, has one second more.
const LEAST: u64 = 500;

/// How many seconds a client may take for a request, and one more for each `LEAST` bytes of it.
const SLOW: u32 = 60;

/// For how many seconds exchanges and sessions go on once the server is to end.
const LEAVE: u32 = 30;

/// After how many seconds a connection that is silent between two requests gives its seat to a newcomer, if all seats are taken.
const GIVE_WAY: u32 = 5;

/// How many bytes each thread holds for all its clients at the most: what they have not taken, and what was read ahead.
const HELD: u64 = 536_870_912;

/// After how many seconds in which nothing is said the client of a session is asked by a ping.
const PING: u32 = 20;

/// For how many seconds it may give no sign then.
const PONG: u32 = 20;

/// For how many seconds a client that goes on sending is read after its answer.
const LINGER: u32 = 30;

/// For how many seconds in a row it may send nothing then.
const LINGER_SILENT: u32 = 5;

/// How many bytes are read of it then.
const LINGER_BYTES: u64 = 67_108_864;

/// How many descriptors a program has besides those of its connections and one for each thread: the standard streams, and the
/// socket that listens.
const STREAMS: u64 = 4;

impl<'a, K: Teller<Report> + Drop, E: OnEnd + Drop> Server<'a, K, E, InSeats> {
    /// Listens, starts the application, serves each connection, and stops the application once there are no more: after
    /// the set number of connections, a pulled `Stop`, or an error. A line of the log has the address.
    ///
    /// The error names what could not be had or did not end well. If the address can't be listened on the application is
    /// not started; if the application does not start, no connection is accepted.
    pub fn run<'r, H: Net + Console + Log + Host, A: Application>(
        self,
        rt: &'r H,
        app: &A,
    ) -> Result<(), ServeError>
    where
        'a: 'r,
        ensures { RunsSeats ⟦<PolledLine as Line>⟧.state K.tells (A.answers app.now)
            (settings self.entry.address self.entry.workers self.entry.limits self.entry.on_report) self.entry.count result }
    {
        let Server {
            address,
            limits,
            count,
            stop,
            on_report,
            on_end,
            workers: _none,
            engines,
        } = self;
        let numbers = numbers_of(engines.seats, count);
        let opened = match open_reactor(rt, address, &numbers, flag_of(stop)) {
            Ok(opened) => opened,
            Err(e) => {
                return Err(ServeError::CannotListen {
                    address,
                    why: ListenFault(e),
                });
            }
        };
        let Opened {
            socket: reactor,
            held: _held,
        } = opened;
        let tells = Tells {
            on_report,
            on_end: &on_end,
        };
        listened_in_seats(rt, &limits, numbers.seats, app, reactor, tells)
    }

    /// The same for a `main`: the error is written to the log, and the exit status is by it (`ServeError::status`).
    pub fn serve<'r, H: Net + Console + Log + Host, A: Application>(
        self,
        rt: &'r H,
        app: &A,
    ) -> ExitCode
    where
        'a: 'r,
        ensures { RunsSeatsTo ⟦<PolledLine as Line>⟧.state K.tells (A.answers app.now)
            (settings self.entry.address self.entry.workers self.entry.limits self.entry.on_report) self.entry.count (exit_status result) }
    {
        match self.run(rt, app) {
            Ok(()) => done(rt),
            Err(e) => failed(rt, e),
        }
    }
}

/// The numbers of a reactor with so many seats, for so many connections.
pub(crate) fn numbers_of(seats: usize, count: u64) -> Numbers
    ensures { result.count ≡ count }
{
    Numbers {
        seats,
        count,
        tick: Duration::from_secs(TICK),
        patience: PATIENCE,
        least: LEAST,
        slow: SLOW,
        leave: LEAVE,
        give_way: GIVE_WAY,
        held: HELD,
        ping: PING,
        pong: PONG,
        linger: Linger {
            ticks: LINGER,
            silent: LINGER_SILENT,
            bytes: LINGER_BYTES,
        },
    }
}

/// Serves the connections of a socket that is open, and that was asked for none yet.
fn listened_in_seats<
    'a,
    H: Net + Console + Log + Host,
    A: Application,
    E: OnEnd,
    K: Teller<Report> + Drop,
>(
    rt: &'a H,
    limits: &Limits,
    seats: usize,
    app: &A,
    mut reactor: SocketReactor<'a, H>,
    mut tells: Tells<'_, K, E>,
) -> Result<(), ServeError>
    requires { reactor.told.items ≡ [] }
    ensures { RanFew ⟦<PolledLine as Line>⟧.state K.tells (A.answers app.now) limits.now reactor.entry.left tells.entry.on_report result }
{
    say_where(rt, &reactor);
    say_room(rt, seats, 1);
    let ending = serve_in_seats(rt, limits, seats, app, &mut reactor, &mut tells);
    let why = error_of(reactor.why());
    reactor.end();
    result_of(ending, why)
}

/// Writes at which address the socket listens to the log.
pub(crate) fn say_where<H: Net + Clock + Log>(rt: &H, reactor: &SocketReactor<'_, H>) {
    let Ok(address) = reactor.address() else {
        return;
    };
    info!(rt; "listening on http://{address}");
}

/// Warns in the log if there may be fewer descriptors than so many connections in each of so many threads take: then some wait for
/// others to end.
pub(crate) fn say_room<H: Console + Log>(rt: &H, seats: usize, threads: u64) {
    let connections = (seats as u64).saturating_mul(threads);
    let Some(descriptors) = rt.descriptors() else {
        return;
    };
    if descriptors < connections.saturating_add(STREAMS).saturating_add(threads) {
        warn!(rt; "{descriptors} descriptors (ulimit -n) do not suffice for {connections} connections at the same time");
    }
}
