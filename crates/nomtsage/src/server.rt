//! A server of an address: its settings, and the call that serves.
ghost use Rattle.std.specs.Prelude.{◌≡◌, ◌-◌, ◌^◌, [], None, Some, IfOk, IfErr, IfSome};
ghost use Rattle.asgi_server.specs.Arrivals.{IsLoopbackAt};
ghost use Rattle.std.specs.Process.{exit_status};
ghost use Rattle.nomtsage.specs.Running.{IsNumber, IsNumberBy, Ran, Runs, RunsTo, settings, status_of};

use crate::console::Console;
use crate::engines::{InSeats, InThread};
use crate::fault::{ListenFault, ServeError};
use crate::opened::{Opened, open_listening};
use crate::returning::result_of;
use crate::serve::{ByWorkers, serve_by};
use crate::stop::{Stop, flag_of};
use crate::tellers::{LogLines, Quiet};
use asgi_apps::{AppTask, Application};
use asgi_conn::{Host, Report};
use asgi_server::{Listening, Nobody, OnEnd, Socket, Teller, Workers, loopback};
use asgi_types::Limits;
use asgi_ws::{Line, Wired};
use log::{Log, error, info};
use std::io::{self, ErrorKind, Read, Write};
use std::net::{Net, OpenStream, SocketAddr};
use std::process::ExitCode;
use std::thread::{self, Threads};
use std::time::Clock;

/// The most workers that a server has.
const MOST_WORKERS: u64 = 8;

/// How many connections a server serves at the same time, unless set otherwise.
const SEATS: usize = 10_000;

/// A server of one address, which serves one application. Unless set otherwise it serves up to 10,000 connections at the same
/// time in the thread that calls `run` (`in_seats`), has the usual limits and no end, and tells nobody of its connections.
#[derive(Drop)]
pub struct Server<'a, K: Drop, E: Drop, G: Drop> {
    pub(crate) address: SocketAddr,
    pub(crate) workers: Option<u64>,
    pub(crate) limits: Limits,
    pub(crate) count: u64,
    pub(crate) stop: Option<&'a Stop>,
    pub(crate) on_report: K,
    pub(crate) on_end: E,
    pub(crate) engines: G,
}

impl<'a> Server<'a, Quiet, Nobody, InSeats> {
    /// A server of this port of the loopback address, 127.0.0.1, or of any free one of its ports for 0.
    pub fn on(port: u16) -> Self
        ensures address { IsLoopbackAt port result.address }
        ensures endless { result.count ≡ 2 ^ 64 - 1 }
        ensures unset { (result.workers ≡ None) × (result.stop ≡ None) }
        ensures seats { result.engines.seats ≡ 10000 }
    {
        Server {
            address: loopback(port),
            workers: None,
            limits: Limits::usual(),
            count: u64::MAX,
            stop: None,
            on_report: Quiet,
            on_end: Nobody,
            engines: InSeats { seats: SEATS },
        }
    }

    /// A server of this address: of all addresses of this machine for `0.0.0.0` (IPv4) and `::` (IPv6, and IPv4 too
    /// unless the system is set otherwise); of any free port for port 0.
    pub fn at(address: SocketAddr) -> Self
        ensures address { result.address ≡ address }
        ensures endless { result.count ≡ 2 ^ 64 - 1 }
        ensures unset { (result.workers ≡ None) × (result.stop ≡ None) }
        ensures seats { result.engines.seats ≡ 10000 }
    {
        let mut server = Server::on(0);
        server.address = address;
        server
    }
}

impl<'a, K: Drop, E: Drop> Server<'a, K, E, InThread> {
    /// With this many workers, 1 to 8, each in a thread of its own: as many connections are served at the same time. Another
    /// number is an error of `run`; if none is set there are as many as processors, at most 8.
    pub fn workers(self, count: u64) -> Self
        ensures set { result.workers ≡ Some count }
        ensures others { let was = self.entry in (result.address ≡ was.address) × (result.limits ≡ was.limits) × (result.count ≡ was.count)
            × (result.stop ≡ was.stop) × (result.on_report ≡ was.on_report) × (result.on_end ≡ was.on_end) × (result.engines ≡ was.engines) }
    {
        let mut server = self;
        server.workers = Some(count);
        server
    }
}

impl<'a, K: Drop, E: Drop, G: Drop> Server<'a, K, E, G> {
    /// With these limits of each connection, and of the start and the stop of the application.
    pub fn limits(self, limits: Limits) -> Self
        ensures set { result.limits ≡ limits }
        ensures others { let was = self.entry in (result.address ≡ was.address) × (result.workers ≡ was.workers) × (result.count ≡ was.count)
            × (result.stop ≡ was.stop) × (result.on_report ≡ was.on_report) × (result.on_end ≡ was.on_end) × (result.engines ≡ was.engines) }
    {
        let mut server = self;
        server.limits = limits;
        server
    }

    /// Ends by itself once it has served `count` connections.
    pub fn connections(self, count: u64) -> Self
        ensures set { result.count ≡ count }
        ensures others { let was = self.entry in (result.address ≡ was.address) × (result.workers ≡ was.workers) × (result.limits ≡ was.limits)
            × (result.stop ≡ was.stop) × (result.on_report ≡ was.on_report) × (result.on_end ≡ was.on_end) × (result.engines ≡ was.engines) }
    {
        let mut server = self;
        server.count = count;
        server
    }

    /// Ends once this is pulled; `Stop` has what becomes of the connections. In seats it is looked at every 50 milliseconds at the
    /// latest, unless a task holds the thread. With workers the socket is then asked for connections each millisecond, and does not
    /// wait for one.
    pub fn stop(self, stop: &'a Stop) -> Self
        ensures set { result.stop ≡ Some stop.entry }
        ensures others { let was = self.entry in (result.address ≡ was.address) × (result.workers ≡ was.workers) × (result.limits ≡ was.limits)
            × (result.count ≡ was.count) × (result.on_report ≡ was.on_report) × (result.on_end ≡ was.on_end) × (result.engines ≡ was.engines) }
    {
        let mut server = self;
        server.stop = Some(stop);
        server
    }

    /// Gives the report of each connection to this teller, once, under its number. In seats it gets one when the connection ends,
    /// under the number of its arrival. With workers it gets them in the order in which the connections came, each once all before
    /// it have ended too.
    pub fn on_report<J: Teller<Report> + Drop>(self, teller: J) -> Server<'a, J, E, G>
        ensures set { result.on_report ≡ teller }
        ensures others { let was = self.entry in (result.address ≡ was.address) × (result.workers ≡ was.workers) × (result.limits ≡ was.limits)
            × (result.count ≡ was.count) × (result.stop ≡ was.stop) × (result.on_end ≡ was.on_end) × (result.engines ≡ was.engines) }
    {
        let Server {
            address,
            workers,
            limits,
            count,
            stop,
            on_report: _before,
            on_end,
            engines,
        } = self;
        Server {
            address,
            workers,
            limits,
            count,
            stop,
            on_report: teller,
            on_end,
            engines,
        }
    }

    /// Calls this when a connection ends, in the thread that served it.
    pub fn on_end<F: OnEnd + Drop>(self, on_end: F) -> Server<'a, K, F, G>
        ensures set { result.on_end ≡ on_end }
        ensures others { let was = self.entry in (result.address ≡ was.address) × (result.workers ≡ was.workers) × (result.limits ≡ was.limits)
            × (result.count ≡ was.count) × (result.stop ≡ was.stop) × (result.on_report ≡ was.on_report) × (result.engines ≡ was.engines) }
    {
        let Server {
            address,
            workers,
            limits,
            count,
            stop,
            on_report,
            on_end: _before,
            engines,
        } = self;
        Server {
            address,
            workers,
            limits,
            count,
            stop,
            on_report,
            on_end,
            engines,
        }
    }

    /// Writes a line of the log as each connection ends.
    pub fn log_connections<'r, R: Log>(self, rt: &'r R) -> Server<'a, K, LogLines<'r, R>, G>
        ensures others { let was = self.entry in (result.address ≡ was.address) × (result.workers ≡ was.workers) × (result.limits ≡ was.limits)
            × (result.count ≡ was.count) × (result.stop ≡ was.stop) × (result.on_report ≡ was.on_report) × (result.engines ≡ was.engines) }
    {
        self.on_end(LogLines::new(rt))
    }

    /// Serves by workers, each connection by one of them, and runs each task in a thread beside that one: for applications that
    /// block. While a task does, its connection still writes what is ready, reads, and comes to its limits, and so do all others;
    /// but as many connections are served at the same time as there are workers.
    pub fn in_threads(self) -> Server<'a, K, E, InThread>
        ensures others { let was = self.entry in (result.address ≡ was.address) × (result.workers ≡ was.workers) × (result.limits ≡ was.limits)
            × (result.count ≡ was.count) × (result.stop ≡ was.stop) × (result.on_report ≡ was.on_report) × (result.on_end ≡ was.on_end) }
    {
        self.with_engines(InThread)
    }

    /// Serves in the thread that calls `run`, at most `seats` connections at a time (else 10,000), each taken up as soon as its
    /// socket is ready: for many clients, and applications that never block, since a task that does holds up all of them. There
    /// is no other thread. `on_report` is told of each connection as it ends, under the number of its arrival.
    ///
    /// While no byte moves, an idle turn of a connection takes a second: so many as the limits have 400 idle turns, at least
    /// one; of the usual limits 75.
    pub fn in_seats(self, seats: usize) -> Server<'a, K, E, InSeats>
        ensures set { result.engines.seats ≡ seats }
        ensures others { let was = self.entry in (result.address ≡ was.address) × (result.workers ≡ was.workers) × (result.limits ≡ was.limits)
            × (result.count ≡ was.count) × (result.stop ≡ was.stop) × (result.on_report ≡ was.on_report) × (result.on_end ≡ was.on_end) }
    {
        self.with_engines(InSeats { seats })
    }

    /// With this in the place of where its tasks ran.
    pub(crate) fn with_engines<F: Drop>(self, engines: F) -> Server<'a, K, E, F>
        ensures set { result.engines ≡ engines }
        ensures others { let was = self.entry in (result.address ≡ was.address) × (result.workers ≡ was.workers) × (result.limits ≡ was.limits)
            × (result.count ≡ was.count) × (result.stop ≡ was.stop) × (result.on_report ≡ was.on_report) × (result.on_end ≡ was.on_end) }
    {
        let Server {
            address,
            workers,
            limits,
            count,
            stop,
            on_report,
            on_end,
            engines: _before,
        } = self;
        Server {
            address,
            workers,
            limits,
            count,
            stop,
            on_report,
            on_end,
            engines,
        }
    }
}

impl<'a, K: Teller<Report> + Drop + Send, E: OnEnd + Drop + Send + Sync> Server<
    'a,
    K,
    E,
    InThread,
> {
    /// Listens, starts the application, serves each connection, and stops the application once there are no more: after
    /// the set number of connections, a pulled `Stop`, or an error. A line of the log has the address.
    ///
    /// The error names what could not be had or did not end well. If the address can't be listened on the application is
    /// not started; if the application does not start, no connection is accepted.
    pub fn run<
        'r,
        S: OpenStream + Read + Write + Drop + Send,
        H: Net<Stream = S> + Console + Log + Host + Sync,
        T: AppTask + Send + 'static,
        A: Application<Task = T> + Send + Sync,
    >(self, rt: &'r H, app: &A) -> Result<(), ServeError>
    where
        'a: 'r,
        H::Listener: Send,
        ensures { Runs ⟦<Wired<Socket<'r, H, S>> as Line>⟧.state K.tells (A.answers app.now)
            (settings self.entry.address self.entry.workers self.entry.limits self.entry.on_report) result }
    {
        let workers = match workers_of(rt, self.workers) {
            Ok(workers) => workers,
            Err(count) => return Err(ServeError::BadWorkers(count)),
        };
        self.run_by(rt, app, workers)
    }

    /// The same by this many workers.
    fn run_by<
        'r,
        S: OpenStream + Read + Write + Drop + Send,
        H: Net<Stream = S> + Console + Log + Host + Sync,
        T: AppTask + Send + 'static,
        A: Application<Task = T> + Send + Sync,
    >(self, rt: &'r H, app: &A, workers: Workers) -> Result<(), ServeError>
    where
        'a: 'r,
        H::Listener: Send,
        requires { IsNumberBy self.workers workers.count }
        ensures { Runs ⟦<Wired<Socket<'r, H, S>> as Line>⟧.state K.tells (A.answers app.now)
            (settings self.entry.address self.entry.workers self.entry.limits self.entry.on_report) result }
    {
        let Server {
            address,
            limits,
            count,
            stop,
            on_report,
            on_end,
            workers: _asked,
            engines: _in_thread,
        } = self;
        let opened = match open_listening(rt, address, count, flag_of(stop)) {
            Ok(opened) => opened,
            Err(e) => {
                return Err(ServeError::CannotListen {
                    address,
                    why: ListenFault(e),
                });
            }
        };
        let Opened {
            socket: listener,
            held: _held,
        } = opened;
        let by = ByWorkers {
            rt,
            limits: &limits,
            workers,
            app,
            on_end: &on_end,
        };
        listened(&by, listener, on_report)
    }

    /// The same for a `main`: the error is written to the log, and the exit status is by it (`ServeError::status`).
    pub fn serve<
        'r,
        S: OpenStream + Read + Write + Drop + Send,
        H: Net<Stream = S> + Console + Log + Host + Sync,
        T: AppTask + Send + 'static,
        A: Application<Task = T> + Send + Sync,
    >(self, rt: &'r H, app: &A) -> ExitCode
    where
        'a: 'r,
        H::Listener: Send,
        ensures { RunsTo ⟦<Wired<Socket<'r, H, S>> as Line>⟧.state K.tells (A.answers app.now)
            (settings self.entry.address self.entry.workers self.entry.limits self.entry.on_report) (exit_status result) }
    {
        match self.run(rt, app) {
            Ok(()) => done(rt),
            Err(e) => failed(rt, e),
        }
    }
}

/// Writes out what waits to be written to the log, and returns the exit status of a server that ended well.
pub(crate) fn done<H: Log>(rt: &H) -> ExitCode
    ensures { exit_status result ≡ 0 }
{
    rt.flush();
    ExitCode::from(0)
}

/// Writes why the server failed to the log, writes that out, and returns the exit status.
pub(crate) fn failed<H: Log>(rt: &H, e: ServeError) -> ExitCode
    ensures { exit_status result ≡ status_of e }
{
    error!(rt; "{e}");
    rt.flush();
    ExitCode::from(e.status())
}

/// The number of workers that was set, if it is one, or as many as there are processors. The error is the number that was set.
pub(crate) fn workers_of<H: Threads>(rt: &H, asked: Option<u64>) -> Result<Workers, u64>
    ensures number { IfOk result (λ workers. IsNumberBy asked workers.count) }
    ensures err { IfErr result (λ count. (asked ≡ Some count) × ¬ (IsNumber count)) }
{
    match asked {
        Some(count) => match Workers::new(count) {
            Some(workers) => Ok(workers),
            None => Err(count),
        },
        None => Ok(usual_workers(rt)),
    }
}

/// As many workers as there are processors, at most 8.
fn usual_workers<H: Threads>(rt: &H) -> Workers {
    match Workers::new(within(processors(rt))) {
        Some(workers) => workers,
        None => unreachable!(),
    }
}

/// The number of workers that is next to this number.
fn within(count: u64) -> u64
    ensures { IsNumber result }
{
    if count == 0 {
        return 1;
    }
    if count > MOST_WORKERS {
        return MOST_WORKERS;
    }
    count
}

/// How many processors there are, 1 if that is not known.
fn processors<H: Threads>(rt: &H) -> u64 {
    match thread::available_parallelism(rt) {
        Ok(count) => count.get() as u64,
        Err(_) => 1,
    }
}

/// Serves the connections of a listener that is open, and that was asked for none yet.
fn listened<
    'a,
    S: OpenStream + Read + Write + Drop + Send,
    H: Net<Stream = S> + Console + Log + Host + Sync,
    T: AppTask + Send + 'static,
    A: Application<Task = T> + Send + Sync,
    E: OnEnd + Send + Sync,
    K: Teller<Report> + Drop + Send,
>(
    by: &ByWorkers<'_, H, A, E>,
    mut listener: Listening<'a, H>,
    on_report: K,
) -> Result<(), ServeError>
where
    H::Listener: Send,
    requires { listener.told.items ≡ [] }
    ensures { Ran ⟦<Wired<Socket<'a, H, S>> as Line>⟧.state K.tells (A.answers by.now.app.now) by.now.limits.now by.now.workers.count on_report result }
{
    say_where(by.rt, &listener);
    let (ending, _told) = serve_by(by, &mut listener, on_report);
    result_of(ending, error_of(listener.why()))
}

/// Writes at which address the listener listens to the log.
fn say_where<H: Net + Clock + Log>(rt: &H, listener: &Listening<'_, H>) {
    let Ok(address) = listener.address() else {
        return;
    };
    info!(rt; "listening on http://{address}");
}

/// The error, or one that says nothing.
pub(crate) fn error_of(why: Option<io::Error>) -> io::Error
    ensures { IfSome why (λ e. result ≡ e) }
{
    match why {
        Some(e) => e,
        None => io::Error::from(ErrorKind::Other),
    }
}
