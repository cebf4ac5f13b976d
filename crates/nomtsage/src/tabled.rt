//! A server of an address whose connections are in the seats of several threads: the call that serves.
ghost use Rattle.std.specs.Prelude.{◌≡◌, ◌+◌, [], None, Some, All, IfOk, IsOk, vec_len};
ghost use Rattle.std.specs.Process.{exit_status};
ghost use Rattle.nomtsage.specs.Running.{IsNumberBy, settings};
ghost use Rattle.nomtsage.specs.Tables.{RanTablesFew, RunsTables, RunsTablesTo};
ghost use Rattle.nomtsage.specs.private.Together.{IsWithin};

use crate::console::Console;
use crate::ending::Served;
use crate::engines::{InSeats, InTables};
use crate::fault::{ListenFault, ServeError};
use crate::opened::{Opened, open_reactor};
use crate::returning::result_of;
use crate::seated::{numbers_of, say_room, say_where};
use crate::server::{Server, done, error_of, failed, workers_of};
use crate::stop::flag_of;
use crate::table_engine::{OwnThread, TableEngineOf};
use crate::tables::{InThreads, Post, serve_in_tables, settle, why_of};
use asgi_apps::Application;
use asgi_conn::{Host, Report};
use asgi_reactor::{Numbers, PolledLine, Quota, SocketReactor};
use asgi_server::{OnEnd, Teller, Workers};
use asgi_ws::Line;
use log::Log;
use std::alloc::Global;
use std::io;
use std::net::{Net, SocketAddr};
use std::process::ExitCode;
use std::sync::atomic::AtomicBool;
use std::time::Clock;

impl<'a, K: Drop, E: Drop> Server<'a, K, E, InSeats> {
    /// In this many threads, 1 to 8, the first of which is the one that calls `run`, each with as many seats as were set: for
    /// applications that never block, on more than one processor. Another number is an error of `run`. All share one socket, and
    /// each connection is accepted by one of them, and stays in its thread.
    ///
    /// The application is shared by reference. Each thread has a copy of the teller of `on_report`, which is told of its
    /// connections under numbers of its own; `on_end` is called in the thread of the connection.
    pub fn threads(self, count: u64) -> Server<'a, K, E, InTables<OwnThread>>
        ensures set { (result.workers ≡ Some count) × (result.engines.seats ≡ self.entry.engines.seats) }
        ensures others { let was = self.entry in (result.address ≡ was.address) × (result.limits ≡ was.limits) × (result.count ≡ was.count)
            × (result.stop ≡ was.stop) × (result.on_report ≡ was.on_report) × (result.on_end ≡ was.on_end) }
    {
        let seats = self.engines.seats;
        let mut server = self.with_engines(InTables {
            seats,
            engine: OwnThread,
        });
        server.workers = Some(count);
        server
    }
}

impl<'a, K: Teller<Report> + Copy + Drop + Send, E: OnEnd + Drop + Sync, G: Drop + Sync> Server<
    'a,
    K,
    E,
    InTables<G>,
> {
    /// Listens, starts the application, serves each connection in one of the threads, and stops the application once there are no
    /// more: after the set number of connections, a pulled `Stop`, or an error. A line of the log has the address.
    ///
    /// The error names what could not be had or did not end well. If the address can't be listened on the application is
    /// not started; if the application does not start, or a thread is refused, no connection is accepted. A thread whose listener
    /// failed ends, and the others go on until theirs does.
    pub fn run<'r, H: Net + Console + Log + Host + Sync, A: Application + Sync>(
        self,
        rt: &'r H,
        app: &A,
    ) -> Result<(), ServeError>
    where
        'a: 'r,
        G: TableEngineOf<A>,
        ensures { RunsTables ⟦<PolledLine as Line>⟧.state K.tells (A.answers app.now)
            (settings self.entry.address self.entry.workers self.entry.limits self.entry.on_report) self.entry.count result }
    {
        let workers = match workers_of(rt, self.workers) {
            Ok(workers) => workers,
            Err(count) => return Err(ServeError::BadWorkers(count)),
        };
        self.run_by(rt, app, workers)
    }

    /// The same in this many threads.
    fn run_by<'r, H: Net + Console + Log + Host + Sync, A: Application + Sync>(
        self,
        rt: &'r H,
        app: &A,
        workers: Workers,
    ) -> Result<(), ServeError>
    where
        'a: 'r,
        G: TableEngineOf<A>,
        requires { IsNumberBy self.workers workers.count }
        ensures { RunsTables ⟦<PolledLine as Line>⟧.state K.tells (A.answers app.now)
            (settings self.entry.address self.entry.workers self.entry.limits self.entry.on_report) self.entry.count result }
    {
        let Server {
            address,
            limits,
            count,
            stop,
            on_report,
            on_end,
            workers: _asked,
            engines,
        } = self;
        let numbers = numbers_of(engines.seats, count);
        let quota = match Quota::new(rt.alloc(), count) {
            Ok(quota) => quota,
            Err(e) => {
                return Err(ServeError::CannotListen {
                    address,
                    why: ListenFault(io::Error::from(e)),
                });
            }
        };
        let flag = flag_of(stop);
        let opened = match open_posts(rt, address, &numbers, flag, &quota, workers, on_report) {
            Ok(opened) => opened,
            Err(e) => {
                return Err(ServeError::CannotListen {
                    address,
                    why: ListenFault(e),
                });
            }
        };
        let Opened {
            socket: posts,
            held: _held,
        } = opened;
        let by = InThreads {
            rt,
            limits: &limits,
            seats: numbers.seats,
            app,
            on_end: &on_end,
            engine: &engines.engine,
        };
        listened_in_tables(&by, &quota, posts, workers, on_report)
    }

    /// The same for a `main`: the error is written to the log, and the exit status is by it (`ServeError::status`).
    pub fn serve<'r, H: Net + Console + Log + Host + Sync, A: Application + Sync>(
        self,
        rt: &'r H,
        app: &A,
    ) -> ExitCode
    where
        'a: 'r,
        G: TableEngineOf<A>,
        ensures { RunsTablesTo ⟦<PolledLine as Line>⟧.state K.tells (A.answers app.now)
            (settings self.entry.address self.entry.workers self.entry.limits self.entry.on_report) self.entry.count (exit_status result) }
    {
        match self.run(rt, app) {
            Ok(()) => done(rt),
            Err(e) => failed(rt, e),
        }
    }
}

/// Opens a socket that listens at this address, and has what each thread serves of it.
fn open_posts<'r, H: Net + Console + Log + Host, K: Copy + Drop>(
    rt: &'r H,
    address: SocketAddr,
    numbers: &Numbers,
    flag: Option<&'r AtomicBool>,
    quota: &'r Quota,
    threads: Workers,
    on_report: K,
) -> io::Result<Opened<Vec<Post<'r, H, K>>, H::Held>>
    requires { numbers.now.count ≡ quota.now.count }
    ensures many { IfOk result (λ o. vec_len o.socket ≡ threads.count) }
    ensures fresh { IfOk result (λ o. All (λ p. (p.reactor.told.items ≡ []) × (p.reactor.why ≡ None) × (p.on_report ≡ on_report)) o.socket.items) }
    ensures kept { IfOk result (λ o. All (λ p. IsWithin quota.now p.reactor.told.items p.reactor.left p.reactor.ticketer) o.socket.items) }
{
    let Opened { socket, held } = open_reactor(rt, address, numbers, flag)?;
    let posts = posts_of(rt.alloc(), socket, quota, numbers, threads, on_report)?;
    Ok(Opened {
        socket: posts,
        held,
    })
}

/// What each thread serves: this reactor, and one beside it for each other thread, all within this quota, with a copy of the teller each.
fn posts_of<'r, H: Net + Clock, K: Copy + Drop>(
    alloc: Global,
    socket: SocketReactor<'r, H>,
    quota: &'r Quota,
    numbers: &Numbers,
    threads: Workers,
    on_report: K,
) -> io::Result<Vec<Post<'r, H, K>>>
    requires fresh { (socket.told.items ≡ []) × (socket.why ≡ None) }
    requires count { (socket.left ≡ quota.now.count) × (numbers.now.count ≡ quota.now.count) }
    ensures many { IfOk result (λ posts. vec_len posts ≡ threads.count) }
    ensures fresh { IfOk result (λ posts. All (λ p. (p.reactor.told.items ≡ []) × (p.reactor.why ≡ None) × (p.on_report ≡ on_report)) posts.items) }
    ensures kept { IfOk result (λ posts. All (λ p. IsWithin quota.now p.reactor.told.items p.reactor.left p.reactor.ticketer) posts.items) }
{
    let first = socket.within(quota);
    let mut posts = Vec::new(alloc);
    for _other in 1..threads.count() {
        let reactor = first.beside(numbers)?;
        put(&mut posts, reactor, quota, on_report)?;
    }
    put(&mut posts, first, quota, on_report)?;
    Ok(posts)
}

/// Adds what one more thread serves.
fn put<'r, H: Net + Clock, K: Copy + Drop>(
    posts: &mut Vec<Post<'r, H, K>>,
    reactor: SocketReactor<'r, H>,
    quota: &Quota,
    on_report: K,
) -> io::Result<()>
    requires one { (reactor.told.items ≡ []) × (reactor.why ≡ None) }
    requires of { IsWithin quota.now reactor.told.items reactor.left reactor.ticketer }
    requires fresh { All (λ p. (p.reactor.told.items ≡ []) × (p.reactor.why ≡ None) × (p.on_report ≡ on_report)) posts.old.items }
    requires kept { All (λ p. IsWithin quota.now p.reactor.told.items p.reactor.left p.reactor.ticketer) posts.old.items }
    ensures many { IsOk result → vec_len posts.new ≡ vec_len posts.old + 1 }
    ensures fresh { IsOk result → All (λ p. (p.reactor.told.items ≡ []) × (p.reactor.why ≡ None) × (p.on_report ≡ on_report)) posts.new.items }
    ensures kept { IsOk result → All (λ p. IsWithin quota.now p.reactor.told.items p.reactor.left p.reactor.ticketer) posts.new.items }
{
    posts.reserve(1)?;
    posts.push_reserved(Post {
        reactor,
        on_report,
        how: Served::NoThread,
    });
    Ok(())
}

/// Serves the connections of a socket that is open, and that was asked for none yet.
fn listened_in_tables<
    'r,
    H: Net + Console + Log + Host + Sync,
    A: Application + Sync,
    E: OnEnd + Sync,
    G: TableEngineOf<A> + Sync,
    K: Teller<Report> + Copy + Drop + Send,
>(
    by: &InThreads<'_, H, A, E, G>,
    quota: &Quota,
    posts: Vec<Post<'r, H, K>>,
    threads: Workers,
    on_report: K,
) -> Result<(), ServeError>
    requires many { vec_len posts ≡ threads.count }
    requires fresh { All (λ p. (p.reactor.told.items ≡ []) × (p.reactor.why ≡ None) × (p.on_report ≡ on_report)) posts.items }
    requires kept { All (λ p. IsWithin quota.now p.reactor.told.items p.reactor.left p.reactor.ticketer) posts.items }
    ensures { RanTablesFew ⟦<PolledLine as Line>⟧.state K.tells (A.answers by.now.app.now) by.now.limits.now threads.count quota.now.count on_report result }
{
    if let Some(post) = posts.first() {
        say_where(by.rt, &post.reactor);
    }
    say_room(by.rt, by.seats, threads.count());
    let (ending, posts) = serve_in_tables(by, posts);
    let why = error_of(why_of(posts.as_slice()));
    settle(quota, posts);
    result_of(ending, why)
}
