//! A seat, who comes to it and what is left of it.
ghost use Rattle.std.specs.Prelude.{◌≡◌};
ghost use Rattle.asgi_types.specs.declared.limits.Limits.{Limits};
ghost use Rattle.asgi_conn.specs.Serving.{Serves};
ghost use Rattle.asgi_conn.specs.Standing.{IfOver, IsReportOf, TakesOne};
ghost use Rattle.asgi_many.specs.declared.seat.Newcomer.{Newcomer};
ghost use Rattle.asgi_many.specs.Standing.{IsAt};
ghost use Rattle.asgi_many.specs.Turns.{CountsIdle};

use asgi_apps::{Application, Calls};
use asgi_conn::{Connection, Report, Runner, Setting, Step};
use asgi_halves::Piece;
use asgi_io::{CountingPause, Pause};
use asgi_types::{Limits, Peer, State};
use asgi_ws::Line;
use std::alloc::Global;

/// Why a seat is taken up.
#[derive(Clone, Copy, Debug, PartialEq, Eq)]
pub enum Cause {
    /// Something may have come for it. If nothing moves, nothing is counted.
    Wake,
    /// A tick has passed. If nothing moves, an idle turn is counted.
    Tick,
}

/// A connection that comes: its line, and its client and server if they are known.
#[derive(Drop)]
pub struct Newcomer<L> {
    pub line: L,
    pub client: Option<Peer>,
    pub server: Option<Peer>,
}

/// A connection that has ended.
#[derive(Drop)]
pub struct Ended<L> {
    /// How many had come before it.
    pub number: u64,
    pub report: Report,
    /// How many pauses were made for it.
    pub pauses: u64,
    /// Its client, if it is known.
    pub client: Option<Peer>,
    /// Its line, which the caller closes.
    pub line: L,
}

/// What is told of a connection that has ended.
#[derive(Drop)]
pub struct Departure {
    pub report: Report,
    /// Its client, if it is known.
    pub client: Option<Peer>,
}

/// A connection in a table, with all that is its own.
#[derive(Drop)]
pub(crate) struct Seat<X, L> {
    /// How many had come before it.
    pub(crate) number: u64,
    pub(crate) connection: Connection<X>,
    pub(crate) line: L,
    pub(crate) client: Option<Peer>,
    pub(crate) server: Option<Peer>,
    pub(crate) pause: CountingPause,
}

impl<X, L: Line> Seat<X, L> {
    /// The seat of a newcomer, of which nothing was read yet.
    pub(crate) fn new<A: Application, U: Runner<A::Task, Exchange = X>>(
        alloc: Global,
        limits: &Limits,
        state: &State,
        number: u64,
        newcomer: Newcomer<L>,
    ) -> Self
        ensures at { (app : A) → IsAt A.Task.answers U.Pipes.Conn.ConnEnd U.Pipes.App.AppEnd U.conn U.began (A.answers app) L.state
            limits.now state.now newcomer result }
        ensures number { result.number ≡ number }
        ensures line { result.line ≡ newcomer.line }
    {
        let Newcomer {
            line,
            client,
            server,
        } = newcomer;
        let setting = Setting {
            client: &client,
            server: &server,
            state,
        };
        let connection = Connection::new::<A, U>(alloc, limits, &setting);
        Seat {
            number,
            connection,
            line,
            client,
            server,
            pause: CountingPause::new(),
        }
    }

    /// Takes a turn of the connection that sits here.
    pub(crate) fn turn<A: Application, U: Runner<A::Task, Exchange = X>>(
        &mut self,
        cause: Cause,
        state: &State,
        calls: &mut Calls<'_, A>,
        runner: &mut U,
    ) -> Step
        requires { (limits : Limits) × (one : Newcomer L)
            × IsAt A.Task.answers U.Pipes.Conn.ConnEnd U.Pipes.App.AppEnd U.conn U.began (A.answers calls.old.app.now) L.state
            limits state.now one self.old }
        ensures at { (limits : Limits) (one : Newcomer L)
            → IsAt A.Task.answers U.Pipes.Conn.ConnEnd U.Pipes.App.AppEnd U.conn U.began (A.answers calls.old.app.now) L.state
            limits state.now one self.old
            → IsAt A.Task.answers U.Pipes.Conn.ConnEnd U.Pipes.App.AppEnd U.conn U.began (A.answers calls.old.app.now) L.state
            limits state.now one self.new }
        ensures served { IfOver result (λ report. (limits : Limits) (one : Newcomer L)
            → IsAt A.Task.answers U.Pipes.Conn.ConnEnd U.Pipes.App.AppEnd U.conn U.began (A.answers calls.old.app.now) L.state
            limits state.now one self.old
            → Serves (A.answers calls.old.app.now) limits one.client one.server state.now (L.state one.line) (L.state self.new.line) 0 self.new.pause.count report) }
        ensures ended { IfOver result (λ report. IsReportOf self.new.connection report) }
        ensures moved { result ≡ Step.Moved → TakesOne self.old.connection self.new.connection }
        ensures idle { result ≡ Step.Idle → CountsIdle cause self.old self.new }
        ensures number { self.new.number ≡ self.old.number }
        ensures same { calls.new.app.now ≡ calls.old.app.now }
    {
        let setting = Setting {
            client: &self.client,
            server: &self.server,
            state,
        };
        let (line, pause) = (&mut self.line, &mut self.pause);
        match cause {
            Cause::Wake => self.connection.look(&setting, calls, line, runner, pause),
            Cause::Tick => self.connection.turn(&setting, calls, line, runner, pause),
        }
    }

    /// Swaps the buffer that the reads of its connection fill for this one.
    pub(crate) fn swap_piece(&mut self, piece: &mut Piece)
        ensures same { self.new ≡ self.old }
    {
        self.connection.swap_piece(piece);
    }

    /// What is left of a connection that has ended with this report.
    pub(crate) fn end(self, report: Report) -> Ended<L>
        requires { IsReportOf self.connection report }
        ensures number { result.number ≡ self.number }
        ensures report { result.report ≡ report }
        ensures pauses { result.pauses ≡ self.pause.count }
        ensures client { result.client ≡ self.client }
        ensures line { result.line ≡ self.line }
    {
        let Seat {
            number,
            connection,
            line,
            client,
            server: _,
            pause,
        } = self;
        connection.end();
        Ended {
            number,
            report,
            pauses: pause.paused(),
            client,
            line,
        }
    }
}
