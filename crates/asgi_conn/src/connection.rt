//! One connection from its first byte to its last, turn by turn.
ghost use Rattle.std.specs.Prelude.{◌≡◌, ◌≢◌, ◌+◌, ◌⊎◌, ℕ, List, length, Option, Some, None, IsTrue, IsFalse, IsNone, IfSome};
ghost use Rattle.asgi_types.specs.declared.limits.Limits.{Limits};
ghost use Rattle.asgi_conversation.specs.declared.report.Report.{Report};
ghost use Rattle.asgi_ws.specs.Lines.{LineState};
ghost use Rattle.asgi_halves.specs.Kinds.{ReadsNone};
ghost use Rattle.asgi_conn.specs.Serving.{Serves};
ghost use Rattle.asgi_conn.specs.Places as place;
ghost use Rattle.asgi_conn.specs.Places.{Place, place_of};
ghost use Rattle.asgi_conn.specs.Standing.{Stands, IsServing, GoesOn, IfOver, IsReportOf, TakesOne, TakesTurn, counts_as, step_of, exchanges_of};
ghost use Rattle.asgi_conn.specs.private.Loop.{IsDue, HasEnded, IsGoing};

use crate::setting::Setting;
use crate::tally::Tally;
use asgi_apps::{AppTask, Application, Calls};
use asgi_conversation::{Outcome, Report};
use asgi_halves::{HttpHalf, WebSocketHalf, Wire};
use asgi_io::{Pause, Turn, Turns};
use asgi_pipes::Pipes;
use asgi_run::Runner;
use asgi_types::{Limits, Peer, State};
use asgi_ws::Line;
use std::alloc::{AllocGlobal, Global};

/// What a turn of a connection did.
#[derive(Clone, Copy, Debug, PartialEq, Eq)]
pub enum Step {
    /// Something moved.
    Moved,
    /// Nothing moved, or only what an exchange that is cut short drops.
    Idle,
    /// The connection has ended, and this is its report.
    Over(Report),
}

/// One connection, between two of its turns; `X` is what its runner keeps of an exchange.
#[derive(Drop)]
pub struct Connection<X> {
    /// The half of requests. Its wire is the connection's between two of them, too.
    pub(crate) half: HttpHalf,
    /// The half of a session, once an opening handshake was read: in a place of its own, since most connections have none.
    pub(crate) session: Option<Box<WebSocketHalf>>,
    /// What runs of the exchange in hand.
    pub(crate) exchange: Option<X>,
    /// How the connection has ended.
    pub(crate) ended: Option<Outcome>,
    pub(crate) tally: Tally,
}

impl<X> Connection<X> {
    /// A connection before its first byte. Making it takes no memory.
    pub fn new<A: Application, U: Runner<A::Task, Exchange = X>>(
        alloc: Global,
        limits: &Limits,
        setting: &Setting<'_>,
    ) -> Self
        ensures stands { (app : A) (start : LineState) (before : ℕ)
            → Stands A.Task.answers U.Pipes.Conn.ConnEnd U.Pipes.App.AppEnd U.conn U.began (A.answers app)
            limits.now setting.now start before start before result }
        ensures none { exchanges_of result ≡ 0 }
    {
        Connection {
            half: HttpHalf::new(Wire::new(alloc, *limits)),
            session: None,
            exchange: None,
            ended: None,
            tally: Tally {
                exchanges: 0,
                faults: 0,
                turns: Turns::new(limits.turns, limits.idle_turns),
            },
        }
    }

    /// Takes one turn: reads once between two requests, or takes a turn of both halves of an exchange. What
    /// is to be done before that and takes no turn is done, too: an exchange that is over is ended, and the
    /// next one begun. If nothing moves, the pause is called. So it is while the exchange is cut short, as by a write
    /// that failed: what its task sends is dropped, and such turns lead to the limit of idle ones.
    ///
    /// Once the connection has ended, it gives its report, again at each later call.
    pub fn turn<A: Application, L: Line, U: Runner<A::Task, Exchange = X>, P: Pause>(
        &mut self,
        setting: &Setting<'_>,
        calls: &mut Calls<'_, A>,
        line: &mut L,
        runner: &mut U,
        pause: &mut P,
    ) -> Step
        requires { (limits : Limits) × (start : LineState) × (before : ℕ)
            × Stands A.Task.answers U.Pipes.Conn.ConnEnd U.Pipes.App.AppEnd U.conn U.began (A.answers calls.old.app.now)
            limits setting.now start before (L.state line.old) (P.count pause.old) self.old }
        ensures stands { (limits : Limits) (start : LineState) (before : ℕ)
            → Stands A.Task.answers U.Pipes.Conn.ConnEnd U.Pipes.App.AppEnd U.conn U.began (A.answers calls.old.app.now)
            limits setting.now start before (L.state line.old) (P.count pause.old) self.old
            → Stands A.Task.answers U.Pipes.Conn.ConnEnd U.Pipes.App.AppEnd U.conn U.began (A.answers calls.old.app.now)
            limits setting.now start before (L.state line.new) (P.count pause.new) self.new }
        ensures over { IfOver result (λ report. (limits : Limits) (start : LineState) (before : ℕ)
            → Stands A.Task.answers U.Pipes.Conn.ConnEnd U.Pipes.App.AppEnd U.conn U.began (A.answers calls.old.app.now)
            limits setting.now start before (L.state line.old) (P.count pause.old) self.old
            → Serves (A.answers calls.old.app.now) limits setting.now.client.now setting.now.server.now setting.now.state.now start (L.state line.new) before (P.count pause.new) report) }
        ensures ended { IfOver result (λ report. IsReportOf self.new report) }
        // A turn that goes on takes one of the limit, and is told as what it counts as. Nothing is read before it.
        ensures takes { GoesOn result → TakesOne self.old self.new }
        ensures took { GoesOn result → (turn : Turn) × (was : LineState) × (at : Place X) × ReadsNone (L.state line.old) was
            × TakesTurn U.takes was at turn (L.state line.new) (place_of self.new) × (result ≡ step_of (counts_as (place_of self.new) turn)) }
        // One that is told as idle is one more in a row.
        ensures row { result ≡ Step.Idle → self.new.tally.turns.idle ≡ self.old.tally.turns.idle + 1 }
        // Each exchange that is begun is one call of the application, and there is no other.
        ensures called { length calls.new.scopes.items + exchanges_of self.old ≡ length calls.old.scopes.items + exchanges_of self.new }
        ensures same { calls.new.app.now ≡ calls.old.app.now }
        // The report stays the same, and nothing is read, written or paused for any more.
        ensures again { (report : Report) → IsReportOf self.old report → (result ≡ Step.Over report) × (self.new ≡ self.old)
            × (L.state line.new ≡ L.state line.old) × (P.count pause.new ≡ P.count pause.old) }
    {
        if self.has_ended() {
            return Step::Over(self.report());
        }
        self.go_on(setting, calls, line, runner);
        match self.move_on::<A, L, U>(setting, line, runner) {
            None => Step::Over(self.report()),
            Some(turn) => {
                let counted = self.counts_as(turn);
                self.tally.turns.take(counted, pause);
                step_of(counted)
            }
        }
    }

    /// The report of a connection that has ended.
    pub(crate) fn report(&self) -> Report
        requires { HasEnded (place_of self.now) }
        ensures { IsReportOf self.now result }
    {
        let Some(outcome) = self.ended else {
            unreachable!()
        };
        Report {
            exchanges: self.tally.exchanges,
            faults: self.tally.faults,
            turns: self.tally.turns.turns,
            idle: self.tally.turns.idle,
            outcome,
        }
    }

    /// Gives up a connection that has ended: in no other place may it be dropped, unless what its runner keeps of
    /// an exchange may.
    pub fn end(self)
        requires { (report : Report) × IsReportOf self report }
    {
        match self.exchange {
            None => {}
            Some(_exchange) => unreachable!(),
        }
    }

    // ---- what takes no turn

    /// Goes to where a turn is due, or to the end.
    pub(crate) fn go_on<A: Application, L: Line, U: Runner<A::Task, Exchange = X>>(
        &mut self,
        setting: &Setting<'_>,
        calls: &mut Calls<'_, A>,
        line: &mut L,
        runner: &mut U,
    )
        requires { (limits : Limits) × (start : LineState) × (before pauses : ℕ)
            × Stands A.Task.answers U.Pipes.Conn.ConnEnd U.Pipes.App.AppEnd U.conn U.began (A.answers calls.old.app.now)
            limits setting.now start before (L.state line.old) pauses self.old }
        ensures stands { (limits : Limits) (start : LineState) (before pauses : ℕ)
            → Stands A.Task.answers U.Pipes.Conn.ConnEnd U.Pipes.App.AppEnd U.conn U.began (A.answers calls.old.app.now)
            limits setting.now start before (L.state line.old) pauses self.old
            → Stands A.Task.answers U.Pipes.Conn.ConnEnd U.Pipes.App.AppEnd U.conn U.began (A.answers calls.old.app.now)
            limits setting.now start before (L.state line.new) pauses self.new }
        ensures unread { ReadsNone (L.state line.old) (L.state line.new) }
        ensures due { IsDue (place_of self.new) self.new.tally.turns }
        ensures turns { self.new.tally.turns ≡ self.old.tally.turns }
        ensures called { length calls.new.scopes.items + exchanges_of self.old ≡ length calls.old.scopes.items + exchanges_of self.new }
        ensures same { calls.new.app.now ≡ calls.old.app.now }
    {
        self.finish::<A, U>(setting, runner);
        if !self.is_between() {
            return;
        }
        if self.needs_more() {
            return self.wait();
        }
        self.next(setting, calls, line, runner);
        self.finish::<A, U>(setting, runner);
    }

    // ---- a turn

    /// Takes the turn that is due, and returns what it did. None once the connection has ended, also for want
    /// of memory in this turn, which is not counted then.
    pub(crate) fn move_on<A: Application, L: Line, U: Runner<A::Task, Exchange = X>>(
        &mut self,
        setting: &Setting<'_>,
        line: &mut L,
        runner: &mut U,
    ) -> Option<Turn>
        requires due { IsDue (place_of self.old) self.old.tally.turns }
        requires stands { (app : A) × (limits : Limits) × (start : LineState)
            × IsServing A.Task.answers U.Pipes.Conn.ConnEnd U.Pipes.App.AppEnd U.conn U.began (A.answers app)
            limits setting.now start (L.state line.old) self.old.tally (place_of self.old) }
        ensures serves { (app : A) (limits : Limits) (start : LineState)
            → IsServing A.Task.answers U.Pipes.Conn.ConnEnd U.Pipes.App.AppEnd U.conn U.began (A.answers app)
            limits setting.now start (L.state line.old) self.old.tally (place_of self.old)
            → IsServing A.Task.answers U.Pipes.Conn.ConnEnd U.Pipes.App.AppEnd U.conn U.began (A.answers app)
            limits setting.now start (L.state line.new) self.new.tally (place_of self.new) }
        ensures tally { self.new.tally ≡ self.old.tally }
        ensures counts { exchanges_of self.new ≡ exchanges_of self.old }
        ensures took { IfSome result (λ turn. TakesTurn U.takes (L.state line.old) (place_of self.old) turn (L.state line.new) (place_of self.new)) }
        ensures some { IfSome result (λ turn. IsGoing (place_of self.old) × IsGoing (place_of self.new)) }
        ensures none { IsNone result → (place_of self.new ≡ place.Ended Outcome.NoMemory) ⊎ (HasEnded (place_of self.old) × (place_of self.new ≡ place_of self.old)) }
    {
        match &mut self.exchange {
            Some(exchange) => match &mut self.session {
                None => Some(runner.turn(exchange, &mut self.half, line)),
                Some(session) => Some(runner.turn(exchange, &mut **session, line)),
            },
            None => match self.ended {
                Some(_) => None,
                None => match self.half.wire.read(line) {
                    Ok(turn) => Some(turn),
                    Err(_) => {
                        self.end_with(Outcome::NoMemory);
                        None
                    }
                },
            },
        }
    }
}

/// What a turn that was counted did: the last one has moved something.
fn step_of(turn: Turn) -> Step
    ensures on { GoesOn result }
    ensures step { result ≡ step_of turn }
{
    match turn {
        Turn::Moved => Step::Moved,
        Turn::Idle => Step::Idle,
        Turn::Last => Step::Moved,
    }
}

/// Serves one connection to its end, request by request, and reports how it went (RFC 9112, section
/// 9.3). An opening handshake is its last request (RFC 6455, section 4.2).
///
/// Each scope has this client and server, and a state equal to this one. The runner runs each exchange;
/// if nothing moves in a turn, the pause is called. The caller closes the line.
pub fn serve_connection<H: AllocGlobal, A: Application, L: Line, U: Runner<A::Task>, P: Pause>(
    rt: &H,
    limits: &Limits,
    client: &Option<Peer>,
    server: &Option<Peer>,
    state: &State,
    app: &A,
    line: &mut L,
    runner: &mut U,
    pause: &mut P,
) -> Report
    ensures { Serves (A.answers app.now) limits.now client.now server.now state.now
        (L.state line.old) (L.state line.new) (P.count pause.old) (P.count pause.new) result }
{
    let mut calls = Calls::of(app);
    serve_calls(
        rt, limits, client, server, state, &mut calls, line, runner, pause,
    )
}

/// Serves one connection to its end, as `serve_connection` does. Each exchange that is reported is one call of the
/// application, and there is no other.
pub fn serve_calls<H: AllocGlobal, A: Application, L: Line, U: Runner<A::Task>, P: Pause>(
    rt: &H,
    limits: &Limits,
    client: &Option<Peer>,
    server: &Option<Peer>,
    state: &State,
    calls: &mut Calls<'_, A>,
    line: &mut L,
    runner: &mut U,
    pause: &mut P,
) -> Report
    ensures serves { Serves (A.answers calls.old.app.now) limits.now client.now server.now state.now
        (L.state line.old) (L.state line.new) (P.count pause.old) (P.count pause.new) result }
    ensures called { length calls.new.scopes.items ≡ length calls.old.scopes.items + result.exchanges }
    ensures same { calls.new.app.now ≡ calls.old.app.now }
{
    let setting = Setting {
        client,
        server,
        state,
    };
    let mut connection = Connection::new::<A, U>(rt.alloc(), limits, &setting);
    loop {
        match connection.turn(&setting, calls, line, runner, pause) {
            Step::Moved => {}
            Step::Idle => {}
            Step::Over(report) => {
                connection.end();
                return report;
            }
        }
    }
}
