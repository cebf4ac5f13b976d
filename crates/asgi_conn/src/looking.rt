//! A turn that is counted only if something moved.
ghost use Rattle.std.specs.Prelude.{◌≡◌, ◌+◌, ◌⊎◌, ℕ, length};
ghost use Rattle.asgi_types.specs.declared.limits.Limits.{Limits};
ghost use Rattle.asgi_conversation.specs.declared.report.Report.{Report};
ghost use Rattle.asgi_io.specs.declared.turns.Turn.{Turn};
ghost use Rattle.asgi_ws.specs.Lines.{LineState};
ghost use Rattle.asgi_halves.specs.Kinds.{ReadsNone};
ghost use Rattle.asgi_conn.specs.Serving.{Serves};
ghost use Rattle.asgi_conn.specs.Places.{Place, place_of};
ghost use Rattle.asgi_conn.specs.Standing.{Stands, GoesOn, IfOver, IsReportOf, IsToEnd, StandsAt, TakesOne, TakesTurn, counts_as, step_of, exchanges_of};
ghost use Rattle.asgi_conn.specs.private.Loop.{IsGoing, IsOpen};

use crate::connection::{Connection, Step};
use crate::setting::Setting;
use asgi_apps::{AppTask, Application, Calls};
use asgi_halves::Piece;
use asgi_io::{Pause, Turn};
use asgi_pipes::Pipes;
use asgi_run::Runner;
use asgi_ws::Line;
use std::mem;

/// Where a connection stands between two turns.
#[derive(Clone, Copy, Debug, PartialEq, Eq)]
pub enum Standing {
    /// Between two requests, or before the first one.
    Between,
    /// In the exchange of a request.
    InRequest,
    /// In that of an opening handshake, and in the session after it.
    InSession,
    /// It has ended.
    Ended,
}

/// Where a connection stands, and how many exchanges have ended in it.
#[derive(Clone, Copy, Debug, PartialEq, Eq)]
pub struct Rest {
    pub standing: Standing,
    pub exchanges: u64,
}

/// What was seen of a turn.
pub(crate) enum Seen {
    /// Nothing moved, and no exchange is to be ended.
    Nothing,
    /// Something moved, or will.
    Something,
}

impl<X> Connection<X> {
    /// Takes a turn as `turn` does, for a wake-up that may have brought nothing: a turn that is idle is not counted, and
    /// the pause is not called.
    pub fn look<A: Application, L: Line, U: Runner<A::Task, Exchange = X>, P: Pause>(
        &mut self,
        setting: &Setting<'_>,
        calls: &mut Calls<'_, A>,
        line: &mut L,
        runner: &mut U,
        pause: &mut P,
    ) -> Step
        requires { (limits : Limits) × (start : LineState) × (before : ℕ)
            × Stands A.Task.answers U.Pipes.Conn.ConnEnd U.Pipes.App.AppEnd U.conn U.began (A.answers calls.old.app.now)
            limits setting.now start before (L.state line.old) (P.count pause.old) self.old }
        ensures stands { (limits : Limits) (start : LineState) (before : ℕ)
            → Stands A.Task.answers U.Pipes.Conn.ConnEnd U.Pipes.App.AppEnd U.conn U.began (A.answers calls.old.app.now)
            limits setting.now start before (L.state line.old) (P.count pause.old) self.old
            → Stands A.Task.answers U.Pipes.Conn.ConnEnd U.Pipes.App.AppEnd U.conn U.began (A.answers calls.old.app.now)
            limits setting.now start before (L.state line.new) (P.count pause.new) self.new }
        ensures over { IfOver result (λ report. (limits : Limits) (start : LineState) (before : ℕ)
            → Stands A.Task.answers U.Pipes.Conn.ConnEnd U.Pipes.App.AppEnd U.conn U.began (A.answers calls.old.app.now)
            limits setting.now start before (L.state line.old) (P.count pause.old) self.old
            → Serves (A.answers calls.old.app.now) limits setting.now.client.now setting.now.server.now setting.now.state.now start (L.state line.new) before (P.count pause.new) report) }
        ensures ended { IfOver result (λ report. IsReportOf self.new report) }
        // A turn that moved something takes one of the limit, and one that did not takes none.
        ensures takes { result ≡ Step.Moved → TakesOne self.old self.new }
        ensures rests { result ≡ Step.Idle → (self.new.tally.turns ≡ self.old.tally.turns) × (P.count pause.new ≡ P.count pause.old) }
        // One turn was taken all the same, and it is told as what it counts as. Only an exchange that is over is told as moved, whatever its turn was.
        ensures took { GoesOn result → (turn : Turn) × (was : LineState) × (at : Place X) × ReadsNone (L.state line.old) was
            × TakesTurn U.takes was at turn (L.state line.new) (place_of self.new)
            × ((result ≡ step_of (counts_as (place_of self.new) turn)) ⊎ ((result ≡ Step.Moved) × IsToEnd (place_of self.new))) }
        // Each exchange that is begun is one call of the application, and there is no other.
        ensures called { length calls.new.scopes.items + exchanges_of self.old ≡ length calls.old.scopes.items + exchanges_of self.new }
        ensures same { calls.new.app.now ≡ calls.old.app.now }
        // The report stays the same, and nothing is read, written or paused for any more.
        ensures again { (report : Report) → IsReportOf self.old report → (result ≡ Step.Over report) × (self.new ≡ self.old)
            × (L.state line.new ≡ L.state line.old) × (P.count pause.new ≡ P.count pause.old) }
    {
        if self.has_ended() {
            return Step::Over(self.report());
        }
        self.go_on(setting, calls, line, runner);
        match self.move_on::<A, L, U>(setting, line, runner) {
            None => Step::Over(self.report()),
            Some(turn) => {
                let counted = self.counts_as(turn);
                match self.seen(counted) {
                    Seen::Nothing => Step::Idle,
                    Seen::Something => {
                        self.tally.turns.take(counted, pause);
                        Step::Moved
                    }
                }
            }
        }
    }

    /// Swaps the buffer that its reads fill for this one. What is in a buffer means nothing between two reads, so connections that
    /// take their turns one after another need one among them.
    pub fn swap_piece(&mut self, piece: &mut Piece)
        ensures same { self.new ≡ self.old }
    {
        match &mut self.session {
            None => mem::swap(&mut self.half.wire.piece, piece),
            Some(session) => mem::swap(&mut session.wire.piece, piece),
        }
    }

    /// Where it stands between two turns, and how many exchanges it has had.
    pub fn rest(&self) -> Rest
        ensures standing { StandsAt result.standing (place_of self.now) }
        ensures exchanges { result.exchanges ≡ self.now.tally.exchanges }
    {
        Rest {
            standing: self.standing(),
            exchanges: self.tally.exchanges,
        }
    }

    fn standing(&self) -> Standing
        ensures { StandsAt result (place_of self.now) }
    {
        match &self.exchange {
            Some(_) => match &self.session {
                None => Standing::InRequest,
                Some(_) => Standing::InSession,
            },
            None => match &self.ended {
                None => Standing::Between,
                Some(_) => Standing::Ended,
            },
        }
    }

    /// Whether this turn is to be counted.
    fn seen(&self, turn: Turn) -> Seen
        requires { IsGoing (place_of self.now) }
        ensures nothing { result ≡ Seen.Nothing → (turn ≡ Turn.Idle) × IsOpen (place_of self.now) }
        ensures something { result ≡ Seen.Something → (step_of turn ≡ Step.Moved) ⊎ IsToEnd (place_of self.now) }
    {
        match turn {
            Turn::Moved => Seen::Something,
            Turn::Last => Seen::Something,
            Turn::Idle => {
                if self.is_to_end() {
                    Seen::Something
                } else {
                    Seen::Nothing
                }
            }
        }
    }
}
