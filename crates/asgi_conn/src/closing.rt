//! An exchange is ended, and its connection goes to the next request or ends.
ghost use Rattle.std.specs.Prelude.{◌≡◌, ◌+◌, ◌≤◌, ◌^◌, ◌⊎◌, ℕ, List, Option, None};
ghost use Rattle.asgi_types.specs.declared.limits.Limits.{Limits};
ghost use Rattle.asgi_conversation.specs.declared.following.NextStep.{NextStep};
ghost use Rattle.asgi_ws.specs.Lines.{LineState};
ghost use Rattle.asgi_conn.specs.Places as place;
ghost use Rattle.asgi_conn.specs.Places.{place_at, place_of};
ghost use Rattle.asgi_conn.specs.Standing.{Stands, IsServing, IsCounted, exchanges_of};
ghost use Rattle.asgi_conn.specs.private.Loop.{IsOver, IsNext, IsDue, IsDueOrBetween, IsBetween, HasEnded, next_step_of};

use crate::connection::Connection;
use crate::setting::Setting;
use crate::tally::Tally;
use asgi_apps::{AppTask, Application};
use asgi_conversation::{NextStep, Outcome};
use asgi_halves::{HttpHalf, Stage, WebSocketHalf};
use asgi_pipes::Pipes;
use asgi_run::Runner;

impl<X> Connection<X> {
    /// Ends an exchange that is over, or for which a limit on turns is reached: then it is given up.
    /// Inlined, since it is asked before each turn, and mostly has nothing to do.
    #[inline(always)]
    pub(crate) fn finish<A: Application, U: Runner<A::Task, Exchange = X>>(
        &mut self,
        setting: &Setting<'_>,
        runner: &mut U,
    )
        requires { (app : A) × (limits : Limits) × (start now : LineState) × (before pauses : ℕ) × Stands A.Task.answers U.Pipes.Conn.ConnEnd U.Pipes.App.AppEnd U.conn U.began (A.answers app)
            limits setting.now start before now pauses self.old }
        ensures stands { (app : A) (limits : Limits) (start now : LineState) (before pauses : ℕ)
            → Stands A.Task.answers U.Pipes.Conn.ConnEnd U.Pipes.App.AppEnd U.conn U.began (A.answers app)
            limits setting.now start before now pauses self.old
            → Stands A.Task.answers U.Pipes.Conn.ConnEnd U.Pipes.App.AppEnd U.conn U.began (A.answers app)
            limits setting.now start before now pauses self.new }
        ensures rests { IsDueOrBetween (place_of self.new) self.new.tally.turns }
        ensures due { IsNext (place_of self.old) self.old.tally.turns → IsDue (place_of self.new) self.new.tally.turns }
        ensures turns { self.new.tally.turns ≡ self.old.tally.turns }
        ensures counts { exchanges_of self.new ≡ exchanges_of self.old }
    {
        if self.goes_on() {
            return;
        }
        let Some(exchange) = self.exchange.take() else {
            unreachable!()
        };
        match &mut self.session {
            None => {
                self.ended = end_request::<A, X, U>(
                    &mut self.half,
                    exchange,
                    setting,
                    &mut self.tally,
                    runner,
                );
            }
            Some(session) => {
                self.ended = Some(end_session::<A, X, U>(
                    &mut **session,
                    exchange,
                    setting,
                    &mut self.tally,
                    runner,
                ));
            }
        }
    }
}

/// Ends the exchange of a request. Returns how the connection ends, or None if the next request may follow.
fn end_request<A: Application, X, U: Runner<A::Task, Exchange = X>>(
    half: &mut HttpHalf,
    exchange: X,
    setting: &Setting<'_>,
    tally: &mut Tally,
    runner: &mut U,
) -> Option<Outcome>
    requires room { tally.old.exchanges ≤ 2 ^ 48 }
    requires stands { (app : A) × (limits : Limits) × (start now : LineState) × IsServing A.Task.answers U.Pipes.Conn.ConnEnd U.Pipes.App.AppEnd U.conn U.began (A.answers app)
        limits setting.now start now tally.old (place.Http half.old exchange) }
    ensures serves { (app : A) (limits : Limits) (start now : LineState) → IsServing A.Task.answers U.Pipes.Conn.ConnEnd U.Pipes.App.AppEnd U.conn U.began (A.answers app)
        limits setting.now start now tally.old (place.Http half.old exchange)
        → IsServing A.Task.answers U.Pipes.Conn.ConnEnd U.Pipes.App.AppEnd U.conn U.began (A.answers app)
        limits setting.now start now tally.new (place_at None None result half.new) }
    ensures counts { (limits : Limits) (before pauses : ℕ) → IsCounted {X = X} limits before pauses (place.Http half.old exchange) tally.old
        → IsOver (place.Http half.old exchange) tally.old.turns → IsCounted {X = X} limits before pauses (place_at None None result half.new) tally.new }
    ensures one { tally.new.exchanges ≡ tally.old.exchanges + 1 }
    ensures turns { tally.new.turns ≡ tally.old.turns }
    // The next request follows only what was over so.
    ensures rests { IsBetween (place_at {X = X} None None result half.new) → half.old.stage ≡ Stage.Over NextStep.NextRequest }
    ensures left { (IsBetween (place_at {X = X} None None result half.new)) ⊎ (HasEnded (place_at {X = X} None None result half.new)) }
{
    let kind = runner.finish(exchange, half);
    tally.count(kind);
    ended_by(half.stage)
}

/// Ends the exchange of an opening handshake. Returns how the connection ends with it.
fn end_session<A: Application, X, U: Runner<A::Task, Exchange = X>>(
    half: &mut WebSocketHalf,
    exchange: X,
    setting: &Setting<'_>,
    tally: &mut Tally,
    runner: &mut U,
) -> Outcome
    requires room { tally.old.exchanges ≤ 2 ^ 48 }
    requires stands { (app : A) × (limits : Limits) × (start now : LineState) × IsServing A.Task.answers U.Pipes.Conn.ConnEnd U.Pipes.App.AppEnd U.conn U.began (A.answers app)
        limits setting.now start now tally.old (place.Session half.old exchange) }
    ensures serves { (app : A) (limits : Limits) (start now : LineState) → IsServing A.Task.answers U.Pipes.Conn.ConnEnd U.Pipes.App.AppEnd U.conn U.began (A.answers app)
        limits setting.now start now tally.old (place.Session half.old exchange)
        → IsServing A.Task.answers U.Pipes.Conn.ConnEnd U.Pipes.App.AppEnd U.conn U.began (A.answers app)
        limits setting.now start now tally.new (place.Ended result) }
    ensures counts { (limits : Limits) (before pauses : ℕ) → IsCounted {X = X} limits before pauses (place.Session half.old exchange) tally.old
        → IsOver (place.Session half.old exchange) tally.old.turns → IsCounted {X = X} limits before pauses (place.Ended result) tally.new }
    ensures one { tally.new.exchanges ≡ tally.old.exchanges + 1 }
    ensures turns { tally.new.turns ≡ tally.old.turns }
{
    let ended = runner.finish(exchange, half);
    tally.count(ended);
    outcome_of(half.stage)
}

/// How an exchange that is over ends its connection, if it does.
fn ended_by(stage: Stage) -> Option<Outcome>
    requires { (following : NextStep) × (stage ≡ Stage.Over following) }
    ensures { stage ≡ Stage.Over (next_step_of result) }
{
    match stage {
        Stage::Over(NextStep::NextRequest) => None,
        Stage::Over(NextStep::ConnectionEnds(outcome)) => Some(outcome),
        Stage::Running => unreachable!(),
        Stage::Ending(_) => unreachable!(),
        Stage::Cut(_) => unreachable!(),
    }
}

/// How a session that is over ends its connection.
fn outcome_of(stage: Stage) -> Outcome
    requires { (outcome : Outcome) × (stage ≡ Stage.Over (NextStep.ConnectionEnds outcome)) }
    ensures { stage ≡ Stage.Over (NextStep.ConnectionEnds result) }
{
    match stage {
        Stage::Over(NextStep::ConnectionEnds(outcome)) => outcome,
        _ => unreachable!(),
    }
}
