//! An exchange begins: its ends are made, the application is called, and the half takes the wire.
ghost use Rattle.std.specs.Prelude.{◌≡◌, ◌≢◌, ◌++◌, ◌∷◌, ℕ, [], List, Option, Some, None, IfNone, IfSome};
ghost use Rattle.asgi_types.specs.declared.facts.Facts.{Facts};
ghost use Rattle.asgi_types.specs.declared.scope.Kind.TheVariants.{Http, WebSocket};
ghost use Rattle.asgi_types.specs.declared.scope.Scope.{Scope};
ghost use Rattle.asgi_apps.specs.Scopes.{kind_of};
ghost use Rattle.asgi_conversation.specs.OutcomeClasses.{IsLacking};
ghost use Rattle.asgi_halves.specs.Half.{Scene, Opens};
ghost use Rattle.asgi_halves.specs.WebSocketHalf.{SessionScene, OpensHandshake};
ghost use Rattle.asgi_halves.specs.Kinds.{ReadsNone};
ghost use Rattle.asgi_run.specs.Running.{MayRun, IsOpened};
ghost use Rattle.asgi_conn.specs.Places.{place_of};
ghost use Rattle.asgi_conn.specs.declared.setting.Setting.{Setting};
ghost use Rattle.asgi_conn.specs.Standing.{ArePromisedIn, IsServing, IsTallied, scope_in};
ghost use Rattle.asgi_conn.specs.private.Loop.{CallsWith, HasBegun, IsFree, IsNext};
ghost use Rattle.asgi_conn.specs.declared.tally.Tally.{Tally};

use crate::connection::Connection;
use crate::place::{boxed, leave_session, put};
use crate::tally::Tally;
use asgi_apps::{AppTask, Application, Calls, Running};
use asgi_conversation::Outcome;
use asgi_halves::{WebSocketHalf, Wire};
use asgi_pipes::{AppEnd, EndKind, Pipes};
use asgi_response::ResponseText;
use asgi_run::{AppSide, NoEnds, Runner};
use asgi_types::{Facts, Framing, Kind, Scope};
use asgi_ws::Line;
use std::alloc::Global;
use std::mem;

impl<X> Connection<X> {
    /// Begins the exchange of a request.
    pub(crate) fn answer<A: Application, L: Line, U: Runner<A::Task, Exchange = X>>(
        &mut self,
        scope: Scope,
        facts: Facts,
        calls: &mut Calls<'_, A>,
        line: &mut L,
        runner: &mut U,
    )
        requires free { IsFree (place_of self.old) }
        requires http { kind_of scope ≡ Http }
        requires plain { facts.framing ≢ Framing.Upgrade }
        ensures serves { (scene : Scene) (setting : Setting) (read arrived : List ℕ) (tally : Tally)
            → scope ≡ scope_in setting scene.scope → Opens scene (L.state line.old) self.old.half.wire facts read arrived
            → ArePromisedIn (A.answers calls.old.app.now) setting scene.exchanges → IsTallied tally scene.exchanges
            → IsServing A.Task.answers U.Pipes.Conn.ConnEnd U.Pipes.App.AppEnd U.conn U.began
            (A.answers calls.old.app.now) self.old.half.wire.limits setting scene.start (L.state line.new) tally (place_of self.new) }
        ensures unread { ReadsNone (L.state line.old) (L.state line.new) }
        ensures next { IsNext (place_of self.new) self.old.tally.turns }
        ensures tally { self.new.tally ≡ self.old.tally }
        ensures called { CallsWith scope (place_of self.new) calls.old.scopes.items calls.new.scopes.items }
        ensures same { calls.new.app.now ≡ calls.old.app.now }
    {
        let wire = &self.half.wire;
        let text = ResponseText::new(wire.alloc, &facts);
        match begin(
            &mut self.exchange,
            wire,
            Kind::Http,
            scope,
            facts,
            calls,
            &self.tally,
            runner,
        ) {
            Some(outcome) => self.end_with(outcome),
            None => {
                leave_session(&mut self.session);
                self.half.begin(text, line);
            }
        }
    }

    /// Begins the exchange of an opening handshake; the connection ends with it.
    pub(crate) fn open<A: Application, L: Line, U: Runner<A::Task, Exchange = X>>(
        &mut self,
        scope: Scope,
        facts: Facts,
        calls: &mut Calls<'_, A>,
        line: &mut L,
        runner: &mut U,
    )
        requires free { IsFree (place_of self.old) }
        requires websocket { kind_of scope ≡ WebSocket }
        requires upgrade { facts.framing ≡ Framing.Upgrade }
        ensures serves { (scene : SessionScene) (setting : Setting) (read : List ℕ) (tally : Tally)
            → scope ≡ scope_in setting scene.scope → OpensHandshake scene (L.state line.old) self.old.half.wire facts read
            → ArePromisedIn (A.answers calls.old.app.now) setting scene.exchanges → IsTallied tally scene.exchanges
            → IsServing A.Task.answers U.Pipes.Conn.ConnEnd U.Pipes.App.AppEnd U.conn U.began
            (A.answers calls.old.app.now) scene.limits setting scene.start (L.state line.new) tally (place_of self.new) }
        ensures unread { ReadsNone (L.state line.old) (L.state line.new) }
        ensures next { IsNext (place_of self.new) self.old.tally.turns }
        ensures tally { self.new.tally ≡ self.old.tally }
        ensures called { CallsWith scope (place_of self.new) calls.old.scopes.items calls.new.scopes.items }
        ensures same { calls.new.app.now ≡ calls.old.app.now }
    {
        let Ok(frames) = self.half.wire.take_frames() else {
            return self.end_with(Outcome::NoMemory);
        };
        let Ok(own) = facts.copy(self.half.wire.alloc) else {
            return self.end_with(Outcome::NoMemory);
        };
        let text = ResponseText::new(self.half.wire.alloc, &own);
        let fresh = Wire::new(self.half.wire.alloc, self.half.wire.limits);
        let wire = mem::replace(&mut self.half.wire, fresh);
        let half = WebSocketHalf::begin(wire, own, text, frames);
        let Some(session) = boxed(self.half.wire.alloc, half) else {
            return self.end_with(Outcome::NoMemory);
        };
        match begin(
            &mut self.exchange,
            &self.half.wire,
            Kind::WebSocket,
            scope,
            facts,
            calls,
            &self.tally,
            runner,
        ) {
            Some(outcome) => self.end_with(outcome),
            None => self.session = Some(session),
        }
    }
}

/// Makes the ends of an exchange, calls the application over one of them, and begins it, in this place. If memory
/// or a thread is refused, the application is not called, and the connection ends as is returned.
fn begin<A: Application, X, U: Runner<A::Task, Exchange = X>>(
    place: &mut Option<X>,
    wire: &Wire,
    kind: Kind,
    scope: Scope,
    facts: Facts,
    calls: &mut Calls<'_, A>,
    tally: &Tally,
    runner: &mut U,
) -> Option<Outcome>
    requires empty { place.old ≡ None }
    requires kind { kind_of scope ≡ kind }
    ensures lacking { IfSome result (λ outcome. IsLacking outcome × (place.new ≡ None)) }
    ensures begun { IfNone result ((exchange : X) × (place.new ≡ Some exchange)
        × HasBegun A.Task.answers U.Pipes.Conn.ConnEnd U.Pipes.App.AppEnd U.conn U.began (A.answers calls.old.app.now scope) kind facts exchange) }
    ensures called { IfNone result (calls.new.scopes.items ≡ calls.old.scopes.items ++ scope ∷ []) }
    ensures uncalled { IfSome result (λ outcome. calls.new.scopes.items ≡ calls.old.scopes.items) }
    ensures same { calls.new.app.now ≡ calls.old.app.now }
{
    let (end, app_end) = match runner.make(wire.alloc, kind, facts, wire.limits.ring) {
        Err(why) => return Some(without_ends(why)),
        Ok(ends) => ends,
    };
    let side = call(wire.alloc, calls, scope, app_end);
    put(place, runner.begin(end, side, &tally.turns));
    None
}

/// How a connection ends if its next exchange got no ends.
fn without_ends(why: NoEnds) -> Outcome
    ensures lacking { IsLacking result }
    ensures reason { (why ≡ NoEnds.NoMemory → result ≡ Outcome.NoMemory) × (why ≡ NoEnds.NoThread → result ≡ Outcome.NoThread) }
{
    match why {
        NoEnds::NoMemory => Outcome::NoMemory,
        NoEnds::NoThread => Outcome::NoThread,
    }
}

/// Calls the application. If the call faults, that is the end of its task.
fn call<A: Application, E: AppEnd>(
    alloc: Global,
    calls: &mut Calls<'_, A>,
    scope: Scope,
    app_end: E,
) -> AppSide<A::Task, E>
    requires fresh { (E.heard app_end ≡ []) × (E.said app_end ≡ []) × (E.ended app_end ≡ None) }
    requires kind { E.kind app_end ≡ kind_of scope }
    ensures may { MayRun A.Task.stands E.AppEnd result }
    ensures opens { IsOpened (A.answers calls.old.app.now scope) A.Task.answers E.AppEnd app_end result }
    ensures once { calls.new.scopes.items ≡ calls.old.scopes.items ++ scope ∷ [] }
    ensures same { calls.new.app.now ≡ calls.old.app.now }
{
    match calls.call(alloc, scope) {
        Ok(task) => AppSide::Runs(Running::new(task, app_end)),
        Err(_) => {
            let mut app_end = app_end;
            let _first = app_end.finish(EndKind::Faulted);
            AppSide::HasEnded {
                app_end,
                kind: EndKind::Faulted,
            }
        }
    }
}
