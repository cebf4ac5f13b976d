//! Both halves of an exchange in one thread, turn by turn.
ghost use Rattle.std.specs.Prelude.{◌≡◌, ◌≢◌, ◌<◌, ◌⊎◌, ◌↔◌, ℕ, Bool, List, Some, IsSome, IsTrue, IsFalse, ⊤};
ghost use Rattle.asgi_io.specs.declared.turns.Turn.{Turn};
ghost use Rattle.asgi_pipes.specs.PlainPairs.{IsPlainPair};
ghost use Rattle.asgi_pipes.specs.declared.plain_app.PlainApp.{PlainApp};
ghost use Rattle.asgi_apps.specs.Ends.{MayGoOn, IsWithin};
ghost use Rattle.asgi_exchange.specs.Calls.{IsViewOf, IsExchangeOf};
ghost use Rattle.asgi_exchange.specs.Views.{ConnView};
ghost use Rattle.asgi_conversation.specs.declared.following.NextStep.TheVariants.{NextRequest};
ghost use Rattle.asgi_ws.specs.Lines.{LineState};
ghost use Rattle.asgi_apps.specs.declared.running.Lent.{Lent};
ghost use Rattle.asgi_apps.specs.declared.running.Running.{Running};
ghost use Rattle.asgi_run.specs.declared.runner.AppSide.{AppSide};
ghost use Rattle.asgi_run.specs.declared.runner.NoEnds.TheVariants.{NoMemory};
ghost use Rattle.asgi_run.specs.AnyHalf.{PreservesOn};
ghost use Rattle.asgi_run.specs.Running.{OfEnd, MayRun, HasRun, Drives, HasCome, HasPassed, HasMoved, IsOfRequest, IsPolled, IsPolledSo, IsNotPolled, EndsIn, GoesOnAs, HasRested, IsTurnWith, TagStays};

use crate::exchange_half::Half;
use crate::runner::{AppSide, NoEnds, Runner};
use asgi_apps::{AppTask, Lent, Running};
use asgi_exchange::join;
use asgi_io::{Turn, Turns};
use asgi_pipes::{AppEnd, ConnEnd, EndKind, Pipes, Plain, PlainApp, PlainConn};
use asgi_types::{Facts, Kind};
use asgi_ws::Line;
use futures::task::{Context, Poll};
use std::alloc::Global;

/// Runs both halves in the caller's thread, turn by turn. In a turn the connection's half takes one. Then
/// the task is polled with this context for as long as each poll moves something, at most as often as the
/// ring has places.
pub struct Inline<'q> {
    cx: Context<'q>,
    /// The ends of the last exchange: the next one may reuse their places.
    spare: Option<(PlainConn, PlainApp)>,
}

impl<'q> Inline<'q> {
    /// A runner that polls tasks with this context. Making it takes no memory.
    pub fn new(cx: Context<'q>) -> Self {
        Inline { cx, spare: None }
    }

    /// Ends the task of the context: no exchange is run any more.
    pub fn end(self) {
        let Inline { cx, spare: _ } = self;
        cx.cancel();
    }
}

/// An exchange whose two halves run in this thread.
#[derive(Drop)]
pub struct InlineExchange<T> {
    conn: PlainConn,
    side: AppSide<T, PlainApp>,
    /// The task moved something in the turn before.
    app_goes_on: bool,
}

impl<'q, T: AppTask> Runner<T> for Inline<'q> {
    type Pipes = Plain;

    type Exchange = InlineExchange<T>;

    ghost not_met = { λ _. 0 };

    ghost pauses = { λ _. 0 };

    ghost driven = { λ _. 0 };

    ghost is_ready = { λ _. ⊤ };

    // It needs no thread.
    ghost refuses = { λ _ why. why ≡ NoMemory };

    ghost takes = { λ _ _ _. ⊤ };

    ghost conn = { λ x. x.conn };

    ghost began = { λ x side. HasCome IsPlainPair T.stands T.answers ⟦<PlainApp as AppEnd>⟧ x.conn side x.side };

    // It drives no task by itself.
    ghost limited = { λ _ _ _ paused turned. (paused ≡ 0) × (turned ≡ 0) };

    fn make(
        &mut self,
        alloc: Global,
        kind: Kind,
        facts: Facts,
        ring: usize,
    ) -> Result<(PlainConn, PlainApp), NoEnds> {
        let Some((conn, app)) = self.spare.take() else {
            return Ok(Plain.make(alloc, kind, facts, ring)?);
        };
        Ok(Plain.renew(alloc, conn, app, kind, facts, ring)?)
    }

    fn begin(
        &mut self,
        end: PlainConn,
        side: AppSide<T, PlainApp>,
        _turns: &Turns,
    ) -> InlineExchange<T>
        requires ready { ⊤ }
        requires pair { OfEnd side (λ app. IsPlainPair end app) }
        requires may { MayRun T.stands ⟦<PlainApp as AppEnd>⟧ side }
        ensures conn { result.conn ≡ end }
        ensures began { HasCome IsPlainPair T.stands T.answers ⟦<PlainApp as AppEnd>⟧ result.conn side result.side }
        ensures limits { (◌≡◌ {A = ℕ} 0 0) × (◌≡◌ {A = ℕ} 0 0) }
        ensures met { ◌≡◌ {A = ℕ} 0 0 }
    {
        InlineExchange {
            conn: end,
            side,
            app_goes_on: true,
        }
    }

    fn turn<H: Half, L: Line>(
        &mut self,
        exchange: &mut InlineExchange<T>,
        half: &mut H,
        line: &mut L,
    ) -> Turn
        requires began { (side : AppSide T PlainApp) × HasCome IsPlainPair T.stands T.answers ⟦<PlainApp as AppEnd>⟧ exchange.old.conn side exchange.old.side }
        ensures leads { PreservesOn H.stands (L.state line.old) half.old (IsViewOf ⟦<PlainConn as ConnEnd>⟧ exchange.old.conn)
            (L.state line.new) half.new (IsViewOf ⟦<PlainConn as ConnEnd>⟧ exchange.new.conn) }
        ensures began { (side : AppSide T PlainApp) → HasCome IsPlainPair T.stands T.answers ⟦<PlainApp as AppEnd>⟧ exchange.old.conn side exchange.old.side
            → HasCome IsPlainPair T.stands T.answers ⟦<PlainApp as AppEnd>⟧ exchange.new.conn side exchange.new.side }
        ensures limits { (turn_limit idle_limit paused turned : ℕ) → (paused ≡ 0) × (turned ≡ 0) → (paused ≡ 0) × (turned ≡ 0) }
        ensures taken { ⊤ }
        ensures half { (goes_on : Bool) × (moved : Turn) × H.takes (L.state line.old) half.old goes_on moved (L.state line.new) half.new × IsTurnWith moved result }
        // The half is told whether the task moved something in the turn before, and it is kept whether it did in this one.
        ensures told { (moved : Turn) × H.takes (L.state line.old) half.old exchange.old.app_goes_on moved (L.state line.new) half.new × IsTurnWith moved result }
        ensures goes_on { IsTrue exchange.new.app_goes_on → IsPolledSo (HasMoved ⟦<PlainApp as AppEnd>⟧) exchange.old.side exchange.new.side }
        ensures rests { IsFalse exchange.new.app_goes_on → (scene : H.Scene) (read : List ℕ) (view : ConnView H.In H.Out) → H.stands scene (L.state line.old) half.old read view
            → IsViewOf ⟦<PlainConn as ConnEnd>⟧ exchange.old.conn view → 0 < (H.exchange scene).ring → IsPolledSo (HasRested ⟦<PlainApp as AppEnd>⟧) exchange.old.side exchange.new.side }
        ensures over { IsSome (H.following half.old) → half.new ≡ half.old }
        ensures met { ◌≡◌ {A = ℕ} 0 0 }
        // A turn in which the task ended has moved something.
        ensures ends { EndsIn exchange.old.side exchange.new.side → result ≡ Turn.Moved }
        // If the queues of the exchange have places, a task that runs is polled.
        ensures polls { (scene : H.Scene) (read : List ℕ) (view : ConnView H.In H.Out) → H.stands scene (L.state line.old) half.old read view
            → IsViewOf ⟦<PlainConn as ConnEnd>⟧ exchange.old.conn view → 0 < (H.exchange scene).ring → IsPolled exchange.old.side exchange.new.side }
    {
        let moved = half.turn(line, &mut exchange.conn, exchange.app_goes_on);
        carry(&mut exchange.conn, &mut exchange.side);
        let polled = poll_on(&mut self.cx, &mut exchange.side, half.ring());
        carry(&mut exchange.conn, &mut exchange.side);
        exchange.app_goes_on = polled == Turn::Moved;
        both(moved, polled)
    }

    fn finish<H: Half>(&mut self, exchange: InlineExchange<T>, half: &mut H) -> EndKind
        requires began { (side : AppSide T PlainApp) × HasCome IsPlainPair T.stands T.answers ⟦<PlainApp as AppEnd>⟧ exchange.conn side exchange.side }
        ensures runs { (side : AppSide T PlainApp) (scene : H.Scene) (now : LineState) (read : List ℕ) (view : ConnView H.In H.Out)
            → HasCome IsPlainPair T.stands T.answers ⟦<PlainApp as AppEnd>⟧ exchange.conn side exchange.side → H.stands scene now half.old read view
            → IsViewOf ⟦<PlainConn as ConnEnd>⟧ exchange.conn view → OfEnd side (λ app. IsExchangeOf ⟦<PlainApp as AppEnd>⟧ app (H.exchange scene))
            → HasRun H.Half T.answers ⟦<PlainApp as AppEnd>⟧ scene now half.new read side result }
        ensures over { IsSome (H.following half.new) }
        ensures stays { IsSome (H.following half.old) → half.new ≡ half.old }
        ensures follows { H.following half.new ≡ Some NextRequest → H.following half.old ≡ Some NextRequest }
        ensures drives { (turn_limit idle_limit paused turned : ℕ) → (paused ≡ 0) × (turned ≡ 0) → Drives turn_limit idle_limit paused 0 turned 0 result }
        ensures ready { ⊤ }
        ensures met { ◌≡◌ {A = ℕ} 0 0 }
    {
        let InlineExchange {
            mut conn,
            side,
            app_goes_on: _,
        } = exchange;
        half.abandon(&mut conn);
        let mut last = end_of(side);
        let _met = join::<Plain>(&mut conn, &mut last.app_end);
        self.spare = Some((conn, last.app_end));
        last.kind
    }

    fn unmet(&self) -> u64 {
        0
    }

    fn paused(&self) -> u64 {
        0
    }

    fn turned(&self) -> u64 {
        0
    }
}

/// What both halves did in a turn: idle if neither moved anything.
fn both(half: Turn, app: Turn) -> Turn
    ensures idle { result ≡ Turn.Idle ↔ (half ≡ Turn.Idle) × (app ≢ Turn.Moved) }
    ensures with { IsTurnWith half result }
    ensures moved { result ≡ Turn.Moved ↔ (half ≡ Turn.Moved) ⊎ (app ≡ Turn.Moved) }
{
    if app == Turn::Moved {
        return Turn::Moved;
    }
    half
}

/// Carries what was put at each end to the other one.
fn carry<T: AppTask>(conn: &mut PlainConn, side: &mut AppSide<T, PlainApp>)
    requires pair { OfEnd side.old (λ app. IsPlainPair conn.old app) }
    requires may { MayRun T.stands ⟦<PlainApp as AppEnd>⟧ side.old }
    ensures pair { OfEnd side.new (λ app. IsPlainPair conn.new app) }
    ensures conn { let End = ⟦<PlainConn as ConnEnd>⟧ in (End.offered conn.new ≡ End.offered conn.old)
        × (End.got conn.new ≡ End.got conn.old)
        × (End.is_broken conn.new ≡ End.is_broken conn.old) }
    ensures side { GoesOnAs T.stands T.answers ⟦<PlainApp as AppEnd>⟧ side.old side.new }
    ensures passed { OfEnd side.new (λ app. HasPassed ⟦<PlainConn as ConnEnd>⟧ ⟦<PlainApp as AppEnd>⟧ conn.new app) }
    ensures task { IsNotPolled side.old side.new }
{
    match side {
        AppSide::HasEnded { app_end, kind: _ } => Plain::carry(conn, app_end),
        AppSide::Runs(
            Running {
                lent: Some(lent),
                turns: _,
            },
        ) => Plain::carry(conn, &mut lent.app_end),
        AppSide::Runs(
            Running {
                lent: None,
                turns: _,
            },
        ) => unreachable!(),
    }
}

/// Polls the task while each poll moves something, at most `most` times.
fn poll_on<T: AppTask, E: AppEnd>(
    cx: &mut Context<'_>,
    side: &mut AppSide<T, E>,
    most: usize,
) -> Turn
    requires { MayRun T.stands E.AppEnd side.old }
    ensures side { GoesOnAs T.stands T.answers E.AppEnd side.old side.new }
    ensures tag { TagStays E.AppEnd side.old side.new }
    ensures ends { EndsIn side.old side.new → result ≡ Turn.Moved }
    ensures moved { result ≡ Turn.Moved → HasMoved E.AppEnd side.old side.new }
    ensures idle { result ≢ Turn.Moved → 0 < most → HasRested E.AppEnd side.old side.new }
    ensures polls { 0 < most → IsPolled side.old side.new }
{
    if most == 0 {
        return Turn::Idle;
    }
    if poll(cx, side) != Turn::Moved {
        return Turn::Idle;
    }
    for _poll in 1..most {
        if poll(cx, side) != Turn::Moved {
            return Turn::Moved;
        }
    }
    Turn::Moved
}

/// Polls the task once, if it still runs. A poll that ends it has moved something.
fn poll<T: AppTask, E: AppEnd>(cx: &mut Context<'_>, side: &mut AppSide<T, E>) -> Turn
    requires { MayRun T.stands E.AppEnd side.old }
    ensures side { GoesOnAs T.stands T.answers E.AppEnd side.old side.new }
    ensures tag { TagStays E.AppEnd side.old side.new }
    ensures ends { EndsIn side.old side.new → result ≡ Turn.Moved }
    ensures moved { result ≡ Turn.Moved → HasMoved E.AppEnd side.old side.new }
    ensures idle { result ≢ Turn.Moved → HasRested E.AppEnd side.old side.new }
    ensures polls { IsPolled side.old side.new }
{
    let AppSide::Runs(running) = side else {
        return Turn::Idle;
    };
    match running.turn(cx) {
        Poll::Pending => running.moved(),
        Poll::Ready(kind) => {
            leave(side, kind);
            Turn::Moved
        }
    }
}

/// Puts how a task has ended in the place of the task. It is out of line, so that a poll which ends nothing makes no room for it.
#[inline(never)]
fn leave<T: AppTask, E: AppEnd>(side: &mut AppSide<T, E>, kind: EndKind)
    requires { (running : Running T E) × (side.old ≡ AppSide.Runs running) × IsSome running.lent }
    ensures { (running : Running T E) (lent : Lent T E) → side.old ≡ AppSide.Runs running → running.lent ≡ Some lent
        → side.new ≡ AppSide.HasEnded lent.app_end kind }
{
    let AppSide::Runs(running) = side else {
        unreachable!()
    };
    let Some(lent) = running.lent.take() else {
        unreachable!()
    };
    *side = AppSide::HasEnded {
        app_end: lent.app_end,
        kind,
    };
}

/// The application's end after the exchange, and how its task ended.
#[derive(Drop)]
struct Last<E> {
    app_end: E,
    kind: EndKind,
}

/// Ends a task that still runs.
fn end_of<T: AppTask, E: AppEnd>(side: AppSide<T, E>) -> Last<E>
    requires { MayRun T.stands E.AppEnd side }
    ensures side { GoesOnAs T.stands T.answers E.AppEnd side (AppSide.HasEnded result.app_end result.kind) }
    ensures tag { OfEnd side (λ was. E.tag result.app_end ≡ E.tag was) }
{
    match side {
        AppSide::HasEnded { app_end, kind } => Last { app_end, kind },
        AppSide::Runs(running) => {
            let Some(lent) = running.lent else {
                unreachable!()
            };
            let Lent {
                task: _,
                mut app_end,
            } = lent;
            let _first = app_end.finish(EndKind::Idle);
            Last {
                app_end,
                kind: EndKind::Idle,
            }
        }
    }
}
