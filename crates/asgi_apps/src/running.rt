//! A task with the end that it borrows: as a future, and driven by hand.
ghost use Rattle.std.specs.Prelude.{◌≡◌, ◌≢◌, ◌++◌, ◌∷◌, [], ◌+◌, false, List, Option, Some, None, IsSome, IsSomeAnd};
ghost use Rattle.futures.specs.Poll.{IfReady, OnPending};
ghost use Rattle.futures.specs.Task.{IsArmed, Keeps};
ghost use Rattle.asgi_io.specs.Counting.{counted};
ghost use Rattle.asgi_types.specs.declared.incoming.Incoming.{Incoming};
ghost use Rattle.asgi_types.specs.declared.outgoing.Outgoing.{Outgoing};
ghost use Rattle.asgi_types.specs.declared.end_kind.EndKind.{EndKind};
ghost use Rattle.asgi_apps.specs.Ends.{GoesOn, IsStill, IsWithin, MayGoOn, end_of, own_end, turn_of};
ghost use Rattle.asgi_apps.specs.private.Driven.{IfEnds, IfRuns, RunsOn, Turned, turn_in};

use crate::task::{AppFault, AppTask};
use asgi_io::{History, Turn};
use asgi_pipes::{AppEnd, EndKind};
use futures::Future;
use futures::task::{Context, Poll};

/// A task, and the end that it borrows.
#[derive(Drop)]
pub struct Lent<T, E> {
    /// The task.
    pub task: T,
    /// The end that the task borrows.
    pub app_end: E,
}

/// A running task, as a future that returns the task once it has ended.
#[derive(Drop)]
pub struct Running<T, E> {
    /// None once the task has ended and was returned.
    pub lent: Option<Lent<T, E>>,
    /// How many polls were made.
    pub turns: u64,
}

/// A task that ended, with its end, on which `finish` was called.
#[derive(Drop)]
pub struct Ended<T, E> {
    /// The task.
    pub task: T,
    /// The end that the task borrowed.
    pub app_end: E,
    /// How the task ended.
    pub kind: EndKind,
    /// How many polls were made.
    pub turns: u64,
    /// What each turn of `drive` did.
    did: History<Turn>,
    /// The end as each poll of `drive` left it.
    left: History<E>,
}

/// A task that is driven. Only `turn` polls it.
#[derive(Drop)]
pub struct Driven<T, E> {
    lent: Lent<T, E>,
    /// What each turn did.
    did: History<Turn>,
    /// The end as each poll left it.
    left: History<E>,
}

/// What a turn did to the task that is driven.
#[derive(Drop)]
pub enum Took {
    /// The task runs on.
    Runs(Turn),
    /// The task has ended.
    Ends(EndKind),
}

impl<T: AppTask, E: AppEnd> Lent<T, E> {
    /// Polls the task once. If the task ended, its end is put after all that it sent.
    fn turn(&mut self, cx: &mut Context<'_>) -> Poll<EndKind>
        requires { MayGoOn T.stands E.AppEnd self.old.task self.old.app_end }
        ensures ready { IfReady result (λ kind. GoesOn E.AppEnd (Some kind) self.old.app_end self.new.app_end) }
        ensures answers { IfReady result (λ kind. T.answers self.old.task (E.heard self.new.app_end) (E.said self.new.app_end) (own_end kind)) }
        ensures not_idle { IfReady result (λ kind. kind ≢ EndKind.Idle) }
        ensures pending { OnPending result (GoesOn E.AppEnd None self.old.app_end self.new.app_end) }
        ensures same { OnPending result (IsWithin T.answers self.new.task self.old.task) }
        ensures again { OnPending result (MayGoOn T.stands E.AppEnd self.new.task self.new.app_end) }
        ensures armed { OnPending result (IsArmed cx.new) }
        ensures kept { Keeps cx.old cx.new }
    {
        let Poll::Ready(answer) = self.task.poll(cx, &mut self.app_end) else {
            return Poll::Pending;
        };
        let kind = kind_of(answer);
        finish(&mut self.app_end, kind);
        Poll::Ready(kind)
    }

    /// What the polls since the last call of this did.
    fn moved(&mut self) -> Turn
        requires { MayGoOn T.stands E.AppEnd self.old.task self.old.app_end }
        ensures turn { result ≡ turn_of (E.has_moved self.old.app_end) }
        ensures same { (self.new.task ≡ self.old.task) × GoesOn E.AppEnd None self.old.app_end self.new.app_end }
        ensures lists { IsStill E.AppEnd self.old.app_end self.new.app_end }
        ensures asked { E.has_moved self.new.app_end ≡ false }
        ensures again { MayGoOn T.stands E.AppEnd self.new.task self.new.app_end }
    {
        if self.app_end.moved() {
            return Turn::Moved;
        }
        Turn::Idle
    }
}

impl<T: AppTask, E: AppEnd> Running<T, E> {
    /// The task borrows the end. No poll was made yet.
    pub fn new(task: T, end: E) -> Self
        requires open { E.ended end ≡ None }
        requires stands { T.stands task (E.kind end) (E.heard end) (E.said end) }
        ensures lent { result.lent ≡ Some (record { task = task; app_end = end }) }
        ensures turns { result.turns ≡ 0 }
    {
        Running {
            lent: Some(Lent { task, app_end: end }),
            turns: 0,
        }
    }

    /// Polls the task once. When ready, returns how the task ended, never `Idle`: `finish` was
    /// called on its end, and the task must not be polled again.
    pub fn turn(&mut self, cx: &mut Context<'_>) -> Poll<EndKind>
        requires { IsSomeAnd self.old.lent (λ was. MayGoOn T.stands E.AppEnd was.task was.app_end) }
        ensures ready { IfReady result (λ kind. IsSomeAnd self.old.lent (λ was. IsSomeAnd self.new.lent (λ is. GoesOn E.AppEnd (Some kind) was.app_end is.app_end))) }
        ensures answers { IfReady result (λ kind. IsSomeAnd self.old.lent (λ was. IsSomeAnd self.new.lent (λ is. T.answers was.task (E.heard is.app_end) (E.said is.app_end) (own_end kind)))) }
        ensures not_idle { IfReady result (λ kind. kind ≢ EndKind.Idle) }
        ensures pending { OnPending result (IsSomeAnd self.old.lent (λ was. IsSomeAnd self.new.lent (λ is. GoesOn E.AppEnd None was.app_end is.app_end))) }
        ensures same { OnPending result (IsSomeAnd self.old.lent (λ was. IsSomeAnd self.new.lent (λ is. IsWithin T.answers is.task was.task))) }
        ensures again { OnPending result (IsSomeAnd self.new.lent (λ is. MayGoOn T.stands E.AppEnd is.task is.app_end)) }
        ensures turns { self.new.turns ≡ counted (self.old.turns + 1) }
        ensures armed { OnPending result (IsArmed cx.new) }
        ensures kept { Keeps cx.old cx.new }
    {
        self.turns = self.turns.saturating_add(1);
        let Some(lent) = &mut self.lent else {
            unreachable!()
        };
        lent.turn(cx)
    }

    /// What the polls since the last call of this did: `Moved` or `Idle`.
    pub fn moved(&mut self) -> Turn
        requires { IsSomeAnd self.old.lent (λ was. MayGoOn T.stands E.AppEnd was.task was.app_end) }
        ensures turn { IsSomeAnd self.old.lent (λ was. result ≡ turn_of (E.has_moved was.app_end)) }
        ensures same { IsSomeAnd self.old.lent (λ was. IsSomeAnd self.new.lent (λ is. (is.task ≡ was.task) × GoesOn E.AppEnd None was.app_end is.app_end)) }
        ensures again { IsSomeAnd self.new.lent (λ is. MayGoOn T.stands E.AppEnd is.task is.app_end) }
        ensures turns { self.new.turns ≡ self.old.turns }
    {
        let Some(lent) = &mut self.lent else {
            unreachable!()
        };
        lent.moved()
    }

    /// Returns the task and its end, after all polls.
    fn give_back(&mut self, kind: EndKind) -> Ended<T, E>
        requires { IsSome self.old.lent }
        ensures task { IsSomeAnd self.old.lent (λ was. result.task ≡ was.task) }
        ensures end { IsSomeAnd self.old.lent (λ was. result.app_end ≡ was.app_end) }
        ensures kind { (result.kind ≡ kind) × (result.turns ≡ self.old.turns) }
    {
        let Some(lent) = self.lent.take() else {
            unreachable!()
        };
        let Lent { task, app_end } = lent;
        Ended {
            task,
            app_end,
            kind,
            turns: self.turns,
            did: History::new(),
            left: History::new(),
        }
    }
}

impl<T: AppTask, E: AppEnd> Driven<T, E> {
    /// The task is driven from now on.
    pub fn new(running: Running<T, E>) -> Self
        requires { IsSome running.lent }
        ensures lent { running.lent ≡ Some result.lent }
        ensures none { (result.did.items ≡ []) × (result.left.items ≡ []) }
    {
        let Some(lent) = running.lent else {
            unreachable!()
        };
        Driven {
            lent,
            did: History::new(),
            left: History::new(),
        }
    }

    /// Polls the task once.
    pub fn turn(&mut self, cx: &mut Context<'_>) -> Took
        requires { MayGoOn T.stands E.AppEnd self.old.lent.task self.old.lent.app_end }
        ensures turn { Turned E.AppEnd (turn_in result) self.old self.new }
        ensures runs { IfRuns result (RunsOn T.stands T.answers E.AppEnd self.old.lent self.new.lent) }
        ensures armed { IfRuns result (IsArmed cx.new) }
        ensures ends { IfEnds result (λ kind. GoesOn E.AppEnd (Some kind) self.old.lent.app_end self.new.lent.app_end) }
        ensures answers { IfEnds result (λ kind. T.answers self.old.lent.task (E.heard self.new.lent.app_end) (E.said self.new.lent.app_end) (own_end kind)) }
        ensures not_idle { IfEnds result (λ kind. kind ≢ EndKind.Idle) }
        ensures kept { Keeps cx.old cx.new }
    {
        let answer = self.lent.turn(cx);
        self.left = History::with(&self.left, &self.lent.app_end);
        match answer {
            Poll::Ready(kind) => {
                self.add(Turn::Last);
                Took::Ends(kind)
            }
            Poll::Pending => {
                let turn = self.lent.moved();
                self.add(turn);
                Took::Runs(turn)
            }
        }
    }

    /// One more turn was taken, and did this.
    fn add(&mut self, turn: Turn)
        ensures did { self.new.did.items ≡ self.old.did.items ++ turn ∷ [] }
        ensures same { (self.new.lent ≡ self.old.lent) × (self.new.left ≡ self.old.left) }
    {
        self.did = History::with(&self.did, &turn);
    }

    /// Returns the task and its end, after this many polls.
    pub fn give_back(self, kind: EndKind, turns: u64) -> Ended<T, E>
        ensures same { (result.task ≡ self.lent.task) × (result.app_end ≡ self.lent.app_end) × (result.did ≡ self.did) × (result.left ≡ self.left) }
        ensures kind { (result.kind ≡ kind) × (result.turns ≡ turns) }
    {
        let Driven { lent, did, left } = self;
        let Lent { task, app_end } = lent;
        Ended {
            task,
            app_end,
            kind,
            turns,
            did,
            left,
        }
    }

    /// Ends a task that a limit stops.
    pub fn stop(self, turns: u64) -> Ended<T, E>
        requires { E.ended self.lent.app_end ≡ None }
        ensures end { GoesOn E.AppEnd (Some EndKind.Idle) self.lent.app_end result.app_end }
        ensures still { IsStill E.AppEnd self.lent.app_end result.app_end }
        ensures same { (result.task ≡ self.lent.task) × (result.did ≡ self.did) × (result.left ≡ self.left) }
        ensures kind { (result.kind ≡ EndKind.Idle) × (result.turns ≡ turns) }
    {
        let mut ended = self.give_back(EndKind::Idle, turns);
        finish(&mut ended.app_end, EndKind::Idle);
        ended
    }
}

/// How the result of a poll ends a task.
fn kind_of(answer: Result<(), AppFault>) -> EndKind
    ensures kind { own_end result ≡ end_of (Poll.Ready answer) }
    ensures not_idle { result ≢ EndKind.Idle }
{
    match answer {
        Ok(()) => EndKind::Returned,
        Err(_) => EndKind::Faulted,
    }
}

/// Puts the end of the task after all that it sent.
fn finish<E: AppEnd>(end: &mut E, kind: EndKind)
    requires { E.ended end.old ≡ None }
    ensures end { GoesOn E.AppEnd (Some kind) end.old end.new }
    ensures still { IsStill E.AppEnd end.old end.new }
{
    let _first = end.finish(kind);
}

impl<T: AppTask, E: AppEnd> Future for Running<T, E> {
    type Output = Ended<T, E>;

    ghost can_poll = { λ running. IsSomeAnd running.lent (λ was. MayGoOn T.stands E.AppEnd was.task was.app_end) };

    ghost gives = { λ running ended. IsSomeAnd running.lent (λ was. GoesOn E.AppEnd (Some ended.kind) was.app_end ended.app_end × T.answers was.task (E.heard ended.app_end) (E.said ended.app_end) (own_end ended.kind)) };

    fn poll(&mut self, cx: &mut Context<'_>) -> Poll<Ended<T, E>> {
        match self.turn(cx) {
            Poll::Pending => Poll::Pending,
            Poll::Ready(kind) => Poll::Ready(self.give_back(kind)),
        }
    }
}
