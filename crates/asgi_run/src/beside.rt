//! Both halves of an exchange at the same time, in two threads.
ghost use Rattle.std.specs.Prelude.{◌≡◌, ◌<◌, ◌-◌, ◌⊎◌, ◌↔◌, ℕ, Bool, List, Some, IsSome, true, false, is_some, IfOk, IsOk, IsTrue, ⊤};
ghost use Rattle.asgi_io.specs.declared.turns.Turn.{Turn};
ghost use Rattle.asgi_pipes.specs.RingEnds.{IsRingPair};
ghost use Rattle.asgi_pipes.specs.declared.ring_app.RingApp.{RingApp};
ghost use Rattle.asgi_exchange.specs.Calls.{IsViewOf, IsExchangeOf};
ghost use Rattle.asgi_exchange.specs.Views.{ConnView};
ghost use Rattle.asgi_conversation.specs.declared.following.NextStep.TheVariants.{NextRequest};
ghost use Rattle.asgi_ws.specs.Lines.{LineState};
ghost use Rattle.asgi_run.specs.declared.runner.AppSide.{AppSide};
ghost use Rattle.asgi_run.specs.declared.runner.NoEnds.TheVariants as no_ends;
ghost use Rattle.asgi_run.specs.AnyHalf.{PreservesOn};
ghost use Rattle.asgi_run.specs.Jobs.{HasJob, HasLimits, IsApart};
ghost use Rattle.asgi_run.specs.Running.{OfEnd, MayRun, HasRun, Drives, DrivesRunning, IsTurnWith, paused_by};

use crate::apart::{JobState, Ran, finish_apart};
use crate::exchange_half::Half;
use crate::runner::{AppSide, NoEnds, Runner};
use asgi_apps::AppTask;
use asgi_io::{Pause, Turn, Turns};
use asgi_kept::{Bell, Host, Kept, Napping, NoThread, Resting, Waking, start};
use asgi_pipes::{AppEnd, ConnEnd, EndKind, Pipes, RingApp, RingConn, Rings};
use asgi_types::{Facts, Kind};
use asgi_ws::Line;
use std::alloc::{AllocError, Global};
use std::sync::Wait;
use std::thread::Threads;

/// Runs the connection's half in the caller's thread, and the application's at the same time in a thread
/// that `ready` makes and that is kept for all exchanges. Without that thread no exchange is begun.
#[derive(Drop)]
pub struct Beside<T: AppTask, Q: Pause, R> {
    rt: R,
    kept: Option<Kept<T, RingApp, Q>>,
    /// How this thread waits for the other one, and the other one for this.
    here: Resting,
    there: Resting,
    /// What wakes the task's thread. An exchange takes it along, as the thread.
    bell: Option<Bell>,
    /// What pauses after the idle polls of a task. An exchange takes it along.
    napping: Option<Q>,
    /// The turns of the last task.
    driven: u64,
    ghost naps: { is_some kept ≡ true → is_some napping ≡ true },
    ghost wakes: { is_some kept ≡ true → is_some bell ≡ true },
}

/// An exchange whose task has a thread of its own, with that thread.
#[derive(Drop)]
pub struct BesideExchange<T: AppTask, Q: Pause> {
    conn: Waking<RingConn>,
    /// For so many turns the half waits for the application before it reads on.
    patience: u32,
    job: JobState<T, RingApp, Q>,
}

/// For this many turns after the last item that was put or taken, the half waits for the application
/// before it reads on: most applications answer within them.
const PATIENCE: u32 = 64;

impl<T: AppTask, Q: Pause + Drop, R: Wait + Threads + Drop> Beside<T, Q, R> {
    /// A runner whose thread is not made yet. This thread waits as `here` does, and that one as `there`,
    /// which `bell` wakes; a task's idle polls are followed by `napping`.
    pub fn new(rt: R, here: Resting, there: Resting, bell: Bell, napping: Q) -> Self
        ensures { (result.napping ≡ Some napping) × (result.driven ≡ 0) }
    {
        Beside {
            rt,
            kept: None,
            here,
            there,
            bell: Some(bell),
            napping: Some(napping),
            driven: 0,
        }
    }

    /// Ends the thread, if there is one, and waits until it has ended.
    pub fn end(self) {
        let Beside { rt, kept, .. } = self;
        if let Some(kept) = kept {
            kept.end(&rt);
        }
    }
}

impl<T: AppTask + Send + 'static, R: Host> Beside<T, Napping<R>, R> {
    /// A runner whose tasks nap, and the pause of the connections that it will serve: each of the two
    /// threads wakes the other one. `AllocError` if memory is refused.
    pub fn napping(rt: R) -> Result<(Self, Napping<R>), AllocError>
        ensures { IfOk result (λ pair. (pair.0.driven ≡ 0) × (pair.1.count ≡ 0)) }
    {
        let (here, there) = Resting::pair(rt.alloc())?;
        let bell = here.bell()?;
        let pause = Napping::new(rt, here.again()?);
        let napping = Napping::waking(rt, there.again()?);
        Ok((Beside::new(rt, here, there, bell, napping), pause))
    }
}

impl<T: AppTask + Send + 'static, Q: Pause + Drop + Send + 'static, R: Host> Beside<T, Q, R> {
    /// Makes the thread, if there is none: to be called before each connection. If the thread, or memory
    /// for it, is refused, or an exchange has it, the exchanges of that connection are not begun.
    pub fn ready(&mut self) -> Result<(), NoThread>
        ensures ready { IsOk result → is_some self.new.kept ≡ true }
        ensures kept { is_some self.old.kept ≡ true → is_some self.new.kept ≡ true }
        ensures same { (self.new.napping ≡ self.old.napping) × (self.new.driven ≡ self.old.driven) }
    {
        if self.kept.is_some() {
            return Ok(());
        }
        if self.napping.is_none() || self.bell.is_none() {
            return Err(NoThread);
        }
        let Ok(here) = self.here.again() else {
            return Err(NoThread);
        };
        let Ok(there) = self.there.again() else {
            return Err(NoThread);
        };
        self.kept = Some(start(self.rt, here, there)?);
        Ok(())
    }
}

impl<T: AppTask, Q: Pause + Drop, R: Wait + Drop> Runner<T> for Beside<T, Q, R> {
    type Pipes = Rings;

    type Exchange = BesideExchange<T, Q>;

    ghost not_met = { λ _. 0 };

    ghost pauses = { λ s. paused_by Q.count s.napping };

    ghost driven = { λ s. s.driven };

    // The thread is there.
    ghost is_ready = { λ s. is_some s.kept ≡ true };

    // It tells a missing thread exactly if there is none.
    ghost refuses = { λ s why. (why ≡ no_ends.NoThread) ↔ (is_some s.kept ≡ false) };

    ghost takes = { λ _ _ _. ⊤ };

    ghost conn = { λ x. x.conn.end };

    ghost began = { λ x side. IsApart IsRingPair T.stands ⟦<RingApp as AppEnd>⟧ x.conn.end x.job side };

    ghost limited = { λ x turn_limit idle_limit paused turned. HasLimits Q.count x.job turn_limit idle_limit paused turned };

    fn make(
        &mut self,
        alloc: Global,
        kind: Kind,
        facts: Facts,
        ring: usize,
    ) -> Result<(RingConn, RingApp), NoEnds> {
        if self.kept.is_none() {
            return Err(NoEnds::NoThread);
        }
        Ok(Rings.make(alloc, kind, facts, ring)?)
    }

    fn begin(
        &mut self,
        end: RingConn,
        side: AppSide<T, RingApp>,
        turns: &Turns,
    ) -> BesideExchange<T, Q>
        requires ready { is_some self.old.kept ≡ true }
        requires pair { OfEnd side (λ app. IsRingPair end app) }
        requires may { MayRun T.stands ⟦<RingApp as AppEnd>⟧ side }
        ensures conn { result.conn.end ≡ end }
        ensures began { IsApart IsRingPair T.stands ⟦<RingApp as AppEnd>⟧ result.conn.end result.job side }
        ensures limits { HasLimits Q.count result.job turns.now.turn_limit turns.now.idle_limit (paused_by Q.count self.old.napping) self.old.driven }
        ensures met { ◌≡◌ {A = ℕ} 0 0 }
    {
        let Some(kept) = self.kept.take() else {
            unreachable!()
        };
        let Some(napping) = self.napping.take() else {
            unreachable!()
        };
        let Some(bell) = self.bell.take() else {
            unreachable!()
        };
        BesideExchange {
            conn: Waking::new(end, bell),
            patience: 0,
            job: JobState::begin(&self.rt, kept, napping, side, turns, self.driven),
        }
    }

    fn turn<H: Half, L: Line>(
        &mut self,
        exchange: &mut BesideExchange<T, Q>,
        half: &mut H,
        line: &mut L,
    ) -> Turn
        requires began { (side : AppSide T RingApp) × IsApart IsRingPair T.stands ⟦<RingApp as AppEnd>⟧ exchange.old.conn.end exchange.old.job side }
        ensures leads { PreservesOn H.stands (L.state line.old) half.old (IsViewOf ⟦<RingConn as ConnEnd>⟧ exchange.old.conn.end)
            (L.state line.new) half.new (IsViewOf ⟦<RingConn as ConnEnd>⟧ exchange.new.conn.end) }
        ensures began { (side : AppSide T RingApp) → IsApart IsRingPair T.stands ⟦<RingApp as AppEnd>⟧ exchange.old.conn.end exchange.old.job side
            → IsApart IsRingPair T.stands ⟦<RingApp as AppEnd>⟧ exchange.new.conn.end exchange.new.job side }
        ensures limits { (turn_limit idle_limit paused turned : ℕ) → HasLimits Q.count exchange.old.job turn_limit idle_limit paused turned
            → HasLimits Q.count exchange.new.job turn_limit idle_limit paused turned }
        ensures taken { ⊤ }
        ensures half { (goes_on : Bool) × (moved : Turn) × H.takes (L.state line.old) half.old goes_on moved (L.state line.new) half.new × IsTurnWith moved result }
        // The half waits for the application while there is patience left, which goes down by one a turn until something moves.
        ensures told { (goes_on : Bool) × (moved : Turn) × (IsTrue goes_on ↔ 0 < exchange.old.patience)
            × H.takes (L.state line.old) half.old goes_on moved (L.state line.new) half.new × IsTurnWith moved result }
        ensures patience { (exchange.new.patience ≡ 64) ⊎ (exchange.new.patience ≡ exchange.old.patience - 1) }
        ensures over { IsSome (H.following half.old) → half.new ≡ half.old }
        ensures met { ◌≡◌ {A = ℕ} 0 0 }
    {
        let before = exchange.conn.moves();
        let moved = half.turn(line, &mut exchange.conn, exchange.patience > 0);
        exchange.patience = if exchange.conn.moves() == before {
            exchange.patience.saturating_sub(1)
        } else {
            PATIENCE
        };
        moved
    }

    fn finish<H: Half>(&mut self, exchange: BesideExchange<T, Q>, half: &mut H) -> EndKind
        requires began { (side : AppSide T RingApp) × IsApart IsRingPair T.stands ⟦<RingApp as AppEnd>⟧ exchange.conn.end exchange.job side }
        ensures runs { (side : AppSide T RingApp) (scene : H.Scene) (now : LineState) (read : List ℕ) (view : ConnView H.In H.Out)
            → IsApart IsRingPair T.stands ⟦<RingApp as AppEnd>⟧ exchange.conn.end exchange.job side → H.stands scene now half.old read view
            → IsViewOf ⟦<RingConn as ConnEnd>⟧ exchange.conn.end view → OfEnd side (λ app. IsExchangeOf ⟦<RingApp as AppEnd>⟧ app (H.exchange scene))
            → HasRun H.Half T.answers ⟦<RingApp as AppEnd>⟧ scene now half.new read side result }
        ensures over { IsSome (H.following half.new) }
        ensures stays { IsSome (H.following half.old) → half.new ≡ half.old }
        ensures follows { H.following half.new ≡ Some NextRequest → H.following half.old ≡ Some NextRequest }
        ensures drives { (turn_limit idle_limit paused turned : ℕ) → HasLimits Q.count exchange.job turn_limit idle_limit paused turned
            → Drives turn_limit idle_limit paused (paused_by Q.count self.new.napping) turned self.new.driven result }
        // Each task that runs is driven in the other thread.
        ensures drove { (side : AppSide T RingApp) (turn_limit idle_limit paused turned : ℕ) → HasJob exchange.job side
            → HasLimits Q.count exchange.job turn_limit idle_limit paused turned
            → DrivesRunning side turn_limit idle_limit paused (paused_by Q.count self.new.napping) turned self.new.driven result }
        ensures ready { is_some self.new.kept ≡ true }
        ensures met { ◌≡◌ {A = ℕ} 0 0 }
    {
        let BesideExchange { conn, job, .. } = exchange;
        let mut conn = conn;
        let Ran {
            kept,
            pause,
            kind,
            turns,
            ..
        } = finish_apart::<H, Q, T, RingApp, RingConn, Rings, R>(&self.rt, half, &mut conn, job);
        let Waking { bell, .. } = conn;
        self.napping = Some(pause);
        self.bell = Some(bell);
        self.kept = Some(kept);
        self.driven = turns;
        kind
    }

    fn unmet(&self) -> u64 {
        0
    }

    fn paused(&self) -> u64 {
        match &self.napping {
            Some(napping) => napping.paused(),
            None => 0,
        }
    }

    fn turned(&self) -> u64 {
        self.driven
    }
}
