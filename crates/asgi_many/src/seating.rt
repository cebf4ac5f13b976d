//! Who gets a seat, and the turns of who sits there.
ghost use Rattle.std.specs.Prelude.{◌≡◌, ◌≢◌, ◌+◌, ◌-◌, ◌^◌, ◌<◌, ◌≤◌, ◌⊎◌, ◌↔◌, ◌++◌, ◌∷◌, [], ℕ, List, Option, Some, None, IsTrue, IsFalse, IfOk, IfErr, IfSome, IfNone, IsErr, IsSomeAnd, slice_get, option_map};
ghost use Rattle.asgi_types.specs.declared.state.StateValue.{StateValue};
ghost use Rattle.slab.specs.Slab.{get, slab_len};
ghost use Rattle.asgi_conn.specs.Places.{place_of};
ghost use Rattle.asgi_conn.specs.Standing.{IsReportOf, StandsAt};
ghost use Rattle.asgi_many.specs.declared.seat.Ended.{Ended};
ghost use Rattle.asgi_many.specs.declared.seat.Newcomer.{Newcomer};
ghost use Rattle.asgi_many.specs.Standing.{Holds, IsEmpty, IsFull, IsServed};
ghost use Rattle.asgi_many.specs.Turns.{IfOver, LooksAt, TurnsSeat, ended_after, freed_by};

use crate::seat::{Cause, Ended, Newcomer, Seat};
use crate::table::{Table, Turned};
use asgi_apps::{Application, Calls};
use asgi_conn::{Report, Rest, Runner, Step};
use asgi_halves::Piece;
use asgi_types::{Limits, State};
use asgi_ws::Line;
use slab::Slab;
use std::alloc::{AllocError, Global};

impl<X, L: Line> Table<X, L> {
    /// A table with this many seats, all of them free, for connections within these limits. The memory of the seats is
    /// taken here, and none later.
    pub fn new<A: Application, U: Runner<A::Task, Exchange = X>>(
        alloc: Global,
        limits: &Limits,
        places: usize,
    ) -> Result<Self, AllocError>
        ensures holds { IfOk result (λ table. (app : A) (state : List (List ℕ × StateValue))
            → Holds A.Task.answers U.Pipes.Conn.ConnEnd U.Pipes.App.AppEnd U.conn U.began (A.answers app) L.state state [] table []) }
        ensures empty { IfOk result (λ table. IsEmpty table × (table.places ≡ places) × (table.limits ≡ limits.now)) }
    {
        let piece = Piece::new(alloc);
        Ok(Table {
            alloc,
            limits: *limits,
            seats: Slab::with_capacity(alloc, places)?,
            piece,
            places,
            came: 0,
        })
    }

    /// How many may sit at a time.
    pub fn places(&self) -> usize
        ensures { result ≡ self.now.places }
    {
        self.places
    }

    /// How many sit here.
    pub fn len(&self) -> usize
        ensures { result ≡ slab_len self.now.seats }
    {
        self.seats.len()
    }

    /// Whether nobody sits here.
    pub fn is_empty(&self) -> bool
        ensures { IsTrue result ↔ IsEmpty self.now }
    {
        self.seats.len() == 0
    }

    /// Whether each seat is taken.
    pub fn is_full(&self) -> bool
        ensures full { IsTrue result → IsFull self.now }
        ensures free { IsFalse result → slab_len self.now.seats < self.now.places }
    {
        self.seats.len() >= self.places
    }

    /// Whether a newcomer gets a seat: one is free, and fewer than 2^64 - 1 have come.
    pub fn has_seat(&self) -> bool
        ensures some { IsTrue result → ¬ (IsFull self.now) × ¬ (self.now.came ≡ 2 ^ 64 - 1) }
        ensures none { IsFalse result → IsFull self.now ⊎ (self.now.came ≡ 2 ^ 64 - 1) }
    {
        if self.is_full() {
            return false;
        }
        self.came < u64::MAX
    }

    /// The line of the connection in that seat, if there is one.
    pub fn line(&self, at: usize) -> Option<&L>
        ensures { option_map (λ line. line.now) result ≡ option_map (λ seat. seat.line) (get self.now.seats at) }
    {
        let seat = self.seats.get(at)?;
        Some(&seat.line)
    }

    /// Where the connection in that seat stands, if there is one.
    pub fn rest(&self, at: usize) -> Option<Rest>
        ensures some { IfSome result (λ rest. IsSomeAnd (get self.now.seats at)
            (λ seat. StandsAt rest.standing (place_of seat.connection) × (rest.exchanges ≡ seat.connection.tally.exchanges))) }
        ensures none { IfNone result (get self.now.seats at ≡ None) }
    {
        Some(self.seats.get(at)?.connection.rest())
    }

    /// The seat that the next newcomer gets, if there is one for it. Each seat has a number below `bound`.
    pub fn next_seat(&self) -> usize
        ensures { result ≡ self.now.seats.vacant_key }
    {
        self.seats.vacant_key()
    }

    /// Seats have numbers below this one.
    pub fn bound(&self) -> usize
        ensures { result ≡ self.now.seats.capacity }
    {
        self.seats.capacity()
    }

    /// Gives a newcomer a seat, and returns its number. It comes back if the table is full.
    pub fn seat<A: Application, U: Runner<A::Task, Exchange = X>>(
        &mut self,
        state: &State,
        newcomer: Newcomer<L>,
    ) -> Result<usize, Newcomer<L>>
        ensures holds { IfOk result (λ at. (app : A) (came : List (Newcomer L)) (ended : List (Option (Ended L)))
            → Holds A.Task.answers U.Pipes.Conn.ConnEnd U.Pipes.App.AppEnd U.conn U.began (A.answers app) L.state state.now came self.old ended
            → Holds A.Task.answers U.Pipes.Conn.ConnEnd U.Pipes.App.AppEnd U.conn U.began (A.answers app) L.state state.now (came ++ newcomer ∷ []) self.new (ended ++ None ∷ [])) }
        ensures at { IfOk result (λ at. (at ≡ self.old.seats.vacant_key) × (at < self.new.seats.capacity) × (get self.old.seats at ≡ None)
            × IsSomeAnd (get self.new.seats at) (λ seat. (seat.line ≡ newcomer.line) × (seat.number ≡ self.old.came))) }
        ensures others { IfOk result (λ at. (other : ℕ) → other ≢ at → get self.new.seats other ≡ get self.old.seats other) }
        ensures sits { IfOk result (λ at. slab_len self.new.seats ≡ slab_len self.old.seats + 1) }
        ensures back { IfErr result (λ back. (back ≡ newcomer) × (self.new ≡ self.old)) }
        ensures refuses { IsErr result → IsFull self.old ⊎ (self.old.came ≡ 2 ^ 64 - 1) }
        ensures limits { (self.new.limits ≡ self.old.limits) × (self.new.places ≡ self.old.places) }
    {
        if self.is_full() {
            return Err(newcomer);
        }
        let number = self.came;
        let Some(came) = number.checked_add(1) else {
            return Err(newcomer);
        };
        let seat = Seat::new::<A, U>(self.alloc, &self.limits, state, number, newcomer);
        self.came = came;
        Ok(self.seats.insert_reserved(seat))
    }

    /// Takes a turn of the connection in that seat, if there is one. Seats may be named in any order, also those that are
    /// free or not there. If nothing moves, an idle turn and the pause of the seat are counted at a tick, and nothing after a
    /// wake-up. Once the connection has ended its seat is free, and what is left of it is handed over.
    pub fn turn<A: Application, U: Runner<A::Task, Exchange = X>>(
        &mut self,
        at: usize,
        cause: Cause,
        state: &State,
        calls: &mut Calls<'_, A>,
        runner: &mut U,
    ) -> Turned<L>
        requires { (came : List (Newcomer L)) × (ended : List (Option (Ended L)))
            × Holds A.Task.answers U.Pipes.Conn.ConnEnd U.Pipes.App.AppEnd U.conn U.began (A.answers calls.old.app.now) L.state state.now came self.old ended }
        ensures holds { (came : List (Newcomer L)) (ended : List (Option (Ended L)))
            → Holds A.Task.answers U.Pipes.Conn.ConnEnd U.Pipes.App.AppEnd U.conn U.began (A.answers calls.old.app.now) L.state state.now came self.old ended
            → Holds A.Task.answers U.Pipes.Conn.ConnEnd U.Pipes.App.AppEnd U.conn U.began (A.answers calls.old.app.now) L.state state.now came self.new (ended_after result ended) }
        // It had not ended before, and is served as is promised of the one that came under its number.
        ensures over { IfOver result (λ end. (came : List (Newcomer L)) (ended : List (Option (Ended L)))
            → Holds A.Task.answers U.Pipes.Conn.ConnEnd U.Pipes.App.AppEnd U.conn U.began (A.answers calls.old.app.now) L.state state.now came self.old ended
            → (slice_get ended end.number ≡ Some None)
            × (one : Newcomer L) × (slice_get came end.number ≡ Some one) × IsServed (A.answers calls.old.app.now) L.state self.old.limits state.now one end) }
        ensures turned { TurnsSeat cause result (get self.old.seats at) (get self.new.seats at) }
        ensures sits { slab_len self.old.seats ≡ slab_len self.new.seats + freed_by result }
        ensures others { (other : ℕ) → other ≢ at → get self.new.seats other ≡ get self.old.seats other }
        ensures limits { (self.new.limits ≡ self.old.limits) × (self.new.places ≡ self.old.places) }
        ensures same { calls.new.app.now ≡ calls.old.app.now }
    {
        let Some(seat) = self.seats.get_mut(at) else {
            return Turned::NoOne;
        };
        seat.swap_piece(&mut self.piece);
        let step = seat.turn(cause, state, calls, runner);
        seat.swap_piece(&mut self.piece);
        match step {
            Step::Moved => Turned::Moved,
            Step::Idle => Turned::Idle,
            Step::Over(report) => Turned::Over(self.free(at, report)),
        }
    }

    /// Takes a turn of the connection in that seat as `turn` does, but leaves one that has ended where it sits: its next turn
    /// hands over what is left of it. What it returns is small, and most turns end nothing. `None` if nobody sits there.
    pub(crate) fn look<A: Application, U: Runner<A::Task, Exchange = X>>(
        &mut self,
        at: usize,
        cause: Cause,
        state: &State,
        calls: &mut Calls<'_, A>,
        runner: &mut U,
    ) -> Option<Step>
        requires { (came : List (Newcomer L)) × (ended : List (Option (Ended L)))
            × Holds A.Task.answers U.Pipes.Conn.ConnEnd U.Pipes.App.AppEnd U.conn U.began (A.answers calls.old.app.now) L.state state.now came self.old ended }
        ensures holds { (came : List (Newcomer L)) (ended : List (Option (Ended L)))
            → Holds A.Task.answers U.Pipes.Conn.ConnEnd U.Pipes.App.AppEnd U.conn U.began (A.answers calls.old.app.now) L.state state.now came self.old ended
            → Holds A.Task.answers U.Pipes.Conn.ConnEnd U.Pipes.App.AppEnd U.conn U.began (A.answers calls.old.app.now) L.state state.now came self.new ended }
        ensures looked { LooksAt cause result (get self.old.seats at) (get self.new.seats at) }
        ensures sits { slab_len self.new.seats ≡ slab_len self.old.seats }
        ensures others { (other : ℕ) → other ≢ at → get self.new.seats other ≡ get self.old.seats other }
        ensures limits { (self.new.limits ≡ self.old.limits) × (self.new.places ≡ self.old.places) }
        ensures same { calls.new.app.now ≡ calls.old.app.now }
    {
        let seat = self.seats.get_mut(at)?;
        seat.swap_piece(&mut self.piece);
        let step = seat.turn(cause, state, calls, runner);
        seat.swap_piece(&mut self.piece);
        Some(step)
    }

    /// Frees the seat of a connection that has ended with this report.
    fn free(&mut self, at: usize, report: Report) -> Ended<L>
        requires { IsSomeAnd (get self.old.seats at) (λ seat. IsReportOf seat.connection report) }
        ensures end { IsSomeAnd (get self.old.seats at) (λ seat. (result.number ≡ seat.number) × (result.report ≡ report)
            × (result.pauses ≡ seat.pause.count) × (result.line ≡ seat.line) × (result.client ≡ seat.client)) }
        ensures free { get self.new.seats at ≡ None }
        ensures sits { slab_len self.old.seats ≡ slab_len self.new.seats + 1 }
        ensures others { (other : ℕ) → other ≢ at → get self.new.seats other ≡ get self.old.seats other }
        ensures same { (self.new.limits ≡ self.old.limits) × (self.new.places ≡ self.old.places) × (self.new.came ≡ self.old.came) }
    {
        self.seats.remove(at).end(report)
    }
}
