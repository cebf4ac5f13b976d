//! A server of many connections in one thread.
ghost use Rattle.std.specs.Prelude.{◌≡◌, ◌⊎◌, ◌+◌, ◌-◌, ◌^◌, ◌<◌, ◌≤◌, ◌++◌, ◌∷◌, [], ℕ, List, Option, IfOk, IsErr, IsTrue, length, slice_get};
ghost use Rattle.asgi_many.specs.declared.seat.Ended.{Ended};
ghost use Rattle.slab.specs.Slab.{slab_len};
ghost use Rattle.asgi_many.specs.declared.intake.Intake.TheVariants.{Asks, Closed};
ghost use Rattle.asgi_many.specs.declared.reactor.Next.TheVariants.{NoneEver};
ghost use Rattle.asgi_many.specs.declared.reactor.Move.TheVariants.{Freed};
ghost use Rattle.asgi_many.specs.Moves.{Frees, KeepsSeats, Steps};
ghost use Rattle.asgi_many.specs.Standing.{IsFull};
ghost use Rattle.asgi_many.specs.Serving.{Adds, Going, ServesMany, Sits, departure_of};

use crate::intake::Intake;
use crate::reactor::{Next, Reactor, Ready};
use crate::seat::{Cause, Departure, Ended};
use crate::table::{Table, Turned};
use asgi_apps::{Application, Calls};
use asgi_conn::{Runner, Step};
use asgi_desk::Teller;
use asgi_types::{Limits, State};
use std::alloc::{AllocError, Global};

/// How a server of many connections ended.
#[derive(Clone, Copy, Debug, PartialEq, Eq)]
pub enum Served {
    /// No connection will come any more, and each that came has ended.
    All,
    /// It took 2^64 - 1 steps.
    TooLong,
}

/// Serves each connection that the reactor gives, at most so many at a time, each turn by turn and whenever the reactor names its
/// seat. The teller gets the report of each and its client once, as the connection ends, under the number of its arrival, 1
/// upwards.
///
/// The memory of the table is taken first, and if it is refused the reactor is not asked. While each seat is taken none is asked for,
/// so none that came is sent away. A line is given back to the reactor once its connection has ended. It says `All` only once the
/// reactor has said that none will come any more. What each call of the reactor keeps is kept.
pub fn serve_many<
    X: Drop,
    A: Application,
    N: Reactor,
    U: Runner<A::Task, Exchange = X>,
    K: Teller<Departure>,
>(
    alloc: Global,
    limits: &Limits,
    places: usize,
    state: &State,
    app: &A,
    reactor: &mut N,
    runner: &mut U,
    teller: &mut K,
) -> Result<Served, AllocError>
    ensures serves { IfOk result (λ how. ServesMany K.tells (A.answers app.now) N.L.state limits.now state.now (N.answers reactor.old) (N.answers reactor.new)
        teller.old teller.new how) }
    ensures seats { IfOk result (λ how. KeepsSeats places (N.moves reactor.old) (N.moves reactor.new) how) }
    ensures no_memory { IsErr result → (N.answers reactor.new ≡ N.answers reactor.old) × (N.moves reactor.new ≡ N.moves reactor.old) × (teller.new ≡ teller.old) }
    ensures kept { N.kept reactor.new ≡ N.kept reactor.old }
{
    let mut table = Table::new::<A, U>(alloc, limits, places)?;
    let mut calls = Calls::of(app);
    let mut intake = Intake::Asks;
    for _step in 0..u64::MAX {
        if intake.is_closed() && table.is_empty() {
            return Ok(Served::All);
        }
        intake = step(
            &mut table, intake, state, &mut calls, reactor, runner, teller,
        );
    }
    Ok(Served::TooLong)
}

/// Takes in the next connection, or goes on with one that may.
fn step<
    X: Drop,
    A: Application,
    N: Reactor,
    U: Runner<A::Task, Exchange = X>,
    K: Teller<Departure>,
>(
    table: &mut Table<X, N::L>,
    intake: Intake,
    state: &State,
    calls: &mut Calls<'_, A>,
    reactor: &mut N,
    runner: &mut U,
    teller: &mut K,
) -> Intake
    requires going { (limits : Limits) × (asked : List (Next N.L)) × (told : K)
        × Going A.Task.answers U.Pipes.Conn.ConnEnd U.Pipes.App.AppEnd U.conn U.began (A.answers calls.old.app.now) N.L.state limits state.now K.tells
        asked (N.answers reactor.old) told teller.old table.old }
    requires few { ¬ (table.old.came ≡ 2 ^ 64 - 1) }
    ensures goes_on { (limits : Limits) (asked : List (Next N.L)) (told : K)
        → Going A.Task.answers U.Pipes.Conn.ConnEnd U.Pipes.App.AppEnd U.conn U.began (A.answers calls.old.app.now) N.L.state limits state.now K.tells
        asked (N.answers reactor.old) told teller.old table.old
        → Going A.Task.answers U.Pipes.Conn.ConnEnd U.Pipes.App.AppEnd U.conn U.began (A.answers calls.old.app.now) N.L.state limits state.now K.tells
        asked (N.answers reactor.new) told teller.new table.new }
    ensures asked { length (N.answers reactor.new) ≤ length (N.answers reactor.old) + 1 }
    ensures no_more { result ≡ Closed → (N.answers reactor.new ≡ N.answers reactor.old ++ NoneEver ∷ []) ⊎ ((intake ≡ Closed) × (N.answers reactor.new ≡ N.answers reactor.old)) }
    ensures same { calls.new.app.now ≡ calls.old.app.now }
    ensures seats { Steps table.old.places (N.moves reactor.old) (N.moves reactor.new) (slab_len table.old.seats) (slab_len table.new.seats) intake result }
    ensures places { table.new.places ≡ table.old.places }
    ensures kept { N.kept reactor.new ≡ N.kept reactor.old }
{
    if intake.asks_for(table) {
        return take_in::<X, A, N, U>(table, state, reactor);
    }
    match reactor.wait() {
        Ready::Arrivals => intake.told_of_arrivals(),
        Ready::Seat(at) => {
            let cause = Cause::Wake;
            go_on(table, at, cause, state, calls, reactor, runner, teller);
            intake
        }
        Ready::Tick(at) => {
            let cause = Cause::Tick;
            go_on(table, at, cause, state, calls, reactor, runner, teller);
            intake
        }
    }
}

/// Asks for the next connection, and gives it a seat.
fn take_in<X: Drop, A: Application, N: Reactor, U: Runner<A::Task, Exchange = X>>(
    table: &mut Table<X, N::L>,
    state: &State,
    reactor: &mut N,
) -> Intake
    requires { ¬ (IsFull table.old) × ¬ (table.old.came ≡ 2 ^ 64 - 1) }
    ensures sits { (app : A) (limits : Limits) (asked : List (Next N.L)) (places : List (Option (Ended N.L)))
        → Sits A.Task.answers U.Pipes.Conn.ConnEnd U.Pipes.App.AppEnd U.conn U.began (A.answers app) N.L.state limits state.now asked (N.answers reactor.old) places table.old
        → (more : List (Option (Ended N.L))) × Adds places more
        × Sits A.Task.answers U.Pipes.Conn.ConnEnd U.Pipes.App.AppEnd U.conn U.began (A.answers app) N.L.state limits state.now asked (N.answers reactor.new) more table.new }
    ensures asked { length (N.answers reactor.new) ≤ length (N.answers reactor.old) + 1 }
    ensures no_more { result ≡ Closed → N.answers reactor.new ≡ N.answers reactor.old ++ NoneEver ∷ [] }
    ensures seats { Steps table.old.places (N.moves reactor.old) (N.moves reactor.new) (slab_len table.old.seats) (slab_len table.new.seats) Asks result }
    ensures places { table.new.places ≡ table.old.places }
    ensures kept { N.kept reactor.new ≡ N.kept reactor.old }
{
    let at = table.next_seat();
    match reactor.try_next(at) {
        Next::Arrived(newcomer) => {
            let Ok(_at) = table.seat::<A, U>(state, newcomer) else {
                unreachable!()
            };
            Intake::Asks
        }
        Next::NoneNow => Intake::Waits,
        Next::NoneEver => Intake::Closed,
    }
}

/// Goes on with the connection in this seat, if there is one that may.
fn go_on<
    X: Drop,
    A: Application,
    N: Reactor,
    U: Runner<A::Task, Exchange = X>,
    K: Teller<Departure>,
>(
    table: &mut Table<X, N::L>,
    at: usize,
    cause: Cause,
    state: &State,
    calls: &mut Calls<'_, A>,
    reactor: &mut N,
    runner: &mut U,
    teller: &mut K,
)
    requires { (limits : Limits) × (asked : List (Next N.L)) × (told : K)
        × Going A.Task.answers U.Pipes.Conn.ConnEnd U.Pipes.App.AppEnd U.conn U.began (A.answers calls.old.app.now) N.L.state limits state.now K.tells
        asked (N.answers reactor.old) told teller.old table.old }
    ensures goes_on { (limits : Limits) (asked : List (Next N.L)) (told : K)
        → Going A.Task.answers U.Pipes.Conn.ConnEnd U.Pipes.App.AppEnd U.conn U.began (A.answers calls.old.app.now) N.L.state limits state.now K.tells
        asked (N.answers reactor.old) told teller.old table.old
        → Going A.Task.answers U.Pipes.Conn.ConnEnd U.Pipes.App.AppEnd U.conn U.began (A.answers calls.old.app.now) N.L.state limits state.now K.tells
        asked (N.answers reactor.new) told teller.new table.new }
    ensures asked { N.answers reactor.new ≡ N.answers reactor.old }
    ensures same { calls.new.app.now ≡ calls.old.app.now }
    ensures seats { Frees (N.moves reactor.old) (N.moves reactor.new) (slab_len table.old.seats) (slab_len table.new.seats) }
    ensures places { table.new.places ≡ table.old.places }
    ensures kept { N.kept reactor.new ≡ N.kept reactor.old }
{
    let Some(line) = table.line(at) else {
        return;
    };
    if !reactor.may_go_on(at, line) {
        return;
    }
    match table.look(at, cause, state, calls, runner) {
        None => {}
        Some(Step::Moved) => reactor.again(at),
        Some(Step::Idle) => rests(table, at, reactor),
        Some(Step::Over(_)) => leave(table, at, cause, state, calls, reactor, runner, teller),
    }
}

/// Hands over what is left of the connection in this seat, which has ended. Out of line, since it is much, and most turns end
/// nothing.
#[inline(never)]
fn leave<
    X: Drop,
    A: Application,
    N: Reactor,
    U: Runner<A::Task, Exchange = X>,
    K: Teller<Departure>,
>(
    table: &mut Table<X, N::L>,
    at: usize,
    cause: Cause,
    state: &State,
    calls: &mut Calls<'_, A>,
    reactor: &mut N,
    runner: &mut U,
    teller: &mut K,
)
    requires { (limits : Limits) × (asked : List (Next N.L)) × (told : K)
        × Going A.Task.answers U.Pipes.Conn.ConnEnd U.Pipes.App.AppEnd U.conn U.began (A.answers calls.old.app.now) N.L.state limits state.now K.tells
        asked (N.answers reactor.old) told teller.old table.old }
    ensures goes_on { (limits : Limits) (asked : List (Next N.L)) (told : K)
        → Going A.Task.answers U.Pipes.Conn.ConnEnd U.Pipes.App.AppEnd U.conn U.began (A.answers calls.old.app.now) N.L.state limits state.now K.tells
        asked (N.answers reactor.old) told teller.old table.old
        → Going A.Task.answers U.Pipes.Conn.ConnEnd U.Pipes.App.AppEnd U.conn U.began (A.answers calls.old.app.now) N.L.state limits state.now K.tells
        asked (N.answers reactor.new) told teller.new table.new }
    ensures asked { N.answers reactor.new ≡ N.answers reactor.old }
    ensures same { calls.new.app.now ≡ calls.old.app.now }
    ensures seats { Frees (N.moves reactor.old) (N.moves reactor.new) (slab_len table.old.seats) (slab_len table.new.seats) }
    ensures places { table.new.places ≡ table.old.places }
    ensures kept { N.kept reactor.new ≡ N.kept reactor.old }
{
    match table.turn(at, cause, state, calls, runner) {
        Turned::NoOne => {}
        Turned::Moved => reactor.again(at),
        Turned::Idle => rests(table, at, reactor),
        Turned::Over(end) => over(at, end, reactor, teller),
    }
}

/// The connection in this seat waits, and what it wrote leaves.
fn rests<X, N: Reactor>(table: &Table<X, N::L>, at: usize, reactor: &mut N)
    ensures told { N.answers reactor.new ≡ N.answers reactor.old }
    ensures moves { N.moves reactor.new ≡ N.moves reactor.old }
    ensures kept { N.kept reactor.new ≡ N.kept reactor.old }
{
    let Some(line) = table.line(at) else {
        return;
    };
    let Some(rest) = table.rest(at) else {
        return;
    };
    reactor.rests(at, line, rest);
}

/// Tells of a connection that has ended, and has its line closed.
fn over<N: Reactor, K: Teller<Departure>>(
    at: usize,
    end: Ended<N::L>,
    reactor: &mut N,
    teller: &mut K,
)
    requires { end.number < 2 ^ 64 - 1 }
    ensures told { K.tells teller.old teller.new (end.number + 1) (departure_of end) }
    ensures same { N.answers reactor.new ≡ N.answers reactor.old }
    ensures moves { N.moves reactor.new ≡ N.moves reactor.old ++ Freed ∷ [] }
    ensures kept { N.kept reactor.new ≡ N.kept reactor.old }
{
    let Ended {
        number,
        report,
        pauses: _,
        client,
        line,
    } = end;
    let departure = Departure { report, client };
    teller.tell(number + 1, &departure);
    reactor.close(at, line);
}
