//! Calls of a table in which some have come and some have ended.
ghost use Rattle.std.specs.Prelude.{◌≡◌, List, Option, IfOk};
ghost use Rattle.asgi_many.specs.declared.seat.Ended.{Ended};
ghost use Rattle.asgi_many.specs.declared.seat.Newcomer.{Newcomer};
ghost use Rattle.asgi_many.specs.Standing.{Holds};

use asgi_apps::Application;
use asgi_conn::{Calls, Line, Runner};
use asgi_many::{Cause, Newcomer, Table, Turned};
use asgi_types::{Limits, State};
use std::alloc::{AllocError, Global};

/// A table in which nobody has come.
pub fn table_of<X, A: Application, L: Line, U: Runner<A::Task, Exchange = X>>(
    alloc: Global,
    limits: &Limits,
    places: usize,
    state: &State,
    calls: &Calls<'_, A>,
) -> Result<Table<X, L>, AllocError>
    ensures { IfOk result (λ table. (came : List (Newcomer L)) × (ended : List (Option (Ended L)))
        × Holds A.Task.answers U.Pipes.Conn.ConnEnd U.Pipes.App.AppEnd U.conn U.began (A.answers calls.now.app.now) L.state state.now came table ended) }
{
    let _state = state;
    let _calls = calls;
    match Table::new::<A, U>(alloc, limits, places) {
        Ok(table) => Ok(table),
        Err(e) => Err(e),
    }
}

/// Gives a newcomer a seat, or gives it back.
pub fn seat_of<X, A: Application, L: Line, U: Runner<A::Task, Exchange = X>>(
    table: &mut Table<X, L>,
    state: &State,
    calls: &Calls<'_, A>,
    newcomer: Newcomer<L>,
) -> Result<usize, Newcomer<L>>
    requires { (came : List (Newcomer L)) × (ended : List (Option (Ended L)))
        × Holds A.Task.answers U.Pipes.Conn.ConnEnd U.Pipes.App.AppEnd U.conn U.began (A.answers calls.now.app.now) L.state state.now came table.old ended }
    ensures { (came : List (Newcomer L)) × (ended : List (Option (Ended L)))
        × Holds A.Task.answers U.Pipes.Conn.ConnEnd U.Pipes.App.AppEnd U.conn U.began (A.answers calls.now.app.now) L.state state.now came table.new ended }
{
    let _calls = calls;
    match table.seat::<A, U>(state, newcomer) {
        Ok(at) => Ok(at),
        Err(back) => Err(back),
    }
}

/// Takes a turn of a seat.
pub fn turn_of<X, A: Application, L: Line, U: Runner<A::Task, Exchange = X>>(
    table: &mut Table<X, L>,
    state: &State,
    calls: &mut Calls<'_, A>,
    runner: &mut U,
    at: usize,
    cause: Cause,
) -> Turned<L>
    requires { (came : List (Newcomer L)) × (ended : List (Option (Ended L)))
        × Holds A.Task.answers U.Pipes.Conn.ConnEnd U.Pipes.App.AppEnd U.conn U.began (A.answers calls.old.app.now) L.state state.now came table.old ended }
    ensures { (came : List (Newcomer L)) × (ended : List (Option (Ended L)))
        × Holds A.Task.answers U.Pipes.Conn.ConnEnd U.Pipes.App.AppEnd U.conn U.began (A.answers calls.new.app.now) L.state state.now came table.new ended }
{
    table.turn(at, cause, state, calls, runner)
}
