//! A law of tables.
ghost use Rattle.std.specs.Prelude.{ℕ, List, Option};
ghost use Rattle.asgi_types.specs.declared.state.StateValue.{StateValue};
ghost use Rattle.asgi_many.specs.declared.seat.Ended.{Ended};
ghost use Rattle.asgi_many.specs.declared.seat.Newcomer.{Newcomer};
ghost use Rattle.asgi_many.specs.declared.table.Table.{Table};
ghost use Rattle.asgi_many.specs.Seats.{EachOnce};
ghost use Rattle.asgi_many.specs.Standing.{Holds, IsEmpty, IsServed};

use asgi_apps::Application;
use asgi_conn::Runner;
use asgi_ws::Line;

/// Once nobody sits in a table, each connection that came has ended once, at its own number, as `Serves` says of its own
/// line and pauses.
pub fn each_has_one_report<X, A: Application, L: Line, U: Runner<A::Task, Exchange = X>>()
    ensures { (app : A) (state : List (List ℕ × StateValue)) (came : List (Newcomer L)) (table : Table X L) (ended : List (Option (Ended L)))
        → Holds A.Task.answers U.Pipes.Conn.ConnEnd U.Pipes.App.AppEnd U.conn U.began (A.answers app) L.state state came table ended
        → IsEmpty table → EachOnce (IsServed (A.answers app) L.state table.limits state) came ended }
{}
