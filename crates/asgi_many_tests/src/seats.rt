//! Who gets a seat, who comes back, and whose turns and pauses are counted.
ghost use Rattle.std.specs.Prelude.{◌≡◌, List, Option};
ghost use Rattle.asgi_many.specs.declared.seat.Ended.{Ended};
ghost use Rattle.asgi_many.specs.declared.seat.Newcomer.{Newcomer};
ghost use Rattle.asgi_many.specs.Standing.{Holds};

use crate::held::{seat_of, table_of, turn_of};
use crate::lines::newcomer;
use asgi_apps::{Application, Hello};
use asgi_conn::{Calls, Host, Inline, Line as AnyLine, Outcome, Runner};
use asgi_fakes::texts::GET;
use asgi_fakes::{GONE, Gone, Memory, Never, STREAM, gone_line, line_of};
use asgi_many::{Cause, Ended, Newcomer, Table, Turned};
use asgi_types::{Limits, State};
use asgi_ws::Script;
use futures::task::{Doorbell, Solo};
use std::alloc::AllocGlobal;
use std::io;
use std::test::Fail;

/// Whether its client has this port.
fn is_from<L>(back: &Newcomer<L>, port: u16) -> bool {
    match &back.client {
        Some(client) => client.port == port,
        None => false,
    }
}

/// How many of so many newcomers get a seat, and whether the others come back with their own ports, the first one in the
/// seat that the table named.
fn seated<H: Host, X: Drop, A: Application, U: Runner<A::Task, Exchange = X>>(
    rt: &H,
    _runner: &U,
    app: &A,
    places: usize,
    many: u16,
) -> io::Result<(usize, bool)> {
    let _app = app;
    let state = State::new(rt.alloc());
    let mut table = Table::new::<A, U>(rt.alloc(), &Limits::usual(), places)?;
    let mut holds = table.is_empty() && table.places() == places;
    for port in 0..many {
        let next = table.next_seat();
        let is_full = table.is_full();
        match table.seat::<A, U>(&state, newcomer(rt, &(GET, 1, false), port)?) {
            Ok(at) => holds = holds && !is_full && at == next && at < table.bound(),
            Err(back) => holds = holds && is_full && is_from(&back, port),
        }
    }
    Ok((table.len(), holds))
}

/// How many places there are, how many come, and how many of them get a seat.
const ROWS: &[(usize, u16, usize)] = &[
    (0, 2, 0),
    (1, 0, 0),
    (1, 1, 1),
    (1, 3, 1),
    (3, 2, 2),
    (3, 9, 3),
];

/// The same of a table whose connections run in this thread.
fn seated_inline<H: Host>(rt: &H, places: usize, many: u16) -> io::Result<(usize, bool)> {
    let solo = Solo::new(rt, Doorbell::spinning())?;
    let runner = Inline::new(solo.begin());
    let got = seated(rt, &runner, &Hello, places, many);
    runner.end();
    got
}

#[test]
fn one_that_finds_no_seat_comes_back(rt: HostRuntime) -> Result<(), Fail> {
    for (places, many, wanted) in ROWS {
        assert!(rt;
            seated_inline(&rt, *places, *many)? == (*wanted, true),
            "{places} places, {many} come"
        );
    }
    Ok(())
}

/// A line on which nothing comes.
type Mute = Memory<Never>;

/// Takes so many turns of a seat, or until its connection has ended.
fn turns<X, A: Application, L: AnyLine, U: Runner<A::Task, Exchange = X>>(
    table: &mut Table<X, L>,
    state: &State,
    calls: &mut Calls<'_, A>,
    runner: &mut U,
    at: usize,
    cause: Cause,
    many: u64,
) -> Option<Ended<L>>
    requires { (came : List (Newcomer L)) × (ended : List (Option (Ended L)))
        × Holds A.Task.answers U.Pipes.Conn.ConnEnd U.Pipes.App.AppEnd U.conn U.began (A.answers calls.old.app.now) L.state state.now came table.old ended }
    ensures { (came : List (Newcomer L)) × (ended : List (Option (Ended L)))
        × Holds A.Task.answers U.Pipes.Conn.ConnEnd U.Pipes.App.AppEnd U.conn U.began (A.answers calls.new.app.now) L.state state.now came table.new ended }
{
    for _turn in 0..many {
        match turn_of(table, state, calls, runner, at, cause) {
            Turned::Over(end) => return Some(end),
            Turned::NoOne => {}
            Turned::Moved => {}
            Turned::Idle => {}
        }
    }
    None
}

/// Whether a connection that ended has this number, was idle, and was paused for as often as it may be.
fn is_silent<L>(end: &Option<Ended<L>>, number: u64, pauses: u64) -> bool {
    let Some(end) = end else {
        return false;
    };
    let same = end.number == number && end.pauses == pauses;
    same && end.report.outcome == Outcome::Idle && end.report.turns == pauses
}

/// Whether its connection has not ended after so many turns.
fn stays<X, A: Application, L: AnyLine + Drop, U: Runner<A::Task, Exchange = X>>(
    table: &mut Table<X, L>,
    state: &State,
    calls: &mut Calls<'_, A>,
    runner: &mut U,
    at: usize,
    cause: Cause,
    many: u64,
) -> bool
    requires { (came : List (Newcomer L)) × (ended : List (Option (Ended L)))
        × Holds A.Task.answers U.Pipes.Conn.ConnEnd U.Pipes.App.AppEnd U.conn U.began (A.answers calls.old.app.now) L.state state.now came table.old ended }
    ensures { (came : List (Newcomer L)) × (ended : List (Option (Ended L)))
        × Holds A.Task.answers U.Pipes.Conn.ConnEnd U.Pipes.App.AppEnd U.conn U.began (A.answers calls.new.app.now) L.state state.now came table.new ended }
{
    turns(table, state, calls, runner, at, cause, many).is_none()
}

/// Whether its connection is given up after five ticks, of which these are the last.
fn is_over<X, A: Application, L: AnyLine + Drop, U: Runner<A::Task, Exchange = X>>(
    table: &mut Table<X, L>,
    state: &State,
    calls: &mut Calls<'_, A>,
    runner: &mut U,
    at: usize,
    many: u64,
    number: u64,
) -> bool
    requires { (came : List (Newcomer L)) × (ended : List (Option (Ended L)))
        × Holds A.Task.answers U.Pipes.Conn.ConnEnd U.Pipes.App.AppEnd U.conn U.began (A.answers calls.old.app.now) L.state state.now came table.old ended }
    ensures { (came : List (Newcomer L)) × (ended : List (Option (Ended L)))
        × Holds A.Task.answers U.Pipes.Conn.ConnEnd U.Pipes.App.AppEnd U.conn U.began (A.answers calls.new.app.now) L.state state.now came table.new ended }
{
    let end = turns(table, state, calls, runner, at, Cause::Tick, many);
    is_silent(&end, number, 5)
}

/// Whether the first is given up after five ticks of its own, however often it was woken for nothing, and whatever the second took.
fn take_turns<X, A: Application, L: AnyLine + Drop, U: Runner<A::Task, Exchange = X>>(
    table: &mut Table<X, L>,
    state: &State,
    calls: &mut Calls<'_, A>,
    runner: &mut U,
    first: usize,
    second: usize,
) -> bool
    requires { (came : List (Newcomer L)) × (ended : List (Option (Ended L)))
        × Holds A.Task.answers U.Pipes.Conn.ConnEnd U.Pipes.App.AppEnd U.conn U.began (A.answers calls.old.app.now) L.state state.now came table.old ended }
{
    let woken = stays(table, state, calls, runner, first, Cause::Wake, 20);
    let early = stays(table, state, calls, runner, first, Cause::Tick, 5);
    let between = stays(table, state, calls, runner, second, Cause::Tick, 3);
    let at_limit = is_over(table, state, calls, runner, first, 1, 0);
    let after = stays(table, state, calls, runner, first, Cause::Tick, 9);
    let left = table.len();
    let last = is_over(table, state, calls, runner, second, 3, 1);
    woken && early && between && at_limit && after && left == 1 && last && table.is_empty()
}

/// Two silent connections, within five idle turns.
fn are_given_up<H: Host, X: Drop, A: Application, U: Runner<A::Task, Exchange = X>>(
    rt: &H,
    app: &A,
    runner: &mut U,
) -> io::Result<bool> {
    let one = silent(rt)?;
    let other = silent(rt)?;
    let state = State::new(rt.alloc());
    let mut calls = Calls::of(app);
    let mut limits = Limits::usual();
    limits.idle_turns = 5;
    let mut table = table_of::<X, A, Mute, U>(rt.alloc(), &limits, 2, &state, &calls)?;
    let Ok(first) = seat_of::<X, A, Mute, U>(&mut table, &state, &calls, one) else {
        return Ok(false);
    };
    let Ok(second) = seat_of::<X, A, Mute, U>(&mut table, &state, &calls, other) else {
        return Ok(false);
    };
    Ok(take_turns(&mut table, &state, &mut calls, runner, first, second))
}

/// One that says nothing.
fn silent<H: AllocGlobal>(rt: &H) -> io::Result<Newcomer<Mute>> {
    Ok(Newcomer {
        line: line_of(rt, Never)?,
        client: None,
        server: None,
    })
}

fn are_given_up_inline<H: Host>(rt: &H) -> io::Result<bool> {
    let solo = Solo::new(rt, Doorbell::spinning())?;
    let mut runner = Inline::new(solo.begin());
    let given_up = are_given_up(rt, &Hello, &mut runner);
    runner.end();
    given_up
}

#[test]
fn silent_seats_are_given_up_by_their_own_turns(rt: HostRuntime) -> Result<(), Fail> {
    assert!(rt; are_given_up_inline(&rt)?);
    Ok(())
}

/// Whether it ended by a write that failed so, and five ticks after that.
fn is_left<L>(end: &Option<Ended<L>>, out: usize) -> bool {
    let Some(end) = end else {
        return false;
    };
    let ended = (end.report.outcome, end.report.exchanges) == (Outcome::WriteFailed(out), 1);
    ended && (end.report.idle, end.pauses) == (5, 5)
}

/// Whether a stream whose client goes is given up after five ticks, however often it was woken.
fn take_turns_of_stream<X, A: Application, L: AnyLine + Drop, U: Runner<A::Task, Exchange = X>>(
    table: &mut Table<X, L>,
    state: &State,
    calls: &mut Calls<'_, A>,
    runner: &mut U,
    at: usize,
    out: usize,
) -> bool
    requires { (came : List (Newcomer L)) × (ended : List (Option (Ended L)))
        × Holds A.Task.answers U.Pipes.Conn.ConnEnd U.Pipes.App.AppEnd U.conn U.began (A.answers calls.old.app.now) L.state state.now came table.old ended }
{
    let woken = stays(table, state, calls, runner, at, Cause::Wake, 50);
    let early = stays(table, state, calls, runner, at, Cause::Tick, 5);
    let end = turns(table, state, calls, runner, at, Cause::Tick, 1);
    woken && early && is_left(&end, out)
}

/// The same of the only one that has come.
fn is_left_by<H: Host, X: Drop, A: Application, U: Runner<A::Task, Exchange = X>>(
    rt: &H,
    app: &A,
    runner: &mut U,
    row: &Gone,
) -> io::Result<bool> {
    let one = Newcomer {
        line: gone_line(rt, row)?,
        client: None,
        server: None,
    };
    let state = State::new(rt.alloc());
    let mut calls = Calls::of(app);
    let mut limits = Limits::usual();
    limits.idle_turns = 5;
    let mut table = table_of::<X, A, Script, U>(rt.alloc(), &limits, 1, &state, &calls)?;
    let Ok(at) = seat_of::<X, A, Script, U>(&mut table, &state, &calls, one) else {
        return Ok(false);
    };
    Ok(take_turns_of_stream(&mut table, &state, &mut calls, runner, at, row.2))
}

fn is_left_inline<H: Host>(rt: &H, row: &Gone) -> io::Result<bool> {
    let solo = Solo::new(rt, Doorbell::spinning())?;
    let mut runner = Inline::new(solo.begin());
    let left = is_left_by(rt, &STREAM, &mut runner, row);
    runner.end();
    left
}

#[test]
fn a_stream_ends_by_ticks_once_its_client_has_gone(rt: HostRuntime) -> Result<(), Fail> {
    for (place, row) in GONE.iter().enumerate() {
        assert!(rt; is_left_inline(&rt, row)?, "row {place}");
    }
    Ok(())
}
