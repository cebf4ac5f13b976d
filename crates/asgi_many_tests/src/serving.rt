//! A table whose seats are named in an order that a seed sets.
ghost use Rattle.std.specs.Prelude.{◌≡◌, List, Option};
ghost use Rattle.asgi_many.specs.declared.seat.Ended.{Ended};
ghost use Rattle.asgi_many.specs.declared.seat.Newcomer.{Newcomer};
ghost use Rattle.asgi_many.specs.Standing.{Holds};

use crate::held::{seat_of, table_of, turn_of};
use crate::lines::{Input, Line, comers_of};
use asgi_apps::Application;
use asgi_conn::{Calls, Host, Inline, Line as AnyLine, Runner};
use asgi_many::{Cause, Ended, Newcomer, Table, Turned};
use asgi_types::{Limits, State};
use futures::task::{Doorbell, Solo};
use std::alloc::{AllocError, Global};
use std::io::{self, ErrorKind};

/// The most steps of a run.
const STEPS: u64 = 1_000_000;

/// Numbers in an order that a seed sets.
#[derive(Clone, Copy)]
pub struct Draws {
    pub seed: u64,
}

impl Draws {
    pub fn draw(&mut self) -> u64 {
        self.seed ^= self.seed << 13;
        self.seed ^= self.seed >> 7;
        self.seed ^= self.seed << 17;
        self.seed
    }
}

/// What a run came to.
#[derive(Drop)]
pub struct Ran<L> {
    /// What ended, at the places of the numbers.
    pub ends: Vec<Option<Ended<L>>>,
    /// How often a seat was named in which nobody sat.
    pub nobody: u64,
    /// Two ended under one number, or one under the number of none.
    pub is_wrong: bool,
}

impl<L: Drop> Ran<L> {
    /// Nothing has ended of so many.
    fn new(alloc: Global, many: usize) -> Result<Self, AllocError> {
        let mut ends = Vec::new(alloc);
        for _one in 0..many {
            ends.push(None)?;
        }
        Ok(Ran {
            ends,
            nobody: 0,
            is_wrong: false,
        })
    }

    fn take(&mut self, turned: Turned<L>) {
        match turned {
            Turned::NoOne => self.nobody = self.nobody.saturating_add(1),
            Turned::Moved => {}
            Turned::Idle => {}
            Turned::Over(end) => self.put(end),
        }
    }

    fn put(&mut self, end: Ended<L>) {
        let Some(place) = self.ends.get_mut(end.number as usize) else {
            self.is_wrong = true;
            return;
        };
        if place.is_some() {
            self.is_wrong = true;
            return;
        }
        *place = Some(end);
    }
}

/// One that waits is given a seat, or waits on if the table is full; or a seat takes a turn, which may be free or not there.
fn step<X, A: Application, L: AnyLine + Drop, U: Runner<A::Task, Exchange = X>>(
    table: &mut Table<X, L>,
    state: &State,
    calls: &mut Calls<'_, A>,
    runner: &mut U,
    waiting: &mut Option<Newcomer<L>>,
    drawn: u64,
) -> Turned<L>
    requires { (came : List (Newcomer L)) × (ended : List (Option (Ended L)))
        × Holds A.Task.answers U.Pipes.Conn.ConnEnd U.Pipes.App.AppEnd U.conn U.began (A.answers calls.old.app.now) L.state state.now came table.old ended }
    ensures { (came : List (Newcomer L)) × (ended : List (Option (Ended L)))
        × Holds A.Task.answers U.Pipes.Conn.ConnEnd U.Pipes.App.AppEnd U.conn U.began (A.answers calls.new.app.now) L.state state.now came table.new ended }
{
    if drawn % 4 != 0 {
        let many = (table.bound() as u64).saturating_add(2);
        let at = ((drawn >> 8) % many) as usize;
        return turn_of(table, state, calls, runner, at, Cause::Tick);
    }
    let Some(newcomer) = waiting.take() else {
        return Turned::NoOne;
    };
    match seat_of::<X, A, L, U>(table, state, calls, newcomer) {
        Ok(_) => Turned::NoOne,
        Err(back) => {
            *waiting = Some(back);
            Turned::NoOne
        }
    }
}

/// Serves one connection for each input, over a table with so many places.
pub fn run<H: Host, A: Application>(
    rt: &H,
    app: &A,
    limits: &Limits,
    inputs: &[Input],
    places: usize,
    draws: Draws,
) -> io::Result<Ran<Line>> {
    let solo = Solo::new(rt, Doorbell::spinning())?;
    let comers = comers_of(rt, inputs)?;
    let mut runner = Inline::new(solo.begin());
    let state = State::new(rt.alloc());
    let ran = run_by(
        rt.alloc(),
        app,
        limits,
        &state,
        comers,
        places,
        draws,
        &mut runner,
    );
    runner.end();
    ran
}

fn run_by<X: Drop, A: Application, L: AnyLine + Drop, U: Runner<A::Task, Exchange = X>>(
    alloc: Global,
    app: &A,
    limits: &Limits,
    state: &State,
    comers: Vec<Newcomer<L>>,
    places: usize,
    draws: Draws,
    runner: &mut U,
) -> io::Result<Ran<L>> {
    let mut calls = Calls::of(app);
    let mut draws = draws;
    let mut comers = comers;
    let mut ran = Ran::new(alloc, comers.len())?;
    let mut table = table_of::<X, A, L, U>(alloc, limits, places, state, &calls)?;
    let mut waiting = None;
    for _step in 0..STEPS {
        if waiting.is_none() {
            waiting = comers.pop();
        }
        if waiting.is_none() && table.is_empty() {
            return Ok(ran);
        }
        let drawn = draws.draw();
        let turned = step(&mut table, state, &mut calls, runner, &mut waiting, drawn);
        ran.take(turned);
    }
    Err(io::Error::from(ErrorKind::TimedOut))
}
