//! A server over a reactor that names seats in an order that a seed draws, also free ones and ones that are not there: each
//! connection is served as it is alone, and told of once.
ghost use Rattle.std.specs.Prelude.{◌≡◌, ◌++◌, ◌∷◌, []};

use crate::drawn::INPUTS;
use crate::lines::{Input, Line, alone, comers_of};
use crate::serving::Draws;
use asgi_apps::{AppTask, Application, Echo, Hello};
use asgi_conn::{Host, Inline};
use asgi_fakes::text_of;
use asgi_io::History;
use asgi_many::{
    Departure, Move, Newcomer, Next, Reactor, Ready, Report, Rest, Served, Teller, serve_many,
};
use asgi_types::{Limits, State};
use futures::task::{Doorbell, Solo};
use std::alloc::AllocError;
use std::io;
use std::test::Fail;

/// Gives a connection for each input.
#[derive(Drop)]
struct Drawn {
    /// Those that come, the last one first.
    comers: Vec<Newcomer<Line>>,
    draws: Draws,
    seats: u64,
    /// The lines of those that have ended.
    closed: Vec<Line>,
    /// How often it was asked for a connection.
    asked: u64,
    told: History<Next<Line>>,
    moves: History<Move>,
}

impl Drawn {
    fn new<H: Host>(rt: &H, inputs: &[Input], seats: usize, seed: u64) -> Result<Self, AllocError> {
        let comers = comers_of(rt, inputs)?;
        Ok(Drawn {
            comers,
            draws: Draws { seed },
            seats: seats as u64,
            closed: Vec::new(rt.alloc()),
            asked: 0,
            told: History::new(),
            moves: History::new(),
        })
    }

    fn next(&mut self) -> Next<Line>
        ensures { (self.new.told ≡ self.old.told) × (self.new.moves ≡ self.old.moves) }
    {
        self.asked = self.asked.saturating_add(1);
        if self.draws.draw() % 3 == 0 {
            return Next::NoneNow;
        }
        match self.comers.pop() {
            Some(newcomer) => Next::Arrived(newcomer),
            None => Next::NoneEver,
        }
    }

    fn ready(&mut self) -> Ready
        ensures { (self.new.told ≡ self.old.told) × (self.new.moves ≡ self.old.moves) }
    {
        let drawn = self.draws.draw();
        if drawn % 4 == 0 {
            return Ready::Arrivals;
        }
        Ready::Tick(((drawn >> 8) % self.seats.saturating_add(2)) as usize)
    }
}

impl Reactor for Drawn {
    type L = Line;

    ghost answers = { λ r. r.told.items };

    ghost moves = { λ r. r.moves.items };

    ghost Kept = { Unit {0} };

    ghost kept = { λ _. tt };

    fn try_next(&mut self, _at: usize) -> Next<Line> {
        let next = self.next();
        self.told = History::with(&self.told, &next);
        self.moves = History::with(&self.moves, &next.as_move());
        next
    }

    fn wait(&mut self) -> Ready {
        let ready = self.ready();
        self.moves = History::with(&self.moves, &Move::Waited(ready));
        ready
    }

    fn may_go_on(&mut self, _at: usize, _line: &Line) -> bool {
        self.draws.draw() % 8 != 0
    }

    fn again(&mut self, _at: usize) {}

    fn rests(&mut self, _at: usize, _line: &Line, _rest: Rest) {}

    fn close(&mut self, _at: usize, line: Line) {
        let _kept = self.closed.push(line);
        self.moves = History::with(&self.moves, &Move::Freed);
    }
}

/// Keeps what it is told.
#[derive(Drop)]
struct Reports {
    list: Vec<(u64, Report)>,
}

impl Teller<Departure> for Reports {
    ghost tells = { λ _ _ _ _. Unit {0} };

    fn tell(&mut self, number: u64, departure: &Departure) {
        let _kept = self.list.push((number, departure.report));
    }
}

/// Serves all that come, and returns how that ended.
fn served<H: Host, A: Application>(
    rt: &H,
    app: &A,
    seats: usize,
    reactor: &mut Drawn,
    reports: &mut Reports,
) -> io::Result<Served> {
    let solo = Solo::new(rt, Doorbell::spinning())?;
    let state = State::new(rt.alloc());
    let mut runner = Inline::new(solo.begin());
    let served = serve_many(
        rt.alloc(),
        &Limits::usual(),
        seats,
        &state,
        app,
        reactor,
        &mut runner,
        reports,
    );
    runner.end();
    Ok(served?)
}

/// Whether the connection of this number ended as it does alone.
fn is_as_alone<H: Host, T: AppTask + Send + 'static, A: Application<Task = T>>(
    rt: &H,
    app: &A,
    told: &(u64, Report),
    ended: &Line,
) -> io::Result<bool> {
    let place = told.0.saturating_sub(1) as usize;
    let Some(input) = INPUTS.get(place) else {
        return Ok(false);
    };
    match alone(rt, app, &Limits::usual(), input, text_of(ended))? {
        Some((report, _)) => Ok((report, place) == (told.1, place)),
        None => Ok(false),
    }
}

/// Whether each of these ended as it does alone, and there are as many as inputs.
fn are_told<H: Host, T: AppTask + Send + 'static, A: Application<Task = T>>(
    rt: &H,
    app: &A,
    told: &[(u64, Report)],
    closed: &[Line],
) -> io::Result<bool> {
    for (one, ended) in told.iter().zip(closed.iter()) {
        if !is_as_alone(rt, app, one, ended)? {
            return Ok(false);
        }
    }
    Ok(closed.len() == INPUTS.len())
}

/// Whether each of these numbers is there once: 1 upwards.
fn are_all(told: &[(u64, Report)], many: usize) -> bool {
    for number in 1..=(many as u64) {
        if told.iter().filter(|it| it.0 == number).count() != 1 {
            return false;
        }
    }
    told.len() == many
}

/// Whether each that the reactor gives ends once, as it does alone.
fn is_served<H: Host, T: AppTask + Send + 'static, A: Application<Task = T>>(
    rt: &H,
    app: &A,
    seats: usize,
    reactor: &mut Drawn,
) -> io::Result<bool> {
    let mut reports = Reports {
        list: Vec::new(rt.alloc()),
    };
    let how = served(rt, app, seats, reactor, &mut reports)?;
    if how != Served::All || !are_all(&reports.list, INPUTS.len()) {
        return Ok(false);
    }
    are_told(rt, app, &reports.list, &reactor.closed)
}

fn are_as_alone<H: Host, T: AppTask + Send + 'static, A: Application<Task = T>>(
    rt: &H,
    app: &A,
    seats: usize,
    seed: u64,
) -> io::Result<bool> {
    let mut reactor = Drawn::new(rt, INPUTS, seats, seed)?;
    is_served(rt, app, seats, &mut reactor)
}

const SEATS: &[usize] = &[1, 2, 5, 64];

/// Fails with the first number of seats, and the number of the seed, with which one ends otherwise than alone.
fn check<H: Host, T: AppTask + Send + 'static, A: Application<Task = T>>(
    rt: &H,
    app: &A,
    seed: u64,
) -> Result<(), Fail> {
    for seats in SEATS {
        for number in 1..6u64 {
            if !are_as_alone(rt, app, *seats, seed.saturating_mul(number))? {
                return Err(Fail::from((*seats, number)));
            }
        }
    }
    Ok(())
}

#[test]
fn a_server_greets_each_as_one_alone(rt: HostRuntime) -> Result<(), Fail> {
    check(&rt, &Hello, 7_919)
}

#[test]
fn a_server_echoes_to_each_as_one_alone(rt: HostRuntime) -> Result<(), Fail> {
    check(&rt, &Echo, 104_729)
}

/// Serves all inputs, or asks for none where memory is refused before the first.
fn holds_with_memory<H: Host>(rt: &H) -> io::Result<bool> {
    let mut reactor = Drawn::new(rt, INPUTS, 4, 7_919)?;
    is_served_or_unasked(rt, &mut reactor)
}

/// The same of this reactor.
fn is_served_or_unasked<H: Host>(rt: &H, reactor: &mut Drawn) -> io::Result<bool> {
    let mut reports = Reports {
        list: Vec::new(rt.alloc()),
    };
    match served(rt, &Hello, 4, reactor, &mut reports) {
        Ok(how) => Ok(how == Served::All && reports.list.len() <= INPUTS.len()),
        Err(e) if reactor.asked == 0 => Err(e),
        Err(_) => Ok(false),
    }
}

/// Only one allocation is refused, so of two runs one has all that it needs.
#[test]
fn memory_for_a_server_of_many(rt: HostRuntime) -> Result<(), Fail> {
    let holds = match holds_with_memory(&rt) {
        Ok(holds) => holds,
        Err(_) => holds_with_memory(&rt)?,
    };
    assert!(rt; holds);
    Ok(())
}
