//! Pairs of ends with 1,024 places each way, the most that the limits of a connection have.
use super::{
    Answer, Left, Pair, PlainPair, RingPair, Row, Step, code_of, facts, is_so_at, run, solo_of,
};
use asgi_pipes::EndKind;
use asgi_types::Kind;
use futures::task::{Context, Solo};
use std::alloc::{AllocError, AllocGlobal, Global};
use std::process::Abort;
use std::random::RandomSource;
use std::test::Fail;

/// The event places of each direction.
const PLACES: usize = 1_024;

/// The byte of the event of this number. No two rows of 256 begin alike, so an event that is lost or moved shows.
fn byte_of(number: usize) -> u8 {
    ((number % 256 + number / 256 % 256) % 256) as u8
}

/// What is done with 1,024 events in a row.
#[derive(Clone, Copy)]
enum Many {
    Offer,
    Receive,
    Say,
    Take,
}

/// What is received or taken of the event of this number.
fn body_of(number: usize) -> Answer {
    Answer::Event("body", code_of(byte_of(number)))
}

/// The call for the event of this number, with its result.
fn row_of(many: Many, number: usize) -> Row {
    match many {
        Many::Offer => (Step::Offer(byte_of(number)), Answer::Taken),
        Many::Receive => (Step::Receive, body_of(number)),
        Many::Say => (Step::Body(byte_of(number)), Answer::Done),
        Many::Take => (Step::Take, body_of(number)),
    }
}

/// A part of a table: these rows, or those of the events from this number on, up to the last place.
#[derive(Clone, Copy)]
enum Part {
    Rows(&'static [Row]),
    Events(Many, usize),
}

/// All places are taken inward, and the reserved one by the disconnect.
const INWARD_FULL: Part = Part::Rows(&[
    (Step::Offer(7), Answer::Back),
    (Step::Break, Answer::Yes),
    (Step::Offer(7), Answer::Back),
    (Step::Break, Answer::No),
    (Step::Carry, Answer::Nothing),
]);

const INWARD_HEARD: Part = Part::Rows(&[
    (Step::Receive, Answer::Event("disconnect", 0)),
    (Step::Receive, Answer::Event("disconnect", 0)),
]);

/// 1,024 events are offered, and then the disconnect. They are received, the disconnect last and again.
const INWARD: &[Part] = &[
    Part::Events(Many::Offer, 0),
    INWARD_FULL,
    Part::Events(Many::Receive, 0),
    INWARD_HEARD,
];

const STARTED: Part = Part::Rows(&[(Step::Start(200), Answer::Done)]);

/// All places are taken outward, and the reserved one by the end.
const OUTWARD_FULL: Part = Part::Rows(&[
    (Step::Body(7), Answer::Full),
    (Step::LastBody(7), Answer::Full),
    (Step::Finish(EndKind::Returned), Answer::Yes),
    (Step::Carry, Answer::Nothing),
]);

const START_TAKEN: Part = Part::Rows(&[(Step::Take, Answer::Event("start", 200))]);

const OUTWARD_TAKEN: Part = Part::Rows(&[
    (Step::Take, Answer::Ended(EndKind::Returned)),
    (Step::Take, Answer::Nothing),
]);

/// 1,024 events are sent, a start and 1,023 bodies, and then the end. They are taken, the end last.
const OUTWARD: &[Part] = &[
    STARTED,
    Part::Events(Many::Say, 1),
    OUTWARD_FULL,
    START_TAKEN,
    Part::Events(Many::Take, 1),
    OUTWARD_TAKEN,
];

/// Each way is filled, and nothing is received or taken.
const BOTH_FULL: &[Part] = &[
    STARTED,
    Part::Events(Many::Say, 1),
    OUTWARD_FULL,
    Part::Events(Many::Offer, 0),
    INWARD_FULL,
];

/// The part and its first row, or the number of its first event, whose result differs.
type Other = Option<(usize, usize)>;

/// The results of the parts, and what was left after them.
type Ran = (Other, Left);

fn run_events<P: Pair>(
    alloc: Global,
    cx: &mut Context<'_>,
    pair: &mut P,
    carries: bool,
    (many, from): (Many, usize),
) -> Result<Option<usize>, AllocError> {
    for number in from..PLACES {
        if !is_so_at(alloc, cx, pair, carries, row_of(many, number))? {
            return Ok(Some(number));
        }
    }
    Ok(None)
}

fn run_part<P: Pair>(
    alloc: Global,
    cx: &mut Context<'_>,
    pair: &mut P,
    carries: bool,
    part: Part,
) -> Result<Option<usize>, AllocError> {
    match part {
        Part::Rows(rows) => run(alloc, cx, pair, carries, rows),
        Part::Events(many, from) => run_events(alloc, cx, pair, carries, (many, from)),
    }
}

fn run_parts<P: Pair>(
    alloc: Global,
    cx: &mut Context<'_>,
    pair: &mut P,
    carries: bool,
    parts: &[Part],
) -> Result<Other, AllocError> {
    for (place, part) in parts.iter().enumerate() {
        if let Some(other) = run_part(alloc, cx, pair, carries, *part)? {
            return Ok(Some((place, other)));
        }
    }
    Ok(None)
}

/// Runs the parts on the pair, within one poll.
fn run_on<P: Pair>(
    alloc: Global,
    solo: &Solo,
    pair: &mut P,
    carries: bool,
    parts: &[Part],
) -> Result<Ran, AllocError> {
    let mut cx = solo.begin();
    let other = run_parts(alloc, &mut cx, pair, carries, parts);
    cx.cancel();
    Ok((other?, pair.left_in()))
}

fn run_fresh<P: Pair>(
    alloc: Global,
    solo: &Solo,
    carries: bool,
    parts: &[Part],
) -> Result<Ran, AllocError> {
    let mut pair = P::made(alloc, Kind::Http, facts(alloc), PLACES)?;
    run_on(alloc, solo, &mut pair, carries, parts)
}

/// The results of the parts over plain ends, with nothing carried and with all carried after each call, and over rings.
fn run_all<R: RandomSource + AllocGlobal>(
    rt: &R,
    parts: &[Part],
) -> Result<(Ran, Ran, Ran), AllocError> {
    let solo = solo_of(rt)?;
    let late = run_fresh::<PlainPair>(rt.alloc(), &solo, false, parts)?;
    let carried = run_fresh::<PlainPair>(rt.alloc(), &solo, true, parts)?;
    let over_rings = run_fresh::<RingPair>(rt.alloc(), &solo, false, parts)?;
    Ok((late, carried, over_rings))
}

/// Compares each result of the parts and what is left in the queues.
fn check<R: Abort + RandomSource + AllocGlobal>(
    rt: &R,
    parts: &[Part],
    left: Left,
) -> Result<(), Fail> {
    let ran = run_all(rt, parts)?;
    assert!(rt;
        ran == ((None, left), (None, left), (None, left)),
        "{ran:?}"
    );
    Ok(())
}

#[test]
fn events_go_through_1024_places(rt: HostRuntime) -> Result<(), Fail> {
    check(&rt, INWARD, (0, 0))
}

#[test]
fn what_is_said_goes_through_1024_places(rt: HostRuntime) -> Result<(), Fail> {
    check(&rt, OUTWARD, (0, 0))
}

#[test]
fn what_stays_in_full_queues_is_counted(rt: HostRuntime) -> Result<(), Fail> {
    check(&rt, BOTH_FULL, (1_025, 1_025))
}
