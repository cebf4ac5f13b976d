//! Pairs made out of the ends of another one behave as fresh ones.
use super::http::{EVERY_ANSWER, PAIR_OF_TWO_PLACES};
use super::{Answer, Pair, PlainPair, Ran, RingPair, Row, Step, facts, is_left, run_on, solo_of};
use asgi_pipes::EndKind;
use asgi_types::Kind;
use futures::task::Solo;
use std::alloc::{AllocError, AllocGlobal, Global};
use std::process::Abort;
use std::random::RandomSource;
use std::test::Fail;

/// Leaves an item in each queue of both ends: an event that was carried and the disconnect in the one
/// direction, the close that was carried and the end in the other.
const LEAVES_ITEMS: &[Row] = &[
    (Step::OfferConnect, Answer::Taken),
    (Step::Carry, Answer::Nothing),
    (Step::Receive, Answer::Event("connect", 0)),
    (Step::Accept, Answer::Done),
    (Step::Carry, Answer::Nothing),
    (Step::Take, Answer::Event("accept", 0)),
    (Step::OfferMessage(7), Answer::Taken),
    (Step::Carry, Answer::Nothing),
    (Step::Close(1000), Answer::Done),
    (Step::Carry, Answer::Nothing),
    (Step::Receive, Answer::Event("disconnect", 1000)),
    (Step::BreakSession(1001), Answer::Yes),
    (Step::Finish(EndKind::Faulted), Answer::Yes),
];

/// Nothing came through, and nothing moved.
const NOTHING_CAME: &[Row] = &[
    (Step::Take, Answer::Nothing),
    (Step::Receive, Answer::Pending),
    (Step::Moved, Answer::No),
];

/// What the table returned on the pair before, and what the one on the new pair returned.
type Twice = (Ran, Ran);

/// Runs a table on a WebSocket pair of this many places, and the rows on an HTTP pair out of its ends.
fn run_twice<P: Pair>(
    alloc: Global,
    solo: &Solo,
    ring: usize,
    rows: &[Row],
) -> Result<Twice, AllocError> {
    let mut pair = P::made(alloc, Kind::WebSocket, facts(alloc), ring)?;
    match run_on(alloc, solo, &mut pair, false, LEAVES_ITEMS) {
        Ok(before) => Ok((before, run_renewed(alloc, solo, pair, rows)?)),
        Err(refused) => Err(refused),
    }
}

/// Runs the rows on an HTTP pair of two places.
fn run_renewed<P: Pair>(
    alloc: Global,
    solo: &Solo,
    pair: P,
    rows: &[Row],
) -> Result<Ran, AllocError> {
    let mut pair = pair.renewed(alloc, Kind::Http, facts(alloc), 2)?;
    run_on(alloc, solo, &mut pair, true, rows)
}

/// Each leaves nothing on the new pair.
const TABLES: &[&[Row]] = &[NOTHING_CAME, PAIR_OF_TWO_PLACES, EVERY_ANSWER];

fn check_renewed<P: Pair, R: Abort + AllocGlobal>(
    rt: &R,
    solo: &Solo,
    ring: usize,
) -> Result<(), Fail> {
    for (place, rows) in TABLES.iter().enumerate() {
        let (before, after) = run_twice::<P>(rt.alloc(), solo, ring, rows)?;
        assert!(rt;
            is_left(&before, (2, 2)) && is_left(&after, (0, 0)),
            "{ring}, table {place}"
        );
    }
    Ok(())
}

#[test]
fn renewed_pair_answers_as_a_fresh_one(rt: HostRuntime) -> Result<(), Fail> {
    let solo = solo_of(&rt)?;
    // The pair before has as many places, fewer, or more.
    for ring in [2, 1, 3] {
        check_renewed::<PlainPair, HostRuntime>(&rt, &solo, ring)?;
        check_renewed::<RingPair, HostRuntime>(&rt, &solo, ring)?;
    }
    Ok(())
}
