//! Pairs of ends in HTTP scopes.
use super::{Answer, Row, Step, check};
use asgi_pipes::EndKind;
use asgi_types::Kind;
use std::test::Fail;

const DISCONNECT: Answer = Answer::Event("disconnect", 0);

/// Two places: each call's result, with what was put carried after each call.
pub const PAIR_OF_TWO_PLACES: &[Row] = &[
    (Step::Offer(1), Answer::Taken),
    (Step::Offer(2), Answer::Taken),
    (Step::Offer(3), Answer::Back),
    (Step::Break, Answer::Yes),
    (Step::Break, Answer::No),
    (Step::Receive, Answer::Event("body", 1)),
    (Step::Receive, Answer::Event("body", 2)),
    (Step::Receive, DISCONNECT),
    (Step::Receive, DISCONNECT),
    (Step::Finish(EndKind::Returned), Answer::Yes),
    (Step::Take, Answer::Ended(EndKind::Returned)),
    (Step::Take, Answer::Nothing),
];

#[test]
fn pair_of_two_places(rt: HostRuntime) -> Result<(), Fail> {
    check(&rt, Kind::Http, 2, true, PAIR_OF_TWO_PLACES, (0, 0))
}

pub const EVERY_ANSWER: &[Row] = &[
    (Step::Moved, Answer::No),
    (Step::Receive, Answer::Pending),
    (Step::Moved, Answer::No),
    (Step::Body(1), Answer::Refused(4)),
    (Step::Moved, Answer::No),
    (Step::Start(200), Answer::Done),
    (Step::Moved, Answer::Yes),
    (Step::Moved, Answer::No),
    (Step::Body(1), Answer::Done),
    (Step::Body(2), Answer::Full),
    (Step::Start(200), Answer::Refused(4)),
    (Step::Take, Answer::Event("start", 200)),
    (Step::Body(2), Answer::Done),
    (Step::LastBody(3), Answer::Full),
    (Step::Take, Answer::Event("body", 1)),
    (Step::LastBody(3), Answer::Done),
    (Step::LastBody(3), Answer::Ignored),
    (Step::Moved, Answer::Yes),
    (Step::Receive, DISCONNECT),
    (Step::Moved, Answer::No),
    (Step::Finish(EndKind::Faulted), Answer::Yes),
    (Step::Finish(EndKind::Returned), Answer::No),
    (Step::Moved, Answer::Yes),
    (Step::Take, Answer::Event("body", 2)),
    (Step::Take, Answer::Event("last", 3)),
    (Step::Take, Answer::Ended(EndKind::Faulted)),
    (Step::Take, Answer::Nothing),
];

#[test]
fn every_answer_of_a_send(rt: HostRuntime) -> Result<(), Fail> {
    check(&rt, Kind::Http, 2, true, EVERY_ANSWER, (0, 0))
}

/// What was offered is not received after the complete response, and is left.
const COMPLETE_RESPONSE: &[Row] = &[
    (Step::Offer(1), Answer::Taken),
    (Step::Receive, Answer::Event("body", 1)),
    (Step::Moved, Answer::Yes),
    (Step::Offer(2), Answer::Taken),
    (Step::Start(299), Answer::Done),
    (Step::LastBody(0), Answer::Done),
    (Step::Receive, DISCONNECT),
    (Step::Break, Answer::Yes),
    (Step::Receive, DISCONNECT),
    (Step::Take, Answer::Event("start", 299)),
    (Step::Finish(EndKind::Idle), Answer::Yes),
    (Step::Take, Answer::Event("last", 0)),
];

#[test]
fn nothing_is_heard_after_a_complete_response(rt: HostRuntime) -> Result<(), Fail> {
    check(&rt, Kind::Http, 3, true, COMPLETE_RESPONSE, (2, 1))
}

/// After the last body of a response that has announced trailers, what is offered is still received; after the last
/// trailers only disconnects are.
const TRAILERS_ARE_DUE: &[Row] = &[
    (Step::Announce(200), Answer::Done),
    (Step::Trailers, Answer::Refused(4)),
    (Step::LastBody(1), Answer::Done),
    (Step::Receive, Answer::Pending),
    (Step::Offer(1), Answer::Taken),
    (Step::Receive, Answer::Event("body", 1)),
    (Step::LastBody(2), Answer::Refused(4)),
    (Step::Trailers, Answer::Done),
    (Step::Receive, Answer::Pending),
    (Step::Offer(2), Answer::Taken),
    (Step::LastTrailers, Answer::Done),
    (Step::Receive, DISCONNECT),
    (Step::Receive, DISCONNECT),
    (Step::LastTrailers, Answer::Ignored),
    (Step::Take, Answer::Event("start", 200)),
    (Step::Take, Answer::Event("last", 1)),
    (Step::Take, Answer::Event("trailers", 0)),
    (Step::Take, Answer::Event("last trailers", 0)),
    (Step::Take, Answer::Nothing),
];

/// A disconnect that is offered while trailers are due is received, and they are refused from then on.
const TRAILERS_ARE_LEFT: &[Row] = &[
    (Step::Announce(200), Answer::Done),
    (Step::LastBody(1), Answer::Done),
    (Step::Break, Answer::Yes),
    (Step::Receive, DISCONNECT),
    (Step::LastTrailers, Answer::Refused(2)),
    (Step::Receive, DISCONNECT),
];

#[test]
fn last_trailers_close_and_not_the_body_before_them(rt: HostRuntime) -> Result<(), Fail> {
    check(&rt, Kind::Http, 4, true, TRAILERS_ARE_DUE, (1, 0))?;
    check(&rt, Kind::Http, 4, true, TRAILERS_ARE_LEFT, (0, 2))
}

/// After a received disconnect nothing passes.
const AFTER_A_DISCONNECT: &[Row] = &[
    (Step::Start(204), Answer::Done),
    (Step::Break, Answer::Yes),
    (Step::Body(1), Answer::Done),
    (Step::Receive, DISCONNECT),
    (Step::LastBody(2), Answer::Refused(2)),
    (Step::Offer(1), Answer::Back),
    (Step::Take, Answer::Event("start", 204)),
    (Step::Take, Answer::Event("body", 1)),
    (Step::Take, Answer::Nothing),
];

#[test]
fn nothing_is_said_after_a_heard_disconnect(rt: HostRuntime) -> Result<(), Fail> {
    check(&rt, Kind::Http, 4, true, AFTER_A_DISCONNECT, (0, 0))
}

/// What was put stays at its end until it is carried, and its places with it.
const CARRIED_LATE: &[Row] = &[
    (Step::Offer(1), Answer::Taken),
    (Step::Offer(2), Answer::Taken),
    (Step::Offer(3), Answer::Back),
    (Step::Receive, Answer::Pending),
    (Step::Carry, Answer::Nothing),
    (Step::Offer(3), Answer::Back),
    (Step::Receive, Answer::Event("body", 1)),
    (Step::Offer(3), Answer::Back),
    (Step::Carry, Answer::Nothing),
    (Step::Offer(3), Answer::Taken),
    (Step::Offer(4), Answer::Back),
    (Step::Start(200), Answer::Done),
    (Step::Take, Answer::Nothing),
];

#[test]
fn what_was_put_waits_to_be_carried(rt: HostRuntime) -> Result<(), Fail> {
    check(&rt, Kind::Http, 2, false, CARRIED_LATE, (2, 1))
}

/// With no place but the reserved ones, a disconnect and an end go through.
const NO_PLACES: &[Row] = &[
    (Step::Offer(1), Answer::Back),
    (Step::Start(200), Answer::Full),
    (Step::Break, Answer::Yes),
    (Step::Receive, DISCONNECT),
    (Step::Start(200), Answer::Refused(2)),
    (Step::Finish(EndKind::Returned), Answer::Yes),
    (Step::Take, Answer::Ended(EndKind::Returned)),
];

#[test]
fn reserved_places_are_there(rt: HostRuntime) -> Result<(), Fail> {
    check(&rt, Kind::Http, 0, true, NO_PLACES, (0, 0))
}
