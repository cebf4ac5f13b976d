//! Pairs of ends in lifespan scopes, which receive no disconnect.
use super::{Answer, Row, Step, check};
use asgi_pipes::EndKind;
use asgi_types::Kind;
use std::test::Fail;

const SERVICE: &[Row] = &[
    (Step::Receive, Answer::Pending),
    (Step::OfferStartup, Answer::Taken),
    (Step::Receive, Answer::Event("startup", 0)),
    (Step::Started, Answer::Done),
    (Step::Receive, Answer::Pending),
    (Step::OfferShutdown, Answer::Taken),
    (Step::Stopped, Answer::Done),
    (Step::Receive, Answer::Event("shutdown", 0)),
    (Step::Receive, Answer::Pending),
    (Step::Stopped, Answer::Refused(1)),
    (Step::Finish(EndKind::Returned), Answer::Yes),
    (Step::Take, Answer::Event("started", 0)),
    (Step::Take, Answer::Event("stopped", 0)),
    (Step::Take, Answer::Ended(EndKind::Returned)),
    (Step::Take, Answer::Nothing),
];

#[test]
fn lifespan_takes_from_the_queue_alone(rt: HostRuntime) -> Result<(), Fail> {
    check(&rt, Kind::Lifespan, 2, true, SERVICE, (0, 0))
}
