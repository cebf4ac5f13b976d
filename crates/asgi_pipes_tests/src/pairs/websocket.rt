//! Pairs of ends in WebSocket scopes.
use super::{Answer, Row, Step, check};
use asgi_pipes::EndKind;
use asgi_types::Kind;
use std::test::Fail;

/// A client's close is received again and again, with its code.
const CLIENT_CLOSES: &[Row] = &[
    (Step::OfferConnect, Answer::Taken),
    (Step::Receive, Answer::Event("connect", 0)),
    (Step::Accept, Answer::Done),
    (Step::OfferMessage(7), Answer::Taken),
    (Step::Receive, Answer::Event("message", 7)),
    (Step::Send(7), Answer::Done),
    (Step::BreakSession(1001), Answer::Yes),
    (Step::Receive, Answer::Event("disconnect", 1001)),
    (Step::Receive, Answer::Event("disconnect", 1001)),
    (Step::Send(8), Answer::Refused(2)),
    (Step::Take, Answer::Event("accept", 0)),
    (Step::Take, Answer::Event("send", 7)),
    (Step::Finish(EndKind::Returned), Answer::Yes),
    (Step::Take, Answer::Ended(EndKind::Returned)),
];

#[test]
fn client_closes(rt: HostRuntime) -> Result<(), Fail> {
    check(&rt, Kind::WebSocket, 4, true, CLIENT_CLOSES, (0, 0))
}

/// After the application's own close no message is received, but a disconnect with its code.
const APPLICATION_CLOSES: &[Row] = &[
    (Step::OfferConnect, Answer::Taken),
    (Step::Receive, Answer::Event("connect", 0)),
    (Step::Accept, Answer::Done),
    (Step::OfferMessage(7), Answer::Taken),
    (Step::Close(3000), Answer::Done),
    (Step::Receive, Answer::Event("disconnect", 3000)),
    (Step::BreakSession(1001), Answer::Yes),
    (Step::Receive, Answer::Event("disconnect", 3000)),
    (Step::Send(7), Answer::Refused(1)),
    (Step::Take, Answer::Event("accept", 0)),
    (Step::Take, Answer::Event("close", 3000)),
    (Step::Take, Answer::Nothing),
];

#[test]
fn application_closes(rt: HostRuntime) -> Result<(), Fail> {
    check(&rt, Kind::WebSocket, 4, true, APPLICATION_CLOSES, (2, 0))
}

/// A handshake that is refused has no open session, so its code is 1006.
const REJECTED: &[Row] = &[
    (Step::Close(3000), Answer::Done),
    (Step::Receive, Answer::Event("disconnect", 1006)),
    (Step::Accept, Answer::Refused(1)),
];

const DENIED: &[Row] = &[
    (Step::DenialStart(401), Answer::Done),
    (Step::Receive, Answer::Pending),
    (Step::LastDenial(7), Answer::Done),
    (Step::Receive, Answer::Event("disconnect", 1006)),
    (Step::Receive, Answer::Event("disconnect", 1006)),
];

#[test]
fn refused_handshakes(rt: HostRuntime) -> Result<(), Fail> {
    check(&rt, Kind::WebSocket, 2, true, REJECTED, (0, 1))?;
    check(&rt, Kind::WebSocket, 2, true, DENIED, (0, 2))
}
