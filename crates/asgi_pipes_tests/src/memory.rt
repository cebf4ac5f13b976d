//! `make`, when one allocation is refused: it returns that error, and can be called again. No call of an end allocates,
//! and `renew` allocates nothing if the places are as many.
//! `tests/memory.py` runs these with each allocation refused in turn; with ample memory none is refused.
use crate::pairs::{Answer, Pair, PlainPair, Ran, RingPair, Row, Step, facts, is_left, run_table};
use asgi_pipes::{AppEnd, ConnEnd, EndKind, Pipes, Plain, PlainApp, PlainConn};
use asgi_types::{Incoming, Kind};
use std::alloc::{AllocError, AllocGlobal, Global};
use std::random::RandomSource;
use std::test::Fail;

/// The ends of a pair of two places, made again if memory was refused.
fn made(alloc: Global) -> Result<(PlainConn, PlainApp), AllocError> {
    match Plain.make(alloc, Kind::WebSocket, facts(alloc), 2) {
        Ok(ends) => Ok(ends),
        Err(_) => Plain.make(alloc, Kind::WebSocket, facts(alloc), 2),
    }
}

fn is_offered(conn: &mut PlainConn) -> bool {
    conn.offer(Incoming::WsConnect).is_ok()
}

fn has_nothing(conn: &mut PlainConn) -> bool {
    conn.take().is_none()
}

/// Offers to a pair of two places until one is returned, and ends both ends.
fn fill(conn: &mut PlainConn, app: &mut PlainApp) -> [bool; 7] {
    [
        is_offered(conn),
        is_offered(conn),
        !is_offered(conn),
        conn.offer_disconnect(Incoming::HttpDisconnect),
        app.finish(EndKind::Returned),
        app.moved(),
        has_nothing(conn),
    ]
}

fn fill_made(alloc: Global) -> Result<[bool; 7], AllocError> {
    let (mut conn, mut app) = made(alloc)?;
    Ok(fill(&mut conn, &mut app))
}

#[test]
fn memory_for_a_pair(rt: HostRuntime) -> Result<(), Fail> {
    let filled = fill_made(rt.alloc())?;
    assert!(rt; filled == [true; 7]);
    Ok(())
}

/// The results of a pair, then of the one that was made of its ends, and then of the one that was made of these with
/// other places. None for the second or the third if memory was refused for the second.
type Renewed = ([bool; 7], Option<([bool; 7], [bool; 2])>);

fn fill_and_renew(alloc: Global) -> Result<Renewed, AllocError> {
    let (mut conn, mut app) = made(alloc)?;
    let filled = fill(&mut conn, &mut app);
    // Whatever allocation is refused, none is made here.
    match Plain.renew(alloc, conn, app, Kind::WebSocket, facts(alloc), 2) {
        Ok((conn, app)) => Ok((filled, Some(fill_and_widen(alloc, conn, app)?))),
        Err(_) => Ok((filled, None)),
    }
}

fn fill_and_widen(
    alloc: Global,
    conn: PlainConn,
    app: PlainApp,
) -> Result<([bool; 7], [bool; 2]), AllocError> {
    let (mut conn, mut app) = (conn, app);
    let filled = fill(&mut conn, &mut app);
    // For other places one is made.
    match Plain.renew(alloc, conn, app, Kind::WebSocket, facts(alloc), 3) {
        Ok((conn, app)) => Ok((filled, used(conn, app))),
        Err(_) => Ok((filled, used_anew(alloc)?)),
    }
}

fn used_anew(alloc: Global) -> Result<[bool; 2], AllocError> {
    let (conn, app) = made(alloc)?;
    Ok(used(conn, app))
}

fn used(conn: PlainConn, app: PlainApp) -> [bool; 2] {
    let (mut conn, mut app) = (conn, app);
    [is_offered(&mut conn), app.finish(EndKind::Returned)]
}

#[test]
fn no_memory_for_a_renewed_pair(rt: HostRuntime) -> Result<(), Fail> {
    let renewed = fill_and_renew(rt.alloc())?;
    assert!(rt; renewed == ([true; 7], Some(([true; 7], [true; 2]))));
    Ok(())
}

const ROWS: &[Row] = &[
    (Step::OfferConnect, Answer::Taken),
    (Step::Receive, Answer::Event("connect", 0)),
    (Step::Receive, Answer::Pending),
    (Step::Accept, Answer::Done),
    (Step::Take, Answer::Event("accept", 0)),
    (Step::Close(1000), Answer::Done),
    (Step::Receive, Answer::Event("disconnect", 1000)),
];

/// The results of the rows, which are run again if memory was refused.
fn table_of<P: Pair, R: RandomSource + AllocGlobal>(rt: &R) -> Result<Ran, AllocError> {
    match run_table::<P, R>(rt, Kind::WebSocket, 1, true, ROWS) {
        Ok(ran) => Ok(ran),
        Err(_) => run_table::<P, R>(rt, Kind::WebSocket, 1, true, ROWS),
    }
}

#[test]
fn memory_for_a_table(rt: HostRuntime) -> Result<(), Fail> {
    let plain = table_of::<PlainPair, HostRuntime>(&rt)?;
    let rings = table_of::<RingPair, HostRuntime>(&rt)?;
    assert!(rt; is_left(&plain, (0, 1)) && is_left(&rings, (0, 1)));
    Ok(())
}
