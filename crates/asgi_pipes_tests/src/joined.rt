//! Plain ends that meet, with what is left between them.
use crate::steps::{Pair, facts};
use asgi_exchange::join;
use asgi_pipes::{AppEnd, ConnEnd, EndKind, Pipes, Plain};
use asgi_types::{Incoming, Kind};
use std::alloc::{AllocError, Global};
use std::test::Fail;

/// Whether the connection offers a disconnect, whether the task ends, whether an item is taken, and what is then left
/// in the two queues.
type Row = ((bool, bool, bool), (usize, usize));

const ROWS: &[Row] = &[
    ((false, false, true), (0, 0)),
    ((true, false, false), (1, 0)),
    ((false, true, false), (0, 1)),
    ((true, true, true), (1, 0)),
];

fn pair_of(alloc: Global) -> Result<Pair, AllocError> {
    let (conn, app) = Plain.make(alloc, Kind::Http, facts(alloc), 1)?;
    Ok(Pair {
        conn,
        app,
        finished: false,
    })
}

fn break_off(pair: &mut Pair) {
    pair.conn.offer_disconnect(Incoming::HttpDisconnect);
}

fn finish(pair: &mut Pair) {
    pair.finished = true;
    pair.app.finish(EndKind::Returned);
}

fn take(pair: &mut Pair) {
    pair.conn.take();
}

fn left_in(pair: Pair) -> Option<(usize, usize)> {
    let Pair {
        mut conn,
        mut app,
        ..
    } = pair;
    let met = join::<Plain>(&mut conn, &mut app)?;
    Some((met.left_in, met.left_out))
}

fn left_by(pair: Pair, (breaks, ends, takes): (bool, bool, bool)) -> Option<(usize, usize)> {
    let mut pair = pair;
    if breaks {
        break_off(&mut pair);
    }
    if ends {
        finish(&mut pair);
    }
    pair.carry();
    if takes {
        take(&mut pair);
    }
    left_in(pair)
}

/// Whether the row holds for a fresh pair.
fn holds(alloc: Global, row: &Row) -> Result<bool, AllocError> {
    let pair = pair_of(alloc)?;
    Ok(left_by(pair, row.0) == Some(row.1))
}

/// The first row that does not hold, or how many there are.
fn holding(alloc: Global, rows: &[Row]) -> Result<usize, AllocError> {
    for (index, row) in rows.iter().enumerate() {
        if !holds(alloc, row)? {
            return Ok(index);
        }
    }
    Ok(rows.len())
}

#[test]
fn ends_meet_with_what_is_left(rt: HostRuntime) -> Result<(), Fail> {
    let held = holding(rt.alloc(), ROWS)?;
    assert!(rt; held == ROWS.len(), "row {held}");
    Ok(())
}
