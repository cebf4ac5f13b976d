//! A write or a send that fails is the last call of its line.
use crate::apps::{Heard, Said, Step};
use crate::rows::BOTH;
use crate::scripts::{Given, Out, is_handed, one_piece, turns_of};
use crate::serving::{App, serve_script};
use crate::texts::{ACCEPTED, HANDSHAKE};
use asgi_conn::{Host, Outcome};
use asgi_fakes::{End, Way};
use asgi_io::{Counts, Reads};
use asgi_types::Limits;
use asgi_ws::{Script, ScriptBytes};
use std::alloc::{AllocError, Global};
use std::io;
use std::test::Fail;

/// More messages than there are places, so that there is always one to read.
const TEXTS: &[Given] = &[Given::Text("a"); 60];

/// A line that reads a handshake and then these texts. One more read of bytes would be a fault, and is counted.
fn line(alloc: Global) -> Result<Script, AllocError> {
    let mut pieces = one_piece(alloc, &[HANDSHAKE])?;
    pieces.push_back(ScriptBytes::Fault)?;
    let turns = turns_of(alloc, TEXTS)?;
    Ok(Script::new(alloc, pieces, turns))
}

/// Whether one call of the line failed, and no bytes were read after the handshake. Once one write or send has failed,
/// each further one would fail too.
fn has_failed_once(line: &Script) -> bool {
    (line.failures(), line.faults()) == (1, 0)
}

/// The application, how many sends succeed, what they send, how many messages are read before the one that fails, and
/// how many tasks fault.
type Row = (App, u64, &'static [Out], usize, u64);

const CONNECTS: Step = Step::Hears(Heard::Connect);

const ACCEPTS: Step = Step::Says(Said::Accept("", &[]));

const LOSES: Step = Step::Hears(Heard::Disconnect(1006, ""));

const HEARS: Step = Step::Hears(Heard::Text("a"));

const SAYS_X: Step = Step::Says(Said::Text("x"));

const SAYS_Y: Step = Step::Says(Said::Text("y"));

const SAYS_Z: Step = Step::Says(Said::Text("z"));

const CLOSES: Step = Step::Says(Said::Close(1001, "by"));

/// Its code is heard, with no reason.
const OWN: Step = Step::Hears(Heard::Disconnect(1001, ""));

/// Three messages and a close.
const SAYS_ALL: App = App::Scripted(&[CONNECTS, ACCEPTS, SAYS_X, SAYS_Y, SAYS_Z, CLOSES, OWN]);

const X: Out = Out::Text("x");

const Y: Out = Out::Text("y");

const Z: Out = Out::Text("z");

const A: Out = Out::Text("a");

const ROWS: &[Row] = &[
    // Each send of four.
    (SAYS_ALL, 0, &[], 0, 0),
    (SAYS_ALL, 1, &[X], 0, 0),
    (SAYS_ALL, 2, &[X, Y], 0, 0),
    (SAYS_ALL, 3, &[X, Y, Z], 0, 0),
    // Each echo follows the message that it answers, and no other is read before it is sent.
    (App::WsEcho, 0, &[], 1, 0),
    (App::WsEcho, 1, &[A], 2, 0),
    (App::WsEcho, 5, &[A, A, A, A, A], 6, 0),
    // A close of the application, alone and after a message that was received.
    (
        App::Scripted(&[CONNECTS, ACCEPTS, CLOSES, OWN]),
        0,
        &[],
        0,
        0,
    ),
    (
        App::Scripted(&[CONNECTS, ACCEPTS, HEARS, CLOSES, OWN]),
        0,
        &[],
        1,
        0,
    ),
    // The server's own close, of a task that returned and of one that faulted.
    (App::Scripted(&[CONNECTS, ACCEPTS]), 0, &[], 0, 0),
    (App::Scripted(&[CONNECTS, ACCEPTS, SAYS_X]), 1, &[X], 0, 0),
    (
        App::Scripted(&[CONNECTS, ACCEPTS, HEARS, Step::Faults]),
        0,
        &[],
        1,
        1,
    ),
    // The task waits on, and is told.
    (
        App::Scripted(&[CONNECTS, ACCEPTS, SAYS_X, LOSES, LOSES]),
        0,
        &[],
        0,
        0,
    ),
];

/// Whether the session ends by a failed write, and no message is read after it. If the task has a thread of its own,
/// messages may be read before the one that fails is sent, and the task may find the client gone.
fn is_end(way: Way, row: &Row, end: End, received: usize) -> bool {
    let (outcome, exchanges, faults) = end;
    let ended = (outcome, exchanges) == (Outcome::WriteFailed(0), 1);
    ended && (way == Way::Beside || (received, faults) == (row.3, row.4))
}

fn is_lost_over<H: Host>(rt: &H, way: Way, row: &Row, line: &mut Script) -> io::Result<bool> {
    let (end, _) = serve_script(rt, way, &Limits::usual(), row.0, line)?;
    let is_so = is_end(way, row, end, line.received().len());
    Ok(is_so && has_failed_once(line) && is_handed(line, row.2) && line.text() == ACCEPTED)
}

fn is_lost<H: Host>(rt: &H, way: Way, row: &Row) -> io::Result<bool> {
    let line = line(rt.alloc())?;
    let mut line = line.failing_send(row.1);
    is_lost_over(rt, way, row, &mut line)
}

#[test]
fn a_send_that_fails_is_the_last_call(rt: HostRuntime) -> Result<(), Fail> {
    for way in BOTH {
        for (place, row) in ROWS.iter().enumerate() {
            let is_so = is_lost(&rt, *way, row)?;
            assert!(rt; is_so, "row {place}, {way:?}");
        }
    }
    Ok(())
}

/// How many writes of the accept succeed, how many bytes each takes at most, and how many bytes go out of its 129.
type Accept = (u64, usize, usize);

const ACCEPT_WRITES: &[Accept] = &[
    (0, 129, 0),
    (1, 1, 1),
    (1, 3, 3),
    (42, 3, 126),
    (1, 128, 128),
];

fn is_cut_off<H: Host>(rt: &H, way: Way, row: &Accept, line: &mut Script) -> io::Result<bool> {
    let (end, _) = serve_script(rt, way, &Limits::usual(), App::WsEcho, line)?;
    let ended = (end.0, end.1) == (Outcome::WriteFailed(row.2), 1);
    let is_silent = line.leftover().is_none() && line.received().is_empty();
    let is_once = has_failed_once(line) && is_handed(line, &[]);
    Ok(ended && is_silent && is_once && Some(line.text()) == ACCEPTED.get(..row.2))
}

fn cuts_off<H: Host>(rt: &H, way: Way, row: &Accept) -> io::Result<bool> {
    let line = line(rt.alloc())?;
    let mut line = line.failing_write(row.0, row.1);
    is_cut_off(rt, way, row, &mut line)
}

#[test]
fn a_write_of_the_accept_that_fails_is_the_last_call(rt: HostRuntime) -> Result<(), Fail> {
    for way in BOTH {
        for (place, row) in ACCEPT_WRITES.iter().enumerate() {
            let is_so = cuts_off(&rt, *way, row)?;
            assert!(rt; is_so, "row {place}, {way:?}");
        }
    }
    Ok(())
}
