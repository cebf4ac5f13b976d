//! How turns and pauses are counted, and what their limits do.
use asgi_conn::{Host, Outcome};
use asgi_fakes::texts::{BAD_REQUEST, GET, HELLO, TWO_REQUESTS};
use asgi_fakes::{App, Memory, Never, Pieces, Step, Way, is_served_so, line_of, serve_by, text_of};
use asgi_types::{BadLimit, Limits};
use std::io::{self, ErrorKind, Read};
use std::test::Fail;

/// The turns, the pauses, and the idle turns at the end.
type Counts = (u64, u64, u32);

/// The input, the bytes of a read, whether each read would block first, and the counts.
type Row = (&'static [u8], usize, bool, Counts);

/// The greeting takes two turns: in the first its request is offered, and its task sends all that it has to send and
/// returns; in the second all of that is taken, and the exchange ends. The last turn finds the end of the input: it is
/// not idle, nor does it end the row of those that are.
const ROWS: &[Row] = &[
    (GET, 4_096, false, (4, 0, 0)),
    (GET, 1, false, (30, 0, 0)),
    (GET, 1, true, (58, 28, 1)),
    (b"", 1, false, (1, 0, 0)),
    (b"GE", 1, false, (3, 0, 0)),
    (b"\r\n", 2, true, (4, 2, 1)),
];

fn pieces_of(row: &Row) -> Pieces<'static> {
    let (input, size, blocks, _) = *row;
    let mut pieces = Pieces::new(input, size, size);
    if blocks {
        pieces.before = Some(ErrorKind::WouldBlock);
    }
    pieces
}

/// Whether the connection over the row's pieces has these counts.
fn is_counted<H: Host>(rt: &H, row: &Row) -> io::Result<bool> {
    let mut line = line_of(rt, pieces_of(row))?;
    is_line_counted(rt, &mut line, row.3)
}

fn is_line_counted<H: Host>(rt: &H, line: &mut Memory<Pieces>, counts: Counts) -> io::Result<bool> {
    let (report, paused) = serve_by(rt, Way::Inline, &Limits::usual(), App::Hello, line)?;
    Ok((report.turns, paused, report.idle) == counts)
}

#[test]
fn turns_are_counted(rt: HostRuntime) -> Result<(), Fail> {
    for (place, row) in ROWS.iter().enumerate() {
        let is_so = is_counted(&rt, row)?;
        assert!(rt; is_so, "row {place}");
    }
    Ok(())
}

/// Whether a connection reaches a limit, so that nothing is written, and has these counts.
fn idles<H: Host, R: Read + Drop>(
    rt: &H,
    limits: &Limits,
    app: App,
    reader: R,
    counts: Counts,
) -> io::Result<bool> {
    let mut line = line_of(rt, reader)?;
    line_idles(rt, limits, app, &mut line, counts)
}

fn line_idles<H: Host, R: Read + Drop>(
    rt: &H,
    limits: &Limits,
    app: App,
    line: &mut Memory<R>,
    counts: Counts,
) -> io::Result<bool> {
    let (report, paused) = serve_by(rt, Way::Inline, limits, app, line)?;
    let is_idle = report.outcome == Outcome::Idle && text_of(line).is_empty();
    Ok(is_idle && (report.turns, paused, report.idle) == counts)
}

/// Limits on the idle turns in a row, and on turns.
fn limited(idle_turns: u32, turns: u64) -> Result<Limits, BadLimit> {
    Limits::new(64, 64, 0, 1, 2, idle_turns, turns)
}

/// The two limits, and the counts.
type Limit = (u32, u64, Counts);

/// For an input that never comes.
const NOTHING: &[Limit] = &[(3, 100, (3, 3, 3)), (30, 5, (5, 5, 5))];

fn is_silence_over<H: Host>(rt: &H, (idle_turns, turns, counts): &Limit) -> Result<bool, Fail> {
    let limits = limited(*idle_turns, *turns)?;
    Ok(idles(rt, &limits, App::Hello, Never, *counts)?)
}

/// Whether a request, this many bytes a read, is over at its limit.
fn is_request_over<H: Host>(
    rt: &H,
    app: App,
    size: usize,
    (idle_turns, turns, counts): &Limit,
) -> Result<bool, Fail> {
    let limits = limited(*idle_turns, *turns)?;
    Ok(idles(rt, &limits, app, Pieces::new(GET, size, size), *counts)?)
}

#[test]
fn idle_comes_at_a_limit(rt: HostRuntime) -> Result<(), Fail> {
    for (place, row) in NOTHING.iter().enumerate() {
        let is_so = is_silence_over(&rt, row)?;
        assert!(rt; is_so, "row {place}");
    }
    let is_so = is_request_over(&rt, App::Hello, 1, &(30, 5, (5, 0, 0)))?;
    assert!(rt; is_so, "a byte a turn");
    Ok(())
}

const WAITS: App = App::Scripted(&[Step::Waits]);

/// The request is read, its event is offered, the end of the input is read, and the disconnect is offered.
const NO_FURTHER: &[Limit] = &[(3, 100, (7, 3, 3)), (30, 4, (4, 0, 0))];

#[test]
fn a_task_that_goes_no_further_is_given_up(rt: HostRuntime) -> Result<(), Fail> {
    for (place, row) in NO_FURTHER.iter().enumerate() {
        let is_so = is_request_over(&rt, WAITS, 64, row)?;
        assert!(rt; is_so, "row {place}");
    }
    Ok(())
}

/// The input, the limit on turns, what is written, the outcome, and the exchanges.
type Limited = (&'static [u8], u64, &'static [u8], Outcome, u64);

const LIMITED: &[Limited] = &[
    // The end of the input, at the last turn and after it.
    (b"", 1, b"", Outcome::Finished, 0),
    (b"GE", 2, b"", Outcome::InputBroke, 0),
    (b"GE", 1, b"", Outcome::Idle, 0),
    // The ring has two places, so the greeting takes three turns: two events are taken in the second of them, and the
    // end of the task in the third.
    (GET, 5, HELLO, Outcome::Finished, 1),
    (GET, 4, HELLO, Outcome::Idle, 1),
    (GET, 3, HELLO, Outcome::Idle, 1),
    // A refusal takes no turn.
    (
        b"GET / HTTP/1.1\r\n\r\n",
        1,
        BAD_REQUEST,
        Outcome::Refused(400),
        0,
    ),
    // A head that waits at the limit is a request, and is not answered.
    (GET, 1, b"", Outcome::Idle, 1),
    (GET, 2, b"", Outcome::Idle, 1),
    (TWO_REQUESTS, 4, HELLO, Outcome::Idle, 2),
    (TWO_REQUESTS, 5, HELLO, Outcome::Idle, 2),
];

fn is_limited<H: Host>(rt: &H, row: &Limited) -> Result<bool, Fail> {
    let (input, turns, wanted, outcome, exchanges) = *row;
    let limits = limited(30, turns)?;
    let pieces = Pieces::new(input, 64, 64);
    let end = (outcome, exchanges, 0);
    Ok(is_served_so(rt, Way::Inline, &limits, App::Hello, pieces, wanted, end)?)
}

#[test]
fn the_first_of_a_limit_and_what_else_ends_it(rt: HostRuntime) -> Result<(), Fail> {
    for (place, row) in LIMITED.iter().enumerate() {
        let is_so = is_limited(&rt, row)?;
        assert!(rt; is_so, "row {place}");
    }
    Ok(())
}
