//! Which turns are idle, and that the limit on them is reached exactly at its number.
ghost use Rattle.std.specs.Prelude.{◌≤◌, length};

use asgi_apps::{AppFault, AppTask, Application, Echo};
use asgi_conn::{Host, Outcome, Report};
use asgi_fakes::texts::{ECHO_HEAD, GET, HELLO, LAST_CHUNK};
use asgi_fakes::{Memory, Said, Scripted, ScriptedTask, Step, Way, line_of, serve, text_of};
use asgi_pipes::AppEnd;
use asgi_types::{BadLimit, Limits, Scope};
use futures::task::{Context, Poll};
use std::alloc::Global;
use std::io::{self, ErrorKind, Read};
use std::test::Fail;

type Texts = &'static [&'static [u8]];

/// A read that would block.
const WAIT: &[u8] = b"";

/// A reader whose reads give these texts from this place on, whole, and then the end.
#[derive(Clone, Copy)]
struct Reads(Texts, usize);

impl Read for Reads {
    fn read(&mut self, buf: &mut [u8]) -> io::Result<usize> {
        let Some(text) = self.0.get(self.1) else {
            return Ok(0);
        };
        self.1 = self.1.saturating_add(1);
        if text.is_empty() {
            return Err(io::Error::from(ErrorKind::WouldBlock));
        }
        Ok(give(text, buf))
    }
}

/// Copies as many of the bytes as the buffer takes, and returns how many.
fn give(bytes: &[u8], buf: &mut [u8]) -> usize
    ensures { result ≤ length buf.new }
{
    let n = bytes.len().min(buf.len());
    buf[..n].copy_from_slice(&bytes[..n]);
    n
}

/// What `Hello` sends.
const GREETS: Scripted = Scripted(&[
    Step::Says(Said::Start(200, &[("content-type", "text/plain")])),
    Step::Says(Said::Last("hello\n")),
]);

/// Answers as `Hello`, once it was polled this many times in vain.
#[derive(Clone, Copy)]
struct Late(u32);

#[derive(Drop)]
struct LateTask {
    left: u32,
    greets: ScriptedTask,
}

impl Application for Late {
    type Task = LateTask;

    fn call(&self, alloc: Global, scope: &Scope) -> Result<LateTask, AppFault> {
        Ok(LateTask {
            left: self.0,
            greets: GREETS.call(alloc, scope)?,
        })
    }
}

impl AppTask for LateTask {
    fn poll<E: AppEnd>(&mut self, cx: &mut Context<'_>, end: &mut E) -> Poll<Result<(), AppFault>> {
        if self.left > 0 {
            self.left -= 1;
            return cx.yield_now();
        }
        self.greets.poll(cx, end)
    }

    ghost keeps = { λ _ _ _ _ _. tt };
}

/// The turns, the pauses, and the idle turns at the end.
type Counts = (u64, u64, u32);

/// What is read, how many idle turns in a row are allowed, the counts, the outcome, the exchanges, and what is written.
type Row = (Texts, u32, Counts, Outcome, u64, Texts);

fn is_text(bytes: &[u8], parts: Texts) -> bool {
    let mut rest = bytes;
    for part in parts {
        match rest.strip_prefix(*part) {
            Some(after) => rest = after,
            None => return false,
        }
    }
    rest.is_empty()
}

fn is_so(report: &Report, paused: u64, row: &Row) -> bool {
    let counts = (report.turns, paused, report.idle);
    let end = (report.outcome, report.exchanges, report.faults);
    (counts, end) == (row.2, (row.3, row.4, 0))
}

fn limits_of(row: &Row) -> Result<Limits, BadLimit> {
    Limits::new(64, 64, 64, 64, 16, row.1, 1_000)
}

fn is_line_row<H: Host, T: AppTask + Send + 'static, A: Application<Task = T>>(
    rt: &H,
    limits: &Limits,
    app: &A,
    line: &mut Memory<Reads>,
    row: &Row,
) -> io::Result<bool> {
    let (report, paused) = serve(rt, Way::Inline, limits, app, line)?;
    Ok(is_so(&report, paused, row) && is_text(text_of(line), row.5))
}

/// Whether the row is so, by this application.
fn is_row<H: Host, T: AppTask + Send + 'static, A: Application<Task = T>>(
    rt: &H,
    app: &A,
    row: &Row,
) -> Result<bool, Fail> {
    let limits = limits_of(row)?;
    let mut line = line_of(rt, Reads(row.0, 0))?;
    Ok(is_line_row(rt, &limits, app, &mut line, row)?)
}

const LENGTH_3: &[u8] = b"POST / HTTP/1.1\r\nHost: a\r\nContent-Length: 3\r\n\r\n";

/// A turn reads between two requests. In an exchange its turns are, for a request with no body: the event is offered,
/// and the task answers and returns; all of that is taken, and the exchange ends. The last turn finds the end of the
/// input, and is not idle.
const ECHOES: &[Row] = &[
    // Read, answered, taken; a turn in which nothing moves; read, answered, taken; the end.
    (
        &[GET, WAIT, GET],
        3,
        (8, 1, 0),
        Outcome::Finished,
        2,
        &[ECHO_HEAD, LAST_CHUNK, ECHO_HEAD, LAST_CHUNK],
    ),
    (
        &[GET, WAIT, WAIT],
        3,
        (6, 2, 2),
        Outcome::Finished,
        1,
        &[ECHO_HEAD, LAST_CHUNK],
    ),
    // With a body two turns more: its start is sent, and taken. Then the body is read; answered, taken; the end.
    (
        &[LENGTH_3, b"abc"],
        3,
        (7, 0, 0),
        Outcome::Finished,
        1,
        &[ECHO_HEAD, b"3\r\nabc\r\n", LAST_CHUNK],
    ),
    (
        &[LENGTH_3, WAIT, b"abc"],
        3,
        (8, 1, 0),
        Outcome::Finished,
        1,
        &[ECHO_HEAD, b"3\r\nabc\r\n", LAST_CHUNK],
    ),
    (
        &[LENGTH_3, WAIT, WAIT, b"abc"],
        3,
        (9, 2, 0),
        Outcome::Finished,
        1,
        &[ECHO_HEAD, b"3\r\nabc\r\n", LAST_CHUNK],
    ),
    // A byte that makes no event yet ends the row of idle turns.
    (
        &[LENGTH_3, WAIT, WAIT, b"a", WAIT, WAIT, b"bc"],
        3,
        (12, 4, 0),
        Outcome::Finished,
        1,
        &[ECHO_HEAD, b"3\r\nabc\r\n", LAST_CHUNK],
    ),
    // The third in a row is the last.
    (
        &[LENGTH_3, WAIT, WAIT, WAIT, b"abc"],
        3,
        (6, 3, 3),
        Outcome::Idle,
        1,
        &[],
    ),
];

#[test]
fn a_turn_in_which_nothing_moves_is_idle(rt: HostRuntime) -> Result<(), Fail> {
    for (place, row) in ECHOES.iter().enumerate() {
        let is_so = is_row(&rt, &Echo, row)?;
        assert!(rt; is_so, "row {place}");
    }
    Ok(())
}

/// How many polls are in vain, and the row. The first of them is in the turn that offers the event, in which the
/// connection has moved something. The turns after it read, and one in which the task answers is not idle whatever
/// its read gave.
const LATE: &[(u32, Row)] = &[
    (
        0,
        (
            &[GET, WAIT, GET],
            3,
            (8, 1, 0),
            Outcome::Finished,
            2,
            &[HELLO, HELLO],
        ),
    ),
    // Read; offered; a read in vain, and answered; taken; the end.
    (
        1,
        (&[GET, WAIT], 3, (5, 0, 0), Outcome::Finished, 1, &[HELLO]),
    ),
    (
        2,
        (
            &[GET, WAIT, WAIT],
            3,
            (6, 1, 0),
            Outcome::Finished,
            1,
            &[HELLO],
        ),
    ),
    // Two idle turns of three that are allowed, three, and three of four.
    (
        3,
        (
            &[GET, WAIT, WAIT, WAIT],
            3,
            (7, 2, 0),
            Outcome::Finished,
            1,
            &[HELLO],
        ),
    ),
    (
        4,
        (
            &[GET, WAIT, WAIT, WAIT, WAIT],
            3,
            (5, 3, 3),
            Outcome::Idle,
            1,
            &[],
        ),
    ),
    (
        4,
        (
            &[GET, WAIT, WAIT, WAIT, WAIT],
            4,
            (8, 3, 0),
            Outcome::Finished,
            1,
            &[HELLO],
        ),
    ),
    // The same between two requests, and before the first.
    (
        0,
        (
            &[GET, WAIT, WAIT, GET],
            3,
            (9, 2, 0),
            Outcome::Finished,
            2,
            &[HELLO, HELLO],
        ),
    ),
    (
        0,
        (
            &[GET, WAIT, WAIT, WAIT, GET],
            3,
            (6, 3, 3),
            Outcome::Idle,
            1,
            &[HELLO],
        ),
    ),
    (
        0,
        (
            &[GET, WAIT, WAIT, WAIT, GET],
            4,
            (10, 3, 0),
            Outcome::Finished,
            2,
            &[HELLO, HELLO],
        ),
    ),
    (0, (&[WAIT, GET], 1, (1, 1, 1), Outcome::Idle, 0, &[])),
    (
        0,
        (&[WAIT, GET], 2, (5, 1, 0), Outcome::Finished, 1, &[HELLO]),
    ),
];

#[test]
fn a_task_that_waits_makes_idle_turns_up_to_the_limit(rt: HostRuntime) -> Result<(), Fail> {
    for (place, (polls, row)) in LATE.iter().enumerate() {
        let is_so = is_row(&rt, &Late(*polls), row)?;
        assert!(rt; is_so, "row {place}");
    }
    Ok(())
}
