//! Hostile applications: those that wait for ever, send what is not due, talk on, take little of a body, take long, or fault
//! at each of their polls. Each is served with both runners.
ghost use Rattle.std.specs.Prelude.{◌≡◌, None};
ghost use Rattle.futures.specs.Poll.{OnPending};
ghost use Rattle.futures.specs.Task.{IsArmed, Keeps};
ghost use Rattle.asgi_apps.specs.Ends.{GoesOn};

use crate::rows::{Parts, joined};
use asgi_apps::{AppFault, AppTask, Application};
use asgi_conn::{Host, Outcome, Report};
use asgi_fakes::texts::{GET, HELLO, PLAIN_HEAD, POST, SERVER_ERROR, TWO_REQUESTS};
use asgi_fakes::{
    App, End, Heard, Memory, Pieces, Said, Scripted, ScriptedTask, Step, Way, is_served, line_of,
    serve, serve_by, text_of,
};
use asgi_pipes::{AppEnd, Sent};
use asgi_types::{BadLimit, Limits, Octets, Outgoing, Scope};
use futures::task::{Context, Poll};
use std::alloc::{AllocError, Global};
use std::test::Fail;
use std::time::{Clock, Duration};
use std::{io, thread};

const WAYS: &[Way] = &[Way::Inline, Way::Beside];

const STARTS: Step = Step::Says(Said::Start(200, &[]));

const STARTS_TEXT: Step = Step::Says(Said::Start(200, &[("content-type", "text/plain")]));

const SAYS_HELLO: Step = Step::Says(Said::Last("hello\n"));

/// What `Hello` sends.
const GREETS: Scripted = Scripted(&[STARTS_TEXT, SAYS_HELLO]);

/// The usual limits, but for so many idle turns in a row, and so many turns.
fn limits_of(idle_turns: u32, turns: u64) -> Result<Limits, BadLimit> {
    Limits::new(16_384, 64, 1_048_576, 16_384, 16, idle_turns, turns)
}

/// Enough idle turns that a task in a thread of its own has its turn within them.
const PATIENT: u32 = 300;

/// A name, the idle turns that are allowed, the steps of the task, what is written, and the end.
type Row = (&'static str, u32, &'static [Step], Parts, End);

const IDLE: End = (Outcome::Idle, 1, 0);

const FINISHED: End = (Outcome::Finished, 1, 0);

const REFUSED: End = (Outcome::Refused(500), 1, 0);

const TWICE: End = (Outcome::Finished, 2, 0);

/// The only premise is that a poll returns: what waits ends at a limit.
const WAITING: &[Row] = &[
    ("waits for ever", 3, &[Step::Waits], &[], IDLE),
    (
        "waits for ever once it has started",
        PATIENT,
        &[STARTS, Step::Waits],
        &[],
        IDLE,
    ),
    (
        "waits for ever after a part",
        PATIENT,
        &[STARTS, Step::Says(Said::Part("x")), Step::Waits],
        &[PLAIN_HEAD, b"1\r\nx\r\n"],
        IDLE,
    ),
    (
        "holds its end after its response",
        PATIENT,
        &[STARTS_TEXT, SAYS_HELLO, Step::Waits],
        &[HELLO],
        IDLE,
    ),
    // The body has one event, and the client is gone: no other event is due.
    (
        "waits for what never comes",
        PATIENT,
        &[
            Step::Hears(Heard::Last("")),
            Step::Hears(Heard::Disconnect),
            Step::Hears(Heard::Disconnect),
            Step::Waits,
        ],
        &[],
        IDLE,
    ),
];

/// What is not due is refused or ignored, and leaves the response as it was (ASGI HTTP 2.4, "Response Start" and "Response
/// Body"; RFC 9110, 8.6).
const UNLAWFUL: &[Row] = &[
    (
        "starts with two lengths, and with a body",
        30_000,
        &[
            Step::IsRefused(
                Said::Start(200, &[("content-length", "6"), ("content-length", "6")]),
                6,
            ),
            Step::IsRefused(Said::Part("x"), 4),
            STARTS_TEXT,
            SAYS_HELLO,
        ],
        &[HELLO],
        FINISHED,
    ),
    (
        "sends a body before its start",
        30_000,
        &[Step::IsRefused(Said::Last("x"), 4)],
        &[SERVER_ERROR],
        REFUSED,
    ),
    (
        "starts twice and answers twice",
        30_000,
        &[
            STARTS_TEXT,
            Step::IsRefused(Said::Start(404, &[]), 4),
            SAYS_HELLO,
            Step::IsIgnored(Said::Start(404, &[])),
            Step::IsIgnored(Said::Last("x")),
        ],
        &[HELLO],
        FINISHED,
    ),
    (
        "sends more than its length",
        30_000,
        &[
            Step::Says(Said::Start(200, &[("content-length", "5")])),
            Step::IsRefused(Said::Last("abcdef"), 10),
            Step::Says(Said::Last("abcde")),
        ],
        &[b"HTTP/1.1 200 OK\r\ncontent-length: 5\r\n\r\nabcde"],
        FINISHED,
    ),
    (
        "ends short of its length",
        30_000,
        &[
            Step::Says(Said::Start(200, &[("content-length", "5")])),
            Step::IsRefused(Said::Last("abcd"), 11),
            Step::Says(Said::Part("abcd")),
        ],
        &[b"HTTP/1.1 200 OK\r\ncontent-length: 5\r\n\r\nabcd"],
        FINISHED,
    ),
    // A status below 200 is no response (RFC 9110, 15.2), and one above 599 is none at all.
    (
        "starts with a status that is none",
        30_000,
        &[
            Step::IsRefused(Said::Start(100, &[]), 5),
            Step::IsRefused(Said::Start(101, &[]), 5),
            Step::IsRefused(Said::Start(600, &[]), 5),
        ],
        &[SERVER_ERROR],
        REFUSED,
    ),
];

fn is_row<H: Host>(rt: &H, row: &Row) -> Result<bool, Fail> {
    let (_, idle_turns, steps, wanted, end) = *row;
    let limits = limits_of(idle_turns, 1 << 40)?;
    let wanted = joined(rt.alloc(), wanted)?;
    let whole = Pieces::new(GET, 4_096, 4_096);
    Ok(is_served(rt, &limits, App::Scripted(steps), whole, &wanted, end)?)
}

fn check<H: Host>(rt: &H, rows: &[Row]) -> Result<(), Fail> {
    for row in rows {
        if !is_row(rt, row)? {
            return Err(Fail::from(row.0));
        }
    }
    Ok(())
}

#[test]
fn an_application_that_waits_ends_at_a_limit(rt: HostRuntime) -> Result<(), Fail> {
    check(&rt, WAITING)
}

#[test]
fn what_is_not_due_is_not_sent(rt: HostRuntime) -> Result<(), Fail> {
    check(&rt, UNLAWFUL)
}

/// A request, and letters that make no head.
fn flood(alloc: Global) -> Result<Vec<u8>, AllocError> {
    let mut input = Vec::from_slice(alloc, GET)?;
    for _letter in 0..200_000 {
        input.push(b'a')?;
    }
    Ok(input)
}

// A call, of which nothing is known: a proof would go through the variants of each outcome that it knows as a part.
fn end_of(report: &Report) -> End {
    (report.outcome, report.exchanges, report.faults)
}

const WAITS: App = App::Scripted(&[Step::Waits]);

/// Whether nothing is written for a task that waits, the connection is idle, and at most 17 reads are made.
fn is_held_back<H: Host>(rt: &H, way: Way, limits: &Limits, input: &[u8]) -> io::Result<bool> {
    let mut line = line_of(rt, Pieces::new(input, 1 << 20, 1 << 20))?;
    is_line_held_back(rt, way, limits, &mut line)
}

fn is_line_held_back<H: Host>(
    rt: &H,
    way: Way,
    limits: &Limits,
    line: &mut Memory<Pieces>,
) -> io::Result<bool> {
    let (report, _) = serve_by(rt, way, limits, WAITS, line)?;
    let is_idle = end_of(&report) == IDLE;
    Ok(is_idle && text_of(line).is_empty() && reads_of(line) <= 17)
}

/// How many reads the line made.
fn reads_of(line: &Memory<Pieces>) -> u64 {
    match line.stream() {
        Some(pair) => pair.reader.reads,
        None => 0,
    }
}

/// Whether that is so in either way.
fn is_flood_held_back<H: Host>(rt: &H, limits: &Limits) -> io::Result<bool> {
    let input = flood(rt.alloc())?;
    let inline = is_held_back(rt, Way::Inline, limits, &input)?;
    Ok(inline && is_held_back(rt, Way::Beside, limits, &input)?)
}

#[test]
fn a_client_is_not_read_on_for_a_task_that_waits(rt: HostRuntime) -> Result<(), Fail> {
    let limits = limits_of(30, 1_000_000)?;
    let is_so = is_flood_held_back(&rt, &limits)?;
    assert!(rt; is_so);
    Ok(())
}

/// What a task does beside greeting.
#[derive(Clone, Copy)]
enum Habit {
    /// It sends a body that is ignored in each poll after its response, without end.
    Talks,
    /// It takes one event before it greets.
    Sips,
    /// It faults at the poll of this number.
    FaultsAt(u32),
}

/// Greets as `Hello`, with this habit.
#[derive(Clone, Copy)]
struct Greets(Habit);

#[derive(Drop)]
struct GreetsTask {
    alloc: Global,
    habit: Habit,
    polls: u32,
    has_heard: bool,
    has_greeted: bool,
    greets: ScriptedTask,
}

impl Application for Greets {
    type Task = GreetsTask;

    fn call(&self, alloc: Global, scope: &Scope) -> Result<GreetsTask, AppFault> {
        Ok(GreetsTask {
            alloc,
            habit: self.0,
            polls: 0,
            has_heard: !matches!(self.0, Habit::Sips),
            has_greeted: false,
            greets: GREETS.call(alloc, scope)?,
        })
    }
}

impl GreetsTask {
    /// Whether this poll is the one that faults.
    fn faults(&mut self) -> bool {
        self.polls = self.polls.saturating_add(1);
        match self.habit {
            Habit::FaultsAt(number) => self.polls == number,
            Habit::Talks => false,
            Habit::Sips => false,
        }
    }
}

impl AppTask for GreetsTask {
    fn poll<E: AppEnd>(&mut self, cx: &mut Context<'_>, end: &mut E) -> Poll<Result<(), AppFault>> {
        if self.faults() {
            return Poll::Ready(Err(AppFault::Failed));
        }
        if !self.has_heard {
            return sip(&mut self.has_heard, cx, end);
        }
        if self.has_greeted {
            return talk(self.alloc, cx, end);
        }
        let Poll::Ready(greeted) = self.greets.poll(cx, end) else {
            return Poll::Pending;
        };
        if !matches!(self.habit, Habit::Talks) || greeted.is_err() {
            return Poll::Ready(greeted);
        }
        self.has_greeted = true;
        cx.yield_now()
    }

    ghost keeps = { λ _ _ _ _ _. tt };
}

/// Takes one event.
fn sip<E: AppEnd>(
    has_heard: &mut bool,
    cx: &mut Context<'_>,
    end: &mut E,
) -> Poll<Result<(), AppFault>>
    requires { E.ended end.old ≡ None }
    ensures end { GoesOn E.AppEnd None end.old end.new }
    ensures armed { OnPending result (IsArmed cx.new) }
    ensures kept { Keeps cx.old cx.new }
{
    let Poll::Ready(_event) = end.poll_receive(cx) else {
        return Poll::Pending;
    };
    *has_heard = true;
    cx.yield_now()
}

/// Sends a body, which is ignored; the task fails if it is not.
fn talk<E: AppEnd>(alloc: Global, cx: &mut Context<'_>, end: &mut E) -> Poll<Result<(), AppFault>>
    requires { E.ended end.old ≡ None }
    ensures end { GoesOn E.AppEnd None end.old end.new }
    ensures armed { OnPending result (IsArmed cx.new) }
    ensures kept { Keeps cx.old cx.new }
{
    let body = Outgoing::ResponseBody {
        body: Octets::new(Vec::new(alloc)),
        more_body: true,
    };
    match end.poll_send(cx, body) {
        Sent::Ignored => cx.yield_now(),
        Sent::Done => Poll::Ready(Err(AppFault::Failed)),
        Sent::Full(_) => Poll::Ready(Err(AppFault::Failed)),
        Sent::Refused(_, _) => Poll::Ready(Err(AppFault::Failed)),
    }
}

/// Whether a connection with this input ends like this, with this text written.
fn is_greeted<H: Host, T: AppTask + Send + 'static, A: Application<Task = T>>(
    rt: &H,
    way: Way,
    limits: &Limits,
    app: &A,
    input: &[u8],
    wanted: &[u8],
    end: End,
) -> io::Result<bool> {
    let mut line = line_of(rt, Pieces::new(input, 4_096, 4_096))?;
    is_line_greeted(rt, way, limits, app, &mut line, wanted, end)
}

fn is_line_greeted<H: Host, T: AppTask + Send + 'static, A: Application<Task = T>>(
    rt: &H,
    way: Way,
    limits: &Limits,
    app: &A,
    line: &mut Memory<Pieces>,
    wanted: &[u8],
    end: End,
) -> io::Result<bool> {
    let (report, _) = serve(rt, way, limits, app, line)?;
    Ok(end_of(&report) == end && text_of(line) == wanted)
}

const TALKS: Greets = Greets(Habit::Talks);

const SIPS: Greets = Greets(Habit::Sips);

#[test]
fn an_application_that_talks_on_ends_at_a_limit(rt: HostRuntime) -> Result<(), Fail> {
    let limits = limits_of(30_000, 500)?;
    for way in WAYS {
        let is_so = is_greeted(&rt, *way, &limits, &TALKS, GET, HELLO, IDLE)?;
        assert!(rt; is_so);
    }
    Ok(())
}

/// A request with a body of 1 MiB, and one after it.
fn great_request(alloc: Global) -> Result<Vec<u8>, AllocError> {
    let mut input = Vec::from_slice(alloc, POST)?;
    input.extend_from_slice(b"Content-Length: 1048576\r\n\r\n")?;
    for _byte in 0..1_048_576 {
        input.push(b'a')?;
    }
    input.extend_from_slice(GET)?;
    Ok(input)
}

fn is_greeted_twice<H: Host>(rt: &H, way: Way) -> io::Result<bool> {
    let input = great_request(rt.alloc())?;
    let wanted = joined(rt.alloc(), &[HELLO, HELLO])?;
    is_greeted(rt, way, &Limits::usual(), &SIPS, &input, &wanted, TWICE)
}

#[test]
fn a_task_that_takes_one_event_leaves_the_rest_of_a_body(rt: HostRuntime) -> Result<(), Fail> {
    for way in WAYS {
        let is_so = is_greeted_twice(&rt, *way)?;
        assert!(rt; is_so);
    }
    Ok(())
}

/// What a connection of two requests may end like if a task faults: its outcome, its exchanges, its faults, and what is
/// written. Before a body was sent the fault is answered for; after a whole response it is counted, and the next request
/// is answered, whose task faults likewise.
const FAULTED: &[(End, Parts)] = &[
    ((Outcome::Refused(500), 1, 1), &[SERVER_ERROR]),
    ((Outcome::Finished, 2, 2), &[HELLO, HELLO]),
    ((Outcome::Finished, 2, 0), &[HELLO, HELLO]),
];

/// Whether a connection is of this kind, whose tasks fault at the poll of this number.
fn is_of_kind<H: Host>(
    rt: &H,
    way: Way,
    number: u32,
    (end, parts): &(End, Parts),
) -> io::Result<bool> {
    let app = Greets(Habit::FaultsAt(number));
    let wanted = joined(rt.alloc(), parts)?;
    is_greeted(rt, way, &Limits::usual(), &app, TWO_REQUESTS, &wanted, *end)
}

/// Which of these it is.
fn kind_of<H: Host>(rt: &H, way: Way, number: u32) -> io::Result<Option<usize>> {
    for (place, kind) in FAULTED.iter().enumerate() {
        if is_of_kind(rt, way, number, kind)? {
            return Ok(Some(place));
        }
    }
    Ok(None)
}

/// The polls of a greeting: a start, a body, and the return.
const KINDS: &[(u32, usize)] = &[(1, 0), (2, 0), (3, 1), (4, 2), (5, 2)];

#[test]
fn a_task_that_faults_at_any_poll_is_answered_for(rt: HostRuntime) -> Result<(), Fail> {
    for way in WAYS {
        for (number, kind) in KINDS {
            let found = kind_of(&rt, *way, *number)?;
            assert!(rt; found == Some(*kind), "poll {number}");
        }
    }
    Ok(())
}

/// Greets as `Hello`, with a second before each of its polls.
#[derive(Clone, Copy)]
struct Slow<R>(R);

#[derive(Drop)]
struct SlowTask<R> {
    clock: R,
    greets: ScriptedTask,
}

impl<R: Clock + Copy + Drop> Application for Slow<R> {
    type Task = SlowTask<R>;

    fn call(&self, alloc: Global, scope: &Scope) -> Result<SlowTask<R>, AppFault> {
        Ok(SlowTask {
            clock: self.0,
            greets: GREETS.call(alloc, scope)?,
        })
    }
}

impl<R: Clock + Copy + Drop> AppTask for SlowTask<R> {
    fn poll<E: AppEnd>(&mut self, cx: &mut Context<'_>, end: &mut E) -> Poll<Result<(), AppFault>> {
        thread::sleep(&self.clock, Duration::from_secs(1));
        self.greets.poll(cx, end)
    }

    ghost keeps = { λ _ _ _ _ _. tt };
}

#[test]
fn an_application_that_takes_seconds_is_waited_for(rt: HostRuntime) -> Result<(), Fail> {
    let limits = Limits::usual();
    for way in WAYS {
        let is_so = is_greeted(&rt, *way, &limits, &Slow(rt), GET, HELLO, FINISHED)?;
        assert!(rt; is_so);
    }
    Ok(())
}
