//! Turns taken by hand: what is written, the report and the pauses are those of the loop, and a connection that is
//! dropped after any of its turns has written a beginning of that.
use asgi_apps::{AppTask, Application, Echo, Hello};
use asgi_conn::{
    Calls, Connection, CountingPause, Host, Inline, Line, Outcome, Pause, Report, Runner, Setting,
    Step,
};
use asgi_fakes::texts::{
    BAD_REQUEST, CONTINUE, ECHO_HEAD, GET, GET_TAKING_TRAILERS, HELLO, HELLO_AND_CLOSE, LAST_CHUNK,
    PLAIN_HEAD, TWO_REQUESTS,
};
use asgi_fakes::{
    GONE, Gone, Memory, Pieces, STREAM, Said, Sends, Way, gone_line, line_of, serve, text_of,
};
use asgi_types::{Limits, State};
use futures::task::{Doorbell, Solo};
use std::alloc::Global;
use std::io::{self, ErrorKind};
use std::test::Fail;

type Texts = &'static [&'static [u8]];

/// What the turns came to.
#[derive(Clone, Copy)]
struct Taken {
    report: Option<Report>,
    moved: u64,
    idle: u64,
    /// The turn after the report gave it again.
    is_again: bool,
}

/// Takes at most this many turns, and one more after the report.
fn take_turns<A: Application, L: Line, X: Drop, U: Runner<A::Task, Exchange = X>, P: Pause>(
    alloc: Global,
    limits: &Limits,
    setting: &Setting<'_>,
    calls: &mut Calls<'_, A>,
    line: &mut L,
    runner: &mut U,
    pause: &mut P,
    most: u64,
) -> Taken {
    let mut connection = Connection::new::<A, U>(alloc, limits, setting);
    let mut taken = Taken {
        report: None,
        moved: 0,
        idle: 0,
        is_again: false,
    };
    for _turn in 0..most {
        match connection.turn(setting, calls, line, runner, pause) {
            Step::Moved => taken.moved = taken.moved.saturating_add(1),
            Step::Idle => taken.idle = taken.idle.saturating_add(1),
            Step::Over(report) => {
                let again = connection.turn(setting, calls, line, runner, pause);
                taken.report = Some(report);
                taken.is_again = again == Step::Over(report);
                return taken;
            }
        }
    }
    taken
}

/// Takes the turns in this thread, and returns the pauses made, too.
fn by_hand<H: Host, A: Application, L: Line>(
    rt: &H,
    app: &A,
    line: &mut L,
    limits: &Limits,
    most: u64,
) -> io::Result<(Taken, u64)> {
    let solo = Solo::new(rt, Doorbell::spinning())?;
    let mut runner = Inline::new(solo.begin());
    let mut pause = CountingPause::new();
    let state = State::new(rt.alloc());
    let setting = Setting {
        client: &None,
        server: &None,
        state: &state,
    };
    let mut calls = Calls::of(app);
    let taken = take_turns(
        rt.alloc(),
        limits,
        &setting,
        &mut calls,
        line,
        &mut runner,
        &mut pause,
        most,
    );
    runner.end();
    Ok((taken, pause.paused()))
}

/// The input, the bytes of a read, whether each read would block first, and what is written, with the outcome and the
/// exchanges.
type Row = (&'static [u8], usize, bool, Texts, Outcome, u64);

const POST: &[u8] =
    b"POST / HTTP/1.1\r\nHost: a\r\nExpect: 100-continue\r\nContent-Length: 3\r\n\r\nabcGET / HTTP/1.1\r\nHost: a\r\n\r\n";

const CHUNKS: &[u8] =
    b"POST / HTTP/1.1\r\nHost: a\r\nTransfer-Encoding: chunked\r\n\r\n2\r\nab\r\n1\r\nc\r\n0\r\n\r\n";

/// By `Hello`.
const GREETINGS: &[Row] = &[
    (GET, 4_096, false, &[HELLO], Outcome::Finished, 1),
    (
        TWO_REQUESTS,
        4_096,
        false,
        &[HELLO, HELLO],
        Outcome::Finished,
        2,
    ),
    (TWO_REQUESTS, 1, true, &[HELLO, HELLO], Outcome::Finished, 2),
    (
        b"GET / HTTP/1.1\r\nHost: a\r\nConnection: close\r\n\r\n",
        7,
        true,
        &[HELLO_AND_CLOSE],
        Outcome::Finished,
        1,
    ),
    (
        b"GET / HTTP/1.1\r\n\r\n",
        4_096,
        false,
        &[BAD_REQUEST],
        Outcome::Refused(400),
        0,
    ),
    (b"GE", 1, true, &[], Outcome::InputBroke, 0),
    (b"", 1, false, &[], Outcome::Finished, 0),
];

/// By `Echo`.
const ECHOES: &[Row] = &[
    (
        POST,
        4_096,
        false,
        &[
            CONTINUE,
            ECHO_HEAD,
            b"3\r\nabc\r\n",
            LAST_CHUNK,
            ECHO_HEAD,
            LAST_CHUNK,
        ],
        Outcome::Finished,
        2,
    ),
    (
        POST,
        1,
        true,
        &[
            CONTINUE,
            ECHO_HEAD,
            b"3\r\nabc\r\n",
            LAST_CHUNK,
            ECHO_HEAD,
            LAST_CHUNK,
        ],
        Outcome::Finished,
        2,
    ),
    (
        CHUNKS,
        3,
        true,
        &[ECHO_HEAD, b"2\r\nab\r\n", b"1\r\nc\r\n", LAST_CHUNK],
        Outcome::Finished,
        1,
    ),
];

const START: Said = Said::Announce(200, &[]);

/// The content `x`, and two trailers.
const TRAILS: Sends = Sends(&[
    START,
    Said::Last("x"),
    Said::Trailers(&[("x-sum", "7")]),
    Said::LastTrailers(&[("x-end", "y")]),
]);

/// Announces trailers that do not come.
const UNTRAILED: Sends = Sends(&[START, Said::Last("x")]);

/// The chunk `x`.
const X: &[u8] = b"1\r\nx\r\n";

/// The last chunk, and a trailer section with two fields.
const SECTION: &[u8] = b"0\r\nx-sum: 7\r\nx-end: y\r\n\r\n";

const TAKING_AND_NOT: &[u8] =
    b"GET / HTTP/1.1\r\nHost: a\r\nTE: trailers\r\n\r\nGET / HTTP/1.1\r\nHost: a\r\n\r\n";

/// By `TRAILS`.
const TRAILERS: &[Row] = &[
    (
        GET_TAKING_TRAILERS,
        4_096,
        false,
        &[PLAIN_HEAD, X, SECTION],
        Outcome::Finished,
        1,
    ),
    (
        TAKING_AND_NOT,
        4_096,
        false,
        &[PLAIN_HEAD, X, SECTION, PLAIN_HEAD, X, LAST_CHUNK],
        Outcome::Finished,
        2,
    ),
    (
        TAKING_AND_NOT,
        1,
        true,
        &[PLAIN_HEAD, X, SECTION, PLAIN_HEAD, X, LAST_CHUNK],
        Outcome::Finished,
        2,
    ),
];

/// By `UNTRAILED`.
const NO_TRAILERS: &[Row] = &[
    (
        TAKING_AND_NOT,
        4_096,
        false,
        &[PLAIN_HEAD, X, b"0\r\n"],
        Outcome::Finished,
        1,
    ),
    (
        TAKING_AND_NOT,
        7,
        true,
        &[PLAIN_HEAD, X, b"0\r\n"],
        Outcome::Finished,
        1,
    ),
];

fn pieces_of(row: &Row) -> Pieces<'static> {
    let mut pieces = Pieces::new(row.0, row.1, row.1);
    if row.2 {
        pieces.before = Some(ErrorKind::WouldBlock);
    }
    pieces
}

/// Whether the bytes are these texts, or a beginning of them.
fn is_front(bytes: &[u8], parts: Texts, is_whole: bool) -> bool {
    let mut rest = bytes;
    for part in parts {
        match rest.strip_prefix(*part) {
            Some(after) => rest = after,
            None => return !is_whole && part.starts_with(rest),
        }
    }
    rest.is_empty()
}

/// Whether these turns, to the end, made this of the row, and the loop the same report with as many pauses.
fn is_so(taken: Taken, pauses: u64, row: &Row, looped: (Report, u64)) -> bool {
    let (report, paused) = looped;
    let ended = (report.outcome, report.exchanges, report.faults) == (row.4, row.5, 0);
    let same = taken.report == Some(report) && taken.is_again && pauses == paused;
    ended && same && taken.idle == pauses && taken.moved.saturating_add(taken.idle) == report.turns
}

fn looped_over<H: Host, T: AppTask + Send + 'static, A: Application<Task = T>>(
    rt: &H,
    app: &A,
    line: &mut Memory<Pieces>,
) -> io::Result<(Report, u64)> {
    serve(rt, Way::Inline, &Limits::usual(), app, line)
}

fn taken_over<H: Host, A: Application>(
    rt: &H,
    app: &A,
    line: &mut Memory<Pieces>,
    row: &Row,
    looped: (Report, u64),
) -> io::Result<bool> {
    let (taken, pauses) = by_hand(rt, app, line, &Limits::usual(), 1_000)?;
    Ok(is_so(taken, pauses, row, looped) && is_front(text_of(line), row.3, true))
}

/// Whether the first turns, and no more, wrote a beginning.
fn dropped_over<H: Host, A: Application>(
    rt: &H,
    app: &A,
    line: &mut Memory<Pieces>,
    row: &Row,
    most: u64,
) -> io::Result<bool> {
    let (taken, _) = by_hand(rt, app, line, &Limits::usual(), most)?;
    let went_on = taken.report.is_none() && taken.moved.saturating_add(taken.idle) == most;
    Ok(went_on && is_front(text_of(line), row.3, false))
}

/// Whether the row is so, taken to its end, and dropped after each of its turns.
fn is_row<H: Host, T: AppTask + Send + 'static, A: Application<Task = T>>(
    rt: &H,
    app: &A,
    row: &Row,
) -> Result<bool, Fail> {
    let mut line = line_of(rt, pieces_of(row))?;
    let looped = looped_over(rt, app, &mut line)?;
    let mut line = line_of(rt, pieces_of(row))?;
    let mut holds = taken_over(rt, app, &mut line, row, looped)?;
    for most in 0..looped.0.turns {
        let mut line = line_of(rt, pieces_of(row))?;
        holds = dropped_over(rt, app, &mut line, row, most)? && holds;
    }
    Ok(holds)
}

#[test]
fn turns_by_hand_greet_as_the_loop_does(rt: HostRuntime) -> Result<(), Fail> {
    for (place, row) in GREETINGS.iter().enumerate() {
        assert!(rt; is_row(&rt, &Hello, row)?, "row {place}");
    }
    Ok(())
}

#[test]
fn turns_by_hand_echo_as_the_loop_does(rt: HostRuntime) -> Result<(), Fail> {
    for (place, row) in ECHOES.iter().enumerate() {
        assert!(rt; is_row(&rt, &Echo, row)?, "row {place}");
    }
    Ok(())
}

#[test]
fn turns_by_hand_send_trailers_as_the_loop_does(rt: HostRuntime) -> Result<(), Fail> {
    for (place, row) in TRAILERS.iter().enumerate() {
        assert!(rt; is_row(&rt, &TRAILS, row)?, "row {place}");
    }
    for (place, row) in NO_TRAILERS.iter().enumerate() {
        assert!(rt;
            is_row(&rt, &UNTRAILED, row)?,
            "row {place} without trailers"
        );
    }
    Ok(())
}

/// Five idle turns in a row, and a thousand turns.
fn few() -> Limits {
    let mut limits = Limits::usual();
    limits.idle_turns = 5;
    limits.turns = 1_000;
    limits
}

/// How the loop ends over this line, by the stream.
fn streamed<H: Host, L: Line>(rt: &H, line: &mut L) -> io::Result<(Report, u64)> {
    serve(rt, Way::Inline, &few(), &STREAM, line)
}

/// Whether the turns that drop what the task sends are idle, and lead to the limit of those.
fn is_given_up<H: Host, L: Line>(
    rt: &H,
    line: &mut L,
    out: usize,
    looped: (Report, u64),
) -> io::Result<bool> {
    let (taken, pauses) = by_hand(rt, &STREAM, line, &few(), 2_000)?;
    let (report, paused) = looped;
    let ended = (report.outcome, report.exchanges) == (Outcome::WriteFailed(out), 1);
    let counts = report.idle == 5 && (taken.idle, pauses, paused) == (5, 5, 5);
    let same = taken.report == Some(report) && taken.is_again;
    Ok(ended && counts && same && taken.moved.saturating_add(5) == report.turns)
}

fn is_gone<H: Host>(rt: &H, row: &Gone) -> io::Result<bool> {
    let mut line = gone_line(rt, row)?;
    let looped = streamed(rt, &mut line)?;
    let mut line = gone_line(rt, row)?;
    is_given_up(rt, &mut line, row.2, looped)
}

#[test]
fn a_stream_ends_with_its_client(rt: HostRuntime) -> Result<(), Fail> {
    for (place, row) in GONE.iter().enumerate() {
        assert!(rt; is_gone(&rt, row)?, "row {place}");
    }
    Ok(())
}
