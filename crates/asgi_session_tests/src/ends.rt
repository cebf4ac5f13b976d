//! How a session ends, over lines in memory: what is sent, and the outcome.
use crate::apps::{Heard, Said, Step};
use crate::rows::{BOTH, Parts};
use crate::scripts::{Given, Out, is_handed, is_text, script_of};
use crate::serving::{App, serve_script};
use crate::texts::{ACCEPTED, DENIED, FORBIDDEN, HANDSHAKE, HELLO, LAST_CHUNK, SERVER_ERROR};
use asgi_conn::{Host, Outcome};
use asgi_fakes::{End, Way};
use asgi_types::{BadLimit, Limits};
use asgi_ws::Script;
use std::io;
use std::process::Abort;
use std::test::Fail;

/// The application, the messages, what is sent, and the outcome and the faults.
type Row = (App, &'static [Given], &'static [Out], (Outcome, u64));

/// The outcome, one exchange, and the faults.
fn end_of_row(row: &Row) -> End {
    let (outcome, faults) = row.3;
    (outcome, 1, faults)
}

/// Serves a handshake that is accepted, with one exchange, and returns how many messages were read if all is as the row
/// has it.
fn read_over<H: Host>(
    rt: &H,
    way: Way,
    limits: &Limits,
    row: &Row,
    line: &mut Script,
) -> io::Result<Option<usize>> {
    let (end, _) = serve_script(rt, way, limits, row.0, line)?;
    let is_so = is_handed(line, row.2) && line.text() == ACCEPTED;
    if (end, is_so) == (end_of_row(row), true) {
        return Ok(Some(line.received().len()));
    }
    Ok(None)
}

/// The same over a line of the row's messages.
fn reads<H: Host>(rt: &H, way: Way, limits: &Limits, row: &Row) -> io::Result<Option<usize>> {
    let mut line = script_of(rt.alloc(), &[HANDSHAKE], row.1)?;
    read_over(rt, way, limits, row, &mut line)
}

/// Each row, in this way.
fn check_so<H: Abort + Host>(rt: &H, way: Way, rows: &[Row]) -> Result<(), Fail> {
    for (place, row) in rows.iter().enumerate() {
        let read = reads(rt, way, &Limits::usual(), row)?;
        assert!(rt; read.is_some(), "row {place}, {way:?}");
    }
    Ok(())
}

/// Each row, in either way.
fn check_both<H: Abort + Host>(rt: &H, rows: &[Row]) -> Result<(), Fail> {
    check_so(rt, Way::Inline, rows)?;
    check_so(rt, Way::Beside, rows)
}

/// What else may come of a row if the task has a thread of its own, since what it sends may cross with what is read:
/// the messages sent, and the outcome.
type Crossed = &'static [(&'static [Out], Outcome)];

/// A message or a close after the client's close is refused.
const LOST: Outcome = Outcome::WriteFailed(0);

fn is_among(line: &Script, outcome: Outcome, crossed: Crossed) -> bool {
    for (handed, ended) in crossed {
        if (outcome, true) == (*ended, is_handed(line, handed)) {
            return true;
        }
    }
    false
}

/// Whether a session in two threads ends as the row has it, or in one of these other ways.
fn is_crossed<H: Host>(rt: &H, row: &Row, crossed: Crossed) -> io::Result<bool> {
    let mut line = script_of(rt.alloc(), &[HANDSHAKE], row.1)?;
    is_line_crossed(rt, row, crossed, &mut line)
}

fn is_line_crossed<H: Host>(
    rt: &H,
    row: &Row,
    crossed: Crossed,
    line: &mut Script,
) -> io::Result<bool> {
    let (end, _) = serve_script(rt, Way::Beside, &Limits::usual(), row.0, line)?;
    let is_so = (end, is_handed(line, row.2)) == (end_of_row(row), true);
    let is_one = end.1 == 1 && line.text() == ACCEPTED;
    Ok(is_one && (is_so || is_among(line, end.0, crossed)))
}

/// Each row, in one thread exactly as it is, and in two as it is or in one of the crossed ways.
fn check_crossing<H: Abort + Host>(rt: &H, rows: &[Row], crossed: &[Crossed]) -> Result<(), Fail> {
    check_so(rt, Way::Inline, rows)?;
    for (place, (row, crossed)) in rows.iter().zip(crossed).enumerate() {
        let is_so = is_crossed(rt, row, crossed)?;
        assert!(rt; is_so, "row {place}");
    }
    Ok(())
}

const CONNECTS: Step = Step::Hears(Heard::Connect);

const ACCEPTS: Step = Step::Says(Said::Accept("", &[]));

const SAYS_BYE: Step = Step::Says(Said::Close(1000, "bye"));

/// The task receives nothing in an accepted session for some polls, in which the connection reads on.
const RESTS: Step = Step::Rests(100);

const HEARS_1000: Step = Step::Hears(Heard::Disconnect(1000, ""));

const HEARS_1006: Step = Step::Hears(Heard::Disconnect(1006, ""));

const BYE: Out = Out::Close(1000, "bye");

/// `WsEcho`, and tasks that receive exactly these events and send what `WsEcho` does.
const ECHOED: &[Row] = &[
    (
        App::WsEcho,
        &[Given::Text("Hello")],
        &[Out::Text("Hello")],
        (Outcome::InputBroke, 0),
    ),
    (
        App::Listens(&[
            Heard::Connect,
            Heard::Text("Hello"),
            Heard::Disconnect(1006, ""),
        ]),
        &[Given::Text("Hello")],
        &[Out::Text("Hello")],
        (Outcome::InputBroke, 0),
    ),
    (
        App::Listens(&[
            Heard::Connect,
            Heard::Text("a"),
            Heard::Text("b"),
            Heard::Disconnect(1001, "by"),
        ]),
        &[
            Given::Idle,
            Given::Text("a"),
            Given::Ping,
            Given::Text("b"),
            Given::Pong,
            Given::Close(1001, "by"),
        ],
        &[Out::Text("a"), Out::Text("b")],
        (Outcome::Finished, 0),
    ),
    (
        App::Listens(&[Heard::Connect, Heard::Disconnect(1005, "")]),
        &[Given::BareClose, Given::Text("x")],
        &[],
        (Outcome::Finished, 0),
    ),
    (
        App::Listens(&[
            Heard::Connect,
            Heard::Text("a"),
            Heard::Disconnect(1006, ""),
        ]),
        &[Given::Text("a"), Given::Fault, Given::Text("x")],
        &[Out::Text("a")],
        (Outcome::InputBroke, 0),
    ),
];

/// The close is read before the first echo is sent, or before the second one.
const ECHOED_CROSSED: &[Crossed] = &[
    &[],
    &[],
    &[(&[], LOST), (&[Out::Text("a")], LOST)],
    &[],
    &[],
];

#[test]
fn messages_are_heard_and_handed_over(rt: HostRuntime) -> Result<(), Fail> {
    check_crossing(&rt, ECHOED, ECHOED_CROSSED)
}

/// Whether the message is echoed, and the line was given the bytes after the handshake.
fn is_handed_on<H: Host>(rt: &H, way: Way, line: &mut Script) -> io::Result<bool> {
    let (end, _) = serve_script(rt, way, &Limits::usual(), App::WsEcho, line)?;
    let is_so = is_handed(line, &[Out::Text("a")]) && end.0 == Outcome::InputBroke;
    Ok(is_so && line.leftover() == Some(HELLO))
}

fn hands_on<H: Host>(rt: &H, way: Way) -> io::Result<bool> {
    let mut line = script_of(rt.alloc(), &[HANDSHAKE, HELLO], &[Given::Text("a")])?;
    is_handed_on(rt, way, &mut line)
}

#[test]
fn the_bytes_after_a_handshake_are_handed_on(rt: HostRuntime) -> Result<(), Fail> {
    for way in BOTH {
        let is_so = hands_on(&rt, *way)?;
        assert!(rt; is_so);
    }
    Ok(())
}

/// The application, what is written, and the outcome and the faults.
type Answer = (App, Parts, (Outcome, u64));

/// Responses in place of a session.
const ANSWERS: &[Answer] = &[
    (App::Hello, &[FORBIDDEN], (Outcome::Finished, 0)),
    (
        App::Scripted(&[]),
        &[SERVER_ERROR],
        (Outcome::Refused(500), 0),
    ),
    (App::Refuses, &[SERVER_ERROR], (Outcome::Refused(500), 1)),
    (
        App::Scripted(&[
            Step::Says(Said::Denial(401, &[])),
            Step::Says(Said::Last("no")),
        ]),
        &[DENIED, LAST_CHUNK],
        (Outcome::Finished, 0),
    ),
    (
        App::Scripted(&[
            Step::Says(Said::Denial(401, &[])),
            Step::Says(Said::Part("no")),
            Step::Faults,
        ]),
        &[DENIED],
        (Outcome::Finished, 1),
    ),
];

/// Whether the text of the response is written, and nothing else is done.
fn is_answered<H: Host>(rt: &H, way: Way, row: &Answer, line: &mut Script) -> io::Result<bool> {
    let (end, _) = serve_script(rt, way, &Limits::usual(), row.0, line)?;
    let (outcome, faults) = row.2;
    let is_silent = line.leftover().is_none() && line.received().is_empty();
    let is_so = is_silent && is_handed(line, &[]) && is_text(line, row.1);
    Ok((end, is_so) == ((outcome, 1, faults), true))
}

fn answers<H: Host>(rt: &H, way: Way, row: &Answer) -> io::Result<bool> {
    let mut line = script_of(rt.alloc(), &[HANDSHAKE], &[Given::Text("x")])?;
    is_answered(rt, way, row, &mut line)
}

#[test]
fn an_answer_in_place_of_a_session_is_text_alone(rt: HostRuntime) -> Result<(), Fail> {
    for way in BOTH {
        for (place, row) in ANSWERS.iter().enumerate() {
            let is_so = answers(&rt, *way, row)?;
            assert!(rt; is_so, "row {place}");
        }
    }
    Ok(())
}

/// A task ends while its session is open: the server closes, with 1000 if it returned and with 1011 if it faulted.
const OPEN: &[Row] = &[
    (
        App::Scripted(&[CONNECTS, ACCEPTS]),
        &[],
        &[Out::Close(1000, "")],
        (Outcome::Finished, 0),
    ),
    (
        App::Scripted(&[CONNECTS, ACCEPTS, Step::Faults]),
        &[Given::Text("x")],
        &[Out::Close(1011, "")],
        (Outcome::Finished, 1),
    ),
    (
        App::Scripted(&[
            CONNECTS,
            ACCEPTS,
            Step::Says(Said::Text("a")),
            Step::Hears(Heard::Text("x")),
        ]),
        &[Given::Text("x"), Given::Close(1001, "")],
        &[Out::Text("a"), Out::Close(1000, "")],
        (Outcome::Finished, 0),
    ),
];

/// The end of the input, or the client's close, is read before the task has ended; or the close before the task's message is sent.
const OPEN_CROSSED: &[Crossed] = &[
    &[(&[], Outcome::InputBroke)],
    &[(&[], Outcome::InputBroke)],
    &[(&[Out::Text("a")], Outcome::Finished), (&[], LOST)],
];

#[test]
fn a_task_that_ends_in_an_open_session_closes_it(rt: HostRuntime) -> Result<(), Fail> {
    check_crossing(&rt, OPEN, OPEN_CROSSED)
}

/// A task ends after a close or the end of the input, which it has received: nothing more is sent, in either way.
const HEARD: &[Row] = &[
    (
        App::Scripted(&[CONNECTS, ACCEPTS, HEARS_1000]),
        &[Given::Close(1000, "")],
        &[],
        (Outcome::Finished, 0),
    ),
    (
        App::Scripted(&[CONNECTS, ACCEPTS, HEARS_1000, Step::Faults]),
        &[Given::Close(1000, ""), Given::Fault],
        &[],
        (Outcome::Finished, 1),
    ),
    (
        App::Scripted(&[CONNECTS, ACCEPTS, HEARS_1006]),
        &[],
        &[],
        (Outcome::InputBroke, 0),
    ),
    (
        App::Scripted(&[CONNECTS, ACCEPTS, HEARS_1006, Step::Faults]),
        &[Given::Fault, Given::Close(1000, "")],
        &[],
        (Outcome::InputBroke, 1),
    ),
];

/// The same if it has not received it.
const BROKEN: &[Row] = &[
    (
        App::Scripted(&[CONNECTS, ACCEPTS, SAYS_BYE]),
        &[Given::Text("x"), Given::Close(1000, "bye")],
        &[BYE],
        (Outcome::Finished, 0),
    ),
    (
        App::Scripted(&[CONNECTS, ACCEPTS, SAYS_BYE, Step::Faults]),
        &[Given::Fault],
        &[BYE],
        (Outcome::Finished, 1),
    ),
    (
        App::Scripted(&[CONNECTS, ACCEPTS, RESTS]),
        &[Given::Close(1000, "")],
        &[],
        (Outcome::Finished, 0),
    ),
    (
        App::Scripted(&[CONNECTS, ACCEPTS, RESTS]),
        &[Given::Ping],
        &[],
        (Outcome::InputBroke, 0),
    ),
    (
        App::Scripted(&[CONNECTS, ACCEPTS, RESTS, Step::Faults]),
        &[Given::Fault],
        &[],
        (Outcome::InputBroke, 1),
    ),
];

/// The close is read before the task's own is sent; or the task has rested and ended before that, and the server closes.
const BROKEN_CROSSED: &[Crossed] = &[
    &[(&[], LOST)],
    &[],
    &[(&[Out::Close(1000, "")], Outcome::Finished)],
    &[(&[Out::Close(1000, "")], Outcome::Finished)],
    &[(&[Out::Close(1011, "")], Outcome::Finished)],
];

#[test]
fn a_task_that_ends_after_a_close_adds_nothing(rt: HostRuntime) -> Result<(), Fail> {
    check_both(&rt, HEARD)?;
    check_crossing(&rt, BROKEN, BROKEN_CROSSED)
}

/// Each receive after a disconnect returns an equal one, and nothing can be sent: after the client's, in either way.
const AGAIN_AFTER_THE_CLIENT: &[Row] = &[
    (
        App::Scripted(&[
            CONNECTS,
            ACCEPTS,
            Step::Hears(Heard::Disconnect(1001, "by")),
            Step::Hears(Heard::Disconnect(1001, "by")),
            Step::IsRefused(Said::Text("x"), 2),
            Step::IsRefused(Said::Close(1000, ""), 2),
            Step::Hears(Heard::Disconnect(1001, "by")),
        ]),
        &[Given::Close(1001, "by"), Given::Text("y")],
        &[],
        (Outcome::Finished, 0),
    ),
    (
        App::Scripted(&[
            CONNECTS,
            ACCEPTS,
            HEARS_1006,
            HEARS_1006,
            Step::IsRefused(Said::Text("x"), 2),
            HEARS_1006,
        ]),
        &[],
        &[],
        (Outcome::InputBroke, 0),
    ),
];

/// The same after one's own.
const AGAIN: &[Row] = &[
    (
        App::Scripted(&[CONNECTS, ACCEPTS, SAYS_BYE, HEARS_1000]),
        &[Given::Text("x")],
        &[BYE],
        (Outcome::Finished, 0),
    ),
    (
        App::Scripted(&[
            CONNECTS,
            ACCEPTS,
            Step::Says(Said::Close(4999, "")),
            Step::Hears(Heard::Disconnect(4999, "")),
            Step::IsRefused(Said::Text("x"), 1),
            Step::IsRefused(Said::Close(1000, ""), 1),
            Step::Rests(100),
            Step::Hears(Heard::Disconnect(4999, "")),
        ]),
        &[Given::Text("x"), Given::Close(1000, "bye")],
        &[Out::Close(4999, "")],
        (Outcome::Finished, 0),
    ),
];

/// The close is read before the task's own is sent.
const AGAIN_CROSSED: &[Crossed] = &[&[], &[(&[], LOST)]];

#[test]
fn each_receive_after_a_disconnect_is_equal(rt: HostRuntime) -> Result<(), Fail> {
    check_both(&rt, AGAIN_AFTER_THE_CLIENT)?;
    check_crossing(&rt, AGAIN, AGAIN_CROSSED)
}

const PINGS: &[Given] = &[Given::Ping; 100];

/// Tasks that close, and end or go on for a while.
const CLOSING: &[Row] = &[
    (
        App::Scripted(&[CONNECTS, ACCEPTS, SAYS_BYE]),
        PINGS,
        &[BYE],
        (Outcome::Finished, 0),
    ),
    (
        App::Scripted(&[CONNECTS, ACCEPTS, SAYS_BYE, Step::Rests(20), HEARS_1000]),
        PINGS,
        &[BYE],
        (Outcome::Finished, 0),
    ),
    (
        App::Scripted(&[CONNECTS, ACCEPTS, SAYS_BYE, Step::Rests(200), HEARS_1000]),
        PINGS,
        &[BYE],
        (Outcome::Finished, 0),
    ),
];

#[test]
fn of_100_pings_after_a_close_64_are_read(rt: HostRuntime) -> Result<(), Fail> {
    for (place, row) in CLOSING.iter().enumerate() {
        let read = reads(&rt, Way::Inline, &Limits::usual(), row)?;
        assert!(rt; read == Some(64), "row {place}");
    }
    Ok(())
}

/// More texts than there are places, and a close after them.
const MANY: &[Given] = &[
    Given::Text("a"),
    Given::Text("b"),
    Given::Text("c"),
    Given::Text("d"),
    Given::Close(1001, ""),
];

/// A task that receives none of them and one that receives all, with two places.
const CROWDED: &[(Row, usize)] = &[
    // The connect and one text have a place, and another text waits for one: the close is not read before the task has
    // ended, and then all is dropped.
    (
        (
            App::Scripted(&[ACCEPTS, RESTS]),
            MANY,
            &[Out::Close(1000, "")],
            (Outcome::Finished, 0),
        ),
        5,
    ),
    (
        (
            App::Scripted(&[
                ACCEPTS,
                RESTS,
                CONNECTS,
                Step::Hears(Heard::Text("a")),
                Step::Hears(Heard::Text("b")),
                Step::Hears(Heard::Text("c")),
                Step::Hears(Heard::Text("d")),
                Step::Hears(Heard::Disconnect(1001, "")),
            ]),
            MANY,
            &[],
            (Outcome::Finished, 0),
        ),
        5,
    ),
];

#[test]
fn a_message_waits_for_a_place(rt: HostRuntime) -> Result<(), Fail> {
    let limits = Limits::new(16_384, 64, 0, 1, 2, 30_000, 1_000_000)?;
    for (place, (row, wanted)) in CROWDED.iter().enumerate() {
        let read = reads(&rt, Way::Inline, &limits, row)?;
        assert!(rt; read == Some(*wanted), "row {place}");
    }
    Ok(())
}

/// More texts than there may be places.
const CROWD: Row = (
    App::WsEcho,
    &[Given::Text("a"); 1_100],
    &[Out::Text("a"); 1_100],
    (Outcome::InputBroke, 0),
);

#[test]
fn a_session_over_1024_places_is_echoed(rt: HostRuntime) -> Result<(), Fail> {
    let limits = Limits::new(16_384, 64, 0, 1, 1_024, 30_000, 1_000_000)?;
    for way in BOTH {
        let read = reads(&rt, *way, &limits, &CROWD)?;
        assert!(rt; read == Some(1_100));
    }
    Ok(())
}

fn limits_with(idle_turns: u32, turns: u64) -> Result<Limits, BadLimit> {
    Limits::new(16_384, 64, 0, 1, 2, idle_turns, turns)
}

/// A row, and the text that is written.
type Waiting = (Row, Parts);

/// Tasks that go no further: the server sends no response in their place, and does not close an open session.
const WAITING: &[Waiting] = &[
    (
        (App::Scripted(&[Step::Waits]), &[], &[], (Outcome::Idle, 0)),
        &[],
    ),
    (
        (
            App::Scripted(&[Step::Says(Said::Denial(401, &[])), Step::Waits]),
            &[],
            &[],
            (Outcome::Idle, 0),
        ),
        &[],
    ),
    (
        (
            App::Scripted(&[CONNECTS, ACCEPTS, Step::Waits]),
            &[Given::Text("x"), Given::Close(1000, "")],
            &[],
            (Outcome::Idle, 0),
        ),
        &[ACCEPTED],
    ),
    (
        (
            App::Scripted(&[CONNECTS, ACCEPTS, SAYS_BYE, Step::Waits]),
            &[],
            &[BYE],
            (Outcome::Idle, 0),
        ),
        &[ACCEPTED],
    ),
    (
        (
            App::WsEcho,
            &[Given::Idle, Given::Idle, Given::Idle, Given::Idle],
            &[],
            (Outcome::Idle, 0),
        ),
        &[ACCEPTED],
    ),
];

/// Whether the connection is given up after three idle turns.
fn is_given_up<H: Host>(
    rt: &H,
    limits: &Limits,
    row: &Waiting,
    line: &mut Script,
) -> io::Result<bool> {
    let ended = serve_script(rt, Way::Inline, limits, row.0.0, line)?;
    let is_so = is_handed(line, row.0.2) && is_text(line, row.1);
    Ok((ended, is_so) == (((Outcome::Idle, 1, 0), 3), true))
}

fn gives_up<H: Host>(rt: &H, limits: &Limits, row: &Waiting) -> io::Result<bool> {
    let mut line = script_of(rt.alloc(), &[HANDSHAKE], row.0.1)?;
    is_given_up(rt, limits, row, &mut line)
}

#[test]
fn a_session_at_a_limit_is_given_up(rt: HostRuntime) -> Result<(), Fail> {
    let three_idle = limits_with(3, 1_000)?;
    for (place, row) in WAITING.iter().enumerate() {
        let is_so = gives_up(&rt, &three_idle, row)?;
        assert!(rt; is_so, "row {place}");
    }
    Ok(())
}
