//! Pairs of ends on tables of calls, each with its result.
mod ends;
mod full_rings;
mod http;
mod lifespan;
mod renewed;
mod websocket;

use asgi_pipes::EndKind;
use asgi_types::{
    Chars, Facts, Framing, Headers, HttpVersion, Incoming, Kind, Names, Octets, Outgoing, Payload,
    Reason, State,
};
pub use ends::{Pair, PlainPair, RingPair};
use futures::task::{Context, Doorbell, Solo};
use std::alloc::{AllocError, AllocGlobal, Global};
use std::process::Abort;
use std::random::RandomSource;
use std::test::Fail;

/// A call of one end. A number is the one byte of a body or of a message, or a code.
#[derive(Clone, Copy)]
pub enum Step {
    Offer(u8),
    OfferConnect,
    OfferMessage(u8),
    OfferStartup,
    OfferShutdown,
    Break,
    BreakSession(u16),
    Take,
    Receive,
    Start(u16),
    /// A start that announces trailers.
    Announce(u16),
    Body(u8),
    LastBody(u8),
    /// Trailers without a field, after which more follow.
    Trailers,
    LastTrailers,
    Accept,
    Send(u8),
    Close(u16),
    DenialStart(u16),
    LastDenial(u8),
    Started,
    Stopped,
    Finish(EndKind),
    Moved,
    Carry,
}

/// What a call returns.
#[derive(Clone, Copy, PartialEq, Eq)]
pub enum Answer {
    Taken,
    Back,
    Yes,
    No,
    Nothing,
    Event(&'static str, u16),
    Ended(EndKind),
    Pending,
    Done,
    Ignored,
    Full,
    Refused(u8),
}

/// A call, and its expected result.
pub type Row = (Step, Answer);

/// The first row whose result differs.
type Other = Option<usize>;

/// The items that were left in the two queues: inward, and outward.
type Left = (usize, usize);

/// The result of a table, and what was left after it.
pub type Ran = (Other, Left);

/// Runs a table on the pair. With `carries`, what was put is carried after each call.
fn run<P: Pair>(
    alloc: Global,
    cx: &mut Context<'_>,
    pair: &mut P,
    carries: bool,
    rows: &[Row],
) -> Result<Other, AllocError> {
    for (index, row) in rows.iter().enumerate() {
        if !is_so_at(alloc, cx, pair, carries, *row)? {
            return Ok(Some(index));
        }
    }
    Ok(None)
}

/// Whether the result of the call is the expected one.
fn is_so_at<P: Pair>(
    alloc: Global,
    cx: &mut Context<'_>,
    pair: &mut P,
    carries: bool,
    row: Row,
) -> Result<bool, AllocError> {
    let answer = answer_at(alloc, cx, pair, row.0)?;
    if carries {
        pair.carry();
    }
    Ok((answer, carries) == (row.1, carries))
}

fn answer_at<P: Pair>(
    alloc: Global,
    cx: &mut Context<'_>,
    pair: &mut P,
    step: Step,
) -> Result<Answer, AllocError> {
    match step {
        Step::Offer(_)
        | Step::OfferConnect
        | Step::OfferMessage(_)
        | Step::OfferStartup
        | Step::OfferShutdown => Ok(pair.offer(offered(alloc, step)?)),
        Step::Break => Ok(pair.break_off(Incoming::HttpDisconnect)),
        Step::BreakSession(code) => Ok(break_session(pair, code)),
        Step::Take => Ok(pair.take()),
        Step::Receive => Ok(pair.receive(cx)),
        Step::Finish(end) => Ok(pair.finish(end)),
        Step::Moved => Ok(pair.moved()),
        Step::Carry => Ok(pair.carry()),
        _ => Ok(pair.say(cx, said(alloc, step)?)),
    }
}

/// The session breaks off with the code, and with no reason.
fn break_session<P: Pair>(pair: &mut P, code: u16) -> Answer {
    match Reason::new("") {
        Some(reason) => pair.break_off(Incoming::WsDisconnect { code, reason }),
        None => Answer::Nothing,
    }
}

/// The number of an event whose one byte is this.
fn code_of(byte: u8) -> u16 {
    byte as u16
}

fn octets(alloc: Global, byte: u8) -> Result<Octets, AllocError> {
    Ok(Octets::new(vec![in alloc; byte; 1]?))
}

fn chars(alloc: Global, text: &str) -> Result<Chars, AllocError> {
    Ok(Chars::new(String::from_str(alloc, text)?))
}

/// The event that the step offers.
fn offered(alloc: Global, step: Step) -> Result<Incoming, AllocError> {
    Ok(match step {
        Step::Offer(byte) => Incoming::HttpRequest {
            body: octets(alloc, byte)?,
            more_body: true,
        },
        Step::OfferConnect => Incoming::WsConnect,
        Step::OfferMessage(byte) => Incoming::WsReceive {
            payload: Payload::Bytes(octets(alloc, byte)?),
        },
        Step::OfferStartup => Incoming::LifespanStartup,
        _ => Incoming::LifespanShutdown,
    })
}

/// The event that the step sends.
fn said(alloc: Global, step: Step) -> Result<Outgoing, AllocError> {
    Ok(match step {
        Step::Start(status) => Outgoing::ResponseStart {
            status,
            headers: Headers::new(alloc),
            trailers: false,
        },
        Step::Announce(status) => Outgoing::ResponseStart {
            status,
            headers: Headers::new(alloc),
            trailers: true,
        },
        Step::Trailers => Outgoing::ResponseTrailers {
            headers: Headers::new(alloc),
            more_trailers: true,
        },
        Step::LastTrailers => Outgoing::ResponseTrailers {
            headers: Headers::new(alloc),
            more_trailers: false,
        },
        Step::Body(byte) => Outgoing::ResponseBody {
            body: octets(alloc, byte)?,
            more_body: true,
        },
        Step::LastBody(byte) => Outgoing::ResponseBody {
            body: octets(alloc, byte)?,
            more_body: false,
        },
        Step::Accept => Outgoing::WsAccept {
            subprotocol: None,
            headers: Headers::new(alloc),
        },
        Step::Send(byte) => Outgoing::WsSend {
            payload: Payload::Bytes(octets(alloc, byte)?),
        },
        Step::Close(code) => Outgoing::WsClose {
            code,
            reason: chars(alloc, "bye")?,
        },
        Step::DenialStart(status) => Outgoing::DenialStart {
            status,
            headers: Headers::new(alloc),
        },
        Step::LastDenial(byte) => Outgoing::DenialBody {
            body: octets(alloc, byte)?,
            more_body: false,
        },
        Step::Started => Outgoing::StartupComplete {
            state: State::new(alloc),
        },
        _ => Outgoing::ShutdownComplete,
    })
}

pub fn facts(alloc: Global) -> Facts {
    Facts::plain(alloc)
}

/// A context comes from here, which the calls of the application's end ask for another poll.
pub fn solo_of<R: RandomSource + AllocGlobal>(rt: &R) -> Result<Solo, AllocError> {
    match Solo::new(rt, Doorbell::spinning()) {
        Ok(solo) => Ok(solo),
        Err(_) => Err(AllocError),
    }
}

/// Runs the table on the pair, within one poll.
fn run_on<P: Pair>(
    alloc: Global,
    solo: &Solo,
    pair: &mut P,
    carries: bool,
    rows: &[Row],
) -> Result<Ran, AllocError> {
    let mut cx = solo.begin();
    let other = run(alloc, &mut cx, pair, carries, rows);
    cx.cancel();
    Ok((other?, pair.left_in()))
}

fn run_fresh<P: Pair>(
    alloc: Global,
    solo: &Solo,
    (kind, ring): (Kind, usize),
    carries: bool,
    rows: &[Row],
) -> Result<Ran, AllocError> {
    let mut pair = P::made(alloc, kind, facts(alloc), ring)?;
    run_on(alloc, solo, &mut pair, carries, rows)
}

/// Runs the table on a fresh pair. `Err` if memory was refused.
pub fn run_table<P: Pair, R: RandomSource + AllocGlobal>(
    rt: &R,
    kind: Kind,
    ring: usize,
    carries: bool,
    rows: &[Row],
) -> Result<Ran, AllocError> {
    let solo = solo_of(rt)?;
    run_fresh::<P>(rt.alloc(), &solo, (kind, ring), carries, rows)
}

/// Whether each call of the table had its result, and this was left in the queues.
pub fn is_left(ran: &Ran, left: Left) -> bool {
    *ran == (None, left)
}

/// Compares each result of the table and what is left in the queues, over plain ends, and over rings if what was put is
/// carried after each call.
pub fn check<R: Abort + RandomSource + AllocGlobal>(
    rt: &R,
    kind: Kind,
    ring: usize,
    carries: bool,
    rows: &[Row],
    left: Left,
) -> Result<(), Fail> {
    let ran = run_table::<PlainPair, R>(rt, kind, ring, carries, rows)?;
    assert!(rt; is_left(&ran, left), "{ran:?}");
    if carries {
        let ran = run_table::<RingPair, R>(rt, kind, ring, carries, rows)?;
        assert!(rt; is_left(&ran, left), "over rings: {ran:?}");
    }
    Ok(())
}
