//! The calls of a plain pair, each with its result.
ghost use Rattle.std.specs.Prelude.{◌≡◌, false, None};
ghost use Rattle.asgi_pipes.specs.PlainPairs.{IsPlainPair};

use asgi_pipes::{AppEnd, ConnEnd, EndKind, OutItem, Pipes, Plain, PlainApp, PlainConn, Sent};
use asgi_types::{Facts, Framing, Headers, HttpVersion, Incoming, Kind, Names, Octets, Outgoing};
use futures::task::{Context, Doorbell, Poll, Solo};
use std::alloc::{AllocError, Global};
use std::test::Fail;

/// A call of one end. A number is the one byte of a body, or a status.
#[derive(Clone, Copy)]
enum Call {
    Offer(u8),
    Break,
    Take,
    Receive,
    Start(u16),
    LastBody(u8),
    Finish,
    Carry,
}

/// What a call returns.
#[derive(Clone, Copy, PartialEq, Eq)]
pub(crate) enum Answer {
    Yes,
    No,
    Nothing,
    Body(usize),
    Disconnect,
    Start(u16),
    Ended,
    Ignored,
    Refused(u8),
}

/// Two places each way, and what is put is carried only if a row does so.
const CALLS: &[(Call, Answer)] = &[
    (Call::Receive, Answer::Nothing),
    (Call::Take, Answer::Nothing),
    (Call::Offer(1), Answer::Yes),
    (Call::Offer(2), Answer::Yes),
    (Call::Offer(3), Answer::No),
    (Call::Carry, Answer::Nothing),
    (Call::Receive, Answer::Body(1)),
    (Call::LastBody(7), Answer::Refused(4)),
    (Call::Start(200), Answer::Yes),
    (Call::LastBody(7), Answer::Yes),
    (Call::LastBody(7), Answer::Ignored),
    (Call::Receive, Answer::Disconnect),
    (Call::Break, Answer::Yes),
    (Call::Break, Answer::No),
    (Call::Offer(3), Answer::No),
    (Call::Finish, Answer::Yes),
    (Call::Finish, Answer::No),
    (Call::Carry, Answer::Nothing),
    (Call::Take, Answer::Start(200)),
    (Call::Take, Answer::Body(7)),
    (Call::Take, Answer::Ended),
    (Call::Take, Answer::Nothing),
];

/// The two ends of one pair.
#[derive(Drop)]
pub(crate) struct Pair {
    pub(crate) conn: PlainConn,
    pub(crate) app: PlainApp,
    pub(crate) finished: bool,
    ghost pair: { IsPlainPair conn app },
    ghost open: { finished ≡ false → ⟦<PlainApp as AppEnd>⟧.ended app ≡ None },
}

impl Pair {
    fn offer(&mut self, event: Incoming) -> Answer {
        yes_or_no(self.conn.offer(event).is_ok())
    }

    fn break_off(&mut self) -> Answer {
        yes_or_no(self.conn.offer_disconnect(Incoming::HttpDisconnect))
    }

    fn take(&mut self) -> Answer {
        match self.conn.take() {
            Some(OutItem::Event(event)) => shown(&event),
            Some(OutItem::Ended(_)) => Answer::Ended,
            None => Answer::Nothing,
        }
    }

    fn receive(&mut self, cx: &mut Context<'_>) -> Answer {
        match self.app.poll_receive(cx) {
            Poll::Ready(event) => shown_heard(&event),
            Poll::Pending => Answer::Nothing,
        }
    }

    fn say(&mut self, cx: &mut Context<'_>, event: Outgoing) -> Answer {
        if self.finished {
            return Answer::Nothing;
        }
        let sent = self.app.poll_send(cx, event);
        shown_sent(&sent)
    }

    fn finish(&mut self) -> Answer {
        self.finished = true;
        yes_or_no(self.app.finish(EndKind::Returned))
    }

    pub(crate) fn carry(&mut self) -> Answer {
        Plain::carry(&mut self.conn, &mut self.app);
        Answer::Nothing
    }
}

fn yes_or_no(is: bool) -> Answer {
    if is { Answer::Yes } else { Answer::No }
}

/// The one byte of a body.
fn first(body: &Octets) -> usize {
    match body.bytes().first() {
        Some(byte) => *byte as usize,
        None => 0,
    }
}

fn shown_heard(event: &Incoming) -> Answer {
    match event {
        Incoming::HttpRequest { body, more_body: _ } => Answer::Body(first(body)),
        _ => Answer::Disconnect,
    }
}

fn shown_sent(sent: &Sent) -> Answer {
    match sent {
        Sent::Done => Answer::Yes,
        Sent::Full(_) => Answer::No,
        Sent::Ignored => Answer::Ignored,
        Sent::Refused(number, _) => Answer::Refused(*number),
    }
}

fn shown(event: &Outgoing) -> Answer {
    match event {
        Outgoing::ResponseStart { status, .. } => Answer::Start(*status),
        Outgoing::ResponseBody { body, more_body: _ } => Answer::Body(first(body)),
        _ => Answer::Nothing,
    }
}

fn octets(alloc: Global, byte: u8) -> Result<Octets, AllocError> {
    Ok(Octets::new(vec![in alloc; byte; 1]?))
}

fn body_heard(alloc: Global, byte: u8) -> Result<Incoming, AllocError> {
    Ok(Incoming::HttpRequest {
        body: octets(alloc, byte)?,
        more_body: true,
    })
}

fn last_body(alloc: Global, byte: u8) -> Result<Outgoing, AllocError> {
    Ok(Outgoing::ResponseBody {
        body: octets(alloc, byte)?,
        more_body: false,
    })
}

fn start(alloc: Global, status: u16) -> Outgoing {
    Outgoing::ResponseStart {
        status,
        headers: Headers::new(alloc),
        trailers: false,
    }
}

fn answer_at(
    alloc: Global,
    cx: &mut Context<'_>,
    pair: &mut Pair,
    call: Call,
) -> Result<Answer, AllocError> {
    match call {
        Call::Offer(byte) => Ok(pair.offer(body_heard(alloc, byte)?)),
        Call::Break => Ok(pair.break_off()),
        Call::Take => Ok(pair.take()),
        Call::Receive => Ok(pair.receive(cx)),
        Call::Start(status) => Ok(pair.say(cx, start(alloc, status))),
        Call::LastBody(byte) => Ok(pair.say(cx, last_body(alloc, byte)?)),
        Call::Finish => Ok(pair.finish()),
        Call::Carry => Ok(pair.carry()),
    }
}

/// The first row whose result differs.
type Other = Option<usize>;

fn run(alloc: Global, cx: &mut Context<'_>, pair: &mut Pair) -> Result<Other, AllocError> {
    for (index, row) in CALLS.iter().enumerate() {
        let answer = answer_at(alloc, cx, pair, row.0)?;
        if (answer, index) != (row.1, index) {
            return Ok(Some(index));
        }
    }
    Ok(None)
}

/// Makes the calls on a fresh pair, within one poll.
fn run_fresh(alloc: Global, solo: &Solo) -> Result<Other, AllocError> {
    let mut pair = pair_of(alloc)?;
    let mut cx = solo.begin();
    let other = run(alloc, &mut cx, &mut pair);
    cx.cancel();
    other
}

fn pair_of(alloc: Global) -> Result<Pair, AllocError> {
    let (conn, app) = Plain.make(alloc, Kind::Http, facts(alloc), 2)?;
    Ok(Pair {
        conn,
        app,
        finished: false,
    })
}

pub(crate) fn facts(alloc: Global) -> Facts {
    Facts::plain(alloc)
}

#[test]
fn calls_of_a_plain_pair(rt: HostRuntime) -> Result<(), Fail> {
    let solo = Solo::new(&rt, Doorbell::spinning())?;
    let other = run_fresh(rt.alloc(), &solo)?;
    assert!(rt; other.is_none(), "row {other:?}");
    Ok(())
}
