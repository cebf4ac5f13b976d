//! The ends of a pair, by the results of their calls: plain ones, and rings.
ghost use Rattle.std.specs.Prelude.{◌≡◌, false, None, Some};
ghost use Rattle.asgi_pipes.specs.PlainPairs.{IsPlainPair};
ghost use Rattle.asgi_pipes.specs.RingEnds.{IsRingPair};

use super::{Answer, Left, code_of};
use asgi_pipes::{
    AppEnd, ConnEnd, EndKind, Met, OutItem, Pipes, Plain, PlainApp, PlainConn, RingApp, RingConn,
    Rings, Sent,
};
use asgi_types::{Facts, Incoming, Kind, Outgoing, Payload};
use futures::task::{Context, Poll};
use std::alloc::{AllocError, Global};

/// The two ends of one pair, which a table is run on.
pub trait Pair: Drop {
    fn made(alloc: Global, kind: Kind, facts: Facts, ring: usize) -> Result<Self, AllocError>;

    /// A new one out of the ends of this.
    fn renewed(
        self,
        alloc: Global,
        kind: Kind,
        facts: Facts,
        ring: usize,
    ) -> Result<Self, AllocError>;

    fn offer(&mut self, event: Incoming) -> Answer;

    fn break_off(&mut self, event: Incoming) -> Answer;

    fn take(&mut self) -> Answer;

    fn receive(&mut self, cx: &mut Context<'_>) -> Answer;

    fn say(&mut self, cx: &mut Context<'_>, event: Outgoing) -> Answer;

    fn finish(&mut self, end: EndKind) -> Answer;

    fn moved(&mut self) -> Answer;

    /// Moves what was put at each end on to the other one, if that does not happen by itself.
    fn carry(&mut self) -> Answer;

    /// What was left in the two queues.
    fn left_in(&mut self) -> Left;
}

#[derive(Drop)]
pub struct PlainPair {
    conn: PlainConn,
    app: PlainApp,
    finished: bool,
    ghost pair: { IsPlainPair conn app },
    ghost open: { finished ≡ false → app.state.value.ended ≡ None },
}

impl Pair for PlainPair {
    fn made(alloc: Global, kind: Kind, facts: Facts, ring: usize) -> Result<PlainPair, AllocError> {
        let (conn, app) = Plain.make(alloc, kind, facts, ring)?;
        Ok(PlainPair {
            conn,
            app,
            finished: false,
        })
    }

    fn renewed(
        self,
        alloc: Global,
        kind: Kind,
        facts: Facts,
        ring: usize,
    ) -> Result<PlainPair, AllocError> {
        let PlainPair {
            conn,
            app,
            finished: _,
        } = self;
        let (conn, app) = Plain.renew(alloc, conn, app, kind, facts, ring)?;
        Ok(PlainPair {
            conn,
            app,
            finished: false,
        })
    }

    fn offer(&mut self, event: Incoming) -> Answer {
        offer(&mut self.conn, event)
    }

    fn break_off(&mut self, event: Incoming) -> Answer {
        break_off(&mut self.conn, event)
    }

    fn take(&mut self) -> Answer {
        take(&mut self.conn)
    }

    fn receive(&mut self, cx: &mut Context<'_>) -> Answer {
        receive(&mut self.app, cx)
    }

    fn say(&mut self, cx: &mut Context<'_>, event: Outgoing) -> Answer {
        if self.finished {
            return Answer::Nothing;
        }
        say(&mut self.app, cx, event)
    }

    fn finish(&mut self, end: EndKind) -> Answer {
        self.finished = true;
        finish(&mut self.app, end)
    }

    fn moved(&mut self) -> Answer {
        moved(&mut self.app)
    }

    fn carry(&mut self) -> Answer {
        Plain::carry(&mut self.conn, &mut self.app);
        Answer::Nothing
    }

    fn left_in(&mut self) -> Left {
        left_between(Plain::meet(&mut self.conn, &mut self.app))
    }
}

#[derive(Drop)]
pub struct RingPair {
    conn: RingConn,
    app: RingApp,
    finished: bool,
    ghost pair: { IsRingPair conn app },
    ghost open: { finished ≡ false → app.state.ended ≡ None },
}

impl Pair for RingPair {
    fn made(alloc: Global, kind: Kind, facts: Facts, ring: usize) -> Result<RingPair, AllocError> {
        let (conn, app) = Rings.make(alloc, kind, facts, ring)?;
        Ok(RingPair {
            conn,
            app,
            finished: false,
        })
    }

    fn renewed(
        self,
        alloc: Global,
        kind: Kind,
        facts: Facts,
        ring: usize,
    ) -> Result<RingPair, AllocError> {
        let RingPair {
            conn,
            app,
            finished: _,
        } = self;
        let (conn, app) = Rings.renew(alloc, conn, app, kind, facts, ring)?;
        Ok(RingPair {
            conn,
            app,
            finished: false,
        })
    }

    fn offer(&mut self, event: Incoming) -> Answer {
        offer(&mut self.conn, event)
    }

    fn break_off(&mut self, event: Incoming) -> Answer {
        break_off(&mut self.conn, event)
    }

    fn take(&mut self) -> Answer {
        take(&mut self.conn)
    }

    fn receive(&mut self, cx: &mut Context<'_>) -> Answer {
        receive(&mut self.app, cx)
    }

    fn say(&mut self, cx: &mut Context<'_>, event: Outgoing) -> Answer {
        if self.finished {
            return Answer::Nothing;
        }
        say(&mut self.app, cx, event)
    }

    fn finish(&mut self, end: EndKind) -> Answer {
        self.finished = true;
        finish(&mut self.app, end)
    }

    fn moved(&mut self) -> Answer {
        moved(&mut self.app)
    }

    fn carry(&mut self) -> Answer {
        Answer::Nothing
    }

    fn left_in(&mut self) -> Left {
        left_between(Rings::meet(&mut self.conn, &mut self.app))
    }
}

fn left_between(met: Option<Met>) -> Left {
    match met {
        Some(met) => (met.left_in, met.left_out),
        None => (usize::MAX, usize::MAX),
    }
}

fn offer<C: ConnEnd>(conn: &mut C, event: Incoming) -> Answer
    ensures { C.tag conn.new ≡ C.tag conn.old }
{
    match conn.offer(event) {
        Ok(()) => Answer::Taken,
        Err(_) => Answer::Back,
    }
}

fn break_off<C: ConnEnd>(conn: &mut C, event: Incoming) -> Answer
    ensures { C.tag conn.new ≡ C.tag conn.old }
{
    yes_or_no(conn.offer_disconnect(event))
}

fn take<C: ConnEnd>(conn: &mut C) -> Answer
    ensures { C.tag conn.new ≡ C.tag conn.old }
{
    match conn.take() {
        Some(OutItem::Event(event)) => shown_said(&event),
        Some(OutItem::Ended(end)) => Answer::Ended(end),
        None => Answer::Nothing,
    }
}

fn receive<E: AppEnd>(app: &mut E, cx: &mut Context<'_>) -> Answer
    ensures { (E.tag app.new ≡ E.tag app.old) × (E.ended app.new ≡ E.ended app.old) }
{
    match app.poll_receive(cx) {
        Poll::Ready(event) => shown_heard(&event),
        Poll::Pending => Answer::Pending,
    }
}

fn say<E: AppEnd>(app: &mut E, cx: &mut Context<'_>, event: Outgoing) -> Answer
    requires { E.ended app.old ≡ None }
    ensures { (E.tag app.new ≡ E.tag app.old) × (E.ended app.new ≡ E.ended app.old) }
{
    let sent = app.poll_send(cx, event);
    shown_sent(&sent)
}

fn finish<E: AppEnd>(app: &mut E, end: EndKind) -> Answer
    ensures { E.tag app.new ≡ E.tag app.old }
{
    yes_or_no(app.finish(end))
}

fn moved<E: AppEnd>(app: &mut E) -> Answer
    ensures { (E.tag app.new ≡ E.tag app.old) × (E.ended app.new ≡ E.ended app.old) }
{
    yes_or_no(app.moved())
}

fn yes_or_no(is: bool) -> Answer {
    if is { Answer::Yes } else { Answer::No }
}

fn shown_sent(sent: &Sent) -> Answer {
    match sent {
        Sent::Done => Answer::Done,
        Sent::Ignored => Answer::Ignored,
        Sent::Full(_) => Answer::Full,
        Sent::Refused(number, _) => Answer::Refused(*number),
    }
}

fn first(bytes: &[u8]) -> u16 {
    match bytes.first() {
        Some(byte) => code_of(*byte),
        None => 0,
    }
}

fn shown_heard(event: &Incoming) -> Answer {
    match event {
        Incoming::HttpRequest { body, more_body: _ } => Answer::Event("body", first(body.bytes())),
        Incoming::HttpDisconnect => Answer::Event("disconnect", 0),
        Incoming::WsConnect => Answer::Event("connect", 0),
        Incoming::WsReceive { payload } => Answer::Event("message", content(payload)),
        Incoming::WsDisconnect { code, reason } => {
            if reason.bytes().is_empty() {
                Answer::Event("disconnect", *code)
            } else {
                Answer::Event("reason", *code)
            }
        }
        Incoming::LifespanStartup => Answer::Event("startup", 0),
        Incoming::LifespanShutdown => Answer::Event("shutdown", 0),
    }
}

fn content(payload: &Payload) -> u16 {
    match payload {
        Payload::Text(text) => first(text.as_str().as_bytes()),
        Payload::Bytes(bytes) => first(bytes.bytes()),
    }
}

fn shown_said(event: &Outgoing) -> Answer {
    match event {
        Outgoing::ResponseStart { status, .. } => Answer::Event("start", *status),
        Outgoing::ResponseBody { body, more_body } => {
            if *more_body {
                Answer::Event("body", first(body.bytes()))
            } else {
                Answer::Event("last", first(body.bytes()))
            }
        }
        Outgoing::ResponseTrailers { more_trailers, .. } => {
            if *more_trailers {
                Answer::Event("trailers", 0)
            } else {
                Answer::Event("last trailers", 0)
            }
        }
        Outgoing::WsAccept { .. } => Answer::Event("accept", 0),
        Outgoing::WsSend { payload } => Answer::Event("send", content(payload)),
        Outgoing::WsClose { code, reason: _ } => Answer::Event("close", *code),
        Outgoing::DenialStart { status, headers: _ } => Answer::Event("denial", *status),
        Outgoing::DenialBody { body, more_body: _ } => {
            Answer::Event("denial body", first(body.bytes()))
        }
        Outgoing::StartupComplete { .. } => Answer::Event("started", 0),
        Outgoing::ShutdownComplete => Answer::Event("stopped", 0),
        _ => Answer::Nothing,
    }
}
