//! The judge on tables of events, each with the verdict that ASGI and the RFCs give it.

mod http;
mod lifespan;
mod websocket;

use asgi_protocol::{Judge, Verdict};
use asgi_types::{
    Chars, Facts, Framing, Headers, HttpVersion, Incoming, Kind, Names, Octets, Outgoing, Payload,
    Reason, State,
};
use std::alloc::{AllocError, Global};
use std::process::Abort;
use std::test::Fail;

/// What happens in a row of a table. A text of fields is `name: value` or empty, and more than one
/// with `, ` between them; a number of letters means a text of that many.
#[derive(Clone, Copy)]
enum Step {
    Start(u16, &'static str),
    /// A start that announces trailers.
    Announce(u16, &'static str),
    Body(usize),
    LastBody(usize),
    Trailers(&'static str),
    LastTrailers(&'static str),
    Accept(&'static str, &'static str),
    Send,
    Close(u16, usize),
    DenialStart(u16, &'static str),
    Denial(usize),
    LastDenial(usize),
    Started,
    NotStarted,
    Stopped,
    NotStopped,
}

/// What is received.
#[derive(Clone, Copy)]
enum Heard {
    Request,
    HttpDisconnect,
    Connect,
    Receive,
    WsDisconnect,
    Startup,
}

const PASS: Verdict = Verdict::Pass;

const IGNORED: Verdict = Verdict::Ignored;

fn letters(alloc: Global, count: usize) -> Result<String, AllocError> {
    let mut text = String::new(alloc);
    for _ in 0..count {
        text.push('r')?;
    }
    Ok(text)
}

fn body(alloc: Global, count: usize) -> Result<Octets, AllocError> {
    Ok(Octets::new(letters(alloc, count)?.into_bytes()))
}

/// The fields of a text such as `a: b, c: d`.
fn fields(alloc: Global, text: &str) -> Result<Headers, Fail> {
    let mut headers = Headers::new(alloc);
    for field in text.split(", ") {
        if let Some((name, value)) = field.split_once(": ") {
            headers.push(name.as_bytes(), value.as_bytes())?;
        }
    }
    Ok(headers)
}

fn subprotocol(alloc: Global, name: &str) -> Result<Option<Chars>, AllocError> {
    if name.is_empty() {
        return Ok(None);
    }
    Ok(Some(Chars::new(String::from_str(alloc, name)?)))
}

fn event(alloc: Global, step: Step) -> Result<Outgoing, Fail> {
    match step {
        Step::Start(status, text) => start(alloc, status, text, false),
        Step::Announce(status, text) => start(alloc, status, text, true),
        Step::Body(count) => part(alloc, count, true),
        Step::LastBody(count) => part(alloc, count, false),
        Step::Trailers(text) => section(alloc, text, true),
        Step::LastTrailers(text) => section(alloc, text, false),
        Step::DenialStart(status, text) => {
            let headers = fields(alloc, text)?;
            Ok(Outgoing::DenialStart { status, headers })
        }
        Step::Denial(count) => denial_part(alloc, count, true),
        Step::LastDenial(count) => denial_part(alloc, count, false),
        other => small_event(alloc, other),
    }
}

fn start(alloc: Global, status: u16, text: &str, trailers: bool) -> Result<Outgoing, Fail> {
    let headers = fields(alloc, text)?;
    Ok(Outgoing::ResponseStart {
        status,
        headers,
        trailers,
    })
}

fn section(alloc: Global, text: &str, more_trailers: bool) -> Result<Outgoing, Fail> {
    let headers = fields(alloc, text)?;
    Ok(Outgoing::ResponseTrailers {
        headers,
        more_trailers,
    })
}

fn part(alloc: Global, count: usize, more_body: bool) -> Result<Outgoing, Fail> {
    let body = body(alloc, count)?;
    Ok(Outgoing::ResponseBody { body, more_body })
}

fn denial_part(alloc: Global, count: usize, more_body: bool) -> Result<Outgoing, Fail> {
    let body = body(alloc, count)?;
    Ok(Outgoing::DenialBody { body, more_body })
}

fn small_event(alloc: Global, step: Step) -> Result<Outgoing, Fail> {
    match step {
        Step::Accept(name, text) => accept(alloc, name, text),
        Step::Send => {
            let payload = Payload::Bytes(body(alloc, 3)?);
            Ok(Outgoing::WsSend { payload })
        }
        Step::Close(code, count) => {
            let reason = Chars::new(letters(alloc, count)?);
            Ok(Outgoing::WsClose { code, reason })
        }
        Step::Started => Ok(Outgoing::StartupComplete {
            state: State::new(alloc),
        }),
        Step::NotStarted => Ok(Outgoing::StartupFailed {
            message: Chars::new(String::new(alloc)),
        }),
        Step::Stopped => Ok(Outgoing::ShutdownComplete),
        _ => Ok(Outgoing::ShutdownFailed {
            message: Chars::new(String::new(alloc)),
        }),
    }
}

fn accept(alloc: Global, name: &str, text: &str) -> Result<Outgoing, Fail> {
    let headers = fields(alloc, text)?;
    let subprotocol = subprotocol(alloc, name)?;
    Ok(Outgoing::WsAccept {
        subprotocol,
        headers,
    })
}

fn incoming(alloc: Global, heard: Heard) -> Incoming {
    match heard {
        Heard::Request => Incoming::HttpRequest {
            body: Octets::new(Vec::new(alloc)),
            more_body: false,
        },
        Heard::HttpDisconnect => Incoming::HttpDisconnect,
        Heard::Connect => Incoming::WsConnect,
        Heard::Receive => Incoming::WsReceive {
            payload: Payload::Text(Chars::new(String::new(alloc))),
        },
        Heard::WsDisconnect => disconnect(),
        Heard::Startup => Incoming::LifespanStartup,
    }
}

fn disconnect() -> Incoming {
    match Reason::new("bye") {
        Some(reason) => Incoming::WsDisconnect {
            code: 1_001,
            reason,
        },
        None => Incoming::HttpDisconnect,
    }
}

/// The facts of a request over HTTP/1.1 that offers `chat`.
fn facts(alloc: Global, head_only: bool) -> Result<Facts, AllocError> {
    let mut subprotocols = Names::new(alloc);
    subprotocols.push(Chars::new(String::from_str(alloc, "chat")?))?;
    Ok(Facts {
        version: HttpVersion::V11,
        head_only,
        close: false,
        expect: false,
        trailers_ok: false,
        framing: Framing::Length(0),
        key: [0; 24],
        subprotocols,
    })
}

/// Sends the steps in order, and looks at each before: that gives the same verdict.
fn says(
    rt: &(impl Abort + AllocGlobal),
    judge: &mut Judge,
    facts: &Facts,
    row: &str,
    steps: &[(Step, Verdict)],
) -> Result<(), Fail> {
    for (index, (step, verdict)) in steps.iter().enumerate() {
        let is_so = gives(rt.alloc(), judge, facts, *step, *verdict)?;
        assert!(rt; is_so, "{row}: step {index}");
    }
    Ok(())
}

/// Whether the verdict is this on the step by a look, and then as it is sent.
fn gives(
    alloc: Global,
    judge: &mut Judge,
    facts: &Facts,
    step: Step,
    verdict: Verdict,
) -> Result<bool, Fail> {
    let event = event(alloc, step)?;
    Ok(verdicts_on(judge, facts, &event) == (verdict, verdict))
}

fn verdicts_on(judge: &mut Judge, facts: &Facts, event: &Outgoing) -> (Verdict, Verdict) {
    let looked = judge.look(facts, event);
    (looked, judge.judge(facts, event))
}

/// A fresh judge of a request that isn't a HEAD.
fn judges(
    rt: &(impl Abort + AllocGlobal),
    kind: Kind,
    row: &str,
    steps: &[(Step, Verdict)],
) -> Result<(), Fail> {
    let facts = facts(rt.alloc(), false)?;
    says(rt, &mut Judge::new(kind), &facts, row, steps)
}

/// The same of one step.
fn judges_one(
    rt: &(impl Abort + AllocGlobal),
    kind: Kind,
    row: &str,
    step: Step,
    verdict: Verdict,
) -> Result<(), Fail> {
    judges(rt, kind, row, &[(step, verdict)])
}

/// What is received, and what is sent after it.
type Part = (&'static str, &'static [Heard], &'static [(Step, Verdict)]);

fn hears(
    rt: &(impl Abort + AllocGlobal),
    judge: &mut Judge,
    facts: &Facts,
    parts: &[Part],
) -> Result<(), Fail> {
    for (row, heard, steps) in parts {
        for event in *heard {
            judge.heard(&incoming(rt.alloc(), *event));
        }
        says(rt, judge, facts, row, *steps)?;
    }
    Ok(())
}

/// The same as `judges`, if events are received too.
fn judges_hearing(rt: &(impl Abort + AllocGlobal), kind: Kind, parts: &[Part]) -> Result<(), Fail> {
    let facts = facts(rt.alloc(), false)?;
    hears(rt, &mut Judge::new(kind), &facts, parts)
}
