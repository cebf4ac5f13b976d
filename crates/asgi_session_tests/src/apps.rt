//! Applications that a row needs: they promise nothing.
ghost use Rattle.std.specs.Prelude.{◌≡◌, None};
ghost use Rattle.futures.specs.Poll.{OnPending};
ghost use Rattle.futures.specs.Task.{IsArmed, Keeps};
ghost use Rattle.asgi_apps.specs.Ends.{GoesOn};

use asgi_apps::{AppFault, AppTask, Application};
use asgi_pipes::{AppEnd, Sent};
use asgi_types::{Chars, HeaderError, Headers, Incoming, Octets, Outgoing, Payload, Reason, Scope};
use futures::task::{Context, Poll};
use std::alloc::{AllocError, Global};

type Fields = &'static [(&'static str, &'static str)];

/// An event that is sent.
#[derive(Clone, Copy)]
pub enum Said {
    /// An accept with this subprotocol, or with none if it is empty, and these fields.
    Accept(&'static str, Fields),
    Text(&'static str),
    Close(u16, &'static str),
    /// The start of a denial with this status and these fields.
    Denial(u16, Fields),
    /// A part of its body, after which more follows.
    Part(&'static str),
    /// The last part.
    Last(&'static str),
    /// The start of a response.
    Start(u16, Fields),
    /// The whole body of it.
    Body(&'static str),
    /// Its last trailers, without a field.
    Trailers,
}

/// An event that is received.
#[derive(Clone, Copy)]
pub enum Heard {
    Connect,
    Text(&'static str),
    Bytes(&'static [u8]),
    Disconnect(u16, &'static str),
}

/// What a task does next.
#[derive(Clone, Copy)]
pub enum Step {
    Says(Said),
    /// The task sends this again and again, without end.
    Repeats(Said),
    /// The task sends this, which is refused by this number. If it is not, the task faults.
    IsRefused(Said, u8),
    /// The task receives this. If it is anything else, the task faults, which the report of a connection counts.
    Hears(Heard),
    /// This many polls do nothing.
    Rests(u32),
    Faults,
    /// The task goes no further.
    Waits,
}

impl Said {
    fn event(self, alloc: Global) -> Result<Outgoing, HeaderError> {
        match self {
            Said::Accept(name, fields) => accept(alloc, name, fields),
            Said::Text(text) => Ok(Outgoing::WsSend {
                payload: Payload::Text(chars(alloc, text)?),
            }),
            Said::Close(code, reason) => Ok(Outgoing::WsClose {
                code,
                reason: chars(alloc, reason)?,
            }),
            Said::Denial(status, fields) => Ok(Outgoing::DenialStart {
                status,
                headers: headers(alloc, fields)?,
            }),
            Said::Part(text) => Ok(Outgoing::DenialBody {
                body: octets(alloc, text)?,
                more_body: true,
            }),
            Said::Last(text) => Ok(Outgoing::DenialBody {
                body: octets(alloc, text)?,
                more_body: false,
            }),
            Said::Start(status, fields) => Ok(Outgoing::ResponseStart {
                status,
                headers: headers(alloc, fields)?,
                trailers: false,
            }),
            Said::Body(text) => Ok(Outgoing::ResponseBody {
                body: octets(alloc, text)?,
                more_body: false,
            }),
            Said::Trailers => Ok(Outgoing::ResponseTrailers {
                headers: Headers::new(alloc),
                more_trailers: false,
            }),
        }
    }
}

fn chars(alloc: Global, text: &str) -> Result<Chars, AllocError> {
    Ok(Chars::new(String::from_str(alloc, text)?))
}

fn octets(alloc: Global, text: &str) -> Result<Octets, AllocError> {
    Ok(Octets::new(Vec::from_slice(alloc, text.as_bytes())?))
}

fn headers(alloc: Global, fields: Fields) -> Result<Headers, HeaderError> {
    let mut headers = Headers::new(alloc);
    add_fields(&mut headers, fields)?;
    Ok(headers)
}

fn add_fields(headers: &mut Headers, fields: Fields) -> Result<(), HeaderError> {
    for (name, value) in fields {
        headers.push(name.as_bytes(), value.as_bytes())?;
    }
    Ok(())
}

fn subprotocol(alloc: Global, name: &str) -> Result<Option<Chars>, AllocError> {
    if name.is_empty() {
        return Ok(None);
    }
    Ok(Some(chars(alloc, name)?))
}

fn accept(alloc: Global, name: &str, fields: Fields) -> Result<Outgoing, HeaderError> {
    let headers = headers(alloc, fields)?;
    Ok(Outgoing::WsAccept {
        subprotocol: subprotocol(alloc, name)?,
        headers,
    })
}

impl Heard {
    /// Whether the event is this one.
    fn is(self, event: &Incoming) -> bool {
        match event {
            Incoming::WsConnect => matches!(self, Heard::Connect),
            Incoming::WsReceive { payload } => self.is_payload(payload),
            Incoming::WsDisconnect { code, reason } => self.is_disconnect(*code, reason),
            _ => false,
        }
    }

    fn is_payload(self, payload: &Payload) -> bool {
        match (self, payload) {
            (Heard::Text(text), Payload::Text(given)) => given.as_str() == text,
            (Heard::Bytes(bytes), Payload::Bytes(given)) => given.bytes() == bytes,
            _ => false,
        }
    }

    fn is_disconnect(self, given: u16, why: &Reason) -> bool {
        match self {
            Heard::Disconnect(code, reason) => code == given && why.as_str() == reason,
            _ => false,
        }
    }
}

/// Takes these steps in a session, and returns after the last one. The response to a request is 404.
#[derive(Clone, Copy)]
pub struct Scripted(pub &'static [Step]);

#[derive(Drop)]
pub struct ScriptedTask {
    alloc: Global,
    steps: &'static [Step],
    at: usize,
    /// How many polls of a rest were made.
    rested: u32,
}

const NOT_FOUND: &[Step] = &[
    Step::Says(Said::Start(404, &[("content-length", "0")])),
    Step::Says(Said::Body("")),
];

impl Application for Scripted {
    type Task = ScriptedTask;

    fn call(&self, alloc: Global, scope: &Scope) -> Result<ScriptedTask, AppFault> {
        let steps = match scope {
            Scope::WebSocket(_) => self.0,
            _ => NOT_FOUND,
        };
        Ok(ScriptedTask {
            alloc,
            steps,
            at: 0,
            rested: 0,
        })
    }
}

impl ScriptedTask {
    fn next(&self) -> Option<Step> {
        Some(*self.steps.get(self.at)?)
    }

    /// Goes on to the next step.
    fn pass(&mut self) {
        self.at = self.at.saturating_add(1);
    }

    /// Goes on to the step after this one, which may have no end.
    fn pass_on(&mut self, step: Step) {
        match step {
            Step::Repeats(_) => {}
            _ => self.pass(),
        }
    }

    /// One poll of a rest of `polls`.
    fn rest(&mut self, polls: u32) {
        self.rested = self.rested.saturating_add(1);
        if self.rested >= polls {
            self.rested = 0;
            self.pass();
        }
    }
}

impl AppTask for ScriptedTask {
    fn poll<E: AppEnd>(&mut self, cx: &mut Context<'_>, end: &mut E) -> Poll<Result<(), AppFault>> {
        match self.next() {
            None => Poll::Ready(Ok(())),
            Some(Step::Waits) => cx.yield_now(),
            Some(Step::Rests(polls)) => {
                self.rest(polls);
                cx.yield_now()
            }
            Some(step) => {
                let Poll::Ready(is_so) = goes(self.alloc, cx, end, step) else {
                    return Poll::Pending;
                };
                if !is_so {
                    return Poll::Ready(Err(AppFault::Failed));
                }
                self.pass_on(step);
                cx.yield_now()
            }
        }
    }

    ghost keeps = { λ _ _ _ _ _. tt };
}

/// Whether the step goes as expected; pending if it has to wait.
fn goes<E: AppEnd>(alloc: Global, cx: &mut Context<'_>, end: &mut E, step: Step) -> Poll<bool>
    requires { E.ended end.old ≡ None }
    ensures end { GoesOn E.AppEnd None end.old end.new }
    ensures armed { OnPending result (IsArmed cx.new) }
    ensures kept { Keeps cx.old cx.new }
{
    match step {
        Step::Hears(wanted) => hears(cx, end, wanted),
        Step::Says(said) => says(alloc, cx, end, said, None),
        Step::Repeats(said) => says(alloc, cx, end, said, None),
        Step::IsRefused(said, number) => says(alloc, cx, end, said, Some(number)),
        _ => Poll::Ready(false),
    }
}

/// Whether the next event is this one; pending until one is there.
fn hears<E: AppEnd>(cx: &mut Context<'_>, end: &mut E, wanted: Heard) -> Poll<bool>
    requires { E.ended end.old ≡ None }
    ensures end { GoesOn E.AppEnd None end.old end.new }
    ensures armed { OnPending result (IsArmed cx.new) }
    ensures kept { Keeps cx.old cx.new }
{
    match end.poll_receive(cx) {
        Poll::Ready(event) => Poll::Ready(wanted.is(&event)),
        Poll::Pending => Poll::Pending,
    }
}

/// Whether this goes into the queue, or is refused by the number if there is one; pending until a place is free.
fn says<E: AppEnd>(
    alloc: Global,
    cx: &mut Context<'_>,
    end: &mut E,
    said: Said,
    number: Option<u8>,
) -> Poll<bool>
    requires { E.ended end.old ≡ None }
    ensures end { GoesOn E.AppEnd None end.old end.new }
    ensures armed { OnPending result (IsArmed cx.new) }
    ensures kept { Keeps cx.old cx.new }
{
    let Ok(event) = said.event(alloc) else {
        return Poll::Ready(false);
    };
    match end.poll_send(cx, event) {
        Sent::Done => Poll::Ready(number.is_none()),
        Sent::Full(_) => waits(number),
        Sent::Refused(given, _) => Poll::Ready(number == Some(given)),
        Sent::Ignored => Poll::Ready(false),
    }
}

/// What is to be refused waits for no place.
fn waits(number: Option<u8>) -> Poll<bool> {
    match number {
        Some(_) => Poll::Ready(false),
        None => Poll::Pending,
    }
}

/// An application whose call faults.
#[derive(Clone, Copy)]
pub struct Refuses;

impl Application for Refuses {
    type Task = ScriptedTask;

    fn call(&self, _alloc: Global, _scope: &Scope) -> Result<ScriptedTask, AppFault> {
        Err(AppFault::Failed)
    }
}

/// Behaves as `WsEcho`, but faults if it receives anything but these events. Returns after the last one.
#[derive(Clone, Copy)]
pub struct Listens(pub &'static [Heard]);

#[derive(Drop)]
pub struct ListeningTask {
    alloc: Global,
    events: &'static [Heard],
    at: usize,
    /// What is to be sent next.
    waiting: Option<Outgoing>,
}

impl Application for Listens {
    type Task = ListeningTask;

    fn call(&self, alloc: Global, scope: &Scope) -> Result<ListeningTask, AppFault> {
        let Scope::WebSocket(_) = scope else {
            return Err(AppFault::Failed);
        };
        Ok(ListeningTask {
            alloc,
            events: self.0,
            at: 0,
            waiting: None,
        })
    }
}

impl ListeningTask {
    fn next(&self) -> Option<Heard> {
        Some(*self.events.get(self.at)?)
    }

    /// Makes the echo of the event the next to be sent, if the event is the one that is wanted.
    fn hear(&mut self, wanted: Heard, event: Incoming) -> bool {
        if !wanted.is(&event) {
            return false;
        }
        self.at = self.at.saturating_add(1);
        self.waiting = answer(self.alloc, event);
        true
    }

    /// Sends the echo that is waiting. The event is returned if no place is free.
    fn say<E: AppEnd>(
        &mut self,
        cx: &mut Context<'_>,
        end: &mut E,
        event: Outgoing,
    ) -> Poll<Result<(), AppFault>>
        requires { E.ended end.old ≡ None }
        ensures end { GoesOn E.AppEnd None end.old end.new }
        ensures armed { OnPending result (IsArmed cx.new) }
        ensures kept { Keeps cx.old cx.new }
    {
        match end.poll_send(cx, event) {
            Sent::Done => cx.yield_now(),
            Sent::Full(event) => {
                self.waiting = Some(event);
                Poll::Pending
            }
            Sent::Ignored => Poll::Ready(Err(AppFault::Failed)),
            Sent::Refused(_, _) => Poll::Ready(Err(AppFault::Failed)),
        }
    }

    /// Receives the next event.
    fn listen<E: AppEnd>(
        &mut self,
        cx: &mut Context<'_>,
        end: &mut E,
        wanted: Heard,
    ) -> Poll<Result<(), AppFault>>
        requires { E.ended end.old ≡ None }
        ensures end { GoesOn E.AppEnd None end.old end.new }
        ensures armed { OnPending result (IsArmed cx.new) }
        ensures kept { Keeps cx.old cx.new }
    {
        let Poll::Ready(event) = end.poll_receive(cx) else {
            return Poll::Pending;
        };
        if !self.hear(wanted, event) {
            return Poll::Ready(Err(AppFault::Failed));
        }
        cx.yield_now()
    }
}

/// What `WsEcho` sends for the event.
fn answer(alloc: Global, event: Incoming) -> Option<Outgoing> {
    match event {
        Incoming::WsConnect => Some(Outgoing::WsAccept {
            subprotocol: None,
            headers: Headers::new(alloc),
        }),
        Incoming::WsReceive { payload } => Some(Outgoing::WsSend { payload }),
        _ => None,
    }
}

impl AppTask for ListeningTask {
    fn poll<E: AppEnd>(&mut self, cx: &mut Context<'_>, end: &mut E) -> Poll<Result<(), AppFault>> {
        if let Some(event) = self.waiting.take() {
            return self.say(cx, end, event);
        }
        match self.next() {
            Some(wanted) => self.listen(cx, end, wanted),
            None => Poll::Ready(Ok(())),
        }
    }

    ghost keeps = { λ _ _ _ _ _. tt };
}
