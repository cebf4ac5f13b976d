//! Applications that a row needs: they promise nothing.
ghost use Rattle.std.specs.Prelude.{◌≡◌, None};
ghost use Rattle.futures.specs.Poll.{OnPending};
ghost use Rattle.futures.specs.Task.{IsArmed, Keeps};
ghost use Rattle.asgi_apps.specs.Ends.{GoesOn};

use asgi_apps::{AppFault, AppTask, Application, Says};
use asgi_pipes::{AppEnd, Sent};
use asgi_types::{HeaderError, Headers, HttpScope, Incoming, Kind, Octets, Outgoing, Scope};
use futures::task::{Context, Poll};
use std::alloc::{AllocError, Global};
use std::collections::VecDeque;

type Fields = &'static [(&'static str, &'static str)];

/// An event that is sent.
#[derive(Clone, Copy)]
pub enum Said {
    /// A start with this status and these fields.
    Start(u16, Fields),
    /// The same, which announces trailers.
    Announce(u16, Fields),
    /// A part of a body, after which more follows.
    Part(&'static str),
    /// The last part of a body.
    Last(&'static str),
    /// Trailers, after which more follow.
    Trailers(Fields),
    /// The last trailers.
    LastTrailers(Fields),
}

/// An event that is received.
#[derive(Clone, Copy)]
pub enum Heard {
    Part(&'static str),
    Last(&'static str),
    Disconnect,
}

/// What a task does next.
#[derive(Clone, Copy)]
pub enum Step {
    Says(Said),
    /// The task sends this again and again, without end.
    Repeats(Said),
    /// The task sends this, which is refused by this number. If it is not, the task faults.
    IsRefused(Said, u8),
    /// The task sends this, which is ignored. If it is not, the task faults.
    IsIgnored(Said),
    /// The task receives this. If it is anything else, the task faults, which the report of a connection counts.
    Hears(Heard),
    Faults,
    /// The task goes no further.
    Waits,
}

impl Said {
    fn event(self, alloc: Global) -> Result<Outgoing, HeaderError> {
        match self {
            Said::Start(status, fields) => start(alloc, status, fields, false),
            Said::Announce(status, fields) => start(alloc, status, fields, true),
            Said::Part(text) => Ok(body(alloc, text, true)?),
            Said::Last(text) => Ok(body(alloc, text, false)?),
            Said::Trailers(fields) => trailers_of(alloc, fields, true),
            Said::LastTrailers(fields) => trailers_of(alloc, fields, false),
        }
    }
}

fn headers_of(alloc: Global, fields: Fields) -> Result<Headers, HeaderError> {
    let mut headers = Headers::new(alloc);
    add_fields(&mut headers, fields)?;
    Ok(headers)
}

fn add_fields(headers: &mut Headers, fields: Fields) -> Result<(), HeaderError> {
    for (name, value) in fields {
        headers.push(name.as_bytes(), value.as_bytes())?;
    }
    Ok(())
}

fn start(
    alloc: Global,
    status: u16,
    fields: Fields,
    trailers: bool,
) -> Result<Outgoing, HeaderError> {
    let headers = headers_of(alloc, fields)?;
    Ok(Outgoing::ResponseStart {
        status,
        headers,
        trailers,
    })
}

fn trailers_of(
    alloc: Global,
    fields: Fields,
    more_trailers: bool,
) -> Result<Outgoing, HeaderError> {
    let headers = headers_of(alloc, fields)?;
    Ok(Outgoing::ResponseTrailers {
        headers,
        more_trailers,
    })
}

fn body(alloc: Global, text: &str, more_body: bool) -> Result<Outgoing, AllocError> {
    let bytes = Vec::from_slice(alloc, text.as_bytes())?;
    Ok(Outgoing::ResponseBody {
        body: Octets::new(bytes),
        more_body,
    })
}

impl Heard {
    /// Whether the event is this one.
    fn is(self, event: &Incoming) -> bool {
        match event {
            Incoming::HttpRequest { body, more_body } => self.is_body(body.bytes(), *more_body),
            Incoming::HttpDisconnect => matches!(self, Heard::Disconnect),
            _ => false,
        }
    }

    fn is_body(self, body: &[u8], more_body: bool) -> bool {
        match self {
            Heard::Part(text) => more_body && text.as_bytes() == body,
            Heard::Last(text) => !more_body && text.as_bytes() == body,
            Heard::Disconnect => false,
        }
    }
}

/// Takes these steps in each exchange, and returns after the last one.
#[derive(Clone, Copy)]
pub struct Scripted(pub &'static [Step]);

#[derive(Drop)]
pub struct ScriptedTask {
    alloc: Global,
    steps: &'static [Step],
    at: usize,
}

impl Application for Scripted {
    type Task = ScriptedTask;

    fn call(&self, alloc: Global, _scope: &Scope) -> Result<ScriptedTask, AppFault> {
        Ok(ScriptedTask {
            alloc,
            steps: self.0,
            at: 0,
        })
    }
}

impl ScriptedTask {
    fn next(&self) -> Option<Step> {
        Some(*self.steps.get(self.at)?)
    }

    /// Goes on to the next step, unless this one has no end.
    fn pass(&mut self, step: Step) {
        if let Step::Repeats(_) = step {
            return;
        }
        self.at = self.at.saturating_add(1);
    }
}

impl AppTask for ScriptedTask {
    fn poll<E: AppEnd>(&mut self, cx: &mut Context<'_>, end: &mut E) -> Poll<Result<(), AppFault>> {
        match self.next() {
            None => Poll::Ready(Ok(())),
            Some(Step::Waits) => cx.yield_now(),
            Some(step) => {
                let Poll::Ready(is_so) = goes(self.alloc, cx, end, step) else {
                    return Poll::Pending;
                };
                if !is_so {
                    return Poll::Ready(Err(AppFault::Failed));
                }
                self.pass(step);
                cx.yield_now()
            }
        }
    }

    ghost keeps = { λ _ _ _ _ _. tt };
}

/// Whether the step goes as it should; pending while it has to wait.
fn goes<E: AppEnd>(alloc: Global, cx: &mut Context<'_>, end: &mut E, step: Step) -> Poll<bool>
    requires { E.ended end.old ≡ None }
    ensures end { GoesOn E.AppEnd None end.old end.new }
    ensures armed { OnPending result (IsArmed cx.new) }
    ensures kept { Keeps cx.old cx.new }
{
    match step {
        Step::Hears(wanted) => hears(cx, end, wanted),
        Step::Says(said) => says(alloc, cx, end, said),
        Step::Repeats(said) => says(alloc, cx, end, said),
        Step::IsRefused(said, number) => is_turned_away(alloc, cx, end, said, Some(number)),
        Step::IsIgnored(said) => is_turned_away(alloc, cx, end, said, None),
        _ => Poll::Ready(false),
    }
}

/// Whether the next event is this one; pending until one is there.
fn hears<E: AppEnd>(cx: &mut Context<'_>, end: &mut E, wanted: Heard) -> Poll<bool>
    requires { E.ended end.old ≡ None }
    ensures end { GoesOn E.AppEnd None end.old end.new }
    ensures armed { OnPending result (IsArmed cx.new) }
    ensures kept { Keeps cx.old cx.new }
{
    match end.poll_receive(cx) {
        Poll::Ready(event) => Poll::Ready(wanted.is(&event)),
        Poll::Pending => Poll::Pending,
    }
}

/// Whether this goes into the queue; pending until a place is free.
fn says<E: AppEnd>(alloc: Global, cx: &mut Context<'_>, end: &mut E, said: Said) -> Poll<bool>
    requires { E.ended end.old ≡ None }
    ensures end { GoesOn E.AppEnd None end.old end.new }
    ensures armed { OnPending result (IsArmed cx.new) }
    ensures kept { Keeps cx.old cx.new }
{
    let Ok(event) = said.event(alloc) else {
        return Poll::Ready(false);
    };
    match end.poll_send(cx, event) {
        Sent::Done => Poll::Ready(true),
        Sent::Full(_) => Poll::Pending,
        Sent::Ignored => Poll::Ready(false),
        Sent::Refused(_, _) => Poll::Ready(false),
    }
}

/// Whether this is refused by this number, or ignored if there is none; never pending.
fn is_turned_away<E: AppEnd>(
    alloc: Global,
    cx: &mut Context<'_>,
    end: &mut E,
    said: Said,
    number: Option<u8>,
) -> Poll<bool>
    requires { E.ended end.old ≡ None }
    ensures end { GoesOn E.AppEnd None end.old end.new }
    ensures armed { OnPending result (IsArmed cx.new) }
    ensures kept { Keeps cx.old cx.new }
{
    let Ok(event) = said.event(alloc) else {
        return Poll::Ready(false);
    };
    match end.poll_send(cx, event) {
        Sent::Refused(given, _) => Poll::Ready(number == Some(given)),
        Sent::Ignored => Poll::Ready(number.is_none()),
        Sent::Done => Poll::Ready(false),
        Sent::Full(_) => Poll::Ready(false),
    }
}

/// Sends these events in each exchange, and returns. All its memory is taken in the call, which faults if that is refused.
#[derive(Clone, Copy)]
pub struct Sends(pub &'static [Said]);

#[derive(Drop)]
pub struct SendsTask {
    events: VecDeque<Outgoing>,
    /// An event that found no free place when it was sent.
    waiting: Option<Outgoing>,
}

impl Application for Sends {
    type Task = SendsTask;

    fn call(&self, alloc: Global, _scope: &Scope) -> Result<SendsTask, AppFault> {
        match events_of(alloc, self.0) {
            Ok(events) => Ok(SendsTask {
                events,
                waiting: None,
            }),
            Err(_) => Err(AppFault::Failed),
        }
    }
}

fn events_of(alloc: Global, said: &[Said]) -> Result<VecDeque<Outgoing>, HeaderError> {
    let mut events = VecDeque::with_capacity(alloc, said.len())?;
    add_all(&mut events, alloc, said)?;
    Ok(events)
}

fn add_all(
    events: &mut VecDeque<Outgoing>,
    alloc: Global,
    said: &[Said],
) -> Result<(), HeaderError> {
    for one in said {
        let event = made(alloc, *one)?;
        events.push_back(event)?;
    }
    Ok(())
}

fn made(alloc: Global, said: Said) -> Result<Outgoing, HeaderError> {
    said.event(alloc)
}

impl SendsTask {
    /// The event to send next.
    fn next(&mut self) -> Option<Outgoing> {
        match self.waiting.take() {
            Some(event) => Some(event),
            None => self.events.pop_front(),
        }
    }

    /// Sends the event, which waits if no place is free.
    fn say<E: AppEnd>(
        &mut self,
        cx: &mut Context<'_>,
        end: &mut E,
        event: Outgoing,
    ) -> Poll<Result<(), AppFault>>
        requires { E.ended end.old ≡ None }
        ensures end { GoesOn E.AppEnd None end.old end.new }
        ensures armed { OnPending result (IsArmed cx.new) }
        ensures kept { Keeps cx.old cx.new }
    {
        match end.poll_send(cx, event) {
            Sent::Done => cx.yield_now(),
            Sent::Full(event) => {
                self.waiting = Some(event);
                Poll::Pending
            }
            Sent::Ignored => Poll::Ready(Err(AppFault::Failed)),
            Sent::Refused(_, _) => Poll::Ready(Err(AppFault::Failed)),
        }
    }
}

impl AppTask for SendsTask {
    fn poll<E: AppEnd>(&mut self, cx: &mut Context<'_>, end: &mut E) -> Poll<Result<(), AppFault>> {
        match self.next() {
            Some(event) => self.say(cx, end, event),
            None => Poll::Ready(Ok(())),
        }
    }

    ghost keeps = { λ _ _ _ _ _. tt };
}

/// An application whose call faults.
#[derive(Clone, Copy)]
pub struct Refuses;

impl Application for Refuses {
    type Task = ScriptedTask;

    fn call(&self, _alloc: Global, _scope: &Scope) -> Result<ScriptedTask, AppFault> {
        Err(AppFault::Failed)
    }
}

/// Answers each request with its path, its raw path and its query, in brackets.
#[derive(Clone, Copy)]
pub struct Targets;

fn target_of(alloc: Global, scope: &HttpScope) -> Result<Vec<u8>, AllocError> {
    let mut text = Vec::from_slice(alloc, b"[")?;
    text.extend_from_slice(scope.path.as_str().as_bytes())?;
    text.extend_from_slice(b"][")?;
    text.extend_from_slice(scope.raw_path.bytes())?;
    text.extend_from_slice(b"][")?;
    text.extend_from_slice(scope.query_string.bytes())?;
    text.extend_from_slice(b"]")?;
    Ok(text)
}

impl Application for Targets {
    type Task = Says;

    fn call(&self, alloc: Global, scope: &Scope) -> Result<Says, AppFault> {
        let Scope::Http(scope) = scope else {
            return Err(AppFault::Failed);
        };
        let mut says = Says::with_room(alloc, Kind::Http, 2)?;
        says.add(Outgoing::ResponseStart {
            status: 200,
            headers: Headers::new(alloc),
            trailers: false,
        })?;
        says.add(Outgoing::ResponseBody {
            body: Octets::new(target_of(alloc, scope)?),
            more_body: false,
        })?;
        Ok(says)
    }
}
