//! The application that keeps a table from its start to its stop.
ghost use Rattle.std.specs.Prelude.{◌≡◌, false, Some, None, IfOk};
ghost use Rattle.std.specs.Option.{option_to_list};
ghost use Rattle.std.specs.Result.{IsErrOf};
ghost use Rattle.asgi_apps.specs.Life.{LifeAnswers, number_line, shutdown_event, startup_event};
ghost use Rattle.asgi_apps.specs.Living.{Begins, is_last, reply, shutdown_after, startup_after};

use crate::echoing::{receive, say};
use crate::responses::{refuse, respond_line};
use crate::says::Says;
use crate::task::{AppFault, AppTask, Application};
use asgi_pipes::AppEnd;
use asgi_types::{Chars, Incoming, Outgoing, Scope, State, StateError, StateValue};
use futures::task::{Context, Poll};
use std::alloc::{AllocError, Global};

/// The name of the number that the state holds.
const NAME: &str = "n";

const NUMBER: u64 = 7;

const SEVEN: &[u8] = b"n=7";

const UNKNOWN: &[u8] = b"n=?";

const NO_TABLE: &str = "no table";

const STILL_BUSY: &str = "still busy";

/// Starts with the number 7 under the name `n` in the state, responds to each request with the line
/// `n=7`, or `n=?` if its state does not hold that, and refuses each session (ASGI lifespan
/// protocol 2.0).
#[derive(Clone, Copy, Debug, PartialEq, Eq)]
pub enum Life {
    /// Starts and stops.
    Works,
    /// The start fails, with the message `no table` ("Startup Failed").
    NoStart,
    /// Starts, and the stop fails, with the message `still busy` ("Shutdown Failed").
    NoStop,
}

/// The task of `Life`.
#[derive(Drop)]
pub struct LifeTask(Work);

#[derive(Drop)]
enum Work {
    /// A request or a session is answered.
    Answers(Says),
    /// The server's start and its stop are answered.
    Serves(Service),
}

/// What is sent from the start to the stop. All of it is made before anything is received.
#[derive(Drop)]
struct Service {
    life: Life,
    /// The event to send next.
    waiting: Option<Outgoing>,
    /// The event to send at the startup.
    startup: Option<Outgoing>,
    /// The event to send at the shutdown after the startup.
    shutdown: Option<Outgoing>,
    /// The last event was received.
    is_over: bool,
}

impl Application for Life {
    type Task = LifeTask;

    ghost answers = { LifeAnswers };

    ghost refuses = { λ _ _. ⊥ };

    fn call(&self, alloc: Global, scope: &Scope) -> Result<LifeTask, AppFault> {
        match scope {
            Scope::Http(scope) => {
                let says = respond_line(alloc, line_of(&scope.state))?;
                Ok(LifeTask(Work::Answers(says)))
            }
            Scope::WebSocket(_) => Ok(LifeTask(Work::Answers(refuse(alloc)?))),
            Scope::Lifespan(_) => Ok(LifeTask(Work::Serves(begin(alloc, *self)?))),
        }
    }
}

/// The line that a request is answered with.
fn line_of(state: &State) -> &'static [u8]
    ensures { result.now ≡ number_line state.now }
{
    match state.get(NAME) {
        Some(StateValue::Number(number)) => {
            if *number == NUMBER {
                return SEVEN;
            }
            UNKNOWN
        }
        Some(StateValue::Text(_)) => UNKNOWN,
        Some(StateValue::Bytes(_)) => UNKNOWN,
        None => UNKNOWN,
    }
}

/// A task that has received nothing.
fn begin(alloc: Global, life: Life) -> Result<Service, AppFault>
    ensures begins { IfOk result (λ service. Begins life service) }
    ensures failed { ¬ (IsErrOf result AppFault.Failed) }
{
    match service_of(alloc, life) {
        Ok(service) => Ok(service),
        Err(e) => Err(AppFault::NoMemory(e)),
    }
}

fn service_of(alloc: Global, life: Life) -> Result<Service, AllocError>
    ensures { IfOk result (λ service. Begins life service) }
{
    let startup = startup(alloc, life)?;
    let shutdown = shutdown(alloc, life)?;
    Ok(Service {
        life,
        waiting: None,
        startup: Some(startup),
        shutdown,
        is_over: false,
    })
}

/// The event to send at the startup.
fn startup(alloc: Global, life: Life) -> Result<Outgoing, AllocError>
    ensures { IfOk result (λ event. event ≡ startup_event life) }
{
    match life {
        Life::Works => started(alloc),
        Life::NoStop => started(alloc),
        Life::NoStart => {
            let message = chars(alloc, NO_TABLE)?;
            Ok(Outgoing::StartupFailed { message })
        }
    }
}

/// "Startup Complete", with the number in the state.
fn started(alloc: Global) -> Result<Outgoing, AllocError>
    ensures { IfOk result (λ event. event ≡ startup_event Life.Works) }
{
    let mut state = State::new(alloc);
    match state.set(NAME, StateValue::Number(NUMBER)) {
        Ok(()) => Ok(Outgoing::StartupComplete { state }),
        Err(StateError::NoMemory(e)) => Err(e),
        Err(StateError::StateFull) => unreachable!(),
    }
}

/// The event to send at the shutdown; none if the start fails.
fn shutdown(alloc: Global, life: Life) -> Result<Option<Outgoing>, AllocError>
    ensures { IfOk result (λ event. event ≡ shutdown_event life) }
{
    match life {
        Life::Works => Ok(Some(Outgoing::ShutdownComplete)),
        Life::NoStop => {
            let message = chars(alloc, STILL_BUSY)?;
            Ok(Some(Outgoing::ShutdownFailed { message }))
        }
        Life::NoStart => Ok(None),
    }
}

fn chars(alloc: Global, text: &str) -> Result<Chars, AllocError>
    ensures { IfOk result (λ chars. chars ≡ text.now) }
{
    let text = String::from_str(alloc, text)?;
    Ok(Chars::new(text))
}

impl AppTask for LifeTask {
    ghost use Rattle.asgi_apps.specs.Living.{Stands, TaskAnswers, task_keeps};

    ghost stands = { Stands };

    ghost answers = { TaskAnswers };

    fn poll<E: AppEnd>(&mut self, cx: &mut Context<'_>, end: &mut E) -> Poll<Result<(), AppFault>> {
        match &mut self.0 {
            Work::Answers(says) => says.poll(cx, end),
            Work::Serves(service) => service.poll(cx, end),
        }
    }

    ghost keeps = { λ task. task_keeps task.0 };
}

impl AppTask for Service {
    ghost use Rattle.asgi_apps.specs.Life.{ServiceAnswers};
    ghost use Rattle.asgi_apps.specs.Living.{ServiceStands, service_keeps};

    ghost stands = { ServiceStands };

    ghost answers = { λ service. ServiceAnswers service.life };

    fn poll<E: AppEnd>(&mut self, cx: &mut Context<'_>, end: &mut E) -> Poll<Result<(), AppFault>> {
        if let Some(event) = self.waiting.take() {
            self.waiting = say(cx, end, event);
            return Poll::Pending;
        }
        if self.is_over {
            return Poll::Ready(Ok(()));
        }
        let Poll::Ready(event) = receive(cx, end) else {
            return Poll::Pending;
        };
        self.hear(event);
        cx.yield_now()
    }

    ghost keeps = { service_keeps };
}

impl Service {
    /// Makes the event's answer the next to be sent. After a disconnect, which a lifespan scope
    /// does not have, nothing may be sent.
    fn hear(&mut self, event: Incoming)
        requires waiting { self.old.waiting ≡ None }
        requires not_over { self.old.is_over ≡ false }
        ensures says { option_to_list self.new.waiting ≡ reply event self.old.startup self.old.shutdown }
        ensures startup { self.new.startup ≡ startup_after event self.old.startup }
        ensures shutdown { self.new.shutdown ≡ shutdown_after event self.old.startup self.old.shutdown }
        ensures over { self.new.is_over ≡ is_last event self.old.startup self.old.shutdown }
        ensures life { self.new.life ≡ self.old.life }
    {
        match event {
            Incoming::LifespanStartup => self.start(),
            Incoming::LifespanShutdown => self.stop(),
            Incoming::HttpDisconnect => self.silence(),
            Incoming::WsDisconnect { code: _, reason: _ } => self.silence(),
            Incoming::HttpRequest {
                body: _,
                more_body: _,
            } => {}
            Incoming::WsConnect => {}
            Incoming::WsReceive { payload: _ } => {}
        }
    }

    /// At the first startup its answer is sent. If nothing is to be sent at a shutdown, that was the last event.
    fn start(&mut self)
        requires waiting { self.old.waiting ≡ None }
        requires not_over { self.old.is_over ≡ false }
        ensures says { option_to_list self.new.waiting ≡ reply Incoming.LifespanStartup self.old.startup self.old.shutdown }
        ensures startup { self.new.startup ≡ startup_after Incoming.LifespanStartup self.old.startup }
        ensures shutdown { self.new.shutdown ≡ shutdown_after Incoming.LifespanStartup self.old.startup self.old.shutdown }
        ensures over { self.new.is_over ≡ is_last Incoming.LifespanStartup self.old.startup self.old.shutdown }
        ensures life { self.new.life ≡ self.old.life }
    {
        if let Some(event) = self.startup.take() {
            self.waiting = Some(event);
            self.is_over = self.shutdown.is_none();
        }
    }

    /// At the first shutdown after the startup its answer is sent, the last one.
    fn stop(&mut self)
        requires waiting { self.old.waiting ≡ None }
        requires not_over { self.old.is_over ≡ false }
        ensures says { option_to_list self.new.waiting ≡ reply Incoming.LifespanShutdown self.old.startup self.old.shutdown }
        ensures startup { self.new.startup ≡ startup_after Incoming.LifespanShutdown self.old.startup }
        ensures shutdown { self.new.shutdown ≡ shutdown_after Incoming.LifespanShutdown self.old.startup self.old.shutdown }
        ensures over { self.new.is_over ≡ is_last Incoming.LifespanShutdown self.old.startup self.old.shutdown }
        ensures life { self.new.life ≡ self.old.life }
    {
        if self.startup.is_some() {
            return;
        }
        if let Some(event) = self.shutdown.take() {
            self.waiting = Some(event);
            self.is_over = true;
        }
    }

    /// Nothing more is sent at a startup or a shutdown.
    fn silence(&mut self)
        ensures startup { self.new.startup ≡ None }
        ensures shutdown { self.new.shutdown ≡ None }
        ensures same { (self.new.waiting ≡ self.old.waiting) × (self.new.is_over ≡ self.old.is_over) × (self.new.life ≡ self.old.life) }
    {
        self.startup = None;
        self.shutdown = None;
    }
}
