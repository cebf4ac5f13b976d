//! The application that sends each message of a session back.
ghost use Rattle.std.specs.Prelude.{◌≡◌, true, false, not, ◌||◌, [], ◌∷◌, Some, None};
ghost use Rattle.futures.specs.Poll.{IfReady, OnPending};
ghost use Rattle.futures.specs.Task.{IsArmed, Keeps};
ghost use Rattle.asgi_types.specs.declared.end_kind.EndKind.{EndKind};
ghost use Rattle.asgi_apps.specs.Ends.{GoesOn};
ghost use Rattle.std.specs.Option.{option_to_list};
ghost use Rattle.asgi_types.specs.declared.scope.Kind.TheVariants as kind;
ghost use Rattle.asgi_protocol.specs.Verdicts.{is_disconnect};
ghost use Rattle.asgi_apps.specs.Scopes.{kind_of};
ghost use Rattle.asgi_apps.specs.WsEcho.{WsEchoAnswers, accept_events};
ghost use Rattle.asgi_apps.specs.WsEchoing.{is_connect, reply};

use crate::echoing::{receive, say};
use crate::responses::respond_not_found;
use crate::says::Says;
use crate::task::{AppFault, AppTask, Application};
use asgi_pipes::AppEnd;
use asgi_types::{Headers, Incoming, Outgoing, Scope};
use futures::task::{Context, Poll};
use std::alloc::Global;

/// Accepts each session and sends each of its messages back, and responds to each request with 404.
/// In a lifespan scope its call fails.
#[derive(Clone, Copy, Debug)]
pub struct WsEcho;

/// The task of `WsEcho`.
#[derive(Drop)]
pub struct WsEchoTask(Work);

#[derive(Drop)]
enum Work {
    /// A request is answered with 404.
    Denies(Says),
    /// The messages of a session are sent back.
    Echoes(Session),
}

/// A session in which no disconnect was received.
#[derive(Drop)]
struct Session {
    alloc: Global,
    /// "Connect" was received: the session was accepted, or its "Accept" is to be sent next.
    is_connected: bool,
    /// The event to send next.
    waiting: Option<Outgoing>,
}

impl Application for WsEcho {
    type Task = WsEchoTask;

    ghost answers = { λ _ scope. WsEchoAnswers (kind_of scope) };

    ghost refuses = { λ _ scope. kind_of scope ≡ kind.Lifespan };

    fn call(&self, alloc: Global, scope: &Scope) -> Result<WsEchoTask, AppFault> {
        match scope {
            Scope::Http(_) => Ok(WsEchoTask(Work::Denies(respond_not_found(alloc)?))),
            Scope::WebSocket(_) => Ok(WsEchoTask(Work::Echoes(Session {
                alloc,
                is_connected: false,
                waiting: None,
            }))),
            Scope::Lifespan(_) => Err(AppFault::Failed),
        }
    }
}

impl AppTask for WsEchoTask {
    ghost use Rattle.asgi_apps.specs.WsEchoing.{Stands, TaskAnswers, task_keeps};

    ghost stands = { Stands };

    ghost answers = { TaskAnswers };

    fn poll<E: AppEnd>(&mut self, cx: &mut Context<'_>, end: &mut E) -> Poll<Result<(), AppFault>> {
        match &mut self.0 {
            Work::Denies(says) => says.poll(cx, end),
            Work::Echoes(session) => session.poll(cx, end),
        }
    }

    ghost keeps = { λ task. task_keeps task.0 };
}

impl AppTask for Session {
    ghost use Rattle.asgi_apps.specs.WsEcho.{SessionAnswers};
    ghost use Rattle.asgi_apps.specs.WsEchoing.{SessionStands};

    ghost stands = { SessionStands };

    ghost answers = { λ _. SessionAnswers };

    fn poll<E: AppEnd>(&mut self, cx: &mut Context<'_>, end: &mut E) -> Poll<Result<(), AppFault>> {
        if self.waiting.is_none() {
            match self.listen(cx, end) {
                Poll::Pending => return Poll::Pending,
                Poll::Ready(false) => return Poll::Ready(Ok(())),
                Poll::Ready(true) => {}
            }
        }
        self.tell(cx, end);
        Poll::Pending
    }

    ghost keeps = { λ session kind heard said stands. ((option_to_list session.waiting, stands.in_order), stands.connected) };
}

impl Session {
    ghost use Rattle.asgi_apps.specs.WsEcho.{SessionAnswers};
    ghost use Rattle.asgi_apps.specs.WsEchoing.{SessionStands};

    /// Receives the next event, whose answer waits then. Whether the session goes on.
    fn listen<E: AppEnd>(&mut self, cx: &mut Context<'_>, end: &mut E) -> Poll<bool>
        requires open { E.ended end.old ≡ None }
        requires stands { SessionStands self.old (E.kind end.old) (E.heard end.old) (E.said end.old) }
        requires free { self.old.waiting ≡ None }
        ensures end { GoesOn E.AppEnd None end.old end.new }
        ensures goes_on { IfReady result (λ goes_on. goes_on ≡ true → SessionStands self.new (E.kind end.new) (E.heard end.new) (E.said end.new)) }
        ensures over { IfReady result (λ goes_on. goes_on ≡ false → SessionAnswers (E.heard end.new) (E.said end.new) (Some EndKind.Returned)) }
        ensures stands { OnPending result (SessionStands self.new (E.kind end.new) (E.heard end.new) (E.said end.new)) }
        ensures armed { OnPending result (IsArmed cx.new) }
        ensures kept { Keeps cx.old cx.new }
    {
        let Poll::Ready(event) = receive(cx, end) else {
            return Poll::Pending;
        };
        Poll::Ready(self.hear(event))
    }

    /// Sends what waits, if anything does, and is to be polled again.
    fn tell<E: AppEnd>(&mut self, cx: &mut Context<'_>, end: &mut E)
        requires open { E.ended end.old ≡ None }
        requires stands { SessionStands self.old (E.kind end.old) (E.heard end.old) (E.said end.old) }
        ensures end { GoesOn E.AppEnd None end.old end.new }
        ensures stands { SessionStands self.new (E.kind end.new) (E.heard end.new) (E.said end.new) }
        ensures armed { IsArmed cx.new }
        ensures kept { Keeps cx.old cx.new }
    {
        match self.waiting.take() {
            Some(event) => self.waiting = say(cx, end, event),
            None => {
                let _again: Poll<()> = cx.yield_now();
            }
        }
    }

    /// Makes the event's answer the next to be sent. Returns whether the session goes on.
    fn hear(&mut self, event: Incoming) -> bool
        requires { self.old.waiting ≡ None }
        ensures goes_on { result ≡ not (is_disconnect event) }
        ensures says { option_to_list self.new.waiting ≡ reply self.old.is_connected event }
        ensures connected { self.new.is_connected ≡ (self.old.is_connected || is_connect event) }
    {
        match event {
            Incoming::WsConnect => self.connect(),
            Incoming::WsReceive { payload } => {
                if self.is_connected {
                    self.waiting = Some(Outgoing::WsSend { payload });
                }
            }
            Incoming::WsDisconnect { code: _, reason: _ } => return false,
            Incoming::HttpDisconnect => return false,
            Incoming::HttpRequest {
                body: _,
                more_body: _,
            } => {}
            Incoming::LifespanStartup => {}
            Incoming::LifespanShutdown => {}
        }
        true
    }

    /// Accepts the session, once.
    fn connect(&mut self)
        requires { self.old.waiting ≡ None }
        ensures says { option_to_list self.new.waiting ≡ reply self.old.is_connected Incoming.WsConnect }
        ensures connected { self.new.is_connected ≡ true }
    {
        if self.is_connected {
            return;
        }
        self.is_connected = true;
        self.waiting = Some(accept(self.alloc));
    }
}

/// Accepts a session with no subprotocol and no fields.
fn accept(alloc: Global) -> Outgoing
    ensures { accept_events ≡ result ∷ [] }
{
    Outgoing::WsAccept {
        subprotocol: None,
        headers: Headers::new(alloc),
    }
}
