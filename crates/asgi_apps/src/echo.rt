//! The application that sends each request's body back.
ghost use Rattle.std.specs.Prelude.{◌≡◌, ◌∷◌, [], None, Some, true, false, IfOk};
ghost use Rattle.std.specs.Result.{IsErrOf};
ghost use Rattle.futures.specs.Poll.{IfReady, OnPending};
ghost use Rattle.futures.specs.Task.{IsArmed, Keeps};
ghost use Rattle.asgi_types.specs.declared.end_kind.EndKind.{EndKind};
ghost use Rattle.asgi_types.specs.declared.scope.Kind.TheVariants as kind;
ghost use Rattle.asgi_apps.specs.Answers.{start_of};
ghost use Rattle.asgi_apps.specs.Ends.{GoesOn};
ghost use Rattle.asgi_apps.specs.Scopes.{kind_of};

use crate::echoing::{receive, say};
use crate::responses::{close, start};
use crate::task::{AppFault, AppTask, Application};
use asgi_pipes::AppEnd;
use asgi_types::{Incoming, Kind, Outgoing, Scope};
use futures::task::{Context, Poll};
use std::alloc::Global;

const CONTENT_TYPE: &[u8] = b"content-type";

const OCTET_STREAM: &[u8] = b"application/octet-stream";

/// Responds to each request with 200 and the request's own body, event by event as it comes, and
/// refuses each session. In a lifespan scope its call fails.
#[derive(Clone, Copy, Debug)]
pub struct Echo;

/// The task of `Echo`.
#[derive(Drop)]
pub struct EchoTask {
    kind: Kind,
    /// The event to send next.
    waiting: Option<Outgoing>,
    /// There may be more to receive.
    listens: bool,
}

/// How a task that echoes reacts to an event.
#[derive(Drop)]
enum Reaction {
    /// Sends this event, and goes on receiving if the flag is set.
    Says(Outgoing, bool),
    Returns,
    Listens,
}

impl Application for Echo {
    ghost use Rattle.asgi_apps.specs.Echo.{EchoAnswers};

    type Task = EchoTask;

    ghost answers = { λ _ scope heard said ended. EchoAnswers (kind_of scope) heard said ended };

    ghost refuses = { λ _ scope. kind_of scope ≡ kind.Lifespan };

    fn call(&self, alloc: Global, scope: &Scope) -> Result<EchoTask, AppFault> {
        match scope {
            Scope::Http(_) => echo_request(alloc),
            Scope::WebSocket(_) => Ok(EchoTask {
                kind: Kind::WebSocket,
                waiting: Some(close(alloc)),
                listens: false,
            }),
            Scope::Lifespan(_) => Err(AppFault::Failed),
        }
    }
}

/// A task that sends its response's start next, and receives.
fn echo_request(alloc: Global) -> Result<EchoTask, AppFault>
    ensures ok { IfOk result (λ task. (task.kind ≡ kind.Http) × (task.listens ≡ true)
        × (task.waiting ≡ Some (start_of 200 CONTENT_TYPE.now OCTET_STREAM.now))) }
    ensures failed { ¬ (IsErrOf result AppFault.Failed) }
{
    match start(alloc, 200, CONTENT_TYPE, OCTET_STREAM) {
        Ok(event) => Ok(EchoTask {
            kind: Kind::Http,
            waiting: Some(event),
            listens: true,
        }),
        Err(e) => Err(AppFault::NoMemory(e)),
    }
}

impl AppTask for EchoTask {
    ghost use Rattle.asgi_apps.specs.Echo.{EchoAnswers};
    ghost use Rattle.asgi_apps.specs.Echoing.{Stands};
    ghost use Rattle.std.proofs.Common.{refl, subst, sym};
    ghost use Rattle.std.specs.Option.{option_to_list};
    ghost use Rattle.asgi_apps.specs.Answers.{Answers};

    ghost stands = { Stands };

    ghost answers = { λ task heard said ended. EchoAnswers task.kind heard said ended };

    fn poll<E: AppEnd>(&mut self, cx: &mut Context<'_>, end: &mut E) -> Poll<Result<(), AppFault>> {
        if self.waiting.is_none() {
            if !self.listens {
                return Poll::Ready(Ok(()));
            }
            match self.listen(cx, end) {
                Poll::Pending => return Poll::Pending,
                Poll::Ready(false) => return Poll::Ready(Ok(())),
                Poll::Ready(true) => {}
            }
        }
        self.tell(cx, end);
        Poll::Pending
    }

    ghost keeps = { λ task kind heard said stands. (subst (λ answer. Answers answer heard said None) (sym stands.in_order) (option_to_list task.waiting, refl), tt) };
}

impl EchoTask {
    ghost use Rattle.asgi_apps.specs.Echo.{EchoAnswers};
    ghost use Rattle.asgi_apps.specs.Echoing.{Stands};

    /// Receives the next event, whose answer waits then if it has one. Whether the task goes on.
    fn listen<E: AppEnd>(&mut self, cx: &mut Context<'_>, end: &mut E) -> Poll<bool>
        requires open { E.ended end.old ≡ None }
        requires stands { Stands self.old (E.kind end.old) (E.heard end.old) (E.said end.old) }
        requires free { (self.old.waiting ≡ None) × (self.old.listens ≡ true) }
        ensures end { GoesOn E.AppEnd None end.old end.new }
        ensures goes_on { IfReady result (λ goes_on. goes_on ≡ true → Stands self.new (E.kind end.new) (E.heard end.new) (E.said end.new)) }
        ensures over { IfReady result (λ goes_on. goes_on ≡ false → EchoAnswers self.old.kind (E.heard end.new) (E.said end.new) (Some EndKind.Returned)) }
        ensures stands { OnPending result (Stands self.new (E.kind end.new) (E.heard end.new) (E.said end.new)) }
        ensures kind { self.new.kind ≡ self.old.kind }
        ensures armed { OnPending result (IsArmed cx.new) }
        ensures kept { Keeps cx.old cx.new }
    {
        let Poll::Ready(event) = receive(cx, end) else {
            return Poll::Pending;
        };
        match Reaction::to(event) {
            Reaction::Says(event, listens) => {
                self.waiting = Some(event);
                self.listens = listens;
                Poll::Ready(true)
            }
            Reaction::Listens => Poll::Ready(true),
            Reaction::Returns => Poll::Ready(false),
        }
    }

    /// Sends what waits, if anything does, and is to be polled again.
    fn tell<E: AppEnd>(&mut self, cx: &mut Context<'_>, end: &mut E)
        requires open { E.ended end.old ≡ None }
        requires stands { Stands self.old (E.kind end.old) (E.heard end.old) (E.said end.old) }
        ensures end { GoesOn E.AppEnd None end.old end.new }
        ensures stands { Stands self.new (E.kind end.new) (E.heard end.new) (E.said end.new) }
        ensures kind { self.new.kind ≡ self.old.kind }
        ensures armed { IsArmed cx.new }
        ensures kept { Keeps cx.old cx.new }
    {
        match self.waiting.take() {
            Some(event) => self.waiting = say(cx, end, event),
            None => {
                let _again: Poll<()> = cx.yield_now();
            }
        }
    }
}

impl Reaction {
    ghost use Rattle.asgi_apps.specs.Echoing.{ReactsTo};

    /// How the task reacts to the event.
    fn to(event: Incoming) -> Reaction
        ensures { ReactsTo event result }
    {
        match event {
            Incoming::HttpRequest { body, more_body } => {
                Reaction::Says(Outgoing::ResponseBody { body, more_body }, more_body)
            }
            Incoming::HttpDisconnect => Reaction::Returns,
            Incoming::WsDisconnect { code: _, reason: _ } => Reaction::Returns,
            Incoming::WsConnect => Reaction::Listens,
            Incoming::WsReceive { payload: _ } => Reaction::Listens,
            Incoming::LifespanStartup => Reaction::Listens,
            Incoming::LifespanShutdown => Reaction::Listens,
        }
    }
}
