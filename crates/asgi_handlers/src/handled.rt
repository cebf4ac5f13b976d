//! The application of a handler.
ghost use Rattle.std.specs.Prelude.{◌≡◌, [], IfOk, OnErr, Some};
ghost use Rattle.std.specs.Result.{IsErrOf};
ghost use Rattle.asgi_types.specs.declared.end_kind.EndKind.TheVariants.{Faulted};
ghost use Rattle.asgi_types.specs.declared.scope.Kind.TheVariants as kind;
ghost use Rattle.asgi_apps.specs.Answers.{Answers, not_found_answer};
ghost use Rattle.asgi_apps.specs.Scopes.{kind_of};
ghost use Rattle.asgi_handlers.specs.Handling.{Begins, IsDenied};

use crate::handler::Handler;
use crate::handling::Handling;
use asgi_apps::{AppFault, AppTask, Application, NotFound, Says};
use asgi_pipes::AppEnd;
use asgi_types::{HttpScope, Scope};
use futures::task::{Context, Poll};
use std::alloc::{AllocError, Global};

/// The application of a handler. It receives each request whole, calls the handler once, and sends
/// its reply: a start, and one body. How long a body may be is the server's to say
/// (`Limits::max_body`); a handler with a smaller limit is a `BodyLimit`. It refuses each session,
/// and in a lifespan scope its call fails, as that of `NotFound` does.
#[derive(Clone, Copy, Debug)]
pub struct Handled<H> {
    /// What gives the replies.
    pub handler: H,
}

/// The task of the application of a handler.
#[derive(Drop)]
pub enum HandledTask<H> {
    /// A request is received, handled and answered.
    Handles(Handling<H>),
    /// A session is refused.
    Denies(Says),
}

impl<H> Handled<H> {
    /// The application of this handler.
    pub fn new(handler: H) -> Self
        ensures { result.handler ≡ handler }
    {
        Handled { handler }
    }
}

impl<H: Handler + Copy + Drop> Application for Handled<H> {
    ghost use Rattle.asgi_handlers.specs.Replies.{HandledAnswers};

    type Task = HandledTask<H>;

    ghost answers = { λ app. HandledAnswers H.replies app.handler };

    ghost refuses = { λ _ scope. kind_of scope ≡ kind.Lifespan };

    fn call(&self, alloc: Global, scope: &Scope) -> Result<HandledTask<H>, AppFault> {
        match scope {
            Scope::Http(request) => self.begin(alloc, request),
            Scope::WebSocket(_) => deny(alloc, scope),
            Scope::Lifespan(_) => Err(AppFault::Failed),
        }
    }

    fn call_owned(&self, alloc: Global, scope: Scope) -> Result<HandledTask<H>, AppFault> {
        match scope {
            Scope::Http(request) => self.begin_owned(alloc, request),
            other => self.call(alloc, &other),
        }
    }
}

impl<H: Copy> Handled<H> {
    /// A task that receives the request of this scope. `NoMemory` if memory for its copy is refused.
    fn begin(&self, alloc: Global, scope: &HttpScope) -> Result<HandledTask<H>, AppFault>
        ensures begins { IfOk result (λ task. Begins task self.now.handler scope.now) }
        ensures memory { ¬ (IsErrOf result AppFault.Failed) }
    {
        match scope.copy(alloc) {
            Ok(copied) => self.begin_owned(alloc, copied),
            Err(e) => Err(AppFault::NoMemory(e)),
        }
    }

    /// The same with the scope itself. `NoMemory` if memory for a place of it is refused.
    fn begin_owned(&self, alloc: Global, scope: HttpScope) -> Result<HandledTask<H>, AppFault>
        ensures begins { IfOk result (λ task. Begins task self.now.handler scope) }
        ensures memory { ¬ (IsErrOf result AppFault.Failed) }
    {
        match boxed(alloc, scope) {
            Ok(scope) => Ok(HandledTask::Handles(Handling::new(alloc, self.handler, scope))),
            Err(e) => Err(AppFault::NoMemory(e)),
        }
    }
}

/// The scope in a place of its own.
pub(crate) fn boxed(alloc: Global, scope: HttpScope) -> Result<Box<HttpScope>, AllocError>
    ensures { IfOk result (λ place. place.value ≡ scope) }
{
    Ok(Box::new(alloc, scope)?)
}

/// A task that gives what `NotFound` gives in this scope.
pub(crate) fn deny<H>(alloc: Global, scope: &Scope) -> Result<HandledTask<H>, AppFault>
    ensures denies { IfOk result (λ task. IsDenied task scope.now) }
    ensures failed { IsErrOf result AppFault.Failed → kind_of scope.now ≡ kind.Lifespan }
    ensures fault { OnErr result (Answers (not_found_answer scope.now) [] [] (Some Faulted)) }
{
    match NotFound.call(alloc, scope) {
        Ok(says) => Ok(HandledTask::Denies(says)),
        Err(e) => Err(e),
    }
}

impl<H: Handler + Drop> AppTask for HandledTask<H> {
    ghost use Rattle.asgi_handlers.specs.Handling.{TaskAnswers, TaskStands, task_keeps};

    ghost stands = { TaskStands H.replies };

    ghost answers = { TaskAnswers H.replies };

    fn poll<E: AppEnd>(&mut self, cx: &mut Context<'_>, end: &mut E) -> Poll<Result<(), AppFault>> {
        match self {
            HandledTask::Handles(task) => task.poll(cx, end),
            HandledTask::Denies(says) => says.poll(cx, end),
        }
    }

    ghost keeps = { task_keeps H.replies };
}
