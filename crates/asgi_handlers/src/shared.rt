//! A handler that all tasks of an application share.
ghost use Rattle.std.specs.Prelude.{◌≡◌, IfOk};
ghost use Rattle.std.specs.Result.{IsErrOf};
ghost use Rattle.asgi_types.specs.declared.scope.Kind.TheVariants as kind;
ghost use Rattle.asgi_apps.specs.Scopes.{kind_of};
ghost use Rattle.asgi_handlers.specs.Handling.{Begins};

use crate::handled::{HandledTask, boxed, deny};
use crate::handler::Handler;
use crate::handling::Handling;
use crate::reply::Reply;
use crate::request::Request;
use asgi_apps::{AppFault, Application};
use asgi_types::{HttpScope, Scope};
use std::alloc::{AllocError, Global};
use std::marker::Model;
use std::sync::Arc;

/// A handler that is held once, by all that have one of these. A contract sees the handler.
#[derive(Drop)]
pub struct Held<H> {
    handler: Arc<H, Global>,
}

impl<H> Model for Held<H> {
    ghost use Rattle.std.specs.Arc.{arc_value};

    ghost Value = { H };

    ghost view = { λ held. arc_value held.handler };
}

impl<H: Drop> Held<H> {
    /// Holds this handler. `AllocError` if memory is refused.
    fn new(alloc: Global, handler: H) -> Result<Self, AllocError>
        ensures { IfOk result (λ held. held ≡ handler) }
    {
        Ok(Held {
            handler: Arc::new(alloc, handler)?,
        })
    }
}

impl<H> Held<H> {
    /// The same handler, held once more. Takes no memory; `AllocError` if 2^63 hold it.
    fn share(&self) -> Result<Self, AllocError>
        ensures { IfOk result (λ held. held ≡ self.now) }
    {
        Ok(Held {
            handler: Arc::try_clone(&self.handler)?,
        })
    }
}

impl<H: Handler> Handler for Held<H> {
    ghost replies = { H.replies };

    fn handle(&self, request: &Request<'_>) -> Result<Reply, AppFault> {
        H::handle(&*self.handler, request)
    }
}

/// The application of a handler that has fields of its own, such as a table of routes, a counter or a
/// lock: its tasks share the handler, where those of `Handled` have a copy each. All else is as with
/// `Handled`.
#[derive(Drop)]
pub struct Shared<H> {
    held: Held<H>,
}

impl<H: Drop> Shared<H> {
    /// The application of this handler. `AllocError` if memory is refused.
    pub fn new(alloc: Global, handler: H) -> Result<Self, AllocError>
        ensures { IfOk result (λ shared. shared.held ≡ handler) }
    {
        Ok(Shared {
            held: Held::new(alloc, handler)?,
        })
    }
}

impl<H: Handler + Drop> Application for Shared<H> {
    ghost use Rattle.asgi_handlers.specs.Replies.{HandledAnswers};

    type Task = HandledTask<Held<H>>;

    ghost answers = { λ app. HandledAnswers H.replies app.held };

    ghost refuses = { λ _ scope. kind_of scope ≡ kind.Lifespan };

    fn call(&self, alloc: Global, scope: &Scope) -> Result<HandledTask<Held<H>>, AppFault> {
        match scope {
            Scope::Http(request) => self.begin(alloc, request),
            Scope::WebSocket(_) => deny(alloc, scope),
            Scope::Lifespan(_) => Err(AppFault::Failed),
        }
    }

    fn call_owned(&self, alloc: Global, scope: Scope) -> Result<HandledTask<Held<H>>, AppFault> {
        match scope {
            Scope::Http(request) => self.begin_owned(alloc, request),
            other => self.call(alloc, &other),
        }
    }
}

impl<H> Shared<H> {
    /// A task that receives the request of this scope. `NoMemory` if memory for its copy is refused.
    fn begin(&self, alloc: Global, scope: &HttpScope) -> Result<HandledTask<Held<H>>, AppFault>
        ensures begins { IfOk result (λ task. Begins task self.now.held scope.now) }
        ensures memory { ¬ (IsErrOf result AppFault.Failed) }
    {
        match scope.copy(alloc) {
            Ok(copied) => self.begin_owned(alloc, copied),
            Err(e) => Err(AppFault::NoMemory(e)),
        }
    }

    /// The same with the scope itself. `NoMemory` if memory is refused.
    fn begin_owned(&self, alloc: Global, scope: HttpScope) -> Result<HandledTask<Held<H>>, AppFault>
        ensures begins { IfOk result (λ task. Begins task self.now.held scope) }
        ensures memory { ¬ (IsErrOf result AppFault.Failed) }
    {
        match self.held_with(alloc, scope) {
            Ok((held, scope)) => Ok(HandledTask::Handles(Handling::new(alloc, held, scope))),
            Err(e) => Err(AppFault::NoMemory(e)),
        }
    }

    /// The handler, held once more, and a place of its own for the scope. `AllocError` if memory is refused.
    fn held_with(
        &self,
        alloc: Global,
        scope: HttpScope,
    ) -> Result<(Held<H>, Box<HttpScope>), AllocError>
        ensures held { IfOk result (λ both. both.0 ≡ self.now.held) }
        ensures scope { IfOk result (λ both. both.1.value ≡ scope) }
    {
        let scope = boxed(alloc, scope)?;
        Ok((self.held.share()?, scope))
    }
}
