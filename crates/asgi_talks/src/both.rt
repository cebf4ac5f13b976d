//! One application for requests and one for sessions.
ghost use Rattle.std.specs.Prelude.{◌≡◌, List, [], Option, Some, IfOk, OnErr};
ghost use Rattle.std.specs.Result.{IsErrOf};
ghost use Rattle.asgi_types.specs.declared.incoming.Incoming.{Incoming};
ghost use Rattle.asgi_types.specs.declared.outgoing.Outgoing.{Outgoing};
ghost use Rattle.asgi_types.specs.declared.end_kind.EndKind.{EndKind};
ghost use Rattle.asgi_types.specs.declared.end_kind.EndKind.TheVariants.{Faulted};
ghost use Rattle.asgi_apps.specs.Scopes.{kind_of};
ghost use Rattle.asgi_talks.specs.Either.{EitherAnswers, EitherStands};

use crate::either::Either;
use asgi_apps::{AppFault, Application};
use asgi_types::Scope;
use std::alloc::Global;

/// Two applications as one: requests go to the first, sessions to the second. A lifespan scope goes
/// to that of requests.
#[derive(Clone, Copy, Debug)]
pub struct Both<A, B> {
    /// The application of requests.
    pub http: A,
    /// The application of sessions.
    pub ws: B,
}

impl<A: Application, B: Application> Application for Both<A, B> {
    ghost use Rattle.asgi_talks.specs.Both.{BothAnswer, BothRefuse};

    type Task = Either<A::Task, B::Task>;

    ghost answers = { λ both. BothAnswer A.answers B.answers both.http both.ws };

    ghost refuses = { λ both. BothRefuse A.refuses B.refuses both.http both.ws };

    fn call(&self, alloc: Global, scope: &Scope) -> Result<Either<A::Task, B::Task>, AppFault> {
        match scope {
            Scope::Http(_) => self.call_http(alloc, scope),
            Scope::WebSocket(_) => self.call_ws(alloc, scope),
            Scope::Lifespan(_) => self.call_http(alloc, scope),
        }
    }

    fn call_owned(
        &self,
        alloc: Global,
        scope: Scope,
    ) -> Result<Either<A::Task, B::Task>, AppFault> {
        match scope {
            Scope::Http(_) => self.call_http_owned(alloc, scope),
            Scope::WebSocket(_) => self.call_ws_owned(alloc, scope),
            Scope::Lifespan(_) => self.call_http_owned(alloc, scope),
        }
    }
}

impl<A: Application, B: Application> Both<A, B> {
    /// Calls the application of requests.
    fn call_http(&self, alloc: Global, scope: &Scope) -> Result<Either<A::Task, B::Task>, AppFault>
        ensures stands { IfOk result (λ task. EitherStands A.Task.AppTask.stands B.Task.AppTask.stands task (kind_of scope.now) [] []) }
        ensures answers { IfOk result (λ task. (heard : List Incoming) (said : List Outgoing) (ended : Option EndKind)
            → EitherAnswers A.Task.AppTask.answers B.Task.AppTask.answers task heard said ended
            → A.answers self.now.http scope.now heard said ended) }
        ensures failed { IsErrOf result AppFault.Failed → A.refuses self.now.http scope.now }
        ensures fault { OnErr result (A.answers self.now.http scope.now [] [] (Some Faulted)) }
    {
        match self.http.call(alloc, scope) {
            Ok(task) => Ok(Either::First(task)),
            Err(e) => Err(e),
        }
    }

    /// Calls the application of sessions.
    fn call_ws(&self, alloc: Global, scope: &Scope) -> Result<Either<A::Task, B::Task>, AppFault>
        ensures stands { IfOk result (λ task. EitherStands A.Task.AppTask.stands B.Task.AppTask.stands task (kind_of scope.now) [] []) }
        ensures answers { IfOk result (λ task. (heard : List Incoming) (said : List Outgoing) (ended : Option EndKind)
            → EitherAnswers A.Task.AppTask.answers B.Task.AppTask.answers task heard said ended
            → B.answers self.now.ws scope.now heard said ended) }
        ensures failed { IsErrOf result AppFault.Failed → B.refuses self.now.ws scope.now }
        ensures fault { OnErr result (B.answers self.now.ws scope.now [] [] (Some Faulted)) }
    {
        match self.ws.call(alloc, scope) {
            Ok(task) => Ok(Either::Second(task)),
            Err(e) => Err(e),
        }
    }

    /// Gives the scope to the application of requests.
    fn call_http_owned(
        &self,
        alloc: Global,
        scope: Scope,
    ) -> Result<Either<A::Task, B::Task>, AppFault>
        ensures stands { IfOk result (λ task. EitherStands A.Task.AppTask.stands B.Task.AppTask.stands task (kind_of scope) [] []) }
        ensures answers { IfOk result (λ task. (heard : List Incoming) (said : List Outgoing) (ended : Option EndKind)
            → EitherAnswers A.Task.AppTask.answers B.Task.AppTask.answers task heard said ended
            → A.answers self.now.http scope heard said ended) }
        ensures failed { IsErrOf result AppFault.Failed → A.refuses self.now.http scope }
        ensures fault { OnErr result (A.answers self.now.http scope [] [] (Some Faulted)) }
    {
        match self.http.call_owned(alloc, scope) {
            Ok(task) => Ok(Either::First(task)),
            Err(e) => Err(e),
        }
    }

    /// Gives the scope to the application of sessions.
    fn call_ws_owned(
        &self,
        alloc: Global,
        scope: Scope,
    ) -> Result<Either<A::Task, B::Task>, AppFault>
        ensures stands { IfOk result (λ task. EitherStands A.Task.AppTask.stands B.Task.AppTask.stands task (kind_of scope) [] []) }
        ensures answers { IfOk result (λ task. (heard : List Incoming) (said : List Outgoing) (ended : Option EndKind)
            → EitherAnswers A.Task.AppTask.answers B.Task.AppTask.answers task heard said ended
            → B.answers self.now.ws scope heard said ended) }
        ensures failed { IsErrOf result AppFault.Failed → B.refuses self.now.ws scope }
        ensures fault { OnErr result (B.answers self.now.ws scope [] [] (Some Faulted)) }
    {
        match self.ws.call_owned(alloc, scope) {
            Ok(task) => Ok(Either::Second(task)),
            Err(e) => Err(e),
        }
    }
}
