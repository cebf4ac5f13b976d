//! The application of a talker.
ghost use Rattle.std.specs.Prelude.{◌≡◌, ◌↔◌, List, [], IfOk, IsOk, IsTrue, OnErr, Option, Some};
ghost use Rattle.std.specs.Result.{IsErrOf};
ghost use Rattle.asgi_types.specs.declared.incoming.Incoming.{Incoming};
ghost use Rattle.asgi_types.specs.declared.outgoing.Outgoing.{Outgoing};
ghost use Rattle.asgi_types.specs.declared.end_kind.EndKind.{EndKind};
ghost use Rattle.asgi_types.specs.declared.end_kind.EndKind.TheVariants.{Faulted};
ghost use Rattle.asgi_types.specs.declared.scope.Kind.TheVariants as kind;
ghost use Rattle.asgi_apps.specs.Answers.{Answers, not_found_answer};
ghost use Rattle.asgi_apps.specs.Scopes.{kind_of};
ghost use Rattle.asgi_talks.specs.Sessions.{TalkedAnswers};
ghost use Rattle.asgi_talks.specs.Talking.{BeginsIn, IsDenied, TaskAnswers, TaskStands};

use crate::quiet::{Hushed, Quiet};
use crate::talker::{Talker, Tells};
use crate::talking::Talking;
use asgi_apps::{AppFault, AppTask, Application, NotFound, Says};
use asgi_pipes::AppEnd;
use asgi_types::Scope;
use futures::task::{Context, Poll};
use std::alloc::Global;

/// The application of a talker. In each session it receives "Connect" and asks the talker once; if
/// the session is accepted, it answers each message whole before it receives the next one, until the
/// session closes or the client is gone. It responds to each request with 404, and in a lifespan
/// scope its call fails, as that of `NotFound` does.
#[derive(Clone, Copy, Debug)]
pub struct Talked<T> {
    /// What opens the sessions.
    pub talker: T,
}

/// The task of the application of a talker.
#[derive(Drop)]
pub enum TalkedTask<T, S> {
    /// A session is opened, and its messages are answered.
    Talks(Talking<T, S>),
    /// A request is answered with 404.
    Denies(Says),
}

impl<T> Talked<T> {
    /// The application of this talker.
    pub fn new(talker: T) -> Self
        ensures { result.talker ≡ talker }
    {
        Talked { talker }
    }
}

impl<T: Talker + Copy + Drop> Application for Talked<T> {
    ghost use Rattle.asgi_talks.specs.Quiet.{never, says_nothing};

    type Task = TalkedTask<Hushed<T>, Quiet<T::Session>>;

    ghost answers = { λ app. TalkedAnswers T.opens T.Session.answers says_nothing never app.talker };

    ghost refuses = { λ _ scope. kind_of scope ≡ kind.Lifespan };

    fn call(
        &self,
        alloc: Global,
        scope: &Scope,
    ) -> Result<TalkedTask<Hushed<T>, Quiet<T::Session>>, AppFault> {
        task_of(alloc, Hushed::new(self.talker), scope)
    }

    fn call_owned(
        &self,
        alloc: Global,
        scope: Scope,
    ) -> Result<TalkedTask<Hushed<T>, Quiet<T::Session>>, AppFault> {
        task_of_owned(alloc, Hushed::new(self.talker), scope)
    }
}

/// The application of a talker whose sessions also speak unasked. It does what `Talked` does, and
/// asks the session in each turn in which no message is there and all before was sent. What it says
/// is sent whole before the next message is received.
#[derive(Clone, Copy, Debug)]
pub struct Told<T> {
    /// What opens the sessions.
    pub talker: T,
}

impl<T> Told<T> {
    /// The application of this talker.
    pub fn new(talker: T) -> Self
        ensures { result.talker ≡ talker }
    {
        Told { talker }
    }
}

impl<T: Talker + Copy + Drop> Application for Told<T>
where
    T::Session: Tells,
{
    type Task = TalkedTask<T, T::Session>;

    ghost answers = { λ app. TalkedAnswers T.opens T.Session.answers T.Session.tells T.Session.fails app.talker };

    ghost refuses = { λ _ scope. kind_of scope ≡ kind.Lifespan };

    fn call(&self, alloc: Global, scope: &Scope) -> Result<TalkedTask<T, T::Session>, AppFault> {
        task_of(alloc, self.talker, scope)
    }

    fn call_owned(
        &self,
        alloc: Global,
        scope: Scope,
    ) -> Result<TalkedTask<T, T::Session>, AppFault> {
        task_of_owned(alloc, self.talker, scope)
    }
}

/// The task of the application of this talker in this scope. `NoMemory` if memory for it is refused,
/// and `Failed` in a lifespan scope.
fn task_of<T: Talker<Session = S> + Copy + Drop, S: Tells>(
    alloc: Global,
    talker: T,
    scope: &Scope,
) -> Result<TalkedTask<T, S>, AppFault>
    ensures stands { IfOk result (λ task. TaskStands T.opens S.answers S.tells task (kind_of scope.now) [] []) }
    ensures answers { IfOk result (λ task. (heard : List Incoming) (said : List Outgoing) (ended : Option EndKind)
        → TaskAnswers T.opens S.answers S.tells S.fails task heard said ended
        → TalkedAnswers T.opens S.answers S.tells S.fails talker scope.now heard said ended) }
    ensures failed { IsErrOf result AppFault.Failed → kind_of scope.now ≡ kind.Lifespan }
    ensures fault { OnErr result (TalkedAnswers T.opens S.answers S.tells S.fails talker scope.now [] [] (Some Faulted)) }
{
    match scope {
        Scope::Http(_) => deny(alloc, scope),
        Scope::WebSocket(_) => begin(alloc, talker, scope),
        Scope::Lifespan(_) => Err(AppFault::Failed),
    }
}

/// The same with the scope itself: the task of a session keeps it.
fn task_of_owned<T: Talker<Session = S> + Copy + Drop, S: Tells>(
    alloc: Global,
    talker: T,
    scope: Scope,
) -> Result<TalkedTask<T, S>, AppFault>
    ensures stands { IfOk result (λ task. TaskStands T.opens S.answers S.tells task (kind_of scope) [] []) }
    ensures answers { IfOk result (λ task. (heard : List Incoming) (said : List Outgoing) (ended : Option EndKind)
        → TaskAnswers T.opens S.answers S.tells S.fails task heard said ended
        → TalkedAnswers T.opens S.answers S.tells S.fails talker scope heard said ended) }
    ensures failed { IsErrOf result AppFault.Failed → kind_of scope ≡ kind.Lifespan }
    ensures fault { OnErr result (TalkedAnswers T.opens S.answers S.tells S.fails talker scope [] [] (Some Faulted)) }
    ensures memory { kind_of scope ≡ kind.WebSocket → IsOk result }
{
    if is_session(&scope) {
        return begin_with(alloc, talker, scope);
    }
    task_of(alloc, talker, &scope)
}

/// Whether the scope is a session's.
pub fn is_session(scope: &Scope) -> bool
    ensures { IsTrue result ↔ (kind_of scope.now ≡ kind.WebSocket) }
{
    match scope {
        Scope::Http(_) => false,
        Scope::WebSocket(_) => true,
        Scope::Lifespan(_) => false,
    }
}

/// A task of the session of this scope. `NoMemory` if memory for its copy is refused.
pub fn begin<T: Drop, S>(
    alloc: Global,
    talker: T,
    scope: &Scope,
) -> Result<TalkedTask<T, S>, AppFault>
    ensures begins { IfOk result (λ task. BeginsIn task talker scope.now) }
    ensures failed { IsErrOf result AppFault.Failed → ¬ (kind_of scope.now ≡ kind.WebSocket) }
{
    match scope.copy(alloc) {
        Ok(copied) => begin_with(alloc, talker, copied),
        Err(e) => Err(AppFault::NoMemory(e)),
    }
}

/// A task of the session of this scope, which it keeps. Takes no memory. `Failed` if the scope is no
/// session's.
pub fn begin_with<T: Drop, S>(
    alloc: Global,
    talker: T,
    scope: Scope,
) -> Result<TalkedTask<T, S>, AppFault>
    ensures begins { IfOk result (λ task. BeginsIn task talker scope) }
    ensures failed { IsErrOf result AppFault.Failed → ¬ (kind_of scope ≡ kind.WebSocket) }
    ensures memory { kind_of scope ≡ kind.WebSocket → IsOk result }
{
    match scope {
        Scope::WebSocket(copied) => Ok(TalkedTask::Talks(Talking::new(alloc, talker, copied))),
        Scope::Http(_) => Err(AppFault::Failed),
        Scope::Lifespan(_) => Err(AppFault::Failed),
    }
}

/// A task that gives what `NotFound` gives in this scope.
pub fn deny<T, S>(alloc: Global, scope: &Scope) -> Result<TalkedTask<T, S>, AppFault>
    ensures denies { IfOk result (λ task. IsDenied task scope.now) }
    ensures failed { IsErrOf result AppFault.Failed → kind_of scope.now ≡ kind.Lifespan }
    ensures fault { OnErr result (Answers (not_found_answer scope.now) [] [] (Some Faulted)) }
{
    match NotFound.call(alloc, scope) {
        Ok(says) => Ok(TalkedTask::Denies(says)),
        Err(e) => Err(e),
    }
}

impl<T: Talker<Session = S> + Drop, S: Tells> AppTask for TalkedTask<T, S> {
    ghost use Rattle.asgi_talks.specs.Talking.{task_keeps};

    ghost stands = { TaskStands T.opens S.answers S.tells };

    ghost answers = { TaskAnswers T.opens S.answers S.tells S.fails };

    fn poll<E: AppEnd>(&mut self, cx: &mut Context<'_>, end: &mut E) -> Poll<Result<(), AppFault>> {
        match self {
            TalkedTask::Talks(task) => task.poll(cx, end),
            TalkedTask::Denies(says) => says.poll(cx, end),
        }
    }

    ghost keeps = { task_keeps T.opens S.answers S.tells S.fails };
}
