//! The application of a talker that all its tasks share.
ghost use Rattle.std.specs.Prelude.{◌≡◌, List, [], IfOk, OnErr, Option, Some};
ghost use Rattle.std.specs.Result.{IsErrOf};
ghost use Rattle.asgi_types.specs.declared.incoming.Incoming.{Incoming};
ghost use Rattle.asgi_types.specs.declared.outgoing.Outgoing.{Outgoing};
ghost use Rattle.asgi_types.specs.declared.end_kind.EndKind.{EndKind};
ghost use Rattle.asgi_types.specs.declared.end_kind.EndKind.TheVariants.{Faulted};
ghost use Rattle.asgi_types.specs.declared.scope.Kind.TheVariants as kind;
ghost use Rattle.asgi_apps.specs.Scopes.{kind_of};
ghost use Rattle.asgi_talks.specs.Sessions.{TalkedAnswers};
ghost use Rattle.asgi_talks.specs.Talking.{BeginsIn, TaskAnswers, TaskStands};

use crate::opened::Opened;
use crate::talked::{TalkedTask, begin, begin_with, deny, is_session};
use crate::talker::{Talker, Tells};
use asgi_apps::{AppFault, Application};
use asgi_types::{Scope, WsScope};
use std::alloc::{AllocError, Global};
use std::marker::Model;
use std::sync::Arc;

/// A talker that is held once, by all that have one of these. Contracts see it as the talker.
#[derive(Drop)]
pub struct HostedTalker<T> {
    talker: Arc<T, Global>,
}

impl<T> Model for HostedTalker<T> {
    ghost use Rattle.std.specs.Arc.{arc_value};

    ghost Value = { T };

    ghost view = { λ hosted. arc_value hosted.talker };
}

impl<T: Drop> HostedTalker<T> {
    /// Holds this talker. `AllocError` if memory is refused.
    fn new(alloc: Global, talker: T) -> Result<Self, AllocError>
        ensures { IfOk result (λ hosted. hosted ≡ talker) }
    {
        Ok(HostedTalker {
            talker: Arc::new(alloc, talker)?,
        })
    }
}

impl<T> HostedTalker<T> {
    /// The same talker, held once more. Takes no memory; `AllocError` if 2^63 hold it.
    fn share(&self) -> Result<Self, AllocError>
        ensures { IfOk result (λ hosted. hosted ≡ self.now) }
    {
        Ok(HostedTalker {
            talker: Arc::try_clone(&self.talker)?,
        })
    }
}

impl<T: Talker> Talker for HostedTalker<T> {
    type Session = T::Session;

    ghost opens = { T.opens };

    ghost fails = { T.fails };

    fn open(&self, alloc: Global, scope: &WsScope) -> Result<Opened<T::Session>, AppFault> {
        T::open(&*self.talker, alloc, scope)
    }
}

/// The application of a talker that has fields of its own, such as a lock: its tasks share the
/// talker, where those of `Told` have a copy each. All else is as with `Told`. A talker whose
/// sessions only answer is hosted as `Hushed`.
#[derive(Drop)]
pub struct Hosted<T> {
    talker: HostedTalker<T>,
}

impl<T: Drop> Hosted<T> {
    /// The application of this talker. `AllocError` if memory is refused.
    pub fn new(alloc: Global, talker: T) -> Result<Self, AllocError>
        ensures { IfOk result (λ hosted. hosted.talker ≡ talker) }
    {
        Ok(Hosted {
            talker: HostedTalker::new(alloc, talker)?,
        })
    }
}

impl<T: Talker + Drop> Application for Hosted<T>
where
    T::Session: Tells,
{
    type Task = TalkedTask<HostedTalker<T>, T::Session>;

    ghost answers = { λ app. TalkedAnswers T.opens T.Session.answers T.Session.tells T.Session.fails app.talker };

    ghost refuses = { λ _ scope. kind_of scope ≡ kind.Lifespan };

    fn call(
        &self,
        alloc: Global,
        scope: &Scope,
    ) -> Result<TalkedTask<HostedTalker<T>, T::Session>, AppFault> {
        task_in(alloc, &self.talker, scope)
    }

    fn call_owned(
        &self,
        alloc: Global,
        scope: Scope,
    ) -> Result<TalkedTask<HostedTalker<T>, T::Session>, AppFault> {
        task_in_owned(alloc, &self.talker, scope)
    }
}

/// The task of the application of this talker in this scope. `NoMemory` if memory for it is refused,
/// and `Failed` in a lifespan scope.
fn task_in<T: Talker<Session = S> + Drop, S: Tells>(
    alloc: Global,
    hosted: &HostedTalker<T>,
    scope: &Scope,
) -> Result<TalkedTask<HostedTalker<T>, S>, AppFault>
    ensures stands { IfOk result (λ task. TaskStands T.opens S.answers S.tells task (kind_of scope.now) [] []) }
    ensures answers { IfOk result (λ task. (heard : List Incoming) (said : List Outgoing) (ended : Option EndKind)
        → TaskAnswers T.opens S.answers S.tells S.fails task heard said ended
        → TalkedAnswers T.opens S.answers S.tells S.fails hosted.now scope.now heard said ended) }
    ensures failed { IsErrOf result AppFault.Failed → kind_of scope.now ≡ kind.Lifespan }
    ensures fault { OnErr result (TalkedAnswers T.opens S.answers S.tells S.fails hosted.now scope.now [] [] (Some Faulted)) }
{
    match scope {
        Scope::Http(_) => deny(alloc, scope),
        Scope::WebSocket(_) => begin_shared(alloc, hosted, scope),
        Scope::Lifespan(_) => Err(AppFault::Failed),
    }
}

/// The same with the scope itself: the task of a session keeps it.
fn task_in_owned<T: Talker<Session = S> + Drop, S: Tells>(
    alloc: Global,
    hosted: &HostedTalker<T>,
    scope: Scope,
) -> Result<TalkedTask<HostedTalker<T>, S>, AppFault>
    ensures stands { IfOk result (λ task. TaskStands T.opens S.answers S.tells task (kind_of scope) [] []) }
    ensures answers { IfOk result (λ task. (heard : List Incoming) (said : List Outgoing) (ended : Option EndKind)
        → TaskAnswers T.opens S.answers S.tells S.fails task heard said ended
        → TalkedAnswers T.opens S.answers S.tells S.fails hosted.now scope heard said ended) }
    ensures failed { IsErrOf result AppFault.Failed → kind_of scope ≡ kind.Lifespan }
    ensures fault { OnErr result (TalkedAnswers T.opens S.answers S.tells S.fails hosted.now scope [] [] (Some Faulted)) }
{
    if is_session(&scope) {
        return begin_shared_owned(alloc, hosted, scope);
    }
    task_in(alloc, hosted, &scope)
}

/// A task of the session of this scope. `NoMemory` if memory for its copy is refused.
fn begin_shared<T: Drop, S>(
    alloc: Global,
    hosted: &HostedTalker<T>,
    scope: &Scope,
) -> Result<TalkedTask<HostedTalker<T>, S>, AppFault>
    ensures begins { IfOk result (λ task. BeginsIn task hosted.now scope.now) }
    ensures failed { IsErrOf result AppFault.Failed → ¬ (kind_of scope.now ≡ kind.WebSocket) }
{
    match hosted.share() {
        Ok(talker) => begin(alloc, talker, scope),
        Err(e) => Err(AppFault::NoMemory(e)),
    }
}

/// The same with the scope itself, which the task keeps. `NoMemory` if the talker is held too often.
fn begin_shared_owned<T: Drop, S>(
    alloc: Global,
    hosted: &HostedTalker<T>,
    scope: Scope,
) -> Result<TalkedTask<HostedTalker<T>, S>, AppFault>
    ensures begins { IfOk result (λ task. BeginsIn task hosted.now scope) }
    ensures failed { IsErrOf result AppFault.Failed → ¬ (kind_of scope ≡ kind.WebSocket) }
{
    match hosted.share() {
        Ok(talker) => begin_with(alloc, talker, scope),
        Err(e) => Err(AppFault::NoMemory(e)),
    }
}
