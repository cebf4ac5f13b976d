//! An application and its tasks, by what they promise of what is received and sent.
ghost use Rattle.std.specs.Prelude.{◌≡◌, List, [], Option, Some, None, IfOk, OnErr, ⊤};
ghost use Rattle.std.specs.Result.{IsErrOf};
ghost use Rattle.futures.specs.Poll.{OnPending};
ghost use Rattle.futures.specs.Task.{IsArmed, Keeps};
ghost use Rattle.asgi_types.specs.declared.incoming.Incoming.{Incoming};
ghost use Rattle.asgi_types.specs.declared.outgoing.Outgoing.{Outgoing};
ghost use Rattle.asgi_types.specs.declared.scope.Kind.{Kind};
ghost use Rattle.asgi_types.specs.declared.scope.Scope.{Scope};
ghost use Rattle.asgi_types.specs.declared.end_kind.EndKind.{EndKind};
ghost use Rattle.asgi_types.specs.declared.end_kind.EndKind.TheVariants.{Faulted};
ghost use Rattle.asgi_apps.specs.Ends.{GoesOn, IsWithin, end_of};
ghost use Rattle.asgi_apps.specs.Scopes.{kind_of};
ghost use Rattle.asgi_apps.specs.Promises.{Promise};

use asgi_pipes::AppEnd;
use asgi_types::{HeaderError, Scope};
use futures::task::{Context, Poll};
use std::alloc::{AllocError, Global};
use thiserror::Error;

/// Why an application, or one of its tasks, gave up.
#[derive(Clone, Copy, Debug, PartialEq, Eq, Error)]
pub enum AppFault {
    /// By its own judgement.
    #[error("the application failed")]
    Failed,
    /// Memory was refused.
    #[error(transparent)]
    NoMemory(#[from(alloc)] AllocError),
}

/// A field that was refused is a fault of the application's own, and want of memory stays that.
impl From<HeaderError> for AppFault {
    ghost use Rattle.asgi_apps.specs.Faults.{fault_of};

    ghost from_gives = { λ error fault. fault ≡ fault_of error };

    fn from(error: HeaderError) -> AppFault {
        match error {
            HeaderError::BadName => AppFault::Failed,
            HeaderError::BadValue => AppFault::Failed,
            HeaderError::NoMemory(e) => AppFault::NoMemory(e),
        }
    }
}

/// What an application does in one scope.
///
/// A poll does what it can at once. If it must wait, it is pending and has registered with the
/// end's source, or has asked for another poll. Only what runs the task calls `finish`.
pub trait AppTask: Drop {
    // The task may be polled in a scope of this kind in which this was received and sent so far.
    ghost stands: { Self → Kind → List Incoming → List Outgoing → Type 0 } = { λ _ _ _ _. ⊤ };

    // The promise: that this was received and sent, and that the task ended like this; None while it runs.
    ghost answers: { Self → List Incoming → List Outgoing → Option EndKind → Type 0 } = { λ _ _ _ _. ⊤ };

    /// Goes on with the work, with the borrowed end. When ready, the task has returned, or has
    /// faulted.
    ///
    /// Return `Poll::Pending` only after a call that has registered what wakes the task: a
    /// `poll_receive` that was pending, or a `poll_send` that was `Full`. If there is more to do at
    /// once, return `cx.yield_now()`, which asks for another poll. A task that is pending with
    /// neither would not be polled again; the check refuses it, with `armed` as the open goal.
    fn poll<E: AppEnd>(&mut self, cx: &mut Context<'_>, end: &mut E) -> Poll<Result<(), AppFault>>
        requires open { E.ended end.old ≡ None }
        requires stands { stands self.old (E.kind end.old) (E.heard end.old) (E.said end.old) }
        ensures end { GoesOn E.AppEnd None end.old end.new }
        ensures answers { answers self.old (E.heard end.new) (E.said end.new) (end_of result) }
        ensures stands { OnPending result (stands self.new (E.kind end.new) (E.heard end.new) (E.said end.new)) }
        // The promise of the task as it is now is within the one before.
        ensures same { OnPending result (IsWithin answers self.new self.old) }
        ensures armed { OnPending result (IsArmed cx.new) }
        ensures kept { Keeps cx.old cx.new };

    // A running task has kept its promise so far.
    ghost keeps: { (task : Self) (kind : Kind) (heard : List Incoming) (said : List Outgoing) → stands task kind heard said → answers task heard said None };
}

/// What is called once for each scope (ASGI 3.0, "Applications").
pub trait Application {
    /// What it does in one scope.
    type Task: AppTask;

    // The promise: that this was received and sent in the scope, and that the task ended like this; None while it runs.
    ghost answers: { Self → Promise } = { λ _ _ _ _ _. ⊤ };

    // The scopes in which a call may fail by the application's own judgement.
    ghost refuses: { Self → Scope → Type 0 } = { λ _ _. ⊤ };

    /// A task for the scope. The task keeps the allocator if it needs one later. `Failed` by the
    /// application's own judgement, `NoMemory` if memory is refused.
    fn call(&self, alloc: Global, scope: &Scope) -> Result<Self::Task, AppFault>
        ensures stands { IfOk result (λ task. Self.Task.stands task (kind_of scope.now) [] []) }
        ensures answers { IfOk result (λ task. (heard : List Incoming) (said : List Outgoing) (ended : Option EndKind) → Self.Task.answers task heard said ended → answers self.now scope.now heard said ended) }
        ensures failed { IsErrOf result AppFault.Failed → refuses self.now scope.now }
        ensures fault { OnErr result (answers self.now scope.now [] [] (Some Faulted)) };

    /// The same for a scope that the caller gives away, as a server does: a task that keeps the scope need not copy it. It is
    /// `call` unless an application says otherwise.
    fn call_owned(&self, alloc: Global, scope: Scope) -> Result<Self::Task, AppFault>
        ensures stands { IfOk result (λ task. Self.Task.stands task (kind_of scope) [] []) }
        ensures answers { IfOk result (λ task. (heard : List Incoming) (said : List Outgoing) (ended : Option EndKind) → Self.Task.answers task heard said ended → answers self.now scope heard said ended) }
        ensures failed { IsErrOf result AppFault.Failed → refuses self.now scope }
        ensures fault { OnErr result (answers self.now scope [] [] (Some Faulted)) }
    {
        self.call(alloc, &scope)
    }
}
