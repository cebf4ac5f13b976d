//! The calls of an application.
ghost use Rattle.std.specs.Prelude.{◌≡◌, ◌++◌, ◌∷◌, [], List, Option, Some, IfOk, OnErr};
ghost use Rattle.std.specs.Result.{IsErrOf};
ghost use Rattle.asgi_types.specs.declared.incoming.Incoming.{Incoming};
ghost use Rattle.asgi_types.specs.declared.outgoing.Outgoing.{Outgoing};
ghost use Rattle.asgi_types.specs.declared.end_kind.EndKind.{EndKind};
ghost use Rattle.asgi_types.specs.declared.end_kind.EndKind.TheVariants.{Faulted};
ghost use Rattle.asgi_apps.specs.Scopes.{kind_of};

use crate::task::{AppFault, Application};
use asgi_io::History;
use asgi_types::Scope;
use std::alloc::Global;

/// An application, and the scopes that it was called with. Only `call` calls it.
#[derive(Drop)]
pub struct Calls<'a, A> {
    app: &'a A,
    scopes: History<Scope>,
}

impl<'a, A: Application> Calls<'a, A> {
    /// No call was made yet.
    pub fn of(app: &'a A) -> Self
        ensures app { result.app.now ≡ app.now }
        ensures none { result.scopes.items ≡ [] }
    {
        Calls {
            app,
            scopes: History::new(),
        }
    }

    /// Calls the application with the scope, which it may keep.
    pub fn call(&mut self, alloc: Global, scope: Scope) -> Result<A::Task, AppFault>
        ensures once { self.new.scopes.items ≡ self.old.scopes.items ++ scope ∷ [] }
        ensures app { self.new.app.now ≡ self.old.app.now }
        ensures stands { IfOk result (λ task. A.Task.stands task (kind_of scope) [] []) }
        ensures answers { IfOk result (λ task. (heard : List Incoming) (said : List Outgoing) (ended : Option EndKind) → A.Task.answers task heard said ended → A.answers self.old.app.now scope heard said ended) }
        ensures failed { IsErrOf result AppFault.Failed → A.refuses self.old.app.now scope }
        ensures fault { OnErr result (A.answers self.old.app.now scope [] [] (Some Faulted)) }
    {
        self.scopes = History::with(&self.scopes, &scope);
        self.app.call_owned(alloc, scope)
    }
}
