//! The application that has nothing.
ghost use Rattle.std.specs.Prelude.{◌≡◌};
ghost use Rattle.asgi_types.specs.declared.scope.Kind.TheVariants as kind;
ghost use Rattle.asgi_apps.specs.Answers.{Answers, not_found_answer};
ghost use Rattle.asgi_apps.specs.Scopes.{kind_of};

use crate::responses::{refuse, respond_not_found};
use crate::says::Says;
use crate::task::{AppFault, Application};
use asgi_types::Scope;
use std::alloc::Global;

/// Responds to each request with 404 and no content, and refuses each session. In a lifespan scope
/// its call fails.
#[derive(Clone, Copy, Debug)]
pub struct NotFound;

impl Application for NotFound {
    type Task = Says;

    ghost answers = { λ _ scope. Answers (not_found_answer scope) };

    ghost refuses = { λ _ scope. kind_of scope ≡ kind.Lifespan };

    fn call(&self, alloc: Global, scope: &Scope) -> Result<Says, AppFault> {
        match scope {
            Scope::Http(_) => respond_not_found(alloc),
            Scope::WebSocket(_) => refuse(alloc),
            Scope::Lifespan(_) => Err(AppFault::Failed),
        }
    }
}
