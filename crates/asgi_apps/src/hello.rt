//! The application that greets.
ghost use Rattle.std.specs.Prelude.{◌≡◌};
ghost use Rattle.asgi_types.specs.declared.scope.Kind.TheVariants as kind;
ghost use Rattle.asgi_apps.specs.Answers.{Answers, hello_answer};
ghost use Rattle.asgi_apps.specs.Scopes.{kind_of};

use crate::responses::{refuse, respond_line};
use crate::says::Says;
use crate::task::{AppFault, Application};
use asgi_types::Scope;
use std::alloc::Global;

const HELLO: &[u8] = b"hello";

/// Responds to each request with 200 and the line `hello`, as `text/plain`, and refuses each
/// session. In a lifespan scope its call fails.
#[derive(Clone, Copy, Debug)]
pub struct Hello;

impl Application for Hello {
    type Task = Says;

    ghost answers = { λ _ scope. Answers (hello_answer scope) };

    ghost refuses = { λ _ scope. kind_of scope ≡ kind.Lifespan };

    fn call(&self, alloc: Global, scope: &Scope) -> Result<Says, AppFault> {
        match scope {
            Scope::Http(_) => respond_line(alloc, HELLO),
            Scope::WebSocket(_) => refuse(alloc),
            Scope::Lifespan(_) => Err(AppFault::Failed),
        }
    }
}
