//! The application that responds with where it is mounted.
ghost use Rattle.std.specs.Prelude.{◌≡◌};
ghost use Rattle.asgi_types.specs.declared.scope.Kind.TheVariants as kind;
ghost use Rattle.asgi_apps.specs.Answers.{Answers, root_path_answer};
ghost use Rattle.asgi_apps.specs.Scopes.{kind_of};

use crate::responses::{refuse, respond_line};
use crate::says::Says;
use crate::task::{AppFault, Application};
use asgi_types::Scope;
use std::alloc::Global;

/// Responds to each request with 200 and the scope's `root_path`, as a line, and refuses each
/// session. In a lifespan scope its call fails.
#[derive(Clone, Copy, Debug)]
pub struct RootPath;

impl Application for RootPath {
    type Task = Says;

    ghost answers = { λ _ scope. Answers (root_path_answer scope) };

    ghost refuses = { λ _ scope. kind_of scope ≡ kind.Lifespan };

    fn call(&self, alloc: Global, scope: &Scope) -> Result<Says, AppFault> {
        match scope {
            Scope::Http(scope) => respond_line(alloc, scope.root_path.as_str().as_bytes()),
            Scope::WebSocket(_) => refuse(alloc),
            Scope::Lifespan(_) => Err(AppFault::Failed),
        }
    }
}
