//! An application that promises what it sends.
ghost use Rattle.std.specs.Prelude.{◌≡◌, Some};
ghost use Rattle.asgi_types.specs.declared.end_kind.EndKind.TheVariants.{Returned};
ghost use Rattle.asgi_example.specs.Answer.{no_content};

use asgi_apps::{AppFault, Application, Says};
use asgi_types::{Headers, Kind, Octets, Outgoing, Scope};
use std::alloc::Global;

/// Responds to each request with 204, and promises so.
#[derive(Clone, Copy, Debug)]
pub struct NoContent;

impl Application for NoContent {
    type Task = Says;

    // If its task returned, it has sent exactly this.
    ghost answers = { λ _ scope heard said ended. ended ≡ Some Returned → said ≡ no_content };

    fn call(&self, alloc: Global, scope: &Scope) -> Result<Says, AppFault> {
        let Scope::Http(_) = scope else {
            return Err(AppFault::Failed);
        };
        let mut says = Says::with_room(alloc, Kind::Http, 2)?;
        says.add(Outgoing::ResponseStart {
            status: 204,
            headers: Headers::new(alloc),
            trailers: false,
        })?;
        says.add(Outgoing::ResponseBody {
            body: Octets::new(Vec::new(alloc)),
            more_body: false,
        })?;
        Ok(says)
    }
}
