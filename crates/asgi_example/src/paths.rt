//! An application that promises nothing, so that nothing is to be proved of it.
use asgi_apps::{AppFault, Application, Says};
use asgi_types::{Headers, Kind, Octets, Outgoing, Scope};
use std::alloc::Global;

/// Responds to each request with its own path.
#[derive(Clone, Copy, Debug)]
pub struct Paths;

impl Application for Paths {
    type Task = Says;

    fn call(&self, alloc: Global, scope: &Scope) -> Result<Says, AppFault> {
        let Scope::Http(scope) = scope else {
            return Err(AppFault::Failed);
        };
        let mut says = Says::with_room(alloc, Kind::Http, 2)?;
        says.add(Outgoing::ResponseStart {
            status: 200,
            headers: Headers::new(alloc),
            trailers: false,
        })?;
        says.add(Outgoing::ResponseBody {
            body: Octets::new(Vec::from_slice(alloc, scope.path.as_str().as_bytes())?),
            more_body: false,
        })?;
        Ok(says)
    }
}
