//! An application that responds to a client with what it asked for.
use asgi_apps::{AppFault, Application, Says};
use asgi_types::{Headers, HttpScope, Kind, Octets, Outgoing, Scope};
use std::alloc::{AllocError, Global};

/// Responds to each request with its method and its path, a line of text.
#[derive(Clone, Copy, Debug)]
pub struct Asked;

impl Application for Asked {
    type Task = Says;

    fn call(&self, alloc: Global, scope: &Scope) -> Result<Says, AppFault> {
        let Scope::Http(scope) = scope else {
            return Err(AppFault::Failed);
        };
        let mut says = Says::with_room(alloc, Kind::Http, 2)?;
        says.add(Outgoing::ResponseStart {
            status: 200,
            headers: plain_text(alloc)?,
            trailers: false,
        })?;
        says.add(Outgoing::ResponseBody {
            body: Octets::new(line_of(alloc, scope)?),
            more_body: false,
        })?;
        Ok(says)
    }
}

fn plain_text(alloc: Global) -> Result<Headers, AppFault> {
    let mut headers = Headers::new(alloc);
    headers.push(b"content-type", b"text/plain; charset=utf-8")?;
    Ok(headers)
}

fn line_of(alloc: Global, scope: &HttpScope) -> Result<Vec<u8>, AllocError> {
    let mut line = Vec::from_slice(alloc, scope.method.as_str().as_bytes())?;
    line.extend_from_slice(b" ")?;
    line.extend_from_slice(scope.path.as_str().as_bytes())?;
    line.extend_from_slice(b"\n")?;
    Ok(line)
}
