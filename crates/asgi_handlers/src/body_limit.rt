//! A smaller limit of bodies than the server's.
ghost use Rattle.std.specs.Prelude.{◌≡◌, ◌≤◌, ◌<◌, length, IfOk, IfSome, IfNone};
ghost use Rattle.std.specs.Result.{IsErrOf};
ghost use Rattle.asgi_handlers.specs.Making.{status_reply};

use crate::handler::Handler;
use crate::reply::Reply;
use crate::request::Request;
use asgi_apps::AppFault;
use log::{Log, warn};

/// Content Too Large (RFC 9110, section 15.5.14).
const TOO_LARGE: u16 = 413;

/// A handler, or an endpoint of a table of routes, that gets no body of more than so many bytes. A
/// request with a longer one gets 413, and a line of the log says so. A limit above that of the
/// server (`Limits::max_body`) changes nothing.
#[derive(Clone, Copy, Debug)]
pub struct BodyLimit<H, R> {
    /// What gets the other requests.
    pub handler: H,
    /// The most bytes of a body.
    pub max_body: usize,
    log: R,
}

impl<H, R: Log> BodyLimit<H, R> {
    /// This handler, with bodies of at most so many bytes.
    pub fn new(handler: H, max_body: usize, log: R) -> Self
        ensures handler { result.handler ≡ handler }
        ensures limit { result.max_body ≡ max_body }
    {
        BodyLimit {
            handler,
            max_body,
            log,
        }
    }

    /// The reply to a request whose body is too long; `None` if it is not. `NoMemory` if memory for
    /// the reply is refused.
    pub fn refusal(&self, request: &Request<'_>) -> Result<Option<Reply>, AppFault>
        ensures within { IfOk result (λ refused. IfNone refused (length request.now.body.now ≤ self.now.max_body)) }
        ensures longer { IfOk result (λ refused. IfSome refused (λ reply. (self.now.max_body < length request.now.body.now) × (reply ≡ status_reply 413))) }
        ensures memory { ¬ (IsErrOf result AppFault.Failed) }
    {
        let (length, most) = (request.body().len(), self.max_body);
        if length <= most {
            return Ok(None);
        }
        let (log, method, path) = (&self.log, request.method(), request.path());
        warn!(log; "{method} {path:?}: 413, {length} bytes of a body, of at most {most}");
        match Reply::status(request.alloc(), TOO_LARGE) {
            Ok(reply) => Ok(Some(reply)),
            Err(e) => Err(e),
        }
    }
}

impl<H: Handler, R: Log> Handler for BodyLimit<H, R> {
    ghost use Rattle.asgi_handlers.specs.Limiting.{WithinLimit};

    ghost replies = { λ limited scope. WithinLimit (H.replies limited.handler scope) limited.max_body };

    fn handle(&self, request: &Request<'_>) -> Result<Reply, AppFault> {
        match self.refusal(request) {
            Ok(Some(reply)) => Ok(reply),
            Ok(None) => self.handler.handle(request),
            Err(e) => Err(e),
        }
    }
}
