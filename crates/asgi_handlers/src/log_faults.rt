//! Faults of a handler, told in the log.
ghost use Rattle.std.specs.Prelude.{◌≡◌, ℕ, List, IfOk, ⊤};
ghost use Rattle.asgi_types.specs.declared.scope.HttpScope.{HttpScope};
ghost use Rattle.asgi_handlers.specs.declared.reply.Reply.{Reply};

use crate::handler::Handler;
use crate::reply::Reply;
use crate::request::Request;
use asgi_apps::AppFault;
use log::{Log, error};
use std::fmt::Display;

/// A handler whose faults are told in the log, each with the method and the path of its request.
/// Else nothing changes.
#[derive(Clone, Copy, Debug)]
pub struct LogFaults<H, R> {
    /// What gives the replies.
    pub handler: H,
    log: R,
}

impl<H, R: Log> LogFaults<H, R> {
    /// This handler, with its faults told in this log.
    pub fn new(handler: H, log: R) -> Self
        ensures { result.handler ≡ handler }
    {
        LogFaults { handler, log }
    }
}

impl<H: Handler, R: Log> Handler for LogFaults<H, R> {
    ghost replies = { λ logged. H.replies logged.handler };

    fn handle(&self, request: &Request<'_>) -> Result<Reply, AppFault> {
        match self.handler.handle(request) {
            Ok(reply) => Ok(reply),
            Err(fault) => {
                let (log, method, path) = (&self.log, request.method(), request.path());
                error!(log; "{method} {path:?}: {fault}");
                Err(fault)
            }
        }
    }
}

/// Gives a reply to each whole request, or an error of a type of one's own. It is served as
/// `TryHandled`, which tells the error in the log.
pub trait TryHandler {
    /// Why there is no reply. Its text is for the log; the client gets 500.
    type Error: Display + Drop;

    // The promise: that this reply was given to a request of this scope with this body.
    ghost replies: { Self → HttpScope → List ℕ → Reply → Type 0 } = { λ _ _ _ _. ⊤ };

    /// The reply to the request, or an error; then nothing is sent.
    fn try_handle(&self, request: &Request<'_>) -> Result<Reply, Self::Error>
        ensures { IfOk result (λ reply. replies self.now request.now.scope.now request.now.body.now reply) };
}

/// The handler of a `TryHandler`. An error is told in the log, with the method and the path of its
/// request, and is then a fault.
#[derive(Clone, Copy, Debug)]
pub struct TryHandled<H, R> {
    /// What gives the replies.
    pub handler: H,
    log: R,
}

impl<H, R: Log> TryHandled<H, R> {
    /// This handler, with its errors told in this log.
    pub fn new(handler: H, log: R) -> Self
        ensures { result.handler ≡ handler }
    {
        TryHandled { handler, log }
    }
}

impl<H: TryHandler, R: Log> Handler for TryHandled<H, R> {
    ghost replies = { λ tried. H.replies tried.handler };

    fn handle(&self, request: &Request<'_>) -> Result<Reply, AppFault> {
        match self.handler.try_handle(request) {
            Ok(reply) => Ok(reply),
            Err(error) => {
                let (log, method, path) = (&self.log, request.method(), request.path());
                error!(log; "{method} {path:?}: {error}");
                Err(AppFault::Failed)
            }
        }
    }
}
