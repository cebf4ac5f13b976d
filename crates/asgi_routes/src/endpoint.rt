//! What replies to the requests of one route.
ghost use Rattle.std.specs.Prelude.{ℕ, List, IfOk, ⊤};
ghost use Rattle.asgi_types.specs.declared.scope.HttpScope.{HttpScope};
ghost use Rattle.asgi_handlers.specs.declared.reply.Reply.{Reply};
ghost use Rattle.asgi_handlers.specs.Params.{Param, params_of};

use asgi_apps::AppFault;
use asgi_handlers::{BodyLimit, Reply, Request};
use log::Log;

/// Gives a reply to each whole request of a route. What several requests share is behind the
/// `&self`.
pub trait Endpoint {
    // The promise: that this reply was given to a request of this scope, with these parameters of its path and this body.
    ghost replies: { Self → HttpScope → List Param → List ℕ → Reply → Type 0 } = { λ _ _ _ _ _. ⊤ };

    /// The reply to the request. `Failed` by the endpoint's own judgement, `NoMemory` if memory is
    /// refused; then nothing is sent.
    fn reply(&self, request: &Request<'_>) -> Result<Reply, AppFault>
        ensures { IfOk result (λ reply. replies self.now request.now.scope.now (params_of request.now.params.now) request.now.body.now reply) };
}

/// An endpoint that is borrowed, so that what it holds is shared and not copied.
impl<E: Endpoint> Endpoint for &E {
    ghost replies = { λ endpoint. E.replies endpoint.now };

    fn reply(&self, request: &Request<'_>) -> Result<Reply, AppFault> {
        E::reply(*self, request)
    }
}

/// An endpoint with a limit of its own for bodies.
impl<E: Endpoint, R: Log> Endpoint for BodyLimit<E, R> {
    ghost use Rattle.asgi_handlers.specs.Limiting.{WithinLimit};

    ghost replies = { λ limited scope params. WithinLimit (E.replies limited.handler scope params) limited.max_body };

    fn reply(&self, request: &Request<'_>) -> Result<Reply, AppFault> {
        match self.refusal(request) {
            Ok(Some(reply)) => Ok(reply),
            Ok(None) => self.handler.reply(request),
            Err(e) => Err(e),
        }
    }
}
