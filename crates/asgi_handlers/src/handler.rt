//! What gives a reply to a whole request.
ghost use Rattle.std.specs.Prelude.{ℕ, List, IfOk, ⊤};
ghost use Rattle.asgi_types.specs.declared.scope.HttpScope.{HttpScope};
ghost use Rattle.asgi_handlers.specs.declared.reply.Reply.{Reply};

use crate::reply::Reply;
use crate::request::Request;
use asgi_apps::AppFault;

/// Gives a reply to each whole request. What several requests share is behind the `&self`.
pub trait Handler {
    // The promise: that this reply was given to a request of this scope with this body.
    ghost replies: { Self → HttpScope → List ℕ → Reply → Type 0 } = { λ _ _ _ _. ⊤ };

    /// The reply to the request. `Failed` by the handler's own judgement, `NoMemory` if memory is
    /// refused; then nothing is sent.
    fn handle(&self, request: &Request<'_>) -> Result<Reply, AppFault>
        ensures { IfOk result (λ reply. replies self.now request.now.scope.now request.now.body.now reply) };
}

/// A handler that is borrowed, so that what it holds is shared and not copied.
impl<H: Handler> Handler for &H {
    ghost replies = { λ handler. H.replies handler.now };

    fn handle(&self, request: &Request<'_>) -> Result<Reply, AppFault> {
        H::handle(*self, request)
    }
}
