//! The endpoints of a table of routes, by the number of a pattern and by the method.
ghost use Rattle.std.specs.Prelude.{◌≡◌, ◌++◌, ℕ, List, IfOk, OnOk, string_bytes};
ghost use Rattle.asgi_types.specs.declared.scope.HttpScope.{HttpScope};
ghost use Rattle.asgi_handlers.specs.declared.reply.Reply.{Reply};
ghost use Rattle.asgi_handlers.specs.Params.{Param, params_of};
ghost use Rattle.asgi_routes.specs.declared.method.Method.{Method};
ghost use Rattle.asgi_routes.specs.Endpoints.{Gives};
ghost use Rattle.asgi_routes.specs.Methods.{has_method, listed};

use asgi_apps::AppFault;
use asgi_handlers::{Reply, Request};
use std::alloc::AllocError;

/// The endpoints of a table of routes. Each is for one method, and for the pattern of one number.
pub trait Endpoints {
    // The methods that there is an endpoint for at the pattern of this number, in the order in which they were added.
    ghost methods: { Self → ℕ → List Method };

    // The promise of the endpoint for the method of this name at the pattern of this number.
    ghost allows: { Self → ℕ → List ℕ → HttpScope → List Param → List ℕ → Reply → Type 0 };

    /// Whether there is an endpoint for the method of this name at the pattern of this number.
    fn has(&self, pattern: usize, name: &str) -> bool
        ensures { result ≡ has_method (methods self.now pattern) name.now };

    /// The reply of that endpoint; `None` if there is none. The fault is the endpoint's.
    fn reply(
        &self,
        pattern: usize,
        name: &str,
        request: &Request<'_>,
    ) -> Result<Option<Reply>, AppFault>
        ensures { IfOk result (λ found. Gives (has_method (methods self.now pattern) name.now)
            (allows self.now pattern name.now request.now.scope.now (params_of request.now.params.now) request.now.body.now) found) };

    /// Adds the methods at the pattern of this number to a text, each after a comma. `AllocError` if
    /// memory is refused.
    fn allow(&self, pattern: usize, text: &mut String) -> Result<(), AllocError>
        ensures { OnOk result (string_bytes text.new ≡ string_bytes text.old ++ listed (methods self.now pattern)) };
}
