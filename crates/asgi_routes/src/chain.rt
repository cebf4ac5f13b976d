//! Endpoints of different types, each after those that were added before it.
ghost use Rattle.std.specs.Prelude.{◌≡◌, ◌++◌, [], OnOk, string_bytes};
ghost use Rattle.asgi_routes.specs.Endpoints.{IfServes, is_for, own_methods};
ghost use Rattle.asgi_routes.specs.Methods.{listed};

use crate::endpoint::Endpoint;
use crate::endpoints::Endpoints;
use crate::method::Method;
use asgi_apps::AppFault;
use asgi_handlers::{Reply, Request};
use std::alloc::AllocError;

const COMMA: &str = ", ";

/// No endpoints.
#[derive(Clone, Copy, Debug)]
pub struct Empty;

/// An endpoint, after those that were added before it.
#[derive(Debug, Drop)]
pub struct Chain<E, R> {
    /// The number of its pattern.
    pub(crate) pattern: usize,
    pub(crate) method: Method,
    pub(crate) endpoint: E,
    /// Those that were added before it.
    pub(crate) rest: R,
}

impl Endpoints for Empty {
    ghost methods = { λ _ _. [] };

    ghost allows = { λ _ _ _ _ _ _ _. ⊥ };

    fn has(&self, _pattern: usize, _name: &str) -> bool {
        false
    }

    fn reply(
        &self,
        _pattern: usize,
        _name: &str,
        _request: &Request<'_>,
    ) -> Result<Option<Reply>, AppFault> {
        Ok(None)
    }

    fn allow(&self, _pattern: usize, _text: &mut String) -> Result<(), AllocError> {
        Ok(())
    }
}

impl<E, R> Chain<E, R> {
    /// Whether its endpoint is for the method of this name at the pattern of this number.
    fn serves(&self, pattern: usize, name: &str) -> bool
        ensures { result ≡ is_for self.now.pattern self.now.method pattern name.now }
    {
        self.pattern == pattern && self.method.name() == name
    }

    /// Adds its method to a text, after a comma, if its pattern has this number. `AllocError` if
    /// memory is refused.
    fn allow_own(&self, pattern: usize, text: &mut String) -> Result<(), AllocError>
        ensures { OnOk result (string_bytes text.new ≡ string_bytes text.old ++ listed (own_methods self.now.pattern self.now.method pattern)) }
    {
        if self.pattern != pattern {
            return Ok(());
        }
        text.push_str(COMMA)?;
        text.push_str(self.method.allowed())?;
        Ok(())
    }
}

impl<E: Endpoint, R: Endpoints> Endpoints for Chain<E, R> {
    ghost methods = { λ chain pattern. R.methods chain.rest pattern ++ own_methods chain.pattern chain.method pattern };

    ghost allows = { λ chain pattern name scope params body reply. IfServes (is_for chain.pattern chain.method pattern name)
        (E.replies chain.endpoint scope params body reply) (R.allows chain.rest pattern name scope params body reply) };

    fn has(&self, pattern: usize, name: &str) -> bool {
        if self.serves(pattern, name) {
            return true;
        }
        self.rest.has(pattern, name)
    }

    fn reply(
        &self,
        pattern: usize,
        name: &str,
        request: &Request<'_>,
    ) -> Result<Option<Reply>, AppFault> {
        if self.serves(pattern, name) {
            return Ok(Some(self.endpoint.reply(request)?));
        }
        self.rest.reply(pattern, name, request)
    }

    fn allow(&self, pattern: usize, text: &mut String) -> Result<(), AllocError> {
        self.rest.allow(pattern, text)?;
        self.allow_own(pattern, text)
    }
}
