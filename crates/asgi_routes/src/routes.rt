//! A table of routes, which is a handler.
ghost use Rattle.std.specs.Prelude.{◌≡◌, [], true, false, IfOk, IfErr, OnOk};
ghost use Rattle.matchit.specs.Params.{walk};
ghost use Rattle.asgi_routes.specs.Adding.{IsAdded, IsRefused};
ghost use Rattle.asgi_routes.specs.Methods.{has_method, is_options, name_of};
ghost use Rattle.asgi_routes.specs.Routing.{AtPattern, Without};

use crate::chain::{Chain, Empty};
use crate::endpoint::Endpoint;
use crate::endpoints::Endpoints;
use crate::error::RouteError;
use crate::method::Method;
use crate::path::{asked_of, local_of};
use crate::table::Table;
use crate::texts::texts_of;
use asgi_apps::AppFault;
use asgi_handlers::{Handler, Reply, Request};
use matchit::Params;
use std::alloc::Global;

const ALLOW: &str = "allow";

const OPTIONS: &str = "OPTIONS";

/// Endpoints, each under a method and a pattern of the path, in the syntax of `matchit`: `/items`,
/// `/items/{n}`, `/files/{*rest}`. The path is the decoded one, without the prefix under which the
/// application is mounted.
///
/// HEAD is answered by the endpoint for GET (RFC 9110, section 9.3.2). If no pattern matches the
/// path the reply is 404 (15.5.5); if one does, and has no endpoint for the method, it is 405, or 204
/// for OPTIONS (9.3.7), with the methods that it has in `allow` (10.2.1, 15.5.6).
#[derive(Drop)]
pub struct Routes<R> {
    table: Table,
    endpoints: R,
}

impl Routes<Empty> {
    /// No routes. Takes no memory.
    pub fn new(alloc: Global) -> Self
        ensures { result.table.patterns.items ≡ [] }
    {
        Routes {
            table: Table::new(alloc),
            endpoints: Empty,
        }
    }
}

impl<R: Endpoints + Drop> Routes<R> {
    /// The routes with one more, for this method at this pattern. On an error those before are gone
    /// too. The errors are those of the pattern, then Taken.
    pub fn route<E: Endpoint + Drop>(
        self,
        method: Method,
        pattern: &str,
        endpoint: E,
    ) -> Result<Routes<Chain<E, R>>, RouteError>
        ensures ok { IfOk result (λ routes. IsAdded R.methods self.table.patterns.items self.endpoints method pattern.now endpoint routes.table.patterns.items routes.endpoints) }
        ensures err { IfErr result (λ why. IsRefused R.methods self.table.patterns.items self.endpoints method pattern.now why) }
    {
        let Routes { table, endpoints } = self;
        match table.with(pattern) {
            Ok((table, number)) => joined(table, number, method, endpoint, endpoints),
            Err(why) => Err(why),
        }
    }

    /// The routes with one more, for GET and HEAD: see `route`.
    pub fn get<E: Endpoint + Drop>(
        self,
        pattern: &str,
        endpoint: E,
    ) -> Result<Routes<Chain<E, R>>, RouteError>
        ensures ok { IfOk result (λ routes. IsAdded R.methods self.table.patterns.items self.endpoints Method.Get pattern.now endpoint routes.table.patterns.items routes.endpoints) }
        ensures err { IfErr result (λ why. IsRefused R.methods self.table.patterns.items self.endpoints Method.Get pattern.now why) }
    {
        self.route(Method::Get, pattern, endpoint)
    }

    /// The routes with one more, for POST: see `route`.
    pub fn post<E: Endpoint + Drop>(
        self,
        pattern: &str,
        endpoint: E,
    ) -> Result<Routes<Chain<E, R>>, RouteError>
        ensures ok { IfOk result (λ routes. IsAdded R.methods self.table.patterns.items self.endpoints Method.Post pattern.now endpoint routes.table.patterns.items routes.endpoints) }
        ensures err { IfErr result (λ why. IsRefused R.methods self.table.patterns.items self.endpoints Method.Post pattern.now why) }
    {
        self.route(Method::Post, pattern, endpoint)
    }

    /// The routes with one more, for PUT: see `route`.
    pub fn put<E: Endpoint + Drop>(
        self,
        pattern: &str,
        endpoint: E,
    ) -> Result<Routes<Chain<E, R>>, RouteError>
        ensures ok { IfOk result (λ routes. IsAdded R.methods self.table.patterns.items self.endpoints Method.Put pattern.now endpoint routes.table.patterns.items routes.endpoints) }
        ensures err { IfErr result (λ why. IsRefused R.methods self.table.patterns.items self.endpoints Method.Put pattern.now why) }
    {
        self.route(Method::Put, pattern, endpoint)
    }

    /// The routes with one more, for PATCH: see `route`.
    pub fn patch<E: Endpoint + Drop>(
        self,
        pattern: &str,
        endpoint: E,
    ) -> Result<Routes<Chain<E, R>>, RouteError>
        ensures ok { IfOk result (λ routes. IsAdded R.methods self.table.patterns.items self.endpoints Method.Patch pattern.now endpoint routes.table.patterns.items routes.endpoints) }
        ensures err { IfErr result (λ why. IsRefused R.methods self.table.patterns.items self.endpoints Method.Patch pattern.now why) }
    {
        self.route(Method::Patch, pattern, endpoint)
    }

    /// The routes with one more, for DELETE: see `route`.
    pub fn delete<E: Endpoint + Drop>(
        self,
        pattern: &str,
        endpoint: E,
    ) -> Result<Routes<Chain<E, R>>, RouteError>
        ensures ok { IfOk result (λ routes. IsAdded R.methods self.table.patterns.items self.endpoints Method.Delete pattern.now endpoint routes.table.patterns.items routes.endpoints) }
        ensures err { IfErr result (λ why. IsRefused R.methods self.table.patterns.items self.endpoints Method.Delete pattern.now why) }
    {
        self.route(Method::Delete, pattern, endpoint)
    }
}

/// The table with one more endpoint, at the pattern of this number. `Taken` if there is one for the
/// method.
fn joined<E: Drop, R: Endpoints + Drop>(
    table: Table,
    pattern: usize,
    method: Method,
    endpoint: E,
    rest: R,
) -> Result<Routes<Chain<E, R>>, RouteError>
    ensures table { IfOk result (λ routes. routes.table.patterns.items ≡ table.patterns.items) }
    ensures endpoints { IfOk result (λ routes. routes.endpoints ≡ record { pattern = pattern; method = method; endpoint = endpoint; rest = rest }) }
    ensures free { OnOk result (has_method (R.methods rest pattern) (name_of method) ≡ false) }
    ensures err { IfErr result (λ why. (why ≡ RouteError.Taken) × (has_method (R.methods rest pattern) (name_of method) ≡ true)) }
{
    if rest.has(pattern, method.name()) {
        return Err(RouteError::Taken);
    }
    Ok(Routes {
        table,
        endpoints: Chain {
            pattern,
            method,
            endpoint,
            rest,
        },
    })
}

impl<R: Endpoints> Routes<R> {
    /// The reply to a request whose path matches the pattern of this number. The fault is the
    /// endpoint's, or `NoMemory` if memory is refused.
    fn reply_at(
        &self,
        pattern: usize,
        params: &Params<'_, '_>,
        request: &Request<'_>,
    ) -> Result<Reply, AppFault>
        ensures { IfOk result (λ reply. AtPattern R.methods R.allows self.now.endpoints pattern
            (walk params.now.pattern.now params.now.text.now params.now.path.now params.now.names.now 0 0) request.now.scope.now request.now.body.now reply) }
    {
        let texts = texts_of(request.alloc(), params)?;
        let routed = (*request).with_params(texts.as_slice());
        let name = asked_of(request.method());
        let found = self.endpoints.reply(pattern, name, &routed)?;
        match found {
            Some(reply) => Ok(reply),
            None => self.reply_without(pattern, request),
        }
    }

    /// The reply at the pattern of this number, if there is no endpoint for the method.
    fn reply_without(&self, pattern: usize, request: &Request<'_>) -> Result<Reply, AppFault>
        ensures { IfOk result (λ reply. Without (is_options request.now.scope.now.method) (R.methods self.now.endpoints pattern) reply) }
    {
        let alloc = request.alloc();
        let mut allow = String::from_str(alloc, OPTIONS)?;
        self.endpoints.allow(pattern, &mut allow)?;
        if request.method() == OPTIONS {
            return Ok(Reply::empty(alloc).with_field(ALLOW, allow.as_str())?);
        }
        Ok(Reply::status(alloc, 405)?.with_field(ALLOW, allow.as_str())?)
    }
}

impl<R: Endpoints> Handler for Routes<R> {
    ghost use Rattle.asgi_routes.specs.Routing.{RoutesReply};

    ghost replies = { λ routes. RoutesReply R.methods R.allows routes.table.patterns.items routes.endpoints };

    fn handle(&self, request: &Request<'_>) -> Result<Reply, AppFault> {
        let path = local_of(request.path(), request.scope().root_path.as_str());
        match self.table.find(path) {
            Ok(found) => self.reply_at(*found.value, &found.params, request),
            Err(_) => Ok(Reply::status(request.alloc(), 404)?),
        }
    }
}
