//! A request that no client has sent, for tests of a handler.
ghost use Rattle.std.specs.Prelude.{◌≡◌, IfOk};
ghost use Rattle.asgi_types.specs.declared.scope.HttpScope.{HttpScope};

use crate::handler::Handler;
use crate::reply::Reply;
use crate::request::Request;
use crate::segments::segments_of;
use asgi_apps::AppFault;
use asgi_types::{Asgi, Chars, Extensions, Headers, HttpScope, HttpVersion, Kind, Octets, State};
use std::alloc::{AllocError, Global};

/// The reply of a handler to a request of this method for this path with this body. The request has
/// no query, no fields, no client and no state: for one that has, make its scope and call `handle`.
pub fn ask<H: Handler>(
    alloc: Global,
    handler: &H,
    method: &str,
    path: &str,
    body: &[u8],
) -> Result<Reply, AppFault>
    ensures { IfOk result (λ reply. (scope : HttpScope) × (scope.method ≡ method.now) × (scope.path ≡ path.now)
        × H.replies handler.now scope body.now reply) }
{
    let scope = scope_of(alloc, method, path)?;
    ask_in(alloc, handler, &scope, body)
}

/// The reply of a handler to a request of this scope with this body.
fn ask_in<H: Handler>(
    alloc: Global,
    handler: &H,
    scope: &HttpScope,
    body: &[u8],
) -> Result<Reply, AppFault>
    ensures { IfOk result (λ reply. H.replies handler.now scope.now body.now reply) }
{
    let path = scope.path.as_str();
    let segments = segments_of(alloc, path, scope.root_path.as_str())?;
    let request = Request {
        alloc,
        scope,
        segments: segments.as_slice(),
        params: &[],
        body,
    };
    handler.handle(&request)
}

/// The scope of such a request. `AllocError` if memory is refused.
fn scope_of(alloc: Global, method: &str, path: &str) -> Result<HttpScope, AllocError>
    ensures method { IfOk result (λ scope. scope.method ≡ method.now) }
    ensures path { IfOk result (λ scope. scope.path ≡ path.now) }
{
    Ok(HttpScope {
        asgi: Asgi::of(Kind::Http),
        http_version: HttpVersion::V11,
        method: chars(alloc, method)?,
        scheme: chars(alloc, "http")?,
        path: chars(alloc, path)?,
        raw_path: Octets::new(Vec::from_slice(alloc, path.as_bytes())?),
        query_string: Octets::new(Vec::new(alloc)),
        root_path: Chars::new(String::new(alloc)),
        headers: Headers::new(alloc),
        client: None,
        server: None,
        state: State::new(alloc),
        extensions: Extensions {
            websocket_http_response: false,
            http_response_trailers: false,
        },
    })
}

fn chars(alloc: Global, text: &str) -> Result<Chars, AllocError>
    ensures { IfOk result (λ chars. chars ≡ text.now) }
{
    Ok(Chars::new(String::from_str(alloc, text)?))
}
