//! What a handler sees of a request.
ghost use Rattle.std.specs.Prelude.{◌≡◌, []};
ghost use Rattle.std.specs.Option.{option_copied};
ghost use Rattle.form_urlencoded.specs.Form.{raw_pairs};
ghost use Rattle.form_urlencoded.specs.Parse.{pairs_left};
ghost use Rattle.asgi_types.specs.Named.{value_in};
ghost use Rattle.asgi_handlers.specs.Params.{param_in, params_of};

use crate::params::value_of;
use asgi_types::{HttpScope, Peer, State};
use form_urlencoded::{Pairs, parse};
use std::alloc::{AllocError, Global};
use std::borrow::CowStr;

/// A whole request: its scope (ASGI HTTP and WebSocket message format 2.4, "HTTP Connection Scope")
/// and all bytes of its body. All is borrowed for the time of the call.
#[derive(Clone, Copy, Debug)]
pub struct Request<'a> {
    pub(crate) alloc: Global,
    pub(crate) scope: &'a HttpScope,
    pub(crate) segments: &'a [&'a str],
    pub(crate) params: &'a [(&'a str, &'a str)],
    pub(crate) body: &'a [u8],
}

impl<'a> Request<'a> {
    /// A request of this scope with this body, and with no parameters. `segments` are the parts of its
    /// path, as `segments` returns them.
    pub fn new(alloc: Global, scope: &'a HttpScope, segments: &'a [&'a str], body: &'a [u8]) -> Self
        ensures scope { result.scope.now ≡ scope.now }
        ensures segments { result.segments.now ≡ segments.now }
        ensures params { result.params.now ≡ [] }
        ensures body { result.body.now ≡ body.now }
    {
        Request {
            alloc,
            scope,
            segments,
            params: &[],
            body,
        }
    }

    /// The request with these parameters in the place of those that it has: each has a name and a
    /// part of the path, as a table of routes finds them.
    pub fn with_params(self, params: &'a [(&'a str, &'a str)]) -> Self
        ensures scope { result.scope.now ≡ self.entry.scope.now }
        ensures segments { result.segments.now ≡ self.entry.segments.now }
        ensures params { result.params.now ≡ params.now }
        ensures body { result.body.now ≡ self.entry.body.now }
    {
        Request {
            alloc: self.alloc,
            scope: self.scope,
            segments: self.segments,
            params,
            body: self.body,
        }
    }

    /// The allocator for what is made during the call.
    pub fn alloc(&self) -> Global {
        self.alloc
    }

    /// The scope of the request, with all that the server knows of it.
    pub fn scope(&self) -> &HttpScope
        ensures { result.now ≡ self.now.scope.now }
    {
        self.scope
    }

    /// The method, in upper case.
    pub fn method(&self) -> &str
        ensures { result.now ≡ self.now.scope.now.method }
    {
        self.scope.method.as_str()
    }

    /// The path of the target, percent-decoded, without the query, and with the prefix under which
    /// the application is mounted.
    pub fn path(&self) -> &str
        ensures { result.now ≡ self.now.scope.now.path }
    {
        self.scope.path.as_str()
    }

    /// The parts of the path between its slashes, without the prefix under which the application is
    /// mounted: `["items", "7"]` of `/items/7`, and none of `/`. A slash at the end makes an empty
    /// last part.
    pub fn segments(&self) -> &[&str]
        ensures { result.now ≡ self.now.segments.now }
    {
        self.segments
    }

    /// The part of the path that the parameter of this name took, where a route was found for it;
    /// `None` if the route has none of the name. It is decoded as the path is, and not again.
    pub fn param(&self, name: &str) -> Option<&str>
        ensures { option_copied result ≡ param_in (params_of self.now.params.now) name.now }
    {
        value_of(self.params, name)
    }

    /// What stands after the first `?` of the target, still percent-encoded; empty if there is none.
    pub fn query_string(&self) -> &[u8]
        ensures { result.now ≡ self.now.scope.now.query_string }
    {
        self.scope.query_string.bytes()
    }

    /// The names and values of the query, in their order, each decoded as a form's are (URL
    /// Standard, section 5.1). An item is `AllocError` if memory is refused.
    pub fn query_pairs(&self) -> Pairs<'_, Global>
        ensures { pairs_left result ≡ raw_pairs self.now.scope.now.query_string }
    {
        parse(self.alloc, self.scope.query_string.bytes())
    }

    /// The first value of that name in the query, decoded; `None` if there is none. `AllocError` if
    /// memory is refused.
    pub fn query(&self, name: &str) -> Result<Option<CowStr<'_, Global>>, AllocError> {
        for pair in self.query_pairs() {
            let (known, value) = pair?;
            if known.as_str() == name {
                return Ok(Some(value));
            }
        }
        Ok(None)
    }

    /// The value of the first field of that name, in any case (RFC 9110, section 5.1); `None` if there
    /// is none.
    pub fn field(&self, name: &str) -> Option<&[u8]>
        ensures { option_copied result ≡ value_in self.now.scope.now.headers name.now }
    {
        self.scope.headers.get(name.as_bytes())
    }

    /// The client's side of the connection, if it is known.
    pub fn client(&self) -> Option<&Peer>
        ensures { option_copied result ≡ self.now.scope.now.client }
    {
        self.scope.client.as_ref()
    }

    /// What the application kept at its start (ASGI lifespan protocol 2.0, "Lifespan State").
    pub fn state(&self) -> &State
        ensures { result.now ≡ self.now.scope.now.state }
    {
        &self.scope.state
    }

    /// All bytes of the body.
    pub fn body(&self) -> &[u8]
        ensures { result.now ≡ self.now.body.now }
    {
        self.body
    }
}
