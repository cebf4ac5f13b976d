//! What an application is called with: the connection scopes.
ghost use Rattle.std.specs.Prelude.{◌≡◌, ◌≤◌, ◌↔◌, ℕ, List, [], IfOk, IsOk, codes};
ghost use Rattle.asgi_types.specs.declared.scope.LifespanScope.{LifespanScope};
ghost use Rattle.asgi_types.specs.Scopes.{spec_version_of, scope_with};

use crate::{Chars, Headers, HttpVersion, Names, Octets, State};
use std::alloc::{AllocError, Global};
use std::marker::Model;

/// One side of a connection (ASGI HTTP and WebSocket message format 2.4, `client` and `server`).
#[derive(Debug, Drop)]
pub struct Peer {
    /// The address of the host, as a text.
    pub host: Chars,
    /// The port at that address.
    pub port: u16,
}

/// The type of a scope.
#[derive(Clone, Copy, Debug, PartialEq, Eq)]
pub enum Kind {
    /// `http`: one request and its response.
    Http,
    /// `websocket`: one session, from its handshake on.
    WebSocket,
    /// `lifespan`: the start and the stop of the server.
    Lifespan,
}

/// The versions of ASGI and of the message format in a scope.
#[derive(Clone, Copy, Debug, PartialEq, Eq)]
pub struct Asgi {
    kind: Kind,
}

impl Model for Asgi {
    ghost use Rattle.asgi_types.specs.declared.scope.Kind.{Kind};

    ghost Value = { Kind };

    ghost view = { λ a. a.kind };

    ghost inverse = { λ kind. record { kind = kind } };
}

impl Asgi {
    /// The versions in a scope of this kind.
    pub fn of(kind: Kind) -> Self
        ensures { result ≡ kind }
    {
        Asgi { kind }
    }

    /// The version of ASGI, always `3.0`.
    pub fn version(&self) -> &'static str
        ensures { result.now ≡ codes "3.0" }
    {
        match self.kind {
            Kind::Http | Kind::WebSocket | Kind::Lifespan => "3.0",
        }
    }

    /// The version of the message format: `2.4` for HTTP and WebSocket, `2.0` for lifespan.
    pub fn spec_version(&self) -> &'static str
        ensures { result.now ≡ spec_version_of self.now }
    {
        match self.kind {
            Kind::Http | Kind::WebSocket => "2.4",
            Kind::Lifespan => "2.0",
        }
    }
}

/// The extensions that a server supports in a scope (ASGI 3.0, "Extensions").
#[derive(Clone, Copy, Debug, PartialEq, Eq)]
pub struct Extensions {
    /// `websocket.http.response`: an application may answer the handshake with a response.
    pub websocket_http_response: bool,
    /// `http.response.trailers`: an application may send trailer fields.
    pub http_response_trailers: bool,
}

/// The scope of one HTTP request (ASGI HTTP and WebSocket message format 2.4, "HTTP Connection
/// Scope").
#[derive(Debug, Drop)]
pub struct HttpScope {
    /// The versions of ASGI and of the message format.
    pub asgi: Asgi,
    /// The version of the request.
    pub http_version: HttpVersion,
    /// The method of the request, in upper case.
    pub method: Chars,
    /// The scheme of the request's URL, such as `http`.
    pub scheme: Chars,
    /// The path of the target, percent-decoded, without the query.
    pub path: Chars,
    /// The path as it was received, still percent-encoded, without the query.
    pub raw_path: Octets,
    /// What stands after the first `?`, still percent-encoded; empty if there is none.
    pub query_string: Octets,
    /// The prefix under which the application is mounted; empty if there is none.
    pub root_path: Chars,
    /// The fields of the request, in its order, their names in lower case.
    pub headers: Headers,
    /// The client's side of the connection, if it is known.
    pub client: Option<Peer>,
    /// The server's side of the connection, if it is known.
    pub server: Option<Peer>,
    /// A copy of what the application kept at its start (ASGI lifespan protocol 2.0, "Lifespan
    /// State").
    pub state: State,
    /// What the server supports beside the events that each server supports.
    pub extensions: Extensions,
}

/// The scope of one WebSocket session (ASGI HTTP and WebSocket message format 2.4, "WebSocket
/// Connection Scope").
#[derive(Debug, Drop)]
pub struct WsScope {
    /// The versions of ASGI and of the message format.
    pub asgi: Asgi,
    /// The version of the request that asks for the session.
    pub http_version: HttpVersion,
    /// The scheme of the session's URL, such as `ws`.
    pub scheme: Chars,
    /// The path of the target, percent-decoded, without the query.
    pub path: Chars,
    /// The path as it was received, still percent-encoded, without the query.
    pub raw_path: Octets,
    /// What stands after the first `?`, still percent-encoded; empty if there is none.
    pub query_string: Octets,
    /// The prefix under which the application is mounted; empty if there is none.
    pub root_path: Chars,
    /// The fields of the request, in its order, their names in lower case.
    pub headers: Headers,
    /// The client's side of the connection, if it is known.
    pub client: Option<Peer>,
    /// The server's side of the connection, if it is known.
    pub server: Option<Peer>,
    /// The subprotocols that the client offers, in its order (RFC 6455, section 4.1).
    pub subprotocols: Names,
    /// A copy of what the application kept at its start (ASGI lifespan protocol 2.0, "Lifespan
    /// State").
    pub state: State,
    /// What the server supports beside the events that each server supports.
    pub extensions: Extensions,
}

/// The scope of the server's start and stop (ASGI lifespan protocol 2.0, "Scope").
#[derive(Debug, Drop)]
pub struct LifespanScope {
    /// The versions of ASGI and of the message format.
    pub asgi: Asgi,
    /// What the application keeps for each later scope ("Lifespan State").
    pub state: State,
}

/// What an application is called with.
#[derive(Debug, Drop)]
pub enum Scope {
    /// One request.
    Http(HttpScope),
    /// One session.
    WebSocket(WsScope),
    /// The start and the stop of the server.
    Lifespan(LifespanScope),
}

impl Scope {
    /// The scope with this client, this server and this state. A lifespan scope has a state alone.
    pub fn with(self, client: Option<Peer>, server: Option<Peer>, state: State) -> Self
        ensures { result ≡ scope_with self client server state }
    {
        match self {
            Scope::Http(scope) => Scope::Http(HttpScope {
                client,
                server,
                state,
                ..scope
            }),
            Scope::WebSocket(scope) => Scope::WebSocket(WsScope {
                client,
                server,
                state,
                ..scope
            }),
            Scope::Lifespan(scope) => Scope::Lifespan(LifespanScope { state, ..scope }),
        }
    }

    /// A copy of the scope, in memory of its own; `AllocError` if that is refused. To copy a
    /// lifespan scope with an empty state takes no memory.
    pub fn copy(&self, alloc: Global) -> Result<Self, AllocError>
        ensures same { IfOk result (λ copied. copied ≡ self.now) }
        ensures lifespan { (scope : LifespanScope) → self.now ≡ Scope.Lifespan scope → scope.state ≡ [] → IsOk result }
    {
        match self {
            Scope::Http(scope) => Ok(Scope::Http(scope.copy(alloc)?)),
            Scope::WebSocket(scope) => Ok(Scope::WebSocket(scope.copy(alloc)?)),
            Scope::Lifespan(scope) => Ok(Scope::Lifespan(scope.copy(alloc)?)),
        }
    }
}

impl Peer {
    /// A copy of the peer, in memory of its own; `AllocError` if that is refused.
    pub fn copy(&self, alloc: Global) -> Result<Self, AllocError>
        ensures { IfOk result (λ copied. copied ≡ self.now) }
    {
        let host = self.host.copy(alloc)?;
        Ok(Peer {
            host,
            port: self.port,
        })
    }
}

impl HttpScope {
    /// A copy of the scope, in memory of its own; `AllocError` if that is refused.
    pub fn copy(&self, alloc: Global) -> Result<Self, AllocError>
        ensures { IfOk result (λ copied. copied ≡ self.now) }
    {
        Ok(HttpScope {
            asgi: self.asgi,
            http_version: self.http_version,
            method: self.method.copy(alloc)?,
            scheme: self.scheme.copy(alloc)?,
            path: self.path.copy(alloc)?,
            raw_path: self.raw_path.copy(alloc)?,
            query_string: self.query_string.copy(alloc)?,
            root_path: self.root_path.copy(alloc)?,
            headers: self.headers.copy(alloc)?,
            client: copy_peer(&self.client, alloc)?,
            server: copy_peer(&self.server, alloc)?,
            state: self.state.copy(alloc)?,
            extensions: self.extensions,
        })
    }
}

impl WsScope {
    /// A copy of the scope, in memory of its own; `AllocError` if that is refused.
    pub fn copy(&self, alloc: Global) -> Result<Self, AllocError>
        ensures { IfOk result (λ copied. copied ≡ self.now) }
    {
        Ok(WsScope {
            asgi: self.asgi,
            http_version: self.http_version,
            scheme: self.scheme.copy(alloc)?,
            path: self.path.copy(alloc)?,
            raw_path: self.raw_path.copy(alloc)?,
            query_string: self.query_string.copy(alloc)?,
            root_path: self.root_path.copy(alloc)?,
            headers: self.headers.copy(alloc)?,
            client: copy_peer(&self.client, alloc)?,
            server: copy_peer(&self.server, alloc)?,
            subprotocols: self.subprotocols.copy(alloc)?,
            state: self.state.copy(alloc)?,
            extensions: self.extensions,
        })
    }
}

impl LifespanScope {
    fn copy(&self, alloc: Global) -> Result<Self, AllocError>
        ensures same { IfOk result (λ copied. copied ≡ self.now) }
        ensures empty { self.now.state ≡ [] → IsOk result }
    {
        let state = self.state.copy(alloc)?;
        Ok(LifespanScope {
            asgi: self.asgi,
            state,
        })
    }
}

fn copy_peer(peer: &Option<Peer>, alloc: Global) -> Result<Option<Peer>, AllocError>
    ensures same { IfOk result (λ copied. copied ≡ peer.now) }
    ensures absent { peer.now ≡ None → IsOk result }
{
    match peer {
        Some(peer) => Ok(Some(peer.copy(alloc)?)),
        None => Ok(None),
    }
}
