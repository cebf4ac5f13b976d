//! What a server keeps of a request for its response.
ghost use Rattle.std.specs.Prelude.{◌≡◌, [], IfOk, IsOk};
ghost use Rattle.asgi_types.specs.Plain.{plain_request};

use crate::{HttpVersion, Names};
use std::alloc::{AllocError, Global};

/// How the body of a request is delimited (RFC 9112, section 6).
#[derive(Clone, Copy, Debug, PartialEq, Eq)]
pub enum Framing {
    /// This many bytes; 0 if there is no body (RFC 9112, section 6.3).
    Length(u64),
    /// The chunked transfer coding (RFC 9112, section 7.1).
    Chunked,
    /// An opening handshake (RFC 6455, section 4.1): there is no body.
    Upgrade,
}

/// What a server keeps of a request for its response.
#[derive(Debug, Drop)]
pub struct Facts {
    /// The version of the request (RFC 9112, section 2.3).
    pub version: HttpVersion,
    /// The method is HEAD, so the response has no content (RFC 9110, section 9.3.2).
    pub head_only: bool,
    /// The connection closes after the response (RFC 9112, sections 9.3 and 9.6).
    pub close: bool,
    /// The client waits for `100 Continue` before it sends its body (RFC 9110, section 10.1.1).
    pub expect: bool,
    /// The client takes trailer fields: a request of HTTP/1.1 with the token `trailers` in `te` (RFC
    /// 9110, sections 6.5.1 and 10.1.4).
    pub trailers_ok: bool,
    /// How the body of the request is delimited.
    pub framing: Framing,
    /// The value of `sec-websocket-key`, 16 bytes in base64 (RFC 6455, section 4.1); zero bytes if
    /// the request is no opening handshake.
    pub key: [u8; 24],
    /// The subprotocols that the client offers, in its order (RFC 6455, section 4.1). None are
    /// offered if the request is no opening handshake.
    pub subprotocols: Names,
}

impl Facts {
    /// What is kept of a plain request: HTTP/1.1, by another method than HEAD, without a body or a
    /// wish of its own, and no opening handshake. It takes no memory.
    pub fn plain(alloc: Global) -> Self
        ensures { result ≡ plain_request }
    {
        Facts {
            version: HttpVersion::V11,
            head_only: false,
            close: false,
            expect: false,
            trailers_ok: false,
            framing: Framing::Length(0),
            key: [0; 24],
            subprotocols: Names::new(alloc),
        }
    }

    /// A copy of the facts, in memory of its own; `AllocError` if that is refused. To copy no
    /// subprotocols takes no memory.
    pub fn copy(&self, alloc: Global) -> Result<Self, AllocError>
        ensures same { IfOk result (λ copied. copied ≡ self.now) }
        ensures empty { self.now.subprotocols ≡ [] → IsOk result }
    {
        let subprotocols = self.subprotocols.copy(alloc)?;
        Ok(Facts {
            version: self.version,
            head_only: self.head_only,
            close: self.close,
            expect: self.expect,
            trailers_ok: self.trailers_ok,
            framing: self.framing,
            key: self.key,
            subprotocols,
        })
    }
}
