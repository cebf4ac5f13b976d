//! How a talker opens a session.
ghost use Rattle.std.specs.Prelude.{◌≡◌, [], ◌∷◌, ◌++◌, None, Some, IfOk};
ghost use Rattle.asgi_types.specs.Fields.{field_of};
ghost use Rattle.asgi_talks.specs.Making.{field_added, subprotocol_chosen};

use asgi_types::{Chars, HeaderError, Headers};
use std::alloc::Global;

/// The answer to an opening handshake (RFC 6455, section 4.2.2).
#[derive(Debug, Drop)]
pub enum Opened<S> {
    /// The session is accepted (ASGI HTTP and WebSocket message format 2.4, "Accept"), with one of
    /// the subprotocols that the client offers or with none, and with these fields.
    Accepted {
        subprotocol: Option<Chars>,
        headers: Headers,
        session: S,
    },
    /// The session is refused: the client gets 403 ("Close", before "Accept").
    Refused,
}

impl<S> Opened<S> {
    /// The session is accepted, with no subprotocol and no fields. Takes no memory.
    pub fn accept(alloc: Global, session: S) -> Self
        ensures { result ≡ Opened.Accepted None [] session }
    {
        Opened::Accepted {
            subprotocol: None,
            headers: Headers::new(alloc),
            session,
        }
    }
}

impl<S: Drop> Opened<S> {
    /// The same with this subprotocol, which must be one that the client offers
    /// (`WsScope::subprotocols`). What is refused stays so.
    pub fn with_subprotocol(self, name: Chars) -> Self
        ensures { result ≡ subprotocol_chosen self name }
    {
        match self {
            Opened::Accepted {
                subprotocol: _,
                headers,
                session,
            } => Opened::Accepted {
                subprotocol: Some(name),
                headers,
                session,
            },
            Opened::Refused => Opened::Refused,
        }
    }

    /// The same with one more field of the response, after the others. `BadName` if the name is no
    /// token, `BadValue` if the value has a control byte, `NoMemory` if memory is refused. What is
    /// refused stays so.
    pub fn with_field(self, name: &str, value: &str) -> Result<Self, HeaderError>
        ensures { IfOk result (λ opened. opened ≡ field_added self (field_of name.now value.now)) }
    {
        match self {
            Opened::Accepted {
                subprotocol,
                mut headers,
                session,
            } => {
                headers.push(name.as_bytes(), value.as_bytes())?;
                Ok(Opened::Accepted {
                    subprotocol,
                    headers,
                    session,
                })
            }
            Opened::Refused => Ok(Opened::Refused),
        }
    }
}
