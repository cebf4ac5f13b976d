//! The values that an ASGI application and its server pass to each other.
//! Contracts see each small type as a list, and a record by its fields.
#![tactic(auto)]

mod chars;
mod end_kind;
mod facts;
mod headers;
mod incoming;
mod lengths;
mod limits;
mod named;
mod names;
mod octets;
mod outgoing;
mod reason;
mod scope;
mod state;
mod tokens;

pub use chars::Chars;
pub use end_kind::EndKind;
pub use facts::{Facts, Framing};
pub use headers::{Fields, HeaderError, Headers};
pub use incoming::{Incoming, Payload};
pub use lengths::parse_length;
pub use limits::{BadLimit, Limits};
pub use names::Names;
pub use octets::Octets;
pub use outgoing::{HttpVersion, Outgoing};
pub use reason::Reason;
pub use scope::{Asgi, Extensions, HttpScope, Kind, LifespanScope, Peer, Scope, WsScope};
pub use state::{State, StateError, StateValue};
pub use tokens::{lists_token, trimmed};
