//! Requests out of bytes that come in any pieces: scopes, facts and events
//! (RFC 9112, ASGI HTTP message format 2.4).
#![tactic(auto)]

mod fields;
mod framing;
mod head;
mod judge;
mod key;
pub mod laws;
mod next;
mod parts;
mod place;
mod reader;
mod refusal;
mod scope;
mod search;
mod subprotocols;
mod target;
mod upgrade;

pub use framing::{HeadFraming, framing_of};
pub use head::HeadRecord;
pub use key::is_key;
pub use next::{Next, NextOfBody};
pub use reader::RequestReader;
pub use scope::has_body;
pub use upgrade::{UpgradeAsk, check_upgrade};
