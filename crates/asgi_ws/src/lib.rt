//! WebSocket on the server's side: the opening handshake (RFC 6455, section 4.2.2), messages, and the lines that carry
//! text first and messages after. Frames and the protocol are the crate `tungstenite`'s.
#![tactic(auto)]

mod accept;
mod calls;
mod convert;
mod handshake;
mod laws;
mod line;
mod lists;
mod messages;
mod pieces;
mod ping;
mod script;
mod session;
mod stream;
mod tally;
mod tap;
mod wired;

pub use accept::accept_value;
pub use handshake::{accept_text, denied_text};
pub use laws::{accept_value_example, handshake_is_read_back, headers_are_read_back};
pub use line::Line;
pub use lists::ScriptRead;
pub use messages::{Call, Got, Messages, Msg, Put, SentMessage};
pub use pieces::ScriptBytes;
pub use ping::Pings;
pub use script::Script;
pub use stream::{Pair, Stream};
pub use wired::Wired;
