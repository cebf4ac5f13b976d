//! WebSocket sessions without a state machine: a talker opens each session, and what it gives
//! answers the session's messages. The application that calls them is ready.
#![tactic(auto)]

mod answer;
mod both;
mod either;
mod hosted;
pub mod laws;
mod messages;
mod opened;
mod origin;
mod quiet;
mod receiving;
mod sending;
mod talked;
mod talker;
mod talking;

pub use answer::{Answer, Close};
pub use both::Both;
pub use either::Either;
pub use hosted::{Hosted, HostedTalker};
pub use messages::Messages;
pub use opened::Opened;
pub use origin::is_own_origin;
pub use quiet::{Hushed, Quiet};
pub use talked::{Talked, TalkedTask, Told};
pub use talker::{Talk, Talker, Tells};
pub use talking::Talking;
