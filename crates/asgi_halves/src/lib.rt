//! The connection's half of one exchange, over HTTP and in a session.
#![tactic(auto)]

mod half;
mod impls;
mod kind;
mod piece;
mod session_half;
mod stage;
mod turns;
mod wire;

pub use half::{BodyProgress, HttpHalf};
pub use kind::ExchangeKind;
pub use piece::{PIECE, Piece};
pub use session_half::{Answer, Answered, Reading, Session, Side, WebSocketHalf};
pub use stage::Stage;
pub use turns::{abandon, is_settled, turn};
pub use wire::{Wire, write};
