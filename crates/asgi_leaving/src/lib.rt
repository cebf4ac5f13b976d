//! A line that asks for its client by a ping, and whose session can be told that it ends.
#![tactic(auto)]

mod leaving;
mod notice;

pub use leaving::LeavingLine;
pub use notice::{Farewell, Notice};
