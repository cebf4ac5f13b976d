//! A thread that is kept for many tasks, and hands each back with what its application promises of it.
#![tactic(auto)]

mod caller;
mod host;
mod job;
mod napping;
mod resting;
mod starting;
mod tokens;
mod waking;
mod worker;

pub use caller::{Kept, Working};
pub use host::Host;
pub use job::{Job, Returned};
pub use napping::Napping;
pub use resting::{Bell, Resting};
pub use starting::{NoThread, start};
pub use waking::Waking;
