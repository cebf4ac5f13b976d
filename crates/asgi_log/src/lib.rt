//! A log whose lines are written by a thread of its own, so that nobody waits for it.
#![tactic(auto)]

mod backlog;
mod journal;
mod line;
mod moment;
mod shared;
mod starting;

pub use backlog::{Backlog, Kept};
pub use journal::{Journal, Writer};
pub use line::{line_of, lost_line};
pub use moment::{Moment, moment_after, moment_by};
pub use shared::Shared;
pub use starting::{LogHost, Logging, logging, logging_at};
