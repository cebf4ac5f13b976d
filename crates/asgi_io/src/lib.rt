//! Reads, writes and pauses, counted answer by answer, and the turns of a loop.
//! Contracts see each call that was made, and how it was answered.
#![tactic(auto)]

mod answer;
mod counts;
mod history;
mod pause;
mod reads;
mod turns;
mod write;

pub use answer::{Answer, answer_of, is_passing};
pub use counts::{Counted, Counts};
pub use history::History;
pub use pause::{CountingPause, Pause};
pub use reads::{CountedReader, Reads};
pub use turns::{Turn, Turns};
pub use write::{Wrote, write_out};
