//! What the tests across crates share: readers and a writer whose every step a row sets, applications by the steps of
//! their tasks, a connection over them, and the texts that rows name.
#![tactic(auto)]

mod apps;
mod gone;
mod lines;
mod serving;
pub mod texts;

pub use apps::{Heard, Refuses, Said, Scripted, ScriptedTask, Sends, SendsTask, Step, Targets};
pub use gone::{GONE, Gone, STREAM, gone_line};
pub use lines::{Memory, Never, Pieces, Sink, line_of, text_of};
pub use serving::{App, End, Way, is_served, is_served_so, serve, serve_by};
