//! The conversation over one connection: how the bytes read, the exchanges, the bytes written and the report belong
//! together. Definitions and laws, and the types of a report.
#![tactic(auto)]

pub mod answer_laws;
pub mod conversation_laws;
mod following;
mod input;
pub mod laws;
mod report;
pub mod session_laws;

pub use following::{NextStep, after_task};
pub use input::InputEnd;
pub use report::{Outcome, Report};
