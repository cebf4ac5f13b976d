//! One exchange between a connection and an application: what every schedule of its steps keeps.
//! Definitions and laws, and the meeting of the ends of a pair.
#![tactic(auto)]

pub mod call_laws;
pub mod conditions;
pub mod examples;
pub mod laws;
mod meeting;

pub use meeting::join;
