//! What an application may send in one scope, and a judge that passes exactly that.
//! A judge keeps a few numbers; its contract speaks of the whole list of events.
#![tactic(auto)]

mod bytes_left;
mod content_length;
mod judge;
pub mod laws;
mod rules;
mod verdict;

pub use bytes_left::BytesLeft;
pub use content_length::ContentLength;
pub use judge::Judge;
pub use rules::{has_framing_field, has_no_content};
pub use verdict::{Verdict, Violation};
