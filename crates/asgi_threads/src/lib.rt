//! Work at several parts at the same time, each in a thread of its own: at all of them or at none.
#![tactic(auto)]

mod abreast;
mod gate;
mod works;

pub use abreast::{Abreast, work_abreast};
pub use works::Works;
