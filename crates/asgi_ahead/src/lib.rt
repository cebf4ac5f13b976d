//! Reading a stream ahead of what is asked for.
#![tactic(auto)]

mod ahead;

pub use ahead::Ahead;
