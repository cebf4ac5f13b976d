//! The start and the stop of an application (ASGI lifespan protocol 2.0), in the caller's thread.
//! Contracts speak of all that was received and sent in the lifespan scope.
#![tactic(auto)]

mod hosted;
mod lifespan;
mod stop;
mod waiting;

pub use lifespan::{Lifespan, Start};
pub use stop::Stop;
