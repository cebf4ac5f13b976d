//! Reports of numbered jobs, which end in any order and in many threads: a teller gets each once, in the order of the
//! numbers, and each as soon as all those before it are there.
#![tactic(auto)]

mod book;
mod channel;
mod desk;
mod place;
mod teller;
mod turn;
mod waiting;

pub use desk::{Desk, Seat};
pub use place::Place;
pub use teller::Teller;
