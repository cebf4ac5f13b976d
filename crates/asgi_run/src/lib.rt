//! What runs the two halves of one exchange turn by turn, in one thread or in two.
#![tactic(auto)]

mod apart;
mod beside;
mod exchange_half;
mod inline;
mod runner;
mod turning;

pub use asgi_kept::{Host, Napping, NoThread};
pub use beside::Beside;
pub use exchange_half::Half;
pub use inline::Inline;
pub use runner::{AppSide, NoEnds, Runner};
pub use turning::run_on;
