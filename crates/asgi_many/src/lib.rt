//! Many connections in one thread: a table of seats, each with a connection that is taken up turn by turn, and a server
//! over it, which takes up those that are ready.
#![tactic(auto)]

mod intake;
pub mod laws;
mod reactor;
mod seat;
mod seating;
mod serving;
mod table;

pub use asgi_conn::{Inline, Report, Rest, Runner, Standing};
pub use asgi_desk::Teller;
pub use reactor::{Move, Next, Reactor, Ready};
pub use seat::{Cause, Departure, Ended, Newcomer};
pub use serving::{Served, serve_many};
pub use table::{Table, Turned};
