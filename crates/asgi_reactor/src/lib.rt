//! Connections of a port for a server of many connections in one thread, whose sockets are asked for nothing until the
//! system says that they are ready.
#![tactic(auto)]

mod budget;
mod draining;
mod faults;
mod held;
mod lingering;
mod losses;
mod numbers;
mod pace;
mod peers;
mod place;
mod polled;
mod queue;
mod quota;
mod reactor;
mod silence;
mod thread;
mod tickets;
mod waiting;
mod wants;

pub use asgi_leaving::{Farewell, Notice};
pub use asgi_many::{
    Departure, Move, Next, Reactor, Ready, Rest, Served, Standing, Teller, serve_many,
};
pub use budget::Budget;
pub use draining::{Drained, Left, drain};
pub use held::{Held, Took};
pub use lingering::{Linger, Lingering};
pub use numbers::Numbers;
pub use pace::{Pace, Sender, Taker};
pub use polled::Polled;
pub use quota::{Quota, Ticketer};
pub use reactor::{PolledLine, SocketReactor};
pub use silence::Silence;
pub use thread::serve_in_thread;
pub use waiting::{Waiting, Wish};
pub use wants::Wants;
