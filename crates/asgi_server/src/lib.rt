//! A server of many connections: where they come from, and the reports of all of them.
#![tactic(auto)]

mod accepting;
mod engine;
mod listener;
mod listening;
mod no_station;
mod on_end;
mod peers;
mod serving;
mod sharing;
mod socket;
mod sockets;
mod station;
mod system;
mod waiting;

pub use asgi_crew::{End, Shared, Teller, Workers};
pub use asgi_lifespan::{Lifespan, Start, Stop};
pub use engine::Engine;
pub use listener::{Accepts, Listener};
pub use listening::Listening;
pub use no_station::NoStation;
pub use on_end::{Nobody, OnEnd};
pub use peers::loopback;
pub use serving::serve_next;
pub use sharing::serve_all;
pub use socket::Socket;
pub use sockets::Sockets;
pub use station::{BesideStation, Station, end_stations, stations};
pub use waiting::Waiting;
