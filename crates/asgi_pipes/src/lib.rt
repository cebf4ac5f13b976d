//! The two queues of an exchange: what a connection offers to an application, and what the
//! application sends back. Contracts are about whole lists of events; an end keeps only what waits.
#![tactic(auto)]

mod app_state;
mod disconnect;
mod ends;
mod inbox;
mod items;
pub mod laws;
mod outbox;
mod pipes;
mod plain;
mod plain_app;
mod plain_conn;
mod ring_app;
mod ring_conn;
mod rings;

pub use asgi_types::EndKind;
pub use ends::{AppEnd, ConnEnd};
pub use items::{OutItem, Sent};
pub use pipes::{Met, Pipes};
pub use plain::Plain;
pub use plain_app::PlainApp;
pub use plain_conn::PlainConn;
pub use ring_app::RingApp;
pub use ring_conn::RingConn;
pub use rings::Rings;
