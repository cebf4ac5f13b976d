//! One connection: the bytes of its requests in, the bytes of its responses out.
#![tactic(auto)]

mod between;
mod closing;
mod connection;
pub mod laws;
mod looking;
mod opening;
mod place;
mod setting;
mod tally;

pub use asgi_apps::Calls;
pub use asgi_conversation::{InputEnd, NextStep, Outcome, Report};
pub use asgi_halves::{HttpHalf, WebSocketHalf};
pub use asgi_io::{CountingPause, Pause};
pub use asgi_run::{AppSide, Beside, Half, Host, Inline, Napping, NoEnds, NoThread, Runner};
pub use asgi_ws::Line;
pub use connection::{Connection, Step, serve_calls, serve_connection};
pub use looking::{Rest, Standing};
pub use setting::Setting;
