//! Handlers without a state machine: each gets a whole request and gives a whole reply. The
//! application that calls them is ready.
#![tactic(auto)]

mod asking;
mod body_limit;
mod dated;
mod handled;
mod handler;
mod handling;
mod location;
mod log_faults;
mod params;
mod receiving;
mod reply;
mod request;
mod segments;
mod sending;
mod shared;

pub use asking::ask;
pub use body_limit::BodyLimit;
pub use dated::Dated;
pub use handled::{Handled, HandledTask};
pub use handler::Handler;
pub use handling::Handling;
pub use log_faults::{LogFaults, TryHandled, TryHandler};
pub use reply::Reply;
pub use request::Request;
pub use shared::{Held, Shared};
