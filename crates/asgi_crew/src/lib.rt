//! A giver and its workers: each item that is given is served once, by one of them, in threads of their own.
#![tactic(auto)]

mod asks;
mod channel;
mod common;
mod gather;
mod give;
mod run;
mod serves;
mod sharing;
mod work;
mod workers;

pub use asgi_desk::Teller;
pub use asks::Asks;
pub use give::End;
pub use serves::Serves;
pub use sharing::{Shared, share};
pub use workers::Workers;
