//! Routes: endpoints of different types, each under a method and a pattern of the path. A table of
//! them is a handler. And rooms, which open sessions, each under a pattern: a table of them is a
//! talker.
#![tactic(auto)]

mod chain;
mod endpoint;
mod endpoints;
mod error;
pub mod laws;
mod method;
mod path;
mod room;
mod room_chain;
mod room_list;
mod room_session;
mod rooms;
mod routes;
mod table;
mod texts;

pub use chain::{Chain, Empty};
pub use endpoint::Endpoint;
pub use endpoints::Endpoints;
pub use error::RouteError;
pub use method::Method;
pub use room::{Room, param_of};
pub use room_chain::{NoRooms, RoomChain};
pub use room_list::RoomList;
pub use room_session::{NoSession, RoomSession};
pub use rooms::Rooms;
pub use routes::Routes;
