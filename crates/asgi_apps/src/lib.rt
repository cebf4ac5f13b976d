//! Applications, as tasks that are polled by hand: what they promise, what drives them, and some
//! that are ready.
#![tactic(auto)]

mod calls;
mod driving;
mod echo;
mod echoing;
mod hello;
pub mod laws;
mod life;
mod mounting;
mod mounts;
mod not_found;
mod responses;
mod root_path;
mod running;
mod says;
mod task;
mod ws_echo;

pub use asgi_io::Pause;
pub use calls::Calls;
pub use driving::drive;
pub use echo::{Echo, EchoTask};
pub use hello::Hello;
pub use life::{Life, LifeTask};
pub use mounts::{MountError, MountTask, Mounts};
pub use not_found::NotFound;
pub use root_path::RootPath;
pub use running::{Ended, Lent, Running};
pub use says::Says;
pub use task::{AppFault, AppTask, Application};
pub use ws_echo::{WsEcho, WsEchoTask};
