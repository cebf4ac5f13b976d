//! What the program does on its words: serves one connection over a line, or the connections of a listener, and tells how that
//! ended. The program itself, `asgi_demo`, hands its words and its streams over.
#![tactic(auto)]

mod apps;
mod ending;
mod listens;
mod program;
mod reports;
mod serve;
mod telling;
mod words;

pub use listens::Listens;
pub use program::{command, without_words};
pub use serve::serve_on;
pub use words::{App, Command};
