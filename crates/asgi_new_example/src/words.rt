//! The words of the command line.
use std::env;
use std::io::{self, Write};
use std::process::ExitCode;
use std::rt::Env;

/// The port to listen on, 0 for any free one, and after how many connections to end: never if that is
/// not there. `None` if the words are others.
pub fn words_of<H: Env + AllocGlobal>(rt: &H) -> Option<(u16, u64)> {
    let mut words = env::args(rt).ok()?.skip(1);
    let port = words.next()?.parse::<u16>().ok()?;
    let count = match words.next() {
        Some(word) => word.parse::<u64>().ok()?,
        None => u64::MAX,
    };
    Some((port, count))
}

/// Prints how the program is called.
pub fn usage<H: Print>(rt: &H) -> ExitCode {
    match writeln!(io::writer(rt), "usage: asgi_new_example PORT [COUNT]") {
        Ok(()) => ExitCode::from(2),
        Err(_) => ExitCode::from(5),
    }
}
