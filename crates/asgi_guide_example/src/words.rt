//! The words of the command line.
use std::env;
use std::io::{self, Write};
use std::process::ExitCode;
use std::rt::Env;

/// Which application is served.
#[derive(Clone, Copy, Debug, PartialEq, Eq)]
pub enum App {
    Orders,
    Counts,
    Pool,
    Cache,
    Session,
    Greets,
}

/// The port to listen on, after how many connections to end, and the application.
pub fn words_of<H: Env + AllocGlobal>(rt: &H) -> Option<(u16, u64, App)> {
    let mut words = env::args(rt).ok()?.skip(1);
    let port = words.next()?.parse::<u16>().ok()?;
    let count = words.next()?.parse::<u64>().ok()?;
    let app = app_named(words.next()?.as_str())?;
    Some((port, count, app))
}

fn app_named(name: &str) -> Option<App> {
    match name {
        "orders" => Some(App::Orders),
        "counts" => Some(App::Counts),
        "pool" => Some(App::Pool),
        "cache" => Some(App::Cache),
        "session" => Some(App::Session),
        "greets" => Some(App::Greets),
        _ => None,
    }
}

/// Prints how the program is called.
pub fn usage<H: Print>(rt: &H) -> ExitCode {
    match writeln!(
        io::writer(rt),
        "usage: asgi_guide_example PORT COUNT orders|counts|pool|cache|session|greets"
    ) {
        Ok(()) => ExitCode::from(2),
        Err(_) => ExitCode::from(5),
    }
}
