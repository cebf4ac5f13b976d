//! The words of the command line.
use std::env;
use std::io::Write;
use std::net::SocketAddr;
use std::process::ExitCode;
use std::rt::Env;

/// The application that is to be served.
#[derive(Clone, Copy, Debug)]
pub enum App {
    Hello,
    Echo,
    WsEcho,
}

/// What the words ask for.
#[derive(Clone, Copy, Debug)]
pub struct Words {
    pub address: SocketAddr,
    pub seats: usize,
    pub count: u64,
    pub app: App,
    /// In milliseconds.
    pub tick: u64,
    /// How many bytes may be held for all clients.
    pub held: u64,
}

/// The words after the program's name, if each is there and is one.
pub fn words_of<H: Env + AllocGlobal>(rt: &H) -> Option<Words> {
    let mut words = env::args(rt).ok()?.skip(1);
    let address = words.next()?.parse::<SocketAddr>().ok()?;
    let seats = words.next()?.parse::<usize>().ok()?;
    let count = words.next()?.parse::<u64>().ok()?;
    let app = app_named(words.next()?.as_str())?;
    let tick = match words.next() {
        Some(word) => word.parse::<u64>().ok()?,
        None => 1_000,
    };
    let held = match words.next() {
        Some(word) => word.parse::<u64>().ok()?,
        None => u64::MAX,
    };
    Some(Words {
        address,
        seats,
        count,
        app,
        tick,
        held,
    })
}

fn app_named(name: &str) -> Option<App> {
    match name {
        "hello" => Some(App::Hello),
        "echo" => Some(App::Echo),
        "wsecho" => Some(App::WsEcho),
        _ => None,
    }
}

/// Prints how the program is called.
pub fn usage<W: Write>(out: &mut W) -> ExitCode {
    match writeln!(
        out,
        "usage: asgi_many_example ADDRESS SEATS COUNT APP [TICK [HELD]]"
    ) {
        Ok(()) => ExitCode::from(2),
        Err(_) => ExitCode::from(5),
    }
}
