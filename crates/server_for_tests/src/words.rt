//! The words of the command line.
use std::env;
use std::io::Write;
use std::net::SocketAddr;
use std::process::ExitCode;
use std::rt::Env;

/// The usage text.
const USAGE: &str =
    "usage: server_for_tests PORT|ADDRESS COUNT APP [threads=N|blocking=N|slots=N|body=N|idle=N]..";

/// The application that is to be served.
#[derive(Clone, Copy, Debug, PartialEq, Eq)]
pub enum App {
    Hello,
    /// `Hello`, by a server that tells nobody of its connections.
    Quiet,
    Echo,
    WsEcho,
    Mounts,
    NotFound,
    Life,
    NoStart,
    NoStop,
    SilentStart,
    SilentStop,
    Mute,
    Ends,
    Cuts,
    Flood,
    Slow,
    Works,
    Waits,
    Handles,
    Routes,
    Rooms,
    Hears,
}

/// Where the connections are served.
#[derive(Clone, Copy, Debug, PartialEq, Eq)]
pub enum Place {
    /// In the thread that calls, as a server does by itself.
    OneThread,
    /// In so many threads of seats.
    Threads(u64),
    /// By so many workers, each task in a thread beside its worker.
    Blocking(u64),
}

/// What is set of the server.
#[derive(Clone, Copy, Debug)]
pub struct Settings {
    pub place: Place,
    /// The most connections at the same time of a thread.
    pub slots: usize,
    /// The most bytes of a body.
    pub body: u64,
    /// How many idle turns in a row there may be.
    pub idle: u32,
}

/// What the words ask for.
#[derive(Clone, Copy, Debug)]
pub struct Words {
    pub address: SocketAddr,
    pub count: u64,
    pub app: App,
    pub settings: Settings,
}

/// The words after the program's name, if each is there and is one.
pub fn words_of<H: Env + AllocGlobal>(rt: &H) -> Option<Words> {
    let mut words = env::args(rt).ok()?.skip(1);
    let address = address_in(words.next()?.as_str())?;
    let count = words.next()?.parse::<u64>().ok()?;
    let app = app_named(words.next()?.as_str())?;
    let mut settings = Settings {
        place: Place::OneThread,
        slots: 10_000,
        body: 1_048_576,
        idle: 30_000,
    };
    for word in words {
        settings = set(settings, word.as_str())?;
    }
    Some(Words {
        address,
        count,
        app,
        settings,
    })
}

/// The address, or this port of the loopback address.
fn address_in(word: &str) -> Option<SocketAddr> {
    if let Ok(port) = word.parse::<u16>() {
        return Some(SocketAddr::from(([127, 0, 0, 1], port)));
    }
    word.parse::<SocketAddr>().ok()
}

/// The settings with the one of this word.
fn set(before: Settings, word: &str) -> Option<Settings> {
    let (name, value) = word.split_once('=')?;
    let number = value.parse::<u64>().ok()?;
    let mut settings = before;
    match name {
        "threads" => settings.place = Place::Threads(number),
        "blocking" => settings.place = Place::Blocking(number),
        "slots" => settings.slots = number as usize,
        "body" => settings.body = number,
        "idle" => settings.idle = u32::try_from(number).ok()?,
        _ => return None,
    }
    Some(settings)
}

fn app_named(name: &str) -> Option<App> {
    match name {
        "hello" => Some(App::Hello),
        "quiet" => Some(App::Quiet),
        "echo" => Some(App::Echo),
        "wsecho" => Some(App::WsEcho),
        "mounts" => Some(App::Mounts),
        "notfound" => Some(App::NotFound),
        "life" => Some(App::Life),
        "nostart" => Some(App::NoStart),
        "nostop" => Some(App::NoStop),
        _ => other_named(name),
    }
}

/// The same of those that are this program's own.
fn other_named(name: &str) -> Option<App> {
    match name {
        "silentstart" => Some(App::SilentStart),
        "silentstop" => Some(App::SilentStop),
        "mute" => Some(App::Mute),
        "ends" => Some(App::Ends),
        "cuts" => Some(App::Cuts),
        "flood" => Some(App::Flood),
        "slow" => Some(App::Slow),
        "works" => Some(App::Works),
        "waits" => Some(App::Waits),
        "handles" => Some(App::Handles),
        "routes" => Some(App::Routes),
        "rooms" => Some(App::Rooms),
        "hears" => Some(App::Hears),
        _ => None,
    }
}

/// Prints how the program is called.
pub fn usage<W: Write>(out: &mut W) -> ExitCode {
    match writeln!(out, "{USAGE}") {
        Ok(()) => ExitCode::from(2),
        Err(_) => ExitCode::from(5),
    }
}
