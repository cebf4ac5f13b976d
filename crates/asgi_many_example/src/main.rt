//! Many connections in one thread: `asgi_many_example ADDRESS SEATS COUNT APP [TICK [HELD]]`.
#![tactic(auto)]

mod sums;
mod words;

use asgi_apps::{Application, Echo, Hello, WsEcho};
use asgi_many::Served;
use asgi_reactor::{Linger, Numbers, SocketReactor, serve_in_thread};
use asgi_types::{BadLimit, Limits, State};
use std::io::{self, Write};
use std::process::ExitCode;
use std::time::Duration;
use sums::Sums;
use words::{App, Words, usage, words_of};

/// For how many ticks bytes may wait for a client to take them, and one more for each `LEAST` that it takes meanwhile.
const PATIENCE: u32 = 30;

/// For how many bytes a client that sends a request, or takes its response, has one tick more.
const LEAST: u64 = 64;

/// How many ticks a client may take for a request, and one more for each `LEAST` bytes of it.
const SLOW: u32 = 60;

/// For how many ticks exchanges and sessions go on once the server is to end.
const LEAVE: u32 = 30;

/// After how many silent ticks a connection between two requests gives its seat to a newcomer.
const GIVE_WAY: u32 = 5;

/// After how many silent ticks the client of a session is asked by a ping.
const PING: u32 = 20;

/// How many ticks it has to answer.
const PONG: u32 = 20;

/// How long a client is read after its answer: for 30 ticks, 5 without a byte, or 64 MiB.
const LINGER: Linger = Linger {
    ticks: 30,
    silent: 5,
    bytes: 67_108_864,
};

fn main(rt: HostRuntime) -> ExitCode {
    let Some(words) = words_of(&rt) else {
        return usage(&mut io::writer(&rt));
    };
    let served = match words.app {
        App::Hello => serve(&rt, &words, &Hello),
        App::Echo => serve(&rt, &words, &Echo),
        App::WsEcho => serve(&rt, &words, &WsEcho),
    };
    match served {
        Ok(()) => ExitCode::from(0),
        Err(_) => ExitCode::from(5),
    }
}

/// Serves so many connections, and prints how many there were, and how many requests they had.
fn serve<A: Application>(rt: &HostRuntime, words: &Words, app: &A) -> io::Result<()> {
    let limits = limits();
    let state = State::new(rt.alloc());
    let numbers = Numbers {
        seats: words.seats,
        count: words.count,
        tick: Duration::from_millis(words.tick),
        patience: PATIENCE,
        least: LEAST,
        slow: SLOW,
        leave: LEAVE,
        give_way: GIVE_WAY,
        held: words.held,
        ping: PING,
        pong: PONG,
        linger: LINGER,
    };
    let mut reactor = SocketReactor::open(rt, rt.alloc(), words.address, &numbers, None)?;
    let mut out = io::writer(rt);
    writeln!(out, "listening on {}", reactor.address()?)?;
    let mut sums = Sums::new();
    let served = serve_in_thread(
        rt,
        &limits,
        words.seats,
        &state,
        app,
        &mut reactor,
        &mut sums,
    )?;
    let is_whole = served == Served::All && reactor.why().is_none();
    reactor.end();
    if !is_whole {
        return Err(io::Error::from(io::ErrorKind::Other));
    }
    writeln!(
        out,
        "{} connections, {} requests",
        sums.connections, sums.requests
    )
}

/// The usual limits, but for 75 idle turns in a row: a client may say nothing for as many ticks.
fn limits() -> Limits {
    match Limits::new(16_384, 64, 1_048_576, 16_384, 16, 75, 1 << 40) {
        Ok(limits) => limits,
        Err(BadLimit) => Limits::usual(),
    }
}
