//! Applications of one's own, and a program that serves one connection by one of them, from standard
//! input to standard output.
#![tactic(auto)]

mod laws;
mod no_content;
mod paths;

use asgi_conn::{CountingPause, Inline, serve_connection};
use asgi_types::{Limits, State};
use asgi_ws::{Pair, Wired};
use futures::task::{Doorbell, Solo};
use paths::Paths;
use std::process::ExitCode;

fn main(rt: HostRuntime) -> ExitCode {
    let Ok(solo) = Solo::new(&rt, Doorbell::spinning()) else {
        return ExitCode::from(5);
    };
    let pair = Pair {
        reader: rt.stdin(),
        writer: rt.stdout(),
    };
    let mut line = Wired::new(rt.alloc(), pair);
    let mut runner = Inline::new(solo.begin());
    let mut pause = CountingPause::new();
    let limits = Limits::usual();
    let state = State::new(rt.alloc());
    let _report = serve_connection(
        &rt,
        &limits,
        &None,
        &None,
        &state,
        &Paths,
        &mut line,
        &mut runner,
        &mut pause,
    );
    runner.end();
    ExitCode::from(0)
}
