//! The lifespan of an application, and its connections between its start and its stop.
use crate::queue::is_served;
use asgi_apps::{AppTask, Application, Hello, Life, Mounts, RootPath};
use asgi_conn::{CountingPause, Host, Outcome};
use asgi_server::{Lifespan, Start, Stop};
use asgi_types::{Chars, Limits, State};
use futures::task::{Context, Doorbell, Solo};
use std::alloc::{AllocError, Global};
use std::test::Fail;

const OLD_GET: &[u8] = b"GET / HTTP/1.0\r\n\r\n";

const SEVEN: &[u8] =
    b"HTTP/1.1 200 OK\r\ncontent-type: text/plain\r\nconnection: close\r\n\r\nn=7\n";

/// How an application was started, served and stopped.
#[derive(Clone, Copy, Debug, PartialEq, Eq)]
enum Way {
    Unsupported,
    NotStarted,
    /// Whether two connections had the state of the start, and whether it stopped.
    Lived(bool, bool),
}

/// Starts the application, serves two connections, and stops it.
fn live<H: Host + Sync, T: AppTask + Send + 'static, A: Application<Task = T> + Send + Sync>(
    rt: &H,
    app: &A,
    cx: &mut Context<'_>,
) -> Result<Way, Fail> {
    let limits = Limits::usual();
    let mut pause = CountingPause::new();
    match Lifespan::start(rt.alloc(), app, &limits, cx, &mut pause) {
        Start::Started(lifespan, state) => {
            let ends = [(Outcome::Finished, 1), (Outcome::Finished, 1)];
            let held = is_served(rt, app, &state, [OLD_GET, OLD_GET], [SEVEN, SEVEN], &ends);
            let stopped = is_stopped(lifespan.stop(cx, &mut pause));
            Ok(Way::Lived(held?, stopped))
        }
        Start::Unsupported => Ok(Way::Unsupported),
        Start::Failed(message) => {
            drop(message);
            Ok(Way::NotStarted)
        }
        Start::Idle(_) => Ok(Way::NotStarted),
        Start::NoMemory => Err(Fail::from(AllocError)),
    }
}

fn is_stopped(stop: Stop) -> bool {
    match stop {
        Stop::Stopped => true,
        Stop::Failed(_) => false,
        Stop::Idle(_) => false,
    }
}

/// The way of this application.
fn way_of<H: Host + Sync, T: AppTask + Send + 'static, A: Application<Task = T> + Send + Sync>(
    rt: &H,
    app: &A,
) -> Result<Way, Fail> {
    let solo = Solo::new(rt, Doorbell::spinning())?;
    let mut cx = solo.begin();
    let way = live(rt, app, &mut cx);
    cx.cancel();
    way
}

#[test]
fn the_state_of_the_start_is_in_each_scope(rt: HostRuntime) -> Result<(), Fail> {
    let ways = [
        way_of(&rt, &Life::Works)?,
        way_of(&rt, &Life::NoStop)?,
        way_of(&rt, &Life::NoStart)?,
        way_of(&rt, &Hello)?,
    ];
    let wanted = [
        Way::Lived(true, true),
        Way::Lived(true, false),
        Way::NotStarted,
        Way::Unsupported,
    ];
    assert_eq!(rt; ways, wanted);
    Ok(())
}

fn mounts(alloc: Global) -> Result<Mounts<RootPath>, Fail> {
    let mut mounts = Mounts::new(alloc);
    for prefix in ["/a", "/a/b"] {
        let prefix = Chars::new(String::from_str(alloc, prefix)?);
        if mounts.mount(prefix, RootPath).is_err() {
            return Err(Fail::from(AllocError));
        }
    }
    Ok(mounts)
}

#[test]
fn a_path_goes_to_the_longest_prefix(rt: HostRuntime) -> Result<(), Fail> {
    let state = State::new(rt.alloc());
    let inputs: [&[u8]; 2] = [
        b"GET /a/bc HTTP/1.0\r\n\r\n",
        b"GET /a/b HTTP/1.1\r\nHost: a\r\n\r\nGET /x HTTP/1.1\r\nHost: a\r\n\r\n",
    ];
    let outputs: [&[u8]; 2] = [
        b"HTTP/1.1 200 OK\r\ncontent-type: text/plain\r\nconnection: close\r\n\r\n/a\n",
        b"HTTP/1.1 200 OK\r\ncontent-type: text/plain\r\ntransfer-encoding: chunked\r\n\r\n5\r\n/a/b\n\r\n0\r\n\r\nHTTP/1.1 404 Not Found\r\ncontent-length: 0\r\n\r\n",
    ];
    let ends = [(Outcome::Finished, 1), (Outcome::Finished, 2)];
    let app = mounts(rt.alloc())?;
    let held = is_served(&rt, &app, &state, inputs, outputs, &ends);
    drop(app);
    assert!(rt; held?);
    Ok(())
}
