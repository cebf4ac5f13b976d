//! What may stand around a handler: a limit, a date, and lines of the log.
use crate::driver::Ask::{Get, Post};
use crate::driver::Offered::{Last, Part};
use crate::driver::{Row, check};
use asgi_apps::AppFault;
use asgi_handlers::{
    BodyLimit, Dated, Handled, Handler, LogFaults, Reply, Request, TryHandled, TryHandler, ask,
};
use log::sink::{Discard, Lines, Memory};
use std::alloc::{AllocError, AllocGlobal, Global};
use std::io;
use std::process::Abort;
use std::test::Fail;
use std::time::{Clock, Duration};
use thiserror::Error;

/// Replies with the body that it got; under `/old` with a date of its own.
#[derive(Clone, Copy, Debug)]
struct Bodies;

impl Handler for Bodies {
    fn handle(&self, request: &Request<'_>) -> Result<Reply, AppFault> {
        let alloc = request.alloc();
        match request.path() {
            "/old" => Reply::empty(alloc).with_field("Date", "then"),
            "/none" => Err(AppFault::Failed),
            "/full" => Err(AppFault::NoMemory(AllocError)),
            _ => Reply::new(alloc, 200, "a/b", Vec::from_slice(alloc, request.body())?),
        }
    }
}

const LIMITED: &[Row] = &[
    (
        Post("/"),
        &[Part("ab"), Last("cd")],
        "start 200 content-type=a/b content-length=4|last abcd|returned",
    ),
    // RFC 9110, section 15.5.14.
    (
        Post("/"),
        &[Part("ab"), Last("cde")],
        "start 413 content-length=0|last |returned",
    ),
    (
        Post("/"),
        &[Part("abcde"), Last("")],
        "start 413 content-length=0|last |returned",
    ),
];

#[test]
fn a_longer_body_than_the_limit_gets_413(rt: HostRuntime) -> Result<(), Fail> {
    check(
        &rt,
        Handled::new(BodyLimit::new(Bodies, 4, Discard)),
        LIMITED,
    )
}

/// A clock that stands at this second.
#[derive(Clone, Copy, Debug)]
struct At(Option<u64>);

impl Clock for At {
    fn monotonic(&self) -> io::Result<Duration> {
        self.since_1970()
    }

    fn since_1970(&self) -> io::Result<Duration> {
        match self.0 {
            Some(second) => Ok(Duration::from_secs(second)),
            None => Err(io::Error::from(io::ErrorKind::Unsupported)),
        }
    }
}

/// A second, and what a request for this path is sent. RFC 9110, section 5.6.7, has the first date.
const DATED: &[(Option<u64>, Row)] = &[
    (
        Some(784_111_777),
        (
            Get("/"),
            &[Last("")],
            "start 200 content-type=a/b content-length=0 date=Sun, 06 Nov 1994 08:49:37 GMT|last |returned",
        ),
    ),
    (
        Some(0),
        (
            Get("/"),
            &[Last("")],
            "start 200 content-type=a/b content-length=0 date=Thu, 01 Jan 1970 00:00:00 GMT|last |returned",
        ),
    ),
    (
        Some(784_111_777),
        (
            Get("/old"),
            &[Last("")],
            "start 204 date=then|last |returned",
        ),
    ),
    // The year 10000.
    (
        Some(253_402_300_800),
        (
            Get("/"),
            &[Last("")],
            "start 200 content-type=a/b content-length=0|last |returned",
        ),
    ),
    (
        None,
        (
            Get("/"),
            &[Last("")],
            "start 200 content-type=a/b content-length=0|last |returned",
        ),
    ),
];

#[test]
fn a_reply_is_dated(rt: HostRuntime) -> Result<(), Fail> {
    for (second, row) in DATED {
        check(&rt, Handled::new(Dated::new(Bodies, At(*second))), &[*row])?;
    }
    Ok(())
}

/// An error of one's own, over those of the library.
#[derive(Clone, Copy, Debug, PartialEq, Eq, Error)]
enum ShopError {
    #[error("no item {0}")]
    Missing(u32),
    #[error(transparent)]
    Reply(#[from] AppFault),
    #[error(transparent)]
    NoMemory(#[from(alloc)] AllocError),
}

/// Has no item.
#[derive(Clone, Copy, Debug)]
struct Shop;

impl TryHandler for Shop {
    type Error = ShopError;

    fn try_handle(&self, request: &Request<'_>) -> Result<Reply, ShopError> {
        let alloc = request.alloc();
        match request.path() {
            "/seven" => Err(ShopError::Missing(7)),
            "/fault" => Ok(Reply::text(alloc, "a")?.with_field("a b", "c")?),
            _ => Ok(Reply::new(alloc, 200, "a/b", Vec::from_slice(alloc, b"a")?)?),
        }
    }
}

/// What is asked by POST, and the line of the log.
type Told = (&'static str, &'static str);

const FAULTS: &[Told] = &[
    ("/", ""),
    (
        "/none",
        "[ERROR asgi_handlers::log_faults] POST \"/none\": the application failed",
    ),
];

const ERRORS: &[Told] = &[
    ("/", ""),
    (
        "/seven",
        "[ERROR asgi_handlers::log_faults] POST \"/seven\": no item 7",
    ),
    (
        "/fault",
        "[ERROR asgi_handlers::log_faults] POST \"/fault\": the application failed",
    ),
];

const LONGER: &[Told] = &[
    (
        "/",
        "[WARN  asgi_handlers::body_limit] POST \"/\": 413, 3 bytes of a body, of at most 2",
    ),
    // No line is broken by what a client asks.
    (
        "/\r\n",
        "[WARN  asgi_handlers::body_limit] POST \"/\\r\\n\": 413, 3 bytes of a body, of at most 2",
    ),
];

/// Whether the log has this line, or none if it is empty. Want of memory is told in any case.
fn has(lines: Lines, line: &str) -> bool {
    match lines.as_slice() {
        [] => line.is_empty(),
        [only] => only.as_str() == line,
        _ => false,
    }
}

/// Asks by POST with a body of three bytes, and returns whether memory was refused.
fn lacks_memory<H: Handler>(alloc: Global, handler: &H, path: &str) -> bool {
    matches!(
        ask(alloc, handler, "POST", path, b"abc"),
        Err(AppFault::NoMemory(_))
    )
}

#[test]
fn a_fault_is_told_in_the_log(rt: HostRuntime) -> Result<(), Fail> {
    let alloc = rt.alloc();
    for (path, line) in FAULTS {
        let sink = Memory::new(alloc);
        if !lacks_memory(alloc, &LogFaults::new(Bodies, &sink), path) {
            assert!(rt; has(sink.into_lines(), line), "{path}");
        }
    }
    Ok(())
}

#[test]
fn an_error_of_ones_own_is_told_in_the_log(rt: HostRuntime) -> Result<(), Fail> {
    let alloc = rt.alloc();
    for (path, line) in ERRORS {
        let sink = Memory::new(alloc);
        if !lacks_memory(alloc, &TryHandled::new(Shop, &sink), path) {
            assert!(rt; has(sink.into_lines(), line), "{path}");
        }
    }
    Ok(())
}

#[test]
fn a_longer_body_is_told_in_the_log(rt: HostRuntime) -> Result<(), Fail> {
    let alloc = rt.alloc();
    for (path, line) in LONGER {
        let sink = Memory::new(alloc);
        if !lacks_memory(alloc, &BodyLimit::new(Bodies, 2, &sink), path) {
            assert!(rt; has(sink.into_lines(), line), "{path:?}");
        }
    }
    Ok(())
}
