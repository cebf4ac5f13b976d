//! How often an application is called: once for each exchange, and never for a request that is refused.
use asgi_apps::{AppFault, AppTask, Application, Hello, WsEcho};
use asgi_conn::{Host, Outcome};
use asgi_fakes::texts::{GET, POST, TWO_REQUESTS};
use asgi_fakes::{Memory, Pieces, Refuses, Way, line_of, serve};
use asgi_types::{Limits, Scope};
use std::alloc::{AllocError, Global};
use std::io;
use std::process::Abort;
use std::sync::atomic::{AtomicU64, Ordering};
use std::test::Fail;

/// Counts its calls, and does what the application in it does.
#[derive(Drop)]
struct Counted<A> {
    calls: AtomicU64,
    app: A,
}

impl<A: Application> Application for Counted<A> {
    type Task = A::Task;

    fn call(&self, alloc: Global, scope: &Scope) -> Result<A::Task, AppFault> {
        self.calls.fetch_add(1, Ordering::SeqCst);
        self.app.call(alloc, scope)
    }

    fn call_owned(&self, alloc: Global, scope: Scope) -> Result<A::Task, AppFault> {
        self.calls.fetch_add(1, Ordering::SeqCst);
        self.app.call_owned(alloc, scope)
    }
}

/// What is read, how the connection ends, and how many calls and exchanges there are.
type Row = (&'static [&'static [u8]], Outcome, u64);

/// Whether the outcome is the row's, and so are the exchanges and the calls.
fn is_ended<H: Host, T: AppTask + Send + 'static, A: Application<Task = T>>(
    rt: &H,
    way: Way,
    app: &Counted<A>,
    line: &mut Memory<Pieces>,
    row: &Row,
) -> io::Result<bool> {
    let (report, _) = serve(rt, way, &Limits::usual(), app, line)?;
    let calls = app.calls.load(Ordering::SeqCst);
    Ok((report.outcome, report.exchanges, calls) == (row.1, row.2, row.2))
}

fn joined(alloc: Global, parts: &[&[u8]]) -> Result<Vec<u8>, AllocError> {
    let mut bytes = Vec::new(alloc);
    for part in parts {
        bytes.extend_from_slice(part)?;
    }
    Ok(bytes)
}

/// Whether the row is so, by this application.
fn is_row<H: Host, T: AppTask + Send + 'static, A: Application<Task = T> + Drop>(
    rt: &H,
    way: Way,
    app: A,
    row: &Row,
) -> io::Result<bool> {
    let input = joined(rt.alloc(), row.0)?;
    let mut line = line_of(rt, Pieces::new(&input, 4_096, 4_096))?;
    let calls = AtomicU64::new(0);
    is_ended(rt, way, &Counted { calls, app }, &mut line, row)
}

const WAYS: &[Way] = &[Way::Inline, Way::Beside];

/// Each row in either way.
fn check<H: Abort + Host, T: AppTask + Send + 'static, A: Application<Task = T> + Copy + Drop>(
    rt: &H,
    app: A,
    rows: &[Row],
) -> Result<(), Fail> {
    for way in WAYS {
        for (place, row) in rows.iter().enumerate() {
            let is_so = is_row(rt, *way, app, row)?;
            assert!(rt; is_so, "row {place}, {way:?}");
        }
    }
    Ok(())
}

const NO_HOST: &[u8] = b"GET / HTTP/1.1\r\n\r\n";

const REQUESTS: &[Row] = &[
    (&[GET], Outcome::Finished, 1),
    (&[GET, GET, GET, GET, GET], Outcome::Finished, 5),
    (&[GET, GET, GET, GET, NO_HOST], Outcome::Refused(400), 4),
    (&[GET, NO_HOST, GET, GET, GET], Outcome::Refused(400), 1),
    (&[NO_HOST], Outcome::Refused(400), 0),
    (&[], Outcome::Finished, 0),
    (&[b"GET / HTTP/1.1\r\n"], Outcome::InputBroke, 0),
    (
        &[POST, b"Content-Length: 3\r\n\r\nabc", GET],
        Outcome::Finished,
        2,
    ),
    // The body is faulty, which is found once the application was called.
    (
        &[GET, POST, b"Transfer-Encoding: chunked\r\n\r\nx\r\n"],
        Outcome::InputBroke,
        2,
    ),
];

#[test]
fn each_request_is_one_call(rt: HostRuntime) -> Result<(), Fail> {
    check(&rt, Hello, REQUESTS)
}

/// The handshake of RFC 6455, section 1.3.
const HANDSHAKE: &[u8] =
    b"GET / HTTP/1.1\r\nHost: a\r\nUpgrade: websocket\r\nConnection: Upgrade\r\nSec-WebSocket-Key: dGhlIHNhbXBsZSBub25jZQ==\r\nSec-WebSocket-Version: 13\r\n\r\n";

/// "A single-frame masked text message", RFC 6455, section 5.7.
const TEXT: &[u8] = b"\x81\x85\x37\xfa\x21\x3d\x7f\x9f\x4d\x51\x58";

/// A handshake whose key is too short.
const FAULTY: &[u8] =
    b"GET / HTTP/1.1\r\nHost: a\r\nUpgrade: websocket\r\nConnection: Upgrade\r\nSec-WebSocket-Key: AAAA\r\nSec-WebSocket-Version: 13\r\n\r\n";

const SESSIONS: &[Row] = &[
    (&[HANDSHAKE], Outcome::InputBroke, 1),
    (&[HANDSHAKE, TEXT, TEXT], Outcome::InputBroke, 1),
    (&[TWO_REQUESTS, HANDSHAKE, TEXT], Outcome::InputBroke, 3),
    (&[GET, FAULTY], Outcome::Refused(400), 1),
];

#[test]
fn each_session_is_one_call(rt: HostRuntime) -> Result<(), Fail> {
    check(&rt, WsEcho, SESSIONS)
}

/// A call that faults is not made again, and no other follows it.
const FAULTS: &[Row] = &[(&[TWO_REQUESTS], Outcome::Refused(500), 1)];

#[test]
fn a_call_that_faults_is_one_call(rt: HostRuntime) -> Result<(), Fail> {
    check(&rt, Refuses, FAULTS)
}
