//! Connections over the loopback address, whose client is a thread of the test.
use crate::queue::{is_reported, serve};
use asgi_apps::Echo;
use asgi_conn::{Host, Outcome};
use asgi_server::{Accepts, Listener, Listening, Sockets, Workers};
use asgi_types::{Limits, State};
use std::alloc::{AllocError, AllocGlobal};
use std::io::{self, ErrorKind, Read, Write};
use std::net::{
    Ipv4Addr, Net, OpenListener, OpenStream, Shutdown, SocketAddr, TcpListener, TcpStream,
};
use std::sync::atomic::{AtomicBool, Ordering};
use std::test::Fail;
use std::thread;
use std::time::{Clock, Duration};

const REQUEST: &[u8] = b"POST /up HTTP/1.1\r\nHost: a\r\nContent-Length: 5\r\n\r\nhello";

const ANSWER: &[u8] =
    b"HTTP/1.1 200 OK\r\ncontent-type: application/octet-stream\r\ntransfer-encoding: chunked\r\n\r\n5\r\nhello\r\n0\r\n\r\n";

/// How often the client tries to connect, every ten milliseconds.
const TRIES: u32 = 1_000;

fn address(port: u16) -> SocketAddr {
    SocketAddr::from((Ipv4Addr::LOCALHOST, port))
}

/// A port that nobody listens on.
pub fn free_port<N: Net>(rt: &N) -> io::Result<u16> {
    let listener = TcpListener::bind(rt, address(0))?;
    Ok(listener.local_addr()?.port())
}

/// Connects, once somebody listens.
pub fn connect<N: Net + Clock>(rt: &N, port: u16) -> io::Result<N::Stream> {
    for _ in 0..TRIES {
        if let Ok(stream) = TcpStream::connect(rt, address(port)) {
            return Ok(stream);
        }
        thread::sleep(rt, Duration::from_millis(10));
    }
    TcpStream::connect(rt, address(port))
}

/// Sends a request in two pieces, and returns all that it is answered.
fn ask<N: Net + Clock + AllocGlobal>(rt: &N, port: u16) -> io::Result<Vec<u8>> {
    let mut stream = connect(rt, port)?;
    let (front, rest) = REQUEST.split_at(20);
    stream.write_all(front)?;
    stream.write_all(rest)?;
    stream.shutdown(Shutdown::Write)?;
    let mut answer = Vec::new(rt.alloc());
    stream.read_to_end(&mut answer)?;
    Ok(answer)
}

/// Whether two clients, one after another, get the answer.
fn are_answered<N: Net + Clock + AllocGlobal>(rt: &N, port: u16) -> io::Result<bool> {
    let one = ask(rt, port)?;
    let other = ask(rt, port)?;
    Ok(one.as_slice() == ANSWER && other.as_slice() == ANSWER)
}

/// Whether two connections of the port are served to their end, by two workers.
fn serves<K: OpenStream + Read + Write + Drop + Send, N: Net<Stream = K> + Clock + Host + Sync>(
    rt: &N,
    port: u16,
) -> Result<bool, AllocError>
where
    N::Listener: Send,
{
    let state = State::new(rt.alloc());
    let Some(two) = Workers::new(2) else {
        return Err(AllocError);
    };
    let mut listener = Sockets::non_blocking(rt, rt.alloc(), port, 2);
    let reports = serve(rt, &Echo, &state, &mut listener, &Limits::usual(), two)?;
    let ends = [(Outcome::Finished, 1), (Outcome::Finished, 1)];
    Ok(is_reported(&reports, &ends))
}

#[test]
fn a_client_in_a_thread_of_its_own_is_answered(rt: HostRuntime) -> Result<(), Fail> {
    let port = free_port(&rt)?;
    let there = &rt;
    let (answered, served) = thread::join(
        &rt,
        move || are_answered(there, port),
        move || serves(there, port),
    );
    assert_eq!(rt; (answered?, served?), (true, true));
    Ok(())
}

/// Whether two connections of a socket that is open are served to their end, by two workers.
fn serves_open<
    K: OpenStream + Read + Write + Drop + Send,
    N: Net<Stream = K> + Clock + Host + Sync,
>(rt: &N, mut listener: Listening<'_, N>) -> Result<bool, AllocError>
where
    N::Listener: Send,
{
    let state = State::new(rt.alloc());
    let Some(two) = Workers::new(2) else {
        return Err(AllocError);
    };
    let reports = serve(rt, &Echo, &state, &mut listener, &Limits::usual(), two)?;
    let ends = [(Outcome::Finished, 1), (Outcome::Finished, 1)];
    Ok(is_reported(&reports, &ends))
}

#[test]
fn a_socket_that_is_open_is_served(rt: HostRuntime) -> Result<(), Fail> {
    let flag = AtomicBool::new(false);
    let listener = Listening::open(&rt, rt.alloc(), address(0), 2, Some(&flag))?;
    let port = listener.address()?.port();
    let there = &rt;
    let (answered, served) = thread::join(
        &rt,
        move || are_answered(there, port),
        move || serves_open(there, listener),
    );
    assert_eq!(rt; (answered?, served?), (true, true));
    Ok(())
}

#[test]
fn a_flag_ends_a_listener(rt: HostRuntime) -> Result<(), Fail> {
    let flag = AtomicBool::new(false);
    let mut listener = Listening::open(&rt, rt.alloc(), address(0), 2, Some(&flag))?;
    flag.store(true, Ordering::SeqCst);
    let is_over = listener.next().is_none();
    assert!(rt; is_over && !listener.failed() && listener.why().is_none());
    Ok(())
}

#[test]
fn an_address_in_use_is_refused(rt: HostRuntime) -> Result<(), Fail> {
    let taken = Listening::open(&rt, rt.alloc(), address(0), 1, None)?;
    let port = taken.address()?.port();
    let kind = match Listening::open(&rt, rt.alloc(), address(port), 1, None) {
        Ok(_) => None,
        Err(e) => Some(e.kind()),
    };
    drop(taken);
    assert!(rt; kind == Some(ErrorKind::AddrInUse));
    Ok(())
}
