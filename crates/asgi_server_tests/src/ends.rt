//! What a scope is told of the two ends of its connection, and a client that says nothing, over the loopback address.
use crate::loopback::{connect, free_port};
use crate::queue::{End, is_reported, serve};
use asgi_apps::{AppFault, AppTask, Application, Echo, Says};
use asgi_conn::{Host, Outcome};
use asgi_server::{Sockets, Workers};
use asgi_types::{Headers, HttpScope, Kind, Limits, Octets, Outgoing, Peer, Scope, State};
use std::alloc::{AllocError, AllocGlobal, Global};
use std::io::{self, Read, Write};
use std::net::{Net, OpenStream};
use std::test::Fail;
use std::thread;
use std::time::Clock;

const OLD_GET: &[u8] = b"GET / HTTP/1.0\r\n\r\n";

/// Responds with the client and the server that its scope has, a line each.
#[derive(Clone, Copy, Debug)]
struct Ends;

impl Application for Ends {
    type Task = Says;

    fn call(&self, alloc: Global, scope: &Scope) -> Result<Says, AppFault> {
        let Scope::Http(scope) = scope else {
            return Err(AppFault::Failed);
        };
        let mut says = Says::with_room(alloc, Kind::Http, 2)?;
        says.add(Outgoing::ResponseStart {
            status: 200,
            headers: Headers::new(alloc),
            trailers: false,
        })?;
        says.add(Outgoing::ResponseBody {
            body: Octets::new(ends_of(alloc, scope)?),
            more_body: false,
        })?;
        Ok(says)
    }
}

fn ends_of(alloc: Global, scope: &HttpScope) -> Result<Vec<u8>, AllocError> {
    let mut text = Vec::new(alloc);
    add_end(alloc, &mut text, &scope.client)?;
    add_end(alloc, &mut text, &scope.server)?;
    Ok(text)
}

/// Adds a line for this end, an empty one if it is not known.
fn add_end(alloc: Global, text: &mut Vec<u8>, end: &Option<Peer>) -> Result<(), AllocError> {
    if let Some(peer) = end {
        let port = format!(in alloc; ":{}", peer.port)?;
        text.extend_from_slice(peer.host.as_str().as_bytes())?;
        text.extend_from_slice(port.as_bytes())?;
    }
    text.extend_from_slice(b"\n")
}

/// Whether the response to a client of this port ends in its socket's own name and that of its peer.
fn is_told<N: Net + Clock + AllocGlobal>(rt: &N, port: u16) -> io::Result<bool> {
    let mut stream = connect(rt, port)?;
    let own = stream.local_addr()?;
    let peer = stream.peer_addr()?;
    stream.write_all(OLD_GET)?;
    let mut answer = Vec::new(rt.alloc());
    stream.read_to_end(&mut answer)?;
    let wanted = format!(in rt.alloc(); "\r\n\r\n{own}\n{peer}\n")?;
    Ok(answer.ends_with(wanted.as_bytes()))
}

/// Whether a client of this port that sends nothing is closed, and gets nothing.
fn is_closed<N: Net + Clock + AllocGlobal>(rt: &N, port: u16) -> io::Result<bool> {
    let mut stream = connect(rt, port)?;
    let mut answer = Vec::new(rt.alloc());
    stream.read_to_end(&mut answer)?;
    Ok(answer.is_empty())
}

/// Whether one connection of the port ends like this, by one worker.
fn ends_like<
    K: OpenStream + Read + Write + Drop + Send,
    N: Net<Stream = K> + Clock + Host + Sync,
    T: AppTask + Send + 'static,
    A: Application<Task = T> + Send + Sync,
>(rt: &N, app: &A, limits: &Limits, port: u16, end: End) -> Result<bool, AllocError>
where
    N::Listener: Send,
{
    let state = State::new(rt.alloc());
    let Some(one) = Workers::new(1) else {
        return Err(AllocError);
    };
    let mut listener = Sockets::non_blocking(rt, rt.alloc(), port, 1);
    let reports = serve(rt, app, &state, &mut listener, limits, one)?;
    Ok(is_reported(&reports, &[end]))
}

#[test]
fn a_scope_has_the_names_of_its_connections_two_sockets(rt: HostRuntime) -> Result<(), Fail> {
    let port = free_port(&rt)?;
    let there = &rt;
    let limits = Limits::usual();
    let how = &limits;
    let (told, served) = thread::join(
        &rt,
        move || is_told(there, port),
        move || ends_like(there, &Ends, how, port, (Outcome::Finished, 1)),
    );
    assert_eq!(rt; (told?, served?), (true, true));
    Ok(())
}

#[test]
fn a_silent_client_is_given_up(rt: HostRuntime) -> Result<(), Fail> {
    let port = free_port(&rt)?;
    let there = &rt;
    let limits = Limits::new(16_384, 64, 1 << 20, 16_384, 16, 20, 1 << 40)?;
    let how = &limits;
    let (closed, served) = thread::join(
        &rt,
        move || is_closed(there, port),
        move || ends_like(there, &Echo, how, port, (Outcome::Idle, 0)),
    );
    assert_eq!(rt; (closed?, served?), (true, true));
    Ok(())
}
