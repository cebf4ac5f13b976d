//! What a scope is told of the addresses of a connection.
ghost use Rattle.asgi_server.specs.Arrivals.{TellsAddress, TellsAnswer, IsLoopbackAt};

use asgi_types::{Chars, Peer};
use std::alloc::{Alloc, Global};
use std::io;
use std::net::{Ipv4Addr, SocketAddr};

/// The address of a port of this machine's own loopback address, 127.0.0.1.
pub fn loopback(port: u16) -> SocketAddr
    ensures { IsLoopbackAt port result }
{
    SocketAddr::from((Ipv4Addr::LOCALHOST, port))
}

/// The side of a connection at this address, if memory suffices for it.
pub fn peer_at(alloc: Global, address: SocketAddr) -> Option<Peer>
    ensures { TellsAddress address result }
{
    let host = format!(in alloc; "{}", address.ip()).ok()?;
    Some(Peer {
        host: Chars::new(host),
        port: address.port(),
    })
}

/// The client and the server of a connection from this address, by what its stream answered for its own name.
pub fn sides_of(
    alloc: Global,
    from: SocketAddr,
    own: io::Result<SocketAddr>,
) -> (Option<Peer>, Option<Peer>)
    ensures client { TellsAddress from result.0 }
    ensures server { TellsAnswer own result.1 }
{
    let client = peer_at(alloc, from);
    match own {
        Ok(address) => (client, peer_at(alloc, address)),
        Err(_) => (client, None),
    }
}
