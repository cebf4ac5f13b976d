//! What a scope is told of the addresses of a connection.
use asgi_types::{Chars, Peer};
use std::alloc::{Alloc, Global};
use std::io;
use std::net::SocketAddr;

/// The side of a connection at this address, if the system told it and memory suffices.
pub fn peer_at(alloc: Global, address: io::Result<SocketAddr>) -> Option<Peer> {
    let address = address.ok()?;
    let host = format!(in alloc; "{}", address.ip()).ok()?;
    Some(Peer {
        host: Chars::new(host),
        port: address.port(),
    })
}

/// The side of each connection at a listener with this address, unless that stands for several.
pub fn own_peer(alloc: Global, address: io::Result<SocketAddr>) -> Option<Peer> {
    let address = address.ok()?;
    if address.ip().is_unspecified() {
        return None;
    }
    peer_at(alloc, Ok(address))
}
