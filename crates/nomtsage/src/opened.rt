//! A socket that listens, opened once each of the numbers of the standard streams is taken.
ghost use Rattle.std.specs.Prelude.{◌≡◌, ◌∷◌, [], None, IfOk};

use crate::console::Console;
use asgi_reactor::{Numbers, SocketReactor};
use asgi_server::Listening;
use std::io;
use std::net::{Net, SocketAddr};
use std::sync::atomic::AtomicBool;

/// A socket that listens, and what holds the numbers of the standard streams with which the program was not started.
#[derive(Drop)]
pub(crate) struct Opened<S: Drop, F: Drop> {
    pub(crate) socket: S,
    pub(crate) held: F,
}

/// Opens a socket at this address for connections in seats.
pub(crate) fn open_reactor<'r, H: Net + Console + AllocGlobal>(
    rt: &'r H,
    address: SocketAddr,
    numbers: &Numbers,
    flag: Option<&'r AtomicBool>,
) -> io::Result<Opened<SocketReactor<'r, H>, H::Held>>
    ensures nothing { IfOk result (λ o. (o.socket.told.items ≡ []) × (o.socket.why ≡ None)) }
    ensures count { IfOk result (λ o. o.socket.left ≡ numbers.now.count) }
{
    let held = rt.hold_standard()?;
    let socket = SocketReactor::open(rt, rt.alloc(), address, numbers, flag)?;
    Ok(Opened { socket, held })
}

/// Opens a socket at this address for workers.
pub(crate) fn open_listening<'r, H: Net + Console + AllocGlobal>(
    rt: &'r H,
    address: SocketAddr,
    count: u64,
    flag: Option<&'r AtomicBool>,
) -> io::Result<Opened<Listening<'r, H>, H::Held>>
    ensures nothing { IfOk result (λ o. (o.socket.told.items ≡ []) × (o.socket.why ≡ None)) }
    ensures count { IfOk result (λ o. o.socket.left ≡ count) }
    ensures bound { IfOk result (λ o. o.socket.calls.bound.items ≡ address ∷ []) }
{
    let held = rt.hold_standard()?;
    let socket = Listening::open(rt, rt.alloc(), address, count, flag)?;
    Ok(Opened { socket, held })
}
