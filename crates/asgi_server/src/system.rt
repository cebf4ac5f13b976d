//! The calls of the system, each in one line, and what it answered.
ghost use Rattle.std.specs.Prelude.{◌≡◌, ◌++◌, ◌∷◌, []};

use asgi_io::History;
use std::io;
use std::net::{Net, OpenListener, OpenStream, SocketAddr, TcpListener};

/// What was asked of the system, and what it answered, the oldest first. The value takes no bytes.
#[derive(Drop)]
pub struct Calls<S> {
    /// The addresses that were to be bound.
    pub bound: History<SocketAddr>,
    /// The answers of accept.
    pub accepted: History<io::Result<(S, SocketAddr)>>,
    /// What streams answered for their own names.
    pub named: History<io::Result<SocketAddr>>,
}

impl<S> Calls<S> {
    /// Nothing was asked yet.
    pub fn new() -> Self
        ensures { (result.bound.items ≡ []) × (result.accepted.items ≡ []) × (result.named.items ≡ []) }
    {
        Calls {
            bound: History::new(),
            accepted: History::new(),
            named: History::new(),
        }
    }

    /// A socket that listens at this address.
    pub fn bind<R: Net>(&mut self, rt: &R, address: SocketAddr) -> io::Result<R::Listener>
        ensures bound { self.new.bound.items ≡ self.old.bound.items ++ address ∷ [] }
        ensures others { (self.new.accepted ≡ self.old.accepted) × (self.new.named ≡ self.old.named) }
    {
        self.bound = History::with(&self.bound, &address);
        TcpListener::bind(rt, address)
    }

    /// The next connection of this socket, and the address of its peer.
    pub fn accept<L: OpenListener<Stream = S>>(
        &mut self,
        listener: &L,
    ) -> io::Result<(S, SocketAddr)>
        ensures accepted { self.new.accepted.items ≡ self.old.accepted.items ++ result ∷ [] }
        ensures others { (self.new.bound ≡ self.old.bound) × (self.new.named ≡ self.old.named) }
    {
        let answer = listener.accept();
        self.accepted = History::with(&self.accepted, &answer);
        answer
    }
}

impl<S: OpenStream> Calls<S> {
    /// The stream's own name, which is its address at this end.
    pub fn name(&mut self, stream: &S) -> io::Result<SocketAddr>
        ensures named { self.new.named.items ≡ self.old.named.items ++ result ∷ [] }
        ensures others { (self.new.bound ≡ self.old.bound) × (self.new.accepted ≡ self.old.accepted) }
    {
        let answer = stream.local_addr();
        self.named = History::with(&self.named, &answer);
        answer
    }
}
