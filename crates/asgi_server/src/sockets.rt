//! Connections from a socket of the system.
ghost use Rattle.std.specs.Prelude.{◌≡◌, ◌+◌, ◌++◌, ◌∷◌, [], ◌⊎◌, ℕ, true, false, List, Option, None, is_some, IfSome, IfNone, IfOk, IsOk};
ghost use Rattle.asgi_server.specs.Arrivals.{Arrives, Binds};
ghost use Rattle.asgi_server.specs.Connections.{Given};

use crate::accepting::accept_on;
use crate::listener::{Accepts, Listener};
use crate::peers::{loopback, sides_of};
use crate::socket::Socket;
use crate::system::Calls;
use asgi_io::History;
use asgi_types::Peer;
use asgi_ws::Wired;
use std::alloc::Global;
use std::io;
use std::net::Net;
use std::time::Clock;

/// A connection over a socket: its line, the client and the server.
pub type OverSocket<'a, R> = (
    Wired<Socket<'a, R, <R as Net>::Stream>>,
    Option<Peer>,
    Option<Peer>,
);

/// Accepts a number of connections on one port of this machine's loopback address, 127.0.0.1. The socket is opened at
/// the first call of `next`; if it isn't available, or no connection can be accepted any more, `next` returns none,
/// `failed` returns true, and `why` the system's error. A fault of one connection, before it was accepted, is passed over;
/// what is accepted is given, without its client or its server if the system or memory refuses them.
#[derive(Drop)]
pub struct Sockets<'a, R: Net + Clock> {
    rt: &'a R,
    alloc: Global,
    port: u16,
    // How many more connections will be accepted.
    left: u64,
    // Reads of their sockets wait for bytes.
    waits: bool,
    listener: Option<R::Listener>,
    has_failed: bool,
    // Why it has failed.
    why: Option<io::Error>,
    // The ports, and how many connections of each.
    asked: History<(u16, u64)>,
    calls: Calls<R::Stream>,
    told: History<Option<OverSocket<'a, R>>>,
}

impl<'a, R: Net + Clock> Sockets<'a, R> {
    /// Will accept `count` connections on this port, whose reads wait for bytes, a few milliseconds at the most:
    /// for a runner in whose one thread nothing else is to be done meanwhile. Nothing is opened yet.
    pub fn new(rt: &'a R, alloc: Global, port: u16, count: u64) -> Self
        ensures nothing { (result.told.items ≡ []) × (result.has_failed ≡ false) }
        ensures count { (result.left ≡ count) × (result.port ≡ port) }
        ensures asked { result.asked.items ≡ (port, count) ∷ [] }
    {
        let none = History::new();
        Sockets {
            rt,
            alloc,
            port,
            left: count,
            waits: true,
            listener: None,
            has_failed: false,
            why: None,
            asked: History::with(&none, &(port, count)),
            calls: Calls::new(),
            told: History::new(),
        }
    }

    /// The same with reads that do not wait: for a runner whose tasks have a thread of their own, since a read that
    /// waited would hold up what they send meanwhile.
    pub fn non_blocking(rt: &'a R, alloc: Global, port: u16, count: u64) -> Self
        ensures nothing { (result.told.items ≡ []) × (result.has_failed ≡ false) }
        ensures count { (result.left ≡ count) × (result.port ≡ port) }
        ensures asked { result.asked.items ≡ (port, count) ∷ [] }
    {
        let mut sockets = Sockets::new(rt, alloc, port, count);
        sockets.waits = false;
        sockets
    }

    /// Switches to `port`, and will accept `count` connections on it and none on the port before. A
    /// failed listener stays failed.
    pub fn listen_on(&mut self, port: u16, count: u64)
        ensures told { self.new.told ≡ self.old.told }
        ensures count { (self.new.left ≡ count) × (self.new.port ≡ port) }
        ensures failed { self.new.has_failed ≡ self.old.has_failed }
        ensures asked { self.new.asked.items ≡ self.old.asked.items ++ (port, count) ∷ [] }
    {
        self.asked = History::with(&self.asked, &(port, count));
        self.port = port;
        self.left = count;
        self.listener = None;
    }

    /// Why the socket isn't available, or why no connection can be accepted any more: the system's error, once it has failed.
    pub fn why(&self) -> Option<io::Error>
        ensures { result ≡ self.now.why }
    {
        self.why
    }

    /// Accepts the next connection, if one is still to be given.
    fn accept(&mut self) -> Option<OverSocket<'a, R>>
        ensures some { IfSome result (λ _. (self.old.left ≡ self.new.left + 1) × (self.new.has_failed ≡ false)) }
        ensures none { IfNone result ((self.new.left ≡ self.old.left) × ((self.old.left ≡ 0) ⊎ (self.new.has_failed ≡ true))) }
        ensures failed { self.old.has_failed ≡ true → result ≡ None }
        ensures told { self.new.told ≡ self.old.told }
        ensures asked { (self.new.asked ≡ self.old.asked) × (self.new.port ≡ self.old.port) }
        ensures bound { IfSome result (λ _. Binds (is_some self.old.listener) self.old.port self.old.calls.bound.items self.new.calls.bound.items) }
        ensures arrives { IfSome result (λ given. Arrives self.old.calls.accepted.items self.new.calls.accepted.items self.old.calls.named.items self.new.calls.named.items given) }
    {
        if self.has_failed {
            return None;
        }
        let Some(left) = self.left.checked_sub(1) else {
            return None;
        };
        match self.accept_one() {
            Ok(connection) => {
                self.left = left;
                Some(connection)
            }
            Err(e) => {
                self.why = Some(e);
                self.has_failed = true;
                None
            }
        }
    }

    /// Opens the socket of the port, if it isn't open yet.
    fn open(&mut self) -> io::Result<()>
        ensures told { self.new.told ≡ self.old.told }
        ensures left { (self.new.left ≡ self.old.left) × (self.new.has_failed ≡ self.old.has_failed) }
        ensures open { IsOk result → is_some self.new.listener ≡ true }
        ensures asked { (self.new.asked ≡ self.old.asked) × (self.new.port ≡ self.old.port) }
        ensures bound { Binds (is_some self.old.listener) self.old.port self.old.calls.bound.items self.new.calls.bound.items }
        ensures others { (self.new.calls.accepted ≡ self.old.calls.accepted) × (self.new.calls.named ≡ self.old.calls.named) }
    {
        if self.listener.is_some() {
            return Ok(());
        }
        let socket = self.calls.bind(self.rt, loopback(self.port))?;
        self.listener = Some(socket);
        Ok(())
    }

    fn accept_one(&mut self) -> io::Result<OverSocket<'a, R>>
        ensures told { self.new.told ≡ self.old.told }
        ensures left { (self.new.left ≡ self.old.left) × (self.new.has_failed ≡ self.old.has_failed) }
        ensures asked { (self.new.asked ≡ self.old.asked) × (self.new.port ≡ self.old.port) }
        ensures bound { Binds (is_some self.old.listener) self.old.port self.old.calls.bound.items self.new.calls.bound.items }
        ensures arrives { IfOk result (λ given. Arrives self.old.calls.accepted.items self.new.calls.accepted.items self.old.calls.named.items self.new.calls.named.items given) }
    {
        self.open()?;
        let Some(listener) = &self.listener else {
            unreachable!()
        };
        let (stream, from) = accept_on(self.rt, listener, &mut self.calls)?;
        let own = self.calls.name(&stream);
        let (client, server) = sides_of(self.alloc, from, own);
        let line = Wired::new(
            self.alloc,
            Socket::new(self.rt, self.alloc, stream, self.waits),
        );
        Ok((line, client, server))
    }
}

impl<'a, R: Net + Clock> Listener for Sockets<'a, R> {
    type L = Wired<Socket<'a, R, R::Stream>>;

    ghost answers = { λ s. s.told.items };

    ghost asked = { λ s. s.asked.items };

    fn next(&mut self) -> Option<OverSocket<'a, R>>
        ensures told { self.new.told.items ≡ self.old.told.items ++ result ∷ [] }
        ensures some { IfSome result (λ _. (self.old.left ≡ self.new.left + 1) × (self.new.has_failed ≡ false)) }
        ensures none { IfNone result ((self.new.left ≡ self.old.left) × ((self.old.left ≡ 0) ⊎ (self.new.has_failed ≡ true))) }
        ensures failed { self.old.has_failed ≡ true → result ≡ None }
        ensures asked { self.new.asked.items ≡ self.old.asked.items }
        ensures port { self.new.port ≡ self.old.port }
        ensures bound { IfSome result (λ _. Binds (is_some self.old.listener) self.old.port self.old.calls.bound.items self.new.calls.bound.items) }
        ensures arrives { IfSome result (λ given. Arrives self.old.calls.accepted.items self.new.calls.accepted.items self.old.calls.named.items self.new.calls.named.items given) }
    {
        let given = self.accept();
        self.told = History::with(&self.told, &given);
        given
    }
}

impl<'a, R: Net + Clock> Accepts for Sockets<'a, R> {
    ghost has_failed = { λ s. s.has_failed };

    fn failed(&self) -> bool {
        self.has_failed
    }
}
