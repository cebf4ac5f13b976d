//! Where the program listens.
ghost use Rattle.std.specs.Prelude.{◌≡◌, ◌++◌, ◌∷◌, []};

use asgi_server::{Accepts, Sockets};
use std::net::Net;
use std::time::Clock;

/// A listener whose port can be set.
pub trait Listens: Accepts {
    /// Gives `count` connections of this port from here on.
    fn listen_on(&mut self, port: u16, count: u64)
        ensures told { Self.Listener.answers self.new ≡ Self.Listener.answers self.old }
        ensures asked { Self.Listener.asked self.new ≡ Self.Listener.asked self.old ++ (port, count) ∷ [] };
}

impl<'a, R: Net + Clock> Listens for Sockets<'a, R> {
    fn listen_on(&mut self, port: u16, count: u64) {
        Sockets::listen_on(self, port, count);
    }
}
