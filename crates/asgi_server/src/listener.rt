//! Where connections come from.
ghost use Rattle.std.specs.Prelude.{◌≡◌, ◌++◌, ◌∷◌, [], ℕ, Bool, List, Option};
ghost use Rattle.asgi_server.specs.Connections.{Given};

use asgi_types::Peer;
use asgi_ws::Line;

/// Gives connections, one after another.
pub trait Listener {
    /// What carries the bytes of a connection.
    type L: Line + Drop;

    // What each call of `next` returned, in order.
    ghost answers: { Self → List (Option (Given Self.L)) };

    // Each port that it was told to listen on, with the number of connections that it was to give, in order. A listener of
    // another kind was told none.
    ghost asked: { Self → List (ℕ × ℕ) };

    /// The line of the next connection, its client and its server if they are known (ASGI HTTP
    /// connection scope, `client` and `server`); None if there is no connection any more. May wait
    /// for one.
    fn next(&mut self) -> Option<(Self::L, Option<Peer>, Option<Peer>)>
        ensures told { answers self.new ≡ answers self.old ++ result ∷ [] }
        ensures asked { asked self.new ≡ asked self.old };
}

/// A listener that may fail.
pub trait Accepts: Listener {
    // Whether a connection could not be accepted.
    ghost has_failed: { Self → Bool };

    /// Whether a connection could not be accepted, so that `next` returns none any more.
    fn failed(&self) -> bool
        ensures { result ≡ has_failed self.now };
}
