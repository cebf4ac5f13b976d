//! What a worker serves its connections with.
ghost use Rattle.std.specs.Prelude.{◌≡◌, ℕ};
ghost use Rattle.asgi_apps.specs.Promises.{Promise};
ghost use Rattle.asgi_server.specs.Connections.{IsServed, arrived};

use asgi_conn::Report;
use asgi_types::{Limits, Peer, State};
use asgi_ws::Line;
use std::alloc::AllocGlobal;

/// What a worker serves its connections with, by an application of this type. It is the worker's own, and goes to its thread.
///
/// Of the application nothing is asked here, not even that it is one: what is known of an engine in each thread then rests on
/// the engine alone, and its tasks may be of a type that stays in one thread.
pub trait Engine<A> {
    // What is promised of each exchange that the application has part in.
    ghost answers: { A → Promise };

    // How often it paused.
    ghost pauses: { Self → ℕ };

    /// Serves one connection by the application, and drops its line.
    fn serve<H: AllocGlobal, L: Line + Drop>(
        &mut self,
        rt: &H,
        limits: &Limits,
        state: &State,
        app: &A,
        line: L,
        client: &Option<Peer>,
        server: &Option<Peer>,
    ) -> Report
        ensures { IsServed (answers app.now) limits.now state.now (arrived L.state (line, client.now, server.now)) (pauses self.old) (pauses self.new) result };

    /// Ends what it keeps from one connection to the next, and waits for that.
    fn end(self);
}
