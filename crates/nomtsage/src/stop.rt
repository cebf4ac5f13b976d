//! What stops a server that runs.
use std::sync::atomic::{AtomicBool, Ordering};

/// Stops a server, from an application or another thread: once it is pulled, no connection is accepted any more. When those that
/// are open have ended, the application is stopped, and the server returns. It stays pulled.
///
/// In seats, as a server serves by itself, a connection between two requests is ended at once, even if a part of the next head has
/// come. The application of a session hears at once that the server goes away (a disconnect with 1001, RFC 6455, section 7.4.1).
/// Exchanges and sessions go on for 30 seconds; from then on each is ended as soon as nothing moves in it. With workers each
/// connection goes on until it ends by itself, within its limits.
#[derive(Drop)]
pub struct Stop {
    pulled: AtomicBool,
}

impl Stop {
    /// Not pulled yet.
    pub const fn new() -> Stop {
        Stop {
            pulled: AtomicBool::new(false),
        }
    }

    /// Stops each server that looks at it. Waits for nothing.
    pub fn pull(&self) {
        self.pulled.store(true, Ordering::SeqCst);
    }

    /// Whether it was pulled.
    pub fn is_pulled(&self) -> bool {
        self.pulled.load(Ordering::SeqCst)
    }
}

/// The flag that a listener looks at.
pub fn flag_of<'a: 'r, 'r>(stop: Option<&'a Stop>) -> Option<&'r AtomicBool> {
    match stop {
        Some(stop) => Some(&stop.pulled),
        None => None,
    }
}
