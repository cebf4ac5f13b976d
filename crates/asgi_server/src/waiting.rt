//! A pause that waits.
ghost use Rattle.std.specs.Prelude.{◌≡◌, ◌+◌};
ghost use Rattle.asgi_io.specs.Counting.{counted};

use asgi_io::Pause;
use std::thread;
use std::time::{Clock, Duration};

/// How long a pause waits, in milliseconds.
const WAIT: u64 = 1;

/// A pause that waits about a millisecond, and counts.
#[derive(Drop)]
pub struct Waiting<'a, H> {
    clock: &'a H,
    count: u64,
}

impl<'a, H: Clock> Waiting<'a, H> {
    /// No pause was made yet.
    pub fn new(clock: &'a H) -> Self
        ensures { result.count ≡ 0 }
    {
        Waiting { clock, count: 0 }
    }
}

impl<'a, H: Clock> Pause for Waiting<'a, H> {
    ghost count = { λ w. w.count };

    fn pause(&mut self) {
        self.count = self.count.saturating_add(1);
        thread::sleep(self.clock, Duration::from_millis(WAIT));
    }

    fn moved(&mut self) {}

    fn paused(&self) -> u64 {
        self.count
    }
}
