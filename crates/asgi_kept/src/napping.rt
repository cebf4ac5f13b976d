//! A pause that waits for the other half.
ghost use Rattle.std.specs.Prelude.{◌≡◌};

use crate::resting::Resting;
use asgi_io::Pause;
use std::sync::Wait;

/// Waits for the other half after each idle turn, and counts the idle ones. May wake the other half after each one in
/// which something moved.
#[derive(Drop)]
pub struct Napping<R> {
    rt: R,
    resting: Resting,
    wakes: bool,
    count: u64,
}

impl<R: Wait> Napping<R> {
    /// No pause was made yet. Wakes nobody: what has something for the other half rings its bell.
    pub fn new(rt: R, resting: Resting) -> Self
        ensures { result.count ≡ 0 }
    {
        Napping {
            rt,
            resting,
            wakes: false,
            count: 0,
        }
    }

    /// No pause was made yet. Wakes the other half after each turn in which something moved.
    pub fn waking(rt: R, resting: Resting) -> Self
        ensures { result.count ≡ 0 }
    {
        Napping {
            rt,
            resting,
            wakes: true,
            count: 0,
        }
    }
}

impl<R: Wait> Pause for Napping<R> {
    ghost count = { λ p. p.count };

    fn pause(&mut self) {
        self.count = self.count.saturating_add(1);
        self.resting.rest(&self.rt);
    }

    fn moved(&mut self) {
        if self.wakes {
            self.resting.wake();
        } else {
            self.resting.stir();
        }
    }

    fn paused(&self) -> u64 {
        self.count
    }
}
