//! What a loop does after a turn in which nothing moved.
ghost use Rattle.std.specs.Prelude.{◌≡◌, ◌+◌, ℕ};
ghost use Rattle.asgi_io.specs.Counting.{counted};

/// Waits a little, or not at all, and counts its calls. The count stops at 2^64 - 1.
pub trait Pause {
    // How often `pause` was called.
    ghost count: { Self → ℕ };

    /// Called after each idle turn.
    fn pause(&mut self)
        ensures { count self.new ≡ counted (count self.old + 1) };

    /// Called after each turn in which something moved.
    fn moved(&mut self)
        ensures { count self.new ≡ count self.old };

    /// How often `pause` was called.
    fn paused(&self) -> u64
        ensures { result ≡ count self.now };
}

/// A pause that only counts.
#[derive(Clone, Copy, Debug, PartialEq, Eq)]
pub struct CountingPause {
    count: u64,
}

impl CountingPause {
    /// No pause was made yet.
    pub fn new() -> Self
        ensures { result.count ≡ 0 }
    {
        CountingPause { count: 0 }
    }
}

impl Pause for CountingPause {
    ghost count = { λ p. p.count };

    fn pause(&mut self) {
        self.count = self.count.saturating_add(1);
    }

    fn moved(&mut self) {}

    fn paused(&self) -> u64 {
        self.count
    }
}
