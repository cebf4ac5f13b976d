//! How many bytes are held for all clients of a table together.
ghost use Rattle.std.specs.Prelude.{◌≡◌, ◌+◌, ◌-◌, ◌^◌, ◌≤◌, ◌<◌, IsFalse, IsTrue};

/// How many bytes are held for all clients together: those that wait to be written, and those that were read ahead.
#[derive(Clone, Copy, Debug)]
pub struct Budget {
    most: u64,
    held: u64,
}

impl Budget {
    /// Nothing is held, and so many bytes may be.
    pub fn new(most: u64) -> Self
        ensures most { result.most ≡ most }
        ensures none { result.held ≡ 0 }
    {
        Budget { most, held: 0 }
    }

    /// For one client `now` bytes are held, and `was` were before.
    pub fn change(&mut self, was: u64, now: u64)
        ensures held { self.old.held - was + now < 2 ^ 64 → self.new.held ≡ self.old.held - was + now }
        ensures most { self.new.most ≡ self.old.most }
    {
        self.held = self.held.saturating_sub(was).saturating_add(now);
    }

    /// Whether as many are held as may be.
    pub fn is_spent(&self) -> bool
        ensures yes { IsTrue result → self.now.most ≤ self.now.held }
        ensures no { IsFalse result → self.now.held < self.now.most }
    {
        self.held >= self.most
    }
}
