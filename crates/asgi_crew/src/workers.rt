//! How many workers there are.
ghost use Rattle.std.specs.Prelude.{◌≡◌, ◌<◌, ◌≤◌, MatchOption};

/// The most workers that there may be.
const MOST: u64 = 8;

/// A number of workers, from 1 to 8.
#[derive(Clone, Copy, Debug, PartialEq, Eq)]
pub struct Workers {
    count: u64,
    ghost some: { 0 < count },
    ghost few: { count ≤ 8 },
}

impl Workers {
    /// This many workers, if that is a number from 1 to 8.
    pub fn new(count: u64) -> Option<Workers>
        ensures { MatchOption result (¬ ((0 < count) × (count ≤ 8))) (λ w. (w.count ≡ count) × (0 < count) × (count ≤ 8)) }
    {
        if count == 0 || count > MOST {
            return None;
        }
        Some(Workers { count })
    }

    /// How many there are.
    pub fn count(&self) -> u64
        ensures { (result ≡ self.now.count) × (0 < result) × (result ≤ 8) }
    {
        self.count
    }
}
