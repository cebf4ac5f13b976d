//! How one of two halves waits for the other.
use std::alloc::{AllocError, Global};
use std::sync::{Arc, Wait};
use std::thread;
use std::thread::Parker;
use std::time::Duration;

/// This many waits, counted anew whenever something moved, only yield.
const YIELDS: u32 = 100;

/// This many more park for a short while, and those after them for a longer one, at the most.
const SHORT_PARKS: u32 = 50;

/// How long a short park takes at the most, and how long a longer one, in milliseconds.
const SHORT: u64 = 1;

const LONG: u64 = 5;

/// Waits for the other half, and wakes it. Nothing is promised of time.
#[derive(Drop)]
pub struct Resting {
    me: Arc<Parker, Global>,
    other: Arc<Parker, Global>,
    /// The waits since something last moved.
    waits: u32,
}

impl Resting {
    /// For two halves, which wake each other. `AllocError` if memory is refused.
    pub fn pair(alloc: Global) -> Result<(Resting, Resting), AllocError> {
        let me = Arc::new(alloc, Parker::new())?;
        let other = Arc::new(alloc, Parker::new())?;
        let there = Resting {
            me: Arc::try_clone(&other)?,
            other: Arc::try_clone(&me)?,
            waits: 0,
        };
        let here = Resting {
            me,
            other,
            waits: 0,
        };
        Ok((here, there))
    }

    /// Another for the same half.
    pub fn again(&self) -> Result<Resting, AllocError> {
        Ok(Resting {
            me: Arc::try_clone(&self.me)?,
            other: Arc::try_clone(&self.other)?,
            waits: 0,
        })
    }

    /// What wakes the other half, for one that has something for it elsewhere.
    pub fn bell(&self) -> Result<Bell, AllocError> {
        Ok(Bell {
            other: Arc::try_clone(&self.other)?,
        })
    }

    /// Waits a little: a while it only lets other threads go first, and then it parks until the other half
    /// wakes it, at most for some milliseconds.
    pub fn rest<R: Wait>(&mut self, rt: &R) {
        self.waits = self.waits.saturating_add(1);
        if self.waits <= YIELDS {
            thread::yield_now();
            return;
        }
        self.me
            .park_timeout(rt, Duration::from_millis(longest(self.waits)));
    }

    /// Waits until the other half wakes it, however long that takes. A wake that came before is not lost.
    pub fn rest_until_woken<R: Wait>(&mut self, rt: &R) {
        self.waits = self.waits.saturating_add(1);
        if self.waits <= YIELDS {
            thread::yield_now();
            return;
        }
        self.me.park(rt);
    }

    /// Something moved: this half tries again soon.
    pub fn stir(&mut self) {
        self.waits = 0;
    }

    /// Something moved: the other half may go on, and this one tries again soon.
    pub fn wake(&mut self) {
        self.stir();
        self.other.unpark();
    }
}

/// Wakes one of two halves.
#[derive(Drop)]
pub struct Bell {
    other: Arc<Parker, Global>,
}

impl Bell {
    /// The other half may go on.
    pub fn ring(&self) {
        self.other.unpark();
    }
}

/// How long a park takes at the most after this many waits.
fn longest(waits: u32) -> u64 {
    if waits <= YIELDS + SHORT_PARKS {
        return SHORT;
    }
    LONG
}
