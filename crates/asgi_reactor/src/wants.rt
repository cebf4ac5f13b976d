//! How long newcomers have waited.
ghost use Rattle.std.specs.Prelude.{◌≡◌, ◌≤◌, ◌<◌, ◌+◌, ◌-◌, ◌^◌, ℕ, None, Some, IfSome, IsFalse, IsSome, IsTrue, min};

use log::{Log, warn};
use std::io;

/// After how many ticks the log is told again that newcomers wait.
const AGAIN: u64 = 60;

/// Since which tick newcomers wait, and when the log was told of that.
#[derive(Clone, Copy, Debug)]
pub struct Wants {
    since: Option<u64>,
    told: Option<u64>,
}

impl Wants {
    /// None waits, and nothing was told.
    pub fn new() -> Self
        ensures none { (result.since ≡ None) × (result.told ≡ None) }
    {
        Wants {
            since: None,
            told: None,
        }
    }

    /// At this tick newcomers wait, or none does. For how many ticks they have, if the log is to be told of that now: once they have for one,
    /// and not again within 60 ticks.
    pub fn hear(&mut self, now: u64, wait: bool) -> Option<u64>
        ensures long { IfSome result (λ long. IfSome self.old.since (λ since. (long ≡ now - since) × (1 ≤ long))) }
        ensures since { IsSome result → IsSome self.old.since }
        ensures wait { IsSome result → IsTrue wait }
        ensures seldom { IsSome result → IfSome self.old.told (λ told. min (told + 60) (2 ^ 64 - 1) ≤ now) }
        ensures told { IsSome result → self.new.told ≡ Some now }
        // Where they have waited for a tick, and the log was not told of late, it is told: it is kept from when they wait.
        ensures due { IsTrue wait → IfSome self.old.since (λ since. since < now → IfSome self.old.told (λ told. min (told + 60) (2 ^ 64 - 1) ≤ now) → IsSome result) }
        ensures lasts { IsTrue wait → IsSome self.old.since → self.new.since ≡ self.old.since }
        ensures kept { result ≡ None → self.new.told ≡ self.old.told }
        ensures begins { IsTrue wait → self.old.since ≡ None → self.new.since ≡ Some now }
        ensures ends { IsFalse wait → self.new.since ≡ None }
    {
        if !wait {
            self.since = None;
            return None;
        }
        let Some(since) = self.since else {
            self.since = Some(now);
            return None;
        };
        if now <= since || self.is_told_lately(now) {
            return None;
        }
        self.told = Some(now);
        Some(now - since)
    }

    /// Whether the log was told in one of the last ticks.
    fn is_told_lately(&self, now: u64) -> bool
        ensures yes { IfSome self.now.told (λ told. min (told + 60) (2 ^ 64 - 1) ≤ now) → IsFalse result }
        ensures no { IsFalse result → IfSome self.now.told (λ told. min (told + 60) (2 ^ 64 - 1) ≤ now) }
    {
        match self.told {
            Some(told) => now < told.saturating_add(AGAIN),
            None => false,
        }
    }
}

/// Tells the log that newcomers have waited for so many seconds: for a slot, if no accept has failed for want of descriptors or memory.
pub(crate) fn tell_wait<R: Log>(rt: &R, seconds: u64, short: Option<io::Error>) {
    match short {
        Some(e) => warn!(rt; "newcomers have waited for {seconds} seconds: {e}"),
        None => {
            warn!(rt; "newcomers have waited for {seconds} seconds: all slots are taken");
        }
    }
}
