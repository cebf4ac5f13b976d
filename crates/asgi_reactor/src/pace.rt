//! How slowly a client may send, or take what it is sent.
ghost use Rattle.std.specs.Prelude.{◌≡◌, ◌≢◌, ◌<◌, ◌-◌, ◌*◌, ◌^◌, ◌⊎◌, ℕ, List, [], Some, None, IsTrue, IsFalse};
ghost use Rattle.asgi_reactor.specs.Pacing.{Heard, IsSlow, IsStill, Knows, hears, last_taken};
ghost use Rattle.asgi_reactor.specs.private.Reaching.{ReachesTick};

/// For how many ticks a pause between two bytes counts at the most: a client that is served for long may send nothing meanwhile.
const LONGEST_PAUSE: u64 = 10;

/// The bytes that go one way, tick by tick: how many, and how many ticks they took. Ticks of which it is told nothing are a pause,
/// which counts ten at the most.
#[derive(Clone, Copy, Debug)]
pub struct Pace {
    /// The newest tick, if there was one.
    newest: Option<u64>,
    /// How many ticks all took.
    took: u64,
    /// How many bytes went.
    count: u128,
}

impl Pace {
    /// Nothing went yet.
    pub fn new() -> Self
        ensures none { Knows result [] }
    {
        Pace {
            newest: None,
            took: 0,
            count: 0,
        }
    }

    /// So many bytes more have gone by this tick.
    pub fn hear(&mut self, now: u64, count: u64)
        ensures hears { (ticks : List Heard) → Knows self.old ticks → Knows self.new (hears ticks now count) }
    {
        self.reach(now);
        self.count = self.count.saturating_add(count as u128);
    }

    /// It is this tick now.
    fn reach(&mut self, now: u64)
        ensures reaches { ReachesTick now self.old self.new }
        ensures count { self.new.count ≡ self.old.count }
    {
        if let Some(last) = self.newest {
            if now <= last {
                return;
            }
            let pause = (now - last).min(LONGEST_PAUSE);
            self.took = self.took.saturating_add(pause);
        }
        self.newest = Some(now);
    }

    /// Whether they took more ticks than this limit, and one more for each `least` bytes.
    pub fn is_slow(&self, least: u64, limit: u64) -> bool
        ensures slow { (ticks : List Heard) → Knows self.now ticks → IsTrue result → IsSlow least limit ticks }
        ensures well { (ticks : List Heard) → Knows self.now ticks → IsFalse result → ¬ IsSlow least limit ticks }
        ensures limit { IsTrue result → limit < self.now.took }
    {
        self.count < due(self.took.saturating_sub(limit), least)
    }
}

/// How many bytes are due in so many ticks.
fn due(ticks: u64, least: u64) -> u128
    ensures product { result ≡ ticks * least }
    ensures most { result < 2 ^ 128 - 1 }
{
    (ticks as u128) * (least as u128)
}

/// The bytes that a client sends, exchange by exchange. Nothing is slow while nothing comes: that is silence, which the limits of a
/// connection end.
#[derive(Clone, Copy, Debug)]
pub struct Sender {
    /// How many exchanges had ended when it began.
    exchanges: u64,
    /// What came since.
    pace: Pace,
}

impl Sender {
    /// Nothing came yet, and no exchange has ended.
    pub fn new() -> Self
        ensures none { Knows result.pace [] }
        ensures exchanges { result.exchanges ≡ 0 }
    {
        Sender::after(0)
    }

    /// Nothing came yet since so many exchanges have ended.
    fn after(exchanges: u64) -> Self
        ensures none { Knows result.pace [] }
        ensures exchanges { result.exchanges ≡ exchanges }
    {
        Sender {
            exchanges,
            pace: Pace::new(),
        }
    }

    /// So many bytes have come by this tick since the last call, and so many exchanges have ended. Whether those of the exchange took
    /// more ticks than this limit, and one more for each `least` of them: not if an exchange has ended meanwhile, nor if nothing came.
    pub fn is_too_slow(
        &mut self,
        least: u64,
        limit: u64,
        now: u64,
        came: u64,
        exchanges: u64,
    ) -> bool
        ensures slow { (ticks : List Heard) → Knows self.old.pace ticks → IsTrue result → IsSlow least limit (hears ticks now came) }
        ensures well { (ticks : List Heard) → Knows self.old.pace ticks → exchanges ≡ self.old.exchanges → came ≢ 0 → IsFalse result
            → ¬ IsSlow least limit (hears ticks now came) }
        ensures limit { IsTrue result → limit < self.new.pace.took }
        ensures heard { IsTrue result → came ≢ 0 }
        ensures one { IsTrue result → exchanges ≡ self.old.exchanges }
        ensures hears { (ticks : List Heard) → Knows self.old.pace ticks → exchanges ≡ self.old.exchanges → came ≢ 0
            → Knows self.new.pace (hears ticks now came) }
        ensures silent { exchanges ≡ self.old.exchanges → came ≡ 0 → self.new ≡ self.old }
        ensures begins { exchanges ≢ self.old.exchanges → Knows self.new.pace [] }
        ensures exchanges { self.new.exchanges ≡ exchanges }
    {
        if exchanges != self.exchanges {
            *self = Sender::after(exchanges);
            return false;
        }
        if came == 0 {
            return false;
        }
        self.pace.hear(now, came);
        self.pace.is_slow(least, limit)
    }
}

/// How a client takes what waits for it.
#[derive(Clone, Copy, Debug)]
pub struct Taker {
    /// What it has taken since that waits.
    pace: Pace,
    /// The newest tick in which it took some, or else the first one.
    last: Option<u64>,
}

impl Taker {
    /// It has taken nothing yet.
    pub fn new() -> Self
        ensures none { Knows result.pace [] }
        ensures last { result.last ≡ None }
    {
        Taker {
            pace: Pace::new(),
            last: None,
        }
    }

    /// It has taken so many bytes more by this tick. Whether that is too slow: it took nothing for as many ticks as this limit, so
    /// that it may be gone, or all that it took took more ticks than that, and one more for each `least` bytes.
    pub fn is_too_slow(&mut self, least: u64, limit: u64, now: u64, left: u64) -> bool
        ensures still { IsStill limit (last_taken self.old.last now left) now → IsTrue result }
        ensures slow { (ticks : List Heard) → Knows self.old.pace ticks → IsSlow least limit (hears ticks now left) → IsTrue result }
        ensures well { (ticks : List Heard) → Knows self.old.pace ticks → IsTrue result
            → IsStill limit (last_taken self.old.last now left) now ⊎ IsSlow least limit (hears ticks now left) }
        ensures hears { (ticks : List Heard) → Knows self.old.pace ticks → Knows self.new.pace (hears ticks now left) }
        ensures last { self.new.last ≡ Some (last_taken self.old.last now left) }
    {
        let last = match self.last {
            Some(last) if left == 0 => last,
            _ => now,
        };
        self.last = Some(last);
        self.pace.hear(now, left);
        now.saturating_sub(last) >= limit || self.pace.is_slow(least, limit)
    }
}
