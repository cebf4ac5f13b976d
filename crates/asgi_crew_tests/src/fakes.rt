//! A giver of numbers, workers that count what they served, and a teller that counts what it got.
ghost use Rattle.std.specs.Prelude.{◌≡◌, min};

use asgi_crew::{Asks, Serves, Teller};
use asgi_io::History;
use std::thread;

/// Gives the numbers from 1 to the last one, and counts how often it was asked.
#[derive(Drop)]
pub struct Numbers {
    last: u64,
    pub asked: u64,
    told: History<Option<u64>>,
}

impl Numbers {
    /// Was not asked yet.
    pub fn up_to(last: u64) -> Numbers {
        Numbers {
            last,
            asked: 0,
            told: History::new(),
        }
    }

    /// The answer to one more question.
    fn answer(&mut self) -> Option<u64>
        ensures { self.new.told ≡ self.old.told }
    {
        self.asked = self.asked.saturating_add(1);
        if self.asked > self.last {
            return None;
        }
        Some(self.asked)
    }
}

/// Counts the numbers that it was given, and reports each with its own name.
#[derive(Drop)]
pub struct Counter {
    pub name: u64,
    pub served: u64,
}

/// Asks for numbers, and has them counted, up to a highest one, which all workers borrow.
#[derive(Drop)]
pub struct Counting {
    pub highest: u64,
}

impl Asks<Numbers, u64> for Counting {
    ghost answers = { λ giver. giver.told.items };

    ghost Source = { Unit {0} };

    ghost source = { λ _. tt };

    fn ask(&self, giver: &mut Numbers) -> Option<u64> {
        let answer = giver.answer();
        giver.told = History::with(&giver.told, &answer);
        answer
    }
}

impl Serves<Counter, u64> for Counting {
    type Report = (u64, u64);

    ghost serves = { λ how was is item report. (report.0 ≡ min item how.highest) × (report.1 ≡ was.name) × (is.name ≡ was.name) };

    fn serve(&self, worker: &mut Counter, item: u64) -> (u64, u64) {
        worker.served = worker.served.saturating_add(1);
        (item.min(self.highest), worker.name)
    }
}

/// The same, but a worker lets other threads go first, as often as this seed and the number make it.
#[derive(Drop)]
pub struct Dawdling {
    pub seed: u64,
}

impl Asks<Numbers, u64> for Dawdling {
    ghost answers = { λ giver. giver.told.items };

    ghost Source = { Unit {0} };

    ghost source = { λ _. tt };

    fn ask(&self, giver: &mut Numbers) -> Option<u64> {
        let answer = giver.answer();
        giver.told = History::with(&giver.told, &answer);
        answer
    }
}

impl Serves<Counter, u64> for Dawdling {
    type Report = (u64, u64);

    ghost serves = { λ how was is item report. (report.0 ≡ item) × (report.1 ≡ was.name) × (is.name ≡ was.name) };

    fn serve(&self, worker: &mut Counter, item: u64) -> (u64, u64) {
        for _ in 0..mixed(self.seed, item) % 32 {
            thread::yield_now();
        }
        worker.served = worker.served.saturating_add(1);
        (item, worker.name)
    }
}

/// A number that looks as if it depended on neither.
fn mixed(seed: u64, item: u64) -> u64 {
    let one = item
        .wrapping_add(seed.wrapping_mul(0x9E37_79B9_7F4A_7C15))
        .wrapping_mul(0xBF58_476D_1CE4_E5B9);
    (one ^ (one >> 31)).wrapping_mul(0x94D0_49BB_1331_11EB) >> 40
}

/// Gets reports, and keeps whether each came under the next number, and is of that number or of the highest that is reported.
#[derive(Drop)]
pub struct Heard {
    pub count: u64,
    pub highest: u64,
    pub is_ordered: bool,
    pub is_matched: bool,
}

impl Heard {
    /// Got none yet; no number above `highest` is reported.
    pub fn none(highest: u64) -> Heard {
        Heard {
            count: 0,
            highest,
            is_ordered: true,
            is_matched: true,
        }
    }
}

impl Teller<(u64, u64)> for Heard {
    ghost tells = { λ was is number report. is.count ≡ number };

    fn tell(&mut self, number: u64, report: &(u64, u64)) {
        self.is_matched = self.is_matched && report.0 == number.min(self.highest);
        self.is_ordered = self.is_ordered && number > self.count && number - self.count == 1;
        self.count = number;
    }
}
