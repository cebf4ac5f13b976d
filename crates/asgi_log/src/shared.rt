//! What the threads that log share with the one that writes.

use crate::backlog::{Backlog, Kept};
use std::alloc::{AllocError, Global};
use std::sync::{Condvar, Mutex, Wait};
use std::time::{Clock, Duration};

/// The most lines that wait to be written.
const LINES: usize = 1_024;

/// The most bytes that they have.
const BYTES: usize = 1_048_576;

/// How often a flush looks whether all is written, and how long it waits each time, in milliseconds: two seconds in all.
const LOOKS: u32 = 20;

const LOOK: u64 = 100;

/// What the thread that writes does.
#[derive(Clone, Copy, Debug, PartialEq, Eq)]
enum Pen {
    /// All that it took is written.
    Rests,
    /// It writes a line.
    Writes,
}

/// What is under the lock.
#[derive(Drop)]
struct Held {
    backlog: Backlog,
    pen: Pen,
}

/// The lines that wait, and what wakes those who wait for them.
#[derive(Drop)]
pub struct Shared {
    held: Mutex<Held>,
    /// A line has come.
    comes: Condvar,
    /// All are written.
    rests: Condvar,
}

impl Shared {
    /// No line has come yet. `AllocError` if memory is refused.
    pub fn new(alloc: Global) -> Result<Shared, AllocError> {
        let backlog = Backlog::new(alloc, LINES, BYTES)?;
        Ok(Shared {
            held: Mutex::new(Held {
                backlog,
                pen: Pen::Rests,
            }),
            comes: Condvar::new(),
            rests: Condvar::new(),
        })
    }

    /// Puts a line behind the others, or counts it as lost. Waits for no line to be written.
    pub fn put<R: Wait>(&self, rt: &R, line: Option<String>) {
        let mut held = self.held.lock(rt);
        held.backlog.put(line);
        drop(held);
        self.comes.notify_one();
    }

    /// Takes the oldest line, as soon as there is one. What was taken before is written.
    pub fn take<R: Wait>(&self, rt: &R) -> Kept {
        let mut held = self.held.lock(rt);
        for _ in rt.forever() {
            if let Some(kept) = held.backlog.take() {
                held.pen = Pen::Writes;
                return kept;
            }
            held.pen = Pen::Rests;
            self.rests.notify_all();
            held = self.comes.wait(rt, held);
        }
        unreachable!()
    }

    /// Waits until all lines are written, two seconds at the most.
    pub fn flush<R: Wait + Clock>(&self, rt: &R) {
        let mut held = self.held.lock(rt);
        for _look in 0..LOOKS {
            if held.backlog.is_empty() && held.pen == Pen::Rests {
                return;
            }
            let (again, _timed_out) = self
                .rests
                .wait_timeout(rt, held, Duration::from_millis(LOOK));
            held = again;
        }
    }
}
