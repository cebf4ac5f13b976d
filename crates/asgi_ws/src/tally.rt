//! The results of the reads and writes of text, and how often a call failed.
ghost use Rattle.std.specs.Prelude.{◌≡◌, ◌∷◌, [], ◌++◌, length, true};
ghost use Rattle.asgi_io.specs.Answers.{answer_of, failed_in};
ghost use Rattle.asgi_io.specs.Counting.{counted, CountsFailures};
ghost use Rattle.asgi_ws.specs.Sessions.{count_after};

use asgi_io::{Answer, History, answer_of};
use std::io;

/// The results, and the counts of faults and of failures.
#[derive(Drop)]
pub struct Tally {
    /// Reads of text that failed with an error that is not transient.
    pub faults: u64,
    /// The result of each read of text, the oldest first.
    pub reads: History<Answer>,
    /// Writes of text, and reads and sends of messages, that failed.
    pub failures: u64,
    /// The result of each write of text, the oldest first.
    pub writes: History<Answer>,
    ghost counts: { faults ≡ counted (failed_in reads.items) },
}

impl Tally {
    /// No call was made yet.
    pub fn new() -> Self
        ensures { (result.reads.items ≡ []) × (result.failures ≡ 0) × (result.writes.items ≡ []) }
    {
        Tally {
            faults: 0,
            reads: History::new(),
            failures: 0,
            writes: History::new(),
        }
    }

    /// Records the result of a read of text into `room` bytes, and counts a fault.
    pub fn note_read(&mut self, read: &io::Result<usize>, room: usize)
        ensures told { self.new.reads.items ≡ self.old.reads.items ++ answer_of room read.now ∷ [] }
        ensures same { (self.new.failures ≡ self.old.failures) × (self.new.writes ≡ self.old.writes) }
    {
        let answer = answer_of(read, room);
        self.reads = History::with(&self.reads, &answer);
        if answer == Answer::Failed {
            self.faults = self.faults.saturating_add(1);
        }
    }

    /// Records the result of a write of these bytes. A failure is counted, also a transient one,
    /// and also if none of some bytes were taken.
    pub fn note_write(&mut self, wrote: &io::Result<usize>, bytes: &[u8])
        ensures told { self.new.writes.items ≡ self.old.writes.items ++ answer_of (length bytes.now) wrote.now ∷ [] }
        ensures counts { CountsFailures self.old.failures self.new.failures bytes.now wrote.now }
        ensures same { (self.new.faults ≡ self.old.faults) × (self.new.reads ≡ self.old.reads) }
    {
        let answer = answer_of(wrote, bytes.len());
        self.writes = History::with(&self.writes, &answer);
        match answer {
            Answer::Moved(_) => {}
            _ => self.note_failure(),
        }
    }

    /// Counts a failed call.
    pub fn note_failure(&mut self)
        ensures counts { self.new.failures ≡ count_after self.old.failures true }
        ensures same { (self.new.faults ≡ self.old.faults) × (self.new.reads ≡ self.old.reads) × (self.new.writes ≡ self.old.writes) }
    {
        self.failures = self.failures.saturating_add(1);
    }
}
