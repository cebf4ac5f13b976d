//! A reader that records its answers.
ghost use Rattle.std.specs.Prelude.{◌≡◌, ◌∷◌, ◌++◌, [], List, Option, length, ℕ};
ghost use Rattle.std.specs.Io.{ReadsAtMost};
ghost use Rattle.std.specs.Io.KnownBytes.{ReadConsumes};
ghost use Rattle.asgi_io.specs.declared.answer.Answer.{Answer};
ghost use Rattle.asgi_io.specs.Answers.{answer_of, failed_in};
ghost use Rattle.asgi_io.specs.Counting.{counted};

use crate::answer::{Answer, answer_of};
use crate::history::History;
use std::io::{self, Read};

/// A reader that records its answers, and counts its faults.
pub trait Reads {
    /// The bytes that are still to come, if they are known.
    ghost remaining: { Self → Option (List ℕ) };

    /// How each call was answered, the oldest first.
    ghost answers: { Self → List Answer };

    /// What a read leaves as it is: the write side, if the reader has one.
    ghost Beside: { Type 0 };

    ghost beside: { Self → Beside };

    /// Reads some bytes to the front of the buffer, and returns how many: none at the end, or if
    /// the buffer is empty.
    fn read_some(&mut self, buf: &mut [u8]) -> io::Result<usize>
        ensures bound { ReadsAtMost result buf.new }
        ensures bytes { ReadConsumes (remaining self.old) (remaining self.new) result buf.new }
        ensures told { answers self.new ≡ answers self.old ++ answer_of (length buf.new) result ∷ [] }
        ensures beside { beside self.new ≡ beside self.old };

    /// How often a read failed with a fault that does not pass. The count stops at the greatest
    /// `u64`.
    fn faults(&self) -> u64
        ensures { result ≡ counted (failed_in (answers self.now)) };
}

/// Any reader, with a count of its faults.
#[derive(Drop)]
pub struct CountedReader<R> {
    /// The reader that each call is passed on to.
    pub reader: R,
    faults: u64,
    answers: History<Answer>,
    ghost counts: { faults ≡ counted (failed_in answers.items) },
}

impl<R: Read> CountedReader<R> {
    /// No call was made yet.
    pub fn new(reader: R) -> Self
        ensures reader { result.reader ≡ reader }
        ensures answers { result.answers.items ≡ [] }
    {
        CountedReader {
            reader,
            faults: 0,
            answers: History::new(),
        }
    }
}

impl<R: Read> Reads for CountedReader<R> {
    ghost remaining = { λ s. R.remaining s.reader };

    ghost answers = { λ s. s.answers.items };

    ghost Beside = { Unit {0} };

    ghost beside = { λ _. tt };

    fn read_some(&mut self, buf: &mut [u8]) -> io::Result<usize> {
        let read = self.reader.read(buf);
        let answer = answer_of(&read, buf.len());
        self.answers = History::with(&self.answers, &answer);
        if answer == Answer::Failed {
            self.faults = self.faults.saturating_add(1);
        }
        read
    }

    fn faults(&self) -> u64 {
        self.faults
    }
}
