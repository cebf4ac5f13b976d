//! A writer that counts its failures.
ghost use Rattle.std.specs.Prelude.{◌≡◌, ◌∷◌, ◌++◌, [], ℕ, List, Option, length};
ghost use Rattle.std.specs.Io.{WritesAtMost};
ghost use Rattle.std.specs.Io.KnownBytes.{WriteAppends};
ghost use Rattle.asgi_io.specs.declared.answer.Answer.{Answer};
ghost use Rattle.asgi_io.specs.Answers.{answer_of};
ghost use Rattle.asgi_io.specs.Counting.{CountsFailures};

use crate::answer::{Answer, answer_of};
use crate::history::History;
use std::io::{self, Write};

/// A writer that counts its failures. The count stops at the greatest `u64`.
pub trait Counts {
    /// The bytes that the writer holds, if they are known.
    ghost written: { Self → Option (List ℕ) };

    /// How many calls failed.
    ghost failed: { Self → ℕ };

    /// How each call was answered, the oldest first.
    ghost answers: { Self → List Answer };

    /// What a write leaves as it is: the read side, if the writer has one.
    ghost Beside: { Type 0 };

    ghost beside: { Self → Beside };

    /// Writes some of the bytes, from the first on, and returns how many. A failure is an error,
    /// also one that passes, or that none of some bytes were taken.
    fn write_some(&mut self, bytes: &[u8]) -> io::Result<usize>
        ensures bound { WritesAtMost result bytes.now }
        ensures bytes { WriteAppends (written self.old) (written self.new) result bytes.now }
        ensures counts { CountsFailures (failed self.old) (failed self.new) bytes.now result }
        ensures told { answers self.new ≡ answers self.old ++ answer_of (length bytes.now) result ∷ [] }
        ensures beside { beside self.new ≡ beside self.old };

    /// How many writes failed.
    fn failures(&self) -> u64
        ensures { result ≡ failed self.now };
}

/// Any writer, with a count of its failures.
#[derive(Drop)]
pub struct Counted<W> {
    /// The writer that each call is passed on to.
    pub writer: W,
    failures: u64,
    answers: History<Answer>,
}

impl<W: Write> Counted<W> {
    /// No failure is counted yet.
    pub fn new(writer: W) -> Self
        ensures writer { result.writer ≡ writer }
        ensures failures { result.failures ≡ 0 }
        ensures answers { result.answers.items ≡ [] }
    {
        Counted {
            writer,
            failures: 0,
            answers: History::new(),
        }
    }
}

impl<W: Write> Counts for Counted<W> {
    ghost written = { λ s. W.contents s.writer };

    ghost failed = { λ s. s.failures };

    ghost answers = { λ s. s.answers.items };

    ghost Beside = { Unit {0} };

    ghost beside = { λ _. tt };

    fn write_some(&mut self, bytes: &[u8]) -> io::Result<usize> {
        let wrote = self.writer.write(bytes);
        let answer = answer_of(&wrote, bytes.len());
        self.answers = History::with(&self.answers, &answer);
        match answer {
            Answer::Moved(_) => {}
            _ => self.failures = self.failures.saturating_add(1),
        }
        wrote
    }

    fn failures(&self) -> u64 {
        self.failures
    }
}
