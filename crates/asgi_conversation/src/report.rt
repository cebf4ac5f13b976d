//! How a connection ended.
ghost use Rattle.std.specs.Prelude.{◌≡◌, ◌≤◌, ◌++◌, Some, length};
ghost use Rattle.std.specs.Fmt.{decimal};
ghost use Rattle.asgi_conversation.specs.OutcomeClasses.{is_cut};
ghost use Rattle.asgi_conversation.specs.OutcomeWords.{outcome_words};

use arrayvec::ArrayString;
use itoa::Buffer;
use std::fmt;

/// Why a connection ended: the first cause met.
#[derive(Clone, Copy, Debug, PartialEq, Eq)]
pub enum Outcome {
    /// All that was due is written.
    Finished,
    /// The text of a refusal of this status was written.
    Refused(u16),
    /// The input failed, or ended inside a request or a session, or a body was faulty when it was too
    /// late for a refusal.
    InputBroke,
    /// A write failed once this many bytes of the text in hand were out: 0 for a message or a close of a session.
    WriteFailed(usize),
    /// A limit on turns was reached.
    Idle,
    /// Memory was refused.
    NoMemory,
    /// A thread, or memory for it, was refused, and no task was begun.
    NoThread,
}

impl Outcome {
    /// The words of the outcome, as a program prints them: `write-failed 9`. They are ASCII, of at most
    /// 33 bytes. No memory is taken.
    pub fn words(self) -> ArrayString<40>
        ensures words { result.bytes ≡ outcome_words self }
        ensures short { length result.bytes ≤ 33 }
    {
        match self {
            Outcome::Finished => word("finished"),
            Outcome::Refused(status) => numbered("refused ", status as u64),
            Outcome::InputBroke => word("input-broke"),
            Outcome::WriteFailed(n) => numbered("write-failed ", n as u64),
            Outcome::Idle => word("idle"),
            Outcome::NoMemory => word("no-memory"),
            Outcome::NoThread => word("no-thread"),
        }
    }

    /// Whether a write, a limit on turns, or want of memory or of a thread cut the connection short.
    pub fn is_cut(self) -> bool
        ensures { result ≡ is_cut self }
    {
        match self {
            Outcome::Finished | Outcome::Refused(_) | Outcome::InputBroke => false,
            _ => true,
        }
    }
}

/// The text of a word.
fn word(text: &str) -> ArrayString<40>
    requires { length text.now ≤ 13 }
    ensures { result.bytes ≡ text.now }
{
    let mut words = ArrayString::new();
    words.push_str(text);
    words
}

/// A word and a number after it, in decimal.
fn numbered(text: &str, number: u64) -> ArrayString<40>
    requires { length text.now ≤ 13 }
    ensures words { result.bytes ≡ text.now ++ decimal number }
    ensures short { length result.bytes ≤ 33 }
{
    let mut digits = Buffer::new();
    let mut words = word(text);
    words.push_str(digits.format(number));
    words
}

impl fmt::Display for Outcome {
    ghost output = { λ outcome. Some (outcome_words outcome) };

    fn fmt<W: fmt::Write>(&self, f: &mut fmt::Formatter<W>) -> fmt::Result {
        f.write_str(self.words().as_str())
    }
}

/// The report on a connection.
#[derive(Clone, Copy, Debug, PartialEq, Eq)]
pub struct Report {
    /// How many requests the application was asked to answer.
    pub exchanges: u64,
    /// How many exchanges ended with a fault of the application.
    pub faults: u64,
    /// How many turns were taken.
    pub turns: u64,
    /// How many turns in a row were idle at the end.
    pub idle: u32,
    /// Why the connection ended.
    pub outcome: Outcome,
}
