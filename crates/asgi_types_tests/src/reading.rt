//! Reading from a reader that answers as in a row.
ghost use Rattle.std.specs.Prelude.{◌≤◌, length};

use asgi_io::{Answer, CountedReader, Reads, Turn, answer_of, is_passing};
use std::io::{self, ErrorKind, Read};
use std::test::Fail;

/// What one call does: gives at most this many bytes, or fails with this error.
#[derive(Clone, Copy)]
enum Step {
    Give(usize),
    Fail(ErrorKind),
}

/// Gives bytes step by step.
#[derive(Drop)]
struct Script<'a> {
    bytes: &'a [u8],
    steps: &'a [Step],
}

impl Read for Script<'_> {
    fn read(&mut self, buf: &mut [u8]) -> io::Result<usize> {
        let Some((step, steps)) = self.steps.split_first() else {
            return Ok(0);
        };
        self.steps = steps;
        match *step {
            Step::Give(most) => Ok(give(&mut self.bytes, most, buf)),
            Step::Fail(kind) => Err(kind.into()),
        }
    }
}

/// Moves at most `most` bytes into the buffer, and returns how many.
fn give(bytes: &mut &[u8], most: usize, buf: &mut [u8]) -> usize
    ensures { result ≤ length buf.new }
{
    let n = most.min(bytes.len()).min(buf.len());
    let (now, rest) = bytes.split_at(n);
    buf[..n].copy_from_slice(now);
    *bytes = rest;
    n
}

const BLOCK: Step = Step::Fail(ErrorKind::WouldBlock);

const RESET: Step = Step::Fail(ErrorKind::ConnectionReset);

type Row = (&'static str, &'static [Step], &'static [Answer], u64);

const ROWS: &[Row] = &[
    ("the end", &[], &[Answer::Nothing], 0),
    (
        "two pieces",
        &[Step::Give(3), Step::Give(9)],
        &[Answer::Moved(3), Answer::Moved(4), Answer::Nothing],
        0,
    ),
    (
        "pauses",
        &[BLOCK, Step::Fail(ErrorKind::Interrupted), Step::Give(4)],
        &[Answer::Paused, Answer::Paused, Answer::Moved(4)],
        0,
    ),
    (
        "a fault after a piece",
        &[Step::Give(1), RESET],
        &[Answer::Moved(1), Answer::Failed],
        1,
    ),
    (
        "a time that is out is no pause",
        &[Step::Fail(ErrorKind::TimedOut), RESET],
        &[Answer::Failed, Answer::Failed],
        2,
    ),
];

/// Whether each read is answered so, and this many faults are counted.
fn holds((_, steps, answers, faults): &Row) -> bool {
    let mut reader = CountedReader::new(Script {
        bytes: b"abcdefg",
        steps,
    });
    let mut buf = [0; 4];
    for answer in *answers {
        if (answer_of(&reader.read_some(&mut buf), 4), 4) != (*answer, 4) {
            return false;
        }
    }
    reader.faults() == *faults
}

#[test]
fn each_call_is_handed_on_and_counted(_rt: HostRuntime) -> Result<(), Fail> {
    for row in ROWS {
        if !holds(row) {
            return Err(Fail::from(row.0));
        }
    }
    Ok(())
}

#[test]
fn bytes_come_as_they_are(rt: HostRuntime) {
    let mut reader = CountedReader::new(b"abc".as_slice());
    let mut buf = [0; 4];
    let answer = answer_of(&reader.read_some(&mut buf), 4);
    let left = reader.reader.len();
    assert!(rt; (answer, buf, left) == (Answer::Moved(3), [b'a', b'b', b'c', 0], 0));
}

/// A fault, and whether it passes.
const FAULTS: &[(ErrorKind, bool)] = &[
    (ErrorKind::Interrupted, true),
    (ErrorKind::WouldBlock, true),
    (ErrorKind::TimedOut, false),
    (ErrorKind::BrokenPipe, false),
    (ErrorKind::UnexpectedEof, false),
    (ErrorKind::OutOfMemory, false),
];

fn passes(kind: ErrorKind) -> bool {
    let e: io::Error = kind.into();
    is_passing(&e)
}

#[test]
fn only_two_faults_pass(rt: HostRuntime) {
    for (row, (kind, wanted)) in FAULTS.iter().enumerate() {
        assert!(rt; passes(*kind) == *wanted, "row {row}");
    }
}

/// An answer, and the turn that it makes.
const TURNS: &[(Answer, Turn)] = &[
    (Answer::Moved(1), Turn::Moved),
    (Answer::Paused, Turn::Idle),
    (Answer::Nothing, Turn::Last),
    (Answer::Failed, Turn::Last),
];

#[test]
fn a_turn_is_that_of_its_call(rt: HostRuntime) {
    for (row, (answer, turn)) in TURNS.iter().enumerate() {
        assert!(rt; (answer.turn(), row) == (*turn, row), "row {row}");
    }
    assert!(rt; answer_of(&Ok(0), 0) == Answer::Moved(0));
}
