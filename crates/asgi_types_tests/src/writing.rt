//! Writing to a writer that fails at stated calls.

use asgi_io::{Counted, Counts, Wrote, write_out};
use std::io::{self, ErrorKind, Write};

/// Would block `blocks` times, then takes at most `most` bytes a call, and fails once it holds `room`.
#[derive(Drop)]
struct Choppy {
    held: Vec<u8>,
    blocks: u32,
    kind: ErrorKind,
    most: usize,
    room: usize,
}

impl Write for Choppy {
    fn write(&mut self, buf: &[u8]) -> io::Result<usize> {
        if self.blocks > 0 {
            self.blocks -= 1;
            return Err(self.kind.into());
        }
        if self.held.len() >= self.room {
            return Err(ErrorKind::BrokenPipe.into());
        }
        let count = buf.len().min(self.most);
        self.held.extend_from_slice(&buf[..count])?;
        Ok(count)
    }

    fn flush(&mut self) -> io::Result<()> {
        Ok(())
    }
}

/// Would block `blocks` times before each byte that it takes.
#[derive(Drop)]
struct Slow {
    held: Vec<u8>,
    blocks: u32,
    waited: u32,
}

impl Write for Slow {
    fn write(&mut self, buf: &[u8]) -> io::Result<usize> {
        if self.waited < self.blocks {
            self.waited += 1;
            return Err(ErrorKind::WouldBlock.into());
        }
        self.waited = 0;
        let count = buf.len().min(1);
        self.held.extend_from_slice(&buf[..count])?;
        Ok(count)
    }

    fn flush(&mut self) -> io::Result<()> {
        Ok(())
    }
}

type Row = (
    &'static str,
    u32,
    ErrorKind,
    usize,
    usize,
    Wrote,
    &'static str,
    u64,
);

const ROWS: &[Row] = &[
    (
        "at once",
        0,
        ErrorKind::WouldBlock,
        9,
        9,
        Wrote::Done,
        "abc",
        0,
    ),
    (
        "byte by byte",
        0,
        ErrorKind::WouldBlock,
        1,
        9,
        Wrote::Done,
        "abc",
        0,
    ),
    (
        "1,000 that would block",
        1_000,
        ErrorKind::WouldBlock,
        9,
        9,
        Wrote::Done,
        "abc",
        1_000,
    ),
    (
        "1,001 that would block",
        1_001,
        ErrorKind::WouldBlock,
        9,
        9,
        Wrote::Failed(0),
        "",
        1_001,
    ),
    (
        "1,000 interrupted",
        1_000,
        ErrorKind::Interrupted,
        2,
        9,
        Wrote::Done,
        "abc",
        1_000,
    ),
    (
        "1,001 interrupted",
        1_001,
        ErrorKind::Interrupted,
        2,
        9,
        Wrote::Failed(0),
        "",
        1_001,
    ),
    (
        "another fault is no pause",
        1,
        ErrorKind::TimedOut,
        9,
        9,
        Wrote::Failed(0),
        "",
        1,
    ),
    (
        "a fault after two bytes",
        0,
        ErrorKind::WouldBlock,
        1,
        2,
        Wrote::Failed(2),
        "ab",
        1,
    ),
    (
        "nothing is taken",
        0,
        ErrorKind::WouldBlock,
        0,
        9,
        Wrote::Failed(0),
        "",
        1,
    ),
];

/// Whether `abc` is written with this outcome, so that the writer holds this and has counted this many failures.
fn is_tried(mut writer: Counted<Choppy>, wrote: Wrote, held: &str, failures: u64) -> bool {
    write_out(&mut writer, b"abc") == wrote
        && writer.writer.held.as_slice() == held.as_bytes()
        && writer.failures() == failures
}

#[test]
fn writes_are_tried_again(rt: HostRuntime) {
    for (name, blocks, kind, most, room, wrote, held, failures) in ROWS {
        let writer = Counted::new(Choppy {
            held: Vec::new(rt.alloc()),
            blocks: *blocks,
            kind: *kind,
            most: *most,
            room: *room,
        });
        assert!(rt; is_tried(writer, *wrote, held, *failures), "{name}");
    }
}

/// The same of a writer that would block before each byte.
fn is_tried_at_each(mut writer: Counted<Slow>, wrote: Wrote, held: &str, failures: u64) -> bool {
    write_out(&mut writer, b"abc") == wrote
        && writer.writer.held.as_slice() == held.as_bytes()
        && writer.failures() == failures
}

/// How often each byte would block, the outcome, what is held then, and the failures counted.
const CASES: &[(u32, Wrote, &str, u64)] = &[
    (1_000, Wrote::Done, "abc", 3_000),
    (1_001, Wrote::Failed(0), "", 1_001),
];

#[test]
fn each_write_is_tried_1000_times_again(rt: HostRuntime) {
    for (blocks, wrote, held, failures) in CASES {
        let writer = Counted::new(Slow {
            held: Vec::new(rt.alloc()),
            blocks: *blocks,
            waited: 0,
        });
        assert!(rt;
            is_tried_at_each(writer, *wrote, held, *failures),
            "{blocks}"
        );
    }
}

/// What comes of an empty text, and how many failures are counted.
fn of_nothing(mut writer: Counted<Choppy>) -> (Wrote, u64) {
    (write_out(&mut writer, b""), writer.failures())
}

#[test]
fn an_empty_text_is_written_without_a_call(rt: HostRuntime) {
    let writer = Counted::new(Choppy {
        held: Vec::new(rt.alloc()),
        blocks: 1,
        kind: ErrorKind::BrokenPipe,
        most: 1,
        room: 1,
    });
    assert!(rt; of_nothing(writer) == (Wrote::Done, 0));
}
