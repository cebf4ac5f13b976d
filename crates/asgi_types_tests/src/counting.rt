//! Failures of a writer, counted.
use asgi_io::{Answer, Counted, Counts, answer_of};
use std::io::{self, ErrorKind, Write};

/// Answers each write that way.
#[derive(Drop)]
struct Always {
    kind: Option<ErrorKind>,
    most: usize,
}

impl Write for Always {
    fn write(&mut self, buf: &[u8]) -> io::Result<usize> {
        match self.kind {
            Some(kind) => Err(kind.into()),
            None => Ok(self.most.min(buf.len())),
        }
    }

    fn flush(&mut self) -> io::Result<()> {
        Ok(())
    }
}

/// What is written, the fault of each write, the most bytes that one takes, its answer, and the failures of two.
type Row = (&'static [u8], Option<ErrorKind>, usize, Answer, u64);

const ROWS: &[Row] = &[
    (b"abc", None, 9, Answer::Moved(3), 0),
    (b"abc", None, 2, Answer::Moved(2), 0),
    (b"abc", None, 0, Answer::Nothing, 2),
    (b"", None, 0, Answer::Moved(0), 0),
    (b"abc", Some(ErrorKind::WouldBlock), 0, Answer::Paused, 2),
    (b"abc", Some(ErrorKind::BrokenPipe), 0, Answer::Failed, 2),
];

/// The answer to a write.
fn answer(writer: &mut Counted<Always>, bytes: &[u8]) -> Answer {
    answer_of(&writer.write_some(bytes), bytes.len())
}

/// Whether two writes are answered so, and this many failures are counted.
fn holds((bytes, kind, most, wanted, failures): &Row) -> bool {
    let mut writer = Counted::new(Always {
        kind: *kind,
        most: *most,
    });
    let answers = [answer(&mut writer, bytes), answer(&mut writer, bytes)];
    (answers, writer.failures()) == ([*wanted, *wanted], *failures)
}

#[test]
fn each_failure_is_counted(rt: HostRuntime) {
    for (number, row) in ROWS.iter().enumerate() {
        assert!(rt; holds(row), "row {number}");
    }
}
