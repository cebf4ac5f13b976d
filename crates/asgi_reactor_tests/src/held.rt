//! Writes over a writer that takes a few bytes at a time.
use asgi_reactor::{Held, Took};
use std::alloc::{AllocError, AllocGlobal, Global};
use std::io::{self, ErrorKind, Write};
use std::test::Fail;

/// Takes so many bytes, then has no room for one call, and so on; or fails at each call.
#[derive(Drop)]
struct Narrow {
    written: Vec<u8>,
    most: usize,
    is_full: bool,
    fails: bool,
    is_short: bool,
}

/// The error of a send for which memory is short: ENOBUFS.
const SHORT: i32 = 105;

impl Narrow {
    fn new(alloc: Global, most: usize) -> Result<Self, AllocError> {
        Ok(Narrow {
            written: Vec::with_capacity(alloc, 65_536)?,
            most,
            is_full: false,
            fails: false,
            is_short: false,
        })
    }
}

impl Write for Narrow {
    fn write(&mut self, buf: &[u8]) -> io::Result<usize> {
        if self.fails {
            return Err(io::Error::from(ErrorKind::BrokenPipe));
        }
        if self.is_short {
            return Err(io::Error::from_raw_os_error(SHORT));
        }
        if self.is_full {
            self.is_full = false;
            return Err(io::Error::from(ErrorKind::WouldBlock));
        }
        let many = self.most.min(buf.len());
        self.written.extend_from_slice(&buf[..many])?;
        self.is_full = many < buf.len();
        Ok(many)
    }

    fn flush(&mut self) -> io::Result<()> {
        Ok(())
    }
}

/// Whether all of a write was taken.
fn is_all(took: &Took) -> bool {
    matches!(took, Took::All)
}

/// How many bytes each write has, how many writes there are, how many bytes the writer takes at a time, and how many
/// pushes it takes until nothing waits.
type Row = (usize, usize, usize, usize);

/// A write takes one call of the writer, and a push one. Every second call of one that did not take all finds no room.
const ROWS: &[Row] = &[
    (0, 1, 1, 0),
    (1, 1, 1, 0),
    (2, 1, 1, 2),
    (3, 1, 1, 4),
    (10, 1, 10, 0),
    (10, 1, 9, 2),
    (10, 1, 100, 0),
    (1_000, 1, 100, 18),
];

/// The bytes of the writes are 0, 1, 2 .. 250, and so on.
fn bytes_from(alloc: Global, first: usize, many: usize) -> Result<Vec<u8>, AllocError> {
    let mut bytes = Vec::with_capacity(alloc, many)?;
    for at in 0..many {
        bytes.push((first.wrapping_add(at) % 251) as u8)?;
    }
    Ok(bytes)
}

/// How many pushes it takes until nothing waits, and what has come out.
fn through(alloc: Global, row: &Row) -> io::Result<(usize, Vec<u8>)> {
    let (size, writes, most, _) = *row;
    let mut stream = Narrow::new(alloc, most)?;
    let mut held = Held::new(alloc);
    for at in 0..writes {
        let bytes = bytes_from(alloc, at.wrapping_mul(size), size)?;
        if !is_all(&held.write(&mut stream, &bytes)?) {
            return Err(io::Error::from(ErrorKind::WriteZero));
        }
    }
    let mut pushes = 0usize;
    for _push in 0..10_000u32 {
        if held.is_empty() {
            break;
        }
        pushes = pushes.saturating_add(1);
        let _pushed = held.push(&mut stream);
    }
    let Narrow { written, .. } = stream;
    Ok((pushes, written))
}

fn is_row(alloc: Global, row: &Row) -> io::Result<bool> {
    let (pushes, written) = through(alloc, row)?;
    let wanted = bytes_from(alloc, 0, row.0.saturating_mul(row.1))?;
    Ok(pushes == row.3 && written == wanted)
}

#[test]
fn bytes_leave_in_order_and_once(rt: HostRuntime) -> Result<(), Fail> {
    for (number, row) in ROWS.iter().enumerate() {
        assert!(rt; is_row(rt.alloc(), row)?, "row {number}");
    }
    Ok(())
}

/// Whether a write behind bytes that wait is whole, and comes out behind them.
fn waits_behind(alloc: Global) -> io::Result<bool> {
    let mut stream = Narrow::new(alloc, 4)?;
    let mut held = Held::new(alloc);
    let first = is_all(&held.write(&mut stream, b"abcdef")?);
    let second = is_all(&held.write(&mut stream, b"ghi")?);
    for _push in 0..9u32 {
        let _pushed = held.push(&mut stream);
    }
    Ok(first && second && held.is_empty() && stream.written.as_slice() == b"abcdefghi".as_slice())
}

#[test]
fn bytes_wait_behind_those_before(rt: HostRuntime) -> Result<(), Fail> {
    assert!(rt; waits_behind(rt.alloc())?);
    Ok(())
}

/// Whether what waits stays as the stream fails, and comes out once it does not.
fn stays(alloc: Global) -> io::Result<bool> {
    let mut stream = Narrow::new(alloc, 4)?;
    let mut held = Held::new(alloc);
    let first = is_all(&held.write(&mut stream, b"abcdef")?);
    stream.is_full = false;
    stream.fails = true;
    let failed = held.write(&mut stream, b"g").is_err() && held.push(&mut stream).is_err();
    stream.fails = false;
    let pushed = held.push(&mut stream)?;
    Ok(first && failed && pushed && stream.written.as_slice() == b"abcdef".as_slice())
}

#[test]
fn bytes_stay_as_the_stream_fails(rt: HostRuntime) -> Result<(), Fail> {
    assert!(rt; stays(rt.alloc())?);
    Ok(())
}

/// Whether what is written while memory is short waits, and comes out once it is not.
fn waits_for_memory(alloc: Global) -> io::Result<bool> {
    let mut stream = Narrow::new(alloc, 4)?;
    let mut held = Held::new(alloc);
    stream.is_short = true;
    let first = is_all(&held.write(&mut stream, b"abc")?);
    let second = is_all(&held.write(&mut stream, b"d")?);
    let waits = stream.written.is_empty() && held.len() == 4;
    stream.is_short = false;
    let pushed = held.push(&mut stream)?;
    Ok(first && second && waits && pushed && stream.written.as_slice() == b"abcd".as_slice())
}

#[test]
fn bytes_wait_while_buffers_are_short(rt: HostRuntime) -> Result<(), Fail> {
    assert!(rt; waits_for_memory(rt.alloc())?);
    Ok(())
}

/// Whether few bytes wait for a push, which writes them at once, and what comes with many leaves at once behind them.
fn are_joined(alloc: Global) -> io::Result<bool> {
    let mut stream = Narrow::new(alloc, 131_072)?;
    let mut held = Held::new(alloc);
    let first = is_all(&held.join(&mut stream, b"abc")?);
    let second = is_all(&held.join(&mut stream, b"def")?);
    let waited = first && second && held.len() == 6 && stream.written.is_empty();
    let pushed = held.push(&mut stream)? && stream.written.as_slice() == b"abcdef".as_slice();
    let many = bytes_from(alloc, 0, 69_632)?;
    let one = is_all(&held.join(&mut stream, b"g")?);
    let all = one && is_all(&held.join(&mut stream, &many)?);
    Ok(waited && pushed && all && held.is_empty() && stream.written.len() == 69_639)
}

#[test]
fn few_bytes_leave_together(rt: HostRuntime) -> Result<(), Fail> {
    assert!(rt; are_joined(rt.alloc())?);
    Ok(())
}

/// Whether bytes leave at once if there is no memory for them to wait.
fn leave_or_wait(alloc: Global) -> io::Result<bool> {
    let mut stream = Narrow::new(alloc, 65_536)?;
    let mut held = Held::new(alloc);
    let took = is_all(&held.join(&mut stream, b"abc")?);
    Ok(took && held.len().saturating_add(stream.written.len()) == 3)
}

#[test]
fn memory_for_what_is_joined(rt: HostRuntime) -> Result<(), Fail> {
    let holds = match leave_or_wait(rt.alloc()) {
        Ok(holds) => holds,
        Err(_) => leave_or_wait(rt.alloc())?,
    };
    assert!(rt; holds);
    Ok(())
}

/// How many of six bytes a write has taken.
fn many_of_six(took: &Took) -> usize {
    match took {
        Took::All => 6,
        Took::Part(many, _) => (*many).min(6),
    }
}

/// Whether as many bytes come out as the write says that it took: all, or the four that the stream takes at a time.
fn is_exact(alloc: Global) -> io::Result<bool> {
    let mut stream = Narrow::new(alloc, 4)?;
    let mut held = Held::new(alloc);
    let took = many_of_six(&held.write(&mut stream, b"abcdef")?);
    for _push in 0..9u32 {
        let _pushed = held.push(&mut stream);
    }
    Ok((took == 6 || took == 4) && stream.written.as_slice() == &b"abcdef"[..took])
}

/// Only one allocation is refused, so of two runs one has all that it needs.
#[test]
fn memory_for_what_is_held(rt: HostRuntime) -> Result<(), Fail> {
    let holds = match is_exact(rt.alloc()) {
        Ok(holds) => holds,
        Err(_) => is_exact(rt.alloc())?,
    };
    assert!(rt; holds);
    Ok(())
}
