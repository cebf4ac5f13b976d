//! What is read of a stream ahead of what is asked for.
use asgi_ahead::Ahead;
use std::alloc::{AllocGlobal, Global};
use std::io::{self, Read};
use std::test::Fail;

/// The most reads of a row.
const MOST_READS: u64 = 1_000_000;

/// A stream of so many bytes, which are 0, 1, 2 and so on, up to 255 and then again. A read gives `most` at the most.
#[derive(Drop)]
struct Numbers {
    left: usize,
    next: u8,
    most: usize,
    reads: u64,
}

impl Read for Numbers {
    fn read(&mut self, buf: &mut [u8]) -> io::Result<usize> {
        self.reads = self.reads.saturating_add(1);
        let many = buf.len().min(self.most).min(self.left);
        self.left -= many;
        for place in &mut buf[..many] {
            *place = self.next;
            self.next = self.next.wrapping_add(1);
        }
        Ok(many)
    }
}

/// The number after the last of these, if they go on with `next`.
fn after(bytes: &[u8], next: u8) -> Option<u8> {
    let mut next = next;
    for byte in bytes {
        if *byte != next {
            return None;
        }
        next = next.wrapping_add(1);
    }
    Some(next)
}

/// How many bytes come through this room, and by how many reads of the stream; `None` if they are not those of the stream.
fn through(
    alloc: Global,
    length: usize,
    most: usize,
    room: &mut [u8],
) -> io::Result<Option<(usize, u64)>> {
    let mut stream = Numbers {
        left: length,
        next: 0,
        most,
        reads: 0,
    };
    let mut ahead = Ahead::new(alloc);
    let (mut next, mut came) = (0, 0usize);
    for _read in 0..MOST_READS {
        let many = ahead.read(&mut stream, room)?;
        let Some(number) = after(&room[..many], next) else {
            return Ok(None);
        };
        if many == 0 {
            return Ok(Some((came, stream.reads)));
        }
        next = number;
        came = came.saturating_add(many);
    }
    Ok(None)
}

/// How many bytes there are, how many a read of the stream gives at the most, the room, and how often the stream is read.
type Row = (usize, usize, usize, u64);

/// A read that fills its room is followed by one of 65,536 bytes; one that does not is followed by one of the room.
const ROWS: &[Row] = &[
    (0, 100_000, 4_096, 1),
    (27, 100_000, 4_096, 2),
    (4_095, 100_000, 4_096, 2),
    (4_096, 100_000, 4_096, 2),
    (4_097, 100_000, 4_096, 3),
    (65_536, 100_000, 4_096, 3),
    (69_632, 100_000, 4_096, 3),
    (69_633, 100_000, 4_096, 4),
    (1_048_576, 100_000, 4_096, 18),
    (10_000, 1_000, 4_096, 11),
    (65_536, 4_096, 4_096, 17),
    (5, 100_000, 1, 3),
];

/// The row comes through whole, in the reads that it says.
fn is_row(alloc: Global, row: &Row) -> io::Result<bool> {
    let (length, most, room, reads) = *row;
    let mut piece = [0; 4_096];
    match piece.get_mut(..room) {
        Some(room) => Ok(through(alloc, length, most, room)? == Some((length, reads))),
        None => Ok(false),
    }
}

#[test]
fn what_is_there_takes_few_reads(rt: HostRuntime) -> Result<(), Fail> {
    for row in ROWS {
        assert!(rt;
            is_row(rt.alloc(), row)?,
            "{} bytes, {} a read",
            row.0,
            row.1
        );
    }
    Ok(())
}

#[test]
fn memory_for_what_is_read_ahead(rt: HostRuntime) -> Result<(), Fail> {
    let mut piece = [0; 4_096];
    let came = through(rt.alloc(), 70_000, 100_000, &mut piece)?;
    assert!(rt; came.is_some_and(|(came, _)| came == 70_000));
    Ok(())
}
