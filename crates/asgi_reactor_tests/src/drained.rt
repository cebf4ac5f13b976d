//! What is read of a client after its answer, and for how long.
use asgi_reactor::{Left, Linger, Lingering, drain};
use std::io::{self, ErrorKind, Read};
use std::test::Fail;

/// What comes behind the bytes of a stream.
#[derive(Clone, Copy, Debug)]
enum Then {
    Ends,
    Waits,
    Fails,
}

/// Has so many bytes, of which a read gets so many at the most.
#[derive(Drop)]
struct Brook {
    has: usize,
    most: usize,
    then: Then,
}

impl Read for Brook {
    fn read(&mut self, buf: &mut [u8]) -> io::Result<usize> {
        if self.has == 0 {
            return match self.then {
                Then::Ends => Ok(0),
                Then::Waits => Err(io::Error::from(ErrorKind::WouldBlock)),
                Then::Fails => Err(io::Error::from(ErrorKind::ConnectionReset)),
            };
        }
        let many = self.has.min(self.most).min(buf.len());
        self.has -= many;
        Ok(many)
    }
}

/// How many bytes a stream has, how many a read gets, and what comes behind them; how many are dropped, and what is left to be
/// done. In one go some 64 KiB are read.
type Row = (usize, usize, Then, usize, Left);

const ROWS: &[Row] = &[
    (0, 4_096, Then::Ends, 0, Left::Nothing),
    (0, 4_096, Then::Waits, 0, Left::Later),
    (0, 4_096, Then::Fails, 0, Left::Nothing),
    (5_000, 4_096, Then::Ends, 5_000, Left::Nothing),
    (5_000, 4_096, Then::Waits, 5_000, Left::Later),
    (5_000, 4_096, Then::Fails, 5_000, Left::Nothing),
    (65_535, 4_096, Then::Waits, 65_535, Left::Later),
    (65_536, 4_096, Then::Waits, 65_536, Left::More),
    (65_536, 4_096, Then::Ends, 65_536, Left::More),
    (100_000, 4_096, Then::Ends, 65_536, Left::More),
    (100_000, 1_000, Then::Ends, 66_000, Left::More),
    (200, 1, Then::Waits, 200, Left::Later),
];

fn is_row(row: &Row) -> bool {
    let (has, most, then, count, left) = *row;
    let mut brook = Brook { has, most, then };
    let drained = drain(&mut brook);
    drained.count == count && drained.left == left && brook.has == has.saturating_sub(count)
}

#[test]
fn a_go_ends_with_what_is_there_or_by_its_count(rt: HostRuntime) -> Result<(), Fail> {
    for (number, row) in ROWS.iter().enumerate() {
        assert!(rt; is_row(row), "row {number}");
    }
    Ok(())
}

/// How many bytes come in each so many ticks, and after how many ticks the client is read no more: 30 in all, 5 of silence, 1,000
/// bytes.
type Long = (&'static str, u64, u64, u64);

const LONG: &[Long] = &[
    ("nothing", 1, 0, 5),
    ("a byte in each tick", 1, 1, 30),
    ("a byte in each fifth tick", 5, 1, 30),
    ("a byte in each sixth tick", 6, 1, 5),
    ("100 bytes in each tick", 1, 100, 9),
    ("1,000 bytes in each tick", 1, 1_000, 0),
];

const LIMITS: Linger = Linger {
    ticks: 30,
    silent: 5,
    bytes: 1_000,
};

/// After how many ticks the client is read no more.
fn left_after(row: &Long) -> u64 {
    let (_, each, came, _) = *row;
    let mut lingering = Lingering::new(LIMITS);
    for tick in 0..100u64 {
        if tick % each.max(1) == 0 {
            lingering.hear(came);
        }
        if lingering.is_over() {
            return tick;
        }
        lingering.tick();
    }
    100
}

#[test]
fn who_sends_on_is_left_in_the_end(_rt: HostRuntime) -> Result<(), Fail> {
    for row in LONG {
        if left_after(row) != row.3 {
            return Err(Fail::from(row.0));
        }
    }
    Ok(())
}
