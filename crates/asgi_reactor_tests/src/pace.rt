//! Who sends too slowly, and who takes too slowly what it is sent.
use asgi_reactor::{Sender, Taker};
use std::test::Fail;

/// What comes at each so many ticks: so many bytes, so many times, after which so many exchanges have ended; and in which tick
/// its sender is too slow, which may take 60 ticks and one more for each 500 bytes.
type Row = (&'static str, u64, u64, u64, u64, u64);

const NEVER: u64 = u64::MAX;

/// For so many ticks each is looked at.
const LAST: u64 = 40_000;

const ROWS: &[Row] = &[
    ("a byte in each tick", 1, 1, 1, 0, 61),
    ("63 bytes in each tick", 1, 63, 1, 0, 69),
    ("63 bytes in each tick, one by one", 1, 1, 63, 0, 69),
    ("250 bytes in each tick, by two", 1, 125, 2, 0, 121),
    ("500 bytes in each second tick", 2, 500, 1, 0, 124),
    ("499 bytes in each tick", 1, 499, 1, 0, 30_500),
    ("500 bytes in each tick", 1, 500, 1, 0, NEVER),
    ("500 bytes in each tick, one by one", 1, 1, 500, 0, NEVER),
    ("a byte in each third tick", 3, 1, 1, 0, 63),
    ("a byte after each 70 ticks", 70, 1, 1, 0, 490),
    ("500 bytes after each 70 ticks", 70, 500, 1, 0, 490),
    ("5,000 bytes after each 70 ticks", 70, 5_000, 1, 0, NEVER),
    ("nothing", 1, 0, 1, 0, NEVER),
    ("a request of 27 bytes in each tick", 1, 27, 1, 1, NEVER),
    (
        "a request of 27 bytes after each 70 ticks",
        70,
        27,
        1,
        1,
        NEVER,
    ),
];

/// In which tick the sender of such bytes is too slow.
fn too_slow_in(row: &Row) -> u64 {
    let (_, each, came, times, exchanges, _) = *row;
    let mut sender = Sender::new();
    let mut ended = 0u64;
    for tick in 0..LAST {
        if tick % each.max(1) == 0 {
            for _time in 0..times {
                if sender.is_too_slow(500, 60, tick, came, ended) {
                    return tick;
                }
            }
            ended = ended.saturating_add(exchanges);
        }
    }
    NEVER
}

#[test]
fn slow_senders_are_told_from_silent_ones(_rt: HostRuntime) -> Result<(), Fail> {
    for row in ROWS {
        if too_slow_in(row) != row.5 {
            return Err(Fail::from(row.0));
        }
    }
    Ok(())
}

/// What is taken of what waits: so many bytes at once in the first tick, and so many in each so many ticks; and in which tick its
/// client is too slow, which may take nothing for 30 ticks, and in all 30 ticks and one more for each 500 bytes.
type Taken = (&'static str, u64, u64, u64, u64);

const TAKEN: &[Taken] = &[
    ("nothing", 0, 0, 1, 30),
    ("a byte in each tick", 0, 1, 1, 31),
    ("a byte in each 29 ticks", 0, 1, 29, 31),
    ("a byte in each 30 ticks", 0, 1, 30, 31),
    ("a byte in each 31 ticks", 0, 1, 31, 30),
    ("250 bytes in each tick", 0, 250, 1, 62),
    ("500 bytes in each tick", 0, 500, 1, NEVER),
    ("15,000 bytes at once, and then nothing", 15_000, 0, 1, 30),
    (
        "15,000 bytes at once, and then a byte in each tick",
        15_000,
        1,
        1,
        61,
    ),
    ("65,536 bytes in each 30 ticks", 0, 65_536, 30, NEVER),
    ("65,536 bytes in each 31 ticks", 0, 65_536, 31, 30),
];

/// In which tick the client that takes so much is too slow. It is asked in each.
fn taken_too_slowly_in(row: &Taken) -> u64 {
    let (_, first, many, each, _) = *row;
    let mut taker = Taker::new();
    let mut more = first;
    for tick in 0..LAST {
        let took = if tick % each.max(1) == 0 { many } else { 0 };
        if taker.is_too_slow(500, 30, tick, took.saturating_add(more)) {
            return tick;
        }
        more = 0;
    }
    NEVER
}

#[test]
fn who_takes_too_slowly_is_told_from_who_takes_enough(_rt: HostRuntime) -> Result<(), Fail> {
    for row in TAKEN {
        if taken_too_slowly_in(row) != row.4 {
            return Err(Fail::from(row.0));
        }
    }
    Ok(())
}
