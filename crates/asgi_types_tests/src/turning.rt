//! Turns and their limits.
use asgi_io::{CountingPause, Pause, Turn, Turns};
use std::test::Fail;

/// The turns, those in a row that were idle at the end, the pauses, and whether a limit was reached.
type Row = (&'static str, &'static [Turn], u64, u32, u64, bool);

/// The limits are 6 turns, and 3 idle ones in a row.
const ROWS: &[Row] = &[
    ("none", &[], 0, 0, 0, false),
    (
        "two that moved",
        &[Turn::Moved, Turn::Moved],
        2,
        0,
        0,
        false,
    ),
    (
        "idle ones after one that moved",
        &[Turn::Moved, Turn::Idle, Turn::Idle],
        3,
        2,
        2,
        false,
    ),
    (
        "one that moved ends the row",
        &[Turn::Idle, Turn::Idle, Turn::Moved, Turn::Idle],
        4,
        1,
        3,
        false,
    ),
    (
        "the last does not",
        &[Turn::Idle, Turn::Idle, Turn::Last],
        3,
        2,
        2,
        false,
    ),
    (
        "idle ones to their limit",
        &[Turn::Idle, Turn::Idle, Turn::Idle],
        3,
        3,
        3,
        true,
    ),
    (
        "turns to their limit",
        &[
            Turn::Moved,
            Turn::Moved,
            Turn::Moved,
            Turn::Moved,
            Turn::Moved,
            Turn::Moved,
        ],
        6,
        0,
        0,
        true,
    ),
];

/// The turns, those in a row that were idle, the pauses, and whether a limit was reached, if none was before the last.
fn counted(taken: &[Turn]) -> Option<(u64, u32, u64, bool)> {
    let mut pause = CountingPause::new();
    let mut turns = Turns::new(6, 3);
    for turn in taken {
        if turns.is_over() {
            return None;
        }
        turns.take(*turn, &mut pause);
    }
    Some((turns.turns, turns.idle, pause.paused(), turns.is_over()))
}

fn holds((_, taken, count, idle, paused, over): &Row) -> bool {
    counted(taken) == Some((*count, *idle, *paused, *over))
}

#[test]
fn turns_are_counted(_rt: HostRuntime) -> Result<(), Fail> {
    for row in ROWS {
        if !holds(row) {
            return Err(Fail::from(row.0));
        }
    }
    Ok(())
}
