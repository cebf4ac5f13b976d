//! When the client of a silent session is asked, and when its session is told to end.
use asgi_reactor::{Farewell, Notice, Silence};
use std::test::Fail;

/// After how many silent ticks a client is asked, and how many it has to answer; of how many ticks the row is, with something heard
/// in each so many, if in any; and in which tick it is asked first, and its session told to end.
type Row = (&'static str, u32, u32, u32, u32, u32, u32);

const NEVER: u32 = u32::MAX;

const ROWS: &[Row] = &[
    ("nothing is heard", 20, 20, 1_000, NEVER, 20, 40),
    ("39 ticks are too few", 20, 20, 39, NEVER, 20, NEVER),
    (
        "something is heard in each tick",
        20,
        20,
        1_000,
        1,
        NEVER,
        NEVER,
    ),
    ("in each twentieth", 20, 20, 1_000, 20, NEVER, NEVER),
    ("in each twenty-first", 20, 20, 1_000, 21, 20, NEVER),
    ("in each fortieth", 20, 20, 1_000, 40, 20, NEVER),
    ("in each forty-first", 20, 20, 1_000, 41, 20, 40),
    ("nobody is asked", 0, 20, 1_000, NEVER, NEVER, NEVER),
    (
        "there is no time for an answer",
        20,
        0,
        1_000,
        NEVER,
        NEVER,
        20,
    ),
    (
        "the numbers are as large as can be",
        NEVER,
        NEVER,
        1_000,
        NEVER,
        NEVER,
        NEVER,
    ),
    (
        "an answer has all the time",
        1,
        NEVER,
        1_000,
        NEVER,
        1,
        NEVER,
    ),
];

/// In which tick the client of a row is asked first, and its session told to end.
fn due_in(row: &Row) -> (u32, u32) {
    let (_, ping, pong, ticks, each, _, _) = *row;
    let mut silence = Silence::new();
    let (mut asked, mut ended) = (NEVER, NEVER);
    for tick in 0..ticks.saturating_add(1) {
        if tick > 0 {
            silence.tick();
        }
        if tick % each.max(1) == 0 {
            silence.end();
        }
        match silence.due(ping, pong) {
            Notice::Nothing => {}
            Notice::Ping => asked = asked.min(tick),
            Notice::Close(Farewell::NoAnswer) => ended = ended.min(tick),
            Notice::Close(Farewell::GoingAway) => return (0, 0),
        }
    }
    (asked, ended)
}

#[test]
fn a_silent_client_is_asked_and_then_given_up(_rt: HostRuntime) -> Result<(), Fail> {
    for row in ROWS {
        if due_in(row) != (row.5, row.6) {
            return Err(Fail::from(row.0));
        }
    }
    Ok(())
}
