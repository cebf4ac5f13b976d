//! `Life` in each of its forms: what it sends from the start to the stop, and for a state.
use crate::rows::Offered::{Close, Connect, Disconnect, Last, Shutdown, Startup};
use crate::rows::{Asked, CLOSED, Held, Row, SILENCE, USUAL, check, check_memory, run};
use asgi_apps::Life;
use asgi_types::Kind;
use std::alloc::AllocGlobal;
use std::random::RandomSource;
use std::test::Fail;

const FROM_START_TO_STOP: Row = (
    Kind::Lifespan,
    &[Startup, Shutdown],
    "started n=7|stopped|returned",
);

const NUMBERLESS: Row = (
    Kind::Http,
    SILENCE,
    "start 200 content-type=text/plain|last n=?\n|returned",
);

const WORKS: &[Row] = &[
    FROM_START_TO_STOP,
    (Kind::Lifespan, &[Startup], "started n=7|idle"),
    (Kind::Lifespan, SILENCE, "idle"),
    // A shutdown before the startup is passed over, and each is answered once.
    (Kind::Lifespan, &[Shutdown, Startup], "started n=7|idle"),
    (
        Kind::Lifespan,
        &[Startup, Startup, Shutdown, Shutdown],
        "started n=7|stopped|returned",
    ),
    // A lifespan scope has no other events: one is passed over, and nothing is sent after a disconnect.
    (
        Kind::Lifespan,
        &[Last("abc"), Startup, Connect, Shutdown],
        "started n=7|stopped|returned",
    ),
    (Kind::Lifespan, &[Disconnect, Startup], "idle"),
    (
        Kind::Lifespan,
        &[Startup, Close(1000), Shutdown],
        "started n=7|idle",
    ),
    CLOSED,
    NUMBERLESS,
];

const START_FAILS: Row = (
    Kind::Lifespan,
    &[Startup, Shutdown],
    "start failed no table|returned",
);

const NO_START: &[Row] = &[
    START_FAILS,
    (Kind::Lifespan, &[Startup], "start failed no table|returned"),
    (Kind::Lifespan, &[Shutdown], "idle"),
];

const STOP_FAILS: Row = (
    Kind::Lifespan,
    &[Startup, Shutdown],
    "started n=7|stop failed still busy|returned",
);

const NO_STOP: &[Row] = &[STOP_FAILS, (Kind::Lifespan, &[Startup], "started n=7|idle")];

#[test]
fn life_answers_the_start_and_the_stop(rt: HostRuntime) -> Result<(), Fail> {
    check(&rt, Life::Works, WORKS)?;
    check(&rt, Life::NoStart, NO_START)?;
    check(&rt, Life::NoStop, NO_STOP)
}

const SEVEN: Row = (
    Kind::Http,
    SILENCE,
    "start 200 content-type=text/plain|last n=7\n|returned",
);

/// What a state holds under `n`, and what is sent for it.
const STATES: &[(Held, Row)] = &[
    (Held::Number(7), SEVEN),
    (Held::Nothing, NUMBERLESS),
    (Held::Number(8), NUMBERLESS),
    (Held::Text("7"), NUMBERLESS),
];

/// Whether for this state is sent what the row holds.
fn is_said<R: RandomSource + AllocGlobal>(rt: &R, (held, row): &(Held, Row)) -> bool {
    let asked = Asked {
        held: *held,
        ..USUAL
    };
    run(rt, Life::NoStart, asked, *row).unwrap_or(false)
}

#[test]
fn life_says_the_number_of_the_state(rt: HostRuntime) {
    for (number, state) in STATES.iter().enumerate() {
        assert!(rt; is_said(&rt, state), "state {number}");
    }
}

/// What is sent with all memory there, by each form of `Life`.
const WORKED: &[Row] = &[FROM_START_TO_STOP, CLOSED, NUMBERLESS];

const NOT_STARTED: &[Row] = &[START_FAILS];

const NOT_STOPPED: &[Row] = &[STOP_FAILS];

#[test]
fn memory_for_life(rt: HostRuntime) -> Result<(), Fail> {
    check_memory(&rt, Life::Works, WORKED)?;
    check_memory(&rt, Life::NoStart, NOT_STARTED)?;
    check_memory(&rt, Life::NoStop, NOT_STOPPED)
}
