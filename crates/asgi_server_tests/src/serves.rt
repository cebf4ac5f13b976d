//! Two connections, by one worker and by two.
use crate::queue::{End, is_begun, is_served};
use asgi_apps::Hello;
use asgi_conn::Outcome;
use asgi_fakes::texts::{BAD_REQUEST, GET, HELLO, TWO_REQUESTS};
use asgi_types::State;
use std::test::Fail;

/// What two connections read, what is written to them, and how they end.
type Row = ([&'static [u8]; 2], [&'static [u8]; 2], [End; 2]);

const ROWS: &[Row] = &[
    (
        [GET, GET],
        [HELLO, HELLO],
        [(Outcome::Finished, 1), (Outcome::Finished, 1)],
    ),
    (
        [b"GET / HTTP/1.1\r\n\r\n", GET],
        [BAD_REQUEST, HELLO],
        [(Outcome::Refused(400), 0), (Outcome::Finished, 1)],
    ),
    (
        [b"GE", b""],
        [b"", b""],
        [(Outcome::InputBroke, 0), (Outcome::Finished, 0)],
    ),
];

#[test]
fn each_connection_has_its_answer_and_its_report(rt: HostRuntime) -> Result<(), Fail> {
    let state = State::new(rt.alloc());
    for (row, (inputs, outputs, ends)) in ROWS.iter().enumerate() {
        let held = is_served(&rt, &Hello, &state, *inputs, *outputs, ends)?;
        assert!(rt; held, "row {row}");
    }
    Ok(())
}

#[test]
fn requests_that_are_sent_ahead_are_answered_in_order(rt: HostRuntime) -> Result<(), Fail> {
    let state = State::new(rt.alloc());
    let ends = [(Outcome::Finished, 1), (Outcome::Finished, 2)];
    let pipelined = [GET, TWO_REQUESTS];
    let mut both = Vec::from_slice(rt.alloc(), HELLO)?;
    both.extend_from_slice(HELLO)?;
    let held = is_served(&rt, &Hello, &state, pipelined, [HELLO, &both], &ends)?;
    assert!(rt; held);
    Ok(())
}

#[test]
fn memory_of_two_connections(rt: HostRuntime) {
    let state = State::new(rt.alloc());
    assert!(rt; is_begun(&rt, &Hello, &state, GET, HELLO, 1));
}

#[test]
fn memory_of_two_workers(rt: HostRuntime) {
    let state = State::new(rt.alloc());
    assert!(rt; is_begun(&rt, &Hello, &state, GET, HELLO, 2));
}
