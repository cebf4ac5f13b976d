//! Whose turn it is.
use asgi_reactor::{Waiting, Wish};
use std::alloc::Global;
use std::test::Fail;

/// After how many others one that the system tells of is taken up, if so many go on by themselves and so many were told of before it.
fn turns_before(alloc: Global, going: usize, told: usize) -> usize {
    let mut waiting = Waiting::new(alloc);
    for token in 0..going {
        let _waits = waiting.push(token, Wish::Goes);
    }
    for token in 0..told {
        let _waits = waiting.push(going.saturating_add(token), Wish::Told);
    }
    let last = usize::MAX;
    if !waiting.push(last, Wish::Told) {
        return usize::MAX;
    }
    waiting.begin_round();
    for turns in 0..100_000usize {
        match waiting.next() {
            Some((token, _)) if token == last => return turns,
            Some(_) => {}
            None => return usize::MAX,
        }
    }
    usize::MAX
}

/// How many go on by themselves, how many were told of before, and after how many turns the last that was told of has its own.
const ROWS: &[(usize, usize, usize)] = &[
    (0, 0, 0),
    (1, 0, 0),
    (5_000, 0, 0),
    (5_000, 1, 2),
    (5_000, 10, 20),
    (3, 10, 13),
    (0, 10, 10),
];

#[test]
fn who_is_told_of_does_not_wait_for_all_that_go_on(rt: HostRuntime) -> Result<(), Fail> {
    for (number, row) in ROWS.iter().enumerate() {
        assert_eq!(rt;
            turns_before(rt.alloc(), row.0, row.1),
            row.2,
            "row {number}"
        );
    }
    Ok(())
}
