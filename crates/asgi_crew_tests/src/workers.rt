//! There may be 1 to 8 workers.
use asgi_crew::Workers;

/// A number, and whether there may be so many workers.
const ROWS: &[(u64, bool)] = &[
    (1, true),
    (2, true),
    (7, true),
    (8, true),
    (0, false),
    (9, false),
    (10, false),
    (u64::MAX, false),
];

/// Whether so many workers are made, and say so, or are refused.
fn holds(count: u64, may_be: bool) -> bool {
    match Workers::new(count) {
        Some(workers) => may_be && workers.count() == count,
        None => !may_be,
    }
}

#[test]
fn one_to_eight(rt: HostRuntime) {
    for (count, may_be) in ROWS {
        assert!(rt; holds(*count, *may_be), "{count} workers");
    }
}
