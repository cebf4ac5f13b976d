//! How much is held for all clients together.
use asgi_reactor::Budget;
use std::test::Fail;

/// How many bytes may be held, for how many bytes more or fewer are held step by step, before and now, and after which steps as many are
/// held as may be.
type Row = (&'static str, u64, &'static [(u64, u64)], &'static [bool]);

const ROWS: &[Row] = &[
    ("nothing is held", 1, &[(0, 0)], &[false]),
    ("as many as may be", 10, &[(0, 10)], &[true]),
    ("one byte fewer", 10, &[(0, 9)], &[false]),
    ("for two clients", 10, &[(0, 5), (0, 5)], &[false, true]),
    (
        "one has taken some",
        10,
        &[(0, 5), (0, 5), (5, 4), (4, 5)],
        &[false, true, false, true],
    ),
    (
        "one has gone",
        10,
        &[(0, 8), (0, 8), (8, 0), (8, 0)],
        &[false, true, false, false],
    ),
    ("none may be held", 0, &[(0, 0)], &[true]),
    (
        "more than there are numbers",
        u64::MAX,
        &[(0, u64::MAX), (0, 1)],
        &[true, true],
    ),
];

fn holds(row: &Row) -> bool {
    let (_, most, changes, spent) = *row;
    let mut budget = Budget::new(most);
    for ((was, now), is_spent) in changes.iter().zip(spent.iter()) {
        budget.change(*was, *now);
        if budget.is_spent() != *is_spent {
            return false;
        }
    }
    changes.len() == spent.len()
}

#[test]
fn what_is_held_for_all_is_the_sum(_rt: HostRuntime) -> Result<(), Fail> {
    for row in ROWS {
        if !holds(row) {
            return Err(Fail::from(row.0));
        }
    }
    Ok(())
}
