//! Each number is served once, whoever serves it, and the reports come, and stand, in the order of the numbers.
ghost use Rattle.std.specs.Prelude.{◌<◌, ◌≤◌, IfOk, vec_len};

use crate::fakes::{Counter, Counting, Dawdling, Heard, Numbers};
use asgi_crew::{Asks, End, Serves, Shared, share};
use std::alloc::{AllocError, AllocGlobal, Global};
use std::process::Abort;
use std::sync::Wait;
use std::test::Fail;
use std::thread::Threads;

/// How many items, and how many workers.
const ROWS: &[(u64, u64)] = &[(0, 1), (0, 2), (1, 8), (3, 3), (17, 5), (40, 1), (300, 8)];

/// Counts all numbers as they are.
const ALL: Counting = Counting { highest: u64::MAX };

/// What came of numbers that were shared out.
type Served = Shared<(u64, u64), Counter, Heard>;

/// Workers of the names 0, 1, 2 ..
fn crew_of<R: Abort>(rt: &R, alloc: Global, workers: u64) -> Result<Vec<Counter>, AllocError>
    ensures { IfOk result (λ crew. (0 < vec_len crew) × (vec_len crew ≤ 8)) }
{
    let mut crew = Vec::new(alloc);
    for name in 0..workers {
        crew.push(Counter { name, served: 0 })?;
    }
    assert!(rt; 0 < crew.len() && crew.len() <= 8, "{workers} workers");
    Ok(crew)
}

/// How many workers there are, if their names are 0, 1, 2 .., and how many numbers all of them served.
fn served_by(crew: &[Counter]) -> Option<(u64, u64)> {
    let mut served = 0u64;
    let mut name = 0u64;
    for worker in crew {
        if worker.name != name {
            return None;
        }
        name = name.saturating_add(1);
        served = served.saturating_add(worker.served);
    }
    Some((name, served))
}

/// Whether this teller got so many, in order and matched.
fn is_told(teller: &Heard, count: u64) -> bool {
    teller.count == count && teller.is_ordered && teller.is_matched
}

/// Whether each item was served once and told in its turn, if memory was not refused.
fn are_served(shared: &Served, asked: u64, items: u64, workers: u64) -> Result<bool, AllocError> {
    match shared.end {
        End::NoMemory => Err(AllocError),
        End::NoThread => Ok(false),
        End::Given => {
            let is_asked = asked == items.saturating_add(1);
            let is_served = served_by(&shared.workers) == Some((workers, items));
            Ok(is_asked && is_served && is_told(&shared.teller, items))
        }
    }
}

/// Shares `items` numbers out among `workers` workers, and returns whether each was served once.
fn is_shared<
    R: Threads + Wait + Sync + Abort + AllocGlobal,
    E: Asks<Numbers, u64> + Serves<Counter, u64, Report = (u64, u64)> + Sync,
>(rt: &R, how: &E, items: u64, workers: u64) -> Result<bool, AllocError> {
    let alloc: Global = rt.alloc();
    let mut giver = Numbers::up_to(items);
    let crew = crew_of(rt, alloc, workers)?;
    let shared = share(rt, alloc, how, &mut giver, crew, Heard::none(u64::MAX));
    are_served(&shared, giver.asked, items, workers)
}

fn shares<
    R: Threads + Wait + Sync + Abort + AllocGlobal,
    E: Asks<Numbers, u64> + Serves<Counter, u64, Report = (u64, u64)> + Sync,
>(rt: &R, how: &E, items: u64, workers: u64) -> Result<(), Fail> {
    assert!(rt;
        is_shared(rt, how, items, workers)?,
        "{items} items by {workers}"
    );
    Ok(())
}

#[test]
fn each_item_is_served_once(rt: HostRuntime) -> Result<(), Fail> {
    for (items, workers) in ROWS {
        shares(&rt, &ALL, *items, *workers)?;
    }
    Ok(())
}

#[test]
fn a_giver_may_end_at_each_place(rt: HostRuntime) -> Result<(), Fail> {
    for items in 0..20 {
        for workers in 1..=8 {
            shares(&rt, &ALL, items, workers)?;
        }
    }
    Ok(())
}

#[test]
fn whatever_the_order_in_which_workers_get_their_turns(rt: HostRuntime) -> Result<(), Fail> {
    for seed in 0..200 {
        shares(&rt, &Dawdling { seed }, 24, seed % 8 + 1)?;
    }
    Ok(())
}

/// Shares five numbers out between two workers who report none above 3, and returns whether that is in each report.
fn is_in_each<R: Threads + Wait + Sync + Abort + AllocGlobal>(rt: &R) -> Result<bool, AllocError> {
    let alloc: Global = rt.alloc();
    let how = Counting { highest: 3 };
    let mut giver = Numbers::up_to(5);
    let crew = crew_of(rt, alloc, 2)?;
    let shared = share(rt, alloc, &how, &mut giver, crew, Heard::none(3));
    Ok(shared.end == End::Given && shared.teller.count == 5 && shared.teller.is_matched)
}

#[test]
fn what_all_workers_are_lent_is_in_each_report(rt: HostRuntime) -> Result<(), Fail> {
    assert!(rt; is_in_each(&rt)?);
    Ok(())
}

/// Whether as many were asked for, served and told as the end of five numbers between two workers has it.
fn are_kept(shared: &Served, asked: u64) -> bool {
    let wanted = match shared.end {
        End::Given => 6,
        End::NoMemory => shared.teller.count,
        End::NoThread => 0,
    };
    let served = if shared.end == End::Given { 5 } else { asked };
    let is_served = served_by(&shared.workers) == Some((2, served));
    asked == wanted && is_served && shared.teller.count == served && shared.teller.is_ordered
}

#[test]
fn memory_for_five_numbers_and_two_workers(rt: HostRuntime) {
    let alloc: Global = rt.alloc();
    let mut giver = Numbers::up_to(5);
    let Ok(crew) = crew_of(&rt, alloc, 2) else {
        return;
    };
    let shared = share(&rt, alloc, &ALL, &mut giver, crew, Heard::none(u64::MAX));
    assert!(rt; are_kept(&shared, giver.asked));
}
