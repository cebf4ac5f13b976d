//! Four threads hand in reports, and one teller gets each once, in order.
ghost use Rattle.std.specs.Prelude.{◌≡◌, ◌+◌, ◌<◌, true, [], ◌++◌, length, IfOk};
ghost use Rattle.std.specs.List.Sorted.{IsPermutation};
ghost use denote.Param.Send.{IsSync};
ghost use Rattle.asgi_desk.specs.Told.{numbers_of, one_to};
ghost use Rattle.asgi_desk.specs.Hands.{seated, IsFree};
ghost use Rattle.asgi_desk.specs.Seat.{knows, IsSeatOf};

use crate::desk::fakes::{Listener, hand_in_all, has_got, is_one_to};
use asgi_desk::{Desk, Seat, Teller};
use std::alloc::{AllocError, AllocGlobal, Global};
use std::process::Abort;
use std::sync::Wait;
use std::sync::atomic::{AtomicU64, Ordering};
use std::test::Fail;
use std::thread::{Threads, join};

/// What each of the four hands in.
type Row = [[u64; 10]; 4];

const ROWS: &[Row] = &[
    [
        [1, 2, 3, 4, 5, 6, 7, 8, 9, 10],
        [11, 12, 13, 14, 15, 16, 17, 18, 19, 20],
        [21, 22, 23, 24, 25, 26, 27, 28, 29, 30],
        [31, 32, 33, 34, 35, 36, 37, 38, 39, 40],
    ],
    [
        [1, 5, 9, 13, 17, 21, 25, 29, 33, 37],
        [2, 6, 10, 14, 18, 22, 26, 30, 34, 38],
        [3, 7, 11, 15, 19, 23, 27, 31, 35, 39],
        [4, 8, 12, 16, 20, 24, 28, 32, 36, 40],
    ],
    [
        [40, 36, 32, 28, 24, 20, 16, 12, 8, 4],
        [39, 35, 31, 27, 23, 19, 15, 11, 7, 3],
        [38, 34, 30, 26, 22, 18, 14, 10, 6, 2],
        [37, 33, 29, 25, 21, 17, 13, 9, 5, 1],
    ],
];

/// Two threads hand in these.
fn by_two<T: Teller<u64> + Drop + Send, R: Threads + Wait + Sync>(
    rt: &R,
    alloc: Global,
    desk: &Desk<u64, T>,
    one: Seat<u64, T>,
    other: Seat<u64, T>,
    left: &[u64],
    right: &[u64],
) -> Result<Seat<u64, T>, AllocError>
    requires seats { IsSeatOf desk.now one × IsSeatOf desk.now other }
    requires may { (0 < (knows one).parts) × IsFree (knows one) × (0 < (knows other).parts) × IsFree (knows other) }
    ensures seat { IfOk result (λ s. IsSeatOf desk.now s) }
    ensures free { IfOk result (λ s. knows s ≡ seated ((knows one).parts + (knows other).parts) (knows one).first (knows s).put) }
    ensures numbers { IfOk result (λ s. numbers_of (knows s).put ≡ (numbers_of (knows one).put ++ left.now) ++ (numbers_of (knows other).put ++ right.now)) }
{
    let (mine, theirs) = join(
        rt,
        move || -> Result<Seat<u64, T>, AllocError>
            requires seat { IsSeatOf desk.now one }
            requires may { (0 < (knows one).parts) × IsFree (knows one) }
            ensures seat { IfOk result (λ s. IsSeatOf desk.entry.now s) }
            ensures free { IfOk result (λ s. knows s ≡ seated (knows one).parts (knows one).first (knows s).put) }
            ensures numbers { IfOk result (λ s. numbers_of (knows s).put ≡ numbers_of (knows one).put ++ left.entry.now) }
        { hand_in_all(rt, alloc, desk, one, left) },
        move || -> Result<Seat<u64, T>, AllocError>
            requires seat { IsSeatOf desk.now other }
            requires may { (0 < (knows other).parts) × IsFree (knows other) }
            ensures seat { IfOk result (λ s. IsSeatOf desk.entry.now s) }
            ensures free { IfOk result (λ s. knows s ≡ seated (knows other).parts (knows other).first (knows s).put) }
            ensures numbers { IfOk result (λ s. numbers_of (knows s).put ≡ numbers_of (knows other).put ++ right.entry.now) }
        { hand_in_all(rt, alloc, desk, other, right) },
    );
    let mut seat = mine?;
    desk.rejoin(&mut seat, theirs?);
    Ok(seat)
}

/// Four threads hand in these.
fn by_four<T: Teller<u64> + Drop + Send, R: Threads + Wait + Sync>(
    rt: &R,
    alloc: Global,
    desk: &Desk<u64, T>,
    mut seat: Seat<u64, T>,
    left: (&[u64], &[u64]),
    right: (&[u64], &[u64]),
) -> Result<Seat<u64, T>, AllocError>
    requires seat { IsSeatOf desk.now seat }
    requires fresh { knows seat ≡ seated 64 (knows seat).first [] }
    ensures seat { IfOk result (λ s. IsSeatOf desk.now s) }
    ensures whole { IfOk result (λ s. knows s ≡ seated 64 (knows seat).first (knows s).put) }
    ensures numbers { IfOk result (λ s. numbers_of (knows s).put ≡ (left.entry.0.now ++ left.entry.1.now) ++ (right.entry.0.now ++ right.entry.1.now)) }
{
    let two = desk.seat(&mut seat);
    let three = desk.seat(&mut seat);
    let four = desk.seat(&mut seat);
    let (a, b) = left;
    let (c, d) = right;
    let (mine, theirs) = join(
        rt,
        move || -> Result<Seat<u64, T>, AllocError>
            requires seats { IsSync R.row × IsSeatOf desk.now seat × IsSeatOf desk.now two }
            requires may { (0 < (knows seat).parts) × IsFree (knows seat) × (0 < (knows two).parts) × IsFree (knows two) }
            ensures seat { IfOk result (λ s. IsSeatOf desk.entry.now s) }
            ensures free { IfOk result (λ s. knows s ≡ seated ((knows seat).parts + (knows two).parts) (knows seat).first (knows s).put) }
            ensures numbers { IfOk result (λ s. numbers_of (knows s).put ≡ (numbers_of (knows seat).put ++ a.entry.now) ++ (numbers_of (knows two).put ++ b.entry.now)) }
        { by_two(rt, alloc, desk, seat, two, a, b) },
        move || -> Result<Seat<u64, T>, AllocError>
            requires seats { IsSync R.row × IsSeatOf desk.now three × IsSeatOf desk.now four }
            requires may { (0 < (knows three).parts) × IsFree (knows three) × (0 < (knows four).parts) × IsFree (knows four) }
            ensures seat { IfOk result (λ s. IsSeatOf desk.entry.now s) }
            ensures free { IfOk result (λ s. knows s ≡ seated ((knows three).parts + (knows four).parts) (knows three).first (knows s).put) }
            ensures numbers { IfOk result (λ s. numbers_of (knows s).put ≡ (numbers_of (knows three).put ++ c.entry.now) ++ (numbers_of (knows four).put ++ d.entry.now)) }
        { by_two(rt, alloc, desk, three, four, c, d) },
    );
    let mut seat = mine?;
    desk.rejoin(&mut seat, theirs?);
    Ok(seat)
}

/// Whether these, together, are the numbers 1, 2, 3 .., in some order.
fn are_one_to(
    alloc: Global,
    left: (&[u64], &[u64]),
    right: (&[u64], &[u64]),
) -> Result<bool, AllocError>
    ensures { IfOk result (λ b. b ≡ true → IsPermutation (one_to (length ((left.entry.0.now ++ left.entry.1.now) ++ (right.entry.0.now ++ right.entry.1.now)))) ((left.entry.0.now ++ left.entry.1.now) ++ (right.entry.0.now ++ right.entry.1.now))) }
{
    let mut numbers = Vec::new(alloc);
    numbers.extend_from_slice(left.0)?;
    numbers.extend_from_slice(left.1)?;
    numbers.extend_from_slice(right.0)?;
    numbers.extend_from_slice(right.1)?;
    is_one_to(alloc, &numbers)
}

/// What became of this teller: four threads handed in these reports to it.
fn told<T: Teller<u64> + Drop + Send, R: Threads + Wait + Sync + Abort>(
    rt: &R,
    alloc: Global,
    teller: T,
    left: (&[u64], &[u64]),
    right: (&[u64], &[u64]),
) -> Result<T, AllocError> {
    assert!(rt; are_one_to(alloc, left, right)?, "an order of 1, 2, 3 ..");
    let Ok((desk, seat)) = Desk::open(rt, alloc, teller) else {
        return Err(AllocError);
    };
    let seat = by_four(rt, alloc, &desk, seat, left, right)?;
    let (teller, _reports) = desk.close(rt, seat);
    Ok(teller)
}

/// Whether the listener got the forty in order, and shows so many.
fn are_told(listener: &Listener<'_>, heard: &AtomicU64) -> bool {
    has_got(listener, 40) && heard.load(Ordering::SeqCst) == 40
}

fn tells<R: Threads + Wait + Sync + Abort + AllocGlobal>(
    rt: &R,
    row: &Row,
) -> Result<(), AllocError> {
    let alloc: Global = rt.alloc();
    let heard = AtomicU64::new(0);
    let listener = Listener::new(alloc, &heard, 40)?;
    let [a, b, c, d] = row;
    let listener = told(rt, alloc, listener, (a, b), (c, d))?;
    assert!(rt; are_told(&listener, &heard), "told");
    Ok(())
}

#[test]
fn four_threads_and_one_teller(rt: HostRuntime) -> Result<(), Fail> {
    for row in ROWS {
        tells(&rt, row)?;
    }
    Ok(())
}
