//! A teller that keeps what it gets, and a desk with it.
ghost use Rattle.std.specs.Prelude.{◌≡◌, ◌+◌, ◌<◌, [], ◌∷◌, ◌++◌, true, IfOk, IfSome, length};
ghost use Rattle.std.specs.List.Sorted.{IsPermutation};
ghost use Rattle.asgi_desk.specs.Told.{numbers_of, one_to};
ghost use Rattle.asgi_desk.specs.Hands.{seated, IsFree};
ghost use Rattle.asgi_desk.specs.Seat.{knows, IsSeatOf};

use asgi_desk::{Desk, Place, Seat, Teller};
use std::alloc::{AllocError, Global};
use std::process::Abort;
use std::sync::Wait;
use std::sync::atomic::{AtomicU64, Ordering};

/// Keeps what it gets, and shows how many reports it got.
#[derive(Drop)]
pub struct Listener<'a> {
    heard: &'a AtomicU64,
    pub numbers: Vec<(u64, u64)>,
}

impl<'a> Listener<'a> {
    /// Has got nothing yet, and has room for `most` reports.
    pub fn new(
        alloc: Global,
        heard: &'a AtomicU64,
        most: usize,
    ) -> Result<Listener<'a>, AllocError> {
        let numbers = Vec::with_capacity(alloc, most)?;
        Ok(Listener { heard, numbers })
    }
}

impl<'a> Teller<u64> for Listener<'a> {
    ghost tells = { λ was is number report. Unit {0} };

    fn tell(&mut self, number: u64, report: &u64) {
        // There is room.
        let _room = self.numbers.push((number, *report));
        self.heard.fetch_add(1, Ordering::SeqCst);
    }
}

/// The report of a number.
pub fn report_of(number: u64) -> u64 {
    number.saturating_mul(10)
}

/// Hands in the report of this number.
pub fn hand_in<T: Teller<u64> + Drop, R: Wait>(
    rt: &R,
    alloc: Global,
    desk: &Desk<u64, T>,
    seat: &mut Seat<u64, T>,
    number: u64,
) -> Result<(), AllocError>
    requires seat { IsSeatOf desk.now seat.old }
    requires may { (0 < (knows seat.old).parts) × IsFree (knows seat.old) }
    ensures seat { IsSeatOf desk.now seat.new }
    ensures free { IfOk result (λ _. knows seat.new ≡ seated (knows seat.old).parts (knows seat.old).first (knows seat.new).put) }
    ensures numbers { IfOk result (λ _. numbers_of (knows seat.new).put ≡ numbers_of (knows seat.old).put ++ number ∷ []) }
{
    let place = Place::new(alloc)?;
    desk.hand_in(rt, seat, number, report_of(number), place);
    Ok(())
}

/// Hands in the reports of these numbers, one after another.
pub fn hand_in_all<T: Teller<u64> + Drop, R: Wait>(
    rt: &R,
    alloc: Global,
    desk: &Desk<u64, T>,
    mut seat: Seat<u64, T>,
    numbers: &[u64],
) -> Result<Seat<u64, T>, AllocError>
    requires seat { IsSeatOf desk.now seat }
    requires may { (0 < (knows seat).parts) × IsFree (knows seat) }
    ensures seat { IfOk result (λ s. IsSeatOf desk.now s) }
    ensures free { IfOk result (λ s. knows s ≡ seated (knows seat).parts (knows seat).first (knows s).put) }
    ensures numbers { IfOk result (λ s. numbers_of (knows s).put ≡ numbers_of (knows seat).put ++ numbers.now) }
{
    for index in 0..numbers.len() {
        hand_in(rt, alloc, desk, &mut seat, numbers[index])?;
    }
    Ok(seat)
}

/// Whether as many are told as are there without a gap, of these that were handed in.
fn is_told(heard: &AtomicU64, numbers: &[u64]) -> bool {
    heard.load(Ordering::SeqCst) == run_of(numbers)
}

/// What became of this teller: one thread handed in the reports of these numbers to it, and looked after each how many it
/// got.
pub fn told<T: Teller<u64> + Drop, R: Wait + Abort>(
    rt: &R,
    alloc: Global,
    teller: T,
    heard: &AtomicU64,
    order: &[u64],
) -> Result<T, AllocError> {
    assert!(rt; is_one_to(alloc, order)?, "an order of 1, 2, 3 ..");
    let Ok((desk, mut seat)) = Desk::open(rt, alloc, teller) else {
        return Err(AllocError);
    };
    for index in 0..order.len() {
        hand_in(rt, alloc, &desk, &mut seat, order[index])?;
        assert!(rt; is_told(heard, &order[..index + 1]), "told after {index}");
    }
    let (teller, _reports) = desk.close(rt, seat);
    Ok(teller)
}

/// Whether these are the numbers 1, 2, 3 .., in some order.
pub fn is_one_to(alloc: Global, numbers: &[u64]) -> Result<bool, AllocError>
    ensures { IfOk result (λ b. b ≡ true → IsPermutation (one_to (length numbers.now)) numbers.now) }
{
    let mut sorted = Vec::from_slice(alloc, numbers)?;
    sorted.sort_unstable();
    for (index, number) in sorted.iter().enumerate() {
        if *number != index as u64 + 1 {
            return Ok(false);
        }
    }
    Ok(true)
}

/// How many of the numbers 1, 2, 3 .. are there without a gap.
pub fn run_of(numbers: &[u64]) -> u64 {
    let mut run = 0u64;
    for _ in 0..numbers.len() {
        if !numbers.contains(&run.saturating_add(1)) {
            return run;
        }
        run = run.saturating_add(1);
    }
    run
}

/// Whether this listener got as many, of 1, 2, 3 .., in this order.
pub fn has_got(listener: &Listener<'_>, count: usize) -> bool {
    is_in_order(&listener.numbers) && listener.numbers.len() == count
}

/// Whether these are the reports of 1, 2, 3 .., in this order.
fn is_in_order(reports: &[(u64, u64)]) -> bool {
    let mut next = 0u64;
    for (number, report) in reports {
        next = next.saturating_add(1);
        if *number != next || *report != report_of(next) {
            return false;
        }
    }
    true
}
