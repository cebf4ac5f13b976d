//! One thread hands in reports in many orders: the teller gets each as soon as all those before it are there.

use crate::desk::fakes::{Listener, has_got, told};
use std::alloc::{AllocError, AllocGlobal, Global};
use std::process::Abort;
use std::sync::Wait;
use std::sync::atomic::AtomicU64;
use std::test::Fail;

/// Orders of up to six reports.
const ORDERS: &[&[u64]] = &[
    &[],
    &[1],
    &[2, 1],
    &[1, 2, 3],
    &[3, 2, 1],
    &[2, 3, 1],
    &[5, 1, 4, 2, 3],
    &[1, 3, 5, 2, 4],
    &[6, 5, 4, 3, 2, 1],
    &[2, 1, 4, 3, 6, 5],
    &[4, 5, 6, 1, 2, 3],
    &[3, 1, 2, 6, 4, 5],
];

/// Hands in the reports of these numbers, and looks after each how many the teller got.
pub fn tells<R: Wait + Abort + AllocGlobal>(rt: &R, order: &[u64]) -> Result<(), AllocError> {
    let alloc: Global = rt.alloc();
    let heard = AtomicU64::new(0);
    let listener = Listener::new(alloc, &heard, order.len())?;
    let listener = told(rt, alloc, listener, &heard, order)?;
    assert!(rt; has_got(&listener, order.len()), "told");
    Ok(())
}

#[test]
fn each_is_told_once_those_before_it_are_there(rt: HostRuntime) -> Result<(), Fail> {
    for order in ORDERS {
        tells(&rt, order)?;
    }
    Ok(())
}

/// The order of four that begins with these three.
fn of_four(a: u64, b: u64, c: u64) -> [u64; 4] {
    let others = a.saturating_add(b).saturating_add(c);
    [a, b, c, 10u64.saturating_sub(others)]
}

/// All 24 orders of four reports.
#[test]
fn all_orders_of_four(rt: HostRuntime) -> Result<(), Fail> {
    let mut tried = 0u64;
    for a in 1..=4u64 {
        for b in 1..=4u64 {
            for c in 1..=4u64 {
                if a == b || a == c || b == c {
                    continue;
                }
                tells(&rt, &of_four(a, b, c))?;
                tried = tried.saturating_add(1);
            }
        }
    }
    assert!(rt; tried == 24);
    Ok(())
}
