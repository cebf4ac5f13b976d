//! A teller that only borrows what it writes to.

use crate::desk::fakes::told;
use asgi_desk::Teller;
use std::alloc::Global;
use std::sync::atomic::{AtomicU64, Ordering};
use std::test::Fail;

/// Writes each number that it gets to what it borrows, and shows how many it got.
#[derive(Drop)]
struct Clerk<'a> {
    heard: &'a AtomicU64,
    lines: &'a mut Vec<u64>,
}

impl<'a> Teller<u64> for Clerk<'a> {
    ghost tells = { λ was is number report. Unit {0} };

    fn tell(&mut self, number: u64, report: &u64) {
        // There is room.
        let _room = self.lines.push(number);
        self.heard.fetch_add(1, Ordering::SeqCst);
    }
}

fn are_in_order(lines: &[u64]) -> bool {
    lines == [1, 2, 3].as_slice()
}

#[test]
fn a_teller_may_borrow_what_it_writes_to(rt: HostRuntime) -> Result<(), Fail> {
    let alloc: Global = rt.alloc();
    let heard = AtomicU64::new(0);
    let mut lines = Vec::with_capacity(alloc, 3)?;
    let clerk = Clerk {
        heard: &heard,
        lines: &mut lines,
    };
    let clerk = told(&rt, alloc, clerk, &heard, &[3, 1, 2])?;
    drop(clerk);
    assert!(rt; are_in_order(&lines));
    Ok(())
}
