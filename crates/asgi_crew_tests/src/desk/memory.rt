//! Memory refused to a desk. `tests/memory.py` runs this with each allocation refused in turn; with ample memory none is
//! refused.

use crate::desk::orders::tells;
use std::test::Fail;

/// Only one allocation is refused, so of two tries one succeeds.
#[test]
fn memory_for_three_reports(rt: HostRuntime) -> Result<(), Fail> {
    let order = [2, 3, 1];
    if tells(&rt, &order).is_ok() {
        return Ok(());
    }
    tells(&rt, &order)?;
    Ok(())
}
