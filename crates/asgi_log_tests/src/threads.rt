//! Lines of several threads, which another takes.
use asgi_log::Shared;
use std::alloc::AllocGlobal;
use std::sync::{Arc, Wait};
use std::test::Fail;
use std::thread;

/// How many lines each thread logs, and how many threads there are.
const LINES: u64 = 5_000;

const THREADS: u64 = 3;

/// Puts lines with numbers.
fn put_all<R: Wait + AllocGlobal>(rt: &R, shared: &Shared) {
    for number in 0..LINES {
        shared.put(rt, format!(in rt.alloc(); "{number}").ok());
    }
}

/// Takes lines until as many were taken or lost as came, and returns how many were taken.
fn take_all<R: Wait>(rt: &R, shared: &Shared) -> (u64, u64) {
    let (mut taken, mut lost) = (0u64, 0u64);
    for _ in 0..LINES * THREADS {
        if taken.saturating_add(lost) >= LINES * THREADS {
            break;
        }
        let kept = shared.take(rt);
        lost = lost.saturating_add(kept.lost);
        if kept.line.is_some() {
            taken = taken.saturating_add(1);
        }
    }
    (taken, lost)
}

#[test]
fn each_line_of_several_threads_is_taken_or_counted(rt: HostRuntime) -> Result<(), Fail> {
    let shared = Arc::new(rt.alloc(), Shared::new(rt.alloc())?)?;
    for _ in 0..THREADS {
        let theirs = Arc::try_clone(&shared)?;
        let _runs = thread::spawn(&rt, move || put_all(&rt, &theirs))?;
    }
    let (taken, lost) = take_all(&rt, &shared);
    assert_eq!(rt; taken.saturating_add(lost), LINES * THREADS);
    Ok(())
}
