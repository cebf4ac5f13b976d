//! Lines that come and are taken, in many orders: each that came was kept in its place, or is counted there.
use asgi_log::{Backlog, Kept};
use std::alloc::{AllocError, Global};
use std::test::Fail;

/// How many places and bytes there are, and what happens: a letter is a line of it, `+` takes one, `-` is one without memory. Then
/// what was taken: a number of lost ones, if there are any, and the line; all that is left is taken at the end.
const ROWS: [(usize, usize, &str, &str); 14] = [
    (2, 99, "", ""),
    (2, 99, "ab", "a b"),
    (2, 99, "abc", "a b 1"),
    (2, 99, "abcd", "a b 2"),
    (2, 99, "abc+d", "a b 1d"),
    (2, 99, "abcd+ef++g", "a b 2e 1g"),
    (2, 99, "abc+++d", "a b 1 d"),
    (1, 99, "ab+c+de", "a 1c d 1"),
    (0, 99, "ab+c", "2 1"),
    (9, 3, "abcd", "a b c 1"),
    (9, 3, "abcd+e", "a b c 1e"),
    (9, 0, "a", "1"),
    (9, 99, "a-b", "a 1b"),
    (9, 99, "--a-", "2a 1"),
];

fn shown(alloc: Global, told: &mut String, kept: &Kept) -> Result<(), AllocError> {
    if !told.is_empty() {
        told.push(' ')?;
    }
    if kept.lost != 0 {
        told.push_str(format!(in alloc; "{}", kept.lost)?.as_str())?;
    }
    if let Some(line) = &kept.line {
        told.push_str(line.as_str())?;
    }
    Ok(())
}

fn take(alloc: Global, backlog: &mut Backlog, told: &mut String) -> Result<bool, AllocError> {
    let Some(kept) = backlog.take() else {
        return Ok(false);
    };
    shown(alloc, told, &kept)?;
    Ok(true)
}

fn told_of(alloc: Global, most: usize, bytes: usize, happens: &str) -> Result<String, AllocError> {
    let mut backlog = Backlog::new(alloc, most, bytes)?;
    let mut told = String::new(alloc);
    for sign in happens.chars() {
        match sign {
            '+' => {
                take(alloc, &mut backlog, &mut told)?;
            }
            '-' => backlog.put(None),
            letter => {
                let mut line = String::new(alloc);
                line.push(letter)?;
                backlog.put(Some(line));
            }
        }
    }
    for _ in 0..99 {
        if !take(alloc, &mut backlog, &mut told)? {
            break;
        }
    }
    Ok(told)
}

#[test]
fn each_line_is_kept_or_counted_in_its_place(rt: HostRuntime) -> Result<(), Fail> {
    for (most, bytes, happens, wanted) in ROWS {
        let told = told_of(rt.alloc(), most, bytes, happens)?;
        assert_eq!(rt; told.as_str(), wanted, "{happens}");
    }
    Ok(())
}

#[test]
fn a_backlog_is_empty_once_all_is_taken(rt: HostRuntime) -> Result<(), Fail> {
    let mut backlog = Backlog::new(rt.alloc(), 0, 9)?;
    assert!(rt; backlog.is_empty());
    backlog.put(None);
    assert!(rt; !backlog.is_empty());
    assert!(rt; backlog.take().is_some());
    assert!(rt; backlog.is_empty());
    assert!(rt; backlog.take().is_none());
    Ok(())
}
