//! One application under two prefixes, and the limits of a server.
use crate::words::Settings;
use nomtsage::{Chars, Limits, MountError, Mounts, RootPath};
use std::alloc::{AllocError, Global};

/// `RootPath` under `/a` and under `/a/b`.
pub fn mounts(alloc: Global) -> Result<Mounts<RootPath>, MountError> {
    let mut mounts = Mounts::new(alloc);
    mounts.mount(chars(alloc, "/a")?, RootPath)?;
    mounts.mount(chars(alloc, "/a/b")?, RootPath)?;
    Ok(mounts)
}

fn chars(alloc: Global, text: &str) -> Result<Chars, AllocError> {
    Ok(Chars::new(String::from_str(alloc, text)?))
}

/// The usual limits, but for those that are set; the usual ones where those are none.
pub fn limits_of(settings: &Settings) -> Limits {
    let (body, idle) = (settings.body, settings.idle);
    match Limits::new(16_384, 64, body, 16_384, 16, idle, 1 << 40) {
        Ok(limits) => limits,
        Err(_) => Limits::usual(),
    }
}
