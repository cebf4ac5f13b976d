//! The descriptors of a program: the numbers of its standard streams, and how many it may have.
use std::fs::{Files, OpenOptions};
use std::io::{self, Read};
use std::os::fd::AsRawFd;
use std::time::Clock;

/// The highest number of a standard stream: standard error.
const LAST: i32 = 2;

/// What is written there goes nowhere.
const NOWHERE: &str = "/dev/null";

/// Where Linux tells the limits of a program, a line each, in some 1,300 bytes (proc_pid_limits(5)).
const LIMITS: &str = "/proc/self/limits";

/// How many bytes of them are read.
const LIMITS_LENGTH: usize = 4_096;

/// What the line of descriptors begins with. The limit in force follows, and then the one that it can be raised to.
const OPEN_FILES: &str = "Max open files";

/// A system whose standard streams can be held, and which tells how many descriptors there may be: `HostRuntime` is one.
pub trait Console: Clock {
    /// What holds them.
    type Held: Drop;

    /// Opens `/dev/null` in the place of each standard stream with which the program was not started, so that no socket gets its
    /// number, and what is written to it goes nowhere.
    fn hold_standard(&self) -> io::Result<Self::Held>;

    /// How many descriptors the program may have at the same time. `None` if it has no limit, or if the system does not tell it.
    fn descriptors(&self) -> Option<u64>;
}

impl<R: Clock + Files> Console for R
where
    R::File: AsRawFd,
{
    type Held = Standard<R::File>;

    fn hold_standard(&self) -> io::Result<Standard<R::File>> {
        let Some(first) = lowest(self)? else {
            return Ok(Standard::None);
        };
        let Some(second) = lowest(self)? else {
            return Ok(Standard::One(first));
        };
        let Some(third) = lowest(self)? else {
            return Ok(Standard::Two(first, second));
        };
        Ok(Standard::Three(first, second, third))
    }

    fn descriptors(&self) -> Option<u64> {
        let mut file = OpenOptions::new().read(true).open(self, LIMITS).ok()?;
        let mut bytes = [0; LIMITS_LENGTH];
        let length = file.read(&mut bytes).ok()?;
        limit_in(str::from_utf8(bytes.get(..length)?).ok()?)
    }
}

/// The limit of descriptors in the text of `/proc/self/limits`. `None` if it is `unlimited`, or not there.
fn limit_in(text: &str) -> Option<u64> {
    let after = text.lines().find_map(|line| line.strip_prefix(OPEN_FILES))?;
    after.split_ascii_whitespace().next()?.parse::<u64>().ok()
}

/// The standard streams that a program was started without, each open on `/dev/null`, until this is dropped.
#[derive(Drop)]
pub enum Standard<F: Drop> {
    /// All were there.
    None,
    /// One was not.
    One(F),
    /// Two were not.
    Two(F, F),
    /// None was.
    Three(F, F, F),
}

/// Opens `/dev/null`, which gets the lowest number that is free. `None` if that is none of a standard stream: it is closed again.
fn lowest<R: Files>(rt: &R) -> io::Result<Option<R::File>>
where
    R::File: AsRawFd,
{
    let file = OpenOptions::new().read(true).write(true).open(rt, NOWHERE)?;
    if file.as_raw_fd() > LAST {
        return Ok(None);
    }
    Ok(Some(file))
}
