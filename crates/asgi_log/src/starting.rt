//! A runtime whose log nobody waits for.
ghost use Rattle.std.specs.Prelude.{◌≡◌};
ghost use Rattle.log.specs.Handle.{handle_inner, max_level};

use crate::journal::{Journal, Writer, write_all};
use crate::shared::Shared;
use log::{LevelFilter, Logged, warn};
use std::alloc::AllocGlobal;
use std::env;
use std::rt::Env;
use std::sync::Wait;
use std::thread::{self, Threads};
use std::time::Clock;

/// The variable of the environment that names the level.
const VARIABLE: &str = "RUST_LOG";

/// What a log of its own thread needs of the system: `HostRuntime` has it.
pub trait LogHost: Wait + Threads + Clock + Env + Eprint + AllocGlobal + Copy + Send + 'static {}

impl<R: Wait + Threads + Clock + Env + Eprint + AllocGlobal + Copy + Send + 'static> LogHost
    for R {}

/// A runtime whose log is written by a thread of its own. It is copied, and handed on, as the runtime itself.
pub type Logging<R> = Logged<R, Journal<R>>;

/// This runtime, with a log of the level that `RUST_LOG` names: `off`, `error`, `warn`, `info`, `debug` or `trace`. If it is not
/// set the level is `info`; if it names none, that is so too, and the first line says it.
///
/// Each line has its time, is handed to a thread of the log, and is written by that one. Up to 1,024 lines wait, of 1 MiB in all. A
/// line for which there is no room is lost, and so is one for which memory is refused; how many were lost stands in a line of its
/// own, in their place. If the thread is refused, a line says so, and each line is written by the thread that logs it.
pub fn logging<R: LogHost>(rt: R) -> Logging<R>
    ensures { handle_inner result ≡ rt }
{
    let Ok(word) = env::var(&rt, VARIABLE) else {
        return logging_at(rt, LevelFilter::Info);
    };
    match word.as_str().parse::<LevelFilter>() {
        Ok(level) => logging_at(rt, level),
        Err(_) => {
            let logging = logging_at(rt, LevelFilter::Info);
            warn!(logging; "{VARIABLE}: {word:?} is none of off, error, warn, info, debug, trace: the level is info");
            logging
        }
    }
}

/// The same at this level, whatever `RUST_LOG` says.
pub fn logging_at<R: LogHost>(rt: R, level: LevelFilter) -> Logging<R>
    ensures runtime { handle_inner result ≡ rt }
    ensures level { max_level result ≡ level }
{
    if let Some(shared) = started(rt) {
        return Logged::new(rt, level, Journal::new(rt, Writer::Thread(shared)));
    }
    let logging = Logged::new(rt, level, Journal::new(rt, Writer::Caller));
    warn!(logging; "no thread for the log: each line is written by the thread that logs it");
    logging
}

/// Starts the thread that writes. `None` if it is refused, or memory is.
fn started<R: LogHost>(rt: R) -> Option<&'static Shared> {
    let shared = Shared::new(rt.alloc()).ok()?;
    let shared: &'static Shared = Box::leak(Box::new(rt.alloc(), shared).ok()?);
    match thread::spawn(&rt, move || write_all(&rt, shared)) {
        Ok(_runs) => Some(shared),
        Err(_) => None,
    }
}
