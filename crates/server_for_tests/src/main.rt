//! A server for tests: `server_for_tests PORT|ADDRESS COUNT APP [SETTING..]`.
#![tactic(auto)]

mod ends;
mod handles;
mod hears;
mod mounted;
mod mute;
mod one_thread;
mod routed;
mod several_threads;
mod silent;
mod tries;
mod words;
mod workers;
mod works;

use nomtsage::logging;
use one_thread::in_one_thread;
use several_threads::in_threads;
use std::io;
use std::process::ExitCode;
use words::{Place, usage, words_of};
use workers::by_workers;

fn main(rt: HostRuntime) -> ExitCode {
    let Some(words) = words_of(&rt) else {
        return usage(&mut io::writer(&rt));
    };
    let rt = logging(rt);
    match words.settings.place {
        Place::OneThread => in_one_thread(&rt, &words),
        Place::Threads(count) => in_threads(&rt, &words, count),
        Place::Blocking(count) => by_workers(&rt, &words, count),
    }
}
