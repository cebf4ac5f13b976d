//! Where the lines go.
ghost use Rattle.std.specs.Prelude.{true, [], Some};

use crate::backlog::Kept;
use crate::line::{line_of, lost_line};
use crate::moment::{Moment, moment_by};
use crate::shared::Shared;
use log::kv::Source;
use log::span::Spans;
use log::{Line, Log, Metadata, Record};
use std::fmt::Display;
use std::sync::Wait;
use std::time::Clock;

/// Who writes the lines.
#[derive(Clone, Copy, Drop)]
pub enum Writer {
    /// A thread of its own. A line for which there is no room, or no memory, is lost, and counted.
    Thread(&'static Shared),
    /// The thread that logs the line, since there is no other.
    Caller,
}

/// Gives each line its time, and writes it to standard error, or has it written.
#[derive(Clone, Copy, Drop)]
pub struct Journal<R> {
    rt: R,
    writer: Writer,
}

impl<R> Journal<R> {
    /// Lines of this system, which are written so.
    pub fn new(rt: R, writer: Writer) -> Self {
        Journal { rt, writer }
    }
}

impl<R: Wait + Clock + Eprint + AllocGlobal> Log for Journal<R> {
    ghost enables = { λ _ _ _. Some true };

    ghost target_of = { λ _. Some [] };

    fn enabled(&self, _metadata: &Metadata<'_>) -> bool {
        true
    }

    fn log<D: Display, K: Source, S: Spans>(&self, record: &Record<'_, D, K, S>) {
        let rt = &self.rt;
        match self.writer {
            Writer::Thread(shared) => {
                let moment = moment_by(rt);
                shared.put(rt, line_of(rt.alloc(), text_of(&moment), record).ok());
            }
            Writer::Caller => write_here(rt, record),
        }
    }

    /// Waits until what was logged is written, two seconds at the most.
    fn flush(&self) {
        if let Writer::Thread(shared) = self.writer {
            shared.flush(&self.rt);
        }
    }

    fn target(&self) -> &str {
        ""
    }
}

/// The text of a moment, if there is one.
fn text_of(moment: &Option<Moment>) -> Option<&str> {
    match moment {
        Some(moment) => Some(moment.as_str()),
        None => None,
    }
}

/// Writes the line of a record, and takes no memory.
fn write_here<R: Clock + Eprint, D: Display, K: Source, S: Spans>(
    rt: &R,
    record: &Record<'_, D, K, S>,
) {
    match moment_by(rt) {
        Some(moment) => {
            let time = moment.as_str();
            let _ = rt.eprintln(format_args!("{time} {}", Line::new(record)));
        }
        None => {
            let _ = rt.eprintln(Line::new(record));
        }
    }
}

/// Writes each line that comes, and never ends.
pub fn write_all<R: Wait + Clock + Eprint + AllocGlobal>(rt: &R, shared: &Shared) {
    for _ in rt.forever() {
        write_kept(rt, shared.take(rt));
    }
}

/// Writes how many lines were lost, if any were, and then the line.
fn write_kept<R: Clock + Eprint + AllocGlobal>(rt: &R, kept: Kept) {
    if kept.lost != 0 {
        write_lost(rt, kept.lost);
    }
    if let Some(line) = &kept.line {
        write_text(rt, line);
    }
}

/// Writes how many lines were lost.
fn write_lost<R: Clock + Eprint + AllocGlobal>(rt: &R, lost: u64) {
    let moment = moment_by(rt);
    if let Ok(line) = lost_line(rt.alloc(), text_of(&moment), lost) {
        write_text(rt, &line);
    }
}

/// Writes a text.
fn write_text<R: Eprint>(rt: &R, text: &String) {
    let _ = rt.eprint(text.as_str());
}
