//! What each thread waits at until all have been started, and one part.
ghost use Rattle.std.specs.Prelude.{◌≡◌};
ghost use Rattle.asgi_threads.specs.Abreast.{Did};

use crate::works::Works;
use std::sync::{OnceLock, OnceToken, Wait};

/// Is opened once there is a thread for each part, or shut as one is refused.
pub(crate) type Gate = OnceLock<bool>;

/// A part as its thread left it, and what shows whether the gate was opened.
#[derive(Drop)]
pub(crate) struct Worked<'s, W: Drop> {
    pub(crate) part: W,
    pub(crate) seen: OnceToken<'s, bool>,
}

/// Opens or shuts the gate, unless that was done before.
pub(crate) fn decide<R: Wait>(rt: &R, gate: &Gate, may: bool) {
    let _known = gate.set(rt, may);
}

/// Waits until the gate has been opened or shut.
pub(crate) fn wait_at<'s, R: Wait>(rt: &R, gate: &'s Gate) -> OnceToken<'s, bool>
    ensures { result.of ≡ gate.now.id }
{
    for _ in rt.forever() {
        if let Some(seen) = gate.witness() {
            return seen;
        }
        let _may = gate.wait(rt);
    }
    unreachable!()
}

/// Waits at the gate, and works at the part if it is opened.
pub(crate) fn work_at<'s, W: Drop, E: Works<W>, R: Wait>(
    rt: &R,
    how: &E,
    gate: &'s Gate,
    part: W,
) -> Worked<'s, W>
    ensures of { result.seen.of ≡ gate.now.id }
    ensures did { Did (E.works how.now) result.seen.value part result.part }
{
    let seen = wait_at(rt, gate);
    if !*gate.value(&seen) {
        return Worked { part, seen };
    }
    Worked {
        part: how.work(part),
        seen,
    }
}
