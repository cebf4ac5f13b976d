//! Starts a thread for each part, and waits for all.
ghost use Rattle.std.specs.Prelude.{◌≡◌, ◌≤◌, ◌<◌, [], ◌∷◌, ◌++◌, IsTrue, IsFalse, vec_len, vec_capacity};
ghost use Rattle.asgi_threads.specs.Abreast.{Did, Each};

use crate::gate::{Gate, Worked, decide, wait_at, work_at};
use crate::works::Works;
use std::snapshot::Snapshot;
use std::sync::{OnceLock, OnceToken, Wait};
use std::thread::{self, Promise, Scope, Threads};

/// What came of several parts.
#[derive(Drop)]
pub struct Abreast<W: Drop> {
    /// The parts, in their order.
    pub parts: Vec<W>,
    /// Whether they were worked at: each of them, or none, since a thread was refused.
    pub has_worked: bool,
}

// What the thread of a part promises.
#[derive(Drop)]
struct Keeps<W: Drop, E> {
    how: Snapshot<E>,
    gate: Snapshot<Gate>,
    part: Snapshot<W>,
}

impl<'s, W: Drop, E: Works<W>> Promise<Worked<'s, W>> for Keeps<W, E> {
    ghost use Rattle.std.specs.Prelude.{◌≡◌};
    ghost use Rattle.asgi_threads.specs.Abreast.{Did};

    ghost kept_by = { λ p r. (r.seen.of ≡ p.gate.value.id) × Did (E.works p.how.value) r.seen.value p.part.value r.part };
}

/// The parts whose threads have ended, and what shows whether the gate was opened.
#[derive(Drop)]
struct Ended<'s, W: Drop> {
    parts: Vec<W>,
    seen: OnceToken<'s, bool>,
}

/// One more part whose thread has ended.
fn joined<'s, W: Drop>(so_far: Ended<'s, W>, worked: Worked<'s, W>) -> Ended<'s, W>
    requires of { so_far.seen.of ≡ worked.seen.of }
    requires room { vec_len so_far.parts < vec_capacity so_far.parts }
    ensures seen { (result.seen.of ≡ so_far.entry.seen.of) × (result.seen.value ≡ so_far.entry.seen.value) }
    ensures agrees { worked.entry.seen.value ≡ so_far.entry.seen.value }
    ensures parts { result.parts.items ≡ so_far.entry.parts.items ++ worked.entry.part ∷ [] }
    ensures room { vec_capacity result.parts ≡ vec_capacity so_far.entry.parts }
{
    let Ended { mut parts, seen } = so_far;
    let Worked { part, seen: theirs } = worked;
    seen.agrees(&theirs);
    parts.push_reserved(part);
    Ended { parts, seen }
}

/// Starts a thread for each part but the first, which is worked at in this one. If a thread is refused the gate is shut, and
/// its part, which waits there too, is handed back as it was.
fn run<'s, 'e, W: Drop + Send + 's, E: Works<W> + Sync + 's, R: Threads + Wait + Sync>(
    rt: &'s R,
    scope: &Scope<'s, &'e ()>,
    how: &'s E,
    gate: &'s Gate,
    mut parts: Vec<W>,
) -> Ended<'s, W>
    ensures of { result.seen.of ≡ gate.now.id }
    ensures did { Each (Did (E.works how.now) result.seen.value) parts.items result.parts.items }
    ensures room { (vec_len result.parts ≡ vec_len parts) × (vec_capacity parts ≤ vec_capacity result.parts) }
{
    let Some(part) = parts.pop() else {
        decide(rt, gate, true);
        return Ended {
            parts,
            seen: wait_at(rt, gate),
        };
    };
    if parts.is_empty() {
        let so_far = run(rt, scope, how, gate, parts);
        return joined(so_far, work_at(rt, how, gate, part));
    }
    let keeps = Keeps {
        how: Snapshot::of(how),
        gate: Snapshot::of(gate),
        part: Snapshot::of(&part),
    };
    match scope.spawn_with(
        keeps,
        move || -> Worked<'_, W>
            ensures of { result.seen.of ≡ gate.entry.now.id }
            ensures did { Did (E.works how.entry.now) result.seen.value part result.part }
        { work_at(rt, how, gate, part) },
    ) {
        Ok(child) => {
            let so_far = run(rt, scope, how, gate, parts);
            joined(so_far, child.join(rt))
        }
        Err(refused) => {
            decide(rt, gate, false);
            let so_far = run(rt, scope, how, gate, parts);
            let work = refused.value;
            joined(so_far, work())
        }
    }
}

/// The same in a scope: each thread has ended when this returns.
fn run_scoped<W: Drop + Send, E: Works<W> + Sync, R: Threads + Wait + Sync>(
    rt: &R,
    how: &E,
    gate: &Gate,
    parts: Vec<W>,
) -> Abreast<W>
    ensures did { Each (Did (E.works how.now) result.has_worked) parts.items result.parts.items }
{
    thread::scope(
        thread::scope_env(),
        rt,
        move |scope| -> Abreast<W>
            ensures did { Each (Did (E.works how.entry.now) result.has_worked) parts.items result.parts.items }
        {
            let Ended { parts, seen } = run(rt, scope, how, gate, parts);
            let has_worked = *gate.value(&seen);
            Abreast { parts, has_worked }
        },
    )
}

/// Works at one part, in the caller's thread.
fn work_alone<W: Drop, E: Works<W>>(how: &E, part: W, mut parts: Vec<W>) -> Abreast<W>
    requires { (vec_len parts ≡ 0) × (0 < vec_capacity parts) }
    ensures { IsTrue result.has_worked × Each (E.works how.now) (part ∷ []) result.parts.items }
{
    parts.push_reserved(how.work(part));
    Abreast {
        parts,
        has_worked: true,
    }
}

/// Works at each part at the same time: at the first in the caller's thread, at each other in a thread of its own. None is
/// begun before there is a thread for each, so if one is refused, each part is as it was. All have ended when this returns.
pub fn work_abreast<W: Drop + Send, E: Works<W> + Sync, R: Threads + Wait + Sync>(
    rt: &R,
    how: &E,
    mut parts: Vec<W>,
) -> Abreast<W>
    ensures all { IsTrue result.has_worked → Each (E.works how.now) parts.items result.parts.items }
    ensures none { IsFalse result.has_worked → result.parts.items ≡ parts.items }
    ensures one { vec_len parts ≡ 1 → IsTrue result.has_worked }
{
    if parts.len() == 1 {
        if let Some(part) = parts.pop() {
            return work_alone(how, part, parts);
        }
    }
    let gate = OnceLock::new();
    run_scoped(rt, how, &gate, parts)
}
