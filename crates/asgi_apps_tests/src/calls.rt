//! How often an application is called for its lifespan: once, however that ends.
use crate::lives::Step::{
    Faults, HearsShutdown, HearsStartup, Returns, StartFailed, Started, StopFailed, Stopped,
};
use crate::lives::{AMPLE, Answers, Row, Scripted, Silent, Told, limits, run, solo_of};
use asgi_apps::{AppFault, Application};
use asgi_types::Scope;
use futures::task::Solo;
use std::alloc::{AllocGlobal, Global};
use std::random::RandomSource;
use std::sync::atomic::{AtomicU64, Ordering};
use std::test::Fail;

/// Counts its calls, and does what the application in it does.
#[derive(Drop)]
struct Counted<A> {
    calls: AtomicU64,
    app: A,
}

impl<A: Application> Application for Counted<A> {
    type Task = A::Task;

    fn call(&self, alloc: Global, scope: &Scope) -> Result<A::Task, AppFault> {
        self.calls.fetch_add(1, Ordering::SeqCst);
        self.app.call(alloc, scope)
    }

    fn call_owned(&self, alloc: Global, scope: Scope) -> Result<A::Task, AppFault> {
        self.calls.fetch_add(1, Ordering::SeqCst);
        self.app.call_owned(alloc, scope)
    }
}

/// How the start and the stop were answered, and how often the application was called for them.
fn called<R: RandomSource + AllocGlobal, A: Application + Drop>(
    rt: &R,
    solo: &Solo,
    (idle_turns, turns): (u32, u64),
    app: A,
) -> (Answers, u64) {
    let counted = Counted {
        calls: AtomicU64::new(0),
        app,
    };
    let answers = run(rt, solo, &limits(idle_turns, turns), &counted);
    (answers, counted.calls.load(Ordering::SeqCst))
}

/// An application that starts and stops, one whose stop fails, one that fails to start, and two that have no lifespan.
const LIVES: &[Row] = &[
    (
        &[HearsStartup, Started(7), HearsShutdown, Stopped, Returns],
        AMPLE,
        (Told::Started(7), Told::Stopped, 0),
    ),
    (
        &[HearsStartup, Started(7), HearsShutdown, StopFailed],
        AMPLE,
        (Told::Started(7), Told::NoDisk, 0),
    ),
    (
        &[HearsStartup, StartFailed],
        AMPLE,
        (Told::NoDisk, Told::Nothing, 0),
    ),
    (&[Returns], AMPLE, (Told::Unsupported, Told::Nothing, 0)),
    (&[Faults], AMPLE, (Told::Unsupported, Told::Nothing, 0)),
];

/// Whether the application is called once, and answers so.
fn is_once<R: RandomSource + AllocGlobal>(rt: &R, solo: &Solo, row: &Row) -> bool {
    called(rt, solo, row.1, Scripted(row.0)) == (row.2, 1)
}

/// The first row that does not hold, or how many there are.
fn holding<R: RandomSource + AllocGlobal>(rt: &R, solo: &Solo) -> usize {
    for (index, row) in LIVES.iter().enumerate() {
        if !is_once(rt, solo, row) {
            return index;
        }
    }
    LIVES.len()
}

fn held<R: RandomSource + AllocGlobal>(rt: &R) -> Result<usize, Fail> {
    let solo = solo_of(rt)?;
    Ok(holding(rt, &solo))
}

#[test]
fn a_life_is_one_call(rt: HostRuntime) -> Result<(), Fail> {
    let held = held(&rt)?;
    assert!(rt; held == LIVES.len(), "row {held}");
    Ok(())
}

fn called_unheard<R: RandomSource + AllocGlobal>(rt: &R) -> Result<(Answers, u64), Fail> {
    let solo = solo_of(rt)?;
    Ok(called(rt, &solo, AMPLE, Silent))
}

#[test]
fn a_life_that_is_said_unheard_is_one_call(rt: HostRuntime) -> Result<(), Fail> {
    assert!(rt; called_unheard(&rt)? == ((Told::Started(5), Told::Stopped, 0), 1));
    Ok(())
}
