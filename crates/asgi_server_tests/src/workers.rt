//! Many connections, by many workers at the same time.
use crate::queue::{End, is_reported, serve_feed};
use asgi_apps::{AppFault, AppTask, Application, Hello};
use asgi_conn::{Host, Outcome, Report};
use asgi_fakes::texts::{GET, HELLO, SERVER_ERROR};
use asgi_fakes::{Said, Scripted, ScriptedTask, Step};
use asgi_pipes::AppEnd;
use asgi_types::{BadLimit, Limits, Scope, State};
use futures::task::{Context, Poll};
use std::alloc::{AllocError, Global};
use std::sync::Arc;
use std::sync::atomic::{AtomicU64, Ordering};
use std::test::Fail;

/// What `Hello` sends.
const GREETS: Scripted = Scripted(&[
    Step::Says(Said::Start(200, &[("content-type", "text/plain")])),
    Step::Says(Said::Last("hello\n")),
]);

const FAULTS: Scripted = Scripted(&[Step::Faults]);

/// The path whose requests fault, and a request for it.
const FATAL: &str = "/f";

const GET_FATAL: &[u8] = b"GET /f HTTP/1.1\r\nHost: a\r\n\r\n";

fn is_fatal(scope: &Scope) -> bool {
    match scope {
        Scope::Http(scope) => scope.path.as_str() == FATAL,
        _ => false,
    }
}

/// Responds as `Hello`; a task for the fatal path faults at once.
#[derive(Clone, Copy, Debug)]
struct Faulty;

impl Application for Faulty {
    type Task = ScriptedTask;

    fn call(&self, alloc: Global, scope: &Scope) -> Result<ScriptedTask, AppFault> {
        if is_fatal(scope) {
            return FAULTS.call(alloc, scope);
        }
        GREETS.call(alloc, scope)
    }
}

/// Responds as `Hello` once this many tasks have been polled. A call for the fatal path faults, and is not counted.
#[derive(Drop)]
struct Gathers {
    need: u64,
    polled: Arc<AtomicU64, Global>,
}

#[derive(Drop)]
struct GathersTask {
    need: u64,
    polled: Arc<AtomicU64, Global>,
    is_counted: bool,
    greets: ScriptedTask,
}

impl Application for Gathers {
    type Task = GathersTask;

    fn call(&self, alloc: Global, scope: &Scope) -> Result<GathersTask, AppFault> {
        if is_fatal(scope) {
            return Err(AppFault::Failed);
        }
        Ok(GathersTask {
            need: self.need,
            polled: Arc::try_clone(&self.polled)?,
            is_counted: false,
            greets: GREETS.call(alloc, scope)?,
        })
    }
}

impl AppTask for GathersTask {
    fn poll<E: AppEnd>(&mut self, cx: &mut Context<'_>, end: &mut E) -> Poll<Result<(), AppFault>> {
        if !self.is_counted {
            self.is_counted = true;
            self.polled.fetch_add(1, Ordering::SeqCst);
        }
        if self.polled.load(Ordering::SeqCst) < self.need {
            return cx.yield_now();
        }
        self.greets.poll(cx, end)
    }

    ghost keeps = { λ _ _ _ _ _. tt };
}

/// This many empty texts.
fn texts_of(alloc: Global, count: usize) -> Result<Vec<Vec<u8>>, AllocError> {
    let mut texts = Vec::new(alloc);
    for _ in 0..count {
        texts.push(Vec::new(alloc))?;
    }
    Ok(texts)
}

/// Whether each report is of one finished exchange, `count` of them, numbered from 1.
fn are_finished(reports: &[(u64, Report)], count: usize) -> bool {
    let mut next = 0_u64;
    for (number, report) in reports {
        next = next.saturating_add(1);
        if *number != next || report.exchanges != 1 || report.outcome != Outcome::Finished {
            return false;
        }
    }
    reports.len() == count
}

/// How many connections there are, and how many workers.
const ROWS: [(usize, u64); 8] = [
    (0, 1),
    (0, 8),
    (1, 8),
    (2, 1),
    (8, 8),
    (17, 5),
    (20, 3),
    (40, 2),
];

/// Whether each of `count` connections gets its response and its report, by this many workers.
fn are_served<H: Host + Sync>(rt: &H, count: usize, workers: u64) -> Result<bool, Fail> {
    let state = State::new(rt.alloc());
    let limits = Limits::usual();
    let mut texts = texts_of(rt.alloc(), count)?;
    let reports = serve_feed(rt, &Hello, &state, &[GET], &mut texts, &limits, workers)?;
    let answered = texts.iter().all(|text| text.as_slice() == HELLO);
    Ok(are_finished(&reports, count) && answered)
}

#[test]
fn each_connection_is_served_once_by_so_many_workers(rt: HostRuntime) -> Result<(), Fail> {
    for (count, workers) in ROWS {
        assert!(rt; are_served(&rt, count, workers)?, "{count} by {workers}");
    }
    Ok(())
}

#[test]
fn a_listener_that_ends_at_each_place_loses_no_connection(rt: HostRuntime) -> Result<(), Fail> {
    for count in 0..20 {
        for workers in 1..9 {
            assert!(rt; are_served(&rt, count, workers)?, "{count} by {workers}");
        }
    }
    Ok(())
}

/// Limits that give an exchange up after this many idle turns.
fn patient(idle_turns: u32) -> Result<Limits, BadLimit> {
    Limits::new(16_384, 64, 1 << 20, 16_384, 16, idle_turns, 1 << 40)
}

/// `count` connections at a gate that opens once as many tasks have been polled: how they end.
fn gathered<H: Host + Sync>(
    rt: &H,
    count: usize,
    workers: u64,
    idle_turns: u32,
    ends: &[End],
) -> Result<bool, Fail> {
    are_gathered(rt, count as u64, &[GET], workers, idle_turns, ends)
}

/// Connections with these inputs in turn, as many as there are ends, at a gate that opens once so many tasks have been
/// polled.
fn are_gathered<H: Host + Sync>(
    rt: &H,
    need: u64,
    inputs: &[&[u8]],
    workers: u64,
    idle_turns: u32,
    ends: &[End],
) -> Result<bool, Fail> {
    let state = State::new(rt.alloc());
    let app = Gathers {
        need,
        polled: Arc::new(rt.alloc(), AtomicU64::new(0))?,
    };
    let limits = patient(idle_turns)?;
    let mut texts = texts_of(rt.alloc(), ends.len())?;
    let reports = serve_feed(rt, &app, &state, inputs, &mut texts, &limits, workers)?;
    Ok(is_reported(&reports, ends))
}

const ONE: End = (Outcome::Finished, 1);

#[test]
fn as_many_are_served_at_once_as_there_are_workers(rt: HostRuntime) -> Result<(), Fail> {
    assert!(rt; gathered(&rt, 2, 2, 30_000, &[ONE; 2])?);
    assert!(rt; gathered(&rt, 8, 8, 30_000, &[ONE; 8])?);
    Ok(())
}

#[test]
fn one_worker_gives_up_what_needs_two(rt: HostRuntime) -> Result<(), Fail> {
    assert!(rt; gathered(&rt, 2, 1, 600, &[(Outcome::Idle, 1), ONE])?);
    Ok(())
}

const FAULT: End = (Outcome::Refused(500), 1);

/// Whether each second of six connections faults, is answered for and is reported, and the others are served.
fn are_apart<H: Host + Sync>(rt: &H, workers: u64) -> Result<bool, Fail> {
    let state = State::new(rt.alloc());
    let limits = Limits::usual();
    let mut texts = texts_of(rt.alloc(), 6)?;
    let inputs = [GET, GET_FATAL];
    let reports = serve_feed(rt, &Faulty, &state, &inputs, &mut texts, &limits, workers)?;
    let held = is_reported(&reports, &[ONE, FAULT, ONE, FAULT, ONE, FAULT]);
    Ok(held && are_by_turns(&texts))
}

/// Whether each second text is the response to a fault, and each other one the greeting.
fn are_by_turns(texts: &[Vec<u8>]) -> bool {
    let mut is_fault = false;
    for text in texts {
        let wanted = if is_fault { SERVER_ERROR } else { HELLO };
        if text.as_slice() != wanted {
            return false;
        }
        is_fault = !is_fault;
    }
    true
}

#[test]
fn a_task_that_faults_disturbs_no_other_connection(rt: HostRuntime) -> Result<(), Fail> {
    for workers in [1, 2, 8] {
        assert!(rt; are_apart(&rt, workers)?, "{workers} workers");
    }
    Ok(())
}

#[test]
fn a_call_that_faults_leaves_those_that_wait_for_each_other(rt: HostRuntime) -> Result<(), Fail> {
    let inputs = [GET, GET, GET_FATAL];
    assert!(rt; are_gathered(&rt, 2, &inputs, 2, 30_000, &[ONE, ONE, FAULT])?);
    Ok(())
}
