//! What a task sends leaves while it works on, though its client sends nothing more.
use crate::serving::serve;
use asgi_apps::{AppFault, AppTask, Application};
use asgi_conn::{Host, Outcome};
use asgi_fakes::{Said, Scripted, ScriptedTask, Step};
use asgi_pipes::AppEnd;
use asgi_types::{Limits, Scope};
use asgi_ws::{Pair, Wired};
use futures::task::{Context, Poll};
use std::alloc::{AllocError, Global};
use std::io::{self, ErrorKind, Read, Write};
use std::sync::Arc;
use std::sync::atomic::{AtomicU64, Ordering};
use std::test::Fail;
use std::thread;
use std::time::{Clock, Duration};

/// How often a task looks for its last event, about a millisecond apart.
const LOOKS: u32 = 5_000;

/// How many writes were made, for all that look.
#[derive(Drop)]
struct Writes(Arc<AtomicU64, Global>);

impl Writes {
    fn again(&self) -> Result<Writes, AllocError> {
        Ok(Writes(Arc::try_clone(&self.0)?))
    }

    /// Whether this many are made before long.
    fn reach<R: Clock>(&self, clock: &R, wanted: u64) -> bool {
        for _look in 0..LOOKS {
            if self.0.load(Ordering::SeqCst) >= wanted {
                return true;
            }
            thread::sleep(clock, Duration::from_millis(1));
        }
        false
    }
}

const TEN_PARTS: Scripted = Scripted(&[
    Step::Says(Said::Start(200, &[])),
    Step::Says(Said::Part("x")),
    Step::Says(Said::Part("x")),
    Step::Says(Said::Part("x")),
    Step::Says(Said::Part("x")),
    Step::Says(Said::Part("x")),
    Step::Says(Said::Part("x")),
    Step::Says(Said::Part("x")),
    Step::Says(Said::Part("x")),
    Step::Says(Said::Part("x")),
    Step::Says(Said::Last("x")),
]);

/// Sends ten parts of a body, each only once the one before has left; else it faults.
#[derive(Drop)]
struct Ticks<R> {
    clock: R,
    writes: Writes,
}

#[derive(Drop)]
struct TicksTask<R> {
    clock: R,
    writes: Writes,
    parts: ScriptedTask,
    polls: u64,
}

impl<R: Clock + Copy + Drop> Application for Ticks<R> {
    type Task = TicksTask<R>;

    fn call(&self, alloc: Global, scope: &Scope) -> Result<TicksTask<R>, AppFault> {
        Ok(TicksTask {
            clock: self.clock,
            writes: self.writes.again()?,
            parts: TEN_PARTS.call(alloc, scope)?,
            polls: 0,
        })
    }
}

impl<R: Clock + Copy + Drop> AppTask for TicksTask<R> {
    fn poll<E: AppEnd>(&mut self, cx: &mut Context<'_>, end: &mut E) -> Poll<Result<(), AppFault>> {
        // The start is written with the first part.
        let said = self.polls.saturating_sub(1);
        if !self.writes.reach(&self.clock, said) {
            return Poll::Ready(Err(AppFault::Failed));
        }
        self.polls = self.polls.saturating_add(1);
        self.parts.poll(cx, end)
    }

    ghost keeps = { λ _ _ _ _ _. tt };
}

/// Gives a request, and from then on would block.
#[derive(Drop)]
struct Silent {
    request: &'static [u8],
}

impl Read for Silent {
    fn read(&mut self, buf: &mut [u8]) -> io::Result<usize> {
        if self.request.is_empty() {
            return Err(io::Error::from(ErrorKind::WouldBlock));
        }
        self.request.read(buf)
    }
}

/// Takes all, and counts.
#[derive(Drop)]
struct Takes {
    writes: Writes,
}

impl Write for Takes {
    fn write(&mut self, buf: &[u8]) -> io::Result<usize> {
        self.writes.0.fetch_add(1, Ordering::SeqCst);
        Ok(buf.len())
    }

    fn flush(&mut self) -> io::Result<()> {
        Ok(())
    }
}

const CLOSES: &[u8] = b"GET / HTTP/1.1\r\nHost: a\r\nConnection: close\r\n\r\n";

type TakingLine = Wired<Pair<Silent, Takes>>;

/// Whether the connection is finished, and made ten writes or more.
fn is_finished<H: Host + Clock + Drop>(
    rt: &H,
    app: &Ticks<H>,
    line: &mut TakingLine,
) -> io::Result<bool> {
    let end = serve(rt, &Limits::usual(), app, line, true)?;
    let writes = app.writes.0.load(Ordering::SeqCst);
    Ok(matches!(end.0, Outcome::Finished) && writes >= 10)
}

/// A line whose writes are counted there.
fn line_to<H: Host>(rt: &H, writes: &Writes) -> Result<TakingLine, AllocError> {
    let writes = writes.again()?;
    let reader = Silent { request: CLOSES };
    let writer = Takes { writes };
    Ok(Wired::new(rt.alloc(), Pair { reader, writer }))
}

fn leaves<H: Host + Clock + Drop>(rt: &H) -> io::Result<bool> {
    let writes = Writes(Arc::new(rt.alloc(), AtomicU64::new(0))?);
    let clock = *rt;
    let app = Ticks { clock, writes };
    let mut line = line_to(rt, &app.writes)?;
    is_finished(rt, &app, &mut line)
}

#[test]
fn each_part_leaves_before_the_next_is_said(rt: HostRuntime) -> Result<(), Fail> {
    let is_so = leaves(&rt)?;
    assert!(rt; is_so);
    Ok(())
}
