//! A task that needs the connection to go on while it is polled.
ghost use Rattle.std.specs.Prelude.{◌≡◌, None};
ghost use Rattle.futures.specs.Task.{Keeps};
ghost use Rattle.asgi_apps.specs.Ends.{GoesOn};

use crate::serving::is_answered;
use asgi_apps::{AppFault, AppTask, Application};
use asgi_conn::{Host, Outcome};
use asgi_fakes::texts::{HELLO, SERVER_ERROR};
use asgi_fakes::{
    Memory, Pieces, Said, Scripted, ScriptedTask, Step, Way, line_of, serve, text_of,
};
use asgi_pipes::AppEnd;
use asgi_types::{BadLimit, Incoming, Limits, Scope};
use futures::task::{Context, Poll};
use std::alloc::{AllocError, Global};
use std::test::Fail;
use std::time::{Clock, Duration};
use std::{io, thread};

/// What `Hello` sends.
const GREETS: Scripted = Scripted(&[
    Step::Says(Said::Start(200, &[("content-type", "text/plain")])),
    Step::Says(Said::Last("hello\n")),
]);

/// Responds as `Hello` once it has received the whole body, for whose events it asks within one poll, `tries` times at
/// the most and about a millisecond apart.
#[derive(Clone, Copy)]
struct Asks<R> {
    clock: R,
    tries: u32,
}

#[derive(Drop)]
struct AsksTask<R> {
    asks: Asks<R>,
    has_heard: bool,
    greets: ScriptedTask,
}

impl<R: Clock + Copy + Drop> Application for Asks<R> {
    type Task = AsksTask<R>;

    fn call(&self, alloc: Global, scope: &Scope) -> Result<AsksTask<R>, AppFault> {
        Ok(AsksTask {
            asks: *self,
            has_heard: false,
            greets: GREETS.call(alloc, scope)?,
        })
    }
}

fn is_last(event: &Incoming) -> bool {
    matches!(
        event,
        Incoming::HttpRequest {
            body: _,
            more_body: false
        }
    )
}

/// Whether the last event of the body is there. If none is, waits a millisecond.
fn ask<R: Clock, E: AppEnd>(clock: &R, cx: &mut Context<'_>, end: &mut E) -> bool
    requires { E.ended end.old ≡ None }
    ensures end { GoesOn E.AppEnd None end.old end.new }
    ensures kept { Keeps cx.old cx.new }
{
    match end.poll_receive(cx) {
        Poll::Ready(event) => is_last(&event),
        Poll::Pending => {
            thread::sleep(clock, Duration::from_millis(1));
            false
        }
    }
}

/// Whether the last event comes within `tries` tries.
fn hears_all<R: Clock, E: AppEnd>(asks: &Asks<R>, cx: &mut Context<'_>, end: &mut E) -> bool
    requires { E.ended end.old ≡ None }
    ensures end { GoesOn E.AppEnd None end.old end.new }
    ensures kept { Keeps cx.old cx.new }
{
    for _try in 0..asks.tries {
        if ask(&asks.clock, cx, end) {
            return true;
        }
    }
    false
}

impl<R: Clock + Copy + Drop> AppTask for AsksTask<R> {
    fn poll<E: AppEnd>(&mut self, cx: &mut Context<'_>, end: &mut E) -> Poll<Result<(), AppFault>> {
        if self.has_heard {
            return self.greets.poll(cx, end);
        }
        if !hears_all(&self.asks, cx, end) {
            return Poll::Ready(Err(AppFault::Failed));
        }
        self.has_heard = true;
        cx.yield_now()
    }

    ghost keeps = { λ _ _ _ _ _. tt };
}

const REQUEST: &[u8] = b"POST / HTTP/1.1\r\nHost: a\r\nContent-Length: 8\r\n\r\nabcdefgh";

/// Two places each way, and blocks of a byte: so each exchange needs more events than there are places.
fn narrow() -> Result<Limits, BadLimit> {
    Limits::new(16_384, 64, 1_048_576, 1, 2, 30_000, 1_000_000)
}

/// The request, this many times.
fn requests(alloc: Global, times: usize) -> Result<Vec<u8>, AllocError> {
    let mut input = Vec::new(alloc);
    for _time in 0..times {
        input.extend_from_slice(REQUEST)?;
    }
    Ok(input)
}

/// Whether this many requests on one connection are answered beside a thread.
fn are_answered<H: Host + Clock + Drop>(rt: &H, limits: &Limits, times: usize) -> io::Result<bool> {
    let app = Asks {
        clock: *rt,
        tries: 5_000,
    };
    let end = (Outcome::Finished, times as u64, 0, 0);
    let input = requests(rt.alloc(), times)?;
    let mut line = line_of(rt, Pieces::new(&input, 4_096, 4_096))?;
    is_answered(rt, limits, &app, &mut line, (HELLO, times, end))
}

const TIMES: &[usize] = &[1, 100];

#[test]
fn a_task_and_its_connection_go_on_at_once(rt: HostRuntime) -> Result<(), Fail> {
    let limits = narrow()?;
    for times in TIMES {
        let is_so = are_answered(&rt, &limits, *times)?;
        assert!(rt; is_so, "{times} requests");
    }
    Ok(())
}

/// Whether the connection has a refusal, since its task faulted.
fn is_refused<H: Host, T: AppTask + Send + 'static, A: Application<Task = T>>(
    rt: &H,
    limits: &Limits,
    app: &A,
    line: &mut Memory<Pieces>,
) -> io::Result<bool> {
    let (report, _) = serve(rt, Way::Inline, limits, app, line)?;
    let counts = (report.exchanges, report.faults);
    let is_so = matches!(report.outcome, Outcome::Refused(500)) && counts == (1, 1);
    Ok(is_so && text_of(line) == SERVER_ERROR)
}

fn waits_in_vain<H: Host + Clock + Drop>(rt: &H) -> Result<bool, Fail> {
    let limits = narrow()?;
    let app = Asks {
        clock: *rt,
        tries: 500,
    };
    let mut line = line_of(rt, Pieces::new(REQUEST, 4_096, 4_096))?;
    Ok(is_refused(rt, &limits, &app, &mut line)?)
}

#[test]
fn in_one_thread_the_task_waits_in_vain(rt: HostRuntime) -> Result<(), Fail> {
    let is_so = waits_in_vain(&rt)?;
    assert!(rt; is_so);
    Ok(())
}
