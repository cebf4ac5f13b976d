//! Applications of a user's own, which promise nothing, so that nothing is to be proved of them.
use crate::rows::Offered::{Disconnect, Last, Part};
use crate::rows::{Row, SILENCE, check, check_memory, octets};
use asgi_apps::{AppFault, AppTask, Application, Says};
use asgi_pipes::{AppEnd, Sent};
use asgi_types::{Headers, Incoming, Kind, Octets, Outgoing, Scope};
use futures::task::{Context, Poll};
use std::alloc::{AllocError, Global};
use std::test::Fail;

/// Responds to each request with its method, and with its path after it, a body each.
#[derive(Clone, Copy)]
struct Repeats;

impl Application for Repeats {
    type Task = Says;

    fn call(&self, alloc: Global, scope: &Scope) -> Result<Says, AppFault> {
        let Scope::Http(scope) = scope else {
            return Err(AppFault::Failed);
        };
        let mut says = Says::with_room(alloc, Kind::Http, 3)?;
        says.add(start(alloc))?;
        says.add(body(alloc, scope.method.as_str(), true))?;
        says.add(body(alloc, scope.path.as_str(), false))?;
        Ok(says)
    }
}

fn start(alloc: Global) -> Outgoing {
    Outgoing::ResponseStart {
        status: 200,
        headers: Headers::new(alloc),
        trailers: false,
    }
}

fn body(alloc: Global, text: &str, more_body: bool) -> Outgoing {
    Outgoing::ResponseBody {
        body: octets(alloc, text),
        more_body,
    }
}

/// Responds to each request with this many letters, one a body.
#[derive(Clone, Copy)]
struct Counts(u8);

#[derive(Drop)]
struct CountsTask {
    alloc: Global,
    is_started: bool,
    left: u8,
}

impl Application for Counts {
    type Task = CountsTask;

    fn call(&self, alloc: Global, _scope: &Scope) -> Result<CountsTask, AppFault> {
        Ok(CountsTask {
            alloc,
            is_started: false,
            left: self.0,
        })
    }
}

impl CountsTask {
    /// The event that comes next.
    fn next(&self) -> Outgoing {
        if !self.is_started {
            return start(self.alloc);
        }
        body(self.alloc, "x", 1 < self.left)
    }
}

impl AppTask for CountsTask {
    fn poll<E: AppEnd>(&mut self, cx: &mut Context<'_>, end: &mut E) -> Poll<Result<(), AppFault>> {
        match end.poll_send(cx, self.next()) {
            Sent::Done => {
                self.left = self.left.saturating_sub(self.is_started as u8);
                self.is_started = true;
                cx.yield_now()
            }
            Sent::Full(_) => Poll::Pending,
            Sent::Ignored => Poll::Ready(Ok(())),
            Sent::Refused(_, _) => Poll::Ready(Err(AppFault::Failed)),
        }
    }

    ghost keeps = { λ _ _ _ _ _. tt };
}

const REPEATS: &[Row] = &[
    (
        Kind::Http,
        SILENCE,
        "start 200|part POST|last /a/b|returned",
    ),
    (Kind::WebSocket, SILENCE, "faulted"),
];

const COUNTS: &[Row] = &[(
    Kind::Http,
    SILENCE,
    "start 200|part x|part x|last x|returned",
)];

#[test]
fn an_application_of_ones_own_needs_no_proof(rt: HostRuntime) -> Result<(), Fail> {
    check(&rt, Repeats, REPEATS)?;
    check(&rt, Counts(3), COUNTS)
}

/// Responds to a request with a field of this value, if a field may have it.
#[derive(Clone, Copy)]
struct Shows(&'static str);

impl Application for Shows {
    type Task = Says;

    fn call(&self, alloc: Global, scope: &Scope) -> Result<Says, AppFault> {
        let Scope::Http(_) = scope else {
            return Err(AppFault::Failed);
        };
        let mut headers = Headers::new(alloc);
        headers.push(b"X-A", self.0.as_bytes())?;
        let mut says = Says::with_room(alloc, Kind::Http, 2)?;
        says.add(Outgoing::ResponseStart {
            status: 200,
            headers,
            trailers: false,
        })?;
        says.add(body(alloc, "", false))?;
        Ok(says)
    }
}

const SHOWN: &[Row] = &[(Kind::Http, SILENCE, "start 200 x-a=q|last |returned")];

const REFUSED: &[Row] = &[(Kind::Http, SILENCE, "faulted")];

#[test]
fn a_refused_field_is_a_fault(rt: HostRuntime) -> Result<(), Fail> {
    check(&rt, Shows("q"), SHOWN)?;
    check(&rt, Shows("q\r\n"), REFUSED)
}

#[test]
fn memory_for_a_field(rt: HostRuntime) -> Result<(), Fail> {
    check_memory(&rt, Shows("q"), SHOWN)
}

/// Receives a request whole, and then responds with its body, in a list of two events.
#[derive(Clone, Copy)]
struct Repeated;

#[derive(Drop)]
struct RepeatedTask {
    alloc: Global,
    body: Vec<u8>,
    /// What is sent once the request was received.
    says: Option<Says>,
}

impl Application for Repeated {
    type Task = RepeatedTask;

    fn call(&self, alloc: Global, _scope: &Scope) -> Result<RepeatedTask, AppFault> {
        Ok(RepeatedTask {
            alloc,
            body: Vec::new(alloc),
            says: None,
        })
    }
}

impl RepeatedTask {
    /// Adds a part to the body, and makes the response after the last.
    fn hear(&mut self, part: &[u8], more_body: bool) -> Result<(), AllocError> {
        self.body.extend_from_slice(part)?;
        if more_body {
            return Ok(());
        }
        self.says = Some(response(self.alloc, &self.body)?);
        Ok(())
    }
}

/// A response with this content.
fn response(alloc: Global, content: &[u8]) -> Result<Says, AllocError> {
    let mut says = Says::with_room(alloc, Kind::Http, 2)?;
    add_whole(&mut says, alloc, content)?;
    Ok(says)
}

fn add_whole(says: &mut Says, alloc: Global, content: &[u8]) -> Result<(), AllocError> {
    says.add(start(alloc))?;
    let body = Octets::new(Vec::from_slice(alloc, content)?);
    says.add(Outgoing::ResponseBody {
        body,
        more_body: false,
    })
}

impl AppTask for RepeatedTask {
    fn poll<E: AppEnd>(&mut self, cx: &mut Context<'_>, end: &mut E) -> Poll<Result<(), AppFault>> {
        if let Some(says) = &mut self.says {
            return says.send(cx, end);
        }
        match end.poll_receive(cx) {
            Poll::Ready(Incoming::HttpRequest { body, more_body }) => {
                match self.hear(body.bytes(), more_body) {
                    Ok(()) => cx.yield_now(),
                    Err(e) => Poll::Ready(Err(AppFault::NoMemory(e))),
                }
            }
            Poll::Ready(_) => Poll::Ready(Ok(())),
            Poll::Pending => Poll::Pending,
        }
    }

    ghost keeps = { λ _ _ _ _ _. tt };
}

const REPEATED: &[Row] = &[
    (
        Kind::Http,
        &[Part("abc"), Last("de")],
        "start 200|last abcde|returned",
    ),
    (Kind::Http, &[Last("")], "start 200|last |returned"),
    (Kind::Http, &[Part("abc"), Disconnect], "returned"),
    (Kind::Http, &[Part("abc")], "idle"),
    (Kind::WebSocket, &[Last("a")], "faulted"),
];

#[test]
fn a_list_is_sent_after_a_request_was_received(rt: HostRuntime) -> Result<(), Fail> {
    check(&rt, Repeated, REPEATED)
}

/// Responds as `Counts` does, by a task that names only the results that it waits for.
#[derive(Clone, Copy)]
struct CountsDown(u8);

#[derive(Drop)]
struct CountsDownTask(CountsTask);

impl Application for CountsDown {
    type Task = CountsDownTask;

    fn call(&self, alloc: Global, _scope: &Scope) -> Result<CountsDownTask, AppFault> {
        Ok(CountsDownTask(CountsTask {
            alloc,
            is_started: false,
            left: self.0,
        }))
    }
}

impl AppTask for CountsDownTask {
    fn poll<E: AppEnd>(&mut self, cx: &mut Context<'_>, end: &mut E) -> Poll<Result<(), AppFault>> {
        match end.poll_send(cx, self.0.next()) {
            Sent::Done => {
                self.0.left = self.0.left.saturating_sub(self.0.is_started as u8);
                self.0.is_started = true;
                cx.yield_now()
            }
            Sent::Full(_) => Poll::Pending,
            _ => Poll::Ready(Ok(())),
        }
    }

    ghost keeps = { λ _ _ _ _ _. tt };
}

/// Sends each part of a request back, by a send in an `if let`.
#[derive(Clone, Copy)]
struct Returns;

#[derive(Drop)]
struct ReturnsTask {
    waiting: Option<Outgoing>,
}

impl Application for Returns {
    type Task = ReturnsTask;

    fn call(&self, alloc: Global, _scope: &Scope) -> Result<ReturnsTask, AppFault> {
        Ok(ReturnsTask {
            waiting: Some(start(alloc)),
        })
    }
}

impl ReturnsTask {
    /// The event is sent next.
    fn keep(&mut self, event: Outgoing) {
        self.waiting = Some(event);
    }
}

impl AppTask for ReturnsTask {
    fn poll<E: AppEnd>(&mut self, cx: &mut Context<'_>, end: &mut E) -> Poll<Result<(), AppFault>> {
        if let Some(event) = self.waiting.take() {
            return match end.poll_send(cx, event) {
                Sent::Done => cx.yield_now(),
                Sent::Full(event) => {
                    self.keep(event);
                    Poll::Pending
                }
                _ => Poll::Ready(Ok(())),
            };
        }
        match end.poll_receive(cx) {
            Poll::Ready(Incoming::HttpRequest { body, more_body }) => {
                self.keep(Outgoing::ResponseBody { body, more_body });
                cx.yield_now()
            }
            Poll::Ready(_) => Poll::Ready(Ok(())),
            Poll::Pending => Poll::Pending,
        }
    }

    ghost keeps = { λ _ _ _ _ _. tt };
}

const RETURNS: &[Row] = &[
    (
        Kind::Http,
        &[Part("abc"), Last("d"), Disconnect],
        "start 200|part abc|last d|returned",
    ),
    (Kind::Http, &[Part("abc")], "start 200|part abc|idle"),
];

#[test]
fn the_usual_shapes_of_a_poll_need_no_proof(rt: HostRuntime) -> Result<(), Fail> {
    check(&rt, CountsDown(3), COUNTS)?;
    check(&rt, Returns, RETURNS)
}
