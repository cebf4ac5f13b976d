//! One application for requests and one for sessions.
use crate::driver::Ask::{Lifespan, Request, Session};
use crate::driver::Offered::{Connect, Gone, Last, Text};
use crate::driver::{Row, check, check_memory};
use asgi_apps::{AppFault, Application, Hello, NotFound, Says, WsEcho};
use asgi_talks::{Both, Either};
use asgi_types::Scope;
use std::alloc::Global;
use std::test::Fail;

const HELLO_AND_ECHO: Both<Hello, WsEcho> = Both {
    http: Hello,
    ws: WsEcho,
};

const SERVED: &[Row] = &[
    (
        Request,
        &[Last("abc")],
        "start 200 content-type=text/plain|last hello\n|returned",
    ),
    (
        Session("/"),
        &[Connect, Text("a"), Gone(1000)],
        "accept|text a|returned",
    ),
    (Lifespan, &[], "faulted"),
];

#[test]
fn requests_go_to_one_and_sessions_to_the_other(rt: HostRuntime) -> Result<(), Fail> {
    check(&rt, HELLO_AND_ECHO, SERVED)
}

const REFUSED: &[Row] = &[
    (
        Request,
        &[Last("abc")],
        "start 404 content-length=0|last |returned",
    ),
    (Session("/"), &[Connect, Text("a")], "close 1000 |returned"),
];

#[test]
fn each_has_its_own_answer(rt: HostRuntime) -> Result<(), Fail> {
    let app = Both {
        http: WsEcho,
        ws: NotFound,
    };
    check(&rt, app, REFUSED)
}

/// Passes what is asked of the root on to an application, and answers all else itself. It has no
/// proof of its own.
#[derive(Clone, Copy, Debug)]
struct AtRoot<A> {
    app: A,
}

impl<A: Application> Application for AtRoot<A> {
    type Task = Either<A::Task, Says>;

    fn call(&self, alloc: Global, scope: &Scope) -> Result<Either<A::Task, Says>, AppFault> {
        if is_at_root(scope) {
            return Ok(Either::First(self.app.call(alloc, scope)?));
        }
        Ok(Either::Second(NotFound.call(alloc, scope)?))
    }
}

fn is_at_root(scope: &Scope) -> bool {
    match scope {
        Scope::Http(request) => request.path.as_str() == "/",
        Scope::WebSocket(session) => session.path.as_str() == "/",
        Scope::Lifespan(_) => false,
    }
}

const AT_ROOT: &[Row] = &[
    (
        Request,
        &[Last("abc")],
        "start 200 content-type=text/plain|last hello\n|returned",
    ),
    (
        Session("/"),
        &[Connect, Text("a"), Gone(1000)],
        "accept|text a|returned",
    ),
    (Session("/a"), &[Connect, Text("a")], "close 1000 |returned"),
    (Lifespan, &[], "faulted"),
];

#[test]
fn a_task_is_one_of_two_kinds(rt: HostRuntime) -> Result<(), Fail> {
    let app = AtRoot {
        app: HELLO_AND_ECHO,
    };
    check(&rt, app, AT_ROOT)
}

#[test]
fn memory_for_both(rt: HostRuntime) -> Result<(), Fail> {
    check_memory(&rt, HELLO_AND_ECHO, SERVED)
}
