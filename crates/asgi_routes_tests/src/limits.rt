//! Endpoints with a limit of their own for bodies, and what a route that was not added is to a handler.
use crate::endpoints::Word;
use asgi_apps::AppFault;
use asgi_handlers::{BodyLimit, ask};
use asgi_routes::{RouteError, Routes};
use log::sink::Discard;
use std::alloc::{AllocError, Global};
use std::test::Fail;

/// A path, a body, and the status of the reply (RFC 9110, section 15.5.14).
const LIMITED: &[(&str, &[u8], u16)] = &[
    ("/short", b"", 200),
    ("/short", b"ab", 200),
    ("/short", b"abc", 413),
    ("/any", b"abc", 200),
    ("/none", b"abc", 404),
];

/// The status of the reply to a POST. What the table is refused is a fault, by `?`.
fn status_of(alloc: Global, path: &str, body: &[u8]) -> Result<u16, AppFault> {
    let routes = Routes::new(alloc)
        .post("/short", BodyLimit::new(Word::Added, 2, Discard))?
        .post("/any", Word::Added)?;
    Ok(ask(alloc, &routes, "POST", path, body)?.status)
}

#[test]
fn an_endpoint_has_a_limit_of_its_own(rt: HostRuntime) -> Result<(), Fail> {
    for (path, body, status) in LIMITED {
        let found = status_of(rt.alloc(), path, body)?;
        assert!(rt; found == *status, "{path}: {found}");
    }
    Ok(())
}

const FAULTS: &[(RouteError, AppFault)] = &[
    (RouteError::BadParameter, AppFault::Failed),
    (RouteError::TwoParameters, AppFault::Failed),
    (RouteError::BadCatchAll, AppFault::Failed),
    (RouteError::Conflict, AppFault::Failed),
    (RouteError::Taken, AppFault::Failed),
    (
        RouteError::NoMemory(AllocError),
        AppFault::NoMemory(AllocError),
    ),
];

#[test]
fn a_route_that_was_not_added_is_a_fault(rt: HostRuntime) -> Result<(), Fail> {
    for (error, fault) in FAULTS {
        assert!(rt; AppFault::from(*error) == *fault, "{error}");
    }
    Ok(())
}
