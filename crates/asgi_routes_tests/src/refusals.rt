//! Routes that are not added.
use crate::endpoints::{Item, Word};
use asgi_routes::{Method, RouteError, Routes};
use std::alloc::Global;
use std::test::Fail;

/// Why the second route is not added after the first.
fn second(alloc: Global, first: (Method, &str), second: (Method, &str)) -> Option<RouteError> {
    let Ok(routes) = Routes::new(alloc).route(first.0, first.1, Item) else {
        return None;
    };
    match routes.route(second.0, second.1, Word::Index) {
        Ok(_) => None,
        Err(why) => Some(why),
    }
}

/// Why a table of this route alone is not made.
fn alone(alloc: Global, pattern: &str) -> Option<RouteError> {
    match Routes::new(alloc).get(pattern, Item) {
        Ok(_) => None,
        Err(why) => Some(why),
    }
}

const ALONE: &[(&str, Option<RouteError>)] = &[
    ("/items/{n}", None),
    ("/items/{n}.json", None),
    ("/files/{*rest}", None),
    ("/{{a}}", None),
    ("", None),
    ("/items/{n", Some(RouteError::BadParameter)),
    ("/items/n}", Some(RouteError::BadParameter)),
    ("/items/{}", Some(RouteError::BadParameter)),
    ("/items/{n/m}", Some(RouteError::BadParameter)),
    ("/files/{*}", Some(RouteError::BadParameter)),
    ("/items/{n}{m}", Some(RouteError::TwoParameters)),
    ("/items/{n}-{m}", Some(RouteError::TwoParameters)),
    ("/files/{*rest}/a", Some(RouteError::BadCatchAll)),
];

#[test]
fn a_pattern_is_well_formed(rt: HostRuntime) {
    for (pattern, why) in ALONE {
        assert!(rt; (alone(rt.alloc(), pattern), 0) == (*why, 0), "{pattern}");
    }
}

type Pair = (
    (Method, &'static str),
    (Method, &'static str),
    Option<RouteError>,
);

const PAIRS: &[Pair] = &[
    ((Method::Get, "/a"), (Method::Post, "/a"), None),
    ((Method::Get, "/a"), (Method::Get, "/b"), None),
    ((Method::Get, "/{n}"), (Method::Get, "/a"), None),
    ((Method::Get, "/{n}"), (Method::Delete, "/{n}"), None),
    (
        (Method::Get, "/a"),
        (Method::Get, "/a"),
        Some(RouteError::Taken),
    ),
    (
        (Method::Put, "/{n}"),
        (Method::Put, "/{n}"),
        Some(RouteError::Taken),
    ),
    // The same paths match both, whatever the method.
    (
        (Method::Get, "/{n}"),
        (Method::Post, "/{m}"),
        Some(RouteError::Conflict),
    ),
    (
        (Method::Get, "/{n}"),
        (Method::Get, "/{*rest}"),
        Some(RouteError::Conflict),
    ),
];

#[test]
fn a_route_is_added_once(rt: HostRuntime) {
    for (number, (first, other, why)) in PAIRS.iter().enumerate() {
        let refused = second(rt.alloc(), *first, *other);
        assert!(rt; (refused, number) == (*why, number), "pair {number}");
    }
}
