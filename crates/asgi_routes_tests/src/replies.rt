//! Which endpoint replies, with which parameters, and what is replied where none does.
use crate::asked::{Row, check};
use crate::endpoints::{Fails, File, Item, Place, Word};
use asgi_handlers::Handler;
use asgi_routes::{Chain, Empty, Method, RouteError, Routes};
use std::alloc::Global;
use std::test::Fail;

type Items = Chain<Word, Chain<Word, Chain<Item, Chain<Word, Chain<Word, Empty>>>>>;

/// A shop. `/items/{n}` is added in two steps, with another pattern between them.
type Shop = Chain<Fails, Chain<File, Chain<Place, Items>>>;

fn items(alloc: Global) -> Result<Routes<Items>, RouteError> {
    Routes::new(alloc)
        .get("/", Word::Index)?
        .post("/items", Word::Added)?
        .get("/items/{n}", Item)?
        .get("/items/new", Word::New)?
        .delete("/items/{n}", Word::Gone)
}

fn shop(alloc: Global) -> Result<Routes<Shop>, RouteError> {
    items(alloc)?
        .get("/shops/{shop}/items/{n}", Place)?
        .get("/files/{*rest}", File)?
        .route(Method::Put, "/fails", Fails)
}

/// A table that is made again if memory was refused.
fn shop_at_last(alloc: Global) -> Result<Routes<Shop>, RouteError> {
    match shop(alloc) {
        Err(RouteError::NoMemory(_)) => shop(alloc),
        made => made,
    }
}

const INDEX: &str = "200 content-type=text/plain; charset=utf-8 content-length=5|index";

const ITEM: &str = "200 content-type=text/plain; charset=utf-8 content-length=6|item 7";

const NOT_FOUND: &str = "404 content-length=0|";

/// The patterns, and the methods of each.
const ROUTED: &[Row] = &[
    Row("GET", "/", "", INDEX),
    Row(
        "POST",
        "/items",
        "",
        "200 content-type=text/plain; charset=utf-8 content-length=5|added",
    ),
    Row("GET", "/items/7", "", ITEM),
    Row(
        "DELETE",
        "/items/7",
        "",
        "200 content-type=text/plain; charset=utf-8 content-length=4|gone",
    ),
    // The pattern without a parameter is the narrower.
    Row(
        "GET",
        "/items/new",
        "",
        "200 content-type=text/plain; charset=utf-8 content-length=3|new",
    ),
    Row(
        "GET",
        "/shops/b/items/7",
        "",
        "200 content-type=text/plain; charset=utf-8 content-length=11|item 7 of b",
    ),
    // A catch-all takes the slashes too. Its endpoint has no parameter of another route.
    Row(
        "GET",
        "/files/a/b",
        "",
        "200 content-type=text/plain; charset=utf-8 content-length=16|file a/b, n none",
    ),
    // A path is decoded, so a parameter is: `/items/a%20b`, `/items/%25`, `/items/%C3%BC`.
    Row(
        "GET",
        "/items/a b",
        "",
        "200 content-type=text/plain; charset=utf-8 content-length=8|item a b",
    ),
    Row(
        "GET",
        "/items/%",
        "",
        "200 content-type=text/plain; charset=utf-8 content-length=6|item %",
    ),
    Row(
        "GET",
        "/items/ü",
        "",
        "200 content-type=text/plain; charset=utf-8 content-length=7|item ü",
    ),
    Row("PUT", "/fails", "", "failed"),
];

/// RFC 9110, 9.3.2: a HEAD request is answered as GET, without the content, which the server leaves
/// out.
const HEADS: &[Row] = &[
    Row("HEAD", "/", "", INDEX),
    Row("HEAD", "/items/7", "", ITEM),
    Row(
        "HEAD",
        "/items",
        "",
        "405 content-length=0 allow=OPTIONS, POST|",
    ),
];

/// RFC 9110, 15.5.5: no pattern matches the path.
const UNFOUND: &[Row] = &[
    Row("GET", "", "", NOT_FOUND),
    Row("GET", "/item", "", NOT_FOUND),
    Row("GET", "/items/", "", NOT_FOUND),
    Row("GET", "/items/7/", "", NOT_FOUND),
    Row("GET", "/items/7/8", "", NOT_FOUND),
    Row("GET", "/files/", "", NOT_FOUND),
    Row("GET", "/Items/7", "", NOT_FOUND),
    Row("DELETE", "/none", "", NOT_FOUND),
    Row("OPTIONS", "/none", "", NOT_FOUND),
    Row("OPTIONS", "*", "", NOT_FOUND),
];

/// RFC 9110, 15.5.6: a pattern matches, and has no endpoint for the method. The methods of another
/// pattern are not its.
const NOT_ALLOWED: &[Row] = &[
    Row(
        "GET",
        "/items",
        "",
        "405 content-length=0 allow=OPTIONS, POST|",
    ),
    Row(
        "PUT",
        "/items/7",
        "",
        "405 content-length=0 allow=OPTIONS, GET, HEAD, DELETE|",
    ),
    Row(
        "DELETE",
        "/items/new",
        "",
        "405 content-length=0 allow=OPTIONS, GET, HEAD|",
    ),
    Row(
        "BREW",
        "/",
        "",
        "405 content-length=0 allow=OPTIONS, GET, HEAD|",
    ),
    Row(
        "get",
        "/",
        "",
        "405 content-length=0 allow=OPTIONS, GET, HEAD|",
    ),
    Row(
        "HEAD",
        "/fails",
        "",
        "405 content-length=0 allow=OPTIONS, PUT|",
    ),
];

/// RFC 9110, 9.3.7 and 10.2.1: what is allowed.
const ALLOWED: &[Row] = &[
    Row("OPTIONS", "/", "", "204 allow=OPTIONS, GET, HEAD|"),
    Row("OPTIONS", "/items", "", "204 allow=OPTIONS, POST|"),
    Row(
        "OPTIONS",
        "/items/7",
        "",
        "204 allow=OPTIONS, GET, HEAD, DELETE|",
    ),
];

/// ASGI, HTTP connection scope: `path` has the prefix `root_path`, under which it is mounted.
const MOUNTED: &[Row] = &[
    Row("GET", "/m/items/7", "/m", ITEM),
    Row("GET", "/m/", "/m", INDEX),
    Row("GET", "/m", "/m", NOT_FOUND),
    // The path does not begin with the prefix: it is taken whole.
    Row("GET", "/items/7", "/m", ITEM),
];

/// Fails with what the first row holds that the shop does not reply.
fn check_shop(alloc: Global, rows: &[Row]) -> Result<(), Fail> {
    let routes = shop_at_last(alloc)?;
    check(alloc, &routes, rows)
}

#[test]
fn the_endpoint_of_the_pattern_and_the_method_replies(rt: HostRuntime) -> Result<(), Fail> {
    check_shop(rt.alloc(), ROUTED)
}

#[test]
fn head_is_answered_as_get(rt: HostRuntime) -> Result<(), Fail> {
    check_shop(rt.alloc(), HEADS)
}

#[test]
fn no_pattern_is_not_found(rt: HostRuntime) -> Result<(), Fail> {
    check_shop(rt.alloc(), UNFOUND)
}

#[test]
fn no_endpoint_for_the_method_is_not_allowed(rt: HostRuntime) -> Result<(), Fail> {
    check_shop(rt.alloc(), NOT_ALLOWED)
}

#[test]
fn options_are_what_is_allowed(rt: HostRuntime) -> Result<(), Fail> {
    check_shop(rt.alloc(), ALLOWED)
}

#[test]
fn a_mounted_table_sees_the_path_after_its_mount(rt: HostRuntime) -> Result<(), Fail> {
    check_shop(rt.alloc(), MOUNTED)
}

const EMPTY: &[Row] = &[
    Row("GET", "/", "", NOT_FOUND),
    Row("OPTIONS", "/", "", NOT_FOUND),
];

#[test]
fn a_table_without_routes_finds_nothing(rt: HostRuntime) -> Result<(), Fail> {
    let routes = Routes::new(rt.alloc());
    check(rt.alloc(), &routes, EMPTY)
}

#[test]
fn memory_for_a_table_and_its_replies(rt: HostRuntime) -> Result<(), Fail> {
    check_shop(rt.alloc(), ROUTED)?;
    check_shop(rt.alloc(), NOT_ALLOWED)?;
    check_shop(rt.alloc(), ALLOWED)?;
    check_shop(rt.alloc(), UNFOUND)
}
