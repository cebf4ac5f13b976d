//! The handler: what each request gets.
use nomtsage::{AppFault, Handler, Reply, Request};
use serde_json::json;

/// Replies to `/` with a greeting, to `/items/7` with the item of that number as JSON, and to what is
/// sent to `/items` with its length. All else is 404.
#[derive(Clone, Copy, Debug)]
pub struct Items;

impl Handler for Items {
    fn handle(&self, request: &Request<'_>) -> Result<Reply, AppFault> {
        match (request.method(), request.segments()) {
            ("GET" | "HEAD", []) => Reply::text(request.alloc(), "hello\n"),
            ("GET" | "HEAD", ["items", number]) => item(request, number),
            ("POST", ["items"]) => added(request),
            _ => Reply::status(request.alloc(), 404),
        }
    }
}

/// The item of this number; 404 if it is none.
fn item(request: &Request<'_>, number: &str) -> Result<Reply, AppFault> {
    let alloc = request.alloc();
    match number.parse::<u64>() {
        Ok(number) => Reply::json(alloc, &json!(in alloc; { "item": number })?),
        Err(_) => Reply::status(alloc, 404),
    }
}

/// How many bytes the body has.
fn added(request: &Request<'_>) -> Result<Reply, AppFault> {
    let alloc = request.alloc();
    let length = request.body().len() as u64;
    Reply::json(alloc, &json!(in alloc; { "length": length })?)
}
