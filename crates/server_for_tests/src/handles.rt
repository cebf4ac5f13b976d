//! A handler with a reply of each kind.
use nomtsage::{AppFault, Handler, Reply, Request};
use serde_json::json;

/// The longest reply of bytes.
const MOST: usize = 16 << 20;

/// Replies to `/fail` with a fault, to `/json` with a JSON text, to `/bytes/N` with N bytes, and to all else with 204.
#[derive(Clone, Copy, Debug)]
pub struct Handles;

impl Handler for Handles {
    fn handle(&self, request: &Request<'_>) -> Result<Reply, AppFault> {
        match request.path() {
            "/fail" => Err(AppFault::Failed),
            "/json" => as_json(request),
            path => match size_in(path) {
                Some(size) => as_bytes(request, size),
                None => Ok(Reply::empty(request.alloc())),
            },
        }
    }
}

/// The method, the path, and how many bytes the body has.
fn as_json(request: &Request<'_>) -> Result<Reply, AppFault> {
    let alloc = request.alloc();
    let (method, path) = (request.method(), request.path());
    let length = request.body().len() as u64;
    let value = json!(in alloc; { "method": method, "path": path, "length": length })?;
    Reply::json(alloc, &value)
}

/// So many bytes.
fn as_bytes(request: &Request<'_>, size: usize) -> Result<Reply, AppFault> {
    let mut bytes = Vec::new(request.alloc());
    bytes.resize(size, b'b')?;
    Reply::new(request.alloc(), 200, "application/octet-stream", bytes)
}

/// The number of the path `/bytes/N`.
fn size_in(path: &str) -> Option<usize> {
    let size = path.strip_prefix("/bytes/")?.parse::<usize>().ok()?;
    if size > MOST {
        return None;
    }
    Some(size)
}
