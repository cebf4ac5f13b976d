//! Endpoints that reply with their name and the parameters of their route.
use asgi_apps::AppFault;
use asgi_handlers::{Reply, Request};
use asgi_routes::Endpoint;

/// Replies with its name, in small letters.
#[derive(Clone, Copy)]
pub enum Word {
    Index,
    Added,
    New,
    Gone,
}

/// Replies with the parameter `n`.
#[derive(Clone, Copy)]
pub struct Item;

/// Replies with the parameters `shop` and `n`.
#[derive(Clone, Copy)]
pub struct Place;

/// Replies with the parameter `rest`.
#[derive(Clone, Copy)]
pub struct File;

/// Fails.
#[derive(Clone, Copy)]
pub struct Fails;

/// What a parameter took, or a word that says that there is none.
fn taken<'a>(request: &'a Request<'_>, name: &str) -> &'a str {
    match request.param(name) {
        Some(part) => part,
        None => "none",
    }
}

impl Endpoint for Word {
    fn reply(&self, request: &Request<'_>) -> Result<Reply, AppFault> {
        let word = match self {
            Word::Index => "index",
            Word::Added => "added",
            Word::New => "new",
            Word::Gone => "gone",
        };
        Ok(Reply::text(request.alloc(), word)?)
    }
}

impl Endpoint for Item {
    fn reply(&self, request: &Request<'_>) -> Result<Reply, AppFault> {
        let alloc = request.alloc();
        let n = taken(request, "n");
        let line = format!(in alloc; "item {n}")?;
        Ok(Reply::text(alloc, line.as_str())?)
    }
}

impl Endpoint for Place {
    fn reply(&self, request: &Request<'_>) -> Result<Reply, AppFault> {
        let alloc = request.alloc();
        let shop = taken(request, "shop");
        let n = taken(request, "n");
        let line = format!(in alloc; "item {n} of {shop}")?;
        Ok(Reply::text(alloc, line.as_str())?)
    }
}

impl Endpoint for File {
    fn reply(&self, request: &Request<'_>) -> Result<Reply, AppFault> {
        let alloc = request.alloc();
        let rest = taken(request, "rest");
        let other = taken(request, "n");
        let line = format!(in alloc; "file {rest}, n {other}")?;
        Ok(Reply::text(alloc, line.as_str())?)
    }
}

impl Endpoint for Fails {
    fn reply(&self, _request: &Request<'_>) -> Result<Reply, AppFault> {
        Err(AppFault::Failed)
    }
}
