//! Items, under routes: how many there are, one by its number, and one more.
use nomtsage::{AppFault, Chain, Empty, Endpoint, Reply, Request, RouteError, Routes};
use serde_json::{Value, json};
use std::alloc::Global;
use std::sync::Arc;
use std::sync::atomic::{AtomicU64, Ordering};

/// How many items were added: one number, which all endpoints and all requests share.
type Added = Arc<AtomicU64, Global>;

/// The endpoints, the last one first.
pub type Items = Routes<Chain<Item, Chain<AddItem, Chain<Count, Empty>>>>;

/// The routes of the items.
pub fn table(alloc: Global) -> Result<Items, RouteError> {
    let added = Arc::new(alloc, AtomicU64::new(0))?;
    Routes::new(alloc)
        .get("/items", Count(Arc::try_clone(&added)?))?
        .post("/items", AddItem(Arc::try_clone(&added)?))?
        .get("/items/{n}", Item(added))
}

/// Replies how many items there are.
#[derive(Drop)]
pub struct Count(Added);

impl Endpoint for Count {
    fn reply(&self, request: &Request<'_>) -> Result<Reply, AppFault> {
        let alloc = request.alloc();
        let items = self.0.load(Ordering::SeqCst);
        Reply::json(alloc, &json!(in alloc; { "items": items })?)
    }
}

/// Adds an item such as `{"name": "tea"}`, and replies with its number, which no other item has.
#[derive(Drop)]
pub struct AddItem(Added);

impl Endpoint for AddItem {
    fn reply(&self, request: &Request<'_>) -> Result<Reply, AppFault> {
        let alloc = request.alloc();
        let Some(item) = parsed(alloc, request.body())? else {
            return replied(alloc, 400, &json!(in alloc; { "error": "no JSON" })?);
        };
        let Some(name) = item.get("name").and_then(Value::as_str) else {
            return replied(alloc, 400, &json!(in alloc; { "error": "no name" })?);
        };
        let number = self.0.fetch_add(1, Ordering::SeqCst).saturating_add(1);
        replied(
            alloc,
            201,
            &json!(in alloc; { "item": number, "name": name })?,
        )
    }
}

/// Replies whether there is an item of this number.
#[derive(Drop)]
pub struct Item(Added);

impl Endpoint for Item {
    fn reply(&self, request: &Request<'_>) -> Result<Reply, AppFault> {
        let alloc = request.alloc();
        let number = request.param("n").unwrap_or("").parse::<u64>().unwrap_or(0);
        if number == 0 || number > self.0.load(Ordering::SeqCst) {
            return replied(alloc, 404, &json!(in alloc; { "error": "no such item" })?);
        }
        Reply::json(alloc, &json!(in alloc; { "item": number })?)
    }
}

/// This status, with this content.
fn replied(alloc: Global, status: u16, value: &Value) -> Result<Reply, AppFault> {
    let mut reply = Reply::json(alloc, value)?;
    reply.status = status;
    Ok(reply)
}

/// The value of the bytes; `None` if they are no JSON.
fn parsed(alloc: Global, body: &[u8]) -> Result<Option<Value>, AppFault> {
    let Ok(text) = str::from_utf8(body) else {
        return Ok(None);
    };
    match Value::from_str(alloc, text) {
        Ok(value) => Ok(Some(value)),
        Err(e) if e.is_memory() => Err(AppFault::Failed),
        Err(_) => Ok(None),
    }
}
