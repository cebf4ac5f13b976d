//! A service with a body: an order in JSON, and what it costs.
use nomtsage::{AppFault, Handler, Reply, Request};
use serde_json::{Value, json};
use std::alloc::Global;

/// What one item costs, in cents.
const PRICE: u64 = 25;

/// Replies to `{"count": 3}` with `{"cents":75}`, and to what is no order with 400.
#[derive(Clone, Copy, Debug)]
pub struct Orders;

impl Handler for Orders {
    fn handle(&self, request: &Request<'_>) -> Result<Reply, AppFault> {
        let alloc = request.alloc();
        match cents_of(alloc, request.body())? {
            Some(cents) => Reply::json(alloc, &json!(in alloc; { "cents": cents })?),
            None => {
                let value = json!(in alloc; { "error": "no count" })?;
                Ok(Reply {
                    status: 400,
                    ..Reply::json(alloc, &value)?
                })
            }
        }
    }
}

/// What the order costs; `None` if the bytes are no order, or cost more than a number holds.
fn cents_of(alloc: Global, body: &[u8]) -> Result<Option<u64>, AppFault> {
    let Ok(text) = str::from_utf8(body) else {
        return Ok(None);
    };
    let Some(value) = parsed(alloc, text)? else {
        return Ok(None);
    };
    match value.get("count").and_then(Value::as_u64) {
        Some(count) => Ok(count.checked_mul(PRICE)),
        None => Ok(None),
    }
}

/// The value of the text; `None` if it is no JSON.
fn parsed(alloc: Global, text: &str) -> Result<Option<Value>, AppFault> {
    match Value::from_str(alloc, text) {
        Ok(value) => Ok(Some(value)),
        Err(e) => {
            if e.is_memory() {
                return Err(AppFault::Failed);
            }
            Ok(None)
        }
    }
}
