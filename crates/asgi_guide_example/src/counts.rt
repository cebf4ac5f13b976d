//! What requests share: a counter.
use nomtsage::{AppFault, Handler, Reply, Request};
use std::sync::atomic::{AtomicU64, Ordering};

/// Replies to each request with its number, from 1 on.
#[derive(Drop)]
pub struct Counts {
    replies: AtomicU64,
}

impl Counts {
    /// No request came yet.
    pub fn new() -> Self {
        Counts {
            replies: AtomicU64::new(0),
        }
    }
}

impl Handler for Counts {
    fn handle(&self, request: &Request<'_>) -> Result<Reply, AppFault> {
        let alloc = request.alloc();
        let before = self.replies.fetch_add(1, Ordering::SeqCst);
        let line = format!(in alloc; "request {}\n", before.saturating_add(1))?;
        Reply::text(alloc, line.as_str())
    }
}
