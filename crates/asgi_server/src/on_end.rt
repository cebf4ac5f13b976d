//! What is called as each connection ends.
use asgi_conn::Report;
use asgi_types::Peer;

/// What is called when a connection ends, in the thread that served it, whatever the other connections do. No clause has what it
/// does, as one has what a `Teller` gets.
pub trait OnEnd {
    /// A connection of this client ended, with this report. The thread that served it waits meanwhile, and so do all connections that
    /// it serves. A worker has closed the line by then; a thread of many connections closes it after this call.
    fn ended(&self, report: &Report, client: &Option<Peer>);
}

/// Does nothing.
#[derive(Clone, Copy, Debug)]
pub struct Nobody;

impl OnEnd for Nobody {
    fn ended(&self, _report: &Report, _client: &Option<Peer>) {}
}
