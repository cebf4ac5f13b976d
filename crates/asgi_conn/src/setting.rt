//! What a connection is served with.
use asgi_types::{Peer, State};

/// What a connection is served with, the same at each of its turns: its client and its server, and the state
/// that each scope holds a copy of.
#[derive(Drop)]
pub struct Setting<'a> {
    pub client: &'a Option<Peer>,
    pub server: &'a Option<Peer>,
    pub state: &'a State,
}
