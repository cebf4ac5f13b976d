//! What is told of connections.
use asgi_many::{Departure, Teller};

/// How many connections have ended, and how many requests they had.
#[derive(Drop)]
pub struct Sums {
    pub connections: u64,
    pub requests: u64,
}

impl Sums {
    /// None has ended.
    pub fn new() -> Self {
        Sums {
            connections: 0,
            requests: 0,
        }
    }
}

impl Teller<Departure> for Sums {
    ghost tells = { λ _ _ _ _. Unit {0} };

    fn tell(&mut self, _number: u64, departure: &Departure) {
        self.connections = self.connections.saturating_add(1);
        self.requests = self.requests.saturating_add(departure.report.exchanges);
    }
}
