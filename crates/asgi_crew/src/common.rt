//! What the workers borrow, and what the giver holds.

use crate::channel::{Knows, To};
use asgi_desk::Seat;
use std::alloc::Global;

/// What all workers borrow: how items are served, their end of the channel, and the desk where they hand in reports.
// With the bound of `Teller` on it, it is not proved to be `Sync`: so it has parameters for the end and the desk.
#[derive(Drop)]
pub struct Common<'a, F, D, E, R> {
    pub rt: &'a R,
    pub how: &'a E,
    pub from: &'a F,
    pub desk: &'a D,
}

/// What the giver holds: where memory for reports is from, its end of the channel, and its pass and its seat, from which
/// those of the workers are cut.
#[derive(Drop)]
pub struct Held<'a, C: Drop, N: Drop, T: Drop> {
    pub alloc: Global,
    pub to: &'a To<C, N>,
    pub pass: Knows<C, N>,
    pub seat: Seat<N, T>,
}
