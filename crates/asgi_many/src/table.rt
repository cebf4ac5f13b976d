//! A table of seats, and what a turn of one does.
ghost use Rattle.std.specs.Prelude.{◌<◌, ◌≤◌, ◌^◌};

use crate::seat::{Ended, Seat};
use asgi_halves::Piece;
use asgi_types::Limits;
use slab::Slab;
use std::alloc::Global;

/// What a turn of a seat did.
#[derive(Drop)]
pub enum Turned<L> {
    /// Nobody sits there, so nothing was done.
    NoOne,
    /// Something moved, and more may move at once.
    Moved,
    /// Nothing moved.
    Idle,
    /// The connection has ended, and its seat is free.
    Over(Ended<L>),
}

/// Seats for connections, each of which is taken up turn by turn. `X` is what their runner keeps of an exchange.
#[derive(Drop)]
pub struct Table<X, L> {
    pub(crate) alloc: Global,
    pub(crate) limits: Limits,
    pub(crate) seats: Slab<Seat<X, L>>,
    /// The buffer of all of them: each has it for its turn.
    pub(crate) piece: Piece,
    /// How many may sit at a time.
    pub(crate) places: usize,
    /// How many have come.
    pub(crate) came: u64,
    ghost room: { places ≤ seats.capacity },
    ghost few: { came < 2 ^ 64 },
}
