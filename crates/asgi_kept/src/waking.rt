//! An end of the connection that wakes the other half.
ghost use Rattle.std.specs.Prelude.{◌≡◌};

use crate::resting::Bell;
use asgi_pipes::{ConnEnd, OutItem};
use asgi_types::Incoming;

/// An end of the connection which wakes the application's half with each item that it puts or takes, and counts them.
#[derive(Drop)]
pub struct Waking<C> {
    /// The end.
    pub end: C,
    /// What wakes.
    pub bell: Bell,
    moves: u64,
}

impl<C: ConnEnd> Waking<C> {
    /// Over this end. Nothing was put or taken yet.
    pub fn new(end: C, bell: Bell) -> Self
        ensures { result.end ≡ end }
    {
        Waking {
            end,
            bell,
            moves: 0,
        }
    }

    /// How many items were put or taken. The count stays at 2^64 - 1.
    pub fn moves(&self) -> u64 {
        self.moves
    }

    /// One more item was put or taken.
    fn wake(&mut self)
        ensures { self.new.end ≡ self.old.end }
    {
        self.moves = self.moves.saturating_add(1);
        self.bell.ring();
    }
}

impl<C: ConnEnd> ConnEnd for Waking<C> {
    ghost Tag = { C.Tag };

    ghost tag = { λ w. C.tag w.end };

    ghost ring = { λ w. C.ring w.end };

    ghost capacity = { λ w. C.capacity w.end };

    ghost offered = { λ w. C.offered w.end };

    ghost is_broken = { λ w. C.is_broken w.end };

    ghost room = { λ w. C.room w.end };

    ghost got = { λ w. C.got w.end };

    ghost seen = { λ w. C.seen w.end };

    fn offer(&mut self, event: Incoming) -> Result<(), Incoming> {
        self.end.offer(event)?;
        self.wake();
        Ok(())
    }

    fn offer_disconnect(&mut self, event: Incoming) -> bool {
        if !self.end.offer_disconnect(event) {
            return false;
        }
        self.wake();
        true
    }

    fn take(&mut self) -> Option<OutItem> {
        let item = self.end.take()?;
        self.wake();
        Some(item)
    }
}
