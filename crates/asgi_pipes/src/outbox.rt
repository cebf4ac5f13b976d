//! What one end has put and waits to be carried to the other end.
ghost use Rattle.std.specs.Prelude.{◌≡◌, ◌<◌, ◌≤◌, ◌+◌, [], ◌∷◌, ◌++◌, length, IsTrue, ◌↔◌, IfOk, IfSome, IfNone};
ghost use Rattle.std.specs.VecDeque.{deque_capacity};

use asgi_io::History;
use std::alloc::{AllocError, Global};
use std::collections::VecDeque;

/// Items that one end has put, oldest first, each in one place.
#[derive(Drop)]
pub struct Outbox<T> {
    queue: VecDeque<T>,
    /// All places of this direction, here and at the other end.
    places: usize,
    /// The places that items take at the other end, as far as this end knows.
    away: usize,
    /// What was carried on.
    passed: History<T>,
    ghost fits: { length queue.items + away ≤ places },
    ghost reserved: { deque_capacity queue ≡ places },
}

impl<T: Drop> Outbox<T> {
    ghost use Rattle.asgi_pipes.specs.Boxes.{put_by, free_in, IsNewOutbox};

    /// An empty one, for `places` items. All its places are reserved here, and no later call
    /// allocates memory; `AllocError` if that memory is refused.
    pub fn with_places(alloc: Global, places: usize) -> Result<Outbox<T>, AllocError>
        ensures { IfOk result (λ made. IsNewOutbox places made) }
    {
        let queue = VecDeque::with_capacity(alloc, places)?;
        Ok(Outbox {
            queue,
            places,
            away: 0,
            passed: History::new(),
        })
    }

    /// Empties the box for a new pair, with the same places. What waits here is dropped.
    pub fn clear(&mut self)
        ensures { IsNewOutbox self.old.places self.new }
    {
        self.queue.clear();
        self.away = 0;
        self.passed = History::new();
    }

    /// Whether there are places for `ring` events, and the reserved one.
    pub fn has_ring(&self, ring: usize) -> bool
        ensures { IsTrue result ↔ (self.now.places ≡ ring + 1) }
    {
        if self.places <= ring {
            return false;
        }
        self.places - 1 == ring
    }

    /// The places that are free, as far as this end knows.
    pub fn free(&self) -> usize
        ensures { result ≡ free_in self.now }
    {
        self.places - (self.queue.len() + self.away)
    }

    /// Puts one item after the others.
    pub fn put(&mut self, item: T)
        requires { 0 < free_in self.old }
        ensures put { put_by self.new ≡ put_by self.old ++ item ∷ [] }
        ensures free { free_in self.old ≡ free_in self.new + 1 }
        ensures same { (self.new.passed.items ≡ self.old.passed.items) × (self.new.away ≡ self.old.away) × (self.new.places ≡ self.old.places) }
        ensures capacity { deque_capacity self.new.queue ≡ deque_capacity self.old.queue }
    {
        self.queue.push_back_reserved(item);
    }

    /// The items that wait to be carried.
    pub fn len(&self) -> usize
        ensures { result ≡ length self.now.queue.items }
    {
        self.queue.len()
    }

    /// Passes the oldest item on to the other end, or returns `None` if none waits. Its place
    /// counts as taken there.
    pub fn pass(&mut self) -> Option<T>
        ensures some { IfSome result (λ item. (self.new.passed.items ≡ self.old.passed.items ++ item ∷ []) × (self.old.queue.items ≡ item ∷ self.new.queue.items) × (self.new.away ≡ self.old.away + 1)) }
        ensures none { IfNone result ((self.old.queue.items ≡ []) × (self.new.queue.items ≡ []) × (self.new.passed.items ≡ self.old.passed.items) × (self.new.away ≡ self.old.away)) }
        ensures places { self.new.places ≡ self.old.places }
        ensures capacity { deque_capacity self.new.queue ≡ deque_capacity self.old.queue }
    {
        let item = self.queue.pop_front()?;
        self.passed = History::with(&self.passed, &item);
        self.away += 1;
        Some(item)
    }

    /// Records how many items wait at the other end, so that the places of all others are free.
    pub fn hear_of(&mut self, away: usize)
        requires { length self.old.queue.items + away ≤ self.old.places }
        ensures away { self.new.away ≡ away }
        ensures same { (self.new.queue.items ≡ self.old.queue.items) × (self.new.passed.items ≡ self.old.passed.items) × (self.new.places ≡ self.old.places) }
        ensures capacity { deque_capacity self.new.queue ≡ deque_capacity self.old.queue }
    {
        self.away = away;
    }
}
