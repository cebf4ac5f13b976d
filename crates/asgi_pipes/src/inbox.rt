//! What was carried to one end and waits to be taken.
ghost use Rattle.std.specs.Prelude.{◌≡◌, ◌<◌, ◌≤◌, ◌+◌, [], ◌∷◌, ◌++◌, length, IfOk, IfSome, IfNone};
ghost use Rattle.std.specs.VecDeque.{deque_capacity};

use asgi_io::History;
use std::alloc::{AllocError, Global};
use std::collections::VecDeque;

/// Items that were carried to one end, oldest first, each in one place.
#[derive(Drop)]
pub struct Inbox<T> {
    queue: VecDeque<T>,
    /// All places of this direction, here and at the other end.
    places: usize,
    /// The items that waited here when items were last carried.
    arrived: usize,
    /// What was taken out.
    taken: History<T>,
    ghost fewer: { length queue.items ≤ arrived },
    ghost fits: { arrived ≤ places },
    ghost reserved: { deque_capacity queue ≡ places },
}

impl<T: Drop> Inbox<T> {
    ghost use Rattle.asgi_pipes.specs.Boxes.{IsNewInbox};

    /// An empty one, for `places` items. All its places are reserved here, and no later call
    /// allocates memory; `AllocError` if that memory is refused.
    pub fn with_places(alloc: Global, places: usize) -> Result<Inbox<T>, AllocError>
        ensures { IfOk result (λ made. IsNewInbox places made) }
    {
        let queue = VecDeque::with_capacity(alloc, places)?;
        Ok(Inbox {
            queue,
            places,
            arrived: 0,
            taken: History::new(),
        })
    }

    /// Empties the box for a new pair, with the same places. What waits here is dropped.
    pub fn clear(&mut self)
        ensures { IsNewInbox self.old.places self.new }
    {
        self.queue.clear();
        self.arrived = 0;
        self.taken = History::new();
    }

    /// Takes the oldest item, or `None` if none waits.
    pub fn take(&mut self) -> Option<T>
        ensures some { IfSome result (λ item. (self.new.taken.items ≡ self.old.taken.items ++ item ∷ []) × (self.old.queue.items ≡ item ∷ self.new.queue.items)) }
        ensures none { IfNone result ((self.old.queue.items ≡ []) × (self.new.queue.items ≡ []) × (self.new.taken.items ≡ self.old.taken.items)) }
        ensures same { (self.new.arrived ≡ self.old.arrived) × (self.new.places ≡ self.old.places) }
        ensures capacity { deque_capacity self.new.queue ≡ deque_capacity self.old.queue }
    {
        let item = self.queue.pop_front()?;
        self.taken = History::with(&self.taken, &item);
        Some(item)
    }

    /// How many items wait to be taken.
    pub fn len(&self) -> usize
        ensures { result ≡ length self.now.queue.items }
    {
        self.queue.len()
    }

    /// Puts an item that was carried here after the others.
    pub fn accept(&mut self, item: T)
        requires { self.old.arrived < self.old.places }
        ensures queue { self.new.queue.items ≡ self.old.queue.items ++ item ∷ [] }
        ensures arrived { self.new.arrived ≡ self.old.arrived + 1 }
        ensures same { (self.new.taken.items ≡ self.old.taken.items) × (self.new.places ≡ self.old.places) }
        ensures capacity { deque_capacity self.new.queue ≡ deque_capacity self.old.queue }
    {
        self.queue.push_back_reserved(item);
        self.arrived += 1;
    }

    /// Counts the items that wait here, for the other end to know.
    pub fn count(&mut self) -> usize
        ensures count { (result ≡ length self.old.queue.items) × (self.new.arrived ≡ length self.old.queue.items) }
        ensures same { (self.new.queue.items ≡ self.old.queue.items) × (self.new.taken.items ≡ self.old.taken.items) × (self.new.places ≡ self.old.places) }
        ensures capacity { deque_capacity self.new.queue ≡ deque_capacity self.old.queue }
    {
        self.arrived = self.queue.len();
        self.arrived
    }
}
