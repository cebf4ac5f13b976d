//! The end of the connection, with queues of its own.
ghost use Rattle.std.specs.Prelude.{◌≡◌, ◌<◌, false};
ghost use Rattle.asgi_pipes.specs.Boxes.{free_in};

use crate::ends::ConnEnd;
use crate::inbox::Inbox;
use crate::items::OutItem;
use crate::outbox::Outbox;
use asgi_types::Incoming;

/// The end of the connection, for one thread: see `Plain::carry`.
#[derive(Drop)]
pub struct PlainConn {
    pub(crate) out: Outbox<Incoming>,
    pub(crate) inn: Inbox<OutItem>,
    pub(crate) broken: bool,
    ghost reserved: { broken ≡ false → 0 < free_in out },
    ghost same_places: { inn.places ≡ out.places },
}

impl PlainConn {
    ghost use Rattle.asgi_pipes.specs.Boxes.{IsNewOutbox, IsNewInbox};

    /// The end of a new pair, with these queues.
    pub(crate) fn new(out: Outbox<Incoming>, inn: Inbox<OutItem>) -> PlainConn
        requires { (inn.places ≡ out.places) × (0 < free_in out) }
        ensures { (result.out ≡ out) × (result.inn ≡ inn) × (result.broken ≡ false) }
    {
        PlainConn {
            out,
            inn,
            broken: false,
        }
    }

    /// The end of a new pair, with the queues of this one. What is left in them is dropped.
    pub(crate) fn renewed(self) -> PlainConn
        requires { 0 < self.out.places }
        ensures out { IsNewOutbox self.out.places result.out }
        ensures inn { IsNewInbox self.out.places result.inn }
        ensures broken { result.broken ≡ false }
    {
        let PlainConn {
            mut out,
            mut inn,
            broken: _,
        } = self;
        out.clear();
        inn.clear();
        PlainConn::new(out, inn)
    }
}

impl ConnEnd for PlainConn {
    ghost use Rattle.std.specs.Prelude.{◌-◌};
    ghost use Rattle.std.specs.VecDeque.{deque_capacity};
    ghost use Rattle.asgi_pipes.specs.Boxes.{put_by, free_in, carriage_from, carriage_to};
    ghost use Rattle.asgi_pipes.specs.Pairs.{Carried, carried};

    ghost Tag = { Carried };

    ghost tag = { λ s. carried (carriage_from s.out) (carriage_to s.inn) };

    ghost ring = { λ s. s.out.places - 1 };

    ghost capacity = { λ s. (deque_capacity s.out.queue, deque_capacity s.inn.queue) };

    ghost offered = { λ s. put_by s.out };

    ghost is_broken = { λ s. s.broken };

    ghost room = { λ s. free_in s.out - 1 };

    ghost got = { λ s. s.inn.taken.items };

    ghost seen = { λ s. s.inn.queue.items };

    fn offer(&mut self, event: Incoming) -> Result<(), Incoming> {
        if self.broken {
            return Err(event);
        }
        if self.out.free() < 2 {
            return Err(event);
        }
        self.out.put(event);
        Ok(())
    }

    fn offer_disconnect(&mut self, event: Incoming) -> bool {
        if self.broken {
            return false;
        }
        self.out.put(event);
        self.broken = true;
        true
    }

    fn take(&mut self) -> Option<OutItem> {
        self.inn.take()
    }
}
