//! How many connections several reactors of one socket accept together.
ghost use Rattle.std.specs.Prelude.{◌≡◌, ◌+◌, ◌<◌, ◌≤◌, true, false, [], IfOk, IsTrue, IsFalse};
ghost use Rattle.asgi_reactor.specs.Tickets.{IsFair, tally};

use atomic_table::{Join, Play, Seat, Table, TableRule};
use std::alloc::{AllocError, Global};

/// What a thread has of a quota: how many tickets are in hand, how many it has spent, and whether it found that each was. No value of
/// it is made.
pub struct Tally {
    pub held: u64,
    pub spent: u64,
    pub over: bool,
}

/// The rule of a quota.
pub struct Fair;

impl TableRule<(), Tally, u64> for Fair {
    ghost holds = { IsFair };

    ghost first = { λ _. tally 0 0 false };
}

struct Enters;

impl Play<(), Tally> for Enters {
    ghost use Rattle.asgi_reactor.specs.private.Steps.{enters};

    ghost then = { enters };
}

struct Takes;

impl Play<(), Tally> for Takes {
    ghost use Rattle.asgi_reactor.specs.private.Steps.{takes};

    ghost then = { takes };
}

struct GivesBack;

impl Play<(), Tally> for GivesBack {
    ghost use Rattle.asgi_reactor.specs.private.Steps.{gives_back};

    ghost then = { gives_back };
}

struct Spends;

impl Play<(), Tally> for Spends {
    ghost use Rattle.asgi_reactor.specs.private.Steps.{spends};

    ghost then = { spends };
}

struct Looks;

impl Play<(), Tally> for Looks {
    ghost use Rattle.asgi_reactor.specs.private.Steps.{looks};

    ghost then = { looks };
}

struct Settles;

impl Play<(), Tally> for Settles {
    ghost use Rattle.asgi_reactor.specs.private.Steps.{settles};

    ghost then = { settles };
}

// What two have is one's.
struct Both;

impl Join<Tally> for Both {
    ghost both = { λ v w. tally (v.held + w.held) (v.spent + w.spent) v.over };

    ghost spent = { tally 0 0 false };
}

/// The word that counts the tickets that nobody has taken.
const FREE: usize = 0;

/// The word that counts those for which no connection has come.
const LEFT: usize = 1;

/// How many more connections the reactors that share it accept together. A ticket is taken before each accept, and given back if no
/// connection came: so they never accept more, and none of them ends while one may still come.
#[derive(Drop)]
pub struct Quota {
    count: u64,
    table: Table<(), Tally, u64, Fair, Global>,
    ghost counted: { (count ≡ table.shared.key) × (table.shared.table_id.words ≡ 2) },
}

/// What takes the tickets of a quota, in one thread.
#[derive(Drop)]
pub struct Ticketer<'a> {
    quota: &'a Quota,
    seat: Seat<(), Tally>,
    ghost seated: { (seat.table_id ≡ quota.now.table.shared.table_id) × (seat.me.1 ≡ []) },
}

impl Quota {
    /// So many connections.
    pub fn new(alloc: Global, count: u64) -> Result<Self, AllocError>
        ensures { IfOk result (λ quota. quota.count ≡ count) }
    {
        let (table, _seat) = Table::of_words(alloc, &[count, count], &count)?;
        Ok(Quota { count, table })
    }

    /// One more that takes tickets, which has none.
    pub fn ticketer(&self) -> Ticketer<'_>
        ensures of { result.quota.now ≡ self.now }
        ensures none { result.seat.me.0 ≡ tally 0 0 false }
    {
        let (_free, seat) = self.table.shared.load_new_seat::<Enters>(FREE);
        Ticketer { quota: self, seat }
    }
}

impl<'a> Ticketer<'a> {
    /// One more of the same quota, which has no ticket.
    pub(crate) fn another(&self) -> Ticketer<'a>
        ensures of { result.quota.now ≡ self.now.quota.now }
        ensures none { result.seat.me.0 ≡ tally 0 0 false }
    {
        self.quota.ticketer()
    }

    /// Whether a connection has come for each ticket.
    pub fn is_over(&mut self) -> bool
        ensures of { self.new.quota ≡ self.old.quota }
        ensures same { (self.new.seat.me.0.held ≡ self.old.seat.me.0.held) × (self.new.seat.me.0.spent ≡ self.old.seat.me.0.spent) }
        ensures yes { IsTrue result → self.new.seat.me.0.over ≡ true }
    {
        let left = self.quota.table.shared.load::<Looks>(&mut self.seat, LEFT);
        left == 0
    }

    /// Takes a ticket, unless the others have taken all.
    pub fn take(&mut self) -> bool
        ensures of { self.new.quota ≡ self.old.quota }
        ensures yes { IsTrue result → self.new.seat.me.0 ≡ tally (self.old.seat.me.0.held + 1) self.old.seat.me.0.spent self.old.seat.me.0.over }
        ensures no { IsFalse result → self.new.seat.me.0 ≡ self.old.seat.me.0 }
    {
        let mut free = self.quota.table.shared.peek(FREE);
        for _try in 0..u64::MAX {
            if free == 0 {
                return false;
            }
            let found = self
                .quota
                .table
                .shared
                .compare_exchange::<Takes>(&mut self.seat, FREE, free, free - 1);
            if found == free {
                return true;
            }
            free = found;
        }
        false
    }

    /// Gives back one that is in hand, since no connection came.
    pub fn give_back(&mut self)
        requires { 0 < self.old.seat.me.0.held }
        ensures of { self.new.quota ≡ self.old.quota }
        ensures held { self.old.seat.me.0.held ≡ self.new.seat.me.0.held + 1 }
        ensures same { (self.new.seat.me.0.spent ≡ self.old.seat.me.0.spent) × (self.new.seat.me.0.over ≡ self.old.seat.me.0.over) }
    {
        self.quota
            .table
            .shared
            .fetch_add::<GivesBack>(&mut self.seat, FREE, 1);
    }

    /// Spends one that is in hand, since a connection came.
    pub fn spend(&mut self)
        requires { 0 < self.old.seat.me.0.held }
        ensures of { self.new.quota ≡ self.old.quota }
        ensures held { self.old.seat.me.0.held ≡ self.new.seat.me.0.held + 1 }
        ensures spent { self.new.seat.me.0.spent ≡ self.old.seat.me.0.spent + 1 }
        ensures same { self.new.seat.me.0.over ≡ self.old.seat.me.0.over }
    {
        self.quota
            .table
            .shared
            .fetch_sub::<Spends>(&mut self.seat, LEFT, 1);
    }

    /// Takes in what another one of the same quota has in hand and has spent.
    pub fn absorb(&mut self, other: Ticketer<'_>)
        requires { other.quota.now ≡ self.old.quota.now }
        ensures of { self.new.quota ≡ self.old.quota }
        ensures both { let was = self.old.seat.me.0 in let others = other.entry.seat.me.0 in
            self.new.seat.me.0 ≡ tally (was.held + others.held) (was.spent + others.spent) was.over }
    {
        let Ticketer {
            quota: _quota,
            seat,
        } = other;
        self.quota
            .table
            .shared
            .join_seat::<Both>(&mut self.seat, seat);
    }

    /// Shows that no more were spent than there were.
    pub fn settle(&mut self)
        ensures same { (self.new.quota ≡ self.old.quota) × (self.new.seat.me.0 ≡ self.old.seat.me.0) }
        ensures few { self.new.seat.me.0.spent ≤ self.new.quota.now.count }
    {
        let count = self.quota.count;
        // No word changes: it becomes what it is.
        self.quota
            .table
            .shared
            .compare_exchange::<Settles>(&mut self.seat, FREE, count, count);
    }
}
