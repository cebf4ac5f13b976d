//! What goes through the channel, and what each pass knows of it.
use asgi_desk::Place;
use crossbeam_channel::protocol::{Join, Lesson, Outcome, Protocol, Split};
use crossbeam_channel::{Pass, RuledReceiver, RuledSender};
use std::collections::LinkedList;

/// An item under its number, with the place for its report.
#[derive(Drop)]
pub struct Task<C: Drop, N: Drop> {
    pub(crate) number: u64,
    pub(crate) item: C,
    pub(crate) place: Place<N>,
}

/// An item, or the end of a worker.
#[derive(Drop)]
pub enum Mark<C: Drop, N: Drop> {
    /// An item that is to be served.
    Item(Task<C, N>),
    /// The worker that takes it takes no more.
    Stop,
}

// What a pass gave and took, the stops that it gave and took, whether it may give, and its parts of the right to know the
// whole. No value of it is made.
pub struct Hand<C> {
    pub parts: u64,
    pub gives: u64,
    pub given: LinkedList<(u64, C)>,
    pub taken: LinkedList<(u64, C)>,
    pub shut: u64,
    pub ended: u64,
}

pub struct Fair;

pub type To<C, N> = RuledSender<Mark<C, N>, Hand<C>, Fair>;

pub type From<C, N> = RuledReceiver<Mark<C, N>, Hand<C>, Fair>;

pub type Knows<C, N> = Pass<Mark<C, N>, Hand<C>>;

impl<C: Drop, N: Drop> Protocol<Mark<C, N>, Hand<C>> for Fair {
    ghost use Rattle.std.specs.Prelude.{[]};
    ghost use Rattle.asgi_crew.specs.private.Channel.{hand, IsFair};

    ghost holds = { IsFair };

    ghost first = { hand 64 1 [] [] 0 0 };
}

// A worker's pass is cut from the giver's.
pub struct Cut;

impl<C> Split<Hand<C>> for Cut {
    ghost use Rattle.std.specs.Prelude.{◌-◌, []};
    ghost use Rattle.asgi_crew.specs.private.Channel.{hand};

    ghost left = { λ v. hand (v.parts - 1) v.gives v.given v.taken v.shut v.ended };

    ghost right = { λ v. hand 1 0 [] [] 0 0 };
}

impl<C> Join<Hand<C>> for Cut {
    ghost use Rattle.std.specs.Prelude.{◌+◌, ◌++◌, []};
    ghost use Rattle.asgi_crew.specs.private.Channel.{hand};

    ghost both = { λ v w. hand (v.parts + w.parts) v.gives v.given (v.taken ++ w.taken) v.shut (v.ended + w.ended) };

    ghost spent = { hand 0 0 [] [] 0 0 };
}

pub struct Gives;

impl<C: Drop, N: Drop> Outcome<Mark<C, N>, Hand<C>> for Gives {
    ghost use Rattle.std.specs.Prelude.{◌≡◌};
    ghost use Rattle.asgi_crew.specs.private.Channel.{gave};

    ghost then = { λ v x w. w ≡ gave v x };
}

impl<C: Drop, N: Drop> Lesson<Mark<C, N>, Hand<C>> for Gives {
    ghost fact = { λ _ _. Unit {0} };
}

pub struct Takes;

impl<C: Drop, N: Drop> Outcome<Mark<C, N>, Hand<C>> for Takes {
    ghost use Rattle.std.specs.Prelude.{◌≡◌};
    ghost use Rattle.asgi_crew.specs.private.Channel.{took};

    ghost then = { λ v x w. w ≡ took v x };
}

impl<C: Drop, N: Drop> Lesson<Mark<C, N>, Hand<C>> for Takes {
    ghost fact = { λ _ _. Unit {0} };
}

// No more was taken than was given.
pub struct Bound;

impl<C: Drop, N: Drop> Lesson<Mark<C, N>, Hand<C>> for Bound {
    ghost use Rattle.std.specs.Prelude.{◌≤◌, length};

    ghost fact = { λ v _. length v.taken ≤ length v.given };
}

pub struct Total;

impl<C: Drop, N: Drop> Lesson<Mark<C, N>, Hand<C>> for Total {
    ghost use Rattle.asgi_crew.specs.private.Channel.{Adds};

    ghost fact = { Adds };
}
