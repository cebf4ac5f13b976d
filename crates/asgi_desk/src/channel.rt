//! What goes through the channel of a desk, and what each seat knows of it.

use crate::book::Book;
use crate::teller::Teller;
use crossbeam_channel::protocol::{Join, Lesson, Outcome, Protocol, Split};
use crossbeam_channel::{RuledReceiver, RuledSender};
use std::collections::LinkedList;

/// What a seat knows: its parts of the right to close the desk, the teller as it was at first, the reports that were handed
/// in from it, whether it has the book in hand, and all reports in that book. No value of it is made.
pub struct Hand<N, T> {
    pub parts: u64,
    pub first: Option<T>,
    pub put: LinkedList<(u64, N)>,
    pub books: u64,
    pub held: LinkedList<(u64, N)>,
}

/// The rule of the channel.
pub struct Fair;

pub type To<N, T> = RuledSender<Book<N, T>, Hand<N, T>, Fair>;

pub type From<N, T> = RuledReceiver<Book<N, T>, Hand<N, T>, Fair>;

impl<N: Drop, T: Teller<N> + Drop> Protocol<Book<N, T>, Hand<N, T>> for Fair {
    ghost use Rattle.std.specs.Prelude.{[], None};
    ghost use Rattle.asgi_desk.specs.private.Channel.{IsFair};
    ghost use Rattle.asgi_desk.specs.Hands.{hand};

    ghost holds = { IsFair T.tells };

    ghost first = { hand 64 None [] 1 [] };
}

/// One more seat is cut from a seat.
pub struct Cut;

impl<N, T> Split<Hand<N, T>> for Cut {
    ghost use Rattle.std.specs.Prelude.{◌-◌, []};
    ghost use Rattle.asgi_desk.specs.Hands.{seated};

    ghost left = { λ v. seated (v.parts - 1) v.first v.put };

    ghost right = { λ v. seated 1 v.first [] };
}

impl<N, T> Join<Hand<N, T>> for Cut {
    ghost use Rattle.std.specs.Prelude.{◌+◌, ◌++◌, [], None};
    ghost use Rattle.asgi_desk.specs.Hands.{seated};

    ghost both = { λ v w. seated (v.parts + w.parts) v.first (v.put ++ w.put) };

    ghost spent = { seated 0 None [] };
}

/// The first book is put into the channel.
pub struct Opens;

impl<N: Drop, T: Teller<N> + Drop> Outcome<Book<N, T>, Hand<N, T>> for Opens {
    ghost use Rattle.std.specs.Prelude.{◌≡◌, Some};
    ghost use Rattle.asgi_desk.specs.Hands.{seated};

    ghost then = { λ v b w. w ≡ seated v.parts (Some b.teller) v.put };
}

impl<N: Drop, T: Teller<N> + Drop> Lesson<Book<N, T>, Hand<N, T>> for Opens {
    ghost fact = { λ _ _. Unit {0} };
}

/// The book is put back.
pub struct Gives;

impl<N: Drop, T: Teller<N> + Drop> Outcome<Book<N, T>, Hand<N, T>> for Gives {
    ghost use Rattle.std.specs.Prelude.{◌≡◌};
    ghost use Rattle.asgi_desk.specs.private.Channel.{gave};

    ghost then = { λ v b w. w ≡ gave v b };
}

impl<N: Drop, T: Teller<N> + Drop> Lesson<Book<N, T>, Hand<N, T>> for Gives {
    ghost fact = { λ _ _. Unit {0} };
}

/// The book is taken in hand.
pub struct Takes;

impl<N: Drop, T: Teller<N> + Drop> Outcome<Book<N, T>, Hand<N, T>> for Takes {
    ghost use Rattle.std.specs.Prelude.{◌≡◌};
    ghost use Rattle.asgi_desk.specs.private.Book.{IsKeptFrom};
    ghost use Rattle.asgi_desk.specs.private.Channel.{took};

    ghost then = { λ v b w. (w ≡ took v b) × IsKeptFrom T.tells v.first b };
}

impl<N: Drop, T: Teller<N> + Drop> Lesson<Book<N, T>, Hand<N, T>> for Takes {
    ghost fact = { λ _ _. Unit {0} };
}

/// The book in hand has all that was handed in.
pub struct Total;

impl<N: Drop, T: Teller<N> + Drop> Lesson<Book<N, T>, Hand<N, T>> for Total {
    ghost use Rattle.std.specs.List.Sorted.{IsPermutation};

    ghost fact = { λ v _. IsPermutation v.put v.held };
}
