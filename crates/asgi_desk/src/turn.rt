//! The book is taken in hand, and put back.
ghost use Rattle.std.specs.Prelude.{◌≡◌, ◌<◌, [], ◌++◌, Some, None};
ghost use Rattle.std.specs.List.Sorted.{IsPermutation};
ghost use Rattle.crossbeam_channel.specs.Claims.{view, IsSeatAt};
ghost use Rattle.crossbeam_channel.specs.Ends.{sends_on, receives_on};
ghost use Rattle.asgi_desk.specs.private.Book.{all_of, added, IsKept, IsKeptFrom};
ghost use Rattle.asgi_desk.specs.private.Channel.{gave, took};
ghost use Rattle.asgi_desk.specs.Hands.{hand, seated};

use crate::book::Book;
use crate::channel::{From, Gives, Hand, Opens, Takes, To};
use crate::teller::Teller;
use crossbeam_channel::Pass;
use std::sync::Wait;

/// Waits for the book.
pub fn take<N: Drop, T: Teller<N> + Drop, R: Wait>(
    rt: &R,
    from: &From<N, T>,
    seat: &mut Pass<Book<N, T>, Hand<N, T>>,
) -> Book<N, T>
    requires seat { IsSeatAt (receives_on from.now) seat.old }
    requires may { 0 < (view seat.old).parts }
    ensures seat { IsSeatAt (receives_on from.now) seat.new }
    ensures took { view seat.new ≡ took (view seat.old) result }
    ensures kept { IsKeptFrom T.tells (view seat.old).first result }
{
    for _ in rt.forever() {
        if let Ok(book) = from.recv_as::<Takes, R>(rt, seat) {
            return book;
        }
    }
    unreachable!()
}

/// Puts the book back, with what was handed in.
pub fn give<N: Drop, T: Teller<N> + Drop, R: Wait>(
    rt: &R,
    to: &To<N, T>,
    seat: &mut Pass<Book<N, T>, Hand<N, T>>,
    book: Book<N, T>,
)
    requires seat { IsSeatAt (sends_on to.now) seat.old }
    requires may { (0 < (view seat.old).parts) × ((view seat.old).books ≡ 1) }
    requires all { IsPermutation ((view seat.old).held ++ added book) (all_of book) }
    requires kept { IsKeptFrom T.tells (view seat.old).first book }
    ensures seat { IsSeatAt (sends_on to.now) seat.new }
    ensures gave { view seat.new ≡ gave (view seat.old) book }
{
    let mut back = book;
    for _ in rt.forever() {
        match to.send_as::<Gives, R>(rt, seat, back) {
            Ok(()) => return,
            Err(refused) => back = refused.into_inner(),
        }
    }
    unreachable!()
}

/// Puts the first book into the channel.
pub fn give_first<N: Drop, T: Teller<N> + Drop, R: Wait>(
    rt: &R,
    to: &To<N, T>,
    seat: &mut Pass<Book<N, T>, Hand<N, T>>,
    book: Book<N, T>,
)
    requires seat { IsSeatAt (sends_on to.now) seat.old }
    requires first { view seat.old ≡ hand 64 None [] 1 [] }
    requires none { all_of book ≡ [] }
    requires kept { IsKept T.tells book.teller book }
    ensures seat { IsSeatAt (sends_on to.now) seat.new }
    ensures gave { view seat.new ≡ seated 64 (Some book.teller) [] }
{
    let mut back = book;
    for _ in rt.forever() {
        match to.send_as::<Opens, R>(rt, seat, back) {
            Ok(()) => return,
            Err(refused) => back = refused.into_inner(),
        }
    }
    unreachable!()
}
