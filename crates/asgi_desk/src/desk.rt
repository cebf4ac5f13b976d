//! Where reports are handed in from many threads, and passed to the teller.
ghost use Rattle.std.specs.Prelude.{◌≡◌, ◌+◌, ◌-◌, ◌<◌, [], ◌∷◌, ◌++◌, Some, length, IfOk, IfErr};
ghost use Rattle.std.specs.List.Sorted.{IsPermutation};
ghost use Rattle.asgi_desk.specs.Told.{Told, numbers_of, one_to};
ghost use Rattle.asgi_desk.specs.Hands.{seated, IsFree};
ghost use Rattle.asgi_desk.specs.Seat.{knows, IsSeatOf};

use crate::book::Book;
use crate::channel::{Cut, Fair, From, Hand, To, Total};
use crate::place::Place;
use crate::teller::Teller;
use crate::turn::{give, give_first, take};
use asgi_io::History;
use crossbeam_channel::{Pass, bounded_with};
use std::alloc::{AllocFailed, Global};
use std::sync::Wait;

/// What a thread hands reports in from, and what it knows of that. Has no bytes.
pub type Seat<N, T> = Pass<Book<N, T>, Hand<N, T>>;

/// The two ends of the channel that the book goes through.
#[derive(Drop)]
pub struct Ends<S: Drop, R: Drop> {
    pub(crate) to: S,
    pub(crate) from: R,
}

/// Where reports are handed in. Its teller gets each once, in the order of the numbers.
// A struct of its own, with the bound of `Teller` on it, is not proved to be `Sync`.
pub type Desk<N, T> = Ends<To<N, T>, From<N, T>>;

impl<N: Drop, T: Teller<N> + Drop> Desk<N, T> {
    /// A desk with this teller, and the first seat. If memory is refused, the teller is returned.
    pub fn open<R: Wait>(
        rt: &R,
        alloc: Global,
        teller: T,
    ) -> Result<(Desk<N, T>, Seat<N, T>), AllocFailed<T>>
        ensures seat { IfOk result (λ r. IsSeatOf r.0 r.1) }
        ensures first { IfOk result (λ r. knows r.1 ≡ seated 64 (Some teller) []) }
        ensures back { IfErr result (λ e. e.value ≡ teller) }
    {
        let Ok((to, from, mut seat)) = bounded_with::<Book<N, T>, Hand<N, T>, Fair, Global>(
            alloc, 1,
        ) else {
            return Err(AllocFailed { value: teller });
        };
        give_first(rt, &to, &mut seat, Book::new(teller));
        Ok((Ends { to, from }, seat))
    }

    /// One more seat, for another thread.
    pub fn seat(&self, seat: &mut Seat<N, T>) -> Seat<N, T>
        requires seat { IsSeatOf self.now seat.old }
        requires may { (1 < (knows seat.old).parts) × IsFree (knows seat.old) }
        ensures seat { IsSeatOf self.now seat.new × IsSeatOf self.now result }
        ensures left { knows seat.new ≡ seated ((knows seat.old).parts - 1) (knows seat.old).first (knows seat.old).put }
        ensures new { knows result ≡ seated 1 (knows seat.old).first [] }
    {
        self.to.another::<Cut>(seat)
    }

    /// Hands in the report of this number. Takes no memory.
    pub fn hand_in<R: Wait>(
        &self,
        rt: &R,
        seat: &mut Seat<N, T>,
        number: u64,
        report: N,
        place: Place<N>,
    )
        requires seat { IsSeatOf self.now seat.old }
        requires may { (0 < (knows seat.old).parts) × IsFree (knows seat.old) }
        ensures seat { IsSeatOf self.now seat.new }
        ensures put { knows seat.new ≡ seated (knows seat.old).parts (knows seat.old).first ((knows seat.old).put ++ (number, report) ∷ []) }
    {
        let mut book = take(rt, &self.from, seat);
        book.hand_in(number, report, place);
        give(rt, &self.to, seat, book);
    }

    /// Takes in what another seat knows, which no thread uses any more.
    pub fn rejoin(&self, seat: &mut Seat<N, T>, other: Seat<N, T>)
        requires seat { IsSeatOf self.now seat.old × IsSeatOf self.now other }
        requires may { (0 < (knows seat.old).parts) × IsFree (knows seat.old) × IsFree (knows other) }
        ensures seat { IsSeatOf self.now seat.new }
        ensures both { knows seat.new ≡ seated ((knows seat.old).parts + (knows other).parts) (knows seat.old).first ((knows seat.old).put ++ (knows other).put) }
    {
        self.to.absorb::<Cut>(seat, other);
    }

    /// The teller, and the list of all reports in the order of their numbers, which clauses alone read, once all seats have
    /// rejoined.
    pub fn close<R: Wait>(self, rt: &R, mut seat: Seat<N, T>) -> (T, History<(u64, N)>)
        requires seat { IsSeatOf self seat }
        requires whole { ((knows seat).parts ≡ 64) × IsFree (knows seat) }
        requires numbers { IsPermutation (one_to (length (knows seat).put)) (numbers_of (knows seat).put) }
        ensures each { IsPermutation (knows seat).put result.1.items }
        ensures in_order { numbers_of result.1.items ≡ one_to (length (knows seat).put) }
        ensures told { (was : T) → (knows seat).first ≡ Some was → Told T.tells was result.0 result.1.items }
    {
        let book = take(rt, &self.from, &mut seat);
        self.to.learn_as::<Total>(&mut seat);
        book.into_told()
    }
}
