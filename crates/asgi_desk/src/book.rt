//! The one book of a desk: the seat that has it in hand may call the teller.
ghost use Rattle.std.specs.Prelude.{◌≡◌, ℕ, [], ◌∷◌, ◌++◌};
ghost use Rattle.std.specs.List.Sorted.{IsPermutation};
ghost use Rattle.asgi_desk.specs.private.Book.{all_of, added, Keeps, IsKept};

use crate::place::Place;
use crate::teller::Teller;
use crate::waiting::{Entry, Waiting, merged};
use asgi_io::History;
use std::mem;
use std::snapshot::Snapshot;

/// The report that was handed in last. Has no bytes of its own.
#[derive(Drop)]
pub enum Last<N> {
    /// None was handed in.
    Unused,
    /// This one.
    Put(Snapshot<(u64, N)>),
}

/// How many reports the teller got, the list of these, which takes no bytes, those that wait, and the teller.
#[derive(Drop)]
pub struct Book<N: Drop, T: Drop> {
    pub(crate) count: u64,
    pub(crate) told: History<(u64, N)>,
    pub(crate) waiting: Waiting<N>,
    pub(crate) teller: T,
    pub(crate) last: Last<N>,
}

impl<N: Drop, T: Teller<N> + Drop> Book<N, T> {
    /// A book with no report.
    pub(crate) fn new(teller: T) -> Book<N, T>
        ensures none { (all_of result ≡ []) × (result.teller ≡ teller) }
        ensures kept { IsKept T.tells teller result }
    {
        let told = History::new();
        Book {
            count: 0,
            told,
            waiting: Waiting::Empty,
            teller,
            last: Last::Unused,
        }
    }

    /// Takes the report in, to wait.
    fn add(&mut self, number: u64, report: N, place: Place<N>)
        ensures all { IsPermutation (all_of self.old ++ (number, report) ∷ []) (all_of self.new) }
        ensures last { added self.new ≡ (number, report) ∷ [] }
        ensures keeps { (was : T) → Keeps T.tells was self.old → Keeps T.tells was self.new }
    {
        let put = (number, report);
        self.last = Last::Put(Snapshot::of(&put));
        let (number, report) = put;
        let one = Waiting::one(number, report, place);
        let others = mem::replace(&mut self.waiting, Waiting::Empty);
        self.waiting = merged(others, one);
    }

    /// Passes one report, whose turn it is, to the teller.
    fn tell(&mut self, entry: Entry<N>)
        ensures told { self.new.told.items ≡ self.old.told.items ++ (entry.number, entry.report) ∷ [] }
        ensures tells { T.tells self.old.teller self.new.teller entry.number entry.report }
        ensures count { self.new.count ≡ entry.number }
        ensures same { (self.new.waiting ≡ self.old.waiting) × (self.new.last ≡ self.old.last) }
    {
        let Entry { number, report } = entry;
        self.teller.tell(number, &report);
        let told = (number, report);
        self.told = History::with(&self.told, &told);
        self.count = number;
    }

    /// Passes each report whose turn it is to the teller, in order.
    fn tell_due(&mut self)
        ensures all { IsPermutation (all_of self.old) (all_of self.new) }
        ensures last { added self.new ≡ added self.old }
        ensures kept { (was : T) → Keeps T.tells was self.old → IsKept T.tells was self.new }
    {
        loop {
            let count = self.count;
            let Some(entry) = self.waiting.take_due(count) else {
                return;
            };
            self.tell(entry);
        }
    }

    /// Takes the report in, and passes each whose turn it is to the teller.
    pub(crate) fn hand_in(&mut self, number: u64, report: N, place: Place<N>)
        ensures all { IsPermutation (all_of self.old ++ added self.new) (all_of self.new) }
        ensures last { added self.new ≡ (number, report) ∷ [] }
        ensures kept { (was : T) → Keeps T.tells was self.old → IsKept T.tells was self.new }
    {
        self.add(number, report, place);
        self.tell_due();
    }

    /// The teller, and the list of the reports that it got, in order.
    pub(crate) fn into_told(self) -> (T, History<(u64, N)>)
        ensures { (result.0 ≡ self.teller) × (result.1.items ≡ self.told.items) }
    {
        let Book {
            count: _count,
            told,
            waiting: _waiting,
            teller,
            last: _last,
        } = self;
        (teller, told)
    }
}
