//! The reports that wait for one with a lower number: a heap, with the least number on top. Its way to the right is short at
//! each place, so that a report is put in and taken out in few steps, however many wait.
ghost use Rattle.std.specs.Prelude.{◌≡◌, ℕ, ◌+◌, ◌≤◌, false, [], ◌∷◌, ◌++◌, IfNone, IfSome};
ghost use Rattle.std.specs.List.Sorted.{IsPermutation};
ghost use Rattle.asgi_desk.specs.private.Book.{waiting_of, IsAbove, is_due};
ghost use Rattle.asgi_desk.specs.private.Heap.{least, is_before, IsOrdered};

use crate::place::Place;
use std::mem;

/// A report under its number.
#[derive(Drop)]
pub struct Entry<N: Drop> {
    pub(crate) number: u64,
    pub(crate) report: N,
}

/// The reports that wait.
#[derive(Drop)]
pub enum Waiting<N: Drop> {
    /// No report.
    Empty,
    /// The report with the least number, how many steps the way to the right has from here, and the others.
    Top(Entry<N>, u64, Box<Waiting<N>>, Box<Waiting<N>>),
}

/// The report on top, above these two heaps. The one with the longer way goes to the left.
fn balanced<N: Drop>(entry: Entry<N>, left: Box<Waiting<N>>, right: Box<Waiting<N>>) -> Waiting<N>
    ensures reports { IsPermutation ((entry.number, entry.report) ∷ (waiting_of left.value ++ waiting_of right.value)) (waiting_of result) }
    ensures order { (b : ℕ) → b ≤ entry.number → IsAbove entry.number left.value → IsAbove entry.number right.value → IsAbove b result }
{
    let (one, other) = (left.way(), right.way());
    if one < other {
        return Waiting::Top(entry, one.saturating_add(1), right, left);
    }
    Waiting::Top(entry, other.saturating_add(1), left, right)
}

/// The two, the one with the lower number on top first.
fn ordered<N: Drop>(one: Waiting<N>, other: Waiting<N>) -> (Waiting<N>, Waiting<N>)
    ensures reports { IsPermutation (waiting_of one ++ waiting_of other) (waiting_of result.0 ++ waiting_of result.1) }
    ensures order { (b : ℕ) → IsAbove b one → IsAbove b other → IsOrdered b result.0 result.1 }
{
    if other.is_before(&one) {
        return (other, one);
    }
    (one, other)
}

/// All reports of the two.
pub fn merged<N: Drop>(one: Waiting<N>, other: Waiting<N>) -> Waiting<N>
    ensures reports { IsPermutation (waiting_of one ++ waiting_of other) (waiting_of result) }
    ensures order { (b : ℕ) → IsAbove b one → IsAbove b other → IsAbove b result }
{
    let (top, below) = ordered(one, other);
    match top {
        Waiting::Empty => below,
        Waiting::Top(entry, _, left, right) => {
            let mut right = right;
            let under = mem::replace(&mut *right, Waiting::Empty);
            *right = merged(under, below);
            balanced(entry, left, right)
        }
    }
}

impl<N: Drop> Waiting<N> {
    /// This report alone.
    pub(crate) fn one(number: u64, report: N, place: Place<N>) -> Waiting<N>
        ensures reports { waiting_of result ≡ (number, report) ∷ [] }
        ensures order { IsAbove 0 result }
    {
        let Place {
            mut left,
            mut right,
        } = place;
        *left = Waiting::Empty;
        *right = Waiting::Empty;
        let entry = Entry { number, report };
        Waiting::Top(entry, 1, left, right)
    }

    /// How many steps the way to the right has.
    fn way(&self) -> u64 {
        match self {
            Waiting::Empty => 0,
            Waiting::Top(_, way, _, _) => *way,
        }
    }

    /// The least number.
    fn least(&self) -> Option<u64>
        ensures { result ≡ least self.now }
    {
        match self {
            Waiting::Empty => None,
            Waiting::Top(entry, _, _, _) => Some(entry.number),
        }
    }

    /// Whether there is a report, and its number is lower than those of the other.
    fn is_before(&self, other: &Waiting<N>) -> bool
        ensures { result ≡ is_before (least self.now) (least other.now) }
    {
        match (self.least(), other.least()) {
            (None, _) => false,
            (Some(_), None) => true,
            (Some(number), Some(than)) => number < than,
        }
    }

    /// Whether the least number is `count + 1`.
    fn is_due(&self, count: u64) -> bool
        ensures { result ≡ is_due count self.now }
    {
        match self {
            Waiting::Empty => false,
            Waiting::Top(entry, _, _, _) => entry.number > count && entry.number - count == 1,
        }
    }

    /// The report with the number `count + 1`, if it is here.
    pub(crate) fn take_due(&mut self, count: u64) -> Option<Entry<N>>
        ensures none { IfNone result ((self.new ≡ self.old) × (is_due count self.new ≡ false)) }
        ensures number { IfSome result (λ e. e.number ≡ count + 1) }
        ensures reports { IfSome result (λ e. IsPermutation (waiting_of self.old) ((e.number, e.report) ∷ waiting_of self.new)) }
        ensures order { IsAbove 0 self.old → IsAbove 0 self.new }
    {
        if !self.is_due(count) {
            return None;
        }
        match mem::replace(self, Waiting::Empty) {
            Waiting::Empty => None,
            Waiting::Top(entry, _, left, right) => {
                *self = merged(Box::into_inner(left), Box::into_inner(right));
                Some(entry)
            }
        }
    }
}
