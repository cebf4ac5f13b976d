//! The sockets that are to be taken up, in the order in which they are.
ghost use Rattle.std.specs.Prelude.{◌≡◌, ◌≤◌, ◌+◌, ◌++◌, ◌∷◌, [], None, IfSome, IsFalse, IsTrue, length};
ghost use Rattle.std.specs.VecDeque.{deque_capacity, deque_len};
ghost use Rattle.asgi_reactor.specs.declared.waiting.Wish.TheVariants.{Goes, Told};
ghost use Rattle.asgi_reactor.specs.Taking.{IsFirst, IsLast, kind_of};

use std::alloc::Global;
use std::collections::VecDeque;

/// How many are looked at in a round at the most.
const LOOKED_AT: usize = 64;

/// Why a socket is to be taken up.
#[derive(Clone, Copy, Debug, PartialEq, Eq)]
pub enum Wish {
    /// The system told of it.
    Told,
    /// It has moved something, and may move more by itself.
    Goes,
    /// Time has passed, so it is looked at.
    Looked,
}

/// The tokens of the sockets that are to be taken up, in rounds. In a round each that waits when it begins is taken up: those that the
/// system told of and those that go on by themselves in turn, each kind in order, and behind these some of those that are only looked
/// at. So one that the system tells of does not wait until all others that go on had their turns, or thousands were looked at.
#[derive(Drop)]
pub struct Waiting {
    told: VecDeque<usize>,
    going: VecDeque<usize>,
    looked: VecDeque<usize>,
    // Which of the first two kinds is taken up next.
    turn: Wish,
    // How many of each are taken up before the round is over.
    tells: usize,
    goes: usize,
    looks: usize,
}

impl Waiting {
    /// None waits.
    pub fn new(alloc: Global) -> Self
        ensures none { (result.told.items ≡ []) × (result.going.items ≡ []) × (result.looked.items ≡ []) }
        ensures over { (result.tells ≡ 0) × (result.goes ≡ 0) × (result.looks ≡ 0) }
    {
        Waiting {
            told: VecDeque::new(alloc),
            going: VecDeque::new(alloc),
            looked: VecDeque::new(alloc),
            turn: Wish::Told,
            tells: 0,
            goes: 0,
            looks: 0,
        }
    }

    /// Whether none waits.
    pub fn is_empty(&self) -> bool
        ensures yes { IsTrue result → (self.now.told.items ≡ []) × (self.now.going.items ≡ []) × (self.now.looked.items ≡ []) }
    {
        self.told.is_empty() && self.going.is_empty() && self.looked.is_empty()
    }

    /// This one is to be taken up, behind the others of its kind. Whether there was memory for it.
    pub fn push(&mut self, token: usize, wish: Wish) -> bool
        ensures last { IsTrue result → IsLast self.old self.new token wish }
        ensures refused { IsFalse result → (self.new.told.items ≡ self.old.told.items) × (self.new.going.items ≡ self.old.going.items)
            × (self.new.looked.items ≡ self.old.looked.items) }
        ensures full { wish ≡ Goes → IsFalse result → deque_capacity self.old.going ≤ deque_len self.old.going }
        ensures full_of_told { wish ≡ Told → IsFalse result → deque_capacity self.old.told ≤ deque_len self.old.told }
        ensures round { (self.new.tells ≡ self.old.tells) × (self.new.goes ≡ self.old.goes) × (self.new.looks ≡ self.old.looks) }
        ensures turn { self.new.turn ≡ self.old.turn }
    {
        match wish {
            Wish::Told => self.told.push_back(token).is_ok(),
            Wish::Goes => self.going.push_back(token).is_ok(),
            Wish::Looked => self.looked.push_back(token).is_ok(),
        }
    }

    /// A round begins.
    pub fn begin_round(&mut self)
        ensures tells { self.new.tells ≡ length self.old.told.items }
        ensures goes { self.new.goes ≡ length self.old.going.items }
        ensures looks { self.new.looks ≡ 64 }
        ensures same { (self.new.told ≡ self.old.told) × (self.new.going ≡ self.old.going) × (self.new.looked ≡ self.old.looked) × (self.new.turn ≡ self.old.turn) }
    {
        self.tells = self.told.len();
        self.goes = self.going.len();
        self.looks = LOOKED_AT;
    }

    /// How many are taken up at the most before the round is over.
    pub fn left(&self) -> usize {
        self.tells
            .saturating_add(self.goes)
            .saturating_add(self.looks)
    }

    /// Of which kind the next one is, unless the round is over.
    fn kind(&self) -> Option<Wish>
        ensures { result ≡ kind_of self.now.turn self.now.tells self.now.goes self.now.looks }
    {
        if self.tells == 0 {
            if self.goes > 0 {
                return Some(Wish::Goes);
            }
            if self.looks > 0 {
                return Some(Wish::Looked);
            }
            return None;
        }
        if self.goes == 0 {
            return Some(Wish::Told);
        }
        match self.turn {
            Wish::Told => Some(Wish::Told),
            Wish::Goes => Some(Wish::Goes),
            Wish::Looked => Some(Wish::Told),
        }
    }

    /// The one that is taken up next, and why, if there is one in this round.
    pub fn next(&mut self) -> Option<(usize, Wish)>
        ensures first { IfSome result (λ taken. IsFirst self.old self.new taken.0 taken.1) }
        ensures over { kind_of self.old.turn self.old.tells self.old.goes self.old.looks ≡ None → result ≡ None }
    {
        match self.kind()? {
            Wish::Told => {
                self.tells -= 1;
                self.turn = Wish::Goes;
                Some((self.told.pop_front()?, Wish::Told))
            }
            Wish::Goes => {
                self.goes -= 1;
                self.turn = Wish::Told;
                Some((self.going.pop_front()?, Wish::Goes))
            }
            Wish::Looked => {
                self.looks -= 1;
                Some((self.looked.pop_front()?, Wish::Looked))
            }
        }
    }
}
