//! The turns of a loop.
ghost use Rattle.std.specs.Prelude.{◌≡◌, ◌+◌, ◌<◌, ◌≤◌, ◌⊎◌, ◌↔◌, ◌∷◌, ◌++◌, [], ℕ, List, IsTrue};

use crate::pause::Pause;

/// What a turn did.
#[derive(Clone, Copy, Debug, PartialEq, Eq)]
pub enum Turn {
    /// Something moved.
    Moved,
    /// Nothing moved.
    Idle,
    /// Nothing will move any more.
    Last,
}

/// How many turns a loop took, how many of the last ones in a row were idle, and their limits.
#[derive(Clone, Copy, Debug, PartialEq, Eq)]
pub struct Turns {
    /// Turns that were taken.
    pub turns: u64,
    /// Idle turns in a row at the end.
    pub idle: u32,
    /// Turns that may be taken.
    pub turn_limit: u64,
    /// Idle turns in a row that may be taken.
    pub idle_limit: u32,
    pub ghost in_turns: { turns ≤ turn_limit },
    pub ghost in_idle: { idle ≤ idle_limit },
}

impl Turns {
    ghost use Rattle.asgi_io.specs.declared.turns.Turn.{Turn};
    ghost use Rattle.asgi_io.specs.Turns.{CountsTurns};

    /// No turn was taken yet. The limits are of all turns and of idle ones in a row.
    pub fn new(turn_limit: u64, idle_limit: u32) -> Self
        ensures none { (pauses : ℕ) → CountsTurns turn_limit idle_limit [] pauses pauses result.turns result.idle }
        ensures turn_limit { result.turn_limit ≡ turn_limit }
        ensures idle_limit { result.idle_limit ≡ idle_limit }
    {
        Turns {
            turns: 0,
            idle: 0,
            turn_limit,
            idle_limit,
        }
    }

    /// Whether the turns, or the idle ones in a row, have reached their limit.
    pub fn is_over(&self) -> bool
        ensures { IsTrue result ↔ ((self.now.turns ≡ self.now.turn_limit) ⊎ (self.now.idle ≡ self.now.idle_limit)) }
    {
        self.turns == self.turn_limit || self.idle == self.idle_limit
    }

    /// Counts a turn while no limit is reached yet, and makes a pause if the turn was idle. A turn
    /// that moved something ends the row of idle ones, and calls `moved` of the pause. The last turn
    /// does neither.
    pub fn take<P: Pause>(&mut self, turn: Turn, pause: &mut P)
        requires turns { self.old.turns < self.old.turn_limit }
        requires idle { self.old.idle < self.old.idle_limit }
        ensures counts { (turned : List Turn) (pauses : ℕ)
            → CountsTurns self.old.turn_limit self.old.idle_limit turned pauses (P.count pause.old) self.old.turns self.old.idle
            → CountsTurns self.old.turn_limit self.old.idle_limit (turned ++ turn ∷ []) pauses (P.count pause.new) self.new.turns self.new.idle }
        ensures one { self.new.turns ≡ self.old.turns + 1 }
        ensures turn_limit { self.new.turn_limit ≡ self.old.turn_limit }
        ensures idle_limit { self.new.idle_limit ≡ self.old.idle_limit }
    {
        self.turns += 1;
        match turn {
            Turn::Moved => {
                self.idle = 0;
                pause.moved();
            }
            Turn::Idle => {
                self.idle += 1;
                pause.pause();
            }
            Turn::Last => {}
        }
    }
}
