//! Where connections come from, and which of them may go on.
ghost use Rattle.std.specs.Prelude.{◌≡◌, ◌++◌, ◌∷◌, [], List};
ghost use Rattle.asgi_many.specs.declared.reactor.Next.{Next};
ghost use Rattle.asgi_many.specs.declared.reactor.Move.{Move};
ghost use Rattle.asgi_many.specs.declared.reactor.Move.TheVariants.{Freed, Waited};
ghost use Rattle.asgi_many.specs.Moves.{asked_by};

use crate::seat::Newcomer;
use asgi_conn::Rest;
use asgi_ws::Line;

/// How a reactor answers when it is asked for a connection.
#[derive(Drop)]
pub enum Next<L> {
    /// The next connection.
    Arrived(Newcomer<L>),
    /// None is there yet.
    NoneNow,
    /// None will come any more.
    NoneEver,
}

impl<L> Next<L> {
    /// What its server did, if it was answered so.
    pub fn as_move(&self) -> Move
        ensures { result ≡ asked_by self.now }
    {
        match self {
            Next::Arrived(_newcomer) => Move::Taken,
            Next::NoneNow => Move::NoneYet,
            Next::NoneEver => Move::NoneLeft,
        }
    }
}

/// What may be done next.
#[derive(Clone, Copy, Debug, PartialEq, Eq)]
pub enum Ready {
    /// The connection in this seat may move something.
    Seat(usize),
    /// A tick has passed for the connection in this seat. If it moves nothing, that is counted.
    Tick(usize),
    /// A connection may have arrived.
    Arrivals,
}

/// What a server does, as its reactor sees it.
#[derive(Clone, Copy, Debug, PartialEq, Eq)]
pub enum Move {
    /// It asked for a connection, and a newcomer was given, who takes a seat.
    Taken,
    /// It asked for a connection, and none was there yet.
    NoneYet,
    /// It asked for a connection, and none will come any more.
    NoneLeft,
    /// It waited, and was told what may be done next.
    Waited(Ready),
    /// It gave back the line of a connection that has ended, so a seat is free.
    Freed,
}

/// Gives connections, and says which of them may go on. Of that it promises nothing: it may name any seat at any time, also
/// one that is free or not there.
pub trait Reactor {
    /// What carries the bytes of a connection.
    type L: Line + Drop;

    // How each call of `try_next` was answered, in order.
    ghost answers: { Self → List (Next Self.L) };

    // What its server did, in order.
    ghost moves: { Self → List Move };

    // What each call keeps: of a reactor with a limit, say, how many connections it has given and will give at the most.
    ghost Kept: { Type 0 };

    ghost kept: { Self → Kept };

    /// The next connection, which takes this seat. It does not wait.
    fn try_next(&mut self, at: usize) -> Next<Self::L>
        ensures told { answers self.new ≡ answers self.old ++ result ∷ [] }
        ensures moves { moves self.new ≡ moves self.old ++ asked_by result ∷ [] }
        ensures kept { kept self.new ≡ kept self.old };

    /// What may be done next. It may wait for it.
    fn wait(&mut self) -> Ready
        ensures told { answers self.new ≡ answers self.old }
        ensures moves { moves self.new ≡ moves self.old ++ Waited result ∷ [] }
        ensures kept { kept self.new ≡ kept self.old };

    /// Whether the connection in this seat may take a turn now. Not while the end of a text waits to leave, for example.
    fn may_go_on(&mut self, at: usize, line: &Self::L) -> bool
        ensures told { answers self.new ≡ answers self.old }
        ensures moves { moves self.new ≡ moves self.old }
        ensures kept { kept self.new ≡ kept self.old };

    /// The connection in this seat moved something in its turn, and may move more at once.
    fn again(&mut self, at: usize)
        ensures told { answers self.new ≡ answers self.old }
        ensures moves { moves self.new ≡ moves self.old }
        ensures kept { kept self.new ≡ kept self.old };

    /// The connection in this seat moved nothing in its turn, and rests here: what was written for it is not to wait any longer. In
    /// an exchange its task may wait for something else than its line.
    fn rests(&mut self, at: usize, line: &Self::L, rest: Rest)
        ensures told { answers self.new ≡ answers self.old }
        ensures moves { moves self.new ≡ moves self.old }
        ensures kept { kept self.new ≡ kept self.old };

    /// The connection in this seat has ended, and the seat is free. Its line is closed once what was written has left.
    fn close(&mut self, at: usize, line: Self::L)
        ensures told { answers self.new ≡ answers self.old }
        ensures moves { moves self.new ≡ moves self.old ++ Freed ∷ [] }
        ensures kept { kept self.new ≡ kept self.old };
}
