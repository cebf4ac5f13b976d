//! How a call that moves bytes was answered.
ghost use Rattle.std.specs.Prelude.{◌≡◌};
ghost use Rattle.std.specs.IoError.{error_kind};
ghost use Rattle.asgi_io.specs.Answers.{answer_of, passes, turn_of};

use crate::turns::Turn;
use std::io::{self, ErrorKind};

/// How a reader or a writer answered one call.
#[derive(Clone, Copy, Debug, PartialEq, Eq)]
pub enum Answer {
    /// This many bytes were moved; 0 if the call had none to move.
    Moved(usize),
    /// No bytes were moved, but some could be: the end of what is read, or a writer that takes
    /// nothing.
    Nothing,
    /// A fault that passes: the call was interrupted, or would block.
    Paused,
    /// Any other fault.
    Failed,
}

impl Answer {
    /// What a turn that made one such call did: a fault that passes is idle, and after `Nothing`
    /// and `Failed` nothing will move any more.
    pub fn turn(self) -> Turn
        ensures { result ≡ turn_of self }
    {
        match self {
            Answer::Moved(_) => Turn::Moved,
            Answer::Paused => Turn::Idle,
            Answer::Nothing => Turn::Last,
            Answer::Failed => Turn::Last,
        }
    }
}

/// The answer to a call with `room` bytes to move: the length of its buffer or of what it writes.
pub fn answer_of(answered: &io::Result<usize>, room: usize) -> Answer
    ensures { result ≡ answer_of room answered.now }
{
    match answered {
        Ok(n) => {
            if *n == 0 && room != 0 {
                return Answer::Nothing;
            }
            Answer::Moved(*n)
        }
        Err(e) => {
            if is_passing(e) {
                return Answer::Paused;
            }
            Answer::Failed
        }
    }
}

/// Whether the fault passes, so that the call may be tried again: an interruption, or a call that
/// would block.
pub fn is_passing(e: &io::Error) -> bool
    ensures { result ≡ passes (error_kind e.now) }
{
    match e.kind() {
        ErrorKind::Interrupted => true,
        ErrorKind::WouldBlock => true,
        _ => false,
    }
}
