//! What a client still sends after its answer.
ghost use Rattle.std.specs.Prelude.{◌≡◌, ◌≢◌, ◌≤◌, ◌<◌, ℕ, List, length};
ghost use Rattle.std.specs.Io.KnownBytes.{Consumes};
ghost use Rattle.asgi_reactor.specs.declared.draining.Left.TheVariants.{More};

use asgi_io::is_passing;
use std::io::{self, Read};

/// How many bytes are read at a time of a connection that is being closed.
const PIECE: usize = 4_096;

/// After how many bytes of one connection the others have their turns.
const IN_ONE_GO: usize = 65_536;

/// What is left to be done for a connection that is being closed.
#[derive(Clone, Copy, Debug, PartialEq, Eq)]
pub enum Left {
    /// Nothing: its peer has closed it too, or it failed.
    Nothing,
    /// Something, once the system says that its socket is ready.
    Later,
    /// More may be there to be read now, of which the system tells nothing more.
    More,
}

/// What was read and dropped.
#[derive(Clone, Copy, Debug)]
pub struct Drained {
    /// How many bytes.
    pub count: usize,
    /// What is left to be done.
    pub left: Left,
}

impl Drained {
    fn with(count: usize, left: Left) -> Drained
        ensures { (result.count ≡ count) × (result.left ≡ left) }
    {
        Drained { count, left }
    }
}

/// Reads and drops what is there, up to a count, after which more may be there.
pub fn drain<R: Read>(stream: &mut R) -> Drained
    ensures bytes { (read : List ℕ) × Consumes (R.remaining stream.old) (R.remaining stream.new) read × (length read ≡ result.count) }
    ensures few { result.left ≢ More → result.count < 65_536 }
    ensures more { result.left ≡ More → 65_536 ≤ result.count }
{
    let mut piece = [0; PIECE];
    let mut count = 0;
    while count < IN_ONE_GO {
        match stream.read(&mut piece) {
            Ok(0) => return Drained::with(count, Left::Nothing),
            Ok(many) => count += many,
            Err(e) => return Drained::with(count, left_after(&e)),
        }
    }
    Drained::with(count, Left::More)
}

/// What is left after this error of a read.
fn left_after(e: &io::Error) -> Left
    ensures { result ≢ More }
{
    if is_passing(e) {
        return Left::Later;
    }
    Left::Nothing
}
