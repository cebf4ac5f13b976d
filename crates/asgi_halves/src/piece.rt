//! The buffer that reads fill.
ghost use Rattle.std.specs.Prelude.{◌≡◌, ◌⊎◌, ◌≤◌, ◌++◌, ◌∷◌, [], ℕ, List, false, take, length, IfOk, OnOk};
ghost use Rattle.asgi_io.specs.declared.answer.Answer.{Answer};
ghost use Rattle.asgi_io.specs.Answers.{bytes_of, turn_of};
ghost use Rattle.asgi_request.specs.declared.next.Next.{Next};
ghost use Rattle.asgi_request.specs.Reading.{StandsFor};
ghost use Rattle.asgi_ws.specs.Lines.{LineState};
ghost use Rattle.asgi_run.specs.Lines.{Transferred, input_after, piece_size};
ghost use Rattle.asgi_conversation.specs.TaskEnds.{has_ended};

use asgi_conversation::InputEnd;
use asgi_io::{Answer, Turn, answer_of};
use asgi_request::RequestReader;
use asgi_ws::Line;
use std::alloc::{AllocError, Global};
use std::marker::Model;

/// The most bytes that one turn reads.
pub const PIECE: usize = 4_096;

/// The buffer that a connection's reads fill. Its bytes mean nothing between two reads.
#[derive(Drop)]
pub struct Piece {
    bytes: Vec<u8>,
}

impl Model for Piece {
    ghost use Rattle.std.specs.Prelude.{◌≡◌, ◌⊎◌, [], length};

    ghost Value = { Unit {0} };

    ghost view = { λ _. tt };

    ghost invariant = { λ piece. (piece.bytes.items ≡ []) ⊎ (length piece.bytes.items ≡ 4096) };
}

impl Piece {
    /// No buffer yet: no memory is taken before the first read.
    pub fn new(alloc: Global) -> Piece {
        Piece {
            bytes: Vec::new(alloc),
        }
    }

    /// Reads once into the buffer, and feeds what came to the reader of requests. `AllocError` if memory
    /// is refused, for the buffer at the first read, or for the reader; then what was read may be lost.
    pub fn fill<L: Line>(
        &mut self,
        alloc: Global,
        line: &mut L,
        requests: &mut RequestReader,
        input: &mut InputEnd,
    ) -> Result<Turn, AllocError>
        requires { has_ended input.old ≡ false }
        ensures moved { (more : List ℕ)
            × ((start : LineState) (read written : List ℕ) (failures : ℕ) → Transferred start (L.state line.old) input.old read written failures
            → Transferred start (L.state line.new) input.new (read ++ more) written failures)
            × OnOk result ((bytes : List ℕ) (given : List Next) → StandsFor requests.old bytes given → StandsFor requests.new (bytes ++ more) given)
            × (length more ≤ piece_size) }
        // the turn is that of the one read that was made
        ensures turn { IfOk result (λ turn. (answer : Answer) × ((L.state line.new).reads ≡ (L.state line.old).reads ++ answer ∷ []) × (turn ≡ turn_of answer)) }
        ensures session { (L.state line.new).session ≡ (L.state line.old).session }
        ensures idle { IfOk result (λ turn. turn ≡ Turn.Idle → (requests.new ≡ requests.old) × (input.new ≡ input.old)) }
        ensures limits { requests.new.limits ≡ requests.old.limits }
    {
        make_ready(&mut self.bytes, alloc)?;
        let read = line.read_some(&mut self.bytes);
        let answer = answer_of(&read, PIECE);
        take_in(requests, input, answer, &self.bytes)?;
        Ok(answer.turn())
    }
}

/// Makes the buffer of `PIECE` bytes if there is none yet, so before the first read. `AllocError` if
/// memory is refused.
fn make_ready(bytes: &mut Vec<u8>, alloc: Global) -> Result<(), AllocError>
    requires { (bytes.old.items ≡ []) ⊎ (length bytes.old.items ≡ 4096) }
    ensures made { IfOk result (λ _. length bytes.new.items ≡ 4096) }
    ensures held { (bytes.new.items ≡ []) ⊎ (length bytes.new.items ≡ 4096) }
{
    if !bytes.is_empty() {
        return Ok(());
    }
    *bytes = Vec::from_slice(alloc, &[0; PIECE])?;
    Ok(())
}

/// Takes in what a read gave: `answer` counts the bytes of the piece that are filled.
fn take_in(
    requests: &mut RequestReader,
    input: &mut InputEnd,
    answer: Answer,
    piece: &[u8],
) -> Result<(), AllocError>
    requires { bytes_of answer ≤ length piece.now }
    ensures fed { OnOk result ((bytes : List ℕ) (given : List Next) → StandsFor requests.old bytes given
        → StandsFor requests.new (bytes ++ take (bytes_of answer) piece.now) given) }
    ensures input { input.new ≡ input_after input.old answer }
    ensures paused { answer ≡ Answer.Paused → (requests.new ≡ requests.old) × (input.new ≡ input.old) }
    ensures limits { requests.new.limits ≡ requests.old.limits }
{
    match answer {
        Answer::Moved(n) => requests.feed(&piece[..n]),
        Answer::Nothing => {
            *input = InputEnd::AtEnd;
            Ok(())
        }
        Answer::Failed => {
            *input = InputEnd::Failed;
            Ok(())
        }
        Answer::Paused => Ok(()),
    }
}
