//! What a connection keeps from its first byte to its last.
ghost use Rattle.std.specs.Prelude.{◌≡◌, ◌<◌, ◌≤◌, ◌++◌, ◌∷◌, [], ℕ, List, false, take, length, IfNone, IfOk, IfSome, OnOk};
ghost use Rattle.std.specs.Io.KnownBytes.{Appends};
ghost use Rattle.asgi_io.specs.declared.answer.Answer.{Answer};
ghost use Rattle.asgi_io.specs.Answers.{turn_of};
ghost use Rattle.asgi_io.specs.Counting.{RoseBy};
ghost use Rattle.asgi_io.specs.Writing.{TriesWrites, out_of};
ghost use Rattle.asgi_request.specs.declared.next.Next.{Next};
ghost use Rattle.asgi_types.specs.declared.facts.Facts.{Facts};
ghost use Rattle.asgi_types.specs.declared.scope.Scope.{Scope};
ghost use Rattle.asgi_request.specs.Opened.{BeginsWithHandshake, HasClosed};
ghost use Rattle.asgi_request.specs.Reading.{StandsFor};
ghost use Rattle.asgi_ws.specs.Lines.{LineState};
ghost use Rattle.asgi_run.specs.Lines.{Transferred, how_put, piece_size};
ghost use Rattle.asgi_conversation.specs.TaskEnds.{has_ended};

use crate::piece::Piece;
use asgi_conversation::InputEnd;
use asgi_io::{Turn, Wrote, write_out};
use asgi_request::RequestReader;
use asgi_types::Limits;
use asgi_ws::Line;
use std::alloc::{AllocError, Global};
use std::mem;

/// What a connection keeps from its first byte to its last.
#[derive(Drop)]
pub struct Wire {
    /// Where memory is taken.
    pub alloc: Global,
    /// What the connection may take.
    pub limits: Limits,
    /// The reader that makes requests of the bytes.
    pub requests: RequestReader,
    /// How far the input has come.
    pub input: InputEnd,
    /// The text that is being written; empty between two texts.
    pub out: Vec<u8>,
    /// The buffer that reads fill.
    pub piece: Piece,
}

impl Wire {
    /// A connection before its first byte. Making it takes no memory.
    pub fn new(alloc: Global, limits: Limits) -> Wire
        ensures limits { (result.limits ≡ limits) × (result.requests.limits ≡ limits) }
        ensures unread { StandsFor result.requests [] [] × (result.input ≡ InputEnd.Open) }
        ensures empty { result.out.items ≡ [] }
    {
        Wire {
            alloc,
            limits,
            requests: RequestReader::new(alloc, limits),
            input: InputEnd::Open,
            out: Vec::new(alloc),
            piece: Piece::new(alloc),
        }
    }

    /// Reads once, at most `PIECE` bytes, and feeds what came to the reader of requests. `AllocError` if
    /// memory is refused; then what was read may be lost.
    pub fn read<L: Line>(&mut self, line: &mut L) -> Result<Turn, AllocError>
        requires { has_ended self.old.input ≡ false }
        ensures moved { (more : List ℕ)
            × ((start : LineState) (read written : List ℕ) (failures : ℕ) → Transferred start (L.state line.old) self.old.input read written failures
            → Transferred start (L.state line.new) self.new.input (read ++ more) written failures)
            × OnOk result ((bytes : List ℕ) (given : List Next) → StandsFor self.old.requests bytes given → StandsFor self.new.requests (bytes ++ more) given)
            × (length more ≤ piece_size) }
        // the turn is that of the one read that was made
        ensures turn { IfOk result (λ turn. (answer : Answer) × ((L.state line.new).reads ≡ (L.state line.old).reads ++ answer ∷ []) × (turn ≡ turn_of answer)) }
        ensures session { (L.state line.new).session ≡ (L.state line.old).session }
        ensures idle { IfOk result (λ turn. turn ≡ Turn.Idle → self.new ≡ self.old) }
        ensures same { self.new ≡ record self.old { requests = self.new.requests; input = self.new.input } }
        ensures limits { self.new.requests.limits ≡ self.old.requests.limits }
    {
        self.piece
            .fill(self.alloc, line, &mut self.requests, &mut self.input)
    }

    /// The bytes after an opening handshake, whose head was given last: the first of its frames (RFC
    /// 6455, section 5). `AllocError` if memory is refused.
    pub fn take_frames(&mut self) -> Result<Vec<u8>, AllocError>
        ensures frames { IfOk result (λ taken. (bytes : List ℕ) (given : List Next) (after : List ℕ) (scope : Scope) (facts : Facts) (frames : List ℕ)
            → HasClosed self.old.requests.limits bytes given after → BeginsWithHandshake self.old.requests.limits after scope facts frames
            → StandsFor self.old.requests bytes (given ++ Next.Head scope facts ∷ []) → taken.items ≡ frames) }
        ensures same { self.new ≡ record self.old { requests = self.new.requests } }
    {
        let _whole = self.requests.next()?;
        let fresh = RequestReader::new(self.alloc, self.limits);
        Ok(mem::replace(&mut self.requests, fresh).rest())
    }

    /// Writes the text in hand, which is empty then. Returns None if all of its bytes went out; if a
    /// write failed, how many did.
    pub fn put<L: Line>(&mut self, line: &mut L) -> Option<usize>
        ensures none { IfNone result (Appends (L.state line.old).written (L.state line.new).written self.old.out.items × RoseBy 0 (L.state line.old).failed (L.state line.new).failed) }
        ensures some { IfSome result (λ n. (n < length self.old.out.items)
            × Appends (L.state line.old).written (L.state line.new).written (take n self.old.out.items) × RoseBy 1 (L.state line.old).failed (L.state line.new).failed) }
        ensures tries { TriesWrites (L.state line.old).writes (L.state line.new).writes (out_of self.old.out.items (how_put result)) (how_put result) }
        ensures reads { ((L.state line.new).left ≡ (L.state line.old).left) × ((L.state line.new).reads ≡ (L.state line.old).reads) }
        ensures session { (L.state line.new).session ≡ (L.state line.old).session }
        ensures same { self.new ≡ record self.old { out = self.new.out } }
        ensures empty { self.new.out.items ≡ [] }
    {
        let cut = write(line, &self.out);
        self.out.clear();
        cut
    }
}

/// Writes a text. Returns None if all of its bytes went out; if a write failed, how many did.
pub fn write<L: Line>(line: &mut L, text: &[u8]) -> Option<usize>
    ensures none { IfNone result (Appends (L.state line.old).written (L.state line.new).written text.now × RoseBy 0 (L.state line.old).failed (L.state line.new).failed) }
    ensures some { IfSome result (λ n. (n < length text.now)
        × Appends (L.state line.old).written (L.state line.new).written (take n text.now) × RoseBy 1 (L.state line.old).failed (L.state line.new).failed) }
    ensures tries { TriesWrites (L.state line.old).writes (L.state line.new).writes (out_of text.now (how_put result)) (how_put result) }
    ensures reads { ((L.state line.new).left ≡ (L.state line.old).left) × ((L.state line.new).reads ≡ (L.state line.old).reads) }
    ensures session { (L.state line.new).session ≡ (L.state line.old).session }
{
    match write_out(line, text) {
        Wrote::Done => None,
        Wrote::Failed(n) => Some(n),
    }
}
