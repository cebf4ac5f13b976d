//! A line in memory: reads come from a script, and each call is recorded.
ghost use Rattle.std.specs.Prelude.{◌≡◌, ◌++◌, ◌∷◌, [], ◌⊎◌, length, drop, None, Some, IsSome, IsErr, OnErr, option_map};
ghost use Rattle.std.specs.Io.{ReadsAtMost, WritesAtMost};
ghost use Rattle.std.specs.Io.KnownBytes.{ReadConsumes, WriteAppends};
ghost use Rattle.asgi_io.specs.Answers.{answer_of};
ghost use Rattle.asgi_io.specs.Counting.{CountsFailures};
ghost use Rattle.asgi_ws.specs.Scripts.{bytes_of, messages_of, IsHeldUp};
ghost use Rattle.asgi_ws.specs.Sessions.{messages_in, handed_in};

use crate::line::Line;
use crate::lists::{Lists, ScriptRead, is_allowed};
use crate::messages::{Got, Messages, Msg, Put, SentMessage};
use crate::pieces::{Pieces, ScriptBytes};
use crate::ping::Pings;
use crate::tally::Tally;
use asgi_io::{Counts, Reads};
use asgi_types::{Payload, Reason};
use std::alloc::Global;
use std::collections::VecDeque;
use std::io::{self, ErrorKind};

/// A line in memory, which records each call.
#[derive(Drop)]
pub struct Script {
    alloc: Global,
    pieces: Pieces,
    turns: VecDeque<ScriptRead>,
    // How many writes succeed, None: all; and how many bytes one takes at most.
    writes_left: Option<u64>,
    at_most: usize,
    text: Vec<u8>,
    leftover: Option<Vec<u8>>,
    tally: Tally,
    lists: Lists,
    pings: u64,
}

impl Script {
    /// A line that reads these pieces, and after `upgrade` these messages (`turns`), and takes
    /// everything written. Allocates nothing.
    pub fn new(alloc: Global, pieces: VecDeque<ScriptBytes>, turns: VecDeque<ScriptRead>) -> Self
        ensures pieces { (result.pieces.current.items ≡ []) × (result.pieces.pieces ≡ pieces) }
        ensures turns { result.turns ≡ turns }
        ensures nothing { (result.text.items ≡ []) × (result.lists.calls.items ≡ []) }
        ensures fresh { (result.leftover ≡ None) × (result.tally.failures ≡ 0) × (result.tally.reads.items ≡ []) × (result.tally.writes.items ≡ []) }
        ensures takes_all { (result.writes_left ≡ None) × (result.lists.left ≡ None) }
    {
        Script {
            alloc,
            pieces: Pieces::new(alloc, pieces),
            turns,
            writes_left: None,
            at_most: usize::MAX,
            text: Vec::new(alloc),
            leftover: None,
            tally: Tally::new(),
            lists: Lists::new(alloc),
            pings: 0,
        }
    }

    /// At most `after` writes of text succeed, of at most `at_most` bytes each; from then on each
    /// fails.
    pub fn failing_write(mut self, after: u64, at_most: usize) -> Self
        ensures { result ≡ record self { writes_left = Some after; at_most = at_most } }
    {
        self.writes_left = Some(after);
        self.at_most = at_most;
        self
    }

    /// At most `after` sends succeed; from then on each returns `Failed`.
    pub fn failing_send(mut self, after: u64) -> Self
        ensures sends { result.lists.left ≡ Some after }
        ensures same { (result.lists.calls ≡ self.lists.calls) × (result ≡ record self { lists = result.lists }) }
    {
        self.lists.left = Some(after);
        self
    }

    /// The bytes of text that were written, the oldest first.
    pub fn text(&self) -> &[u8]
        ensures { result.now ≡ self.now.text.items }
    {
        self.text.as_slice()
    }

    /// The bytes that `upgrade` kept; None before it.
    pub fn leftover(&self) -> Option<&[u8]>
        ensures { option_map (λ bytes. bytes.now) result ≡ option_map (λ v. v.items) self.now.leftover }
    {
        match &self.leftover {
            Some(leftover) => Some(leftover.as_slice()),
            None => None,
        }
    }

    /// The messages that were read, the oldest first.
    pub fn received(&self) -> &[Msg]
        ensures { result.now ≡ messages_in self.now.lists.calls.items }
    {
        self.lists.received.as_slice()
    }

    /// How many pings were sent.
    pub fn pings(&self) -> u64
        ensures { result ≡ self.now.pings }
    {
        self.pings
    }

    /// The messages and closes that were sent, the oldest first.
    pub fn handed(&self) -> &[SentMessage]
        ensures { result.now ≡ handed_in self.now.lists.calls.items }
    {
        self.lists.handed.as_slice()
    }
}

fn closed() -> io::Error {
    io::Error::from(ErrorKind::NotConnected)
}

impl Reads for Script {
    ghost use Rattle.asgi_ws.specs.Sides.{WriteSide};

    ghost remaining = { λ s. Some (drop s.pieces.at s.pieces.current.items ++ bytes_of s.pieces.pieces.items) };

    ghost answers = { λ s. s.tally.reads.items };

    ghost Beside = { WriteSide };

    ghost beside = { λ s. record {
      written = Some s.text.items;
      failed = s.tally.failures;
      answers = s.tally.writes.items;
      session = record { calls = s.lists.calls.items; coming = Some (messages_of s.turns.items); leftover = option_map (λ v. v.items) s.leftover };
    } };

    fn read_some(&mut self, buf: &mut [u8]) -> io::Result<usize>
        ensures bound { ReadsAtMost result buf.new }
        ensures bytes { ReadConsumes (Some (drop self.old.pieces.at self.old.pieces.current.items ++ bytes_of self.old.pieces.pieces.items))
            (Some (drop self.new.pieces.at self.new.pieces.current.items ++ bytes_of self.new.pieces.pieces.items)) result buf.new }
        ensures told { self.new.tally.reads.items ≡ self.old.tally.reads.items ++ answer_of (length buf.new) result ∷ [] }
        ensures counts { (self.new.tally.failures ≡ self.old.tally.failures) × (self.new.tally.writes ≡ self.old.tally.writes) }
        ensures stays { self.new ≡ record self.old { pieces = self.new.pieces; tally = self.new.tally } }
        ensures closed { IsSome self.old.leftover → IsErr result }
        ensures held_up { OnErr result (IsSome self.old.leftover ⊎ ((self.old.pieces.at ≡ length self.old.pieces.current.items) × IsHeldUp self.old.pieces.pieces.items)) }
    {
        let read = if self.leftover.is_some() {
            Err(closed())
        } else {
            self.pieces.read(buf)
        };
        self.tally.note_read(&read, buf.len());
        read
    }

    fn faults(&self) -> u64 {
        self.tally.faults
    }
}

impl Counts for Script {
    ghost use Rattle.asgi_ws.specs.Sides.{ReadSide};

    ghost written = { λ s. Some s.text.items };

    ghost failed = { λ s. s.tally.failures };

    ghost answers = { λ s. s.tally.writes.items };

    ghost Beside = { ReadSide };

    ghost beside = { λ s. record {
      remaining = Some (drop s.pieces.at s.pieces.current.items ++ bytes_of s.pieces.pieces.items);
      answers = s.tally.reads.items;
      session = record { calls = s.lists.calls.items; coming = Some (messages_of s.turns.items); leftover = option_map (λ v. v.items) s.leftover };
    } };

    fn write_some(&mut self, bytes: &[u8]) -> io::Result<usize>
        ensures bound { WritesAtMost result bytes.now }
        ensures bytes { WriteAppends (Some self.old.text.items) (Some self.new.text.items) result bytes.now }
        ensures counts { CountsFailures self.old.tally.failures self.new.tally.failures bytes.now result }
        ensures told { self.new.tally.writes.items ≡ self.old.tally.writes.items ++ answer_of (length bytes.now) result ∷ [] }
        ensures reads { self.new.tally.reads ≡ self.old.tally.reads }
        ensures stays { self.new ≡ record self.old { text = self.new.text; writes_left = self.new.writes_left; tally = self.new.tally } }
        ensures closed { IsSome self.old.leftover → IsErr result }
    {
        let wrote = self.write_text(bytes);
        self.tally.note_write(&wrote, bytes);
        wrote
    }

    fn failures(&self) -> u64 {
        self.tally.failures
    }
}

impl Script {
    // Writes text, until `upgrade`.
    fn write_text(&mut self, bytes: &[u8]) -> io::Result<usize>
        ensures bound { WritesAtMost result bytes.now }
        ensures bytes { WriteAppends (Some self.old.text.items) (Some self.new.text.items) result bytes.now }
        ensures closed { IsSome self.old.leftover → IsErr result }
        ensures stays { self.new ≡ record self.old { text = self.new.text; writes_left = self.new.writes_left } }
    {
        if self.leftover.is_some() || !is_allowed(&mut self.writes_left) {
            return Err(closed());
        }
        let taken = bytes.len().min(self.at_most);
        if self.text.extend_from_slice(&bytes[..taken]).is_err() {
            return Err(io::Error::from(ErrorKind::OutOfMemory));
        }
        Ok(taken)
    }
}

impl Messages for Script {
    ghost calls = { λ s. s.lists.calls.items };

    ghost coming = { λ s. Some (messages_of s.turns.items) };

    ghost leftover = { λ s. option_map (λ v. v.items) s.leftover };

    fn read_message(&mut self) -> Got {
        if self.leftover.is_none() {
            self.tally.note_failure();
            return self.lists.fail();
        }
        let answer = self.lists.next(self.alloc, &mut self.turns);
        if let Got::Failed = &answer {
            self.tally.note_failure();
        }
        answer
    }

    fn send_message(&mut self, payload: Payload) -> Put {
        self.hand_over(SentMessage::Payload(payload))
    }

    fn send_close(&mut self, code: u16, reason: Reason) -> Put {
        self.hand_over(SentMessage::Close(code, reason))
    }
}

impl Script {
    ghost use Rattle.asgi_ws.specs.Sessions.{has_failed, count_after};
    ghost use Rattle.asgi_ws.specs.declared.messages.Put.TheVariants as put;
    ghost use Rattle.asgi_ws.specs.declared.messages.Call.TheVariants as call;

    fn hand_over(&mut self, item: SentMessage) -> Put
        ensures told { self.new.lists.calls.items ≡ self.old.lists.calls.items ++ call.Send item result ∷ [] }
        ensures counts { self.new.tally.failures ≡ count_after self.old.tally.failures (has_failed result) }
        ensures shut { self.old.leftover ≡ None → result ≡ put.Failed }
        ensures stays { self.new ≡ record self.old { lists = self.new.lists; tally = self.new.tally } }
        ensures text { (self.new.tally.reads ≡ self.old.tally.reads) × (self.new.tally.writes ≡ self.old.tally.writes) }
    {
        let answer = self.lists.hand_over(self.leftover.is_some(), item);
        if answer == Put::Failed {
            self.tally.note_failure();
        }
        answer
    }
}

impl Line for Script {
    ghost use Rattle.asgi_ws.specs.Lines.{state_of};
    ghost use Rattle.std.specs.Prelude.{refl};
    ghost use Rattle.asgi_ws.specs.Sides.{read_side, write_side, session_beside};

    ghost state = { λ line. state_of Self.Reads Self.Counts Self.Messages line };

    fn upgrade(&mut self, leftover: Vec<u8>) {
        if self.leftover.is_none() {
            self.leftover = Some(leftover);
        }
    }

    ghost state_is = { λ _. refl };

    ghost reads_stay = { λ old new same. read_side same };

    ghost writes_stay = { λ old new same. write_side same };

    ghost session_stays = { λ old new same. session_beside same refl refl };
}

impl Pings for Script {
    ghost use Rattle.std.specs.Prelude.{◌+◌};
    ghost use Rattle.asgi_ws.specs.declared.messages.Put.TheVariants as put;

    fn ping(&mut self) -> Put
        ensures one { result ≡ put.Done → self.new.pings ≡ self.old.pings + 1 }
        ensures shut { self.old.leftover ≡ None → result ≡ put.Failed }
        ensures stays { self.new ≡ record self.old { pings = self.new.pings } }
    {
        if self.leftover.is_none() {
            return Put::Failed;
        }
        let Some(pings) = self.pings.checked_add(1) else {
            return Put::Failed;
        };
        self.pings = pings;
        Put::Done
    }
}
