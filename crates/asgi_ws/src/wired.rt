//! A line over a stream: text at first, and from `upgrade` on the messages of `tungstenite`.
ghost use Rattle.std.specs.Prelude.{◌≡◌, length, ◌++◌, [], ◌∷◌, List, ℕ, None, Some, IsSome, IsNone, option_map};
ghost use Rattle.std.specs.Io.{ReadsAtMost, WritesAtMost};
ghost use Rattle.std.specs.Io.KnownBytes.{ReadConsumes, WriteAppends};
ghost use Rattle.std.specs.IoError.{error_kind};
ghost use Rattle.std.specs.declared.io.ErrorKind.TheVariants.{NotConnected};
ghost use Rattle.asgi_io.specs.Answers.{answer_of};
ghost use Rattle.asgi_io.specs.Counting.{CountsFailures};
ghost use Rattle.asgi_ws.specs.Streams.{Asks, FailsWith};
ghost use Rattle.asgi_ws.specs.Streams as asked;
ghost use Rattle.asgi_ws.specs.declared.messages.Got.TheVariants.{Failed};
ghost use Rattle.asgi_ws.specs.Sessions.{count_after, is_failed};
ghost use Rattle.asgi_ws.specs.Wires.{AnswersRead, told_by, leftover_by, held_by};

use crate::calls::{Sending, note_read, note_send};
use crate::line::Line;
use crate::messages::{Call, Got, Messages, Put, SentMessage};
use crate::ping::Pings;
use crate::session::{Session, close, ping, read, send, session_on};
use crate::stream::Stream;
use crate::tally::Tally;
use asgi_io::{Counts, History, Reads};
use asgi_types::{Octets, Payload, Reason};
use std::alloc::Global;
use std::io::{self, ErrorKind};

/// A line over a stream.
#[derive(Drop)]
pub struct Wired<S> {
    alloc: Global,
    // The stream, until `upgrade`.
    stream: Option<S>,
    // The message layer, from `upgrade` on.
    session: Option<Session<S>>,
    // The stream and the bytes after the handshake, as they were at `upgrade`.
    before: History<S>,
    kept: History<Octets>,
    tally: Tally,
    calls: History<Call>,
}

impl<S> Wired<S> {
    /// A line of text over the stream. Allocates nothing.
    pub fn new(alloc: Global, stream: S) -> Self
        ensures stream { (result.stream ≡ Some stream) × (result.session ≡ None) }
        ensures nothing { (result.calls.items ≡ []) × (result.tally.failures ≡ 0) × (result.tally.reads.items ≡ []) × (result.tally.writes.items ≡ []) }
    {
        Wired {
            alloc,
            stream: Some(stream),
            session: None,
            before: History::new(),
            kept: History::new(),
            tally: Tally::new(),
            calls: History::new(),
        }
    }
}

impl<S: Drop> Wired<S> {
    /// The stream below, as it is now.
    pub fn stream(&self) -> Option<&S>
        ensures { option_map (λ stream. stream.now) result ≡ held_by self.now.stream self.now.session }
    {
        match &self.session {
            Some(socket) => Some(&socket.get_ref().stream),
            None => self.stream.as_ref(),
        }
    }
}

fn closed() -> io::Error
    ensures { error_kind result ≡ NotConnected }
{
    io::Error::from(ErrorKind::NotConnected)
}

/// Reads text, until `upgrade`.
fn read_text<S: Stream>(stream: &mut Option<S>, buf: &mut [u8]) -> io::Result<usize>
    ensures bound { ReadsAtMost result buf.new }
    ensures bytes { (before : List S) → ReadConsumes (told_by S.remaining stream.old before) (told_by S.remaining stream.new before) result buf.new }
    ensures stays { (before : List S) → told_by S.contents stream.new before ≡ told_by S.contents stream.old before }
    ensures open { (kept : List (List ℕ)) → leftover_by stream.new kept ≡ leftover_by stream.old kept }
    ensures asks { Asks S.calls stream.old stream.new (asked.Read (length buf.new) result) }
    ensures closed { IsNone stream.old → FailsWith NotConnected result }
{
    match stream {
        Some(stream) => stream.read_part(buf),
        None => Err(closed()),
    }
}

/// Writes text, until `upgrade`.
fn write_text<S: Stream>(stream: &mut Option<S>, bytes: &[u8]) -> io::Result<usize>
    ensures bound { WritesAtMost result bytes.now }
    ensures bytes { (before : List S) → WriteAppends (told_by S.contents stream.old before) (told_by S.contents stream.new before) result bytes.now }
    ensures stays { (before : List S) → told_by S.remaining stream.new before ≡ told_by S.remaining stream.old before }
    ensures open { (kept : List (List ℕ)) → leftover_by stream.new kept ≡ leftover_by stream.old kept }
    ensures asks { Asks S.calls stream.old stream.new (asked.Write bytes.now result) }
    ensures closed { IsNone stream.old → FailsWith NotConnected result }
{
    match stream {
        Some(stream) => stream.write_part(bytes),
        None => Err(closed()),
    }
}

/// The next message, from `upgrade` on.
fn read_session<S: Stream + Drop>(
    alloc: Global,
    stream: &Option<S>,
    session: &mut Option<Session<S>>,
) -> Got
    ensures answers { IsNone stream.now → AnswersRead (λ t. S.remaining t.stream) (λ t. S.contents t.stream) session.old session.new result }
    ensures shut { IsSome stream.now → (result ≡ Failed) × (session.new ≡ session.old) }
{
    if stream.is_some() {
        return Got::Failed;
    }
    read(alloc, session)
}

/// Counts a read that failed.
fn count_read(tally: &mut Tally, answer: &Got)
    ensures after { tally.new.failures ≡ count_after tally.old.failures (is_failed answer.now) }
    ensures stays { (tally.new.reads ≡ tally.old.reads) × (tally.new.writes ≡ tally.old.writes) }
{
    if let Got::Failed = answer {
        tally.note_failure();
    }
}

impl<S: Stream> Reads for Wired<S> {
    ghost use Rattle.asgi_ws.specs.Sides.{WriteSide};

    ghost remaining = { λ w. told_by S.remaining w.stream w.before.items };

    ghost answers = { λ w. w.tally.reads.items };

    ghost Beside = { WriteSide };

    ghost beside = { λ w. record {
      written = told_by S.contents w.stream w.before.items;
      failed = w.tally.failures;
      answers = w.tally.writes.items;
      session = record { calls = w.calls.items; coming = None; leftover = leftover_by w.stream w.kept.items };
    } };

    fn read_some(&mut self, buf: &mut [u8]) -> io::Result<usize>
        ensures bound { ReadsAtMost result buf.new }
        ensures bytes { ReadConsumes (told_by S.remaining self.old.stream self.old.before.items) (told_by S.remaining self.new.stream self.new.before.items) result buf.new }
        ensures told { self.new.tally.reads.items ≡ self.old.tally.reads.items ++ answer_of (length buf.new) result ∷ [] }
        ensures written { told_by S.contents self.new.stream self.new.before.items ≡ told_by S.contents self.old.stream self.old.before.items }
        ensures counts { (self.new.tally.failures ≡ self.old.tally.failures) × (self.new.tally.writes ≡ self.old.tally.writes) }
        ensures session { (self.new.calls ≡ self.old.calls) × (leftover_by self.new.stream self.new.kept.items ≡ leftover_by self.old.stream self.old.kept.items) }
        ensures asks { Asks S.calls self.old.stream self.new.stream (asked.Read (length buf.new) result) }
        ensures closed { IsNone self.old.stream → FailsWith NotConnected result }
    {
        let read = read_text(&mut self.stream, buf);
        self.tally.note_read(&read, buf.len());
        read
    }

    fn faults(&self) -> u64 {
        self.tally.faults
    }
}

impl<S: Stream> Counts for Wired<S> {
    ghost use Rattle.asgi_ws.specs.Sides.{ReadSide};

    ghost written = { λ w. told_by S.contents w.stream w.before.items };

    ghost failed = { λ w. w.tally.failures };

    ghost answers = { λ w. w.tally.writes.items };

    ghost Beside = { ReadSide };

    ghost beside = { λ w. record {
      remaining = told_by S.remaining w.stream w.before.items;
      answers = w.tally.reads.items;
      session = record { calls = w.calls.items; coming = None; leftover = leftover_by w.stream w.kept.items };
    } };

    fn write_some(&mut self, bytes: &[u8]) -> io::Result<usize>
        ensures bound { WritesAtMost result bytes.now }
        ensures bytes { WriteAppends (told_by S.contents self.old.stream self.old.before.items) (told_by S.contents self.new.stream self.new.before.items) result bytes.now }
        ensures counts { CountsFailures self.old.tally.failures self.new.tally.failures bytes.now result }
        ensures told { self.new.tally.writes.items ≡ self.old.tally.writes.items ++ answer_of (length bytes.now) result ∷ [] }
        ensures remaining { told_by S.remaining self.new.stream self.new.before.items ≡ told_by S.remaining self.old.stream self.old.before.items }
        ensures reads { self.new.tally.reads ≡ self.old.tally.reads }
        ensures session { (self.new.calls ≡ self.old.calls) × (leftover_by self.new.stream self.new.kept.items ≡ leftover_by self.old.stream self.old.kept.items) }
        ensures asks { Asks S.calls self.old.stream self.new.stream (asked.Write bytes.now result) }
        ensures closed { IsNone self.old.stream → FailsWith NotConnected result }
    {
        let wrote = write_text(&mut self.stream, bytes);
        self.tally.note_write(&wrote, bytes);
        wrote
    }

    fn failures(&self) -> u64 {
        self.tally.failures
    }
}

impl<S: Stream + Drop> Messages for Wired<S> {
    ghost use Rattle.asgi_ws.specs.declared.messages.Got.TheVariants as got;
    ghost use Rattle.asgi_ws.specs.declared.messages.Put.TheVariants as put;
    ghost use Rattle.asgi_ws.specs.declared.messages.SentMessage.TheVariants as item;
    ghost use Rattle.asgi_ws.specs.declared.messages.Call.TheVariants as call;
    ghost use Rattle.asgi_ws.specs.Sessions.{has_failed};
    ghost use Rattle.asgi_ws.specs.Wires.{IsSent, IfDone, IfFailed, IfNoMemory, IsRefused, payload_step, closing_step};

    ghost calls = { λ w. w.calls.items };

    ghost coming = { λ _. None };

    ghost leftover = { λ w. leftover_by w.stream w.kept.items };

    fn read_message(&mut self) -> Got
        ensures answers { IsNone self.old.stream → AnswersRead (λ t. S.remaining t.stream) (λ t. S.contents t.stream) self.old.session self.new.session result }
        ensures shut { IsSome self.old.stream → (result ≡ got.Failed) × (self.new.session ≡ self.old.session) }
        ensures kept { self.new.calls.items ≡ self.old.calls.items ++ call.Read result ∷ [] }
        ensures after { self.new.tally.failures ≡ count_after self.old.tally.failures (is_failed result) }
        ensures stays { (self.new.stream ≡ self.old.stream) × (self.new.before ≡ self.old.before) × (self.new.kept ≡ self.old.kept)
            × (self.new.tally.reads ≡ self.old.tally.reads) × (self.new.tally.writes ≡ self.old.tally.writes) }
    {
        let answer = read_session(self.alloc, &self.stream, &mut self.session);
        count_read(&mut self.tally, &answer);
        note_read(&mut self.calls, answer)
    }

    fn send_message(&mut self, payload: Payload) -> Put
        ensures sent { IfDone result (IsSent (λ t. S.contents t.stream) self.old.session self.new.session (payload_step payload)) }
        ensures refused { IsNone self.old.stream → IfFailed result (IsRefused (λ t. S.contents t.stream) self.old.session self.new.session (payload_step payload)) }
        ensures memory { IfNoMemory result (self.new.session ≡ self.old.session) }
        ensures shut { IsSome self.old.stream → (result ≡ put.Failed) × (self.new.session ≡ self.old.session) }
        ensures kept { self.new.calls.items ≡ self.old.calls.items ++ call.Send (item.Payload payload) result ∷ [] }
        ensures after { self.new.tally.failures ≡ count_after self.old.tally.failures (has_failed result) }
        ensures stays { (self.new.stream ≡ self.old.stream) × (self.new.before ≡ self.old.before) × (self.new.kept ≡ self.old.kept)
            × (self.new.tally.reads ≡ self.old.tally.reads) × (self.new.tally.writes ≡ self.old.tally.writes) }
    {
        let (sending, payload) = Sending::of(&self.calls, payload);
        let answer = if self.stream.is_some() {
            Put::Failed
        } else {
            send(&mut self.session, payload)
        };
        self.calls = sending.answered(answer);
        self.count(answer)
    }

    fn send_close(&mut self, code: u16, reason: Reason) -> Put
        ensures sent { IfDone result (IsSent (λ t. S.contents t.stream) self.old.session self.new.session (closing_step code reason)) }
        ensures refused { IsNone self.old.stream → IfFailed result (IsRefused (λ t. S.contents t.stream) self.old.session self.new.session (closing_step code reason)) }
        ensures memory { IfNoMemory result (self.new.session ≡ self.old.session) }
        ensures shut { IsSome self.old.stream → (result ≡ put.Failed) × (self.new.session ≡ self.old.session) }
        ensures kept { self.new.calls.items ≡ self.old.calls.items ++ call.Send (item.Close code reason) result ∷ [] }
        ensures after { self.new.tally.failures ≡ count_after self.old.tally.failures (has_failed result) }
        ensures stays { (self.new.stream ≡ self.old.stream) × (self.new.before ≡ self.old.before) × (self.new.kept ≡ self.old.kept)
            × (self.new.tally.reads ≡ self.old.tally.reads) × (self.new.tally.writes ≡ self.old.tally.writes) }
    {
        let answer = if self.stream.is_some() {
            Put::Failed
        } else {
            close(self.alloc, &mut self.session, code, &reason)
        };
        self.note(answer, SentMessage::Close(code, reason))
    }
}

impl<S: Stream + Drop> Wired<S> {
    ghost use Rattle.asgi_ws.specs.declared.messages.Call.TheVariants as call;
    ghost use Rattle.asgi_ws.specs.Sessions.{has_failed};

    // Counts a send that failed.
    fn count(&mut self, answer: Put) -> Put
        ensures answer { result ≡ answer }
        ensures after { self.new.tally.failures ≡ count_after self.old.tally.failures (has_failed answer) }
        ensures stays { (self.new.calls ≡ self.old.calls) × (self.new.stream ≡ self.old.stream) × (self.new.session ≡ self.old.session) × (self.new.before ≡ self.old.before) × (self.new.kept ≡ self.old.kept)
            × (self.new.tally.reads ≡ self.old.tally.reads) × (self.new.tally.writes ≡ self.old.tally.writes) }
    {
        if answer == Put::Failed {
            self.tally.note_failure();
        }
        answer
    }

    // Records the item and the result, and counts a failure.
    fn note(&mut self, answer: Put, item: SentMessage) -> Put
        ensures answer { result ≡ answer }
        ensures kept { self.new.calls.items ≡ self.old.calls.items ++ call.Send item answer ∷ [] }
        ensures after { self.new.tally.failures ≡ count_after self.old.tally.failures (has_failed answer) }
        ensures stays { (self.new.stream ≡ self.old.stream) × (self.new.session ≡ self.old.session) × (self.new.before ≡ self.old.before) × (self.new.kept ≡ self.old.kept)
            × (self.new.tally.reads ≡ self.old.tally.reads) × (self.new.tally.writes ≡ self.old.tally.writes) }
    {
        let _item = note_send(&mut self.calls, item, answer);
        self.count(answer)
    }
}

impl<S: Stream + Drop> Line for Wired<S> {
    ghost use Rattle.asgi_ws.specs.Lines.{state_of};
    ghost use Rattle.asgi_ws.specs.Sessions.{kept_by};
    ghost use Rattle.asgi_ws.specs.Wires.{BeginsSession};
    ghost use Rattle.std.specs.Prelude.{refl};
    ghost use Rattle.asgi_ws.specs.Sides.{read_side, write_side, session_beside};

    ghost state = { λ line. state_of Self.Reads Self.Counts Self.Messages line };

    fn upgrade(&mut self, leftover: Vec<u8>)
        ensures begins { BeginsSession self.old.stream self.new.stream self.new.session leftover.items }
        ensures again { IsNone self.old.stream → self.new ≡ self.old }
        ensures keeps { leftover_by self.new.stream self.new.kept.items ≡ kept_by (leftover_by self.old.stream self.old.kept.items) leftover.items }
        ensures same { (self.new.calls ≡ self.old.calls) × (self.new.tally ≡ self.old.tally) }
        ensures text { (told_by S.remaining self.new.stream self.new.before.items ≡ told_by S.remaining self.old.stream self.old.before.items)
            × (told_by S.contents self.new.stream self.new.before.items ≡ told_by S.contents self.old.stream self.old.before.items) }
    {
        let Some(stream) = self.stream.take() else {
            return;
        };
        self.before = History::with(&History::new(), &stream);
        let kept = Octets::new(leftover);
        self.kept = History::with(&History::new(), &kept);
        self.session = Some(session_on(self.alloc, stream, kept.into_vec()));
    }

    ghost state_is = { λ _. refl };

    ghost reads_stay = { λ old new same. read_side same };

    ghost writes_stay = { λ old new same. write_side same };

    ghost session_stays = { λ old new same. session_beside same refl refl };
}

impl<S: Stream + Drop> Pings for Wired<S> {
    ghost use Rattle.asgi_ws.specs.Wires.{IsSent, IfDone, IfFailed, IfNoMemory, IsRefused, ping_step};

    fn ping(&mut self) -> Put
        ensures sent { IfDone result (IsSent (λ t. S.contents t.stream) self.old.session self.new.session ping_step) }
        ensures refused { IfFailed result (IsRefused (λ t. S.contents t.stream) self.old.session self.new.session ping_step) }
        ensures memory { IfNoMemory result (self.new.session ≡ self.old.session) }
        ensures stays { self.new ≡ record self.old { session = self.new.session } }
    {
        ping(&mut self.session)
    }
}
