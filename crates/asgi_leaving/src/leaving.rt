//! A line that asks for its client by a ping, and whose session can be told that it ends.
ghost use Rattle.std.specs.Prelude.{◌≡◌, ◌⊎◌, ◌++◌, ◌∷◌, [], None};
ghost use Rattle.asgi_ws.specs.Sessions.{count_after, has_failed, is_failed};
ghost use Rattle.asgi_ws.specs.Sides.{WriteSide, ReadSide};
ghost use Rattle.asgi_ws.specs.declared.messages.Got.{Got};
ghost use Rattle.asgi_ws.specs.declared.messages.Put.{Put};
ghost use Rattle.asgi_ws.specs.declared.messages.Call.TheVariants as call;
ghost use Rattle.asgi_ws.specs.declared.messages.SentMessage.TheVariants as item;
ghost use Rattle.asgi_leaving.specs.declared.notice.Farewell.{Farewell};
ghost use Rattle.asgi_leaving.specs.declared.notice.Notice.{Notice};
ghost use Rattle.asgi_leaving.specs.declared.notice.Notice.TheVariants.{Close, Nothing, Ping};
ghost use Rattle.asgi_leaving.specs.Leaving.{Tells, TellsIdle, told_call, told_calls};
ghost use Rattle.asgi_leaving.specs.Notices.{IsClose, code_of};

use crate::notice::{Farewell, Notice};
use asgi_io::{Counts, History, Reads};
use asgi_types::{Payload, Reason};
use asgi_ws::{Got, Line, Messages, Msg, Pings, Put};
use std::cell::Cell;
use std::io;

/// The line below, but for what is due by its server (`owe`), which the first read of a message that finds none tells. If a ping is
/// due, the client gets one, and no other until it is heard (RFC 6455, section 5.5.2). If a close is due, that read gives a close with
/// its code (section 7.4.1). So what the client sent before is heard first, and what the application says meanwhile is still sent.
/// `close_session` then tells the client.
#[derive(Drop)]
pub struct LeavingLine<L> {
    line: L,
    // What is due.
    due: Cell<Notice>,
    // What was told, since the client was heard.
    told: Notice,
    // For each call of the session the close that it gave in the place of the answer of the line below, if it did.
    changed: History<Option<Farewell>>,
}

impl<L> LeavingLine<L> {
    /// Nothing is due.
    pub fn new(line: L) -> Self
        ensures line { result.line ≡ line }
        ensures nothing { (result.changed.items ≡ []) × (result.told ≡ Nothing) }
    {
        LeavingLine {
            line,
            due: Cell::new(Notice::Nothing),
            told: Notice::Nothing,
            changed: History::new(),
        }
    }

    /// The line below.
    pub fn line(&self) -> &L
        ensures { result.now ≡ self.now.line }
    {
        &self.line
    }

    /// From here on this is due, in the place of what was before. A close for want of an answer is told only to a session whose client
    /// was asked, and has not been heard since.
    pub fn owe(&self, notice: Notice) {
        self.due.set(notice);
    }
}

impl<L> LeavingLine<L> {
    /// One more call of the session was made, which gave this close, or the answer of the line below.
    fn count(&mut self, changed: Option<Farewell>)
        ensures one { self.new.changed.items ≡ self.old.changed.items ++ changed ∷ [] }
        ensures stays { self.new ≡ record self.old { changed = self.new.changed } }
    {
        self.changed = History::with(&self.changed, &changed);
    }
}

impl<L: Messages> LeavingLine<L> {
    /// Tells the client of a session that was told to end: a close with the same code, which is one more call of the session. It is for
    /// a session that has ended, since nothing is sent after a close (RFC 6455, section 5.5.1). One that the application or the client
    /// has closed gets no other: the message layer below sends a close once, and nothing after it.
    pub fn close_session(&mut self)
        ensures told { (why : Farewell) → self.old.told ≡ Close why → (put : Put)
            × (L.calls self.new.line ≡ L.calls self.old.line ++ call.Send (item.Close (code_of why) []) put ∷ [])
            × (told_calls self.new.changed.items (L.calls self.new.line) ≡ told_calls self.old.changed.items (L.calls self.old.line) ++ call.Send (item.Close (code_of why) []) put ∷ []) }
        ensures untold { ¬ (IsClose self.old.told) → self.new ≡ self.old }
        ensures stays { self.new ≡ record self.old { line = self.new.line; changed = self.new.changed } }
    {
        let Notice::Close(why) = self.told else {
            return;
        };
        let _put = self.line.send_close(why.code(), no_reason());
        self.count(None);
    }
}

impl<L: Pings> LeavingLine<L> {
    /// Tells what is to be told where this is due, and this was found. The close, if that is what it tells.
    fn tell(&mut self, due: Notice, found: Got) -> (Got, Option<Farewell>)
        ensures tells { Tells due self.old.told self.new.told found result.0 }
        ensures changed { told_call result.1 (call.Read found) ≡ call.Read result.0 }
        ensures session { (L.calls self.new.line ≡ L.calls self.old.line) × (L.leftover self.new.line ≡ L.leftover self.old.line) }
        ensures counts { L.failed self.new.line ≡ L.failed self.old.line }
        ensures text { (L.remaining self.new.line ≡ L.remaining self.old.line) × (L.written self.new.line ≡ L.written self.old.line)
            × (L.Reads.answers self.new.line ≡ L.Reads.answers self.old.line) × (L.Counts.answers self.new.line ≡ L.Counts.answers self.old.line) }
        ensures same { self.new.changed ≡ self.old.changed }
    {
        match found {
            Got::Message(message) => {
                self.told = self.told.once_heard();
                (Got::Message(message), None)
            }
            Got::Idle => self.tell_idle(due.after(self.told)),
            Got::Ended => (Got::Ended, None),
            Got::Failed => (Got::Failed, None),
            Got::NoMemory => (Got::NoMemory, None),
        }
    }

    /// Tells this, where nothing was found. The close, if that is what it tells.
    fn tell_idle(&mut self, next: Notice) -> (Got, Option<Farewell>)
        ensures tells { TellsIdle next self.old.told self.new.told result.0 }
        ensures changed { told_call result.1 (call.Read Got.Idle) ≡ call.Read result.0 }
        ensures session { (L.calls self.new.line ≡ L.calls self.old.line) × (L.leftover self.new.line ≡ L.leftover self.old.line) }
        ensures counts { L.failed self.new.line ≡ L.failed self.old.line }
        ensures text { (L.remaining self.new.line ≡ L.remaining self.old.line) × (L.written self.new.line ≡ L.written self.old.line)
            × (L.Reads.answers self.new.line ≡ L.Reads.answers self.old.line) × (L.Counts.answers self.new.line ≡ L.Counts.answers self.old.line) }
        ensures same { self.new.changed ≡ self.old.changed }
    {
        match next {
            Notice::Nothing => (Got::Idle, None),
            Notice::Ping => {
                self.ask();
                (Got::Idle, None)
            }
            Notice::Close(why) => {
                self.told = Notice::Close(why);
                let close = Msg::Close(Some((why.code(), no_reason())));
                (Got::Message(close), Some(why))
            }
        }
    }

    /// Sends a ping. If it can't be sent the client was not asked.
    fn ask(&mut self)
        ensures asks { (self.new.told ≡ self.old.told) ⊎ (self.new.told ≡ Ping) }
        ensures session { (L.calls self.new.line ≡ L.calls self.old.line) × (L.leftover self.new.line ≡ L.leftover self.old.line) }
        ensures counts { L.failed self.new.line ≡ L.failed self.old.line }
        ensures text { (L.remaining self.new.line ≡ L.remaining self.old.line) × (L.written self.new.line ≡ L.written self.old.line)
            × (L.Reads.answers self.new.line ≡ L.Reads.answers self.old.line) × (L.Counts.answers self.new.line ≡ L.Counts.answers self.old.line) }
        ensures same { self.new.changed ≡ self.old.changed }
    {
        if self.line.ping() == Put::Done {
            self.told = Notice::Ping;
        }
    }
}

fn no_reason() -> Reason
    ensures { result ≡ [] }
{
    let Some(reason) = Reason::new("") else {
        unreachable!()
    };
    reason
}

impl<L: Line> Reads for LeavingLine<L> {
    ghost remaining = { λ w. L.remaining w.line };

    ghost answers = { λ w. L.Reads.answers w.line };

    ghost Beside = { WriteSide };

    ghost beside = { λ w. record {
      written = L.written w.line;
      failed = L.failed w.line;
      answers = L.Counts.answers w.line;
      session = record { calls = told_calls w.changed.items (L.calls w.line); coming = None; leftover = L.leftover w.line };
    } };

    fn read_some(&mut self, buf: &mut [u8]) -> io::Result<usize> {
        self.line.read_some(buf)
    }

    fn faults(&self) -> u64 {
        self.line.faults()
    }
}

impl<L: Line> Counts for LeavingLine<L> {
    ghost written = { λ w. L.written w.line };

    ghost failed = { λ w. L.failed w.line };

    ghost answers = { λ w. L.Counts.answers w.line };

    ghost Beside = { ReadSide };

    ghost beside = { λ w. record {
      remaining = L.remaining w.line;
      answers = L.Reads.answers w.line;
      session = record { calls = told_calls w.changed.items (L.calls w.line); coming = None; leftover = L.leftover w.line };
    } };

    fn write_some(&mut self, bytes: &[u8]) -> io::Result<usize> {
        self.line.write_some(bytes)
    }

    fn failures(&self) -> u64 {
        self.line.failures()
    }
}

impl<L: Pings> Messages for LeavingLine<L> {
    ghost calls = { λ w. told_calls w.changed.items (L.calls w.line) };

    ghost coming = { λ _. None };

    ghost leftover = { λ w. L.leftover w.line };

    fn read_message(&mut self) -> Got
        // The line below was read once, and this is told of what it found, by what was due: nothing is known of what a cell contains.
        ensures tells { (found : Got) × (due : Notice) × (L.calls self.new.line ≡ L.calls self.old.line ++ call.Read found ∷ [])
            × Tells due self.old.told self.new.told found result }
        ensures told { told_calls self.new.changed.items (L.calls self.new.line) ≡ told_calls self.old.changed.items (L.calls self.old.line) ++ call.Read result ∷ [] }
        ensures counts { L.failed self.new.line ≡ count_after (L.failed self.old.line) (is_failed result) }
        ensures shut { L.leftover self.old.line ≡ None → result ≡ Got.Failed }
        ensures same { L.leftover self.new.line ≡ L.leftover self.old.line }
        ensures text { (L.remaining self.new.line ≡ L.remaining self.old.line) × (L.written self.new.line ≡ L.written self.old.line)
            × (L.Reads.answers self.new.line ≡ L.Reads.answers self.old.line) × (L.Counts.answers self.new.line ≡ L.Counts.answers self.old.line) }
    {
        let found = self.line.read_message();
        let due = self.due.get();
        let (told, changed) = self.tell(due, found);
        self.count(changed);
        told
    }

    fn send_message(&mut self, payload: Payload) -> Put
        ensures sends { L.calls self.new.line ≡ L.calls self.old.line ++ call.Send (item.Payload payload) result ∷ [] }
        ensures untold { self.new.told ≡ self.old.told }
        ensures told { told_calls self.new.changed.items (L.calls self.new.line) ≡ told_calls self.old.changed.items (L.calls self.old.line) ++ call.Send (item.Payload payload) result ∷ [] }
        ensures counts { L.failed self.new.line ≡ count_after (L.failed self.old.line) (has_failed result) }
        ensures shut { L.leftover self.old.line ≡ None → result ≡ Put.Failed }
        ensures same { L.leftover self.new.line ≡ L.leftover self.old.line }
        ensures text { (L.remaining self.new.line ≡ L.remaining self.old.line) × (L.written self.new.line ≡ L.written self.old.line)
            × (L.Reads.answers self.new.line ≡ L.Reads.answers self.old.line) × (L.Counts.answers self.new.line ≡ L.Counts.answers self.old.line) }
    {
        let put = self.line.send_message(payload);
        self.count(None);
        put
    }

    fn send_close(&mut self, code: u16, reason: Reason) -> Put
        ensures sends { L.calls self.new.line ≡ L.calls self.old.line ++ call.Send (item.Close code reason) result ∷ [] }
        ensures untold { self.new.told ≡ self.old.told }
        ensures told { told_calls self.new.changed.items (L.calls self.new.line) ≡ told_calls self.old.changed.items (L.calls self.old.line) ++ call.Send (item.Close code reason) result ∷ [] }
        ensures counts { L.failed self.new.line ≡ count_after (L.failed self.old.line) (has_failed result) }
        ensures shut { L.leftover self.old.line ≡ None → result ≡ Put.Failed }
        ensures same { L.leftover self.new.line ≡ L.leftover self.old.line }
        ensures text { (L.remaining self.new.line ≡ L.remaining self.old.line) × (L.written self.new.line ≡ L.written self.old.line)
            × (L.Reads.answers self.new.line ≡ L.Reads.answers self.old.line) × (L.Counts.answers self.new.line ≡ L.Counts.answers self.old.line) }
    {
        let put = self.line.send_close(code, reason);
        self.count(None);
        put
    }
}

impl<L: Pings> Line for LeavingLine<L> {
    ghost use Rattle.asgi_ws.specs.Lines.{state_of};
    ghost use Rattle.std.specs.Prelude.{refl};
    ghost use Rattle.asgi_ws.specs.Sides.{read_side, write_side, session_beside};

    ghost state = { λ line. state_of Self.Reads Self.Counts Self.Messages line };

    fn upgrade(&mut self, leftover: Vec<u8>) {
        self.line.upgrade(leftover);
    }

    ghost state_is = { λ _. refl };

    ghost reads_stay = { λ old new same. read_side same };

    ghost writes_stay = { λ old new same. write_side same };

    ghost session_stays = { λ old new same. session_beside same refl refl };
}
