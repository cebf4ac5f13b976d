//! The connection's half of the exchange of an opening handshake: it answers the handshake, hands over the messages
//! that the application sends, and offers those that are read. The half knows only its own end of the pair.
ghost use Rattle.std.specs.Prelude.{◌≡◌, ◌≢◌, ◌↔◌, ◌⊎◌, ◌<◌, false, [], ◌∷◌, ◌++◌, ℕ, List, Option, Some, None, ⊤};
ghost use Rattle.asgi_types.specs.declared.incoming.Incoming.{Incoming};
ghost use Rattle.asgi_types.specs.declared.outgoing.Outgoing.{Outgoing};
ghost use Rattle.asgi_protocol.specs.Shapes.{is_message};
ghost use Rattle.asgi_exchange.specs.Calls.{IsViewOf};
ghost use Rattle.asgi_exchange.specs.Messages as heard;
ghost use Rattle.asgi_exchange.specs.Views.{empty_conn};
ghost use Rattle.asgi_conversation.specs.declared.following.NextStep.{NextStep};
ghost use Rattle.asgi_conversation.specs.declared.following.NextStep.TheVariants.{ConnectionEnds};
ghost use Rattle.asgi_ws.specs.Lines.{LineState};
ghost use Rattle.asgi_halves.specs.WebSocketHalf.{SessionScene, Invariant, OpensSession, PreservesByEnd, PreservesByLine, Says, Speaks, IsUnended, MayDrop, NoneDue, Rests, IsAccept, IsDenial, answer_of, answered_with, due_at, heard_by, lost_by, noted_by, outcome_of, reads_at, rest_after, rest_at, stage_of};
ghost use Rattle.asgi_halves.specs.Kinds.{IsShut, IsTurnOfOneRead, IsTurnOfRead, OffersAll, ReadsNone, turn_by};
ghost use Rattle.asgi_halves.specs.private.HalfSteps.{OffersOne};
ghost use Rattle.asgi_ws.specs.declared.messages.Msg.{Msg};
ghost use Rattle.asgi_ws.specs.declared.messages.Call.TheVariants.{Read};
ghost use Rattle.asgi_exchange.specs.Session.{Output};

use crate::kind::ExchangeKind;
use crate::stage::Stage;
use crate::wire::{Wire, write};
use asgi_conversation::{NextStep, Outcome};
use asgi_io::Turn;
use asgi_pipes::{ConnEnd, EndKind, OutItem};
use asgi_protocol::{Judge, Verdict};
use asgi_response::{Progress, ResponseText, refusal_text};
use asgi_types::{Chars, Facts, Incoming, Kind, Outgoing, Payload, Reason};
use asgi_ws::{Got, Line, Msg, Put, accept_text, denied_text};
use std::mem;

/// The most messages that are read and dropped after a close.
const SPARE_READS: u32 = 64;

/// How far a session is, from its handshake to its close.
#[derive(Debug, Drop)]
pub enum Session {
    /// Neither side has closed it, and messages may follow. This event waits for a free place in the queue.
    Begun(Answer, Option<Incoming>),
    /// The client closed it: this disconnect is due.
    Leaves(Incoming),
    /// No message follows: the disconnect for that is due.
    Breaks,
    /// That disconnect was offered.
    Broken,
    /// It was closed. At most so many more messages are read and dropped; None once no message follows.
    Closed(Side, Option<u32>),
}

/// How a handshake is answered.
#[derive(Clone, Copy, Debug, PartialEq, Eq)]
pub enum Answer {
    /// No answer yet, or a denial, whose text records how far it is.
    Awaited,
    /// It was accepted.
    Accepted,
    /// The application refused it, and the answer is 403.
    Refused,
}

/// Who closed a session.
#[derive(Clone, Copy, Debug, PartialEq, Eq)]
pub enum Side {
    /// The application, or the server for it.
    Application,
    /// The client, and the disconnect for that was offered.
    Client,
}

/// How far the application's answer to a handshake is.
#[derive(Clone, Copy, Debug, PartialEq, Eq)]
pub enum Answered {
    /// No answer yet, or a denial.
    Unanswered,
    /// The handshake was accepted, and the application did not close the session.
    Open,
    /// The handshake was accepted, and the application closed the session.
    Closed,
    /// The application refused the handshake.
    Refused,
}

/// What is read in a session.
#[derive(Clone, Copy, Debug, PartialEq, Eq)]
pub enum Reading {
    /// Nothing.
    Rests,
    /// A message, for the application.
    Hears,
    /// A message, which is dropped: one of so many.
    Drops(Side, u32),
}

/// The connection's half of the exchange of an opening handshake.
#[derive(Drop)]
pub struct WebSocketHalf {
    /// What the connection keeps.
    pub wire: Wire,
    /// The facts of the handshake.
    pub facts: Facts,
    /// Decides what of the events taken is written.
    pub judge: Judge,
    /// How far the text of a denial is.
    pub text: ResponseText,
    /// The bytes after the handshake, which the line gets with the accept: the first of its frames.
    pub leftover: Vec<u8>,
    /// How far the session is.
    pub session: Session,
    /// How far the exchange is.
    pub stage: Stage,
}

impl WebSocketHalf {
    /// Begins the exchange of a handshake with these facts, after which these bytes were read.
    pub fn begin(wire: Wire, facts: Facts, text: ResponseText, leftover: Vec<u8>) -> WebSocketHalf
        ensures begins { (scene : SessionScene) (now : LineState) (read : List ℕ) → OpensSession scene now wire facts text leftover.items read → Invariant scene now result read empty_conn }
        ensures limits { result.wire.limits ≡ wire.limits }
        ensures running { result.stage ≡ Stage.Running }
    {
        WebSocketHalf {
            wire,
            facts,
            judge: Judge::new(Kind::WebSocket),
            text,
            leftover,
            session: Session::Begun(Answer::Awaited, Some(Incoming::WsConnect)),
            stage: Stage::Running,
        }
    }

    // ---- how far it is

    /// How far the application's answer to the handshake is.
    fn answered(&self) -> Answered
        ensures { result ≡ answer_of self.now.session }
    {
        match &self.session {
            Session::Begun(Answer::Awaited, _) => Answered::Unanswered,
            Session::Begun(Answer::Refused, _) => Answered::Refused,
            Session::Closed(Side::Application, _) => Answered::Closed,
            Session::Begun(Answer::Accepted, _) | Session::Closed(Side::Client, _) =>
                Answered::Open,
            Session::Leaves(_) | Session::Breaks | Session::Broken => Answered::Open,
        }
    }

    /// How many messages may be read after a close; None once no message follows.
    fn rest(&self) -> Option<u32>
        ensures { result ≡ rest_at self.now.session }
    {
        match &self.session {
            Session::Begun(_, _) | Session::Leaves(_) => Some(SPARE_READS),
            Session::Breaks | Session::Broken => None,
            Session::Closed(_, rest) => *rest,
        }
    }

    /// What is read next.
    fn reading(&self) -> Reading
        ensures { result ≡ reads_at self.now.session }
    {
        match &self.session {
            Session::Begun(Answer::Accepted, None) => Reading::Hears,
            Session::Closed(side, rest) => dropping(*side, *rest),
            Session::Begun(_, _) | Session::Leaves(_) | Session::Breaks | Session::Broken =>
                Reading::Rests,
        }
    }

    /// Answers the handshake so. The event that waits waits on.
    fn answer_with(&mut self, answer: Answer)
        ensures { self.new ≡ record self.old { session = answered_with answer self.old.session } }
    {
        if let Session::Begun(_, waits) = &mut self.session {
            let waits = waits.take();
            self.session = Session::Begun(answer, waits);
        }
    }

    // ---- what the application sent

    /// Writes or hands over what an event adds: nothing, if the judge does not pass it.
    fn say<L: Line>(&mut self, event: Outgoing, line: &mut L)
        requires running { self.old.stage ≡ Stage.Running }
        ensures says { Says (L.state line.old) self.old event (L.state line.new) self.new }
        ensures unread { ReadsNone (L.state line.old) (L.state line.new) }
    {
        if let Verdict::Pass = self.judge.judge(&self.facts, &event) {
            self.speak(event, line);
        }
    }

    /// Writes or hands over what an event adds that the judge has passed.
    fn speak<L: Line>(&mut self, event: Outgoing, line: &mut L)
        requires running { self.old.stage ≡ Stage.Running }
        ensures speaks { Speaks (L.state line.old) self.old event (L.state line.new) self.new }
        ensures unread { ReadsNone (L.state line.old) (L.state line.new) }
    {
        match event {
            Outgoing::WsSend { payload } => self.send(payload, line),
            other => self.speak_of(&other, line),
        }
    }

    /// The same for an event that is no message.
    fn speak_of<L: Line>(&mut self, event: &Outgoing, line: &mut L)
        requires running { self.old.stage ≡ Stage.Running }
        requires no_message { is_message event.now ≡ false }
        ensures speaks { Speaks (L.state line.old) self.old event.now (L.state line.new) self.new }
        ensures unread { ReadsNone (L.state line.old) (L.state line.new) }
    {
        match event {
            Outgoing::WsClose { code, reason } => self.close_by(*code, reason, line),
            Outgoing::WsAccept { .. } => self.accept(event, line),
            Outgoing::DenialStart { .. } => self.deny(event, line),
            Outgoing::DenialBody { .. } => self.deny(event, line),
            _ => {}
        }
    }

    /// Accepts the handshake. Once the text of the accept is out, the line carries messages.
    fn accept<L: Line>(&mut self, event: &Outgoing, line: &mut L)
        requires running { self.old.stage ≡ Stage.Running }
        requires accepts { IsAccept event.now }
        ensures speaks { Speaks (L.state line.old) self.old event.now (L.state line.new) self.new }
        ensures unread { ReadsNone (L.state line.old) (L.state line.new) }
    {
        let Ok(text) = accept_text(self.wire.alloc, &self.facts, event) else {
            self.stage = Stage::Cut(Outcome::NoMemory);
            return;
        };
        if let Some(n) = write(line, &text) {
            self.stage = Stage::Cut(Outcome::WriteFailed(n));
            return;
        }
        line.upgrade(mem::replace(&mut self.leftover, Vec::new(self.wire.alloc)));
        self.answer_with(Answer::Accepted);
    }

    /// Hands a message over to the line.
    fn send<L: Line>(&mut self, payload: Payload, line: &mut L)
        requires running { self.old.stage ≡ Stage.Running }
        ensures speaks { Speaks (L.state line.old) self.old (Outgoing.WsSend payload) (L.state line.new) self.new }
        ensures unread { ReadsNone (L.state line.old) (L.state line.new) }
    {
        self.stage = stage_after(line.send_message(payload));
    }

    /// Closes the session, or refuses a handshake that was not accepted.
    fn close_by<L: Line>(&mut self, code: u16, reason: &Chars, line: &mut L)
        requires running { self.old.stage ≡ Stage.Running }
        ensures speaks { Speaks (L.state line.old) self.old (Outgoing.WsClose code reason.now) (L.state line.new) self.new }
        ensures unread { ReadsNone (L.state line.old) (L.state line.new) }
    {
        match self.answered() {
            Answered::Open => self.close(code, reason, line),
            _ => self.refuse(line),
        }
    }

    /// Hands the application's close over. Nothing is due after it.
    fn close<L: Line>(&mut self, code: u16, reason: &Chars, line: &mut L)
        requires running { self.old.stage ≡ Stage.Running }
        requires open { answer_of self.old.session ≡ Answered.Open }
        ensures speaks { Speaks (L.state line.old) self.old (Outgoing.WsClose code reason.now) (L.state line.new) self.new }
        ensures unread { ReadsNone (L.state line.old) (L.state line.new) }
    {
        let Some(reason) = Reason::new(reason.as_str()) else {
            self.stage = Stage::Cut(Outcome::WriteFailed(0));
            return;
        };
        self.session = Session::Closed(Side::Application, self.rest());
        self.stage = stage_after(line.send_close(code, reason));
    }

    /// Writes the text that refuses the handshake.
    fn refuse<L: Line>(&mut self, line: &mut L)
        requires running { self.old.stage ≡ Stage.Running }
        requires shut { answer_of self.old.session ≢ Answered.Open }
        ensures speaks { (code : ℕ) (reason : List ℕ) → Speaks (L.state line.old) self.old (Outgoing.WsClose code reason) (L.state line.new) self.new }
        ensures unread { ReadsNone (L.state line.old) (L.state line.new) }
    {
        self.answer_with(Answer::Refused);
        if let Some(n) = write(line, denied_text()) {
            self.stage = Stage::Cut(Outcome::WriteFailed(n));
        }
    }

    /// Writes what an event adds to a denial.
    fn deny<L: Line>(&mut self, event: &Outgoing, line: &mut L)
        requires running { self.old.stage ≡ Stage.Running }
        requires denies { IsDenial event.now }
        ensures speaks { Speaks (L.state line.old) self.old event.now (L.state line.new) self.new }
        ensures unread { ReadsNone (L.state line.old) (L.state line.new) }
    {
        if self.text.take(event, &mut self.wire.out).is_err() {
            self.stage = Stage::Cut(Outcome::NoMemory);
            return;
        }
        if let Some(n) = self.wire.put(line) {
            self.stage = Stage::Cut(Outcome::WriteFailed(n));
        }
    }

    // ---- what is due

    /// Offers what is due. Returns whether something was offered.
    fn offer<C: ConnEnd>(&mut self, end: &mut C) -> bool
        requires running { self.old.stage ≡ Stage.Running }
        ensures leads { PreservesByEnd self.old (IsViewOf C.ConnEnd end.old) self.new (IsViewOf C.ConnEnd end.new) }
        ensures running { self.new.stage ≡ Stage.Running }
        ensures tag { (C.tag end.new ≡ C.tag end.old) × (C.ring end.new ≡ C.ring end.old) }
        ensures one { OffersOne C.ConnEnd result end.old end.new }
        ensures all { OffersAll C.ConnEnd (NoneDue self.new) end.new }
    {
        match mem::replace(&mut self.session, Session::Broken) {
            Session::Begun(answer, Some(event)) => match end.offer(event) {
                Ok(()) => {
                    self.session = Session::Begun(answer, None);
                    true
                }
                Err(back) => {
                    self.session = Session::Begun(answer, Some(back));
                    false
                }
            },
            Session::Leaves(disconnect) => {
                self.session = Session::Closed(Side::Client, Some(SPARE_READS));
                end.offer_disconnect(disconnect)
            }
            Session::Breaks => end.offer_disconnect(disconnect(1006)),
            Session::Begun(answer, None) => {
                self.session = Session::Begun(answer, None);
                false
            }
            Session::Broken => false,
            Session::Closed(side, rest) => {
                self.session = Session::Closed(side, rest);
                false
            }
        }
    }

    // ---- what is read

    /// Reads a message, if the session is open and nothing waits for a place; after a close it is dropped.
    fn read<L: Line>(&mut self, line: &mut L) -> Turn
        requires running { self.old.stage ≡ Stage.Running }
        ensures leads { PreservesByLine (L.state line.old) self.old (L.state line.new) self.new }
        ensures turn { IsTurnOfRead (Rests self.new) (L.state line.old) (L.state line.new) result }
        ensures keeps { result ≡ Turn.Idle → due_at self.new.session ≡ due_at self.old.session }
        ensures none { reads_at self.old.session ≡ Reading.Rests → self.new ≡ self.old }
        ensures moves { IsShut self.new.stage → result ≡ Turn.Moved }
    {
        match self.reading() {
            Reading::Rests => Turn::Idle,
            Reading::Hears => self.read_one(line),
            Reading::Drops(side, spare) => self.drop_one(side, spare, line),
        }
    }

    /// Reads a message, and records what it makes due.
    fn read_one<L: Line>(&mut self, line: &mut L) -> Turn
        requires running { self.old.stage ≡ Stage.Running }
        requires open { self.old.session ≡ Session.Begun Answer.Accepted None }
        ensures leads { PreservesByLine (L.state line.old) self.old (L.state line.new) self.new }
        ensures turn { IsTurnOfOneRead (L.state line.old) (L.state line.new) result }
        ensures keeps { result ≡ Turn.Idle → self.new ≡ self.old }
        ensures moves { IsShut self.new.stage → result ≡ Turn.Moved }
    {
        let got = line.read_message();
        self.note(got)
    }

    /// Records what a read of a message makes due.
    fn note(&mut self, got: Got) -> Turn
        ensures noted { self.new ≡ noted_by self.old got }
        ensures turn { result ≡ turn_by got }
    {
        match got {
            Got::Message(message) => self.hear(message),
            Got::Idle => return Turn::Idle,
            Got::Ended => self.lose(),
            Got::Failed => self.lose(),
            Got::NoMemory => self.stage = Stage::Cut(Outcome::NoMemory),
        }
        Turn::Moved
    }

    /// Records that no message follows: the disconnect is due.
    fn lose(&mut self)
        ensures { self.new ≡ lost_by self.old }
    {
        self.session = Session::Breaks;
    }

    /// Records what a message makes due.
    fn hear(&mut self, message: Msg)
        ensures { self.new ≡ heard_by self.old message }
    {
        match message {
            Msg::Text(text) => self.session = heard(Payload::Text(text)),
            Msg::Bytes(bytes) => self.session = heard(Payload::Bytes(bytes)),
            Msg::Ping => {}
            Msg::Pong => {}
            Msg::Close(close) => self.session = Session::Leaves(disconnect_of(close)),
        }
    }

    /// Reads a message after a close, one of so many, and drops it.
    fn drop_one<L: Line>(&mut self, side: Side, spare: u32, line: &mut L) -> Turn
        requires may { MayDrop self.old.stage }
        requires closed { self.old.session ≡ Session.Closed side (Some spare) }
        requires spare { 0 < spare }
        ensures leads { PreservesByLine (L.state line.old) self.old (L.state line.new) self.new }
        ensures stage { self.new.stage ≡ self.old.stage }
        ensures turn { IsTurnOfOneRead (L.state line.old) (L.state line.new) result }
        ensures same { (got : Got) × ((L.state line.new).session.calls ≡ (L.state line.old).session.calls ++ Read got ∷ [])
            × (self.new ≡ record self.old { session = Session.Closed side (rest_after spare got) }) }
    {
        let got = line.read_message();
        self.note_dropped(side, spare, got)
    }

    /// Records a read after a close: its message is dropped, and one read less is left.
    fn note_dropped(&mut self, side: Side, spare: u32, got: Got) -> Turn
        requires spare { 0 < spare }
        ensures dropped { self.new ≡ record self.old { session = Session.Closed side (rest_after spare got) } }
        ensures turn { result ≡ turn_by got }
    {
        let left = Some(spare - 1);
        match got {
            Got::Message(_) => self.session = Session::Closed(side, left),
            Got::Idle => {
                self.session = Session::Closed(side, left);
                return Turn::Idle;
            }
            Got::Ended => self.session = Session::Closed(side, None),
            Got::Failed => self.session = Session::Closed(side, None),
            Got::NoMemory => self.session = Session::Closed(side, Some(0)),
        }
        Turn::Moved
    }

    /// Makes the reads that are left after a close, and drops their messages. Such reads are not counted as turns.
    fn drop_rest<L: Line>(&mut self, line: &mut L)
        requires may { MayDrop self.old.stage }
        ensures leads { PreservesByLine (L.state line.old) self.old (L.state line.new) self.new }
        ensures stage { self.new.stage ≡ self.old.stage }
    {
        for _read in 0..SPARE_READS {
            let Reading::Drops(side, spare) = self.reading() else {
                return;
            };
            let _turn = self.drop_one(side, spare, line);
        }
    }

    // ---- the end

    /// Ends the exchange once the task has ended. A session that was accepted and is finished reads on after its close
    /// (`drop_rest`).
    fn finish_task<L: Line>(&mut self, kind: EndKind, line: &mut L) -> Turn
        requires ending { self.old.stage ≡ Stage.Ending kind }
        ensures leads { PreservesByLine (L.state line.old) self.old (L.state line.new) self.new }
        ensures over { (following : NextStep) × (self.new.stage ≡ Stage.Over following) }
        ensures moves { result ≡ Turn.Moved }
    {
        let outcome = self.end_by(kind, line);
        self.stage = Stage::Over(NextStep::ConnectionEnds(outcome));
        if outcome == Outcome::Finished {
            self.drop_rest(line);
        }
        Turn::Moved
    }

    /// Writes what the end of the task adds, and returns how the connection ends.
    fn end_by<L: Line>(&mut self, kind: EndKind, line: &mut L) -> Outcome
        requires ending { self.old.stage ≡ Stage.Ending kind }
        ensures leads { PreservesByLine (L.state line.old) self.old (L.state line.new) (record self.new { stage = Stage.Over (NextStep.ConnectionEnds result) }) }
    {
        match kind {
            EndKind::Idle => Outcome::Idle,
            EndKind::Returned => self.finish(1000, line),
            EndKind::Faulted => self.finish(1011, line),
        }
    }

    /// The same for a task that ended by itself: an open session is closed with this code.
    fn finish<L: Line>(&mut self, code: u16, line: &mut L) -> Outcome
        requires ending { ((self.old.stage ≡ Stage.Ending EndKind.Returned) × (code ≡ 1000)) ⊎ ((self.old.stage ≡ Stage.Ending EndKind.Faulted) × (code ≡ 1011)) }
        ensures leads { PreservesByLine (L.state line.old) self.old (L.state line.new) (record self.new { stage = Stage.Over (NextStep.ConnectionEnds result) }) }
    {
        match self.answered() {
            Answered::Unanswered => self.answer(line),
            Answered::Refused => Outcome::Finished,
            Answered::Closed => Outcome::Finished,
            Answered::Open => self.finish_open(code, line),
        }
    }

    /// Answers in place of the application: 500, if no body of a denial was sent.
    fn answer<L: Line>(&mut self, line: &mut L) -> Outcome
        requires ending { (self.old.stage ≡ Stage.Ending EndKind.Returned) ⊎ (self.old.stage ≡ Stage.Ending EndKind.Faulted) }
        requires unanswered { answer_of self.old.session ≡ Answered.Unanswered }
        ensures leads { PreservesByLine (L.state line.old) self.old (L.state line.new) (record self.new { stage = Stage.Over (NextStep.ConnectionEnds result) }) }
    {
        match self.text.progress() {
            Progress::Begun => Outcome::Finished,
            Progress::Complete { closes: _ } => Outcome::Finished,
            Progress::Nothing => match write(line, refusal_text(500)) {
                None => Outcome::Refused(500),
                Some(n) => Outcome::WriteFailed(n),
            },
        }
    }

    /// Ends a session that the application left open: it is closed with this code, if no disconnect was offered (the client
    /// closed it, or the input ended or failed).
    fn finish_open<L: Line>(&mut self, code: u16, line: &mut L) -> Outcome
        requires ending { ((self.old.stage ≡ Stage.Ending EndKind.Returned) × (code ≡ 1000)) ⊎ ((self.old.stage ≡ Stage.Ending EndKind.Faulted) × (code ≡ 1011)) }
        requires open { answer_of self.old.session ≡ Answered.Open }
        ensures leads { PreservesByLine (L.state line.old) self.old (L.state line.new) (record self.new { stage = Stage.Over (NextStep.ConnectionEnds result) }) }
    {
        match &self.session {
            Session::Broken => Outcome::InputBroke,
            Session::Closed(_, _) => Outcome::Finished,
            Session::Begun(_, _) => self.close_last(code, line),
            Session::Leaves(_) => self.close_last(code, line),
            Session::Breaks => self.close_last(code, line),
        }
    }

    /// Closes a session of which no disconnect was offered.
    fn close_last<L: Line>(&mut self, code: u16, line: &mut L) -> Outcome
        requires ending { ((self.old.stage ≡ Stage.Ending EndKind.Returned) × (code ≡ 1000)) ⊎ ((self.old.stage ≡ Stage.Ending EndKind.Faulted) × (code ≡ 1011)) }
        requires open { answer_of self.old.session ≡ Answered.Open }
        requires stays { IsUnended self.old.session }
        ensures leads { PreservesByLine (L.state line.old) self.old (L.state line.new) (record self.new { stage = Stage.Over (NextStep.ConnectionEnds result) }) }
    {
        self.session = Session::Closed(Side::Application, self.rest());
        outcome_after(line.send_close(code, no_reason()))
    }
}

impl ExchangeKind for WebSocketHalf {
    ghost In = { Msg };

    ghost Out = { Output };

    ghost Scene = { SessionScene };

    ghost stands = { Invariant };

    ghost reached = { λ half. half.stage };

    ghost may_read = { λ _. ⊤ };

    ghost none_due = { NoneDue };

    ghost rests = { Rests };

    ghost cut_event = { Incoming.WsDisconnect 1006 [] };

    ghost ring = { λ half. half.wire.limits.ring };

    fn stage(&self) -> Stage {
        self.stage
    }

    fn places(&self) -> usize {
        self.wire.limits.ring
    }

    fn cut_disconnect(&self) -> Incoming {
        disconnect(1006)
    }

    fn end_with(&mut self, outcome: Outcome) {
        self.stage = Stage::Over(NextStep::ConnectionEnds(outcome));
    }

    fn take_end(&mut self, kind: EndKind) {
        self.stage = Stage::Ending(kind);
    }

    fn say<L: Line>(&mut self, event: Outgoing, line: &mut L) {
        WebSocketHalf::say(self, event, line);
    }

    fn offer_due<C: ConnEnd>(&mut self, end: &mut C) -> bool {
        self.offer(end)
    }

    fn read_on<L: Line>(&mut self, line: &mut L) -> Turn {
        self.read(line)
    }

    fn finish<L: Line>(&mut self, kind: EndKind, line: &mut L) -> Turn {
        self.finish_task(kind, line)
    }
}

/// The stage after a message that was handed over.
fn stage_after(put: Put) -> Stage
    ensures { result ≡ stage_of put }
{
    match put {
        Put::Done => Stage::Running,
        Put::Failed => Stage::Cut(Outcome::WriteFailed(0)),
        Put::NoMemory => Stage::Cut(Outcome::NoMemory),
    }
}

/// How the connection ends after the last close was handed over.
fn outcome_after(put: Put) -> Outcome
    ensures { result ≡ outcome_of put }
{
    match put {
        Put::Failed => Outcome::WriteFailed(0),
        Put::NoMemory => Outcome::NoMemory,
        Put::Done => Outcome::Finished,
    }
}

fn no_reason() -> Reason
    ensures { result ≡ [] }
{
    let Some(reason) = Reason::new("") else {
        unreachable!()
    };
    reason
}

/// The session once a message was read: its event waits.
fn heard(payload: Payload) -> Session
    ensures { result ≡ Session.Begun Answer.Accepted (Some (Incoming.WsReceive payload)) }
{
    Session::Begun(Answer::Accepted, Some(Incoming::WsReceive { payload }))
}

/// What is read after a close.
fn dropping(side: Side, rest: Option<u32>) -> Reading
    ensures { result ≡ reads_at (Session.Closed side rest) }
{
    match rest {
        None => Reading::Rests,
        Some(spare) => {
            if spare == 0 {
                Reading::Rests
            } else {
                Reading::Drops(side, spare)
            }
        }
    }
}

/// A disconnect that the server makes: 1005 for a close without a code, 1006 for no close (RFC 6455, section 7.1.5).
fn disconnect(code: u16) -> Incoming
    ensures { result ≡ Incoming.WsDisconnect code [] }
{
    Incoming::WsDisconnect {
        code,
        reason: no_reason(),
    }
}

/// The disconnect for the client's close.
fn disconnect_of(close: Option<(u16, Reason)>) -> Incoming
    ensures { result ≡ heard.disconnect_of (Some close) }
{
    match close {
        Some((code, reason)) => Incoming::WsDisconnect { code, reason },
        None => disconnect(1005),
    }
}
