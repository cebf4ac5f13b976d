//! The connection's half of an exchange: it reads, offers what is due, takes what the application sent,
//! and writes. The half knows only its own end of the pair, whatever thread the application runs in.
ghost use Rattle.std.specs.Prelude.{◌≡◌, ◌≢◌, ◌↔◌, ◌⊎◌, true, false, [], ◌∷◌, ◌++◌, map, List, ℕ, IsTrue, IsFalse, OnOk};
ghost use Rattle.asgi_types.specs.declared.end_kind.EndKind.{EndKind};
ghost use Rattle.asgi_types.specs.declared.facts.Facts.{Facts};
ghost use Rattle.asgi_types.specs.declared.facts.Framing.{Framing};
ghost use Rattle.asgi_types.specs.declared.incoming.Incoming.{Incoming};
ghost use Rattle.asgi_types.specs.declared.outgoing.Outgoing.{Outgoing};
ghost use Rattle.asgi_request.specs.declared.next.Next.{Next};
ghost use Rattle.asgi_request.specs.declared.next.NextOfBody.{NextOfBody};
ghost use Rattle.asgi_request.specs.BodyResults.{next_of};
ghost use Rattle.asgi_request.specs.Opened.{HasOpened};
ghost use Rattle.asgi_request.specs.Reading.{Reading};
ghost use Rattle.asgi_response.specs.Progress.{progress_of};
ghost use Rattle.asgi_response.specs.Standing as standing;
ghost use Rattle.asgi_exchange.specs.Calls.{IsViewOf};
ghost use Rattle.asgi_exchange.specs.Views.{ConnView, empty_conn};
ghost use Rattle.asgi_halves.specs.Half.{Scene, Invariant, HasGiven, EndsWhere, IsSettled, BreaksAt};
ghost use Rattle.asgi_halves.specs.private.HalfSteps.{Pending, PreservesByLine, PreservesByEnd, KeepsBesidesBody, GivesOn, GivesAfter, GaveNext, HasAsked, HoldsFew, IsFree, NoneDue, OffersOne, ReadsAt, Rests, EndsAtInput, NeedsBody, known_input};
ghost use Rattle.asgi_halves.specs.Kinds.{HasEnded, HasGrown, IsShut, IsTurnOfRead, IsTurnOfRest, OffersAll, OffersMost, ReadsNone, TakesNone};
ghost use Rattle.asgi_halves.specs.Half.{Opens};
ghost use Rattle.asgi_conversation.specs.declared.following.NextStep.{NextStep};
ghost use Rattle.asgi_conversation.specs.TaskEnds.{has_ended};

use crate::kind::ExchangeKind;
use crate::stage::Stage;
use crate::wire::Wire;
use asgi_conversation::{InputEnd, NextStep, Outcome, after_task};
use asgi_io::Turn;
use asgi_pipes::{ConnEnd, EndKind, OutItem};
use asgi_request::NextOfBody;
use asgi_response::{Input, Progress, ResponseText};
use asgi_types::{Facts, Framing, HttpVersion, Incoming, Names, Outgoing};
use asgi_ws::Line;
use std::alloc::{AllocError, Global};
use std::mem;

/// More is read only while fewer bytes than these are held after the request in hand.
const AHEAD: usize = 65_536;

/// How far the body of the request in hand has come, by what the reader gave.
#[derive(Debug, Drop)]
pub enum BodyProgress {
    /// More of it may be given.
    Open,
    /// This event waits for a free place in the queue.
    Waits(Incoming),
    /// The body is whole.
    Whole,
    /// The reader refused it with this status.
    Refused(u16),
    /// The input ended or failed inside the body.
    BrokenOff,
}

/// The connection's half of an exchange.
#[derive(Drop)]
pub struct HttpHalf {
    /// What the connection keeps from exchange to exchange.
    pub wire: Wire,
    /// How far the body of the request is.
    pub body: BodyProgress,
    /// How far the text of the response is.
    pub text: ResponseText,
    /// A disconnect was offered because the input ended, failed or was faulty.
    pub input_broke: bool,
    /// How far the exchange is.
    pub stage: Stage,
}

impl HttpHalf {
    /// A half with no exchange: the next request may follow. Making it takes no memory.
    pub fn new(wire: Wire) -> HttpHalf
        ensures wire { result.wire ≡ wire }
        ensures stage { result.stage ≡ Stage.Over NextStep.NextRequest }
    {
        let text = ResponseText::new(wire.alloc, &Facts::plain(wire.alloc));
        HttpHalf {
            wire,
            body: BodyProgress::Whole,
            text,
            input_broke: false,
            stage: Stage::Over(NextStep::NextRequest),
        }
    }

    /// Begins an exchange, whatever the half did before: a client that waits for `100 Continue` is sent it
    /// (RFC 9110, section 10.1.1). If memory is refused or the write fails, the connection is cut short.
    pub fn begin<L: Line>(&mut self, text: ResponseText, line: &mut L)
        ensures begins { (scene : Scene) (facts : Facts) (read arrived : List ℕ) → Opens scene (L.state line.old) self.old.wire facts read arrived → standing.StandsFor text facts []
            → (written : List ℕ) × Invariant scene (L.state line.new) self.new read (record empty_conn { arrived = arrived; written = written }) }
        ensures limits { self.new.wire.limits ≡ self.old.wire.limits }
        ensures open { (following : NextStep) → self.new.stage ≢ Stage.Over following }
        ensures unread { ReadsNone (L.state line.old) (L.state line.new) }
    {
        self.body = BodyProgress::Open;
        self.text = text;
        self.input_broke = false;
        self.stage = Stage::Running;
        match self.text.begin(&mut self.wire.out) {
            Ok(()) => self.put(line),
            Err(_) => self.stage = Stage::Cut(Outcome::NoMemory),
        }
    }

    // ---- what the application sent

    /// Writes what an event adds.
    fn say<L: Line>(&mut self, event: &Outgoing, line: &mut L)
        requires { self.old.stage ≡ Stage.Running }
        ensures says { (scene : Scene) (read : List ℕ) (view : ConnView ℕ ℕ) → Invariant scene (L.state line.old) self.old read view
            → (written : List ℕ) × Invariant scene (L.state line.new) self.new read (record view { got = view.got ++ OutItem.Event event.now ∷ []; written = written }) }
        ensures unread { ReadsNone (L.state line.old) (L.state line.new) }
        ensures limits { self.new.wire.limits ≡ self.old.wire.limits }
    {
        match self.text.take(event, &mut self.wire.out) {
            Ok(()) => self.put(line),
            Err(_) => self.stage = Stage::Cut(Outcome::NoMemory),
        }
    }

    /// Writes the text in hand.
    fn put<L: Line>(&mut self, line: &mut L)
        ensures puts { (scene : Scene) (read : List ℕ) (view : ConnView ℕ ℕ) → Pending scene (L.state line.old) self.old read view
            → (written : List ℕ) × Invariant scene (L.state line.new) self.new read (record view { written = written }) }
        ensures unread { ReadsNone (L.state line.old) (L.state line.new) }
        ensures limits { self.new.wire.limits ≡ self.old.wire.limits }
        ensures open { (following : NextStep) → self.new.stage ≡ Stage.Over following → self.old.stage ≡ Stage.Over following }
    {
        if let Some(n) = self.wire.put(line) {
            self.stage = Stage::Cut(Outcome::WriteFailed(n));
        }
    }

    // ---- what is due

    /// Offers what is due, as far as places are free.
    fn offer_all<C: ConnEnd>(&mut self, end: &mut C) -> bool
        ensures leads { PreservesByEnd self.old (IsViewOf C.ConnEnd end.old) self.new (IsViewOf C.ConnEnd end.new) }
        ensures tag { (C.tag end.new ≡ C.tag end.old) × (C.ring end.new ≡ C.ring end.old) }
        ensures limits { self.new.wire.limits ≡ self.old.wire.limits }
        ensures asked { IsFalse result → self.new.stage ≡ Stage.Running → HasAsked self.new }
        ensures taken { TakesNone C.ConnEnd end.old end.new }
        ensures grown { HasGrown result (C.offered end.old) (C.offered end.new) }
        ensures all { self.new.stage ≡ Stage.Running
            → OffersAll C.ConnEnd (NoneDue self.new) end.new ⊎ (IsTrue result × OffersMost C.ConnEnd self.new.wire.limits.ring end.old end.new) }
    {
        let mut offered = false;
        for _event in 0..self.wire.limits.ring {
            if self.stage != Stage::Running {
                return offered;
            }
            if !self.offer_one(end) {
                return offered;
            }
            offered = true;
        }
        true
    }

    /// Offers the next event that is due, or the disconnect after the last one. Returns whether one was offered.
    fn offer_one<C: ConnEnd>(&mut self, end: &mut C) -> bool
        requires { self.old.stage ≡ Stage.Running }
        ensures leads { PreservesByEnd self.old (IsViewOf C.ConnEnd end.old) self.new (IsViewOf C.ConnEnd end.new) }
        ensures tag { (C.tag end.new ≡ C.tag end.old) × (C.ring end.new ≡ C.ring end.old) }
        ensures limits { self.new.wire.limits ≡ self.old.wire.limits }
        ensures asked { IsFalse result → self.new.stage ≡ Stage.Running → HasAsked self.new }
        ensures one { OffersOne C.ConnEnd result end.old end.new }
        ensures all { IsFalse result → self.new.stage ≡ Stage.Running → OffersAll C.ConnEnd (NoneDue self.new) end.new }
    {
        if self.input_broke {
            return false;
        }
        if self.pull().is_err() {
            self.stage = Stage::Cut(Outcome::NoMemory);
            return false;
        }
        self.offer_held(end)
    }

    /// Offers the event that waits, or the disconnect if nothing more is due.
    fn offer_held<C: ConnEnd>(&mut self, end: &mut C) -> bool
        requires { (self.old.stage ≡ Stage.Running) × (self.old.input_broke ≡ false) }
        ensures leads { PreservesByEnd self.old (IsViewOf C.ConnEnd end.old) self.new (IsViewOf C.ConnEnd end.new) }
        ensures tag { (C.tag end.new ≡ C.tag end.old) × (C.ring end.new ≡ C.ring end.old) }
        ensures limits { self.new.wire.limits ≡ self.old.wire.limits }
        ensures asked { IsFalse result → HasAsked self.old → HasAsked self.new }
        ensures one { OffersOne C.ConnEnd result end.old end.new }
        ensures all { IsFalse result → HasAsked self.old → OffersAll C.ConnEnd (NoneDue self.new) end.new }
        ensures breaks { BreaksAt self.old.body self.old.wire.input → (self.new.input_broke ≡ true) × (C.is_broken end.new ≡ true) }
    {
        match self.body {
            BodyProgress::Open => false,
            BodyProgress::Waits(_) => self.offer(end),
            BodyProgress::Whole => self.break_at_end(end),
            BodyProgress::Refused(_) => self.break_off(end),
            BodyProgress::BrokenOff => self.break_at_end(end),
        }
    }

    /// Offers the event that waits, which waits on if no place is free.
    fn offer<C: ConnEnd>(&mut self, end: &mut C) -> bool
        requires running { (self.old.stage ≡ Stage.Running) × (self.old.input_broke ≡ false) }
        requires waits { (event : Incoming) × (self.old.body ≡ BodyProgress.Waits event) }
        ensures leads { PreservesByEnd self.old (IsViewOf C.ConnEnd end.old) self.new (IsViewOf C.ConnEnd end.new) }
        ensures tag { (C.tag end.new ≡ C.tag end.old) × (C.ring end.new ≡ C.ring end.old) }
        ensures limits { self.new.wire.limits ≡ self.old.wire.limits }
        ensures asked { IsFalse result → HasAsked self.old → HasAsked self.new }
        ensures one { OffersOne C.ConnEnd result end.old end.new }
        ensures full { IsFalse result → (C.room end.new ≡ 0) ⊎ (C.is_broken end.new ≡ true) }
    {
        let BodyProgress::Waits(event) = mem::replace(&mut self.body, BodyProgress::Open) else {
            unreachable!()
        };
        match end.offer(event) {
            Ok(()) => true,
            Err(back) => {
                self.body = BodyProgress::Waits(back);
                false
            }
        }
    }

    /// Offers the disconnect, if the input has ended.
    fn break_at_end<C: ConnEnd>(&mut self, end: &mut C) -> bool
        requires running { (self.old.stage ≡ Stage.Running) × (self.old.input_broke ≡ false) }
        requires ends { EndsAtInput self.old.body }
        ensures leads { PreservesByEnd self.old (IsViewOf C.ConnEnd end.old) self.new (IsViewOf C.ConnEnd end.new) }
        ensures tag { (C.tag end.new ≡ C.tag end.old) × (C.ring end.new ≡ C.ring end.old) }
        ensures limits { self.new.wire.limits ≡ self.old.wire.limits }
        ensures asked { IsFalse result → HasAsked self.old → HasAsked self.new }
        ensures one { OffersOne C.ConnEnd result end.old end.new }
        ensures all { IsFalse result → OffersAll C.ConnEnd (NoneDue self.new) end.new }
        ensures breaks { has_ended self.old.wire.input ≡ true → (self.new.input_broke ≡ true) × (C.is_broken end.new ≡ true) }
    {
        if !self.wire.input.has_ended() {
            return false;
        }
        self.break_off(end)
    }

    /// Offers the disconnect.
    fn break_off<C: ConnEnd>(&mut self, end: &mut C) -> bool
        requires running { (self.old.stage ≡ Stage.Running) × (self.old.input_broke ≡ false) }
        requires due { BreaksAt self.old.body self.old.wire.input }
        ensures leads { PreservesByEnd self.old (IsViewOf C.ConnEnd end.old) self.new (IsViewOf C.ConnEnd end.new) }
        ensures tag { (C.tag end.new ≡ C.tag end.old) × (C.ring end.new ≡ C.ring end.old) }
        ensures limits { self.new.wire.limits ≡ self.old.wire.limits }
        ensures asked { IsFalse result → HasAsked self.old → HasAsked self.new }
        ensures one { OffersOne C.ConnEnd result end.old end.new }
        ensures breaks { (self.new.input_broke ≡ true) × (C.is_broken end.new ≡ true) }
    {
        self.input_broke = true;
        end.offer_disconnect(Incoming::HttpDisconnect)
    }

    /// Asks the reader for more of the body, if more of it may be given.
    fn pull(&mut self) -> Result<(), AllocError>
        ensures same { KeepsBesidesBody self.old self.new }
        ensures gives { GivesAfter self.old self.new }
        ensures limits { self.new.wire.requests.limits ≡ self.old.wire.requests.limits }
        ensures asked { OnOk result (HasAsked self.new) }
    {
        let BodyProgress::Open = self.body else {
            return Ok(());
        };
        if !self.wire.requests.is_waiting() {
            return self.pull_result();
        }
        if self.wire.input.has_ended() {
            self.body = BodyProgress::BrokenOff;
            return Ok(());
        }
        Ok(())
    }

    /// The body with the reader's next result. Out of line: most calls of `pull` come after a read that completes
    /// nothing, and a place for a result is dear to clear.
    #[inline(never)]
    fn pull_result(&mut self) -> Result<(), AllocError>
        requires { self.old.body ≡ BodyProgress.Open }
        ensures same { KeepsBesidesBody self.old self.new }
        ensures gives { GivesAfter self.old self.new }
        ensures limits { self.new.wire.requests.limits ≡ self.old.wire.requests.limits }
        ensures asked { OnOk result (HasAsked self.new) }
    {
        self.body = body_of(self.wire.requests.next_of_body()?, self.wire.input);
        Ok(())
    }

    /// Reads, if nothing waits for a place and not too much is held.
    fn read<L: Line>(&mut self, line: &mut L) -> Turn
        requires running { self.old.stage ≡ Stage.Running }
        requires asked { HasAsked self.old }
        ensures leads { PreservesByLine (L.state line.old) self.old (L.state line.new) self.new }
        ensures limits { self.new.wire.limits ≡ self.old.wire.limits }
        ensures turn { self.new.stage ≡ Stage.Running → IsTurnOfRead (Rests self.new) (L.state line.old) (L.state line.new) result }
        ensures keeps { result ≡ Turn.Idle → self.new ≡ self.old }
        ensures moves { IsShut self.new.stage → result ≡ Turn.Moved }
    {
        if !self.reads_on() {
            return Turn::Idle;
        }
        match self.wire.read(line) {
            Ok(turn) => turn,
            Err(_) => {
                self.stage = Stage::Cut(Outcome::NoMemory);
                Turn::Moved
            }
        }
    }

    /// Whether more is read.
    fn reads_on(&self) -> bool
        ensures open { IsTrue result → has_ended self.now.wire.input ≡ false }
        ensures free { IsTrue result → ReadsAt self.now.body }
        ensures few { IsTrue result → self.now.body ≡ BodyProgress.Whole → HoldsFew self.now.wire.requests }
        ensures rests { IsFalse result → Rests self.now }
    {
        if self.wire.input.has_ended() {
            return false;
        }
        match self.body {
            BodyProgress::Open => true,
            BodyProgress::Waits(_) => false,
            BodyProgress::Whole => self.wire.requests.held().len() < AHEAD,
            BodyProgress::Refused(_) => false,
            BodyProgress::BrokenOff => false,
        }
    }

    // ---- the end

    /// Ends the exchange once the task has ended. If the response needs it, the rest of the body is read
    /// and dropped first.
    fn finish_task<L: Line>(&mut self, kind: EndKind, line: &mut L) -> Turn
        requires { self.old.stage ≡ Stage.Ending kind }
        ensures leads { PreservesByLine (L.state line.old) self.old (L.state line.new) self.new }
        ensures limits { self.new.wire.limits ≡ self.old.wire.limits }
        ensures ended { HasEnded self.new.stage }
        ensures turn { (other : EndKind) → self.new.stage ≡ Stage.Ending other → IsTurnOfRest (L.state line.old) (L.state line.new) result }
        ensures moves { IsShut self.new.stage → result ≡ Turn.Moved }
    {
        let progress = self.text.progress();
        if !needs_body(kind, progress, self.input_broke) {
            return self.write_end(kind, progress, line);
        }
        match self.drop_rest() {
            Err(_) => {
                self.stage = Stage::Over(NextStep::ConnectionEnds(Outcome::NoMemory));
                Turn::Moved
            }
            Ok(()) => self.read_rest_or_end(kind, progress, line),
        }
    }

    /// Reads on in the rest of the body, or ends the exchange if nothing more is due.
    fn read_rest_or_end<L: Line>(&mut self, kind: EndKind, progress: Progress, line: &mut L) -> Turn
        requires ending { self.old.stage ≡ Stage.Ending kind }
        requires progress { (facts : Facts) (said : List Outgoing) → standing.StandsFor self.old.text facts said → progress ≡ progress_of facts said }
        requires asked { HasAsked self.old }
        ensures leads { PreservesByLine (L.state line.old) self.old (L.state line.new) self.new }
        ensures limits { self.new.wire.limits ≡ self.old.wire.limits }
        ensures ended { HasEnded self.new.stage }
        ensures turn { (other : EndKind) → self.new.stage ≡ Stage.Ending other → IsTurnOfRest (L.state line.old) (L.state line.new) result }
        ensures moves { IsShut self.new.stage → result ≡ Turn.Moved }
    {
        match self.body {
            BodyProgress::Open => self.read_rest(line),
            BodyProgress::Waits(_) => Turn::Moved,
            BodyProgress::Whole => self.write_end(kind, progress, line),
            BodyProgress::Refused(_) => self.write_end(kind, progress, line),
            BodyProgress::BrokenOff => self.write_end(kind, progress, line),
        }
    }

    /// Drops the event that waits, if one does.
    fn drop_one(&mut self) -> bool
        ensures same { KeepsBesidesBody self.old self.new }
        ensures requests { self.new.wire.requests ≡ self.old.wire.requests }
        ensures gives { GivesOn self.old self.new }
        ensures stays { IsFalse result → self.new ≡ self.old }
        ensures no { IsFalse result → IsFree self.new.body }
    {
        if let BodyProgress::Waits(_) = self.body {
            self.body = BodyProgress::Open;
            return true;
        }
        false
    }

    /// Drops events of the rest of the body, as many as one turn takes. After a disconnect none is left.
    fn drop_rest(&mut self) -> Result<(), AllocError>
        ensures same { KeepsBesidesBody self.old self.new }
        ensures gives { OnOk result (GivesOn self.old self.new) }
        ensures input_broke { self.old.input_broke ≡ true → self.new.body ≡ self.old.body }
        ensures limits { self.new.wire.requests.limits ≡ self.old.wire.requests.limits }
        ensures asked { OnOk result (HasAsked self.new) }
    {
        if self.input_broke {
            return Ok(());
        }
        self.pull()?;
        for _event in 0..self.wire.limits.ring {
            if !self.drop_one() {
                return Ok(());
            }
            self.pull()?;
        }
        Ok(())
    }

    /// Reads on in the rest of the body.
    fn read_rest<L: Line>(&mut self, line: &mut L) -> Turn
        requires ending { (kind : EndKind) × (self.old.stage ≡ Stage.Ending kind) }
        requires open { self.old.body ≡ BodyProgress.Open }
        requires asked { HasAsked self.old }
        ensures leads { PreservesByLine (L.state line.old) self.old (L.state line.new) self.new }
        ensures limits { self.new.wire.limits ≡ self.old.wire.limits }
        ensures ended { HasEnded self.new.stage }
        ensures turn { (other : EndKind) → self.new.stage ≡ Stage.Ending other → IsTurnOfRest (L.state line.old) (L.state line.new) result }
        ensures moves { IsShut self.new.stage → result ≡ Turn.Moved }
    {
        if self.wire.input.has_ended() {
            return Turn::Moved;
        }
        match self.wire.read(line) {
            Ok(turn) => turn,
            Err(_) => {
                self.stage = Stage::Over(NextStep::ConnectionEnds(Outcome::NoMemory));
                Turn::Moved
            }
        }
    }

    /// Writes what the end of the task adds.
    fn write_end<L: Line>(&mut self, kind: EndKind, progress: Progress, line: &mut L) -> Turn
        requires ending { self.old.stage ≡ Stage.Ending kind }
        requires progress { (facts : Facts) (said : List Outgoing) → standing.StandsFor self.old.text facts said → progress ≡ progress_of facts said }
        requires known { NeedsBody kind progress self.old.input_broke → IsSettled self.old.body }
        ensures leads { PreservesByLine (L.state line.old) self.old (L.state line.new) self.new }
        ensures limits { self.new.wire.limits ≡ self.old.wire.limits }
        ensures ended { HasEnded self.new.stage }
        ensures turn { (other : EndKind) → self.new.stage ≡ Stage.Ending other → IsTurnOfRest (L.state line.old) (L.state line.new) result }
        ensures moves { result ≡ Turn.Moved }
    {
        let input = input_of(&self.body);
        let following = after_task(kind, progress, input, self.input_broke);
        if let EndKind::Idle = kind {
            self.stage = Stage::Over(following);
            return Turn::Moved;
        }
        match self.text.end(input, &mut self.wire.out) {
            Err(_) => {
                self.stage = Stage::Over(NextStep::ConnectionEnds(Outcome::NoMemory));
                Turn::Moved
            }
            Ok(()) => match self.wire.put(line) {
                None => {
                    self.stage = Stage::Over(following);
                    Turn::Moved
                }
                Some(n) => {
                    self.stage = Stage::Over(NextStep::ConnectionEnds(Outcome::WriteFailed(n)));
                    Turn::Moved
                }
            },
        }
    }
}

impl ExchangeKind for HttpHalf {
    ghost use Rattle.asgi_halves.specs.HttpHalf.{HttpScene, StandsIn};

    ghost In = { ℕ };

    ghost Out = { ℕ };

    ghost Scene = { HttpScene };

    ghost stands = { StandsIn };

    ghost reached = { λ half. half.stage };

    ghost may_read = { HasAsked };

    ghost none_due = { NoneDue };

    ghost rests = { Rests };

    ghost cut_event = { Incoming.HttpDisconnect };

    ghost ring = { λ half. half.wire.limits.ring };

    fn stage(&self) -> Stage {
        self.stage
    }

    fn places(&self) -> usize {
        self.wire.limits.ring
    }

    fn cut_disconnect(&self) -> Incoming {
        Incoming::HttpDisconnect
    }

    fn end_with(&mut self, outcome: Outcome) {
        self.stage = Stage::Over(NextStep::ConnectionEnds(outcome));
    }

    fn take_end(&mut self, kind: EndKind) {
        self.stage = Stage::Ending(kind);
    }

    fn say<L: Line>(&mut self, event: Outgoing, line: &mut L) {
        HttpHalf::say(self, &event, line);
    }

    fn offer_due<C: ConnEnd>(&mut self, end: &mut C) -> bool {
        self.offer_all(end)
    }

    fn read_on<L: Line>(&mut self, line: &mut L) -> Turn {
        self.read(line)
    }

    fn finish<L: Line>(&mut self, kind: EndKind, line: &mut L) -> Turn {
        self.finish_task(kind, line)
    }
}

/// The body after what the reader gave.
fn body_of(next: NextOfBody, input: InputEnd) -> BodyProgress
    ensures gives { (reader : Reading) (read : List ℕ) (opened : List Next) (framing : Framing) (arrived : List ℕ) (events : List Incoming)
        → HasOpened reader.limits read opened framing arrived → GaveNext reader read (opened ++ map Next.Event events) (next_of next) → HasGiven reader read opened events result }
    ensures ends_where { EndsWhere result input }
    ensures open { result ≡ BodyProgress.Open → next ≡ NextOfBody.Need }
{
    match next {
        NextOfBody::Need => unfinished(input),
        NextOfBody::Event(event) => BodyProgress::Waits(event),
        NextOfBody::Whole => BodyProgress::Whole,
        NextOfBody::Bad(status) => BodyProgress::Refused(status),
    }
}

/// The body, if the reader needs more.
fn unfinished(input: InputEnd) -> BodyProgress
    ensures open { has_ended input ≡ false → result ≡ BodyProgress.Open }
    ensures broken { has_ended input ≡ true → result ≡ BodyProgress.BrokenOff }
{
    if input.has_ended() {
        return BodyProgress::BrokenOff;
    }
    BodyProgress::Open
}

/// Whether the rest of the body decides what comes after the end of a task.
fn needs_body(kind: EndKind, progress: Progress, input_broke: bool) -> bool
    ensures { IsTrue result ↔ NeedsBody kind progress input_broke }
{
    if kind == EndKind::Idle {
        return false;
    }
    match progress {
        Progress::Nothing => true,
        Progress::Begun => input_broke,
        Progress::Complete { closes } => !closes,
    }
}

/// The body of the request, as the end of a task finds it.
fn input_of(body: &BodyProgress) -> Input
    ensures { result ≡ known_input body.now }
{
    match body {
        BodyProgress::Whole => Input::Whole,
        BodyProgress::Refused(status) => Input::Faulty(*status),
        _ => Input::Broken,
    }
}
