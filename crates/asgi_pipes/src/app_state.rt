//! What the end of an application keeps besides its queues.
ghost use Rattle.std.specs.Prelude.{◌≡◌, not, [], ◌∷◌, ◌++◌, Bool, ◌||◌, true, false, Some, None, is_none, IfSome, IfNone, IsTrue, IsFalse};
ghost use Rattle.std.specs.Option.{option_map};
ghost use Rattle.asgi_types.specs.declared.outgoing.Outgoing.{Outgoing};
ghost use Rattle.asgi_protocol.specs.Stages.{StandsFor};
ghost use Rattle.asgi_protocol.specs.Verdicts.{verdict_on};
ghost use Rattle.asgi_pipes.specs.Disconnects.{has_disconnect, is_accepted, is_accept as is_accept_event, event_of, answer_at_once, Hears};

use crate::disconnect::{Disconnect, is_accept};
use asgi_io::History;
use asgi_protocol::{Judge, Verdict};
use asgi_types::{EndKind, Facts, Incoming, Kind, Outgoing};

/// What was received and sent at the end of an application, as far as its next calls need it.
#[derive(Drop)]
pub struct AppState {
    pub(crate) kind: Kind,
    pub(crate) facts: Facts,
    judge: Judge,
    /// A session was accepted.
    is_open: bool,
    /// What each further receive returns.
    disconnect: Option<Disconnect>,
    pub(crate) ended: Option<EndKind>,
    /// An item went into a queue, or came out of one, since `moved` was last called.
    pub(crate) has_moved: bool,
    pub(crate) heard: History<Incoming>,
    /// What came through the queue.
    pub(crate) pulled: History<Incoming>,
    pub(crate) said: History<Outgoing>,
    ghost judged: { ∥ StandsFor judge kind facts said.items (has_disconnect heard.items) ∥₁ },
    ghost opened: { is_open ≡ is_accepted said.items },
    ghost at_once: { option_map event_of disconnect ≡ answer_at_once kind said.items heard.items },
    ghost hears_is: { ∥ Hears kind said.items pulled.items heard.items ∥₁ },
}

impl AppState {
    ghost use Rattle.asgi_pipes.specs.private.AppStates.{IsFresh, SameScope};

    /// The state of a new end, at which nothing was received or sent.
    pub fn new(kind: Kind, facts: Facts) -> AppState
        ensures { IsFresh kind facts result }
    {
        AppState {
            kind,
            facts,
            judge: Judge::new(kind),
            is_open: false,
            disconnect: None,
            ended: None,
            has_moved: false,
            heard: History::new(),
            pulled: History::new(),
            said: History::new(),
        }
    }

    /// What is received without a look at the queue: after the application's own closing event its
    /// disconnect, and a received disconnect again; `None` if there is neither.
    pub fn hear_at_once(&mut self) -> Option<Incoming>
        ensures some { IfSome result (λ event. (answer_at_once self.old.kind self.old.said.items self.old.heard.items ≡ Some event) × (self.new.heard.items ≡ self.old.heard.items ++ event ∷ [])) }
        ensures none { IfNone result ((answer_at_once self.old.kind self.old.said.items self.old.heard.items ≡ None) × (self.new ≡ self.old)) }
        ensures same { (self.new.pulled ≡ self.old.pulled) × (self.new.said ≡ self.old.said) × (self.new.ended ≡ self.old.ended) × (self.new.has_moved ≡ self.old.has_moved) }
        ensures scope { SameScope self.old self.new }
    {
        if let Some(disconnect) = self.disconnect {
            let event = disconnect.event();
            self.judge.heard(&event);
            self.heard = History::with(&self.heard, &event);
            return Some(event);
        }
        None
    }

    /// Records an event that came through the queue.
    pub fn hear(&mut self, event: &Incoming)
        requires { answer_at_once self.old.kind self.old.said.items self.old.heard.items ≡ None }
        ensures heard { (self.new.heard.items ≡ self.old.heard.items ++ event.now ∷ []) × (self.new.pulled.items ≡ self.old.pulled.items ++ event.now ∷ []) }
        ensures moved { self.new.has_moved ≡ true }
        ensures same { (self.new.said ≡ self.old.said) × (self.new.ended ≡ self.old.ended) }
        ensures scope { SameScope self.old self.new }
    {
        self.judge.heard(event);
        self.heard = History::with(&self.heard, event);
        self.pulled = History::with(&self.pulled, event);
        Disconnect::keep_heard(&mut self.disconnect, self.kind, event);
        self.has_moved = true;
    }

    /// The verdict on an event, and the judge that has passed it.
    pub fn look(&self, event: &Outgoing) -> (Verdict, Judge)
        ensures verdict { result.0 ≡ verdict_on self.now.kind self.now.facts self.now.said.items (has_disconnect self.now.heard.items) event.now }
        ensures passed { result.0 ≡ Verdict.Pass → ∥ StandsFor result.1 self.now.kind self.now.facts (self.now.said.items ++ event.now ∷ []) (has_disconnect self.now.heard.items) ∥₁ }
    {
        let mut judge = self.judge;
        let verdict = judge.judge(&self.facts, event);
        (verdict, judge)
    }

    /// Records an event that passes, with the judge that has passed it.
    pub fn say(&mut self, judge: Judge, event: &Outgoing)
        requires passes { verdict_on self.old.kind self.old.facts self.old.said.items (has_disconnect self.old.heard.items) event.now ≡ Verdict.Pass }
        requires judge { ∥ StandsFor judge self.old.kind self.old.facts (self.old.said.items ++ event.now ∷ []) (has_disconnect self.old.heard.items) ∥₁ }
        ensures said { self.new.said.items ≡ self.old.said.items ++ event.now ∷ [] }
        ensures moved { self.new.has_moved ≡ true }
        ensures same { (self.new.heard ≡ self.old.heard) × (self.new.pulled ≡ self.old.pulled) × (self.new.ended ≡ self.old.ended) }
        ensures scope { SameScope self.old self.new }
    {
        self.judge = judge;
        self.is_open = opens(self.is_open, event);
        let is_closed = judge.is_closed();
        Disconnect::keep_after(
            &mut self.disconnect,
            is_closed,
            self.kind,
            self.is_open,
            event,
        );
        self.said = History::with(&self.said, event);
        self.has_moved = true;
    }

    /// Records how the task ended. Returns true the first time, then false, when nothing changes.
    pub fn finish(&mut self, end: EndKind) -> bool
        ensures first { result ≡ is_none self.old.ended }
        ensures yes { IsTrue result → (self.new.ended ≡ Some end) × (self.new.has_moved ≡ true) }
        ensures no { IsFalse result → self.new ≡ self.old }
        ensures same { (self.new.heard ≡ self.old.heard) × (self.new.pulled ≡ self.old.pulled) × (self.new.said ≡ self.old.said) }
        ensures scope { SameScope self.old self.new }
    {
        if let Some(_) = self.ended {
            return false;
        }
        self.ended = Some(end);
        self.has_moved = true;
        true
    }

    /// Whether an item went into a queue, or came out of one, since the last call.
    pub fn moved(&mut self) -> bool
        ensures said { result ≡ self.old.has_moved }
        ensures cleared { self.new.has_moved ≡ false }
        ensures same { (self.new.heard ≡ self.old.heard) × (self.new.pulled ≡ self.old.pulled) × (self.new.said ≡ self.old.said) × (self.new.ended ≡ self.old.ended) }
        ensures scope { SameScope self.old self.new }
    {
        let moved = self.has_moved;
        self.has_moved = false;
        moved
    }
}

/// Whether a session is accepted by the event, or was before.
fn opens(is_open: bool, event: &Outgoing) -> bool
    ensures { result ≡ (is_open || is_accept_event event.now) }
{
    if is_open {
        return true;
    }
    is_accept(event)
}
