//! The task of one session: it is opened once, and each of its messages is answered in turn.
ghost use Rattle.std.specs.Prelude.{◌≡◌, [], ◌∷◌, ◌++◌, None, Some, IfOk, OnErr};
ghost use Rattle.futures.specs.Poll.{OnPending};
ghost use Rattle.futures.specs.Task.{IsArmed, Keeps};
ghost use Rattle.asgi_apps.specs.Ends.{GoesOn, IsWithin, end_of};
ghost use Rattle.asgi_talks.specs.Answering.{answer_events, opening_events, session_after, session_of};
ghost use Rattle.asgi_talks.specs.Talking.{IsInTurn, IsWaiting, TalkingAnswers, TalkingStands, left_of};
ghost use Rattle.asgi_talks.specs.private.Steps.{Hears, Opens, Replies, Speaks, TakesTurn, Waits};

use crate::answer::Answer;
use crate::opened::Opened;
use crate::receiving::receive;
use crate::sending::{Said, Sending};
use crate::talker::{Talk, Talker, Tells};
use asgi_apps::{AppFault, AppTask};
use asgi_io::History;
use asgi_pipes::AppEnd;
use asgi_types::{Chars, Incoming, Outgoing, Payload, WsScope};
use futures::task::{Context, Poll};
use std::alloc::Global;
use std::mem;

/// The code of a close that refuses a handshake. It is not sent: the client gets 403.
const NORMAL: u16 = 1000;

/// What a session is opened with. It stays the same while the task runs.
#[derive(Drop)]
pub struct Asked<T> {
    alloc: Global,
    talker: T,
    scope: WsScope,
}

/// Where a session is.
#[derive(Drop)]
pub enum Stage<S> {
    /// "Connect" was not received.
    Waiting,
    /// The next message is received next.
    Listening(S),
    /// This is left to send, and then the next message is received.
    Saying(S, Sending),
    /// This is left to send, and then the task returns.
    Ending(Sending),
}

/// The task of one session.
#[derive(Drop)]
pub struct Talking<T, S> {
    asked: Asked<T>,
    /// How the talker has opened the session, each time that it was asked.
    called: History<Opened<S>>,
    stage: Stage<S>,
}

/// What comes of an event.
#[derive(Drop)]
pub enum Heard<S> {
    /// Nothing: the session stays where it is.
    Passed(Stage<S>),
    /// A turn, with which the session goes on.
    Turn(Stage<S>),
    /// The client is gone.
    Gone,
    /// The talker or the session has failed, or memory was refused.
    Failed(AppFault),
}

impl<T, S> Talking<T, S> {
    /// Nothing was received of the session. Takes no memory.
    pub fn new(alloc: Global, talker: T, scope: WsScope) -> Self
        ensures asked { (result.asked.talker ≡ talker) × (result.asked.scope ≡ scope) }
        ensures called { result.called.items ≡ [] }
        ensures stage { result.stage ≡ Stage.Waiting }
    {
        Talking {
            asked: Asked {
                alloc,
                talker,
                scope,
            },
            called: History::new(),
            stage: Stage::Waiting,
        }
    }
}

/// How the talker opens the session, which is recorded. Only this asks it.
fn open<T: Talker<Session = S>, S: Talk>(
    asked: &Asked<T>,
    called: &mut History<Opened<S>>,
) -> Result<Opened<S>, AppFault>
    ensures allowed { IfOk result (λ opened. T.opens asked.now.talker asked.now.scope opened) }
    ensures called { IfOk result (λ opened. called.new.items ≡ called.old.items ++ opened ∷ []) }
{
    let opened = asked.talker.open(asked.alloc, &asked.scope)?;
    *called = History::with(called, &opened);
    Ok(opened)
}

/// What comes of "Connect".
fn connect<T: Talker<Session = S>, S: Talk>(
    asked: &Asked<T>,
    called: &mut History<Opened<S>>,
) -> Heard<S>
    ensures { Opens (T.opens asked.now.talker asked.now.scope) called.old.items called.new.items result }
{
    match open(asked, called) {
        Ok(opened) => Heard::Turn(opening(asked.alloc, opened)),
        Err(fault) => Heard::Failed(fault),
    }
}

/// Sends the reply to the handshake next.
fn opening<S: Talk>(alloc: Global, opened: Opened<S>) -> Stage<S>
    ensures { TakesTurn result (session_of opened) (opening_events opened) }
{
    match opened {
        Opened::Accepted {
            subprotocol,
            headers,
            session,
        } => {
            let accept = Outgoing::WsAccept {
                subprotocol,
                headers,
            };
            Stage::Saying(session, Sending::event(alloc, accept))
        }
        Opened::Refused => Stage::Ending(Sending::event(alloc, refusal(alloc))),
    }
}

/// The event that refuses a session (ASGI HTTP and WebSocket message format 2.4, "Close"). Takes no
/// memory.
fn refusal(alloc: Global) -> Outgoing
    ensures { result ≡ Outgoing.WsClose 1000 [] }
{
    Outgoing::WsClose {
        code: NORMAL,
        reason: Chars::new(String::new(alloc)),
    }
}

/// What comes of an event before "Connect". What is no part of a session does not come in a scope of
/// this kind, and is passed over.
fn first<T: Talker<Session = S>, S: Talk>(
    asked: &Asked<T>,
    called: &mut History<Opened<S>>,
    event: Incoming,
) -> Heard<S>
    ensures { Waits (T.opens asked.now.talker asked.now.scope) event called.old.items called.new.items result }
{
    match event {
        Incoming::WsConnect => connect(asked, called),
        Incoming::WsDisconnect { code: _, reason: _ } => Heard::Gone,
        Incoming::HttpDisconnect => Heard::Gone,
        Incoming::WsReceive { payload: _ } => Heard::Passed(Stage::Waiting),
        Incoming::HttpRequest {
            body: _,
            more_body: _,
        } => Heard::Passed(Stage::Waiting),
        Incoming::LifespanStartup => Heard::Passed(Stage::Waiting),
        Incoming::LifespanShutdown => Heard::Passed(Stage::Waiting),
    }
}

/// What comes of an event in an open session. What is no part of one, and a second "Connect", are
/// passed over.
fn next<S: Talk>(alloc: Global, session: S, event: Incoming) -> Heard<S>
    ensures { Hears S.answers session event result }
{
    match event {
        Incoming::WsReceive { payload } => reply_to(alloc, session, payload),
        Incoming::WsDisconnect { code: _, reason: _ } => Heard::Gone,
        Incoming::HttpDisconnect => Heard::Gone,
        Incoming::WsConnect => Heard::Passed(Stage::Listening(session)),
        Incoming::HttpRequest {
            body: _,
            more_body: _,
        } => Heard::Passed(Stage::Listening(session)),
        Incoming::LifespanStartup => Heard::Passed(Stage::Listening(session)),
        Incoming::LifespanShutdown => Heard::Passed(Stage::Listening(session)),
    }
}

/// What comes of a message.
fn reply_to<S: Talk>(alloc: Global, mut session: S, message: Payload) -> Heard<S>
    ensures { Replies S.answers session message result }
{
    match session.hear(alloc, message) {
        Ok(answer) => Heard::Turn(answering(session, answer)),
        Err(e) => Heard::Failed(e),
    }
}

/// What comes of a turn in which no message was there: what the session says unasked is sent next.
fn tell<S: Tells>(alloc: Global, mut session: S) -> Result<Stage<S>, AppFault>
    ensures told { IfOk result (λ stage. Speaks S.tells session stage) }
    ensures failed { OnErr result (S.fails session) }
{
    match session.tell(alloc) {
        Ok(answer) => Ok(answering(session, answer)),
        Err(e) => Err(e),
    }
}

/// Sends the answer next.
fn answering<S: Talk>(session: S, answer: Answer) -> Stage<S>
    ensures { TakesTurn result (session_after answer session) (answer_events answer) }
{
    if answer.closes() {
        return Stage::Ending(Sending::answer(answer));
    }
    if answer.is_empty() {
        return Stage::Listening(session);
    }
    Stage::Saying(session, Sending::answer(answer))
}

impl<T: Talker<Session = S>, S: Tells> Talking<T, S> {
    /// Receives the next event, before "Connect".
    fn wait<E: AppEnd>(&mut self, cx: &mut Context<'_>, end: &mut E) -> Poll<Result<(), AppFault>>
        requires open { E.ended end.old ≡ None }
        requires stage { self.old.stage ≡ Stage.Waiting }
        requires waits { IsWaiting self.old.called.items (E.kind end.old) (E.heard end.old) (E.said end.old) }
        ensures end { GoesOn E.AppEnd None end.old end.new }
        ensures answers { TalkingAnswers T.opens S.answers S.tells S.fails self.old (E.heard end.new) (E.said end.new) (end_of result) }
        ensures stands { OnPending result (TalkingStands T.opens S.answers S.tells self.new (E.kind end.new) (E.heard end.new) (E.said end.new)) }
        ensures same { OnPending result (IsWithin (TalkingAnswers T.opens S.answers S.tells S.fails) self.new self.old) }
        ensures armed { OnPending result (IsArmed cx.new) }
        ensures kept { Keeps cx.old cx.new }
    {
        match receive(cx, end) {
            Poll::Pending => Poll::Pending,
            Poll::Ready(event) => match first(&self.asked, &mut self.called, event) {
                Heard::Passed(stage) => {
                    self.stage = stage;
                    cx.yield_now()
                }
                Heard::Turn(stage) => {
                    self.stage = stage;
                    cx.yield_now()
                }
                Heard::Gone => Poll::Ready(Ok(())),
                Heard::Failed(e) => Poll::Ready(Err(e)),
            },
        }
    }

    /// Receives the next event of an open session, or asks the session if none is there.
    fn listen<E: AppEnd>(
        &mut self,
        cx: &mut Context<'_>,
        end: &mut E,
        session: S,
    ) -> Poll<Result<(), AppFault>>
        requires open { E.ended end.old ≡ None }
        requires talks { IsInTurn (T.opens self.old.asked.talker self.old.asked.scope) S.answers S.tells (Some session) [] self.old.called.items (E.kind end.old) (E.heard end.old) (E.said end.old) }
        ensures end { GoesOn E.AppEnd None end.old end.new }
        ensures answers { TalkingAnswers T.opens S.answers S.tells S.fails self.old (E.heard end.new) (E.said end.new) (end_of result) }
        ensures stands { OnPending result (TalkingStands T.opens S.answers S.tells self.new (E.kind end.new) (E.heard end.new) (E.said end.new)) }
        ensures same { OnPending result (IsWithin (TalkingAnswers T.opens S.answers S.tells S.fails) self.new self.old) }
        ensures armed { OnPending result (IsArmed cx.new) }
        ensures kept { Keeps cx.old cx.new }
    {
        match receive(cx, end) {
            Poll::Pending => match tell(self.asked.alloc, session) {
                Ok(stage) => {
                    self.stage = stage;
                    cx.yield_now()
                }
                Err(e) => Poll::Ready(Err(e)),
            },
            Poll::Ready(event) => match next(self.asked.alloc, session, event) {
                Heard::Passed(stage) => {
                    self.stage = stage;
                    cx.yield_now()
                }
                Heard::Turn(stage) => {
                    self.stage = stage;
                    cx.yield_now()
                }
                Heard::Gone => Poll::Ready(Ok(())),
                Heard::Failed(e) => Poll::Ready(Err(e)),
            },
        }
    }

    /// Sends the next event of a turn after which the session goes on.
    fn say<E: AppEnd>(
        &mut self,
        cx: &mut Context<'_>,
        end: &mut E,
        session: S,
        mut sending: Sending,
    ) -> Poll<Result<(), AppFault>>
        requires open { E.ended end.old ≡ None }
        requires talks { IsInTurn (T.opens self.old.asked.talker self.old.asked.scope) S.answers S.tells (Some session) (left_of sending) self.old.called.items
            (E.kind end.old) (E.heard end.old) (E.said end.old) }
        ensures end { GoesOn E.AppEnd None end.old end.new }
        ensures answers { TalkingAnswers T.opens S.answers S.tells S.fails self.old (E.heard end.new) (E.said end.new) (end_of result) }
        ensures stands { OnPending result (TalkingStands T.opens S.answers S.tells self.new (E.kind end.new) (E.heard end.new) (E.said end.new)) }
        ensures same { OnPending result (IsWithin (TalkingAnswers T.opens S.answers S.tells S.fails) self.new self.old) }
        ensures armed { OnPending result (IsArmed cx.new) }
        ensures kept { Keeps cx.old cx.new }
    {
        match sending.say(cx, end) {
            Said::Left => {
                self.stage = Stage::Saying(session, sending);
                Poll::Pending
            }
            Said::All => {
                self.stage = Stage::Listening(session);
                cx.yield_now()
            }
            Said::Refused => Poll::Ready(Err(AppFault::Failed)),
        }
    }

    /// Sends the next event of the last turn, and returns once all was sent.
    fn finish<E: AppEnd>(
        &mut self,
        cx: &mut Context<'_>,
        end: &mut E,
        mut sending: Sending,
    ) -> Poll<Result<(), AppFault>>
        requires open { E.ended end.old ≡ None }
        requires talks { IsInTurn (T.opens self.old.asked.talker self.old.asked.scope) S.answers S.tells None (left_of sending) self.old.called.items (E.kind end.old) (E.heard end.old) (E.said end.old) }
        ensures end { GoesOn E.AppEnd None end.old end.new }
        ensures answers { TalkingAnswers T.opens S.answers S.tells S.fails self.old (E.heard end.new) (E.said end.new) (end_of result) }
        ensures stands { OnPending result (TalkingStands T.opens S.answers S.tells self.new (E.kind end.new) (E.heard end.new) (E.said end.new)) }
        ensures same { OnPending result (IsWithin (TalkingAnswers T.opens S.answers S.tells S.fails) self.new self.old) }
        ensures armed { OnPending result (IsArmed cx.new) }
        ensures kept { Keeps cx.old cx.new }
    {
        match sending.say(cx, end) {
            Said::Left => {
                self.stage = Stage::Ending(sending);
                Poll::Pending
            }
            Said::All => Poll::Ready(Ok(())),
            Said::Refused => Poll::Ready(Err(AppFault::Failed)),
        }
    }
}

impl<T: Talker<Session = S> + Drop, S: Tells> AppTask for Talking<T, S> {
    ghost use Rattle.asgi_talks.specs.Talking.{talking_keeps};

    ghost stands = { TalkingStands T.opens S.answers S.tells };

    ghost answers = { TalkingAnswers T.opens S.answers S.tells S.fails };

    fn poll<E: AppEnd>(&mut self, cx: &mut Context<'_>, end: &mut E) -> Poll<Result<(), AppFault>> {
        match mem::replace(&mut self.stage, Stage::Waiting) {
            Stage::Waiting => self.wait(cx, end),
            Stage::Listening(session) => self.listen(cx, end, session),
            Stage::Saying(session, sending) => self.say(cx, end, session, sending),
            Stage::Ending(sending) => self.finish(cx, end, sending),
        }
    }

    ghost keeps = { talking_keeps T.opens S.answers S.tells S.fails };
}
