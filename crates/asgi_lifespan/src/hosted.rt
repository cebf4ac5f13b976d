//! A lifespan task with both of its ends, turn by turn.
ghost use Rattle.std.specs.Prelude.{◌≡◌, ◌≢◌, ◌≤◌, ◌++◌, ◌∷◌, [], false, List, Option, Some, None, IfSome, length};
ghost use Rattle.futures.specs.Task.{IsArmed, Keeps};
ghost use Rattle.asgi_apps.specs.Ends.{IsStill, IsTurn, end_of, turn_of};
ghost use Rattle.asgi_pipes.specs.PlainPairs.{IsPlainPair};
ghost use Rattle.asgi_lifespan.specs.private.Ends.{AreNew, IsSameEnd};
ghost use Rattle.asgi_types.specs.declared.end_kind.EndKind.{EndKind};
ghost use Rattle.asgi_types.specs.declared.incoming.Incoming.{Incoming};
ghost use Rattle.asgi_types.specs.declared.outgoing.Outgoing.{Outgoing};
ghost use Rattle.asgi_types.specs.declared.scope.Kind.TheVariants as kind;

use asgi_apps::{AppFault, AppTask};
use asgi_io::{History, Turn};
use asgi_pipes::{AppEnd, ConnEnd, EndKind, OutItem, Plain, PlainApp, PlainConn};
use asgi_types::{Incoming, Outgoing};
use futures::task::{Context, Poll};

/// A lifespan task, and both of its ends.
#[derive(Drop)]
pub struct Hosted<T> {
    /// The task.
    task: T,
    /// Its own end of the pair.
    app_end: PlainApp,
    /// The server's end of the pair.
    conn: PlainConn,
    /// How the task ended; None while it runs.
    ended: Option<EndKind>,
    /// What each turn did.
    did: History<Turn>,
    /// Its own end as each poll left it.
    left: History<PlainApp>,
}

/// What a server learns of the task.
#[derive(Debug, Drop)]
pub enum Word {
    /// The task sent this.
    Said(Outgoing),
    /// The task sent nothing more, and ended like this.
    Ended(EndKind),
    /// The task sent nothing, and runs. This many turns were taken.
    Idle(u64),
}

impl<T: AppTask> Hosted<T> {
    ghost use Rattle.asgi_lifespan.specs.Turning.{HasTurned, Turned};
    ghost use Rattle.asgi_lifespan.specs.Hosting.{Follows, IsCarried, IsHosted, IsLeft, IsPolled, Promises, Tells, got_of, offered_to, turns_in};

    /// A task that has received and sent nothing yet, with the ends of a new pair.
    pub fn new(task: T, conn: PlainConn, app_end: PlainApp) -> Self
        requires new { AreNew conn app_end }
        requires stands { T.stands task kind.Lifespan [] [] }
        ensures hosted { IsHosted T.stands result }
        ensures silent { (offered_to result ≡ []) × (got_of result ≡ []) }
        ensures promise { (heard : List Incoming) (said : List Outgoing) (end : Option EndKind) → Promises T.answers result heard said end → T.answers task heard said end }
    {
        Hosted {
            task,
            app_end,
            conn,
            ended: None,
            did: History::new(),
            left: History::new(),
        }
    }

    /// Offers an event to the task, in whose queue it waits from now on.
    pub fn offer(&mut self, event: Incoming)
        requires hosted { IsHosted T.stands self.old }
        requires first { length (offered_to self.old) ≤ 1 }
        ensures hosted { IsHosted T.stands self.new }
        ensures offered { offered_to self.new ≡ offered_to self.old ++ event ∷ [] }
        ensures left { IsLeft self.old self.new }
        ensures got { got_of self.new ≡ got_of self.old }
    {
        // A place is free.
        if self.conn.offer(event).is_err() {
            unreachable!()
        }
        self.carry();
    }

    /// Moves what was put at each end on to the other one.
    fn carry(&mut self)
        requires { IsPlainPair self.old.conn self.old.app_end }
        ensures carried { IsCarried self.new }
        ensures still { IsStill ⟦<PlainApp as AppEnd>⟧ self.old.app_end self.new.app_end }
        ensures asked { ⟦<PlainApp as AppEnd>⟧.has_moved self.new.app_end ≡ ⟦<PlainApp as AppEnd>⟧.has_moved self.old.app_end }
        ensures lists { (self.new.did ≡ self.old.did) × (self.new.left ≡ self.old.left) }
        ensures offered { offered_to self.new ≡ offered_to self.old }
        ensures got { got_of self.new ≡ got_of self.old }
        ensures left { IsLeft self.old self.new }
    {
        Plain::carry(&mut self.conn, &mut self.app_end);
    }

    /// The next event that the task sent, or after all of them how it ended.
    pub fn next(&mut self) -> Option<Word>
        requires { IsHosted T.stands self.old }
        ensures hosted { IsHosted T.stands self.new }
        ensures turned { HasTurned [] self.old self.new }
        ensures tells { Tells self.old self.new result }
        ensures turns { IfSome result (λ word. turns_in word ≡ None) }
        ensures left { IsLeft self.old self.new }
        ensures offered { offered_to self.new ≡ offered_to self.old }
    {
        match self.conn.take() {
            Some(OutItem::Event(event)) => Some(Word::Said(event)),
            // The end of a task does not go through its queue, since `finish` is never called.
            Some(OutItem::Ended(_)) => unreachable!(),
            None => match self.ended {
                Some(kind) => Some(Word::Ended(kind)),
                None => None,
            },
        }
    }

    /// Polls the task once, and carries what it sent to the other end.
    pub fn turn(&mut self, cx: &mut Context<'_>) -> Turn
        requires hosted { IsHosted T.stands self.old }
        requires runs { self.old.ended ≡ None }
        ensures turn { Turned result self.old self.new }
        ensures armed { self.new.ended ≡ None → IsArmed cx.new }
        ensures follows { Follows T.stands T.answers self.old self.new }
        ensures got { got_of self.new ≡ got_of self.old }
        ensures kept { Keeps cx.old cx.new }
    {
        let turn = self.poll(cx);
        self.did = History::with(&self.did, &turn);
        self.carry();
        turn
    }

    /// Polls the task once. If it ended, nothing will move any more, else its end is asked.
    fn poll(&mut self, cx: &mut Context<'_>) -> Turn
        requires hosted { IsHosted T.stands self.old }
        requires runs { self.old.ended ≡ None }
        ensures polled { IsPolled T.stands T.answers self.old self.new }
        ensures turn { (mid : PlainApp) × (self.new.left.items ≡ self.old.left.items ++ mid ∷ []) × IsTurn ⟦<PlainApp as AppEnd>⟧ result self.new.ended self.old.app_end mid self.new.app_end }
        ensures did { self.new.did ≡ self.old.did }
        ensures armed { self.new.ended ≡ None → IsArmed cx.new }
        ensures kept { Keeps cx.old cx.new }
    {
        let answer = self.task.poll(cx, &mut self.app_end);
        self.left = History::with(&self.left, &self.app_end);
        let Poll::Ready(answer) = answer else {
            return moved(&mut self.app_end);
        };
        self.ended = Some(kind_of(answer));
        Turn::Last
    }
}

/// What the polls since the last call of this did.
fn moved(app_end: &mut PlainApp) -> Turn
    ensures turn { result ≡ turn_of (⟦<PlainApp as AppEnd>⟧.has_moved app_end.old) }
    ensures lists { IsSameEnd app_end.old app_end.new }
    ensures asked { ⟦<PlainApp as AppEnd>⟧.has_moved app_end.new ≡ false }
{
    if app_end.moved() {
        return Turn::Moved;
    }
    Turn::Idle
}

/// How the result of a poll ends a task.
fn kind_of(answer: Result<(), AppFault>) -> EndKind
    ensures kind { Some result ≡ end_of (Poll.Ready answer) }
    ensures not_idle { result ≢ EndKind.Idle }
{
    match answer {
        Ok(()) => EndKind::Returned,
        Err(_) => EndKind::Faulted,
    }
}
