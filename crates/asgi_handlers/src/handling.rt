//! The task of one request: it is received whole, the handler is called, and its reply is sent.
ghost use Rattle.std.specs.Prelude.{◌≡◌, [], ◌∷◌, ◌++◌, None, OnOk, OnErr, IfOk};
ghost use Rattle.futures.specs.Poll.{OnPending};
ghost use Rattle.futures.specs.Task.{IsArmed, Keeps};
ghost use Rattle.asgi_apps.specs.Ends.{GoesOn, IsWithin, end_of};
ghost use Rattle.asgi_handlers.specs.Handling.{HandlingAnswers, HandlingStands, IsHearing};
ghost use Rattle.asgi_handlers.specs.private.Hearing.{Added, Hearing, IsFailed};

use crate::handler::Handler;
use crate::receiving::receive;
use crate::reply::Reply;
use crate::request::Request;
use crate::segments::segments_of;
use crate::sending::{Said, Sending};
use asgi_apps::{AppFault, AppTask};
use asgi_io::History;
use asgi_pipes::AppEnd;
use asgi_types::{HttpScope, Incoming, Octets};
use futures::task::{Context, Poll};
use std::alloc::Global;

/// What a request is handled with. It stays the same while the task runs.
#[derive(Drop)]
pub struct Asked<H> {
    alloc: Global,
    handler: H,
    /// In a place of its own, so that a task is small where it is moved.
    scope: Box<HttpScope>,
}

/// The task of one request.
#[derive(Drop)]
pub struct Handling<H> {
    asked: Asked<H>,
    /// The bytes of the body that were received.
    body: Vec<u8>,
    /// The replies that the handler has given.
    given: History<Reply>,
    /// What is left to send, once the handler has given its reply.
    sending: Option<Sending>,
}

/// What an event is to a task that receives a request.
#[derive(Drop)]
pub enum Heard {
    /// More is to be received.
    More,
    /// The client is gone.
    Gone,
    /// The whole request was received, and the handler has given this reply.
    Whole(Reply),
    /// The handler has failed, or memory was refused.
    Failed(AppFault),
}

impl<H> Handling<H> {
    /// Nothing of the request was received. Takes no memory.
    pub fn new(alloc: Global, handler: H, scope: Box<HttpScope>) -> Self
        ensures asked { (result.asked.handler ≡ handler) × (result.asked.scope ≡ scope) }
        ensures body { result.body.items ≡ [] }
        ensures given { result.given.items ≡ [] }
        ensures sending { result.sending ≡ None }
    {
        Handling {
            asked: Asked {
                alloc,
                handler,
                scope,
            },
            body: Vec::new(alloc),
            given: History::new(),
            sending: None,
        }
    }
}

impl<H: Handler> Asked<H> {
    /// What the event is. A part of the body is added to it, and after the last one the handler is
    /// called. The other events do not come in a scope of this kind, and are passed over.
    fn hear(&self, body: &mut Vec<u8>, given: &mut History<Reply>, event: Incoming) -> Heard
        ensures { Hearing (H.replies self.now.handler self.now.scope.value) event body.old.items body.new.items given.old.items given.new.items result }
    {
        match event {
            Incoming::HttpRequest {
                body: part,
                more_body,
            } => self.take(body, given, part, more_body),
            Incoming::HttpDisconnect => Heard::Gone,
            Incoming::WsDisconnect { code: _, reason: _ } => Heard::Gone,
            Incoming::WsConnect => Heard::More,
            Incoming::WsReceive { payload: _ } => Heard::More,
            Incoming::LifespanStartup => Heard::More,
            Incoming::LifespanShutdown => Heard::More,
        }
    }

    fn take(
        &self,
        body: &mut Vec<u8>,
        given: &mut History<Reply>,
        part: Octets,
        more_body: bool,
    ) -> Heard
        ensures { Hearing (H.replies self.now.handler self.now.scope.value) (Incoming.HttpRequest part more_body) body.old.items body.new.items given.old.items given.new.items result }
    {
        let added = add(body, part.bytes());
        self.after_part(added, body.as_slice(), given, more_body)
    }

    /// What the last part is, by whether it was added.
    fn after_part(
        &self,
        added: Result<(), AppFault>,
        body: &[u8],
        given: &mut History<Reply>,
        more_body: bool,
    ) -> Heard
        ensures ok { OnOk added (Added (H.replies self.now.handler self.now.scope.value body.now) more_body given.old.items given.new.items result) }
        ensures err { OnErr added (IsFailed result) }
    {
        match added {
            Ok(()) => self.added(body, given, more_body),
            Err(e) => Heard::Failed(e),
        }
    }

    /// What the part that was added last is.
    fn added(&self, body: &[u8], given: &mut History<Reply>, more_body: bool) -> Heard
        ensures { Added (H.replies self.now.handler self.now.scope.value body.now) more_body given.old.items given.new.items result }
    {
        if more_body {
            return Heard::More;
        }
        match self.reply(body, given) {
            Ok(reply) => Heard::Whole(reply),
            Err(e) => Heard::Failed(e),
        }
    }

    /// The handler's reply to the request with this body, which is recorded. Only this calls the
    /// handler.
    fn reply(&self, body: &[u8], given: &mut History<Reply>) -> Result<Reply, AppFault>
        ensures allowed { IfOk result (λ reply. H.replies self.now.handler self.now.scope.value body.now reply) }
        ensures given { IfOk result (λ reply. given.new.items ≡ given.old.items ++ reply ∷ []) }
    {
        let path = self.scope.path.as_str();
        let segments = segments_of(self.alloc, path, self.scope.root_path.as_str())?;
        let request = Request {
            alloc: self.alloc,
            scope: &self.scope,
            segments: segments.as_slice(),
            params: &[],
            body,
        };
        let reply = self.handler.handle(&request)?;
        *given = History::with(given, &reply);
        Ok(reply)
    }
}

/// Adds a part to the body. `NoMemory` if memory is refused.
fn add(body: &mut Vec<u8>, part: &[u8]) -> Result<(), AppFault>
    ensures { OnOk result (body.new.items ≡ body.old.items ++ part.now) }
{
    body.extend_from_slice(part)?;
    Ok(())
}

impl<H: Handler> Handling<H> {
    /// Receives the next event of the request. Once it is whole, the reply is sent next.
    fn listen<E: AppEnd>(&mut self, cx: &mut Context<'_>, end: &mut E) -> Poll<Result<(), AppFault>>
        requires open { E.ended end.old ≡ None }
        requires unsent { self.old.sending ≡ None }
        requires hears { IsHearing self.old.body.items self.old.given.items (E.kind end.old) (E.heard end.old) (E.said end.old) }
        ensures end { GoesOn E.AppEnd None end.old end.new }
        ensures answers { HandlingAnswers H.replies self.old (E.heard end.new) (E.said end.new) (end_of result) }
        ensures stands { OnPending result (HandlingStands H.replies self.new (E.kind end.new) (E.heard end.new) (E.said end.new)) }
        ensures same { OnPending result (IsWithin (HandlingAnswers H.replies) self.new self.old) }
        ensures armed { OnPending result (IsArmed cx.new) }
        ensures kept { Keeps cx.old cx.new }
    {
        match receive(cx, end) {
            Poll::Pending => Poll::Pending,
            Poll::Ready(event) => match self.asked.hear(&mut self.body, &mut self.given, event) {
                Heard::More => cx.yield_now(),
                Heard::Gone => Poll::Ready(Ok(())),
                Heard::Whole(reply) => {
                    self.sending = Some(Sending::of(reply));
                    cx.yield_now()
                }
                Heard::Failed(e) => Poll::Ready(Err(e)),
            },
        }
    }
}

impl<H: Handler + Drop> AppTask for Handling<H> {
    ghost use Rattle.asgi_handlers.specs.Handling.{handling_keeps};

    ghost stands = { HandlingStands H.replies };

    ghost answers = { HandlingAnswers H.replies };

    fn poll<E: AppEnd>(&mut self, cx: &mut Context<'_>, end: &mut E) -> Poll<Result<(), AppFault>> {
        match &mut self.sending {
            Some(sending) => match sending.say(cx, end) {
                Said::Left => Poll::Pending,
                Said::All => Poll::Ready(Ok(())),
                Said::Refused => Poll::Ready(Err(AppFault::Failed)),
            },
            None => self.listen(cx, end),
        }
    }

    ghost keeps = { handling_keeps H.replies };
}
