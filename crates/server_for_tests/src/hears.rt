//! An application that says nothing in a session.
use log::{Log, info};
use nomtsage::{
    AppEnd, AppFault, AppTask, Application, Context, Headers, Incoming, Outgoing, Poll, Scope, Sent,
};
use std::alloc::Global;
use std::rc::Rc;

/// Accepts each session, says nothing, and writes the code of its disconnect to the log.
#[derive(Clone, Copy)]
pub struct Hears<R> {
    rt: R,
}

/// The application that hears.
pub fn that_hears<R: Copy>(rt: &R) -> Hears<R> {
    Hears { rt: *rt }
}

/// Hears one session.
#[derive(Drop)]
pub struct Hearing<R> {
    rt: R,
    alloc: Global,
    /// Whether the session is accepted next.
    accepts: bool,
    /// What keeps the task in one thread: no other may have it.
    stays: Rc<u64>,
}

impl<R: Log + Copy + Drop> Application for Hears<R> {
    type Task = Hearing<R>;

    fn call(&self, alloc: Global, scope: &Scope) -> Result<Hearing<R>, AppFault> {
        let Scope::WebSocket(_) = scope else {
            return Err(AppFault::Failed);
        };
        Ok(Hearing {
            rt: self.rt,
            alloc,
            accepts: false,
            stays: Rc::new(alloc, 0)?,
        })
    }
}

impl<R: Log> Hearing<R> {
    /// Whether the event is the last one, which is told.
    fn is_last(&self, event: &Incoming) -> bool {
        let Incoming::WsDisconnect { code, .. } = event else {
            return false;
        };
        let rt = &self.rt;
        info!(rt; "disconnect {code}");
        true
    }
}

impl<R: Log + Drop> AppTask for Hearing<R> {
    fn poll<E: AppEnd>(&mut self, cx: &mut Context<'_>, end: &mut E) -> Poll<Result<(), AppFault>> {
        if !self.accepts {
            let Poll::Ready(event) = end.poll_receive(cx) else {
                return Poll::Pending;
            };
            if self.is_last(&event) {
                return Poll::Ready(Ok(()));
            }
            self.accepts = matches!(event, Incoming::WsConnect);
            return cx.yield_now();
        }
        let accept = Outgoing::WsAccept {
            subprotocol: None,
            headers: Headers::new(self.alloc),
        };
        match end.poll_send(cx, accept) {
            Sent::Done => {
                self.accepts = false;
                cx.yield_now()
            }
            Sent::Full(_) => Poll::Pending,
            Sent::Ignored => Poll::Ready(Ok(())),
            Sent::Refused(_, _) => Poll::Ready(Err(AppFault::Failed)),
        }
    }

    ghost keeps = { λ _ _ _ _ _. tt };
}
