//! An application that says nothing.
use nomtsage::{AppEnd, AppFault, AppTask, Application, Context, Incoming, Poll, Scope};
use std::alloc::Global;

/// Hears each request and each session to its end, and answers none.
#[derive(Clone, Copy, Debug)]
pub struct Mute;

/// Hears one.
#[derive(Clone, Copy, Debug, Drop)]
pub struct MuteTask;

impl Application for Mute {
    type Task = MuteTask;

    fn call(&self, _alloc: Global, scope: &Scope) -> Result<MuteTask, AppFault> {
        match scope {
            Scope::Lifespan(_) => Err(AppFault::Failed),
            Scope::Http(_) => Ok(MuteTask),
            Scope::WebSocket(_) => Ok(MuteTask),
        }
    }
}

impl AppTask for MuteTask {
    fn poll<E: AppEnd>(&mut self, cx: &mut Context<'_>, end: &mut E) -> Poll<Result<(), AppFault>> {
        let Poll::Ready(event) = end.poll_receive(cx) else {
            return Poll::Pending;
        };
        if is_last(&event) {
            return Poll::Ready(Ok(()));
        }
        cx.yield_now()
    }

    ghost keeps = { λ _ _ _ _ _. tt };
}

/// Whether the client is gone.
fn is_last(event: &Incoming) -> bool {
    match event {
        Incoming::HttpDisconnect => true,
        Incoming::WsDisconnect { .. } => true,
        _ => false,
    }
}
