//! Applications that do not answer their start, or their stop.
use nomtsage::{
    AppEnd, AppFault, AppTask, Application, Context, Incoming, Outgoing, Poll, Scope, Sent, State,
};
use std::alloc::Global;

/// What is not answered.
#[derive(Clone, Copy, Debug, PartialEq, Eq)]
pub enum Silent {
    Start,
    Stop,
}

/// Hears the start and the stop.
#[derive(Drop)]
pub struct SilentTask {
    alloc: Global,
    silent: Silent,
    /// Whether the answer to the start is sent next.
    answers: bool,
}

impl Application for Silent {
    type Task = SilentTask;

    fn call(&self, alloc: Global, scope: &Scope) -> Result<SilentTask, AppFault> {
        match scope {
            Scope::Lifespan(_) => Ok(SilentTask {
                alloc,
                silent: *self,
                answers: false,
            }),
            Scope::Http(_) => Err(AppFault::Failed),
            Scope::WebSocket(_) => Err(AppFault::Failed),
        }
    }
}

impl SilentTask {
    /// Whether the event is one that is answered.
    fn is_answered(&self, event: &Incoming) -> bool {
        self.silent == Silent::Stop && matches!(event, Incoming::LifespanStartup)
    }
}

impl AppTask for SilentTask {
    fn poll<E: AppEnd>(&mut self, cx: &mut Context<'_>, end: &mut E) -> Poll<Result<(), AppFault>> {
        if !self.answers {
            let Poll::Ready(event) = end.poll_receive(cx) else {
                return Poll::Pending;
            };
            self.answers = self.is_answered(&event);
            return cx.yield_now();
        }
        let state = State::new(self.alloc);
        match end.poll_send(cx, Outgoing::StartupComplete { state }) {
            Sent::Done => {
                self.answers = false;
                cx.yield_now()
            }
            Sent::Full(_) => Poll::Pending,
            Sent::Ignored => Poll::Ready(Ok(())),
            Sent::Refused(_, _) => Poll::Ready(Err(AppFault::Failed)),
        }
    }

    ghost keeps = { λ _ _ _ _ _. tt };
}
