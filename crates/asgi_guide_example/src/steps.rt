//! A task that hears one event after another, and sends what comes of each.
use nomtsage::{AppEnd, AppFault, AppTask, Context, Incoming, Outgoing, Poll, Sent};
use std::alloc::Global;
use std::mem;

/// What a task does next.
#[derive(Drop)]
pub enum Next {
    /// Receives an event.
    Receives,
    /// Sends this event, and then does that.
    Sends(Outgoing, Then),
    /// Returns.
    Returns,
}

/// What a task does once an event was sent.
#[derive(Drop)]
pub enum Then {
    /// Receives an event.
    Receives,
    /// Sends this event too, and returns after it.
    Sends(Outgoing),
    /// Returns.
    Returns,
}

/// What a task does at the events that it receives.
pub trait Hears {
    /// What it does after this event. A fault ends its connection.
    fn hear(&mut self, alloc: Global, event: Incoming) -> Result<Next, AppFault>;
}

/// The task.
#[derive(Drop)]
pub struct Steps<H> {
    alloc: Global,
    hears: H,
    next: Next,
}

impl<H> Steps<H> {
    /// A task that does this first.
    pub fn new(alloc: Global, hears: H, next: Next) -> Self {
        Steps { alloc, hears, next }
    }
}

impl<H: Hears + Drop> AppTask for Steps<H> {
    fn poll<E: AppEnd>(&mut self, cx: &mut Context<'_>, end: &mut E) -> Poll<Result<(), AppFault>> {
        match mem::replace(&mut self.next, Next::Receives) {
            Next::Receives => {
                let Poll::Ready(event) = end.poll_receive(cx) else {
                    return Poll::Pending;
                };
                let alloc = self.alloc;
                match self.hears.hear(alloc, event) {
                    Ok(next) => {
                        self.next = next;
                        cx.yield_now()
                    }
                    Err(e) => Poll::Ready(Err(e)),
                }
            }
            Next::Sends(event, then) => match end.poll_send(cx, event) {
                Sent::Done => match then {
                    Then::Receives => cx.yield_now(),
                    Then::Sends(event) => {
                        self.next = Next::Sends(event, Then::Returns);
                        cx.yield_now()
                    }
                    Then::Returns => Poll::Ready(Ok(())),
                },
                Sent::Full(event) => {
                    self.next = Next::Sends(event, then);
                    Poll::Pending
                }
                Sent::Ignored => Poll::Ready(Ok(())),
                Sent::Refused(_, _) => Poll::Ready(Err(AppFault::Failed)),
            },
            Next::Returns => Poll::Ready(Ok(())),
        }
    }

    ghost keeps = { λ _ _ _ _ _. tt };
}
