//! An application that takes a second in the middle of a response.
use nomtsage::{
    AppEnd, AppFault, AppTask, Application, Context, Headers, Octets, Outgoing, Poll, Scope, Sent,
};
use std::alloc::{AllocError, Global};
use std::time::{Clock, Duration, Instant};

/// How long a response takes, in milliseconds.
const LENGTH: u64 = 1_000;

/// Responds to each request with a first line and a last one. To one of `/works` it says the last one a second later: in
/// between it works, or waits, and lets others go on.
#[derive(Clone, Copy)]
pub struct Works<R> {
    pub rt: R,
    pub waits: bool,
}

/// The application that works, or waits.
pub fn that_works<R: Copy>(rt: &R, waits: bool) -> Works<R> {
    Works { rt: *rt, waits }
}

/// Says the head, the first line and the last one.
#[derive(Drop)]
pub struct Working<R> {
    rt: R,
    alloc: Global,
    waits: bool,
    /// How many of the three events were sent.
    sent: u32,
    /// The last line may be sent a second after this.
    began: Option<Instant>,
}

impl<R: Clock + Copy + Drop> Application for Works<R> {
    type Task = Working<R>;

    fn call(&self, alloc: Global, scope: &Scope) -> Result<Working<R>, AppFault> {
        let Scope::Http(scope) = scope else {
            return Err(AppFault::Failed);
        };
        let began = if scope.path.as_str() == "/works" {
            Some(Instant::now(&self.rt).map_err(|_| AppFault::Failed)?)
        } else {
            None
        };
        Ok(Working {
            rt: self.rt,
            alloc,
            waits: self.waits,
            sent: 0,
            began,
        })
    }
}

impl<R: Clock> Working<R> {
    /// Whether the last line may be sent.
    fn is_time(&self) -> bool {
        let Some(began) = self.began else {
            return true;
        };
        match began.elapsed(&self.rt) {
            Ok(elapsed) => elapsed >= Duration::from_millis(LENGTH),
            Err(_) => true,
        }
    }

    /// The last line is to be sent. Whether it may be: if the application works, it has worked until then.
    fn has_worked(&self) -> bool {
        for _look in 0..u64::MAX {
            if self.is_time() {
                return true;
            }
            if self.waits {
                return false;
            }
        }
        true
    }

    /// The event that is sent next.
    fn next(&self) -> Result<Outgoing, AllocError> {
        if self.sent == 0 {
            return Ok(Outgoing::ResponseStart {
                status: 200,
                headers: Headers::new(self.alloc),
                trailers: false,
            });
        }
        let is_last = self.sent > 1;
        let line = if is_last { "last\n" } else { "first\n" };
        Ok(Outgoing::ResponseBody {
            body: Octets::new(Vec::from_slice(self.alloc, line.as_bytes())?),
            more_body: !is_last,
        })
    }
}

impl<R: Clock + Drop> AppTask for Working<R> {
    fn poll<E: AppEnd>(&mut self, cx: &mut Context<'_>, end: &mut E) -> Poll<Result<(), AppFault>> {
        if self.sent > 2 {
            return Poll::Ready(Ok(()));
        }
        if self.sent == 2 && !self.has_worked() {
            return cx.yield_now();
        }
        let Ok(event) = self.next() else {
            return Poll::Ready(Err(AppFault::Failed));
        };
        match end.poll_send(cx, event) {
            Sent::Done => {
                self.sent += 1;
                cx.yield_now()
            }
            Sent::Full(_) => Poll::Pending,
            Sent::Ignored => Poll::Ready(Ok(())),
            Sent::Refused(_, _) => Poll::Ready(Err(AppFault::Failed)),
        }
    }

    ghost keeps = { λ _ _ _ _ _. tt };
}
