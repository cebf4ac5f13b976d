//! Applications whose responses do not come whole at once.
use nomtsage::{
    AppEnd, AppFault, AppTask, Application, Context, Headers, Octets, Outgoing, Poll, Scope, Sent,
};
use std::alloc::{AllocError, Global};
use std::time::{Clock, Duration, Instant};

/// How many bytes a piece of a flood has.
const PIECE: usize = 16 << 10;

/// How many lines a slow response has.
const LINES: u64 = 10;

/// How long one of them takes, in milliseconds.
const PAUSE: u64 = 100;

/// What becomes of a response.
#[derive(Clone, Copy, Debug, PartialEq, Eq)]
pub enum Kind {
    /// Its task faults after a part of the content.
    Cuts,
    /// It has no end, as long as the client takes it.
    Flood,
    /// It has a line each 100 milliseconds, ten in all.
    Slow,
}

/// Responds to each request so.
#[derive(Clone, Copy)]
pub struct Tries<R> {
    pub rt: R,
    pub kind: Kind,
}

/// The application of this kind.
pub fn tried_as<R: Copy>(rt: &R, kind: Kind) -> Tries<R> {
    Tries { rt: *rt, kind }
}

/// Says the head, and then the pieces.
#[derive(Drop)]
pub struct Trying<R> {
    rt: R,
    alloc: Global,
    kind: Kind,
    /// How many events were sent.
    sent: u64,
    began: Instant,
}

/// What a task does next.
#[derive(Drop)]
enum Next {
    Sends(Outgoing),
    Waits,
    Returns,
    Faults,
}

impl<R: Clock + Copy + Drop> Application for Tries<R> {
    type Task = Trying<R>;

    fn call(&self, alloc: Global, scope: &Scope) -> Result<Trying<R>, AppFault> {
        let Scope::Http(_) = scope else {
            return Err(AppFault::Failed);
        };
        let Ok(began) = Instant::now(&self.rt) else {
            return Err(AppFault::Failed);
        };
        Ok(Trying {
            rt: self.rt,
            alloc,
            kind: self.kind,
            sent: 0,
            began,
        })
    }
}

impl<R: Clock> Trying<R> {
    fn next(&self) -> Result<Next, AllocError> {
        if self.sent == 0 {
            return Ok(Next::Sends(Outgoing::ResponseStart {
                status: 200,
                headers: Headers::new(self.alloc),
                trailers: false,
            }));
        }
        match self.kind {
            Kind::Cuts => self.next_of_cut(),
            Kind::Flood => self.next_of_flood(),
            Kind::Slow => self.next_of_slow(),
        }
    }

    fn next_of_cut(&self) -> Result<Next, AllocError> {
        if self.sent > 1 {
            return Ok(Next::Faults);
        }
        self.piece("half of it\n".as_bytes(), true)
    }

    fn next_of_flood(&self) -> Result<Next, AllocError> {
        let mut bytes = Vec::new(self.alloc);
        bytes.resize(PIECE, b'f')?;
        Ok(Next::Sends(Outgoing::ResponseBody {
            body: Octets::new(bytes),
            more_body: true,
        }))
    }

    fn next_of_slow(&self) -> Result<Next, AllocError> {
        if self.sent > LINES {
            return Ok(Next::Returns);
        }
        if !self.is_time() {
            return Ok(Next::Waits);
        }
        self.piece("line\n".as_bytes(), self.sent < LINES)
    }

    /// Whether the next line may be sent.
    fn is_time(&self) -> bool {
        match self.began.elapsed(&self.rt) {
            Ok(elapsed) => elapsed >= Duration::from_millis(PAUSE.saturating_mul(self.sent)),
            Err(_) => true,
        }
    }

    fn piece(&self, text: &[u8], more_body: bool) -> Result<Next, AllocError> {
        let body = Octets::new(Vec::from_slice(self.alloc, text)?);
        Ok(Next::Sends(Outgoing::ResponseBody { body, more_body }))
    }
}

impl<R: Clock + Drop> AppTask for Trying<R> {
    fn poll<E: AppEnd>(&mut self, cx: &mut Context<'_>, end: &mut E) -> Poll<Result<(), AppFault>> {
        let event = match self.next() {
            Ok(Next::Sends(event)) => event,
            Ok(Next::Waits) => return cx.yield_now(),
            Ok(Next::Returns) => return Poll::Ready(Ok(())),
            Ok(Next::Faults) | Err(_) => return Poll::Ready(Err(AppFault::Failed)),
        };
        match end.poll_send(cx, event) {
            Sent::Done => {
                self.sent = self.sent.saturating_add(1);
                cx.yield_now()
            }
            Sent::Full(_) => Poll::Pending,
            Sent::Ignored => Poll::Ready(Ok(())),
            Sent::Refused(_, _) => Poll::Ready(Err(AppFault::Failed)),
        }
    }

    ghost keeps = { λ _ _ _ _ _. tt };
}
