//! What became of connections that their reports do not say.
ghost use Rattle.std.specs.Prelude.{◌≡◌, ◌+◌, ◌-◌, ◌^◌, ℕ, min, None, Some};

use log::{Log, info};
use std::io;
use std::net::SocketAddr;

/// What of a connection that has ended was said to be written, and has not left.
#[derive(Clone, Copy, Debug)]
pub(crate) struct Unsent {
    pub(crate) client: SocketAddr,
    pub(crate) bytes: usize,
    /// The system's error, unless its client took too little for too long.
    pub(crate) why: Option<io::Error>,
}

/// The connections of which the log is to be told: that not all has left, or that they were closed as they came.
#[derive(Clone, Copy, Debug)]
pub(crate) struct Losses {
    /// How many have bytes that have not left.
    unsent: u64,
    /// The last of these.
    last: Option<Unsent>,
    /// How many were closed as they came.
    closed: u64,
    /// The system's error for the last of these, unless memory was refused.
    why: Option<io::Error>,
}

impl Losses {
    /// None.
    pub(crate) fn new() -> Self
        ensures none { (result.unsent ≡ 0) × (result.closed ≡ 0) }
    {
        Losses {
            unsent: 0,
            last: None,
            closed: 0,
            why: None,
        }
    }

    /// Of one more connection not all has left.
    pub(crate) fn add_unsent(&mut self, unsent: Unsent)
        ensures one { self.new.unsent ≡ min (self.old.unsent + 1) (2 ^ 64 - 1) }
        ensures last { self.new.last ≡ Some unsent }
        ensures others { (self.new.closed ≡ self.old.closed) × (self.new.why ≡ self.old.why) }
    {
        self.unsent = self.unsent.saturating_add(1);
        self.last = Some(unsent);
    }

    /// One more connection was closed as it came, with this error of the system, or since memory was refused.
    pub(crate) fn add_closed(&mut self, why: Option<io::Error>)
        ensures one { self.new.closed ≡ min (self.old.closed + 1) (2 ^ 64 - 1) }
        ensures last { self.new.why ≡ why }
        ensures others { (self.new.unsent ≡ self.old.unsent) × (self.new.last ≡ self.old.last) }
    {
        self.closed = self.closed.saturating_add(1);
        self.why = why;
    }

    /// Tells the log of them, and has none any more.
    pub(crate) fn tell<R: Log>(&mut self, rt: &R)
        ensures none { (self.new.unsent ≡ 0) × (self.new.closed ≡ 0) }
    {
        if self.unsent == 0 && self.closed == 0 {
            return;
        }
        let told = *self;
        *self = Losses::new();
        if let Some(last) = told.last {
            tell_unsent(rt, &last, told.unsent.saturating_sub(1));
        }
        if told.closed > 0 {
            tell_closed(rt, told.closed, told.why);
        }
    }
}

/// Tells the log of this connection, and of how many more.
fn tell_unsent<R: Log>(rt: &R, last: &Unsent, others: u64) {
    let (host, port) = (last.client.ip(), last.client.port());
    let bytes = last.bytes;
    match last.why {
        Some(e) => info!(rt; "{bytes} bytes for {host} port {port} could not be sent: {e}"),
        None => info!(rt; "{bytes} bytes for {host} port {port} were not taken in time"),
    }
    if others > 0 {
        info!(rt; "{others} more clients were not sent all either");
    }
}

/// Tells the log of so many connections that were closed as they came.
fn tell_closed<R: Log>(rt: &R, many: u64, why: Option<io::Error>) {
    match why {
        Some(e) => info!(rt; "{many} connections were closed as they came: {e}"),
        None => info!(rt; "{many} connections were closed as they came: out of memory"),
    }
}
