//! How a connection is accepted, passing over those that are lost and waiting out a want of descriptors (accept(2)).
ghost use Rattle.std.specs.Prelude.{◌≡◌, true, Ok, IfOk};
ghost use Rattle.std.specs.IoError.{raw_os_error, error_kind};
ghost use Rattle.asgi_server.specs.Accepting.{fault_of, fault_of_code, fault_of_kind};
ghost use Rattle.asgi_server.specs.Arrivals.{Accepts, AcceptsUntil, fault_in};
ghost use Rattle.asgi_server.specs.declared.accepting.Fault.TheVariants.{Short, Lasting};

use crate::system::Calls;
use std::io::{self, ErrorKind};
use std::net::{OpenListener, SocketAddr};
use std::sync::atomic::{AtomicBool, Ordering};
use std::thread;
use std::time::{Clock, Duration};

/// How many connections in a row may be lost between their arrival and their being accepted.
const LOST_IN_A_ROW: u32 = 1_000;

/// How often in a row descriptors or memory may be short, and each wait in milliseconds: ten seconds in all.
const SHORT_IN_A_ROW: u32 = 1_000;

const SHORT_WAIT: u64 = 10;

/// How long a listener is left alone once it had no connection, or lost one, in milliseconds.
const IDLE_WAIT: u64 = 1;

/// The errors that accept(2) asks to take as "again", and those of one connection: EPERM, EINTR, EAGAIN, ENONET, EPROTO, ENOPROTOOPT,
/// EOPNOTSUPP, ENETDOWN, ENETUNREACH, ECONNABORTED, ECONNRESET, ETIMEDOUT, EHOSTDOWN, EHOSTUNREACH.
const PASSING: &[i32] = &[1, 4, 11, 64, 71, 92, 95, 100, 101, 103, 104, 110, 112, 113];

/// Those of a want of memory or of descriptors: ENOMEM, ENFILE, EMFILE, ENOBUFS.
const SHORT: &[i32] = &[12, 23, 24, 105];

/// What a failed accept means.
#[derive(Clone, Copy, Debug, PartialEq, Eq)]
pub enum Fault {
    /// Only the connection that was to be accepted is lost, and the next one may be accepted.
    Passing,
    /// Descriptors or memory are short, and may be available again.
    Short,
    /// No connection can be accepted any more.
    Lasting,
}

/// What a failed accept means.
pub fn fault_of(e: &io::Error) -> Fault
    ensures { result ≡ fault_of (raw_os_error e.now) (error_kind e.now) }
{
    match e.raw_os_error() {
        Some(code) => fault_of_code(code),
        None => fault_of_kind(e.kind()),
    }
}

fn fault_of_code(code: i32) -> Fault
    ensures { result ≡ fault_of_code code }
{
    if PASSING.contains(&code) {
        return Fault::Passing;
    }
    if SHORT.contains(&code) {
        return Fault::Short;
    }
    Fault::Lasting
}

fn fault_of_kind(kind: ErrorKind) -> Fault
    ensures { result ≡ fault_of_kind kind }
{
    match kind {
        ErrorKind::ConnectionAborted => Fault::Passing,
        ErrorKind::ConnectionReset => Fault::Passing,
        ErrorKind::Interrupted => Fault::Passing,
        ErrorKind::WouldBlock => Fault::Passing,
        ErrorKind::OutOfMemory => Fault::Short,
        _ => Fault::Lasting,
    }
}

/// Accepts a connection. One that is lost is passed over, and a want of descriptors or memory is waited out.
pub fn accept_on<H: Clock, L: OpenListener>(
    clock: &H,
    listener: &L,
    calls: &mut Calls<L::Stream>,
) -> io::Result<(L::Stream, SocketAddr)>
    ensures accepts { Accepts calls.old.accepted.items calls.new.accepted.items result }
    ensures others { (calls.new.bound ≡ calls.old.bound) × (calls.new.named ≡ calls.old.named) }
{
    for _lost in 0..LOST_IN_A_ROW {
        match accept_in_time(clock, listener, calls) {
            Ok(accepted) => return Ok(accepted),
            Err(e) => match fault_of(&e) {
                Fault::Passing => {}
                Fault::Short => return Err(e),
                Fault::Lasting => return Err(e),
            },
        }
    }
    calls.accept(listener)
}

/// Accepts a connection, or answers that one is lost. A want of descriptors or memory is waited out.
fn accept_in_time<H: Clock, L: OpenListener>(
    clock: &H,
    listener: &L,
    calls: &mut Calls<L::Stream>,
) -> io::Result<(L::Stream, SocketAddr)>
    ensures accepts { AcceptsUntil (λ e. ¬ (fault_in e ≡ Short)) calls.old.accepted.items calls.new.accepted.items result }
    ensures others { (calls.new.bound ≡ calls.old.bound) × (calls.new.named ≡ calls.old.named) }
{
    for _short in 0..SHORT_IN_A_ROW {
        match calls.accept(listener) {
            Ok(accepted) => return Ok(accepted),
            Err(e) => match fault_of(&e) {
                Fault::Short => thread::sleep(clock, Duration::from_millis(SHORT_WAIT)),
                Fault::Passing => return Err(e),
                Fault::Lasting => return Err(e),
            },
        }
    }
    calls.accept(listener)
}

/// Why no connection came.
#[derive(Clone, Copy, Debug)]
pub enum NoMore {
    /// The flag was set.
    Stopped,
    /// No connection can be accepted any more, and this is the system's error.
    Failed(io::Error),
}

/// How often in a row connections were lost, and descriptors or memory short.
#[derive(Drop)]
struct Patience {
    lost: u32,
    short: u32,
}

impl Patience {
    /// Waits after a failed accept, and returns whether the next connection may be asked for: not if no connection can be
    /// accepted any more, and not once too many were lost, or descriptors or memory were short too often.
    fn goes_on<H: Clock>(&mut self, clock: &H, e: &io::Error) -> bool
        ensures { result ≡ true → ¬ (fault_in e.now ≡ Lasting) }
    {
        match fault_of(e) {
            Fault::Passing => self.passes(clock, e),
            Fault::Short => self.was_short(clock),
            Fault::Lasting => false,
        }
    }

    /// The same after one that found no connection, or lost one.
    fn passes<H: Clock>(&mut self, clock: &H, e: &io::Error) -> bool {
        rest(clock, IDLE_WAIT);
        self.short = 0;
        if e.kind() == ErrorKind::WouldBlock {
            self.lost = 0;
            return true;
        }
        self.lost = self.lost.saturating_add(1);
        self.lost < LOST_IN_A_ROW
    }

    /// The same after one that had no descriptor or no memory.
    fn was_short<H: Clock>(&mut self, clock: &H) -> bool {
        rest(clock, SHORT_WAIT);
        self.short = self.short.saturating_add(1);
        self.short < SHORT_IN_A_ROW
    }
}

/// Waits so many milliseconds.
fn rest<H: Clock>(clock: &H, millis: u64) {
    thread::sleep(clock, Duration::from_millis(millis));
}

/// Whether there is a flag, and it is set.
fn is_set(flag: Option<&AtomicBool>) -> bool {
    match flag {
        Some(flag) => flag.load(Ordering::SeqCst),
        None => false,
    }
}

/// Accepts a connection, unless the flag is set, which is looked at before each accept. One that is lost is passed over, and
/// so is an accept that found none, by a listener that does not wait; a want of descriptors or memory is waited out.
pub fn accept_until<H: Clock, L: OpenListener>(
    clock: &H,
    listener: &L,
    flag: Option<&AtomicBool>,
    calls: &mut Calls<L::Stream>,
) -> Result<(L::Stream, SocketAddr), NoMore>
    ensures accepts { IfOk result (λ accepted. Accepts calls.old.accepted.items calls.new.accepted.items (Ok accepted)) }
    ensures others { (calls.new.bound ≡ calls.old.bound) × (calls.new.named ≡ calls.old.named) }
{
    let mut patience = Patience { lost: 0, short: 0 };
    for _tries in 0..u64::MAX {
        if is_set(flag) {
            return Err(NoMore::Stopped);
        }
        match calls.accept(listener) {
            Ok(accepted) => return Ok(accepted),
            Err(e) => {
                if !patience.goes_on(clock, &e) {
                    return Err(NoMore::Failed(e));
                }
            }
        }
    }
    Err(NoMore::Stopped)
}
