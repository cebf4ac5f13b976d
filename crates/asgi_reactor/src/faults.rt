//! What a failed accept means (accept(2)), and which failed writes may be tried again (send(2)).
ghost use Rattle.std.specs.Prelude.{◌≡◌};
ghost use Rattle.std.specs.IoError.{raw_os_error, error_kind};
ghost use Rattle.asgi_reactor.specs.Faults.{fault_of, fault_of_code, fault_of_kind, may_pass};

use asgi_io::is_passing;
use std::io::{self, ErrorKind};

/// Where no connection is there: EAGAIN.
const NONE_NOW: &[i32] = &[11];

/// Those of a want of memory or of descriptors: ENOMEM, ENFILE, EMFILE, ENOBUFS.
const SHORT: &[i32] = &[12, 23, 24, 105];

/// Errors of the listener itself: EBADF, EFAULT, EINVAL, ENOTSOCK.
const LASTING: &[i32] = &[9, 14, 22, 88];

/// What a failed accept means.
#[derive(Clone, Copy, Debug, PartialEq, Eq)]
pub enum Fault {
    /// No connection is there.
    NoneNow,
    /// Only the connection that was to be accepted is lost.
    Lost,
    /// Descriptors or memory are short, and may be available again.
    Short,
    /// No connection can be accepted any more.
    Lasting,
}

/// What a failed accept means.
pub fn fault_of(e: &io::Error) -> Fault
    ensures { result ≡ fault_of (raw_os_error e.now) (error_kind e.now) }
{
    match e.raw_os_error() {
        Some(code) => fault_of_code(code),
        None => fault_of_kind(e.kind()),
    }
}

/// Whether a write that failed so may be tried again: it would block, it was interrupted, or memory for it is short.
pub fn may_pass(e: &io::Error) -> bool
    ensures { result ≡ may_pass (raw_os_error e.now) (error_kind e.now) }
{
    match fault_of(e) {
        Fault::Short => true,
        Fault::NoneNow => is_passing(e),
        Fault::Lost => is_passing(e),
        Fault::Lasting => is_passing(e),
    }
}

fn fault_of_code(code: i32) -> Fault
    ensures { result ≡ fault_of_code code }
{
    if NONE_NOW.contains(&code) {
        return Fault::NoneNow;
    }
    if SHORT.contains(&code) {
        return Fault::Short;
    }
    if LASTING.contains(&code) {
        return Fault::Lasting;
    }
    Fault::Lost
}

fn fault_of_kind(kind: ErrorKind) -> Fault
    ensures { result ≡ fault_of_kind kind }
{
    match kind {
        ErrorKind::WouldBlock => Fault::NoneNow,
        ErrorKind::OutOfMemory => Fault::Short,
        _ => Fault::Lost,
    }
}
