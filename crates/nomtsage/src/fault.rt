//! Why a server did not serve, or did not end well.
ghost use Rattle.std.specs.Prelude.{◌≡◌};
ghost use Rattle.nomtsage.specs.Running.{status_of};

use asgi_types::Chars;
use std::fmt;
use std::io::{self, ErrorKind};
use std::net::SocketAddr;
use thiserror::Error;

/// Why an address can't be listened on: the reason in plain words, and the system's own error.
#[derive(Clone, Copy, Debug)]
pub struct ListenFault(pub io::Error);

impl fmt::Display for ListenFault {
    fn fmt<W: fmt::Write>(&self, f: &mut fmt::Formatter<W>) -> fmt::Result {
        let reason = reason_of(self.0.kind());
        write!(f, "{reason}: {}", self.0)
    }
}

/// What a person needs to know of such an error.
fn reason_of(kind: ErrorKind) -> &'static str {
    match kind {
        ErrorKind::AddrInUse => "the port is in use",
        ErrorKind::PermissionDenied => "no right to this port",
        ErrorKind::AddrNotAvailable => "the address is not one of this machine",
        _ => "the system refused it",
    }
}

/// Why a server did not serve, or did not end well. Each text is one line.
#[derive(Debug, Drop, Error)]
pub enum ServeError {
    /// The number of workers, or of `threads`, is not from 1 to 8. Nothing was begun.
    #[error("workers: {0} is not a number from 1 to 8")]
    BadWorkers(u64),
    /// The address can't be listened on. Nothing was begun.
    #[error("cannot listen on {address}: {why}")]
    CannotListen {
        address: SocketAddr,
        why: ListenFault,
    },
    /// No connection can be accepted any more. Those that were accepted were served, and the application was stopped.
    #[error("no connection can be accepted any more: {0}")]
    CannotAccept(io::Error),
    /// The application did not start, for this reason. No connection was accepted.
    #[error("startup failed: {message}", message = .0.as_str())]
    StartupFailed(Chars),
    /// The application did not answer its start within the limits. No connection was accepted.
    #[error("startup failed: no answer")]
    NoStartup,
    /// The application did not stop well, for this reason. All connections were served.
    #[error("shutdown failed: {message}", message = .0.as_str())]
    ShutdownFailed(Chars),
    /// The application did not answer its stop within the limits. All connections were served.
    #[error("shutdown failed: no answer")]
    NoShutdown,
    /// Memory was refused: for the workers or the seats, for the start, or, with workers, for the report of one more connection.
    /// Also if the system gives no random number, which what runs a task asks for.
    #[error("out of memory")]
    NoMemory,
    /// A thread was refused: to a worker or its application, or one of `threads`. No connection was accepted.
    #[error("no thread for a worker")]
    NoThread,
    /// More steps were taken than can be counted, so not each connection was served to its end.
    #[error("too many steps to count")]
    TooLong,
}

impl ServeError {
    /// The exit status of a program that ends by this: 2 for a setting, 3 for a start, 4 for a stop, 5 for the system.
    pub fn status(&self) -> u8
        ensures { result ≡ status_of self.now }
    {
        match self {
            ServeError::BadWorkers(_) => 2,
            ServeError::CannotListen { .. } => 5,
            ServeError::CannotAccept(_) => 5,
            ServeError::StartupFailed(_) => 3,
            ServeError::NoStartup => 3,
            ServeError::ShutdownFailed(_) => 4,
            ServeError::NoShutdown => 4,
            ServeError::NoMemory => 5,
            ServeError::NoThread => 5,
            ServeError::TooLong => 5,
        }
    }
}
