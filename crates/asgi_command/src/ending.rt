//! How the server ended.
ghost use Rattle.std.specs.Prelude.{◌≡◌};
ghost use Rattle.asgi_command.specs.Serving.{of_ending, status_of};
ghost use Rattle.asgi_command.specs.Telling.{TellsOf, writer};

use crate::telling::{device_fault, tell_failure};
use asgi_io::Counts;
use asgi_types::Chars;

const STARTUP: &[u8] = b"startup failed: ";

const SHUTDOWN: &[u8] = b"shutdown failed: ";

const NO_ANSWER: &[u8] = b"no answer";

/// How the server ended.
#[derive(Drop)]
pub enum Ending {
    /// All connections were served, and the application was stopped.
    Done,
    /// The application did not start, for this reason.
    StartupFailed(Chars),
    /// The application did not answer its start.
    NoStartup,
    /// The application did not stop well, for this reason.
    ShutdownFailed(Chars),
    /// The application did not answer its stop.
    NoShutdown,
    /// The system did not give what the server needs, or did not take what was written.
    DeviceFault,
}

impl Ending {
    /// Writes what went wrong, if something did, and returns the exit status.
    pub fn tell<E: Counts>(self, errors: &mut E) -> u8
        ensures status { result ≡ status_of self }
        ensures tells { TellsOf (of_ending self)
            (writer E.Counts errors.old)
            (writer E.Counts errors.new) }
    {
        match self {
            Ending::Done => 0,
            Ending::StartupFailed(message) => {
                tell_failure(STARTUP, message.as_str().as_bytes(), errors);
                3
            }
            Ending::NoStartup => {
                tell_failure(STARTUP, NO_ANSWER, errors);
                3
            }
            Ending::ShutdownFailed(message) => {
                tell_failure(SHUTDOWN, message.as_str().as_bytes(), errors);
                4
            }
            Ending::NoShutdown => {
                tell_failure(SHUTDOWN, NO_ANSWER, errors);
                4
            }
            Ending::DeviceFault => device_fault(errors),
        }
    }
}
