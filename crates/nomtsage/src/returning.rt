//! The result of a server, by how it ended.
ghost use Rattle.nomtsage.specs.Running.{IsResultOf};

use crate::ending::Ending;
use crate::fault::ServeError;
use std::io;

/// The result of a server that ended so; `why` is the system's error if its listener failed.
pub fn result_of(ending: Ending, why: io::Error) -> Result<(), ServeError>
    ensures { IsResultOf ending why result }
{
    match ending {
        Ending::Done => Ok(()),
        Ending::StartupFailed(message) => Err(ServeError::StartupFailed(message)),
        Ending::NoStartup => Err(ServeError::NoStartup),
        Ending::ShutdownFailed(message) => Err(ServeError::ShutdownFailed(message)),
        Ending::NoShutdown => Err(ServeError::NoShutdown),
        Ending::ListenerFailed => Err(ServeError::CannotAccept(why)),
        Ending::NoMemory => Err(ServeError::NoMemory),
        Ending::NoThread => Err(ServeError::NoThread),
        Ending::TooLong => Err(ServeError::TooLong),
    }
}
