//! How a server ended.
ghost use Rattle.std.specs.Prelude.{◌≡◌, ◌⊎◌};
ghost use Rattle.nomtsage.specs.Serving.{ending_of, served_of};

use asgi_lifespan::Stop;
use asgi_server::{End, NoStation};
use asgi_types::Chars;

/// How the connections of a listener were served.
#[derive(Clone, Copy, Debug, PartialEq, Eq)]
pub enum Served {
    /// Each that the listener had.
    Each,
    /// Each that it gave, until it failed.
    ListenerFailed,
    /// With workers each that it gave, until memory was refused for the report of one more. In seats none, since memory was refused
    /// for them.
    NoMemory,
    /// None, since a thread was refused.
    NoThread,
    /// Not each, since 2^64 - 1 steps were taken.
    TooLong,
}

/// How a server ended.
#[derive(Debug, Drop)]
pub enum Ending {
    /// All connections were served, and the application was stopped.
    Done,
    /// The application did not start, for this reason.
    StartupFailed(Chars),
    /// The application did not answer its start within the limits.
    NoStartup,
    /// The application did not stop well, for this reason.
    ShutdownFailed(Chars),
    /// The application did not answer its stop within the limits.
    NoShutdown,
    /// The listener failed; what it had given was served.
    ListenerFailed,
    /// Memory was refused: for what serves, for the start, or for the report of one more connection.
    NoMemory,
    /// A thread was refused, and no connection was asked for.
    NoThread,
    /// 2^64 - 1 steps were taken, so not each connection was served to its end.
    TooLong,
}

/// How serving ended, by why no more connections were asked for, and whether the listener failed.
pub fn served_of(end: End, failed: bool) -> Served
    ensures { result ≡ served_of end failed }
{
    match end {
        End::Given => given(failed),
        End::NoMemory => Served::NoMemory,
        End::NoThread => Served::NoThread,
    }
}

/// The same once the listener had no more.
fn given(failed: bool) -> Served
    ensures { result ≡ served_of End.Given failed }
{
    if failed {
        return Served::ListenerFailed;
    }
    Served::Each
}

/// How the server ended, by how the application was stopped. What went wrong with the connections comes first.
pub fn ending_of(served: Served, stop: Stop) -> Ending
    ensures { result ≡ ending_of served stop }
{
    match served {
        Served::Each => stopped(stop),
        Served::ListenerFailed => Ending::ListenerFailed,
        Served::NoMemory => Ending::NoMemory,
        Served::NoThread => Ending::NoThread,
        Served::TooLong => Ending::TooLong,
    }
}

/// The same if nothing went wrong with the connections.
fn stopped(stop: Stop) -> Ending
    ensures { result ≡ ending_of Served.Each stop }
{
    match stop {
        Stop::Stopped => Ending::Done,
        Stop::Failed(message) => Ending::ShutdownFailed(message),
        Stop::Idle(_) => Ending::NoShutdown,
    }
}

/// How a server ends that could not have its workers' threads.
pub fn without_stations(why: NoStation) -> Ending
    ensures { (result ≡ Ending.NoMemory) ⊎ (result ≡ Ending.NoThread) }
{
    match why {
        NoStation::NoMemory => Ending::NoMemory,
        NoStation::NoThread => Ending::NoThread,
    }
}
