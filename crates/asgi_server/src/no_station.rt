//! Why the workers have nothing to serve with.
ghost use Rattle.std.specs.Prelude.{◌≡◌};
ghost use Rattle.asgi_server.specs.declared.no_station.NoStation.TheVariants.{NoMemory};

use std::alloc::AllocError;

/// Why there are no stations.
#[derive(Clone, Copy, Debug, PartialEq, Eq)]
pub enum NoStation {
    /// Memory was refused.
    NoMemory,
    /// A thread was refused, or memory for it.
    NoThread,
}

impl From<AllocError> for NoStation {
    ghost from_gives = { λ why found. found ≡ NoMemory };

    fn from(_: AllocError) -> NoStation {
        NoStation::NoMemory
    }
}
