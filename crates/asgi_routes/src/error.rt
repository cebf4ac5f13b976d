//! Why a route was not added.
use asgi_apps::AppFault;
use matchit::InsertError;
use std::alloc::AllocError;
use thiserror::Error;

/// Why a route was not added.
#[derive(Clone, Copy, Debug, PartialEq, Eq, Error)]
pub enum RouteError {
    /// A parameter of the pattern has no name or a bad one, or a brace is not closed.
    #[error("a parameter of the pattern has no name or a bad one, or a brace is not closed")]
    BadParameter,
    /// A segment of the pattern has more than one parameter.
    #[error("a segment of the pattern has more than one parameter")]
    TwoParameters,
    /// Something follows the catch-all parameter of the pattern.
    #[error("something follows the catch-all parameter of the pattern")]
    BadCatchAll,
    /// The pattern conflicts with another one of the table: the same paths could match both, and
    /// neither is the narrower. So do two that differ in the names of their parameters alone.
    #[error("the pattern conflicts with another one")]
    Conflict,
    /// The pattern has an endpoint for the method, or, in a table of rooms, a room.
    #[error("the pattern has an endpoint for the method, or a room")]
    Taken,
    /// Memory was refused.
    #[error(transparent)]
    NoMemory(#[from(alloc)] AllocError),
}

impl From<InsertError> for RouteError {
    ghost use Rattle.std.specs.Prelude.{◌≡◌};
    ghost use Rattle.asgi_routes.specs.Patterns.{why_of};

    ghost from_gives = { λ error why. why ≡ why_of error };

    fn from(error: InsertError) -> RouteError {
        match error {
            InsertError::Conflict { with: _ } => RouteError::Conflict,
            InsertError::InvalidParamSegment => RouteError::TwoParameters,
            InsertError::InvalidParam => RouteError::BadParameter,
            InsertError::InvalidCatchAll => RouteError::BadCatchAll,
            InsertError::OutOfMemory => RouteError::NoMemory(AllocError),
        }
    }
}

/// A route that was not added is a fault of the application's own, and want of memory stays that.
impl From<RouteError> for AppFault {
    ghost use Rattle.std.specs.Prelude.{◌≡◌};
    ghost use Rattle.asgi_routes.specs.Faults.{fault_of};

    ghost from_gives = { λ error fault. fault ≡ fault_of error };

    fn from(error: RouteError) -> AppFault {
        match error {
            RouteError::BadParameter => AppFault::Failed,
            RouteError::TwoParameters => AppFault::Failed,
            RouteError::BadCatchAll => AppFault::Failed,
            RouteError::Conflict => AppFault::Failed,
            RouteError::Taken => AppFault::Failed,
            RouteError::NoMemory(e) => AppFault::NoMemory(e),
        }
    }
}
