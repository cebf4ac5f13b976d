//! Whether a server asks for more connections.
ghost use Rattle.std.specs.Prelude.{◌≡◌, ◌≢◌, ◌⊎◌, ◌-◌, ◌^◌, IsFalse, IsTrue};
ghost use Rattle.asgi_many.specs.declared.intake.Intake.TheVariants.{Asks, Closed};
ghost use Rattle.asgi_many.specs.Moves.{asks_again};
ghost use Rattle.asgi_many.specs.Standing.{IsFull};

use crate::table::Table;
use asgi_ws::Line;

/// Whether a server asks for more connections.
#[derive(Clone, Copy, Debug, PartialEq, Eq)]
pub(crate) enum Intake {
    /// One may be there.
    Asks,
    /// None was there, and none has arrived since.
    Waits,
    /// None will come any more.
    Closed,
}

impl Intake {
    /// Whether the next connection is asked for: one may be there, and this table has a seat for it.
    pub(crate) fn asks_for<X, L: Line>(self, table: &Table<X, L>) -> bool
        ensures yes { IsTrue result → (self ≡ Asks) × ¬ (IsFull table.now) × ¬ (table.now.came ≡ 2 ^ 64 - 1) }
        ensures no { IsFalse result → (self ≢ Asks) ⊎ IsFull table.now ⊎ (table.now.came ≡ 2 ^ 64 - 1) }
    {
        match self {
            Intake::Asks => table.has_seat(),
            Intake::Waits => false,
            Intake::Closed => false,
        }
    }

    /// Whether none will come any more.
    pub(crate) fn is_closed(self) -> bool
        ensures yes { IsTrue result → self ≡ Closed }
    {
        match self {
            Intake::Asks => false,
            Intake::Waits => false,
            Intake::Closed => true,
        }
    }

    /// The same once a connection may have arrived.
    pub(crate) fn told_of_arrivals(self) -> Intake
        ensures { result ≡ asks_again self }
    {
        match self {
            Intake::Asks => Intake::Asks,
            Intake::Waits => Intake::Asks,
            Intake::Closed => Intake::Closed,
        }
    }
}
