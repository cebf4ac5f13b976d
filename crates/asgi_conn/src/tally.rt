//! The counts of a connection.
ghost use Rattle.std.specs.Prelude.{◌≡◌, ◌+◌, ◌≤◌, ◌^◌, Some};
ghost use Rattle.asgi_conversation.specs.Exchanges.{fault_of};

use asgi_io::Turns;
use asgi_types::EndKind;

/// The counts of a connection.
#[derive(Clone, Copy, Debug, PartialEq, Eq)]
pub struct Tally {
    /// Exchanges that were run.
    pub exchanges: u64,
    /// Those of them whose task faulted.
    pub faults: u64,
    /// Turns of the connection, and their limits.
    pub turns: Turns,
    pub ghost in_exchanges: { faults ≤ exchanges },
}

impl Tally {
    /// Counts an exchange whose task ended with this kind.
    pub fn count(&mut self, kind: EndKind)
        requires { self.old.exchanges ≤ 2 ^ 48 }
        ensures exchanges { self.new.exchanges ≡ self.old.exchanges + 1 }
        ensures faults { self.new.faults ≡ self.old.faults + fault_of (Some kind) }
        ensures turns { self.new.turns ≡ self.old.turns }
    {
        self.exchanges += 1;
        if let EndKind::Faulted = kind {
            self.faults += 1;
        }
    }
}
