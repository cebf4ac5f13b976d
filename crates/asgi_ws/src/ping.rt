//! Pings of the server.
ghost use Rattle.std.specs.Prelude.{◌≡◌};

use crate::line::Line;
use crate::messages::Put;

/// A line whose client can be asked whether it is still there.
pub trait Pings: Line {
    /// Sends a ping with no data, from `upgrade` on (RFC 6455, section 5.5.2). It is no message: the calls of the session stay as
    /// they are. The pong is one of the next reads, if one comes.
    fn ping(&mut self) -> Put
        ensures session { (Self.calls self.new ≡ Self.calls self.old) × (Self.coming self.new ≡ Self.coming self.old)
            × (Self.leftover self.new ≡ Self.leftover self.old) }
        ensures counts { Self.failed self.new ≡ Self.failed self.old }
        ensures text { (Self.remaining self.new ≡ Self.remaining self.old) × (Self.written self.new ≡ Self.written self.old)
            × (Self.Reads.answers self.new ≡ Self.Reads.answers self.old) × (Self.Counts.answers self.new ≡ Self.Counts.answers self.old) };
}
