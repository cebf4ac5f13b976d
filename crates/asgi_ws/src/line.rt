//! The line that carries the text of a connection, and then messages.
ghost use Rattle.std.specs.Prelude.{◌≡◌, ◌⊎◌, IsSome};
ghost use Rattle.asgi_ws.specs.Lines.{LineState, state_of};
ghost use Rattle.asgi_ws.specs.Sessions.{kept_by};

use crate::messages::Messages;

/// A connection: text both ways, and messages both ways after `upgrade`. The result of each read
/// and write is recorded, and failures are counted.
pub trait Line: Messages {
    // What is known of the line.
    ghost state: { Self → LineState };

    /// Switches the line to messages, which come from the leftover and then from what is read after
    /// it. The leftover are the bytes that were read after the head of the opening handshake. A
    /// second call changes nothing, and reads and writes of text fail from here on.
    fn upgrade(&mut self, leftover: Vec<u8>)
        ensures keeps { Self.leftover self.new ≡ kept_by (Self.leftover self.old) leftover.items }
        ensures again { IsSome (Self.leftover self.old) → self.new ≡ self.old }
        ensures session { (Self.calls self.new ≡ Self.calls self.old) × (Self.coming self.new ≡ Self.coming self.old) }
        ensures counts { Self.failed self.new ≡ Self.failed self.old }
        ensures text { (Self.remaining self.new ≡ Self.remaining self.old) × (Self.written self.new ≡ Self.written self.old)
            × (Self.Reads.answers self.new ≡ Self.Reads.answers self.old) × (Self.Counts.answers self.new ≡ Self.Counts.answers self.old) };

    ghost state_is: { (line : Self) → state line ≡ state_of Self.Reads Self.Counts Self.Messages.own line };

    // A write of text leaves what is still to be read, and a read what is written.
    ghost reads_stay: { (old new : Self) → Self.Counts.beside new ≡ Self.Counts.beside old
        → (Self.remaining new ≡ Self.remaining old) × (Self.Reads.answers new ≡ Self.Reads.answers old) };

    ghost writes_stay: { (old new : Self) → Self.Reads.beside new ≡ Self.Reads.beside old
        → (Self.written new ≡ Self.written old) × ((Self.failed new ≡ Self.failed old) × (Self.Counts.answers new ≡ Self.Counts.answers old)) };

    // Both leave the session.
    ghost session_stays: { (old new : Self) → (Self.Reads.beside new ≡ Self.Reads.beside old) ⊎ (Self.Counts.beside new ≡ Self.Counts.beside old)
        → (Self.calls new ≡ Self.calls old) × ((Self.coming new ≡ Self.coming old) × (Self.leftover new ≡ Self.leftover old)) };
}
