//! Texts on standard output and standard error.
ghost use Rattle.std.specs.Prelude.{◌≡◌, ◌++◌, codes};
ghost use Rattle.asgi_command.specs.Telling as telling;
ghost use Rattle.asgi_command.specs.Telling.{Tells, Puts, writer};

use asgi_io::{Counts, Wrote, write_out};

const DEVICE_FAULT: &[u8] = b"device fault\n";

const LINE_FEED: &[u8] = b"\n";

/// Writes the text, and returns whether all of it went out.
pub fn put<W: Counts>(text: &[u8], output: &mut W) -> bool
    ensures { Puts text.now
        (writer W.Counts output.old)
        (writer W.Counts output.new) result }
{
    write_out(output, text) == Wrote::Done
}

/// Writes that the system can't give what the program needs, and returns the status for that.
pub fn device_fault<E: Counts>(errors: &mut E) -> u8
    ensures status { result ≡ 5 }
    ensures tells { Tells telling.device_fault
        (writer E.Counts errors.old)
        (writer E.Counts errors.new) }
{
    tell(DEVICE_FAULT, errors);
    5
}

/// Writes what failed, and why, in a line.
pub fn tell_failure<E: Counts>(what: &[u8], why: &[u8], errors: &mut E)
    ensures { Tells (what.now ++ why.now ++ codes "\n")
        (writer E.Counts errors.old)
        (writer E.Counts errors.new) }
{
    if !put(what, errors) {
        return;
    }
    if !put(why, errors) {
        return;
    }
    put(LINE_FEED, errors);
}

/// Writes a text, as far as the writer takes it: what is not written does not change the status.
pub fn tell<E: Counts>(text: &[u8], errors: &mut E)
    ensures { Tells text.now
        (writer E.Counts errors.old)
        (writer E.Counts errors.new) }
{
    let _ = write_out(errors, text);
}
