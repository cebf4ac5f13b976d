//! The time of a line, as text (RFC 3339, section 5.6).
ghost use Rattle.std.specs.Prelude.{◌≡◌, ◌<◌, ◌↔◌, pos, false, Some, IfSome, IsNone};
ghost use Rattle.std.specs.Duration.{as_nanos};
ghost use Rattle.jiff_fmt.specs.Printer.{options};
ghost use Rattle.asgi_log.specs.Moment.{IsDateTime, IsMoment};

use arrayvec::ArrayString;
use jiff_core::Timestamp;
use jiff_fmt::temporal::DateTimePrinter;
use std::time::{Clock, Duration};

/// How many digits of a fraction of a second are written: milliseconds.
const PLACES: u8 = 3;

/// A moment in UTC, as `2026-11-30T09:20:48.123Z`.
pub type Moment = ArrayString<33>;

/// The moment that is so long after 1970-01-01T00:00:00Z, with what is left of its last millisecond cut off; `None` from
/// 9999-12-30T22:00:01Z on.
pub fn moment_after(since_1970: Duration) -> Option<Moment>
    ensures moment { IfSome result (λ text. IsMoment (as_nanos since_1970) text.bytes) }
    ensures none { IsNone result ↔ (253_402_207_200_999_999_999 < as_nanos since_1970) }
{
    match Timestamp::from_nanosecond(nanos_of(since_1970)) {
        Ok(moment) => Some(text_of(moment)),
        Err(_) => None,
    }
}

/// How many nanoseconds it is long.
fn nanos_of(length: Duration) -> i128
    ensures { result ≡ pos (as_nanos length) }
{
    length.as_secs() as i128 * 1_000_000_000 + length.subsec_nanos() as i128
}

/// What is written of a moment: its milliseconds too.
fn printer() -> DateTimePrinter
    ensures { options result ≡ (false, 84, Some 3) }
{
    DateTimePrinter::new().precision(Some(PLACES))
}

/// The text of a moment.
fn text_of(moment: Timestamp) -> Moment
    ensures { IsDateTime moment.nanosecond result.bytes }
{
    printer().timestamp_text(moment)
}

/// The moment at which this is called, if the clock can be read.
pub fn moment_by<R: Clock>(rt: &R) -> Option<Moment> {
    let since_1970 = rt.since_1970().ok()?;
    moment_after(since_1970)
}
