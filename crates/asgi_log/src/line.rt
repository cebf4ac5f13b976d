//! The text of one line.
ghost use Rattle.std.specs.Prelude.{◌≡◌, ◌++◌, Option, Some, IfOk, IfSome, codes, string_bytes};
ghost use Rattle.std.specs.Option.{option_map};
ghost use Rattle.log.specs.Line.{record_line};
ghost use Rattle.asgi_log.specs.Lines.{log_line};

use log::kv::Source;
use log::span::Spans;
use log::{Level, Line, Metadata, Record};
use std::alloc::{AllocError, Global};
use std::fmt::Display;

/// Where a count of lost lines comes from.
const HERE: &str = "asgi_log";

/// The line of a record, with its moment, if there is one, and a line break. `AllocError` if memory is refused.
pub fn line_of<D: Display, K: Source, S: Spans>(
    alloc: Global,
    moment: Option<&str>,
    record: &Record<'_, D, K, S>,
) -> Result<String, AllocError>
    ensures { IfOk result (λ line. IfSome (record_line D.output K.pairs S.scopes «record».now)
        (λ text. string_bytes line ≡ log_line (option_map (λ m. m.now) moment.entry) text)) }
{
    match moment {
        Some(moment) => line_at(alloc, moment, record),
        None => said(alloc, record),
    }
}

/// The same of a record with a moment.
fn line_at<D: Display, K: Source, S: Spans>(
    alloc: Global,
    moment: &str,
    record: &Record<'_, D, K, S>,
) -> Result<String, AllocError>
    ensures { IfOk result (λ line. IfSome (record_line D.output K.pairs S.scopes «record».now)
        (λ text. string_bytes line ≡ log_line (Some moment.now) text)) }
{
    let text = said(alloc, record)?;
    let line = after(alloc, moment, text.as_str())?;
    Ok(line)
}

/// What the record says, and a line break.
fn said<D: Display, K: Source, S: Spans>(
    alloc: Global,
    record: &Record<'_, D, K, S>,
) -> Result<String, AllocError>
    ensures { IfOk result (λ line. IfSome (record_line D.output K.pairs S.scopes «record».now) (λ text. string_bytes line ≡ text ++ codes "\n")) }
{
    String::format(alloc, format_args!("{}\n", Line::new(record)))
}

/// The moment, a blank, and then the text.
fn after(alloc: Global, moment: &str, text: &str) -> Result<String, AllocError>
    ensures { IfOk result (λ line. string_bytes line ≡ moment.now ++ (codes " " ++ text.now)) }
{
    let mut line = String::from_str(alloc, moment)?;
    line.push_str(" ")?;
    line.push_str(text)?;
    Ok(line)
}

/// The line that tells how many lines were lost. `AllocError` if memory is refused.
pub fn lost_line(alloc: Global, moment: Option<&str>, lost: u64) -> Result<String, AllocError> {
    let metadata = Metadata::new(Level::Warn, HERE);
    if lost == 1 {
        return line_of(
            alloc,
            moment,
            &Record::new(metadata, "1 line of the log was lost", (), ()),
        );
    }
    let text = format_args!("{lost} lines of the log were lost");
    line_of(alloc, moment, &Record::new(metadata, text, (), ()))
}
