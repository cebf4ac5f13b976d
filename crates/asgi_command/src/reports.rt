//! The lines that report how connections ended.
ghost use Rattle.std.specs.Prelude.{◌≡◌};
ghost use Rattle.asgi_command.specs.Telling.{PutsNext, report_line, writer};

use crate::telling::put;
use arrayvec::ArrayString;
use asgi_conn::Report;
use asgi_io::Counts;
use asgi_server::Teller;
use itoa::Buffer;

/// Writes a line for each report.
#[derive(Drop)]
pub struct Printer<'a, W> {
    pub output: &'a mut W,
    /// Whether each line so far was written whole.
    pub told: bool,
}

impl<'a, W: Counts> Teller<Report> for Printer<'a, W> {
    ghost use Rattle.std.specs.Prelude.{◌≡◌};
    ghost use Rattle.asgi_command.specs.Telling.{PutsNext, report_line, writer};

    ghost tells = { λ was is number report. (is.output.ghost_name ≡ was.output.ghost_name)
        × PutsNext was.told (report_line (number, report))
        (writer W.Counts was.output.now)
        (writer W.Counts is.output.now) is.told };

    fn tell(&mut self, number: u64, report: &Report) {
        self.told = print_next(self.told, number, report, &mut *self.output);
    }
}

/// Writes the line of a report, if all lines before it were written whole: the number of the connection,
/// the number of its exchanges, and the words of its outcome. Returns whether this one was, too.
fn print_next<W: Counts>(told: bool, number: u64, report: &Report, output: &mut W) -> bool
    ensures { PutsNext told (report_line (number, report.now))
        (writer W.Counts output.old)
        (writer W.Counts output.new) result }
{
    told && put(line_of(number, report).as_bytes(), output)
}

/// The line of a report.
fn line_of(number: u64, report: &Report) -> ArrayString<96>
    ensures { result.bytes ≡ report_line (number, report.now) }
{
    let mut line = ArrayString::new();
    let mut digits = Buffer::new();
    line.push_str(digits.format(number));
    line.push_str(" ");
    line.push_str(digits.format(report.exchanges));
    line.push_str(" ");
    line.push_str(report.outcome.words().as_str());
    line.push_str("\n");
    line
}
