//! A connection over a line, served by the application of a row.
use crate::apps::{Heard, Listens, Refuses, Scripted, Step};
use asgi_apps::{Hello, WsEcho};
use asgi_conn::{Host, Line, Report};
use asgi_fakes::{End, Memory, Pieces, Way, serve};
use asgi_types::Limits;
use asgi_ws::Script;
use std::io;

/// The application of a row.
#[derive(Clone, Copy)]
pub enum App {
    Hello,
    WsEcho,
    Refuses,
    Scripted(&'static [Step]),
    Listens(&'static [Heard]),
}

/// Serves one connection by the application of a row, and returns the report and the pauses made.
pub fn serve_by<H: Host, L: Line>(
    rt: &H,
    way: Way,
    limits: &Limits,
    app: App,
    line: &mut L,
) -> io::Result<(Report, u64)> {
    match app {
        App::Hello => serve(rt, way, limits, &Hello, line),
        App::WsEcho => serve(rt, way, limits, &WsEcho, line),
        App::Refuses => serve(rt, way, limits, &Refuses, line),
        App::Scripted(steps) => serve(rt, way, limits, &Scripted(steps), line),
        App::Listens(events) => serve(rt, way, limits, &Listens(events), line),
    }
}

pub fn end_of(report: &Report) -> End {
    (report.outcome, report.exchanges, report.faults)
}

// Tests call these two, which name the line: so only here a proof reads what the line is known to keep.

/// Serves a line in memory, and returns how it ended, and the idle turns at the end.
pub fn serve_script<H: Host>(
    rt: &H,
    way: Way,
    limits: &Limits,
    app: App,
    line: &mut Script,
) -> io::Result<(End, u32)> {
    let (report, _) = serve_by(rt, way, limits, app, line)?;
    Ok((end_of(&report), report.idle))
}

/// Serves a stream of these pieces under the usual limits, and returns how it ended.
pub fn serve_pieces<H: Host>(
    rt: &H,
    way: Way,
    app: App,
    line: &mut Memory<Pieces>,
) -> io::Result<End> {
    let (report, _) = serve_by(rt, way, &Limits::usual(), app, line)?;
    Ok(end_of(&report))
}
