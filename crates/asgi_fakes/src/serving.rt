//! A connection over a line, served by the application of a row.
use crate::apps::{Refuses, Said, Scripted, Sends, Step, Targets};
use crate::lines::{Memory, line_of, text_of};
use asgi_apps::{AppTask, Application, Echo, Hello, NotFound};
use asgi_conn::{Beside, Host, Inline, Line, Outcome, Report, Runner, serve_connection};
use asgi_io::{CountingPause, Pause};
use asgi_types::{Limits, State};
use futures::task::{Doorbell, Solo};
use std::io::{self, Read};

/// Where the tasks of a connection run.
#[derive(Clone, Copy, Debug, PartialEq, Eq)]
pub enum Way {
    /// In the thread that serves it.
    Inline,
    /// In a thread of their own.
    Beside,
}

/// Serves one connection with no client, no server and an empty state, and returns the report and the pauses made.
pub fn serve<H: Host, T: AppTask + Send + 'static, A: Application<Task = T>, L: Line>(
    rt: &H,
    way: Way,
    limits: &Limits,
    app: &A,
    line: &mut L,
) -> io::Result<(Report, u64)> {
    if way == Way::Beside {
        return serve_beside(rt, limits, app, line);
    }
    let solo = Solo::new(rt, Doorbell::spinning())?;
    let mut runner = Inline::new(solo.begin());
    let mut pause = CountingPause::new();
    let report = serve_by_runner(rt, limits, app, line, &mut runner, &mut pause);
    runner.end();
    Ok((report, pause.paused()))
}

fn serve_beside<H: Host, T: AppTask + Send + 'static, A: Application<Task = T>, L: Line>(
    rt: &H,
    limits: &Limits,
    app: &A,
    line: &mut L,
) -> io::Result<(Report, u64)> {
    let (mut runner, mut pause) = Beside::napping(*rt)?;
    let _ready = runner.ready();
    let report = serve_by_runner(rt, limits, app, line, &mut runner, &mut pause);
    runner.end();
    Ok((report, pause.paused()))
}

fn serve_by_runner<H: Host, A: Application, L: Line, U: Runner<A::Task>, P: Pause>(
    rt: &H,
    limits: &Limits,
    app: &A,
    line: &mut L,
    runner: &mut U,
    pause: &mut P,
) -> Report {
    let state = State::new(rt.alloc());
    serve_connection(rt, limits, &None, &None, &state, app, line, runner, pause)
}

/// The application of a row.
#[derive(Clone, Copy)]
pub enum App {
    Hello,
    Echo,
    NotFound,
    Targets,
    Refuses,
    Scripted(&'static [Step]),
    Sends(&'static [Said]),
}

/// Serves one connection by the application of a row.
pub fn serve_by<H: Host, L: Line>(
    rt: &H,
    way: Way,
    limits: &Limits,
    app: App,
    line: &mut L,
) -> io::Result<(Report, u64)> {
    match app {
        App::Hello => serve(rt, way, limits, &Hello, line),
        App::Echo => serve(rt, way, limits, &Echo, line),
        App::NotFound => serve(rt, way, limits, &NotFound, line),
        App::Targets => serve(rt, way, limits, &Targets, line),
        App::Refuses => serve(rt, way, limits, &Refuses, line),
        App::Scripted(steps) => serve(rt, way, limits, &Scripted(steps), line),
        App::Sends(said) => serve(rt, way, limits, &Sends(said), line),
    }
}

/// The outcome, the exchanges and the tasks that faulted.
pub type End = (Outcome, u64, u64);

/// Whether a connection over this reader ends like this, with this text written, in either way.
pub fn is_served<H: Host, R: Read + Copy + Drop>(
    rt: &H,
    limits: &Limits,
    app: App,
    reader: R,
    wanted: &[u8],
    end: End,
) -> io::Result<bool> {
    let inline = is_served_so(rt, Way::Inline, limits, app, reader, wanted, end)?;
    Ok(inline && is_served_so(rt, Way::Beside, limits, app, reader, wanted, end)?)
}

/// The same in one way.
pub fn is_served_so<H: Host, R: Read + Drop>(
    rt: &H,
    way: Way,
    limits: &Limits,
    app: App,
    reader: R,
    wanted: &[u8],
    end: End,
) -> io::Result<bool> {
    let mut line = line_of(rt, reader)?;
    is_line_served(rt, way, limits, app, &mut line, wanted, end)
}

fn is_line_served<H: Host, R: Read + Drop>(
    rt: &H,
    way: Way,
    limits: &Limits,
    app: App,
    line: &mut Memory<R>,
    wanted: &[u8],
    end: End,
) -> io::Result<bool> {
    let (report, _) = serve_by(rt, way, limits, app, line)?;
    let ended = (report.outcome, report.exchanges, report.faults);
    Ok(ended == end && text_of(line) == wanted)
}
