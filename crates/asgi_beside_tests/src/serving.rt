//! A connection over a line in memory, and what becomes of it.
use asgi_apps::{AppTask, Application};
use asgi_conn::{Beside, Host, Line, Outcome, Runner, serve_connection};
use asgi_fakes::{Memory, Pieces, text_of};
use asgi_types::{Limits, State};
use std::io;

/// The outcome, the exchanges, the tasks that faulted, and the exchanges whose ends did not meet.
pub type End = (Outcome, u64, u64, u64);

/// Serves the line beside a thread, which is asked for if `asks` is true.
pub fn serve<H: Host, T: AppTask + Send + 'static, A: Application<Task = T>, L: Line>(
    rt: &H,
    limits: &Limits,
    app: &A,
    line: &mut L,
    asks: bool,
) -> io::Result<End> {
    let (mut runner, mut pause) = Beside::napping(*rt)?;
    if asks {
        let _ready = runner.ready();
    }
    let state = State::new(rt.alloc());
    let report = serve_connection(
        rt,
        limits,
        &None,
        &None,
        &state,
        app,
        line,
        &mut runner,
        &mut pause,
    );
    let unmet = runner.unmet();
    runner.end();
    Ok((report.outcome, report.exchanges, report.faults, unmet))
}

/// The same of a stream of pieces.
pub fn serve_pieces<H: Host, T: AppTask + Send + 'static, A: Application<Task = T>>(
    rt: &H,
    limits: &Limits,
    app: &A,
    line: &mut Memory<Pieces>,
    asks: bool,
) -> io::Result<End> {
    serve(rt, limits, app, line, asks)
}

/// Whether the text comes this many times and nothing else, as the answer on a line that ends like this.
pub fn is_answered<H: Host, T: AppTask + Send + 'static, A: Application<Task = T>>(
    rt: &H,
    limits: &Limits,
    app: &A,
    line: &mut Memory<Pieces>,
    wanted: (&[u8], usize, End),
) -> io::Result<bool> {
    let (text, times, end) = wanted;
    let ended = serve_pieces(rt, limits, app, line, true)?;
    Ok(ended == end && is_repeated(text_of(line), text, times))
}

/// Whether the bytes are this text, this many times.
pub fn is_repeated(bytes: &[u8], text: &[u8], times: usize) -> bool {
    let mut rest = bytes;
    for _time in 0..times {
        match rest.strip_prefix(text) {
            Some(after) => rest = after,
            None => return false,
        }
    }
    rest.is_empty()
}
