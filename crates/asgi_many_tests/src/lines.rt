//! The lines of rows, who comes with them, and what comes of one alone.
use asgi_apps::{AppTask, Application};
use asgi_conn::Host;
use asgi_fakes::{Memory, Pieces, Way, line_of, serve, text_of};
use asgi_many::{Newcomer, Report};
use asgi_types::{Chars, Limits, Peer};
use std::alloc::{AllocError, AllocGlobal, Global};
use std::io::{self, ErrorKind};

/// What tables hold here.
pub type Line = Memory<Pieces<'static>>;

/// The input, the most bytes of a read, and whether each read would block first.
pub type Input = (&'static [u8], usize, bool);

pub fn line<H: AllocGlobal>(rt: &H, input: &Input) -> Result<Line, AllocError> {
    let mut pieces = Pieces::new(input.0, input.1, input.1);
    if input.2 {
        pieces.before = Some(ErrorKind::WouldBlock);
    }
    line_of(rt, pieces)
}

fn peer(alloc: Global, port: u16) -> Result<Peer, AllocError> {
    let host = Chars::new(String::from_str(alloc, "192.0.2.1")?);
    Ok(Peer { host, port })
}

/// One that comes with this input, from this port.
pub fn newcomer<H: AllocGlobal>(
    rt: &H,
    input: &Input,
    port: u16,
) -> Result<Newcomer<Line>, AllocError> {
    let client = Some(peer(rt.alloc(), port)?);
    let line = line(rt, input)?;
    Ok(Newcomer {
        line,
        client,
        server: None,
    })
}

/// Those that come for these inputs, the last one first.
pub fn comers_of<H: AllocGlobal>(
    rt: &H,
    inputs: &[Input],
) -> Result<Vec<Newcomer<Line>>, AllocError> {
    let mut comers = Vec::new(rt.alloc());
    for input in inputs.iter().rev() {
        comers.push(newcomer(rt, input, 1_000)?)?;
    }
    Ok(comers)
}

/// The report and the pauses of this line served alone, if the same is written.
fn served_so<H: Host, T: AppTask + Send + 'static, A: Application<Task = T>>(
    rt: &H,
    app: &A,
    limits: &Limits,
    line: &mut Line,
    written: &[u8],
) -> io::Result<Option<(Report, u64)>> {
    let served = serve(rt, Way::Inline, limits, app, line)?;
    if text_of(line) != written {
        return Ok(None);
    }
    Ok(Some(served))
}

/// The report and the pauses of a connection with this input alone, if the same is written.
pub fn alone<H: Host, T: AppTask + Send + 'static, A: Application<Task = T>>(
    rt: &H,
    app: &A,
    limits: &Limits,
    input: &Input,
    written: &[u8],
) -> io::Result<Option<(Report, u64)>> {
    let mut one = line(rt, input)?;
    served_so(rt, app, limits, &mut one, written)
}
