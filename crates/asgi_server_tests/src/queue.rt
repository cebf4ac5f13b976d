//! Connections in memory, and workers that serve them.
ghost use Rattle.std.specs.Prelude.{◌≡◌, [], vec_len};

use asgi_apps::{AppTask, Application};
use asgi_conn::{Host, Line, Outcome, Report};
use asgi_fakes::texts::SERVER_ERROR;
use asgi_io::History;
use asgi_server::{
    End as Why, Engine, Listener, Nobody, Shared, Teller, Workers, end_stations, serve_all,
    stations,
};
use asgi_types::{Limits, Peer, State};
use asgi_ws::{Pair, Wired};
use std::alloc::{AllocError, Global};
use std::mem;

/// A connection in memory, whose output outlives it.
pub type InMemory<'a> = Wired<Pair<&'a [u8], &'a mut Vec<u8>>>;

/// Gives a connection for each of these outputs, with these inputs in turn, and then none.
#[derive(Drop)]
pub struct Feed<'a> {
    alloc: Global,
    inputs: &'a [&'a [u8]],
    given: usize,
    outputs: &'a mut [Vec<u8>],
    told: History<Option<(InMemory<'a>, Option<Peer>, Option<Peer>)>>,
}

impl<'a> Feed<'a> {
    /// None was given yet.
    pub fn new(alloc: Global, inputs: &'a [&'a [u8]], outputs: &'a mut [Vec<u8>]) -> Self {
        Feed {
            alloc,
            inputs,
            given: 0,
            outputs,
            told: History::new(),
        }
    }

    fn pop(&mut self) -> Option<InMemory<'a>>
        ensures { self.new.told ≡ self.old.told }
    {
        let at = self.given.checked_rem(self.inputs.len())?;
        let reader = *self.inputs.get(at)?;
        let (writer, rest) = mem::take(&mut self.outputs).split_first_mut()?;
        self.outputs = rest;
        self.given = self.given.saturating_add(1);
        Some(Wired::new(self.alloc, Pair { reader, writer }))
    }
}

impl<'a> Listener for Feed<'a> {
    type L = InMemory<'a>;

    ghost answers = { λ f. f.told.items };

    ghost asked = { λ _. [] };

    fn next(&mut self) -> Option<(InMemory<'a>, Option<Peer>, Option<Peer>)> {
        let given = match self.pop() {
            Some(line) => Some((line, None, None)),
            None => None,
        };
        self.told = History::with(&self.told, &given);
        given
    }
}

/// How a connection is to end: its outcome, and its exchanges.
pub type End = (Outcome, u64);

/// Whether the reports are numbered from 1, in order, and end like this.
pub fn is_reported(reports: &[(u64, Report)], ends: &[End]) -> bool {
    let mut at = 0;
    for (number, report) in reports {
        let Some((outcome, exchanges)) = ends.get(at) else {
            return false;
        };
        at += 1;
        if *number != at as u64 || report.outcome != *outcome || report.exchanges != *exchanges {
            return false;
        }
    }
    at == ends.len()
}

/// Keeps the reports that it gets, unless memory for one is refused.
#[derive(Drop)]
struct Kept {
    reports: Vec<(u64, Report)>,
    lacks: bool,
}

impl Teller<Report> for Kept {
    ghost tells = { λ _ _ _ _. Unit {0} };

    fn tell(&mut self, number: u64, report: &Report) {
        if self.reports.push((number, *report)).is_err() {
            self.lacks = true;
        }
    }
}

/// Serves what the listener gives, with this state, by this many workers, each with a thread for its tasks.
pub fn serve<
    H: Host + Sync,
    T: AppTask + Send + 'static,
    A: Application<Task = T> + Send + Sync,
    L: Line + Drop + Send,
    N: Listener<L = L> + Send,
>(
    rt: &H,
    app: &A,
    state: &State,
    listener: &mut N,
    limits: &Limits,
    workers: Workers,
) -> Result<Vec<(u64, Report)>, AllocError> {
    let Ok(list) = stations::<T, A, H>(*rt, workers) else {
        return Err(AllocError);
    };
    serve_with(rt, app, state, listener, limits, workers, list)
}

/// The same by these engines.
fn serve_with<
    H: Host + Sync,
    A: Send + Sync,
    L: Line + Drop + Send,
    N: Listener<L = L> + Send,
    G: Engine<A> + Drop + Send,
>(
    rt: &H,
    app: &A,
    state: &State,
    listener: &mut N,
    limits: &Limits,
    workers: Workers,
    list: Vec<G>,
) -> Result<Vec<(u64, Report)>, AllocError>
    requires { vec_len list ≡ workers.count }
{
    let kept = Kept {
        reports: Vec::new(rt.alloc()),
        lacks: false,
    };
    let Shared {
        reports: _reports,
        workers: list,
        teller: kept,
        end,
    } = serve_all(
        rt, limits, state, app, &Nobody, listener, workers, list, kept,
    );
    end_stations::<A, G>(list);
    let Kept { reports, lacks } = kept;
    if end == Why::Given && !lacks {
        return Ok(reports);
    }
    Err(AllocError)
}

/// Serves a connection for each output, with these inputs in turn, by this many workers.
pub fn serve_feed<
    H: Host + Sync,
    T: AppTask + Send + 'static,
    A: Application<Task = T> + Send + Sync,
>(
    rt: &H,
    app: &A,
    state: &State,
    inputs: &[&[u8]],
    outputs: &mut [Vec<u8>],
    limits: &Limits,
    workers: u64,
) -> Result<Vec<(u64, Report)>, AllocError> {
    let Some(workers) = Workers::new(workers) else {
        return Err(AllocError);
    };
    let mut feed = Feed::new(rt.alloc(), inputs, outputs);
    let reports = serve(rt, app, state, &mut feed, limits, workers);
    drop(feed);
    reports
}

/// Whether two connections with these inputs end like this, and have these outputs, by one worker and by two.
pub fn is_served<
    H: Host + Sync,
    T: AppTask + Send + 'static,
    A: Application<Task = T> + Send + Sync,
>(
    rt: &H,
    app: &A,
    state: &State,
    inputs: [&[u8]; 2],
    outputs: [&[u8]; 2],
    ends: &[End],
) -> Result<bool, AllocError> {
    let limits = Limits::usual();
    for workers in [1, 2] {
        let mut texts = [Vec::new(rt.alloc()), Vec::new(rt.alloc())];
        let reports = serve_feed(rt, app, state, &inputs, &mut texts, &limits, workers)?;
        if !is_reported(&reports, ends)
            || texts[0].as_slice() != outputs[0]
            || texts[1].as_slice() != outputs[1]
        {
            return Ok(false);
        }
    }
    Ok(true)
}

/// Whether two connections with this input are served by this many workers, or not begun or ended for want of memory or
/// of a thread, and get the output or a beginning of it, or the response that the application failed.
pub fn is_begun<
    H: Host + Sync,
    T: AppTask + Send + 'static,
    A: Application<Task = T> + Send + Sync,
>(rt: &H, app: &A, state: &State, input: &[u8], output: &[u8], workers: u64) -> bool {
    let mut texts = [Vec::new(rt.alloc()), Vec::new(rt.alloc())];
    let well = match serve_feed(
        rt,
        app,
        state,
        &[input],
        &mut texts,
        &Limits::usual(),
        workers,
    ) {
        Ok(reports) => reports.len() == 2 && are_whole_or_lack_memory(&reports),
        Err(_lacks) => true,
    };
    well && is_lawful(&texts[0], output) && is_lawful(&texts[1], output)
}

/// Whether this may be written if memory is refused somewhere.
fn is_lawful(written: &[u8], output: &[u8]) -> bool {
    output.starts_with(written) || written == SERVER_ERROR
}

/// Whether each connection was served to its end, or lacked memory for what was read or written.
fn are_whole_or_lack_memory(reports: &[(u64, Report)]) -> bool {
    for (_number, report) in reports {
        match report.outcome {
            Outcome::Finished | Outcome::NoMemory | Outcome::WriteFailed(_) => {}
            Outcome::Refused(500) => {}
            Outcome::Refused(_) | Outcome::InputBroke | Outcome::Idle | Outcome::NoThread => {
                return false;
            }
        }
    }
    true
}
