//! A server of one connection at most, by how its application, its listener and its output do.
ghost use Rattle.std.specs.Prelude.{◌≡◌, Bool, []};

use asgi_apps::{AppFault, AppTask, Application, Life};
use asgi_command::serve_on;
use asgi_conn::Host;
use asgi_io::{Counted, History};
use asgi_pipes::AppEnd;
use asgi_server::{Accepts, Listener, Workers};
use asgi_types::{Limits, Peer, Scope};
use asgi_ws::{Pair, Wired};
use futures::task::{Context, Poll};
use std::alloc::Global;
use std::io::{self, ErrorKind, Write};
use std::test::Fail;

const OLD_GET: &[u8] = b"GET / HTTP/1.0\r\n\r\n";

/// An application whose task receives and sends nothing, and asks to be polled again.
#[derive(Clone, Copy, Debug)]
struct Silent;

#[derive(Drop)]
struct SilentTask;

impl Application for Silent {
    type Task = SilentTask;

    fn call(&self, _alloc: Global, _scope: &Scope) -> Result<SilentTask, AppFault> {
        Ok(SilentTask)
    }
}

impl AppTask for SilentTask {
    fn poll<E: AppEnd>(
        &mut self,
        cx: &mut Context<'_>,
        _end: &mut E,
    ) -> Poll<Result<(), AppFault>> {
        cx.yield_now()
    }

    ghost keeps = { λ _ _ _ _ _. tt };
}

type Memory = Wired<Pair<&'static [u8], Vec<u8>>>;

/// Gives one connection, and then none; a row may make it fail there.
#[derive(Drop)]
struct One {
    line: Option<Memory>,
    fails: bool,
    asked: u64,
    told: History<Option<(Memory, Option<Peer>, Option<Peer>)>>,
}

impl One {
    fn new(alloc: Global, fails: bool) -> Self {
        let pair = Pair {
            reader: OLD_GET,
            writer: Vec::new(alloc),
        };
        One {
            line: Some(Wired::new(alloc, pair)),
            fails,
            asked: 0,
            told: History::new(),
        }
    }
}

impl Listener for One {
    type L = Memory;

    ghost answers = { λ n. n.told.items };

    ghost asked = { λ _. [] };

    fn next(&mut self) -> Option<(Memory, Option<Peer>, Option<Peer>)> {
        self.asked = self.asked.saturating_add(1);
        let given = match self.line.take() {
            Some(line) => Some((line, None, None)),
            None => None,
        };
        self.told = History::with(&self.told, &given);
        given
    }
}

impl Accepts for One {
    ghost has_failed = { λ n. n.fails };

    fn failed(&self) -> bool {
        self.fails
    }
}

/// A writer that takes a set number of bytes.
#[derive(Drop)]
struct Room {
    written: Vec<u8>,
    left: usize,
}

impl Write for Room {
    fn write(&mut self, buf: &[u8]) -> io::Result<usize> {
        if buf.len() > self.left {
            return Err(io::Error::from(ErrorKind::WriteZero));
        }
        self.left -= buf.len();
        self.written.extend_from_slice(buf)?;
        Ok(buf.len())
    }

    fn flush(&mut self) -> io::Result<()> {
        Ok(())
    }
}

/// The status, how often a connection is asked for, what is written to the output, and to `errors`.
type End = (u8, u64, &'static [u8], &'static [u8]);

/// Whether a server of the one connection, with this many workers, whose listener may fail and whose output has this
/// much room, ends like this.
fn ends<H: Host + Sync, T: AppTask + Send + 'static, A: Application<Task = T> + Send + Sync>(
    rt: &H,
    limits: &Limits,
    workers: Workers,
    app: &A,
    fails: bool,
    left: usize,
    wanted: End,
) -> bool {
    let mut listener = One::new(rt.alloc(), fails);
    let written = Vec::new(rt.alloc());
    let mut output = Counted::new(Room { written, left });
    let mut errors = Counted::new(Vec::new(rt.alloc()));
    let status = serve_on(
        rt,
        limits,
        workers,
        app,
        &mut listener,
        &mut output,
        &mut errors,
    );
    let (wanted_status, asked, text, told) = wanted;
    status == wanted_status
        && listener.asked == asked
        && output.writer.written.as_slice() == text
        && errors.writer.as_slice() == told
}

const LINE: &[u8] = b"1 1 finished\n";

/// The application, whether the listener fails, the room of the output, and the end.
type Row = (Life, bool, usize, End);

const ROWS: &[Row] = &[
    (Life::Works, false, 100, (0, 2, LINE, b"")),
    (
        Life::NoStop,
        false,
        100,
        (4, 2, LINE, b"shutdown failed: still busy\n"),
    ),
    // a listener that failed, or a report that is not written, is reported however the application stopped
    (Life::Works, true, 100, (5, 2, LINE, b"device fault\n")),
    (Life::NoStop, true, 100, (5, 2, LINE, b"device fault\n")),
    (Life::Works, false, 12, (5, 2, b"", b"device fault\n")),
    (Life::NoStop, false, 12, (5, 2, b"", b"device fault\n")),
];

#[test]
fn the_end_is_that_of_the_stop_where_all_went_well(rt: HostRuntime) -> Result<(), Fail> {
    let limits = Limits::usual();
    for count in [1, 2, 8] {
        let workers = Workers::new(count).ok_or("refused")?;
        for (row, (life, fails, room, end)) in ROWS.iter().enumerate() {
            let well = ends(&rt, &limits, workers, life, *fails, *room, *end);
            assert!(rt; well, "row {row} by {count}");
        }
    }
    Ok(())
}

const UNANSWERED: End = (3, 0, b"", b"startup failed: no answer\n");

const REFUSED: End = (3, 0, b"", b"startup failed: no table\n");

#[test]
fn an_application_that_does_not_start_gets_no_connection(rt: HostRuntime) -> Result<(), Fail> {
    let few = Limits::new(16_384, 64, 1_048_576, 16_384, 16, 3, 1_000)?;
    let two = Workers::new(2).ok_or("refused")?;
    assert!(rt; ends(&rt, &few, two, &Silent, false, 100, UNANSWERED));
    assert!(rt; ends(&rt, &few, two, &Life::NoStart, false, 100, REFUSED));
    Ok(())
}
