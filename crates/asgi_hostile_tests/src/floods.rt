//! Applications that send very much: 10,000 events, each as soon as there is a place for it, and one of 64 MiB. Each is
//! served with both runners.
use asgi_apps::{AppFault, AppTask, Application};
use asgi_conn::{Host, Outcome};
use asgi_fakes::texts::{GET, LAST_CHUNK, PLAIN_HEAD};
use asgi_fakes::{Memory, Pieces, Way, line_of, serve, text_of};
use asgi_pipes::{AppEnd, Sent};
use asgi_types::{Headers, Limits, Octets, Outgoing, Scope};
use futures::task::{Context, Poll};
use std::alloc::{AllocError, Global};
use std::io;
use std::test::Fail;

/// Answers with so many events, each of this block so many times.
#[derive(Clone, Copy)]
struct Floods {
    events: usize,
    block: &'static [u8],
    blocks: usize,
    /// The size of one event in hexadecimal, as a line.
    line: &'static [u8],
}

/// 10,000 events of 16 bytes.
const MANY: Floods = Floods {
    events: 10_000,
    block: b"0123456789abcdef",
    blocks: 1,
    line: b"10\r\n",
};

/// One event of 64 MiB.
const GREAT: Floods = Floods {
    events: 1,
    block: &[b'a'; 1_024],
    blocks: 65_536,
    line: b"4000000\r\n",
};

/// Adds the content of one event.
fn add_content(text: &mut Vec<u8>, floods: Floods) -> Result<(), AllocError> {
    for _block in 0..floods.blocks {
        text.extend_from_slice(floods.block)?;
    }
    Ok(())
}

fn body(alloc: Global, floods: Floods) -> Result<Outgoing, AllocError> {
    let mut text = Vec::new(alloc);
    add_content(&mut text, floods)?;
    Ok(Outgoing::ResponseBody {
        body: Octets::new(text),
        more_body: true,
    })
}

fn last_body(alloc: Global) -> Outgoing {
    Outgoing::ResponseBody {
        body: Octets::new(Vec::new(alloc)),
        more_body: false,
    }
}

fn start(alloc: Global) -> Outgoing {
    Outgoing::ResponseStart {
        status: 200,
        headers: Headers::new(alloc),
        trailers: false,
    }
}

#[derive(Drop)]
struct FloodsTask {
    alloc: Global,
    floods: Floods,
    has_started: bool,
    /// How many events are left to send, without the start and the last one.
    left: usize,
}

impl Application for Floods {
    type Task = FloodsTask;

    fn call(&self, alloc: Global, _scope: &Scope) -> Result<FloodsTask, AppFault> {
        Ok(FloodsTask {
            alloc,
            floods: *self,
            has_started: false,
            left: self.events,
        })
    }
}

impl FloodsTask {
    /// The event that comes next.
    fn next(&self) -> Result<Outgoing, AllocError> {
        if !self.has_started {
            return Ok(start(self.alloc));
        }
        if self.left == 0 {
            return Ok(last_body(self.alloc));
        }
        body(self.alloc, self.floods)
    }
}

impl AppTask for FloodsTask {
    fn poll<E: AppEnd>(&mut self, cx: &mut Context<'_>, end: &mut E) -> Poll<Result<(), AppFault>> {
        let event = match self.next() {
            Ok(event) => event,
            Err(e) => return Poll::Ready(Err(AppFault::NoMemory(e))),
        };
        match end.poll_send(cx, event) {
            Sent::Done => {
                self.left = self.left.saturating_sub(self.has_started as usize);
                self.has_started = true;
                cx.yield_now()
            }
            Sent::Full(_) => Poll::Pending,
            Sent::Ignored => Poll::Ready(Ok(())),
            Sent::Refused(_, _) => Poll::Ready(Err(AppFault::Failed)),
        }
    }

    ghost keeps = { λ _ _ _ _ _. tt };
}

/// The text of that (RFC 9112, 7.1).
fn text_due(alloc: Global, floods: Floods) -> Result<Vec<u8>, AllocError> {
    let mut text = Vec::from_slice(alloc, PLAIN_HEAD)?;
    for _event in 0..floods.events {
        text.extend_from_slice(floods.line)?;
        add_content(&mut text, floods)?;
        text.extend_from_slice(b"\r\n")?;
    }
    text.extend_from_slice(LAST_CHUNK)?;
    Ok(text)
}

/// Whether all of it is written, and the connection is finished.
fn is_written<H: Host>(rt: &H, way: Way, floods: &Floods, wanted: &[u8]) -> io::Result<bool> {
    let mut line = line_of(rt, Pieces::new(GET, 4_096, 4_096))?;
    is_line_written(rt, way, floods, &mut line, wanted)
}

fn is_line_written<H: Host>(
    rt: &H,
    way: Way,
    floods: &Floods,
    line: &mut Memory<Pieces>,
    wanted: &[u8],
) -> io::Result<bool> {
    let (report, _) = serve(rt, way, &Limits::usual(), floods, line)?;
    Ok(matches!(report.outcome, Outcome::Finished) && text_of(line) == wanted)
}

/// Whether that is so in either way.
fn are_written<H: Host>(rt: &H, floods: &Floods) -> io::Result<bool> {
    let wanted = text_due(rt.alloc(), *floods)?;
    let inline = is_written(rt, Way::Inline, floods, &wanted)?;
    Ok(inline && is_written(rt, Way::Beside, floods, &wanted)?)
}

#[test]
fn ten_thousand_events_are_written(rt: HostRuntime) -> Result<(), Fail> {
    let is_so = are_written(&rt, &MANY)?;
    assert!(rt; is_so);
    Ok(())
}

#[test]
fn an_event_of_64_mib_is_written(rt: HostRuntime) -> Result<(), Fail> {
    let is_so = are_written(&rt, &GREAT)?;
    assert!(rt; is_so);
    Ok(())
}
