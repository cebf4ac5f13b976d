//! The program on its words, over lines in memory and a port that no connection comes from.
ghost use Rattle.std.specs.Prelude.{false};

use asgi_command::{Listens, command, without_words};
use asgi_conn::{Host, Line};
use asgi_io::{Counted, Counts, History};
use asgi_server::{Accepts, Listener};
use asgi_types::Peer;
use asgi_ws::{Pair, Wired};
use std::alloc::Global;
use std::io::{self, ErrorKind, Read, Write};
use std::test::Fail;

const REQUEST: &[u8] = b"GET / HTTP/1.1\r\nHost: a\r\n\r\n";

const GREETING: &[u8] =
    b"HTTP/1.1 200 OK\r\ncontent-type: text/plain\r\ntransfer-encoding: chunked\r\n\r\n6\r\nhello\n\r\n0\r\n\r\n";

const ECHO: &[u8] =
    b"HTTP/1.1 200 OK\r\ncontent-type: application/octet-stream\r\ntransfer-encoding: chunked\r\n\r\n0\r\n\r\n";

const NOT_FOUND: &[u8] = b"HTTP/1.1 404 Not Found\r\ncontent-length: 0\r\n\r\n";

/// What `life` answers if the state has no number.
const NO_NUMBER: &[u8] =
    b"HTTP/1.1 200 OK\r\ncontent-type: text/plain\r\ntransfer-encoding: chunked\r\n\r\n4\r\nn=?\n\r\n0\r\n\r\n";

const USAGE_TEXT: &[u8] = b"usage: asgi_demo once APP | asgi_demo serve PORT COUNT APP [WORKERS]\n";

fn words(alloc: Global, texts: &[&str]) -> Result<Vec<String>, Fail> {
    let mut words = Vec::new(alloc);
    for text in texts {
        words.push(String::from_str(alloc, text)?)?;
    }
    Ok(words)
}

type Memory<'a> = Wired<Pair<&'a [u8], Vec<u8>>>;

fn line_of<'a>(alloc: Global, input: &'a [u8]) -> Memory<'a> {
    line_between(alloc, input, Vec::new(alloc))
}

fn line_between<R, W>(alloc: Global, reader: R, writer: W) -> Wired<Pair<R, W>> {
    Wired::new(alloc, Pair { reader, writer })
}

/// What was written to the line.
fn text_of<'a>(line: &'a Memory) -> &'a [u8] {
    match line.stream() {
        Some(pair) => pair.writer.as_slice(),
        None => &[],
    }
}

fn has_written(line: &Memory, text: &[u8]) -> bool {
    text_of(line) == text
}

/// How many bytes of the line are still to be read.
fn left_in(line: &Memory) -> usize {
    match line.stream() {
        Some(pair) => pair.reader.len(),
        None => 0,
    }
}

/// A listener that no connection comes from.
#[derive(Drop)]
struct Nowhere {
    asked: History<(u16, u64)>,
    told: History<Option<(Memory<'static>, Option<Peer>, Option<Peer>)>>,
}

impl Listener for Nowhere {
    type L = Memory<'static>;

    ghost answers = { λ n. n.told.items };

    ghost asked = { λ n. n.asked.items };

    fn next(&mut self) -> Option<(Memory<'static>, Option<Peer>, Option<Peer>)> {
        let given = None;
        self.told = History::with(&self.told, &given);
        given
    }
}

impl Accepts for Nowhere {
    ghost has_failed = { λ _. false };

    fn failed(&self) -> bool {
        false
    }
}

impl Listens for Nowhere {
    fn listen_on(&mut self, port: u16, count: u64) {
        self.asked = History::with(&self.asked, &(port, count));
    }
}

/// Runs the program with a port that no connection comes from.
fn run<H: Host + Sync, L: Line, E: Counts>(
    rt: &H,
    words: &[String],
    line: &mut L,
    errors: &mut E,
) -> u8 {
    let mut nowhere = Nowhere {
        asked: History::new(),
        told: History::new(),
    };
    let mut output = Counted::new(Vec::new(rt.alloc()));
    command(rt, words, line, &mut nowhere, &mut output, errors)
}

/// The words after the program's name, the input, the status, what is written to the line, and to `errors`.
type Row = (
    &'static [&'static str],
    &'static [u8],
    u8,
    &'static [u8],
    &'static [u8],
);

/// Whether the program does this on the words and the input of the row, and whether it left this many bytes of the
/// input, if that is asked.
fn is_row<H: Host + Sync>(rt: &H, row: &Row, left: Option<usize>) -> Result<bool, Fail> {
    let (texts, input, status, text, told) = *row;
    let words = words(rt.alloc(), texts)?;
    let mut line = line_of(rt.alloc(), input);
    let mut errors = Counted::new(Vec::new(rt.alloc()));
    let gave = run(rt, &words, &mut line, &mut errors);
    Ok(
        gave == status
            && has_written(&line, text)
            && errors.writer.as_slice() == told
            && (left.is_none() || left == Some(left_in(&line))),
    )
}

const ONCE: &[Row] = &[
    (&["once", "hello"], REQUEST, 0, GREETING, b""),
    (&["once", "echo"], REQUEST, 0, ECHO, b""),
    (&["once", "notfound"], REQUEST, 0, NOT_FOUND, b""),
    (&["once", "wsecho"], REQUEST, 0, NOT_FOUND, b""),
    (&["once", "mounts"], REQUEST, 0, NOT_FOUND, b""),
    (&["once", "life"], REQUEST, 0, NO_NUMBER, b""),
    (&["once", "nostart"], REQUEST, 0, NO_NUMBER, b""),
    (&["once", "nostop"], REQUEST, 0, NO_NUMBER, b""),
];

#[test]
fn once_answers_by_the_application_that_is_named(rt: HostRuntime) -> Result<(), Fail> {
    for (number, row) in ONCE.iter().enumerate() {
        assert!(rt; is_row(&rt, row, None)?, "row {number}");
    }
    Ok(())
}

/// After the example of RFC 6455, section 1.3, a masked text of "Hello" (section 5.7) and a close without a code.
const SESSION: &[u8] =
    b"GET /chat HTTP/1.1\r\nHost: server.example.com\r\nUpgrade: websocket\r\nConnection: Upgrade\r\n\
    Sec-WebSocket-Key: dGhlIHNhbXBsZSBub25jZQ==\r\nSec-WebSocket-Version: 13\r\n\r\n\
    \x81\x85\x37\xfa\x21\x3d\x7f\x9f\x4d\x51\x58\x88\x80\x37\xfa\x21\x3d";

const ACCEPTED: &[u8] =
    b"HTTP/1.1 101 Switching Protocols\r\nupgrade: websocket\r\nconnection: Upgrade\r\n\
    sec-websocket-accept: s3pPLMBiTxaQ9kYGzzhZRbK+xOo=\r\n\r\n\x81\x05Hello\x88\x00";

const DENIED: &[u8] = b"HTTP/1.1 403 Forbidden\r\ncontent-length: 0\r\nconnection: close\r\n\r\n";

const SESSIONS: &[Row] = &[
    (&["once", "wsecho"], SESSION, 0, ACCEPTED, b""),
    (&["once", "hello"], SESSION, 0, DENIED, b""),
];

#[test]
fn a_session_is_served_by_the_application_that_is_named(rt: HostRuntime) -> Result<(), Fail> {
    for (number, row) in SESSIONS.iter().enumerate() {
        assert!(rt; is_row(&rt, row, None)?, "row {number}");
    }
    Ok(())
}

const WRONG: &[&[&str]] = &[
    &[],
    &["once"],
    &["hello", "once"],
    &["once", "nothing"],
    &["once", "WsEcho"],
    &["Once", "hello"],
    &["once", "hello", "hello"],
    &["once", "notfound", ""],
    &["serve", "0", "1", "hello"],
    &["serve", "8000", "1", "hello", "0"],
    &["serve", "8000", "1", "hello", "9"],
    &["serve", "8000", "1", "hello", "two"],
    &["serve", "8000", "1", "hello", ""],
    &["serve", "8000", "1", "hello", "2", "2"],
];

#[test]
fn any_other_words_give_the_usage(rt: HostRuntime) -> Result<(), Fail> {
    for (number, texts) in WRONG.iter().enumerate() {
        let row: Row = (*texts, REQUEST, 2, b"", USAGE_TEXT);
        assert!(rt; is_row(&rt, &row, Some(REQUEST.len()))?, "row {number}");
    }
    Ok(())
}

/// A reader and writer that can do nothing.
#[derive(Drop)]
struct Stuck {
    kind: ErrorKind,
}

impl Read for Stuck {
    fn read(&mut self, _buf: &mut [u8]) -> io::Result<usize> {
        Err(io::Error::from(self.kind))
    }
}

impl Write for Stuck {
    fn write(&mut self, _buf: &[u8]) -> io::Result<usize> {
        Err(io::Error::from(self.kind))
    }

    fn flush(&mut self) -> io::Result<()> {
        Ok(())
    }
}

/// The status of `once hello` over this line, if this is written to `errors`; None if it is something else.
fn status_of<H: Host + Sync, L: Line>(
    rt: &H,
    line: &mut L,
    told: &[u8],
) -> Result<Option<u8>, Fail> {
    let words = words(rt.alloc(), &["once", "hello"])?;
    let mut errors = Counted::new(Vec::new(rt.alloc()));
    let status = run(rt, &words, line, &mut errors);
    Ok((errors.writer.as_slice() == told).then_some(status))
}

#[test]
fn an_answer_that_is_not_written_is_said_so(rt: HostRuntime) -> Result<(), Fail> {
    let stuck = Stuck {
        kind: ErrorKind::BrokenPipe,
    };
    let mut line = line_between(rt.alloc(), REQUEST, stuck);
    let status = status_of(&rt, &mut line, b"stopped: write-failed 0\n");
    drop(line);
    assert!(rt; status? == Some(5));
    Ok(())
}

/// What `once hello` writes to `errors` for an input that fails like this, and its status. One that would block reaches
/// a limit; one that fails is no fault of the program.
const STUCK_INPUTS: &[(ErrorKind, u8, &[u8])] = &[
    (ErrorKind::WouldBlock, 5, b"stopped: idle\n"),
    (ErrorKind::ConnectionReset, 0, b""),
];

#[test]
fn an_input_that_gives_nothing_is_said_so(rt: HostRuntime) -> Result<(), Fail> {
    for (row, (kind, wanted, told)) in STUCK_INPUTS.iter().enumerate() {
        let stuck = Stuck { kind: *kind };
        let mut line = line_between(rt.alloc(), stuck, Vec::new(rt.alloc()));
        let status = status_of(&rt, &mut line, told);
        drop(line);
        assert!(rt; status? == Some(*wanted), "row {row}");
    }
    Ok(())
}

const FAULTS_OF_WORDS: &[(ErrorKind, u8, &[u8])] = &[
    (ErrorKind::OutOfMemory, 5, b"device fault\n"),
    (ErrorKind::InvalidData, 2, USAGE_TEXT),
    (ErrorKind::InvalidInput, 2, USAGE_TEXT),
    (ErrorKind::Other, 2, USAGE_TEXT),
];

/// The status if the words are not available for this reason, and this is written to `errors`.
fn status_without_words(alloc: Global, kind: ErrorKind, told: &[u8]) -> Option<u8> {
    let mut errors = Counted::new(Vec::new(alloc));
    let status = without_words(&io::Error::from(kind), &mut errors);
    (errors.writer.as_slice() == told).then_some(status)
}

#[test]
fn words_that_cannot_be_had_are_told(rt: HostRuntime) {
    for (row, (kind, wanted, told)) in FAULTS_OF_WORDS.iter().enumerate() {
        let status = status_without_words(rt.alloc(), *kind, told);
        assert!(rt; status == Some(*wanted), "row {row}");
    }
}

/// The statuses of wrong words, of a connection that stops, and of words that are not available, and how often writing
/// about them failed.
fn statuses_untold<H: Host + Sync>(rt: &H, none: &[String], once: &[String]) -> ([u8; 3], u64) {
    let kind = ErrorKind::BrokenPipe;
    let mut errors = Counted::new(Stuck { kind });
    let mut line = line_between(rt.alloc(), REQUEST, Stuck { kind });
    let statuses = [
        run(rt, none, &mut line, &mut errors),
        run(rt, once, &mut line, &mut errors),
        without_words(&io::Error::from(ErrorKind::OutOfMemory), &mut errors),
    ];
    (statuses, errors.failures())
}

#[test]
fn a_text_that_cannot_be_told_changes_no_status(rt: HostRuntime) -> Result<(), Fail> {
    let none = words(rt.alloc(), &[])?;
    let once = words(rt.alloc(), &["once", "hello"])?;
    let found = statuses_untold(&rt, &none, &once);
    assert!(rt; found == ([2, 5, 5], 3));
    Ok(())
}

const SERVERS: &[Row] = &[
    (&["serve", "08000", "0001", "hello"], REQUEST, 0, b"", b""),
    (
        &["serve", "08000", "0001", "hello", "1"],
        REQUEST,
        0,
        b"",
        b"",
    ),
    (
        &["serve", "08000", "0001", "life", "8"],
        REQUEST,
        0,
        b"",
        b"",
    ),
    (
        &["serve", "08000", "0001", "nostart"],
        REQUEST,
        3,
        b"",
        b"startup failed: no table\n",
    ),
    (
        &["serve", "08000", "0001", "nostop"],
        REQUEST,
        4,
        b"",
        b"shutdown failed: still busy\n",
    ),
];

#[test]
fn a_server_of_no_connections_starts_and_stops(rt: HostRuntime) -> Result<(), Fail> {
    for (number, row) in SERVERS.iter().enumerate() {
        assert!(rt; is_row(&rt, row, Some(REQUEST.len()))?, "row {number}");
    }
    Ok(())
}
