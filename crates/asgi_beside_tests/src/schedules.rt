//! The same bytes, whatever turns the halves of an exchange take.
use crate::gates::{Gate, Held, HeldReader, HeldWriter, Order};
use crate::serving::{End, serve};
use asgi_apps::{AppTask, Application, Echo, Hello, WsEcho};
use asgi_conn::{Host, Outcome};
use asgi_fakes::Pieces;
use asgi_fakes::texts::{ECHO_HEAD, HELLO, LAST_CHUNK, TWO_REQUESTS};
use asgi_types::{BadLimit, Limits};
use asgi_ws::{Pair, Wired};
use std::alloc::{AllocError, Global};
use std::io;
use std::test::Fail;

type HeldLine<'a> = Wired<Pair<HeldReader<'a>, HeldWriter>>;

/// The input, what is written, the outcome and the exchanges.
type Row = (&'static [u8], &'static [&'static [u8]], Outcome, u64);

const GREETED: Row = (TWO_REQUESTS, &[HELLO, HELLO], Outcome::Finished, 2);

const ECHOED: Row = (
    b"POST / HTTP/1.1\r\nHost: a\r\nContent-Length: 8\r\n\r\nabcdefgh",
    &[
        ECHO_HEAD,
        b"3\r\nabc\r\n",
        b"3\r\ndef\r\n",
        b"2\r\ngh\r\n",
        LAST_CHUNK,
    ],
    Outcome::Finished,
    1,
);

/// Two texts, and then the end of the input.
const SESSION: Row = (
    b"GET / HTTP/1.1\r\nHost: a\r\nUpgrade: websocket\r\nConnection: Upgrade\r\nSec-WebSocket-Key: dGhlIHNhbXBsZSBub25jZQ==\r\nSec-WebSocket-Version: 13\r\n\r\n\x81\x81\0\0\0\0a\x81\x82\0\0\0\0bc",
    &[
        b"HTTP/1.1 101 Switching Protocols\r\nupgrade: websocket\r\nconnection: Upgrade\r\nsec-websocket-accept: s3pPLMBiTxaQ9kYGzzhZRbK+xOo=\r\n\r\n",
        b"\x81\x01a",
        b"\x81\x02bc",
    ],
    Outcome::InputBroke,
    1,
);

/// Blocks of three bytes, and two places each way.
fn narrow() -> Result<Limits, BadLimit> {
    Limits::new(16_384, 64, 1_048_576, 3, 2, 30_000, 1_000_000)
}

/// Whether the bytes are these parts.
fn are_parts(bytes: &[u8], parts: &[&[u8]]) -> bool {
    let mut rest = bytes;
    for part in parts {
        match rest.strip_prefix(*part) {
            Some(after) => rest = after,
            None => return false,
        }
    }
    rest.is_empty()
}

// The end of a call: what is known of its parts would be gone through for each variant of the outcome.
fn end_of(row: &Row) -> End {
    (row.2, row.3, 0, 0)
}

/// Whether the line is served as the row holds.
fn is_served<H: Host, T: AppTask + Send + 'static, A: Application<Task = T>>(
    rt: &H,
    app: &A,
    line: &mut HeldLine<'_>,
    limits: &Limits,
    row: &Row,
) -> io::Result<bool> {
    let end = serve(rt, limits, app, line, true)?;
    Ok(end == end_of(row) && is_taken(line, row.1))
}

/// Whether the writer of the line took these parts.
fn is_taken(line: &HeldLine<'_>, parts: &[&[u8]]) -> bool {
    match line.stream() {
        Some(pair) => are_parts(pair.writer.taken.as_slice(), parts),
        None => false,
    }
}

fn held_reader(gate: &Gate, input: &'static [u8]) -> Result<HeldReader<'static>, AllocError> {
    let gate = gate.again()?;
    let pieces = Pieces::new(input, 4, 4);
    Ok(HeldReader { gate, pieces })
}

fn held_writer(alloc: Global, gate: &Gate) -> Result<HeldWriter, AllocError> {
    let taken = Vec::with_capacity(alloc, 512)?;
    let gate = gate.again()?;
    Ok(HeldWriter { gate, taken })
}

/// A line of this input, four bytes a read.
fn held_line(
    alloc: Global,
    gate: &Gate,
    input: &'static [u8],
) -> Result<HeldLine<'static>, AllocError> {
    let reader = held_reader(gate, input)?;
    let writer = held_writer(alloc, gate)?;
    Ok(Wired::new(alloc, Pair { reader, writer }))
}

/// The same in this order of calls.
fn is_row<H: Host, T: AppTask + Send + 'static, A: Application<Task = T> + Drop>(
    rt: &H,
    app: A,
    limits: &Limits,
    row: &Row,
    order: Order,
) -> io::Result<bool> {
    let gate = Gate::new(rt.alloc(), order)?;
    let mut line = held_line(rt.alloc(), &gate, row.0)?;
    is_served(rt, &Held { gate, app }, &mut line, limits, row)
}

/// Whether each row is served like this in this order of calls.
fn are_rows<H: Host>(rt: &H, limits: &Limits, order: Order) -> io::Result<bool> {
    Ok(
        is_row(rt, Hello, limits, &GREETED, order)?
            && is_row(rt, Echo, limits, &ECHOED, order)?
            && is_row(rt, WsEcho, limits, &SESSION, order)?,
    )
}

#[test]
fn so_many_calls_of_one_half_and_then_of_the_other(rt: HostRuntime) -> Result<(), Fail> {
    let limits = narrow()?;
    for most in 1..=20 {
        let is_so = are_rows(&rt, &limits, Order::Turns(most))?;
        assert!(rt; is_so, "{most} at a time");
    }
    Ok(())
}

#[test]
fn calls_in_200_orders_by_chance(rt: HostRuntime) -> Result<(), Fail> {
    let limits = narrow()?;
    for seed in 0..200 {
        let is_so = are_rows(&rt, &limits, Order::Chance(seed))?;
        assert!(rt; is_so, "seed {seed}");
    }
    Ok(())
}
