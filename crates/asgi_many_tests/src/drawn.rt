//! Seats named in an order that a seed sets, also free ones and ones that are not there: each connection is served as it is
//! alone, with its report under its own number.
use crate::lines::{Input, Line, alone};
use crate::serving::{Draws, Ran, run};
use asgi_apps::{AppTask, Application, Echo, Hello};
use asgi_conn::Host;
use asgi_fakes::text_of;
use asgi_fakes::texts::{GET, GET_AND_CLOSE, TWO_REQUESTS};
use asgi_many::Ended;
use asgi_types::Limits;
use std::io;
use std::test::Fail;

const POST: &[u8] =
    b"POST / HTTP/1.1\r\nHost: a\r\nExpect: 100-continue\r\nContent-Length: 3\r\n\r\nabcGET / HTTP/1.1\r\nHost: a\r\n\r\n";

const CHUNKS: &[u8] =
    b"POST / HTTP/1.1\r\nHost: a\r\nTransfer-Encoding: chunked\r\n\r\n2\r\nab\r\n1\r\nc\r\n0\r\n\r\n";

/// Whole requests, one after another, refused ones and broken ones, at once and byte by byte.
pub const INPUTS: &[Input] = &[
    (GET, 4_096, false),
    (TWO_REQUESTS, 1, true),
    (b"", 1, false),
    (GET_AND_CLOSE, 7, true),
    (b"GET / HTTP/1.1\r\n\r\n", 4_096, false),
    (POST, 1, true),
    (CHUNKS, 3, true),
    (b"GE", 1, true),
    (TWO_REQUESTS, 4_096, false),
    (POST, 4_096, false),
    (GET, 1, false),
    (CHUNKS, 1, false),
];

/// Whether the connection ended as it does alone.
fn is_as_alone<H: Host, T: AppTask + Send + 'static, A: Application<Task = T>>(
    rt: &H,
    app: &A,
    limits: &Limits,
    input: &Input,
    end: &Ended<Line>,
) -> io::Result<bool> {
    match alone(rt, app, limits, input, text_of(&end.line))? {
        Some(served) => Ok(served == (end.report, end.pauses)),
        None => Ok(false),
    }
}

/// Whether each of these has ended, as it does alone.
fn have_ended<H: Host, T: AppTask + Send + 'static, A: Application<Task = T>>(
    rt: &H,
    app: &A,
    limits: &Limits,
    inputs: &[Input],
    ends: &[Option<Ended<Line>>],
) -> io::Result<bool> {
    for (input, end) in inputs.iter().zip(ends.iter()) {
        let Some(end) = end else {
            return Ok(false);
        };
        if !is_as_alone(rt, app, limits, input, end)? {
            return Ok(false);
        }
    }
    Ok(true)
}

/// Whether a run of so many was right, and named a seat in which nobody sat.
fn is_right(ran: &Ran<Line>, many: usize) -> bool {
    !ran.is_wrong && ran.nobody != 0 && ran.ends.len() == many
}

/// Whether each has ended once, as it does alone.
fn are_as_alone<H: Host, T: AppTask + Send + 'static, A: Application<Task = T>>(
    rt: &H,
    app: &A,
    inputs: &[Input],
    places: usize,
    seed: u64,
) -> io::Result<bool> {
    let limits = Limits::usual();
    let ran = run(rt, app, &limits, inputs, places, Draws { seed })?;
    if !is_right(&ran, inputs.len()) {
        return Ok(false);
    }
    have_ended(rt, app, &limits, inputs, &ran.ends)
}

const PLACES: &[usize] = &[1, 2, 5, 64];

/// Fails with the first number of places, and the number of the seed, with which one ends otherwise than alone.
fn check<H: Host, T: AppTask + Send + 'static, A: Application<Task = T>>(
    rt: &H,
    app: &A,
    seed: u64,
) -> Result<(), Fail> {
    for places in PLACES {
        for number in 1..6u64 {
            if !are_as_alone(rt, app, INPUTS, *places, seed.saturating_mul(number))? {
                return Err(Fail::from((*places, number)));
            }
        }
    }
    Ok(())
}

#[test]
fn seats_in_any_order_greet_as_one_alone(rt: HostRuntime) -> Result<(), Fail> {
    check(&rt, &Hello, 7_919)
}

#[test]
fn seats_in_any_order_echo_as_one_alone(rt: HostRuntime) -> Result<(), Fail> {
    check(&rt, &Echo, 104_729)
}
