//! Reads that fail, before a session and in one.
use crate::apps::Heard;
use crate::rows::{BOTH, Written, is_served, joined};
use crate::serving::App;
use crate::texts::{ACCEPTED, HANDSHAKE, HELLO, HELLO_BACK};
use asgi_conn::{Host, Outcome};
use asgi_fakes::Pieces;
use std::io;
use std::test::Fail;

const LOST: Heard = Heard::Disconnect(1006, "");

const HEARS_HELLO: App = App::Listens(&[Heard::Connect, Heard::Text("Hello"), LOST]);

const HEARS_NOTHING: App = App::Listens(&[Heard::Connect, LOST]);

/// By the number of bytes read before: the application, the output, and how many exchanges there are.
fn wanted_after(read: usize) -> (App, &'static [u8], &'static [u8], u64) {
    if read < HANDSHAKE.len() {
        return (HEARS_NOTHING, b"", b"", 0);
    }
    if read < HANDSHAKE.len() + HELLO.len() {
        return (HEARS_NOTHING, ACCEPTED, b"", 1);
    }
    (HEARS_HELLO, ACCEPTED, HELLO_BACK, 1)
}

/// How many bytes are read before the first failure that ends in another way.
fn wrong_after<H: Host>(rt: &H, input: &[u8]) -> io::Result<Option<usize>> {
    for read in 0..=input.len() {
        let (app, accepted, echo, exchanges) = wanted_after(read);
        let mut pieces = Pieces::new(input, 1, 1);
        pieces.fails_at = (read as u64).saturating_add(1);
        let end = (Outcome::InputBroke, exchanges, 0);
        if !is_served(rt, BOTH, app, pieces, Written::Just(&[accepted, echo]), end)? {
            return Ok(Some(read));
        }
    }
    Ok(None)
}

fn wrong_read<H: Host>(rt: &H) -> io::Result<Option<usize>> {
    let input = joined(rt.alloc(), HANDSHAKE, &[HELLO])?;
    wrong_after(rt, &input)
}

#[test]
fn a_read_that_fails_is_a_lost_client(rt: HostRuntime) -> Result<(), Fail> {
    let read = wrong_read(&rt)?;
    assert!(rt; read.is_none(), "after {} bytes", read.unwrap_or(0));
    Ok(())
}
