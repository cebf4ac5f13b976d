//! Rows of connections, each served beside a thread.
use crate::serving::{is_answered, serve_pieces};
use asgi_apps::{Echo, Hello};
use asgi_conn::{Host, Outcome};
use asgi_fakes::texts::{HELLO, TWO_REQUESTS};
use asgi_fakes::{Pieces, line_of, text_of};
use asgi_types::Limits;
use std::io;
use std::test::Fail;

fn is_said_twice<H: Host>(rt: &H) -> io::Result<bool> {
    let mut line = line_of(rt, Pieces::new(TWO_REQUESTS, 4_096, 4_096))?;
    let end = (Outcome::Finished, 2, 0, 0);
    is_answered(rt, &Limits::usual(), &Hello, &mut line, (HELLO, 2, end))
}

#[test]
fn hello_is_said_twice(rt: HostRuntime) -> Result<(), Fail> {
    let is_so = is_said_twice(&rt)?;
    assert!(rt; is_so);
    Ok(())
}

/// Whether a connection that has no thread says so, and nothing is written.
fn is_without_a_thread<H: Host>(rt: &H) -> io::Result<bool> {
    let mut line = line_of(rt, Pieces::new(TWO_REQUESTS, 4_096, 4_096))?;
    let end = serve_pieces(rt, &Limits::usual(), &Echo, &mut line, false)?;
    Ok((end, text_of(&line).is_empty()) == ((Outcome::NoThread, 0, 0, 0), true))
}

#[test]
fn no_thread_is_said_where_there_is_none(rt: HostRuntime) -> Result<(), Fail> {
    let is_so = is_without_a_thread(&rt)?;
    assert!(rt; is_so);
    Ok(())
}
