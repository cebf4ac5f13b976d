//! The parser: requests out of bytes that come in pieces.
ghost use Rattle.std.specs.Prelude.{◌++◌, [], IfOk};
ghost use Rattle.asgi_request.specs.Reading.{StandsFor};

use asgi_request::{Next, RequestReader};
use asgi_types::{Limits, Scope};
use std::alloc::{AllocError, Global};
use std::io::{self, Write};

/// A reader that was fed two pieces: the same as of all the bytes, however they are cut.
fn reader_of(
    alloc: Global,
    limits: Limits,
    one: &[u8],
    other: &[u8],
) -> Result<RequestReader, AllocError>
    ensures { IfOk result (λ reader. StandsFor reader (one.now ++ other.now) []) }
{
    let mut reader = RequestReader::new(alloc, limits);
    reader.feed(one)?;
    reader.feed(other)?;
    Ok(reader)
}

/// Writes the path of a request, a line.
fn show_path<W: Write>(first: &Next, out: &mut W) -> io::Result<()> {
    match first {
        Next::Head(Scope::Http(scope), _) => writeln!(out, "{}", scope.path.as_str()),
        _ => writeln!(out, "no request"),
    }
}

/// Writes the path of a request that came in two pieces.
pub fn show<W: Write>(alloc: Global, out: &mut W) -> io::Result<()> {
    let rest = b"fb?q HTTP/1.1\r\nHost: x\r\n\r\n";
    let mut reader = reader_of(alloc, Limits::usual(), b"GET /a%2", rest)?;
    let first = reader.next()?;
    show_path(&first, out)
}
