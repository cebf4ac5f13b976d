//! What one whole text is.
ghost use Rattle.std.specs.Prelude.{◌≤◌, length};
ghost use Rattle.asgi_request.specs.Parts.{ParsesSize, ParsesTrailers};

use httparse::spans::{EMPTY_HEADER_SPAN, HeaderSpan, parse_headers};
use httparse::{Status, parse_chunk_size};

/// How many bytes of data the line before a chunk announces, or `None` if the text, with its line
/// end, is no such line (RFC 9112, section 7.1).
pub fn parse_size(text: &[u8]) -> Option<u64>
    ensures { ParsesSize text.now result }
{
    match parse_chunk_size(text) {
        Ok(Status::Complete((n, size))) if n == text.len() => Some(size),
        _ => None,
    }
}

/// Whether the text is a trailer section of at most `max_headers` fields, with its empty line
/// (RFC 9112, section 7.1.2).
pub fn is_trailer(max_headers: usize, text: &[u8]) -> bool
    requires { max_headers ≤ 128 }
    ensures { ParsesTrailers max_headers text.now result }
{
    let mut spans = [EMPTY_HEADER_SPAN; 128];
    is_section(text, &mut spans[..max_headers])
}

/// The same, with room for as many fields as there are spans.
fn is_section(text: &[u8], spans: &mut [HeaderSpan]) -> bool
    ensures { ParsesTrailers (length spans.old) text.now result }
{
    match parse_headers(text, spans) {
        Ok(Status::Complete((n, _))) if n == text.len() => true,
        _ => false,
    }
}
