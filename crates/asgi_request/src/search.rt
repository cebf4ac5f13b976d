//! Where a text ends, found by a search that resumes where it stopped.
ghost use Rattle.std.specs.Prelude.{◌≡◌, ◌+◌, ◌<◌, ◌≤◌, length, drop, true, false, min, IfSome};
ghost use Rattle.httparse.specs.Ascii.{line_feed};
ghost use Rattle.memchr.specs.Find.{IsFirst, Passes, is_byte};
ghost use Rattle.asgi_request.specs.Fronts as spec;
ghost use Rattle.asgi_request.specs.Fronts.{empty_line_len, lines_len, head_len, line_len, trailer_len, front_at};
ghost use Rattle.asgi_request.specs.Places.{front};
ghost use Rattle.asgi_request.specs.private.Searches.{Resumes, Continues, ResumesTrailer, GoesFrom, IsClosed, head_part, front_of, IsWithin};

use crate::place::Place;
use asgi_types::Limits;
use memchr::memchr;

const LF: u8 = b'\n';

const CR: u8 = b'\r';

/// The most bytes of a size line.
const SIZE_LINE_LIMIT: usize = 256;

/// How far a search has come, in bytes: no text ends whose line feed stands before `at`.
#[derive(Clone, Copy, Debug, PartialEq, Eq)]
pub struct Search {
    /// How many bytes the search has passed.
    pub at: usize,
    /// Of a head: whether a byte that is neither CR nor LF stands before `at`. Of a trailer
    /// section: whether it is known to begin with no empty line.
    pub begun: bool,
}

/// What the bytes begin with.
#[derive(Clone, Copy, Debug, PartialEq, Eq)]
pub enum Arrival {
    /// A whole text of this many bytes.
    Text(usize),
    /// No text ends within the limit.
    TooLong,
    /// More bytes are needed.
    Partial,
}

pub const NEW_SEARCH: Search = Search {
    at: 0,
    begun: false,
};

/// What the bytes begin with at this place, by its limit in bytes, and how far the search has come.
/// An empty line ends with CR LF or with LF alone (RFC 9112, section 2.2).
pub fn arrive(limits: &Limits, place: Place, bytes: &[u8], search: &mut Search) -> Arrival
    requires { Resumes place search.old bytes.now }
    ensures front { front_of bytes.now result ≡ front limits.now place bytes.now }
    ensures within { IsWithin bytes.now result }
    ensures resumes { Resumes place search.new bytes.now }
{
    match place {
        Place::Start => within(limits.max_head, bytes, find_head(bytes, search)),
        Place::Counted(n) => first(at_most(n, limits.block), bytes),
        Place::SizeLine(_) => within(SIZE_LINE_LIMIT, bytes, find_line(bytes, search)),
        Place::Chunk { left, .. } => first(at_most(left, limits.block), bytes),
        Place::ChunkEnd(_) => first(2, bytes),
        Place::Trailers => within(limits.max_head, bytes, find_trailer(bytes, search)),
        Place::BodyEnd | Place::HandshakeEnd => Arrival::Text(0),
        Place::Upgraded | Place::Stopped(_) => Arrival::Partial,
    }
}

fn at_most(n: u64, block: usize) -> usize
    ensures { result ≡ min n block }
{
    if n < block as u64 { n as usize } else { block }
}

fn first(n: usize, bytes: &[u8]) -> Arrival
    ensures front { front_of bytes.now result ≡ spec.first n bytes.now }
    ensures within { IsWithin bytes.now result }
{
    if n <= bytes.len() {
        Arrival::Text(n)
    } else {
        Arrival::Partial
    }
}

fn within(limit: usize, bytes: &[u8], found: Option<usize>) -> Arrival
    requires { IfSome found (λ n. n ≤ length bytes.now) }
    ensures front { front_of bytes.now result ≡ front_at limit bytes.now found }
    ensures within { IsWithin bytes.now result }
{
    match found {
        Some(n) if n <= limit => Arrival::Text(n),
        Some(_) => Arrival::TooLong,
        None if bytes.len() >= limit => Arrival::TooLong,
        None => Arrival::Partial,
    }
}

/// The length of an empty line at the front, or 0 if there is none.
fn empty_line_length(bytes: &[u8]) -> usize
    ensures value { result ≡ empty_line_len bytes.now }
    ensures bound { result ≤ length bytes.now }
{
    match bytes {
        [LF, ..] => 1,
        [CR, LF, ..] => 2,
        _ => 0,
    }
}

/// Whether more bytes could make an empty line of these.
fn is_open(bytes: &[u8]) -> bool
    ensures open { result ≡ true → lines_len bytes.now ≡ None }
    ensures closed { result ≡ false → IsClosed bytes.now }
{
    match bytes {
        [] => true,
        [CR] => true,
        _ => false,
    }
}

/// Where the first line feed stands, from `from` on.
fn find_line_feed(bytes: &[u8], from: usize) -> Option<usize>
    requires { from ≤ length bytes.now }
    ensures { IsFirst (Passes (is_byte line_feed) bytes.now) from (length bytes.now) result }
{
    // Too few bytes are not worth a vector, and a search that goes on begins at the line feed that it found last.
    if bytes.len() - from >= 16 && bytes[from] != LF {
        return find_far_line_feed(bytes, from);
    }
    for i in from..bytes.len() {
        if bytes[i] == LF {
            return Some(i);
        }
    }
    None
}

/// The same, many bytes at a time. Not inlined, so that its registers are not saved for a few bytes.
#[inline(never)]
fn find_far_line_feed(bytes: &[u8], from: usize) -> Option<usize>
    requires { from ≤ length bytes.now }
    ensures { IsFirst (Passes (is_byte line_feed) bytes.now) from (length bytes.now) result }
{
    let i = memchr(LF, &bytes[from..])?;
    Some(from + i)
}

/// The end of the first empty line that follows a line feed from `at` on; `at` becomes how far the
/// search has come.
fn find_lines(bytes: &[u8], at: &mut usize) -> Option<usize>
    requires { at.old ≤ length bytes.now }
    ensures found { result ≡ spec.more at.old (lines_len (drop at.old bytes.now)) }
    ensures inside { at.new ≤ length bytes.now }
    ensures same { GoesFrom lines_len lines_len at.old at.new bytes.now }
{
    let mut from = *at;
    while let Some(i) = find_line_feed(bytes, from) {
        let rest = &bytes[i + 1..];
        let n = empty_line_length(rest);
        if n > 0 {
            *at = i;
            return Some(i + 1 + n);
        }
        if is_open(rest) {
            *at = i;
            return None;
        }
        from = i + 1;
    }
    *at = bytes.len();
    None
}

/// Where the first byte that is neither CR nor LF stands, from `from` on.
fn find_begin(bytes: &[u8], from: usize) -> Option<usize>
    requires { from ≤ length bytes.now }
    ensures some { IfSome result (λ i. (i < length bytes.now) × GoesFrom head_len lines_len from (i + 1) bytes.now) }
    ensures none { result ≡ None → GoesFrom head_len head_len from (length bytes.now) bytes.now }
{
    for i in from..bytes.len() {
        if bytes[i] != CR && bytes[i] != LF {
            return Some(i);
        }
    }
    None
}

fn find_head(bytes: &[u8], search: &mut Search) -> Option<usize>
    requires { Continues head_len (head_part search.old.begun) search.old.at bytes.now }
    ensures found { result ≡ head_len bytes.now }
    ensures resumes { Continues head_len (head_part search.new.begun) search.new.at bytes.now }
{
    if search.begun {
        return find_lines(bytes, &mut search.at);
    }
    match find_begin(bytes, search.at) {
        Some(i) => {
            search.at = i + 1;
            search.begun = true;
            find_lines(bytes, &mut search.at)
        }
        None => {
            search.at = bytes.len();
            None
        }
    }
}

fn find_line(bytes: &[u8], search: &mut Search) -> Option<usize>
    requires { Continues line_len line_len search.old.at bytes.now }
    ensures found { result ≡ line_len bytes.now }
    ensures resumes { Continues line_len line_len search.new.at bytes.now }
{
    match find_line_feed(bytes, search.at) {
        Some(i) => {
            search.at = i;
            Some(i + 1)
        }
        None => {
            search.at = bytes.len();
            None
        }
    }
}

fn find_trailer(bytes: &[u8], search: &mut Search) -> Option<usize>
    requires { ResumesTrailer search.old.begun search.old.at bytes.now }
    ensures found { result ≡ trailer_len bytes.now }
    ensures resumes { ResumesTrailer search.new.begun search.new.at bytes.now }
{
    if search.begun {
        return find_lines(bytes, &mut search.at);
    }
    let n = empty_line_length(bytes);
    if n > 0 {
        return Some(n);
    }
    if is_open(bytes) {
        return None;
    }
    search.at = 0;
    search.begun = true;
    find_lines(bytes, &mut search.at)
}
