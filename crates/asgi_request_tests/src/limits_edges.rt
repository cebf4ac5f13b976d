//! Inputs at the greatest limits that a connection may have: what was fed comes back whole.
use crate::calls::{
    Setting, holds, is_event, is_head, is_whole, new_reader, of_given, of_given_beside, put, take,
    waits,
};
use crate::feeding::gives_in_pieces;
use crate::inputs::{add_parts, filled, joined};
use asgi_request::{Next, RequestReader};
use asgi_types::{Headers, Scope};
use std::alloc::{AllocError, Global};
use std::process::Abort;
use std::test::Fail;

/// 28 bytes, to be filled up with letters.
const FRONT: &[u8] = b"GET / HTTP/1.1\r\nHost: a\r\nX: ";

const END: &[u8] = b"\r\n\r\n";

const SERVED: &str = "head GET 0; last() whole;";

/// How many letters come after the front, the end, and the words of what the reader gives for it.
type Filled = (usize, &'static [u8], &'static str);

/// The heads give these words, fed in pieces of these sizes.
fn filled_give(
    rt: &impl Abort,
    alloc: Global,
    sizes: &[usize],
    rows: &[Filled],
) -> Result<(), Fail> {
    for row in rows {
        row_gives(rt, alloc, sizes, row)?;
    }
    Ok(())
}

fn row_gives(
    rt: &impl Abort,
    alloc: Global,
    sizes: &[usize],
    (letters, end, wanted): &Filled,
) -> Result<(), Fail> {
    let bytes = filled(alloc, FRONT, *letters, end)?;
    gives_in_pieces(rt, alloc, Setting::Greatest(16_384), &bytes, sizes, wanted)
}

/// Whole, in two pieces and in many.
const SIZES: &[usize] = &[4_096, 65_534, 65_535, 1_048_576];

/// No empty line can follow in time if 65,535 bytes have none.
const HEADS: &[Filled] = &[
    (65_502, END, SERVED),
    (65_503, END, SERVED),
    (65_504, END, " bad 431"),
    (65_506, b"", ""),
    (65_507, b"", " bad 431"),
];

#[test]
fn a_head_has_65535_bytes_at_most(rt: HostRuntime) -> Result<(), Fail> {
    filled_give(&rt, rt.alloc(), SIZES, HEADS)
}

const BY_BYTES: &[Filled] = &[(65_503, END, SERVED), (65_504, END, " bad 431")];

#[test]
fn a_head_of_65535_bytes_may_come_byte_by_byte(rt: HostRuntime) -> Result<(), Fail> {
    filled_give(&rt, rt.alloc(), &[1], BY_BYTES)
}

fn are_letters(value: &[u8]) -> bool {
    for b in value {
        if *b != b'a' {
            return false;
        }
    }
    true
}

/// A name in lower case, and a value of this many letters.
fn is_filled(name: &[u8], value: &[u8], letters: usize) -> bool {
    name == b"x".as_slice() && value.len() == letters && are_letters(value)
}

fn has_filled_field(headers: &Headers, letters: usize) -> bool {
    match headers.at(1) {
        Some((name, value)) => is_filled(name, value, letters) && headers.len() == 2,
        None => false,
    }
}

fn is_filled_head(next: &Next) -> bool {
    match next {
        Next::Head(Scope::Http(http), _) => has_filled_field(&http.headers, 65_503),
        _ => false,
    }
}

fn gives_filled_head(reader: &mut RequestReader, bytes: &[u8]) -> Result<bool, AllocError> {
    put(reader, bytes)?;
    of_given(take(reader), is_filled_head)
}

/// Whether the head of 65,535 bytes keeps its fields.
fn keeps_filled_field(alloc: Global) -> Result<bool, AllocError> {
    let bytes = filled(alloc, FRONT, 65_503, END)?;
    gives_filled_head(&mut new_reader(alloc, Setting::Greatest(16_384)), &bytes)
}

#[test]
fn a_head_of_65535_bytes_keeps_its_fields(rt: HostRuntime) -> Result<(), Fail> {
    let is_so = keeps_filled_field(rt.alloc())?;
    assert!(rt; is_so);
    Ok(())
}

fn digit(number: usize) -> u8 {
    b'0' + (number % 10) as u8
}

/// The last three digits of the number.
fn digits(number: usize) -> [u8; 3] {
    [digit(number / 100), digit(number / 10), digit(number)]
}

/// A head with `Host` and this many other fields `X-NNN: NNN`.
fn head_with(alloc: Global, others: usize) -> Result<Vec<u8>, AllocError> {
    let mut bytes = Vec::new(alloc);
    add_head(&mut bytes, others)?;
    Ok(bytes)
}

fn add_head(bytes: &mut Vec<u8>, others: usize) -> Result<(), AllocError> {
    bytes.extend_from_slice(b"GET / HTTP/1.1\r\nHost: a\r\n")?;
    for number in 0..others {
        add_other(bytes, digits(number))?;
    }
    bytes.extend_from_slice(b"\r\n")
}

fn add_other(bytes: &mut Vec<u8>, digits: [u8; 3]) -> Result<(), AllocError> {
    add_parts(bytes, &[b"X-", &digits, b": ", &digits, b"\r\n"])
}

const FIELDS: &[(usize, &'static str)] = &[(126, SERVED), (127, SERVED), (128, " bad 400")];

/// The head with this many other fields gives these words.
fn fields_give(rt: &impl Abort, alloc: Global, others: usize, wanted: &str) -> Result<(), Fail> {
    let bytes = head_with(alloc, others)?;
    gives_in_pieces(rt, alloc, Setting::Greatest(16_384), &bytes, SIZES, wanted)
}

#[test]
fn a_head_has_128_fields_at_most(rt: HostRuntime) -> Result<(), Fail> {
    for (others, wanted) in FIELDS {
        fields_give(&rt, rt.alloc(), *others, wanted)?;
    }
    Ok(())
}

/// The field is `x-nnn: nnn` of this number.
fn is_numbered(name: &[u8], value: &[u8], number: usize) -> bool {
    let [a, b, c] = digits(number);
    name == [b'x', b'-', a, b, c].as_slice() && value == [a, b, c].as_slice()
}

fn is_numbered_at(headers: &Headers, number: usize) -> bool {
    match headers.at(number.saturating_add(1)) {
        Some((name, value)) => is_numbered(name, value, number),
        None => false,
    }
}

/// After `host` come the fields of the numbers 0 to 126.
fn has_127_others(headers: &Headers) -> bool {
    for number in 0..127usize {
        if !is_numbered_at(headers, number) {
            return false;
        }
    }
    headers.len() == 128
}

fn is_numbered_head(next: &Next) -> bool {
    match next {
        Next::Head(Scope::Http(http), _) => has_127_others(&http.headers),
        _ => false,
    }
}

fn gives_numbered_head(reader: &mut RequestReader, bytes: &[u8]) -> Result<bool, AllocError> {
    put(reader, bytes)?;
    of_given(take(reader), is_numbered_head)
}

/// Whether the head of 128 fields keeps them.
fn keeps_numbered_fields(alloc: Global) -> Result<bool, AllocError> {
    let bytes = head_with(alloc, 127)?;
    gives_numbered_head(&mut new_reader(alloc, Setting::Greatest(16_384)), &bytes)
}

#[test]
fn a_head_of_128_fields_keeps_them(rt: HostRuntime) -> Result<(), Fail> {
    let is_so = keeps_numbered_fields(rt.alloc())?;
    assert!(rt; is_so);
    Ok(())
}

/// This many bytes, in rows of 251.
fn body_of(alloc: Global, count: usize) -> Result<Vec<u8>, AllocError> {
    let mut bytes = Vec::with_capacity(alloc, count)?;
    add_body(&mut bytes, count)?;
    Ok(bytes)
}

fn add_body(bytes: &mut Vec<u8>, count: usize) -> Result<(), AllocError> {
    for at in 0..count {
        bytes.push((at % 251) as u8)?;
    }
    Ok(())
}

fn gives_event(reader: &mut RequestReader, block: &[u8], more: bool) -> Result<bool, AllocError> {
    of_given_beside(take(reader), &(block, more), is_event)
}

/// Whether the next results are the body in blocks of this many bytes, the last of them with no more to follow, if this
/// is the end of the body.
fn gives_blocks(
    reader: &mut RequestReader,
    body: &[u8],
    block: usize,
    is_end: bool,
) -> Result<bool, AllocError> {
    let mut rest = body;
    for _ in 0..body.len() {
        let (front, after) = rest.split_at(block.min(rest.len()));
        let more = !is_end || !after.is_empty();
        if !gives_event(reader, front, more)? {
            return Ok(false);
        }
        if after.is_empty() {
            return Ok(true);
        }
        rest = after;
    }
    Ok(false)
}

/// Whether the request ends here, and nothing is held after it.
fn gives_end(reader: &mut RequestReader) -> Result<bool, AllocError> {
    let is_end = of_given(take(reader), is_whole)?;
    Ok(is_end && holds(reader, b"") && waits(reader)?)
}

/// Whether a head, the body in blocks and the end are given for what was fed. A chunked body has an empty last event.
fn gives_request(
    reader: &mut RequestReader,
    body: &[u8],
    block: usize,
    is_chunked: bool,
) -> Result<bool, AllocError> {
    let is_begun = of_given(take(reader), is_head)?
        && gives_blocks(reader, body, block, !is_chunked)?;
    let is_ended = !is_chunked || gives_event(reader, b"", false)?;
    Ok(is_begun && is_ended && gives_end(reader)?)
}

/// What comes before a body, how many bytes it has, what comes after it, and the block.
type Row = (&'static [u8], usize, &'static [u8], usize);

/// The body of a row, fed at once with all that is around it, comes back in blocks.
fn is_given(alloc: Global, row: &Row, is_chunked: bool) -> Result<bool, AllocError> {
    let body = body_of(alloc, row.1)?;
    let bytes = joined(alloc, &[row.0, &body, row.2])?;
    gives_fed(
        &mut new_reader(alloc, Setting::Greatest(row.3)),
        &bytes,
        &body,
        row.3,
        is_chunked,
    )
}

fn gives_fed(
    reader: &mut RequestReader,
    bytes: &[u8],
    body: &[u8],
    block: usize,
    is_chunked: bool,
) -> Result<bool, AllocError> {
    put(reader, bytes)?;
    gives_request(reader, body, block, is_chunked)
}

fn are_given(rt: &impl Abort, alloc: Global, rows: &[Row], is_chunked: bool) -> Result<(), Fail> {
    for (index, row) in rows.iter().enumerate() {
        let is_so = is_given(alloc, row, is_chunked)?;
        assert!(rt; is_so, "row {index}");
    }
    Ok(())
}

/// Bodies around a block of 65,536 bytes, one that is 1 MiB with its head of 53 bytes, and one of 1 MiB.
const LENGTHS: &[Row] = &[
    (
        b"POST / HTTP/1.1\r\nHost: a\r\nContent-Length: 65535\r\n\r\n",
        65_535,
        b"",
        65_536,
    ),
    (
        b"POST / HTTP/1.1\r\nHost: a\r\nContent-Length: 65536\r\n\r\n",
        65_536,
        b"",
        65_536,
    ),
    (
        b"POST / HTTP/1.1\r\nHost: a\r\nContent-Length: 1048523\r\n\r\n",
        1_048_523,
        b"",
        16_384,
    ),
    (
        b"POST / HTTP/1.1\r\nHost: a\r\nContent-Length: 65537\r\n\r\n",
        65_537,
        b"",
        65_536,
    ),
    (
        b"POST / HTTP/1.1\r\nHost: a\r\nContent-Length: 1048576\r\n\r\n",
        1_048_576,
        b"",
        65_536,
    ),
];

#[test]
fn a_body_of_1_mib_is_given_in_blocks(rt: HostRuntime) -> Result<(), Fail> {
    are_given(&rt, rt.alloc(), LENGTHS, false)
}

/// One chunk each, of 65,536 bytes, of one more, and of 1 MiB.
const CHUNKS: &[Row] = &[
    (
        b"POST / HTTP/1.1\r\nHost: a\r\nTransfer-Encoding: chunked\r\n\r\n10000\r\n",
        65_536,
        b"\r\n0\r\n\r\n",
        65_536,
    ),
    (
        b"POST / HTTP/1.1\r\nHost: a\r\nTransfer-Encoding: chunked\r\n\r\n10001\r\n",
        65_537,
        b"\r\n0\r\n\r\n",
        65_536,
    ),
    (
        b"POST / HTTP/1.1\r\nHost: a\r\nTransfer-Encoding: chunked\r\n\r\n100000\r\n",
        1_048_576,
        b"\r\n0\r\n\r\n",
        65_536,
    ),
];

#[test]
fn a_chunk_of_1_mib_is_given_in_blocks(rt: HostRuntime) -> Result<(), Fail> {
    are_given(&rt, rt.alloc(), CHUNKS, true)
}

const HEAD: &[u8] = b"POST / HTTP/1.1\r\nHost: a\r\nContent-Length: 1048576\r\n\r\n";

/// Whether more bytes are needed after the head, and a body that is fed at once then comes back in blocks, and ends
/// the request.
fn takes_piece(reader: &mut RequestReader, body: &[u8]) -> Result<bool, AllocError> {
    put(reader, HEAD)?;
    let is_begun = of_given(take(reader), is_head)? && waits(reader)?;
    put(reader, body)?;
    let is_given = gives_blocks(reader, body, 16_384, true)?;
    Ok(is_begun && is_given && gives_end(reader)?)
}

fn takes_1_mib(alloc: Global) -> Result<bool, AllocError> {
    let body = body_of(alloc, 1_048_576)?;
    takes_piece(&mut new_reader(alloc, Setting::Usual), &body)
}

#[test]
fn a_piece_of_1_mib_is_taken_at_once(rt: HostRuntime) -> Result<(), Fail> {
    let is_so = takes_1_mib(rt.alloc())?;
    assert!(rt; is_so);
    Ok(())
}
