//! The greatest heads and bodies that a connection takes, and the largest responses. With ample memory each is served
//! whole.
use asgi_conn::{Host, Outcome, Report};
use asgi_fakes::texts::{BAD_REQUEST, ECHO_HEAD, GET, HELLO, LAST_CHUNK, POST, TOO_LARGE};
use asgi_fakes::{App, Memory, Pieces, Way, is_served, line_of, serve_by, text_of};
use asgi_response::ResponseText;
use asgi_types::{
    Facts, Framing, HeaderError, Headers, HttpVersion, Limits, Names, Octets, Outgoing,
};
use std::alloc::{AllocError, Global};
use std::io;
use std::test::Fail;

/// A head of `length` bytes, its last field filled up with letters.
pub fn head_of(alloc: Global, length: usize) -> Result<Vec<u8>, AllocError> {
    let mut head = Vec::from_slice(alloc, b"GET / HTTP/1.1\r\nHost: a\r\nX: ")?;
    for _ in head.len()..length.saturating_sub(4) {
        head.push(b'a')?;
    }
    head.extend_from_slice(b"\r\n\r\n")?;
    Ok(head)
}

fn digit(number: usize) -> u8 {
    b'0' + (number % 10) as u8
}

/// The last three digits of the number.
fn digits(number: usize) -> [u8; 3] {
    [digit(number / 100), digit(number / 10), digit(number)]
}

/// Adds the lines of `count` fields `x-nnn: nnn`.
fn add_lines(text: &mut Vec<u8>, count: usize) -> Result<(), AllocError> {
    for number in 0..count {
        let [a, b, c] = digits(number);
        text.extend_from_slice(&[b'x', b'-', a, b, c, b':', b' ', a, b, c, b'\r', b'\n'])?;
    }
    Ok(())
}

/// A head with `Host` and `others` other fields.
fn head_with(alloc: Global, others: usize) -> Result<Vec<u8>, AllocError> {
    let mut head = Vec::from_slice(alloc, b"GET / HTTP/1.1\r\nHost: a\r\n")?;
    add_lines(&mut head, others)?;
    head.extend_from_slice(b"\r\n")?;
    Ok(head)
}

/// What is read at a time, what is written, how the connection ends, how many reads there are, and
/// how many turns that read nothing.
#[derive(Clone, Copy)]
struct Served {
    piece: usize,
    wanted: &'static [u8],
    outcome: Outcome,
    exchanges: u64,
    reads: u64,
    more: u64,
}

/// The last read finds the end of the input. The greeting takes three turns that read
/// nothing: a turn takes as many items as the ring has places, two, and the end of its task comes after two events.
const fn hello(piece: usize, reads: u64) -> Served {
    Served {
        piece,
        wanted: HELLO,
        outcome: Outcome::Finished,
        exchanges: 1,
        reads,
        more: 3,
    }
}

const fn refused(wanted: &'static [u8], status: u16, reads: u64) -> Served {
    Served {
        piece: 4_096,
        wanted,
        outcome: Outcome::Refused(status),
        exchanges: 0,
        reads,
        more: 0,
    }
}

fn is_report(report: &Report, served: Served) -> bool {
    report.outcome == served.outcome
        && report.exchanges == served.exchanges
        && report.turns.checked_sub(served.more) == Some(served.reads)
        && report.faults == 0
        && report.idle == 0
}

/// Whether the input is served like this, under the greatest limits on heads.
fn is_head_served<H: Host>(rt: &H, input: &[u8], served: Served) -> Result<bool, Fail> {
    let limits = Limits::new(65_535, 128, 0, 1, 2, 1, 100_000)?;
    let mut line = line_of(rt, Pieces::new(input, served.piece, served.piece))?;
    Ok(is_line_served(rt, &limits, &mut line, served)?)
}

fn is_line_served<H: Host>(
    rt: &H,
    limits: &Limits,
    line: &mut Memory<Pieces>,
    served: Served,
) -> io::Result<bool> {
    let (report, pauses) = serve_by(rt, Way::Inline, limits, App::Hello, line)?;
    let reads = line.stream().map(|pair| pair.reader.reads);
    let is_so = is_report(&report, served) && reads == Some(served.reads);
    Ok(is_so && text_of(line) == served.wanted && pauses == 0)
}

#[test]
fn a_head_of_65535_bytes_is_served(rt: HostRuntime) -> Result<(), Fail> {
    // Sixteen pieces of 4,096 are 65,536 bytes.
    let rows = [
        (65_534, hello(4_096, 17)),
        (65_535, hello(4_096, 17)),
        (65_535, hello(1, 65_536)),
        (65_536, refused(TOO_LARGE, 431, 16)),
        (70_000, refused(TOO_LARGE, 431, 16)),
    ];
    for (length, served) in rows {
        let head = head_of(rt.alloc(), length)?;
        assert!(rt; is_head_served(&rt, &head, served)?, "{length} bytes");
    }
    Ok(())
}

#[test]
fn a_head_of_128_fields_is_served(rt: HostRuntime) -> Result<(), Fail> {
    // 127 lines of 12 bytes, with 27 bytes around them, come in one piece.
    let rows = [
        (126, hello(4_096, 2)),
        (127, hello(4_096, 2)),
        (128, refused(BAD_REQUEST, 400, 1)),
    ];
    for (others, served) in rows {
        let head = head_with(rt.alloc(), others)?;
        assert!(rt;
            is_head_served(&rt, &head, served)?,
            "{others} other fields"
        );
    }
    Ok(())
}

const HELLO_AND_TOO_LARGE: &[u8] =
    b"HTTP/1.1 200 OK\r\ncontent-type: text/plain\r\ntransfer-encoding: chunked\r\n\r\n6\r\nhello\n\r\n0\r\n\r\nHTTP/1.1 431 Request Header Fields Too Large\r\ncontent-length: 0\r\nconnection: close\r\n\r\n";

/// A request and 1 MiB of letters after it.
fn long_input(alloc: Global) -> Result<Vec<u8>, AllocError> {
    let mut input = Vec::from_slice(alloc, GET)?;
    for _ in 0..1_048_576 {
        input.push(b'a')?;
    }
    Ok(input)
}

#[test]
fn of_1_mib_after_a_request_a_head_is_read(rt: HostRuntime) -> Result<(), Fail> {
    let input = long_input(rt.alloc())?;
    // With 27 bytes of the request, 65,535 letters come in 17 pieces.
    let served = Served {
        piece: 1_048_576,
        wanted: HELLO_AND_TOO_LARGE,
        outcome: Outcome::Refused(431),
        exchanges: 1,
        reads: 17,
        more: 3,
    };
    assert!(rt; is_head_served(&rt, &input, served)?);
    Ok(())
}

/// Adds a chunk of `letters` letters, whose size in hexadecimal is `size`.
fn add_chunk(text: &mut Vec<u8>, size: &[u8], letters: usize) -> Result<(), AllocError> {
    text.extend_from_slice(size)?;
    text.extend_from_slice(b"\r\n")?;
    for _ in 0..letters {
        text.push(b'a')?;
    }
    text.extend_from_slice(b"\r\n")
}

/// A request whose body is one chunk of 1 MiB, with another request after it.
fn long_request(alloc: Global) -> Result<Vec<u8>, AllocError> {
    let mut input = Vec::from_slice(alloc, POST)?;
    input.extend_from_slice(b"Transfer-Encoding: chunked\r\n\r\n")?;
    add_chunk(&mut input, b"100000", 1_048_576)?;
    input.extend_from_slice(LAST_CHUNK)?;
    input.extend_from_slice(GET)?;
    Ok(input)
}

/// What `Echo` answers to this request: 64 blocks of 16 KiB, and nothing.
fn long_answer(alloc: Global) -> Result<Vec<u8>, AllocError> {
    let mut text = Vec::from_slice(alloc, ECHO_HEAD)?;
    for _ in 0..64 {
        add_chunk(&mut text, b"4000", 16_384)?;
    }
    text.extend_from_slice(LAST_CHUNK)?;
    text.extend_from_slice(ECHO_HEAD)?;
    text.extend_from_slice(LAST_CHUNK)?;
    Ok(text)
}

/// Whether the two requests are answered like this, read in pieces of this size.
fn is_echoed<H: Host>(rt: &H, input: &[u8], piece: usize, wanted: &[u8]) -> io::Result<bool> {
    let pieces = Pieces::new(input, piece, piece);
    let end = (Outcome::Finished, 2, 0);
    is_served(rt, &Limits::usual(), App::Echo, pieces, wanted, end)
}

#[test]
fn a_body_of_1_mib_is_echoed(rt: HostRuntime) -> Result<(), Fail> {
    let input = long_request(rt.alloc())?;
    let wanted = long_answer(rt.alloc())?;
    for piece in [4_096, 1_000] {
        assert!(rt;
            is_echoed(&rt, &input, piece, &wanted)?,
            "pieces of {piece}"
        );
    }
    Ok(())
}

fn facts(alloc: Global, version: HttpVersion) -> Facts {
    Facts {
        version,
        head_only: false,
        close: version == HttpVersion::V10,
        expect: false,
        trailers_ok: false,
        framing: Framing::Length(0),
        key: [0; 24],
        subprotocols: Names::new(alloc),
    }
}

/// The fields `X-NNN: NNN`, `count` of them.
fn fields(alloc: Global, count: usize) -> Result<Headers, HeaderError> {
    let mut headers = Headers::new(alloc);
    for number in 0..count {
        let [a, b, c] = digits(number);
        headers.push(&[b'X', b'-', a, b, c], &[a, b, c])?;
    }
    Ok(headers)
}

fn start(alloc: Global, count: usize) -> Result<Outgoing, HeaderError> {
    let headers = fields(alloc, count)?;
    Ok(Outgoing::ResponseStart {
        status: 200,
        headers,
        trailers: false,
    })
}

/// Adds `count` bytes, in rows of 251.
fn add_bytes(text: &mut Vec<u8>, count: usize) -> Result<(), AllocError> {
    for at in 0..count {
        text.push((at % 251) as u8)?;
    }
    Ok(())
}

fn last_body(alloc: Global, count: usize) -> Result<Outgoing, AllocError> {
    let mut body = Vec::with_capacity(alloc, count)?;
    add_bytes(&mut body, count)?;
    Ok(Outgoing::ResponseBody {
        body: Octets::new(body),
        more_body: false,
    })
}

/// Takes an event, which is gone then.
fn take(text: &mut ResponseText, event: Outgoing, out: &mut Vec<u8>) -> Result<(), AllocError> {
    text.take(&event, out)
}

fn take_both(
    text: &mut ResponseText,
    alloc: Global,
    count: usize,
    size: usize,
    out: &mut Vec<u8>,
) -> Result<(), Fail> {
    take(text, start(alloc, count)?, out)?;
    take(text, last_body(alloc, size)?, out)?;
    Ok(())
}

/// What is written of a start with this many fields and a body of this many bytes.
fn written(
    alloc: Global,
    version: HttpVersion,
    count: usize,
    size: usize,
) -> Result<Vec<u8>, Fail> {
    let mut out = Vec::new(alloc);
    let mut text = ResponseText::new(alloc, &facts(alloc, version));
    take_both(&mut text, alloc, count, size, &mut out)?;
    Ok(out)
}

/// The text of a response: the fields in their order, what comes before the body, the body, and what comes after.
fn wanted(
    alloc: Global,
    count: usize,
    size: usize,
    front: &[u8],
    end: &[u8],
) -> Result<Vec<u8>, AllocError> {
    let mut text = Vec::from_slice(alloc, b"HTTP/1.1 200 OK\r\n")?;
    add_lines(&mut text, count)?;
    text.extend_from_slice(front)?;
    add_bytes(&mut text, size)?;
    text.extend_from_slice(end)?;
    Ok(text)
}

/// How many fields the start has, how many bytes the body, and what comes before and after the body.
type Response = (usize, usize, &'static [u8], &'static [u8]);

/// The body is one chunk, and before it comes its size in hexadecimal.
const CHUNKED: [Response; 7] = [
    (
        0,
        2,
        b"transfer-encoding: chunked\r\n\r\n2\r\n",
        b"\r\n0\r\n\r\n",
    ),
    (
        20,
        2,
        b"transfer-encoding: chunked\r\n\r\n2\r\n",
        b"\r\n0\r\n\r\n",
    ),
    (
        128,
        2,
        b"transfer-encoding: chunked\r\n\r\n2\r\n",
        b"\r\n0\r\n\r\n",
    ),
    (
        200,
        2,
        b"transfer-encoding: chunked\r\n\r\n2\r\n",
        b"\r\n0\r\n\r\n",
    ),
    (
        1,
        65_536,
        b"transfer-encoding: chunked\r\n\r\n10000\r\n",
        b"\r\n0\r\n\r\n",
    ),
    (
        1,
        70_000,
        b"transfer-encoding: chunked\r\n\r\n11170\r\n",
        b"\r\n0\r\n\r\n",
    ),
    (
        128,
        1_048_576,
        b"transfer-encoding: chunked\r\n\r\n100000\r\n",
        b"\r\n0\r\n\r\n",
    ),
];

/// In HTTP/1.0 the body is sent as it is, and ends with the connection.
const PLAIN: [Response; 3] = [
    (128, 2, b"connection: close\r\n\r\n", b""),
    (1, 65_536, b"connection: close\r\n\r\n", b""),
    (1, 70_000, b"connection: close\r\n\r\n", b""),
];

fn is_written(alloc: Global, version: HttpVersion, row: &Response) -> Result<bool, Fail> {
    let out = written(alloc, version, row.0, row.1)?;
    let text = wanted(alloc, row.0, row.1, row.2, row.3)?;
    Ok(out.as_slice() == text.as_slice())
}

#[test]
fn a_response_has_128_fields_and_many_bytes(rt: HostRuntime) -> Result<(), Fail> {
    for (index, row) in CHUNKED.iter().enumerate() {
        assert!(rt;
            is_written(rt.alloc(), HttpVersion::V11, row)?,
            "row {index}"
        );
    }
    for (index, row) in PLAIN.iter().enumerate() {
        assert!(rt;
            is_written(rt.alloc(), HttpVersion::V10, row)?,
            "row {index} of HTTP/1.0"
        );
    }
    Ok(())
}
