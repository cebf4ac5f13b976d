//! Many requests, long bodies and many places: with ample memory each is served whole.
use asgi_apps::{AppFault, AppTask, Application, Says};
use asgi_conn::{Host, Outcome};
use asgi_fakes::texts::{ECHO_HEAD, GET, GET_TAKING_TRAILERS, HELLO, LAST_CHUNK, PLAIN_HEAD};
use asgi_fakes::{App, Memory, Pieces, Way, is_served, is_served_so, line_of, serve, text_of};
use asgi_types::{HeaderError, Headers, Kind, Limits, Octets, Outgoing, Scope};
use std::alloc::{AllocError, Global};
use std::io;
use std::test::Fail;

/// The text, this many times.
fn repeated(alloc: Global, text: &[u8], times: usize) -> Result<Vec<u8>, AllocError> {
    let mut bytes = Vec::new(alloc);
    for _time in 0..times {
        bytes.extend_from_slice(text)?;
    }
    Ok(bytes)
}

/// Where the tasks run, how many requests one connection has, and how many bytes a read: one request, or more than a
/// hundred.
type Row = (Way, usize, usize);

/// Whether each of the row's requests is greeted.
fn are_greeted<H: Host>(rt: &H, row: &Row) -> io::Result<bool> {
    let (way, count, piece) = *row;
    let input = repeated(rt.alloc(), GET, count)?;
    let wanted = repeated(rt.alloc(), HELLO, count)?;
    let pieces = Pieces::new(&input, piece, piece);
    let end = (Outcome::Finished, count as u64, 0);
    is_served_so(rt, way, &Limits::usual(), App::Hello, pieces, &wanted, end)
}

const A_THOUSAND: &[Row] = &[
    (Way::Inline, 1_001, 27),
    (Way::Inline, 1_001, 4_096),
    (Way::Beside, 1_001, 27),
    (Way::Beside, 1_001, 4_096),
];

#[test]
fn each_of_1001_requests_is_answered(rt: HostRuntime) -> Result<(), Fail> {
    for (place, row) in A_THOUSAND.iter().enumerate() {
        let is_so = are_greeted(&rt, row)?;
        assert!(rt; is_so, "row {place}");
    }
    Ok(())
}

const MANY: Row = (Way::Inline, 20_000, 4_096);

#[test]
fn each_of_20000_requests_is_answered(rt: HostRuntime) -> Result<(), Fail> {
    let is_so = are_greeted(&rt, &MANY)?;
    assert!(rt; is_so);
    Ok(())
}

/// Adds this many bytes, in rows of 251.
fn add_bytes(text: &mut Vec<u8>, count: usize) -> Result<(), AllocError> {
    for at in 0..count {
        text.push((at % 251) as u8)?;
    }
    Ok(())
}

/// Adds a chunk of these bytes, whose size in hexadecimal is `size`.
fn add_chunk(text: &mut Vec<u8>, size: &[u8], bytes: &[u8]) -> Result<(), AllocError> {
    text.extend_from_slice(size)?;
    text.extend_from_slice(b"\r\n")?;
    text.extend_from_slice(bytes)?;
    text.extend_from_slice(b"\r\n")
}

/// How many bytes the long bodies have, in hexadecimal 186a0.
const LONG: usize = 100_000;

fn long_body(alloc: Global) -> Result<Vec<u8>, AllocError> {
    let mut body = Vec::with_capacity(alloc, LONG)?;
    add_bytes(&mut body, LONG)?;
    Ok(body)
}

/// A request with this body, and one after it.
fn request(alloc: Global, body: &[u8]) -> Result<Vec<u8>, AllocError> {
    let mut text = Vec::from_slice(
        alloc,
        b"POST / HTTP/1.1\r\nHost: a\r\nContent-Length: 100000\r\n\r\n",
    )?;
    text.extend_from_slice(body)?;
    text.extend_from_slice(GET)?;
    Ok(text)
}

/// What `Echo` answers to them, if one event has at most 65,536 bytes: 34,464 are left for the second one.
fn echoed(alloc: Global, body: &[u8]) -> Result<Vec<u8>, AllocError> {
    let mut text = Vec::from_slice(alloc, ECHO_HEAD)?;
    let (front, rest) = body.split_at(65_536.min(body.len()));
    add_chunk(&mut text, b"10000", front)?;
    add_chunk(&mut text, b"86a0", rest)?;
    text.extend_from_slice(LAST_CHUNK)?;
    text.extend_from_slice(ECHO_HEAD)?;
    text.extend_from_slice(LAST_CHUNK)?;
    Ok(text)
}

/// Whether that is so.
fn is_echoed<H: Host>(rt: &H, limits: &Limits) -> io::Result<bool> {
    let body = long_body(rt.alloc())?;
    let input = request(rt.alloc(), &body)?;
    let wanted = echoed(rt.alloc(), &body)?;
    let pieces = Pieces::new(&input, 4_096, 4_096);
    is_served(
        rt,
        limits,
        App::Echo,
        pieces,
        &wanted,
        (Outcome::Finished, 2, 0),
    )
}

#[test]
fn a_body_of_two_great_events_is_echoed(rt: HostRuntime) -> Result<(), Fail> {
    let limits = Limits::new(16_384, 64, 1_048_576, 65_536, 16, 30_000, 1_000_000)?;
    let is_so = is_echoed(&rt, &limits)?;
    assert!(rt; is_so);
    Ok(())
}

/// Answers each request with 100,000 bytes in one event.
#[derive(Clone, Copy)]
struct SaysMuch;

impl Application for SaysMuch {
    type Task = Says;

    fn call(&self, alloc: Global, scope: &Scope) -> Result<Says, AppFault> {
        let Scope::Http(_) = scope else {
            return Err(AppFault::Failed);
        };
        let mut says = Says::with_room(alloc, Kind::Http, 2)?;
        says.add(Outgoing::ResponseStart {
            status: 200,
            headers: Headers::new(alloc),
            trailers: false,
        })?;
        says.add(Outgoing::ResponseBody {
            body: Octets::new(long_body(alloc)?),
            more_body: false,
        })?;
        Ok(says)
    }
}

/// The text of that, twice.
fn much_twice(alloc: Global) -> Result<Vec<u8>, AllocError> {
    let body = long_body(alloc)?;
    let mut text = Vec::new(alloc);
    for _time in 0..2 {
        text.extend_from_slice(PLAIN_HEAD)?;
        add_chunk(&mut text, b"186a0", &body)?;
        text.extend_from_slice(LAST_CHUNK)?;
    }
    Ok(text)
}

/// Whether both requests of the line are answered by this.
fn is_said_over<H: Host, T: AppTask + Send + 'static, A: Application<Task = T>>(
    rt: &H,
    way: Way,
    app: &A,
    line: &mut Memory<Pieces>,
    wanted: &[u8],
) -> io::Result<bool> {
    let (report, _) = serve(rt, way, &Limits::usual(), app, line)?;
    Ok((report.outcome, report.exchanges) == (Outcome::Finished, 2) && text_of(line) == wanted)
}

fn is_said_so<H: Host, T: AppTask + Send + 'static, A: Application<Task = T>>(
    rt: &H,
    way: Way,
    app: &A,
    input: &[u8],
    wanted: &[u8],
) -> io::Result<bool> {
    let mut line = line_of(rt, Pieces::new(input, 4_096, 4_096))?;
    is_said_over(rt, way, app, &mut line, wanted)
}

/// Whether this request, twice, is answered by this, in either way.
fn is_said<H: Host, T: AppTask + Send + 'static, A: Application<Task = T>>(
    rt: &H,
    app: &A,
    request: &[u8],
    wanted: &[u8],
) -> io::Result<bool> {
    let input = repeated(rt.alloc(), request, 2)?;
    let inline = is_said_so(rt, Way::Inline, app, &input, wanted)?;
    Ok(inline && is_said_so(rt, Way::Beside, app, &input, wanted)?)
}

fn is_much_said<H: Host>(rt: &H) -> io::Result<bool> {
    let wanted = much_twice(rt.alloc())?;
    is_said(rt, &SaysMuch, GET, &wanted)
}

#[test]
fn an_event_of_100000_bytes_is_written(rt: HostRuntime) -> Result<(), Fail> {
    let is_so = is_much_said(&rt)?;
    assert!(rt; is_so);
    Ok(())
}

/// How many bytes the value of a long trailer has.
const LONG_VALUE: usize = 8_192;

/// Answers each request with the content `x`, and a trailer with a long value.
#[derive(Clone, Copy)]
struct TrailsMuch;

impl Application for TrailsMuch {
    type Task = Says;

    fn call(&self, alloc: Global, scope: &Scope) -> Result<Says, AppFault> {
        let Scope::Http(_) = scope else {
            return Err(AppFault::Failed);
        };
        let Ok(headers) = long_field(alloc) else {
            return Err(AppFault::Failed);
        };
        let mut says = Says::with_room(alloc, Kind::Http, 3)?;
        says.add(Outgoing::ResponseStart {
            status: 200,
            headers: Headers::new(alloc),
            trailers: true,
        })?;
        says.add(Outgoing::ResponseBody {
            body: Octets::new(Vec::from_slice(alloc, b"x")?),
            more_body: false,
        })?;
        says.add(Outgoing::ResponseTrailers {
            headers,
            more_trailers: false,
        })?;
        Ok(says)
    }
}

fn long_field(alloc: Global) -> Result<Headers, HeaderError> {
    let value = repeated(alloc, b"a", LONG_VALUE)?;
    let mut headers = Headers::new(alloc);
    headers.push(b"x-long", &value)?;
    Ok(headers)
}

/// The text of that, twice.
fn trailed_twice(alloc: Global) -> Result<Vec<u8>, AllocError> {
    let value = repeated(alloc, b"a", LONG_VALUE)?;
    let mut text = Vec::new(alloc);
    for _time in 0..2 {
        text.extend_from_slice(PLAIN_HEAD)?;
        text.extend_from_slice(b"1\r\nx\r\n0\r\nx-long: ")?;
        text.extend_from_slice(&value)?;
        text.extend_from_slice(b"\r\n\r\n")?;
    }
    Ok(text)
}

fn is_trailed<H: Host>(rt: &H) -> io::Result<bool> {
    let wanted = trailed_twice(rt.alloc())?;
    is_said(rt, &TrailsMuch, GET_TAKING_TRAILERS, &wanted)
}

#[test]
fn a_trailer_of_8_kib_is_written(rt: HostRuntime) -> Result<(), Fail> {
    let is_so = is_trailed(&rt)?;
    assert!(rt; is_so);
    Ok(())
}

/// As many bytes as there are places, and 76 more.
fn many_events(alloc: Global) -> Result<Vec<u8>, AllocError> {
    let head = b"POST / HTTP/1.1\r\nHost: a\r\nContent-Length: 1100\r\n\r\n";
    let mut text = Vec::from_slice(alloc, head)?;
    for _event in 0..1_100 {
        text.push(b'a')?;
    }
    Ok(text)
}

/// What `Echo` answers, if each byte is an event.
fn many_chunks(alloc: Global) -> Result<Vec<u8>, AllocError> {
    let mut text = Vec::from_slice(alloc, ECHO_HEAD)?;
    for _event in 0..1_100 {
        text.extend_from_slice(b"1\r\na\r\n")?;
    }
    text.extend_from_slice(LAST_CHUNK)?;
    Ok(text)
}

fn are_echoed<H: Host>(rt: &H, limits: &Limits) -> io::Result<bool> {
    let input = many_events(rt.alloc())?;
    let wanted = many_chunks(rt.alloc())?;
    let pieces = Pieces::new(&input, 4_096, 4_096);
    is_served(
        rt,
        limits,
        App::Echo,
        pieces,
        &wanted,
        (Outcome::Finished, 1, 0),
    )
}

#[test]
fn events_go_through_1024_places(rt: HostRuntime) -> Result<(), Fail> {
    let limits = Limits::new(16_384, 64, 1_048_576, 1, 1_024, 30_000, 1_000_000)?;
    let is_so = are_echoed(&rt, &limits)?;
    assert!(rt; is_so);
    Ok(())
}
