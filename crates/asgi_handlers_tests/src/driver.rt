//! A handler over a plain pair, driven to its end: what it sends, as a text of one line an event.
ghost use Rattle.std.specs.Prelude.{◌≡◌, [], None, IfOk};
ghost use Rattle.futures.specs.Task.{Keeps};
ghost use Rattle.asgi_apps.specs.Scopes.{kind_of};
ghost use Rattle.asgi_pipes.specs.PlainPairs.{IsPlainPair};

use asgi_apps::{AppFault, AppTask, Application, Ended, Running, drive};
use asgi_handlers::{Handled, Handler};
use asgi_io::CountingPause;
use asgi_pipes::{ConnEnd, EndKind, OutItem, Pipes, Plain, PlainApp, PlainConn};
use asgi_types::{
    Asgi, Chars, Extensions, Facts, Headers, HttpScope, HttpVersion, Incoming, Kind, LifespanScope,
    Names, Octets, Outgoing, Peer, Scope, State, StateValue, WsScope,
};
use futures::task::{Context, Poll};
use futures::{Future, FutureExt};
use std::alloc::{AllocError, AllocGlobal, Global};
use std::process::Abort;
use std::random::RandomSource;
use std::test::Fail;

/// What the application is offered: at most four events.
#[derive(Clone, Copy)]
pub enum Offered {
    Nothing,
    Part(&'static str),
    /// A part of so many bytes.
    Long(usize),
    Last(&'static str),
    Disconnect,
    Connect,
}

/// What is asked.
#[derive(Clone, Copy)]
pub enum Ask {
    /// A path.
    Get(&'static str),
    Post(&'static str),
    Delete(&'static str),
    /// A query, of the path `/query`.
    Query(&'static str),
    /// A path, and the prefix of it under which the application is mounted.
    Mounted(&'static str, &'static str),
    Session,
    Lifespan,
}

/// What a scope holds of what is asked.
#[derive(Clone, Copy)]
struct Asked {
    kind: Kind,
    method: &'static str,
    path: &'static str,
    root_path: &'static str,
    query: &'static str,
}

/// What is asked, what is offered, and what is sent.
pub type Row = (Ask, &'static [Offered], &'static str);

/// What a request by this method for this path holds.
fn held(method: &'static str, path: &'static str) -> Asked {
    Asked {
        kind: Kind::Http,
        method,
        path,
        root_path: "",
        query: "",
    }
}

fn asked_of(ask: Ask) -> Asked {
    let root = held("GET", "/");
    match ask {
        Ask::Get(path) => held("GET", path),
        Ask::Post(path) => held("POST", path),
        Ask::Delete(path) => held("DELETE", path),
        Ask::Query(query) => Asked {
            path: "/query",
            query,
            ..root
        },
        Ask::Mounted(path, root_path) => Asked {
            path,
            root_path,
            ..root
        },
        Ask::Session => Asked {
            kind: Kind::WebSocket,
            ..root
        },
        Ask::Lifespan => Asked {
            kind: Kind::Lifespan,
            ..root
        },
    }
}

/// How the application is called.
#[derive(Clone, Copy)]
enum Way {
    /// The scope is lent to it.
    Lent,
    /// The scope is given to it, as a server does.
    Given,
}

/// Tasks that are driven within one poll, which is where a context comes from.
#[derive(Drop)]
struct Served<A> {
    alloc: Global,
    app: A,
    row: Row,
}

impl<A: Application + Drop> Future for Served<A> {
    type Output = Result<bool, AppFault>;

    fn poll(&mut self, cx: &mut Context<'_>) -> Poll<Result<bool, AppFault>> {
        let lent = serve(self.alloc, cx, &self.app, Way::Lent, self.row);
        let given = serve(self.alloc, cx, &self.app, Way::Given, self.row);
        Poll::Ready(agreed(lent, given))
    }
}

/// What both calls gave; if that is not the same, not what the row holds. Want of memory is told in any case.
fn agreed(lent: Result<bool, AppFault>, given: Result<bool, AppFault>) -> Result<bool, AppFault> {
    if let Err(AppFault::NoMemory(_)) = lent {
        return lent;
    }
    if let Err(AppFault::NoMemory(_)) = given {
        return given;
    }
    if (lent, 0) == (given, 0) {
        lent
    } else {
        Ok(false)
    }
}

// What a task is given is made, and asked for again if memory was refused.

fn chars(alloc: Global, text: &str) -> Chars {
    if let Ok(made) = String::from_str(alloc, text) {
        return Chars::new(made);
    }
    match String::from_str(alloc, text) {
        Ok(made) => Chars::new(made),
        Err(_) => Chars::new(String::new(alloc)),
    }
}

fn octets(alloc: Global, text: &str) -> Octets {
    if let Ok(made) = Vec::from_slice(alloc, text.as_bytes()) {
        return Octets::new(made);
    }
    match Vec::from_slice(alloc, text.as_bytes()) {
        Ok(made) => Octets::new(made),
        Err(_) => Octets::new(Vec::new(alloc)),
    }
}

/// So many zeros.
fn zeros(alloc: Global, length: usize) -> Octets {
    let mut made = Vec::new(alloc);
    if made.resize(length, 0).is_err() {
        let _again = made.resize(length, 0);
    }
    Octets::new(made)
}

/// What `says` makes of a value. The value is of any type, so the proof sees no field of it.
fn of<T: Drop, S, F: FnOnce(&T) -> S>(value: T, says: F) -> S
    requires { F.IsAlwaysCallable says }
{
    says(&value)
}

const NO_EXTENSIONS: Extensions = Extensions {
    websocket_http_response: false,
    http_response_trailers: false,
};

/// Two fields of one name, and one of another.
fn fields(alloc: Global) -> Headers {
    let mut headers = Headers::new(alloc);
    // A refused field is not held, and the row fails unless memory was refused.
    let _one = headers.push(b"x-a", b"1");
    let _other = headers.push(b"X-B", b"2");
    let _again = headers.push(b"x-a", b"3");
    headers
}

fn state(alloc: Global) -> State {
    let mut state = State::new(alloc);
    let _set = state.set("n", StateValue::Number(7));
    state
}

fn http_scope(alloc: Global, asked: Asked) -> HttpScope {
    HttpScope {
        asgi: Asgi::of(Kind::Http),
        http_version: HttpVersion::V11,
        method: chars(alloc, asked.method),
        scheme: chars(alloc, "http"),
        path: chars(alloc, asked.path),
        raw_path: octets(alloc, asked.path),
        query_string: octets(alloc, asked.query),
        root_path: chars(alloc, asked.root_path),
        headers: fields(alloc),
        client: Some(Peer {
            host: chars(alloc, "192.0.2.1"),
            port: 5000,
        }),
        server: None,
        state: state(alloc),
        extensions: NO_EXTENSIONS,
    }
}

fn ws_scope(alloc: Global, asked: Asked) -> WsScope {
    WsScope {
        asgi: Asgi::of(Kind::WebSocket),
        http_version: HttpVersion::V11,
        scheme: chars(alloc, "ws"),
        path: chars(alloc, asked.path),
        raw_path: octets(alloc, asked.path),
        query_string: octets(alloc, asked.query),
        root_path: chars(alloc, asked.root_path),
        headers: Headers::new(alloc),
        client: None,
        server: None,
        subprotocols: Names::new(alloc),
        state: State::new(alloc),
        extensions: NO_EXTENSIONS,
    }
}

fn lifespan_scope(alloc: Global) -> LifespanScope {
    LifespanScope {
        asgi: Asgi::of(Kind::Lifespan),
        state: State::new(alloc),
    }
}

fn scope_of(alloc: Global, asked: Asked) -> Scope
    ensures { kind_of result ≡ asked.kind }
{
    match asked.kind {
        Kind::Http => Scope::Http(http_scope(alloc, asked)),
        Kind::WebSocket => Scope::WebSocket(ws_scope(alloc, asked)),
        Kind::Lifespan => Scope::Lifespan(lifespan_scope(alloc)),
    }
}

fn at(offered: &[Offered], index: usize) -> Offered {
    match offered.get(index) {
        Some(one) => *one,
        None => Offered::Nothing,
    }
}

fn event_of(alloc: Global, offered: Offered) -> Option<Incoming> {
    match offered {
        Offered::Nothing => None,
        Offered::Part(text) => Some(request(octets(alloc, text), true)),
        Offered::Long(length) => Some(request(zeros(alloc, length), true)),
        Offered::Last(text) => Some(request(octets(alloc, text), false)),
        Offered::Disconnect => Some(Incoming::HttpDisconnect),
        Offered::Connect => Some(Incoming::WsConnect),
    }
}

fn request(body: Octets, more_body: bool) -> Incoming {
    Incoming::HttpRequest { body, more_body }
}

/// Offers the event. There is a place for it.
fn offer(conn: &mut PlainConn, event: Option<Incoming>)
    ensures { ⟦<PlainConn as ConnEnd>⟧.tag conn.new ≡ ⟦<PlainConn as ConnEnd>⟧.tag conn.old }
{
    if let Some(event) = event {
        let _back = conn.offer(event);
    }
}

/// A pair of ends, with what is offered at the application's end.
#[derive(Drop)]
struct Pair {
    conn: PlainConn,
    app: PlainApp,
    ghost pair: { IsPlainPair conn app },
}

fn pair_of(alloc: Global, kind: Kind, offered: &[Offered]) -> Result<Pair, AllocError>
    ensures { IfOk result (λ made. (made.app.state.value.kind ≡ kind) × (made.app.state.value.heard.items ≡ []) × (made.app.state.value.said.items ≡ []) × (made.app.state.value.ended ≡ None)) }
{
    let (mut conn, mut app) = Plain.make(alloc, kind, Facts::plain(alloc), 16)?;
    offer(&mut conn, event_of(alloc, at(offered, 0)));
    offer(&mut conn, event_of(alloc, at(offered, 1)));
    offer(&mut conn, event_of(alloc, at(offered, 2)));
    offer(&mut conn, event_of(alloc, at(offered, 3)));
    Plain::carry(&mut conn, &mut app);
    Ok(Pair { conn, app })
}

fn task_of<A: Application>(
    alloc: Global,
    app: &A,
    way: Way,
    asked: Asked,
) -> Result<A::Task, AppFault>
    ensures { IfOk result (λ task. A.Task.stands task asked.kind [] []) }
{
    let scope = scope_of(alloc, asked);
    match way {
        Way::Lent => app.call(alloc, &scope),
        Way::Given => app.call_owned(alloc, scope),
    }
}

/// Calls the application, drives its task, and returns whether the connection takes what the row holds.
fn serve<A: Application>(
    alloc: Global,
    cx: &mut Context<'_>,
    app: &A,
    way: Way,
    row: Row,
) -> Result<bool, AppFault>
    ensures { Keeps cx.old cx.new }
{
    let (ask, offered, expected) = row;
    let asked = asked_of(ask);
    let task = task_of(alloc, app, way, asked)?;
    let pair = pair_of(alloc, asked.kind, offered)?;
    Ok(is_told(alloc, cx, task, pair, expected)?)
}

fn is_told<T: AppTask>(
    alloc: Global,
    cx: &mut Context<'_>,
    task: T,
    pair: Pair,
    expected: &str,
) -> Result<bool, AllocError>
    requires open { pair.app.state.value.ended ≡ None }
    requires stands { T.stands task pair.app.state.value.kind pair.app.state.value.heard.items pair.app.state.value.said.items }
    ensures { Keeps cx.old cx.new }
{
    let Pair { mut conn, app } = pair;
    let mut pause = CountingPause::new();
    let ended = drive(cx, Running::new(task, app), &mut pause, 3, 100);
    let Ended { mut app_end, .. } = ended;
    Plain::carry(&mut conn, &mut app_end);
    is_taken(alloc, &mut conn, expected)
}

/// Takes all, and returns whether it is the expected text.
fn is_taken(alloc: Global, conn: &mut PlainConn, expected: &str) -> Result<bool, AllocError> {
    let mut text = Vec::new(alloc);
    tell_all(alloc, &mut text, conn)?;
    Ok(text.as_slice() == expected.as_bytes())
}

fn tell_all(alloc: Global, text: &mut Vec<u8>, conn: &mut PlainConn) -> Result<(), AllocError> {
    for _item in 0..20 {
        if !of(conn.take(), |item| tell_item(alloc, text, item))? {
            return Ok(());
        }
    }
    Ok(())
}

/// Adds what was taken to the text, and returns whether it was anything.
fn tell_item(
    alloc: Global,
    text: &mut Vec<u8>,
    item: &Option<OutItem>,
) -> Result<bool, AllocError> {
    match item {
        Some(OutItem::Event(event)) => tell(alloc, text, event)?,
        Some(OutItem::Ended(end)) => text.extend_from_slice(word_of(*end).as_bytes())?,
        None => return Ok(false),
    }
    Ok(true)
}

fn word_of(end: EndKind) -> &'static str {
    match end {
        EndKind::Returned => "returned",
        EndKind::Faulted => "faulted",
        EndKind::Idle => "idle",
    }
}

fn tell(alloc: Global, text: &mut Vec<u8>, event: &Outgoing) -> Result<(), AllocError> {
    match event {
        Outgoing::ResponseStart {
            status,
            headers,
            ..
        } => tell_start(alloc, text, *status, headers),
        Outgoing::ResponseBody { body, more_body } => tell_body(text, body.bytes(), *more_body),
        Outgoing::WsClose { code, .. } => tell_close(alloc, text, *code),
        _ => text.extend_from_slice(b"other|"),
    }
}

fn tell_start(
    alloc: Global,
    text: &mut Vec<u8>,
    status: u16,
    headers: &Headers,
) -> Result<(), AllocError> {
    let line = format!(in alloc; "start {status}")?;
    text.extend_from_slice(line.as_bytes())?;
    for (name, value) in headers.iter() {
        add(text, &[b" ", name, b"=", value])?;
    }
    text.extend_from_slice(b"|")
}

fn tell_body(text: &mut Vec<u8>, body: &[u8], more_body: bool) -> Result<(), AllocError> {
    let word: &[u8] = if more_body { b"part " } else { b"last " };
    add(text, &[word, body, b"|"])
}

fn tell_close(alloc: Global, text: &mut Vec<u8>, code: u16) -> Result<(), AllocError> {
    let word = format!(in alloc; "close {code}|")?;
    text.extend_from_slice(word.as_bytes())
}

fn add(text: &mut Vec<u8>, parts: &[&[u8]]) -> Result<(), AllocError> {
    for part in parts {
        text.extend_from_slice(part)?;
    }
    Ok(())
}

/// Whether the application sends what the row holds, or the fault of its call, however it is called.
fn run<R: RandomSource + AllocGlobal, A: Application + Drop>(
    rt: &R,
    app: A,
    row: Row,
) -> Result<bool, AppFault> {
    let served = Served {
        alloc: rt.alloc(),
        app,
        row,
    };
    match served.now_or_never(rt) {
        Ok(Some(said)) => said,
        Ok(None) => Err(AppFault::Failed),
        Err(_) => Err(AppFault::NoMemory(AllocError)),
    }
}

/// Whether the application sends what the row holds. For a fault of its call the row holds `faulted`.
pub fn is_said<R: RandomSource + AllocGlobal, A: Application + Drop>(
    rt: &R,
    app: A,
    row: Row,
) -> bool {
    match run(rt, app, row) {
        Ok(is_same) => is_same,
        Err(_) => row.2 == "faulted",
    }
}

/// What the first row holds that the application of the handler does not send.
fn first_unsaid<R: RandomSource + AllocGlobal, H: Handler + Copy + Drop>(
    rt: &R,
    app: Handled<H>,
    rows: &[Row],
) -> Option<&'static str> {
    for row in rows {
        if !is_said(rt, app, *row) {
            return Some(row.2);
        }
    }
    None
}

pub fn check<R: Abort + RandomSource + AllocGlobal, H: Handler + Copy + Drop>(
    rt: &R,
    app: Handled<H>,
    rows: &[Row],
) -> Result<(), Fail> {
    assert_eq!(rt; first_unsaid(rt, app, rows), None);
    Ok(())
}
