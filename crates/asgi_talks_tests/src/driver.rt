//! An application over a plain pair, driven to its end: what it sends, as a text of one line an event.
ghost use Rattle.std.specs.Prelude.{◌≡◌, [], None, IfOk};
ghost use Rattle.futures.specs.Task.{Keeps};
ghost use Rattle.asgi_apps.specs.Scopes.{kind_of};
ghost use Rattle.asgi_pipes.specs.PlainPairs.{IsPlainPair};

use asgi_apps::{AppFault, AppTask, Application, Ended, Running, drive};
use asgi_io::CountingPause;
use asgi_pipes::{ConnEnd, EndKind, OutItem, Pipes, Plain, PlainApp, PlainConn};
use asgi_types::{
    Asgi, Chars, Extensions, Facts, Headers, HttpScope, HttpVersion, Incoming, Kind, LifespanScope,
    Names, Octets, Outgoing, Payload, Reason, Scope, State, WsScope,
};
use futures::task::{Context, Poll};
use futures::{Future, FutureExt};
use std::alloc::{AllocError, AllocGlobal, Global};
use std::process::Abort;
use std::random::RandomSource;
use std::test::Fail;

/// What the application is offered: at most six events.
#[derive(Clone, Copy)]
pub enum Offered {
    Nothing,
    Connect,
    Text(&'static str),
    Bytes(&'static str),
    /// The disconnect of a session, with this code.
    Gone(u16),
    /// A whole body.
    Last(&'static str),
}

/// What is asked.
#[derive(Clone, Copy)]
pub enum Ask {
    /// A session, at this path. The client offers the subprotocol `chat`.
    Session(&'static str),
    Request,
    Lifespan,
}

/// What a scope holds of what is asked.
#[derive(Clone, Copy)]
struct Asked {
    kind: Kind,
    path: &'static str,
}

/// What is asked, what is offered, and what is sent.
pub type Row = (Ask, &'static [Offered], &'static str);

fn asked_of(ask: Ask) -> Asked {
    match ask {
        Ask::Session(path) => Asked {
            kind: Kind::WebSocket,
            path,
        },
        Ask::Request => Asked {
            kind: Kind::Http,
            path: "/",
        },
        Ask::Lifespan => Asked {
            kind: Kind::Lifespan,
            path: "/",
        },
    }
}

/// How the application is called.
#[derive(Clone, Copy)]
enum Way {
    /// The scope is lent to it.
    Lent,
    /// The scope is given to it, as a server does.
    Given,
}

/// Tasks that are driven within one poll, which is where a context comes from.
#[derive(Drop)]
struct Served<A> {
    alloc: Global,
    app: A,
    row: Row,
}

impl<A: Application + Drop> Future for Served<A> {
    type Output = Result<bool, AppFault>;

    fn poll(&mut self, cx: &mut Context<'_>) -> Poll<Result<bool, AppFault>> {
        let lent = serve(self.alloc, cx, &self.app, Way::Lent, self.row);
        let given = serve(self.alloc, cx, &self.app, Way::Given, self.row);
        Poll::Ready(agreed(lent, given))
    }
}

/// What both calls gave; if that is not the same, not what the row holds. Want of memory is told in any case.
fn agreed(lent: Result<bool, AppFault>, given: Result<bool, AppFault>) -> Result<bool, AppFault> {
    if let Err(AppFault::NoMemory(_)) = lent {
        return lent;
    }
    if let Err(AppFault::NoMemory(_)) = given {
        return given;
    }
    if (lent, 0) == (given, 0) {
        lent
    } else {
        Ok(false)
    }
}

// What a task is given is made, and asked for again if memory was refused.

fn chars(alloc: Global, text: &str) -> Chars {
    if let Ok(made) = String::from_str(alloc, text) {
        return Chars::new(made);
    }
    match String::from_str(alloc, text) {
        Ok(made) => Chars::new(made),
        Err(_) => Chars::new(String::new(alloc)),
    }
}

fn octets(alloc: Global, text: &str) -> Octets {
    if let Ok(made) = Vec::from_slice(alloc, text.as_bytes()) {
        return Octets::new(made);
    }
    match Vec::from_slice(alloc, text.as_bytes()) {
        Ok(made) => Octets::new(made),
        Err(_) => Octets::new(Vec::new(alloc)),
    }
}

/// What `says` makes of a value. The value is of any type, so the proof sees no field of it.
fn of<T: Drop, S, F: FnOnce(&T) -> S>(value: T, says: F) -> S
    requires { F.IsAlwaysCallable says }
{
    says(&value)
}

const NO_EXTENSIONS: Extensions = Extensions {
    websocket_http_response: false,
    http_response_trailers: false,
};

/// The subprotocols that the client offers.
fn names(alloc: Global) -> Names {
    let mut names = Names::new(alloc);
    // A refused name is not held, and the row fails unless memory was refused.
    let _pushed = names.push(chars(alloc, "chat"));
    names
}

fn facts(alloc: Global) -> Facts {
    Facts {
        subprotocols: names(alloc),
        ..Facts::plain(alloc)
    }
}

fn http_scope(alloc: Global, asked: Asked) -> HttpScope {
    HttpScope {
        asgi: Asgi::of(Kind::Http),
        http_version: HttpVersion::V11,
        method: chars(alloc, "GET"),
        scheme: chars(alloc, "http"),
        path: chars(alloc, asked.path),
        raw_path: octets(alloc, asked.path),
        query_string: octets(alloc, ""),
        root_path: chars(alloc, ""),
        headers: Headers::new(alloc),
        client: None,
        server: None,
        state: State::new(alloc),
        extensions: NO_EXTENSIONS,
    }
}

/// The scope of a session at the root, with no fields.
pub fn root_scope(alloc: Global) -> WsScope {
    ws_scope(alloc, asked_of(Ask::Session("/")))
}

fn ws_scope(alloc: Global, asked: Asked) -> WsScope {
    WsScope {
        asgi: Asgi::of(Kind::WebSocket),
        http_version: HttpVersion::V11,
        scheme: chars(alloc, "ws"),
        path: chars(alloc, asked.path),
        raw_path: octets(alloc, asked.path),
        query_string: octets(alloc, ""),
        root_path: chars(alloc, ""),
        headers: Headers::new(alloc),
        client: None,
        server: None,
        subprotocols: names(alloc),
        state: State::new(alloc),
        extensions: NO_EXTENSIONS,
    }
}

fn lifespan_scope(alloc: Global) -> LifespanScope {
    LifespanScope {
        asgi: Asgi::of(Kind::Lifespan),
        state: State::new(alloc),
    }
}

fn scope_of(alloc: Global, asked: Asked) -> Scope
    ensures { kind_of result ≡ asked.kind }
{
    match asked.kind {
        Kind::Http => Scope::Http(http_scope(alloc, asked)),
        Kind::WebSocket => Scope::WebSocket(ws_scope(alloc, asked)),
        Kind::Lifespan => Scope::Lifespan(lifespan_scope(alloc)),
    }
}

fn at(offered: &[Offered], index: usize) -> Offered {
    match offered.get(index) {
        Some(one) => *one,
        None => Offered::Nothing,
    }
}

fn event_of(alloc: Global, offered: Offered) -> Option<Incoming> {
    match offered {
        Offered::Nothing => None,
        Offered::Connect => Some(Incoming::WsConnect),
        Offered::Text(text) => Some(message(Payload::Text(chars(alloc, text)))),
        Offered::Bytes(text) => Some(message(Payload::Bytes(octets(alloc, text)))),
        Offered::Gone(code) => gone(code),
        Offered::Last(text) => Some(request(octets(alloc, text))),
    }
}

fn message(payload: Payload) -> Incoming {
    Incoming::WsReceive { payload }
}

fn gone(code: u16) -> Option<Incoming> {
    let reason = Reason::new("")?;
    Some(Incoming::WsDisconnect { code, reason })
}

fn request(body: Octets) -> Incoming {
    Incoming::HttpRequest {
        body,
        more_body: false,
    }
}

/// Offers the event. There is a place for it.
fn offer(conn: &mut PlainConn, event: Option<Incoming>)
    ensures { ⟦<PlainConn as ConnEnd>⟧.tag conn.new ≡ ⟦<PlainConn as ConnEnd>⟧.tag conn.old }
{
    if let Some(event) = event {
        let _back = conn.offer(event);
    }
}

/// A pair of ends, with what is offered at the application's end.
#[derive(Drop)]
struct Pair {
    conn: PlainConn,
    app: PlainApp,
    ghost pair: { IsPlainPair conn app },
}

fn pair_of(alloc: Global, kind: Kind, offered: &[Offered]) -> Result<Pair, AllocError>
    ensures { IfOk result (λ made. (made.app.state.value.kind ≡ kind) × (made.app.state.value.heard.items ≡ []) × (made.app.state.value.said.items ≡ []) × (made.app.state.value.ended ≡ None)) }
{
    let (mut conn, mut app) = Plain.make(alloc, kind, facts(alloc), 16)?;
    offer(&mut conn, event_of(alloc, at(offered, 0)));
    offer(&mut conn, event_of(alloc, at(offered, 1)));
    offer(&mut conn, event_of(alloc, at(offered, 2)));
    offer(&mut conn, event_of(alloc, at(offered, 3)));
    offer(&mut conn, event_of(alloc, at(offered, 4)));
    offer(&mut conn, event_of(alloc, at(offered, 5)));
    Plain::carry(&mut conn, &mut app);
    Ok(Pair { conn, app })
}

fn task_of<A: Application>(
    alloc: Global,
    app: &A,
    way: Way,
    asked: Asked,
) -> Result<A::Task, AppFault>
    ensures { IfOk result (λ task. A.Task.stands task asked.kind [] []) }
{
    let scope = scope_of(alloc, asked);
    match way {
        Way::Lent => app.call(alloc, &scope),
        Way::Given => app.call_owned(alloc, scope),
    }
}

/// Calls the application, drives its task, and returns whether the connection takes what the row holds.
fn serve<A: Application>(
    alloc: Global,
    cx: &mut Context<'_>,
    app: &A,
    way: Way,
    row: Row,
) -> Result<bool, AppFault>
    ensures { Keeps cx.old cx.new }
{
    let (ask, offered, expected) = row;
    let asked = asked_of(ask);
    let task = task_of(alloc, app, way, asked)?;
    let pair = pair_of(alloc, asked.kind, offered)?;
    Ok(is_told(alloc, cx, task, pair, expected)?)
}

fn is_told<T: AppTask>(
    alloc: Global,
    cx: &mut Context<'_>,
    task: T,
    pair: Pair,
    expected: &str,
) -> Result<bool, AllocError>
    requires open { pair.app.state.value.ended ≡ None }
    requires stands { T.stands task pair.app.state.value.kind pair.app.state.value.heard.items pair.app.state.value.said.items }
    ensures { Keeps cx.old cx.new }
{
    let Pair { mut conn, app } = pair;
    let mut pause = CountingPause::new();
    let ended = drive(cx, Running::new(task, app), &mut pause, 3, 100);
    let Ended { mut app_end, .. } = ended;
    Plain::carry(&mut conn, &mut app_end);
    is_taken(alloc, &mut conn, expected)
}

/// Takes all, and returns whether it is the expected text.
fn is_taken(alloc: Global, conn: &mut PlainConn, expected: &str) -> Result<bool, AllocError> {
    let mut text = Vec::new(alloc);
    tell_all(alloc, &mut text, conn)?;
    Ok(text.as_slice() == expected.as_bytes())
}

fn tell_all(alloc: Global, text: &mut Vec<u8>, conn: &mut PlainConn) -> Result<(), AllocError> {
    for _item in 0..20 {
        if !of(conn.take(), |item| tell_item(alloc, text, item))? {
            return Ok(());
        }
    }
    Ok(())
}

/// Adds what was taken to the text, and returns whether it was anything.
fn tell_item(
    alloc: Global,
    text: &mut Vec<u8>,
    item: &Option<OutItem>,
) -> Result<bool, AllocError> {
    match item {
        Some(OutItem::Event(event)) => tell(alloc, text, event)?,
        Some(OutItem::Ended(end)) => text.extend_from_slice(word_of(*end).as_bytes())?,
        None => return Ok(false),
    }
    Ok(true)
}

fn word_of(end: EndKind) -> &'static str {
    match end {
        EndKind::Returned => "returned",
        EndKind::Faulted => "faulted",
        EndKind::Idle => "idle",
    }
}

fn tell(alloc: Global, text: &mut Vec<u8>, event: &Outgoing) -> Result<(), AllocError> {
    match event {
        Outgoing::ResponseStart {
            status,
            headers,
            ..
        } => tell_start(alloc, text, *status, headers),
        Outgoing::ResponseBody { body, .. } => add(text, &[b"last ", body.bytes(), b"|"]),
        Outgoing::WsAccept {
            subprotocol,
            headers,
        } => tell_accept(text, subprotocol, headers),
        Outgoing::WsSend { payload } => tell_message(text, payload),
        Outgoing::WsClose { code, reason } => tell_close(alloc, text, *code, reason.as_str()),
        _ => text.extend_from_slice(b"other|"),
    }
}

fn tell_start(
    alloc: Global,
    text: &mut Vec<u8>,
    status: u16,
    headers: &Headers,
) -> Result<(), AllocError> {
    let line = format!(in alloc; "start {status}")?;
    text.extend_from_slice(line.as_bytes())?;
    tell_fields(text, headers)
}

fn tell_fields(text: &mut Vec<u8>, headers: &Headers) -> Result<(), AllocError> {
    for (name, value) in headers.iter() {
        add(text, &[b" ", name, b"=", value])?;
    }
    text.extend_from_slice(b"|")
}

fn tell_accept(
    text: &mut Vec<u8>,
    subprotocol: &Option<Chars>,
    headers: &Headers,
) -> Result<(), AllocError> {
    text.extend_from_slice(b"accept")?;
    if let Some(name) = subprotocol {
        add(text, &[b" ", name.as_str().as_bytes()])?;
    }
    tell_fields(text, headers)
}

fn tell_message(text: &mut Vec<u8>, payload: &Payload) -> Result<(), AllocError> {
    match payload {
        Payload::Text(message) => add(text, &[b"text ", message.as_str().as_bytes(), b"|"]),
        Payload::Bytes(message) => add(text, &[b"bytes ", message.bytes(), b"|"]),
    }
}

fn tell_close(
    alloc: Global,
    text: &mut Vec<u8>,
    code: u16,
    reason: &str,
) -> Result<(), AllocError> {
    let word = format!(in alloc; "close {code} ")?;
    add(text, &[word.as_bytes(), reason.as_bytes(), b"|"])
}

fn add(text: &mut Vec<u8>, parts: &[&[u8]]) -> Result<(), AllocError> {
    for part in parts {
        text.extend_from_slice(part)?;
    }
    Ok(())
}

/// Whether the application sends what the row holds, or the fault of its call, however it is called.
fn run<R: RandomSource + AllocGlobal, A: Application + Drop>(
    rt: &R,
    app: A,
    row: Row,
) -> Result<bool, AppFault> {
    let served = Served {
        alloc: rt.alloc(),
        app,
        row,
    };
    match served.now_or_never(rt) {
        Ok(Some(said)) => said,
        Ok(None) => Err(AppFault::Failed),
        Err(_) => Err(AppFault::NoMemory(AllocError)),
    }
}

/// Whether the application sends what the row holds. For a fault of its call the row holds `faulted`.
pub fn is_said<R: RandomSource + AllocGlobal, A: Application + Drop>(
    rt: &R,
    app: A,
    row: Row,
) -> bool {
    match run(rt, app, row) {
        Ok(is_same) => is_same,
        Err(_) => row.2 == "faulted",
    }
}

/// What the first row holds that the application does not send.
fn first_unsaid<R: RandomSource + AllocGlobal, A: Application + Copy + Drop>(
    rt: &R,
    app: A,
    rows: &[Row],
) -> Option<&'static str> {
    for row in rows {
        if !is_said(rt, app, *row) {
            return Some(row.2);
        }
    }
    None
}

pub fn check<R: Abort + RandomSource + AllocGlobal, A: Application + Copy + Drop>(
    rt: &R,
    app: A,
    rows: &[Row],
) -> Result<(), Fail> {
    assert_eq!(rt; first_unsaid(rt, app, rows), None);
    Ok(())
}

/// If an allocation is refused, the fault of the call reports it, or that of the task; and the next
/// session is served whole.
fn is_said_at_last<R: RandomSource + AllocGlobal, A: Application + Copy + Drop>(
    rt: &R,
    app: A,
    row: Row,
) -> bool {
    match run(rt, app, row) {
        Ok(true) => true,
        Ok(false) | Err(AppFault::NoMemory(_)) => is_said(rt, app, row),
        Err(AppFault::Failed) => row.2 == "faulted",
    }
}

fn first_unsaid_at_last<R: RandomSource + AllocGlobal, A: Application + Copy + Drop>(
    rt: &R,
    app: A,
    rows: &[Row],
) -> Option<&'static str> {
    for row in rows {
        if !is_said_at_last(rt, app, *row) {
            return Some(row.2);
        }
    }
    None
}

pub fn check_memory<R: Abort + RandomSource + AllocGlobal, A: Application + Copy + Drop>(
    rt: &R,
    app: A,
    rows: &[Row],
) -> Result<(), Fail> {
    assert_eq!(rt; first_unsaid_at_last(rt, app, rows), None);
    Ok(())
}
