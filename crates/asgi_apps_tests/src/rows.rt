//! Each ready application over a plain pair, driven to its end: what it sends, as a text of one line an event.
ghost use Rattle.std.specs.Prelude.{◌≡◌, [], None, IfOk};
ghost use Rattle.futures.specs.Task.{Keeps};
ghost use Rattle.asgi_apps.specs.Scopes.{kind_of};
ghost use Rattle.asgi_pipes.specs.PlainPairs.{IsPlainPair};

use asgi_apps::{
    AppFault, AppTask, Application, Echo, Ended, Hello, NotFound, RootPath, Running, WsEcho, drive,
};
use asgi_io::CountingPause;
use asgi_pipes::{ConnEnd, EndKind, OutItem, Pipes, Plain, PlainApp, PlainConn};
use asgi_types::{
    Asgi, Chars, Extensions, Facts, Framing, Headers, HttpScope, HttpVersion, Incoming, Kind,
    LifespanScope, Names, Octets, Outgoing, Payload, Reason, Scope, State, StateValue, WsScope,
};
use futures::task::{Context, Poll};
use futures::{Future, FutureExt};
use std::alloc::{AllocError, AllocGlobal, Global};
use std::random::RandomSource;
use std::test::Fail;

/// What the application is offered: at most four events.
#[derive(Clone, Copy)]
pub enum Offered {
    Nothing,
    Part(&'static str),
    Last(&'static str),
    Disconnect,
    Connect,
    Text(&'static str),
    Bytes(&'static str),
    Close(u16),
    Startup,
    Shutdown,
}

use Offered::{Bytes, Close, Connect, Disconnect, Last, Part, Text};

/// The value under the name `n` of a state.
#[derive(Clone, Copy)]
pub enum Held {
    Nothing,
    Number(u64),
    Text(&'static str),
}

/// What a scope holds of its request.
#[derive(Clone, Copy)]
pub struct Asked {
    pub path: &'static str,
    pub root_path: &'static str,
    pub held: Held,
}

pub const USUAL: Asked = Asked {
    path: "/a/b",
    root_path: "/a",
    held: Held::Nothing,
};

/// A kind of scope, what is offered, and what is sent.
pub type Row = (Kind, &'static [Offered], &'static str);

/// How the application is called.
#[derive(Clone, Copy)]
enum Way {
    /// The scope is lent to it.
    Lent,
    /// The scope is given to it, as a server does.
    Given,
}

/// Tasks that are driven within one poll, which is where a context comes from.
#[derive(Drop)]
struct Served<A> {
    alloc: Global,
    app: A,
    asked: Asked,
    row: Row,
}

impl<A: Application + Drop> Future for Served<A> {
    type Output = Result<bool, AppFault>;

    fn poll(&mut self, cx: &mut Context<'_>) -> Poll<Result<bool, AppFault>> {
        let lent = serve(self.alloc, cx, &self.app, Way::Lent, self.asked, self.row);
        let given = serve(self.alloc, cx, &self.app, Way::Given, self.asked, self.row);
        Poll::Ready(agreed(lent, given))
    }
}

/// What both calls gave; if that is not the same, not what the row holds. Want of memory is told in any case.
fn agreed(lent: Result<bool, AppFault>, given: Result<bool, AppFault>) -> Result<bool, AppFault> {
    if let Err(AppFault::NoMemory(_)) = lent {
        return lent;
    }
    if let Err(AppFault::NoMemory(_)) = given {
        return given;
    }
    if (lent, 0) == (given, 0) {
        lent
    } else {
        Ok(false)
    }
}

// What a task is given is made, and asked for again if memory was refused.

pub fn chars(alloc: Global, text: &str) -> Chars {
    let mut made = String::new(alloc);
    if made.push_str(text).is_err() {
        let _again = made.push_str(text);
    }
    Chars::new(made)
}

pub fn octets(alloc: Global, text: &str) -> Octets {
    let mut made = Vec::new(alloc);
    if made.extend_from_slice(text.as_bytes()).is_err() {
        let _again = made.extend_from_slice(text.as_bytes());
    }
    Octets::new(made)
}

/// What `says` makes of a value. The value is of any type, so the proof sees no field of it.
fn of<T: Drop, S, F: FnOnce(&T) -> S>(value: T, says: F) -> S
    requires { F.IsAlwaysCallable says }
{
    says(&value)
}

fn facts(alloc: Global) -> Facts {
    Facts::plain(alloc)
}

const NO_EXTENSIONS: Extensions = Extensions {
    websocket_http_response: false,
    http_response_trailers: false,
};

fn state_of(alloc: Global, held: Held) -> State {
    let mut state = State::new(alloc);
    let value = match held {
        Held::Nothing => return state,
        Held::Number(number) => StateValue::Number(number),
        Held::Text(text) => StateValue::Text(chars(alloc, text)),
    };
    // A refused value is not held, and the row fails unless memory was refused.
    let _set = state.set("n", value);
    state
}

fn http_scope(alloc: Global, asked: Asked) -> HttpScope {
    HttpScope {
        asgi: Asgi::of(Kind::Http),
        http_version: HttpVersion::V11,
        method: chars(alloc, "POST"),
        scheme: chars(alloc, "http"),
        path: chars(alloc, asked.path),
        raw_path: octets(alloc, "/a/b"),
        query_string: octets(alloc, ""),
        root_path: chars(alloc, asked.root_path),
        headers: Headers::new(alloc),
        client: None,
        server: None,
        state: state_of(alloc, asked.held),
        extensions: NO_EXTENSIONS,
    }
}

fn ws_scope(alloc: Global, asked: Asked) -> WsScope {
    WsScope {
        asgi: Asgi::of(Kind::WebSocket),
        http_version: HttpVersion::V11,
        scheme: chars(alloc, "ws"),
        path: chars(alloc, asked.path),
        raw_path: octets(alloc, "/a/b"),
        query_string: octets(alloc, ""),
        root_path: chars(alloc, asked.root_path),
        headers: Headers::new(alloc),
        client: None,
        server: None,
        subprotocols: Names::new(alloc),
        state: State::new(alloc),
        extensions: NO_EXTENSIONS,
    }
}

fn lifespan_scope(alloc: Global) -> LifespanScope {
    LifespanScope {
        asgi: Asgi::of(Kind::Lifespan),
        state: State::new(alloc),
    }
}

fn scope_of(alloc: Global, kind: Kind, asked: Asked) -> Scope
    ensures { kind_of result ≡ kind }
{
    match kind {
        Kind::Http => Scope::Http(http_scope(alloc, asked)),
        Kind::WebSocket => Scope::WebSocket(ws_scope(alloc, asked)),
        Kind::Lifespan => Scope::Lifespan(lifespan_scope(alloc)),
    }
}

fn at(offered: &[Offered], index: usize) -> Offered {
    match offered.get(index) {
        Some(one) => *one,
        None => Offered::Nothing,
    }
}

fn event_of(alloc: Global, offered: Offered) -> Option<Incoming> {
    match offered {
        Offered::Nothing => None,
        Offered::Part(text) => Some(request(octets(alloc, text), true)),
        Offered::Last(text) => Some(request(octets(alloc, text), false)),
        Offered::Disconnect => Some(Incoming::HttpDisconnect),
        Offered::Connect => Some(Incoming::WsConnect),
        Offered::Text(text) => Some(message(Payload::Text(chars(alloc, text)))),
        Offered::Bytes(text) => Some(message(Payload::Bytes(octets(alloc, text)))),
        Offered::Close(code) => closed(code),
        Offered::Startup => Some(Incoming::LifespanStartup),
        Offered::Shutdown => Some(Incoming::LifespanShutdown),
    }
}

fn message(payload: Payload) -> Incoming {
    Incoming::WsReceive { payload }
}

fn closed(code: u16) -> Option<Incoming> {
    let reason = Reason::new("")?;
    Some(Incoming::WsDisconnect { code, reason })
}

fn request(body: Octets, more_body: bool) -> Incoming {
    Incoming::HttpRequest { body, more_body }
}

/// Offers the event. There is a place for it.
fn offer(conn: &mut PlainConn, event: Option<Incoming>)
    ensures { ⟦<PlainConn as ConnEnd>⟧.tag conn.new ≡ ⟦<PlainConn as ConnEnd>⟧.tag conn.old }
{
    if let Some(event) = event {
        let _back = conn.offer(event);
    }
}

/// A pair of ends, with what is offered at the application's end.
#[derive(Drop)]
struct Pair {
    conn: PlainConn,
    app: PlainApp,
    ghost pair: { IsPlainPair conn app },
}

fn pair_of(alloc: Global, kind: Kind, offered: &[Offered]) -> Result<Pair, AllocError>
    ensures { IfOk result (λ made. (made.app.state.value.kind ≡ kind) × (made.app.state.value.heard.items ≡ []) × (made.app.state.value.said.items ≡ []) × (made.app.state.value.ended ≡ None)) }
{
    let (mut conn, mut app) = Plain.make(alloc, kind, facts(alloc), 16)?;
    offer(&mut conn, event_of(alloc, at(offered, 0)));
    offer(&mut conn, event_of(alloc, at(offered, 1)));
    offer(&mut conn, event_of(alloc, at(offered, 2)));
    offer(&mut conn, event_of(alloc, at(offered, 3)));
    Plain::carry(&mut conn, &mut app);
    Ok(Pair { conn, app })
}

fn task_of<A: Application>(
    alloc: Global,
    app: &A,
    way: Way,
    kind: Kind,
    asked: Asked,
) -> Result<A::Task, AppFault>
    ensures { IfOk result (λ task. A.Task.stands task kind [] []) }
{
    let scope = scope_of(alloc, kind, asked);
    match way {
        Way::Lent => app.call(alloc, &scope),
        Way::Given => app.call_owned(alloc, scope),
    }
}

/// Calls the application, drives its task, and returns whether the connection takes what the row holds.
fn serve<A: Application>(
    alloc: Global,
    cx: &mut Context<'_>,
    app: &A,
    way: Way,
    asked: Asked,
    row: Row,
) -> Result<bool, AppFault>
    ensures { Keeps cx.old cx.new }
{
    let (kind, offered, expected) = row;
    let task = task_of(alloc, app, way, kind, asked)?;
    let pair = pair_of(alloc, kind, offered)?;
    Ok(is_told(alloc, cx, task, pair, expected)?)
}

fn is_told<T: AppTask>(
    alloc: Global,
    cx: &mut Context<'_>,
    task: T,
    pair: Pair,
    expected: &str,
) -> Result<bool, AllocError>
    requires open { pair.app.state.value.ended ≡ None }
    requires stands { T.stands task pair.app.state.value.kind pair.app.state.value.heard.items pair.app.state.value.said.items }
    ensures { Keeps cx.old cx.new }
{
    let Pair { mut conn, app } = pair;
    let mut pause = CountingPause::new();
    let ended = drive(cx, Running::new(task, app), &mut pause, 3, 100);
    let Ended { mut app_end, .. } = ended;
    Plain::carry(&mut conn, &mut app_end);
    is_taken(alloc, &mut conn, expected)
}

/// Takes all, and returns whether it is the expected text.
fn is_taken(alloc: Global, conn: &mut PlainConn, expected: &str) -> Result<bool, AllocError> {
    let mut text = Vec::new(alloc);
    tell_all(alloc, &mut text, conn)?;
    Ok(text.as_slice() == expected.as_bytes())
}

fn tell_all(alloc: Global, text: &mut Vec<u8>, conn: &mut PlainConn) -> Result<(), AllocError> {
    for _item in 0..20 {
        if !of(conn.take(), |item| tell_item(alloc, text, item))? {
            return Ok(());
        }
    }
    Ok(())
}

/// Adds what was taken to the text, and returns whether it was anything.
fn tell_item(
    alloc: Global,
    text: &mut Vec<u8>,
    item: &Option<OutItem>,
) -> Result<bool, AllocError> {
    match item {
        Some(OutItem::Event(event)) => tell(alloc, text, event)?,
        Some(OutItem::Ended(end)) => text.extend_from_slice(word_of(*end).as_bytes())?,
        None => return Ok(false),
    }
    Ok(true)
}

fn word_of(end: EndKind) -> &'static str {
    match end {
        EndKind::Returned => "returned",
        EndKind::Faulted => "faulted",
        EndKind::Idle => "idle",
    }
}

fn tell(alloc: Global, text: &mut Vec<u8>, event: &Outgoing) -> Result<(), AllocError> {
    match event {
        Outgoing::ResponseStart {
            status,
            headers,
            ..
        } => tell_start(alloc, text, *status, headers),
        Outgoing::ResponseBody { body, more_body } => tell_body(text, body.bytes(), *more_body),
        Outgoing::WsAccept {
            subprotocol,
            headers,
        } => tell_accept(text, subprotocol, headers),
        Outgoing::WsSend { payload } => tell_message(text, payload),
        Outgoing::WsClose { code, reason } => tell_close(alloc, text, *code, reason.as_str()),
        Outgoing::StartupComplete { state } => tell_started(alloc, text, state),
        Outgoing::StartupFailed { message } => tell_line(text, b"start failed ", message),
        Outgoing::ShutdownComplete => text.extend_from_slice(b"stopped|"),
        Outgoing::ShutdownFailed { message } => tell_line(text, b"stop failed ", message),
        _ => text.extend_from_slice(b"other|"),
    }
}

fn tell_start(
    alloc: Global,
    text: &mut Vec<u8>,
    status: u16,
    headers: &Headers,
) -> Result<(), AllocError> {
    let line = format!(in alloc; "start {status}")?;
    text.extend_from_slice(line.as_bytes())?;
    tell_fields(text, headers)
}

fn tell_fields(text: &mut Vec<u8>, headers: &Headers) -> Result<(), AllocError> {
    for (name, value) in headers.iter() {
        add(text, &[b" ", name, b"=", value])?;
    }
    text.extend_from_slice(b"|")
}

fn tell_accept(
    text: &mut Vec<u8>,
    subprotocol: &Option<Chars>,
    headers: &Headers,
) -> Result<(), AllocError> {
    text.extend_from_slice(b"accept")?;
    if let Some(name) = subprotocol {
        add(text, &[b" ", name.as_str().as_bytes()])?;
    }
    tell_fields(text, headers)
}

fn tell_message(text: &mut Vec<u8>, payload: &Payload) -> Result<(), AllocError> {
    match payload {
        Payload::Text(message) => add(text, &[b"text ", message.as_str().as_bytes(), b"|"]),
        Payload::Bytes(message) => add(text, &[b"bytes ", message.bytes(), b"|"]),
    }
}

fn tell_body(text: &mut Vec<u8>, body: &[u8], more_body: bool) -> Result<(), AllocError> {
    let word: &[u8] = if more_body { b"part " } else { b"last " };
    add(text, &[word, body, b"|"])
}

fn tell_close(
    alloc: Global,
    text: &mut Vec<u8>,
    code: u16,
    reason: &str,
) -> Result<(), AllocError> {
    let word = format!(in alloc; "close {code} ")?;
    add(text, &[word.as_bytes(), reason.as_bytes(), b"|"])
}

fn tell_started(alloc: Global, text: &mut Vec<u8>, state: &State) -> Result<(), AllocError> {
    text.extend_from_slice(b"started")?;
    if let Some(StateValue::Number(number)) = state.get("n") {
        let held = format!(in alloc; " n={number}")?;
        text.extend_from_slice(held.as_bytes())?;
    }
    text.extend_from_slice(b"|")
}

fn tell_line(text: &mut Vec<u8>, word: &[u8], message: &Chars) -> Result<(), AllocError> {
    add(text, &[word, message.as_str().as_bytes(), b"|"])
}

fn add(text: &mut Vec<u8>, parts: &[&[u8]]) -> Result<(), AllocError> {
    for part in parts {
        text.extend_from_slice(part)?;
    }
    Ok(())
}

/// Whether the application sends what the row holds, or its fault, however it is called.
pub fn run<R: RandomSource + AllocGlobal, A: Application + Drop>(
    rt: &R,
    app: A,
    asked: Asked,
    row: Row,
) -> Result<bool, AppFault> {
    let served = Served {
        alloc: rt.alloc(),
        app,
        asked,
        row,
    };
    match served.now_or_never(rt) {
        Ok(Some(said)) => said,
        Ok(None) => Err(AppFault::Failed),
        Err(_) => Err(AppFault::NoMemory(AllocError)),
    }
}

pub const SILENCE: &[Offered] = &[];

/// Whether the application sends what the row holds. For a fault the row holds `faulted`.
fn is_said<R: RandomSource + AllocGlobal, A: Application + Copy + Drop>(
    rt: &R,
    app: A,
    row: Row,
) -> bool {
    match run(rt, app, USUAL, row) {
        Ok(is_same) => is_same,
        Err(_) => row.2 == "faulted",
    }
}

/// What the first row holds that the application does not send.
fn first_unsaid<R: RandomSource + AllocGlobal, A: Application + Copy + Drop>(
    rt: &R,
    app: A,
    rows: &[Row],
) -> Option<&'static str> {
    for row in rows {
        if !is_said(rt, app, *row) {
            return Some(row.2);
        }
    }
    None
}

pub fn check<R: RandomSource + AllocGlobal, A: Application + Copy + Drop>(
    rt: &R,
    app: A,
    rows: &[Row],
) -> Result<(), Fail> {
    match first_unsaid(rt, app, rows) {
        Some(unsaid) => Err(Fail::from(unsaid)),
        None => Ok(()),
    }
}

const GREETED: Row = (
    Kind::Http,
    SILENCE,
    "start 200 content-type=text/plain|last hello\n|returned",
);

/// A session is refused.
pub const CLOSED: Row = (Kind::WebSocket, SILENCE, "close 1000 |returned");

const HELLO: &[Row] = &[
    GREETED,
    (
        Kind::Http,
        &[Last("abc"), Disconnect],
        "start 200 content-type=text/plain|last hello\n|returned",
    ),
    CLOSED,
    (Kind::Lifespan, SILENCE, "faulted"),
];

#[test]
fn hello_greets(rt: HostRuntime) -> Result<(), Fail> {
    check(&rt, Hello, HELLO)
}

const MISSED: Row = (
    Kind::Http,
    SILENCE,
    "start 404 content-length=0|last |returned",
);

const NOT_FOUND: &[Row] = &[MISSED, CLOSED, (Kind::Lifespan, SILENCE, "faulted")];

#[test]
fn not_found_has_no_content(rt: HostRuntime) -> Result<(), Fail> {
    check(&rt, NotFound, NOT_FOUND)
}

const ROOTED: Row = (
    Kind::Http,
    SILENCE,
    "start 200 content-type=text/plain|last /a\n|returned",
);

const ROOT_PATH: &[Row] = &[ROOTED, CLOSED, (Kind::Lifespan, SILENCE, "faulted")];

#[test]
fn root_path_is_said_in_a_line(rt: HostRuntime) -> Result<(), Fail> {
    check(&rt, RootPath, ROOT_PATH)
}

const ECHOED: Row = (
    Kind::Http,
    &[Part("abc"), Part(""), Last("d")],
    "start 200 content-type=application/octet-stream|part abc|part |last d|returned",
);

const ECHO: &[Row] = &[
    (
        Kind::Http,
        &[Last("abc")],
        "start 200 content-type=application/octet-stream|last abc|returned",
    ),
    ECHOED,
    (
        Kind::Http,
        &[Part("abc"), Disconnect],
        "start 200 content-type=application/octet-stream|part abc|returned",
    ),
    (
        Kind::Http,
        &[Part("abc")],
        "start 200 content-type=application/octet-stream|part abc|idle",
    ),
    CLOSED,
    (Kind::Lifespan, SILENCE, "faulted"),
];

#[test]
fn echo_says_what_it_hears(rt: HostRuntime) -> Result<(), Fail> {
    check(&rt, Echo, ECHO)
}

const SENT_BACK: Row = (
    Kind::WebSocket,
    &[Connect, Text("Hello"), Bytes("ab"), Close(1005)],
    "accept|text Hello|bytes ab|returned",
);

const NO_SESSION: Row = (
    Kind::Http,
    &[Last("abc"), Disconnect],
    "start 404 content-length=0|last |returned",
);

const WS_ECHO: &[Row] = &[
    (Kind::WebSocket, &[Connect, Close(1000)], "accept|returned"),
    SENT_BACK,
    (
        Kind::WebSocket,
        &[Connect, Text(""), Bytes(""), Text("a")],
        "accept|text |bytes |text a|idle",
    ),
    (Kind::WebSocket, &[Connect, Connect], "accept|idle"),
    (
        Kind::WebSocket,
        &[Text("Hello"), Connect, Text("a")],
        "accept|text a|idle",
    ),
    (Kind::WebSocket, &[Close(1006)], "returned"),
    (Kind::WebSocket, SILENCE, "idle"),
    NO_SESSION,
    (Kind::Lifespan, SILENCE, "faulted"),
];

#[test]
fn ws_echo_sends_each_message_back(rt: HostRuntime) -> Result<(), Fail> {
    check(&rt, WsEcho, WS_ECHO)
}

/// If an allocation is refused, the fault reports it, and the next call answers whole.
fn is_said_at_last<R: RandomSource + AllocGlobal, A: Application + Copy + Drop>(
    rt: &R,
    app: A,
    row: Row,
) -> bool {
    let again = match run(rt, app, USUAL, row) {
        Err(AppFault::NoMemory(_)) => run(rt, app, USUAL, row),
        answer => answer,
    };
    again.unwrap_or(false)
}

fn first_unsaid_at_last<R: RandomSource + AllocGlobal, A: Application + Copy + Drop>(
    rt: &R,
    app: A,
    rows: &[Row],
) -> Option<&'static str> {
    for row in rows {
        if !is_said_at_last(rt, app, *row) {
            return Some(row.2);
        }
    }
    None
}

pub fn check_memory<R: RandomSource + AllocGlobal, A: Application + Copy + Drop>(
    rt: &R,
    app: A,
    rows: &[Row],
) -> Result<(), Fail> {
    match first_unsaid_at_last(rt, app, rows) {
        Some(unsaid) => Err(Fail::from(unsaid)),
        None => Ok(()),
    }
}

/// What each application sends with all memory there.
const GREETINGS: &[Row] = &[GREETED, CLOSED];

const MISSES: &[Row] = &[MISSED];

const ROOTS: &[Row] = &[ROOTED];

const ECHOES: &[Row] = &[ECHOED, CLOSED];

const SENDS: &[Row] = &[SENT_BACK, NO_SESSION];

#[test]
fn memory_for_each_application(rt: HostRuntime) -> Result<(), Fail> {
    check_memory(&rt, Hello, GREETINGS)?;
    check_memory(&rt, NotFound, MISSES)?;
    check_memory(&rt, RootPath, ROOTS)?;
    check_memory(&rt, Echo, ECHOES)?;
    check_memory(&rt, WsEcho, SENDS)
}
