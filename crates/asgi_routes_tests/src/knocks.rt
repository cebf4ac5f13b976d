//! A handshake, and what a talker answers to it and to one message after it, as a text.
use crate::asked::{NO_EXTENSIONS, add, chars, octets};
use asgi_apps::AppFault;
use asgi_talks::{Answer, Opened, Talk, Talker, Tells};
use asgi_types::{Asgi, Chars, Headers, HttpVersion, Kind, Names, Payload, State, WsScope};
use std::alloc::{AllocError, Global};
use std::test::Fail;

/// A path, the prefix of it under which the application is mounted, and what comes of the session:
/// `refused`, `failed`, or how it was accepted, its answer to the text `hi`, and what it says unasked.
#[derive(Clone, Copy)]
pub struct Knock(pub &'static str, pub &'static str, pub &'static str);

fn scope_of(alloc: Global, path: &str, root_path: &str) -> WsScope {
    WsScope {
        asgi: Asgi::of(Kind::WebSocket),
        http_version: HttpVersion::V11,
        scheme: chars(alloc, "ws"),
        path: chars(alloc, path),
        raw_path: octets(alloc, path),
        query_string: octets(alloc, ""),
        root_path: chars(alloc, root_path),
        headers: Headers::new(alloc),
        client: None,
        server: None,
        subprotocols: Names::new(alloc),
        state: State::new(alloc),
        extensions: NO_EXTENSIONS,
    }
}

/// Whether of the handshake comes what the row holds.
fn is_opened<T: Talker>(alloc: Global, talker: &T, knock: Knock) -> Result<bool, AppFault>
where
    T::Session: Tells,
{
    let Knock(path, root_path, expected) = knock;
    let scope = scope_of(alloc, path, root_path);
    is_opened_in(alloc, talker, &scope, expected)
}

fn is_opened_in<T: Talker>(
    alloc: Global,
    talker: &T,
    scope: &WsScope,
    expected: &str,
) -> Result<bool, AppFault>
where
    T::Session: Tells,
{
    match talker.open(alloc, scope)? {
        Opened::Refused => Ok(expected == "refused"),
        Opened::Accepted {
            subprotocol,
            headers,
            mut session,
        } => is_said(alloc, &subprotocol, &headers, &mut session, expected),
    }
}

/// Whether a session that is accepted so says what the row holds.
fn is_said<S: Tells>(
    alloc: Global,
    subprotocol: &Option<Chars>,
    headers: &Headers,
    session: &mut S,
    expected: &str,
) -> Result<bool, AppFault> {
    let mut text = Vec::new(alloc);
    add_opening(&mut text, subprotocol, headers)?;
    add_said(alloc, &mut text, session)?;
    Ok(text.as_slice() == expected.as_bytes())
}

fn add_opening(
    text: &mut Vec<u8>,
    subprotocol: &Option<Chars>,
    headers: &Headers,
) -> Result<(), AllocError> {
    add(text, &[b"accept"])?;
    if let Some(name) = subprotocol {
        add(text, &[b" ", name.as_str().as_bytes()])?;
    }
    for (name, value) in headers.iter() {
        add(text, &[b" ", name, b"=", value])?;
    }
    Ok(())
}

/// Adds what the session answers to `hi`, and then what it says unasked.
fn add_said<S: Tells>(alloc: Global, text: &mut Vec<u8>, session: &mut S) -> Result<(), AppFault> {
    let message = Payload::Text(chars(alloc, "hi"));
    let answer = session.hear(alloc, message)?;
    add_first(text, answer)?;
    let said = session.tell(alloc)?;
    add_first(text, said)?;
    Ok(())
}

/// Adds the first message, which is a text.
fn add_first(text: &mut Vec<u8>, answer: Answer) -> Result<(), AllocError> {
    let mut messages = answer.messages;
    match messages.take_first() {
        Some(Payload::Text(message)) => add(text, &[b"|", message.as_str().as_bytes()]),
        _ => add(text, &[b"|"]),
    }
}

/// The same; if memory was refused the talker is asked again, and its answer is whole.
fn is_opened_at_last<T: Talker>(alloc: Global, talker: &T, knock: Knock) -> Result<bool, AppFault>
where
    T::Session: Tells,
{
    match is_opened(alloc, talker, knock) {
        Err(AppFault::NoMemory(_)) => is_opened(alloc, talker, knock),
        opened => opened,
    }
}

/// Whether of the handshake comes what the row holds, or `failed` for a fault.
fn holds<T: Talker>(alloc: Global, talker: &T, knock: &Knock) -> bool
where
    T::Session: Tells,
{
    match is_opened_at_last(alloc, talker, *knock) {
        Ok(is_same) => is_same,
        Err(_) => knock.2 == "failed",
    }
}

/// Fails with what the first row holds of which something else comes.
pub fn knock_all<T: Talker>(alloc: Global, talker: &T, knocks: &[Knock]) -> Result<(), Fail>
where
    T::Session: Tells,
{
    for knock in knocks {
        if !holds(alloc, talker, knock) {
            return Err(Fail::from(knock.2));
        }
    }
    Ok(())
}
