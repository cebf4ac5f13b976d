//! Conversions between messages of the message layer and those of a session.
ghost use Rattle.std.specs.Prelude.{◌≡◌, Some, IfOk};
ghost use Rattle.tungstenite.specs.Socket.{content_of};
ghost use Rattle.tungstenite.specs.declared.message.Message.TheVariants as wire;
ghost use Rattle.asgi_ws.specs.Wires.{IsGotOf, IsAnswerTo, waited_for, content_of_payload};

use crate::messages::{Got, Msg};
use crate::tap::Stop;
use asgi_io::is_passing;
use asgi_types::{Chars, Octets, Payload, Reason};
use std::alloc::{AllocError, Global};
use tungstenite::{Bytes, CloseFrame, Error, Message, Utf8Bytes};

/// The message that was read, in memory of its own; `NoMemory` if that is refused. The data of a
/// ping or a pong is left out.
pub fn got_of(alloc: Global, message: &Message) -> Got
    ensures { IsGotOf message.now result }
{
    match message {
        Message::Text(text) => match String::from_str(alloc, text.as_str()) {
            Ok(text) => Got::Message(Msg::Text(Chars::new(text))),
            Err(_) => Got::NoMemory,
        },
        Message::Binary(bytes) => match Vec::from_slice(alloc, bytes.as_slice()) {
            Ok(bytes) => Got::Message(Msg::Bytes(Octets::new(bytes))),
            Err(_) => Got::NoMemory,
        },
        Message::Ping(_) => Got::Message(Msg::Ping),
        Message::Pong(_) => Got::Message(Msg::Pong),
        Message::Close(None) => Got::Message(Msg::Close(None)),
        Message::Close(Some(frame)) => close_of(frame),
    }
}

// A control frame has no room for a longer reason, so the result is always a message.
fn close_of(frame: &CloseFrame) -> Got
    ensures { IsGotOf (wire.Close (Some frame.now)) result }
{
    match Reason::new(frame.reason.as_str()) {
        Some(reason) => Got::Message(Msg::Close(Some((u16::from(frame.code), reason)))),
        None => Got::Failed,
    }
}

/// The result of a read, by what the message layer returned and how the input has stopped: if the
/// layer waits for more, `Idle`, or `Ended` or `Failed` once the input has.
pub fn answer_to(alloc: Global, given: Result<Message, Error>, stop: Option<Stop>) -> Got
    ensures { IsAnswerTo given stop result }
{
    match given {
        Ok(message) => got_of(alloc, &message),
        Err(Error::OutOfMemory) => Got::NoMemory,
        Err(Error::ConnectionClosed) => Got::Ended,
        Err(Error::Io(e)) => {
            if is_passing(&e) {
                return wait(stop);
            }
            Got::Failed
        }
        Err(_) => Got::Failed,
    }
}

// The layer waits for the stream.
fn wait(stop: Option<Stop>) -> Got
    ensures { result ≡ waited_for stop }
{
    match stop {
        None => Got::Idle,
        Some(Stop::Ended) => Got::Ended,
        Some(Stop::Failed | Stop::Stuck) => Got::Failed,
    }
}

/// The payload as the message layer takes it, in the memory that it has. `AllocError` if further
/// memory is refused.
pub fn message_with(payload: Payload) -> Result<Message, AllocError>
    ensures { IfOk result (λ m. content_of m ≡ content_of_payload payload) }
{
    match payload {
        Payload::Text(text) => Ok(Message::Text(Utf8Bytes::from_string(text.into_string())?)),
        Payload::Bytes(bytes) => Ok(Message::Binary(Bytes::from_vec(bytes.into_vec())?)),
    }
}
