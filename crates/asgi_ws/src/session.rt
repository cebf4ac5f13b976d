//! The calls of the message layer, on a session that may not have begun.
ghost use Rattle.std.specs.Prelude.{◌≡◌};
ghost use Rattle.asgi_ws.specs.Wires.{AnswersRead, AnswersBy, IsSessionOn, IsSent, IfDone, IfFailed, IfNoMemory, IsRefused, IsPutOf, TellsWhy, failing_code, if_stands, payload_step, closing_step, ping_step};

use crate::convert::{answer_to, message_with};
use crate::messages::{Got, Put};
use crate::stream::Stream;
use crate::tap::Tap;
use asgi_types::{Payload, Reason};
use std::alloc::Global;
use tungstenite::{
    Bytes, CloseCode, CloseFrame, Error, Message, NoMask, Role, Utf8Bytes, WebSocket,
    WebSocketConfig,
};

pub type Session<S> = WebSocket<Tap<S>, NoMask>;

/// How many bytes one read of the stream asks for, and how many the layer reserves.
const READ_BUFFER: usize = 4_096;

/// A server's session over the stream, whose first input is the leftover, the bytes of its first
/// frames. Allocates nothing.
pub fn session_on<S: Drop>(alloc: Global, stream: S, leftover: Vec<u8>) -> Session<S>
    ensures { IsSessionOn stream leftover.items result }
{
    WebSocket::from_partially_read(
        alloc,
        Tap::new(stream),
        NoMask,
        leftover,
        Role::Server,
        Some(WebSocketConfig::default().read_buffer_size(READ_BUFFER)),
    )
}

/// Returns the next message. `Failed` if no session has begun. A client whose session fails by its
/// own fault is told why by a close (RFC 6455, section 7.1.7).
pub fn read<S: Stream + Drop>(alloc: Global, session: &mut Option<Session<S>>) -> Got
    ensures { AnswersRead (λ t. S.remaining t.stream) (λ t. S.contents t.stream) session.old session.new result }
{
    let Some(socket) = session else {
        return Got::Failed;
    };
    let (answer, stands) = read_next(alloc, socket);
    if stands {
        return answer;
    }
    *session = None;
    answer
}

/// The next message, and whether the session stands after it.
fn read_next<S: Stream + Drop>(alloc: Global, socket: &mut Session<S>) -> (Got, bool)
    ensures { AnswersBy (λ t. S.remaining t.stream) (λ t. S.contents t.stream) socket.old (if_stands result.1 socket.new) result.0 }
{
    let given = socket.read();
    let stop = socket.get_ref().stop;
    let stands = tell_why(socket, code_of(&given));
    (answer_to(alloc, given, stop), stands)
}

/// The code of the close that tells a client why its session fails; `None` where it is not the
/// client's fault.
fn code_of(given: &Result<Message, Error>) -> Option<CloseCode>
    ensures { result ≡ failing_code given.now }
{
    match given {
        Err(Error::Protocol(_)) => Some(CloseCode::Protocol),
        Err(Error::Utf8) => Some(CloseCode::Invalid),
        Err(Error::Capacity(_)) => Some(CloseCode::Size),
        _ => None,
    }
}

/// Sends a close with the code, if there is one, and no reason, and returns whether the session
/// stands. A close that is refused is not tried again: the session has failed. The layer refuses
/// none for want of room, but its contract allows that, and says nothing of what is left then.
fn tell_why<S: Stream + Drop>(socket: &mut Session<S>, code: Option<CloseCode>) -> bool
    ensures { TellsWhy (λ t. S.contents t.stream) socket.old (if_stands result socket.new) code }
{
    let Some(code) = code else {
        return true;
    };
    let told = socket.close(Some(CloseFrame {
        code,
        reason: Utf8Bytes::new(),
    }));
    match told {
        Ok(()) | Err(Error::Io(_) | Error::OutOfMemory) => true,
        Err(_) => false,
    }
}

/// Sends a payload. `Failed` if no session has begun or the layer refuses it, `NoMemory` if memory
/// is refused.
pub fn send<S: Stream + Drop>(session: &mut Option<Session<S>>, payload: Payload) -> Put
    ensures sent { IfDone result (IsSent (λ t. S.contents t.stream) session.old session.new (payload_step payload)) }
    ensures refused { IfFailed result (IsRefused (λ t. S.contents t.stream) session.old session.new (payload_step payload)) }
    ensures memory { IfNoMemory result (session.new ≡ session.old) }
{
    let Some(socket) = session else {
        return Put::Failed;
    };
    let Ok(message) = message_with(payload) else {
        return Put::NoMemory;
    };
    put_of(socket.send(message))
}

/// Sends a close with this code and reason (RFC 6455, section 5.5.1). The result is as for `send`.
pub fn close<S: Stream + Drop>(
    alloc: Global,
    session: &mut Option<Session<S>>,
    code: u16,
    reason: &Reason,
) -> Put
    ensures sent { IfDone result (IsSent (λ t. S.contents t.stream) session.old session.new (closing_step code reason.now)) }
    ensures refused { IfFailed result (IsRefused (λ t. S.contents t.stream) session.old session.new (closing_step code reason.now)) }
    ensures memory { IfNoMemory result (session.new ≡ session.old) }
{
    let Some(socket) = session else {
        return Put::Failed;
    };
    let Ok(text) = Utf8Bytes::copy_from_str(alloc, reason.as_str()) else {
        return Put::NoMemory;
    };
    put_of(socket.close(Some(CloseFrame {
        code: CloseCode::from(code),
        reason: text,
    })))
}

/// Sends a ping with no data (RFC 6455, section 5.5.2). The result is as for `send`.
pub fn ping<S: Stream + Drop>(session: &mut Option<Session<S>>) -> Put
    ensures sent { IfDone result (IsSent (λ t. S.contents t.stream) session.old session.new ping_step) }
    ensures refused { IfFailed result (IsRefused (λ t. S.contents t.stream) session.old session.new ping_step) }
    ensures memory { IfNoMemory result (session.new ≡ session.old) }
{
    let Some(socket) = session else {
        return Put::Failed;
    };
    put_of(socket.send(Message::Ping(Bytes::from_static(b""))))
}

fn put_of(outcome: Result<(), Error>) -> Put
    ensures { IsPutOf outcome result }
{
    match outcome {
        Ok(()) => Put::Done,
        Err(Error::OutOfMemory) => Put::NoMemory,
        Err(_) => Put::Failed,
    }
}
