//! Tasks that send one whole answer.
ghost use Rattle.std.specs.Prelude.{◌≡◌, [], ◌∷◌, ◌++◌, Ok, IfOk};
ghost use Rattle.std.specs.Result.{IsErrOf};
ghost use Rattle.http_header.specs.FieldName.{IsFieldName};
ghost use Rattle.http_header.specs.FieldValue.{IsFieldValue};
ghost use Rattle.asgi_types.specs.declared.scope.Kind.TheVariants as kind;
ghost use Rattle.asgi_apps.specs.Answers.{close_events, line_feed, not_found_events, response, start_of, text_events};
ghost use Rattle.asgi_apps.specs.Saying.{Gives, IsToSay};

use crate::says::Says;
use crate::task::AppFault;
use asgi_types::{Chars, Headers, Kind, Octets, Outgoing};
use std::alloc::{AllocError, Global};

const CONTENT_TYPE: &[u8] = b"content-type";

const TEXT_PLAIN: &[u8] = b"text/plain";

const CONTENT_LENGTH: &[u8] = b"content-length";

const ZERO: &[u8] = b"0";

/// Responds to a request with 200 and a line of text, these bytes and a line feed, as `text/plain`.
/// `NoMemory` if memory is refused; there is no other fault.
pub fn respond_line(alloc: Global, text: &[u8]) -> Result<Says, AppFault>
    ensures gives { IfOk result (λ says. Gives says kind.Http (text_events (text.now ++ line_feed ∷ []))) }
    ensures failed { ¬ (IsErrOf result AppFault.Failed) }
{
    granted(line_response(alloc, text))
}

/// Responds to a request with 404 and no content. `NoMemory` if memory is refused; there is no
/// other fault.
pub fn respond_not_found(alloc: Global) -> Result<Says, AppFault>
    ensures gives { IfOk result (λ says. Gives says kind.Http not_found_events) }
    ensures failed { ¬ (IsErrOf result AppFault.Failed) }
{
    granted(response_of(alloc, 404, CONTENT_LENGTH, ZERO, Vec::new(alloc)))
}

/// Refuses a session, whose handshake the server then answers with 403 (ASGI HTTP and WebSocket
/// message format 2.4, "Close"). `NoMemory` if memory is refused; there is no other fault.
pub fn refuse(alloc: Global) -> Result<Says, AppFault>
    ensures gives { IfOk result (λ says. Gives says kind.WebSocket close_events) }
    ensures failed { ¬ (IsErrOf result AppFault.Failed) }
{
    granted(refusal(alloc))
}

/// The fault of a call for which no memory was granted.
fn granted(made: Result<Says, AllocError>) -> Result<Says, AppFault>
    ensures ok { IfOk result (λ says. made ≡ Ok says) }
    ensures failed { ¬ (IsErrOf result AppFault.Failed) }
{
    match made {
        Ok(says) => Ok(says),
        Err(e) => Err(AppFault::NoMemory(e)),
    }
}

fn line_response(alloc: Global, text: &[u8]) -> Result<Says, AllocError>
    ensures { IfOk result (λ says. IsToSay says kind.Http (text_events (text.now ++ line_feed ∷ []))) }
{
    let mut line = Vec::from_slice(alloc, text)?;
    line.push(b'\n')?;
    response_of(alloc, 200, CONTENT_TYPE, TEXT_PLAIN, line)
}

/// A response of one field and one body.
fn response_of(
    alloc: Global,
    status: u16,
    name: &[u8],
    value: &[u8],
    body: Vec<u8>,
) -> Result<Says, AllocError>
    requires name { IsFieldName name.now }
    requires value { IsFieldValue value.now }
    ensures { IfOk result (λ says. IsToSay says kind.Http (response status name.now value.now body.items)) }
{
    let start = start(alloc, status, name, value)?;
    let mut says = Says::with_room(alloc, Kind::Http, 2)?;
    says.add(start)?;
    says.add(Outgoing::ResponseBody {
        body: Octets::new(body),
        more_body: false,
    })?;
    Ok(says)
}

/// A "Response Start" of this status with one field (ASGI HTTP and WebSocket message format 2.4).
/// `AllocError` if memory is refused.
pub fn start(alloc: Global, status: u16, name: &[u8], value: &[u8]) -> Result<Outgoing, AllocError>
    requires name { IsFieldName name.now }
    requires value { IsFieldValue value.now }
    ensures { IfOk result (λ event. event ≡ start_of status name.now value.now) }
{
    let mut headers = Headers::new(alloc);
    headers.push_valid(name, value)?;
    Ok(Outgoing::ResponseStart {
        status,
        headers,
        trailers: false,
    })
}

fn refusal(alloc: Global) -> Result<Says, AllocError>
    ensures { IfOk result (λ says. IsToSay says kind.WebSocket close_events) }
{
    let mut says = Says::with_room(alloc, Kind::WebSocket, 1)?;
    says.add(close(alloc))?;
    Ok(says)
}

/// The event that refuses a session: a "Close" with the code 1000 and no reason (ASGI HTTP and
/// WebSocket message format 2.4).
pub fn close(alloc: Global) -> Outgoing
    ensures { close_events ≡ result ∷ [] }
{
    Outgoing::WsClose {
        code: 1000,
        reason: Chars::new(String::new(alloc)),
    }
}
