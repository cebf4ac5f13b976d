//! Tests on public calls.

mod denials;
mod ends;
mod memory;
mod progress;
mod responses;
mod statuses;
mod trailers;

use asgi_response::{Input, ResponseText};
use asgi_types::{
    Chars, Facts, Framing, HeaderError, Headers, HttpVersion, Names, Octets, Outgoing, Payload,
};
use std::alloc::{AllocError, Global};
use std::process::Abort;
use std::test::Fail;

/// What a request asks for.
#[derive(Clone, Copy)]
struct Ask {
    version: HttpVersion,
    head_only: bool,
    close: bool,
    expect: bool,
    trailers_ok: bool,
    framing: Framing,
}

/// A plain request over HTTP/1.1.
const GET: Ask = Ask {
    version: HttpVersion::V11,
    head_only: false,
    close: false,
    expect: false,
    trailers_ok: false,
    framing: Framing::Length(0),
};

/// The same of a client that takes trailers.
const TAKING: Ask = Ask {
    version: HttpVersion::V11,
    head_only: false,
    close: false,
    expect: false,
    trailers_ok: true,
    framing: Framing::Length(0),
};

/// The same over HTTP/1.0, after which the connection closes.
const OLD: Ask = Ask {
    version: HttpVersion::V10,
    head_only: false,
    close: true,
    expect: false,
    trailers_ok: false,
    framing: Framing::Length(0),
};

const HEAD: Ask = Ask {
    version: HttpVersion::V11,
    head_only: true,
    close: false,
    expect: false,
    trailers_ok: false,
    framing: Framing::Length(0),
};

const EXPECTING: Ask = Ask {
    version: HttpVersion::V11,
    head_only: false,
    close: false,
    expect: true,
    trailers_ok: false,
    framing: Framing::Length(0),
};

const CLOSING: Ask = Ask {
    version: HttpVersion::V11,
    head_only: false,
    close: true,
    expect: false,
    trailers_ok: false,
    framing: Framing::Length(0),
};

/// An opening handshake of a client that also waits for `100 Continue`.
const HANDSHAKE: Ask = Ask {
    version: HttpVersion::V11,
    head_only: false,
    close: false,
    expect: true,
    trailers_ok: false,
    framing: Framing::Upgrade,
};

const REFUSED_400: &str =
    "HTTP/1.1 400 Bad Request\r\ncontent-length: 0\r\nconnection: close\r\n\r\n";

const REFUSED_413: &str =
    "HTTP/1.1 413 Content Too Large\r\ncontent-length: 0\r\nconnection: close\r\n\r\n";

const REFUSED_426: &str =
    "HTTP/1.1 426 Upgrade Required\r\nupgrade: websocket\r\nsec-websocket-version: 13\r\ncontent-length: 0\r\nconnection: upgrade, close\r\n\r\n";

const REFUSED_500: &str =
    "HTTP/1.1 500 Internal Server Error\r\ncontent-length: 0\r\nconnection: close\r\n\r\n";

type Fields = &'static [(&'static str, &'static str)];

/// An event in a table.
#[derive(Clone, Copy)]
enum Say {
    Start(u16, Fields),
    /// A start that announces trailers.
    Announce(u16, Fields),
    Trailers(Fields),
    LastTrailers(Fields),
    Part(&'static str),
    Last(&'static str),
    /// A last body of this many letters `z`.
    LastLetters(usize),
    DenialStart(u16, Fields),
    DenialPart(&'static str),
    DenialLast(&'static str),
    Accept,
    Send(&'static str),
    Close,
    StopComplete,
}

impl Ask {
    fn facts(self, alloc: Global) -> Facts {
        Facts {
            version: self.version,
            head_only: self.head_only,
            close: self.close,
            expect: self.expect,
            trailers_ok: self.trailers_ok,
            framing: self.framing,
            key: [0; 24],
            subprotocols: Names::new(alloc),
        }
    }
}

impl Say {
    fn event(self, alloc: Global) -> Result<Outgoing, HeaderError> {
        match self {
            Say::Start(status, fields) => start(alloc, status, fields, false),
            Say::Announce(status, fields) => start(alloc, status, fields, true),
            Say::Trailers(fields) => section(alloc, fields, true),
            Say::LastTrailers(fields) => section(alloc, fields, false),
            Say::Part(text) => Ok(Outgoing::ResponseBody {
                body: body_of(alloc, text)?,
                more_body: true,
            }),
            Say::Last(text) => Ok(Outgoing::ResponseBody {
                body: body_of(alloc, text)?,
                more_body: false,
            }),
            Say::LastLetters(size) => Ok(Outgoing::ResponseBody {
                body: letters(alloc, size)?,
                more_body: false,
            }),
            Say::DenialStart(status, fields) => {
                let headers = headers_of(alloc, fields)?;
                Ok(Outgoing::DenialStart { status, headers })
            }
            Say::DenialPart(text) => Ok(Outgoing::DenialBody {
                body: body_of(alloc, text)?,
                more_body: true,
            }),
            Say::DenialLast(text) => Ok(Outgoing::DenialBody {
                body: body_of(alloc, text)?,
                more_body: false,
            }),
            Say::Accept => Ok(Outgoing::WsAccept {
                subprotocol: None,
                headers: Headers::new(alloc),
            }),
            Say::Send(text) => Ok(Outgoing::WsSend {
                payload: Payload::Text(Chars::new(String::from_str(alloc, text)?)),
            }),
            Say::Close => Ok(Outgoing::WsClose {
                code: 1000,
                reason: Chars::new(String::new(alloc)),
            }),
            Say::StopComplete => Ok(Outgoing::ShutdownComplete),
        }
    }
}

fn start(
    alloc: Global,
    status: u16,
    fields: Fields,
    trailers: bool,
) -> Result<Outgoing, HeaderError> {
    let headers = headers_of(alloc, fields)?;
    Ok(Outgoing::ResponseStart {
        status,
        headers,
        trailers,
    })
}

fn section(alloc: Global, fields: Fields, more_trailers: bool) -> Result<Outgoing, HeaderError> {
    let headers = headers_of(alloc, fields)?;
    Ok(Outgoing::ResponseTrailers {
        headers,
        more_trailers,
    })
}

fn headers_of(alloc: Global, fields: Fields) -> Result<Headers, HeaderError> {
    let mut headers = Headers::new(alloc);
    match push_all(&mut headers, fields) {
        Ok(()) => Ok(headers),
        Err(e) => Err(e),
    }
}

fn push_all(headers: &mut Headers, fields: Fields) -> Result<(), HeaderError> {
    for (name, value) in fields {
        headers.push(name.as_bytes(), value.as_bytes())?;
    }
    Ok(())
}

fn body_of(alloc: Global, text: &str) -> Result<Octets, AllocError> {
    Ok(Octets::new(Vec::from_slice(alloc, text.as_bytes())?))
}

fn letters(alloc: Global, size: usize) -> Result<Octets, AllocError> {
    Ok(Octets::new(vec![in alloc; b'z'; size]?))
}

/// The text for such a request, with no event taken.
fn fresh(alloc: Global, ask: Ask) -> ResponseText {
    ResponseText::new(alloc, &ask.facts(alloc))
}

/// Takes an event, which is dropped.
fn take(text: &mut ResponseText, event: Outgoing, out: &mut Vec<u8>) -> Result<(), AllocError> {
    text.take(&event, out)
}

fn take_all(
    text: &mut ResponseText,
    alloc: Global,
    said: &[Say],
    out: &mut Vec<u8>,
) -> Result<(), HeaderError> {
    for say in said {
        take(text, say.event(alloc)?, out)?;
    }
    Ok(())
}

fn write_all(
    text: &mut ResponseText,
    alloc: Global,
    said: &[Say],
    end: Option<Input>,
    out: &mut Vec<u8>,
) -> Result<(), HeaderError> {
    text.begin(out)?;
    take_all(text, alloc, said, out)?;
    if let Some(input) = end {
        text.end(input, out)?;
    }
    Ok(())
}

/// The result of `says` on all that is written for the events: what comes first, each event's text, and what the end
/// adds.
fn of_written<F: FnOnce(&[u8]) -> bool>(
    alloc: Global,
    ask: Ask,
    said: &[Say],
    end: Option<Input>,
    says: F,
) -> Result<bool, HeaderError>
    requires { F.IsAlwaysCallable says }
{
    let mut out = Vec::new(alloc);
    let done = write_all(&mut fresh(alloc, ask), alloc, said, end, &mut out);
    done?;
    Ok(says(out.as_slice()))
}

/// Whether the text is all that is written.
fn is_written(
    alloc: Global,
    ask: Ask,
    said: &[Say],
    end: Option<Input>,
    text: &str,
) -> Result<bool, HeaderError> {
    of_written(alloc, ask, said, end, |out| out == text.as_bytes())
}

/// The request and the events, and the text for them.
type Row = (&'static str, Ask, &'static [Say], &'static str);

/// Each row has its text.
fn are_written(rt: &(impl Abort + AllocGlobal), rows: &[Row]) -> Result<(), Fail> {
    for (name, ask, said, text) in rows {
        let is_so = is_written(rt.alloc(), *ask, *said, None, *text)?;
        assert!(rt; is_so, "{name}");
    }
    Ok(())
}
