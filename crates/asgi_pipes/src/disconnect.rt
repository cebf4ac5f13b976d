//! Disconnects, which an application receives again and again.
ghost use Rattle.std.specs.Prelude.{◌≡◌, [], None, Some};
ghost use Rattle.std.specs.Option.{option_map};
ghost use Rattle.asgi_pipes.specs.Disconnects.{event_of, disconnect_in, repeated_in, code_of, is_accept as is_accept_event};
ghost use Rattle.asgi_pipes.specs.private.Closings.{at_once_after, own_after};

use asgi_types::{Incoming, Kind, Outgoing, Reason};

/// A disconnect (ASGI HTTP and WebSocket message format 2.4, "Disconnect"). A disconnect takes no
/// memory, so that it can be received at any time.
#[derive(Clone, Copy, Debug)]
pub enum Disconnect {
    /// Of a request.
    Http,
    /// Of a session, with its close code and its reason (RFC 6455, section 7.4).
    WebSocket { code: u16, reason: Reason },
}

impl Disconnect {
    /// The event that an application receives.
    pub fn event(self) -> Incoming
        ensures { result ≡ event_of self }
    {
        match self {
            Disconnect::Http => Incoming::HttpDisconnect,
            Disconnect::WebSocket { code, reason } => Incoming::WsDisconnect { code, reason },
        }
    }

    /// The disconnect that the event is, or `None` for any other event.
    pub fn of(event: &Incoming) -> Option<Disconnect>
        ensures { option_map event_of result ≡ disconnect_in event.now }
    {
        match event {
            Incoming::HttpDisconnect => Some(Disconnect::Http),
            Incoming::WsDisconnect { code, reason } => Some(Disconnect::WebSocket {
                code: *code,
                reason: *reason,
            }),
            _ => None,
        }
    }

    /// Keeps a disconnect that was received, which in all scopes but a lifespan is received again;
    /// before it nothing was kept. Most events are none, and then nothing is moved.
    pub fn keep_heard(kept: &mut Option<Disconnect>, kind: Kind, event: &Incoming)
        requires { kept.old ≡ None }
        ensures { option_map event_of kept.new ≡ repeated_in kind event.now }
    {
        if let Kind::Lifespan = kind {
            return;
        }
        if let Some(disconnect) = Disconnect::of(event) {
            *kept = Some(disconnect);
        }
    }

    /// Keeps what is received from then on after an event that passed, if it has closed its scope;
    /// before it nothing was kept. Most events close nothing, and then nothing is moved.
    pub fn keep_after(
        kept: &mut Option<Disconnect>,
        is_closed: bool,
        kind: Kind,
        is_open: bool,
        event: &Outgoing,
    )
        requires { kept.old ≡ None }
        ensures { option_map event_of kept.new ≡ at_once_after is_closed kind is_open event.now }
    {
        if is_closed {
            *kept = Disconnect::after_closing(kind, is_open, event);
        }
    }

    /// What is received from then on after an event that has closed a scope of this kind; nothing
    /// in a lifespan scope. A session that was refused or denied, and so never open, has the code
    /// 1006 (RFC 6455, section 7.4.1); no reason is received.
    pub fn after_closing(kind: Kind, is_open: bool, event: &Outgoing) -> Option<Disconnect>
        ensures { option_map event_of result ≡ own_after kind is_open event.now }
    {
        match kind {
            Kind::Http => Some(Disconnect::Http),
            Kind::WebSocket => Some(of_session(close_code(is_open, event))),
            Kind::Lifespan => None,
        }
    }
}

/// The code of a session that ended without a close (RFC 6455, section 7.4.1).
const ABNORMAL: u16 = 1006;

fn of_session(code: u16) -> Disconnect
    ensures { result ≡ Disconnect.WebSocket code [] }
{
    match Reason::new("") {
        Some(reason) => Disconnect::WebSocket { code, reason },
        None => unreachable!(),
    }
}

/// The code of a close of an open session, else 1006.
fn close_code(is_open: bool, event: &Outgoing) -> u16
    ensures { result ≡ code_of is_open (Some event.now) }
{
    match event {
        Outgoing::WsClose { code, .. } if is_open => *code,
        _ => ABNORMAL,
    }
}

/// Whether the event accepts a session (ASGI HTTP and WebSocket message format 2.4, "Accept").
pub fn is_accept(event: &Outgoing) -> bool
    ensures { result ≡ is_accept_event event.now }
{
    matches!(event, Outgoing::WsAccept { .. })
}
