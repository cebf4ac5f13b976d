//! Which site has begun a session.
ghost use Rattle.std.specs.Prelude.{◌≡◌, ◌++◌, ◌↔◌, IsTrue};
ghost use Rattle.asgi_talks.specs.Origins.{HasOwnOrigin, IsPageOf};

use asgi_types::WsScope;

const HTTP: &[u8] = b"http://";

const HTTPS: &[u8] = b"https://";

/// Whether no page of another site has begun the session: the handshake has no `origin`, or one with
/// the host and the port of its `host` (RFC 6455, section 10.2). A browser sends both, and a page
/// can set neither; a program that is no browser can send any. Refuse the others
/// (`Opened::Refused`) if what a session may do depends on who its client is, or on where it is.
pub fn is_own_origin(scope: &WsScope) -> bool
    ensures { IsTrue result ↔ HasOwnOrigin scope.now.headers }
{
    let Some(origin) = scope.headers.get(b"origin") else {
        return true;
    };
    let Some(host) = scope.headers.get(b"host") else {
        return false;
    };
    is_page_of(host, origin)
}

/// Whether a page of this host has this origin.
fn is_page_of(host: &[u8], origin: &[u8]) -> bool
    ensures { IsTrue result ↔ IsPageOf host.now origin.now }
{
    is_joined(origin, HTTP, host) || is_joined(origin, HTTPS, host)
}

/// Whether the text is the two parts.
fn is_joined(text: &[u8], first: &[u8], rest: &[u8]) -> bool
    ensures { IsTrue result ↔ (text.now ≡ first.now ++ rest.now) }
{
    match text.strip_prefix(first) {
        Some(after) => after == rest,
        None => false,
    }
}
