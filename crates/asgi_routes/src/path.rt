//! What a table of routes reads of a request: the path without its mount, and the method.
ghost use Rattle.std.specs.Prelude.{◌≡◌};
ghost use Rattle.asgi_apps.specs.Mounts.{local_path};
ghost use Rattle.asgi_routes.specs.Methods.{asked_for};

const GET: &str = "GET";

const HEAD: &str = "HEAD";

/// The path without the root path at its start, or the whole path if it does not start with that
/// (ASGI HTTP and WebSocket connection scope, `root_path`).
pub fn local_of<'a>(path: &'a str, root_path: &str) -> &'a str
    ensures { result.now ≡ local_path path.now root_path.now }
{
    match path.strip_prefix(root_path) {
        Some(local) => local,
        None => path,
    }
}

/// The method whose endpoint replies: that of HEAD is GET (RFC 9110, section 9.3.2).
pub fn asked_of(method: &str) -> &str
    ensures { result.now ≡ asked_for method.now }
{
    if method == HEAD { GET } else { method }
}
