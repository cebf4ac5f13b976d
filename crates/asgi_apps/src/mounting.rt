//! One application under its prefix, and the longest prefix that a path is under.
ghost use Rattle.std.specs.Prelude.{◌≡◌, ◌++◌, ◌↔◌, ℕ, List, ◌∷◌, [], Option, length, IsTrue, IfOk};
ghost use Rattle.std.specs.Result.{IsErrOf};
ghost use Rattle.asgi_types.specs.declared.incoming.Incoming.{Incoming};
ghost use Rattle.asgi_types.specs.declared.outgoing.Outgoing.{Outgoing};
ghost use Rattle.asgi_types.specs.declared.end_kind.EndKind.{EndKind};
ghost use Rattle.asgi_apps.specs.Mounting.{IsLongest, root_path_of, with_root_path};
ghost use Rattle.asgi_apps.specs.Mounts.{IsBadPrefix, IsMounted, IsUnder, local_path, mounted_scope, prefixes_of};
ghost use Rattle.asgi_apps.specs.Scopes.{kind_of};

use crate::task::{AppFault, Application};
use asgi_types::{Chars, HttpScope, Scope, WsScope};
use std::alloc::{AllocError, Global};

const SLASH: &[u8] = b"/";

/// An application under its prefix.
#[derive(Debug, Drop)]
pub struct Mount<A> {
    /// The beginning of the paths that go to it, without a `/` at its end.
    pub prefix: Chars,
    /// The application.
    pub app: A,
}

/// A prefix that was found.
#[derive(Clone, Copy, Debug)]
pub struct Found {
    /// Its number, in the order of mounting.
    pub at: usize,
    /// Its length, in bytes.
    pub length: usize,
}

/// Whether the prefix is refused: it is not empty, and either does not begin with a `/` or ends
/// with one.
pub fn is_bad_prefix(prefix: &[u8]) -> bool
    ensures { IsTrue result ↔ IsBadPrefix prefix.now }
{
    if prefix.is_empty() {
        return false;
    }
    !prefix.starts_with(SLASH) || prefix.ends_with(SLASH)
}

/// Whether an application is mounted under exactly this prefix.
pub fn is_mounted<A>(mounts: &[Mount<A>], prefix: &[u8]) -> bool
    ensures { IsTrue result ↔ IsMounted (prefixes_of mounts.now) prefix.now }
{
    for mount in mounts {
        if mount.prefix.as_str().as_bytes() == prefix {
            return true;
        }
    }
    false
}

/// The path without the root path at its start, or the whole path if it does not start with that
/// (ASGI HTTP and WebSocket connection scope, `root_path`).
pub fn local_of<'a>(path: &'a [u8], root_path: &[u8]) -> &'a [u8]
    ensures { result.now ≡ local_path path.now root_path.now }
{
    match path.strip_prefix(root_path) {
        Some(local) => local,
        None => path,
    }
}

/// Whether the path is the prefix, or goes on after it with a `/`.
fn is_under(prefix: &[u8], path: &[u8]) -> bool
    ensures { IsTrue result ↔ IsUnder prefix.now path.now }
{
    let Some(rest) = path.strip_prefix(prefix) else {
        return false;
    };
    if rest.is_empty() {
        return true;
    }
    rest.starts_with(SLASH)
}

/// The longest prefix that the path is under: the path is the prefix, or goes on after it with a
/// `/`. None if the path is under none.
pub fn longest<A>(mounts: &[Mount<A>], path: &[u8]) -> Option<Found>
    ensures { IsLongest (prefixes_of mounts.now) path.now result }
{
    let mut found = None;
    for (at, mount) in mounts.iter().enumerate() {
        found = longer(found, at, mount.prefix.as_str().as_bytes(), path);
    }
    found
}

/// The longest prefix, after one more was looked at.
fn longer(found: Option<Found>, at: usize, prefix: &[u8], path: &[u8]) -> Option<Found>
    ensures { (prefixes : List (List ℕ)) → length prefixes ≡ at → IsLongest prefixes path.now found → IsLongest (prefixes ++ prefix.now ∷ []) path.now result }
{
    if !is_under(prefix, path) {
        return found;
    }
    if let Some(before) = found {
        if prefix.len() <= before.length {
            return found;
        }
    }
    Some(Found {
        at,
        length: prefix.len(),
    })
}

impl<A: Application> Mount<A> {
    /// Calls the application in the scope with the prefix added to `root_path` (ASGI HTTP and
    /// WebSocket connection scope, `root_path`). A lifespan scope is passed on as it is. The fault
    /// is the application's, or `NoMemory` if memory for the scope is refused.
    pub fn call(&self, alloc: Global, scope: &Scope) -> Result<A::Task, AppFault>
        ensures stands { IfOk result (λ task. A.Task.AppTask.stands task (kind_of scope.now) [] []) }
        ensures answers { IfOk result (λ task. (heard : List Incoming) (said : List Outgoing) (ended : Option EndKind) → A.Task.AppTask.answers task heard said ended → A.answers self.now.app (mounted_scope self.now.prefix scope.now) heard said ended) }
        ensures failed { IsErrOf result AppFault.Failed → A.refuses self.now.app (mounted_scope self.now.prefix scope.now) }
    {
        match scope {
            Scope::Http(_) => self.call_with_copy(alloc, scope),
            Scope::WebSocket(_) => self.call_with_copy(alloc, scope),
            Scope::Lifespan(_) => self.app.call(alloc, scope),
        }
    }

    /// The same for a scope that the caller gives away: only its `root_path` takes memory.
    pub fn call_owned(&self, alloc: Global, scope: Scope) -> Result<A::Task, AppFault>
        ensures stands { IfOk result (λ task. A.Task.AppTask.stands task (kind_of scope) [] []) }
        ensures answers { IfOk result (λ task. (heard : List Incoming) (said : List Outgoing) (ended : Option EndKind) → A.Task.AppTask.answers task heard said ended → A.answers self.now.app (mounted_scope self.now.prefix scope) heard said ended) }
        ensures failed { IsErrOf result AppFault.Failed → A.refuses self.now.app (mounted_scope self.now.prefix scope) }
    {
        match scope {
            Scope::Http(_) => self.call_under(alloc, scope),
            Scope::WebSocket(_) => self.call_under(alloc, scope),
            Scope::Lifespan(_) => self.app.call_owned(alloc, scope),
        }
    }

    /// Calls the application in a copy of the scope, with the prefix added.
    fn call_with_copy(&self, alloc: Global, scope: &Scope) -> Result<A::Task, AppFault>
        ensures stands { IfOk result (λ task. A.Task.AppTask.stands task (kind_of scope.now) [] []) }
        ensures answers { IfOk result (λ task. (heard : List Incoming) (said : List Outgoing) (ended : Option EndKind) → A.Task.AppTask.answers task heard said ended → A.answers self.now.app (mounted_scope self.now.prefix scope.now) heard said ended) }
        ensures failed { IsErrOf result AppFault.Failed → A.refuses self.now.app (mounted_scope self.now.prefix scope.now) }
    {
        match scope.copy(alloc) {
            Ok(copied) => self.call_under(alloc, copied),
            Err(e) => Err(AppFault::NoMemory(e)),
        }
    }

    fn call_under(&self, alloc: Global, scope: Scope) -> Result<A::Task, AppFault>
        ensures stands { IfOk result (λ task. A.Task.AppTask.stands task (kind_of scope) [] []) }
        ensures answers { IfOk result (λ task. (heard : List Incoming) (said : List Outgoing) (ended : Option EndKind) → A.Task.AppTask.answers task heard said ended → A.answers self.now.app (mounted_scope self.now.prefix scope) heard said ended) }
        ensures failed { IsErrOf result AppFault.Failed → A.refuses self.now.app (mounted_scope self.now.prefix scope) }
    {
        match mounted(alloc, self.prefix.as_str(), scope) {
            Ok(scope) => self.app.call_owned(alloc, scope),
            Err(e) => Err(AppFault::NoMemory(e)),
        }
    }
}

/// The scope with the prefix added to `root_path`, for which memory is taken.
fn mounted(alloc: Global, prefix: &str, scope: Scope) -> Result<Scope, AllocError>
    ensures { IfOk result (λ made. made ≡ mounted_scope prefix.now scope) }
{
    let root_path = joined(alloc, root_path(&scope), prefix)?;
    Ok(under(scope, root_path))
}

fn root_path(scope: &Scope) -> &str
    ensures { result.now ≡ root_path_of scope.now }
{
    match scope {
        Scope::Http(scope) => scope.root_path.as_str(),
        Scope::WebSocket(scope) => scope.root_path.as_str(),
        Scope::Lifespan(_) => "",
    }
}

fn joined(alloc: Global, front: &str, after: &str) -> Result<Chars, AllocError>
    ensures { IfOk result (λ text. text ≡ front.now ++ after.now) }
{
    let mut text = String::from_str(alloc, front)?;
    text.push_str(after)?;
    Ok(Chars::new(text))
}

/// The scope with this `root_path`.
fn under(scope: Scope, root_path: Chars) -> Scope
    ensures { result ≡ with_root_path scope root_path }
{
    match scope {
        Scope::Http(scope) => Scope::Http(HttpScope { root_path, ..scope }),
        Scope::WebSocket(scope) => Scope::WebSocket(WsScope { root_path, ..scope }),
        Scope::Lifespan(scope) => Scope::Lifespan(scope),
    }
}
