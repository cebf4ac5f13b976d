//! What opens the sessions of one pattern.
ghost use Rattle.std.specs.Prelude.{◌≡◌, List, IfOk, ⊤, bytes_eq};
ghost use Rattle.std.specs.Option.{option_copied};
ghost use Rattle.std.specs.Result.{IsErrOf};
ghost use Rattle.std.specs.List.{find};
ghost use Rattle.asgi_types.specs.declared.scope.WsScope.{WsScope};
ghost use Rattle.asgi_handlers.specs.Params.{Param, param_in, params_of};
ghost use Rattle.asgi_talks.specs.declared.opened.Opened.{Opened};

use asgi_apps::AppFault;
use asgi_talks::{Opened, Talk};
use asgi_types::WsScope;
use std::alloc::Global;

/// Opens each session of a pattern: a talker that also gets the parameters of the path. What several
/// sessions share is behind the `&self`.
pub trait Room {
    /// What answers the messages of one session.
    type Session: Talk;

    // The promise: that the handshake of this scope, with these parameters of its path, was answered so.
    ghost opens: { Self → WsScope → List Param → Opened Self.Session → Type 0 } = { λ _ _ _ _. ⊤ };

    // The handshakes, with these parameters of their paths, that the room may fail to answer by its own judgement.
    ghost fails: { Self → WsScope → List Param → Type 0 } = { λ _ _ _. ⊤ };

    /// The answer to an opening handshake. Each parameter is its name and the part of the path that it
    /// took, in the order of the pattern: see `param_of`. `Failed` by the room's own judgement, `NoMemory`
    /// if memory is refused; then the client gets 500.
    fn open(
        &self,
        alloc: Global,
        scope: &WsScope,
        params: &[(&str, &str)],
    ) -> Result<Opened<Self::Session>, AppFault>
        ensures allowed { IfOk result (λ opened. opens self.now scope.now (params_of params.now) opened) }
        ensures failed { IsErrOf result AppFault.Failed → fails self.now scope.now (params_of params.now) };
}

/// A room that is borrowed, so that what it holds is shared and not copied.
impl<R: Room> Room for &R {
    type Session = R::Session;

    ghost opens = { λ room. R.opens room.now };

    ghost fails = { λ room. R.fails room.now };

    fn open(
        &self,
        alloc: Global,
        scope: &WsScope,
        params: &[(&str, &str)],
    ) -> Result<Opened<R::Session>, AppFault> {
        R::open(*self, alloc, scope, params)
    }
}

/// The part of the path that the first parameter of this name took; `None` if there is none.
pub fn param_of<'a>(params: &'a [(&'a str, &'a str)], name: &str) -> Option<&'a str>
    ensures { option_copied result ≡ param_in (params_of params.now) name.now }
{
    match first_param(params, name) {
        Some(found) => Some(found.1),
        None => None,
    }
}

/// The first parameter of that name.
fn first_param<'a>(params: &'a [(&'a str, &'a str)], name: &str) -> Option<&'a (&'a str, &'a str)>
    ensures { option_copied result ≡ find (λ param. bytes_eq param.0.now name.now) params.now }
{
    params.iter().find(|known| is_named(known.0, name))
}

fn is_named(known: &str, name: &str) -> bool
    ensures { result ≡ bytes_eq known.now name.now }
{
    known == name
}
