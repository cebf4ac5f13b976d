//! Receiving, for a task that receives one event at a time.
ghost use Rattle.std.specs.Prelude.{◌≡◌, [], ◌∷◌, ◌++◌, None};
ghost use Rattle.futures.specs.Poll.{IfReady, OnPending};
ghost use Rattle.futures.specs.Task.{IsArmed, Keeps};
ghost use Rattle.asgi_apps.specs.Ends.{GoesOn};

use asgi_pipes::AppEnd;
use asgi_types::Incoming;
use futures::task::{Context, Poll};

/// Receives the next event; pending until one is there.
pub fn receive<E: AppEnd>(cx: &mut Context<'_>, end: &mut E) -> Poll<Incoming>
    requires { E.ended end.old ≡ None }
    ensures ready { IfReady result (λ event. E.heard end.new ≡ E.heard end.old ++ event ∷ []) }
    ensures pending { OnPending result ((E.heard end.new ≡ E.heard end.old) × IsArmed cx.new) }
    ensures said { E.said end.new ≡ E.said end.old }
    ensures end { GoesOn E.AppEnd None end.old end.new }
    ensures kept { Keeps cx.old cx.new }
{
    end.poll_receive(cx)
}
