//! Sending and receiving, for tasks that send one event at a time.
ghost use Rattle.std.specs.Prelude.{◌≡◌, [], ◌∷◌, ◌++◌, None};
ghost use Rattle.std.specs.Option.{option_to_list};
ghost use Rattle.futures.specs.Poll.{IfReady, OnPending};
ghost use Rattle.futures.specs.Task.{IsArmed, Keeps};
ghost use Rattle.asgi_protocol.specs.Verdicts.{verdict_on};
ghost use Rattle.asgi_protocol.specs.declared.verdict.Verdict.{Verdict};
ghost use Rattle.asgi_pipes.specs.Disconnects.{has_disconnect};
ghost use Rattle.asgi_apps.specs.Ends.{GoesOn};

use asgi_pipes::{AppEnd, Sent};
use asgi_types::{Incoming, Outgoing};
use futures::task::{Context, Poll};

/// Sends an event that passes. If no place is free for it, it is returned, unsent.
pub fn say<E: AppEnd>(cx: &mut Context<'_>, end: &mut E, event: Outgoing) -> Option<Outgoing>
    requires open { E.ended end.old ≡ None }
    requires passes { verdict_on (E.kind end.old) (E.facts end.old) (E.said end.old) (has_disconnect (E.heard end.old)) event ≡ Verdict.Pass }
    ensures said { E.said end.new ++ option_to_list result ≡ E.said end.old ++ event ∷ [] }
    ensures heard { E.heard end.new ≡ E.heard end.old }
    ensures end { GoesOn E.AppEnd None end.old end.new }
    ensures armed { IsArmed cx.new }
    ensures kept { Keeps cx.old cx.new }
{
    match end.poll_send(cx, event) {
        Sent::Done => {
            let _pending: Poll<()> = cx.yield_now();
            None
        }
        Sent::Full(event) => Some(event),
        Sent::Ignored => unreachable!(),
        Sent::Refused(_, _) => unreachable!(),
    }
}

/// Receives the next event; pending until one is there.
pub fn receive<E: AppEnd>(cx: &mut Context<'_>, end: &mut E) -> Poll<Incoming>
    requires { E.ended end.old ≡ None }
    ensures ready { IfReady result (λ event. E.heard end.new ≡ E.heard end.old ++ event ∷ []) }
    ensures pending { OnPending result ((E.heard end.new ≡ E.heard end.old) × IsArmed cx.new) }
    ensures said { E.said end.new ≡ E.said end.old }
    ensures end { GoesOn E.AppEnd None end.old end.new }
    ensures kept { Keeps cx.old cx.new }
{
    end.poll_receive(cx)
}
