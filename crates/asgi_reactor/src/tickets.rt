//! What a reactor does with the tickets of its quota, if it has one.
ghost use Rattle.std.specs.Prelude.{◌≡◌, ◌+◌, ◌<◌, ℕ, IsSomeAnd, IsTrue};
ghost use Rattle.asgi_reactor.specs.Accepting.{IfArrived, IsNone};
ghost use Rattle.asgi_reactor.specs.Shares.{FoundSpent, known, new_share, quota_of, share_of};

use crate::quota::Ticketer;
use asgi_many::Next;

/// Whether there is a quota, and no connection of it is left.
pub(crate) fn is_spent(ticketer: &mut Option<Ticketer<'_>>) -> bool
    ensures yes { IsTrue result → IsSomeAnd ticketer.new FoundSpent }
    ensures share { (left : ℕ) → share_of ticketer.new left ≡ share_of ticketer.old left }
{
    match ticketer {
        Some(ticketer) => ticketer.is_over(),
        None => false,
    }
}

/// One more of the same quota, if there is one.
pub(crate) fn another<'a>(ticketer: &Option<Ticketer<'a>>) -> Option<Ticketer<'a>>
    ensures { (left : ℕ) → share_of result left ≡ new_share (quota_of ticketer.now) left }
{
    match ticketer {
        Some(ticketer) => Some(ticketer.another()),
        None => None,
    }
}

/// What has spent a ticket if a connection came, and else has given it back.
pub(crate) fn used<'a, L>(ticketer: Ticketer<'a>, next: &Next<L>) -> Ticketer<'a>
    requires { 0 < (known ticketer).held }
    ensures of { result.quota ≡ ticketer.entry.quota }
    ensures held { (known ticketer.entry).held ≡ (known result).held + 1 }
    ensures some { IfArrived next.now (λ _. (known result).spent ≡ (known ticketer.entry).spent + 1) }
    ensures none { IsNone next.now → (known result).spent ≡ (known ticketer.entry).spent }
{
    let mut ticketer = ticketer;
    match next {
        Next::Arrived(_newcomer) => ticketer.spend(),
        Next::NoneNow => ticketer.give_back(),
        Next::NoneEver => ticketer.give_back(),
    }
    ticketer
}
