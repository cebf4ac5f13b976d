//! Pairs of ends.
ghost use Rattle.std.specs.Prelude.{◌≡◌, ℕ, ◌+◌, false, [], None, is_some, IfSome, IsSome, IfOk, IsOk};
ghost use Rattle.asgi_types.specs.declared.scope.Kind.{Kind};
ghost use Rattle.asgi_protocol.specs.Lawful.{IsLawful};
ghost use Rattle.asgi_pipes.specs.Disconnects.{Hears};
ghost use Rattle.asgi_pipes.specs.Items.{items_of};
ghost use Rattle.asgi_pipes.specs.Queues.{KeepsOrder, open_places};

use crate::ends::{AppEnd, ConnEnd};
use asgi_types::{Facts, Kind};
use std::alloc::{AllocError, Global};

/// How many items were left in the two queues.
#[derive(Clone, Copy, Debug, PartialEq, Eq)]
pub struct Met {
    /// Events that were offered and not received, the disconnect among them.
    pub left_in: usize,
    /// Items that were put and not taken, the end among them.
    pub left_out: usize,
}

/// Makes pairs of ends, and brings them together again.
pub trait Pipes {
    /// The end of the connection.
    type Conn: ConnEnd;

    /// The end of the application.
    type App: AppEnd;

    // The two are the ends of one pair.
    ghost is_pair: { Self.Conn → Self.App → Type 0 };

    // The memory that they hold is enough for the ends of another exchange with this many event places.
    ghost serves_again: { Self.Conn → Self.App → ℕ → Type 0 };

    /// The two ends of an exchange in a scope of this kind, whose request has these facts, with
    /// `ring` event places each way. Every place of every queue is reserved here, also the one for
    /// the disconnect or the end. `AllocError` if memory is refused.
    fn make(
        &self,
        alloc: Global,
        kind: Kind,
        facts: Facts,
        ring: usize,
    ) -> Result<(Self::Conn, Self::App), AllocError>
        ensures inward { IfOk result (λ ends. (Self.Conn.offered ends.0 ≡ []) × (Self.Conn.is_broken ends.0 ≡ false) × (Self.App.heard ends.1 ≡ []) × (Self.App.pulled ends.1 ≡ []) × (Self.App.seen ends.1 ≡ [])) }
        ensures outward { IfOk result (λ ends. (Self.App.said ends.1 ≡ []) × (Self.App.ended ends.1 ≡ None) × (Self.Conn.got ends.0 ≡ []) × (Self.Conn.seen ends.0 ≡ [])) }
        ensures places { IfOk result (λ ends. (Self.Conn.ring ends.0 ≡ ring) × (Self.Conn.room ends.0 ≡ ring) × (Self.App.ring ends.1 ≡ ring) × (Self.App.room ends.1 ≡ ring)) }
        ensures capacity { IfOk result (λ ends. (Self.Conn.capacity ends.0 ≡ (ring + 1, ring + 1)) × (Self.App.capacity ends.1 ≡ (ring + 1, ring + 1))) }
        ensures scope { IfOk result (λ ends. (Self.App.kind ends.1 ≡ kind) × (Self.App.facts ends.1 ≡ facts) × (Self.App.has_moved ends.1 ≡ false)) }
        ensures pair { IfOk result (λ ends. is_pair ends.0 ends.1) };

    /// The ends of a new exchange, as `make` returns them, out of the ends of one that is over,
    /// whose memory may be reused. What was left between them is dropped. `AllocError` if memory
    /// must be allocated and is refused; then the old ends are gone too.
    fn renew(
        &self,
        alloc: Global,
        conn: Self::Conn,
        app: Self::App,
        kind: Kind,
        facts: Facts,
        ring: usize,
    ) -> Result<(Self::Conn, Self::App), AllocError>
        ensures inward { IfOk result (λ ends. (Self.Conn.offered ends.0 ≡ []) × (Self.Conn.is_broken ends.0 ≡ false) × (Self.App.heard ends.1 ≡ []) × (Self.App.pulled ends.1 ≡ []) × (Self.App.seen ends.1 ≡ [])) }
        ensures outward { IfOk result (λ ends. (Self.App.said ends.1 ≡ []) × (Self.App.ended ends.1 ≡ None) × (Self.Conn.got ends.0 ≡ []) × (Self.Conn.seen ends.0 ≡ [])) }
        ensures places { IfOk result (λ ends. (Self.Conn.ring ends.0 ≡ ring) × (Self.Conn.room ends.0 ≡ ring) × (Self.App.ring ends.1 ≡ ring) × (Self.App.room ends.1 ≡ ring)) }
        ensures capacity { IfOk result (λ ends. (Self.Conn.capacity ends.0 ≡ (ring + 1, ring + 1)) × (Self.App.capacity ends.1 ≡ (ring + 1, ring + 1))) }
        ensures scope { IfOk result (λ ends. (Self.App.kind ends.1 ≡ kind) × (Self.App.facts ends.1 ≡ facts) × (Self.App.has_moved ends.1 ≡ false)) }
        // Renewing fails only if memory must be allocated.
        ensures again { serves_again conn app ring → IsOk result }
        ensures pair { IfOk result (λ ends. is_pair ends.0 ends.1) };

    /// Brings the ends of one pair together, and returns how many items were left between them:
    /// never `None`. Only the disconnect or the end is ever in a reserved place.
    fn meet(conn: &mut Self::Conn, app: &mut Self::App) -> Option<Met>
        requires { is_pair conn.old app.old }
        ensures met { IsSome result }
        ensures inward { IfSome result (λ met. KeepsOrder (open_places (Self.Conn.ring conn.old) (Self.Conn.is_broken conn.old)) (Self.Conn.offered conn.old) (Self.App.pulled app.old) met.left_in) }
        ensures outward { IfSome result (λ met. KeepsOrder (open_places (Self.Conn.ring conn.old) (is_some (Self.App.ended app.old))) (items_of (Self.App.said app.old) (Self.App.ended app.old)) (Self.Conn.got conn.old) met.left_out) }
        ensures heard { Hears (Self.App.kind app.old) (Self.App.said app.old) (Self.App.pulled app.old) (Self.App.heard app.old) }
        ensures lawful { IsLawful (Self.App.kind app.old) (Self.App.facts app.old) (Self.App.said app.old) }
        // They stay the ends of that pair, with the same lists.
        ensures pair { is_pair conn.new app.new }
        ensures conn { (Self.Conn.offered conn.new ≡ Self.Conn.offered conn.old) × (Self.Conn.is_broken conn.new ≡ Self.Conn.is_broken conn.old) × (Self.Conn.got conn.new ≡ Self.Conn.got conn.old) }
        ensures conn_tag { (Self.Conn.tag conn.new ≡ Self.Conn.tag conn.old) × (Self.Conn.ring conn.new ≡ Self.Conn.ring conn.old) × (Self.Conn.capacity conn.new ≡ Self.Conn.capacity conn.old) }
        ensures app { (Self.App.heard app.new ≡ Self.App.heard app.old) × (Self.App.pulled app.new ≡ Self.App.pulled app.old) × (Self.App.said app.new ≡ Self.App.said app.old) × (Self.App.ended app.new ≡ Self.App.ended app.old) }
        ensures scope { (Self.App.kind app.new ≡ Self.App.kind app.old) × (Self.App.facts app.new ≡ Self.App.facts app.old) × (Self.App.has_moved app.new ≡ Self.App.has_moved app.old) }
        ensures app_tag { (Self.App.tag app.new ≡ Self.App.tag app.old) × (Self.App.ring app.new ≡ Self.App.ring app.old) × (Self.App.capacity app.new ≡ Self.App.capacity app.old) };

    // The calls of an end keep its tag, and so the pair.
    ghost stays_pair: { (c d : Self.Conn) (a b : Self.App) → Self.Conn.tag d ≡ Self.Conn.tag c → Self.App.tag b ≡ Self.App.tag a → is_pair c a → is_pair d b };
}
