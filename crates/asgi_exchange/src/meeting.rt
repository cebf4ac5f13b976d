//! The two halves of an exchange meet.
ghost use Rattle.std.specs.Prelude.{◌≡◌, ℕ, is_some, IfSome, IsSome};
ghost use Rattle.asgi_types.specs.declared.limits.Limits.{Limits};
ghost use Rattle.asgi_types.specs.declared.scope.Kind.TheVariants.{Http, WebSocket};
ghost use Rattle.asgi_protocol.specs.Lawful.{IsLawful};
ghost use Rattle.asgi_pipes.specs.Disconnects.{Hears};
ghost use Rattle.asgi_pipes.specs.Items.{items_of};
ghost use Rattle.asgi_pipes.specs.Queues.{KeepsOrder, open_places};
ghost use Rattle.asgi_exchange.specs.Halves.{ConnKeeps};
ghost use Rattle.asgi_exchange.specs.Http.{http};
ghost use Rattle.asgi_exchange.specs.HttpExchange.{IsHttpExchange};
ghost use Rattle.asgi_ws.specs.declared.messages.Msg.{Msg};
ghost use Rattle.asgi_exchange.specs.Session.{Output, Handshake};
ghost use Rattle.asgi_exchange.specs.SessionExchange.{IsSessionExchange};
ghost use Rattle.asgi_exchange.specs.Views.{ConnView};
ghost use Rattle.asgi_exchange.specs.WebSocket.{web_socket};

use asgi_pipes::{Met, Pipes};

/// Brings the ends of one exchange together, and returns how many items were left between them:
/// never `None`. What the connection's half kept and the lists of the ends make an exchange, with
/// no step of the application's half.
pub fn join<P: Pipes>(conn: &mut P::Conn, app: &mut P::App) -> Option<Met>
    requires { P.is_pair conn.old app.old }
    ensures met { IsSome result }
    ensures inward { IfSome result (λ met. KeepsOrder (open_places (P.Conn.ring conn.old) (P.Conn.is_broken conn.old)) (P.Conn.offered conn.old) (P.App.pulled app.old) met.left_in) }
    ensures outward { IfSome result (λ met. KeepsOrder (open_places (P.Conn.ring conn.old) (is_some (P.App.ended app.old))) (items_of (P.App.said app.old) (P.App.ended app.old)) (P.Conn.got conn.old) met.left_out) }
    ensures heard { Hears (P.App.kind app.old) (P.App.said app.old) (P.App.pulled app.old) (P.App.heard app.old) }
    ensures lawful { IsLawful (P.App.kind app.old) (P.App.facts app.old) (P.App.said app.old) }
    // They stay the ends of that pair, with the same lists.
    ensures pair { P.is_pair conn.new app.new }
    ensures conn { (P.Conn.offered conn.new ≡ P.Conn.offered conn.old) × (P.Conn.is_broken conn.new ≡ P.Conn.is_broken conn.old) × (P.Conn.got conn.new ≡ P.Conn.got conn.old) }
    ensures conn_tag { (P.Conn.tag conn.new ≡ P.Conn.tag conn.old) × (P.Conn.ring conn.new ≡ P.Conn.ring conn.old) × (P.Conn.capacity conn.new ≡ P.Conn.capacity conn.old) }
    ensures app { (P.App.heard app.new ≡ P.App.heard app.old) × (P.App.pulled app.new ≡ P.App.pulled app.old) × (P.App.said app.new ≡ P.App.said app.old) × (P.App.ended app.new ≡ P.App.ended app.old) }
    ensures scope { (P.App.kind app.new ≡ P.App.kind app.old) × (P.App.facts app.new ≡ P.App.facts app.old) × (P.App.has_moved app.new ≡ P.App.has_moved app.old) }
    ensures app_tag { (P.App.tag app.new ≡ P.App.tag app.old) × (P.App.ring app.new ≡ P.App.ring app.old) × (P.App.capacity app.new ≡ P.App.capacity app.old) }
    ensures http { (limits : Limits) (view : ConnView ℕ ℕ) → P.App.kind app.old ≡ Http
        → ConnKeeps (http limits (P.App.facts app.old)) view → view.offered ≡ P.Conn.offered conn.old → view.got ≡ P.Conn.got conn.old
        → IsHttpExchange limits (P.App.facts app.old) (record { conn = view; app = record { pulled = P.App.pulled app.old; heard = P.App.heard app.old; put = items_of (P.App.said app.old) (P.App.ended app.old) } }) }
    ensures web_socket { (handshake : Handshake) (ring : ℕ) (view : ConnView Msg Output) → P.App.kind app.old ≡ WebSocket
        → ConnKeeps (web_socket handshake (P.App.facts app.old) ring) view → view.offered ≡ P.Conn.offered conn.old → view.got ≡ P.Conn.got conn.old
        → IsSessionExchange handshake (P.App.facts app.old) (record { conn = view; app = record { pulled = P.App.pulled app.old; heard = P.App.heard app.old; put = items_of (P.App.said app.old) (P.App.ended app.old) } }) }
{
    P::meet(conn, app)
}
