//! The two halves, as a runner sees them.
ghost use Rattle.std.specs.Prelude.{ℕ, ⊤};
ghost use Rattle.asgi_types.specs.declared.limits.Limits.{Limits};
ghost use Rattle.asgi_exchange.specs.Halves.{ConnKeeps};
ghost use Rattle.asgi_exchange.specs.Http.{http};
ghost use Rattle.asgi_exchange.specs.Session.{Output};
ghost use Rattle.asgi_ws.specs.declared.messages.Msg.{Msg};
ghost use Rattle.asgi_halves.specs.HttpHalf.{HttpScene, StandsIn};
ghost use Rattle.asgi_halves.specs.Kinds.{following_of};
ghost use Rattle.asgi_halves.specs.WebSocketHalf as session;

use crate::half::HttpHalf;
use crate::kind::ExchangeKind;
use crate::session_half::WebSocketHalf;
use crate::turns::{abandon, is_settled, turn};
use asgi_io::Turn;
use asgi_pipes::ConnEnd;
use asgi_run::Half;
use asgi_ws::Line;

impl Half for HttpHalf {
    ghost use Rattle.asgi_exchange.proofs.HttpLemmas.{http_is_steady};
    ghost use Rattle.std.proofs.Common.{subst};

    ghost In = { ℕ };

    ghost Out = { ℕ };

    ghost Scene = { HttpScene };

    ghost exchange = { λ scene. http scene.limits scene.at.facts };

    ghost stands = { StandsIn };

    ghost following = { λ half. following_of half.stage };

    ghost takes = { λ _ _ _ _ _ _. ⊤ };

    fn turn<L: Line, C: ConnEnd>(&mut self, line: &mut L, end: &mut C, app_goes_on: bool) -> Turn {
        turn(self, line, end, app_goes_on)
    }

    fn is_settled(&self) -> bool {
        is_settled(self)
    }

    fn abandon<C: ConnEnd>(&mut self, end: &mut C) {
        abandon(self, end);
    }

    fn ring(&self) -> usize {
        self.places()
    }

    ghost keeps = { λ scene now half read view s. subst (λ (l : Limits). ConnKeeps (http l scene.at.facts) view) s.limits s.stands.keeps };

    ghost steady = { λ scene. http_is_steady scene.limits scene.at.facts };
}

impl Half for WebSocketHalf {
    ghost use Rattle.asgi_exchange.proofs.SessionLemmas.{web_socket_is_steady};
    ghost use Rattle.asgi_conversation.specs.Sessions.{handshake_of};

    ghost In = { Msg };

    ghost Out = { Output };

    ghost Scene = { session.SessionScene };

    ghost exchange = { session.exchange_of };

    ghost stands = { session.Invariant };

    ghost following = { λ half. following_of half.stage };

    ghost takes = { λ _ _ _ _ _ _. ⊤ };

    fn turn<L: Line, C: ConnEnd>(&mut self, line: &mut L, end: &mut C, app_goes_on: bool) -> Turn {
        turn(self, line, end, app_goes_on)
    }

    fn is_settled(&self) -> bool {
        is_settled(self)
    }

    fn abandon<C: ConnEnd>(&mut self, end: &mut C) {
        abandon(self, end);
    }

    fn ring(&self) -> usize {
        self.places()
    }

    ghost keeps = { λ scene now half read view s. s.keeps };

    ghost steady = { λ scene. web_socket_is_steady (handshake_of scene.facts) scene.facts scene.limits.ring };
}
