//! Rooms of different types, each after those that were added before it.
ghost use Rattle.std.specs.Prelude.{◌≡◌, ◌==◌};
ghost use Rattle.asgi_talks.specs.declared.opened.Opened.TheVariants.{Refused};
ghost use Rattle.asgi_routes.specs.Rooms.{FailsAt, OpensAt, opened_as};

use crate::room::Room;
use crate::room_list::RoomList;
use crate::room_session::{NoSession, RoomSession};
use asgi_apps::AppFault;
use asgi_talks::Opened;
use asgi_types::WsScope;
use std::alloc::Global;

/// No rooms.
#[derive(Clone, Copy, Debug)]
pub struct NoRooms;

/// A room, after those that were added before it.
#[derive(Debug, Drop)]
pub struct RoomChain<A, R> {
    /// The number of its pattern.
    pub(crate) pattern: usize,
    pub(crate) room: A,
    /// Those that were added before it.
    pub(crate) rest: R,
}

impl RoomList for NoRooms {
    type Session = NoSession;

    ghost allows = { λ _ _ _ _ opened. opened ≡ Refused };

    ghost fails = { λ _ _ _ _. ⊥ };

    fn open(
        &self,
        _alloc: Global,
        _pattern: usize,
        _scope: &WsScope,
        _params: &[(&str, &str)],
    ) -> Result<Opened<NoSession>, AppFault> {
        Ok(Opened::Refused)
    }
}

impl<A: Room, R: RoomList> RoomList for RoomChain<A, R> {
    type Session = RoomSession<A::Session, R::Session>;

    ghost allows = { λ chain pattern scope params opened. OpensAt (chain.pattern == pattern)
        (A.opens chain.room scope params) (R.allows chain.rest pattern scope params) opened };

    ghost fails = { λ chain pattern scope params. FailsAt (chain.pattern == pattern)
        (A.fails chain.room scope params) (R.fails chain.rest pattern scope params) };

    fn open(
        &self,
        alloc: Global,
        pattern: usize,
        scope: &WsScope,
        params: &[(&str, &str)],
    ) -> Result<Opened<RoomSession<A::Session, R::Session>>, AppFault> {
        if self.pattern == pattern {
            return Ok(opened_here(self.room.open(alloc, scope, params)?));
        }
        Ok(opened_there(self.rest.open(alloc, pattern, scope, params)?))
    }
}

/// The same answer, whose session is one of this room.
fn opened_here<S, T>(opened: Opened<S>) -> Opened<RoomSession<S, T>>
    ensures { result ≡ opened_as RoomSession.This opened }
{
    match opened {
        Opened::Accepted {
            subprotocol,
            headers,
            session,
        } => Opened::Accepted {
            subprotocol,
            headers,
            session: RoomSession::This(session),
        },
        Opened::Refused => Opened::Refused,
    }
}

/// The same answer, whose session is one of a room that was added before.
fn opened_there<S, T>(opened: Opened<T>) -> Opened<RoomSession<S, T>>
    ensures { result ≡ opened_as RoomSession.Other opened }
{
    match opened {
        Opened::Accepted {
            subprotocol,
            headers,
            session,
        } => Opened::Accepted {
            subprotocol,
            headers,
            session: RoomSession::Other(session),
        },
        Opened::Refused => Opened::Refused,
    }
}
