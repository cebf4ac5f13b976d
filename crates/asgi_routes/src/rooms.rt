//! A table of rooms, which is a talker.
ghost use Rattle.std.specs.Prelude.{◌≡◌, ◌≢◌, [], None, IfOk, IfErr, IsOk};
ghost use Rattle.std.specs.Result.{IsErrOf};
ghost use Rattle.matchit.specs.Params.{walk};
ghost use Rattle.asgi_apps.specs.Mounts.{local_path};
ghost use Rattle.asgi_routes.specs.Patterns.{IsWhy, matched, place_in};
ghost use Rattle.asgi_routes.specs.Rooms.{FailsWith, IsRoomAdded, OpensWith, RoomsFail, RoomsOpen};

use crate::error::RouteError;
use crate::path::local_of;
use crate::room::Room;
use crate::room_chain::{NoRooms, RoomChain};
use crate::room_list::RoomList;
use crate::table::Table;
use crate::texts::texts_of;
use asgi_apps::AppFault;
use asgi_talks::{Opened, Talker};
use asgi_types::WsScope;
use matchit::Params;
use std::alloc::Global;

/// Rooms, each under a pattern of the path, in the syntax of `matchit`: `/echo`, `/chat/{name}`,
/// `/files/{*rest}`. The path is the decoded one, without the prefix under which the application is
/// mounted.
///
/// The room of the narrowest pattern that matches the path opens the session. If none matches it,
/// the session is refused: the client gets 403.
#[derive(Drop)]
pub struct Rooms<R> {
    table: Table,
    rooms: R,
}

impl Rooms<NoRooms> {
    /// No rooms. Takes no memory.
    pub fn new(alloc: Global) -> Self
        ensures { result.table.patterns.items ≡ [] }
    {
        Rooms {
            table: Table::new(alloc),
            rooms: NoRooms,
        }
    }
}

impl<R: RoomList + Drop> Rooms<R> {
    /// The rooms with one more, at this pattern. On an error those before are gone too. `Taken` if
    /// the pattern has a room; the other errors are those of the pattern.
    pub fn room<A: Room + Drop>(
        self,
        pattern: &str,
        room: A,
    ) -> Result<Rooms<RoomChain<A, R>>, RouteError>
        ensures ok { IfOk result (λ rooms. IsRoomAdded self.table.patterns.items self.rooms pattern.now room rooms.table.patterns.items rooms.rooms) }
        ensures taken { place_in self.table.patterns.items pattern.now ≢ None → IsErrOf result RouteError.Taken }
        ensures err { IfErr result (λ why. IsWhy (place_in self.table.patterns.items pattern.now ≢ None) self.table.patterns.items pattern.now why) }
    {
        let Rooms { table, rooms } = self;
        match table.with_another(pattern) {
            Ok((table, number)) => Ok(Rooms {
                table,
                rooms: RoomChain {
                    pattern: number,
                    room,
                    rest: rooms,
                },
            }),
            Err(why) => Err(why),
        }
    }
}

impl<R: RoomList> Rooms<R> {
    /// The answer to a handshake whose path matches the pattern of this number. The fault is the
    /// room's, or `NoMemory` if memory is refused.
    fn open_at(
        &self,
        alloc: Global,
        pattern: usize,
        params: &Params<'_, '_>,
        scope: &WsScope,
    ) -> Result<Opened<R::Session>, AppFault>
        ensures allowed { IfOk result (λ opened. OpensWith (R.allows self.now.rooms pattern scope.now)
            (walk params.now.pattern.now params.now.text.now params.now.path.now params.now.names.now 0 0) opened) }
        ensures failed { IsErrOf result AppFault.Failed → FailsWith (R.fails self.now.rooms pattern scope.now)
            (walk params.now.pattern.now params.now.text.now params.now.path.now params.now.names.now 0 0) }
    {
        match texts_of(alloc, params) {
            Ok(texts) => self.rooms.open(alloc, pattern, scope, texts.as_slice()),
            Err(e) => Err(AppFault::NoMemory(e)),
        }
    }
}

impl<R: RoomList> Talker for Rooms<R> {
    type Session = R::Session;

    ghost opens = { λ rooms. RoomsOpen R.allows rooms.table.patterns.items rooms.rooms };

    ghost fails = { λ rooms. RoomsFail R.fails rooms.table.patterns.items rooms.rooms };

    fn open(&self, alloc: Global, scope: &WsScope) -> Result<Opened<R::Session>, AppFault>
        ensures allowed { IfOk result (λ opened. RoomsOpen R.allows self.now.table.patterns.items self.now.rooms scope.now opened) }
        ensures failed { IsErrOf result AppFault.Failed → RoomsFail R.fails self.now.table.patterns.items self.now.rooms scope.now }
        // A path that no pattern matches is answered, whatever memory there is.
        ensures unmatched { matched self.now.table.patterns.items (local_path scope.now.path scope.now.root_path) ≡ None → IsOk result }
    {
        let path = local_of(scope.path.as_str(), scope.root_path.as_str());
        match self.table.find(path) {
            Ok(found) => self.open_at(alloc, *found.value, &found.params, scope),
            Err(_) => Ok(Opened::Refused),
        }
    }
}
