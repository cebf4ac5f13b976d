//! Which room opens a session, with which parameters, and what is refused.
use crate::chats::{Chat, Echoes, Shut};
use crate::knocks::{Knock, knock_all};
use asgi_routes::{NoRooms, RoomChain, Rooms, RouteError};
use std::alloc::Global;
use std::test::Fail;

type House = RoomChain<Echoes, RoomChain<Chat, NoRooms>>;

fn house(alloc: Global) -> Result<Rooms<House>, RouteError> {
    let rooms = Rooms::new(alloc).room("/chat/{name}", Chat)?;
    rooms.room("/chat/all", Echoes)
}

/// A table that is made again if memory was refused.
fn house_at_last(alloc: Global) -> Result<Rooms<House>, RouteError> {
    match house(alloc) {
        Err(RouteError::NoMemory(_)) => house(alloc),
        made => made,
    }
}

/// The rooms of the patterns: that without a parameter is the narrower. And paths that no pattern matches.
const OPENED: &[Knock] = &[
    Knock("/chat/ann", "", "accept chat|ann: hi|ann"),
    Knock("/chat/a b", "", "accept chat|a b: hi|a b"),
    Knock("/chat/all", "", "accept x-params=0|hi|"),
    Knock("/", "", "refused"),
    Knock("/chat", "", "refused"),
    Knock("/chat/", "", "refused"),
    Knock("/chat/ann/", "", "refused"),
    Knock("/Chat/ann", "", "refused"),
];

/// ASGI, WebSocket connection scope: `path` has the prefix `root_path`, under which it is mounted.
const MOUNTED: &[Knock] = &[
    Knock("/m/chat/ann", "/m", "accept chat|ann: hi|ann"),
    Knock("/m/chat/ann", "", "refused"),
    // The path does not begin with the prefix: it is taken whole.
    Knock("/chat/ann", "/m", "accept chat|ann: hi|ann"),
];

/// Fails with what the first row holds of which something else comes.
fn check(alloc: Global, knocks: &[Knock]) -> Result<(), Fail> {
    let rooms = house_at_last(alloc)?;
    knock_all(alloc, &rooms, knocks)
}

#[test]
fn the_room_of_the_pattern_opens(rt: HostRuntime) -> Result<(), Fail> {
    check(rt.alloc(), OPENED)
}

#[test]
fn a_mounted_room_sees_the_path_after_its_mount(rt: HostRuntime) -> Result<(), Fail> {
    check(rt.alloc(), MOUNTED)
}

#[test]
fn memory_for_a_table_of_rooms_and_its_sessions(rt: HostRuntime) -> Result<(), Fail> {
    check(rt.alloc(), OPENED)
}

const FAILED: &[Knock] = &[Knock("/shut", "", "failed")];

const REFUSED: &[Knock] = &[Knock("/shut", "", "refused")];

/// Fails if something else comes of a table with this room alone.
fn check_alone(alloc: Global, room: Shut, knocks: &[Knock]) -> Result<(), Fail> {
    let rooms = Rooms::new(alloc).room("/shut", room)?;
    knock_all(alloc, &rooms, knocks)
}

#[test]
fn a_room_may_fail_or_refuse(rt: HostRuntime) -> Result<(), Fail> {
    check_alone(rt.alloc(), Shut::Fails, FAILED)?;
    check_alone(rt.alloc(), Shut::Refuses, REFUSED)
}

const ROOMLESS: &[Knock] = &[Knock("/", "", "refused")];

#[test]
fn a_table_without_rooms_refuses_all(rt: HostRuntime) -> Result<(), Fail> {
    let rooms = Rooms::new(rt.alloc());
    knock_all(rt.alloc(), &rooms, ROOMLESS)
}

/// Why the second room is not added after the first.
fn second(alloc: Global, first: &str, other: &str) -> Option<RouteError> {
    let Ok(rooms) = Rooms::new(alloc).room(first, Chat) else {
        return None;
    };
    match rooms.room(other, Echoes) {
        Ok(_) => None,
        Err(why) => Some(why),
    }
}

const PAIRS: &[(&str, &str, Option<RouteError>)] = &[
    ("/a", "/b", None),
    ("/{n}", "/a", None),
    ("/a", "/a", Some(RouteError::Taken)),
    ("/{n}", "/{n}", Some(RouteError::Taken)),
    ("/{n}", "/{m}", Some(RouteError::Conflict)),
    ("/{n}", "/{*rest}", Some(RouteError::Conflict)),
    ("/a", "/{n", Some(RouteError::BadParameter)),
    ("/a", "/{n}{m}", Some(RouteError::TwoParameters)),
    ("/a", "/{*rest}/a", Some(RouteError::BadCatchAll)),
];

#[test]
fn a_room_is_added_once(rt: HostRuntime) {
    for (first, other, why) in PAIRS {
        let refused = second(rt.alloc(), first, other);
        assert!(rt; (refused, 0) == (*why, 0), "{first} {other}");
    }
}
