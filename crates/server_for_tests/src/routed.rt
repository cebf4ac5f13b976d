//! Two endpoints under routes, and a room under a pattern.
use nomtsage::{
    Answer, AppFault, Chain, Chars, Empty, Endpoint, Hosted, Hushed, NoRooms, Opened, Payload,
    Reply, Request, Room, RoomChain, Rooms, RouteError, Routes, Shared, Talk, WsScope, param_of,
};
use std::alloc::Global;

/// The endpoints, the last one first.
pub type Table = Routes<Chain<Length, Chain<Named, Empty>>>;

/// The rooms.
pub type House = Hushed<Rooms<RoomChain<Chat, NoRooms>>>;

/// The application of the endpoints.
pub fn routes(alloc: Global) -> Result<Shared<Table>, RouteError> {
    let table = table(alloc)?;
    Ok(Shared::new(alloc, table)?)
}

/// The application of the rooms.
pub fn rooms(alloc: Global) -> Result<Hosted<House>, RouteError> {
    let house = house(alloc)?;
    Ok(Hosted::new(alloc, house)?)
}

/// `GET /hello/{name}` and `POST /length`.
fn table(alloc: Global) -> Result<Table, RouteError> {
    Routes::new(alloc)
        .get("/hello/{name}", Named)?
        .post("/length", Length)
}

/// `/rooms/{name}`.
fn house(alloc: Global) -> Result<House, RouteError> {
    let rooms = Rooms::new(alloc).room("/rooms/{name}", Chat)?;
    Ok(Hushed::new(rooms))
}

/// Replies with the name of the path.
#[derive(Clone, Copy, Debug, Drop)]
pub struct Named;

impl Endpoint for Named {
    fn reply(&self, request: &Request<'_>) -> Result<Reply, AppFault> {
        let alloc = request.alloc();
        let line = format!(in alloc; "hello {}\n", request.param("name").unwrap_or(""))?;
        Reply::text(alloc, line.as_str())
    }
}

/// Replies how many bytes the body has.
#[derive(Clone, Copy, Debug, Drop)]
pub struct Length;

impl Endpoint for Length {
    fn reply(&self, request: &Request<'_>) -> Result<Reply, AppFault> {
        let alloc = request.alloc();
        let line = format!(in alloc; "{}\n", request.body().len())?;
        Reply::text(alloc, line.as_str())
    }
}

/// A room of each name.
#[derive(Clone, Copy, Debug, Drop)]
pub struct Chat;

/// Someone in it, who says each text again after the name.
#[derive(Drop)]
pub struct Member {
    name: Chars,
}

impl Room for Chat {
    type Session = Member;

    fn open(
        &self,
        alloc: Global,
        _scope: &WsScope,
        params: &[(&str, &str)],
    ) -> Result<Opened<Member>, AppFault> {
        let Some(name) = param_of(params, "name") else {
            return Ok(Opened::Refused);
        };
        let name = Chars::new(String::from_str(alloc, name)?);
        Ok(Opened::accept(alloc, Member { name }))
    }
}

impl Talk for Member {
    fn hear(&mut self, alloc: Global, message: Payload) -> Result<Answer, AppFault> {
        let Payload::Text(text) = message else {
            return Ok(Answer::nothing(alloc));
        };
        let line = format!(in alloc; "{}: {}", self.name.as_str(), text.as_str())?;
        Ok(Answer::text(alloc, line.as_str())?)
    }
}
