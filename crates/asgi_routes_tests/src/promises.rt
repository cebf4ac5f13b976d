//! An endpoint that promises which reply it gives, of the parameters of its route, and a room that
//! promises which session it opens.
ghost use Rattle.std.specs.Prelude.{◌≡◌, [], IfOk, IfSome, None, codes};
ghost use Rattle.std.specs.Result.{IsErrOf};
ghost use Rattle.asgi_handlers.specs.Params.{param_in};
ghost use Rattle.asgi_talks.specs.declared.opened.Opened.TheVariants.{Accepted};

use crate::asked::{Row, check};
use crate::knocks::{Knock, knock_all};
use asgi_apps::AppFault;
use asgi_handlers::{Reply, Request};
use asgi_routes::{Endpoint, Room, Rooms, Routes, param_of};
use asgi_talks::{Answer, Opened, Talk, Tells};
use asgi_types::{Chars, Payload, WsScope};
use std::alloc::Global;
use std::test::Fail;

/// Replies with what the parameter `n` took, and promises so.
#[derive(Clone, Copy)]
struct Returns;

impl Endpoint for Returns {
    // The content of the reply is the part of the path that the parameter took.
    ghost replies = { λ _ _ params _ reply. IfSome (param_in params (codes "n")) (λ part. reply.body ≡ part) };

    fn reply(&self, request: &Request<'_>) -> Result<Reply, AppFault> {
        let alloc = request.alloc();
        match request.param("n") {
            Some(part) => {
                let content = Vec::from_slice(alloc, part.as_bytes())?;
                Ok(Reply::new(alloc, 200, "a/b", content)?)
            }
            None => Ok(Reply::status(alloc, 404)?),
        }
    }
}

const RETURNED: &[Row] = &[
    Row("GET", "/7", "", "200 content-type=a/b content-length=1|7"),
    Row(
        "POST",
        "/7",
        "",
        "405 content-length=0 allow=OPTIONS, GET, HEAD|",
    ),
];

#[test]
fn a_promise_is_of_the_parameters(rt: HostRuntime) -> Result<(), Fail> {
    let alloc: Global = rt.alloc();
    let routes = Routes::new(alloc).get("/{n}", Returns)?;
    check(alloc, &routes, RETURNED)
}

/// Opens sessions that have what the parameter `name` took, and promises so.
#[derive(Clone, Copy)]
struct Keeps;

/// A session with a name, which it says unasked.
#[derive(Drop)]
struct Kept {
    name: Chars,
}

impl Room for Keeps {
    type Session = Kept;

    // The session is accepted with the part of the path that the parameter took.
    ghost opens = { λ _ _ params opened. IfSome (param_in params (codes "name")) (λ part. opened ≡ Accepted None [] (record { name = part })) };

    // It does not fail.
    ghost fails = { λ _ _ _. ⊥ };

    fn open(
        &self,
        alloc: Global,
        _scope: &WsScope,
        params: &[(&str, &str)],
    ) -> Result<Opened<Kept>, AppFault> {
        match param_of(params, "name") {
            Some(part) => named(alloc, part),
            None => Ok(Opened::Refused),
        }
    }
}

/// A session with this name. Where memory for it is refused, a `?` would not tell which fault it is.
fn named(alloc: Global, part: &str) -> Result<Opened<Kept>, AppFault>
    ensures accepted { IfOk result (λ opened. opened ≡ Accepted None [] (record { name = part.now })) }
    ensures failed { ¬ (IsErrOf result AppFault.Failed) }
{
    match String::from_str(alloc, part) {
        Ok(text) => {
            let name = Chars::new(text);
            Ok(Opened::accept(alloc, Kept { name }))
        }
        Err(e) => Err(AppFault::NoMemory(e)),
    }
}

impl Talk for Kept {
    fn hear(&mut self, alloc: Global, message: Payload) -> Result<Answer, AppFault> {
        Ok(Answer::message(alloc, message)?)
    }
}

impl Tells for Kept {
    fn tell(&mut self, alloc: Global) -> Result<Answer, AppFault> {
        Ok(Answer::text(alloc, self.name.as_str())?)
    }
}

const KEPT: &[Knock] = &[
    Knock("/ann", "", "accept|hi|ann"),
    Knock("/", "", "refused"),
];

#[test]
fn a_room_promises_of_the_parameters(rt: HostRuntime) -> Result<(), Fail> {
    let alloc: Global = rt.alloc();
    let rooms = Rooms::new(alloc).room("/{name}", Keeps)?;
    knock_all(alloc, &rooms, KEPT)
}
