//! Rooms of different types, whose sessions answer with what they are.
use crate::asked::chars;
use asgi_apps::AppFault;
use asgi_routes::{Room, param_of};
use asgi_talks::{Answer, Opened, Talk, Tells};
use asgi_types::{Chars, Payload, WsScope};
use std::alloc::Global;

/// A room of people, each with the parameter `name`.
#[derive(Clone, Copy)]
pub struct Chat;

/// Someone in it, who says each text again after the name, and the name unasked.
#[derive(Drop)]
pub struct Member {
    name: Chars,
}

impl Room for Chat {
    type Session = Member;

    fn open(
        &self,
        alloc: Global,
        _scope: &WsScope,
        params: &[(&str, &str)],
    ) -> Result<Opened<Member>, AppFault> {
        let Some(name) = param_of(params, "name") else {
            return Ok(Opened::Refused);
        };
        let name = Chars::new(String::from_str(alloc, name)?);
        Ok(Opened::accept(alloc, Member { name }).with_subprotocol(chars(alloc, "chat")))
    }
}

impl Talk for Member {
    fn hear(&mut self, alloc: Global, message: Payload) -> Result<Answer, AppFault> {
        let Payload::Text(text) = message else {
            return Ok(Answer::nothing(alloc));
        };
        let line = format!(in alloc; "{}: {}", self.name.as_str(), text.as_str())?;
        Ok(Answer::text(alloc, line.as_str())?)
    }
}

impl Tells for Member {
    fn tell(&mut self, alloc: Global) -> Result<Answer, AppFault> {
        Ok(Answer::text(alloc, self.name.as_str())?)
    }
}

/// A room with a field of its own, whose sessions send each message back.
#[derive(Clone, Copy)]
pub struct Echoes;

/// A session of it.
#[derive(Clone, Copy, Drop)]
pub struct Back;

impl Room for Echoes {
    type Session = Back;

    fn open(
        &self,
        alloc: Global,
        _scope: &WsScope,
        params: &[(&str, &str)],
    ) -> Result<Opened<Back>, AppFault> {
        let count = format!(in alloc; "{}", params.len())?;
        Ok(Opened::accept(alloc, Back).with_field("x-params", count.as_str())?)
    }
}

impl Talk for Back {
    fn hear(&mut self, alloc: Global, message: Payload) -> Result<Answer, AppFault> {
        Ok(Answer::message(alloc, message)?)
    }
}

impl Tells for Back {
    fn tell(&mut self, alloc: Global) -> Result<Answer, AppFault> {
        Ok(Answer::nothing(alloc))
    }
}

/// A room that fails, or that refuses each session.
#[derive(Clone, Copy)]
pub enum Shut {
    Fails,
    Refuses,
}

impl Room for Shut {
    type Session = Back;

    fn open(
        &self,
        _alloc: Global,
        _scope: &WsScope,
        _params: &[(&str, &str)],
    ) -> Result<Opened<Back>, AppFault> {
        match self {
            Shut::Fails => Err(AppFault::Failed),
            Shut::Refuses => Ok(Opened::Refused),
        }
    }
}
