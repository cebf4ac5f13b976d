//! A session that says nothing unasked.
ghost use Rattle.std.specs.Prelude.{◌≡◌};

use crate::answer::Answer;
use crate::opened::Opened;
use crate::talker::{Talk, Talker, Tells};
use asgi_apps::AppFault;
use asgi_types::{Payload, WsScope};
use std::alloc::Global;
use std::marker::Model;

/// A session that only answers. Contracts see it as the session that it holds.
#[derive(Debug, Drop)]
pub struct Quiet<S> {
    session: S,
}

impl<S> Model for Quiet<S> {
    ghost Value = { S };

    ghost view = { λ quiet. quiet.session };
}

impl<S> Quiet<S> {
    /// This session, which only answers.
    pub fn new(session: S) -> Self
        ensures { result ≡ session }
    {
        Quiet { session }
    }
}

impl<S: Talk> Talk for Quiet<S> {
    ghost answers = { S.answers };

    fn hear(&mut self, alloc: Global, message: Payload) -> Result<Answer, AppFault> {
        self.session.hear(alloc, message)
    }
}

/// Nothing is said unasked, and the session stays as it is. That never fails.
impl<S: Talk> Tells for Quiet<S> {
    ghost use Rattle.asgi_talks.specs.Quiet.{never, says_nothing};

    ghost tells = { says_nothing };

    ghost fails = { never };

    fn tell(&mut self, alloc: Global) -> Result<Answer, AppFault> {
        Ok(Answer::nothing(alloc))
    }
}

/// A talker whose sessions only answer. Contracts see it as the talker that it holds.
#[derive(Clone, Copy, Debug)]
pub struct Hushed<T> {
    talker: T,
}

impl<T> Model for Hushed<T> {
    ghost Value = { T };

    ghost view = { λ hushed. hushed.talker };

    ghost inverse = { λ talker. record { talker = talker } };
}

impl<T> Hushed<T> {
    /// The same sessions as this talker's.
    pub fn new(talker: T) -> Self
        ensures { result ≡ talker }
    {
        Hushed { talker }
    }
}

impl<T: Talker> Talker for Hushed<T> {
    type Session = Quiet<T::Session>;

    ghost opens = { T.opens };

    ghost fails = { T.fails };

    fn open(&self, alloc: Global, scope: &WsScope) -> Result<Opened<Quiet<T::Session>>, AppFault> {
        match self.talker.open(alloc, scope) {
            Ok(opened) => Ok(hush(opened)),
            Err(e) => Err(e),
        }
    }
}

/// The same reply to the handshake.
fn hush<S>(opened: Opened<S>) -> Opened<Quiet<S>>
    ensures { result ≡ opened }
{
    match opened {
        Opened::Accepted {
            subprotocol,
            headers,
            session,
        } => Opened::Accepted {
            subprotocol,
            headers,
            session: Quiet::new(session),
        },
        Opened::Refused => Opened::Refused,
    }
}
