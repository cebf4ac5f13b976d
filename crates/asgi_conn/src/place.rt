//! Where a connection stands between two turns, and how it goes from place to place.
ghost use Rattle.std.specs.Prelude.{◌≡◌, Some, None, IfSome, IsTrue, IsFalse};
ghost use Rattle.asgi_conn.specs.Places as place;
ghost use Rattle.asgi_conn.specs.Places.{place_of};
ghost use Rattle.asgi_conn.specs.Standing.{IsToEnd, counts_as, counts_at};
ghost use Rattle.asgi_conn.specs.private.Loop.{IsBetween, IsFree, IsGoing, IsOpen, IsOver, IsDueOrBetween, HasEnded};

use crate::connection::Connection;
use asgi_conversation::Outcome;
use asgi_halves::{Stage, WebSocketHalf};
use asgi_io::Turn;
use asgi_run::Half;
use std::alloc::Global;
use std::mem;

impl<X> Connection<X> {
    /// Whether the connection has ended.
    pub(crate) fn has_ended(&self) -> bool
        ensures yes { IsTrue result → HasEnded (place_of self.now) }
        ensures no { IsFalse result → IsGoing (place_of self.now) }
    {
        match &self.exchange {
            Some(_) => false,
            None => self.ended.is_some(),
        }
    }

    /// Whether the connection is between two requests.
    pub(crate) fn is_between(&self) -> bool
        ensures yes { IsTrue result → IsBetween (place_of self.now) }
        ensures no { IsFalse result → ¬ (IsBetween (place_of self.now)) }
    {
        match &self.exchange {
            Some(_) => false,
            None => self.ended.is_none(),
        }
    }

    /// Whether no exchange is to be ended.
    pub(crate) fn goes_on(&self) -> bool
        ensures yes { IsTrue result → IsDueOrBetween (place_of self.now) self.now.tally.turns }
        ensures no { IsFalse result → IsOver (place_of self.now) self.now.tally.turns }
    {
        match &self.exchange {
            None => true,
            Some(_) => match &self.session {
                None => !self.tally.turns.is_over() && !self.half.is_settled(),
                Some(session) => !self.tally.turns.is_over() && !session.is_settled(),
            },
        }
    }

    /// Whether there is an exchange that is over, and is to be ended before the next turn.
    pub(crate) fn is_to_end(&self) -> bool
        ensures yes { IsTrue result → IsToEnd (place_of self.now) }
        ensures no { IsFalse result → IsGoing (place_of self.now) → IsOpen (place_of self.now) }
    {
        match &self.exchange {
            None => false,
            Some(_) => match &self.session {
                None => self.half.is_settled(),
                Some(session) => session.is_settled(),
            },
        }
    }

    /// What a turn that has led here counts as. An exchange that is cut short only drops what its task sends.
    pub(crate) fn counts_as(&self, turn: Turn) -> Turn
        ensures { result ≡ counts_as (place_of self.now) turn }
    {
        match &self.exchange {
            Some(_) => match &self.session {
                None => counts_at(self.half.stage, turn),
                Some(session) => counts_at(session.stage, turn),
            },
            None => match &self.ended {
                None => turn,
                Some(_) => turn,
            },
        }
    }

    /// Goes to the end, from where no exchange is.
    pub(crate) fn end_with(&mut self, outcome: Outcome)
        requires { IsFree (place_of self.old) }
        ensures at { place_of self.new ≡ place.Ended outcome }
        ensures tally { self.new.tally ≡ self.old.tally }
    {
        self.ended = Some(outcome);
    }
}

/// What a turn counts as that leaves its exchange at this stage.
fn counts_at(stage: Stage, turn: Turn) -> Turn
    ensures { result ≡ counts_at stage turn }
{
    match stage {
        Stage::Running => turn,
        Stage::Ending(_) => turn,
        Stage::Cut(_) => Turn::Idle,
        Stage::Over(_) => turn,
    }
}

/// Puts an exchange where none is: what its runner keeps of one is given back to that runner, and never dropped here.
pub(crate) fn put<X>(place: &mut Option<X>, exchange: X)
    requires { place.old ≡ None }
    ensures { place.new ≡ Some exchange }
{
    match mem::replace(place, Some(exchange)) {
        None => {}
        Some(_exchange) => unreachable!(),
    }
}

/// The half of a session in a place of its own. None if memory for it is refused.
pub(crate) fn boxed(alloc: Global, half: WebSocketHalf) -> Option<Box<WebSocketHalf>>
    ensures { IfSome result (λ session. session.value ≡ half) }
{
    match Box::new(alloc, half) {
        Ok(session) => Some(session),
        Err(_) => None,
    }
}

/// Drops the half of a session, if there is one.
///
/// The exchange of a handshake is the last one, so there is none: this costs one look.
pub(crate) fn leave_session(session: &mut Option<Box<WebSocketHalf>>)
    ensures { session.new ≡ None }
{
    if session.is_some() {
        *session = None;
    }
}
