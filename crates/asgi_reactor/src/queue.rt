//! The sockets that were registered, and those of them that are to be taken up.
ghost use Rattle.std.specs.Prelude.{◌≡◌};
ghost use Rattle.asgi_reactor.specs.declared.draining.Left.TheVariants.{More};
ghost use Rattle.asgi_reactor.specs.private.Queueing.{Waits};

use crate::budget::Budget;
use crate::draining::Left;
use crate::lingering::Linger;
use crate::losses::Losses;
use crate::numbers::Numbers;
use crate::place::{Clocked, Closing, Place, PolledLine, Share, Use, is_exchange, socket_of};
use crate::waiting::{Waiting, Wish};
use crate::wants::Wants;
use asgi_many::{Ready, Rest};
use mio::event::Event;
use slab::Slab;
use std::alloc::{AllocError, Global};
use std::net::SocketAddr;
use std::time::Duration;

/// How many turns in a row one connection takes before the others have theirs.
const IN_A_ROW: u32 = 16;

/// After how many milliseconds an exchange that waits is looked at again, since its task may wait for something else than its
/// socket. One more is added for so many exchanges that wait.
const BEAT: u64 = 10;

const IN_A_MILLISECOND: u64 = 20;

/// How many clients are given up at a tick at the most, since too much is held for all of them.
const GIVEN_UP: u32 = 64;

/// The sockets that were registered, under their tokens, and those that are to be taken up.
#[derive(Drop)]
pub(crate) struct Queue {
    places: Slab<Place>,
    /// The lines that are closed. There is room for that of each socket, so a line can be closed whatever memory there is.
    closing: Slab<Closing>,
    /// The tokens of seats.
    tokens: Vec<usize>,
    waiting: Waiting,
    /// The one that goes on at once, and how many turns in a row it has had.
    first: Option<usize>,
    turns: u32,
    /// How long a connection that has ended is kept for its peer to close it too.
    linger: Linger,
    /// After how many silent ticks a connection between two requests gives its seat to a newcomer.
    give_way: u32,
    /// The one that does.
    giving: Option<usize>,
    /// How many bytes are held for all clients.
    budget: Budget,
    /// How many are in an exchange that waits.
    exchanges: u64,
    clocked: Clocked,
    /// A socket was closed since it was asked for.
    freed: bool,
    /// Of which connections the log is to be told.
    pub(crate) losses: Losses,
    /// Since when newcomers wait.
    wants: Wants,
}

/// Names the connection in this seat, which may move something, or for which a tick is to be counted.
fn named(at: usize, is_silent: bool) -> Ready {
    if is_silent {
        return Ready::Tick(at);
    }
    Ready::Seat(at)
}

impl Queue {
    /// No socket is registered.
    pub(crate) fn new(alloc: Global, numbers: &Numbers) -> Result<Self, AllocError> {
        let mut tokens = Vec::new(alloc);
        tokens.resize(numbers.seats, usize::MAX)?;
        Ok(Queue {
            places: Slab::with_capacity(alloc, numbers.seats)?,
            closing: Slab::with_capacity(alloc, numbers.seats)?,
            tokens,
            waiting: Waiting::new(alloc),
            first: None,
            turns: 0,
            linger: numbers.linger,
            give_way: numbers.give_way,
            giving: None,
            budget: Budget::new(numbers.held),
            exchanges: 0,
            clocked: Clocked {
                now: 0,
                least: numbers.least,
                slow: numbers.slow as u64,
                patience: numbers.patience as u64,
                leave: numbers.leave as u64,
                ping: numbers.ping,
                pong: numbers.pong,
                leaving: None,
            },
            freed: false,
            losses: Losses::new(),
            wants: Wants::new(),
        })
    }

    /// Whether some wait to be taken up.
    pub(crate) fn is_waiting(&self) -> bool {
        !self.waiting.is_empty()
    }

    /// Makes room for one more socket, and for its line once that is closed.
    pub(crate) fn make_room(&mut self) -> Result<(), AllocError> {
        let sitting = self.places.len().saturating_sub(self.closing.len());
        self.closing.reserve(sitting.saturating_add(1))?;
        self.places.reserve(1)
    }

    /// A token for the socket of a newcomer in this seat, unless memory is refused or there is no such seat.
    pub(crate) fn add(&mut self, at: usize, client: SocketAddr) -> Option<usize> {
        let seat = self.tokens.get_mut(at)?;
        let token = self.places.insert(Place::of_seat(at, client)).ok()?;
        *seat = token;
        Some(token)
    }

    /// The socket with this token is not registered any more.
    pub(crate) fn remove(&mut self, token: usize) {
        self.freed = true;
        let Some(gone) = self.places.try_remove(token) else {
            return;
        };
        self.budget.change(gone.holds, 0);
        if let Use::Closing(key) = gone.usage {
            let Some(closed) = self.closing.try_remove(key) else {
                return;
            };
            if let Some(unsent) = closed.unsent(gone.client) {
                self.losses.add_unsent(unsent);
            }
        }
    }

    /// The system told this of a socket.
    pub(crate) fn note(&mut self, token: usize, event: &Event) {
        let Some(place) = self.places.get_mut(token) else {
            return;
        };
        let has_ended = event.is_read_closed() || event.is_error();
        place.is_ended = place.is_ended || has_ended;
        place.is_readable = place.is_readable || event.is_readable() || has_ended;
        self.hear_of(token);
    }

    /// The system told of the socket with this token, which waits to be taken up: also if it would go on by itself.
    fn hear_of(&mut self, token: usize) {
        let Some(place) = self.places.get_mut(token) else {
            return;
        };
        if place.wish == Some(Wish::Told) {
            return;
        }
        // If memory is refused, it is taken up at a tick.
        if self.waiting.push(token, Wish::Told) {
            place.wish = Some(Wish::Told);
        }
    }

    /// The socket with this token goes on by itself, and waits to be taken up.
    fn push(&mut self, token: usize)
        ensures waits { Waits self.old self.new token }
    {
        let Some(place) = self.places.get_mut(token) else {
            return;
        };
        if place.wish == Some(Wish::Goes) {
            return;
        }
        if place.wish == Some(Wish::Told) {
            return;
        }
        // If memory is refused, it is taken up at a tick.
        if self.waiting.push(token, Wish::Goes) {
            place.wish = Some(Wish::Goes);
        }
    }

    /// The socket with this token waits to be looked at, unless it waits already.
    fn look_at(&mut self, token: usize) {
        let Some(place) = self.places.get_mut(token) else {
            return;
        };
        if place.wish.is_none() && self.waiting.push(token, Wish::Looked) {
            place.wish = Some(Wish::Looked);
        }
    }

    /// From here on those that wait now are taken up, once each.
    pub(crate) fn begin_round(&mut self) {
        self.waiting.begin_round();
    }

    /// The connection that goes on has its next turn behind the others.
    pub(crate) fn end_row(&mut self) {
        self.turns = IN_A_ROW;
    }

    /// The seat that is taken up next, if there is one in this round.
    pub(crate) fn next(&mut self) -> Option<Ready> {
        if let Some(token) = self.first.take() {
            return Some(Ready::Seat(self.seat_of(token)?));
        }
        self.turns = 0;
        for _one in 0..self.waiting.left() {
            let (token, wish) = self.waiting.next()?;
            if let Some(ready) = self.take_up(token, wish) {
                return Some(ready);
            }
        }
        None
    }

    /// Takes up the socket with this token, unless it was taken up for another wish or is gone. The seat that it has.
    fn take_up(&mut self, token: usize, wish: Wish) -> Option<Ready> {
        let place = self.places.get_mut(token)?;
        if place.wish != Some(wish) {
            return None;
        }
        let is_silent = place.take_up();
        if let Some(at) = self.seat_of(token) {
            return Some(named(at, is_silent));
        }
        self.go_on_closing(token);
        None
    }

    /// The seat whose socket has this token.
    fn seat_of(&self, token: usize) -> Option<usize> {
        match &self.places.get(token)?.usage {
            Use::Seat(at) => Some(*at),
            Use::Closing(_) => None,
        }
    }

    /// The token of the socket of this seat.
    fn token_of(&self, at: usize) -> Option<usize> {
        self.tokens.get(at).copied()
    }

    /// The connection in this seat has moved something: it goes on at once, or behind the others.
    pub(crate) fn again(&mut self, at: usize) {
        let Some(token) = self.token_of(at) else {
            return;
        };
        if let Some(place) = self.places.get_mut(token) {
            place.moves();
        }
        if self.turns < IN_A_ROW {
            self.turns += 1;
            self.first = Some(token);
        } else {
            self.push(token);
        }
    }

    /// The connection in this seat rests. One that is to end goes on to its end at once, tick by tick.
    pub(crate) fn rests(&mut self, at: usize, line: &PolledLine, rest: Rest) {
        let Some(token) = self.token_of(at) else {
            return;
        };
        self.set_exchange(token, is_exchange(rest.standing));
        let clocked = self.clocked;
        let Some(place) = self.places.get_mut(token) else {
            return;
        };
        if let Some(polled) = socket_of(line) {
            place.rests(polled, rest, clocked);
        }
        if place.is_deaf {
            place.is_silent = true;
            self.push(token);
        }
    }

    /// The connection whose socket has this token is in an exchange that waits, or is not.
    fn set_exchange(&mut self, token: usize, is_in_exchange: bool) {
        let Some(place) = self.places.get_mut(token) else {
            return;
        };
        if place.is_in_exchange == is_in_exchange {
            return;
        }
        place.is_in_exchange = is_in_exchange;
        self.exchanges = if is_in_exchange {
            self.exchanges.saturating_add(1)
        } else {
            self.exchanges.saturating_sub(1)
        };
    }

    /// After how long the exchanges that wait are looked at again, if there are any.
    pub(crate) fn time_of_beat(&self) -> Option<Duration> {
        if self.exchanges == 0 {
            return None;
        }
        Some(Duration::from_millis(BEAT + self.exchanges / IN_A_MILLISECOND))
    }

    /// Each connection in an exchange that waits is taken up.
    pub(crate) fn beat(&mut self) {
        for token in 0..self.places.capacity() {
            let is_in_exchange = match self.places.get(token) {
                Some(place) => place.is_in_exchange,
                None => false,
            };
            if is_in_exchange {
                self.look_at(token);
            }
        }
    }

    /// The line of this seat is told what the system told, and what is due to its session. Whether nothing of it waits for room.
    pub(crate) fn tell(&mut self, at: usize, line: &PolledLine) -> bool {
        let clocked = self.clocked;
        let Some(token) = self.token_of(at) else {
            return true;
        };
        let Some(place) = self.places.get_mut(token) else {
            return true;
        };
        if let Some(notice) = clocked.due(place.session) {
            line.owe(notice);
        }
        let Some(polled) = socket_of(line) else {
            return true;
        };
        let may_go_on = place.tell(polled, clocked);
        self.weigh(token, polled.holds());
        may_go_on && !self.waits_for_others(token)
    }

    /// So many bytes are held for the client whose socket has this token.
    fn weigh(&mut self, token: usize, holds: u64) {
        let Some(place) = self.places.get_mut(token) else {
            return;
        };
        self.budget.change(place.holds, holds);
        place.holds = holds;
    }

    /// Whether the connection whose socket has this token waits, until less is held for all clients. One that is given up goes on to
    /// its end.
    fn waits_for_others(&mut self, token: usize) -> bool {
        let Some(place) = self.places.get_mut(token) else {
            return false;
        };
        if place.share == Share::GivenUp {
            return false;
        }
        let is_spent = self.budget.is_spent();
        place.share = if is_spent {
            Share::Waits
        } else {
            Share::GoesOn
        };
        is_spent
    }

    /// While too much is held for all clients, the one for which most is held is given up, and so on, up to so many at a time.
    fn make_light(&mut self) {
        for _one in 0..GIVEN_UP {
            if !self.budget.is_spent() {
                return;
            }
            let Some(token) = self.heaviest() else {
                return;
            };
            self.give_up(token);
        }
    }

    /// The client whose socket has this token is given up.
    fn give_up(&mut self, token: usize) {
        if self.closing_of(token).is_some() {
            return self.remove(token);
        }
        self.weigh(token, 0);
        if let Some(place) = self.places.get_mut(token) {
            place.share = Share::GivenUp;
        }
        self.push(token);
    }

    /// The token of the socket for whose client most is held.
    fn heaviest(&self) -> Option<usize> {
        let (mut most, mut found) = (0, None);
        for token in 0..self.places.capacity() {
            let holds = match self.places.get(token) {
                Some(place) => place.holds,
                None => 0,
            };
            if holds > most {
                most = holds;
                found = Some(token);
            }
        }
        found
    }

    /// The connection in this seat has ended, and its line is closed. The client of a session that was told to end is told too.
    pub(crate) fn close(&mut self, at: usize, line: PolledLine) {
        let mut line = line;
        line.close_session();
        let Some(token) = self.token_of(at) else {
            return;
        };
        self.set_exchange(token, false);
        let Some(place) = self.places.get_mut(token) else {
            return;
        };
        // `make_room` has made room for it.
        let Ok(key) = self.closing.insert(Closing::new(line, self.linger)) else {
            return self.remove(token);
        };
        place.usage = Use::Closing(key);
        place.gives_way = false;
        place.is_blocked = true;
        self.go_on_closing(token);
    }

    /// Goes on to close the line with this token, if it has ended.
    fn go_on_closing(&mut self, token: usize) {
        let Some(key) = self.closing_of(token) else {
            return;
        };
        let (left, holds) = match self.closing.get_mut(key) {
            Some(closing) => (closing.go_on(), closing.holds()),
            None => (Left::Nothing, 0),
        };
        self.weigh(token, holds);
        self.leave_for(token, left);
    }

    /// Of the line with this token so much is left. Of what may be read at once the system tells nothing more, so it waits to be
    /// taken up again, behind the others.
    fn leave_for(&mut self, token: usize, left: Left)
        ensures more { left ≡ More → Waits self.old self.new token }
    {
        match left {
            Left::Nothing => self.remove(token),
            Left::Later => {}
            Left::More => self.push(token),
        }
    }

    /// The key of the line that is closed, whose socket has this token.
    fn closing_of(&self, token: usize) -> Option<usize> {
        match &self.places.get(token)?.usage {
            Use::Seat(_) => None,
            Use::Closing(key) => Some(*key),
        }
    }

    /// A tick has passed: those that have moved nothing since the one before are taken up.
    pub(crate) fn tick(&mut self) {
        self.clocked.now = self.clocked.now.saturating_add(1);
        self.make_light();
        for token in 0..self.places.capacity() {
            if self.is_late(token) {
                self.remove(token);
            } else if self.is_due(token) {
                self.look_at(token);
            }
        }
    }

    fn is_due(&mut self, token: usize) -> bool {
        match self.places.get_mut(token) {
            Some(place) => place.is_due(),
            None => false,
        }
    }

    /// Whether the line with this token was to be closed for long enough.
    fn is_late(&mut self, token: usize) -> bool {
        let Some(key) = self.closing_of(token) else {
            return false;
        };
        match self.closing.get_mut(key) {
            Some(closing) => closing.is_late(self.clocked),
            None => true,
        }
    }

    /// For how many ticks newcomers have waited, if they do and the log is to be told of it.
    pub(crate) fn hear_wait(&mut self, wait: bool) -> Option<u64> {
        self.wants.hear(self.clocked.now, wait)
    }

    /// The server is to end: each connection is taken up, those between two requests end, and sessions are told.
    pub(crate) fn leave(&mut self) {
        if self.clocked.leaving.is_some() {
            return;
        }
        self.clocked.leaving = Some(self.clocked.now);
        for token in 0..self.places.capacity() {
            self.look_at(token);
        }
    }

    /// Forgets all that sit.
    pub(crate) fn leave_seats(&mut self) {
        for at in 0..self.tokens.len() {
            if let Some(token) = self.token_of(at) {
                if self.seat_of(token).is_some() {
                    self.remove(token);
                }
            }
        }
    }

    /// Whether each seat is taken.
    pub(crate) fn is_full(&self) -> bool {
        self.places.len().saturating_sub(self.closing.len()) >= self.tokens.len()
    }

    /// The connection that has been silent longest between two requests is to give its seat away, unless one does already. Whether one does.
    pub(crate) fn give_one_away(&mut self) -> bool {
        if self.is_giving() {
            return true;
        }
        self.giving = self.longest_silent();
        let Some(token) = self.giving else {
            return false;
        };
        if let Some(place) = self.places.get_mut(token) {
            place.gives_way = true;
        }
        self.push(token);
        true
    }

    /// Whether a connection gives its seat away.
    fn is_giving(&self) -> bool {
        let Some(token) = self.giving else {
            return false;
        };
        match self.places.get(token) {
            Some(place) => place.gives_way,
            None => false,
        }
    }

    /// The token of the connection that has been silent longest between two requests, if that was for long enough.
    fn longest_silent(&self) -> Option<usize> {
        if self.give_way == 0 {
            return None;
        }
        let (mut most, mut found) = (self.give_way, None);
        for token in 0..self.places.capacity() {
            let silent = match self.places.get(token) {
                Some(place) => place.silent_between(),
                None => 0,
            };
            if silent >= most {
                most = silent;
                found = Some(token);
            }
        }
        found
    }

    /// Whether no line is to be closed any more, and nobody sits.
    pub(crate) fn is_empty(&self) -> bool {
        self.places.len() == 0
    }

    /// Whether a socket was closed since this was asked the last time.
    pub(crate) fn has_freed(&mut self) -> bool {
        let freed = self.freed;
        self.freed = false;
        freed
    }
}
