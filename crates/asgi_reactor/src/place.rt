//! What is known of a socket that was registered.
use crate::draining::Left;
use crate::lingering::{Linger, Lingering};
use crate::losses::Unsent;
use crate::pace::{Sender, Taker};
use crate::polled::Polled;
use crate::silence::Silence;
use crate::waiting::Wish;
use asgi_leaving::{Farewell, LeavingLine, Notice};
use asgi_many::{Rest, Standing};
use asgi_ws::Wired;
use std::net::SocketAddr;

/// A line over a socket that never waits, whose session is told what is due by its server.
pub type PolledLine = LeavingLine<Wired<Polled>>;

/// The socket of a line.
pub(crate) fn socket_of(line: &PolledLine) -> Option<&Polled> {
    line.line().stream()
}

/// What a socket is used for.
#[derive(Clone, Copy, Debug)]
pub(crate) enum Use {
    /// The connection in this seat.
    Seat(usize),
    /// A connection that has ended, whose line, at this key, is closed.
    Closing(usize),
}

/// What comes of a connection where too much is held for all clients.
#[derive(Clone, Copy, Debug, PartialEq, Eq)]
pub(crate) enum Share {
    /// It goes on, since less is held than may be.
    GoesOn,
    /// It waits until less is held.
    Waits,
    /// Its client is given up, since most is held for it.
    GivenUp,
}

/// The line of a connection that has ended, which is closed.
#[derive(Drop)]
pub(crate) struct Closing {
    line: PolledLine,
    /// For how long it is read.
    lingering: Lingering,
    /// How its client takes what waits for room.
    taker: Taker,
}

/// A socket that was registered.
#[derive(Drop)]
pub(crate) struct Place {
    pub(crate) usage: Use,
    pub(crate) client: SocketAddr,
    /// Why it is to be taken up, if it is.
    pub(crate) wish: Option<Wish>,
    /// Its connection has moved something since the last tick.
    pub(crate) has_moved: bool,
    /// A tick has passed in which it has not, and is to be counted.
    pub(crate) is_silent: bool,
    /// Its connection is in an exchange, and waits.
    pub(crate) is_in_exchange: bool,
    /// How its client sends.
    pub(crate) sender: Sender,
    /// Nothing more is read of its client, and its connection ends as if that were silent.
    pub(crate) is_deaf: bool,
    /// Its connection gives its seat to a newcomer, unless something comes.
    pub(crate) gives_way: bool,
    /// In how many ticks in a row its connection has moved nothing.
    pub(crate) silent: u32,
    /// How long its session has been silent, if it is in one.
    pub(crate) session: Option<Silence>,
    /// It has bytes that wait for room.
    pub(crate) is_blocked: bool,
    /// How its client has taken them since they wait.
    pub(crate) taker: Taker,
    /// How many bytes are held for its client, as it was counted last.
    pub(crate) holds: u64,
    /// What comes of it where too much is held for all clients.
    pub(crate) share: Share,
    /// What the system told of it, and its line was not told yet.
    pub(crate) is_readable: bool,
    pub(crate) is_ended: bool,
}

/// The ticks that have passed, and what is asked of clients by them.
#[derive(Clone, Copy, Debug)]
pub(crate) struct Clocked {
    pub(crate) now: u64,
    pub(crate) least: u64,
    pub(crate) slow: u64,
    pub(crate) patience: u64,
    pub(crate) leave: u64,
    pub(crate) ping: u32,
    pub(crate) pong: u32,
    /// The tick since which all are to end.
    pub(crate) leaving: Option<u64>,
}

impl Clocked {
    /// What is due to a line whose session has been silent so long, if it is in one: before all that its server goes away.
    pub(crate) fn due(&self, session: Option<Silence>) -> Option<Notice> {
        if self.leaving.is_some() {
            return Some(Notice::Close(Farewell::GoingAway));
        }
        let silence = session?;
        Some(silence.due(self.ping, self.pong))
    }

    /// Whether a client takes too slowly what waits for room, now that some more may have left.
    fn is_taken_too_slowly(&self, taker: &mut Taker, polled: &Polled) -> bool {
        taker.is_too_slow(self.least.max(1), self.patience, self.now, polled.left())
    }

    /// Whether a connection that rests here is to end.
    fn is_over(&self, standing: Standing) -> bool {
        match self.leaving {
            None => false,
            Some(since) => {
                !is_exchange(standing) || self.now.saturating_sub(since) >= self.leave
            }
        }
    }
}

/// Whether an exchange is under way.
pub(crate) fn is_exchange(standing: Standing) -> bool {
    match standing {
        Standing::Between => false,
        Standing::InRequest => true,
        Standing::InSession => true,
        Standing::Ended => false,
    }
}

impl Closing {
    /// The line of a connection that has ended, whose peer has so long to close it too.
    pub(crate) fn new(line: PolledLine, linger: Linger) -> Closing {
        if let Some(polled) = socket_of(&line) {
            let _before = polled.left();
        }
        Closing {
            line,
            lingering: Lingering::new(linger),
            taker: Taker::new(),
        }
    }

    /// What of it has not left, if it is closed now.
    pub(crate) fn unsent(&self, client: SocketAddr) -> Option<Unsent> {
        let (bytes, why) = socket_of(&self.line)?.unsent()?;
        Some(Unsent { client, bytes, why })
    }

    /// Goes on to close it.
    pub(crate) fn go_on(&mut self) -> Left {
        let Some(polled) = socket_of(&self.line) else {
            return Left::Nothing;
        };
        let left = polled.close();
        self.lingering.hear(polled.came());
        if left == Left::More && self.lingering.is_over() {
            return Left::Nothing;
        }
        left
    }

    /// How many bytes are held for its client.
    pub(crate) fn holds(&self) -> u64 {
        match socket_of(&self.line) {
            Some(polled) => polled.holds(),
            None => 0,
        }
    }

    /// A tick has passed. Whether it was to be closed for long enough: its write half is shut, and its client was read for as long as it
    /// is, or that takes too slowly what waits.
    pub(crate) fn is_late(&mut self, clocked: Clocked) -> bool {
        let Some(polled) = socket_of(&self.line) else {
            return true;
        };
        if !polled.push() {
            return clocked.is_taken_too_slowly(&mut self.taker, polled);
        }
        self.lingering.tick();
        self.lingering.is_over()
    }
}

impl Place {
    /// That of a newcomer in this seat.
    pub(crate) fn of_seat(at: usize, client: SocketAddr) -> Place {
        Place {
            usage: Use::Seat(at),
            client,
            wish: None,
            has_moved: true,
            is_silent: false,
            is_in_exchange: false,
            sender: Sender::new(),
            is_deaf: false,
            gives_way: false,
            silent: 0,
            session: None,
            is_blocked: false,
            taker: Taker::new(),
            holds: 0,
            share: Share::GoesOn,
            is_readable: false,
            is_ended: false,
        }
    }

    /// Its line is told what the system told of it. Whether nothing waits for room any more: all has left, or its client is given
    /// up, since it takes it too slowly.
    pub(crate) fn tell(&mut self, polled: &Polled, clocked: Clocked) -> bool {
        if self.is_ended {
            polled.has_ended();
        } else if self.is_readable {
            polled.may_be_read();
        }
        self.is_readable = false;
        if polled.waits() {
            self.push(polled);
        } else {
            self.is_blocked = false;
        }
        if self.is_given_up(polled, clocked) {
            polled.give_up();
            self.is_blocked = false;
        }
        if self.is_blocked {
            // Who takes nothing has another limit.
            self.end_silence();
        }
        !self.is_blocked
    }

    /// Whether its client is given up: it takes what waits too slowly, or most is held for it where too much is held for all.
    fn is_given_up(&mut self, polled: &Polled, clocked: Clocked) -> bool {
        if self.share == Share::GivenUp {
            return true;
        }
        self.is_blocked && clocked.is_taken_too_slowly(&mut self.taker, polled)
    }

    /// A tick of its session was silent, if it was one of its connection.
    fn count_silence(&mut self) {
        if !self.is_silent {
            return;
        }
        if let Some(silence) = &mut self.session {
            silence.tick();
        }
    }

    /// Its connection has moved something.
    pub(crate) fn moves(&mut self) {
        self.has_moved = true;
        self.end_silence();
    }

    /// Its session is not silent.
    fn end_silence(&mut self) {
        if let Some(silence) = &mut self.session {
            silence.end();
        }
    }

    /// What is held is written. From when some of it waits for room it is seen how much its client takes.
    fn push(&mut self, polled: &Polled) {
        let was_blocked = self.is_blocked;
        self.is_blocked = !polled.push();
        if self.is_blocked && !was_blocked {
            let _before = polled.left();
            self.taker = Taker::new();
        }
    }

    /// A tick has passed. Whether it is to be taken up: its connection has moved nothing since the one before, or it has bytes that
    /// wait.
    pub(crate) fn is_due(&mut self) -> bool {
        self.is_silent = !self.has_moved;
        self.silent = if self.is_silent {
            self.silent.saturating_add(1)
        } else {
            0
        };
        self.count_silence();
        self.has_moved = false;
        self.is_silent || self.is_blocked || self.share == Share::Waits
    }

    /// Its connection rests, and what it wrote leaves. If nothing came since it did before, its memory for what is read ahead and for
    /// what it writes is given back. From here on it ends as if its client were silent, if that sends the bytes of a head or a body too slowly, or if the
    /// server ends.
    pub(crate) fn rests(&mut self, polled: &Polled, rest: Rest, clocked: Clocked) {
        let came = polled.came();
        if came == 0 {
            polled.let_go();
        }
        if rest.standing == Standing::InSession && (came > 0 || self.session.is_none()) {
            self.session = Some(Silence::new());
        }
        let is_given = self.gives_way && came == 0 && !is_exchange(rest.standing);
        self.gives_way = is_given;
        let is_over = clocked.is_over(rest.standing) && !self.is_new(rest);
        if is_given || is_over || self.is_too_slow(came, rest, clocked) {
            self.is_deaf = true;
            polled.stop_reading();
        }
        self.push(polled);
    }

    /// Whether its first request may be on its way: none has come, and no tick has passed without a move.
    fn is_new(&self, rest: Rest) -> bool {
        rest.standing == Standing::Between && rest.exchanges == 0 && self.silent == 0
    }

    /// For how many ticks in a row its connection has been silent between two requests, if it could give its seat away.
    pub(crate) fn silent_between(&self) -> u32 {
        match self.usage {
            Use::Seat(_) if !self.is_in_exchange && !self.is_deaf => self.silent,
            Use::Seat(_) => 0,
            Use::Closing(_) => 0,
        }
    }

    /// Whether its client, of which so many bytes came, is too slow. In a session it may be.
    fn is_too_slow(&mut self, came: u64, rest: Rest, clocked: Clocked) -> bool {
        if rest.standing == Standing::InSession {
            return false;
        }
        let (least, slow) = (clocked.least, clocked.slow);
        self.sender
            .is_too_slow(least, slow, clocked.now, came, rest.exchanges)
    }

    /// It is taken up. Whether a tick is to be counted.
    pub(crate) fn take_up(&mut self) -> bool {
        self.wish = None;
        let is_silent = self.is_silent;
        self.is_silent = false;
        is_silent
    }
}
