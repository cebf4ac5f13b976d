//! Where the connections of a port come from, and which of them may go on.
ghost use Rattle.std.specs.Prelude.{◌≡◌, ◌⊎◌, ◌+◌, ◌++◌, ◌∷◌, [], ℕ, None, Some, IfOk, IsFalse, IsSome, IsTrue};
ghost use Rattle.asgi_many.specs.Moves.{asked_by};
ghost use Rattle.asgi_many.specs.declared.reactor.Next.TheVariants.{NoneEver, NoneNow};
ghost use Rattle.asgi_reactor.specs.Accepting.{IfArrived, IsNone, IsNoneEver, kept_at, kept_in};
ghost use Rattle.asgi_reactor.specs.Faults.{HasFailed, IsOver};
ghost use Rattle.asgi_reactor.specs.Shares.{Share, quota_of, share_of};

use crate::faults::{Fault, fault_of};
use crate::numbers::Numbers;
use crate::peers::{own_peer, peer_at};
pub use crate::place::PolledLine;
use crate::polled::Polled;
use crate::queue::Queue;
use crate::quota::{Quota, Ticketer};
use crate::tickets::{another, is_spent, used};
use crate::wants::tell_wait;
use asgi_io::History;
use asgi_leaving::LeavingLine;
use asgi_many::{Move, Newcomer, Next, Reactor, Ready, Rest};
use asgi_types::Peer;
use asgi_ws::Wired;
use log::Log;
use mio::net::{TcpListener, TcpStream};
use mio::{Events, Interest, Poll, Token};
use std::alloc::Global;
use std::io::{self, ErrorKind};
use std::net::{Net, SocketAddr};
use std::os::fd::AsFd;
use std::sync::atomic::{AtomicBool, Ordering};
use std::thread;
use std::time::{Clock, Duration, Instant};

/// The token of the listener.
const ARRIVALS: usize = usize::MAX;

/// How many events are taken of the system at a time.
const EVENTS: usize = 1_024;

/// How many connections in a row may be lost between their arrival and their being accepted.
const LOST_IN_A_ROW: u32 = 1_000;

/// How many waits in a row may fail, each of which takes until the next tick.
const FAILED_IN_A_ROW: u32 = 10;

/// How many connections are accepted at the most that wait in the queue of the port as it is to be closed.
const LAST_NEWCOMERS: u32 = 1_000;

/// How many connections are accepted before those that sit have their turns.
const NEWCOMERS: u32 = 16;

/// The shortest tick, in milliseconds.
const SHORTEST_TICK: u64 = 1;

/// In how many turns something moves before the clock is asked: a request of few bytes has no more.
const UNTIMED: u32 = 3;

/// For how many milliseconds after a wait a connection takes turns in a row. From then on each has one at a time.
const LONG_ROW: u64 = 1;

/// After how many milliseconds the system is asked again, though others wait for their turns.
const LONG_ROUND: u64 = 10;

/// How many waits its end may take at the most.
const LAST_WAITS: u32 = 1_000_000;

/// The longest wait if a flag ends the server, in milliseconds.
const FLAG_WAIT: u64 = 50;

/// The error of a socket that was closed (EBADF).
const CLOSED: i32 = 9;

/// The connections of a port: at most a number of them, and none once a flag was found set. A seat is named once the
/// system says that its socket is ready, now and then while its connection waits in an exchange, and at each tick if its
/// connection has moved nothing since the one before. If no connection can be accepted any more, `why` has the system's error. Once none
/// will come any more its socket is closed, so that who connects then is refused at once.
/// A want of descriptors or of memory is waited for, from tick to tick.
#[derive(Drop)]
pub struct SocketReactor<'a, R: Clock> {
    clock: &'a R,
    alloc: Global,
    poll: Poll,
    events: Events<Global>,
    // Until no connection will be accepted any more.
    listener: Option<TcpListener>,
    // The server of each connection, where it listens at one address.
    own: Option<Peer>,
    queue: Queue,
    // How many more connections will be accepted.
    left: u64,
    // Takes a ticket for each that is accepted, if all that share the socket have a quota.
    ticketer: Option<Ticketer<'a>>,
    // Looked at before each accept.
    flag: Option<&'a AtomicBool>,
    // One may have arrived.
    arrived: bool,
    // The system may have one that was not accepted yet.
    has_newcomers: bool,
    // A seat may be given away: since the last tick it was not found that none can be.
    may_give_away: bool,
    // How many in a row were lost.
    lost: u32,
    // How many were accepted since the last wait.
    accepted: u32,
    // How many more are accepted once the flag is set, of those that wait in the queue of the port.
    last: u32,
    // The last accept found no descriptor or no memory: the system's error.
    short: Option<io::Error>,
    // How many waits in a row have failed, and the last error.
    failed: u32,
    fault: Option<io::Error>,
    tick: Duration,
    last_tick: Option<Instant>,
    // The exchanges that wait were looked at.
    last_beat: Option<Instant>,
    // What time it was after the last wait. The clock is asked once for each.
    time: Option<Instant>,
    // What time it was after the last turn in which something moved and the clock was asked, since the last wait.
    seen: Option<Instant>,
    // In how many turns something has moved since it was.
    untimed: u32,
    why: Option<io::Error>,
    told: History<Next<PolledLine>>,
    moves: History<Move>,
}

impl<'a, R: Net + Clock> SocketReactor<'a, R> {
    /// Opens a socket that listens at this address, or at any free port of it if its port is 0. It gives no connection once
    /// the flag is set. The system's error if the address can't be had.
    pub fn open(
        rt: &'a R,
        alloc: Global,
        address: SocketAddr,
        numbers: &Numbers,
        flag: Option<&'a AtomicBool>,
    ) -> io::Result<Self>
        ensures nothing { IfOk result (λ r. (r.told.items ≡ []) × (r.why ≡ None)) }
        ensures count { IfOk result (λ r. r.left ≡ numbers.now.count) }
        ensures ticketer { IfOk result (λ r. r.ticketer ≡ None) }
    {
        let listener = TcpListener::bind(rt, address)?;
        SocketReactor::of(rt, alloc, listener, numbers, flag, None)
    }

    /// One more of the same socket, for another thread: each connection is accepted by one of them. It looks at the same flag,
    /// shares the same quota, and has a count of its own. What the system refused, or want of memory, is its error.
    pub fn beside(&self, numbers: &Numbers) -> io::Result<Self>
        ensures nothing { IfOk result (λ r. (r.told.items ≡ []) × (r.why ≡ None)) }
        ensures count { IfOk result (λ r. r.left ≡ numbers.now.count) }
        ensures kept { IfOk result (λ r. kept_in r.told.items r.left r.ticketer ≡ kept_at numbers.now.count (quota_of self.now.ticketer)) }
    {
        let Some(listener) = &self.listener else {
            return Err(io::Error::from_raw_os_error(CLOSED));
        };
        let listener = TcpListener::from(listener.as_fd().try_clone_to_owned()?);
        let ticketer = another(&self.ticketer);
        SocketReactor::of(
            self.clock, self.alloc, listener, numbers, self.flag, ticketer,
        )
    }

    /// One of this socket, which is listened on and does not block.
    fn of(
        rt: &'a R,
        alloc: Global,
        mut listener: TcpListener,
        numbers: &Numbers,
        flag: Option<&'a AtomicBool>,
        ticketer: Option<Ticketer<'a>>,
    ) -> io::Result<Self>
        ensures nothing { IfOk result (λ r. (r.told.items ≡ []) × (r.why ≡ None)) }
        ensures count { IfOk result (λ r. r.left ≡ numbers.now.count) }
        ensures ticketer { IfOk result (λ r. r.ticketer ≡ ticketer.entry) }
    {
        let poll = Poll::new(rt)?;
        poll.registry()
            .register(&mut listener, Token(ARRIVALS), Interest::READABLE)?;
        let own = own_peer(alloc, listener.local_addr());
        Ok(SocketReactor {
            clock: rt,
            alloc,
            poll,
            events: Events::with_capacity(alloc, EVENTS)?,
            listener: Some(listener),
            own,
            queue: Queue::new(alloc, numbers)?,
            left: numbers.count,
            ticketer,
            flag,
            arrived: true,
            has_newcomers: false,
            may_give_away: false,
            lost: 0,
            accepted: 0,
            last: LAST_NEWCOMERS,
            short: None,
            failed: 0,
            fault: None,
            tick: numbers.tick.max(Duration::from_millis(SHORTEST_TICK)),
            last_tick: time_of(rt),
            last_beat: time_of(rt),
            time: time_of(rt),
            seen: None,
            untimed: 0,
            why: None,
            told: History::new(),
            moves: History::new(),
        })
    }
}

impl<'a, R: Clock> SocketReactor<'a, R> {
    /// The same, which accepts no more connections than all that share this quota are to accept together.
    pub fn within(self, quota: &'a Quota) -> Self
        ensures same { let was = self.entry in (result.told ≡ was.told) × (result.left ≡ was.left) × (result.why ≡ was.why) × (result.moves ≡ was.moves) }
        ensures quota { quota_of result.ticketer ≡ Some quota.now }
        ensures kept { self.entry.told.items ≡ [] → kept_in result.told.items result.left result.ticketer ≡ kept_at self.entry.left (Some quota.now) }
    {
        let mut reactor = self;
        reactor.ticketer = Some(quota.ticketer());
        reactor
    }

    /// Ends it, and gives what it took tickets by.
    pub fn into_ticketer(self) -> Option<Ticketer<'a>>
        ensures { result ≡ self.entry.ticketer }
    {
        let mut reactor = self;
        reactor.ticketer.take()
    }
}

impl<R: Clock> SocketReactor<'_, R> {
    /// The address at which it listens, with the port that the system chose if none was asked for. An error once it
    /// listens no more.
    pub fn address(&self) -> io::Result<SocketAddr> {
        match &self.listener {
            Some(listener) => listener.local_addr(),
            None => Err(io::Error::from_raw_os_error(CLOSED)),
        }
    }

    /// Why no connection can be accepted any more: the system's error, once it has failed.
    pub fn why(&self) -> Option<io::Error>
        ensures { result ≡ self.now.why }
    {
        self.why
    }
}

impl<'a, R: Clock + Log> SocketReactor<'a, R> {
    /// Ends it, as `finish` does.
    pub fn end(self) {
        let mut reactor = self;
        reactor.finish();
    }

    /// Writes what is still held of connections that have ended, and closes them, as long as their clients take something. The
    /// seats of a server that goes on are closed at once.
    pub fn finish(&mut self)
        ensures same { (self.new.told ≡ self.old.told) × (self.new.why ≡ self.old.why) × (self.new.moves ≡ self.old.moves) }
        ensures kept { kept_in self.new.told.items self.new.left self.new.ticketer ≡ kept_in self.old.told.items self.old.left self.old.ticketer }
    {
        self.queue.leave_seats();
        for _wait in 0..LAST_WAITS {
            if self.queue.is_empty() || self.failed >= FAILED_IN_A_ROW {
                break;
            }
            self.gather();
            let _none = self.queue.next();
        }
        self.queue.losses.tell(self.clock);
    }

    /// Whether no connection is accepted any more.
    fn is_over(&mut self) -> bool
        ensures left { IsFalse result → ¬ (self.new.left ≡ 0) }
        ensures why { IsFalse result → self.new.why ≡ None }
        ensures over { IsTrue result → IsOver self.new.left self.new.why self.new.flag self.new.ticketer }
        ensures same { self.new ≡ record self.old { ticketer = self.new.ticketer } }
        ensures share { share_of self.new.ticketer self.new.left ≡ share_of self.old.ticketer self.old.left }
    {
        self.left == 0 || self.why.is_some() || self.is_to_end() || is_spent(&mut self.ticketer)
    }

    /// Whether the flag is set, and those that waited in the queue of the port then were accepted: their clients have connected, and
    /// may have sent a request.
    fn is_to_end(&self) -> bool
        ensures yes { IsTrue result → IsSome self.now.flag }
    {
        is_set(self.flag) && self.last == 0
    }

    /// Whether those that sit have their turns before one more is accepted.
    fn has_many_newcomers(&self) -> bool {
        self.accepted >= NEWCOMERS
    }

    /// The next connection, for this seat.
    fn accept(&mut self, at: usize) -> Next<PolledLine>
        ensures told { (self.new.told ≡ self.old.told) × (self.new.moves ≡ self.old.moves) }
        ensures some { IfArrived result (λ _. (self.old.left ≡ self.new.left + 1) × (self.new.why ≡ None)) }
        ensures none { IsNone result → self.new.left ≡ self.old.left }
        ensures ever { IsNoneEver result → IsOver self.new.left self.new.why self.new.flag self.new.ticketer }
        ensures closed { IsNoneEver result → self.new.listener ≡ None }
        ensures why { (self.new.why ≡ self.old.why) ⊎ HasFailed self.new.why }
        ensures share { share_of self.new.ticketer self.new.left ≡ share_of self.old.ticketer self.old.left }
    {
        if self.is_over() {
            return self.ends();
        }
        if self.has_many_newcomers() {
            return Next::NoneNow;
        }
        if self.queue.make_room().is_err() {
            self.count_last(LAST_NEWCOMERS);
            return Next::NoneNow;
        }
        match self.ticketer.take() {
            Some(ticketer) => self.accept_within(ticketer, at),
            None => self.accept_one(at),
        }
    }

    /// The same if what takes tickets is this, which is put back. While the others have taken all, none is asked for.
    fn accept_within(&mut self, ticketer: Ticketer<'a>, at: usize) -> Next<PolledLine>
        requires left { ¬ (self.old.left ≡ 0) }
        requires why { self.old.why ≡ None }
        ensures told { (self.new.told ≡ self.old.told) × (self.new.moves ≡ self.old.moves) }
        ensures some { IfArrived result (λ _. (self.old.left ≡ self.new.left + 1) × (self.new.why ≡ None)) }
        ensures none { IsNone result → self.new.left ≡ self.old.left }
        ensures ever { IsNoneEver result → HasFailed self.new.why }
        ensures closed { IsNoneEver result → self.new.listener ≡ None }
        ensures why { (self.new.why ≡ self.old.why) ⊎ HasFailed self.new.why }
        ensures share { share_of self.new.ticketer self.new.left ≡ share_of (Some ticketer.entry) self.old.left }
    {
        let mut ticketer = ticketer;
        if !ticketer.take() {
            self.ticketer = Some(ticketer);
            return Next::NoneNow;
        }
        let next = self.accept_one(at);
        self.ticketer = Some(used(ticketer, &next));
        next
    }

    /// Asks the system for the next connection.
    fn accept_one(&mut self, at: usize) -> Next<PolledLine>
        requires left { ¬ (self.old.left ≡ 0) }
        requires why { self.old.why ≡ None }
        ensures told { (self.new.told ≡ self.old.told) × (self.new.moves ≡ self.old.moves) }
        ensures some { IfArrived result (λ _. (self.old.left ≡ self.new.left + 1) × (self.new.why ≡ None)) }
        ensures none { IsNone result → self.new.left ≡ self.old.left }
        ensures ever { IsNoneEver result → HasFailed self.new.why }
        ensures closed { IsNoneEver result → self.new.listener ≡ None }
        ensures why { (self.new.why ≡ self.old.why) ⊎ HasFailed self.new.why }
        ensures ticketer { self.new.ticketer ≡ self.old.ticketer }
    {
        match self.next_stream() {
            Ok((stream, from)) => match self.take(stream, from, at) {
                Some(newcomer) => {
                    self.left -= 1;
                    self.lost = 0;
                    self.short = None;
                    self.accepted = self.accepted.saturating_add(1);
                    self.count_last(1);
                    Next::Arrived(newcomer)
                }
                None => self.passes(),
            },
            Err(e) => self.fails(e),
        }
    }

    /// So many fewer are accepted, if the flag is set.
    fn count_last(&mut self, many: u32)
        ensures same { self.new ≡ record self.old { last = self.new.last } }
    {
        if is_set(self.flag) {
            self.last = self.last.saturating_sub(many);
        }
    }

    /// The next connection that the system has.
    fn next_stream(&self) -> io::Result<(TcpStream, SocketAddr)> {
        match &self.listener {
            Some(listener) => listener.accept(),
            None => Err(io::Error::from_raw_os_error(CLOSED)),
        }
    }

    /// None will come any more.
    fn ends(&mut self) -> Next<PolledLine>
        ensures ever { result ≡ NoneEver }
        ensures closed { self.new.listener ≡ None }
        ensures same { (self.new.told ≡ self.old.told) × (self.new.moves ≡ self.old.moves) × (self.new.left ≡ self.old.left) × (self.new.why ≡ self.old.why) }
        ensures ends { (self.new.flag ≡ self.old.flag) × (self.new.ticketer ≡ self.old.ticketer) }
    {
        self.stop_listening();
        Next::NoneEver
    }

    /// Closes the socket that listens, in this thread. Who has connected and was not accepted is reset, and who connects later is
    /// refused.
    fn stop_listening(&mut self)
        ensures closed { self.new.listener ≡ None }
        ensures same { (self.new.told ≡ self.old.told) × (self.new.moves ≡ self.old.moves) × (self.new.left ≡ self.old.left) × (self.new.why ≡ self.old.why) }
        ensures ends { (self.new.flag ≡ self.old.flag) × (self.new.ticketer ≡ self.old.ticketer) }
    {
        if let Some(listener) = &mut self.listener {
            // The same socket may be open in other threads, and be told of here, until it is closed there too.
            let _gone = self.poll.registry().deregister(listener);
        }
        self.listener = None;
    }

    /// A connection was lost. The next one is asked for at once, unless too many were lost.
    fn passes(&mut self) -> Next<PolledLine>
        ensures now { result ≡ NoneNow }
        ensures same { (self.new.told ≡ self.old.told) × (self.new.moves ≡ self.old.moves) × (self.new.left ≡ self.old.left) × (self.new.why ≡ self.old.why) × (self.new.ticketer ≡ self.old.ticketer) }
    {
        self.lost = self.lost.saturating_add(1);
        self.arrived = self.lost < LOST_IN_A_ROW;
        Next::NoneNow
    }

    /// An accept failed.
    fn fails(&mut self, e: io::Error) -> Next<PolledLine>
        ensures none { IsNone result }
        ensures ever { IsNoneEver result → HasFailed self.new.why }
        ensures closed { IsNoneEver result → self.new.listener ≡ None }
        ensures why { (self.new.why ≡ self.old.why) ⊎ HasFailed self.new.why }
        ensures same { (self.new.told ≡ self.old.told) × (self.new.moves ≡ self.old.moves) × (self.new.left ≡ self.old.left) × (self.new.ticketer ≡ self.old.ticketer) }
    {
        match fault_of(&e) {
            Fault::Lost => self.passes(),
            Fault::NoneNow => {
                self.lost = 0;
                self.has_newcomers = false;
                self.count_last(LAST_NEWCOMERS);
                Next::NoneNow
            }
            Fault::Short => {
                self.short = Some(e);
                self.count_last(LAST_NEWCOMERS);
                Next::NoneNow
            }
            Fault::Lasting => {
                self.why = Some(e);
                self.ends()
            }
        }
    }

    /// Registers a connection that was accepted. It is lost if the system or memory refuses that.
    fn take(
        &mut self,
        stream: TcpStream,
        from: SocketAddr,
        at: usize,
    ) -> Option<Newcomer<PolledLine>>
        ensures { (self.new.told ≡ self.old.told) × (self.new.moves ≡ self.old.moves) × (self.new.left ≡ self.old.left) × (self.new.why ≡ self.old.why) × (self.new.ticketer ≡ self.old.ticketer) }
    {
        let mut stream = stream;
        let Some(token) = self.queue.add(at, from) else {
            self.queue.losses.add_closed(None);
            return None;
        };
        let both = Interest::READABLE | Interest::WRITABLE;
        let registry = self.poll.registry();
        if let Err(e) = registry.register(&mut stream, Token(token), both) {
            self.queue.remove(token);
            self.queue.losses.add_closed(Some(e));
            return None;
        }
        let client = peer_at(self.alloc, Ok(from));
        let server = match &self.own {
            Some(own) => own.copy(self.alloc).ok(),
            None => peer_at(self.alloc, stream.local_addr()),
        };
        Some(Newcomer {
            line: LeavingLine::new(Wired::new(self.alloc, Polled::new(self.alloc, stream))),
            client,
            server,
        })
    }

    /// Records what its server did.
    fn note(&mut self, made: Move)
        ensures moves { self.new.moves.items ≡ self.old.moves.items ++ made ∷ [] }
        ensures same { self.new ≡ record self.old { moves = self.new.moves } }
    {
        self.moves = History::with(&self.moves, &made);
    }

    /// How long the system may be waited for.
    fn patience(&self) -> Duration {
        if self.queue.is_waiting() || self.has_many_newcomers() {
            return Duration::from_millis(0);
        }
        let mut rest = self.rest_of(self.last_tick, self.tick);
        if let Some(beat) = self.queue.time_of_beat() {
            rest = rest.min(self.rest_of(self.last_beat, beat));
        }
        if self.flag.is_some() {
            return rest.min(Duration::from_millis(FLAG_WAIT));
        }
        rest
    }

    /// How long it was until so much time had passed since then, after the last wait.
    fn rest_of(&self, since: Option<Instant>, length: Duration) -> Duration {
        let Some(since) = since else {
            return length;
        };
        let Some(now) = self.time else {
            return length;
        };
        length.saturating_sub(now.duration_since(since))
    }

    /// Whether the exchanges that wait are to be looked at.
    fn is_beat(&self) -> bool {
        match self.queue.time_of_beat() {
            Some(beat) => self.rest_of(self.last_beat, beat) == Duration::from_millis(0),
            None => false,
        }
    }

    /// Asks the system which sockets are ready, and waits if none is.
    fn gather(&mut self)
        ensures same { (self.new.told ≡ self.old.told) × (self.new.moves ≡ self.old.moves) × (self.new.left ≡ self.old.left) × (self.new.why ≡ self.old.why) }
        ensures share { share_of self.new.ticketer self.new.left ≡ share_of self.old.ticketer self.old.left }
    {
        let patience = self.patience();
        // After a failed wait no event is left.
        match self.poll.poll(&mut self.events, Some(patience)) {
            Ok(()) => self.failed = 0,
            Err(e) => self.fails_to_wait(e),
        }
        self.time = time_of(self.clock);
        self.seen = None;
        self.untimed = 0;
        self.arrived = self.arrived || self.has_many_newcomers();
        self.accepted = 0;
        self.hear_events();
        self.hear_flag();
        self.pass_time();
        if self.lacks_a_seat() {
            self.may_give_away = self.queue.give_one_away();
        }
        self.queue.begin_round();
    }

    /// A wait failed. One that a signal has ended is made again at once, and any other once the next tick begins.
    fn fails_to_wait(&mut self, e: io::Error)
        ensures { (self.new.told ≡ self.old.told) × (self.new.moves ≡ self.old.moves) × (self.new.left ≡ self.old.left) × (self.new.why ≡ self.old.why) × (self.new.ticketer ≡ self.old.ticketer) }
    {
        if e.kind() == ErrorKind::Interrupted {
            return;
        }
        self.failed = self.failed.saturating_add(1);
        self.fault = Some(e);
        thread::sleep(self.clock, self.rest_of(self.last_tick, self.tick));
    }

    /// The system can't be waited for: no connection is accepted any more, and those that sit are to end. Where it says that it may
    /// pass, it is asked again.
    fn gives_up_waiting(&mut self)
        ensures same { (self.new.told ≡ self.old.told) × (self.new.moves ≡ self.old.moves) × (self.new.left ≡ self.old.left) × (self.new.ticketer ≡ self.old.ticketer) }
        ensures why { (self.new.why ≡ self.old.why) ⊎ HasFailed self.new.why }
    {
        let Some(e) = self.fault else {
            return;
        };
        match fault_of(&e) {
            Fault::Lasting => {
                self.why = Some(e);
                self.arrived = true;
                self.queue.leave();
            }
            _ => {}
        }
    }

    /// What the system told of the sockets is noted.
    fn hear_events(&mut self)
        ensures { (self.new.told ≡ self.old.told) × (self.new.moves ≡ self.old.moves) × (self.new.left ≡ self.old.left) × (self.new.why ≡ self.old.why) × (self.new.ticketer ≡ self.old.ticketer) }
    {
        for event in self.events.iter() {
            let Token(token) = event.token();
            if token == ARRIVALS {
                self.arrived = true;
                self.has_newcomers = true;
            } else {
                self.queue.note(token, event);
            }
        }
    }

    /// If the flag is set those that sit are to end, and once no connection will be accepted any more the port is closed.
    fn hear_flag(&mut self)
        ensures same { (self.new.told ≡ self.old.told) × (self.new.moves ≡ self.old.moves) × (self.new.left ≡ self.old.left) × (self.new.why ≡ self.old.why) }
        ensures share { share_of self.new.ticketer self.new.left ≡ share_of self.old.ticketer self.old.left }
    {
        if is_set(self.flag) {
            self.arrived = true;
            self.queue.leave();
        }
        if self.queue.is_full() {
            self.count_last(LAST_NEWCOMERS);
        }
        if self.is_over() {
            self.stop_listening();
        }
    }

    /// What is due by the clock is taken up.
    fn pass_time(&mut self)
        ensures { (self.new.told ≡ self.old.told) × (self.new.moves ≡ self.old.moves) × (self.new.left ≡ self.old.left) × (self.new.why ≡ self.old.why) × (self.new.ticketer ≡ self.old.ticketer) }
    {
        if self.is_beat() {
            self.begin_beat();
        }
        if self.rest_of(self.last_tick, self.tick) == Duration::from_millis(0) {
            self.begin_tick();
        }
    }

    /// Whether so much time has passed since the last wait, as of the last turn in which something moved.
    fn has_gone_on_for(&self, milliseconds: u64) -> bool {
        let Some(since) = self.time else {
            return false;
        };
        let Some(now) = self.seen else {
            return false;
        };
        now.duration_since(since) >= Duration::from_millis(milliseconds)
    }

    /// Whether a newcomer waits for a seat, a descriptor or memory.
    fn waits_for_room(&self) -> bool {
        self.short.is_some() || (self.has_newcomers && self.queue.is_full())
    }

    /// Tells the log for how long newcomers have waited and for what, if that is due.
    fn tell_wait(&mut self)
        ensures { (self.new.told ≡ self.old.told) × (self.new.moves ≡ self.old.moves) × (self.new.left ≡ self.old.left) × (self.new.why ≡ self.old.why) × (self.new.ticketer ≡ self.old.ticketer) }
    {
        let waits = self.waits_for_room();
        let Some(ticks) = self.queue.hear_wait(waits) else {
            return;
        };
        let waited = self.tick.saturating_mul(ticks.min(u32::MAX as u64) as u32);
        tell_wait(self.clock, waited.as_secs(), self.short);
    }

    /// Whether a newcomer waits for a seat or a descriptor, and one might be given away.
    fn lacks_a_seat(&self) -> bool {
        self.may_give_away && self.waits_for_room()
    }

    /// The exchanges that wait are looked at.
    fn begin_beat(&mut self)
        ensures { (self.new.told ≡ self.old.told) × (self.new.moves ≡ self.old.moves) × (self.new.left ≡ self.old.left) × (self.new.why ≡ self.old.why) × (self.new.ticketer ≡ self.old.ticketer) }
    {
        self.last_beat = self.time;
        self.queue.beat();
    }

    /// A tick has passed.
    fn begin_tick(&mut self)
        ensures { (self.new.told ≡ self.old.told) × (self.new.moves ≡ self.old.moves) × (self.new.left ≡ self.old.left) × (self.new.why ≡ self.old.why) × (self.new.ticketer ≡ self.old.ticketer) }
    {
        self.last_tick = self.time;
        self.arrived = true;
        self.may_give_away = true;
        self.queue.tick();
        self.queue.losses.tell(self.clock);
        self.tell_wait();
    }

    /// What may be done next. It waits for it.
    fn wait_for_one(&mut self) -> Ready
        ensures same { (self.new.told ≡ self.old.told) × (self.new.moves ≡ self.old.moves) × (self.new.left ≡ self.old.left) }
        ensures why { (self.new.why ≡ self.old.why) ⊎ HasFailed self.new.why }
        ensures share { share_of self.new.ticketer self.new.left ≡ share_of self.old.ticketer self.old.left }
    {
        for _round in 0..u64::MAX {
            if let Some(ready) = self.next_ready() {
                return ready;
            }
            self.gather();
            if self.failed == FAILED_IN_A_ROW {
                self.gives_up_waiting();
            }
        }
        Ready::Arrivals
    }

    /// What may be done next, if it is known.
    fn next_ready(&mut self) -> Option<Ready>
        ensures { (self.new.told ≡ self.old.told) × (self.new.moves ≡ self.old.moves) × (self.new.left ≡ self.old.left) × (self.new.why ≡ self.old.why) × (self.new.ticketer ≡ self.old.ticketer) }
    {
        if self.arrived {
            self.arrived = false;
            return Some(Ready::Arrivals);
        }
        // Newcomers, and those that the system tells of, do not wait for a long round to end.
        if self.has_gone_on_for(LONG_ROUND) {
            return None;
        }
        if let Some(ready) = self.queue.next() {
            return Some(ready);
        }
        if self.short.is_some() && self.queue.has_freed() {
            self.short = None;
            return Some(Ready::Arrivals);
        }
        None
    }
}

/// What time it is, if the clock tells.
fn time_of<R: Clock>(clock: &R) -> Option<Instant> {
    match Instant::now(clock) {
        Ok(now) => Some(now),
        Err(_) => None,
    }
}

/// Whether there is a flag, and it is set.
fn is_set(flag: Option<&AtomicBool>) -> bool
    ensures yes { IsTrue result → IsSome flag.entry }
{
    match flag {
        Some(flag) => flag.load(Ordering::SeqCst),
        None => false,
    }
}

impl<R: Clock + Log> Reactor for SocketReactor<'_, R> {
    type L = PolledLine;

    ghost answers = { λ r. r.told.items };

    ghost moves = { λ r. r.moves.items };

    ghost Kept = { ℕ × Share };

    // At most the number that it was told are accepted, each for a ticket if there is a quota.
    ghost kept = { λ r. kept_in r.told.items r.left r.ticketer };

    fn try_next(&mut self, at: usize) -> Next<PolledLine>
        ensures told { self.new.told.items ≡ self.old.told.items ++ result ∷ [] }
        ensures moves { self.new.moves.items ≡ self.old.moves.items ++ asked_by result ∷ [] }
        ensures some { IfArrived result (λ _. (self.old.left ≡ self.new.left + 1) × (self.new.why ≡ None)) }
        ensures none { IsNone result → self.new.left ≡ self.old.left }
        ensures ever { IsNoneEver result → IsOver self.new.left self.new.why self.new.flag self.new.ticketer }
        ensures closed { IsNoneEver result → self.new.listener ≡ None }
        ensures why { (self.new.why ≡ self.old.why) ⊎ HasFailed self.new.why }
        ensures kept { kept_in self.new.told.items self.new.left self.new.ticketer ≡ kept_in self.old.told.items self.old.left self.old.ticketer }
    {
        let next = self.accept(at);
        self.told = History::with(&self.told, &next);
        self.note(next.as_move());
        next
    }

    fn wait(&mut self) -> Ready {
        let ready = self.wait_for_one();
        self.note(Move::Waited(ready));
        ready
    }

    fn may_go_on(&mut self, at: usize, line: &PolledLine) -> bool {
        self.queue.tell(at, line)
    }

    fn again(&mut self, at: usize) {
        self.untimed = self.untimed.saturating_add(1);
        if self.untimed > UNTIMED {
            self.untimed = 0;
            self.seen = time_of(self.clock);
        }
        if self.has_gone_on_for(LONG_ROW) {
            self.queue.end_row();
        }
        self.queue.again(at);
    }

    fn rests(&mut self, at: usize, line: &PolledLine, rest: Rest) {
        self.queue.rests(at, line, rest);
    }

    fn close(&mut self, at: usize, line: PolledLine) {
        self.queue.close(at, line);
        self.note(Move::Freed);
    }
}
