//! The numbers of a reactor.
use crate::lingering::Linger;
use std::time::Duration;

/// The numbers of a reactor.
#[derive(Clone, Copy, Debug)]
pub struct Numbers {
    /// How many seats its server has.
    pub seats: usize,
    /// How many connections it gives at the most.
    pub count: u64,
    /// How long a connection moves nothing until a tick is counted for it.
    pub tick: Duration,
    /// For how many ticks bytes may wait for a client to take them, and one more for each `least` that it takes meanwhile, before it is
    /// given up.
    pub patience: u32,
    /// For how many bytes a client has one tick more. With 0 none is too slow that sends, and for what waits it is taken as 1.
    pub least: u64,
    /// How many ticks a client may take for the bytes of a request, and one more for each `least` of them, before it is given up as
    /// if it were silent.
    pub slow: u32,
    /// For how many ticks exchanges and sessions go on once the flag is set. Connections between two requests end at once, and
    /// sessions are told at once.
    pub leave: u32,
    /// After how many silent ticks a connection between two requests gives its seat to a newcomer, if all seats are taken or the
    /// system has no descriptor for one. The one that has been silent longest does. None does with 0.
    pub give_way: u32,
    /// How many bytes may be held for all clients together: once as many are, no connection goes on until the next tick, when those
    /// clients are given up for which most is held, until less is.
    pub held: u64,
    /// After how many silent ticks the client of a session is asked by a ping. None is with 0.
    pub ping: u32,
    /// How many ticks it has to answer, before its session is told to end.
    pub pong: u32,
    /// How long a client is read after its answer.
    pub linger: Linger,
}
