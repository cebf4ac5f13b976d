//! What holds each half of an exchange at each of its calls, until its turn comes by an order.
ghost use Rattle.std.specs.Prelude.{◌≤◌, length};

use asgi_apps::{AppFault, AppTask, Application};
use asgi_fakes::Pieces;
use asgi_pipes::AppEnd;
use asgi_types::Scope;
use futures::task::{Context, Poll};
use std::alloc::{AllocError, Global};
use std::io::{self, Read, Write};
use std::sync::Arc;
use std::sync::atomic::{AtomicU64, Ordering};
use std::thread;

/// A half that is held lets other threads go first this many times, before it goes on out of its turn: the other one
/// may have nothing to do, or have ended.
const PATIENCE: u32 = 200;

/// In which order the halves make their calls.
#[derive(Clone, Copy)]
pub enum Order {
    /// This many of the connection's, and then this many of the application's.
    Turns(u64),
    /// By chance, from this seed.
    Chance(u64),
}

impl Order {
    /// Whether this call of both is one of the connection's.
    fn is_connections(self, call: u64) -> bool {
        match self {
            Order::Turns(most) => (call / most.max(1)) % 2 == 0,
            Order::Chance(seed) => mixed(seed, call) % 2 == 0,
        }
    }
}

/// A number that looks like chance: the finalizer of splitmix64.
fn mixed(seed: u64, call: u64) -> u64 {
    let x = seed
        .wrapping_mul(0x9e37_79b9_7f4a_7c15)
        .wrapping_add(call.wrapping_mul(0xbf58_476d_1ce4_e5b9));
    let x = (x ^ (x >> 30)).wrapping_mul(0x94d0_49bb_1331_11eb);
    x ^ (x >> 31)
}

/// Holds the halves of one connection.
#[derive(Drop)]
pub struct Gate {
    order: Order,
    /// How many calls both have made.
    calls: Arc<AtomicU64, Global>,
}

impl Gate {
    pub fn new(alloc: Global, order: Order) -> Result<Self, AllocError> {
        Ok(Gate {
            order,
            calls: Arc::new(alloc, AtomicU64::new(0))?,
        })
    }

    /// Another of the same connection.
    pub fn again(&self) -> Result<Self, AllocError> {
        Ok(Gate {
            order: self.order,
            calls: Arc::try_clone(&self.calls)?,
        })
    }

    /// Waits for a turn of the connection's half, or of the application's.
    fn pass(&self, is_connections: bool) {
        for _wait in 0..PATIENCE {
            let call = self.calls.load(Ordering::SeqCst);
            if self.order.is_connections(call) == is_connections {
                break;
            }
            thread::yield_now();
        }
        self.calls.fetch_add(1, Ordering::SeqCst);
    }
}

/// A reader whose reads are calls of the connection's half.
#[derive(Drop)]
pub struct HeldReader<'a> {
    pub gate: Gate,
    pub pieces: Pieces<'a>,
}

impl Read for HeldReader<'_> {
    fn read(&mut self, buf: &mut [u8]) -> io::Result<usize> {
        self.gate.pass(true);
        self.pieces.read(buf)
    }
}

/// A writer that keeps what it takes, and whose writes are such calls.
#[derive(Drop)]
pub struct HeldWriter {
    pub gate: Gate,
    pub taken: Vec<u8>,
}

impl Write for HeldWriter {
    fn write(&mut self, buf: &[u8]) -> io::Result<usize> {
        self.gate.pass(true);
        self.taken.extend_from_slice(buf)?;
        Ok(buf.len())
    }

    fn flush(&mut self) -> io::Result<()> {
        Ok(())
    }
}

/// An application whose tasks' polls are calls of the application's half.
#[derive(Drop)]
pub struct Held<A> {
    pub gate: Gate,
    pub app: A,
}

#[derive(Drop)]
pub struct HeldTask<T> {
    gate: Gate,
    task: T,
}

impl<A: Application> Application for Held<A> {
    type Task = HeldTask<A::Task>;

    fn call(&self, alloc: Global, scope: &Scope) -> Result<HeldTask<A::Task>, AppFault> {
        let gate = self.gate.again()?;
        let task = self.app.call(alloc, scope)?;
        Ok(HeldTask { gate, task })
    }

    fn call_owned(&self, alloc: Global, scope: Scope) -> Result<HeldTask<A::Task>, AppFault> {
        let gate = self.gate.again()?;
        let task = self.app.call_owned(alloc, scope)?;
        Ok(HeldTask { gate, task })
    }
}

impl<T: AppTask> AppTask for HeldTask<T> {
    ghost stands = { λ h. T.stands h.task };

    ghost answers = { λ h. T.answers h.task };

    fn poll<E: AppEnd>(&mut self, cx: &mut Context<'_>, end: &mut E) -> Poll<Result<(), AppFault>> {
        self.gate.pass(false);
        self.task.poll(cx, end)
    }

    ghost keeps = { λ h. T.keeps h.task };
}
