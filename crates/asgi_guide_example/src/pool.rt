//! What requests share: a pool of a few values that are dear to make.
use crossbeam_channel::{Receiver, Sender, bounded};
use nomtsage::{AppFault, Handler, Reply, Request};
use std::alloc::Global;
use std::sync::Wait;
use std::thread;
use std::time::{Clock, Duration};

/// How many milliseconds a request waits for a value that is free.
const PATIENCE: u64 = 100;

/// Stands for what is dear to make and takes its time, such as a connection to a database. It counts
/// what it was asked.
#[derive(Drop)]
struct Database {
    questions: u64,
}

/// Asks a database of the pool, which takes as many milliseconds as the path says, and replies with
/// the number of the question. Where none is free in time the reply is 503.
#[derive(Drop)]
pub struct Pool<R> {
    rt: R,
    free: Receiver<Database>,
    back: Sender<Database>,
}

impl<R: Wait + Drop> Pool<R> {
    /// A pool of so many databases, all of them free. `NoMemory` if memory is refused.
    pub fn new(alloc: Global, rt: R, size: usize) -> Result<Self, AppFault> {
        let (back, free) = bounded(alloc, size)?;
        for _ in 0..size {
            // Both ends are here, and there is room: it is not refused.
            if back.send(&rt, Database { questions: 0 }).is_err() {
                return Err(AppFault::Failed);
            }
        }
        Ok(Pool { rt, free, back })
    }
}

impl<R: Wait + Clock> Handler for Pool<R> {
    fn handle(&self, request: &Request<'_>) -> Result<Reply, AppFault> {
        let alloc = request.alloc();
        let patience = Duration::from_millis(PATIENCE);
        let Ok(mut database) = self.free.recv_timeout(&self.rt, patience) else {
            return Reply::status(alloc, 503);
        };
        let number = database.ask(&self.rt, millis_of(request.path()));
        // Nothing returns before this, so what was taken comes back.
        if self.back.send(&self.rt, database).is_err() {
            return Err(AppFault::Failed);
        }
        let line = format!(in alloc; "question {number}\n")?;
        Reply::text(alloc, line.as_str())
    }
}

impl Database {
    /// The number of the question, after so many milliseconds.
    fn ask<R: Clock>(&mut self, clock: &R, millis: u64) -> u64 {
        thread::sleep(clock, Duration::from_millis(millis));
        self.questions = self.questions.saturating_add(1);
        self.questions
    }
}

/// The number that follows the slash of the path; 0 if none does, or a larger one than 65,535.
fn millis_of(path: &str) -> u64 {
    let text = path.strip_prefix('/').unwrap_or("");
    u64::from(text.parse::<u16>().unwrap_or(0))
}
