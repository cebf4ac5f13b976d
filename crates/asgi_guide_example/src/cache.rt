//! What requests share: a cache of answers.
use lru::LruCache;
use nomtsage::{AppFault, Handler, Reply, Request};
use std::alloc::{AllocError, Global};
use std::num::NonZeroUsize;
use std::sync::atomic::{AtomicU64, Ordering};
use std::sync::{Mutex, Wait};

/// Answers by their paths, in the order in which they were asked for last.
type Answers = LruCache<String, String>;

/// Replies to each path with its answer, which is computed once, and kept until 100 other paths were
/// asked for after it.
#[derive(Drop)]
pub struct Cache<R> {
    rt: R,
    answers: Mutex<Answers>,
    computed: AtomicU64,
}

impl<R: Drop> Cache<R> {
    /// No answer is kept yet.
    pub fn new(alloc: Global, rt: R) -> Result<Self, AllocError> {
        // Clients choose the paths, and the seed of the hasher is fixed: a cache of many more has to be
        // made by `with_hasher`, with a `RandomState`. Among so few an answer is found soon anyhow.
        let answers = LruCache::new(alloc, NonZeroUsize::new(100).unwrap())?;
        Ok(Cache {
            rt,
            answers: Mutex::new(answers),
            computed: AtomicU64::new(0),
        })
    }
}

impl<R: Wait> Handler for Cache<R> {
    fn handle(&self, request: &Request<'_>) -> Result<Reply, AppFault> {
        let (alloc, path) = (request.alloc(), request.path());
        let answer = match self.kept(path)? {
            Some(answer) => answer,
            None => self.made(alloc, path)?,
        };
        Reply::text(alloc, answer.as_str())
    }
}

impl<R: Wait> Cache<R> {
    /// A copy of the answer that is kept for the path. The lock is held while it is copied.
    fn kept(&self, path: &str) -> Result<Option<String>, AllocError> {
        let mut answers = self.answers.lock(&self.rt);
        found(&mut answers, path)
    }

    /// The answer for the path, which is kept from now on. The lock is held while it is put in.
    fn made(&self, alloc: Global, path: &str) -> Result<String, AllocError> {
        let answer = self.compute(alloc, path)?;
        let key = String::from_str(alloc, path)?;
        let copy = answer.clone()?;
        let mut answers = self.answers.lock(&self.rt);
        answers.put(key, copy)?;
        Ok(answer)
    }
}

impl<R> Cache<R> {
    /// Stands for what takes long: the number of this computation, and the path.
    fn compute(&self, alloc: Global, path: &str) -> Result<String, AllocError> {
        let before = self.computed.fetch_add(1, Ordering::SeqCst);
        format!(in alloc; "answer {}: {path}\n", before.saturating_add(1))
    }
}

/// A copy of the answer for the path, which is now the one that was asked for last.
fn found(answers: &mut Answers, path: &str) -> Result<Option<String>, AllocError> {
    match answers.get(path) {
        Some(answer) => Ok(Some(answer.clone()?)),
        None => Ok(None),
    }
}
