//! The lines that wait to be written, and how many were lost.
ghost use Rattle.std.specs.Prelude.{◌≡◌, ◌≤◌, ◌<◌, ◌⊎◌, ◌+◌, [], ◌∷◌, ◌++◌, List, Option, length, ◌↔◌, IfOk, IfSome, IfNone, IsTrue, string_bytes};
ghost use Rattle.std.specs.VecDeque.{deque_capacity};
ghost use Rattle.asgi_log.specs.declared.backlog.Kept.{Kept};
ghost use Rattle.asgi_log.specs.Waiting.{Accounts, HasRoom, Text, kept_line, size_of};

use std::alloc::{AllocError, Global};
use std::collections::VecDeque;

/// A line that was kept, and how many before it were lost since the one before.
#[derive(Debug, Drop)]
pub struct Kept {
    /// How many lines were lost, 2^64 - 1 also if they were more.
    pub lost: u64,
    /// The line, or none if all that came after the lost ones was written before.
    pub line: Option<String>,
}

/// Lines that wait to be written, oldest first. A line for which there is no room is lost, and counted.
#[derive(Drop)]
pub struct Backlog {
    queue: VecDeque<Kept>,
    /// How many lines were lost since the last one that was kept.
    lost: u64,
    /// The most lines that wait.
    most: usize,
    /// The most bytes that their texts take, and how many are free.
    bytes: usize,
    free: usize,
    ghost reserved: { deque_capacity queue ≡ most },
    ghost weighed: { free + size_of queue.items ≡ bytes },
}

impl Backlog {
    /// No lines, and room for so many, with so many bytes in all. The places are reserved here, and no later call takes memory;
    /// `AllocError` if memory for them is refused.
    pub fn new(alloc: Global, most: usize, bytes: usize) -> Result<Backlog, AllocError>
        ensures empty { IfOk result (λ b. (b.queue.items ≡ []) × (b.lost ≡ 0)) }
        ensures room { IfOk result (λ b. (b.most ≡ most) × (b.bytes ≡ bytes)) }
    {
        let queue = VecDeque::with_capacity(alloc, most)?;
        Ok(Backlog {
            queue,
            lost: 0,
            most,
            bytes,
            free: bytes,
        })
    }

    /// Whether nothing waits: no line, and no count of lost ones.
    pub fn is_empty(&self) -> bool
        ensures { IsTrue result ↔ ((self.now.queue.items ≡ []) × (self.now.lost ≡ 0)) }
    {
        if self.lost != 0 {
            return false;
        }
        self.queue.is_empty()
    }

    /// Puts a line behind the others, if there is room for it. Else it is lost, as is one for whose text memory was refused (`None`).
    #[tactic(auto, using(crate::proofs::WaitingLemmas::kept_behind))]
    pub fn put(&mut self, line: Option<String>)
        ensures accounted { (taken : List Kept) (came : List (Option Text)) → Accounts (taken ++ self.old.queue.items) self.old.lost came
            → Accounts (taken ++ self.new.queue.items) self.new.lost (came ++ line ∷ []) }
        ensures kept { IfSome line (λ text. HasRoom self.old.most self.old.free self.old.queue.items text → self.new.queue.items ≡ self.old.queue.items ++ kept_line self.old.lost text ∷ []) }
        ensures room { (self.new.most ≡ self.old.most) × (self.new.bytes ≡ self.old.bytes) }
    {
        let Some(text) = line else {
            self.lose();
            return;
        };
        if self.queue.len() >= self.most {
            self.lose();
            return;
        }
        if text.len() > self.free {
            self.lose();
            return;
        }
        self.keep(text);
    }

    /// One more is lost.
    #[tactic(auto, using(crate::proofs::WaitingLemmas::one_lost))]
    fn lose(&mut self)
        ensures accounted { (line : Option Text) (taken : List Kept) (came : List (Option Text)) → Accounts (taken ++ self.old.queue.items) self.old.lost came
            → Accounts (taken ++ self.new.queue.items) self.new.lost (came ++ line ∷ []) }
        ensures room { (self.new.most ≡ self.old.most) × (self.new.bytes ≡ self.old.bytes) }
    {
        self.lost = self.lost.saturating_add(1);
    }

    /// Puts a line for which there is room behind the others.
    #[tactic(auto, using(crate::proofs::WaitingLemmas::size_behind))]
    fn keep(&mut self, text: String)
        requires { HasRoom self.old.most self.old.free self.old.queue.items text }
        ensures kept { (self.new.queue.items ≡ self.old.queue.items ++ kept_line self.old.lost text ∷ []) × (self.new.lost ≡ 0) }
        ensures room { (self.new.most ≡ self.old.most) × (self.new.bytes ≡ self.old.bytes) }
    {
        self.free -= text.len();
        self.queue.push_back_reserved(Kept {
            lost: self.lost,
            line: Some(text),
        });
        self.lost = 0;
    }

    /// Takes the oldest line, with how many were lost before it; after the last one how many were lost since, if any were.
    #[tactic(auto, using(crate::proofs::WaitingLemmas::oldest_taken, crate::proofs::WaitingLemmas::lost_taken))]
    pub fn take(&mut self) -> Option<Kept>
        ensures some { IfSome result (λ kept. (taken : List Kept) (came : List (Option Text)) → Accounts (taken ++ self.old.queue.items) self.old.lost came
            → Accounts ((taken ++ kept ∷ []) ++ self.new.queue.items) self.new.lost came) }
        ensures none { IfNone result ((self.old.queue.items ≡ []) × (self.old.lost ≡ 0) × (self.new.queue.items ≡ []) × (self.new.lost ≡ 0)) }
        // The oldest line is taken, and a count alone only where no line waits and some were lost.
        ensures line { IfSome result (λ kept. (self.old.queue.items ≡ kept ∷ self.new.queue.items) ⊎ ((self.old.queue.items ≡ []) × (0 < self.old.lost) × (kept.lost ≡ self.old.lost))) }
        ensures room { (self.new.most ≡ self.old.most) × (self.new.bytes ≡ self.old.bytes) }
    {
        if let Some(kept) = self.take_line() {
            return Some(kept);
        }
        if self.lost == 0 {
            return None;
        }
        let lost = self.lost;
        self.lost = 0;
        Some(Kept { lost, line: None })
    }

    /// Takes the oldest line, and frees its room.
    fn take_line(&mut self) -> Option<Kept>
        ensures some { IfSome result (λ kept. self.old.queue.items ≡ kept ∷ self.new.queue.items) }
        ensures none { IfNone result ((self.old.queue.items ≡ []) × (self.new.queue.items ≡ [])) }
        ensures lost { self.new.lost ≡ self.old.lost }
        ensures room { (self.new.most ≡ self.old.most) × (self.new.bytes ≡ self.old.bytes) }
    {
        let kept = self.queue.pop_front()?;
        self.free += kept.size();
        Some(kept)
    }
}

impl Kept {
    /// How many bytes its line has.
    fn size(&self) -> usize
        ensures { result ≡ size_of (self.now ∷ []) }
    {
        match &self.line {
            Some(text) => text.len(),
            None => 0,
        }
    }
}
