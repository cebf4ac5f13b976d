//! For how long a client is read after its answer.
ghost use Rattle.std.specs.Prelude.{◌≡◌, ◌+◌, ℕ, List, [], ◌∷◌, IsFalse, IsTrue};
ghost use Rattle.asgi_reactor.specs.Lingering.{IsLeft, Knows};

/// For how long a client that goes on sending is read after its answer, so that it gets that: until one of these is reached, or it
/// closes too.
#[derive(Clone, Copy, Debug)]
pub struct Linger {
    /// How many ticks in all.
    pub ticks: u32,
    /// How many ticks one after another in which nothing comes.
    pub silent: u32,
    /// How many bytes.
    pub bytes: u64,
}

/// What is left of that.
#[derive(Clone, Copy, Debug)]
pub struct Lingering {
    limits: Linger,
    ticks: u32,
    silent: u32,
    bytes: u64,
}

impl Lingering {
    /// Nothing came yet.
    pub fn new(limits: Linger) -> Self
        ensures limits { result.limits ≡ limits }
        ensures none { Knows result 0 [] }
    {
        Lingering {
            limits,
            ticks: limits.ticks,
            silent: limits.silent,
            bytes: limits.bytes,
        }
    }

    /// So many bytes came.
    pub fn hear(&mut self, many: u64)
        ensures limits { self.new.limits ≡ self.old.limits }
        ensures hears { (now : ℕ) (before : List ℕ) → Knows self.old now before → Knows self.new (many + now) before }
    {
        self.bytes = self.bytes.saturating_sub(many);
        if many > 0 {
            self.silent = self.limits.silent;
        }
    }

    /// A tick has passed.
    pub fn tick(&mut self)
        ensures limits { self.new.limits ≡ self.old.limits }
        ensures passes { (now : ℕ) (before : List ℕ) → Knows self.old now before → Knows self.new 0 (now ∷ before) }
    {
        self.ticks = self.ticks.saturating_sub(1);
        self.silent = self.silent.saturating_sub(1);
    }

    /// Whether the client is not read any more.
    pub fn is_over(&self) -> bool
        ensures yes { (now : ℕ) (before : List ℕ) → Knows self.now now before → IsTrue result → IsLeft self.now.limits now before }
        ensures no { (now : ℕ) (before : List ℕ) → Knows self.now now before → IsFalse result → ¬ IsLeft self.now.limits now before }
    {
        self.ticks == 0 || self.silent == 0 || self.bytes == 0
    }
}
