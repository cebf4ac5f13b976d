//! How a part is worked at.

/// Works at a part, in whatever thread.
pub trait Works<W> {
    // From the part as it was to the part as it is.
    ghost works: { Self → W → W → Type 0 };

    /// Works at the part, to its end.
    fn work(&self, part: W) -> W
        ensures { works self.now part result };
}
