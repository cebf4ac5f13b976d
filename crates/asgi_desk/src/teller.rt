//! What gets the reports.

/// Gets one report after another.
pub trait Teller<N> {
    ghost use Rattle.std.specs.Prelude.{ℕ};

    // From the teller as it was to the teller as it is, it got this report under this number.
    ghost tells: { Self → Self → ℕ → N → Type 0 };

    /// Gets the report of this number.
    fn tell(&mut self, number: u64, report: &N)
        ensures { tells self.old self.new number report.now };
}
