//! How items are asked for, as connections are of a listener.

/// Asks a giver for one item after another.
pub trait Asks<G, C> {
    ghost use Rattle.std.specs.Prelude.{◌≡◌, List, [], ◌∷◌, ◌++◌, Option};

    // Each answer of the giver, in order.
    ghost answers: { G → List (Option C) };

    // Where the giver gets its items from, which no asking changes.
    ghost Source: { Type 0 };

    ghost source: { G → Source };

    /// Asks for the next item. `None` means that there is no more.
    fn ask(&self, giver: &mut G) -> Option<C>
        ensures told { answers giver.new ≡ answers giver.old ++ result ∷ [] }
        ensures source { source giver.new ≡ source giver.old };
}
