//! What the promise of a table comes to: contracts of functions with no code.
ghost use Rattle.std.specs.Prelude.{◌≡◌, [], ◌∷◌, Some, None, codes};
ghost use Rattle.asgi_routes.specs.Laws.{TextsAreParts, found, two_patterns};

/// If the parts of a path that parameters took are valid UTF-8, the endpoint gets these parts.
pub fn texts_are_the_parts()
    ensures { TextsAreParts }
{}

/// Of `/items/{n}` and `/items/new` the first matches `/items/7`, by the part `7`, the second
/// matches `/items/new`, and neither `/items/`.
pub fn the_narrower_pattern_matches()
    ensures wide { found two_patterns (codes "/items/7") ≡ Some (0, (codes "n", codes "7") ∷ []) }
    ensures narrow { found two_patterns (codes "/items/new") ≡ Some (1, []) }
    ensures neither { found two_patterns (codes "/items/") ≡ None }
{}
