//! The patterns of a table of routes, each with its number.
ghost use Rattle.std.specs.Prelude.{◌≡◌, ◌≢◌, ◌++◌, ◌∷◌, [], Some, None, bytes_eq, length, IfOk, IfErr, OnOk, OnErr};
ghost use Rattle.std.specs.Result.{IsErrOf};
ghost use Rattle.matchit.specs.Route.{parse_route};
ghost use Rattle.asgi_routes.specs.Patterns.{IsFit, IsNew, IsNoMemory, IsWhy, IsWhyIn, matched, number_of, place_in, rows_of, with_pattern, with_read};

use crate::error::RouteError;
use asgi_types::Chars;
use matchit::{Match, MatchError, Router};
use std::alloc::{AllocError, Global};

/// The patterns of a table of routes, in the order in which they were added.
#[derive(Drop)]
pub struct Table {
    alloc: Global,
    patterns: Vec<Chars>,
    /// Finds the number of the pattern that a path matches.
    router: Router<usize>,
    ghost routed: { router ≡ rows_of patterns.items },
}

impl Table {
    /// No patterns. Takes no memory.
    pub fn new(alloc: Global) -> Self
        ensures { result.patterns.items ≡ [] }
    {
        Table {
            alloc,
            patterns: Vec::new(alloc),
            router: Router::new(alloc),
        }
    }

    /// The table with this pattern, and the number of the pattern. One that is there already keeps
    /// its number.
    pub fn with(self, pattern: &str) -> Result<(Table, usize), RouteError>
        ensures patterns { IfOk result (λ made. made.0.patterns.items ≡ with_pattern self.patterns.items pattern.now) }
        ensures number { IfOk result (λ made. made.1 ≡ number_of self.patterns.items pattern.now) }
        ensures fit { OnOk result (IsFit self.patterns.items pattern.now) }
        ensures err { IfErr result (λ why. IsWhy ⊥ self.patterns.items pattern.now why) }
    {
        match place_of(self.patterns.as_slice(), pattern) {
            Some(number) => Ok((self, number)),
            None => self.with_new(pattern),
        }
    }

    /// The table with this pattern, which must be another one than those that it has, and the number
    /// of the pattern. `Taken` if it has this one.
    pub fn with_another(self, pattern: &str) -> Result<(Table, usize), RouteError>
        ensures patterns { IfOk result (λ made. made.0.patterns.items ≡ self.patterns.items ++ pattern.now ∷ []) }
        ensures number { IfOk result (λ made. made.1 ≡ length self.patterns.items) }
        ensures fit { OnOk result (IsNew (rows_of self.patterns.items) pattern.now) }
        ensures free { OnOk result (place_in self.patterns.items pattern.now ≡ None) }
        ensures taken { place_in self.patterns.items pattern.now ≢ None → IsErrOf result RouteError.Taken }
        ensures err { IfErr result (λ why. IsWhy (place_in self.patterns.items pattern.now ≢ None) self.patterns.items pattern.now why) }
    {
        match place_of(self.patterns.as_slice(), pattern) {
            Some(_) => Err(RouteError::Taken),
            None => self.with_new(pattern),
        }
    }

    /// The table with this pattern, which it does not have yet, and the number of the pattern.
    fn with_new(self, pattern: &str) -> Result<(Table, usize), RouteError>
        ensures patterns { IfOk result (λ made. made.0.patterns.items ≡ self.patterns.items ++ pattern.now ∷ []) }
        ensures number { IfOk result (λ made. made.1 ≡ length self.patterns.items) }
        ensures fit { OnOk result (IsNew (rows_of self.patterns.items) pattern.now) }
        ensures err { IfErr result (λ why. IsWhy ⊥ self.patterns.items pattern.now why) }
    {
        let Table {
            alloc,
            patterns,
            mut router,
        } = self;
        let number = patterns.as_slice().len();
        match insert(&mut router, pattern, number) {
            Ok(()) => numbered(alloc, patterns, router, pattern),
            Err(why) => Err(why),
        }
    }

    /// The pattern that a path matches: its number, and what its parameters took.
    pub fn find<'a, 'p>(&'a self, path: &'p str) -> Result<Match<'a, 'p, &'a usize>, MatchError>
        ensures found { IfOk result (λ m. matched self.now.patterns.items path.now ≡ Some (record {
          pattern = m.params.pattern.now;
          text = m.params.text.now;
          names = m.params.names.now;
          value = m.value.now;
        })) }
        ensures path { IfOk result (λ m. m.params.path.now ≡ path.now) }
        ensures missing { OnErr result (matched self.now.patterns.items path.now ≡ None) }
    {
        self.router.at(path)
    }
}

/// Where this pattern stands among others.
fn place_of(patterns: &[Chars], pattern: &str) -> Option<usize>
    ensures { result ≡ place_in patterns.now pattern.now }
{
    patterns.iter().position(|known| is_pattern(known, pattern))
}

fn is_pattern(known: &Chars, pattern: &str) -> bool
    ensures { result ≡ bytes_eq known.now pattern.now }
{
    known.as_str() == pattern
}

/// Adds a pattern to what finds its number. On an error nothing changes.
fn insert(router: &mut Router<usize>, pattern: &str, number: usize) -> Result<(), RouteError>
    ensures ok { OnOk result (router.new ≡ with_read router.old (parse_route pattern.now) number) }
    ensures fit { OnOk result (IsNew router.old pattern.now) }
    ensures err { IfErr result (λ why. IsWhyIn ⊥ router.old pattern.now why) }
{
    match router.insert(pattern, number) {
        Ok(()) => Ok(()),
        Err(error) => Err(RouteError::from(error)),
    }
}

/// The table of these patterns and one more, which the router has already, and the number of that.
fn numbered(
    alloc: Global,
    mut patterns: Vec<Chars>,
    router: Router<usize>,
    pattern: &str,
) -> Result<(Table, usize), RouteError>
    requires { router ≡ with_read (rows_of patterns.items) (parse_route pattern.now) (length patterns.items) }
    ensures patterns { IfOk result (λ made. made.0.patterns.items ≡ patterns.items ++ pattern.now ∷ []) }
    ensures number { IfOk result (λ made. made.1 ≡ length patterns.items) }
    ensures err { IfErr result (λ why. IsNoMemory why) }
{
    let number = patterns.as_slice().len();
    match push(alloc, &mut patterns, pattern) {
        Ok(()) => Ok((
            Table {
                alloc,
                patterns,
                router,
            },
            number,
        )),
        Err(e) => Err(RouteError::NoMemory(e)),
    }
}

/// Adds a copy of the pattern. `AllocError` if memory is refused.
fn push(alloc: Global, patterns: &mut Vec<Chars>, pattern: &str) -> Result<(), AllocError>
    ensures { OnOk result (patterns.new.items ≡ patterns.old.items ++ pattern.now ∷ []) }
{
    let text = String::from_str(alloc, pattern)?;
    patterns.push(Chars::new(text))?;
    Ok(())
}
