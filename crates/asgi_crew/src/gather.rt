//! What the workers did, brought together.
ghost use Rattle.std.specs.Prelude.{◌≡◌, ◌+◌, ◌-◌, ◌<◌, ◌≤◌, [], ◌++◌, length};
ghost use Rattle.std.specs.List.Sorted.{IsPermutation};
ghost use Rattle.crossbeam_channel.specs.Claims.{view, IsSeatAt};
ghost use Rattle.crossbeam_channel.specs.Ends.{sends_on};
ghost use Rattle.asgi_crew.specs.private.Channel.{hand};

use crate::channel::{Bound, Cut, Knows, To, Total};

/// A pass for a worker.
pub fn cut<C: Drop, N: Drop>(to: &To<C, N>, pass: &mut Knows<C, N>) -> Knows<C, N>
    requires seat { IsSeatAt (sends_on to.now) pass.old }
    requires may { ((view pass.old).gives ≡ 1) × (1 < (view pass.old).parts) }
    ensures seat { IsSeatAt (sends_on to.now) pass.new × IsSeatAt (sends_on to.now) result }
    ensures left { view pass.new ≡ hand ((view pass.old).parts - 1) (view pass.old).gives (view pass.old).given (view pass.old).taken (view pass.old).shut (view pass.old).ended }
    ensures new { view result ≡ hand 1 0 [] [] 0 0 }
{
    to.another::<Cut>(pass)
}

/// Takes in what a worker's pass knows.
pub fn absorb<C: Drop, N: Drop>(to: &To<C, N>, pass: &mut Knows<C, N>, other: Knows<C, N>)
    requires seat { IsSeatAt (sends_on to.now) pass.old × IsSeatAt (sends_on to.now) other }
    requires may { ((view pass.old).gives ≡ 1) × (0 < (view pass.old).parts) }
    requires ended { view other ≡ hand 1 0 [] (view other).taken 0 1 }
    ensures seat { IsSeatAt (sends_on to.now) pass.new }
    ensures both { view pass.new ≡ hand ((view pass.old).parts + 1) 1 (view pass.old).given ((view pass.old).taken ++ (view other).taken) (view pass.old).shut ((view pass.old).ended + 1) }
    ensures bound { length (view pass.new).taken ≤ length (view pass.new).given }
{
    to.absorb::<Cut>(pass, other);
    to.learn_as::<Bound>(pass);
}

/// Once all workers have ended, nothing that was given is left.
pub fn settle<C: Drop, N: Drop>(to: &To<C, N>, mut pass: Knows<C, N>)
    requires seat { IsSeatAt (sends_on to.now) pass }
    requires whole { ((view pass).gives ≡ 1) × ((view pass).parts ≡ 64) × (0 < (view pass).ended) }
    ensures { IsPermutation (view pass).given (view pass).taken }
{
    to.learn_as::<Total>(&mut pass);
}
