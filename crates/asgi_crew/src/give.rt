//! The giver, at its end of the channel.
ghost use Rattle.std.specs.Prelude.{◌≡◌, ◌+◌, ◌<◌, [], ◌∷◌, ◌++◌, Some, map};
ghost use Rattle.crossbeam_channel.specs.Claims.{view, IsSeatAt};
ghost use Rattle.crossbeam_channel.specs.Ends.{sends_on};
ghost use Rattle.asgi_crew.specs.private.Channel.{hand, gave};
ghost use Rattle.asgi_crew.specs.Ran.{items_of, last_of};
ghost use Rattle.asgi_crew.specs.Shared.{numbered};
ghost use Rattle.asgi_crew.specs.declared.give.End.TheVariants.{NoThread};

use crate::asks::Asks;
use crate::channel::{Gives, Knows, Mark, Task, To};
use asgi_desk::Place;
use std::alloc::Global;
use std::sync::Wait;

/// Why no more items were asked for.
#[derive(Clone, Copy, Drop, PartialEq, Eq)]
pub enum End {
    /// The giver has no more.
    Given,
    /// Memory was refused before the next item was asked for.
    NoMemory,
    /// A thread was refused before an item was asked for.
    NoThread,
}

/// Waits until the item, with its number and its place, is in the channel.
fn give<C: Drop, N: Drop, R: Wait>(rt: &R, to: &To<C, N>, pass: &mut Knows<C, N>, task: Task<C, N>)
    requires seat { IsSeatAt (sends_on to.now) pass.old }
    requires may { ((view pass.old).gives ≡ 1) × (0 < (view pass.old).parts) × ((view pass.old).shut ≡ 0) }
    ensures seat { IsSeatAt (sends_on to.now) pass.new }
    ensures gave { view pass.new ≡ gave (view pass.old) (Mark.Item task) }
{
    let mut mark = Mark::Item(task);
    for _ in rt.forever() {
        match to.send_as::<Gives, R>(rt, pass, mark) {
            Ok(()) => return,
            Err(back) => mark = back.into_inner(),
        }
    }
    unreachable!()
}

/// The same for one stop.
fn give_stop<C: Drop, N: Drop, R: Wait>(rt: &R, to: &To<C, N>, pass: &mut Knows<C, N>)
    requires seat { IsSeatAt (sends_on to.now) pass.old }
    requires may { ((view pass.old).gives ≡ 1) × (0 < (view pass.old).parts) }
    ensures seat { IsSeatAt (sends_on to.now) pass.new }
    ensures gave { view pass.new ≡ hand (view pass.old).parts 1 (view pass.old).given (view pass.old).taken ((view pass.old).shut + 1) (view pass.old).ended }
{
    let mut mark = Mark::Stop;
    for _ in rt.forever() {
        match to.send_as::<Gives, R>(rt, pass, mark) {
            Ok(()) => return,
            Err(back) => mark = back.into_inner(),
        }
    }
    unreachable!()
}

/// Gives a stop for each of `count` workers.
pub fn give_stops<C: Drop, N: Drop, R: Wait>(
    rt: &R,
    to: &To<C, N>,
    pass: &mut Knows<C, N>,
    count: u64,
)
    requires seat { IsSeatAt (sends_on to.now) pass.old }
    requires may { ((view pass.old).gives ≡ 1) × (0 < (view pass.old).parts) }
    ensures seat { IsSeatAt (sends_on to.now) pass.new }
    ensures gave { view pass.new ≡ hand (view pass.old).parts 1 (view pass.old).given (view pass.old).taken ((view pass.old).shut + count) (view pass.old).ended }
{
    for _worker in 0..count {
        give_stop(rt, to, pass);
    }
}

/// Gives each item that the giver gives, numbered from 1 on.
#[tactic(auto, using(crate::proofs::Given::answers_more, crate::proofs::Given::numbers_more, crate::proofs::Given::count_more, crate::proofs::Given::answers_end, crate::proofs::Given::answers_stay))]
pub fn give_all<C: Drop, N: Drop, G, E: Asks<G, C>, R: Wait>(
    rt: &R,
    alloc: Global,
    how: &E,
    to: &To<C, N>,
    pass: &mut Knows<C, N>,
    giver: &mut G,
) -> End
    requires seat { IsSeatAt (sends_on to.now) pass.old }
    requires may { ((view pass.old).gives ≡ 1) × (0 < (view pass.old).parts) }
    requires fresh { ((view pass.old).given ≡ []) × ((view pass.old).shut ≡ 0) }
    ensures seat { IsSeatAt (sends_on to.now) pass.new }
    ensures part { view pass.new ≡ hand (view pass.old).parts 1 (view pass.new).given (view pass.old).taken 0 (view pass.old).ended }
    ensures answers { E.answers giver.new ≡ E.answers giver.old ++ (map Some (items_of (view pass.new).given) ++ last_of result) }
    ensures numbers { (view pass.new).given ≡ numbered 0 (items_of (view pass.new).given) }
    ensures begun { ¬ (result ≡ NoThread) }
    ensures source { E.source giver.new ≡ E.source giver.old }
{
    let mut given = 0u64;
    for _ in rt.forever() {
        let Some(number) = given.checked_add(1) else {
            return End::NoMemory;
        };
        // Memory for its report is reserved before an item is asked for.
        let Ok(place) = Place::new(alloc) else {
            return End::NoMemory;
        };
        let Some(item) = how.ask(giver) else {
            return End::Given;
        };
        let task = Task {
            number,
            item,
            place,
        };
        give(rt, to, pass, task);
        given = number;
    }
    unreachable!()
}
