//! A worker, at its end of the channel.
ghost use Rattle.std.specs.Prelude.{◌≡◌, ◌<◌, []};
ghost use Rattle.crossbeam_channel.specs.Claims.{view, IsSeatAt};
ghost use Rattle.crossbeam_channel.specs.Ends.{receives_on};
ghost use Rattle.asgi_desk.specs.Hands.{seated};
ghost use Rattle.asgi_desk.specs.Seat.{knows, IsSeatOf};
ghost use Rattle.asgi_crew.specs.private.Channel.{hand, took};
ghost use Rattle.asgi_crew.specs.Shared.{InTurn};

use crate::channel::{From, Knows, Mark, Takes, Task};
use crate::common::Common;
use crate::serves::Serves;
use asgi_desk::{Desk, Seat, Teller};
use std::sync::Wait;

/// A worker that has ended, what its pass knows of the items that it took, and its seat of the reports that it handed in.
#[derive(Drop)]
pub struct Worked<C: Drop, N: Drop, W: Drop, T: Drop> {
    pub pass: Knows<C, N>,
    pub seat: Seat<N, T>,
    pub worker: W,
}

/// Waits for what is first in the channel.
fn take<C: Drop, N: Drop, R: Wait>(rt: &R, from: &From<C, N>, pass: &mut Knows<C, N>) -> Mark<C, N>
    requires seat { IsSeatAt (receives_on from.now) pass.old }
    requires may { (0 < (view pass.old).parts) × ((view pass.old).gives ≡ 0) }
    ensures seat { IsSeatAt (receives_on from.now) pass.new }
    ensures took { view pass.new ≡ took (view pass.old) result }
{
    for _ in rt.forever() {
        if let Ok(mark) = from.recv_as::<Takes, R>(rt, pass) {
            return mark;
        }
    }
    unreachable!()
}

/// Serves items until a stop comes, and hands in a report of each.
#[tactic(auto, using(crate::proofs::Turns::served_next))]
pub fn work<C: Drop, N: Drop, W: Drop, T: Teller<N> + Drop, E: Serves<W, C, Report = N>, R: Wait>(
    common: &Common<'_, From<C, N>, Desk<N, T>, E, R>,
    mut pass: Knows<C, N>,
    mut seat: Seat<N, T>,
    mut worker: W,
) -> Worked<C, N, W, T>
    requires seat { IsSeatAt (receives_on common.now.from.now) pass × IsSeatOf common.now.desk.now seat }
    requires fresh { (view pass ≡ hand 1 0 [] [] 0 0) × (knows seat ≡ seated 1 (knows seat).first []) }
    ensures seat { IsSeatAt (receives_on common.now.from.now) result.pass × IsSeatOf common.now.desk.now result.seat }
    ensures part { view result.pass ≡ hand 1 0 [] (view result.pass).taken 0 1 }
    ensures free { knows result.seat ≡ seated 1 (knows seat).first (knows result.seat).put }
    ensures in_turn { InTurn (E.serves common.now.how.now) worker result.worker (view result.pass).taken (knows result.seat).put }
{
    for _ in common.rt.forever() {
        match take(common.rt, common.from, &mut pass) {
            Mark::Item(task) => {
                let Task {
                    number,
                    item,
                    place,
                } = task;
                let report = common.how.serve(&mut worker, item);
                let desk = common.desk;
                desk.hand_in(common.rt, &mut seat, number, report, place);
            }
            Mark::Stop => return Worked { pass, seat, worker },
        }
    }
    unreachable!()
}
