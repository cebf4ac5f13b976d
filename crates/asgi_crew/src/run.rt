//! Starts the workers, and gives.
ghost use Rattle.std.specs.Prelude.{◌≡◌, ◌+◌, ◌-◌, ◌<◌, ◌≤◌, [], ◌∷◌, ◌++◌, IfOk, IfErr, vec_len, vec_capacity};
ghost use Rattle.crossbeam_channel.specs.Claims.{view, IsSeatAt};
ghost use Rattle.crossbeam_channel.specs.Ends.{sends_on, receives_on};
ghost use Rattle.asgi_desk.specs.Hands.{seated};
ghost use Rattle.asgi_desk.specs.Seat.{knows, IsSeatOf};
ghost use Rattle.asgi_crew.specs.private.Channel.{hand};
ghost use Rattle.asgi_crew.specs.Ran.{last_of, HaveEnded, Ran};
ghost use Rattle.asgi_crew.specs.Shared.{InTurn};
ghost use Rattle.asgi_crew.specs.declared.give.End.TheVariants.{NoThread};

use crate::asks::Asks;
use crate::channel::{From, Knows, To};
use crate::common::{Common, Held};
use crate::gather::{absorb, cut};
use crate::give::{End, give_all, give_stops};
use crate::serves::Serves;
use crate::work::{Worked, work};
use asgi_desk::{Desk, Seat, Teller};
use std::snapshot::Snapshot;
use std::sync::Wait;
use std::thread::{Promise, PromisedHandle, Scope, Threads};

// What the thread of a worker promises.
#[derive(Drop)]
struct Keeps<C: Drop, N: Drop, W: Drop, T: Teller<N> + Drop, E> {
    how: Snapshot<E>,
    from: Snapshot<From<C, N>>,
    desk: Snapshot<Desk<N, T>>,
    worker: Snapshot<W>,
}

impl<C: Drop, N: Drop, W: Drop, T: Teller<N> + Drop, E: Serves<W, C, Report = N>> Promise<
    Worked<C, N, W, T>,
> for Keeps<C, N, W, T, E> {
    ghost use Rattle.std.specs.Prelude.{◌≡◌, []};
    ghost use Rattle.crossbeam_channel.specs.Claims.{view, IsSeatAt};
    ghost use Rattle.crossbeam_channel.specs.Ends.{receives_on};
    ghost use Rattle.asgi_desk.specs.Hands.{seated};
    ghost use Rattle.asgi_desk.specs.Seat.{knows, IsSeatOf};
    ghost use Rattle.asgi_crew.specs.private.Channel.{hand};
    ghost use Rattle.asgi_crew.specs.Shared.{InTurn};

    ghost kept_by = { λ p r. (IsSeatAt (receives_on p.from.value) r.pass × IsSeatOf p.desk.value r.seat)
        × (view r.pass ≡ hand 1 0 [] (view r.pass).taken 0 1)
        × (knows r.seat ≡ seated 1 (knows r.seat).first (knows r.seat).put)
        × InTurn (E.serves p.how.value) p.worker.value r.worker (view r.pass).taken (knows r.seat).put };
}

/// The workers that have ended, why no more items were asked for, and what the giver's pass and seat know with theirs.
#[derive(Drop)]
pub struct Crew<C: Drop, N: Drop, W: Drop, T: Drop> {
    pub pass: Knows<C, N>,
    pub seat: Seat<N, T>,
    pub crew: Vec<W>,
    pub end: End,
}

/// One more worker that has ended.
fn joined<C: Drop, N: Drop, W: Drop, T: Teller<N> + Drop>(
    to: &To<C, N>,
    desk: &Desk<N, T>,
    so_far: Crew<C, N, W, T>,
    worked: Worked<C, N, W, T>,
) -> Crew<C, N, W, T>
    requires seat { IsSeatAt (sends_on to.now) so_far.pass × IsSeatOf desk.now so_far.seat × IsSeatAt (sends_on to.now) worked.pass × IsSeatOf desk.now worked.seat }
    requires may { ((view so_far.pass).gives ≡ 1) × (0 < (view so_far.pass).parts) × (0 < (knows so_far.seat).parts) }
    requires free { knows so_far.seat ≡ seated (knows so_far.seat).parts (knows so_far.seat).first (knows so_far.seat).put }
    requires part { view worked.pass ≡ hand 1 0 [] (view worked.pass).taken 0 1 }
    requires part_2 { knows worked.seat ≡ seated 1 (knows worked.seat).first (knows worked.seat).put }
    requires room { vec_len so_far.crew < vec_capacity so_far.crew }
    ensures seat { IsSeatAt (sends_on to.now) result.pass × IsSeatOf desk.now result.seat }
    ensures pass { view result.pass ≡ hand ((view so_far.pass).parts + 1) 1 (view so_far.pass).given ((view so_far.pass).taken ++ (view worked.pass).taken) (view so_far.pass).shut ((view so_far.pass).ended + 1) }
    ensures put { knows result.seat ≡ seated ((knows so_far.seat).parts + 1) (knows so_far.seat).first ((knows so_far.seat).put ++ (knows worked.seat).put) }
    ensures crew { (result.crew.items ≡ so_far.crew.items ++ worked.worker ∷ []) × (vec_capacity result.crew ≡ vec_capacity so_far.crew) }
    ensures same { result.end ≡ so_far.end }
{
    let Crew {
        mut pass,
        mut seat,
        mut crew,
        end,
    } = so_far;
    let Worked {
        pass: other,
        seat: theirs,
        worker,
    } = worked;
    absorb(to, &mut pass, other);
    desk.rejoin(&mut seat, theirs);
    crew.push_reserved(worker);
    Crew {
        pass,
        seat,
        crew,
        end,
    }
}

/// The thread of a worker, and what it promises.
type Started<C, N, W, T, E> = PromisedHandle<Worked<C, N, W, T>, Keeps<C, N, W, T, E>>;

/// Starts a worker in a thread of its own, after `started` that were started before. If the thread is refused, those are
/// stopped, and this one takes its stop in the caller's thread.
fn start<
    's,
    'e,
    C: Drop + Send + 's,
    N: Drop + Send + 's,
    W: Drop + Send + 's,
    T: Teller<N> + Drop + Send + 's,
    E: Serves<W, C, Report = N> + Sync + 's,
    R: Threads + Wait + Sync,
>(
    scope: &Scope<'s, &'e ()>,
    common: &'s Common<'s, From<C, N>, Desk<N, T>, E, R>,
    held: &mut Held<'_, C, N, T>,
    worker: W,
    started: u64,
) -> Result<Started<C, N, W, T, E>, Worked<C, N, W, T>>
    requires seat { IsSeatAt (sends_on held.old.to.now) held.old.pass × IsSeatOf common.now.desk.now held.old.seat × (receives_on common.now.from.now ≡ sends_on held.old.to.now) }
    requires may { ((view held.old.pass).gives ≡ 1) × (1 < (view held.old.pass).parts) }
    requires free { (knows held.old.seat ≡ seated (knows held.old.seat).parts (knows held.old.seat).first (knows held.old.seat).put) × (1 < (knows held.old.seat).parts) }
    requires few { started < 8 }
    ensures same { held.new.to ≡ held.old.to }
    ensures seat { IsSeatAt (sends_on held.old.to.now) held.new.pass × IsSeatOf common.now.desk.now held.new.seat }
    ensures left { knows held.new.seat ≡ seated ((knows held.old.seat).parts - 1) (knows held.old.seat).first (knows held.old.seat).put }
    ensures cut { IfOk result (λ child. view held.new.pass ≡ hand ((view held.old.pass).parts - 1) 1 (view held.old.pass).given (view held.old.pass).taken (view held.old.pass).shut (view held.old.pass).ended) }
    ensures promise { IfOk result (λ child. (child.promise.how.value ≡ common.now.how.now) × (child.promise.from.value ≡ common.now.from.now) × (child.promise.desk.value ≡ common.now.desk.now) × (child.promise.worker.value ≡ worker)) }
    ensures stopped { IfErr result (λ worked. view held.new.pass ≡ hand ((view held.old.pass).parts - 1) 1 (view held.old.pass).given (view held.old.pass).taken ((view held.old.pass).shut + (started + 1)) (view held.old.pass).ended) }
    ensures seat_2 { IfErr result (λ worked. IsSeatAt (sends_on held.old.to.now) worked.pass × IsSeatOf common.now.desk.now worked.seat) }
    ensures part { IfErr result (λ worked. view worked.pass ≡ hand 1 0 [] (view worked.pass).taken 0 1) }
    ensures free { IfErr result (λ worked. knows worked.seat ≡ seated 1 (knows worked.seat).first (knows worked.seat).put) }
    ensures in_turn { IfErr result (λ worked. InTurn (E.serves common.now.how.now) worker worked.worker (view worked.pass).taken (knows worked.seat).put) }
{
    let mine = cut(held.to, &mut held.pass);
    let place = common.desk.seat(&mut held.seat);
    let keeps = Keeps {
        how: Snapshot::of(common.how),
        from: Snapshot::of(common.from),
        desk: Snapshot::of(common.desk),
        worker: Snapshot::of(&worker),
    };
    match scope.spawn_with(
        keeps,
        move || -> Worked<C, N, W, T>
            requires seat { IsSeatAt (receives_on common.now.from.now) mine × IsSeatOf common.now.desk.now place }
            requires fresh { (view mine ≡ hand 1 0 [] [] 0 0) × (knows place ≡ seated 1 (knows place).first []) }
            ensures seat { IsSeatAt (receives_on common.entry.now.from.now) result.pass × IsSeatOf common.entry.now.desk.now result.seat }
            ensures part { view result.pass ≡ hand 1 0 [] (view result.pass).taken 0 1 }
            ensures free { knows result.seat ≡ seated 1 (knows result.seat).first (knows result.seat).put }
            ensures in_turn { InTurn (E.serves common.entry.now.how.now) worker result.worker (view result.pass).taken (knows result.seat).put }
        { work(common, mine, place, worker) },
    ) {
        Ok(child) => Ok(child),
        Err(refused) => {
            give_stops(common.rt, held.to, &mut held.pass, started + 1);
            let serve = refused.value;
            Err(serve())
        }
    }
}

/// Starts each worker in a thread of its own, after `started` that were started before, gives all items in this one,
/// and a stop for each worker. If a thread is refused, no item is asked for: the workers that run are stopped, and the
/// refused one takes its stop in this thread.
pub fn run<
    's,
    'e,
    C: Drop + Send + 's,
    N: Drop + Send + 's,
    G,
    W: Drop + Send + 's,
    T: Teller<N> + Drop + Send + 's,
    E: Asks<G, C> + Serves<W, C, Report = N> + Sync + 's,
    R: Threads + Wait + Sync,
>(
    scope: &Scope<'s, &'e ()>,
    common: &'s Common<'s, From<C, N>, Desk<N, T>, E, R>,
    giver: &mut G,
    mut held: Held<'_, C, N, T>,
    mut crew: Vec<W>,
    started: u64,
) -> Crew<C, N, W, T>
    requires seat { IsSeatAt (sends_on held.to.now) held.pass × IsSeatOf common.now.desk.now held.seat × (receives_on common.now.from.now ≡ sends_on held.to.now) }
    requires may { (view held.pass ≡ hand (view held.pass).parts 1 [] [] 0 0) × (vec_len crew < (view held.pass).parts) }
    requires free { (knows held.seat ≡ seated (knows held.seat).parts (knows held.seat).first []) × (vec_len crew < (knows held.seat).parts) }
    requires few { started + vec_len crew ≤ 8 }
    ensures seat { IsSeatAt (sends_on held.entry.to.now) result.pass × IsSeatOf common.now.desk.now result.seat }
    ensures part { ((view result.pass).gives ≡ 1) × ((view result.pass).parts ≡ (view held.entry.pass).parts) }
    ensures free { knows result.seat ≡ seated (knows held.entry.seat).parts (knows held.entry.seat).first (knows result.seat).put }
    ensures ended { HaveEnded result.end (vec_len crew) (view result.pass).ended }
    ensures stopped { (view result.pass).shut ≡ started + (view result.pass).ended }
    ensures ran { Ran (E.serves common.now.how.now) (E.answers giver.old) (E.answers giver.new) (last_of result.end) crew.items result.crew.items (knows result.seat).put (view result.pass) }
    ensures crew { (vec_len result.crew ≡ vec_len crew) × (vec_capacity crew ≤ vec_capacity result.crew) }
    ensures refused { result.end ≡ NoThread → E.answers giver.new ≡ E.answers giver.old }
    ensures source { E.source giver.new ≡ E.source giver.old }
{
    let to = held.to;
    let Some(worker) = crew.pop() else {
        let Held {
            alloc,
            to: _,
            mut pass,
            seat,
        } = held;
        let end = give_all(common.rt, alloc, common.how, to, &mut pass, giver);
        give_stops(common.rt, to, &mut pass, started);
        return Crew {
            pass,
            seat,
            crew,
            end,
        };
    };
    match start(scope, common, &mut held, worker, started) {
        Ok(child) => {
            let so_far = run(scope, common, giver, held, crew, started + 1);
            let worked = child.join(common.rt);
            joined(to, common.desk, so_far, worked)
        }
        Err(worked) => {
            let none = Crew {
                pass: held.pass,
                seat: held.seat,
                crew,
                end: End::NoThread,
            };
            joined(to, common.desk, none, worked)
        }
    }
}
