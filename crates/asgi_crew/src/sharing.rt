//! Shares the items out among the workers.
ghost use Rattle.std.specs.Prelude.{◌≡◌, ◌<◌, ◌≤◌, [], vec_len};
ghost use Rattle.crossbeam_channel.specs.Claims.{view, IsSeatAt};
ghost use Rattle.crossbeam_channel.specs.Ends.{sends_on, receives_on};
ghost use Rattle.asgi_desk.specs.Hands.{seated};
ghost use Rattle.asgi_desk.specs.Seat.{knows, IsSeatOf};
ghost use Rattle.asgi_desk.specs.Told.{Told};
ghost use Rattle.asgi_crew.specs.private.Channel.{hand};
ghost use Rattle.asgi_crew.specs.Ran.{last_of, HaveEnded, Ran};
ghost use Rattle.asgi_crew.specs.Shared.{IsShared};
ghost use Rattle.asgi_crew.specs.declared.give.End.TheVariants.{NoThread};

use crate::asks::Asks;
use crate::channel::{Fair, From, Hand, Mark};
use crate::common::{Common, Held};
use crate::gather::settle;
use crate::give::End;
use crate::run::{Crew, run};
use crate::serves::Serves;
use asgi_desk::{Desk, Teller};
use asgi_io::History;
use crossbeam_channel::bounded_with;
use std::alloc::Global;
use std::sync::Wait;
use std::thread;
use std::thread::Threads;

/// How many items may wait for a worker.
const PLACES: usize = 4;

/// What came of items that were shared out.
#[derive(Drop)]
pub struct Shared<N: Drop, W: Drop, T: Drop> {
    /// The reports under their numbers, 1 upwards, in the order in which the items were given: a list that clauses alone read.
    /// The teller got each.
    pub reports: History<(u64, N)>,
    /// The workers, in their order.
    pub workers: Vec<W>,
    /// The teller, which got each report.
    pub teller: T,
    /// Why no more items were asked for.
    pub end: End,
}

/// What was borrowed stays as it is. A `&mut` that came back in a result is known again after a call of this.
fn keep<T>(lent: &mut T)
    ensures { lent.new ≡ lent.old }
{
    let _ = lent;
}

/// Starts the workers, which end before this returns, and gives all items.
fn run_scoped<
    C: Drop + Send,
    N: Drop + Send,
    G,
    W: Drop + Send,
    T: Teller<N> + Drop + Send,
    E: Asks<G, C> + Serves<W, C, Report = N> + Sync,
    R: Threads + Wait + Sync,
>(
    common: &Common<'_, From<C, N>, Desk<N, T>, E, R>,
    giver: &mut G,
    held: Held<'_, C, N, T>,
    crew: Vec<W>,
) -> Crew<C, N, W, T>
    requires seat { IsSeatAt (sends_on held.to.now) held.pass × IsSeatOf common.now.desk.now held.seat × (receives_on common.now.from.now ≡ sends_on held.to.now) }
    requires may { (view held.pass ≡ hand 64 1 [] [] 0 0) × (knows held.seat ≡ seated 64 (knows held.seat).first []) × (vec_len crew ≤ 8) }
    ensures seat { IsSeatAt (sends_on held.entry.to.now) result.pass × IsSeatOf common.now.desk.now result.seat }
    ensures part { ((view result.pass).gives ≡ 1) × ((view result.pass).parts ≡ 64) }
    ensures free { knows result.seat ≡ seated 64 (knows held.entry.seat).first (knows result.seat).put }
    ensures ended { HaveEnded result.end (vec_len crew) (view result.pass).ended }
    ensures stopped { (view result.pass).shut ≡ (view result.pass).ended }
    ensures ran { Ran (E.serves common.now.how.now) (E.answers giver.old) (E.answers giver.new) (last_of result.end) crew.items result.crew.items (knows result.seat).put (view result.pass) }
    ensures refused { result.end ≡ NoThread → E.answers giver.new ≡ E.answers giver.old }
    ensures source { E.source giver.new ≡ E.source giver.old }
{
    let lent = &mut *giver;
    let (lent, ended) = thread::scope(
        thread::scope_env(),
        common.rt,
        move |scope| -> (&mut G, Crew<C, N, W, T>)
            requires seat { IsSeatAt (sends_on held.to.now) held.pass × IsSeatOf common.now.desk.now held.seat × (receives_on common.now.from.now ≡ sends_on held.to.now) }
            requires may { (view held.pass ≡ hand 64 1 [] [] 0 0) × (knows held.seat ≡ seated 64 (knows held.seat).first []) × (vec_len crew ≤ 8) }
            ensures same { result.0.ghost_name ≡ lent.entry.ghost_name }
            ensures seat { IsSeatAt (sends_on held.entry.to.now) result.1.pass × IsSeatOf common.entry.now.desk.now result.1.seat }
            ensures part { ((view result.1.pass).gives ≡ 1) × ((view result.1.pass).parts ≡ 64) }
            ensures free { knows result.1.seat ≡ seated 64 (knows held.entry.seat).first (knows result.1.seat).put }
            ensures ended { HaveEnded result.1.end (vec_len crew) (view result.1.pass).ended }
            ensures stopped { (view result.1.pass).shut ≡ (view result.1.pass).ended }
            ensures ran { Ran (E.serves common.entry.now.how.now) (E.answers lent.entry.now) (E.answers result.0.now) (last_of result.1.end) crew.items result.1.crew.items (knows result.1.seat).put (view result.1.pass) }
            ensures refused { result.1.end ≡ NoThread → E.answers result.0.now ≡ E.answers lent.entry.now }
            ensures source { E.source result.0.now ≡ E.source lent.entry.now }
        {
            let ended = run(scope, common, &mut *lent, held, crew, 0);
            (lent, ended)
        },
    );
    keep(lent);
    ended
}

/// Nothing was asked for, since memory was refused.
fn not_begun<N: Drop, W: Drop, T: Drop>(workers: Vec<W>, teller: T) -> Shared<N, W, T>
    ensures { (result.reports.items ≡ []) × (result.workers ≡ workers) × (result.teller ≡ teller) × (result.end ≡ End.NoMemory) }
{
    Shared {
        reports: History::new(),
        workers,
        teller,
        end: End::NoMemory,
    }
}

/// Hands each item that the giver gives to one of the workers, each in a thread of its own. The teller gets each report
/// once, in the order in which the items were given, and each as soon as all those before it are there.
///
/// Memory for a report is reserved before its item is asked for; if it is refused, no more is asked for (`NoMemory`).
/// If a worker is refused its thread, none is asked for (`NoThread`).
pub fn share<
    C: Drop + Send,
    N: Drop + Send,
    G,
    W: Drop + Send,
    T: Teller<N> + Drop + Send,
    E: Asks<G, C> + Serves<W, C, Report = N> + Sync,
    R: Threads + Wait + Sync,
>(rt: &R, alloc: Global, how: &E, giver: &mut G, crew: Vec<W>, teller: T) -> Shared<N, W, T>
    requires { (0 < vec_len crew) × (vec_len crew ≤ 8) }
    ensures shared { IsShared (E.serves how.now) (E.answers giver.old) (E.answers giver.new) (last_of result.end) crew.items result.workers.items result.reports.items }
    ensures told { Told T.tells teller result.teller result.reports.items }
    ensures no_thread { result.end ≡ NoThread → E.answers giver.new ≡ E.answers giver.old }
    ensures source { E.source giver.new ≡ E.source giver.old }
{
    let Ok((to, from, pass)) = bounded_with::<Mark<C, N>, Hand<C>, Fair, Global>(alloc, PLACES)
    else {
        return not_begun(crew, teller);
    };
    let (desk, seat) = match Desk::open(rt, alloc, teller) {
        Ok(opened) => opened,
        Err(refused) => return not_begun(crew, refused.value),
    };
    let common = Common {
        rt,
        how,
        from: &from,
        desk: &desk,
    };
    let held = Held {
        alloc,
        to: &to,
        pass,
        seat,
    };
    let Crew {
        pass,
        seat,
        crew,
        end,
    } = run_scoped(&common, giver, held, crew);
    settle(&to, pass);
    let (teller, reports) = desk.close(rt, seat);
    Shared {
        reports,
        workers: crew,
        teller,
        end,
    }
}
