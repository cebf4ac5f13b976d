//! The turns of the connection's half, once for all kinds of exchange.
ghost use Rattle.std.specs.Prelude.{◌≡◌, ◌≢◌, ◌↔◌, ◌⊎◌, ◌+◌, ℕ, [], length, true, IsTrue, IsFalse, IsNone, IfNone, IfSome};
ghost use Rattle.asgi_types.specs.declared.end_kind.EndKind.{EndKind};
ghost use Rattle.asgi_exchange.specs.Calls.{IsViewOf};
ghost use Rattle.asgi_conversation.specs.declared.following.NextStep.{NextStep};
ghost use Rattle.asgi_conversation.specs.declared.following.NextStep.TheVariants.{NextRequest};
ghost use Rattle.asgi_run.specs.AnyHalf.{PreservesOn, PreservesInLine};
ghost use Rattle.asgi_run.specs.Limits.{IsSettled};
ghost use Rattle.asgi_halves.specs.Kinds.{AwaitsEnd, HasGrown, HasWorked, IsCut, IsOneMore, IsOpen, IsShut, IsTurnOfRest, IsTurnOfRun, OffersAll, OffersMost, ReadsNone, TookOne, following_of};

use crate::kind::ExchangeKind;
use crate::stage::Stage;
use asgi_conversation::{NextStep, Outcome};
use asgi_io::Turn;
use asgi_pipes::{ConnEnd, OutItem};
use asgi_ws::Line;

/// Runs one turn of the half, and returns whether it counts as idle. While the application goes on, nothing
/// is read: a line whose reads wait would hold its answer back.
pub fn turn<K: ExchangeKind, L: Line, C: ConnEnd>(
    half: &mut K,
    line: &mut L,
    end: &mut C,
    app_goes_on: bool,
) -> Turn
    ensures leads { PreservesOn K.stands (L.state line.old) half.old (IsViewOf C.ConnEnd end.old) (L.state line.new) half.new (IsViewOf C.ConnEnd end.new) }
    ensures over { (following : NextStep) → K.reached half.old ≡ Stage.Over following → half.new ≡ half.old }
    ensures waits { (following : NextStep) → K.reached half.old ≡ Stage.Over following → result ≡ Turn.Idle }
    ensures told { IsCut (K.reached half.old) → C.is_broken end.new ≡ true }
    // while the exchange runs
    ensures runs { K.reached half.old ≡ Stage.Running → K.reached half.new ≡ Stage.Running
        → IsTurnOfRun C.ConnEnd app_goes_on end.old end.new (K.rests half.new) (L.state line.old) (L.state line.new) result }
    ensures all { K.reached half.old ≡ Stage.Running
        → (C.seen end.new ≡ []) ⊎ (K.reached half.new ≢ Stage.Running) ⊎ (length (C.got end.new) ≡ length (C.got end.old) + K.ring half.old) }
    ensures offers { K.reached half.old ≡ Stage.Running → K.reached half.new ≡ Stage.Running → (result ≡ Turn.Idle) ⊎ HasWorked C.ConnEnd app_goes_on end.old end.new
        → OffersAll C.ConnEnd (K.none_due half.new) end.new ⊎ OffersMost C.ConnEnd (K.ring half.new) end.old end.new }
    // what takes or offers does not read, nor is anything read while the application goes on
    ensures unread { K.reached half.old ≡ Stage.Running → AwaitsEnd (K.reached half.new) → HasWorked C.ConnEnd app_goes_on end.old end.new
        → ReadsNone (L.state line.old) (L.state line.new) }
    // once the task has ended, or the connection is cut short
    ensures moves { IsOpen (K.reached half.old) → IsShut (K.reached half.new) → result ≡ Turn.Moved }
    ensures rest { (kind other : EndKind) → K.reached half.old ≡ Stage.Ending kind → K.reached half.new ≡ Stage.Ending other
        → IsTurnOfRest (L.state line.old) (L.state line.new) result }
    ensures drains { IsCut (K.reached half.old) → TookOne result (C.got end.old) (C.got end.new) }
    ensures tag { (C.tag end.new ≡ C.tag end.old) × (C.ring end.new ≡ C.ring end.old) }
{
    match half.stage() {
        Stage::Running => run(half, line, end, app_goes_on),
        Stage::Ending(kind) => half.finish(kind, line),
        Stage::Cut(outcome) => drain_after_cut(half, outcome, end),
        // Only one that is over as idle comes here: it waits for the limit, and each turn pauses.
        Stage::Over(_) => Turn::Idle,
    }
}

/// True once the exchange has ended for any reason but a limit on turns.
pub fn is_settled<K: ExchangeKind>(half: &K) -> bool
    ensures { IsTrue result ↔ IsSettled (following_of (K.reached half.now)) }
{
    match half.stage() {
        Stage::Over(NextStep::ConnectionEnds(Outcome::Idle)) => false,
        Stage::Over(_) => true,
        _ => false,
    }
}

/// Takes all that is there and writes it, offers what is due, and reads if it did neither and the
/// application does not go on. If it takes the end of the task, it finishes in the same turn.
fn run<K: ExchangeKind, L: Line, C: ConnEnd>(
    half: &mut K,
    line: &mut L,
    end: &mut C,
    app_goes_on: bool,
) -> Turn
    requires running { K.reached half.old ≡ Stage.Running }
    ensures leads { PreservesOn K.stands (L.state line.old) half.old (IsViewOf C.ConnEnd end.old) (L.state line.new) half.new (IsViewOf C.ConnEnd end.new) }
    ensures runs { K.reached half.new ≡ Stage.Running
        → IsTurnOfRun C.ConnEnd app_goes_on end.old end.new (K.rests half.new) (L.state line.old) (L.state line.new) result }
    ensures all { (C.seen end.new ≡ []) ⊎ (K.reached half.new ≢ Stage.Running) ⊎ (length (C.got end.new) ≡ length (C.got end.old) + K.ring half.old) }
    ensures offers { K.reached half.new ≡ Stage.Running → (result ≡ Turn.Idle) ⊎ HasWorked C.ConnEnd app_goes_on end.old end.new
        → OffersAll C.ConnEnd (K.none_due half.new) end.new ⊎ OffersMost C.ConnEnd (K.ring half.new) end.old end.new }
    ensures unread { AwaitsEnd (K.reached half.new) → HasWorked C.ConnEnd app_goes_on end.old end.new → ReadsNone (L.state line.old) (L.state line.new) }
    ensures moves { IsShut (K.reached half.new) → result ≡ Turn.Moved }
    ensures tag { (C.tag end.new ≡ C.tag end.old) × (C.ring end.new ≡ C.ring end.old) }
{
    let took = take_all(half, line, end);
    let stage = half.stage();
    if let Stage::Ending(kind) = stage {
        return half.finish(kind, line);
    }
    if stage != Stage::Running {
        return Turn::Moved;
    }
    let offered = half.offer_due(end);
    if half.stage() != Stage::Running {
        return Turn::Moved;
    }
    if took || offered || app_goes_on {
        return Turn::Moved;
    }
    half.read_on(line)
}

/// Takes all that is there, and writes what it adds: until nothing is there, the exchange does not run any
/// more, or as many items as the exchange has places were taken. Returns whether one was.
fn take_all<K: ExchangeKind, L: Line, C: ConnEnd>(half: &mut K, line: &mut L, end: &mut C) -> bool
    ensures leads { PreservesOn K.stands (L.state line.old) half.old (IsViewOf C.ConnEnd end.old) (L.state line.new) half.new (IsViewOf C.ConnEnd end.new) }
    ensures all { (C.seen end.new ≡ []) ⊎ (K.reached half.new ≢ Stage.Running) ⊎ (length (C.got end.new) ≡ length (C.got end.old) + K.ring half.old) }
    ensures grown { HasGrown result (C.got end.old) (C.got end.new) }
    ensures still { IsFalse result → L.state line.new ≡ L.state line.old }
    ensures unread { ReadsNone (L.state line.old) (L.state line.new) }
    ensures offered { C.offered end.new ≡ C.offered end.old }
    ensures tag { (C.tag end.new ≡ C.tag end.old) × (C.ring end.new ≡ C.ring end.old) }
{
    let mut took = false;
    for _item in 0..half.places() {
        if half.stage() != Stage::Running {
            return took;
        }
        if !take_one(half, line, end) {
            return took;
        }
        took = true;
    }
    took
}

/// Takes the next item, and writes what it adds. Returns whether there was one.
fn take_one<K: ExchangeKind, L: Line, C: ConnEnd>(half: &mut K, line: &mut L, end: &mut C) -> bool
    requires running { K.reached half.old ≡ Stage.Running }
    ensures leads { PreservesOn K.stands (L.state line.old) half.old (IsViewOf C.ConnEnd end.old) (L.state line.new) half.new (IsViewOf C.ConnEnd end.new) }
    ensures took { IsOneMore result (C.got end.old) (C.got end.new) }
    ensures none { IsFalse result → C.seen end.new ≡ [] }
    ensures still { IsFalse result → L.state line.new ≡ L.state line.old }
    ensures unread { ReadsNone (L.state line.old) (L.state line.new) }
    ensures offered { C.offered end.new ≡ C.offered end.old }
    ensures tag { (C.tag end.new ≡ C.tag end.old) × (C.ring end.new ≡ C.ring end.old) }
{
    match end.take() {
        None => false,
        Some(OutItem::Ended(kind)) => {
            half.take_end(kind);
            true
        }
        Some(OutItem::Event(event)) => {
            half.say(event, line);
            true
        }
    }
}

/// Offers the disconnect of a connection that is cut short, and takes the next item: the exchange is over
/// with the end of the task.
fn drain_after_cut<K: ExchangeKind, C: ConnEnd>(half: &mut K, outcome: Outcome, end: &mut C) -> Turn
    requires cut { K.reached half.old ≡ Stage.Cut outcome }
    ensures leads { PreservesInLine K.stands half.old (IsViewOf C.ConnEnd end.old) half.new (IsViewOf C.ConnEnd end.new) }
    ensures told { C.is_broken end.new ≡ true }
    ensures took { TookOne result (C.got end.old) (C.got end.new) }
    ensures tag { (C.tag end.new ≡ C.tag end.old) × (C.ring end.new ≡ C.ring end.old) }
{
    let _first = end.offer_disconnect(half.cut_disconnect());
    match end.take() {
        None => Turn::Idle,
        Some(OutItem::Event(_)) => Turn::Moved,
        Some(OutItem::Ended(_)) => {
            half.end_with(outcome);
            Turn::Moved
        }
    }
}

/// Gives the exchange up, if it is not over: a limit on turns was reached. The connection ends as idle, or
/// as it was cut short, and the disconnect is offered.
pub fn abandon<K: ExchangeKind, C: ConnEnd>(half: &mut K, end: &mut C)
    ensures leads { PreservesInLine K.stands half.old (IsViewOf C.ConnEnd end.old) half.new (IsViewOf C.ConnEnd end.new) }
    ensures over { (following : NextStep) × (K.reached half.new ≡ Stage.Over following) }
    ensures stays { (following : NextStep) → K.reached half.old ≡ Stage.Over following → half.new ≡ half.old }
    ensures follows { K.reached half.new ≡ Stage.Over NextRequest → K.reached half.old ≡ Stage.Over NextRequest }
    ensures told { IsNone (following_of (K.reached half.old)) → C.is_broken end.new ≡ true }
    ensures tag { (C.tag end.new ≡ C.tag end.old) × (C.ring end.new ≡ C.ring end.old) }
{
    let Some(outcome) = outcome_at(half.stage()) else {
        return;
    };
    half.end_with(outcome);
    let _told = end.offer_disconnect(half.cut_disconnect());
}

/// How the connection ends if its exchange is given up at this stage; None if the exchange is over.
fn outcome_at(stage: Stage) -> Option<Outcome>
    ensures over { IfNone result ((following : NextStep) × (stage ≡ Stage.Over following)) }
    ensures ends { IfSome result (λ outcome. (stage ≡ Stage.Cut outcome) ⊎ (IsOpen stage × (outcome ≡ Outcome.Idle))) }
{
    match stage {
        Stage::Over(_) => None,
        Stage::Cut(outcome) => Some(outcome),
        Stage::Running => Some(Outcome::Idle),
        Stage::Ending(_) => Some(Outcome::Idle),
    }
}
