//! An application between its start and its stop.
ghost use Rattle.std.specs.Prelude.{◌≡◌, ◌≢◌, ◌≤◌, ◌⊎◌, ℕ, ◌∷◌, ◌++◌, [], List, Option, Some, None, IfOk, OnErr};
ghost use Rattle.futures.specs.Task.{IsArmed, Keeps};
ghost use Rattle.asgi_lifespan.specs.Facts.{lifespan_scope, no_request};
ghost use Rattle.asgi_lifespan.specs.Hosting.{IsStarted, IsHosted, Promises, offered_to, got_of};
ghost use Rattle.asgi_lifespan.specs.private.Ends.{AreNew};
ghost use Rattle.asgi_lifespan.specs.Lifespan.{IsStartAnswer, IsStopAnswer, start_answer, stop_answer};
ghost use Rattle.asgi_lifespan.specs.Stopping as stop;
ghost use Rattle.asgi_types.specs.declared.incoming.Incoming.{Incoming};
ghost use Rattle.asgi_types.specs.declared.outgoing.Outgoing.{Outgoing};
ghost use Rattle.asgi_types.specs.declared.end_kind.EndKind.{EndKind};

use crate::hosted::{Hosted, Word};
use crate::stop::Stop;
use asgi_apps::{AppFault, AppTask, Application, Calls, Pause};
use asgi_pipes::{EndKind, OutItem, Pipes, Plain, PlainApp, PlainConn};
use asgi_types::{
    Asgi, Chars, Facts, Framing, HttpVersion, Incoming, Kind, LifespanScope, Limits, Names,
    Outgoing, Scope, State,
};
use futures::task::Context;
use std::alloc::{AllocError, Global};

/// An application that was started and not yet stopped. Its task is polled by `start` and `stop`
/// alone.
#[derive(Drop)]
pub struct Lifespan<T: AppTask> {
    hosted: Hosted<T>,
    alloc: Global,
    idle_turns: u32,
    turns: u64,
    ghost kept: { ∥ IsStarted T.stands hosted ∥₁ },
}

/// How the start of an application was answered (ASGI lifespan protocol 2.0, "Startup Complete" and
/// "Startup Failed").
#[derive(Drop)]
pub enum Start<T: AppTask> {
    /// The application started, with the state of which each later scope gets a copy ("Lifespan State").
    Started(Lifespan<T>, State),
    /// There is no lifespan scope: the call faulted, or the task ended before it answered ("Scope").
    Unsupported,
    /// The start failed, with this message.
    Failed(Chars),
    /// There was no answer within the limits. This many turns were taken.
    Idle(u64),
    /// Memory for the two ends was refused, and the application was not called.
    NoMemory,
}

impl<T: AppTask> Lifespan<T> {
    ghost use Rattle.asgi_lifespan.specs.Starting.{Starts, StandsFor, PromiseOf, IsNoMemory, IfStarted, IsAnswer, scopes_of, turns_in};
    ghost use Rattle.asgi_lifespan.specs.Stopping.{Stops};

    /// Starts an application: it is called, offered "Startup", and polled until it answers, within
    /// the limits on turns (ASGI lifespan protocol 2.0, "Startup"). The two ends take memory, and
    /// so may the application; nothing else does.
    pub fn start<A: Application<Task = T>, P: Pause>(
        alloc: Global,
        app: &A,
        limits: &Limits,
        cx: &mut Context<'_>,
        pause: &mut P,
    ) -> Start<T>
        ensures starts { (IsNoMemory result × (pause.new ≡ pause.old)) ⊎ Starts (A.answers app.now lifespan_scope) limits.now (P.count pause.old) (P.count pause.new) result }
        ensures armed { (told : ℕ) → turns_in result ≡ Some told → (told ≡ 0) ⊎ IsArmed cx.new }
        ensures kept { Keeps cx.old cx.new }
    {
        let mut calls = Calls::of(app);
        Self::start_by(alloc, &mut calls, limits, cx, pause)
    }

    /// Starts an application, which is called once, but not if memory for the two ends is refused.
    fn start_by<A: Application<Task = T>, P: Pause>(
        alloc: Global,
        calls: &mut Calls<'_, A>,
        limits: &Limits,
        cx: &mut Context<'_>,
        pause: &mut P,
    ) -> Start<T>
        ensures starts { (IsNoMemory result × (pause.new ≡ pause.old)) ⊎ Starts (A.answers calls.old.app.now lifespan_scope) limits.now (P.count pause.old) (P.count pause.new) result }
        ensures called { calls.new.scopes.items ≡ calls.old.scopes.items ++ scopes_of result }
        ensures armed { (told : ℕ) → turns_in result ≡ Some told → (told ≡ 0) ⊎ IsArmed cx.new }
        ensures kept { Keeps cx.old cx.new }
    {
        let Ok((conn, app_end)) = ends(alloc, limits.ring) else {
            return Start::NoMemory;
        };
        let Ok(task) = called(alloc, calls) else {
            return Start::Unsupported;
        };
        Self::begin(alloc, limits, Hosted::new(task, conn, app_end), cx, pause)
    }

    /// Offers "Startup" to the task, and polls it until it answers.
    fn begin<P: Pause>(
        alloc: Global,
        limits: &Limits,
        hosted: Hosted<T>,
        cx: &mut Context<'_>,
        pause: &mut P,
    ) -> Start<T>
        requires hosted { IsHosted T.stands hosted }
        requires silent { (offered_to hosted ≡ []) × (got_of hosted ≡ []) }
        ensures starts { Starts (Promises T.answers hosted) limits.now (P.count pause.old) (P.count pause.new) result }
        ensures armed { (told : ℕ) → turns_in result ≡ Some told → (told ≡ 0) ⊎ IsArmed cx.new }
        ensures kept { Keeps cx.old cx.new }
    {
        let mut hosted = hosted;
        hosted.offer(Incoming::LifespanStartup);
        match hosted.run(cx, pause, limits.idle_turns, limits.turns) {
            Word::Said(event) => Self::answered(alloc, limits, hosted, event),
            Word::Ended(_) => Start::Unsupported,
            Word::Idle(turns) => Start::Idle(turns),
        }
    }

    /// Stops the application: it is offered "Shutdown", and polled until it answers, within the
    /// limits of its start, which are counted anew (ASGI lifespan protocol 2.0, "Shutdown"). Takes
    /// no memory.
    pub fn stop<P: Pause>(self, cx: &mut Context<'_>, pause: &mut P) -> Stop
        ensures stops { (limits : _) (heard : _) (said : _) (ended : _) → StandsFor limits self heard said ended
            → Stops (PromiseOf self) limits heard said (P.count pause.old) (P.count pause.new) result }
        ensures armed { (told : ℕ) → stop.turns_in result ≡ Some told → (told ≡ 0) ⊎ IsArmed cx.new }
        ensures kept { Keeps cx.old cx.new }
    {
        let alloc = self.alloc;
        let idle_turns = self.idle_turns;
        let turns = self.turns;
        let mut hosted = self.into_hosted();
        hosted.offer(Incoming::LifespanShutdown);
        match hosted.run(cx, pause, idle_turns, turns) {
            Word::Said(event) => answer_of(event),
            Word::Ended(kind) => answer_of_end(alloc, kind),
            Word::Idle(turns) => Stop::Idle(turns),
        }
    }

    /// The task and its ends.
    fn into_hosted(self) -> Hosted<T>
        ensures started { IsStarted T.stands result }
        ensures same { result ≡ self.hosted }
    {
        let Lifespan { hosted, .. } = self;
        hosted
    }

    /// How the first event that a task sends answers the start. If the application started, the task goes with it.
    fn answered(alloc: Global, limits: &Limits, hosted: Hosted<T>, event: Outgoing) -> Start<T>
        requires hosted { IsHosted T.stands hosted }
        requires offered { offered_to hosted ≡ Incoming.LifespanStartup ∷ [] }
        requires got { got_of hosted ≡ OutItem.Event event ∷ [] }
        requires answers { IsStartAnswer event }
        ensures answer { (more : List Outgoing) (ended : Option EndKind) → IsAnswer result (start_answer (event ∷ more) ended) }
        ensures turns { turns_in result ≡ None }
        ensures started { IfStarted result (λ life. (life.hosted ≡ hosted) × (life.turns ≡ limits.now.turns) × (life.idle_turns ≡ limits.now.idle_turns)) }
    {
        match event {
            Outgoing::StartupComplete { state } => {
                let life = Lifespan {
                    hosted,
                    alloc,
                    idle_turns: limits.idle_turns,
                    turns: limits.turns,
                };
                Start::Started(life, state)
            }
            Outgoing::StartupFailed { message } => Start::Failed(message),
            _ => unreachable!(),
        }
    }
}

/// The ends of a task in a lifespan scope, with `ring` places each way.
fn ends(alloc: Global, ring: usize) -> Result<(PlainConn, PlainApp), AllocError>
    requires { 2 ≤ ring }
    ensures { IfOk result (λ ends. AreNew ends.0 ends.1) }
{
    Plain.make(alloc, Kind::Lifespan, Facts::plain(alloc), ring)
}

/// Calls the application with the scope that it is started in.
fn called<A: Application>(alloc: Global, calls: &mut Calls<'_, A>) -> Result<A::Task, AppFault>
    ensures once { calls.new.scopes.items ≡ calls.old.scopes.items ++ lifespan_scope ∷ [] }
    ensures stands { IfOk result (λ task. A.Task.stands task Kind.Lifespan [] []) }
    ensures answers { IfOk result (λ task. (heard : List Incoming) (said : List Outgoing) (end : Option EndKind) → A.Task.answers task heard said end
        → A.answers calls.old.app.now lifespan_scope heard said end) }
    ensures fault { OnErr result (A.answers calls.old.app.now lifespan_scope [] [] (Some EndKind.Faulted)) }
{
    calls.call(alloc, scope(alloc))
}

/// The scope that an application is started in.
fn scope(alloc: Global) -> Scope
    ensures { result ≡ lifespan_scope }
{
    Scope::Lifespan(LifespanScope {
        asgi: Asgi::of(Kind::Lifespan),
        state: State::new(alloc),
    })
}

/// How the stop was answered, by the answer to "Shutdown".
fn answer_of(event: Outgoing) -> Stop
    requires { IsStopAnswer event }
    ensures answer { (startup : Outgoing) (more : List Outgoing) (ended : Option EndKind) → stop.answer_in result ≡ stop_answer (startup ∷ event ∷ more) ended }
    ensures turns { stop.turns_in result ≡ None }
{
    match event {
        Outgoing::ShutdownComplete => Stop::Stopped,
        Outgoing::ShutdownFailed { message } => Stop::Failed(message),
        _ => unreachable!(),
    }
}

/// How the stop was answered, by the end of a task that did not answer "Shutdown".
fn answer_of_end(alloc: Global, kind: EndKind) -> Stop
    requires { kind ≢ EndKind.Idle }
    ensures answer { (startup : Outgoing) → stop.answer_in result ≡ stop_answer (startup ∷ []) (Some kind) }
    ensures turns { stop.turns_in result ≡ None }
{
    match kind {
        EndKind::Returned => Stop::Stopped,
        EndKind::Faulted => Stop::Failed(Chars::new(String::new(alloc))),
        EndKind::Idle => unreachable!(),
    }
}
