//! Starts and stops of applications that answer, and of some that do not: what each call returns, by a row.
ghost use Rattle.std.specs.Prelude.{◌≡◌, None};
ghost use Rattle.futures.specs.Poll.{OnPending};
ghost use Rattle.futures.specs.Task.{IsArmed, Keeps};
ghost use Rattle.asgi_apps.specs.Ends.{GoesOn};

use asgi_apps::{AppFault, AppTask, Application, Says};
use asgi_io::{CountingPause, Pause};
use asgi_lifespan::{Lifespan, Start, Stop};
use asgi_pipes::{AppEnd, Sent};
use asgi_types::{Chars, Incoming, Kind, Limits, Outgoing, Scope, State, StateValue};
use futures::task::{Context, Doorbell, Poll, Solo};
use std::alloc::{AllocError, AllocGlobal, Global};
use std::process::Abort;
use std::random::RandomSource;
use std::test::Fail;

/// What a scripted task does in one poll.
#[derive(Clone, Copy)]
pub enum Step {
    /// Receives an event, which is to be "Startup", or waits for one.
    HearsStartup,
    HearsShutdown,
    /// Sends the event.
    Started(u64),
    StartFailed,
    Stopped,
    StopFailed,
    /// Sends "Startup Complete" and returns, or faults.
    StartsAndReturns(u64),
    StartsAndFaults(u64),
    /// Asks for another poll.
    Waits,
    Returns,
    Faults,
}

use Step::{
    Faults, HearsShutdown, HearsStartup, Returns, StartFailed, Started, StartsAndFaults,
    StartsAndReturns, StopFailed, Stopped, Waits,
};

/// An application whose task takes these steps, and then waits for good.
#[derive(Clone, Copy)]
pub struct Scripted(pub &'static [Step]);

#[derive(Drop)]
pub struct ScriptedTask {
    alloc: Global,
    steps: &'static [Step],
    taken: usize,
}

impl Application for Scripted {
    type Task = ScriptedTask;

    fn call(&self, alloc: Global, _scope: &Scope) -> Result<ScriptedTask, AppFault> {
        Ok(ScriptedTask {
            alloc,
            steps: self.0,
            taken: 0,
        })
    }
}

fn text(alloc: Global, text: &str) -> Result<Chars, AllocError> {
    Ok(Chars::new(String::from_str(alloc, text)?))
}

/// "Startup Complete", with a state of one number.
fn complete(alloc: Global, number: u64) -> Result<Outgoing, AllocError> {
    let mut state = State::new(alloc);
    for _ in 0..2 {
        if state.set("n", StateValue::Number(number)).is_ok() {
            return Ok(Outgoing::StartupComplete { state });
        }
    }
    Err(AllocError)
}

impl ScriptedTask {
    fn step(&self) -> Step {
        match self.steps.get(self.taken) {
            Some(step) => *step,
            None => Waits,
        }
    }

    /// What the step sends.
    fn event(&self, step: Step) -> Result<Outgoing, AllocError> {
        match step {
            Started(number) | StartsAndReturns(number) | StartsAndFaults(number) => complete(
                self.alloc, number,
            ),
            StartFailed => Ok(Outgoing::StartupFailed {
                message: text(self.alloc, "no disk")?,
            }),
            Stopped => Ok(Outgoing::ShutdownComplete),
            _ => Ok(Outgoing::ShutdownFailed {
                message: text(self.alloc, "no disk")?,
            }),
        }
    }

    fn hear<E: AppEnd>(
        &mut self,
        cx: &mut Context<'_>,
        end: &mut E,
        step: Step,
    ) -> Poll<Result<(), AppFault>>
        requires { E.ended end.old ≡ None }
        ensures end { GoesOn E.AppEnd None end.old end.new }
        ensures armed { OnPending result (IsArmed cx.new) }
        ensures kept { Keeps cx.old cx.new }
    {
        let Poll::Ready(event) = end.poll_receive(cx) else {
            return Poll::Pending;
        };
        if !is_due(step, &event) {
            return Poll::Ready(Err(AppFault::Failed));
        }
        self.taken = self.taken.saturating_add(1);
        cx.yield_now()
    }

    fn say<E: AppEnd>(
        &mut self,
        cx: &mut Context<'_>,
        end: &mut E,
        step: Step,
    ) -> Poll<Result<(), AppFault>>
        requires { E.ended end.old ≡ None }
        ensures end { GoesOn E.AppEnd None end.old end.new }
        ensures armed { OnPending result (IsArmed cx.new) }
        ensures kept { Keeps cx.old cx.new }
    {
        let Ok(event) = self.event(step) else {
            return Poll::Ready(Err(AppFault::Failed));
        };
        match end.poll_send(cx, event) {
            Sent::Done => {
                self.taken = self.taken.saturating_add(1);
                go_on(cx, step)
            }
            Sent::Full(_) => Poll::Pending,
            _ => Poll::Ready(Err(AppFault::Failed)),
        }
    }
}

/// What a task does after the event of a step.
fn go_on(cx: &mut Context<'_>, step: Step) -> Poll<Result<(), AppFault>>
    ensures armed { OnPending result (IsArmed cx.new) }
    ensures kept { Keeps cx.old cx.new }
{
    match step {
        StartsAndReturns(_) => Poll::Ready(Ok(())),
        StartsAndFaults(_) => Poll::Ready(Err(AppFault::Failed)),
        _ => cx.yield_now(),
    }
}

fn is_due(step: Step, event: &Incoming) -> bool {
    match event {
        Incoming::LifespanStartup => matches!(step, HearsStartup),
        Incoming::LifespanShutdown => matches!(step, HearsShutdown),
        _ => false,
    }
}

impl AppTask for ScriptedTask {
    fn poll<E: AppEnd>(&mut self, cx: &mut Context<'_>, end: &mut E) -> Poll<Result<(), AppFault>> {
        let step = self.step();
        match step {
            HearsStartup | HearsShutdown => self.hear(cx, end, step),
            Waits => {
                self.taken = self.taken.saturating_add(1);
                cx.yield_now()
            }
            Returns => Poll::Ready(Ok(())),
            Faults => Poll::Ready(Err(AppFault::Failed)),
            _ => self.say(cx, end, step),
        }
    }

    ghost keeps = { λ _ _ _ _ _. tt };
}

/// An application whose call faults.
#[derive(Clone, Copy)]
pub struct Refuses;

impl Application for Refuses {
    type Task = ScriptedTask;

    fn call(&self, _alloc: Global, _scope: &Scope) -> Result<ScriptedTask, AppFault> {
        Err(AppFault::Failed)
    }
}

/// An application that sends all at once, and receives nothing.
#[derive(Clone, Copy)]
pub struct Silent;

impl Application for Silent {
    type Task = Says;

    fn call(&self, alloc: Global, scope: &Scope) -> Result<Says, AppFault> {
        let Scope::Lifespan(_) = scope else {
            return Err(AppFault::Failed);
        };
        let mut says = Says::with_room(alloc, Kind::Lifespan, 2)?;
        says.add(complete(alloc, 5)?)?;
        says.add(Outgoing::ShutdownComplete)?;
        Ok(says)
    }
}

/// How a call was answered.
#[derive(Clone, Copy, PartialEq, Eq)]
pub enum Told {
    /// With this number in the state.
    Started(u64),
    Unsupported,
    NoDisk,
    NoMessage,
    OtherMessage,
    Idle(u64),
    NoMemory,
    Stopped,
    /// There was nothing to stop.
    Nothing,
}

fn message_told(message: &Chars) -> Told {
    if message.as_str() == "no disk" {
        return Told::NoDisk;
    }
    if message.as_str() == "" {
        return Told::NoMessage;
    }
    Told::OtherMessage
}

fn state_told(state: &State) -> Told {
    match state.get("n") {
        Some(StateValue::Number(number)) => Told::Started(*number),
        _ => Told::Started(0),
    }
}

fn stop_told(stop: Stop) -> Told {
    match stop {
        Stop::Stopped => Told::Stopped,
        Stop::Failed(message) => message_told(&message),
        Stop::Idle(turns) => Told::Idle(turns),
    }
}

/// How the start and the stop were answered, and the pauses made.
pub type Answers = (Told, Told, u64);

fn stop<T: AppTask, P: Pause>(
    cx: &mut Context<'_>,
    pause: &mut P,
    start: Start<T>,
) -> (Told, Told) {
    match start {
        Start::Started(life, state) => (state_told(&state), stop_told(life.stop(cx, pause))),
        Start::Unsupported => (Told::Unsupported, Told::Nothing),
        Start::Failed(message) => (message_told(&message), Told::Nothing),
        Start::Idle(turns) => (Told::Idle(turns), Told::Nothing),
        Start::NoMemory => (Told::NoMemory, Told::Nothing),
    }
}

/// Starts the application and stops it.
pub fn run<R: RandomSource + AllocGlobal, A: Application>(
    rt: &R,
    solo: &Solo,
    limits: &Limits,
    app: &A,
) -> Answers {
    let mut pause = CountingPause::new();
    let mut cx = solo.begin();
    let start = Lifespan::start(rt.alloc(), app, limits, &mut cx, &mut pause);
    let (started, stopped) = stop(&mut cx, &mut pause, start);
    cx.cancel();
    (started, stopped, pause.paused())
}

/// The limits of a row: idle turns in a row, and turns.
pub fn limits(idle_turns: u32, turns: u64) -> Limits {
    match Limits::new(64, 1, 0, 1, 2, idle_turns, turns) {
        Ok(limits) => limits,
        Err(_) => Limits::usual(),
    }
}

/// A context comes from here. What takes memory is asked for again if it was refused.
pub fn solo_of<R: RandomSource + AllocGlobal>(rt: &R) -> Result<Solo, Fail> {
    match Solo::new(rt, Doorbell::spinning()) {
        Ok(solo) => Ok(solo),
        Err(_) => Ok(Solo::new(rt, Doorbell::spinning())?),
    }
}

/// The steps, the idle turns and turns that are allowed, and the answers.
pub type Row = (&'static [Step], (u32, u64), Answers);

/// Whether the row's application answers like this.
fn holds<R: RandomSource + AllocGlobal>(rt: &R, solo: &Solo, row: &Row) -> bool {
    let answers = run(rt, solo, &limits(row.1.0, row.1.1), &Scripted(row.0));
    (answers, 0) == (row.2, 0)
}

/// The first row that does not hold, or how many there are.
fn holding<R: RandomSource + AllocGlobal>(rt: &R, solo: &Solo, rows: &[Row]) -> usize {
    for (index, row) in rows.iter().enumerate() {
        if !holds(rt, solo, row) {
            return index;
        }
    }
    rows.len()
}

fn held<R: RandomSource + AllocGlobal>(rt: &R, rows: &[Row]) -> Result<usize, Fail> {
    let solo = solo_of(rt)?;
    Ok(holding(rt, &solo, rows))
}

fn check<R: Abort + RandomSource + AllocGlobal>(rt: &R, rows: &[Row]) -> Result<(), Fail> {
    let held = held(rt, rows)?;
    assert!(rt; held == rows.len(), "row {held}");
    Ok(())
}

pub const AMPLE: (u32, u64) = (3, 100);

const WHOLE: Row = (
    &[HearsStartup, Started(7), HearsShutdown, Stopped, Returns],
    AMPLE,
    (Told::Started(7), Told::Stopped, 0),
);

const STOP_FAILS: Row = (
    &[HearsStartup, Started(7), HearsShutdown, StopFailed],
    AMPLE,
    (Told::Started(7), Told::NoDisk, 0),
);

const STARTED: &[Row] = &[
    WHOLE,
    // The answer of the last turn counts, and the stop counts its turns anew.
    (
        &[
            Waits,
            Waits,
            HearsStartup,
            Started(8),
            Waits,
            Waits,
            HearsShutdown,
            Stopped,
        ],
        (3, 4),
        (Told::Started(8), Told::Stopped, 4),
    ),
    (
        &[Started(0), Stopped],
        AMPLE,
        (Told::Started(0), Told::Stopped, 0),
    ),
    STOP_FAILS,
    (
        &[HearsStartup, Started(7), HearsShutdown],
        AMPLE,
        (Told::Started(7), Told::Idle(4), 3),
    ),
    (
        &[HearsStartup, Started(7)],
        (100, 2),
        (Told::Started(7), Told::Idle(2), 2),
    ),
];

#[test]
fn started_application_is_stopped(rt: HostRuntime) -> Result<(), Fail> {
    check(&rt, STARTED)
}

const ENDED: &[Row] = &[
    (
        &[HearsStartup, StartsAndReturns(7)],
        AMPLE,
        (Told::Started(7), Told::Stopped, 0),
    ),
    (
        &[HearsStartup, StartsAndFaults(7)],
        AMPLE,
        (Told::Started(7), Told::NoMessage, 0),
    ),
    (
        &[HearsStartup, Started(7), HearsShutdown, Returns],
        AMPLE,
        (Told::Started(7), Told::Stopped, 0),
    ),
    (
        &[HearsStartup, Started(7), HearsShutdown, Waits, Faults],
        AMPLE,
        (Told::Started(7), Told::NoMessage, 1),
    ),
];

#[test]
fn task_that_ended_is_stopped_or_failed(rt: HostRuntime) -> Result<(), Fail> {
    check(&rt, ENDED)
}

const NOT_STARTED: &[Row] = &[
    (
        &[HearsStartup, StartFailed],
        AMPLE,
        (Told::NoDisk, Told::Nothing, 0),
    ),
    (&[Returns], AMPLE, (Told::Unsupported, Told::Nothing, 0)),
    (&[Faults], AMPLE, (Told::Unsupported, Told::Nothing, 0)),
    (
        &[Waits, HearsStartup, Returns],
        AMPLE,
        (Told::Unsupported, Told::Nothing, 1),
    ),
    // An answer to "Shutdown" is refused before one to "Startup".
    (&[Stopped], AMPLE, (Told::Unsupported, Told::Nothing, 0)),
    (&[], AMPLE, (Told::Idle(3), Told::Nothing, 3)),
    (
        &[Waits, HearsStartup],
        AMPLE,
        (Told::Idle(5), Told::Nothing, 4),
    ),
    (
        &[Waits, Waits, HearsStartup, Started(7)],
        (3, 3),
        (Told::Idle(3), Told::Nothing, 2),
    ),
];

#[test]
fn application_is_not_started(rt: HostRuntime) -> Result<(), Fail> {
    check(&rt, NOT_STARTED)
}

fn answers_of<R: RandomSource + AllocGlobal, A: Application>(
    rt: &R,
    app: &A,
) -> Result<Answers, Fail> {
    let solo = solo_of(rt)?;
    Ok(run(rt, &solo, &limits(3, 100), app))
}

#[test]
fn call_that_faults_is_unsupported(rt: HostRuntime) -> Result<(), Fail> {
    assert!(rt; answers_of(&rt, &Refuses)? == (Told::Unsupported, Told::Nothing, 0));
    Ok(())
}

/// As many events wait each way as limits allow.
const GREATEST_RING: usize = 1_024;

/// Starts and stops an application, with this many places each way.
fn answers_over<R: RandomSource + AllocGlobal>(rt: &R, ring: usize) -> Result<Answers, Fail> {
    let limits = Limits::new(64, 1, 0, 1, ring, 3, 100)?;
    let solo = solo_of(rt)?;
    Ok(run(rt, &solo, &limits, &Scripted(WHOLE.0)))
}

#[test]
fn a_life_over_the_greatest_ring(rt: HostRuntime) -> Result<(), Fail> {
    assert!(rt; answers_over(&rt, GREATEST_RING)? == WHOLE.2);
    Ok(())
}

const SILENT: Answers = (Told::Started(5), Told::Stopped, 0);

#[test]
fn events_said_unheard_are_answers(rt: HostRuntime) -> Result<(), Fail> {
    assert!(rt; answers_of(&rt, &Silent)? == SILENT);
    Ok(())
}

// `tests/memory.py` runs these with each allocation refused in turn; with ample memory none is refused.

/// If an allocation is refused, the answers are some of these, and the next call answers whole.
fn answers_at_last<R: RandomSource + AllocGlobal, A: Application>(
    rt: &R,
    app: &A,
    expected: Answers,
    refused: &[Answers],
) -> Result<bool, Fail> {
    let first = answers_of(rt, app)?;
    if first == expected {
        return Ok(true);
    }
    Ok(refused.contains(&first) && answers_of(rt, app)? == expected)
}

const NO_MEMORY: Answers = (Told::NoMemory, Told::Nothing, 0);

const NO_CALL: Answers = (Told::Unsupported, Told::Nothing, 0);

/// A message that can't be made is a fault of the task.
const FAULTED: Answers = (Told::Started(7), Told::NoMessage, 0);

/// What a start or a stop may answer where memory is refused.
const OF_ENDS: &[Answers] = &[NO_MEMORY];

const OF_A_CALL: &[Answers] = &[NO_MEMORY, NO_CALL];

const OF_A_MESSAGE: &[Answers] = &[NO_MEMORY, FAULTED];

#[test]
fn memory_for_the_ends(rt: HostRuntime) -> Result<(), Fail> {
    assert!(rt; answers_at_last(&rt, &Scripted(WHOLE.0), WHOLE.2, OF_ENDS)?);
    Ok(())
}

#[test]
fn memory_for_the_call(rt: HostRuntime) -> Result<(), Fail> {
    assert!(rt; answers_at_last(&rt, &Silent, SILENT, OF_A_CALL)?);
    Ok(())
}

#[test]
fn memory_for_a_message(rt: HostRuntime) -> Result<(), Fail> {
    assert!(rt; answers_at_last(&rt, &Scripted(STOP_FAILS.0), STOP_FAILS.2, OF_A_MESSAGE)?);
    Ok(())
}
