//! The start of an application and its stop, around what serves in between.
ghost use Rattle.std.specs.Prelude.{◌≡◌, ℕ, IfSome};
ghost use Rattle.nomtsage.specs.private.Living.{Begins, EndsBy, IsEnd, IsLiving};

use crate::ending::{Ending, Served, ending_of};
use asgi_apps::{AppTask, Application};
use asgi_conn::Host;
use asgi_kept::{Napping, Resting};
use asgi_lifespan::{Lifespan, Start, Stop};
use asgi_types::{Limits, State};
use futures::task::{Context, Doorbell, Solo};

/// What runs a task in the caller's thread, and a pause that was not made yet. None if what they take is refused.
pub(crate) fn solo_of<R: Host>(rt: &R) -> Option<(Solo, Napping<R>)>
    ensures { IfSome result (λ parts. parts.1.count ≡ 0) }
{
    let Ok(solo) = Solo::new(rt, Doorbell::spinning()) else {
        return None;
    };
    let Ok((here, _there)) = Resting::pair(rt.alloc()) else {
        return None;
    };
    Some((solo, Napping::new(*rt, here)))
}

/// An application that was started, or that has no lifespan, until it is stopped.
pub(crate) struct Living<'q, T: AppTask, R> {
    lifespan: Option<Lifespan<T>>,
    cx: Context<'q>,
    pause: Napping<R>,
}

/// What became of an application that was to be started.
pub(crate) enum Begun<'q, T: AppTask, R> {
    /// It lives, and its connections are to be served with this state.
    Lives(Living<'q, T, R>, State),
    /// It does not: no connection is to be asked for, and the server ends so.
    Ends(Ending),
}

/// Starts the application, in the caller's thread.
pub(crate) fn begin<'q, T: AppTask, A: Application<Task = T>, R: Host>(
    rt: &R,
    limits: &Limits,
    app: &A,
    solo: &'q Solo,
    pause: Napping<R>,
) -> Begun<'q, T, R>
    ensures { Begins (A.answers app.now) limits.now pause.count result }
{
    let mut cx = solo.begin();
    let mut pause = pause;
    let answer = Lifespan::start(rt.alloc(), app, limits, &mut cx, &mut pause);
    match answer {
        Start::Started(lifespan, state) => lives(Some(lifespan), cx, pause, state),
        Start::Unsupported => lives(None, cx, pause, State::new(rt.alloc())),
        Start::Failed(message) => ended(Ending::StartupFailed(message), cx),
        Start::Idle(_turns) => ended(Ending::NoStartup, cx),
        Start::NoMemory => ended(Ending::NoMemory, cx),
    }
}

/// An application that lives.
fn lives<'q, T: AppTask, R>(
    lifespan: Option<Lifespan<T>>,
    cx: Context<'q>,
    pause: Napping<R>,
    state: State,
) -> Begun<'q, T, R>
    ensures { IsLiving result lifespan state pause.count }
{
    let living = Living {
        lifespan,
        cx,
        pause,
    };
    Begun::Lives(living, state)
}

/// One that does not.
fn ended<'q, T: AppTask, R>(ending: Ending, cx: Context<'q>) -> Begun<'q, T, R>
    ensures { IsEnd result ending }
{
    cx.cancel();
    Begun::Ends(ending)
}

impl<'q, T: AppTask, R: Host> Living<'q, T, R> {
    /// Stops the application, and returns how the server ends that has served so.
    pub(crate) fn stop(self, served: Served) -> Ending
        ensures { (after : ℕ) × EndsBy self.entry.lifespan self.entry.pause.count after served result }
    {
        let Living {
            lifespan,
            mut cx,
            mut pause,
        } = self;
        match lifespan {
            Some(lifespan) => {
                let answer = lifespan.stop(&mut cx, &mut pause);
                cx.cancel();
                ending_of(served, answer)
            }
            None => {
                cx.cancel();
                ending_of(served, Stop::Stopped)
            }
        }
    }
}
