//! The command line.
ghost use Rattle.std.specs.Prelude.{◌≡◌, ℕ, ◌⊎◌, ◌++◌, ◌∷◌, [], map, string_bytes};
ghost use Rattle.std.specs.IoError.{error_kind};
ghost use Rattle.std.specs.declared.io.ErrorKind.TheVariants.{OutOfMemory};
ghost use Rattle.asgi_command.specs.Command as spec;
ghost use Rattle.asgi_command.specs.Command.{ServesOnce, ServesWhole, ServesPort, BeginsNone, promise, streams};
ghost use Rattle.asgi_command.specs.Serving.{around};
ghost use Rattle.asgi_command.specs.Telling as telling;
ghost use Rattle.asgi_command.specs.Telling.{Tells, TellsOf, writer};
ghost use Rattle.asgi_command.specs.Words.{Asks, IsOnce, IsServing, IsServingAt};
ghost use Rattle.asgi_command.specs.declared.words.App.{App};
ghost use Rattle.asgi_command.specs.declared.words.Command.{Command};

use crate::apps::mounts;
use crate::listens::Listens;
use crate::serve::serve_on;
use crate::telling::{device_fault, tell};
use crate::words::{App, Command, command_of};
use arrayvec::ArrayString;
use asgi_apps::{Application, Echo, Hello, Life, NotFound, WsEcho};
use asgi_conn::{CountingPause, Host, Inline, Line, Outcome, Report, serve_connection};
use asgi_io::Counts;
use asgi_server::{Accepts, Listener, Workers};
use asgi_types::{Limits, State};
use futures::task::{Doorbell, Solo};
use std::alloc::AllocGlobal;
use std::io::{self, ErrorKind};
use std::random::RandomSource;

const USAGE: &[u8] = b"usage: asgi_demo once APP | asgi_demo serve PORT COUNT APP [WORKERS]\n";

/// Runs the program on the words after its name, and returns the exit status.
///
/// `once APP` serves one connection over the line by that application, and writes on `errors` why the
/// connection stopped, if it did. `serve PORT COUNT APP [WORKERS]` starts the application, serves COUNT
/// connections of that port by 1 to 8 workers, 2 by default, writes a line for each on `output`, stops the
/// application, and writes on `errors` what went wrong. Any other words write the usage text on `errors`,
/// and nothing else is done.
pub fn command<
    H: Host + Sync,
    L: Line,
    M: Line + Drop + Send,
    N: Listens + Listener<L = M> + Send,
    W: Counts + Send,
    E: Counts,
>(rt: &H, words: &[String], line: &mut L, listener: &mut N, output: &mut W, errors: &mut E) -> u8
    ensures serves { (app : App) → IsOnce (map string_bytes words.now) app → (
        let before = streams (L.state line.old) (writer E.Counts errors.old) in
        let after = streams (L.state line.new) (writer E.Counts errors.new) in
        (ServesOnce (promise app) before after result) ⊎ (BeginsNone before after result)) }
    ensures serves_port { (app : App) (workers : ℕ) → IsServing (map string_bytes words.now) app workers → ServesPort M.state (promise app) workers (N.has_failed listener.new)
        (around (N.Listener.own.answers listener.old) (writer W.Counts output.old))
        (around (N.Listener.own.answers listener.new) (writer W.Counts output.new))
        (writer E.Counts errors.old)
        (writer E.Counts errors.new) result }
    ensures usage { ((asked : Command) → ¬ (Asks (map string_bytes words.now) asked)) → (result ≡ 2) × Tells telling.usage
        (writer E.Counts errors.old)
        (writer E.Counts errors.new) }
    ensures kept { ((asked : Command) → ¬ (Asks (map string_bytes words.now) asked)) → (line.new ≡ line.old) × (listener.new ≡ listener.old) × (output.new ≡ output.old) }
    ensures port { (app : App) (workers : ℕ) → IsServing (map string_bytes words.now) app workers → line.new ≡ line.old }
    ensures asked { (port count : ℕ) → IsServingAt (map string_bytes words.now) port count → N.Listener.own.asked listener.new ≡ N.Listener.own.asked listener.old ++ (port, count) ∷ [] }
    ensures once { (app : App) → IsOnce (map string_bytes words.now) app → (listener.new ≡ listener.old) × (output.new ≡ output.old) }
{
    match command_of(words) {
        None => usage(errors),
        Some(Command::Once(app)) => once_by(rt, app, line, errors),
        Some(
            Command::Serve {
                port,
                count,
                app,
                workers,
            },
        ) => {
            listener.listen_on(port, count);
            serve_by(rt, app, workers, listener, output, errors)
        }
    }
}

/// Serves one connection over the line by the named application.
fn once_by<H: RandomSource + AllocGlobal, L: Line, E: Counts>(
    rt: &H,
    app: App,
    line: &mut L,
    errors: &mut E,
) -> u8
    ensures { let before = streams (L.state line.old) (writer E.Counts errors.old) in
        let after = streams (L.state line.new) (writer E.Counts errors.new) in
        (ServesOnce (promise app) before after result) ⊎ (BeginsNone before after result) }
{
    match app {
        App::Hello => once(rt, &Hello, line, errors),
        App::Echo => once(rt, &Echo, line, errors),
        App::NotFound => once(rt, &NotFound, line, errors),
        App::WsEcho => once(rt, &WsEcho, line, errors),
        App::Mounts => match mounts(rt.alloc()) {
            Ok(app) => once(rt, &app, line, errors),
            Err(_) => device_fault(errors),
        },
        App::Life => once(rt, &Life::Works, line, errors),
        App::NoStart => once(rt, &Life::NoStart, line, errors),
        App::NoStop => once(rt, &Life::NoStop, line, errors),
    }
}

/// Serves the connections of the listener by the named application and this many workers, with the usual limits.
fn serve_by<
    H: Host + Sync,
    L: Line + Drop + Send,
    N: Accepts + Listener<L = L> + Send,
    W: Counts + Send,
    E: Counts,
>(rt: &H, app: App, workers: Workers, listener: &mut N, output: &mut W, errors: &mut E) -> u8
    ensures serves { ServesPort L.state (promise app) workers.count (N.has_failed listener.new)
        (around (N.Listener.own.answers listener.old) (writer W.Counts output.old))
        (around (N.Listener.own.answers listener.new) (writer W.Counts output.new))
        (writer E.Counts errors.old)
        (writer E.Counts errors.new) result }
    ensures asked { N.Listener.own.asked listener.new ≡ N.Listener.own.asked listener.old }
{
    let limits = Limits::usual();
    match app {
        App::Hello => serve_on(rt, &limits, workers, &Hello, listener, output, errors),
        App::Echo => serve_on(rt, &limits, workers, &Echo, listener, output, errors),
        App::NotFound => serve_on(rt, &limits, workers, &NotFound, listener, output, errors),
        App::WsEcho => serve_on(rt, &limits, workers, &WsEcho, listener, output, errors),
        App::Mounts => match mounts(rt.alloc()) {
            Ok(app) => serve_on(rt, &limits, workers, &app, listener, output, errors),
            Err(_) => device_fault(errors),
        },
        App::Life => serve_on(rt, &limits, workers, &Life::Works, listener, output, errors),
        App::NoStart => serve_on(
            rt,
            &limits,
            workers,
            &Life::NoStart,
            listener,
            output,
            errors,
        ),
        App::NoStop => serve_on(
            rt,
            &limits,
            workers,
            &Life::NoStop,
            listener,
            output,
            errors,
        ),
    }
}

/// Writes why the words after the program's name are not available, and returns the status: want of memory is
/// a fault of the system, and words that are not UTF-8 are wrong words.
pub fn without_words<E: Counts>(e: &io::Error, errors: &mut E) -> u8
    ensures memory { (error_kind e.now ≡ OutOfMemory) → (result ≡ 5) × Tells telling.device_fault
        (writer E.Counts errors.old)
        (writer E.Counts errors.new) }
    ensures wrong { (¬ (error_kind e.now ≡ OutOfMemory)) → (result ≡ 2) × Tells telling.usage
        (writer E.Counts errors.old)
        (writer E.Counts errors.new) }
{
    if e.kind() == ErrorKind::OutOfMemory {
        return device_fault(errors);
    }
    usage(errors)
}

// ---- one connection

/// Serves one connection over the line by this application, and returns the exit status.
fn once<H: RandomSource + AllocGlobal, A: Application, L: Line, E: Counts>(
    rt: &H,
    app: &A,
    line: &mut L,
    errors: &mut E,
) -> u8
    ensures { let before = streams (L.state line.old) (writer E.Counts errors.old) in
        let after = streams (L.state line.new) (writer E.Counts errors.new) in
        (ServesOnce (A.answers app.now) before after result) ⊎ (BeginsNone before after result) }
{
    let Ok(solo) = Solo::new(rt, Doorbell::spinning()) else {
        return device_fault(errors);
    };
    once_in(rt, &solo, app, line, errors)
}

/// The same, once there is what runs a task.
fn once_in<H: AllocGlobal, A: Application, L: Line, E: Counts>(
    rt: &H,
    solo: &Solo,
    app: &A,
    line: &mut L,
    errors: &mut E,
) -> u8
    ensures { ServesOnce (A.answers app.now) (streams (L.state line.old) (writer E.Counts errors.old)) (streams (L.state line.new) (writer E.Counts errors.new)) result }
{
    let report = serve(rt, solo, app, line);
    tell_end(report.outcome, errors)
}

/// Serves one connection over the line, in this thread.
fn serve<H: AllocGlobal, A: Application, L: Line>(
    rt: &H,
    solo: &Solo,
    app: &A,
    line: &mut L,
) -> Report
    ensures { ServesWhole (A.answers app.now) (L.state line.old) (L.state line.new) result }
{
    let limits = Limits::usual();
    let state = State::new(rt.alloc());
    let mut runner = Inline::new(solo.begin());
    let mut pause = CountingPause::new();
    let report = serve_connection(
        rt,
        &limits,
        &None,
        &None,
        &state,
        app,
        line,
        &mut runner,
        &mut pause,
    );
    runner.end();
    report
}

// ---- what is written on `errors`

/// Writes how the program is called, and returns the status for that.
fn usage<E: Counts>(errors: &mut E) -> u8
    ensures status { result ≡ 2 }
    ensures tells { Tells telling.usage
        (writer E.Counts errors.old)
        (writer E.Counts errors.new) }
{
    tell(USAGE, errors);
    2
}

/// Writes why a connection stopped, if it did, and returns the exit status of `once`.
#[tactic(auto, using(crate::proofs::TellingLemmas::stopped_is_told, crate::proofs::TellingLemmas::nothing_is_told))]
fn tell_end<E: Counts>(outcome: Outcome, errors: &mut E) -> u8
    ensures status { result ≡ spec.exit_status outcome }
    ensures tells { TellsOf (telling.of_outcome outcome)
        (writer E.Counts errors.old)
        (writer E.Counts errors.new) }
{
    let status = exit_status(outcome);
    if status != 0 {
        tell(stopped(outcome).as_bytes(), errors);
    }
    status
}

/// The exit status of `once`.
fn exit_status(outcome: Outcome) -> u8
    ensures { result ≡ spec.exit_status outcome }
{
    if outcome.is_cut() { 5 } else { 0 }
}

/// The text for a connection that stopped.
fn stopped(outcome: Outcome) -> ArrayString<64>
    ensures { result.bytes ≡ telling.stopped outcome }
{
    let mut text = ArrayString::new();
    text.push_str("stopped: ");
    text.push_str(outcome.words().as_str());
    text.push_str("\n");
    text
}
