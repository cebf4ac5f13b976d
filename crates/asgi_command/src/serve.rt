//! The server: its connections, the lines of their reports, and how it ended.
ghost use Rattle.std.specs.Prelude.{◌≡◌, true};
ghost use Rattle.asgi_command.specs.Serving.{ServesOn, around};
ghost use Rattle.asgi_command.specs.Telling.{writer};
ghost use Rattle.asgi_command.specs.private.Ended.{LivesOn, ending_with};

use crate::ending::Ending;
use crate::reports::Printer;
use asgi_apps::{AppTask, Application};
use asgi_conn::Host;
use asgi_io::Counts;
use asgi_server::{Accepts, Listener, Nobody, Workers};
use asgi_types::Limits;
use asgi_ws::Line;
use nomtsage::Ending as Ended;

/// Serves the connections of the listener by this application and this many workers: starts it, serves
/// each connection, writes a line for each on `output`, stops the application, and writes on `errors`
/// what went wrong. Returns the exit status. Each worker and its tasks run in threads of their own, and
/// the application's start and stop in this one.
pub fn serve_on<
    H: Host + Sync,
    T: AppTask + Send + 'static,
    A: Application<Task = T> + Send + Sync,
    L: Line + Drop + Send,
    N: Accepts + Listener<L = L> + Send,
    W: Counts + Send,
    E: Counts,
>(
    rt: &H,
    limits: &Limits,
    workers: Workers,
    app: &A,
    listener: &mut N,
    output: &mut W,
    errors: &mut E,
) -> u8
    ensures serves { ServesOn L.state (A.answers app.now) limits.now workers.count (N.has_failed listener.new)
        (around (N.Listener.own.answers listener.old) (writer W.Counts output.old))
        (around (N.Listener.own.answers listener.new) (writer W.Counts output.new))
        (writer E.Counts errors.old)
        (writer E.Counts errors.new) result }
    ensures asked { N.Listener.own.asked listener.new ≡ N.Listener.own.asked listener.old }
{
    let ending = serve_each(rt, limits, workers, app, listener, output);
    ending.tell(errors)
}

/// The same, but what went wrong is returned. A line that is not written whole is the last one, and the connections are
/// served all the same.
fn serve_each<
    H: Host + Sync,
    T: AppTask + Send + 'static,
    A: Application<Task = T> + Send + Sync,
    L: Line + Drop + Send,
    N: Accepts + Listener<L = L> + Send,
    W: Counts + Send,
>(rt: &H, limits: &Limits, workers: Workers, app: &A, listener: &mut N, output: &mut W) -> Ending
    ensures lives { LivesOn L.state (A.answers app.now) limits.now workers.count (N.has_failed listener.new)
        (around (N.Listener.own.answers listener.old) (writer W.Counts output.old))
        (around (N.Listener.own.answers listener.new) (writer W.Counts output.new)) result }
    ensures asked { N.Listener.own.asked listener.new ≡ N.Listener.own.asked listener.old }
{
    let lent = &mut *output;
    let printer = Printer {
        output: lent,
        told: true,
    };
    let (ending, printer) = serve_printing(rt, limits, workers, app, listener, printer);
    let Printer {
        output: lent,
        told: _told,
    } = printer;
    keep(lent);
    ending
}

/// What was borrowed stays as it is. A `&mut` that came back in a result is known again after a call of this.
fn keep<T>(lent: &mut T)
    ensures { lent.new ≡ lent.old }
{
    let _ = lent;
}

/// The same with a printer of the lines, which is returned.
fn serve_printing<
    'a,
    H: Host + Sync,
    T: AppTask + Send + 'static,
    A: Application<Task = T> + Send + Sync,
    L: Line + Drop + Send,
    N: Accepts + Listener<L = L> + Send,
    W: Counts + Send,
>(
    rt: &H,
    limits: &Limits,
    workers: Workers,
    app: &A,
    listener: &mut N,
    printer: Printer<'a, W>,
) -> (Ending, Printer<'a, W>)
    requires { printer.told ≡ true }
    ensures lives { LivesOn L.state (A.answers app.now) limits.now workers.count (N.has_failed listener.new)
        (around (N.Listener.own.answers listener.old) (writer W.Counts printer.entry.output.now))
        (around (N.Listener.own.answers listener.new) (writer W.Counts result.1.output.now)) result.0 }
    ensures same { result.1.output.ghost_name ≡ printer.entry.output.ghost_name }
    ensures asked { N.Listener.own.asked listener.new ≡ N.Listener.own.asked listener.old }
{
    let (ended, printer) = nomtsage::serve_on(rt, limits, workers, app, &Nobody, listener, printer);
    (ending_with(printer.told, ended), printer)
}

/// How the program ends, by whether each line went out and how the server ended.
fn ending_with(told: bool, ended: Ended) -> Ending
    ensures { result ≡ ending_with told ended }
{
    if !told {
        return Ending::DeviceFault;
    }
    match ended {
        Ended::Done => Ending::Done,
        Ended::StartupFailed(message) => Ending::StartupFailed(message),
        Ended::NoStartup => Ending::NoStartup,
        Ended::ShutdownFailed(message) => Ending::ShutdownFailed(message),
        Ended::NoShutdown => Ending::NoShutdown,
        Ended::ListenerFailed | Ended::NoMemory | Ended::NoThread | Ended::TooLong => {
            Ending::DeviceFault
        }
    }
}
