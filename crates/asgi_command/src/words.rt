//! The words after the program's name.
ghost use Rattle.std.specs.Prelude.{◌≡◌, IfSome, IfNone, Some, None, ℕ, map, string_bytes, length};
ghost use Rattle.asgi_command.specs.Words as spec;
ghost use Rattle.asgi_command.specs.Words.{Asks, IsOnce, IsServe};

use asgi_server::Workers;
use asgi_types::parse_length;

/// How many workers there are if no word gives it.
const USUAL: u64 = 2;

/// The applications that a word names.
#[derive(Clone, Copy, Debug, PartialEq, Eq)]
pub enum App {
    Hello,
    Echo,
    NotFound,
    WsEcho,
    /// `RootPath` under `/a` and under `/a/b`.
    Mounts,
    Life,
    NoStart,
    NoStop,
}

/// What the program is asked to do.
#[derive(Clone, Copy, Debug, PartialEq, Eq)]
pub enum Command {
    /// `once APP`: serves one connection, standard input and standard output.
    Once(App),
    /// `serve PORT COUNT APP [WORKERS]`: serves COUNT connections of this port by WORKERS workers.
    Serve {
        port: u16,
        count: u64,
        app: App,
        workers: Workers,
    },
}

/// What the words ask for; None if they are no command.
pub fn command_of(words: &[String]) -> Option<Command>
    ensures some { IfSome result (λ command. Asks (map string_bytes words.now) command) }
    ensures none { IfNone result ((command : Command) → ¬ (Asks (map string_bytes words.now) command)) }
{
    if let Some(app) = once_of(words) {
        return Some(Command::Once(app));
    }
    serve_of(words)
}

/// The application that is to serve one connection, if the words are `once` and its name.
fn once_of(words: &[String]) -> Option<App>
    ensures some { IfSome result (λ app. IsOnce (map string_bytes words.now) app) }
    ensures none { IfNone result ((app : App) → ¬ (IsOnce (map string_bytes words.now) app)) }
{
    let [once, name] = words else {
        return None;
    };
    if once.as_str() != "once" {
        return None;
    }
    app_named(name.as_str())
}

/// What is to be served, if the words are `serve`, a port, a number of connections, a name, and a number of workers,
/// which are two by default.
fn serve_of(words: &[String]) -> Option<Command>
    ensures some { IfSome result (λ command. IsServe (map string_bytes words.now) command) }
    ensures none { IfNone result ((command : Command) → ¬ (IsServe (map string_bytes words.now) command)) }
{
    match words.len() {
        4 => serve_by_two(words),
        5 => serve_by(words),
        _ => None,
    }
}

/// The same of four words.
fn serve_by_two(words: &[String]) -> Option<Command>
    requires { length words.now ≡ 4 }
    ensures some { IfSome result (λ command. IsServe (map string_bytes words.now) command) }
    ensures none { IfNone result ((command : Command) → ¬ (IsServe (map string_bytes words.now) command)) }
{
    let [first, port, count, name] = words else {
        return None;
    };
    if first.as_str() != "serve" {
        return None;
    }
    serve_with(
        port.as_str(),
        count.as_str(),
        name.as_str(),
        Workers::new(USUAL)?,
    )
}

/// The same of five words.
fn serve_by(words: &[String]) -> Option<Command>
    requires { length words.now ≡ 5 }
    ensures some { IfSome result (λ command. IsServe (map string_bytes words.now) command) }
    ensures none { IfNone result ((command : Command) → ¬ (IsServe (map string_bytes words.now) command)) }
{
    let [serve, port, count, name, workers] = words else {
        return None;
    };
    if serve.as_str() != "serve" {
        return None;
    }
    let workers = workers_in(workers.as_str())?;
    serve_with(port.as_str(), count.as_str(), name.as_str(), workers)
}

/// What these three words ask to serve, with these workers.
fn serve_with(port: &str, count: &str, name: &str, workers: Workers) -> Option<Command>
    ensures some { IfSome result (λ command. spec.IsServeWith port.now count.now name.now workers.count command) }
    ensures none { IfNone result ((command : Command) → ¬ (spec.IsServeWith port.now count.now name.now workers.count command)) }
{
    let port = number_in(1, 65_535, port)?;
    let count = number_in(1, 1_000, count)?;
    let app = app_named(name)?;
    Some(Command::Serve {
        port: port as u16,
        count,
        app,
        workers,
    })
}

/// The number of workers in a word.
#[tactic(auto, using(crate::proofs::WordLemmas::no_number))]
fn workers_in(word: &str) -> Option<Workers>
    ensures some { IfSome result (λ workers. spec.number_in 1 8 word.now ≡ Some workers.count) }
    ensures none { IfNone result (spec.number_in 1 8 word.now ≡ None) }
{
    Workers::new(number_in(1, 8, word)?)
}

/// The number that a word of 1 to 5 digits writes, if it is within these bounds.
fn number_in(least: u64, most: u64, word: &str) -> Option<u64>
    ensures { result ≡ spec.number_in least most word.now }
{
    let digits = word.as_bytes();
    if digits.len() > 5 {
        return None;
    }
    let number = parse_length(digits)?;
    if number < least || number > most {
        return None;
    }
    Some(number)
}

/// The application of this name.
fn app_named(name: &str) -> Option<App>
    ensures some { IfSome result (λ app. name.now ≡ spec.word_of app) }
    ensures none { IfNone result ((app : App) → ¬ (name.now ≡ spec.word_of app)) }
{
    if name == "hello" {
        return Some(App::Hello);
    }
    if name == "echo" {
        return Some(App::Echo);
    }
    if name == "notfound" {
        return Some(App::NotFound);
    }
    if name == "wsecho" {
        return Some(App::WsEcho);
    }
    if name == "mounts" {
        return Some(App::Mounts);
    }
    if name == "life" {
        return Some(App::Life);
    }
    if name == "nostart" {
        return Some(App::NoStart);
    }
    if name == "nostop" {
        return Some(App::NoStop);
    }
    None
}
