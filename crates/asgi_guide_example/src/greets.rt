//! A start, a stop, and a state that each request sees.
use crate::steps::{Hears, Next, Steps, Then};
use nomtsage::{
    AppFault, Application, Chars, Incoming, Outgoing, Reply, Scope, State, StateError, StateValue,
};
use std::alloc::Global;

/// The name of the greeting in the state.
const NAME: &str = "greeting";

/// Makes a greeting at the start, and answers each request with it.
#[derive(Clone, Copy, Debug)]
pub struct Greets;

/// Hears the start and the stop.
#[derive(Clone, Copy, Debug)]
pub struct Life;

impl Application for Greets {
    type Task = Steps<Life>;

    fn call(&self, alloc: Global, scope: &Scope) -> Result<Steps<Life>, AppFault> {
        match scope {
            Scope::Lifespan(_) => Ok(Steps::new(alloc, Life, Next::Receives)),
            Scope::Http(scope) => {
                let reply = Reply::text(alloc, greeting_in(&scope.state))?;
                Ok(Steps::new(alloc, Life, respond(reply)))
            }
            Scope::WebSocket(_) => Err(AppFault::Failed),
        }
    }
}

impl Hears for Life {
    fn hear(&mut self, alloc: Global, event: Incoming) -> Result<Next, AppFault> {
        match event {
            Incoming::LifespanStartup => {
                let state = started(alloc)?;
                Ok(Next::Sends(Outgoing::StartupComplete { state }, Then::Receives))
            }
            Incoming::LifespanShutdown => {
                Ok(Next::Sends(Outgoing::ShutdownComplete, Then::Returns))
            }
            _ => Ok(Next::Returns),
        }
    }
}

/// The state that each later scope gets a copy of.
fn started(alloc: Global) -> Result<State, AppFault> {
    let text = Chars::new(String::from_str(alloc, "good morning\n")?);
    let mut state = State::new(alloc);
    match state.set(NAME, StateValue::Text(text)) {
        Ok(()) => Ok(state),
        Err(StateError::NoMemory(e)) => Err(AppFault::NoMemory(e)),
        Err(StateError::StateFull) => Err(AppFault::Failed),
    }
}

/// The greeting that the state holds.
fn greeting_in(state: &State) -> &str {
    match state.get(NAME) {
        Some(StateValue::Text(text)) => text.as_str(),
        Some(_) => "",
        None => "",
    }
}

/// Sends a whole response, and returns.
fn respond(reply: Reply) -> Next {
    let Reply {
        status,
        headers,
        body,
    } = reply;
    let start = Outgoing::ResponseStart {
        status,
        headers,
        trailers: false,
    };
    let last = Outgoing::ResponseBody {
        body,
        more_body: false,
    };
    Next::Sends(start, Then::Sends(last))
}
