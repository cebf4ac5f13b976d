//! What the end of a task means for its HTTP exchange and for the connection.
ghost use Rattle.std.specs.Prelude.{◌≡◌, Bool};
ghost use Rattle.asgi_request.specs.ChunkedBody.{BodyState};
ghost use Rattle.asgi_exchange.specs.ExchangeTexts.{input_of};
ghost use Rattle.asgi_conversation.specs.TaskEnds as spec;

use crate::report::Outcome;
use asgi_response::{Input, Progress};
use asgi_types::EndKind;

/// What comes after the end of a task.
#[derive(Clone, Copy, Debug, PartialEq, Eq)]
pub enum NextStep {
    /// The next request of the connection.
    NextRequest,
    /// Nothing: the connection ends like this.
    ConnectionEnds(Outcome),
}

/// What comes after the end of a task, by how it ended, how far the response and the body of the request
/// are, and whether the input broke before that end was taken (RFC 9112, sections 9.3 to 9.6).
pub fn after_task(kind: EndKind, progress: Progress, body: Input, input_broke: bool) -> NextStep
    ensures { (state : BodyState) → input_of state ≡ body → result ≡ spec.after_task kind progress state input_broke }
{
    match kind {
        EndKind::Returned => after_response(progress, body, input_broke),
        EndKind::Faulted => after_response(progress, body, input_broke),
        EndKind::Idle => NextStep::ConnectionEnds(Outcome::Idle),
    }
}

/// By how far the response is: a complete one that closes the connection does not depend on the body.
fn after_response(progress: Progress, body: Input, input_broke: bool) -> NextStep
    ensures { (state : BodyState) → input_of state ≡ body → result ≡ spec.after_response progress state input_broke }
{
    match progress {
        Progress::Nothing => NextStep::ConnectionEnds(unanswered(body)),
        Progress::Begun => NextStep::ConnectionEnds(incomplete(body, input_broke)),
        Progress::Complete { closes: true } => NextStep::ConnectionEnds(Outcome::Finished),
        Progress::Complete { closes: false } => kept(body),
    }
}

/// The response has not begun: the server answers in its place.
fn unanswered(body: Input) -> Outcome
    ensures { (state : BodyState) → input_of state ≡ body → result ≡ spec.unanswered state }
{
    match body {
        Input::Whole => Outcome::Refused(500),
        Input::Faulty(status) => Outcome::Refused(status),
        Input::Broken => Outcome::InputBroke,
    }
}

/// The response has begun and is not complete: nothing more is written.
fn incomplete(body: Input, input_broke: bool) -> Outcome
    ensures { (state : BodyState) → input_of state ≡ body → result ≡ spec.incomplete state input_broke }
{
    if !input_broke {
        return Outcome::Finished;
    }
    match body {
        Input::Whole => Outcome::Finished,
        Input::Faulty(_) => Outcome::InputBroke,
        Input::Broken => Outcome::InputBroke,
    }
}

/// The response is complete and keeps the connection.
fn kept(body: Input) -> NextStep
    ensures { (state : BodyState) → input_of state ≡ body → result ≡ spec.kept state }
{
    match body {
        Input::Whole => NextStep::NextRequest,
        Input::Faulty(_) => NextStep::ConnectionEnds(Outcome::InputBroke),
        Input::Broken => NextStep::ConnectionEnds(Outcome::InputBroke),
    }
}
