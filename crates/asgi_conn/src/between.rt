//! Between two requests: the reader's next result, and what it calls for.
ghost use Rattle.std.specs.Prelude.{◌≡◌, ◌≢◌, ◌⊎◌, ◌↔◌, ◌++◌, ◌+◌, ℕ, List, length, Option, true, IsTrue, IfOk};
ghost use Rattle.asgi_types.specs.declared.limits.Limits.{Limits};
ghost use Rattle.asgi_request.specs.declared.next.Next.{Next};
ghost use Rattle.asgi_request.specs.Reading.{AllGiven, IsWaiting, StandsFor};
ghost use Rattle.asgi_response.specs.Exchange.{refusal_text};
ghost use Rattle.asgi_response.specs.Refusals.{is_refusal};
ghost use Rattle.asgi_conversation.specs.After.{IsBlank};
ghost use Rattle.asgi_conversation.specs.ExchangeRecord.{ExchangeRecord};
ghost use Rattle.asgi_conversation.specs.Persistence.{RefusesWith};
ghost use Rattle.asgi_conversation.specs.TaskEnds.{has_ended};
ghost use Rattle.asgi_ws.specs.Lines.{LineState};
ghost use Rattle.asgi_halves.specs.Kinds.{ReadsNone};
ghost use Rattle.asgi_conn.specs.Places.{place_of};
ghost use Rattle.asgi_conn.specs.Standing.{BetweenRequests, EndsSo, IsServing, begun_at, scope_in};
ghost use Rattle.asgi_conn.specs.private.Loop.{IsAtRest, IsBetween, IsFree, IsNext};

use crate::connection::Connection;
use crate::setting::Setting;
use asgi_apps::{Application, Calls};
use asgi_conversation::{InputEnd, Outcome};
use asgi_halves::{Wire, write};
use asgi_request::Next;
use asgi_response::refusal_text;
use asgi_run::Runner;
use asgi_types::{Framing, Peer, Scope, State};
use asgi_ws::Line;
use std::alloc::{AllocError, Global};

impl<X> Connection<X> {
    /// Whether the reader needs more bytes for its next result. It is asked first, since most reads of a
    /// head that comes in pieces complete nothing, and a result is dear to make, whatever it says.
    pub(crate) fn needs_more(&mut self) -> bool
        ensures waits { IsTrue result → IsWaiting self.old.half.wire.requests }
        ensures all { IsTrue result → (read : List ℕ) (given : List Next) → StandsFor self.old.half.wire.requests read given
            → AllGiven self.old.half.wire.requests read given }
        ensures same { self.new ≡ self.old }
    {
        self.half.wire.requests.is_waiting()
    }

    /// Asks the reader for its next result, and does what that calls for and takes no turn.
    pub(crate) fn next<A: Application, L: Line, U: Runner<A::Task, Exchange = X>>(
        &mut self,
        setting: &Setting<'_>,
        calls: &mut Calls<'_, A>,
        line: &mut L,
        runner: &mut U,
    )
        requires between { IsBetween (place_of self.old) }
        requires stands { (limits : Limits) × (start : LineState)
            × IsServing A.Task.answers U.Pipes.Conn.ConnEnd U.Pipes.App.AppEnd U.conn U.began (A.answers calls.old.app.now)
            limits setting.now start (L.state line.old) self.old.tally (place_of self.old) }
        ensures serves { (limits : Limits) (start : LineState)
            → IsServing A.Task.answers U.Pipes.Conn.ConnEnd U.Pipes.App.AppEnd U.conn U.began (A.answers calls.old.app.now)
            limits setting.now start (L.state line.old) self.old.tally (place_of self.old)
            → IsServing A.Task.answers U.Pipes.Conn.ConnEnd U.Pipes.App.AppEnd U.conn U.began (A.answers calls.old.app.now)
            limits setting.now start (L.state line.new) self.old.tally (place_of self.new) }
        ensures unread { ReadsNone (L.state line.old) (L.state line.new) }
        ensures next { IsNext (place_of self.new) self.old.tally.turns }
        ensures tally { self.new.tally ≡ self.old.tally }
        ensures called { length calls.new.scopes.items ≡ length calls.old.scopes.items + begun_at (place_of self.new) }
        ensures same { calls.new.app.now ≡ calls.old.app.now }
    {
        match self.half.wire.requests.next() {
            Err(_) => self.end_with(Outcome::NoMemory),
            Ok(Next::Need) => self.wait(),
            Ok(Next::Bad(status)) => {
                let outcome = refuse(status, line);
                self.end_with(outcome);
            }
            Ok(Next::Head(scope, facts)) => {
                let Ok(scope) = scope_of(self.half.wire.alloc, scope, setting) else {
                    return self.end_with(Outcome::NoMemory);
                };
                if let Framing::Upgrade = facts.framing {
                    return self.open(scope, facts, calls, line, runner);
                }
                self.answer(scope, facts, calls, line, runner);
            }
            Ok(Next::Event(_)) => unreachable!(),
            Ok(Next::Whole) => unreachable!(),
        }
    }

    /// Stays where it is if more bytes are needed, or goes to its end at the end of the input or at a limit on turns.
    pub(crate) fn wait(&mut self)
        requires between { IsBetween (place_of self.old) }
        requires waits { IsWaiting self.old.half.wire.requests }
        ensures waits { (limits : Limits) (start now : LineState) (read : List ℕ) (given : List Next) (exchanges : List ExchangeRecord) (after written : List ℕ)
            → BetweenRequests limits start now self.old.half.wire read given exchanges after written → AllGiven self.old.half.wire.requests read given
            → IsAtRest (place_of self.new) limits start now read exchanges written }
        ensures next { IsNext (place_of self.new) self.old.tally.turns }
        ensures free { IsFree (place_of self.new) }
        ensures tally { self.new.tally ≡ self.old.tally }
    {
        if self.half.wire.input.has_ended() {
            let outcome = at_end(&self.half.wire);
            return self.end_with(outcome);
        }
        if self.tally.turns.is_over() {
            return self.end_with(Outcome::Idle);
        }
    }
}

/// The scope with what the connection knows, in memory of its own.
fn scope_of(alloc: Global, scope: Scope, setting: &Setting<'_>) -> Result<Scope, AllocError>
    ensures { IfOk result (λ whole. whole ≡ scope_in setting.now scope) }
{
    let ConnInfo {
        client,
        server,
        state,
    } = known_of(alloc, setting.client, setting.server, setting.state)?;
    Ok(scope.with(client, server, state))
}

/// What the connection knows besides a request.
#[derive(Drop)]
struct ConnInfo {
    client: Option<Peer>,
    server: Option<Peer>,
    state: State,
}

/// Copies what the connection knows, apart from the scope, so that only one refusal of memory drops the scope.
fn known_of(
    alloc: Global,
    client: &Option<Peer>,
    server: &Option<Peer>,
    state: &State,
) -> Result<ConnInfo, AllocError>
    ensures { IfOk result (λ known. (known.client ≡ client.now) × (known.server ≡ server.now) × (known.state ≡ state.now)) }
{
    let client = copy_of(client, alloc)?;
    let server = copy_of(server, alloc)?;
    let state = state.copy(alloc)?;
    Ok(ConnInfo {
        client,
        server,
        state,
    })
}

fn copy_of(peer: &Option<Peer>, alloc: Global) -> Result<Option<Peer>, AllocError>
    ensures { IfOk result (λ copied. copied ≡ peer.now) }
{
    match peer {
        None => Ok(None),
        Some(peer) => Ok(Some(peer.copy(alloc)?)),
    }
}

/// How the connection ends at the end of the input, if nothing is due.
fn at_end(wire: &Wire) -> Outcome
    requires { has_ended wire.now.input ≡ true }
    ensures ends { (limits : Limits) (start now : LineState) (read : List ℕ) (given : List Next) (exchanges : List ExchangeRecord) (after written : List ℕ)
        → BetweenRequests limits start now wire.now read given exchanges after written → AllGiven wire.now.requests read given
        → EndsSo limits start now read exchanges written result }
    ensures not_idle { result ≢ Outcome.Idle }
{
    match wire.input {
        InputEnd::Open => unreachable!(),
        InputEnd::Failed => Outcome::InputBroke,
        InputEnd::AtEnd => {
            if is_blank(wire.requests.held()) {
                Outcome::Finished
            } else {
                Outcome::InputBroke
            }
        }
    }
}

/// Whether the bytes are only empty lines.
fn is_blank(bytes: &[u8]) -> bool
    ensures { IsTrue result ↔ IsBlank bytes.now }
{
    bytes.iter().all(|b| *b == b'\r' || *b == b'\n')
}

/// Writes the text of a refusal. Returns how the connection ends with it.
fn refuse<L: Line>(status: u16, line: &mut L) -> Outcome
    requires { IsTrue (is_refusal status) }
    ensures refuses { (limits : Limits) (start : LineState) (wire : Wire) (read : List ℕ) (given : List Next) (exchanges : List ExchangeRecord) (after written : List ℕ)
        → BetweenRequests limits start (L.state line.old) wire read given exchanges after written → RefusesWith limits after status
        → (text : List ℕ) × EndsSo limits start (L.state line.new) read exchanges (written ++ text) result }
    ensures unread { ReadsNone (L.state line.old) (L.state line.new) }
    ensures not_idle { result ≢ Outcome.Idle }
{
    match write(line, refusal_text(status)) {
        None => Outcome::Refused(status),
        Some(n) => Outcome::WriteFailed(n),
    }
}
