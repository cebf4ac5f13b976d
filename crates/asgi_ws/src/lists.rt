//! The lists of a line in memory: the messages that were read, and what was sent.
ghost use Rattle.std.specs.Prelude.{◌≡◌, ◌<◌, ◌++◌, ◌∷◌, [], Some, None, false, OnOk, OnErr};
ghost use Rattle.std.specs.Vec.{vec_len, vec_capacity};
ghost use Rattle.asgi_ws.specs.declared.messages.Got.TheVariants as got;
ghost use Rattle.asgi_ws.specs.declared.messages.Put.TheVariants as put;
ghost use Rattle.asgi_ws.specs.declared.messages.Call.TheVariants as call;
ghost use Rattle.asgi_ws.specs.Scripts.{messages_of, first_message, is_left, one_less};
ghost use Rattle.asgi_ws.specs.Sessions.{given_by, messages_in, handed_in, EndsAt};

use crate::calls::{note_read, note_send};
use crate::messages::{Call, Got, Msg, Put, SentMessage};
use asgi_io::History;
use std::alloc::{AllocError, Global};
use std::collections::VecDeque;

/// What one read of a message returns.
#[derive(Debug, Drop)]
pub enum ScriptRead {
    /// This message.
    Message(Msg),
    /// Nothing yet.
    Idle,
    /// The read fails.
    Fault,
}

/// The record of a session: each call, the messages that were read, and what was sent.
#[derive(Drop)]
pub struct Lists {
    /// Each call, the oldest first.
    pub calls: History<Call>,
    /// The messages that were read, the oldest first.
    pub received: Vec<Msg>,
    /// What was sent, the oldest first.
    pub handed: Vec<SentMessage>,
    // How many sends succeed; None: all.
    pub left: Option<u64>,
    ghost read: { received.items ≡ messages_in calls.items },
    ghost sent: { handed.items ≡ handed_in calls.items },
}

impl Lists {
    /// An empty record; each send succeeds. Allocates nothing.
    pub fn new(alloc: Global) -> Self
        ensures { (result.calls.items ≡ []) × (result.left ≡ None) }
    {
        Lists {
            calls: History::new(),
            received: Vec::new(alloc),
            handed: Vec::new(alloc),
            left: None,
        }
    }

    /// Takes the next scripted read, and records its message: `Ended` if none is left, and
    /// `NoMemory` if memory for the record is refused, when the scripted read stays.
    pub fn next(&mut self, alloc: Global, turns: &mut VecDeque<ScriptRead>) -> Got
        ensures told { self.new.calls.items ≡ self.old.calls.items ++ call.Read result ∷ [] }
        ensures gives { messages_of turns.old.items ≡ given_by result ++ messages_of turns.new.items }
        ensures ends { EndsAt result (Some (messages_of turns.new.items)) }
    {
        let answer = next_turn(alloc, turns, &mut self.received);
        note_read(&mut self.calls, answer)
    }

    /// A read that fails, whatever the script contains.
    pub fn fail(&mut self) -> Got
        ensures answer { result ≡ got.Failed }
        ensures told { self.new.calls.items ≡ self.old.calls.items ++ call.Read got.Failed ∷ [] }
    {
        note_read(&mut self.calls, Got::Failed)
    }

    /// Sends an item: `Failed` if the line is not open or all successful sends were made,
    /// `NoMemory` if memory to record it is refused. The item goes out only with `Done`.
    pub fn hand_over(&mut self, is_open: bool, item: SentMessage) -> Put
        ensures told { self.new.calls.items ≡ self.old.calls.items ++ call.Send item result ∷ [] }
        ensures shut { is_open ≡ false → result ≡ put.Failed }
    {
        let answer = answer_to(is_open, &mut self.left, &mut self.handed);
        let item = note_send(&mut self.calls, item, answer);
        match answer {
            Put::Done => match self.handed.push(item) {
                Ok(()) => {}
                Err(_) => unreachable!(),
            },
            Put::Failed => {}
            Put::NoMemory => {}
        }
        answer
    }
}

/// The next scripted read, whose message is recorded.
fn next_turn(alloc: Global, turns: &mut VecDeque<ScriptRead>, received: &mut Vec<Msg>) -> Got
    ensures gives { messages_of turns.old.items ≡ given_by result ++ messages_of turns.new.items }
    ensures keeps { received.new.items ≡ received.old.items ++ given_by result }
    ensures ends { EndsAt result (Some (messages_of turns.new.items)) }
{
    if keep_next(alloc, turns, received).is_err() {
        return Got::NoMemory;
    }
    match turns.pop_front() {
        None => Got::Ended,
        Some(ScriptRead::Message(message)) => Got::Message(message),
        Some(ScriptRead::Idle) => Got::Idle,
        Some(ScriptRead::Fault) => Got::Failed,
    }
}

/// Records the message of the next scripted read, in memory of its own.
fn keep_next(
    alloc: Global,
    turns: &VecDeque<ScriptRead>,
    received: &mut Vec<Msg>,
) -> Result<(), AllocError>
    ensures ok { OnOk result (received.new.items ≡ received.old.items ++ first_message turns.now.items) }
    ensures err { OnErr result (received.new.items ≡ received.old.items) }
{
    match turns.front() {
        Some(ScriptRead::Message(message)) => {
            let kept = message.copy(alloc)?;
            received.push(kept)?;
            Ok(())
        }
        Some(ScriptRead::Idle) => Ok(()),
        Some(ScriptRead::Fault) => Ok(()),
        None => Ok(()),
    }
}

/// The result of a send, with room reserved for the item.
fn answer_to(is_open: bool, left: &mut Option<u64>, items: &mut Vec<SentMessage>) -> Put
    ensures room { result ≡ put.Done → vec_len items.new < vec_capacity items.new }
    ensures shut { is_open ≡ false → result ≡ put.Failed }
    ensures spent { is_left left.old ≡ false → result ≡ put.Failed }
    ensures items { items.new.items ≡ items.old.items }
{
    if !is_open || !is_allowed(left) {
        return Put::Failed;
    }
    match make_room(items) {
        Ok(()) => Put::Done,
        Err(_) => Put::NoMemory,
    }
}

/// Reserves room for one more.
fn make_room(items: &mut Vec<SentMessage>) -> Result<(), AllocError>
    ensures room { OnOk result (vec_len items.new < vec_capacity items.new) }
    ensures items { items.new.items ≡ items.old.items }
{
    items.reserve(1)
}

/// Whether one more call succeeds, which is then counted. `left` is how many do; None: all.
pub fn is_allowed(left: &mut Option<u64>) -> bool
    ensures answer { result ≡ is_left left.old }
    ensures counted { left.new ≡ one_less left.old }
{
    match left {
        None => true,
        Some(n) => {
            if *n == 0 {
                return false;
            }
            *n -= 1;
            true
        }
    }
}
