//! The calls of a session, which only clauses read.
ghost use Rattle.std.specs.Prelude.{◌≡◌, [], ◌∷◌, ◌++◌, true, false};
ghost use Rattle.asgi_ws.specs.declared.messages.Call.TheVariants as call;
ghost use Rattle.asgi_ws.specs.declared.messages.Put.{Put};
ghost use Rattle.asgi_ws.specs.declared.messages.SentMessage.TheVariants as item;
ghost use Rattle.asgi_ws.specs.Sessions.{is_read, is_payload, with_answer};
ghost use Rattle.asgi_ws.specs.private.Sending.{calls_by};

use crate::messages::{Call, Got, Put, SentMessage};
use asgi_io::History;
use asgi_types::Payload;

/// Records the result of a read of a message, and returns it.
pub fn note_read(calls: &mut History<Call>, answer: Got) -> Got
    ensures answer { result ≡ answer }
    ensures told { calls.new.items ≡ calls.old.items ++ call.Read answer ∷ [] }
{
    let read = Call::Read(answer);
    *calls = History::with(calls, &read);
    answer_of(read)
}

/// Records an item to send and the result, and returns the item.
pub fn note_send(calls: &mut History<Call>, item: SentMessage, answer: Put) -> SentMessage
    ensures item { result ≡ item }
    ensures told { calls.new.items ≡ calls.old.items ++ call.Send item answer ∷ [] }
{
    let send = Call::Send(item, answer);
    *calls = History::with(calls, &send);
    item_of(send)
}

/// The calls after a send, for each result that it may have. Zero-sized.
#[derive(Drop)]
pub struct Sending {
    /// With the result `Done`.
    pub done: History<Call>,
    /// With the result `Failed`.
    pub failed: History<Call>,
    /// With the result `NoMemory`.
    pub no_memory: History<Call>,
}

impl Sending {
    /// Records a payload about to be sent after the calls so far, and returns it.
    pub fn of(calls: &History<Call>, payload: Payload) -> (Sending, Payload)
        ensures told { (answer : Put) → calls_by result.0 answer ≡ calls.now.items ++ call.Send (item.Payload payload) answer ∷ [] }
        ensures payload { result.1 ≡ payload }
    {
        let mut send = Call::Send(SentMessage::Payload(payload), Put::Done);
        let done = History::with(calls, &send);
        answer(&mut send, Put::Failed);
        let failed = History::with(calls, &send);
        answer(&mut send, Put::NoMemory);
        let no_memory = History::with(calls, &send);
        let sending = Sending {
            done,
            failed,
            no_memory,
        };
        (sending, payload_of(send))
    }

    /// The calls with the send, which has this result.
    pub fn answered(self, answer: Put) -> History<Call>
        ensures { result.items ≡ calls_by self answer }
    {
        let Sending {
            done,
            failed,
            no_memory,
        } = self;
        match answer {
            Put::Done => done,
            Put::Failed => failed,
            Put::NoMemory => no_memory,
        }
    }
}

fn answer(call: &mut Call, answer: Put)
    ensures { call.new ≡ with_answer call.old answer }
{
    match call {
        Call::Send(_, old) => *old = answer,
        Call::Read(_) => {}
    }
}

fn payload_of(send: Call) -> Payload
    requires { is_payload send ≡ true }
    ensures { (answer : Put) × (send ≡ call.Send (item.Payload result) answer) }
{
    match send {
        Call::Send(SentMessage::Payload(payload), _) => payload,
        _ => unreachable!(),
    }
}

fn answer_of(read: Call) -> Got
    requires { is_read read ≡ true }
    ensures { read ≡ call.Read result }
{
    match read {
        Call::Read(answer) => answer,
        Call::Send(_, _) => unreachable!(),
    }
}

fn item_of(send: Call) -> SentMessage
    requires { is_read send ≡ false }
    ensures { (answer : Put) × (send ≡ call.Send result answer) }
{
    match send {
        Call::Send(item, _) => item,
        Call::Read(_) => unreachable!(),
    }
}
