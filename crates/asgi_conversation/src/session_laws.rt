//! Laws of what `WsEcho` answers in a session, each the contract of a function with an empty body.
ghost use Rattle.std.specs.Prelude.{◌≡◌, ◌++◌, [], List, ℕ, Option, None, All, if◌then◌else◌};
ghost use mathlib.Core.List.{IsPrefix};
ghost use Rattle.asgi_types.specs.declared.limits.Limits.{Limits};
ghost use Rattle.asgi_types.specs.declared.scope.Peer.{Peer};
ghost use Rattle.asgi_types.specs.declared.state.StateValue.{StateValue};
ghost use Rattle.asgi_exchange.specs.Messages.{has_close};
ghost use Rattle.asgi_apps.specs.Answers.{not_found_events};
ghost use Rattle.asgi_conversation.specs.declared.input.InputEnd.{InputEnd};
ghost use Rattle.asgi_conversation.specs.declared.report.Outcome.TheVariants.{Finished, InputBroke};
ghost use Rattle.asgi_conversation.specs.declared.report.Report.{Report};
ghost use Rattle.asgi_conversation.specs.Exchanges.{answer_texts};
ghost use Rattle.asgi_conversation.specs.ExchangeRecord.{ExchangeRecord};
ghost use Rattle.asgi_conversation.specs.Promised.{ArePromised};
ghost use Rattle.asgi_conversation.specs.PromisedWhole.{ConversesInSessionWith, ws_echo_promise};
ghost use Rattle.asgi_conversation.specs.SessionEcho.{payloads_in, EchoesUntil};
ghost use Rattle.asgi_conversation.specs.Sessions.{SessionTraffic, handshake_of};
ghost use Rattle.asgi_conversation.specs.Kinds.{ConversesInSession};

/// `WsEcho` accepts each session and sends back the payloads of its messages, each once and in
/// order, and nothing else, until the client closes it. The requests before the handshake are
/// answered with 404.
pub fn ws_echo_sends_the_messages_back()
    // nothing cut the connection short and no task faulted
    ensures whole { (limits : Limits) (end : InputEnd) (read : List ℕ) (exchanges : List ExchangeRecord) (traffic : SessionTraffic) (written : List ℕ) (report : Report)
        → (w : ConversesInSessionWith ws_echo_promise limits end read exchanges traffic written report)
        → (written ≡ answer_texts w.converses.answered ++ handshake_of w.converses.session.facts None []) × (traffic.handed ≡ payloads_in traffic.received)
        × (report.outcome ≡ (if has_close traffic.received then Finished else InputBroke)) }
    // whatever the outcome is
    ensures by_outcome { (limits : Limits) (end : InputEnd) (read : List ℕ) (exchanges : List ExchangeRecord) (traffic : SessionTraffic) (written : List ℕ) (report : Report)
        (client server : Option Peer) (state : List (List ℕ × StateValue))
        → (c : ConversesInSession limits end read exchanges traffic written report) → ArePromised ws_echo_promise client server state exchanges
        → EchoesUntil report.outcome c.serves.frames c.session traffic c.text }
    ensures requests { (limits : Limits) (end : InputEnd) (read : List ℕ) (exchanges : List ExchangeRecord) (traffic : SessionTraffic) (written : List ℕ) (report : Report)
        (client server : Option Peer) (state : List (List ℕ × StateValue))
        → (c : ConversesInSession limits end read exchanges traffic written report) → ArePromised ws_echo_promise client server state exchanges
        → All (λ (x : ExchangeRecord). x.said ≡ not_found_events) c.answered }
{}

/// What `WsEcho` has sent, and how the connection ended, is one function of the messages received,
/// whatever was read before them; and what was sent for the first messages comes first for all of them.
pub fn same_messages_are_answered_alike()
    ensures messages { (limits : Limits) (end late : InputEnd) (read other_read : List ℕ) (exchanges others : List ExchangeRecord) (traffic other_traffic : SessionTraffic) (written other : List ℕ) (report another : Report)
        → ConversesInSessionWith ws_echo_promise limits end read exchanges traffic written report → ConversesInSessionWith ws_echo_promise limits late other_read others other_traffic other another
        → traffic.received ≡ other_traffic.received → (traffic.handed ≡ other_traffic.handed) × (report.outcome ≡ another.outcome) }
    ensures front { (limits : Limits) (early late : InputEnd) (read other_read : List ℕ) (exchanges others : List ExchangeRecord) (traffic other_traffic : SessionTraffic) (written other : List ℕ) (report another : Report)
        → ConversesInSessionWith ws_echo_promise limits early read exchanges traffic written report → ConversesInSessionWith ws_echo_promise limits late other_read others other_traffic other another
        → IsPrefix traffic.received other_traffic.received → IsPrefix traffic.handed other_traffic.handed }
{}
