//! Laws of whole conversations, over HTTP alone or to the end of a session, each the contract of a
//! function that does nothing.
ghost use Rattle.std.specs.Prelude.{◌≡◌, ◌⊎◌, List, ℕ};
ghost use Rattle.asgi_types.specs.declared.limits.Limits.{Limits};
ghost use Rattle.asgi_conversation.specs.declared.input.InputEnd.{InputEnd};
ghost use Rattle.asgi_conversation.specs.declared.report.Report.{Report};
ghost use Rattle.asgi_conversation.specs.Conversation.{Conversation};
ghost use Rattle.asgi_conversation.specs.ExchangeRecord.{ExchangeRecord};
ghost use Rattle.asgi_conversation.specs.Kinds.{Converses};
ghost use Rattle.asgi_conversation.specs.PromisedWhole.{ConversesWith, ConversesInSessionWith, ConversationWith, ws_echo_promise};
ghost use Rattle.asgi_conversation.specs.Sessions.{SessionTraffic, no_traffic};
ghost use Rattle.asgi_conversation.specs.Kinds.{ConversesInSession};

/// A conversation is one over HTTP alone, in which the line carried no message, or one to the end
/// of a session; and each of these is a conversation.
pub fn a_conversation_is_over_http_or_in_a_session()
    ensures over_http { (limits : Limits) (end : InputEnd) (read : List ℕ) (exchanges : List ExchangeRecord) (traffic : SessionTraffic) (written : List ℕ) (report : Report)
        → Converses limits end read exchanges written report × (traffic ≡ no_traffic) → Conversation limits end read exchanges traffic written report }
    ensures in_session { (limits : Limits) (end : InputEnd) (read : List ℕ) (exchanges : List ExchangeRecord) (traffic : SessionTraffic) (written : List ℕ) (report : Report)
        → ConversesInSession limits end read exchanges traffic written report → Conversation limits end read exchanges traffic written report }
    ensures either { (limits : Limits) (end : InputEnd) (read : List ℕ) (exchanges : List ExchangeRecord) (traffic : SessionTraffic) (written : List ℕ) (report : Report)
        → Conversation limits end read exchanges traffic written report
        → (Converses limits end read exchanges written report × (traffic ≡ no_traffic)) ⊎ ConversesInSession limits end read exchanges traffic written report }
{}

/// One list of bytes read has one kind of conversation with `WsEcho`, over HTTP alone or to the end
/// of a session, however reading ended. What is written and how many exchanges there are is one
/// function of the bytes read; what is handed over, of these and the messages received; and the
/// outcome, of these and, over HTTP alone, how reading ended. No outcome cut the connection short,
/// and no exchange faulted.
pub fn same_input_is_answered_alike()
    ensures not_both { (limits : Limits) (end late : InputEnd) (read : List ℕ) (exchanges others : List ExchangeRecord) (traffic : SessionTraffic) (written other : List ℕ) (report another : Report)
        → ConversesWith ws_echo_promise limits end read exchanges written report → ¬ (ConversesInSessionWith ws_echo_promise limits late read others traffic other another) }
    ensures kind { (limits : Limits) (end late : InputEnd) (read : List ℕ) (exchanges others : List ExchangeRecord) (traffic other_traffic : SessionTraffic) (written other : List ℕ) (report another : Report)
        → ConversationWith ws_echo_promise limits end read exchanges traffic written report → ConversationWith ws_echo_promise limits late read others other_traffic other another
        → (ConversesWith ws_echo_promise limits end read exchanges written report × ConversesWith ws_echo_promise limits late read others other another
        × (traffic ≡ no_traffic) × (other_traffic ≡ no_traffic))
        ⊎ (ConversesInSessionWith ws_echo_promise limits end read exchanges traffic written report × ConversesInSessionWith ws_echo_promise limits late read others other_traffic other another) }
    ensures text { (limits : Limits) (end late : InputEnd) (read : List ℕ) (exchanges others : List ExchangeRecord) (traffic other_traffic : SessionTraffic) (written other : List ℕ) (report another : Report)
        → ConversationWith ws_echo_promise limits end read exchanges traffic written report → ConversationWith ws_echo_promise limits late read others other_traffic other another
        → (written ≡ other) × (report.exchanges ≡ another.exchanges) }
    ensures messages { (limits : Limits) (end late : InputEnd) (read : List ℕ) (exchanges others : List ExchangeRecord) (traffic other_traffic : SessionTraffic) (written other : List ℕ) (report another : Report)
        → ConversationWith ws_echo_promise limits end read exchanges traffic written report → ConversationWith ws_echo_promise limits late read others other_traffic other another
        → traffic.received ≡ other_traffic.received → traffic.handed ≡ other_traffic.handed }
    // over HTTP alone the outcome tells how reading ended
    ensures outcome { (limits : Limits) (end : InputEnd) (read : List ℕ) (exchanges others : List ExchangeRecord) (traffic other_traffic : SessionTraffic) (written other : List ℕ) (report another : Report)
        → ConversationWith ws_echo_promise limits end read exchanges traffic written report → ConversationWith ws_echo_promise limits end read others other_traffic other another
        → traffic.received ≡ other_traffic.received → report.outcome ≡ another.outcome }
    // to the end of a session it does not
    ensures session_outcome { (limits : Limits) (end late : InputEnd) (read : List ℕ) (exchanges others : List ExchangeRecord) (traffic other_traffic : SessionTraffic) (written other : List ℕ) (report another : Report)
        → ConversesInSessionWith ws_echo_promise limits end read exchanges traffic written report → ConversationWith ws_echo_promise limits late read others other_traffic other another
        → traffic.received ≡ other_traffic.received → report.outcome ≡ another.outcome }
{}
