//! Laws of what applications answer over one connection, each the contract of a function with an empty body.
ghost use Rattle.std.specs.Prelude.{◌≡◌, ◌++◌, [], List, ℕ, Option, Some, false, IsTrue};
ghost use mathlib.Core.List.{IsPrefix};
ghost use Rattle.asgi_types.specs.declared.end_kind.EndKind.TheVariants.{Returned};
ghost use Rattle.asgi_types.specs.declared.incoming.Incoming.{Incoming};
ghost use Rattle.asgi_types.specs.declared.limits.Limits.{Limits};
ghost use Rattle.asgi_types.specs.declared.scope.Kind.TheVariants.{Http};
ghost use Rattle.asgi_types.specs.declared.scope.Peer.{Peer};
ghost use Rattle.asgi_types.specs.declared.state.StateValue.{StateValue};
ghost use Rattle.asgi_protocol.specs.Lawful.{IsClosed};
ghost use Rattle.asgi_request.specs.ChunkedBody.{BodyState};
ghost use Rattle.asgi_request.specs.Opened.{BeginsWith};
ghost use Rattle.asgi_request.specs.RequestEvents.{ReadsBody};
ghost use Rattle.asgi_response.specs.Exchange.{refusal_text};
ghost use Rattle.asgi_response.specs.ReadBack.{IsReadAs};
ghost use Rattle.asgi_response.specs.Refusals.{is_refusal};
ghost use Rattle.asgi_apps.specs.Echo.{echo_events};
ghost use Rattle.asgi_conversation.specs.declared.report.Report.{Report};
ghost use Rattle.asgi_conversation.specs.Exchanges.{ServesFirst, AreAnswered, answer_texts};
ghost use Rattle.asgi_conversation.specs.ExchangeRecord.{ExchangeRecord};
ghost use Rattle.asgi_conversation.specs.Kinds.{Converses};
ghost use Rattle.asgi_conversation.specs.Promised.{IsPromised};
ghost use Rattle.asgi_conversation.specs.PromisedWhole.{ConversesWith, ConversesInSessionWith, echo_promise, hello_promise, ws_echo_promise};
ghost use Rattle.asgi_conversation.specs.Sessions.{SessionTraffic};
ghost use Rattle.asgi_conversation.specs.ReadResponses.{ReadsAnswer, AreRead, AllCanBeSent, refusal_fields};
ghost use Rattle.asgi_conversation.specs.declared.input.InputEnd.{InputEnd};
ghost use Rattle.asgi_conversation.specs.OutcomeClasses.{is_cut};

/// `Echo` sends back all of the body that came, event by event, if its task returned and the connection
/// was not cut short.
pub fn echo_says_the_body_back()
    ensures { (limits : Limits) (end : InputEnd) (bytes : List ℕ) (x : ExchangeRecord) (body : BodyState) (client server : Option Peer) (state : List (List ℕ × StateValue))
        (arrived : List ℕ) (events : List Incoming)
        → ServesFirst limits end false bytes x body → IsPromised echo_promise client server state x → x.ended ≡ Some Returned
        → BeginsWith limits bytes x.scope x.facts arrived → ReadsBody limits x.facts.framing arrived events body → x.said ≡ echo_events events }
{}

/// What `Echo`, `Hello` and, over HTTP, `WsEcho` have written, how the connection ended and how many
/// exchanges it had are one function of the bytes read and of how reading ended, if no outcome cut the
/// connection short and no exchange faulted.
pub fn answers_are_one()
    ensures echo { (limits : Limits) (end : InputEnd) (read : List ℕ) (exchanges others : List ExchangeRecord) (written other : List ℕ) (report another : Report)
        → ConversesWith echo_promise limits end read exchanges written report → ConversesWith echo_promise limits end read others other another
        → (written ≡ other) × (report.outcome ≡ another.outcome) × (report.exchanges ≡ another.exchanges) }
    ensures hello { (limits : Limits) (end : InputEnd) (read : List ℕ) (exchanges others : List ExchangeRecord) (written other : List ℕ) (report another : Report)
        → ConversesWith hello_promise limits end read exchanges written report → ConversesWith hello_promise limits end read others other another
        → (written ≡ other) × (report.outcome ≡ another.outcome) × (report.exchanges ≡ another.exchanges) }
    ensures ws_echo { (limits : Limits) (end : InputEnd) (read : List ℕ) (exchanges others : List ExchangeRecord) (written other : List ℕ) (report another : Report)
        → ConversesWith ws_echo_promise limits end read exchanges written report → ConversesWith ws_echo_promise limits end read others other another
        → (written ≡ other) × (report.outcome ≡ another.outcome) × (report.exchanges ≡ another.exchanges) }
{}

/// However reading ended after the same bytes, they have written the same: only the outcome differs.
pub fn same_bytes_are_answered_alike()
    ensures echo { (limits : Limits) (end late : InputEnd) (read : List ℕ) (exchanges others : List ExchangeRecord) (written other : List ℕ) (report another : Report)
        → ConversesWith echo_promise limits end read exchanges written report → ConversesWith echo_promise limits late read others other another → written ≡ other }
    ensures hello { (limits : Limits) (end late : InputEnd) (read : List ℕ) (exchanges others : List ExchangeRecord) (written other : List ℕ) (report another : Report)
        → ConversesWith hello_promise limits end read exchanges written report → ConversesWith hello_promise limits late read others other another → written ≡ other }
    ensures ws_echo { (limits : Limits) (end late : InputEnd) (read : List ℕ) (exchanges others : List ExchangeRecord) (written other : List ℕ) (report another : Report)
        → ConversesWith ws_echo_promise limits end read exchanges written report → ConversesWith ws_echo_promise limits late read others other another → written ≡ other }
    // the same if it came to a session: the text before the messages
    ensures session { (limits : Limits) (end late : InputEnd) (read : List ℕ) (exchanges others : List ExchangeRecord) (traffic other_traffic : SessionTraffic) (written other : List ℕ) (report another : Report)
        → ConversesInSessionWith ws_echo_promise limits end read exchanges traffic written report → ConversesInSessionWith ws_echo_promise limits late read others other_traffic other another
        → (written ≡ other) × (report.exchanges ≡ another.exchanges) }
{}

/// What they have written for a prefix of the input is a prefix of what they write for the whole, however
/// reading ended after the prefix: what was answered stays answered.
pub fn answers_to_a_front_come_first()
    ensures echo { (limits : Limits) (early late : InputEnd) (read more : List ℕ) (exchanges others : List ExchangeRecord) (written other : List ℕ) (report another : Report)
        → ConversesWith echo_promise limits early read exchanges written report → ConversesWith echo_promise limits late (read ++ more) others other another
        → IsPrefix written other }
    ensures hello { (limits : Limits) (early late : InputEnd) (read more : List ℕ) (exchanges others : List ExchangeRecord) (written other : List ℕ) (report another : Report)
        → ConversesWith hello_promise limits early read exchanges written report → ConversesWith hello_promise limits late (read ++ more) others other another
        → IsPrefix written other }
    ensures ws_echo { (limits : Limits) (early late : InputEnd) (read more : List ℕ) (exchanges others : List ExchangeRecord) (written other : List ℕ) (report another : Report)
        → ConversesWith ws_echo_promise limits early read exchanges written report → ConversesWith ws_echo_promise limits late (read ++ more) others other another
        → IsPrefix written other }
{}

/// Whatever the application is, the responses of a connection are read back one after another, each with
/// its own status, its own fields, the bytes of its own bodies and the trailer fields that it sends: no
/// body and no trailer can be taken for a head, nor for the end of another (RFC 9112, sections 6.3 and
/// 7.1.2). This needs fields as each `Headers` has them, bodies whose size fits 64 bits, and a recipient
/// that knows which request was HEAD.
pub fn responses_are_read_back()
    ensures answered { (limits : Limits) (end : InputEnd) (read : List ℕ) (exchanges : List ExchangeRecord) (after more : List ℕ)
        → AreAnswered limits end read exchanges after → AllCanBeSent exchanges → AreRead (answer_texts exchanges ++ more) exchanges more }
    ensures conversation { (limits : Limits) (end : InputEnd) (read : List ℕ) (exchanges : List ExchangeRecord) (written : List ℕ) (report : Report)
        → (c : Converses limits end read exchanges written report) → AllCanBeSent exchanges → AreRead written c.answered c.text }
    // the last one, if it is complete and the connection was not cut short
    ensures last { (limits : Limits) (end : InputEnd) (read : List ℕ) (exchanges : List ExchangeRecord) (written : List ℕ) (report : Report)
        → (c : Converses limits end read exchanges written report) → AllCanBeSent exchanges → is_cut report.outcome ≡ false
        → (x : ExchangeRecord) → c.last ≡ Some x → IsClosed Http x.said → ReadsAnswer c.text x [] }
{}

/// The text of a refusal is read back as its status and its own fields, whatever comes after it.
pub fn refusals_are_read_back()
    ensures { (status : ℕ) (more : List ℕ) → IsTrue (is_refusal status) → IsReadAs (refusal_text status ++ more) status (refusal_fields status) more }
{}
