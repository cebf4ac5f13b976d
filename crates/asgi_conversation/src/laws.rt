//! Laws of the definitions, each the contract of a function with an empty body.
ghost use Rattle.std.specs.Prelude.{◌≡◌, ◌≢◌, ◌<◌, ◌⊎◌, ◌++◌, ◌∷◌, [], map, length, take, List, ℕ, true, false, Some};
ghost use mathlib.Core.List.{IsPrefix};
ghost use Rattle.asgi_types.specs.declared.end_kind.EndKind.{EndKind};
ghost use Rattle.asgi_types.specs.declared.facts.Facts.{Facts};
ghost use Rattle.asgi_types.specs.declared.facts.Framing.{Framing};
ghost use Rattle.asgi_types.specs.declared.incoming.Incoming.{Incoming};
ghost use Rattle.asgi_types.specs.declared.limits.Limits.{Limits};
ghost use Rattle.asgi_types.specs.declared.outgoing.Outgoing.{Outgoing};
ghost use Rattle.asgi_types.specs.declared.scope.Scope.{Scope};
ghost use Rattle.asgi_request.specs.ChunkedBody.{BodyState};
ghost use Rattle.asgi_request.specs.declared.next.Next.{Next};
ghost use Rattle.asgi_request.specs.declared.place.Place.{Place};
ghost use Rattle.asgi_request.specs.Reading.{Reading, StandsFor, AllGiven};
ghost use Rattle.asgi_request.specs.RequestEvents.{ReadsBody};
ghost use Rattle.asgi_request.specs.Results.{GivesResults};
ghost use Rattle.asgi_response.specs.declared.progress.Progress.{Progress};
ghost use Rattle.asgi_response.specs.Exchange.{refusal_text};
ghost use Rattle.asgi_response.specs.Progress.{progress_of};
ghost use Rattle.asgi_response.specs.Response.{response_text};
ghost use Rattle.asgi_exchange.specs.ExchangeTexts.{input_of};
ghost use Rattle.asgi_exchange.specs.HttpExchange.{IsHttpExchange};
ghost use Rattle.asgi_exchange.specs.Items.{end_of};
ghost use Rattle.asgi_exchange.specs.Steps.{is_by_input};
ghost use Rattle.asgi_exchange.specs.Views.{World, taken_of};
ghost use Rattle.asgi_conversation.specs.declared.report.Outcome.{Outcome};
ghost use Rattle.asgi_conversation.specs.declared.report.Report.{Report};
ghost use Rattle.asgi_conversation.specs.After.{NothingIsDue, RequestIsDue, IsBlank};
ghost use Rattle.asgi_conversation.specs.Exchanges.{IsFollowed, out_text, requests_of};
ghost use Rattle.asgi_conversation.specs.ExchangeRecord.{ExchangeRecord};
ghost use Rattle.asgi_conversation.specs.Persistence.{CountsExchanges, EndsBetween, EndsWithin, StopsWithin};
ghost use Rattle.asgi_conversation.specs.Kinds.{Converses};
ghost use Rattle.asgi_conversation.specs.Exchanges.{heads_of};
ghost use Rattle.asgi_conversation.specs.SoFar.{SoFar, InOne, Between, Within, exchanged, TaskIsOver, HasBroken, HasBrokenIn, IsCutBy, IsOut, IsLast, ConversesLast};
ghost use Rattle.asgi_conversation.specs.declared.following.NextStep.TheVariants.{NextRequest, ConnectionEnds};
ghost use Rattle.asgi_conversation.specs.declared.input.InputEnd.{InputEnd};
ghost use Rattle.asgi_conversation.specs.declared.input.InputEnd.TheVariants.{AtEnd, Failed};
ghost use Rattle.asgi_conversation.specs.OutcomeClasses.{Lacking, class_of, is_cut, cuts_exchange, IsLacking};
ghost use Rattle.asgi_conversation.specs.TaskEnds.{has_ended, is_faulty};

pub use crate::answer_laws::{
    answers_are_one, answers_to_a_front_come_first, echo_says_the_body_back,
    refusals_are_read_back, responses_are_read_back, same_bytes_are_answered_alike,
};
pub use crate::conversation_laws::{
    a_conversation_is_over_http_or_in_a_session, same_input_is_answered_alike,
};
pub use crate::session_laws::{same_messages_are_answered_alike, ws_echo_sends_the_messages_back};
pub use asgi_exchange::laws::every_schedule;

/// The bytes read, the end of the input and the exchanges determine what is written and how the
/// connection ended, if it was not cut short; and a next request comes only after a whole one whose
/// response is complete and keeps the connection (RFC 9112, section 9.3).
pub fn conversation_is_one()
    ensures one { (limits : Limits) (end : InputEnd) (read : List ℕ) (exchanges : List ExchangeRecord) (written other : List ℕ) (report another : Report)
        → Converses limits end read exchanges written report → Converses limits end read exchanges other another
        → is_cut report.outcome ≡ false → is_cut another.outcome ≡ false → (written ≡ other) × (report.outcome ≡ another.outcome) }
    ensures follows { (x : ExchangeRecord) (state : BodyState) → IsFollowed x state NextRequest
        → (progress_of x.facts x.said ≡ Progress.Complete false) × ((after : List ℕ) × (state ≡ BodyState.complete after)) }
{}

/// However the connection ends in an exchange, what is written there is a prefix of the text of the exchange.
pub fn what_is_written_is_a_beginning()
    ensures { (outcome : Outcome) (end : InputEnd) (x : ExchangeRecord) (state : BodyState) (text : List ℕ)
        → EndsWithin outcome end x state text → IsPrefix text (out_text x (input_of state)) }
{}

/// The requests of a conversation are the first heads among the results of the bytes read, in order; if
/// nothing is due after those that were answered, they are all.
pub fn requests_are_the_first_heads()
    ensures first { (limits : Limits) (end : InputEnd) (read : List ℕ) (exchanges : List ExchangeRecord) (written : List ℕ) (report : Report) (results : List Next) (rest : List ℕ)
        → Converses limits end read exchanges written report → GivesResults limits read results rest → IsPrefix (requests_of exchanges) (heads_of results) }
    ensures all { (limits : Limits) (end : InputEnd) (read : List ℕ) (exchanges : List ExchangeRecord) (after written : List ℕ) (results : List Next) (rest : List ℕ)
        → SoFar limits end read exchanges after written → NothingIsDue limits after → GivesResults limits read results rest → requests_of exchanges ≡ heads_of results }
{}

/// Between two exchanges: this holds if nothing was read, if more bytes come, and after one more exchange
/// that is followed by the next request.
pub fn exchanges_make_a_conversation_so_far()
    ensures starts { (limits : Limits) (end : InputEnd) → SoFar limits end [] [] [] [] }
    ensures grows { (limits : Limits) (end : InputEnd) (read more : List ℕ) (exchanges : List ExchangeRecord) (after written : List ℕ)
        → SoFar limits end read exchanges after written → SoFar limits end (read ++ more) exchanges (after ++ more) written }
    ensures sees_end { (limits : Limits) (old new : InputEnd) (read : List ℕ) (exchanges : List ExchangeRecord) (after written : List ℕ)
        → (has_ended old ≡ true → has_ended new ≡ true) → SoFar limits old read exchanges after written → SoFar limits new read exchanges after written }
    ensures one_grows { (limits : Limits) (end : InputEnd) (read more : List ℕ) (exchanges : List ExchangeRecord) (written : List ℕ) (scope : Scope) (facts : Facts) (arrived : List ℕ)
        → InOne limits end read exchanges written scope facts arrived → InOne limits end (read ++ more) exchanges written scope facts (arrived ++ more) }
    ensures one_more { (limits : Limits) (end : InputEnd) (read : List ℕ) (exchanges : List ExchangeRecord) (written : List ℕ) (scope : Scope) (facts : Facts)
        (w : World ℕ ℕ) (kind : EndKind) (events : List Incoming) (after : List ℕ)
        → InOne limits end read exchanges written scope facts w.conn.arrived → IsHttpExchange limits facts w → end_of w.conn.got ≡ Some kind
        → ReadsBody limits facts.framing w.conn.arrived events (BodyState.complete after) → HasBroken end w (BodyState.complete after) → IsCutBy false w
        → IsFollowed (exchanged scope facts w) (BodyState.complete after) NextRequest → IsOut facts w (BodyState.complete after)
        → SoFar limits end read (exchanges ++ exchanged scope facts w ∷ []) after (written ++ w.conn.written) }
{}

/// The end makes a conversation: between two requests; in an exchange, by the end of its task; and if the
/// connection was cut short.
pub fn ends_make_a_conversation()
    ensures between { (limits : Limits) (end : InputEnd) (read : List ℕ) (exchanges : List ExchangeRecord) (after written text : List ℕ) (report : Report)
        → SoFar limits end read exchanges after written → EndsBetween report.outcome limits end after text → CountsExchanges report exchanges
        → Converses limits end read exchanges (written ++ text) report }
    ensures by_task { (limits : Limits) (end : InputEnd) (read : List ℕ) (exchanges : List ExchangeRecord) (written : List ℕ) (scope : Scope) (facts : Facts)
        (w : World ℕ ℕ) (kind : EndKind) (events : List Incoming) (state : BodyState) (report : Report)
        → InOne limits end read exchanges written scope facts w.conn.arrived → IsHttpExchange limits facts w → end_of w.conn.got ≡ Some kind
        → ReadsBody limits facts.framing w.conn.arrived events state → HasBroken end w state → IsCutBy false w
        → IsFollowed (exchanged scope facts w) state (ConnectionEnds report.outcome) → IsOut facts w state → is_cut report.outcome ≡ false
        → (report.outcome ≡ Outcome.InputBroke → (has_ended end ≡ true) ⊎ (is_faulty state ≡ true))
        → CountsExchanges report (exchanges ++ exchanged scope facts w ∷ [])
        → ConversesLast limits end read exchanges written scope facts w report }
    ensures cut { (limits : Limits) (end : InputEnd) (read : List ℕ) (exchanges : List ExchangeRecord) (written : List ℕ) (scope : Scope) (facts : Facts)
        (w : World ℕ ℕ) (events : List Incoming) (state : BodyState) (report : Report)
        → InOne limits end read exchanges written scope facts w.conn.arrived → IsHttpExchange limits facts w
        → ReadsBody limits facts.framing w.conn.arrived events state → HasBroken end w state → cuts_exchange report.outcome ≡ true
        → ((n : ℕ) → report.outcome ≡ Outcome.WriteFailed n → StopsWithin n (exchanged scope facts w) (input_of state) w.conn.written)
        → CountsExchanges report (exchanges ++ exchanged scope facts w ∷ [])
        → ConversesLast limits end read exchanges written scope facts w report }
{}

/// What a loop over a reader carries: it begins with nothing, reads more, begins an exchange with the
/// head that the reader gives, and comes to the next one if the request is whole and the response is
/// complete and keeps the connection. The bytes after the requests are those that the reader holds.
pub fn a_reader_leads_from_exchange_to_exchange()
    ensures starts { (limits : Limits) (end : InputEnd) → Between limits end [] [] [] [] [] }
    ensures reads_more { (limits : Limits) (end : InputEnd) (read more : List ℕ) (given : List Next) (exchanges : List ExchangeRecord) (after written : List ℕ)
        → Between limits end read given exchanges after written → Between limits end (read ++ more) given exchanges (after ++ more) written }
    ensures sees_end { (limits : Limits) (old new : InputEnd) (read : List ℕ) (given : List Next) (exchanges : List ExchangeRecord) (after written : List ℕ)
        → (has_ended old ≡ true → has_ended new ≡ true) → Between limits old read given exchanges after written → Between limits new read given exchanges after written }
    ensures begins { (reader : Reading) (end : InputEnd) (read : List ℕ) (given more : List Next) (exchanges : List ExchangeRecord) (after written : List ℕ) (scope : Scope) (facts : Facts)
        → Between reader.limits end read given exchanges after written → StandsFor reader read (given ++ Next.Head scope facts ∷ more) → facts.framing ≢ Framing.Upgrade
        → (arrived : List ℕ) × Within reader.limits end read (given ++ Next.Head scope facts ∷ []) exchanges written scope facts arrived }
    ensures reads_more_within { (limits : Limits) (end : InputEnd) (read more : List ℕ) (opened : List Next) (exchanges : List ExchangeRecord) (written : List ℕ) (scope : Scope) (facts : Facts) (arrived : List ℕ)
        → Within limits end read opened exchanges written scope facts arrived → Within limits end (read ++ more) opened exchanges written scope facts (arrived ++ more) }
    ensures sees_end_within { (limits : Limits) (old new : InputEnd) (read : List ℕ) (opened : List Next) (exchanges : List ExchangeRecord) (written : List ℕ) (scope : Scope) (facts : Facts) (arrived : List ℕ)
        → (has_ended old ≡ true → has_ended new ≡ true)
        → Within limits old read opened exchanges written scope facts arrived → Within limits new read opened exchanges written scope facts arrived }
    ensures keeps_on { (reader : Reading) (end : InputEnd) (read : List ℕ) (opened : List Next) (exchanges : List ExchangeRecord) (written : List ℕ) (scope : Scope) (facts : Facts)
        (w : World ℕ ℕ) (kind : EndKind) (events : List Incoming)
        → Within reader.limits end read opened exchanges written scope facts w.conn.arrived → IsHttpExchange reader.limits facts w → TaskIsOver w kind
        → progress_of facts (taken_of w.conn) ≡ Progress.Complete false → (is_by_input w.conn.broken ≡ true → has_ended end ≡ true)
        → w.conn.written ≡ response_text facts (taken_of w.conn)
        → StandsFor reader read (opened ++ (map Next.Event events ++ Next.Whole ∷ []))
        → (after : List ℕ) × Between reader.limits end read (opened ++ (map Next.Event events ++ Next.Whole ∷ [])) (exchanges ++ exchanged scope facts w ∷ []) after (written ++ w.conn.written) }
    ensures held { (reader : Reading) (end : InputEnd) (read : List ℕ) (given : List Next) (exchanges : List ExchangeRecord) (after written : List ℕ)
        → Between reader.limits end read given exchanges after written → StandsFor reader read given → reader.place ≡ Place.Start → after ≡ reader.held }
{}

/// Between two exchanges a conversation ends by a refusal of the reader, by the end of the input with all
/// results given, by a limit, or by want of memory or of a thread.
pub fn a_reader_ends_a_conversation()
    ensures refused { (reader : Reading) (end : InputEnd) (read : List ℕ) (given : List Next) (exchanges : List ExchangeRecord) (after written : List ℕ) (report : Report) (status : ℕ)
        → Between reader.limits end read given exchanges after written → CountsExchanges report exchanges
        → StandsFor reader read (given ++ Next.Bad status ∷ []) → report.outcome ≡ Outcome.Refused status
        → Converses reader.limits end read exchanges (written ++ refusal_text status) report }
    ensures refusal_unsent { (reader : Reading) (end : InputEnd) (read : List ℕ) (given : List Next) (exchanges : List ExchangeRecord) (after written : List ℕ) (report : Report) (status n : ℕ)
        → Between reader.limits end read given exchanges after written → CountsExchanges report exchanges
        → StandsFor reader read (given ++ Next.Bad status ∷ []) → n < length (refusal_text status) → report.outcome ≡ Outcome.WriteFailed n
        → Converses reader.limits end read exchanges (written ++ take n (refusal_text status)) report }
    ensures finished { (reader : Reading) (end : InputEnd) (read : List ℕ) (given : List Next) (exchanges : List ExchangeRecord) (after written : List ℕ) (report : Report)
        → Between reader.limits end read given exchanges after written → CountsExchanges report exchanges
        → AllGiven reader read given → end ≡ AtEnd → IsBlank after → report.outcome ≡ Outcome.Finished
        → Converses reader.limits end read exchanges written report }
    ensures input_broke { (reader : Reading) (end : InputEnd) (read : List ℕ) (given : List Next) (exchanges : List ExchangeRecord) (after written : List ℕ) (report : Report)
        → Between reader.limits end read given exchanges after written → CountsExchanges report exchanges
        → AllGiven reader read given → (end ≡ Failed) ⊎ ((end ≡ AtEnd) × ¬ (IsBlank after)) → report.outcome ≡ Outcome.InputBroke
        → Converses reader.limits end read exchanges written report }
    ensures idle { (reader : Reading) (end : InputEnd) (read : List ℕ) (given : List Next) (exchanges : List ExchangeRecord) (after written : List ℕ) (report : Report)
        → Between reader.limits end read given exchanges after written → CountsExchanges report exchanges
        → AllGiven reader read given → report.outcome ≡ Outcome.Idle → Converses reader.limits end read exchanges written report }
    ensures lacking { (limits : Limits) (end : InputEnd) (read : List ℕ) (given : List Next) (exchanges : List ExchangeRecord) (after written : List ℕ) (report : Report)
        → Between limits end read given exchanges after written → CountsExchanges report exchanges
        → class_of report.outcome ≡ Lacking → Converses limits end read exchanges written report }
    // memory or a thread was refused when a task was to be begun
    ensures unbegun { (limits : Limits) (end : InputEnd) (read : List ℕ) (given : List Next) (exchanges : List ExchangeRecord) (after written : List ℕ) (report : Report)
        → Between limits end read given exchanges after written → CountsExchanges report exchanges
        → IsLacking report.outcome → RequestIsDue limits after → Converses limits end read exchanges written report }
{}

/// In an exchange whose task returned or faulted: a response that has begun stays as it is, the server
/// answers in place of one that never began, and an input that broke ends the connection.
pub fn a_reader_ends_an_exchange()
    // the response is complete and closes the connection, whatever the body is
    ensures closes { (limits : Limits) (end : InputEnd) (read : List ℕ) (opened : List Next) (exchanges : List ExchangeRecord) (written : List ℕ) (scope : Scope) (facts : Facts) (w : World ℕ ℕ) (report : Report) (kind : EndKind)
        → IsLast limits end read opened exchanges written scope facts w report → TaskIsOver w kind → HasBrokenIn limits end facts w
        → progress_of facts (taken_of w.conn) ≡ Progress.Complete true → w.conn.written ≡ response_text facts (taken_of w.conn) → report.outcome ≡ Outcome.Finished
        → ConversesLast limits end read exchanges written scope facts w report }
    // the response has begun, and the input did not break before
    ensures leaves_off { (limits : Limits) (end : InputEnd) (read : List ℕ) (opened : List Next) (exchanges : List ExchangeRecord) (written : List ℕ) (scope : Scope) (facts : Facts) (w : World ℕ ℕ) (report : Report) (kind : EndKind)
        → IsLast limits end read opened exchanges written scope facts w report → TaskIsOver w kind → is_by_input w.conn.broken ≡ false
        → progress_of facts (taken_of w.conn) ≡ Progress.Begun → w.conn.written ≡ response_text facts (taken_of w.conn) → report.outcome ≡ Outcome.Finished
        → ConversesLast limits end read exchanges written scope facts w report }
    // or the input ended after a whole body
    ensures leaves_off_after { (reader : Reading) (end : InputEnd) (read : List ℕ) (opened : List Next) (exchanges : List ExchangeRecord) (written : List ℕ) (scope : Scope) (facts : Facts) (w : World ℕ ℕ) (report : Report) (kind : EndKind) (events : List Incoming)
        → IsLast reader.limits end read opened exchanges written scope facts w report → TaskIsOver w kind
        → StandsFor reader read (opened ++ (map Next.Event events ++ Next.Whole ∷ [])) → (is_by_input w.conn.broken ≡ true → has_ended end ≡ true)
        → progress_of facts (taken_of w.conn) ≡ Progress.Begun → w.conn.written ≡ response_text facts (taken_of w.conn) → report.outcome ≡ Outcome.Finished
        → ConversesLast reader.limits end read exchanges written scope facts w report }
    // the response has not begun: to a whole request
    ensures fails { (reader : Reading) (end : InputEnd) (read : List ℕ) (opened : List Next) (exchanges : List ExchangeRecord) (written : List ℕ) (scope : Scope) (facts : Facts) (w : World ℕ ℕ) (report : Report) (kind : EndKind) (events : List Incoming)
        → IsLast reader.limits end read opened exchanges written scope facts w report → TaskIsOver w kind
        → StandsFor reader read (opened ++ (map Next.Event events ++ Next.Whole ∷ [])) → (is_by_input w.conn.broken ≡ true → has_ended end ≡ true)
        → progress_of facts (taken_of w.conn) ≡ Progress.Nothing → w.conn.written ≡ response_text facts (taken_of w.conn) ++ refusal_text 500 → report.outcome ≡ Outcome.Refused 500
        → ConversesLast reader.limits end read exchanges written scope facts w report }
    // to one whose body is refused
    ensures refuses_body { (reader : Reading) (end : InputEnd) (read : List ℕ) (opened : List Next) (exchanges : List ExchangeRecord) (written : List ℕ) (scope : Scope) (facts : Facts) (w : World ℕ ℕ) (report : Report) (kind : EndKind) (events : List Incoming) (status : ℕ)
        → IsLast reader.limits end read opened exchanges written scope facts w report → TaskIsOver w kind
        → StandsFor reader read (opened ++ (map Next.Event events ++ Next.Bad status ∷ []))
        → progress_of facts (taken_of w.conn) ≡ Progress.Nothing → w.conn.written ≡ response_text facts (taken_of w.conn) ++ refusal_text status → report.outcome ≡ Outcome.Refused status
        → ConversesLast reader.limits end read exchanges written scope facts w report }
    // the body is refused after a response that is kept, or that has begun: no refusal is written
    ensures breaks_in_a_faulty_body { (reader : Reading) (end : InputEnd) (read : List ℕ) (opened : List Next) (exchanges : List ExchangeRecord) (written : List ℕ) (scope : Scope) (facts : Facts) (w : World ℕ ℕ) (report : Report) (kind : EndKind) (events : List Incoming) (status : ℕ)
        → IsLast reader.limits end read opened exchanges written scope facts w report → TaskIsOver w kind
        → StandsFor reader read (opened ++ (map Next.Event events ++ Next.Bad status ∷ []))
        → (progress_of facts (taken_of w.conn) ≡ Progress.Complete false) ⊎ ((progress_of facts (taken_of w.conn) ≡ Progress.Begun) × (is_by_input w.conn.broken ≡ true))
        → w.conn.written ≡ response_text facts (taken_of w.conn) → report.outcome ≡ Outcome.InputBroke
        → ConversesLast reader.limits end read exchanges written scope facts w report }
    // the input ended or failed inside the body
    ensures breaks_off { (reader : Reading) (end : InputEnd) (read : List ℕ) (opened : List Next) (exchanges : List ExchangeRecord) (written : List ℕ) (scope : Scope) (facts : Facts) (w : World ℕ ℕ) (report : Report) (kind : EndKind) (events : List Incoming)
        → IsLast reader.limits end read opened exchanges written scope facts w report → TaskIsOver w kind
        → AllGiven reader read (opened ++ map Next.Event events) → has_ended end ≡ true
        → (progress_of facts (taken_of w.conn) ≡ Progress.Nothing) ⊎ ((progress_of facts (taken_of w.conn) ≡ Progress.Complete false)
        ⊎ ((progress_of facts (taken_of w.conn) ≡ Progress.Begun) × (is_by_input w.conn.broken ≡ true)))
        → w.conn.written ≡ response_text facts (taken_of w.conn) → report.outcome ≡ Outcome.InputBroke
        → ConversesLast reader.limits end read exchanges written scope facts w report }
{}

/// If a write failed in an exchange, n bytes of the text in hand are out: of the beginning, of the last
/// event that was taken, or of the answer in place of a response that never began.
pub fn a_failed_write_ends_an_exchange()
    ensures beginning { (limits : Limits) (end : InputEnd) (read : List ℕ) (opened : List Next) (exchanges : List ExchangeRecord) (written : List ℕ) (scope : Scope) (facts : Facts) (w : World ℕ ℕ) (report : Report) (n : ℕ)
        → IsLast limits end read opened exchanges written scope facts w report → HasBrokenIn limits end facts w
        → n < length (response_text facts []) → w.conn.written ≡ take n (response_text facts []) → report.outcome ≡ Outcome.WriteFailed n
        → ConversesLast limits end read exchanges written scope facts w report }
    ensures event { (limits : Limits) (end : InputEnd) (read : List ℕ) (opened : List Next) (exchanges : List ExchangeRecord) (written : List ℕ) (scope : Scope) (facts : Facts) (w : World ℕ ℕ) (report : Report) (n : ℕ)
        (before : List Outgoing) (event : Outgoing) (text : List ℕ)
        → IsLast limits end read opened exchanges written scope facts w report → HasBrokenIn limits end facts w
        → taken_of w.conn ≡ before ++ event ∷ [] → response_text facts (before ++ event ∷ []) ≡ response_text facts before ++ text
        → n < length text → w.conn.written ≡ response_text facts before ++ take n text → report.outcome ≡ Outcome.WriteFailed n
        → ConversesLast limits end read exchanges written scope facts w report }
    ensures failure { (reader : Reading) (end : InputEnd) (read : List ℕ) (opened : List Next) (exchanges : List ExchangeRecord) (written : List ℕ) (scope : Scope) (facts : Facts) (w : World ℕ ℕ) (report : Report) (kind : EndKind) (events : List Incoming) (n : ℕ)
        → IsLast reader.limits end read opened exchanges written scope facts w report → TaskIsOver w kind
        → StandsFor reader read (opened ++ (map Next.Event events ++ Next.Whole ∷ [])) → (is_by_input w.conn.broken ≡ true → has_ended end ≡ true)
        → progress_of facts (taken_of w.conn) ≡ Progress.Nothing → n < length (refusal_text 500)
        → w.conn.written ≡ response_text facts (taken_of w.conn) ++ take n (refusal_text 500) → report.outcome ≡ Outcome.WriteFailed n
        → ConversesLast reader.limits end read exchanges written scope facts w report }
    ensures refusal { (reader : Reading) (end : InputEnd) (read : List ℕ) (opened : List Next) (exchanges : List ExchangeRecord) (written : List ℕ) (scope : Scope) (facts : Facts) (w : World ℕ ℕ) (report : Report) (kind : EndKind) (events : List Incoming) (status n : ℕ)
        → IsLast reader.limits end read opened exchanges written scope facts w report → TaskIsOver w kind
        → StandsFor reader read (opened ++ (map Next.Event events ++ Next.Bad status ∷ []))
        → progress_of facts (taken_of w.conn) ≡ Progress.Nothing → n < length (refusal_text status)
        → w.conn.written ≡ response_text facts (taken_of w.conn) ++ take n (refusal_text status) → report.outcome ≡ Outcome.WriteFailed n
        → ConversesLast reader.limits end read exchanges written scope facts w report }
{}

/// A limit or want of memory ends the connection in an exchange, however far the exchange is.
pub fn an_exchange_is_given_up()
    ensures { (limits : Limits) (end : InputEnd) (read : List ℕ) (opened : List Next) (exchanges : List ExchangeRecord) (written : List ℕ) (scope : Scope) (facts : Facts) (w : World ℕ ℕ) (report : Report)
        → IsLast limits end read opened exchanges written scope facts w report → HasBrokenIn limits end facts w
        → (report.outcome ≡ Outcome.Idle) ⊎ (report.outcome ≡ Outcome.NoMemory)
        → ConversesLast limits end read exchanges written scope facts w report }
{}
