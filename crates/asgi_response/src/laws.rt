//! Laws of the text of a response.
ghost use Rattle.std.specs.Prelude.{◌≡◌, ◌++◌, ◌∷◌, All, List, ℕ, map};
ghost use Rattle.asgi_types.specs.Fields.{HeaderField};
ghost use Rattle.asgi_types.specs.declared.facts.Facts.{Facts};
ghost use Rattle.asgi_types.specs.declared.outgoing.Outgoing.{Outgoing};
ghost use Rattle.asgi_types.specs.declared.scope.Kind.TheVariants.{Http, WebSocket};
ghost use Rattle.asgi_protocol.specs.Lawful.{IsLawful};
ghost use Rattle.asgi_response.specs.Denial.{closing_facts, as_response, denial_text};
ghost use Rattle.asgi_response.specs.Response.{continue_text, response_text};
ghost use Rattle.asgi_response.specs.Laws.{TextOnlyGrows, PassedIsAccepted, LawfulIsAccepted, EventsAddTheirText, ClosedTextStays, BegunResponsesGetNothingMore, UnbegunResponsesAreReplaced, AddedTextOnlyGrows};
ghost use Rattle.asgi_response.specs.ReadBack.{HeadIsReadBack, IsHeadReadBack, IsSendable};
ghost use Rattle.asgi_response.specs.ReadBackBody.{ResponseIsReadBack, DenialIsReadBack, IsResponseReadBack};

use asgi_types::Headers;

/// The text of a list of events is the beginning of the text of each longer list.
pub fn text_only_grows()
    ensures { TextOnlyGrows }
{}

/// The text grows by that of each event that is lawful in its place, and by nothing otherwise.
pub fn events_add_their_text()
    ensures { EventsAddTheirText }
{}

/// Events that a judge passes in this order are accepted whole.
pub fn passed_is_accepted()
    ensures { PassedIsAccepted }
{}

/// A lawful list of events is accepted whole.
pub fn lawful_is_accepted()
    ensures { LawfulIsAccepted }
{}

/// After a closed list nothing more is accepted, and its text stays the same, whatever events
/// follow (ASGI HTTP and WebSocket message format 2.4, "Response Body").
pub fn closed_text_stays()
    ensures { ClosedTextStays }
{}

/// A response that has begun or is complete gets nothing more from the end of its task.
pub fn begun_responses_get_nothing_more()
    ensures { BegunResponsesGetNothingMore }
{}

/// A response that has not begun is replaced, if its task returned or faulted.
pub fn unbegun_responses_are_replaced()
    ensures { UnbegunResponsesAreReplaced }
{}

/// What the end of a task adds only grows as more of the request's body is known.
pub fn added_text_only_grows()
    ensures { AddedTextOnlyGrows }
{}

/// A recipient reads the status and exactly the fields that were sent: no value can add a line, and
/// no other head is read (RFC 9112, sections 4 and 5).
pub fn head_is_read_back()
    ensures { HeadIsReadBack }
{}

/// A recipient of a complete response reads its status, its fields, and exactly the bytes of its
/// bodies, in one way only (RFC 9112, sections 6 and 7).
pub fn response_is_read_back()
    ensures { ResponseIsReadBack }
{}

/// The same for the fields of any `Headers`, with no condition on them: that they can be sent is
/// its own law.
pub fn headers_are_read_back(headers: &Headers)
    ensures sendable { All IsSendable headers.now }
    ensures head { IsHeadReadBack headers.now }
    ensures response { IsResponseReadBack headers.now }
{
    headers.fields_are_valid();
}

/// The response that a lawful denial corresponds to is lawful, the connection closes after it, and
/// its text is the denial's after any `100 Continue`.
pub fn denials_are_responses()
    ensures lawful { (facts : Facts) (status : ℕ) (headers : List HeaderField) (bodies : List Outgoing)
        → (let denial = Outgoing.DenialStart status headers ∷ bodies in IsLawful WebSocket facts denial → IsLawful Http (closing_facts facts) (map as_response denial)) }
    ensures text { (facts : Facts) (status : ℕ) (headers : List HeaderField) (bodies : List Outgoing)
        → (let denial = Outgoing.DenialStart status headers ∷ bodies in
        IsLawful WebSocket facts denial → response_text (closing_facts facts) (map as_response denial) ≡ continue_text facts.expect ++ denial_text facts denial) }
{}

/// A recipient of a whole denial reads its status, its fields, exactly the bytes of its bodies, and
/// that it closes.
pub fn denial_is_read_back()
    ensures { DenialIsReadBack }
{}
