//! Laws of the definitions.
ghost use Rattle.std.specs.Prelude.{◌≡◌, ◌≢◌, ◌↔◌, ◌++◌, ◌∷◌, [], ℕ, List, All, Option, Some, true, length, map};
ghost use mathlib.Core.List.{IsPrefix};
ghost use Rattle.httparse.specs.Grammar.{ChunkLine, ReadsChunkLine, chunk_size, Field, LineEnd};
ghost use Rattle.asgi_types.specs.declared.facts.Facts.{Facts};
ghost use Rattle.asgi_types.specs.declared.facts.Framing.{Framing};
ghost use Rattle.asgi_types.specs.declared.incoming.Incoming.{Incoming};
ghost use Rattle.asgi_types.specs.declared.limits.Limits.{Limits};
ghost use Rattle.asgi_types.specs.declared.scope.Scope.{Scope};
ghost use Rattle.asgi_request.specs.declared.next.Next.{Next};
ghost use Rattle.asgi_request.specs.declared.refusal.Refusal.{Refusal};
ghost use Rattle.asgi_request.specs.BodyGrowth.{Grows, IsRequestEvent};
ghost use Rattle.asgi_request.specs.BodyOf.{body_events, body_state};
ghost use Rattle.asgi_request.specs.BodyTexts.{size_in, is_section};
ghost use Rattle.asgi_request.specs.ChunkedBody.{BodyState, IsTrailerSection};
ghost use Rattle.asgi_request.specs.HeadText.{EndsAsHead};
ghost use Rattle.asgi_request.specs.Key.{is_key};
ghost use Rattle.asgi_request.specs.Opened.{HasOpened, HasClosed, BeginsWith, BeginsWithHandshake};
ghost use Rattle.asgi_request.specs.Reading.{Reading, StandsFor, IsWaiting, IsRefused, AllGiven};
ghost use Rattle.asgi_request.specs.Refusals.{status_of};
ghost use Rattle.asgi_request.specs.RequestEvents.{ReadsBody};
ghost use Rattle.asgi_request.specs.Places.{ResultsOf};
ghost use Rattle.asgi_request.specs.Results.{RefusesHead, GivesResults, HasFirst, Opens};
ghost use Rattle.asgi_request.specs.Texts.{IsUnfinished};

/// The results of a prefix of the bytes come first among the results of all of them, so the results
/// are the same however the bytes are cut.
pub fn results_of_a_front_come_first()
    ensures { (limits : Limits) (bytes more : List ℕ) (results others : List Next) (rest other_rest : List ℕ)
        → GivesResults limits bytes results rest → GivesResults limits (bytes ++ more) others other_rest
        → (further : List Next) × (others ≡ results ++ further) }
{}

/// Bytes have at most one list of results.
pub fn results_are_one_list()
    ensures { (limits : Limits) (bytes : List ℕ) (results others : List Next) (rest other_rest : List ℕ)
        → GivesResults limits bytes results rest → GivesResults limits bytes others other_rest → results ≡ others }
{}

/// Results cannot fail to exist: it can't be that no list is the results of the bytes.
pub fn results_are_there()
    ensures { (limits : Limits) (bytes : List ℕ)
        → ¬ ((results : List Next) (rest : List ℕ) → ¬ (GivesResults limits bytes results rest)) }
{}

/// What a reader gave comes first among the results of the bytes that it was fed.
pub fn given_results_come_first()
    ensures { (reader : Reading) (bytes : List ℕ) (given results : List Next) (rest : List ℕ)
        → StandsFor reader bytes given → GivesResults reader.limits bytes results rest
        → (further : List Next) × (results ≡ given ++ further) }
{}

/// What a reader gave are the first results of the bytes that it was fed.
pub fn given_results_are_the_first()
    ensures { (reader : Reading) (bytes : List ℕ) (given : List Next)
        → StandsFor reader bytes given → HasFirst reader.limits bytes given }
{}

/// The first results of bytes come first among all that they have.
pub fn first_results_come_first()
    ensures { (limits : Limits) (bytes : List ℕ) (first results : List Next) (rest : List ℕ)
        → HasFirst limits bytes first → GivesResults limits bytes results rest
        → (further : List Next) × (results ≡ first ++ further) }
{}

/// First results of the same bytes, equally many, are the same, and stay if more bytes follow.
pub fn first_results_are_one_list()
    ensures one { (limits : Limits) (bytes : List ℕ) (first other : List Next)
        → HasFirst limits bytes first → HasFirst limits bytes other → length first ≡ length other → first ≡ other }
    ensures stays { (limits : Limits) (bytes more : List ℕ) (first : List Next)
        → HasFirst limits bytes first → HasFirst limits (bytes ++ more) first }
{}

/// Bytes have one first result at most, which opens a request or refuses it, and stays if more
/// bytes follow.
pub fn first_result_is_one()
    ensures one { (limits : Limits) (bytes : List ℕ) (first other : Next)
        → HasFirst limits bytes (first ∷ []) → HasFirst limits bytes (other ∷ []) → first ≡ other }
    ensures opens { (limits : Limits) (bytes : List ℕ) (first : Next) → HasFirst limits bytes (first ∷ []) → Opens first }
    ensures stays { (limits : Limits) (bytes more : List ℕ) (first : Next)
        → HasFirst limits bytes (first ∷ []) → HasFirst limits (bytes ++ more) (first ∷ []) }
{}

/// A reader that has refused gave the refusal last.
pub fn refused_reader_gave_the_refusal()
    ensures { (reader : Reading) (bytes : List ℕ) (given : List Next) (status : ℕ)
        → StandsFor reader bytes given → IsRefused reader status → (before : List Next) × (given ≡ before ++ Next.Bad status ∷ []) }
{}

/// If nothing more is due at a reader's place, it gave all the results of the bytes that it was
/// fed.
pub fn waiting_reader_gave_all()
    ensures { (reader : Reading) (bytes : List ℕ) (given : List Next)
        → StandsFor reader bytes given → IsWaiting reader → AllGiven reader bytes given }
{}

/// If a reader has refused, it gave all the results of the bytes that it was fed.
pub fn refused_reader_gave_all()
    ensures { (reader : Reading) (bytes : List ℕ) (given : List Next) (status : ℕ)
        → StandsFor reader bytes given → IsRefused reader status → AllGiven reader bytes given }
{}

/// The places of a reader give the results that the bytes have by the definition, and no others.
pub fn places_give_the_results()
    ensures to_results { (limits : Limits) (bytes : List ℕ) (results : List Next)
        → ResultsOf limits bytes results → (rest : List ℕ) × GivesResults limits bytes results rest }
    ensures to_places { (limits : Limits) (bytes : List ℕ) (results : List Next) (rest : List ℕ)
        → GivesResults limits bytes results rest → ResultsOf limits bytes results }
{}

/// Tests decide whether a whole text is a size line, and of which size, and whether it is a trailer
/// section (RFC 9112, section 7.1).
pub fn body_texts_are_decided()
    ensures size { (text : List ℕ) (size : ℕ) → (size_in text ≡ Some size) ↔ ((line : ChunkLine) × ReadsChunkLine text line [] × (size ≡ chunk_size line)) }
    ensures trailers { (max_headers : ℕ) (text : List ℕ)
        → (is_section max_headers text ≡ true) ↔ ((fields : List Field) × (end : LineEnd) × IsTrailerSection max_headers text fields end) }
{}

/// The events of a body, and how far it has come, are one computation over its bytes.
pub fn body_is_computed()
    ensures { (limits : Limits) (framing : Framing) (bytes : List ℕ) (events : List Incoming) (state : BodyState)
        → ReadsBody limits framing bytes events state ↔ ((events ≡ body_events limits framing bytes) × (state ≡ body_state limits framing bytes)) }
{}

/// Bytes are one body: they have at most one list of events, and at most one state.
pub fn body_is_one()
    ensures { (limits : Limits) (framing : Framing) (bytes : List ℕ) (events others : List Incoming) (state other : BodyState)
        → ReadsBody limits framing bytes events state → ReadsBody limits framing bytes others other → (events ≡ others) × (state ≡ other) }
{}

/// However the bytes of a body are cut, what was due stays due and comes first; a body that is
/// whole or faulty stays so.
pub fn body_only_grows()
    ensures grows { (limits : Limits) (framing : Framing) (bytes more : List ℕ) (events others : List Incoming) (state other : BodyState)
        → ReadsBody limits framing bytes events state → ReadsBody limits framing (bytes ++ more) others other
        → Grows more events state others other }
    ensures whole { (limits : Limits) (framing : Framing) (bytes more : List ℕ) (events : List Incoming) (after : List ℕ)
        → ReadsBody limits framing bytes events (BodyState.complete after)
        → ReadsBody limits framing (bytes ++ more) events (BodyState.complete (after ++ more)) }
    ensures faulty { (limits : Limits) (framing : Framing) (bytes more : List ℕ) (events : List Incoming) (why : Refusal)
        → ReadsBody limits framing bytes events (BodyState.faulty why) → ReadsBody limits framing (bytes ++ more) events (BodyState.faulty why) }
{}

/// Each event of a body is a part of it, and none is a disconnect (ASGI HTTP and WebSocket message
/// format 2.4, "Request").
pub fn body_events_are_no_disconnects()
    ensures { (limits : Limits) (framing : Framing) (bytes : List ℕ) (events : List Incoming) (state : BodyState)
        → ReadsBody limits framing bytes events state → All IsRequestEvent events }
{}

/// After the head of a request that was given come the bytes of its body, and more bytes that are
/// fed come after them. After a whole body comes the next head (RFC 9112, section 9.3.2).
pub fn head_opens_a_body()
    ensures opens { (reader : Reading) (bytes : List ℕ) (before after : List Next) (scope : Scope) (facts : Facts)
        → StandsFor reader bytes (before ++ Next.Head scope facts ∷ after) → facts.framing ≢ Framing.Upgrade
        → (arrived : List ℕ) × HasOpened reader.limits bytes (before ++ Next.Head scope facts ∷ []) facts.framing arrived }
    ensures grows { (limits : Limits) (bytes more : List ℕ) (opened : List Next) (framing : Framing) (arrived : List ℕ)
        → HasOpened limits bytes opened framing arrived → HasOpened limits (bytes ++ more) opened framing (arrived ++ more) }
    ensures ends { (limits : Limits) (bytes : List ℕ) (opened : List Next) (framing : Framing) (arrived : List ℕ) (events : List Incoming) (after : List ℕ)
        → HasOpened limits bytes opened framing arrived → ReadsBody limits framing arrived events (BodyState.complete after)
        → HasClosed limits bytes (opened ++ (map Next.Event events ++ Next.Whole ∷ [])) after }
    ensures next { (reader : Reading) (bytes : List ℕ) (closed more : List Next) (after : List ℕ) (scope : Scope) (facts : Facts)
        → HasClosed reader.limits bytes closed after → StandsFor reader bytes (closed ++ Next.Head scope facts ∷ more) → facts.framing ≢ Framing.Upgrade
        → (arrived : List ℕ) × BeginsWith reader.limits after scope facts arrived
        × HasOpened reader.limits bytes (closed ++ Next.Head scope facts ∷ []) facts.framing arrived }
{}

/// An opening handshake that was given comes after whole requests: the bytes there begin with it,
/// nothing follows its `Whole`, and its key is valid (RFC 6455, section 4.2.1).
pub fn handshake_is_last()
    ensures begins { (reader : Reading) (bytes : List ℕ) (closed more : List Next) (after : List ℕ) (scope : Scope) (facts : Facts)
        → HasClosed reader.limits bytes closed after → StandsFor reader bytes (closed ++ Next.Head scope facts ∷ more) → facts.framing ≡ Framing.Upgrade
        → (frames : List ℕ) × BeginsWithHandshake reader.limits after scope facts frames }
    ensures whole { (limits : Limits) (bytes frames : List ℕ) (scope : Scope) (facts : Facts)
        → BeginsWithHandshake limits bytes scope facts frames → GivesResults limits bytes (Next.Head scope facts ∷ Next.Whole ∷ []) frames }
    ensures key { (limits : Limits) (bytes frames : List ℕ) (scope : Scope) (facts : Facts)
        → BeginsWithHandshake limits bytes scope facts frames → is_key facts.key ≡ true }
{}

/// After whole requests, or if none was given, a head is due: one that the bytes begin with opens a
/// body; a refusal gives the reason why they begin with none that is served; and if the reader
/// needs more, the head is not whole.
pub fn after_a_request_a_head_is_due()
    ensures starts { (limits : Limits) (bytes : List ℕ) → HasClosed limits bytes [] bytes }
    ensures grows { (limits : Limits) (bytes more : List ℕ) (closed : List Next) (after : List ℕ)
        → HasClosed limits bytes closed after → HasClosed limits (bytes ++ more) closed (after ++ more) }
    ensures opens { (limits : Limits) (bytes : List ℕ) (closed : List Next) (after : List ℕ) (scope : Scope) (facts : Facts) (arrived : List ℕ)
        → HasClosed limits bytes closed after → BeginsWith limits after scope facts arrived
        → HasOpened limits bytes (closed ++ Next.Head scope facts ∷ []) facts.framing arrived }
    ensures refused { (reader : Reading) (bytes : List ℕ) (closed : List Next) (after : List ℕ) (status : ℕ)
        → HasClosed reader.limits bytes closed after → StandsFor reader bytes (closed ++ Next.Bad status ∷ [])
        → (why : Refusal) × RefusesHead reader.limits after why × (status ≡ status_of why) }
    ensures need { (reader : Reading) (bytes : List ℕ) (closed : List Next) (after : List ℕ)
        → HasClosed reader.limits bytes closed after → AllGiven reader bytes closed → IsUnfinished EndsAsHead reader.limits.max_head after }
{}

/// The bytes after whole requests are the same, however the requests are divided, and so are the
/// bytes of the body after a head.
pub fn bytes_after_results_are_one()
    ensures closed { (limits : Limits) (bytes : List ℕ) (closed : List Next) (after others : List ℕ)
        → HasClosed limits bytes closed after → HasClosed limits bytes closed others → after ≡ others }
    ensures opened { (limits : Limits) (bytes : List ℕ) (opened : List Next) (framing other : Framing) (arrived others : List ℕ)
        → HasOpened limits bytes opened framing arrived → HasOpened limits bytes opened other others → (framing ≡ other) × (arrived ≡ others) }
{}

/// Bytes begin with one head at most, which stays if more bytes follow.
pub fn first_head_is_one()
    ensures one { (limits : Limits) (bytes : List ℕ) (scope other : Scope) (facts others : Facts) (arrived left : List ℕ)
        → BeginsWith limits bytes scope facts arrived → BeginsWith limits bytes other others left
        → (scope ≡ other) × (facts ≡ others) × (arrived ≡ left) }
    ensures stays { (limits : Limits) (bytes more : List ℕ) (scope : Scope) (facts : Facts) (arrived : List ℕ)
        → BeginsWith limits bytes scope facts arrived → BeginsWith limits (bytes ++ more) scope facts (arrived ++ more) }
{}

/// What a reader gave after a head are the first events that are due of the body: all of them if
/// the reader needs more, if the request is whole and if it is refused. Inside a body the reader
/// gives no head.
pub fn given_events_are_due()
    ensures events { (reader : Reading) (bytes : List ℕ) (opened : List Next) (framing : Framing) (arrived : List ℕ) (events due : List Incoming) (state : BodyState)
        → HasOpened reader.limits bytes opened framing arrived → ReadsBody reader.limits framing arrived due state
        → StandsFor reader bytes (opened ++ map Next.Event events) → IsPrefix events due }
    ensures need { (reader : Reading) (bytes : List ℕ) (opened : List Next) (framing : Framing) (arrived : List ℕ) (events due : List Incoming) (state : BodyState)
        → HasOpened reader.limits bytes opened framing arrived → ReadsBody reader.limits framing arrived due state
        → AllGiven reader bytes (opened ++ map Next.Event events) → (events ≡ due) × (state ≡ BodyState.partial) }
    ensures whole { (reader : Reading) (bytes : List ℕ) (opened : List Next) (framing : Framing) (arrived : List ℕ) (events due : List Incoming) (state : BodyState)
        → HasOpened reader.limits bytes opened framing arrived → ReadsBody reader.limits framing arrived due state
        → StandsFor reader bytes (opened ++ (map Next.Event events ++ Next.Whole ∷ []))
        → (events ≡ due) × ((after : List ℕ) × (state ≡ BodyState.complete after)) }
    ensures refused { (reader : Reading) (bytes : List ℕ) (opened : List Next) (framing : Framing) (arrived : List ℕ) (events due : List Incoming) (state : BodyState) (status : ℕ)
        → HasOpened reader.limits bytes opened framing arrived → ReadsBody reader.limits framing arrived due state
        → StandsFor reader bytes (opened ++ (map Next.Event events ++ Next.Bad status ∷ []))
        → (events ≡ due) × ((why : Refusal) × (state ≡ BodyState.faulty why) × (status ≡ status_of why)) }
    ensures head { (reader : Reading) (bytes : List ℕ) (opened : List Next) (framing : Framing) (arrived : List ℕ) (events due : List Incoming) (state : BodyState) (scope : Scope) (facts : Facts)
        → HasOpened reader.limits bytes opened framing arrived → ReadsBody reader.limits framing arrived due state
        → ¬ (StandsFor reader bytes (opened ++ (map Next.Event events ++ Next.Head scope facts ∷ []))) }
{}
