//! The text of the events that an application sends.
ghost use Rattle.std.specs.Prelude.{◌≡◌, ◌≢◌, ◌++◌, ◌∷◌, [], ◌&&◌, ◌⊎◌, not, true, IsTrue, List, length, ◌==◌, OnOk, OnErr, if◌then◌else◌};
ghost use Rattle.std.specs.Vec.{vec_len, vec_capacity};
ghost use Rattle.httparse.specs.Ascii.{crlf_bytes};
ghost use Rattle.asgi_types.specs.declared.facts.Facts.{Facts};
ghost use Rattle.asgi_types.specs.declared.outgoing.Outgoing.{Outgoing};
ghost use Rattle.asgi_protocol.specs.ContentLengths.{content_length};
ghost use Rattle.asgi_protocol.specs.Rules.{is_absent, is_faulty, has_no_content as is_bare};
ghost use Rattle.asgi_response.specs.Content as contents;
ghost use Rattle.asgi_response.specs.Exchange as exchange;
ghost use Rattle.asgi_response.specs.Fields as fields;
ghost use Rattle.asgi_types.specs.Room.{LacksRoom};
ghost use Rattle.asgi_types.specs.Versions.{is_v11};
ghost use Rattle.asgi_response.specs.Room.{LacksMemory, LacksDenialMemory};
ghost use Rattle.asgi_response.specs.Standing as standing;
ghost use Rattle.asgi_response.specs.private.Steps as steps;

use crate::append::{append_all, hexadecimal, total_len};
use crate::content::{Coding, Content, Trailing};
use crate::fields::closes;
use crate::head::{CRLF, append_section, head_text};
use crate::progress::Progress;
use crate::refusal::{Input, append_refusal};
use asgi_protocol::{BytesLeft, ContentLength, has_framing_field, has_no_content};
use asgi_types::{Facts, Framing, Headers, HttpVersion, Octets, Outgoing};
use std::alloc::{AllocError, Global};

const CONTINUE: &[u8] = b"HTTP/1.1 100 Continue\r\n\r\n";

const LAST_CHUNK: &[u8] = b"0\r\n";

const CONTENT_END: &[u8] = b"0\r\n\r\n";

const DATA_END_AND_LAST_CHUNK: &[u8] = b"\r\n0\r\n";

const DATA_END_AND_CONTENT_END: &[u8] = b"\r\n0\r\n\r\n";

/// How far a response is.
#[derive(Clone, Copy, Debug, PartialEq, Eq)]
pub enum Phase {
    /// No start was taken.
    Waiting,
    /// A start alone was taken: its head is written with the first body (ASGI HTTP and WebSocket
    /// message format 2.4, "Response Start").
    Started(Content),
    /// The head and a body are written, and another body may follow.
    Begun(Content),
    /// The last body is written, and trailers are due; whether they are sent.
    Trailers { sent: bool },
    /// All is written, up to the last body or the last trailers.
    Complete,
    /// An accept or a close was sent: what is written of a session is no response.
    NotAResponse,
}

/// The text of one response, event by event (RFC 9112, sections 4 to 7).
#[derive(Debug, Drop)]
pub struct ResponseText {
    alloc: Global,
    version: HttpVersion,
    head_only: bool,
    // Whether the connection closes after the response: because of the request, or of the start.
    close: bool,
    expect: bool,
    // Whether the client takes trailers.
    trailers_ok: bool,
    // Whether this text is for an opening handshake: only a denial is a response to one.
    session: bool,
    phase: Phase,
    // The head of a response that has started, until it is written.
    head: Octets,
}

impl ResponseText {
    ghost use Rattle.asgi_protocol.specs.Lawful.{IsLawful};
    ghost use Rattle.asgi_types.specs.declared.facts.Framing.TheVariants as framings;
    ghost use Rattle.asgi_types.specs.declared.scope.Kind.TheVariants.{WebSocket};
    ghost use Rattle.asgi_response.specs.Denial.{denial_text, denial_end_text, denial_progress};
    ghost use Rattle.asgi_response.specs.Exchange.{end_text};
    ghost use Rattle.asgi_response.specs.Progress.{progress_of};
    ghost use Rattle.asgi_response.specs.Response.{response_text};
    ghost use Rattle.asgi_response.specs.Standing.{StandsFor, StandsForSession, Grows};

    /// A text with no event taken yet. Allocates nothing. The facts determine whether this is for a
    /// request or an opening handshake.
    pub fn new(alloc: Global, facts: &Facts) -> Self
        ensures response { facts.now.framing ≢ framings.Upgrade → StandsFor result facts.now [] }
        ensures denial { facts.now.framing ≡ framings.Upgrade → StandsForSession result facts.now [] }
    {
        let session = opens_session(facts.framing);
        ResponseText {
            alloc,
            version: facts.version,
            head_only: facts.head_only,
            close: facts.close || session,
            expect: facts.expect,
            trailers_ok: facts.trailers_ok,
            session,
            phase: Phase::Waiting,
            head: Octets::new(Vec::new(alloc)),
        }
    }

    /// Appends the bytes that the event adds: none if it is not lawful in its place, and none for a
    /// start, whose head comes with the first body (ASGI HTTP and WebSocket message format 2.4,
    /// "Response Start"). For an opening handshake a judge has passed the events; a denial is a
    /// response after which the connection closes. `AllocError` if memory is refused; then the text
    /// and `out` are as before.
    pub fn take(&mut self, event: &Outgoing, out: &mut Vec<u8>) -> Result<(), AllocError>
        ensures ok { OnOk result ((facts : Facts) (events : List Outgoing) → StandsFor self.old facts events
            → StandsFor self.new facts (events ++ event.now ∷ [])) }
        ensures text { OnOk result ((facts : Facts) (events : List Outgoing) → StandsFor self.old facts events
            → Grows (response_text facts events) (response_text facts (events ++ event.now ∷ [])) out.old.items out.new.items) }
        ensures denial { OnOk result ((facts : Facts) (events : List Outgoing) → StandsForSession self.old facts events
            → IsLawful WebSocket facts (events ++ event.now ∷ []) → StandsForSession self.new facts (events ++ event.now ∷ [])) }
        ensures denial_text { OnOk result ((facts : Facts) (events : List Outgoing) → StandsForSession self.old facts events
            → IsLawful WebSocket facts (events ++ event.now ∷ [])
            → Grows (denial_text facts events) (denial_text facts (events ++ event.now ∷ [])) out.old.items out.new.items) }
        ensures err { OnErr result ((self.new ≡ self.old) × (out.new.items ≡ out.old.items)) }
        ensures full { OnErr result ((facts : Facts) (events : List Outgoing) → StandsFor self.old facts events
            → LacksMemory (vec_capacity out.old) (vec_len out.old) facts events event.now) }
        ensures denial_full { OnErr result ((facts : Facts) (events : List Outgoing) → StandsForSession self.old facts events
            → IsLawful WebSocket facts (events ++ event.now ∷ [])
            → LacksDenialMemory (vec_capacity out.old) (vec_len out.old) facts events event.now) }
    {
        self.step(event, out)
    }

    /// Appends the text before every event: `100 Continue` if the client waits for it (RFC 9110,
    /// section 10.1.1), nothing for an opening handshake. `AllocError` if memory is refused; then
    /// `out` is as before.
    pub fn begin(&self, out: &mut Vec<u8>) -> Result<(), AllocError>
        ensures ok { OnOk result ((facts : Facts) (events : List Outgoing) → StandsFor self.now facts events
            → out.new.items ≡ out.old.items ++ response_text facts []) }
        ensures denial { OnOk result ((facts : Facts) (events : List Outgoing) → StandsForSession self.now facts events
            → out.new.items ≡ out.old.items) }
        ensures err { OnErr result (out.new.items ≡ out.old.items) }
        ensures full { OnErr result ((facts : Facts) (events : List Outgoing) → StandsFor self.now facts events
            → LacksRoom (vec_capacity out.old) (vec_len out.old) (response_text facts [])) }
    {
        if self.expect && !self.session {
            out.extend_from_slice(CONTINUE)?;
        }
        Ok(())
    }

    /// Appends what the end of the task adds: a refusal if no body was taken, and no accept or
    /// close. The refusal is 500 for a whole input, has the status of a faulty one, and is nothing
    /// for a broken one. `AllocError` if memory is refused; then `out` is as before.
    #[tactic(auto, using(crate::proofs::ProgressLemmas::end_adds_nothing, crate::proofs::DenialTextLemmas::denial_end_adds_nothing))]
    pub fn end(&self, input: Input, out: &mut Vec<u8>) -> Result<(), AllocError>
        ensures ok { OnOk result ((facts : Facts) (events : List Outgoing) → StandsFor self.now facts events
            → out.new.items ≡ out.old.items ++ end_text facts events input) }
        ensures denial { OnOk result ((facts : Facts) (events : List Outgoing) → StandsForSession self.now facts events
            → out.new.items ≡ out.old.items ++ denial_end_text facts events input) }
        ensures err { OnErr result (out.new.items ≡ out.old.items) }
        ensures full { OnErr result ((facts : Facts) (events : List Outgoing) → StandsFor self.now facts events
            → LacksRoom (vec_capacity out.old) (vec_len out.old) (end_text facts events input)) }
        ensures denial_full { OnErr result ((facts : Facts) (events : List Outgoing) → StandsForSession self.now facts events
            → LacksRoom (vec_capacity out.old) (vec_len out.old) (denial_end_text facts events input)) }
    {
        if self.phase.is_begun() {
            return Ok(());
        }
        append_answer(input, out)
    }

    /// How far the response is; after an accept or a close `Begun`.
    #[tactic(auto, using(crate::proofs::ProgressLemmas::progress_is, crate::proofs::DenialTextLemmas::denial_progress_is))]
    pub fn progress(&self) -> Progress
        ensures response { (facts : Facts) (events : List Outgoing) → StandsFor self.now facts events → result ≡ progress_of facts events }
        ensures denial { (facts : Facts) (events : List Outgoing) → StandsForSession self.now facts events → result ≡ denial_progress facts events }
    {
        self.phase.progress(self.close)
    }
}

impl ResponseText {
    /// Takes the event, and appends what it adds.
    fn step(&mut self, event: &Outgoing, out: &mut Vec<u8>) -> Result<(), AllocError>
        ensures ok { OnOk result (self.new ≡ steps.after_event self.old event.now) }
        ensures text { OnOk result (out.new.items ≡ out.old.items ++ steps.added_by self.old event.now) }
        ensures err { OnErr result ((self.new ≡ self.old) × (out.new.items ≡ out.old.items)) }
        ensures full { OnErr result (IsTrue (steps.starts self.old event.now) ⊎ LacksRoom (vec_capacity out.old) (vec_len out.old) (steps.added_by self.old event.now)) }
    {
        if self.session {
            return self.session_step(event, out);
        }
        if let Outgoing::ResponseStart {
            status,
            headers,
            trailers,
        } = event
        {
            return self.take_start(*status, headers, *trailers);
        }
        if let Outgoing::ResponseBody { body, more_body } = event {
            return self.take_body(body.bytes(), *more_body, out);
        }
        if let Outgoing::ResponseTrailers {
            headers,
            more_trailers,
        } = event
        {
            return self.take_section(headers, *more_trailers, out);
        }
        Ok(())
    }

    /// Takes an event for an opening handshake, and appends what it adds.
    fn session_step(&mut self, event: &Outgoing, out: &mut Vec<u8>) -> Result<(), AllocError>
        ensures ok { OnOk result (self.new ≡ steps.after_session_event self.old event.now) }
        ensures text { OnOk result (out.new.items ≡ out.old.items ++ steps.added_by_denial self.old event.now) }
        ensures err { OnErr result ((self.new ≡ self.old) × (out.new.items ≡ out.old.items)) }
        ensures full { OnErr result (IsTrue (steps.denial_starts self.old event.now) ⊎ LacksRoom (vec_capacity out.old) (vec_len out.old) (steps.added_by_denial self.old event.now)) }
    {
        if let Outgoing::DenialStart { status, headers } = event {
            return self.take_start(*status, headers, false);
        }
        if let Outgoing::DenialBody { body, more_body } = event {
            return self.take_body(body.bytes(), *more_body, out);
        }
        if let Outgoing::WsAccept { .. } | Outgoing::WsClose { .. } = event {
            self.phase = Phase::NotAResponse;
        }
        Ok(())
    }

    /// Keeps the head of a start that is lawful here, and whether it has announced trailers.
    fn take_start(
        &mut self,
        status: u16,
        headers: &Headers,
        announced: bool,
    ) -> Result<(), AllocError>
        ensures ok { OnOk result (self.new ≡ steps.after_start self.old status headers.now announced) }
        ensures err { OnErr result (self.new ≡ self.old) }
        ensures full { OnErr result (IsTrue (steps.may_start self.old.phase status (is_faulty (content_length headers.now)))) }
    {
        let length = ContentLength::of(headers);
        if !may_start(self.phase, status, length) {
            return Ok(());
        }
        let chunked = is_chunked(self.version, status, length);
        let closing = closes(self.close, headers);
        let head = head_text(self.alloc, chunked, closing, status, headers)?;
        self.head = head;
        self.close = closing;
        let sent = announced && self.trailers_ok && self.has_content(status) && chunked;
        self.phase = Phase::Started(Content {
            coding: coding_of(self.has_content(status), chunked),
            trailing: Trailing::of(announced, sent),
            left: BytesLeft::of(left_at_start(self.head_only, status, length)),
        });
        Ok(())
    }

    /// Whether a response with the status has content.
    fn has_content(&self, status: u16) -> bool
        ensures { result ≡ contents.has_content self.now.head_only status }
    {
        !self.head_only && !has_no_content(status)
    }

    /// Appends the text of a body that is lawful here, after the head if it is the first.
    fn take_body(
        &mut self,
        body: &[u8],
        more_body: bool,
        out: &mut Vec<u8>,
    ) -> Result<(), AllocError>
        ensures ok { OnOk result (self.new ≡ steps.after_part self.old (steps.content_due self.old.phase) body.now more_body) }
        ensures text { OnOk result (out.new.items ≡ out.old.items ++ steps.part_added self.old.head (steps.content_due self.old.phase) body.now more_body) }
        ensures err { OnErr result ((self.new ≡ self.old) × (out.new.items ≡ out.old.items)) }
        ensures full { OnErr result (LacksRoom (vec_capacity out.old) (vec_len out.old) (steps.part_added self.old.head (steps.content_due self.old.phase) body.now more_body)) }
    {
        let Some(content) = self.phase.content_due() else {
            return Ok(());
        };
        if !content.allows(body.len(), more_body) {
            return Ok(());
        }
        append_part(self.head.bytes(), content, body, more_body, out)?;
        self.phase = next_phase(content, body.len(), more_body);
        self.head = Octets::new(Vec::new(self.alloc));
        Ok(())
    }

    /// Appends the text of trailers that are lawful here.
    fn take_section(
        &mut self,
        headers: &Headers,
        more_trailers: bool,
        out: &mut Vec<u8>,
    ) -> Result<(), AllocError>
        ensures ok { OnOk result (self.new ≡ steps.after_section self.old (steps.trailers_due self.old.phase) headers.now more_trailers) }
        ensures text { OnOk result (out.new.items ≡ out.old.items ++ steps.section_added (steps.trailers_due self.old.phase) headers.now more_trailers) }
        ensures err { OnErr result ((self.new ≡ self.old) × (out.new.items ≡ out.old.items)) }
        ensures full { OnErr result (LacksRoom (vec_capacity out.old) (vec_len out.old) (steps.section_added (steps.trailers_due self.old.phase) headers.now more_trailers)) }
    {
        let Phase::Trailers { sent } = self.phase else {
            return Ok(());
        };
        if has_framing_field(headers) {
            return Ok(());
        }
        if sent {
            append_section(out, headers, more_trailers)?;
        }
        if !more_trailers {
            self.phase = Phase::Complete;
        }
        Ok(())
    }
}

/// Whether a request of this framing opens a session.
fn opens_session(framing: Framing) -> bool
    ensures { result ≡ standing.opens_session framing }
{
    match framing {
        Framing::Upgrade => true,
        Framing::Length(_) | Framing::Chunked => false,
    }
}

impl Phase {
    /// Whether a body was taken.
    fn is_begun(self) -> bool
        ensures { result ≡ steps.is_begun self }
    {
        match self {
            Phase::Waiting | Phase::Started(_) => false,
            Phase::Begun(_) | Phase::Trailers { .. } | Phase::Complete | Phase::NotAResponse =>
                true,
        }
    }

    /// What the next body may be, if one may follow.
    fn content_due(self) -> Option<Content>
        ensures { result ≡ steps.content_due self }
    {
        match self {
            Phase::Waiting | Phase::Trailers { .. } | Phase::Complete | Phase::NotAResponse => None,
            Phase::Started(content) | Phase::Begun(content) => Some(content),
        }
    }

    /// How far the response is; `closes` is whether the connection closes after it.
    fn progress(self, closes: bool) -> Progress
        ensures { result ≡ steps.progress_at self closes }
    {
        match self {
            Phase::Waiting | Phase::Started(_) => Progress::Nothing,
            Phase::Begun(_) | Phase::Trailers { .. } | Phase::NotAResponse => Progress::Begun,
            Phase::Complete => Progress::Complete { closes },
        }
    }
}

/// Whether a start is lawful here.
fn may_start(phase: Phase, status: u16, length: ContentLength) -> bool
    ensures { result ≡ steps.may_start phase status (is_faulty length) }
{
    phase == Phase::Waiting && 200 <= status && status <= 599 && !length.is_faulty()
}

/// Whether the content is chunked.
fn is_chunked(version: HttpVersion, status: u16, length: ContentLength) -> bool
    ensures { result ≡ (is_v11 version && is_absent length && not (is_bare status)) }
{
    version == HttpVersion::V11 && length.is_absent() && !has_no_content(status)
}

/// How the bodies of a response are written, by whether it has content, and whether in chunks.
fn coding_of(content: bool, chunked: bool) -> Coding
    ensures { result ≡ standing.coding_of content chunked }
{
    if !content {
        return Coding::Nothing;
    }
    if chunked {
        return Coding::Chunked;
    }
    Coding::Plain
}

/// The bytes that the bodies after a start must have; any number in a response to HEAD.
fn left_at_start(head_only: bool, status: u16, length: ContentLength) -> Option<u64>
    ensures { result ≡ steps.left_at_start head_only status length }
{
    if head_only {
        return None;
    }
    length.promised_at(status)
}

fn next_phase(content: Content, len: usize, more_body: bool) -> Phase
    ensures { result ≡ steps.next_phase content len more_body }
{
    if more_body {
        return Phase::Begun(content.after(len));
    }
    match content.trailing {
        Trailing::Nothing => Phase::Complete,
        Trailing::Unsent => Phase::Trailers { sent: false },
        Trailing::Sent => Phase::Trailers { sent: true },
    }
}

/// Appends the front and then the text of a body. On an error the vector is as before.
fn append_part(
    front: &[u8],
    content: Content,
    body: &[u8],
    more_body: bool,
    out: &mut Vec<u8>,
) -> Result<(), AllocError>
    ensures ok { OnOk result (out.new.items ≡ out.old.items ++ (front.now ++ steps.coded_text content.coding (steps.is_sent content.trailing) body.now more_body)) }
    ensures err { OnErr result (out.new.items ≡ out.old.items) }
    ensures full { OnErr result (LacksRoom (vec_capacity out.old) (vec_len out.old) (front.now ++ steps.coded_text content.coding (steps.is_sent content.trailing) body.now more_body)) }
{
    match content.coding {
        Coding::Nothing => out.extend_from_slice(front),
        Coding::Plain => append_two(out, front, body),
        Coding::Chunked => append_chunk(front, body, content.trailing, more_body, out),
    }
}

/// Appends the front, the body as a chunk if it has bytes, and the end of the content if no more
/// bodies follow.
fn append_chunk(
    front: &[u8],
    body: &[u8],
    trailing: Trailing,
    more_body: bool,
    out: &mut Vec<u8>,
) -> Result<(), AllocError>
    ensures ok { OnOk result (out.new.items ≡ out.old.items ++ (front.now ++ contents.part_text true (steps.is_sent trailing) body.now more_body)) }
    ensures err { OnErr result (out.new.items ≡ out.old.items) }
    ensures full { OnErr result (LacksRoom (vec_capacity out.old) (vec_len out.old) (front.now ++ contents.part_text true (steps.is_sent trailing) body.now more_body)) }
{
    if body.is_empty() {
        return append_two(out, front, content_end(trailing, more_body));
    }
    let mut buffer = [0; 16];
    let at = hexadecimal(body.len(), &mut buffer);
    append_sized(
        out,
        front,
        &buffer[at..],
        body,
        data_end(trailing, more_body),
    )
}

/// Appends two texts.
fn append_two<'a>(out: &mut Vec<u8>, front: &'a [u8], text: &'a [u8]) -> Result<(), AllocError>
    ensures ok { OnOk result (out.new.items ≡ out.old.items ++ (front.now ++ text.now)) }
    ensures err { OnErr result (out.new.items ≡ out.old.items) }
    ensures full { OnErr result (LacksRoom (vec_capacity out.old) (vec_len out.old) (front.now ++ text.now)) }
{
    append_all(out, &[front, text])
}

/// Appends the front, the data of a chunk after its size, and what follows the data.
fn append_sized<'a>(
    out: &mut Vec<u8>,
    front: &'a [u8],
    size: &'a [u8],
    body: &'a [u8],
    end: &'a [u8],
) -> Result<(), AllocError>
    ensures ok { OnOk result (out.new.items ≡ out.old.items ++ (front.now ++ (size.now ++ crlf_bytes ++ body.now ++ end.now))) }
    ensures err { OnErr result (out.new.items ≡ out.old.items) }
    ensures full { OnErr result (LacksRoom (vec_capacity out.old) (vec_len out.old) (front.now ++ (size.now ++ crlf_bytes ++ body.now ++ end.now))) }
{
    out.reserve(total_len(&[front, size, CRLF, body, end])?)?;
    // The room is reserved, so these never fail: only their type allows an error.
    out.extend_from_slice(front)?;
    out.extend_from_slice(size)?;
    out.extend_from_slice(CRLF)?;
    out.extend_from_slice(body)?;
    out.extend_from_slice(end)?;
    Ok(())
}

/// What follows the data of a chunk: the end of its line, and the end of the content if no more
/// bodies follow.
fn data_end(trailing: Trailing, more_body: bool) -> &'static [u8]
    ensures { result.now ≡ crlf_bytes ++ (if not more_body then contents.content_end (steps.is_sent trailing) else []) }
{
    if more_body {
        return CRLF;
    }
    if trailing.is_sent() {
        return DATA_END_AND_LAST_CHUNK;
    }
    DATA_END_AND_CONTENT_END
}

/// What ends chunked content, if no more bodies follow: the last chunk, and if no trailers are sent
/// an empty trailer section.
fn content_end(trailing: Trailing, more_body: bool) -> &'static [u8]
    ensures { result.now ≡ (if not more_body then contents.content_end (steps.is_sent trailing) else []) }
{
    if more_body {
        return &[];
    }
    if trailing.is_sent() {
        return LAST_CHUNK;
    }
    CONTENT_END
}

/// Appends what replaces a response that never began.
fn append_answer(input: Input, out: &mut Vec<u8>) -> Result<(), AllocError>
    ensures ok { OnOk result (out.new.items ≡ out.old.items ++ exchange.replacement_text input) }
    ensures err { OnErr result (out.new.items ≡ out.old.items) }
    ensures full { OnErr result (LacksRoom (vec_capacity out.old) (vec_len out.old) (exchange.replacement_text input)) }
{
    match input {
        Input::Whole => append_refusal(500, out),
        Input::Faulty(status) => append_refusal(status, out),
        Input::Broken => Ok(()),
    }
}
