//! The judge of what an application sends.
ghost use Rattle.std.specs.Prelude.{◌≡◌, ◌≢◌, Bool, false, ◌||◌, List, [], ◌∷◌, ◌++◌};
ghost use Rattle.asgi_types.specs.declared.scope.Kind.{Kind};
ghost use Rattle.asgi_types.specs.declared.facts.Facts.{Facts};
ghost use Rattle.asgi_types.specs.declared.outgoing.Outgoing.{Outgoing};
ghost use Rattle.asgi_protocol.specs.Stages.{StandsFor};
ghost use Rattle.asgi_protocol.specs.private.Steps.{lines_at, length_in, stage_after, after_body as after_body_of, after_content as after_content_of, bytes_left as left_of, has_place as has_place_for, is_ended as has_ended, is_content_due as content_is_due, are_trailers_due as trailers_are_due, takes_too_much as is_too_much, leaves_too_much as is_too_little};
ghost use Rattle.asgi_protocol.specs.Shapes.{is_of as is_event_of, is_closed as is_whole};
ghost use Rattle.asgi_protocol.specs.Verdicts.{verdict_on, first_line, verdict_on_closed, is_disconnect as is_disconnect_event};

use crate::rules::{
    has_bad_code, has_bad_header, has_bad_reason, has_bad_status, has_bad_subprotocol, length_of,
    promised_length,
};
use crate::{BytesLeft, ContentLength, Verdict, Violation};
use asgi_types::{Facts, Incoming, Kind, Octets, Outgoing};

/// What is due of a response that has started.
#[derive(Clone, Copy, Debug)]
enum Due {
    /// Bodies, up to the last one.
    Content,
    /// Bodies, and then trailers.
    ContentAndTrailers,
    /// Trailers, up to the last ones.
    TrailersAlone,
}

/// How far the conversation has come.
#[derive(Clone, Copy, Debug)]
enum Stage {
    /// Nothing was sent.
    Fresh,
    /// A response or a denial has started, and its bodies are counted.
    ResponseStarted { left: BytesLeft, due: Due },
    /// The session was accepted.
    Accepted,
    /// The startup is complete.
    LifespanStarted,
    /// All was sent.
    Ended,
}

/// Passes an event if it may lawfully follow those passed before (ASGI HTTP and WebSocket message
/// format 2.4, lifespan protocol 2.0). It takes no memory.
#[derive(Clone, Copy, Debug)]
pub struct Judge {
    kind: Kind,
    stage: Stage,
    disconnected: bool,
}

impl Judge {
    /// A judge for one scope of this kind, in which nothing was sent and no disconnect was
    /// received.
    pub fn new(kind: Kind) -> Self
        ensures { (facts : Facts) → StandsFor result kind facts [] false }
    {
        Judge {
            kind,
            stage: Stage::Fresh,
            disconnected: false,
        }
    }

    /// The verdict on the event, which is not sent by this call. The facts are those of the request
    /// of the scope, the same at each call.
    pub fn look(&self, facts: &Facts, event: &Outgoing) -> Verdict
        ensures { (kind : Kind) → (said : List Outgoing) → (disconnected : Bool)
            → StandsFor self.now kind facts.now said disconnected
            → result ≡ verdict_on kind facts.now said disconnected event.now }
    {
        self.verdict(facts, event, length_of(event))
    }

    /// The verdict on the event, which counts as sent if it passes. At any other verdict the judge
    /// stays as it was. The facts are those of the request, the same at each call.
    pub fn judge(&mut self, facts: &Facts, event: &Outgoing) -> Verdict
        ensures verdict { (kind : Kind) → (said : List Outgoing) → (disconnected : Bool)
            → StandsFor self.old kind facts.now said disconnected
            → result ≡ verdict_on kind facts.now said disconnected event.now }
        ensures passed { result ≡ Verdict.Pass
            → (kind : Kind) → (said : List Outgoing) → (disconnected : Bool)
            → StandsFor self.old kind facts.now said disconnected
            → StandsFor self.new kind facts.now (said ++ event.now ∷ []) disconnected }
        ensures kept { result ≢ Verdict.Pass → self.new ≡ self.old }
    {
        let length = length_of(event);
        let verdict = self.verdict(facts, event, length);
        if let Verdict::Pass = verdict {
            self.stage = self.stage.after(facts, event, length);
        }
        verdict
    }

    /// Whether the events that passed are all that may be sent: the last of them was the closing one.
    pub fn is_closed(&self) -> bool
        ensures { (kind : Kind) → (facts : Facts) → (said : List Outgoing) → (disconnected : Bool)
            → StandsFor self.now kind facts said disconnected
            → result ≡ is_whole kind said }
    {
        self.stage.is_ended()
    }

    /// Records that the application received the event. After a disconnect nothing passes any more
    /// (ASGI HTTP and WebSocket message format 2.4, "Disconnected Client"); any other event changes
    /// nothing.
    pub fn heard(&mut self, event: &Incoming)
        ensures { (kind : Kind) → (facts : Facts) → (said : List Outgoing) → (disconnected : Bool)
            → StandsFor self.old kind facts said disconnected
            → StandsFor self.new kind facts said (disconnected || is_disconnect_event event.now) }
    {
        if is_disconnect(event) {
            self.disconnected = true;
        }
    }

    /// The first line of the table that holds, else `Pass`, by what the content-length fields of the
    /// event give.
    fn verdict(&self, facts: &Facts, event: &Outgoing, length: ContentLength) -> Verdict
        requires { length ≡ length_in event.now }
        ensures { result ≡ first_line self.now.kind (lines_at self.now facts.now event.now) }
    {
        if let Stage::Ended = self.stage {
            return on_closed(self.kind);
        }
        if self.disconnected {
            return Verdict::from(Violation::Disconnected);
        }
        if !is_of(self.kind, event) {
            return Verdict::from(Violation::WrongScope);
        }
        if !self.stage.has_place(event) {
            return Verdict::from(Violation::OutOfOrder);
        }
        if has_bad_status(event) {
            return Verdict::from(Violation::BadStatus);
        }
        if has_bad_header(event, length) {
            return Verdict::from(Violation::BadHeader);
        }
        if has_bad_code(event) {
            return Verdict::from(Violation::BadCode);
        }
        if has_bad_reason(event) {
            return Verdict::from(Violation::BadReason);
        }
        if has_bad_subprotocol(facts, event) {
            return Verdict::from(Violation::BadSubprotocol);
        }
        if self.stage.takes_too_much(event) {
            return Verdict::from(Violation::TooMuchBody);
        }
        if self.stage.leaves_too_much(event) {
            return Verdict::from(Violation::TooLittleBody);
        }
        Verdict::Pass
    }
}

impl Stage {
    /// Whether the stage has a place for the event, which is of its kind of scope.
    fn has_place(self, event: &Outgoing) -> bool
        ensures { result ≡ has_place_for self event.now }
    {
        match event {
            Outgoing::ResponseStart { .. }
            | Outgoing::DenialStart { .. }
            | Outgoing::WsAccept { .. }
            | Outgoing::StartupComplete { .. }
            | Outgoing::StartupFailed { .. } => matches!(self, Stage::Fresh),
            Outgoing::ResponseBody { .. } | Outgoing::DenialBody { .. } => self.is_content_due(),
            Outgoing::ResponseTrailers { .. } => self.are_trailers_due(),
            Outgoing::WsSend { .. } => matches!(self, Stage::Accepted),
            Outgoing::WsClose { .. } => matches!(self, Stage::Fresh | Stage::Accepted),
            Outgoing::ShutdownComplete | Outgoing::ShutdownFailed { .. } => {
                matches!(self, Stage::LifespanStarted)
            }
        }
    }

    /// Whether all was sent.
    fn is_ended(self) -> bool
        ensures { result ≡ has_ended self }
    {
        matches!(self, Stage::Ended)
    }

    /// Whether bodies are due.
    fn is_content_due(self) -> bool
        ensures { result ≡ content_is_due self }
    {
        match self {
            Stage::ResponseStarted { due, .. } => {
                matches!(due, Due::Content | Due::ContentAndTrailers)
            }
            Stage::Fresh | Stage::Accepted | Stage::LifespanStarted | Stage::Ended => false,
        }
    }

    /// Whether trailers are due.
    fn are_trailers_due(self) -> bool
        ensures { result ≡ trailers_are_due self }
    {
        match self {
            Stage::ResponseStarted { due, .. } => matches!(due, Due::TrailersAlone),
            Stage::Fresh | Stage::Accepted | Stage::LifespanStarted | Stage::Ended => false,
        }
    }

    /// Whether the event is a body with more bytes than are left.
    fn takes_too_much(self, event: &Outgoing) -> bool
        ensures { result ≡ is_too_much self event.now }
    {
        let left = self.bytes_left();
        match event {
            Outgoing::ResponseBody { body, .. } => left.is_exceeded_by(body.bytes().len()),
            Outgoing::DenialBody { body, .. } => left.is_exceeded_by(body.bytes().len()),
            _ => false,
        }
    }

    /// Whether the event is a last body with fewer bytes than are left.
    fn leaves_too_much(self, event: &Outgoing) -> bool
        ensures { result ≡ is_too_little self event.now }
    {
        let left = self.bytes_left();
        match event {
            Outgoing::ResponseBody { body, more_body } => {
                !*more_body && left.exceeds(body.bytes().len())
            }
            Outgoing::DenialBody { body, more_body } => {
                !*more_body && left.exceeds(body.bytes().len())
            }
            _ => false,
        }
    }

    /// The bytes that are left of the length that a start gave.
    fn bytes_left(self) -> BytesLeft
        ensures { result ≡ left_of self }
    {
        match self {
            Stage::ResponseStarted { left, .. } => left,
            Stage::Fresh | Stage::Accepted | Stage::LifespanStarted | Stage::Ended => BytesLeft::of(
                None,
            ),
        }
    }

    /// The stage after an event that passed, by what the content-length fields of the event give.
    fn after(self, facts: &Facts, event: &Outgoing, length: ContentLength) -> Stage
        requires { length ≡ length_in event.now }
        ensures { result ≡ stage_after facts.now self event.now }
    {
        match event {
            Outgoing::ResponseStart { trailers, .. } => Stage::ResponseStarted {
                left: BytesLeft::of(promised_length(facts, event, length)),
                due: if *trailers {
                    Due::ContentAndTrailers
                } else {
                    Due::Content
                },
            },
            Outgoing::DenialStart { .. } => Stage::ResponseStarted {
                left: BytesLeft::of(promised_length(facts, event, length)),
                due: Due::Content,
            },
            Outgoing::ResponseBody { body, more_body } => self.after_body(body, *more_body),
            Outgoing::ResponseTrailers { more_trailers, .. } => {
                if *more_trailers { self } else { Stage::Ended }
            }
            Outgoing::DenialBody { body, more_body } => self.after_body(body, *more_body),
            Outgoing::WsAccept { .. } | Outgoing::WsSend { .. } => Stage::Accepted,
            Outgoing::StartupComplete { .. } => Stage::LifespanStarted,
            Outgoing::WsClose { .. }
            | Outgoing::StartupFailed { .. }
            | Outgoing::ShutdownComplete
            | Outgoing::ShutdownFailed { .. } => Stage::Ended,
        }
    }

    fn after_body(self, body: &Octets, more_body: bool) -> Stage
        ensures { result ≡ after_body_of self body.now more_body }
    {
        match self {
            Stage::ResponseStarted { left, due } => {
                let left = left.after(body.bytes().len());
                if more_body {
                    Stage::ResponseStarted { left, due }
                } else {
                    due.after_content(left)
                }
            }
            Stage::Fresh | Stage::Accepted | Stage::LifespanStarted | Stage::Ended => Stage::Ended,
        }
    }
}

impl Due {
    /// The stage after the last body.
    fn after_content(self, left: BytesLeft) -> Stage
        ensures { result ≡ after_content_of (Stage.ResponseStarted left self) left }
    {
        match self {
            Due::ContentAndTrailers => Stage::ResponseStarted {
                left,
                due: Due::TrailersAlone,
            },
            Due::Content | Due::TrailersAlone => Stage::Ended,
        }
    }
}

/// After a whole response a server ignores what is sent; in other scopes that is refused.
fn on_closed(kind: Kind) -> Verdict
    ensures { result ≡ verdict_on_closed kind }
{
    match kind {
        Kind::Http => Verdict::Ignored,
        Kind::WebSocket | Kind::Lifespan => Verdict::from(Violation::Closed),
    }
}

/// Whether the event belongs to a scope of this kind.
fn is_of(kind: Kind, event: &Outgoing) -> bool
    ensures { result ≡ is_event_of kind event.now }
{
    match event {
        Outgoing::ResponseStart { .. }
        | Outgoing::ResponseBody { .. }
        | Outgoing::ResponseTrailers { .. } => matches!(kind, Kind::Http),
        Outgoing::WsAccept { .. }
        | Outgoing::WsSend { .. }
        | Outgoing::WsClose { .. }
        | Outgoing::DenialStart { .. }
        | Outgoing::DenialBody { .. } => matches!(kind, Kind::WebSocket),
        Outgoing::StartupComplete { .. }
        | Outgoing::StartupFailed { .. }
        | Outgoing::ShutdownComplete
        | Outgoing::ShutdownFailed { .. } => matches!(kind, Kind::Lifespan),
    }
}

fn is_disconnect(event: &Incoming) -> bool
    ensures { result ≡ is_disconnect_event event.now }
{
    match event {
        Incoming::HttpDisconnect => true,
        Incoming::WsDisconnect { .. } => true,
        _ => false,
    }
}
