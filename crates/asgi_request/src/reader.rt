//! Requests out of bytes that come in any pieces.
ghost use Rattle.std.specs.Prelude.{◌≡◌, ◌≢◌, ◌↔◌, ◌+◌, ◌<◌, ◌≤◌, ◌++◌, ◌∷◌, [], ℕ, List, length, take, drop, OnOk, OnErr, IfOk, IsOk, IsTrue, IsFalse, true, false, Some, Ok};
ghost use Rattle.std.specs.Vec.{vec_len, vec_capacity};
ghost use Rattle.asgi_types.specs.Room.{LacksRoom};
ghost use Rattle.asgi_types.specs.declared.facts.Framing.{Framing};
ghost use Rattle.asgi_request.specs.Key.{IsKey};
ghost use Rattle.asgi_request.specs.Upgrade.{key_of};
ghost use Rattle.asgi_request.specs.declared.next.Next.{Next};
ghost use Rattle.asgi_request.specs.declared.place.Place.TheVariants.{Start};
ghost use Rattle.asgi_request.specs.declared.next.NextOfBody.{NextOfBody};
ghost use Rattle.asgi_request.specs.BodyResults as results;
ghost use Rattle.asgi_request.specs.Reading.{StandsFor, EndsWhole, AllGiven, WholeGiven, AwaitsHead, IsWaiting, IsRefused, Keeps, GoesOn, GoesOnInside};
ghost use Rattle.asgi_request.specs.Fronts.{too_long};
ghost use Rattle.asgi_request.specs.Places as places;
ghost use Rattle.asgi_request.specs.Places.{front};
ghost use Rattle.asgi_request.specs.Refusals.{status_of};
ghost use Rattle.asgi_request.specs.Scopes.{scope_of as scope_is, facts_of as facts_is};
ghost use Rattle.asgi_request.specs.private.Searches.{Advances, IsThere, IsWithin, Stepped, TakesText, after, front_of, is_silent, refusal_at, refused};

use crate::head::{HeadRecord, parse_head};
use crate::judge::{after_silent, body_place, why_too_long};
use crate::next::{Next, NextOfBody, next_of};
use crate::parts::is_trailer;
use crate::place::{Advance, Place};
use crate::refusal::Refusal;
use crate::scope::{facts_of, handshake_facts_of, http_scope_of, websocket_scope_of};
use crate::search::{Arrival, NEW_SEARCH, Search, arrive};
use crate::upgrade::request_framing;
use asgi_types::{Framing, Incoming, Limits, Octets};
use std::alloc::{AllocError, Global};
use std::marker::Model;

/// Reads requests out of bytes that come in any pieces (RFC 9112): heads, bodies and opening
/// handshakes, one request after another.
#[derive(Drop)]
pub struct RequestReader {
    alloc: Global,
    limits: Limits,
    bytes: Vec<u8>,
    /// The index at which the bytes after the last text begin.
    start: usize,
    place: Place,
    search: Search,
}

impl Model for RequestReader {
    ghost use Rattle.std.specs.Prelude.{◌≤◌, length, drop};
    ghost use Rattle.std.specs.Vec.{vec_capacity};
    ghost use Rattle.asgi_request.specs.Reading.{Reading};
    ghost use Rattle.asgi_request.specs.private.Searches.{Resumes};

    ghost Value = { Reading };

    ghost view = { λ r. record { limits = r.limits; place = r.place; held = drop r.start r.bytes.items; capacity = vec_capacity r.bytes } };

    ghost invariant = { λ r. (r.start ≤ length r.bytes.items) × Resumes r.place r.search (drop r.start r.bytes.items) };
}

impl RequestReader {
    /// A reader that was fed nothing, with the limits of its connection. It takes no memory.
    pub fn new(alloc: Global, limits: Limits) -> Self
        ensures limits { result.limits ≡ limits }
        ensures empty { StandsFor result [] [] }
        ensures capacity { result.capacity ≡ 0 }
    {
        RequestReader {
            alloc,
            limits,
            bytes: Vec::new(alloc),
            start: 0,
            place: Place::Start,
            search: NEW_SEARCH,
        }
    }

    /// Takes the next bytes that came, a piece of any length. `AllocError` if memory for the bytes
    /// held and these is refused; then the reader is as before, without the piece.
    pub fn feed(&mut self, piece: &[u8]) -> Result<(), AllocError>
        ensures fed { OnOk result ((bytes : List ℕ) (given : List Next) → StandsFor self.old bytes given → StandsFor self.new (bytes ++ piece.now) given) }
        ensures refused { (status : ℕ) → IsRefused self.old status → IsRefused self.new status }
        ensures limits { self.new.limits ≡ self.old.limits }
        ensures capacity { self.old.capacity ≤ self.new.capacity }
        ensures err { OnErr result (self.new ≡ self.old) }
        ensures full { OnErr result (LacksRoom self.old.capacity (length self.old.held) piece.now) }
    {
        self.compact();
        if self.feed_within(piece) {
            return Ok(());
        }
        self.feed_crowded(piece)
    }

    /// Takes the next piece if there is room for it, and returns whether there was.
    fn feed_within(&mut self, piece: &[u8]) -> bool
        ensures fed { IsTrue result → (bytes : List ℕ) (given : List Next) → StandsFor self.old bytes given → StandsFor self.new (bytes ++ piece.now) given }
        ensures place { (self.new.place ≡ self.old.place) × (self.new.limits ≡ self.old.limits) }
        ensures capacity { self.old.capacity ≤ self.new.capacity }
        ensures kept { IsFalse result → self.new ≡ self.old }
    {
        if self.bytes.capacity() - self.bytes.len() < piece.len() {
            return false;
        }
        match self.bytes.extend_from_slice(piece) {
            Ok(()) => true,
            Err(_) => unreachable!(),
        }
    }

    /// Takes the next piece, for which room is made first. Not inlined, since most pieces have room.
    #[cold]
    #[inline(never)]
    fn feed_crowded(&mut self, piece: &[u8]) -> Result<(), AllocError>
        ensures fed { OnOk result ((bytes : List ℕ) (given : List Next) → StandsFor self.old bytes given → StandsFor self.new (bytes ++ piece.now) given) }
        ensures place { (self.new.place ≡ self.old.place) × (self.new.limits ≡ self.old.limits) }
        ensures capacity { self.old.capacity ≤ self.new.capacity }
        ensures err { OnErr result (self.new ≡ self.old) }
        ensures full { OnErr result (LacksRoom self.old.capacity (length self.old.held) piece.now) }
    {
        make_room(&mut self.bytes, &mut self.start, piece.len())?;
        // The room is there, so this never fails: only its type allows a failure.
        self.bytes.extend_from_slice(piece)?;
        Ok(())
    }

    /// Drops the bytes that were read, once they are more than half of all.
    fn compact(&mut self)
        ensures { self.new ≡ self.old }
    {
        if self.start > self.bytes.len() - self.start {
            drop_front(&mut self.bytes, self.start);
            self.start = 0;
        }
    }

    /// The next result; `Need` if more bytes are needed, and always after an opening handshake; or
    /// the last `Bad` again. `AllocError` if memory is refused for a head or a body event; then no
    /// result is lost, and the call may be made again. A `Bad` is given again without memory.
    pub fn next(&mut self) -> Result<Next, AllocError>
        ensures need { IfOk result (λ next. next ≡ Next.Need → (bytes : List ℕ) (given : List Next) → StandsFor self.old bytes given → StandsFor self.new bytes given × AllGiven self.new bytes given) }
        ensures waits { IfOk result (λ next. next ≡ Next.Need → IsWaiting self.new) }
        ensures given { IfOk result (λ next. next ≢ Next.Need → ((status : ℕ) → ¬ (IsRefused self.old status)) → GoesOn self.old self.new next) }
        ensures refused { IfOk result (λ next. (status : ℕ) → next ≡ Next.Bad status → IsRefused self.new status) }
        ensures again { IfOk result (λ next. (status : ℕ) → IsRefused self.old status → (next ≡ Next.Bad status) × (self.new ≡ self.old)) }
        ensures sure { (status : ℕ) → IsRefused self.old status → IsOk result }
        ensures limits { self.new.limits ≡ self.old.limits }
        ensures capacity { self.new.capacity ≡ self.old.capacity }
        ensures err { OnErr result (Keeps self.old self.new) }
    {
        if let Place::Stopped(refusal) = self.place {
            return Ok(Next::Bad(refusal.status()));
        }
        match self.advance() {
            Advance::Waits => Ok(Next::Need),
            Advance::Refuses(refusal) => Ok(Next::Bad(refusal.status())),
            Advance::Gives(n) => self.give(n),
        }
    }

    /// The next result inside a request, as `next` gives it, without the place that a head takes; where
    /// a head is due, `Whole`, and nothing changes. `AllocError` as of `next`.
    pub fn next_of_body(&mut self) -> Result<NextOfBody, AllocError>
        ensures need { IfOk result (λ next. results.next_of next ≡ Next.Need → (bytes : List ℕ) (given : List Next) → StandsFor self.old bytes given → StandsFor self.new bytes given × AllGiven self.new bytes given) }
        ensures waits { IfOk result (λ next. results.next_of next ≡ Next.Need → IsWaiting self.new) }
        ensures given { IfOk result (λ next. results.next_of next ≢ Next.Need → ((status : ℕ) → ¬ (IsRefused self.old status)) → GoesOnInside self.old self.new (results.next_of next)) }
        ensures between { AwaitsHead self.old → (result ≡ Ok NextOfBody.Whole) × (self.new ≡ self.old) }
        ensures refused { IfOk result (λ next. (status : ℕ) → results.next_of next ≡ Next.Bad status → IsRefused self.new status) }
        ensures again { IfOk result (λ next. (status : ℕ) → IsRefused self.old status → (results.next_of next ≡ Next.Bad status) × (self.new ≡ self.old)) }
        ensures sure { (status : ℕ) → IsRefused self.old status → IsOk result }
        ensures limits { self.new.limits ≡ self.old.limits }
        ensures capacity { self.new.capacity ≡ self.old.capacity }
        ensures err { OnErr result (Keeps self.old self.new) }
    {
        if let Place::Stopped(refusal) = self.place {
            return Ok(NextOfBody::Bad(refusal.status()));
        }
        if let Place::Start = self.place {
            return Ok(NextOfBody::Whole);
        }
        match self.advance() {
            Advance::Waits => Ok(NextOfBody::Need),
            Advance::Refuses(refusal) => Ok(NextOfBody::Bad(refusal.status())),
            Advance::Gives(n) => self.give_body(n),
        }
    }

    /// Whether all results of the bytes fed were given: true if more bytes are needed, after a
    /// refusal, and after the `Whole` of an opening handshake. False while a whole text that gives
    /// no result, such as a size line, is still to be passed. It takes no memory.
    pub fn is_waiting(&mut self) -> bool
        ensures waits { IsTrue result ↔ IsWaiting self.old }
        ensures all { IsTrue result → (bytes : List ℕ) (given : List Next) → StandsFor self.old bytes given → AllGiven self.old bytes given }
        ensures same { self.new ≡ self.old }
    {
        match self.arrive() {
            Arrival::Partial => true,
            Arrival::TooLong | Arrival::Text(_) => false,
        }
    }

    /// Goes past the texts that give no result, up to one that gives one.
    fn advance(&mut self) -> Advance
        ensures advances { Advances self.old self.new result }
        ensures inside { self.old.place ≢ Place.Start → self.new.place ≢ Place.Start }
        ensures limits { self.new.limits ≡ self.old.limits }
        ensures capacity { self.new.capacity ≡ self.old.capacity }
    {
        loop {
            match self.arrive() {
                Arrival::Partial => return Advance::Waits,
                Arrival::TooLong => return Advance::Refuses(self.stop()),
                Arrival::Text(n) => {
                    if !self.place.is_silent() {
                        return Advance::Gives(n);
                    }
                    if let Some(refusal) = self.pass(n) {
                        return Advance::Refuses(refusal);
                    }
                }
            }
        }
    }

    /// What the bytes begin with.
    fn arrive(&mut self) -> Arrival
        ensures kept { self.new ≡ self.old }
        ensures front { front_of self.old.held result ≡ front self.old.limits self.old.place self.old.held }
        ensures within { IsWithin self.old.held result }
    {
        arrive(
            &self.limits,
            self.place,
            &self.bytes[self.start..],
            &mut self.search,
        )
    }

    /// Refuses bytes with no text within its limit.
    fn stop(&mut self) -> Refusal
        requires { front self.old.limits self.old.place self.old.held ≡ too_long }
        ensures steps { Stepped self.old self.new (Some (Next.Bad (status_of result))) }
        ensures place { self.new.place ≡ Place.Stopped result }
    {
        let refusal = why_too_long(self.place);
        self.go_on(0, Place::Stopped(refusal));
        refusal
    }

    /// Moves past a text that gives no result, or refuses it.
    fn pass(&mut self, n: usize) -> Option<Refusal>
        requires there { IsThere self.old n }
        requires silent { is_silent self.old.place ≡ true }
        ensures steps { Stepped self.old self.new (refused result) }
        ensures place { result ≡ refusal_at self.new.place }
    {
        let place = after_silent(&self.limits, self.place, self.text(n));
        self.go_on(n, place);
        place.refusal()
    }

    /// The result of a text.
    fn give(&mut self, n: usize) -> Result<Next, AllocError>
        requires there { IsThere self.old n }
        requires loud { is_silent self.old.place ≡ false }
        ensures ok { IfOk result (λ item. TakesText self.old self.new self.old.place n item) }
        ensures err { OnErr result (self.new ≡ self.old) }
    {
        if let Place::Start = self.place {
            return self.give_head(n);
        }
        Ok(next_of(self.give_body(n)?))
    }

    /// The result of a text that is no head.
    fn give_body(&mut self, n: usize) -> Result<NextOfBody, AllocError>
        requires there { IsThere self.old n }
        requires loud { is_silent self.old.place ≡ false }
        requires inside { self.old.place ≢ Place.Start }
        ensures ok { IfOk result (λ item. TakesText self.old self.new self.old.place n (results.next_of item)) }
        ensures err { OnErr result (self.new ≡ self.old) }
    {
        match self.place {
            Place::Counted(left) => self.give_counted(n, left),
            Place::Chunk { left, sum } => self.give_chunk(n, left, sum),
            Place::Trailers => Ok(self.give_trailers(n)),
            Place::BodyEnd => Ok(self.give_whole(n)),
            Place::HandshakeEnd => Ok(self.give_upgraded(n)),
            Place::Start | Place::SizeLine(_) | Place::ChunkEnd(_) => unreachable!(),
            Place::Upgraded | Place::Stopped(_) => unreachable!(),
        }
    }

    /// The request of a head, or its refusal.
    fn give_head(&mut self, n: usize) -> Result<Next, AllocError>
        requires inside { n ≤ length self.old.held }
        requires short { n ≤ self.old.limits.max_head }
        ensures ok { IfOk result (λ item. TakesText self.old self.new Place.Start n item) }
        ensures err { OnErr result (self.new ≡ self.old) }
    {
        let Some(head) = parse_head(self.alloc, self.limits.max_headers, self.text(n))? else {
            return Ok(Next::Bad(self.refuse(n, Refusal::BadRequest)));
        };
        match request_framing(&head, &self.limits) {
            Err(refusal) => Ok(Next::Bad(self.refuse(n, refusal))),
            Ok(framing) => self.give_request(n, head, framing),
        }
    }

    /// The request of a head with this framing.
    fn give_request(
        &mut self,
        n: usize,
        head: HeadRecord,
        framing: Framing,
    ) -> Result<Next, AllocError>
        requires inside { n ≤ length self.old.held }
        requires key { framing ≡ Framing.Upgrade → IsKey (key_of head.headers) }
        ensures item { IfOk result (λ item. item ≡ Next.Head (scope_is head framing) (facts_is head framing)) }
        ensures ok { OnOk result (self.new ≡ after self.old n (places.body_place framing)) }
        ensures err { OnErr result (self.new ≡ self.old) }
    {
        match framing {
            Framing::Length(_) | Framing::Chunked => {
                let facts = facts_of(self.alloc, &head, framing);
                let scope = http_scope_of(self.alloc, head)?;
                self.go_on(n, body_place(framing));
                Ok(Next::Head(scope, facts))
            }
            Framing::Upgrade => self.give_handshake(n, head),
        }
    }

    /// The opening handshake of a head.
    fn give_handshake(&mut self, n: usize, head: HeadRecord) -> Result<Next, AllocError>
        requires inside { n ≤ length self.old.held }
        requires key { IsKey (key_of head.headers) }
        ensures item { IfOk result (λ item. item ≡ Next.Head (scope_is head Framing.Upgrade) (facts_is head Framing.Upgrade)) }
        ensures ok { OnOk result (self.new ≡ after self.old n Place.HandshakeEnd) }
        ensures err { OnErr result (self.new ≡ self.old) }
    {
        let facts = handshake_facts_of(self.alloc, &head)?;
        let scope = websocket_scope_of(self.alloc, head)?;
        self.go_on(n, Place::HandshakeEnd);
        Ok(Next::Head(scope, facts))
    }

    /// The next block of a body whose length was announced.
    fn give_counted(&mut self, n: usize, left: u64) -> Result<NextOfBody, AllocError>
        requires { n ≤ length self.old.held }
        ensures ok { IfOk result (λ item. TakesText self.old self.new (Place.Counted left) n (results.next_of item)) }
        ensures err { OnErr result (self.new ≡ self.old) }
    {
        let taken = n as u64;
        if taken < left {
            return self.give_block(n, true, Place::Counted(left - taken));
        }
        self.give_block(n, false, Place::BodyEnd)
    }

    /// The next block of a chunk.
    fn give_chunk(&mut self, n: usize, left: u64, sum: u64) -> Result<NextOfBody, AllocError>
        requires { n ≤ length self.old.held }
        ensures ok { IfOk result (λ item. TakesText self.old self.new (Place.Chunk left sum) n (results.next_of item)) }
        ensures err { OnErr result (self.new ≡ self.old) }
    {
        let taken = n as u64;
        if taken < left {
            let left = left - taken;
            return self.give_block(n, true, Place::Chunk { left, sum });
        }
        self.give_block(n, true, Place::ChunkEnd(sum))
    }

    /// The event of a block, after which `place` is due.
    fn give_block(
        &mut self,
        n: usize,
        more_body: bool,
        place: Place,
    ) -> Result<NextOfBody, AllocError>
        requires { n ≤ length self.old.held }
        ensures item { IfOk result (λ item. item ≡ NextOfBody.Event (Incoming.HttpRequest (take n self.old.held) more_body)) }
        ensures ok { OnOk result (self.new ≡ after self.old n place) }
        ensures err { OnErr result (self.new ≡ self.old) }
    {
        let body = Octets::new(Vec::from_slice(self.alloc, self.text(n))?);
        self.go_on(n, place);
        Ok(NextOfBody::Event(Incoming::HttpRequest { body, more_body }))
    }

    /// The empty event after a trailer section, or its refusal.
    fn give_trailers(&mut self, n: usize) -> NextOfBody
        requires { n ≤ length self.old.held }
        ensures { TakesText self.old self.new Place.Trailers n (results.next_of result) }
    {
        if !is_trailer(self.limits.max_headers, self.text(n)) {
            return NextOfBody::Bad(self.refuse(n, Refusal::BadRequest));
        }
        self.go_on(n, Place::BodyEnd);
        let body = Octets::new(Vec::new(self.alloc));
        let more_body = false;
        NextOfBody::Event(Incoming::HttpRequest { body, more_body })
    }

    /// The end of a request.
    fn give_whole(&mut self, n: usize) -> NextOfBody
        requires { n ≤ length self.old.held }
        ensures { TakesText self.old self.new Place.BodyEnd n (results.next_of result) }
    {
        self.go_on(n, Place::Start);
        NextOfBody::Whole
    }

    /// The end of an opening handshake.
    fn give_upgraded(&mut self, n: usize) -> NextOfBody
        requires { n ≤ length self.old.held }
        ensures { TakesText self.old self.new Place.HandshakeEnd n (results.next_of result) }
    {
        self.go_on(n, Place::Upgraded);
        NextOfBody::Whole
    }

    /// Refuses a text, and returns the status.
    fn refuse(&mut self, n: usize, refusal: Refusal) -> u16
        requires { n ≤ length self.old.held }
        ensures status { result ≡ status_of refusal }
        ensures stopped { self.new ≡ after self.old n (Place.Stopped refusal) }
    {
        self.go_on(n, Place::Stopped(refusal));
        refusal.status()
    }

    /// Moves past `n` bytes, after which `place` is due.
    fn go_on(&mut self, n: usize, place: Place)
        requires { n ≤ length self.old.held }
        ensures { self.new ≡ after self.old n place }
    {
        self.start += n;
        self.place = place;
        self.search = NEW_SEARCH;
    }

    /// The first `n` bytes after the last text.
    fn text(&self, n: usize) -> &[u8]
        requires { n ≤ length self.now.held }
        ensures { result.now ≡ take n self.now.held }
    {
        &self.bytes[self.start..self.start + n]
    }

    /// The bytes after the last `Whole`, or all of them if none was given yet; to be called while
    /// no `Head` or `Bad` has followed. It takes no memory.
    pub fn held(&self) -> &[u8]
        ensures { (bytes : List ℕ) (given : List Next) → StandsFor self.now bytes given → EndsWhole given → WholeGiven self.now bytes given result.now }
    {
        let start = self.start;
        &self.bytes[start..]
    }

    /// The same bytes, in the reader's own memory: after an opening handshake they are the first
    /// of its frames (RFC 6455, section 5). It takes no memory.
    pub fn rest(self) -> Vec<u8>
        ensures { (bytes : List ℕ) (given : List Next) → StandsFor self bytes given → EndsWhole given → WholeGiven self bytes given result.items }
    {
        let RequestReader { bytes, start, .. } = self;
        let mut bytes = bytes;
        drop_front(&mut bytes, start);
        bytes
    }
}

/// Makes room for `more` bytes: if memory is refused, in the space of those before `start`, which were read.
fn make_room(bytes: &mut Vec<u8>, start: &mut usize, more: usize) -> Result<(), AllocError>
    requires { start.old ≤ length bytes.old.items }
    ensures held { drop start.new bytes.new.items ≡ drop start.old bytes.old.items }
    ensures inside { start.new ≤ length bytes.new.items }
    ensures ok { OnOk result (vec_len bytes.new + more ≤ vec_capacity bytes.new) }
    ensures capacity { vec_capacity bytes.old ≤ vec_capacity bytes.new }
    ensures err { OnErr result (vec_capacity bytes.new ≡ vec_capacity bytes.old) }
    ensures full { OnErr result (vec_capacity bytes.old < length (drop start.old bytes.old.items) + more) }
{
    if bytes.reserve(more).is_ok() {
        return Ok(());
    }
    drop_front(bytes, *start);
    *start = 0;
    bytes.reserve(more)
}

/// Drops the first `count` bytes. The capacity stays.
fn drop_front(bytes: &mut Vec<u8>, count: usize)
    requires { count ≤ length bytes.old.items }
    ensures items { bytes.new.items ≡ drop count bytes.old.items }
    ensures capacity { vec_capacity bytes.new ≡ vec_capacity bytes.old }
{
    let rest = bytes.len() - count;
    bytes.copy_within(count.., 0);
    bytes.truncate(rest);
}
