//! A whole response, as a handler gives it.
ghost use Rattle.std.specs.Prelude.{◌≡◌, ◌≤◌, ◌↔◌, false, [], ◌∷◌, ◌++◌, Some, IfOk, OnOk, decimal};
ghost use Rattle.std.specs.Result.{IsErrOf};
ghost use Rattle.http_header.specs.FieldName.{IsFieldName};
ghost use Rattle.http_header.specs.FieldValue.{IsFieldValue};
ghost use Rattle.serde_json.specs.Data.{depth};
ghost use Rattle.serde_json.specs.Read.{max_depth, read};
ghost use Rattle.serde_json.specs.View.{view};
ghost use Rattle.serde_json.specs.Written.{compact_text, has_float};
ghost use Rattle.asgi_types.specs.Fields.{field_of};
ghost use Rattle.asgi_protocol.specs.Rules.{has_no_content as has_no_content_at};
ghost use Rattle.asgi_handlers.specs.Locations.{uri_reference};
ghost use Rattle.asgi_handlers.specs.Making.{bare_reply, redirect_reply, reply_of, status_reply};

use crate::location::{is_field_value, uri_of};
use asgi_apps::AppFault;
use asgi_types::{HeaderError, Headers, Octets};
use itoa::Buffer;
use serde_json::Value;
use std::alloc::Global;

/// The status of a redirect to what is then got (RFC 9110, section 15.4.4).
const SEE_OTHER: u16 = 303;

const CONTENT_TYPE: &[u8] = b"content-type";

const CONTENT_LENGTH: &[u8] = b"content-length";

const LOCATION: &[u8] = b"location";

const TEXT: &str = "text/plain; charset=utf-8";

const HTML: &str = "text/html; charset=utf-8";

const JSON: &str = "application/json";

/// A response that is sent whole: one start and one body (ASGI HTTP and WebSocket message format
/// 2.4, "Response Start" and "Response Body").
#[derive(Debug, Drop)]
pub struct Reply {
    /// The status code of a final response, 200 to 599 (RFC 9110, section 15).
    pub status: u16,
    /// The fields, in the order in which they are sent.
    pub headers: Headers,
    /// The content.
    pub body: Octets,
}

impl Reply {
    /// A reply with this content, of this type (RFC 9110, section 8.3), with its length (section
    /// 8.6). With the status 204 or 304 it has neither content nor these fields (sections 15.3.5
    /// and 15.4.5). `Failed` if the type has a control byte, `NoMemory` if memory is refused.
    pub fn new(
        alloc: Global,
        status: u16,
        content_type: &str,
        content: Vec<u8>,
    ) -> Result<Self, AppFault>
        ensures made { IfOk result (λ reply. reply ≡ reply_of status content_type.now content.items) }
        ensures failed { IsErrOf result AppFault.Failed ↔ ((has_no_content_at status ≡ false) × (¬ (IsFieldValue content_type.now))) }
    {
        if has_no_content(status) {
            return Ok(bare(alloc, status));
        }
        let mut headers = Headers::new(alloc);
        if let Err(e) = push(&mut headers, CONTENT_TYPE, content_type.as_bytes()) {
            return Err(e);
        }
        push_length(&mut headers, content.as_slice().len())?;
        Ok(Reply {
            status,
            headers,
            body: Octets::new(content),
        })
    }

    /// 200 with this text, as `text/plain` in UTF-8. `NoMemory` if memory is refused.
    pub fn text(alloc: Global, text: &str) -> Result<Self, AppFault>
        ensures made { IfOk result (λ reply. reply ≡ reply_of 200 TEXT.now text.now) }
        ensures memory { ¬ (IsErrOf result AppFault.Failed) }
    {
        match Vec::from_slice(alloc, text.as_bytes()) {
            Ok(content) => Reply::new(alloc, 200, TEXT, content),
            Err(e) => Err(AppFault::NoMemory(e)),
        }
    }

    /// 200 with this page, as `text/html` in UTF-8. `NoMemory` if memory is refused.
    pub fn html(alloc: Global, page: &str) -> Result<Self, AppFault>
        ensures made { IfOk result (λ reply. reply ≡ reply_of 200 HTML.now page.now) }
        ensures memory { ¬ (IsErrOf result AppFault.Failed) }
    {
        match Vec::from_slice(alloc, page.as_bytes()) {
            Ok(content) => Reply::new(alloc, 200, HTML, content),
            Err(e) => Err(AppFault::NoMemory(e)),
        }
    }

    /// 200 with this value as JSON (RFC 8259), with no blanks. `NoMemory` if memory is refused.
    pub fn json(alloc: Global, value: &Value) -> Result<Self, AppFault>
        ensures made { IfOk result (λ reply. reply ≡ reply_of 200 JSON.now reply.body) }
        ensures text { IfOk result (λ reply. has_float (view value.now) ≡ false → reply.body ≡ compact_text (view value.now)) }
        ensures reads_back { IfOk result (λ reply. depth (view value.now) ≤ max_depth → read reply.body ≡ Some (view value.now)) }
        ensures memory { ¬ (IsErrOf result AppFault.Failed) }
    {
        match value.to_vec(alloc) {
            Ok(content) => Reply::new(alloc, 200, JSON, content),
            Err(e) => Err(AppFault::NoMemory(e)),
        }
    }

    /// 204 with no content. Takes no memory.
    pub fn empty(alloc: Global) -> Self
        ensures { result ≡ bare_reply 204 }
    {
        bare(alloc, 204)
    }

    /// This status with no content. `NoMemory` if memory is refused.
    pub fn status(alloc: Global, status: u16) -> Result<Self, AppFault>
        ensures made { IfOk result (λ reply. reply ≡ status_reply status) }
        ensures memory { ¬ (IsErrOf result AppFault.Failed) }
    {
        if has_no_content(status) {
            return Ok(bare(alloc, status));
        }
        let mut headers = Headers::new(alloc);
        push_length(&mut headers, 0)?;
        Ok(Reply {
            status,
            headers,
            body: Octets::new(Vec::new(alloc)),
        })
    }

    /// 303, with the place to get next (RFC 9110, sections 10.2.2 and 15.4.4): a text in which what
    /// stands in no URI is percent-encoded, such as a blank or a letter beyond ASCII; a `%` stays as
    /// it is. `Failed` if the location has a control byte, `NoMemory` if memory is refused.
    pub fn redirect(alloc: Global, location: &str) -> Result<Self, AppFault>
        ensures made { IfOk result (λ reply. reply ≡ redirect_reply (uri_reference location.now)) }
        ensures failed { IsErrOf result AppFault.Failed ↔ (¬ (IsFieldValue location.now)) }
    {
        let bytes = location.as_bytes();
        if !is_field_value(bytes) {
            return Err(AppFault::Failed);
        }
        match uri_of(alloc, bytes) {
            Ok(uri) => redirected(alloc, uri.as_slice()),
            Err(e) => Err(AppFault::NoMemory(e)),
        }
    }

    /// The reply with one more field, after the others. `Failed` if the name is no token or the
    /// value has a control byte, `NoMemory` if memory is refused.
    pub fn with_field(self, name: &str, value: &str) -> Result<Self, AppFault>
        ensures made { IfOk result (λ reply. reply ≡ record self { headers = self.headers ++ field_of name.now value.now ∷ [] }) }
        ensures failed { IsErrOf result AppFault.Failed ↔ (¬ (IsFieldName name.now × IsFieldValue value.now)) }
    {
        let Reply {
            status,
            mut headers,
            body,
        } = self;
        push(&mut headers, name.as_bytes(), value.as_bytes())?;
        Ok(Reply {
            status,
            headers,
            body,
        })
    }
}

/// Whether a response of this status has no content (RFC 9110, sections 15.3.5 and 15.4.5).
fn has_no_content(status: u16) -> bool
    ensures { result ≡ has_no_content_at status }
{
    status == 204 || status == 304
}

/// A reply with neither fields nor content. Takes no memory.
fn bare(alloc: Global, status: u16) -> Reply
    ensures { result ≡ bare_reply status }
{
    Reply {
        status,
        headers: Headers::new(alloc),
        body: Octets::new(Vec::new(alloc)),
    }
}

/// A redirect to this place. Only memory can be refused.
fn redirected(alloc: Global, uri: &[u8]) -> Result<Reply, AppFault>
    requires { IsFieldValue uri.now }
    ensures made { IfOk result (λ reply. reply ≡ redirect_reply uri.now) }
    ensures memory { ¬ (IsErrOf result AppFault.Failed) }
{
    let mut headers = Headers::new(alloc);
    if let Err(e) = push(&mut headers, LOCATION, uri) {
        return Err(e);
    }
    push_length(&mut headers, 0)?;
    Ok(Reply {
        status: SEE_OTHER,
        headers,
        body: Octets::new(Vec::new(alloc)),
    })
}

/// Adds a field. `Failed` if the name or the value is refused, `NoMemory` if memory is.
fn push(headers: &mut Headers, name: &[u8], value: &[u8]) -> Result<(), AppFault>
    ensures ok { OnOk result (headers.new ≡ headers.old ++ field_of name.now value.now ∷ []) }
    ensures failed { IsErrOf result AppFault.Failed ↔ (¬ (IsFieldName name.now × IsFieldValue value.now)) }
{
    match headers.push(name, value) {
        Ok(()) => Ok(()),
        Err(HeaderError::BadName) => Err(AppFault::Failed),
        Err(HeaderError::BadValue) => Err(AppFault::Failed),
        Err(HeaderError::NoMemory(e)) => Err(AppFault::NoMemory(e)),
    }
}

/// Adds the length of a content (RFC 9110, section 8.6). Only memory can be refused.
fn push_length(headers: &mut Headers, length: usize) -> Result<(), AppFault>
    ensures ok { OnOk result (headers.new ≡ headers.old ++ field_of CONTENT_LENGTH.now (decimal length) ∷ []) }
    ensures memory { ¬ (IsErrOf result AppFault.Failed) }
{
    let mut buffer = Buffer::new();
    push(headers, CONTENT_LENGTH, buffer.format(length).as_bytes())
}
