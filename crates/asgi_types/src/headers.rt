//! Header fields in their order.
ghost use Rattle.std.specs.Prelude.{◌≡◌, ◌≤◌, [], ◌∷◌, ◌++◌, ℕ, List, IfOk, IsOk, OnOk, OnErr, IfSome, IsNone, IsTrue, ◌↔◌, length, drop, slice_get, Some, All};
ghost use Rattle.std.specs.Result.{IsErrOf};
ghost use Rattle.http_header.specs.FieldName.{IsFieldName};
ghost use Rattle.http_header.specs.FieldValue.{IsFieldValue};
ghost use Rattle.std.specs.Iterator.{YieldsFirstBy, item_count};
ghost use Rattle.http_header.specs.Token.{lowercase};
ghost use Rattle.asgi_types.specs.Fields.{HeaderField, IsValidField, field_of, shown};
ghost use Rattle.asgi_types.specs.Spans.{field_at, span_after, IsSpanIn};

use http_header::is_token;
use std::alloc::{AllocError, Global};
use std::marker::Model;
use thiserror::Error;

/// Why a field was not added.
#[derive(Clone, Copy, Debug, PartialEq, Eq, Error)]
pub enum HeaderError {
    /// The name is empty or otherwise no token (RFC 9110, sections 5.1 and 5.6.2), or has more than
    /// 65,535 bytes.
    #[error("the field name is no token of at most 65,535 bytes")]
    BadName,
    /// The value has a control byte other than the tab (RFC 9110, section 5.5).
    #[error("the field value has a control byte")]
    BadValue,
    /// Memory was refused.
    #[error(transparent)]
    NoMemory(#[from(alloc)] AllocError),
}

/// Where a field stands in the text: its name in `start..middle`, its value in `middle..end`.
#[derive(Clone, Copy, Debug)]
pub struct Span {
    start: usize,
    middle: usize,
    end: usize,
}

/// Header fields in the order in which they were added, their names in lower case (RFC 9110,
/// section 5).
#[derive(Debug, Drop)]
pub struct Headers {
    text: Vec<u8>,
    spans: Vec<Span>,
}

impl Model for Headers {
    ghost use Rattle.std.specs.Prelude.{List, map};
    ghost use Rattle.asgi_types.specs.Fields.{HeaderField};
    ghost use Rattle.asgi_types.specs.Spans.{field_at, HoldsFields};

    ghost Value = { List HeaderField };

    ghost view = { λ h. map (field_at h.text.items) h.spans.items };

    ghost invariant = { λ h. HoldsFields h.text.items h.spans.items };
}

impl Headers {
    /// No fields. It takes no memory.
    pub fn new(alloc: Global) -> Self
        ensures { result ≡ [] }
    {
        Headers {
            text: Vec::new(alloc),
            spans: Vec::new(alloc),
        }
    }

    /// No fields, with room for this many fields, whose names and values have this many bytes in
    /// all. `AllocError` if memory is refused. For the crates of this repository only.
    #[doc(hidden)]
    pub fn with_room(alloc: Global, fields: usize, bytes: usize) -> Result<Self, AllocError>
        ensures { IfOk result (λ headers. headers ≡ []) }
    {
        let text = Vec::with_capacity(alloc, bytes)?;
        let spans = Vec::with_capacity(alloc, fields)?;
        Ok(Headers { text, spans })
    }

    /// Adds a field at the end: its name, without the colon, in lower case, and its value as it is.
    ///
    /// A name is a token of RFC 9110, section 5.6.2, of at most 65,535 bytes, else `BadName` is
    /// returned. A value has no control byte but the tab (section 5.5), else `BadValue` is
    /// returned. `NoMemory` is returned if memory is refused. On an error nothing is added.
    pub fn push(&mut self, name: &[u8], value: &[u8]) -> Result<(), HeaderError>
        ensures ok { OnOk result (self.new ≡ self.old ++ field_of name.now value.now ∷ []) }

        // The name is judged first, then the value; lack of memory comes last.
        ensures bad_name { IsErrOf result HeaderError.BadName ↔ ¬ (IsFieldName name.now) }
        ensures bad_value { IsErrOf result HeaderError.BadValue ↔ (IsFieldName name.now × (¬ (IsFieldValue value.now))) }
        ensures err { OnErr result (self.new ≡ self.old) }
    {
        if !is_field_name(name) {
            return Err(HeaderError::BadName);
        }
        if !is_field_value(value) {
            return Err(HeaderError::BadValue);
        }
        if let Err(e) = self.push_valid(name, value) {
            return Err(HeaderError::NoMemory(e));
        }
        Ok(())
    }

    /// The same for a name and a value that were judged already; `AllocError` if memory is refused,
    /// and then nothing is added. For the crates of this repository only.
    #[doc(hidden)]
    pub fn push_valid(&mut self, name: &[u8], value: &[u8]) -> Result<(), AllocError>
        requires name { IsFieldName name.now }
        requires value { IsFieldValue value.now }
        ensures ok { OnOk result (self.new ≡ self.old ++ field_of name.now value.now ∷ []) }
        ensures err { OnErr result (self.new ≡ self.old) }
    {
        // One piece of memory for both.
        self.text.reserve(name.len().saturating_add(value.len()))?;
        append(&mut self.text, &mut self.spans, name, value)?;
        Ok(())
    }

    /// How many fields were added; a name may stand in several.
    pub fn len(&self) -> usize
        ensures { result ≡ length self.now }
    {
        self.spans.len()
    }

    /// Whether no field was added.
    pub fn is_empty(&self) -> bool
        ensures { IsTrue result ↔ (self.now ≡ []) }
    {
        self.spans.is_empty()
    }

    /// The name, in lower case, and the value of the field at the index, which counts from 0;
    /// `None` after the last.
    pub fn at(&self, index: usize) -> Option<(&[u8], &[u8])>
        ensures missing { IsNone result ↔ (length self.now ≤ index) }
        ensures found { IfSome result (λ field. slice_get self.now index ≡ Some (shown field)) }
    {
        let span = self.spans.get(index)?;
        Some((span.name(&self.text), span.value(&self.text)))
    }

    /// The fields in their order, each as its name, in lower case, and its value.
    pub fn iter(&self) -> Fields<'_>
        ensures { result ≡ self.now }
    {
        Fields {
            text: self.text.as_slice(),
            spans: self.spans.as_slice(),
        }
    }

    /// A law of every list, however it was made: no byte of a field ends its line (RFC 9110,
    /// sections 5.1 and 5.5).
    pub fn fields_are_valid(&self)
        ensures { All IsValidField self.now }
    {
        let _ = &self.text;
    }

    /// A copy of the fields, in memory of its own; `AllocError` if that is refused. To copy no
    /// fields takes no memory.
    pub fn copy(&self, alloc: Global) -> Result<Self, AllocError>
        ensures same { IfOk result (λ copied. copied ≡ self.now) }
        ensures empty { self.now ≡ [] → IsOk result }
    {
        if self.is_empty() {
            return Ok(Headers::new(alloc));
        }
        let text = Vec::from_slice(alloc, self.text.as_slice())?;
        let spans = Vec::from_slice(alloc, self.spans.as_slice())?;
        Ok(Headers { text, spans })
    }
}

impl Span {
    fn name(self, text: &[u8]) -> &[u8]
        requires { IsSpanIn (length text.now) self }
        ensures { result.now ≡ (field_at text.now self).name }
    {
        &text[self.start..self.middle]
    }

    fn value(self, text: &[u8]) -> &[u8]
        requires { IsSpanIn (length text.now) self }
        ensures { result.now ≡ (field_at text.now self).value }
    {
        &text[self.middle..self.end]
    }
}

/// Appends the name in lower case and the value, and their span. On an error both are as before.
fn append(
    text: &mut Vec<u8>,
    spans: &mut Vec<Span>,
    name: &[u8],
    value: &[u8],
) -> Result<(), AllocError>
    ensures text { OnOk result (text.new.items ≡ text.old.items ++ (lowercase name.now ++ value.now)) }
    ensures spans { OnOk result (spans.new.items ≡ spans.old.items ++ span_after (length text.old.items) name.now value.now ∷ []) }
    ensures err { OnErr result ((text.new.items ≡ text.old.items) × (spans.new.items ≡ spans.old.items)) }
{
    spans.reserve(1)?;
    let start = text.len();
    text.extend_from_slice(name)?;
    text[start..].make_ascii_lowercase();
    let middle = text.len();
    if let Err(e) = text.extend_from_slice(value) {
        text.truncate(start);
        return Err(e);
    }
    let end = text.len();
    spans.push_reserved(Span { start, middle, end });
    Ok(())
}

/// Whether the bytes are a field name: a token of at most 65,535 bytes.
fn is_field_name(name: &[u8]) -> bool
    ensures { IsTrue result ↔ IsFieldName name.now }
{
    name.len() <= 65_535 && is_token(name)
}

/// Whether the bytes have no control byte but the tab.
fn is_field_value(value: &[u8]) -> bool
    ensures { IsTrue result ↔ IsFieldValue value.now }
{
    value
        .iter()
        .all(|b| *b == b'\t' || (*b >= b' ' && *b != 127))
}

/// The fields that are left, each as its name, in lower case, and its value.
#[derive(Debug, Drop)]
pub struct Fields<'a> {
    text: &'a [u8],
    spans: &'a [Span],
}

impl<'a> Model for Fields<'a> {
    ghost use Rattle.std.specs.Prelude.{List, map, length, All};
    ghost use Rattle.asgi_types.specs.Fields.{HeaderField};
    ghost use Rattle.asgi_types.specs.Spans.{field_at, IsSpanIn};

    ghost Value = { List HeaderField };

    ghost view = { λ f. map (field_at f.text.now) f.spans.now };

    ghost invariant = { λ f. All (IsSpanIn (length f.text.now)) f.spans.now };
}

impl<'a> Iterator for Fields<'a> {
    type Item = (&'a [u8], &'a [u8]);

    ghost next_gives = { YieldsFirstBy shown (λ rest. rest) };

    ghost remaining = { item_count (λ rest. rest) };

    fn next(&mut self) -> Option<(&'a [u8], &'a [u8])> {
        let (first, rest) = self.spans.split_first()?;
        self.spans = rest;
        Some((first.name(self.text), first.value(self.text)))
    }
}
