//! The length that a response gives for its content.
ghost use Rattle.std.specs.Prelude.{◌≡◌};

use crate::rules::has_no_content;
use asgi_types::{Headers, parse_length};

pub(crate) const CONTENT_LENGTH: &[u8] = b"content-length";

/// What the content-length fields of a start give (RFC 9110, section 8.6).
#[derive(Clone, Copy, Debug, PartialEq, Eq)]
pub enum ContentLength {
    /// There is no such field.
    Absent,
    /// There is one, and its value is a number of bytes in 1 to 19 digits.
    Given(u64),
    /// There is more than one, or one whose value is no such number.
    Faulty,
}

impl ContentLength {
    ghost use Rattle.asgi_protocol.specs.ContentLengths.{content_length};
    ghost use Rattle.asgi_protocol.specs.Rules as rules;

    /// What the fields give. Only fields named `content-length` count.
    pub fn of(headers: &Headers) -> Self
        ensures { result ≡ content_length headers.now }
    {
        let mut found: Option<&[u8]> = None;
        for (name, value) in headers.iter() {
            if name == CONTENT_LENGTH {
                if found.is_some() {
                    return ContentLength::Faulty;
                }
                found = Some(value);
            }
        }
        let Some(text) = found else {
            return ContentLength::Absent;
        };
        let Some(length) = parse_length(text) else {
            return ContentLength::Faulty;
        };
        ContentLength::Given(length)
    }

    /// Whether there is no such field.
    pub fn is_absent(self) -> bool
        ensures { result ≡ rules.is_absent self }
    {
        match self {
            ContentLength::Absent => true,
            ContentLength::Given(_) | ContentLength::Faulty => false,
        }
    }

    /// Whether the fields are refused.
    pub fn is_faulty(self) -> bool
        ensures { result ≡ rules.is_faulty self }
    {
        match self {
            ContentLength::Faulty => true,
            ContentLength::Absent | ContentLength::Given(_) => false,
        }
    }

    /// How many bytes the bodies after a start with this status must have; `None` for any number,
    /// as for 204 and 304 (RFC 9110, sections 15.3.5 and 15.4.5).
    pub fn promised_at(self, status: u16) -> Option<u64>
        ensures { result ≡ rules.promised_at status self }
    {
        if has_no_content(status) {
            return None;
        }
        match self {
            ContentLength::Given(length) => Some(length),
            ContentLength::Absent | ContentLength::Faulty => None,
        }
    }
}
