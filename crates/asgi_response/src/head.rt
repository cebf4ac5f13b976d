//! The head of a response.
ghost use Rattle.std.specs.Prelude.{◌≡◌, ◌++◌, ◌≤◌, [], length, min, OnOk, OnErr, IfOk, if◌then◌else◌, decimal, flat_map};
ghost use Rattle.std.specs.Vec.{vec_len, vec_capacity};
ghost use Rattle.asgi_types.specs.Room.{LacksRoom};
ghost use Rattle.asgi_response.specs.StatusLine as line;
ghost use Rattle.asgi_response.specs.Content as content;
ghost use Rattle.asgi_response.specs.Fields as spec;

use crate::fields::is_shown;
use asgi_types::{Headers, Octets};
use itoa::Buffer;
use std::alloc::{AllocError, Global};

pub const VERSION: &[u8] = b"HTTP/1.1 ";

pub const SPACE: &[u8] = b" ";

pub const CRLF: &[u8] = b"\r\n";

const COLON: &[u8] = b": ";

const OK_CODE: &[u8] = b"200";

const OK_LINE: &[u8] = b"HTTP/1.1 200 OK\r\n";

const CHUNKED_LINE: &[u8] = b"transfer-encoding: chunked\r\n";

const CLOSE_LINE: &[u8] = b"connection: close\r\n";

/// The bytes of the head of a response, with its empty line, in memory of its own (RFC 9112,
/// sections 4 and 5): the application's fields, without those that `is_shown` leaves out, then the
/// coding and `close` if needed. `AllocError` if memory is refused.
pub fn head_text(
    alloc: Global,
    chunked: bool,
    closing: bool,
    status: u16,
    headers: &Headers,
) -> Result<Octets, AllocError>
    ensures { IfOk result (λ head. head ≡ spec.head_text chunked closing status headers.now) }
{
    let mut out = Vec::new(alloc);
    append_head(&mut out, chunked, closing, status, headers)?;
    Ok(Octets::new(out))
}

/// Appends the head of a response, in one reservation.
fn append_head(
    out: &mut Vec<u8>,
    chunked: bool,
    closing: bool,
    status: u16,
    headers: &Headers,
) -> Result<(), AllocError>
    ensures ok { OnOk result (out.new.items ≡ out.old.items ++ spec.head_text chunked closing status headers.now) }
    ensures full { OnErr result (LacksRoom (vec_capacity out.old) (vec_len out.old) (spec.head_text chunked closing status headers.now)) }
{
    let mut buffer = Buffer::new();
    let code = code_of(status, &mut buffer);
    let reason = reason_phrase(status).as_bytes();
    out.reserve(head_len(chunked, closing, code, reason, status, headers))?;
    write_head(out, chunked, closing, code, reason, status, headers)
}

/// The digits of a status.
fn code_of(status: u16, buffer: &mut Buffer) -> &[u8]
    ensures { result.now ≡ decimal status }
{
    // Most responses have this status.
    if status == 200 {
        return ok_code();
    }
    buffer.format(status).as_bytes()
}

/// Appends a trailer section, as far as it is known, in one reservation: the lines of its fields, and
/// the empty line after the last of them (RFC 9112, section 7.1.2). `AllocError` if memory is refused;
/// then the vector is as before.
pub fn append_section(
    out: &mut Vec<u8>,
    headers: &Headers,
    more_trailers: bool,
) -> Result<(), AllocError>
    ensures ok { OnOk result (out.new.items ≡ out.old.items ++ content.section_text headers.now more_trailers) }
    ensures err { OnErr result (out.new.items ≡ out.old.items) }
    ensures full { OnErr result (LacksRoom (vec_capacity out.old) (vec_len out.old) (content.section_text headers.now more_trailers)) }
{
    out.reserve(lines_len(headers).saturating_add(len_if(!more_trailers, CRLF)))?;
    // The room is reserved, so these never fail: only their type allows an error.
    write_lines(out, headers)?;
    write_if(out, !more_trailers, CRLF)
}

/// How many bytes the lines of the fields have, or the greatest `usize` if they have more.
fn lines_len(headers: &Headers) -> usize
    ensures { result ≡ min (length (flat_map spec.field_line headers.now)) usize.MAX }
{
    let mut size = 0usize;
    for (name, value) in headers.iter() {
        size = size.saturating_add(field_len(name, value));
    }
    size
}

/// Appends the lines of the fields.
fn write_lines(out: &mut Vec<u8>, headers: &Headers) -> Result<(), AllocError>
    ensures ok { OnOk result (out.new.items ≡ out.old.items ++ flat_map spec.field_line headers.now) }
    ensures capacity { vec_capacity out.old ≤ vec_capacity out.new }
    ensures full { OnErr result (LacksRoom (vec_capacity out.old) (vec_len out.old) (flat_map spec.field_line headers.now)) }
{
    for (name, value) in headers.iter() {
        write_field(out, name, value)?;
    }
    Ok(())
}

/// How many bytes the head of a response has, or the greatest `usize` if it has more.
fn head_len(
    chunked: bool,
    closing: bool,
    code: &[u8],
    reason: &[u8],
    status: u16,
    headers: &Headers,
) -> usize
    requires code { code.now ≡ decimal status }
    requires reason { reason.now ≡ line.reason_phrase status }
    ensures { result ≡ min (length (spec.head_text chunked closing status headers.now)) usize.MAX }
{
    status_line_len(status, code, reason)
        .saturating_add(fields_len(status, headers))
        .saturating_add(len_if(chunked, CHUNKED_LINE))
        .saturating_add(len_if(closing, CLOSE_LINE))
        .saturating_add(CRLF.len())
}

/// How many bytes the status line has, from its code and its reason phrase.
fn status_line_len(status: u16, code: &[u8], reason: &[u8]) -> usize
    requires code { code.now ≡ decimal status }
    requires reason { reason.now ≡ line.reason_phrase status }
    ensures { result ≡ min (length (line.status_line status)) usize.MAX }
{
    VERSION
        .len()
        .saturating_add(code.len())
        .saturating_add(SPACE.len())
        .saturating_add(reason.len())
        .saturating_add(CRLF.len())
}

/// How many bytes the lines of the application's fields have, or the greatest `usize` if they have more.
fn fields_len(status: u16, headers: &Headers) -> usize
    ensures { result ≡ min (length (spec.field_lines status headers.now)) usize.MAX }
{
    let mut size = 0usize;
    for (name, value) in headers.iter() {
        if is_shown(status, name) {
            size = size.saturating_add(field_len(name, value));
        }
    }
    size
}

/// How many bytes the line of a field has, or the greatest `usize` if it has more.
fn field_len(name: &[u8], value: &[u8]) -> usize
    ensures { result ≡ min (length (spec.field_line (record { name = name.now; value = value.now }))) usize.MAX }
{
    name.len()
        .saturating_add(COLON.len())
        .saturating_add(value.len())
        .saturating_add(CRLF.len())
}

/// How many bytes the text has if it is wanted.
fn len_if(wanted: bool, text: &[u8]) -> usize
    ensures { result ≡ length (if wanted then text.now else []) }
{
    if wanted { text.len() } else { 0 }
}

/// Appends the head of a response, part by part.
fn write_head(
    out: &mut Vec<u8>,
    chunked: bool,
    closing: bool,
    code: &[u8],
    reason: &[u8],
    status: u16,
    headers: &Headers,
) -> Result<(), AllocError>
    requires code { code.now ≡ decimal status }
    requires reason { reason.now ≡ line.reason_phrase status }
    ensures ok { OnOk result (out.new.items ≡ out.old.items ++ spec.head_text chunked closing status headers.now) }
    ensures full { OnErr result (LacksRoom (vec_capacity out.old) (vec_len out.old) (spec.head_text chunked closing status headers.now)) }
{
    write_status_line(out, status, code, reason)?;
    write_fields(out, status, headers)?;
    write_if(out, chunked, CHUNKED_LINE)?;
    write_if(out, closing, CLOSE_LINE)?;
    out.extend_from_slice(CRLF)?;
    Ok(())
}

/// Appends the status line, from its code and its reason phrase.
fn write_status_line(
    out: &mut Vec<u8>,
    status: u16,
    code: &[u8],
    reason: &[u8],
) -> Result<(), AllocError>
    requires code { code.now ≡ decimal status }
    requires reason { reason.now ≡ line.reason_phrase status }
    ensures ok { OnOk result (out.new.items ≡ out.old.items ++ line.status_line status) }
    ensures capacity { vec_capacity out.old ≤ vec_capacity out.new }
    ensures full { OnErr result (LacksRoom (vec_capacity out.old) (vec_len out.old) (line.status_line status)) }
{
    // Most responses have this status.
    if status == 200 {
        return out.extend_from_slice(ok_line());
    }
    out.extend_from_slice(VERSION)?;
    out.extend_from_slice(code)?;
    out.extend_from_slice(SPACE)?;
    out.extend_from_slice(reason)?;
    out.extend_from_slice(CRLF)?;
    Ok(())
}

/// The status line of 200.
fn ok_line() -> &'static [u8]
    ensures { result.now ≡ line.status_line 200 }
{
    OK_LINE
}

/// The code of 200.
fn ok_code() -> &'static [u8]
    ensures { result.now ≡ decimal 200 }
{
    OK_CODE
}

/// The reason phrase of a status, without a line end (RFC 9110, section 15; RFC 6585); empty if
/// none is known.
pub fn reason_phrase(status: u16) -> &'static str
    ensures { result.now ≡ line.reason_phrase status }
{
    match status {
        200 => "OK",
        201 => "Created",
        202 => "Accepted",
        204 => "No Content",
        206 => "Partial Content",
        301 => "Moved Permanently",
        302 => "Found",
        303 => "See Other",
        304 => "Not Modified",
        307 => "Temporary Redirect",
        308 => "Permanent Redirect",
        400 => "Bad Request",
        401 => "Unauthorized",
        403 => "Forbidden",
        404 => "Not Found",
        405 => "Method Not Allowed",
        406 => "Not Acceptable",
        409 => "Conflict",
        410 => "Gone",
        411 => "Length Required",
        412 => "Precondition Failed",
        413 => "Content Too Large",
        415 => "Unsupported Media Type",
        422 => "Unprocessable Content",
        426 => "Upgrade Required",
        429 => "Too Many Requests",
        431 => "Request Header Fields Too Large",
        500 => "Internal Server Error",
        501 => "Not Implemented",
        502 => "Bad Gateway",
        503 => "Service Unavailable",
        504 => "Gateway Timeout",
        _ => "",
    }
}

/// Appends the lines of the application's fields.
fn write_fields(out: &mut Vec<u8>, status: u16, headers: &Headers) -> Result<(), AllocError>
    ensures ok { OnOk result (out.new.items ≡ out.old.items ++ spec.field_lines status headers.now) }
    ensures capacity { vec_capacity out.old ≤ vec_capacity out.new }
    ensures full { OnErr result (LacksRoom (vec_capacity out.old) (vec_len out.old) (spec.field_lines status headers.now)) }
{
    for (name, value) in headers.iter() {
        if is_shown(status, name) {
            write_field(out, name, value)?;
        }
    }
    Ok(())
}

/// Appends the line of a field, with its CR LF (RFC 9112, section 5). `AllocError` if memory is
/// refused; then a part of the line may be there. For the crates of this repository only.
#[doc(hidden)]
pub fn write_field<'a>(out: &mut Vec<u8>, name: &'a [u8], value: &'a [u8]) -> Result<(), AllocError>
    ensures ok { OnOk result (out.new.items ≡ out.old.items ++ spec.field_line (record { name = name.now; value = value.now })) }
    ensures capacity { vec_capacity out.old ≤ vec_capacity out.new }
    ensures full { OnErr result (LacksRoom (vec_capacity out.old) (vec_len out.old) (spec.field_line (record { name = name.now; value = value.now }))) }
{
    out.extend_from_slice(name)?;
    out.extend_from_slice(COLON)?;
    out.extend_from_slice(value)?;
    out.extend_from_slice(CRLF)?;
    Ok(())
}

/// Appends the text if it is wanted.
fn write_if(out: &mut Vec<u8>, wanted: bool, text: &[u8]) -> Result<(), AllocError>
    ensures ok { OnOk result (out.new.items ≡ out.old.items ++ (if wanted then text.now else [])) }
    ensures capacity { vec_capacity out.old ≤ vec_capacity out.new }
    ensures full { OnErr result (LacksRoom (vec_capacity out.old) (vec_len out.old) (if wanted then text.now else [])) }
{
    if wanted {
        out.extend_from_slice(text)
    } else {
        Ok(())
    }
}
