//! Records of heads.
use asgi_request::HeadRecord;
use asgi_types::{Chars, HeaderError, Headers, HttpVersion, Octets};
use std::alloc::Global;

pub type Field = (&'static str, &'static str);

/// A record for `/c` of this version, with this method and these fields.
pub fn record(
    alloc: Global,
    version: HttpVersion,
    method: &str,
    fields: &[Field],
) -> Result<HeadRecord, HeaderError> {
    let method = Chars::new(String::from_str(alloc, method)?);
    let target = Octets::new(Vec::from_slice(alloc, b"/c")?);
    let headers = headers_of(alloc, fields)?;
    Ok(HeadRecord {
        version,
        method,
        target,
        headers,
    })
}

fn headers_of(alloc: Global, fields: &[Field]) -> Result<Headers, HeaderError> {
    let mut headers = Headers::new(alloc);
    add_fields(&mut headers, fields)?;
    Ok(headers)
}

fn add_fields(headers: &mut Headers, fields: &[Field]) -> Result<(), HeaderError> {
    for (name, value) in fields {
        add_field(headers, name.as_bytes(), value.as_bytes())?;
    }
    Ok(())
}

// What a test proves needs none of the clauses of this call.
fn add_field(headers: &mut Headers, name: &[u8], value: &[u8]) -> Result<(), HeaderError> {
    headers.push(name, value)
}
