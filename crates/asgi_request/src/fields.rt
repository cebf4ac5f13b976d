//! Fields by their names.
ghost use Rattle.std.specs.Prelude.{◌≡◌};
ghost use Rattle.asgi_request.specs.FieldValues as spec;

use asgi_types::Headers;

/// How many fields have the name, which is in lower case as names in `Headers` are (RFC 9110,
/// section 5.1).
pub fn count_named(headers: &Headers, name: &[u8]) -> usize
    ensures { result ≡ spec.count_named headers.now name.now }
{
    headers.iter().filter(|field| field.0 == name).count()
}

/// The bytes of the value of the first field of the name, which is in lower case; no bytes if there
/// is no such field.
pub fn value_named<'h>(headers: &'h Headers, name: &[u8]) -> &'h [u8]
    ensures { result.now ≡ spec.value_named headers.now name.now }
{
    for (field_name, value) in headers.iter() {
        if field_name == name {
            return value;
        }
    }
    &[]
}
