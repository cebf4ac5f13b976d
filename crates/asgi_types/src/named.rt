//! A field by its name.
ghost use Rattle.std.specs.Prelude.{◌≡◌, option_map};
ghost use Rattle.std.specs.Option.{option_copied};
ghost use Rattle.asgi_types.specs.Fields.{shown};
ghost use Rattle.asgi_types.specs.Named.{field_in, value_in};
ghost use Rattle.asgi_types.specs.Tokens.{same_ignoring_case};

use crate::Headers;

impl Headers {
    /// The value of the first field of the name, in any case (RFC 9110, section 5.1); `None` if no
    /// field has it. Takes no memory.
    pub fn get(&self, name: &[u8]) -> Option<&[u8]>
        ensures { option_copied result ≡ value_in self.now name.now }
    {
        match self.first_named(name) {
            Some(field) => Some(field.1),
            None => None,
        }
    }

    /// The first field of the name, in any case.
    fn first_named(&self, name: &[u8]) -> Option<(&[u8], &[u8])>
        ensures { option_map shown result ≡ field_in self.now name.now }
    {
        self.iter().find(|field| is_named(field.0, name))
    }
}

/// Whether the name is this one, in any case.
fn is_named(field_name: &[u8], name: &[u8]) -> bool
    ensures { result ≡ same_ignoring_case field_name.now name.now }
{
    field_name.eq_ignore_ascii_case(name)
}
