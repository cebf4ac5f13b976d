//! The methods that a route may be for.
ghost use Rattle.std.specs.Prelude.{◌≡◌};
ghost use Rattle.asgi_routes.specs.Methods.{allowed_by, name_of};

/// A method that a route may be for (RFC 9110, section 9.3; RFC 5789). HEAD is answered by the
/// endpoint for GET, and OPTIONS by the table of routes itself.
#[derive(Clone, Copy, Debug, PartialEq, Eq)]
pub enum Method {
    /// Gets the resource, and HEAD its fields alone.
    Get,
    /// Has the resource process the content.
    Post,
    /// Replaces the resource by the content.
    Put,
    /// Changes the resource as the content says.
    Patch,
    /// Removes the resource.
    Delete,
}

impl Method {
    /// Its name, as a request has it.
    pub fn name(self) -> &'static str
        ensures { result.now ≡ name_of self }
    {
        match self {
            Method::Get => "GET",
            Method::Post => "POST",
            Method::Put => "PUT",
            Method::Patch => "PATCH",
            Method::Delete => "DELETE",
        }
    }

    /// What an endpoint for it allows, as the field `allow` lists it (RFC 9110, section 10.2.1).
    pub fn allowed(self) -> &'static str
        ensures { result.now ≡ allowed_by self }
    {
        match self {
            Method::Get => "GET, HEAD",
            Method::Post => "POST",
            Method::Put => "PUT",
            Method::Patch => "PATCH",
            Method::Delete => "DELETE",
        }
    }
}
