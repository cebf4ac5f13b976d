//! What a promise gives: a law about every connection, the contract of a function with no code.
ghost use Rattle.asgi_example.specs.Promise.{EachIsNoContent};

/// Each exchange of a connection that `NoContent` served, and whose task returned, has sent 204 and
/// no content.
pub fn each_response_is_no_content()
    ensures { EachIsNoContent }
{}
