//! The response writer: the text of events.
ghost use Rattle.std.specs.Prelude.{◌≡◌, ◌≢◌, ◌∷◌, [], IfOk};
ghost use Rattle.asgi_types.specs.declared.facts.Framing.TheVariants.{Upgrade};
ghost use Rattle.asgi_response.specs.Response.{response_text};

use asgi_response::ResponseText;
use asgi_types::{Facts, Framing, Headers, HttpVersion, Names, Octets, Outgoing};
use std::alloc::{AllocError, Global};
use std::io::{self, Write};

/// The text of two events, in answer to this request.
fn text_of(
    alloc: Global,
    facts: &Facts,
    one: &Outgoing,
    other: &Outgoing,
) -> Result<Vec<u8>, AllocError>
    ensures { facts.now.framing ≢ Upgrade → IfOk result (λ text. text.items ≡ response_text facts.now (one.now ∷ other.now ∷ [])) }
{
    let mut out = Vec::new(alloc);
    let mut text = ResponseText::new(alloc, facts);
    text.begin(&mut out)?;
    text.take(one, &mut out)?;
    text.take(other, &mut out)?;
    Ok(out)
}

/// A plain request without a body.
fn request(alloc: Global) -> Facts {
    Facts::plain(alloc)
}

/// Writes the text of a greeting.
pub fn show<W: Write>(alloc: Global, out: &mut W) -> io::Result<()> {
    let start = Outgoing::ResponseStart {
        status: 200,
        headers: Headers::new(alloc),
        trailers: false,
    };
    let body = Outgoing::ResponseBody {
        body: Octets::new(Vec::from_slice(alloc, b"hello\n")?),
        more_body: false,
    };
    let facts = request(alloc);
    let text = text_of(alloc, &facts, &start, &body)?;
    out.write_all(&text)
}
