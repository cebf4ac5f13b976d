//! The judge: whether a list of events is a lawful answer.
ghost use Rattle.std.specs.Prelude.{◌≡◌, ◌∷◌, [], IsTrue};
ghost use Rattle.asgi_types.specs.declared.scope.Kind.TheVariants as kind;
ghost use Rattle.asgi_protocol.specs.Lawful.{IsLawful};

use asgi_protocol::{Judge, Verdict};
use asgi_types::{Facts, Framing, Headers, HttpVersion, Kind, Names, Octets, Outgoing};
use std::alloc::Global;
use std::io::{self, Write};

/// Whether two events may follow one another in the answer to this request.
fn may_follow(facts: &Facts, one: &Outgoing, other: &Outgoing) -> bool
    ensures { IsTrue result → IsLawful kind.Http facts.now (one.now ∷ other.now ∷ []) }
{
    let mut judge = Judge::new(Kind::Http);
    let Verdict::Pass = judge.judge(facts, one) else {
        return false;
    };
    let Verdict::Pass = judge.judge(facts, other) else {
        return false;
    };
    true
}

/// A plain request without a body.
fn request(alloc: Global) -> Facts {
    Facts::plain(alloc)
}

/// Writes of two events in each order whether they may follow one another.
pub fn show<W: Write>(alloc: Global, out: &mut W) -> io::Result<()> {
    let start = Outgoing::ResponseStart {
        status: 200,
        headers: Headers::new(alloc),
        trailers: false,
    };
    let body = Outgoing::ResponseBody {
        body: Octets::new(Vec::new(alloc)),
        more_body: false,
    };
    let facts = request(alloc);
    writeln!(out, "start, body: {}", may_follow(&facts, &start, &body))?;
    writeln!(out, "body, start: {}", may_follow(&facts, &body, &start))?;
    writeln!(out, "start, start: {}", may_follow(&facts, &start, &start))
}
