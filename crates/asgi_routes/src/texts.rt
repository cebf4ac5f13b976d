//! The parameters of a match.
ghost use Rattle.std.specs.Prelude.{IfOk};
ghost use Rattle.matchit.specs.Params.{walk};
ghost use Rattle.asgi_handlers.specs.Params.{params_of};
ghost use Rattle.asgi_routes.specs.Patterns.{AreShown};

use matchit::Params;
use std::alloc::{AllocError, Global};

/// Each name with the part of the path that it took, in the order of the pattern. `AllocError` if
/// memory is refused.
pub fn texts_of<'k, 'v>(
    alloc: Global,
    params: &Params<'k, 'v>,
) -> Result<Vec<(&'k str, &'v str)>, AllocError>
    ensures { IfOk result (λ texts. AreShown
        (walk params.now.pattern.now params.now.text.now params.now.path.now params.now.names.now 0 0) (params_of texts.items)) }
{
    params.iter().collect(alloc)
}
