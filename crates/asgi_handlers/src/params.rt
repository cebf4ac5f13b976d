//! A parameter of a path by its name.
ghost use Rattle.std.specs.Prelude.{◌≡◌, bytes_eq};
ghost use Rattle.std.specs.Option.{option_copied};
ghost use Rattle.std.specs.List.{find};
ghost use Rattle.asgi_handlers.specs.Params.{param_in, params_of};

/// The part of the path that the first parameter of this name took; `None` if there is none.
pub fn value_of<'a>(params: &'a [(&'a str, &'a str)], name: &str) -> Option<&'a str>
    ensures { option_copied result ≡ param_in (params_of params.now) name.now }
{
    match first_param(params, name) {
        Some(param) => Some(param.1),
        None => None,
    }
}

/// The first parameter of that name.
fn first_param<'a>(params: &'a [(&'a str, &'a str)], name: &str) -> Option<&'a (&'a str, &'a str)>
    ensures { option_copied result ≡ find (λ param. bytes_eq param.0.now name.now) params.now }
{
    params.iter().find(|param| is_named(param.0, name))
}

fn is_named(known: &str, name: &str) -> bool
    ensures { result ≡ bytes_eq known.now name.now }
{
    known == name
}
