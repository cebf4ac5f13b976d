//! The application under two prefixes.
ghost use Rattle.std.specs.Prelude.{◌≡◌, ◌++◌, ◌∷◌, [], IfOk, OnOk};
ghost use Rattle.asgi_apps.specs.Mounts.{IsBadPrefix, IsMounted, prefixes_of};
ghost use Rattle.asgi_command.specs.Command.{two_mounts};

use asgi_apps::{MountError, Mounts, RootPath};
use asgi_types::Chars;
use std::alloc::{AllocError, Global};

/// `RootPath` under `/a` and under `/a/b`. `AllocError` if memory is refused; there is no other error.
pub fn mounts(alloc: Global) -> Result<Mounts<RootPath>, AllocError>
    ensures { IfOk result (λ made. made.mounts.items ≡ two_mounts) }
{
    let mut mounts = Mounts::new(alloc);
    mount(&mut mounts, chars(alloc, "/a")?)?;
    mount(&mut mounts, chars(alloc, "/a/b")?)?;
    Ok(mounts)
}

/// Mounts `RootPath` under a prefix under which nothing is yet.
fn mount(mounts: &mut Mounts<RootPath>, prefix: Chars) -> Result<(), AllocError>
    requires good { ¬ (IsBadPrefix prefix) }
    requires free { ¬ (IsMounted (prefixes_of mounts.old.mounts.items) prefix) }
    ensures ok { OnOk result (mounts.new.mounts.items ≡ mounts.old.mounts.items ++ record { prefix = prefix; app = record {} } ∷ []) }
{
    match mounts.mount(prefix, RootPath) {
        Ok(()) => Ok(()),
        Err(MountError::NoMemory(e)) => Err(e),
        Err(MountError::BadPrefix | MountError::Taken) => unreachable!(),
    }
}

fn chars(alloc: Global, text: &str) -> Result<Chars, AllocError>
    ensures { IfOk result (λ made. made ≡ text.now) }
{
    Ok(Chars::new(String::from_str(alloc, text)?))
}
