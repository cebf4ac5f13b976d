//! Laws of mounts, over every list: contracts of functions with no code.
ghost use Rattle.asgi_apps.specs.Mounts.{OneMount};

/// A path has at most one mount if each prefix is mounted once.
pub fn one_mount()
    ensures { OneMount }
{}
