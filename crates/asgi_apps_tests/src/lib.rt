//! Tests of `asgi_apps` and `asgi_lifespan` on their public calls: the ready applications, each over a plain pair, driven to its end,
//! and starts and stops.
#![tactic(auto)]

#[cfg(test)]
mod calls;
#[cfg(test)]
mod life;
#[cfg(test)]
mod lives;
#[cfg(test)]
mod mounts;
#[cfg(test)]
mod own;
#[cfg(test)]
mod rows;
