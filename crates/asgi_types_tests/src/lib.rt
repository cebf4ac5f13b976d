//! Tests of `asgi_io` and `asgi_types` on their public calls: counted readers, writers, pauses and turns, and the values that pass
//! between the crates.
#![tactic(auto)]

#[cfg(test)]
mod counting;
#[cfg(test)]
mod edges;
#[cfg(test)]
mod headers;
#[cfg(test)]
mod memory;
#[cfg(test)]
mod reading;
#[cfg(test)]
mod scopes;
#[cfg(test)]
mod turning;
#[cfg(test)]
mod values;
#[cfg(test)]
mod writing;
