//! Tests of `asgi_pipes` and `asgi_exchange`: pairs of ends, on tables of calls, each with its result, and plain ends as they meet.
#![tactic(auto)]

#[cfg(test)]
mod joined;
#[cfg(test)]
mod memory;
#[cfg(test)]
mod pairs;
#[cfg(test)]
mod steps;
