//! Tests of workers on public calls: of `asgi_crew`, which shares items out, and of `asgi_desk`, which has their reports in order.
#![tactic(auto)]

#[cfg(test)]
mod desk;
#[cfg(test)]
mod fakes;
#[cfg(test)]
mod sharing;
#[cfg(test)]
mod workers;
