//! Tests of `asgi_request` on its public calls: tables of requests, each fed in many ways, with what the reader has to
//! give.
#![tactic(auto)]

#[cfg(test)]
mod bodies;
#[cfg(test)]
mod calls;
#[cfg(test)]
mod chunks;
#[cfg(test)]
mod edges;
#[cfg(test)]
mod feeding;
#[cfg(test)]
mod handshakes;
#[cfg(test)]
mod heads;
#[cfg(test)]
mod inputs;
#[cfg(test)]
mod inside;
#[cfg(test)]
mod limits_edges;
#[cfg(test)]
mod memory;
#[cfg(test)]
mod records;
#[cfg(test)]
mod scopes;
#[cfg(test)]
mod script;
#[cfg(test)]
mod upgrade;
