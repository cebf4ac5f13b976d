//! Tests of whole conversations of a connection, and of its turns, as tables on its public calls.
#![tactic(auto)]

#[cfg(test)]
mod calls;
#[cfg(test)]
mod conversation;
#[cfg(test)]
mod idle;
#[cfg(test)]
mod sizes;
#[cfg(test)]
mod trailers;
#[cfg(test)]
mod turns;
