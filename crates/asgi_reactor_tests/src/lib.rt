//! Tests of what a socket has not taken yet, of how much is held for all, of who sends or takes too slowly or says nothing, of who
//! sends on after its answer, of whose turn it is, and of how many several threads accept.
#![tactic(auto)]

#[cfg(test)]
mod budget;
#[cfg(test)]
mod drained;
#[cfg(test)]
mod held;
#[cfg(test)]
mod pace;
#[cfg(test)]
mod silence;
#[cfg(test)]
mod tickets;
#[cfg(test)]
mod waiting;
