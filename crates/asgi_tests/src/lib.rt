//! Tests of a connection: what each form of a head gets, however the input is cut, how large a head may be, what the outside does
//! to it, and what it does turn by turn.
#![tactic(auto)]

#[cfg(test)]
mod by_hand;
#[cfg(test)]
mod cut;
#[cfg(test)]
mod edges;
#[cfg(test)]
mod memory;
#[cfg(test)]
mod rows;
#[cfg(test)]
mod writes;
