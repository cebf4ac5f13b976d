//! Tests of a table of seats.
#![tactic(auto)]

#[cfg(test)]
mod drawn;
#[cfg(test)]
mod held;
#[cfg(test)]
mod lines;
#[cfg(test)]
mod reactors;
#[cfg(test)]
mod seats;
#[cfg(test)]
mod serving;
