//! Tests of inputs that are meant to be read in two ways, of what is no HTTP at all, and of hostile applications, as tables on
//! the public call.
#![tactic(auto)]

#[cfg(test)]
mod apps;
#[cfg(test)]
mod chunks;
#[cfg(test)]
mod floods;
#[cfg(test)]
mod lengths;
#[cfg(test)]
mod lines;
#[cfg(test)]
mod others;
#[cfg(test)]
mod rows;
#[cfg(test)]
mod targets;
