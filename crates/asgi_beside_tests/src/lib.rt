//! Tests of connections whose tasks run in a thread of their own.
#![tactic(auto)]

#[cfg(test)]
mod at_once;
#[cfg(test)]
mod gates;
#[cfg(test)]
mod gives_up;
#[cfg(test)]
mod leaving;
#[cfg(test)]
mod memory;
#[cfg(test)]
mod rows;
#[cfg(test)]
mod schedules;
#[cfg(test)]
mod serving;
