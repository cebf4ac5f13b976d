//! Tests of sessions across the crates, as tables on the public call.
#![tactic(auto)]

#[cfg(test)]
mod answers;
#[cfg(test)]
mod apps;
#[cfg(test)]
mod closes;
#[cfg(test)]
mod cuts;
#[cfg(test)]
mod ends;
#[cfg(test)]
mod frames;
#[cfg(test)]
mod lost;
#[cfg(test)]
mod memory;
#[cfg(test)]
mod reads;
#[cfg(test)]
mod rows;
#[cfg(test)]
mod scripts;
#[cfg(test)]
mod serving;
#[cfg(test)]
mod sizes;
#[cfg(test)]
mod texts;
#[cfg(test)]
mod writes;
