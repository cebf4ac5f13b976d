//! Tests of a server of many connections, as tables on its public calls.
#![tactic(auto)]

#[cfg(test)]
mod ahead;
#[cfg(test)]
mod ends;
#[cfg(test)]
mod lives;
#[cfg(test)]
mod loopback;
#[cfg(test)]
mod queue;
#[cfg(test)]
mod serves;
#[cfg(test)]
mod workers;
