//! Tests of `asgi_talks` on its public calls: talkers, each over a plain pair, driven to its end.
#![tactic(auto)]

#[cfg(test)]
mod answers;
#[cfg(test)]
mod both;
#[cfg(test)]
mod driver;
#[cfg(test)]
mod handshakes;
#[cfg(test)]
mod origins;
#[cfg(test)]
mod promises;
#[cfg(test)]
mod telling;
