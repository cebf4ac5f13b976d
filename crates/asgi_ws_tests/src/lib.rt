//! Tests of `asgi_ws` and `asgi_leaving` on their public calls: responses to opening handshakes, lines that carry messages, and how a
//! session is told to end.
#![tactic(auto)]

#[cfg(test)]
mod calls;
#[cfg(test)]
mod handshakes;
#[cfg(test)]
mod scripted;
#[cfg(test)]
mod told;
#[cfg(test)]
mod wire;
#[cfg(test)]
mod wired;
