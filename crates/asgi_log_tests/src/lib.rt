//! Tests of `asgi_log` on its public calls: moments, lines, and what becomes of lines that come faster than they are taken.
#![tactic(auto)]

#[cfg(test)]
mod lines;
#[cfg(test)]
mod moments;
#[cfg(test)]
mod threads;
#[cfg(test)]
mod waiting;
