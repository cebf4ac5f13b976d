//! Tests of `asgi_command`: the program on its words, and a server of one connection, as tables on its public calls.
#![tactic(auto)]

#[cfg(test)]
mod command;
#[cfg(test)]
mod serve;
