//! Tests of `asgi_handlers` on its public calls: handlers, each over a plain pair, driven to its end.
#![tactic(auto)]

#[cfg(test)]
mod driver;
#[cfg(test)]
mod promises;
#[cfg(test)]
mod replies;
#[cfg(test)]
mod requests;
#[cfg(test)]
mod wrappers;
