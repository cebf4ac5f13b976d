//! Tests of `asgi_routes` on its public calls: tables of routes and what they reply, and tables of
//! rooms and what they open.
#![tactic(auto)]

#[cfg(test)]
mod asked;
#[cfg(test)]
mod chats;
#[cfg(test)]
mod endpoints;
#[cfg(test)]
mod knocks;
#[cfg(test)]
mod limits;
#[cfg(test)]
mod promises;
#[cfg(test)]
mod refusals;
#[cfg(test)]
mod replies;
#[cfg(test)]
mod sessions;
