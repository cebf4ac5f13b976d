//! Reports handed in in many orders, and a teller that keeps what it gets.

mod fakes;
mod lent;
mod memory;
mod orders;
mod threads;
