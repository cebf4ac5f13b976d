//! Serves `Items` on a port: `asgi_new_example PORT [COUNT]`.
#![tactic(auto)]

mod items;
mod words;

use items::Items;
use nomtsage::{Handled, Server, logging};
use std::process::ExitCode;
use words::{usage, words_of};

fn main(rt: HostRuntime) -> ExitCode {
    let Some((port, count)) = words_of(&rt) else {
        return usage(&rt);
    };
    let rt = logging(rt);
    let server = Server::on(port).connections(count);
    server.log_connections(&rt).serve(&rt, &Handled::new(Items))
}

#[cfg(test)]
mod tests;
