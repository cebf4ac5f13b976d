//! Serves items as JSON: `items_example PORT COUNT`.
#![tactic(auto)]

mod items;

use items::table;
use nomtsage::{RouteError, Server, Shared, logging};
use std::env;
use std::process::ExitCode;
use std::rt::Env;

fn main(rt: HostRuntime) -> Result<ExitCode, RouteError> {
    let Some((port, count)) = words_of(&rt) else {
        let _told = println!(rt; "usage: items_example PORT COUNT");
        return Ok(ExitCode::from(2));
    };
    let rt = logging(rt);
    let app = Shared::new(rt.alloc(), table(rt.alloc())?)?;
    let server = Server::on(port).connections(count);
    Ok(server.log_connections(&rt).serve(&rt, &app))
}

/// The port, and after how many connections to end.
fn words_of<H: Env + AllocGlobal>(rt: &H) -> Option<(u16, u64)> {
    let mut words = env::args(rt).ok()?.skip(1);
    Some((words.next()?.parse().ok()?, words.next()?.parse().ok()?))
}
