//! The applications of docs/GUIDE.md, served on a port: `asgi_guide_example PORT COUNT orders|counts|pool|cache|session|greets`.
#![tactic(auto)]

mod cache;
mod counts;
mod greets;
mod orders;
mod pool;
mod says_again;
mod steps;
mod words;

use cache::Cache;
use counts::Counts;
use greets::Greets;
use nomtsage::{AppFault, Handled, Server, Shared, Talked, logging};
use orders::Orders;
use pool::Pool;
use says_again::SaysAgain;
use std::process::ExitCode;
use words::{App, usage, words_of};

fn main(rt: HostRuntime) -> Result<ExitCode, AppFault> {
    let Some((port, count, app)) = words_of(&rt) else {
        return Ok(usage(&rt));
    };
    let rt = logging(rt);
    let alloc = rt.alloc();
    let server = Server::on(port).connections(count).log_connections(&rt);
    match app {
        App::Orders => Ok(server.serve(&rt, &Handled::new(Orders))),
        App::Counts => {
            let counts = Shared::new(alloc, Counts::new())?;
            Ok(server.serve(&rt, &counts))
        }
        App::Pool => {
            let pool = Shared::new(alloc, Pool::new(alloc, rt, 1)?)?;
            Ok(server.in_threads().workers(2).serve(&rt, &pool))
        }
        App::Cache => {
            let cache = Shared::new(alloc, Cache::new(alloc, rt)?)?;
            Ok(server.serve(&rt, &cache))
        }
        App::Session => Ok(server.serve(&rt, &Talked::new(SaysAgain))),
        App::Greets => Ok(server.serve(&rt, &Greets)),
    }
}
