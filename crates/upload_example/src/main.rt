//! Replies to an upload with its digest: `upload_example PORT COUNT`.
#![tactic(auto)]

mod upload;

use nomtsage::{BadLimit, Limits, Server, logging};
use std::process::ExitCode;
use std::rt::Env;
use upload::Upload;

fn main(rt: HostRuntime) -> Result<ExitCode, BadLimit> {
    let Some((port, count)) = words_of(&rt) else {
        let _told = println!(rt; "usage: upload_example PORT COUNT");
        return Ok(ExitCode::from(2));
    };
    // Bodies of up to 10 MiB, in pieces of up to 64 KiB.
    let limits = Limits::new(16_384, 64, 10 << 20, 65_536, 16, 30_000, 1 << 40)?;
    let rt = logging(rt);
    let server = Server::on(port).connections(count).limits(limits);
    Ok(server.log_connections(&rt).serve(&rt, &Upload))
}

/// The port, and after how many connections to end.
fn words_of<H: Env + AllocGlobal>(rt: &H) -> Option<(u16, u64)> {
    let mut words = std::env::args(rt).ok()?.skip(1);
    Some((words.next()?.parse().ok()?, words.next()?.parse().ok()?))
}
