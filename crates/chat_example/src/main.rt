//! A chat: a page, and sessions that see each other's messages: `chat_example PORT COUNT`.
#![tactic(auto)]

mod chat;
mod page;

use chat::Chat;
use nomtsage::{Both, Handled, Hosted, Server, logging};
use page::Page;
use std::alloc::AllocError;
use std::env;
use std::process::ExitCode;
use std::rt::Env;
use std::sync::{Arc, Mutex};

fn main(rt: HostRuntime) -> Result<ExitCode, AllocError> {
    let Some((port, count)) = words_of(&rt) else {
        let _told = println!(rt; "usage: chat_example PORT COUNT");
        return Ok(ExitCode::from(2));
    };
    let rt = logging(rt);
    let alloc = rt.alloc();
    let texts = Arc::new(alloc, Mutex::new(Vec::new(alloc)))?;
    let app = Both {
        http: Handled::new(Page),
        ws: Hosted::new(alloc, Chat { rt, texts })?,
    };
    let server = Server::on(port).connections(count);
    Ok(server.log_connections(&rt).serve(&rt, &app))
}

/// The port, and after how many connections to end.
fn words_of<H: Env + AllocGlobal>(rt: &H) -> Option<(u16, u64)> {
    let mut words = env::args(rt).ok()?.skip(1);
    Some((words.next()?.parse().ok()?, words.next()?.parse().ok()?))
}
