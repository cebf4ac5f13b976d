//! The applications that are served by workers.
use crate::ends::ended_by;
use crate::handles::Handles;
use crate::mounted::limits_of;
use crate::silent::Silent;
use crate::tries::{Kind, tried_as};
use crate::words::{App, Words};
use crate::works::that_works;
use log::Log;
use nomtsage::{Console, Handled, Hello, Host, InThread, Life, LogLines, Quiet, Server, Stop};
use std::io::{Read, Write};
use std::net::{Net, OpenStream};
use std::process::ExitCode;

/// Serves the application by so many workers, each task in a thread beside its worker. One that is none of these is `Hello`.
pub fn by_workers<
    S: OpenStream + Read + Write + Drop + Send,
    H: Net<Stream = S> + Console + Log + Host + Sync + Send + Drop + 'static,
>(rt: &H, words: &Words, count: u64) -> ExitCode
where
    H::Listener: Send,
{
    let stop = Stop::new();
    let server = Server::at(words.address)
        .connections(words.count)
        .limits(limits_of(&words.settings))
        .in_threads()
        .workers(count);
    match words.app {
        App::Quiet => server.serve(rt, &Hello),
        App::Ends => server
            .stop(&stop)
            .log_connections(rt)
            .serve(rt, &ended_by(&stop)),
        app => logged(rt, server.log_connections(rt), app),
    }
}

/// The same of those that are told of.
fn logged<
    S: OpenStream + Read + Write + Drop + Send,
    H: Net<Stream = S> + Console + Log + Host + Sync + Send + Drop + 'static,
>(rt: &H, server: Server<'_, Quiet, LogLines<'_, H>, InThread>, app: App) -> ExitCode
where
    H::Listener: Send,
{
    match app {
        App::NoStart => server.serve(rt, &Life::NoStart),
        App::NoStop => server.serve(rt, &Life::NoStop),
        App::SilentStart => server.serve(rt, &Silent::Start),
        App::SilentStop => server.serve(rt, &Silent::Stop),
        App::Works => server.serve(rt, &that_works(rt, false)),
        App::Flood => server.serve(rt, &tried_as(rt, Kind::Flood)),
        App::Handles => server.serve(rt, &Handled::new(Handles)),
        _ => server.serve(rt, &Hello),
    }
}
