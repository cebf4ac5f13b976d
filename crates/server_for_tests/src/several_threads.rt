//! The applications, served in several threads.
use crate::ends::ended_by;
use crate::handles::Handles;
use crate::hears::that_hears;
use crate::mounted::{limits_of, mounts};
use crate::mute::Mute;
use crate::routed::{rooms, routes};
use crate::silent::Silent;
use crate::tries::{Kind, tried_as};
use crate::words::{App, Words};
use crate::works::that_works;
use log::Log;
use nomtsage::{
    Console, Echo, Handled, Hello, Host, InTables, Life, LogLines, NotFound, OwnThread, Quiet,
    Server, Stop, WsEcho,
};
use std::net::Net;
use std::process::ExitCode;

/// Serves the application in several threads.
pub fn in_threads<H: Net + Console + Log + Host + Sync + Drop>(
    rt: &H,
    words: &Words,
    count: u64,
) -> ExitCode {
    let stop = Stop::new();
    let server = Server::at(words.address)
        .connections(words.count)
        .limits(limits_of(&words.settings))
        .in_seats(words.settings.slots)
        .threads(count);
    match words.app {
        App::Quiet => server.serve(rt, &Hello),
        App::Ends => server
            .stop(&stop)
            .log_connections(rt)
            .serve(rt, &ended_by(&stop)),
        app => library(rt, server.log_connections(rt), app),
    }
}

/// The same of those of the library.
fn library<H: Net + Console + Log + Host + Sync + Drop>(
    rt: &H,
    server: Server<'_, Quiet, LogLines<'_, H>, InTables<OwnThread>>,
    app: App,
) -> ExitCode {
    match app {
        App::Echo => server.serve(rt, &Echo),
        App::WsEcho => server.serve(rt, &WsEcho),
        App::NotFound => server.serve(rt, &NotFound),
        App::Life => server.serve(rt, &Life::Works),
        App::NoStart => server.serve(rt, &Life::NoStart),
        App::NoStop => server.serve(rt, &Life::NoStop),
        App::Mounts => match mounts(rt.alloc()) {
            Ok(app) => server.serve(rt, &app),
            Err(_) => ExitCode::from(5),
        },
        App::Handles => server.serve(rt, &Handled::new(Handles)),
        App::Routes => match routes(rt.alloc()) {
            Ok(app) => server.serve(rt, &app),
            Err(_) => ExitCode::from(5),
        },
        App::Rooms => match rooms(rt.alloc()) {
            Ok(app) => server.serve(rt, &app),
            Err(_) => ExitCode::from(5),
        },
        app => own(rt, server, app),
    }
}

/// The same of those that are tasks of this program's own, and of the greeting.
fn own<H: Net + Console + Log + Host + Sync + Drop>(
    rt: &H,
    server: Server<'_, Quiet, LogLines<'_, H>, InTables<OwnThread>>,
    app: App,
) -> ExitCode {
    match app {
        App::SilentStart => server.serve(rt, &Silent::Start),
        App::SilentStop => server.serve(rt, &Silent::Stop),
        App::Mute => server.serve(rt, &Mute),
        App::Cuts => server.serve(rt, &tried_as(rt, Kind::Cuts)),
        App::Flood => server.serve(rt, &tried_as(rt, Kind::Flood)),
        App::Slow => server.serve(rt, &tried_as(rt, Kind::Slow)),
        App::Works => server.serve(rt, &that_works(rt, false)),
        App::Waits => server.serve(rt, &that_works(rt, true)),
        App::Hears => server.serve(rt, &that_hears(rt)),
        _ => server.serve(rt, &Hello),
    }
}
