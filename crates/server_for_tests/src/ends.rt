//! An application that ends the server that serves it.
use nomtsage::{
    AppFault, Application, Both, Chars, Headers, Kind, Octets, Outgoing, Says, Scope, Stop, WsEcho,
};
use std::alloc::Global;

/// Responds to each request with its path. A request of `/end` stops the server.
#[derive(Clone, Copy)]
pub struct Ends<'a> {
    pub stop: &'a Stop,
}

/// The application that pulls this stop, whose sessions send each message back.
pub fn ended_by(stop: &Stop) -> Both<Ends<'_>, WsEcho> {
    Both {
        http: Ends { stop },
        ws: WsEcho,
    }
}

impl<'a> Application for Ends<'a> {
    type Task = Says;

    fn call(&self, alloc: Global, scope: &Scope) -> Result<Says, AppFault> {
        let Scope::Http(scope) = scope else {
            return Err(AppFault::Failed);
        };
        self.look_at(&scope.path);
        let mut says = Says::with_room(alloc, Kind::Http, 2)?;
        says.add(Outgoing::ResponseStart {
            status: 200,
            headers: Headers::new(alloc),
            trailers: false,
        })?;
        says.add(Outgoing::ResponseBody {
            body: Octets::new(Vec::from_slice(alloc, scope.path.as_str().as_bytes())?),
            more_body: false,
        })?;
        Ok(says)
    }
}

impl<'a> Ends<'a> {
    fn look_at(&self, path: &Chars) {
        if path.as_str() == "/end" {
            self.stop.pull();
        }
    }
}
