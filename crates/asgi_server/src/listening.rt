//! Connections from a socket that is open before the first is asked for, at any address, until a flag is set.
ghost use Rattle.std.specs.Prelude.{◌≡◌, ◌+◌, ◌++◌, ◌∷◌, [], true, false, None, is_some, IfSome, IfNone, IfOk};
ghost use Rattle.asgi_server.specs.Arrivals.{Arrives};

use crate::accepting::{NoMore, accept_until};
use crate::listener::{Accepts, Listener};
use crate::peers::sides_of;
use crate::socket::Socket;
use crate::sockets::OverSocket;
use crate::system::Calls;
use asgi_io::History;
use asgi_ws::Wired;
use std::alloc::Global;
use std::io;
use std::net::{Net, OpenListener, SocketAddr};
use std::sync::atomic::AtomicBool;
use std::time::Clock;

/// A socket that listens, and gives its connections, whose reads do not wait: at most a number of them, and none once a
/// flag was found set. If no connection can be accepted any more, `next` returns none, `failed` returns true, and `why`
/// the system's error. A fault of one connection, before it was accepted, is passed over; what is accepted is given,
/// without its client or its server if the system or memory refuses them.
#[derive(Drop)]
pub struct Listening<'a, R: Net + Clock> {
    rt: &'a R,
    alloc: Global,
    listener: R::Listener,
    // How many more connections will be accepted.
    left: u64,
    // Looked at before each accept.
    flag: Option<&'a AtomicBool>,
    // Why no connection can be accepted any more.
    why: Option<io::Error>,
    calls: Calls<R::Stream>,
    told: History<Option<OverSocket<'a, R>>>,
}

impl<'a, R: Net + Clock> Listening<'a, R> {
    /// Opens a socket that listens at this address, or at any free port of it if its port is 0. It will give `count`
    /// connections, and none once the flag is set: then the socket does not wait in an accept, but is asked each
    /// millisecond. The system's error if the address can't be had.
    pub fn open(
        rt: &'a R,
        alloc: Global,
        address: SocketAddr,
        count: u64,
        flag: Option<&'a AtomicBool>,
    ) -> io::Result<Self>
        ensures nothing { IfOk result (λ s. (s.told.items ≡ []) × (s.why ≡ None)) }
        ensures count { IfOk result (λ s. s.left ≡ count) }
        ensures bound { IfOk result (λ s. s.calls.bound.items ≡ address ∷ []) }
    {
        let mut calls = Calls::new();
        let listener = calls.bind(rt, address)?;
        // An accept that waits would not see that the flag was set.
        listener.set_nonblocking(flag.is_some())?;
        Ok(Listening {
            rt,
            alloc,
            listener,
            left: count,
            flag,
            why: None,
            calls,
            told: History::new(),
        })
    }

    /// The address at which it listens, with the port that the system chose if none was asked for.
    pub fn address(&self) -> io::Result<SocketAddr> {
        self.listener.local_addr()
    }

    /// Why no connection can be accepted any more: the system's error, once it has failed.
    pub fn why(&self) -> Option<io::Error>
        ensures { result ≡ self.now.why }
    {
        self.why
    }

    /// Accepts the next connection, if one is still to be given.
    fn accept(&mut self) -> Option<OverSocket<'a, R>>
        ensures some { IfSome result (λ _. (self.old.left ≡ self.new.left + 1) × (is_some self.new.why ≡ false)) }
        ensures none { IfNone result (self.new.left ≡ self.old.left) }
        ensures failed { is_some self.old.why ≡ true → result ≡ None }
        ensures bound { self.new.calls.bound ≡ self.old.calls.bound }
        ensures told { self.new.told ≡ self.old.told }
        ensures arrives { IfSome result (λ given. Arrives self.old.calls.accepted.items self.new.calls.accepted.items self.old.calls.named.items self.new.calls.named.items given) }
    {
        if self.why.is_some() {
            return None;
        }
        let Some(left) = self.left.checked_sub(1) else {
            return None;
        };
        match self.accept_one() {
            Ok(connection) => {
                self.left = left;
                Some(connection)
            }
            Err(NoMore::Stopped) => None,
            Err(NoMore::Failed(e)) => {
                self.why = Some(e);
                None
            }
        }
    }

    fn accept_one(&mut self) -> Result<OverSocket<'a, R>, NoMore>
        ensures told { self.new.told ≡ self.old.told }
        ensures left { (self.new.left ≡ self.old.left) × (self.new.why ≡ self.old.why) }
        ensures bound { self.new.calls.bound ≡ self.old.calls.bound }
        ensures arrives { IfOk result (λ given. Arrives self.old.calls.accepted.items self.new.calls.accepted.items self.old.calls.named.items self.new.calls.named.items given) }
    {
        let (stream, from) = accept_until(self.rt, &self.listener, self.flag, &mut self.calls)?;
        let own = self.calls.name(&stream);
        let (client, server) = sides_of(self.alloc, from, own);
        let line = Wired::new(self.alloc, Socket::new(self.rt, self.alloc, stream, false));
        Ok((line, client, server))
    }
}

impl<'a, R: Net + Clock> Listener for Listening<'a, R> {
    type L = Wired<Socket<'a, R, R::Stream>>;

    ghost answers = { λ s. s.told.items };

    ghost asked = { λ _. [] };

    fn next(&mut self) -> Option<OverSocket<'a, R>>
        ensures told { self.new.told.items ≡ self.old.told.items ++ result ∷ [] }
        ensures some { IfSome result (λ _. (self.old.left ≡ self.new.left + 1) × (is_some self.new.why ≡ false)) }
        ensures none { IfNone result (self.new.left ≡ self.old.left) }
        ensures failed { is_some self.old.why ≡ true → result ≡ None }
        ensures bound { self.new.calls.bound ≡ self.old.calls.bound }
        ensures arrives { IfSome result (λ given. Arrives self.old.calls.accepted.items self.new.calls.accepted.items self.old.calls.named.items self.new.calls.named.items given) }
    {
        let given = self.accept();
        self.told = History::with(&self.told, &given);
        given
    }
}

impl<'a, R: Net + Clock> Accepts for Listening<'a, R> {
    ghost has_failed = { λ s. is_some s.why };

    fn failed(&self) -> bool {
        self.why.is_some()
    }
}
