//! What a server tells a session by itself.
ghost use Rattle.std.specs.Prelude.{◌≡◌};
ghost use Rattle.asgi_leaving.specs.Notices.{code_of, heard_of, next_of};

/// Why a session is told to end (RFC 6455, section 7.4.1).
#[derive(Clone, Copy, Debug, PartialEq, Eq)]
pub enum Farewell {
    /// 1001: the server goes away.
    GoingAway,
    /// 1011: the client has not answered a ping.
    NoAnswer,
}

impl Farewell {
    /// The code of its close.
    pub fn code(self) -> u16
        ensures { result ≡ code_of self }
    {
        match self {
            Farewell::GoingAway => 1001,
            Farewell::NoAnswer => 1011,
        }
    }
}

/// What a session is told, or its client is.
#[derive(Clone, Copy, Debug, PartialEq, Eq)]
pub enum Notice {
    Nothing,
    /// The client gets a ping with no data, which asks it for a pong (RFC 6455, section 5.5.2).
    Ping,
    /// The session is told a close with this code and no reason, and its client is at last.
    Close(Farewell),
}

impl Notice {
    /// What is told where this is due, once that was told: one ping until the client is heard, a close for want of an answer only
    /// after it, and nothing after a close.
    pub fn after(self, told: Notice) -> Notice
        ensures { result ≡ next_of told self }
    {
        match told {
            Notice::Nothing => match self {
                Notice::Nothing => Notice::Nothing,
                Notice::Ping => Notice::Ping,
                Notice::Close(Farewell::GoingAway) => Notice::Close(Farewell::GoingAway),
                Notice::Close(Farewell::NoAnswer) => Notice::Nothing,
            },
            Notice::Ping => match self {
                Notice::Nothing => Notice::Nothing,
                Notice::Ping => Notice::Nothing,
                Notice::Close(why) => Notice::Close(why),
            },
            Notice::Close(_) => Notice::Nothing,
        }
    }

    /// What stays of what was told once the client is heard: that a session was told to end.
    pub fn once_heard(self) -> Notice
        ensures { result ≡ heard_of self }
    {
        match self {
            Notice::Close(_) => self,
            Notice::Ping | Notice::Nothing => Notice::Nothing,
        }
    }
}
