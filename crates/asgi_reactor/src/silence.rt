//! For how long a session may be silent.
ghost use Rattle.std.specs.Prelude.{◌≡◌, ◌+◌, ◌-◌, ◌^◌, min};
ghost use Rattle.asgi_reactor.specs.Silence.{IsDue};

use asgi_leaving::{Farewell, Notice};

/// For how many ticks one after another nothing has come in a session, nor gone out.
#[derive(Clone, Copy, Debug)]
pub struct Silence {
    ticks: u32,
}

impl Silence {
    /// Something has just come.
    pub fn new() -> Self
        ensures { result.ticks ≡ 0 }
    {
        Silence { ticks: 0 }
    }

    /// Something has come, or gone out.
    pub fn end(&mut self)
        ensures { self.new.ticks ≡ 0 }
    {
        self.ticks = 0;
    }

    /// A tick has passed in which nothing did.
    pub fn tick(&mut self)
        ensures { self.new.ticks ≡ min (self.old.ticks + 1) (2 ^ 32 - 1) }
    {
        self.ticks = self.ticks.saturating_add(1);
    }

    /// What is due to the session: a ping once it was silent for so many ticks, unless that is 0, and its end once it was for so many
    /// more, whose client is held not to have answered then.
    pub fn due(&self, ping: u32, pong: u32) -> Notice
        ensures { IsDue ping pong self.now.ticks result }
    {
        if ping == 0 {
            return Notice::Nothing;
        }
        if self.ticks < ping {
            return Notice::Nothing;
        }
        if self.ticks - ping < pong {
            return Notice::Ping;
        }
        Notice::Close(Farewell::NoAnswer)
    }
}
