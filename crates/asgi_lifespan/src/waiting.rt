//! Turns of a lifespan task, until it replies.
ghost use Rattle.std.specs.Prelude.{◌≡◌, ◌⊎◌, ◌+◌, ℕ, Some, length};
ghost use Rattle.futures.specs.Task.{IsArmed, Keeps};
ghost use Rattle.asgi_lifespan.specs.Hosting.{Follows, IsHosted, Tells, got_of, offered_to, turns_in};
ghost use Rattle.asgi_lifespan.specs.Turning.{HasTurned, TakesTurns};

use crate::hosted::{Hosted, Word};
use asgi_apps::{AppTask, Pause};
use asgi_io::Turns;
use futures::task::Context;

impl<T: AppTask> Hosted<T> {
    /// Takes turns until the task sends something or has ended, or `turns` turns or `idle_turns`
    /// idle ones in a row were taken. Pauses after each idle turn. An event waits for its reply.
    pub fn run<P: Pause>(
        &mut self,
        cx: &mut Context<'_>,
        pause: &mut P,
        idle_turns: u32,
        turns: u64,
    ) -> Word
        requires hosted { IsHosted T.stands self.old }
        requires awaits { length (offered_to self.old) ≡ length (got_of self.old) + 1 }
        ensures follows { Follows T.stands T.answers self.old self.new }
        ensures tells { Tells self.old self.new (Some result) }
        ensures turns { (took : TakesTurns turns idle_turns (P.count pause.old) (P.count pause.new) (turns_in result)) × HasTurned took.turned self.old self.new }
        ensures armed { (told : ℕ) → turns_in result ≡ Some told → (told ≡ 0) ⊎ IsArmed cx.new }
        ensures kept { Keeps cx.old cx.new }
    {
        let mut taken = Turns::new(turns, idle_turns);
        loop {
            if let Some(word) = self.next() {
                return word;
            }
            if taken.is_over() {
                return Word::Idle(taken.turns);
            }
            let turn = self.turn(cx);
            taken.take(turn, pause);
        }
    }
}
