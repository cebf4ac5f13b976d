//! What the promise of a session comes to: a contract of a function with no code.
ghost use Rattle.asgi_talks.specs.Quiet.{QuietIsAnswered};

use crate::talker::Talk;

/// A session that only answers gives one answer to each message, in order, and is sent nothing else.
pub fn a_quiet_session_is_sent_its_answers<S: Talk>()
    ensures { QuietIsAnswered S.answers }
{}
