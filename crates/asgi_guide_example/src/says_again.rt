//! A session: each text comes back, until the client says goodbye.
use nomtsage::{Answer, AppFault, Opened, Payload, Talk, Talker, WsScope};
use std::alloc::Global;

/// The code of a session that has done what it was for (RFC 6455, section 7.4.1).
const NORMAL: u16 = 1000;

/// Accepts each session, sends `you said: ` and each text back, and closes the session at the text
/// `bye`. A binary message gets no answer.
#[derive(Clone, Copy, Debug)]
pub struct SaysAgain;

/// Nothing is kept between the messages.
#[derive(Clone, Copy, Debug, Drop)]
pub struct Session;

impl Talker for SaysAgain {
    type Session = Session;

    fn open(&self, alloc: Global, _scope: &WsScope) -> Result<Opened<Session>, AppFault> {
        Ok(Opened::accept(alloc, Session))
    }
}

impl Talk for Session {
    fn hear(&mut self, alloc: Global, message: Payload) -> Result<Answer, AppFault> {
        let Payload::Text(text) = message else {
            return Ok(Answer::nothing(alloc));
        };
        if text.as_str() == "bye" {
            return Ok(Answer::closing(alloc, NORMAL, "bye")?);
        }
        let line = format!(in alloc; "you said: {}", text.as_str())?;
        Ok(Answer::text(alloc, line.as_str())?)
    }
}
