//! The sessions of the chat.
use nomtsage::{
    Answer, AppFault, Chars, Opened, Payload, Talk, Talker, Tells, WsScope, is_own_origin,
};
use std::alloc::Global;
use std::sync::{Arc, Mutex, Wait};

/// What opens the sessions, which share the messages so far, behind a lock.
#[derive(Drop)]
pub struct Chat<R> {
    pub rt: R,
    pub texts: Arc<Mutex<Vec<Chars>>, Global>,
}

/// One session, and how many of the messages it has said.
#[derive(Drop)]
pub struct Member<R> {
    chat: Chat<R>,
    said: usize,
}

impl<R: Wait + Copy + Drop> Talker for Chat<R> {
    type Session = Member<R>;

    fn open(&self, alloc: Global, scope: &WsScope) -> Result<Opened<Member<R>>, AppFault> {
        // A page of another site is not to read along, nor to speak for the one who looks at it.
        if !is_own_origin(scope) {
            return Ok(Opened::Refused);
        }
        let (rt, texts) = (self.rt, Arc::try_clone(&self.texts)?);
        let chat = Chat { rt, texts };
        Ok(Opened::accept(alloc, Member { chat, said: 0 }))
    }
}

impl<R: Wait + Drop> Talk for Member<R> {
    fn hear(&mut self, alloc: Global, message: Payload) -> Result<Answer, AppFault> {
        let Payload::Text(text) = message else {
            return Ok(Answer::closing(alloc, 1003, "texts only")?);
        };
        let mut texts = self.chat.texts.lock(&self.chat.rt);
        if texts.len() >= 10_000 || text.as_str().len() > 1_000 {
            return Ok(Answer::closing(alloc, 1008, "too many, or too long")?);
        }
        texts.push(text)?;
        Ok(Answer::nothing(alloc))
    }
}

impl<R: Wait + Drop> Tells for Member<R> {
    fn tell(&mut self, alloc: Global) -> Result<Answer, AppFault> {
        let texts = self.chat.texts.lock(&self.chat.rt);
        let Some(text) = texts.get(self.said) else {
            return Ok(Answer::nothing(alloc));
        };
        let text = text.copy(alloc)?;
        self.said = self.said.saturating_add(1);
        Ok(Answer::message(alloc, Payload::Text(text))?)
    }
}
