//! A task of one's own that hears a body piece by piece, and replies with its digest.
use base64::engine::general_purpose::STANDARD;
use nomtsage::{
    AppEnd, AppFault, AppTask, Application, Context, Headers, Incoming, Kind, Octets, Outgoing,
    Poll, Says, Scope,
};
use sha2::{Digest, Sha256};
use std::alloc::Global;

/// Replies to each request with the SHA-256 of its body, in hex, and then with the same in a trailer.
#[derive(Clone, Copy)]
pub struct Upload;

impl Application for Upload {
    type Task = Uploading;

    fn call(&self, alloc: Global, scope: &Scope) -> Result<Uploading, AppFault> {
        let Scope::Http(_) = scope else {
            return Err(AppFault::Failed);
        };
        Ok(Uploading {
            alloc,
            hasher: Sha256::new(),
            reply: None,
        })
    }
}

/// What was heard of the body, as a digest, and then the reply.
#[derive(Drop)]
pub struct Uploading {
    alloc: Global,
    hasher: Sha256,
    reply: Option<Says>,
}

impl AppTask for Uploading {
    fn poll<E: AppEnd>(&mut self, cx: &mut Context<'_>, end: &mut E) -> Poll<Result<(), AppFault>> {
        if let Some(reply) = &mut self.reply {
            return reply.send(cx, end);
        }
        let Poll::Ready(event) = end.poll_receive(cx) else {
            return Poll::Pending;
        };
        match self.hear(event) {
            Ok(true) => cx.yield_now(),
            Ok(false) => Poll::Ready(Ok(())),
            Err(e) => Poll::Ready(Err(e)),
        }
    }

    ghost keeps = { λ _ _ _ _ _. tt };
}

impl Uploading {
    /// Takes in a piece of the body; false if the client is gone.
    fn hear(&mut self, event: Incoming) -> Result<bool, AppFault> {
        let Incoming::HttpRequest { body, more_body } = event else {
            return Ok(false);
        };
        self.hasher.update(body.bytes());
        if !more_body {
            let digest = std::mem::replace(&mut self.hasher, Sha256::new()).finalize();
            self.reply = Some(reply_of(self.alloc, &digest)?);
        }
        Ok(true)
    }
}

/// The digest in hex as the content, and in a trailer (RFC 9530, section 2), which the head names.
fn reply_of(alloc: Global, digest: &[u8]) -> Result<Says, AppFault> {
    let mut headers = Headers::new(alloc);
    headers.push(b"trailer", b"content-digest")?;
    let mut field = String::from_str(alloc, "sha-256=:")?;
    STANDARD.encode_string(digest, &mut field)?;
    field.push(':')?;
    let mut trailers = Headers::new(alloc);
    trailers.push(b"content-digest", field.as_bytes())?;
    let mut reply = Says::with_room(alloc, Kind::Http, 3)?;
    reply.add(Outgoing::ResponseStart {
        status: 200,
        headers,
        trailers: true,
    })?;
    reply.add(Outgoing::ResponseBody {
        body: Octets::new(hex::encode(alloc, digest)?.into_bytes()),
        more_body: false,
    })?;
    reply.add(Outgoing::ResponseTrailers {
        headers: trailers,
        more_trailers: false,
    })?;
    Ok(reply)
}
