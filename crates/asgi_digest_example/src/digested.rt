//! An application whose responses end with a digest.
use asgi_apps::{AppFault, Application, Says};
use asgi_types::{Headers, HttpScope, Kind, Octets, Outgoing, Scope};
use base64::engine::general_purpose::STANDARD;
use sha2::{Digest, Sha256};
use std::alloc::{AllocError, Global};

/// Responds to each request with its own path, a line of text, and then with the digest of that
/// line in a trailer (`content-digest`, RFC 9530, section 2).
#[derive(Clone, Copy, Debug)]
pub struct Digested;

impl Application for Digested {
    type Task = Says;

    fn call(&self, alloc: Global, scope: &Scope) -> Result<Says, AppFault> {
        let Scope::Http(scope) = scope else {
            return Err(AppFault::Failed);
        };
        let line = line_of(alloc, scope)?;
        let trailers = trailers_of(alloc, line.as_slice())?;
        let mut says = Says::with_room(alloc, Kind::Http, 3)?;
        says.add(Outgoing::ResponseStart {
            status: 200,
            headers: fields(alloc)?,
            trailers: true,
        })?;
        says.add(Outgoing::ResponseBody {
            body: Octets::new(line),
            more_body: false,
        })?;
        says.add(Outgoing::ResponseTrailers {
            headers: trailers,
            more_trailers: false,
        })?;
        Ok(says)
    }
}

fn line_of(alloc: Global, scope: &HttpScope) -> Result<Vec<u8>, AllocError> {
    let mut line = Vec::from_slice(alloc, scope.path.as_str().as_bytes())?;
    line.extend_from_slice(b"\n")?;
    Ok(line)
}

/// The fields of the head, which name the field of the trailers (RFC 9110, section 6.6.2).
fn fields(alloc: Global) -> Result<Headers, AppFault> {
    let mut headers = Headers::new(alloc);
    headers.push(b"trailer", b"content-digest")?;
    Ok(headers)
}

/// The digest of the bytes by SHA-256, in base64 between colons (RFC 8941, section 3.3.5).
fn trailers_of(alloc: Global, bytes: &[u8]) -> Result<Headers, AppFault> {
    let mut value = String::from_str(alloc, "sha-256=:")?;
    STANDARD.encode_string(&Sha256::digest(bytes), &mut value)?;
    value.push(':')?;
    let mut headers = Headers::new(alloc);
    headers.push(b"content-digest", value.as_bytes())?;
    Ok(headers)
}
