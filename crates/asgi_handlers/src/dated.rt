//! The field `date` of replies.
ghost use Rattle.std.specs.Prelude.{◌≡◌, IfOk};
ghost use Rattle.asgi_handlers.specs.Dating.{dated_reply, with_date as with_date_at};

use crate::handler::Handler;
use crate::reply::Reply;
use crate::request::Request;
use asgi_apps::AppFault;
use httpdate::HttpDate;
use std::time::{Clock, SystemTime, UNIX_EPOCH};

const DATE: &[u8] = b"date";

/// A handler whose replies have the time at which they are made in the field `date`, as an origin
/// server with a clock sends it (RFC 9110, section 6.6.1). A reply that has the field keeps it; none
/// is added while the clock is not read, or stands before 1970 or after 9999.
#[derive(Clone, Copy, Debug)]
pub struct Dated<H, R> {
    /// What gives the replies.
    pub handler: H,
    clock: R,
}

impl<H, R: Clock> Dated<H, R> {
    /// This handler, with dates by this clock.
    pub fn new(handler: H, clock: R) -> Self
        ensures { result.handler ≡ handler }
    {
        Dated { handler, clock }
    }
}

impl<H: Handler, R: Clock> Handler for Dated<H, R> {
    ghost use Rattle.asgi_handlers.specs.Dating.{IsDated};

    ghost replies = { λ dated scope body. IsDated (H.replies dated.handler scope body) };

    fn handle(&self, request: &Request<'_>) -> Result<Reply, AppFault> {
        let reply = self.handler.handle(request)?;
        stamped(reply, now(&self.clock))
    }
}

/// The time by this clock, if it is one that a date has.
fn now<R: Clock>(clock: &R) -> Option<HttpDate> {
    let time = SystemTime::now(clock).ok()?;
    let since = time.duration_since(UNIX_EPOCH).ok()?;
    HttpDate::from_unix_secs(since.as_secs()).ok()
}

/// The reply with this date, if it has none. `NoMemory` if memory is refused.
fn stamped(reply: Reply, date: Option<HttpDate>) -> Result<Reply, AppFault>
    ensures { IfOk result (λ stamped. stamped ≡ dated_reply reply date) }
{
    let Some(date) = date else {
        return Ok(reply);
    };
    if reply.headers.get(DATE).is_some() {
        return Ok(reply);
    }
    with_date(reply, &date)
}

/// The reply with one more field, the date. `NoMemory` if memory is refused.
fn with_date(reply: Reply, date: &HttpDate) -> Result<Reply, AppFault>
    ensures { IfOk result (λ stamped. stamped ≡ with_date_at reply date.now) }
{
    let Reply {
        status,
        mut headers,
        body,
    } = reply;
    headers.push(DATE, &date.to_bytes())?;
    Ok(Reply {
        status,
        headers,
        body,
    })
}
