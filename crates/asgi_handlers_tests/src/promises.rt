//! A handler that promises which reply it gives.
ghost use Rattle.std.specs.Prelude.{◌≡◌};

use crate::driver::Ask::Post;
use crate::driver::Offered::{Last, Part};
use crate::driver::{Row, check};
use asgi_apps::AppFault;
use asgi_handlers::{Handled, Handler, Reply, Request};
use std::test::Fail;

/// Replies with the body that it got, and promises so.
#[derive(Clone, Copy, Debug)]
struct Returns;

impl Handler for Returns {
    // The content of the reply is the body of the request.
    ghost replies = { λ _ _ body reply. reply.body ≡ body };

    fn handle(&self, request: &Request<'_>) -> Result<Reply, AppFault> {
        let alloc = request.alloc();
        let body = Vec::from_slice(alloc, request.body())?;
        Reply::new(alloc, 200, "a/b", body)
    }
}

const RETURNED: &[Row] = &[(
    Post("/"),
    &[Part("ab"), Last("c")],
    "start 200 content-type=a/b content-length=3|last abc|returned",
)];

#[test]
fn a_promise_takes_one_line(rt: HostRuntime) -> Result<(), Fail> {
    check(&rt, Handled::new(Returns), RETURNED)
}
