//! What each request gets.
use crate::items::Items;
use nomtsage::{AppFault, ask};
use std::alloc::Global;
use std::test::Fail;

/// The method, the path and the body of a request, and the status and the content of its reply.
type Row = (&'static str, &'static str, &'static str, u16, &'static str);

const ROWS: &[Row] = &[
    ("GET", "/", "", 200, "hello\n"),
    ("GET", "/items/7", "", 200, "{\"item\":7}"),
    ("HEAD", "/items/7", "", 200, "{\"item\":7}"),
    ("GET", "/items/x", "", 404, ""),
    ("GET", "/items/7/8", "", 404, ""),
    ("GET", "/items", "", 404, ""),
    ("POST", "/items", "a new item", 200, "{\"length\":10}"),
    ("POST", "/items", "", 200, "{\"length\":0}"),
    ("POST", "/items/7", "", 404, ""),
    ("OPTIONS", "*", "", 404, ""),
];

/// Whether the request of the row gets what it says.
fn is_row(alloc: Global, row: &Row) -> Result<bool, AppFault> {
    let (method, path, body, status, content) = *row;
    let reply = ask(alloc, &Items, method, path, body.as_bytes())?;
    Ok(reply.status == status && reply.body.bytes() == content.as_bytes())
}

#[test]
fn each_request_gets_its_reply(rt: HostRuntime) -> Result<(), Fail> {
    for row in ROWS {
        let (method, path, _, _, _) = *row;
        assert!(rt; is_row(rt.alloc(), row)?, "{method} {path}");
    }
    Ok(())
}
