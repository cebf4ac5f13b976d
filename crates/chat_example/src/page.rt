//! The page of the chat.
use nomtsage::{AppFault, Handler, Reply, Request};

const PAGE: &str = "<!doctype html>
<meta charset=utf-8>
<title>Chat</title>
<ul id=lines></ul>
<form id=form><input id=text autofocus autocomplete=off> <button>Send</button></form>
<script>
const socket = new WebSocket(location.origin.replace('http', 'ws'));
const item = text => Object.assign(document.createElement('li'), { textContent: text });
socket.onmessage = event => lines.append(item(event.data));
form.onsubmit = () => { socket.send(text.value); text.value = ''; return false; };
</script>
";

/// Replies to `/` with the page.
#[derive(Clone, Copy, Debug)]
pub struct Page;

impl Handler for Page {
    fn handle(&self, request: &Request<'_>) -> Result<Reply, AppFault> {
        match request.path() {
            "/" => Reply::html(request.alloc(), PAGE),
            _ => Reply::status(request.alloc(), 404),
        }
    }
}
