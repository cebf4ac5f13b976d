//! Answers each line of standard input: the value that answers a key, or `no key`. `tests/keys.py` runs it.
#![tactic(auto)]

use asgi_request::is_key;
use asgi_ws::accept_value;
use std::io::{self, BufRead, BufReader, Write};

fn main(rt: HostRuntime) -> io::Result<()> {
    let mut out = io::writer(&rt);
    for line in BufReader::new(rt.alloc(), rt.reader())?.lines(rt.alloc()) {
        answer(line?.as_bytes(), &mut out)?;
    }
    Ok(())
}

/// Writes the answer to one line.
fn answer<W: Write>(line: &[u8], out: &mut W) -> io::Result<()> {
    if !is_key(line) {
        return out.write_all(b"no key\n");
    }
    let mut key = [0; 24];
    key.copy_from_slice(line);
    out.write_all(&accept_value(&key))?;
    out.write_all(b"\n")
}
