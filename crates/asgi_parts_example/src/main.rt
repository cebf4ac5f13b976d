//! The parser, the judge and the response writer, each used alone, with no server around it.
#![tactic(auto)]

mod judge;
mod parser;
mod response;

use std::io;

fn main(rt: HostRuntime) -> io::Result<()> {
    let mut out = io::writer(&rt);
    parser::show(rt.alloc(), &mut out)?;
    judge::show(rt.alloc(), &mut out)?;
    response::show(rt.alloc(), &mut out)
}
