//! Requests that are fed in many ways, and what the reader gives for them, in words.
use crate::calls::{Setting, new_reader, of_given, put, take};
use crate::inside::gives_inside;
use asgi_request::{Next, RequestReader};
use asgi_types::{Facts, Framing, HttpScope, Incoming, Scope};
use std::alloc::{AllocError, Global};
use std::process::Abort;
use std::test::Fail;

/// Inputs, and the words of what the reader gives for each of them.
pub type Row = (&'static [&'static [u8]], &'static str);

/// The reader gives these words for each input, fed in all ways.
pub fn gives(rt: &impl Abort, alloc: Global, setting: Setting, rows: &[Row]) -> Result<(), Fail> {
    for (inputs, wanted) in rows {
        for bytes in *inputs {
            gives_in_all_ways(rt, alloc, setting, bytes, wanted)?;
        }
    }
    Ok(())
}

/// Fed in pieces of 1, 2, 7 and 1000 bytes, of which the last is the whole, and cut in two at each place, the bytes
/// give the same results, which are these words, by either call.
pub fn gives_in_all_ways(
    rt: &impl Abort,
    alloc: Global,
    setting: Setting,
    bytes: &[u8],
    wanted: &str,
) -> Result<(), Fail> {
    gives_in_pieces(rt, alloc, setting, bytes, &[1, 2, 7, 1_000], wanted)?;
    gives_inside(rt, alloc, setting, bytes, 7, wanted)?;
    gives_inside(rt, alloc, setting, bytes, 1_000, wanted)?;
    gives_in_two(rt, alloc, setting, bytes, wanted)
}

pub fn gives_in_pieces(
    rt: &impl Abort,
    alloc: Global,
    setting: Setting,
    bytes: &[u8],
    sizes: &[usize],
    wanted: &str,
) -> Result<(), Fail> {
    for size in sizes {
        let words = in_pieces(alloc, setting, bytes, *size)?;
        are(rt, words.as_str(), wanted, "in pieces of", *size);
    }
    Ok(())
}

fn gives_in_two(
    rt: &impl Abort,
    alloc: Global,
    setting: Setting,
    bytes: &[u8],
    wanted: &str,
) -> Result<(), Fail> {
    for cut in 0..bytes.len() {
        let words = in_two(alloc, setting, bytes, cut)?;
        are(rt, words.as_str(), wanted, "cut at", cut);
    }
    Ok(())
}

pub fn are(rt: &impl Abort, words: &str, wanted: &str, how: &str, count: usize) {
    assert!(rt; words == wanted, "{how} {count}: {words}");
}

/// What the reader gives for the bytes, fed in pieces of `size`.
fn in_pieces(
    alloc: Global,
    setting: Setting,
    bytes: &[u8],
    size: usize,
) -> Result<String, AllocError> {
    let mut reader = new_reader(alloc, setting);
    feed_pieces(&mut reader, bytes, size, String::new(alloc))
}

fn feed_pieces(
    reader: &mut RequestReader,
    bytes: &[u8],
    size: usize,
    mut words: String,
) -> Result<String, AllocError> {
    let mut rest = bytes;
    for _ in 0..bytes.len() {
        let (piece, after) = rest.split_at(size.min(rest.len()));
        feed(reader, piece, &mut words)?;
        // One empty piece is fed after the last.
        if piece.is_empty() {
            return Ok(words);
        }
        rest = after;
    }
    Ok(words)
}

/// What the reader gives for the bytes, fed up to the cut and then from it on.
fn in_two(alloc: Global, setting: Setting, bytes: &[u8], cut: usize) -> Result<String, AllocError> {
    let mut reader = new_reader(alloc, setting);
    let (front, after) = bytes.split_at(cut.min(bytes.len()));
    feed_parts(&mut reader, &[front, after], String::new(alloc))
}

fn feed_parts(
    reader: &mut RequestReader,
    parts: &[&[u8]],
    mut words: String,
) -> Result<String, AllocError> {
    for part in parts {
        feed(reader, part, &mut words)?;
    }
    Ok(words)
}

/// Feeds a piece, and adds the words of all results that are there then.
fn feed(reader: &mut RequestReader, piece: &[u8], words: &mut String) -> Result<(), AllocError> {
    put(reader, piece)?;
    drain(reader, words)
}

fn drain(reader: &mut RequestReader, words: &mut String) -> Result<(), AllocError> {
    for _ in 0..1_000 {
        if add_next(reader, words)? {
            break;
        }
    }
    Ok(())
}

/// Adds the words of the next result, and returns whether nothing follows before more is fed.
fn add_next(reader: &mut RequestReader, words: &mut String) -> Result<bool, AllocError> {
    of_given(take(reader), |next| show(next, words))?
}

fn show(next: &Next, words: &mut String) -> Result<bool, AllocError> {
    add_words(next, words)?;
    Ok(is_last(next))
}

fn is_last(next: &Next) -> bool {
    matches!(next, Next::Need | Next::Bad(_))
}

/// Adds the words of a result.
pub fn add_words(next: &Next, words: &mut String) -> Result<(), AllocError> {
    match next {
        Next::Need => Ok(()),
        Next::Head(scope, facts) => add_head(scope, facts, words),
        Next::Event(event) => add_event(event, words),
        Next::Whole => words.push_str(" whole;"),
        Next::Bad(status) => add_refusal(*status, words),
    }
}

fn add_head(scope: &Scope, facts: &Facts, words: &mut String) -> Result<(), AllocError> {
    words.push_str("head ")?;
    if let Scope::Http(http) = scope {
        add_scope(http, words)?;
    }
    words.push_str(framing_word(facts.framing))?;
    add_flag(facts.head_only, " head_only", words)?;
    add_flag(facts.close, " close", words)?;
    add_flag(facts.expect, " expect", words)?;
    add_flag(facts.trailers_ok, " trailers", words)?;
    words.push_str(";")
}

/// The method, and after `OPTIONS` the path, the raw path and the query string.
fn add_scope(http: &HttpScope, words: &mut String) -> Result<(), AllocError> {
    words.push_str(http.method.as_str())?;
    if http.method.as_str() != "OPTIONS" {
        return Ok(());
    }
    words.push_str(" [")?;
    words.push_str(http.path.as_str())?;
    words.push_str("] [")?;
    add_bytes(http.raw_path.bytes(), words)?;
    words.push_str("] [")?;
    add_bytes(http.query_string.bytes(), words)?;
    words.push_str("]")
}

pub fn add_bytes(bytes: &[u8], words: &mut String) -> Result<(), AllocError> {
    for b in bytes {
        words.push(*b as char)?;
    }
    Ok(())
}

fn add_flag(holds: bool, word: &str, words: &mut String) -> Result<(), AllocError> {
    if holds {
        return words.push_str(word);
    }
    Ok(())
}

fn framing_word(framing: Framing) -> &'static str {
    match framing {
        Framing::Length(n) => length_word(n),
        Framing::Chunked => " chunked",
        Framing::Upgrade => " upgrade",
    }
}

/// A length that occurs in a row.
fn length_word(length: u64) -> &'static str {
    match length {
        0 => " 0",
        3 => " 3",
        4 => " 4",
        5 => " 5",
        8 => " 8",
        9 => " 9",
        10 => " 10",
        _ => " another length",
    }
}

pub fn add_event(event: &Incoming, words: &mut String) -> Result<(), AllocError> {
    let Incoming::HttpRequest { body, more_body } = event else {
        return words.push_str(" another event");
    };
    words.push_str(if *more_body { " more(" } else { " last(" })?;
    add_bytes(body.bytes(), words)?;
    words.push_str(")")
}

/// A refusal is given again; its words are added once.
pub fn add_refusal(status: u16, words: &mut String) -> Result<(), AllocError> {
    let word = match status {
        400 => " bad 400",
        413 => " bad 413",
        431 => " bad 431",
        501 => " bad 501",
        _ => " another status",
    };
    if words.as_str().ends_with(word) {
        return Ok(());
    }
    words.push_str(word)
}
