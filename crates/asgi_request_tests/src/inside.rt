//! Results inside a request, asked for by a call of their own: they are those that `next` gives.
use crate::calls::{Setting, new_reader, of_given, put, take, take_inside};
use crate::feeding::{add_event, add_refusal, add_words, are};
use asgi_request::{Next, NextOfBody, RequestReader};
use std::alloc::{AllocError, Global};
use std::process::Abort;
use std::test::Fail;

/// Where the reader is after a result.
#[derive(Clone, Copy)]
enum Then {
    /// More bytes are needed, or none are read.
    Stops,
    Inside,
    Between,
}

/// Fed in pieces of `size`, the bytes give these words, if `next` is asked between requests alone.
pub fn gives_inside(
    rt: &impl Abort,
    alloc: Global,
    setting: Setting,
    bytes: &[u8],
    size: usize,
    wanted: &str,
) -> Result<(), Fail> {
    let words = in_pieces(alloc, setting, bytes, size)?;
    are(
        rt,
        words.as_str(),
        wanted,
        "asked inside a request, in pieces of",
        size,
    );
    Ok(())
}

fn in_pieces(
    alloc: Global,
    setting: Setting,
    bytes: &[u8],
    size: usize,
) -> Result<String, AllocError> {
    let mut reader = new_reader(alloc, setting);
    let mut words = String::new(alloc);
    let mut inside = false;
    let mut rest = bytes;
    for _ in 0..bytes.len() {
        let (piece, after) = rest.split_at(size.min(rest.len()));
        put(&mut reader, piece)?;
        inside = drain(&mut reader, inside, &mut words)?;
        rest = after;
    }
    Ok(words)
}

/// Adds the words of all results that are there, and returns whether more of a request may follow.
fn drain(
    reader: &mut RequestReader,
    was_inside: bool,
    words: &mut String,
) -> Result<bool, AllocError> {
    let mut inside = was_inside;
    for _ in 0..1_000 {
        match add_result(reader, inside, words)? {
            Then::Stops => return Ok(inside),
            Then::Inside => inside = true,
            Then::Between => inside = false,
        }
    }
    Ok(inside)
}

/// Adds the words of the next result, by the call that is due.
fn add_result(
    reader: &mut RequestReader,
    inside: bool,
    words: &mut String,
) -> Result<Then, AllocError> {
    if inside {
        return of_given(take_inside(reader), |given| show_inside(given, words))?;
    }
    of_given(take(reader), |next| show(next, words))?
}

fn show(next: &Next, words: &mut String) -> Result<Then, AllocError> {
    add_words(next, words)?;
    Ok(match next {
        Next::Need | Next::Bad(_) => Then::Stops,
        Next::Head(_, _) | Next::Event(_) => Then::Inside,
        Next::Whole => Then::Between,
    })
}

fn show_inside(given: &NextOfBody, words: &mut String) -> Result<Then, AllocError> {
    match given {
        NextOfBody::Need => Ok(Then::Stops),
        NextOfBody::Event(event) => {
            add_event(event, words)?;
            Ok(Then::Inside)
        }
        NextOfBody::Whole => {
            words.push_str(" whole;")?;
            Ok(Then::Between)
        }
        NextOfBody::Bad(status) => {
            add_refusal(*status, words)?;
            Ok(Then::Stops)
        }
    }
}
