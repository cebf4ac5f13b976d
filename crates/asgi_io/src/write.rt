//! Writing a text out.
ghost use Rattle.std.specs.Prelude.{◌≡◌, ◌<◌, ◌≤◌, ◌⊎◌, ◌↔◌, IsTrue, length, take};
ghost use Rattle.std.specs.Io.KnownBytes.{Appends};
ghost use Rattle.asgi_io.specs.Counting.{RoseBy};
ghost use Rattle.asgi_io.specs.Writing.{TriesWrites, WritesOut, TriesPart, out_of};

use crate::answer::is_passing;
use crate::counts::Counts;

/// How often in a row a write that was interrupted or would block is tried again.
const RETRIES: u32 = 1_000;

/// How the writing of a text ended.
#[derive(Clone, Copy, Debug, PartialEq, Eq)]
pub enum Wrote {
    /// All of the text went out.
    Done,
    /// A write failed after this many bytes of the text, and not all went out.
    Failed(usize),
}

/// Writes the text, part by part in order, and returns how much of it went out if a write failed:
/// at a fault that does not pass, or if none of the bytes were taken.
///
/// A write that is interrupted or would block is tried again, at most 1,000 times in a row.
pub fn write_out<W: Counts>(writer: &mut W, text: &[u8]) -> Wrote
    ensures writes { WritesOut (W.written writer.old) (W.written writer.new) (W.failed writer.old) (W.failed writer.new) text.now result }
    ensures tries { TriesWrites (W.answers writer.old) (W.answers writer.new) (out_of text.now result) result }
    ensures beside { W.beside writer.new ≡ W.beside writer.old }
{
    let mut at = 0;
    while at < text.len() {
        let n = write_retrying(writer, &text[at..]);
        if n == 0 {
            return Wrote::Failed(at);
        }
        at += n;
    }
    Wrote::Done
}

/// Writes some of the bytes, and returns how many: 0 if the writer failed.
fn write_retrying<W: Counts>(writer: &mut W, bytes: &[u8]) -> usize
    requires { 0 < length bytes.now }
    ensures bound { result ≤ length bytes.now }
    ensures bytes { Appends (W.written writer.old) (W.written writer.new) (take result bytes.now) }
    ensures counts { RoseBy 0 (W.failed writer.old) (W.failed writer.new) }
    ensures failed { result ≡ 0 → RoseBy 1 (W.failed writer.old) (W.failed writer.new) }
    ensures tries { TriesPart (W.answers writer.old) (W.answers writer.new) result }
    ensures beside { W.beside writer.new ≡ W.beside writer.old }
{
    for _tried in 0..RETRIES {
        match writer.write_some(bytes) {
            Ok(n) => return n,
            Err(e) => {
                if !is_passing(&e) {
                    return 0;
                }
            }
        }
    }
    match writer.write_some(bytes) {
        Ok(n) => n,
        Err(_) => 0,
    }
}
