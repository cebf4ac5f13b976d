//! Fields, bytes and limits, on examples: what is taken, what is refused, and what is kept.

use crate::values::{octets, wrong_given};
use asgi_types::{BadLimit, HeaderError, Headers, Limits};
use std::alloc::{AllocError, Global};
use std::process::Abort;
use std::test::Fail;

/// A name, a value, and what a push of the two returns.
type Push = (&'static [u8], &'static [u8], Result<(), HeaderError>);

const PUSHES: &[Push] = &[
    (b"X-A", b"q", Ok(())),
    (b"!#$%&'*+-.^_`|~09azAZ", b"q", Ok(())),
    (b"X-A", b"", Ok(())),
    (b"X-A", b" \t ~\x80\xff", Ok(())),
    (b"", b"q", Err(HeaderError::BadName)),
    (b"A b", b"x", Err(HeaderError::BadName)),
    (b"a:", b"x", Err(HeaderError::BadName)),
    (b"a\x7f", b"x", Err(HeaderError::BadName)),
    (b"a\xe9", b"x", Err(HeaderError::BadName)),
    (b"(a)", b"x", Err(HeaderError::BadName)),
    (b"X-A", b"q\r", Err(HeaderError::BadValue)),
    (b"X-A", b"\nq", Err(HeaderError::BadValue)),
    (b"X-A", b"\0", Err(HeaderError::BadValue)),
    (b"X-A", b"\x1f", Err(HeaderError::BadValue)),
    (b"X-A", b"\x7f", Err(HeaderError::BadValue)),
    (b"A b", b"\0", Err(HeaderError::BadName)),
];

/// What a push of the two returns.
fn answer(headers: &mut Headers, name: &[u8], value: &[u8]) -> Result<(), HeaderError> {
    headers.push(name, value)
}

/// There is one field if it was kept, and else none.
fn has_kept(headers: &Headers, is_kept: bool) -> bool {
    headers.len() == is_kept as usize && headers.is_empty() != is_kept
}

/// The push of the field to no fields returns this, and the list then has it exactly if it was
/// kept.
fn answers(alloc: Global, name: &[u8], value: &[u8], wanted: &Result<(), HeaderError>) -> bool {
    let mut headers = Headers::new(alloc);
    answer(&mut headers, name, value) == *wanted && has_kept(&headers, wanted.is_ok())
}

fn answers_so(alloc: Global, row: &Push) -> bool {
    answers(alloc, row.0, row.1, &row.2)
}

#[test]
fn a_field_is_kept_or_refused(rt: HostRuntime) {
    for (row, push) in PUSHES.iter().enumerate() {
        assert!(rt; answers_so(rt.alloc(), push), "row {row}");
    }
}

/// How many bytes a name has, and what a push of it returns.
const SIZES: &[(usize, Result<(), HeaderError>)] = &[
    (65_535, Ok(())),
    (65_536, Err(HeaderError::BadName)),
];

fn answers_name_of(
    alloc: Global,
    row: &(usize, Result<(), HeaderError>),
) -> Result<bool, AllocError> {
    let name = vec![in alloc; b'a'; row.0]?;
    Ok(answers(alloc, name.as_slice(), b"q", &row.1))
}

#[test]
fn a_name_has_at_most_65535_bytes(rt: HostRuntime) -> Result<(), Fail> {
    for (row, size) in SIZES.iter().enumerate() {
        assert!(rt; answers_name_of(rt.alloc(), size)?, "row {row}");
    }
    Ok(())
}

/// What is kept of three fields, in their order.
const KEPT: &[(&[u8], &[u8])] = &[(b"x-a", b"q"), (b"host", b""), (b"x-a", b"Q")];

fn is_kept(index: usize, name: &[u8], value: &[u8]) -> bool {
    match KEPT.get(index) {
        Some((kept_name, kept_value)) => name == *kept_name && value == *kept_value,
        None => false,
    }
}

fn is_kept_at(held: &Headers, index: usize) -> bool {
    match held.at(index) {
        Some((name, value)) => is_kept(index, name, value),
        None => false,
    }
}

/// The first of the three fields that is not there in the order of iteration, or how many there are if not three.
fn wrong_in_order(held: &Headers) -> Option<usize> {
    let mut count = 0usize;
    for (name, value) in held.iter() {
        if !is_kept(count, name, value) {
            return Some(count);
        }
        count = count.saturating_add(1);
    }
    if count == 3 { None } else { Some(count) }
}

fn ends_at_three(held: &Headers) -> bool {
    held.len() == 3 && held.at(3).is_none() && held.at(usize::MAX).is_none()
}

/// The same by their index.
fn wrong_by_index(held: &Headers) -> Option<usize> {
    for index in 0..3usize {
        if !is_kept_at(held, index) {
            return Some(index);
        }
    }
    if ends_at_three(held) { None } else { Some(3) }
}

fn wrong_field(held: &Headers) -> Option<usize> {
    wrong_in_order(held).or(wrong_by_index(held))
}

/// Three fields that are kept, and one that is refused.
const PUSHES_OF_THREE: &[Push] = &[
    (b"X-A", b"q", Ok(())),
    (b"Host", b"", Ok(())),
    (b"A b", b"x", Err(HeaderError::BadName)),
    (b"x-a", b"Q", Ok(())),
];

fn is_pushed(headers: &mut Headers, push: &Push) -> bool {
    answer(headers, push.0, push.1) == push.2
}

/// The first push that does not return what its row has.
fn wrong_push(headers: &mut Headers) -> Option<usize> {
    for (row, push) in PUSHES_OF_THREE.iter().enumerate() {
        if !is_pushed(headers, push) {
            return Some(row);
        }
    }
    None
}

fn keeps_order(rt: &(impl Abort + AllocGlobal), headers: &mut Headers) {
    assert_eq!(rt; wrong_push(headers), None);
    assert_eq!(rt; wrong_field(headers), None);
    assert_eq!(rt; wrong_given(headers.copy(rt.alloc()), wrong_field), None);
}

#[test]
fn fields_keep_their_order(rt: HostRuntime) {
    keeps_order(&rt, &mut Headers::new(rt.alloc()));
}

/// A name, whether a field has it, and the value of the first that does.
const GOT: &[(&[u8], bool, &[u8])] = &[
    (b"x-a", true, b"q"),
    (b"X-A", true, b"q"),
    (b"host", true, b""),
    (b"HOST", true, b""),
    (b"hos", false, b""),
    (b"hosts", false, b""),
    (b"", false, b""),
    (b"q", false, b""),
];

fn is_got(held: &Headers, row: &(&[u8], bool, &[u8])) -> bool {
    match held.get(row.0) {
        Some(value) => row.1 && value == row.2,
        None => !row.1,
    }
}

/// The first row that is not so of these fields.
fn wrong_got(held: &Headers) -> Option<usize> {
    for (row, got) in GOT.iter().enumerate() {
        if !is_got(held, got) {
            return Some(row);
        }
    }
    None
}

fn gets_first_values(rt: &(impl Abort + AllocGlobal), headers: &mut Headers) {
    assert!(rt; headers.get(b"x-a").is_none());
    assert_eq!(rt; wrong_push(headers), None);
    assert_eq!(rt; wrong_got(headers), None);
}

#[test]
fn the_first_field_of_a_name_gives_its_value(rt: HostRuntime) {
    gets_first_values(&rt, &mut Headers::new(rt.alloc()));
}

fn are_bytes(alloc: Global, bytes: &[u8]) -> Result<bool, AllocError> {
    let held = octets(alloc, bytes)?;
    let copied = held.copy(alloc)?;
    let are_equal = held.bytes() == bytes && copied.bytes() == bytes;
    Ok(are_equal && held.into_vec().as_slice() == bytes)
}

const SAMPLES: &[&[u8]] = &[b"", b"\0\xff", b"hello\n", b"chat", b"/a/\xef\xbf\xbd"];

#[test]
fn octets_are_the_bytes_given(rt: HostRuntime) -> Result<(), Fail> {
    for (row, sample) in SAMPLES.iter().enumerate() {
        assert!(rt; are_bytes(rt.alloc(), *sample)?, "row {row}");
    }
    Ok(())
}

/// What each limit is to be, in the order of `Limits::new`, and whether these are taken.
type Row = (usize, usize, u64, usize, usize, u32, u64, bool);

/// Each limit at the ends of its range, and one past each end.
const ROWS: &[Row] = &[
    (64, 1, 0, 1, 2, 1, 1, true),
    (63, 1, 0, 1, 2, 1, 1, false),
    (65_535, 1, 0, 1, 2, 1, 1, true),
    (65_536, 1, 0, 1, 2, 1, 1, false),
    (64, 0, 0, 1, 2, 1, 1, false),
    (64, 128, 0, 1, 2, 1, 1, true),
    (64, 129, 0, 1, 2, 1, 1, false),
    (64, 1, 1_099_511_627_776, 1, 2, 1, 1, true),
    (64, 1, 1_099_511_627_777, 1, 2, 1, 1, false),
    (64, 1, 0, 0, 2, 1, 1, false),
    (64, 1, 0, 65_536, 2, 1, 1, true),
    (64, 1, 0, 65_537, 2, 1, 1, false),
    (64, 1, 0, 1, 1, 1, 1, false),
    (64, 1, 0, 1, 1_024, 1, 1, true),
    (64, 1, 0, 1, 1_025, 1, 1, false),
    (64, 1, 0, 1, 2, 0, 1, false),
    (64, 1, 0, 1, 2, 4_294_967_295, 1, true),
    (64, 1, 0, 1, 2, 1, 0, false),
    (64, 1, 0, 1, 2, 1, 281_474_976_710_656, true),
    (64, 1, 0, 1, 2, 1, 281_474_976_710_657, false),
    (0, 0, 0, 0, 0, 0, 0, false),
    USUAL,
];

const USUAL: Row = (
    16_384,
    64,
    1_048_576,
    16_384,
    16,
    30_000,
    1_099_511_627_776,
    true,
);

fn limits_of(row: &Row) -> Result<Limits, BadLimit> {
    let (head, headers, body, block, ring, idle, turns, _) = *row;
    Limits::new(head, headers, body, block, ring, idle, turns)
}

fn are_sizes(limits: &Limits, row: &Row) -> bool {
    limits.max_head == row.0
        && limits.max_headers == row.1
        && limits.max_body == row.2
        && limits.block == row.3
}

fn are_limits(limits: &Limits, row: &Row) -> bool {
    are_sizes(limits, row)
        && limits.ring == row.4
        && limits.idle_turns == row.5
        && limits.turns == row.6
}

/// The limits of the row are taken as they are, or refused, as in the row.
fn are_judged(row: &Row) -> bool {
    match limits_of(row) {
        Ok(limits) => row.7 && are_limits(&limits, row),
        Err(BadLimit) => !row.7,
    }
}

#[test]
fn limits_keep_their_ranges(rt: HostRuntime) {
    for (index, row) in ROWS.iter().enumerate() {
        assert!(rt; are_judged(row), "row {index}");
    }
}

#[test]
fn usual_limits_are_in_their_ranges(rt: HostRuntime) {
    assert!(rt; are_limits(&Limits::usual(), &USUAL));
}
