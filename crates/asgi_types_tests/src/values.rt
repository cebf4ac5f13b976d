//! The small values, on examples: what they take, what they refuse, and what a copy has.

use asgi_types::{
    Asgi, Chars, Facts, Framing, Headers, HttpVersion, Kind, Names, Octets, Reason, State,
    StateError, StateValue, parse_length,
};
use std::alloc::{AllocError, Global};
use std::test::Fail;

pub fn chars(alloc: Global, text: &str) -> Result<Chars, AllocError> {
    Ok(Chars::new(String::from_str(alloc, text)?))
}

pub fn octets(alloc: Global, bytes: &[u8]) -> Result<Octets, AllocError> {
    Ok(Octets::new(Vec::from_slice(alloc, bytes)?))
}

// Each of these makes the call once more if it was refused memory.

pub fn new_text(alloc: Global, text: &str) -> Result<Chars, AllocError> {
    match chars(alloc, text) {
        Ok(made) => Ok(made),
        Err(_) => chars(alloc, text),
    }
}

pub fn new_octets(alloc: Global, bytes: &[u8]) -> Result<Octets, AllocError> {
    match octets(alloc, bytes) {
        Ok(made) => Ok(made),
        Err(_) => octets(alloc, bytes),
    }
}

/// What is checked of a value. The value is of any type, so the proof sees no field of it.
pub fn of<T: Drop, S, F: FnOnce(&T) -> S>(value: T, says: F) -> S
    requires { F.IsAlwaysCallable says }
{
    says(&value)
}

/// The same of a value that a call gave.
pub fn of_given<T: Drop, S, F: FnOnce(&T) -> S>(
    given: Result<T, AllocError>,
    says: F,
) -> Result<S, AllocError>
    requires { F.IsAlwaysCallable says }
{
    match given {
        Ok(value) => Ok(of(value, says)),
        Err(refused) => Err(refused),
    }
}

/// The first that is wrong in what a call gave, and 0 if the call was refused memory.
pub fn wrong_given<T: Drop, F: FnOnce(&T) -> Option<usize>>(
    given: Result<T, AllocError>,
    says: F,
) -> Option<usize>
    requires { F.IsAlwaysCallable says }
{
    match given {
        Ok(value) => of(value, says),
        Err(_) => Some(0),
    }
}

const TEXTS: &[&str] = &["", "chat", "/a/\u{fffd}"];

fn is_a_text(alloc: Global, text: &str) -> Result<bool, AllocError> {
    let held = chars(alloc, text)?;
    let copied = held.copy(alloc)?;
    Ok(held.as_str() == text && copied.as_str() == text)
}

#[test]
fn texts_are_the_bytes_given(rt: HostRuntime) -> Result<(), Fail> {
    for text in TEXTS {
        assert!(rt; is_a_text(rt.alloc(), *text)?, "{text}");
    }
    Ok(())
}

pub fn is_name(held: &Names, index: usize, name: &str) -> bool {
    match held.at(index) {
        Some(found) => found.as_str() == name,
        None => false,
    }
}

/// The index of the first name that is not as wanted, or of the end if there are more or fewer.
pub fn wrong_name(held: &Names, wanted: &[&str]) -> Option<usize> {
    for (index, name) in wanted.iter().enumerate() {
        if !is_name(held, index, *name) {
            return Some(index);
        }
    }
    if held.len() == wanted.len() && held.at(wanted.len()).is_none() {
        None
    } else {
        Some(wanted.len())
    }
}

pub fn push(alloc: Global, names: &mut Names, name: &str) -> Result<(), AllocError> {
    names.push(chars(alloc, name)?)
}

/// The first name that is not pushed.
fn wrong_push(alloc: Global, names: &mut Names, wanted: &[&str]) -> Option<usize> {
    for (index, name) in wanted.iter().enumerate() {
        if push(alloc, names, *name).is_err() {
            return Some(index);
        }
    }
    None
}

fn wrong_name_of(alloc: Global, names: &mut Names, wanted: &[&str]) -> Option<usize> {
    let pushed = wrong_push(alloc, names, wanted);
    let copied = wrong_given(names.copy(alloc), |copied| wrong_name(copied, wanted));
    pushed.or(wrong_name(names, wanted)).or(copied)
}

/// The index of the first name that a new list of these names, or its copy, does not have as it was
/// pushed.
pub fn wrong_name_in(alloc: Global, wanted: &[&str]) -> Option<usize> {
    wrong_name_of(alloc, &mut Names::new(alloc), wanted)
}

fn is_empty(names: &Names) -> bool {
    names.len() == 0
}

#[test]
fn names_keep_their_order(rt: HostRuntime) {
    assert!(rt; of(Names::new(rt.alloc()), is_empty));
    assert_eq!(rt; wrong_name_in(rt.alloc(), &["chat", "soap", "chat"]), None);
}

const VERSIONS: &[(Kind, &str)] = &[
    (Kind::Http, "2.4"),
    (Kind::WebSocket, "2.4"),
    (Kind::Lifespan, "2.0"),
];

fn has_versions(kind: Kind, spec_version: &str) -> bool {
    let asgi = Asgi::of(kind);
    asgi.version() == "3.0" && asgi.spec_version() == spec_version
}

#[test]
fn asgi_has_the_versions_of_its_formats(rt: HostRuntime) {
    for (kind, spec_version) in VERSIONS {
        assert!(rt; has_versions(*kind, *spec_version), "{kind:?}");
    }
}

/// A letter, how often it occurs in a text, and whether the text is a reason.
type Letters = (char, usize, bool);

// The bytes are counted, not the characters: the euro sign has three.
const REASONS: &[Letters] = &[
    ('r', 0, true),
    ('r', 1, true),
    ('r', 122, true),
    ('r', 123, true),
    ('r', 124, false),
    ('\u{20ac}', 41, true),
    ('\u{20ac}', 42, false),
];

/// The text is a reason exactly if it fits, and the reason has its bytes.
fn is_judged(text: &str, fits: bool) -> bool {
    match Reason::new(text) {
        Some(reason) => {
            let again = reason;
            fits && again.bytes() == text.as_bytes() && again.as_str() == text
        }
        None => !fits,
    }
}

fn is_filled_judged(text: &mut String, row: &Letters) -> Result<bool, AllocError> {
    for _ in 0..row.1 {
        text.push(row.0)?;
    }
    Ok(is_judged(text.as_str(), row.2))
}

fn is_reason_of(alloc: Global, row: &Letters) -> Result<bool, AllocError> {
    is_filled_judged(&mut String::new(alloc), row)
}

#[test]
fn reasons_have_at_most_123_bytes(rt: HostRuntime) -> Result<(), Fail> {
    for (index, row) in REASONS.iter().enumerate() {
        assert!(rt; is_reason_of(rt.alloc(), row)?, "row {index}");
    }
    Ok(())
}

/// `n`, and 64 letters `a`.
const LONGEST: &str = "naaaaaaaaaaaaaaaaaaaaaaaaaaaaaaaaaaaaaaaaaaaaaaaaaaaaaaaaaaaaaaaa";

/// `n`, and then this many letters `a`.
fn name_of(letters: usize) -> &'static str {
    match LONGEST.split_at_checked(letters.saturating_add(1)) {
        Some((name, _)) => name,
        None => LONGEST,
    }
}

/// The number under the name, if there is one.
fn number_in(state: &State, name: &str) -> Option<u64> {
    match state.get(name) {
        Some(StateValue::Number(number)) => Some(*number),
        _ => None,
    }
}

pub fn set(state: &mut State, name: &str, number: u64) -> Result<(), StateError> {
    state.set(name, StateValue::Number(number))
}

/// The number that is due under the name of this many letters: 0 to 63, with 300 in place of 3, and none under one more
/// name.
fn due(letters: usize) -> Option<u64> {
    match letters {
        3 => Some(300),
        64 => None,
        _ => Some(letters as u64),
    }
}

/// The letters of the first name that does not have the number that is due.
fn wrong_number(held: &State) -> Option<usize> {
    for letters in 0..65 {
        if number_in(held, name_of(letters)) != due(letters) {
            return Some(letters);
        }
    }
    None
}

/// Sets the numbers 0 to 63. Returns the letters of the first name that had one before, or is not set.
fn wrong_before(state: &mut State) -> Option<usize> {
    for letters in 0..64 {
        let name = name_of(letters);
        if number_in(state, name).is_some() || set(state, name, letters as u64).is_err() {
            return Some(letters);
        }
    }
    None
}

/// One more name is refused, and a held one is replaced.
fn is_full(state: &mut State) -> bool {
    set(state, name_of(64), 64) == Err(StateError::StateFull)
        && set(state, name_of(3), 300) == Ok(())
}

/// The letters of the first name that is wrong: before it is set, once all are, or in a copy. The result is 64 if one
/// more name is not refused.
fn wrong_name_of_64(alloc: Global, state: &mut State) -> Option<usize> {
    let before = wrong_before(state);
    if !is_full(state) {
        return before.or(Some(64));
    }
    let copied = wrong_given(state.copy(alloc), wrong_number);
    before.or(wrong_number(state)).or(copied)
}

#[test]
fn a_state_has_at_most_64_names(rt: HostRuntime) {
    assert_eq!(rt;
        wrong_name_of_64(rt.alloc(), &mut State::new(rt.alloc())),
        None
    );
}

pub fn is_text(value: Option<&StateValue>, text: &str) -> bool {
    match value {
        Some(StateValue::Text(held)) => held.as_str() == text,
        _ => false,
    }
}

pub fn is_bytes(value: Option<&StateValue>, bytes: &[u8]) -> bool {
    match value {
        Some(StateValue::Bytes(held)) => held.bytes() == bytes,
        _ => false,
    }
}

pub fn is_number(value: Option<&StateValue>, number: u64) -> bool {
    match value {
        Some(StateValue::Number(held)) => *held == number,
        _ => false,
    }
}

/// A sort of value.
#[derive(Clone, Copy)]
pub enum Sort {
    Text,
    Bytes,
    Number,
}

/// The text `t`, two bytes and the number 7.
pub fn value_of_sort(alloc: Global, sort: Sort) -> Result<StateValue, AllocError> {
    match sort {
        Sort::Text => Ok(StateValue::Text(chars(alloc, "t")?)),
        Sort::Bytes => Ok(StateValue::Bytes(octets(alloc, b"b\xff")?)),
        Sort::Number => Ok(StateValue::Number(7)),
    }
}

/// The value is the one of its sort.
pub fn is_of_sort(value: Option<&StateValue>, sort: Sort) -> bool {
    match sort {
        Sort::Text => is_text(value, "t"),
        Sort::Bytes => is_bytes(value, b"b\xff"),
        Sort::Number => is_number(value, 7),
    }
}

/// Names, and the sort of the value under each.
pub type Sorts = &'static [(&'static str, Sort)];

const SORTS: Sorts = &[
    ("text", Sort::Text),
    ("bytes", Sort::Bytes),
    ("number", Sort::Number),
];

fn is_sort(held: &State, row: &(&str, Sort)) -> bool {
    is_of_sort(held.get(row.0), row.1)
}

/// The first row whose name does not have a value of its sort.
pub fn wrong_sort(held: &State, sorts: Sorts) -> Option<usize> {
    for (index, row) in sorts.iter().enumerate() {
        if !is_sort(held, row) {
            return Some(index);
        }
    }
    None
}

fn is_set(alloc: Global, state: &mut State, row: &(&str, Sort)) -> bool {
    match value_of_sort(alloc, row.1) {
        Ok(value) => state.set(row.0, value).is_ok(),
        Err(_) => false,
    }
}

/// The first row whose value is not set.
fn wrong_set(alloc: Global, state: &mut State) -> Option<usize> {
    for (index, row) in SORTS.iter().enumerate() {
        if !is_set(alloc, state, row) {
            return Some(index);
        }
    }
    None
}

// Names differ in case.
fn has_others(held: &State) -> bool {
    held.get("Text").is_some() || held.get("").is_some()
}

/// The first row whose value is not set, or not held or copied then; one more if another name has a value.
fn wrong_sort_of(alloc: Global, state: &mut State) -> Option<usize> {
    let set = wrong_set(alloc, state);
    if has_others(state) {
        return set.or(Some(SORTS.len()));
    }
    let copied = wrong_given(state.copy(alloc), |copied| wrong_sort(copied, SORTS));
    set.or(wrong_sort(state, SORTS)).or(copied)
}

#[test]
fn a_state_holds_each_sort_of_value(rt: HostRuntime) {
    assert_eq!(rt;
        wrong_sort_of(rt.alloc(), &mut State::new(rt.alloc())),
        None
    );
}

/// A text, and the length that it is read as.
type Length = (&'static [u8], Option<u64>);

const LENGTHS: &[Length] = &[
    (b"0", Some(0)),
    (b"5", Some(5)),
    (b"0042", Some(42)),
    (b"1234567890", Some(1_234_567_890)),
    (b"0000000000000000001", Some(1)),
    (b"9999999999999999999", Some(9_999_999_999_999_999_999)),
    (b"00000000000000000001", None),
    (b"18446744073709551615", None),
    (b"", None),
    (b"+5", None),
    (b"-5", None),
    (b" 5", None),
    (b"5 ", None),
    (b"5a", None),
];

fn is_read(row: &Length) -> bool {
    parse_length(row.0) == row.1
}

#[test]
fn lengths_are_1_to_19_digits(rt: HostRuntime) {
    for (index, row) in LENGTHS.iter().enumerate() {
        assert!(rt; is_read(row), "row {index}");
    }
}

fn chat(alloc: Global) -> Result<Names, AllocError> {
    let mut names = Names::new(alloc);
    match push(alloc, &mut names, "chat") {
        Ok(()) => Ok(names),
        Err(refused) => Err(refused),
    }
}

pub fn facts(alloc: Global, framing: Framing) -> Result<Facts, AllocError> {
    let subprotocols = chat(alloc)?;
    Ok(Facts {
        version: HttpVersion::V10,
        head_only: true,
        close: true,
        expect: false,
        trailers_ok: true,
        framing,
        key: *b"dGhlIHNhbXBsZSBub25jZQ==",
        subprotocols,
    })
}

fn are_flags(held: &Facts) -> bool {
    held.version == HttpVersion::V10
        && held.head_only
        && held.close
        && !held.expect
        && held.trailers_ok
}

pub fn are_facts(held: &Facts, framing: Framing) -> bool {
    are_flags(held)
        && held.framing == framing
        && held.key.as_slice() == b"dGhlIHNhbXBsZSBub25jZQ==".as_slice()
        && held.subprotocols.len() == 1
        && is_name(&held.subprotocols, 0, "chat")
}

fn are_facts_copied(alloc: Global, held: &Facts, framing: Framing) -> Result<bool, AllocError> {
    let are_copied = of_given(held.copy(alloc), |copied| are_facts(copied, framing))?;
    Ok(are_copied && are_facts(held, framing))
}

fn is_a_fact(alloc: Global, framing: Framing) -> Result<bool, AllocError> {
    of_given(
        facts(alloc, framing),
        |held| are_facts_copied(alloc, held, framing),
    )?
}

const FRAMINGS: &[Framing] = &[Framing::Length(3), Framing::Chunked, Framing::Upgrade];

#[test]
fn a_copy_of_facts_is_equal(rt: HostRuntime) -> Result<(), Fail> {
    for framing in FRAMINGS {
        assert!(rt; is_a_fact(rt.alloc(), *framing)?, "{framing:?}");
    }
    Ok(())
}

/// Whether a connection field of this value lists the token, beside another field that lists
/// `close`.
fn lists(alloc: Global, value: &[u8], token: &[u8]) -> bool {
    let mut headers = Headers::new(alloc);
    let _kept = headers.push(b"X-Other", b"close");
    let _refused = headers.push(b"Connection", value);
    headers.has_token(b"connection", token)
}

/// The value of a field, and whether it lists the token `close`.
type Lists = (&'static [u8], bool);

const LISTS: &[Lists] = &[
    (b"close", true),
    (b"CLOSE", true),
    (b"keep-alive , Close\t,x", true),
    (b",,close", true),
    (b"", false),
    (b"x-close", false),
    (b"closed", false),
    (b"keep-alive close", false),
    (b"close;q=1", false),
    (b"keep-alive;close", false),
    (b"\x0cclose", false),
];

fn lists_close(alloc: Global, row: &Lists) -> bool {
    lists(alloc, row.0, b"close") == row.1
}

#[test]
fn a_field_lists_its_tokens(rt: HostRuntime) {
    for (index, row) in LISTS.iter().enumerate() {
        assert!(rt; lists_close(rt.alloc(), row), "row {index}");
    }
}

const NO_TOKENS: &[&[u8]] = &[b"", b" \t", b",", b"close, ,x", b",,close", b"close,"];

#[test]
fn no_field_lists_an_empty_token(rt: HostRuntime) {
    for (row, value) in NO_TOKENS.iter().enumerate() {
        assert!(rt; !lists(rt.alloc(), *value, b""), "row {row}");
    }
}
