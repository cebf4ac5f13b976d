//! Each call that allocates, when one allocation is refused: the call returns that error, its object is as before, and
//! the call can be made again. `tests/memory.py` runs these with each allocation refused in turn; with ample memory
//! none is refused.

use crate::scopes::{is_copied, is_peer};
use crate::values::{
    Sort, Sorts, are_facts, facts, is_of_sort, new_octets, new_text, of_given, value_of_sort,
    wrong_given, wrong_name, wrong_sort,
};
use asgi_types::{Chars, Facts, Framing, Headers, Kind, Names, Octets, Peer, State, StateValue};
use std::alloc::{AllocError, Global};
use std::test::Fail;

// Each of these makes the call once more if it was refused memory.

fn copy_of_text(alloc: Global, held: &Chars) -> Result<Chars, AllocError> {
    match held.copy(alloc) {
        Ok(copied) => Ok(copied),
        Err(_) => held.copy(alloc),
    }
}

fn copy_of_octets(alloc: Global, held: &Octets) -> Result<Octets, AllocError> {
    match held.copy(alloc) {
        Ok(copied) => Ok(copied),
        Err(_) => held.copy(alloc),
    }
}

fn copy_of_headers(alloc: Global, held: &Headers) -> Result<Headers, AllocError> {
    match held.copy(alloc) {
        Ok(copied) => Ok(copied),
        Err(_) => held.copy(alloc),
    }
}

fn copy_of_names(alloc: Global, held: &Names) -> Result<Names, AllocError> {
    match held.copy(alloc) {
        Ok(copied) => Ok(copied),
        Err(_) => held.copy(alloc),
    }
}

fn new_value(alloc: Global, sort: Sort) -> Result<StateValue, AllocError> {
    match value_of_sort(alloc, sort) {
        Ok(made) => Ok(made),
        Err(_) => value_of_sort(alloc, sort),
    }
}

fn copy_of_value(alloc: Global, held: &StateValue) -> Result<StateValue, AllocError> {
    match held.copy(alloc) {
        Ok(copied) => Ok(copied),
        Err(_) => held.copy(alloc),
    }
}

fn copy_of_state(alloc: Global, held: &State) -> Result<State, AllocError> {
    match held.copy(alloc) {
        Ok(copied) => Ok(copied),
        Err(_) => held.copy(alloc),
    }
}

fn copy_of_peer(alloc: Global, held: &Peer) -> Result<Peer, AllocError> {
    match held.copy(alloc) {
        Ok(copied) => Ok(copied),
        Err(_) => held.copy(alloc),
    }
}

fn new_facts(alloc: Global) -> Result<Facts, AllocError> {
    match facts(alloc, Framing::Length(3)) {
        Ok(made) => Ok(made),
        Err(_) => facts(alloc, Framing::Length(3)),
    }
}

fn copy_of_facts(alloc: Global, held: &Facts) -> Result<Facts, AllocError> {
    match held.copy(alloc) {
        Ok(copied) => Ok(copied),
        Err(_) => held.copy(alloc),
    }
}

const FIELDS: &[&[u8]] = &[b"x-a", b"x-b", b"x-c", b"x-d", b"x-e"];

const VALUE: &[u8] =
    b"vvvvvvvvvvvvvvvvvvvvvvvvvvvvvvvvvvvvvvvvvvvvvvvvvvvvvvvvvvvvvvvvvvvvvvvvvvvvvvvvvvvvvvvvvvvvvvvvvvvv";

/// The field is added, at the second attempt if the first was refused and left the list as it was.
fn is_field_added(headers: &mut Headers, name: &[u8]) -> bool {
    let before = headers.len();
    if headers.push(name, VALUE).is_ok() {
        return true;
    }
    headers.len() == before && headers.push(name, VALUE).is_ok()
}

fn is_field(held: &Headers, index: usize, name: &[u8]) -> bool {
    match held.at(index) {
        Some((kept, value)) => kept == name && value == VALUE,
        None => false,
    }
}

/// The first field that is not there, or the end if there are more or fewer.
fn wrong_field(held: &Headers) -> Option<usize> {
    for (index, name) in FIELDS.iter().enumerate() {
        if !is_field(held, index, *name) {
            return Some(index);
        }
    }
    if held.len() == 5 { None } else { Some(5) }
}

/// The first field that is not added.
fn wrong_push(headers: &mut Headers) -> Option<usize> {
    for (index, name) in FIELDS.iter().enumerate() {
        if !is_field_added(headers, *name) {
            return Some(index);
        }
    }
    None
}

/// The first field that is not added, or is not held or copied then.
fn wrong_of_fields(alloc: Global, headers: &mut Headers) -> Option<usize> {
    let pushed = wrong_push(headers);
    let copied = wrong_given(copy_of_headers(alloc, headers), wrong_field);
    pushed.or(wrong_field(headers)).or(copied)
}

#[test]
fn memory_for_headers(rt: HostRuntime) {
    assert_eq!(rt;
        wrong_of_fields(rt.alloc(), &mut Headers::new(rt.alloc())),
        None
    );
}

fn are_octets(alloc: Global) -> Result<bool, AllocError> {
    let held = new_octets(alloc, b"ab")?;
    Ok(copy_of_octets(alloc, &held)?.bytes() == b"ab".as_slice())
}

fn is_a_text(alloc: Global) -> Result<bool, AllocError> {
    let held = new_text(alloc, "ab")?;
    Ok(copy_of_text(alloc, &held)?.as_str() == "ab")
}

#[test]
fn memory_for_texts(rt: HostRuntime) -> Result<(), Fail> {
    assert!(rt; are_octets(rt.alloc())?);
    assert!(rt; is_a_text(rt.alloc())?);
    Ok(())
}

fn is_pushed(alloc: Global, names: &mut Names) -> bool {
    match new_text(alloc, "chat") {
        Ok(name) => names.push(name).is_ok(),
        Err(_) => false,
    }
}

/// The name is added, at the second attempt if the first was refused and left the list as it was.
fn is_name_added(alloc: Global, names: &mut Names) -> bool {
    let before = names.len();
    is_pushed(alloc, names) || (names.len() == before && is_pushed(alloc, names))
}

const NAMES: &[&str] = &["chat", "chat", "chat", "chat", "chat"];

/// The first name that is not added.
fn wrong_added(alloc: Global, names: &mut Names) -> Option<usize> {
    for index in 0..5usize {
        if !is_name_added(alloc, names) {
            return Some(index);
        }
    }
    None
}

/// The first name that is not added, or is not held or copied then.
fn wrong_of_names(alloc: Global, names: &mut Names) -> Option<usize> {
    let added = wrong_added(alloc, names);
    let copied = wrong_given(
        copy_of_names(alloc, names),
        |copied| wrong_name(copied, NAMES),
    );
    added.or(wrong_name(names, NAMES)).or(copied)
}

#[test]
fn memory_for_names(rt: HostRuntime) {
    assert_eq!(rt;
        wrong_of_names(rt.alloc(), &mut Names::new(rt.alloc())),
        None
    );
}

type Row = (&'static str, Sort);

fn is_set(alloc: Global, state: &mut State, row: &Row) -> bool {
    match new_value(alloc, row.1) {
        Ok(value) => state.set(row.0, value).is_ok(),
        Err(_) => false,
    }
}

/// The value is set, at the second attempt if the first was refused and left no value under the name.
fn is_set_again(alloc: Global, state: &mut State, row: &Row) -> bool {
    is_set(alloc, state, row) || (state.get(row.0).is_none() && is_set(alloc, state, row))
}

const SORTS: Sorts = &[
    ("text", Sort::Text),
    ("bytes", Sort::Bytes),
    ("number", Sort::Number),
    ("d", Sort::Number),
    ("e", Sort::Number),
];

/// The first row whose value is not set.
fn wrong_set(alloc: Global, state: &mut State) -> Option<usize> {
    for (index, row) in SORTS.iter().enumerate() {
        if !is_set_again(alloc, state, row) {
            return Some(index);
        }
    }
    None
}

/// The first row whose value is not set, or is not held or copied then.
fn wrong_of_state(alloc: Global, state: &mut State) -> Option<usize> {
    let set = wrong_set(alloc, state);
    let copied = wrong_given(
        copy_of_state(alloc, state),
        |copied| wrong_sort(copied, SORTS),
    );
    set.or(wrong_sort(state, SORTS)).or(copied)
}

#[test]
fn memory_for_a_state(rt: HostRuntime) {
    assert_eq!(rt;
        wrong_of_state(rt.alloc(), &mut State::new(rt.alloc())),
        None
    );
}

#[test]
fn memory_for_an_http_scope(rt: HostRuntime) -> Result<(), Fail> {
    assert!(rt; is_copied(rt.alloc(), Kind::Http)?);
    Ok(())
}

#[test]
fn memory_for_a_websocket_scope(rt: HostRuntime) -> Result<(), Fail> {
    assert!(rt; is_copied(rt.alloc(), Kind::WebSocket)?);
    Ok(())
}

#[test]
fn memory_for_a_lifespan_scope(rt: HostRuntime) -> Result<(), Fail> {
    assert!(rt; is_copied(rt.alloc(), Kind::Lifespan)?);
    Ok(())
}

fn are_three(held: &Facts) -> bool {
    are_facts(held, Framing::Length(3))
}

fn are_facts_copied(alloc: Global, held: &Facts) -> Result<bool, AllocError> {
    let are_copied = of_given(copy_of_facts(alloc, held), are_three)?;
    Ok(are_copied && are_three(held))
}

fn are_facts_kept(alloc: Global) -> Result<bool, AllocError> {
    of_given(new_facts(alloc), |held| are_facts_copied(alloc, held))?
}

#[test]
fn memory_for_facts(rt: HostRuntime) -> Result<(), Fail> {
    assert!(rt; are_facts_kept(rt.alloc())?);
    Ok(())
}

fn is_a_peer(alloc: Global) -> Result<bool, AllocError> {
    let peer = Peer {
        host: new_text(alloc, "::1")?,
        port: 8_080,
    };
    of_given(
        copy_of_peer(alloc, &peer),
        |copied| is_peer(copied, "::1", 8_080),
    )
}

fn is_a_value(alloc: Global, sort: Sort) -> Result<bool, AllocError> {
    let value = new_value(alloc, sort)?;
    of_given(
        copy_of_value(alloc, &value),
        |copied| is_of_sort(Some(copied), sort),
    )
}

#[test]
fn memory_for_peers_and_values(rt: HostRuntime) -> Result<(), Fail> {
    assert!(rt; is_a_peer(rt.alloc())?);
    for (name, sort) in SORTS {
        assert!(rt; is_a_value(rt.alloc(), *sort)?, "{name}");
    }
    Ok(())
}
