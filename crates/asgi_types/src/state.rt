//! What an application keeps from its start for each later scope.
ghost use Rattle.std.specs.Prelude.{◌≡◌, ◌≢◌, ◌<◌, ◌≤◌, ◌↔◌, [], ◌∷◌, ◌++◌, ℕ, List, IfOk, OnOk, OnErr, IfSome, IfNone, IsNone, IsSome, IsOk, length};
ghost use Rattle.std.specs.Option.{option_copied};
ghost use Rattle.std.specs.Result.{IsErrOf};
ghost use Rattle.asgi_types.specs.States.{value_of, with_value};
ghost use Rattle.asgi_types.specs.private.StateEntries.{IsValueAt, IsReplaced};

use crate::{Chars, Octets};
use std::alloc::{AllocError, Global};
use std::marker::Model;
use thiserror::Error;

/// One value of a state.
#[derive(Debug, Drop)]
pub enum StateValue {
    /// A text, such as a message or a path.
    Text(Chars),
    /// Any bytes.
    Bytes(Octets),
    /// A number, such as a count.
    Number(u64),
}

/// Why a value was not set.
#[derive(Clone, Copy, Debug, PartialEq, Eq, Error)]
pub enum StateError {
    /// 64 other names are held.
    #[error("the state holds 64 names")]
    StateFull,
    /// Memory was refused.
    #[error(transparent)]
    NoMemory(#[from(alloc)] AllocError),
}

/// The most names that a state holds.
const MOST: usize = 64;

/// At most 64 names, each with its value (ASGI lifespan protocol 2.0, "Lifespan State").
#[derive(Debug, Drop)]
pub struct State {
    entries: Vec<(Chars, StateValue)>,
    alloc: Global,
}

impl Model for State {
    ghost use Rattle.std.specs.Prelude.{List, ℕ, length, ◌≤◌};
    ghost use Rattle.asgi_types.specs.declared.state.StateValue.{StateValue};
    ghost use Rattle.asgi_types.specs.States.{EachNameOnce};

    ghost Value = { List (List ℕ × StateValue) };

    ghost view = { λ s. s.entries.items };

    ghost invariant = { λ s. EachNameOnce s.entries.items × (length s.entries.items ≤ 64) };
}

impl State {
    /// No names. It takes no memory.
    pub fn new(alloc: Global) -> Self
        ensures { result ≡ [] }
    {
        State {
            entries: Vec::new(alloc),
            alloc,
        }
    }

    /// The value under the name, which is compared byte for byte; `None` if it is not held.
    pub fn get(&self, name: &str) -> Option<&StateValue>
        ensures { option_copied result ≡ value_of self.now name.now }
    {
        let index = find(self.entries.as_slice(), name)?;
        let entry = &self.entries[index];
        Some(&entry.1)
    }

    /// Puts the value under the name, in place of the one that is held there. A name that is not
    /// held comes last: it gets `StateFull` if 64 names are held, and `NoMemory` if memory is
    /// refused. On an error nothing changes.
    pub fn set(&mut self, name: &str, value: StateValue) -> Result<(), StateError>
        ensures ok { OnOk result (self.new ≡ with_value self.old name.now value) }
        ensures found { OnOk result (value_of self.new name.now ≡ Some value) }
        ensures others { OnOk result ((other : List ℕ) → other ≢ name.now → value_of self.new other ≡ value_of self.old other) }

        // To replace a value takes no memory.
        ensures replaces { IsSome (value_of self.old name.now) → IsOk result }
        ensures full { IsErrOf result StateError.StateFull ↔ (IsNone (value_of self.old name.now) × (64 ≤ length self.old)) }
        ensures err { OnErr result (self.new ≡ self.old) }
        ensures bound { length self.new ≤ 64 }
    {
        if let Some(index) = find(self.entries.as_slice(), name) {
            put(&mut self.entries, index, value);
            return Ok(());
        }
        if self.entries.len() >= MOST {
            return Err(StateError::StateFull);
        }
        if let Err(e) = add(&mut self.entries, self.alloc, name, value) {
            return Err(StateError::NoMemory(e));
        }
        Ok(())
    }

    /// A copy of the state, in memory of its own; `AllocError` if that is refused. To copy no names
    /// takes no memory.
    pub fn copy(&self, alloc: Global) -> Result<Self, AllocError>
        ensures same { IfOk result (λ copied. copied ≡ self.now) }
        ensures empty { self.now ≡ [] → IsOk result }
    {
        let mut entries = Vec::new(alloc);
        for (name, value) in &self.entries {
            entries.push((name.copy(alloc)?, value.copy(alloc)?))?;
        }
        Ok(State { entries, alloc })
    }
}

impl StateValue {
    /// A copy of the value, in memory of its own; `AllocError` if that is refused.
    pub fn copy(&self, alloc: Global) -> Result<Self, AllocError>
        ensures { IfOk result (λ copied. copied ≡ self.now) }
    {
        match self {
            StateValue::Text(text) => Ok(StateValue::Text(text.copy(alloc)?)),
            StateValue::Bytes(bytes) => Ok(StateValue::Bytes(bytes.copy(alloc)?)),
            StateValue::Number(number) => Ok(StateValue::Number(*number)),
        }
    }
}

/// Where the name stands.
fn find(entries: &[(Chars, StateValue)], name: &str) -> Option<usize>
    ensures found { IfSome result (λ index. IsValueAt entries.now name.now index) }
    ensures missing { IfNone result (value_of entries.now name.now ≡ None) }
{
    for (index, entry) in entries.iter().enumerate() {
        if entry.0.as_str() == name {
            return Some(index);
        }
    }
    None
}

/// Adds a name that is not held. On an error nothing changes.
fn add(
    entries: &mut Vec<(Chars, StateValue)>,
    alloc: Global,
    name: &str,
    value: StateValue,
) -> Result<(), AllocError>
    ensures ok { OnOk result (entries.new.items ≡ entries.old.items ++ (name.now, value) ∷ []) }
    ensures err { OnErr result (entries.new.items ≡ entries.old.items) }
{
    let name = Chars::new(String::from_str(alloc, name)?);
    entries.push((name, value))?;
    Ok(())
}

/// Replaces the value at the index.
fn put(entries: &mut Vec<(Chars, StateValue)>, index: usize, value: StateValue)
    requires { index < length entries.old.items }
    ensures { IsReplaced entries.old.items index value entries.new.items }
{
    let entry = &mut entries[index];
    entry.1 = value;
}
