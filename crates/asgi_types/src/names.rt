//! A list of texts.
ghost use Rattle.std.specs.Prelude.{◌≡◌, ◌≤◌, ◌↔◌, [], ◌∷◌, ◌++◌, ℕ, List, IfOk, IsOk, OnOk, OnErr, IfSome, IsNone, length, slice_get, Some};

use crate::Chars;
use std::alloc::{AllocError, Global};
use std::marker::Model;

/// Texts in the order in which they were added, such as subprotocols.
#[derive(Debug, Drop)]
pub struct Names {
    names: Vec<Chars>,
}

impl Model for Names {
    ghost Value = { List (List ℕ) };

    ghost view = { λ n. n.names.items };
}

impl Names {
    /// No names. It takes no memory.
    pub fn new(alloc: Global) -> Self
        ensures { result ≡ [] }
    {
        Names {
            names: Vec::new(alloc),
        }
    }

    /// Adds a name at the end; `AllocError` if memory is refused, and then nothing is added.
    pub fn push(&mut self, name: Chars) -> Result<(), AllocError>
        ensures ok { OnOk result (self.new ≡ self.old ++ name ∷ []) }
        ensures err { OnErr result (self.new ≡ self.old) }
    {
        self.names.push(name)?;
        Ok(())
    }

    /// How many names were added.
    pub fn len(&self) -> usize
        ensures { result ≡ length self.now }
    {
        self.names.len()
    }

    /// The name at the index, which counts from 0; `None` after the last.
    pub fn at(&self, index: usize) -> Option<&Chars>
        ensures missing { IsNone result ↔ (length self.now ≤ index) }
        ensures found { IfSome result (λ name. slice_get self.now index ≡ Some name.now) }
    {
        self.names.get(index)
    }

    /// A copy of the names, in memory of its own; `AllocError` if that is refused. To copy no names
    /// takes no memory.
    pub fn copy(&self, alloc: Global) -> Result<Self, AllocError>
        ensures same { IfOk result (λ copied. copied ≡ self.now) }
        ensures empty { self.now ≡ [] → IsOk result }
    {
        let mut names = Vec::new(alloc);
        for name in &self.names {
            names.push(name.copy(alloc)?)?;
        }
        Ok(Names { names })
    }
}
