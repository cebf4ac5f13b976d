//! Text that a contract sees as the list of its bytes.
ghost use Rattle.std.specs.Prelude.{◌≡◌, ℕ, List, IfOk, string_bytes};

use std::alloc::{AllocError, Global};
use std::marker::Model;

/// A text, such as a path or a message. Its bytes are UTF-8.
#[derive(Debug, Drop)]
pub struct Chars {
    text: String,
}

impl Model for Chars {
    ghost Value = { List ℕ };

    ghost view = { λ c. string_bytes c.text };
}

impl Chars {
    /// Takes the text as it is. It takes no memory.
    pub fn new(text: String) -> Self
        ensures { result ≡ string_bytes text }
    {
        Chars { text }
    }

    /// The text, borrowed.
    pub fn as_str(&self) -> &str
        ensures { result.now ≡ self.now }
    {
        self.text.as_str()
    }

    /// Takes the text out. It takes no memory.
    pub fn into_string(self) -> String
        ensures { string_bytes result ≡ self }
    {
        let Self { text: taken } = self;
        taken
    }

    /// A copy of the text, in memory of its own; `AllocError` if that is refused.
    pub fn copy(&self, alloc: Global) -> Result<Self, AllocError>
        ensures { IfOk result (λ copied. copied ≡ self.now) }
    {
        let text = String::from_str(alloc, self.text.as_str())?;
        Ok(Chars { text })
    }
}
