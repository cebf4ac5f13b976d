//! How far the input of a connection has come.
ghost use Rattle.std.specs.Prelude.{◌≡◌};
ghost use Rattle.asgi_conversation.specs.TaskEnds.{has_ended};

/// How far the input of a connection has come.
#[derive(Clone, Copy, Debug, PartialEq, Eq)]
pub enum InputEnd {
    /// More may come.
    Open,
    /// A read found the end of the input.
    AtEnd,
    /// A read failed with a fault that does not pass.
    Failed,
}

impl InputEnd {
    /// Whether no more bytes come.
    pub fn has_ended(self) -> bool
        ensures { result ≡ has_ended self }
    {
        match self {
            InputEnd::Open => false,
            InputEnd::AtEnd => true,
            InputEnd::Failed => true,
        }
    }
}
