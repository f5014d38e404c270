//! What a pattern is made of.

/// A part of a pattern.
#[derive(Clone, Copy, Debug, PartialEq, Eq)]
pub enum Mark {
    /// This character.
    Is(char),
    /// Any one character.
    One,
    /// Any run of characters, also none.
    Any,
}
