//! What a piece of a text between quotes stands for.

/// A byte, or a character.
#[derive(Clone, Copy, Debug, Drop)]
pub(crate) enum Code {
    Byte(u8),
    Character(char),
}
