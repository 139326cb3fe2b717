//! Kinds of frozen tables.

/// What the strings of a frozen table are.
#[derive(Debug, Clone, Copy, PartialEq, Eq)]
pub enum FrozenKind {
    /// Any bytes.
    Bytes,
    /// Texts. Whether they are UTF-8 is for the reader to check.
    Text,
}
