//! The kind of a content.
use crate::content_of::ContentOf;
use crate::kind::{KindOwned, StringKind};
use crate::spelling::Spelling;

/// A content that is of a kind, which decides how its tables call the iterator over their
/// contents: `strings`, `paths` and so on.
pub trait OfKind {
    /// Its kind.
    type Kind;
}

impl<K: KindOwned> OfKind for ContentOf<K> {
    type Kind = K;
}

impl<K: StringKind> OfKind for Spelling<K> {
    type Kind = K;
}
