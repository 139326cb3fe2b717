//! How far the freezing of an input is.

/// Receives reports on how far the freezing of an input is. What is written doesn't depend on it.
pub trait Progress {
    /// The lines are interned, and this many are distinct; next, they are frozen.
    fn interned(&mut self, count: usize);

    /// The table of this many bytes is made; next, it is written.
    fn frozen(&mut self, size: usize);
}
