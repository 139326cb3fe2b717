//! Contents that count how often they are compared as the sought value: a trait for them, and a text that
//! does so.
ghost use Rattle.std.specs.Prelude.{[], ◌∷◌, refl};
ghost use Rattle.intaglio_text.specs.StrContent.{str_content_bytes};

use intaglio::{Content, Keyed, Sought, StrContent, Work};
use std::alloc::{AllocError, Global};
use std::cell::Cell;
use std::hash::BuildHasher;

/// A content that counts the comparisons made with it as the sought value. The prover takes seconds wherever
/// a table of one content is passed to a function over any store, so tests are over any such content.
pub trait CountsComparisons: Content + Sought<Self> + Drop {
    /// A content that is a copy of this text.
    fn of_text(alloc: Global, text: &str) -> Result<Self, AllocError>;

    /// How many comparisons were made.
    fn compared(&self) -> usize;
}

/// A text that counts the comparisons made with it as the sought value.
#[derive(Drop)]
pub struct Counting {
    text: StrContent,
    compared: Cell<usize>,
}

impl CountsComparisons for Counting {
    fn of_text(alloc: Global, text: &str) -> Result<Counting, AllocError> {
        let text = StrContent::from(text.to_string(alloc)?);
        Ok(Counting {
            text,
            compared: Cell::new(0),
        })
    }

    fn compared(&self) -> usize {
        self.compared.get()
    }
}

impl Keyed for Counting {
    ghost key = { λ counting. str_content_bytes counting.text ∷ [] };

    fn touch(&self) -> u8 {
        self.text.touch()
    }
}

impl Content for Counting {
    ghost spelling = { λ counting. str_content_bytes counting.text };

    ghost key_of = { λ bytes. bytes ∷ [] };

    ghost key_of_spelling = { λ _. refl };
}

impl Sought<Counting> for Counting {
    fn hash_with<S: BuildHasher>(&self, builder: &S, work: &mut Work) -> u64 {
        Sought::<StrContent>::hash_with(&self.text, builder, work)
    }

    fn same_as(&self, stored: &Counting, work: &mut Work) -> bool {
        self.compared.set(self.compared.get().wrapping_add(1));
        self.text.same_as(&stored.text, work)
    }
}
