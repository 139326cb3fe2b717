//! A table as a list of strings that can be frozen.
ghost use Rattle.std.specs.Prelude.{◌≡◌};
ghost use Rattle.intaglio_c.specs.Cited.{frozen_kind, contents_of};

use super::AnyTable;
use crate::kind::Rule;
use intaglio_core::Symbol;
use intaglio_frozen::{FrozenKind, StringList};

impl StringList for AnyTable {
    ghost strings = { λ table. contents_of table };

    #[inline(always)]
    fn len(&self) -> usize {
        AnyTable::len(self)
    }

    #[inline(always)]
    fn string(&self, i: usize) -> &[u8] {
        // The number of contents is at most 2^32.
        let _count = AnyTable::len(self);
        self.bytes_at(Symbol::new(i as u32)).unwrap()
    }
}

// What strings of a rule are in a frozen table.
pub(crate) fn frozen_kind(rule: Rule) -> FrozenKind
    ensures kind { result ≡ frozen_kind rule }
{
    match rule {
        Rule::Text => FrozenKind::Text,
        Rule::Bytes | Rule::CStr => FrozenKind::Bytes,
    }
}
