//! Look-ups of strings in groups, hashed ahead.
ghost use Rattle.std.specs.Prelude.{◌≡◌};
ghost use Rattle.intaglio_c.specs.Cited.{ℕ, List, length, ⊤, AreAll, MayBeIn, or_absent};

use intaglio_core::{GROUP, Symbol};
use intaglio_frozen::ahead::{HashesAhead, look_ahead};
use intaglio_frozen::{StringList, TrustedFrozen};

/// What strings are looked up in.
pub(crate) trait LookUps: HashesAhead {
    // What a look-up rests on.
    ghost is_sound: { Self → Type 0 };

    // Whether a number may be written for a string.
    ghost may_be: { Self → List ℕ → ℕ → Type 0 };

    // The number that is written for a string, by its hash.
    fn find_number(&self, hash: u64, bytes: &[u8]) -> u64
        requires sound { is_sound self.now }
        requires hash { Self.is_hash self.now bytes.now hash }
        ensures { may_be self.now bytes.now result };
}

// Looks up strings, and writes the number of each.
pub(crate) fn find_each<T: LookUps, L: StringList>(table: &T, list: &L, symbols: &mut [u64])
    requires sound { T.is_sound table.now }
    requires places { length symbols.old ≡ length (L.strings list.now) }
    ensures found { AreAll (T.may_be table.now) (L.strings list.now) symbols.new }
{
    let mut hashes = [0u64; GROUP];
    let mut used = GROUP;
    for i in 0..symbols.len() {
        used = look_ahead(table, list, i, &mut hashes, used);
        symbols[i] = table.find_number(hashes[used], list.string(i));
        used += 1;
    }
}

impl LookUps for TrustedFrozen<'_> {
    ghost is_sound = { λ bytes. ⊤ };

    ghost may_be = { λ bytes. MayBeIn bytes };

    #[inline(always)]
    fn find_number(&self, hash: u64, bytes: &[u8]) -> u64 {
        or_absent(self.check_hashed(hash, bytes))
    }
}

// The number that is written for a look-up.
pub(crate) fn or_absent(known: Option<Symbol>) -> u64
    ensures number { result ≡ or_absent known }
{
    match known {
        Some(symbol) => symbol.id() as u64,
        None => u64::MAX,
    }
}
