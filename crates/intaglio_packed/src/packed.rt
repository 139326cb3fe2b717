//! Many spellings of one kind in one buffer.
ghost use Rattle.std.specs.Prelude.{◌≡◌, ◌<◌, length, min, slice_get, Some};
ghost use Rattle.intaglio_records.specs.Records.{strings_of};

use intaglio_content::StringKind;
use intaglio_records::StringRecords;
use std::marker::{Model, PhantomData};

/// A list of spellings of contents of the kind `K`, each with the hash that it was added with. All are in one
/// buffer, so a spelling costs no allocation of its own.
///
/// A contract sees the list of pairs of a hash and a spelling, and the room for
/// further ones and for further bytes.
#[derive(Drop)]
pub struct Packed<K: StringKind> {
    pub(crate) records: StringRecords,
    pub(crate) kind: PhantomData<K>,
}

impl<K: StringKind> Model for Packed<K> {
    ghost use Rattle.std.specs.Prelude.{All};
    ghost use Rattle.intaglio_records.specs.Records.{Records, records_code, strings_of};

    ghost Value = { Records };

    ghost coded = { records_code };

    ghost view = { λ packed. packed.records };

    ghost invariant = { λ packed. All K.is_spelling (strings_of packed.records) };
}

impl<K: StringKind> Packed<K> {
    /// The spellings as strings of bytes.
    #[inline(always)]
    pub fn records(&self) -> &StringRecords
        ensures { result.now ≡ self.now }
    {
        &self.records
    }

    /// Gives up room for bytes, so that there is room for `spare` further ones at most.
    pub fn shrink_spare(&mut self, spare: usize)
        ensures list { self.new.list ≡ self.old.list }
        ensures most { self.new.most ≡ self.old.most }
        ensures spare_bytes { self.new.spare_bytes ≡ min spare self.old.spare_bytes }
    {
        self.records.shrink_spare(spare);
    }

    /// The bytes of a spelling that is there.
    #[inline(always)]
    pub fn string(&self, i: usize) -> &[u8]
        requires { i < length (strings_of self.now) }
        ensures string { slice_get (strings_of self.now) i ≡ Some result.now }
        ensures kind { K.is_spelling result.now }
    {
        self.records.string(i)
    }
}
