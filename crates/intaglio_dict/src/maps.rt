//! Maps: columns that say under which symbol each string of a dictionary is in another.
use crate::dictionaries::Reference;
use crate::io::folders::{make_folder, map_name};
use crate::io::output::{Bytes, write_to};
use crate::io::report;
use crate::io::report::Tell;
use intaglio_columns::{ColumnWriteError, RowSource, sourced_column_bytes};
use intaglio_frozen::{FrozenKind, Header, SetId};
use intaglio_symbol::Symbol;
use std::random::RandomSource;
use std::rt::Files;

/// A folder of maps, all of which lead to one dictionary.
#[derive(Clone, Copy)]
pub struct Maps<'a> {
    /// The folder.
    pub folder: &'a str,
    /// The dictionary to which they lead.
    pub to: Reference,
}

impl Maps<'_> {
    /// Writes the map from the dictionary that has this header, under the name that says so. Otherwise the
    /// exit status after a message.
    pub fn write<R: Files + RandomSource + Print + Tell + AllocGlobal>(
        &self,
        rt: &R,
        from: &Header,
        symbols: &[Symbol],
    ) -> Result<(), u8> {
        let source = source_of(from);
        if !source.fits(self.to.shards) {
            return Err(2);
        }
        let set = from.place.set;
        let Ok(name) = map_name(rt.alloc(), self.folder, set, from.place.shard) else {
            return Err(report::out_of_memory(rt));
        };
        match sourced_column_bytes(rt.alloc(), self.to.id, self.to.shards, source, &symbols) {
            Ok(bytes) => write_to(rt, name.as_str(), &mut Bytes { bytes: &bytes }),
            Err(ColumnWriteError::Memory) => Err(report::out_of_memory(rt)),
            Err(fault) => Err(report::failed(rt, name.as_str(), fault)),
        }
    }

    /// As [`write`](Maps::write), for several dictionaries. The folder is made if it isn't there.
    pub fn write_all<R: Files + RandomSource + Print + Tell + AllocGlobal>(
        &self,
        rt: &R,
        from: &[Header],
        maps: &[Vec<Symbol>],
    ) -> Result<(), u8> {
        make_folder(rt, self.folder)?;
        for (header, symbols) in from.iter().zip(maps.iter()) {
            self.write(rt, header, symbols)?;
        }
        Ok(())
    }
}

// From where the rows of a map come: from the strings of the dictionary that has this header.
fn source_of(from: &Header) -> RowSource {
    RowSource {
        shards: from.place.shards,
        is_text: from.kind == FrozenKind::Text,
        hash0: from.place.set.hash0,
        hash1: from.place.set.hash1,
        shard: from.place.shard,
    }
}
