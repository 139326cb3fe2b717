//! Opens dictionaries, after a check of all their bytes.
use crate::io::input::name_of;
use crate::io::report;
use crate::io::report::Tell;
use intaglio_frozen::{Frozen, FrozenKind, Header};

/// The dictionary in these bytes, after a check of all of them. Otherwise the exit status after a message.
pub fn checked<'a, R: Tell>(rt: &R, name: &str, bytes: &'a [u8]) -> Result<Frozen<'a>, u8> {
    match Frozen::open(bytes) {
        Ok(table) => Ok(table),
        Err(fault) => Err(report::failed(rt, name_of(name), fault)),
    }
}

/// The dictionaries in these files. Otherwise the exit status after a message.
pub fn tables_of<'a, R: Tell + AllocGlobal>(
    rt: &R,
    names: &[String],
    all: &'a [Vec<u8>],
) -> Result<Vec<Frozen<'a>>, u8> {
    let mut tables = Vec::new(rt.alloc());
    for (name, bytes) in names.iter().zip(all.iter()) {
        if tables.push(checked(rt, name.as_str(), bytes)?).is_err() {
            return Err(report::out_of_memory(rt));
        }
    }
    Ok(tables)
}

/// Text if all of the dictionaries are of texts.
pub fn common_kind(all: &[Vec<u8>]) -> FrozenKind {
    let are_texts = all.iter().all(|bytes| kind_of(bytes) == FrozenKind::Text);
    if are_texts {
        FrozenKind::Text
    } else {
        FrozenKind::Bytes
    }
}

/// The kind of the dictionary in these bytes.
pub fn kind_of(bytes: &[u8]) -> FrozenKind {
    match Header::read(bytes) {
        Ok(header) => header.kind,
        Err(_) => FrozenKind::Bytes,
    }
}
