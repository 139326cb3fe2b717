//! The fields of a message: each name has one entry, in whatever case it is written.
//!
//! The program prints the entry of each line's name, under the spelling that was read first. The tables have
//! a kind of strings of this crate's own, [`NameKind`], one stored string by string and one in one buffer.
#![tactic(auto)]

ghost use Rattle.std.specs.Prelude.{◌≡◌, ◌↔◌, IfOk, IsTrue};
ghost use Rattle.example_names.specs.Letters.{letters};

mod name;

use anyhow::Result;
use intaglio::packed::Packed;
use intaglio::{InternError, Symbol, Table, TableOver};
use name::{Name, NameContent, NameKind};
use std::hash::{BuildHasherDefault, FoldHasher};

/// A table of names.
pub type Names = Table<NameContent, BuildHasherDefault<FoldHasher>>;

/// A table of names in one buffer.
pub type PackedNames = TableOver<Packed<NameKind>, BuildHasherDefault<FoldHasher>>;

/// Whether two spellings are of one name, which is so exactly if their letters in lower case are the same.
///
/// # Errors
///
/// Those of [`get_or_intern`](Table::get_or_intern).
fn are_one_name(names: &mut PackedNames, one: &str, other: &str) -> Result<bool, InternError>
    ensures { IfOk result (λ same. IsTrue same ↔ (letters one.now ≡ letters other.now)) }
{
    let first = names.get_or_intern(Name::new(one))?;
    let second = names.get_or_intern(Name::new(other))?;
    Ok(first == second)
}

// Prints the entry of a line's name, under its first spelling.
fn print_entry(rt: &impl Print, names: &mut Names, name: &'static str) -> Result<()> {
    let entry: Symbol = names.intern(NameContent::from(name))?;
    if let Some(spelled) = names.get(entry) {
        println!(rt; "{} {name} is {}", entry.id(), spelled.as_str())?;
    }
    Ok(())
}

fn main(rt: HostRuntime) -> Result<()> {
    let mut names = Names::new(rt.alloc())?;
    for name in [
        "Content-Type",
        "content-type",
        "Host",
        "CONTENT-TYPE",
        "host",
    ] {
        print_entry(&rt, &mut names, name)?;
    }
    let mut packed = PackedNames::with_hasher(rt.alloc(), BuildHasherDefault::new())?;
    let same = are_one_name(&mut packed, "Content-Type", "content-TYPE")?;
    let other = are_one_name(&mut packed, "Host", "Hosts")?;
    println!(rt; "one name: {same}, {other}")?;
    Ok(())
}
