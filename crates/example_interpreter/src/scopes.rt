//! Scoped names: a mark at a block's entry, and a rollback to it at its exit.
ghost use Rattle.std.specs.Prelude.{◌≡◌};
ghost use Rattle.intaglio.specs.Keys.{str_key};
ghost use Rattle.intaglio.specs.Lookup.{Keeps};

use intaglio::{InternError, StrContent, SymbolTable};

/// Declares the names in `block`, separated by whitespace. A name that is already visible
/// keeps its symbol.
///
/// # Errors
///
/// Those of [`intern`](SymbolTable::intern). Then the names before the failed one stay declared.
pub fn declare(names: &mut SymbolTable, block: &'static str) -> Result<(), InternError>
    ensures kept { Keeps str_key names.old.state names.new.state }
{
    for name in block.split_whitespace() {
        names.intern(StrContent::from(name))?;
    }
    Ok(())
}

/// Declares the names of a block, drops them at its end, and returns how many were new.
///
/// Afterwards the same names are visible as before, each with its symbol, even
/// after an error.
///
/// # Errors
///
/// Those of [`declare`].
#[tactic(auto, using(intaglio::proofs::Rollbacks::kept_count, intaglio::proofs::Rollbacks::not_stale, intaglio::proofs::Rollbacks::rolled_back))]
pub fn visit(names: &mut SymbolTable, block: &'static str) -> Result<usize, InternError>
    ensures outside { names.new.state.contents ≡ names.old.state.contents }
{
    let entry = names.mark();
    let declared = declare(names, block);
    let added = names.len() - entry.count();
    // The mark isn't stale: `declare` keeps the earlier names.
    names.take_back(entry).unwrap();
    declared?;
    Ok(added)
}
