//! A join: rows of two tables with equal keys, compared by symbols alone.
ghost use Rattle.std.specs.Prelude.{◌≡◌, ◌↔◌, IfOk, IsTrue, None, slice_index_or};
ghost use Rattle.example_records.specs.Texts.{HaveSameText, found_in};

use intaglio::laws::valid_law;
use intaglio::{Symbol, SymbolTable};
use std::alloc::{AllocError, Global};

/// For each symbol of `left`, in order, the symbol of the same text in `right`.
///
/// # Errors
///
/// If the allocation of the list fails.
pub fn symbols_in(
    alloc: Global,
    left: &SymbolTable,
    right: &SymbolTable,
) -> Result<Vec<Option<Symbol>>, AllocError>
    ensures { IfOk result (λ symbols. symbols.items ≡ found_in left.now.state right.now.state) }
{
    left.strings()
        .map(|text| right.check_interned(text))
        .collect(alloc)
}

// The entry for a symbol, if there is one.
fn entry(symbols: &[Option<Symbol>], one: Symbol) -> Option<Symbol>
    ensures { result ≡ slice_index_or symbols.now one None }
{
    *symbols.get(one.id() as usize).unwrap_or(&None)
}

/// Whether a symbol of `left` and one of `right` have the same text, by the list that [`symbols_in`] makes.
/// Only symbols are compared.
pub fn have_same_text(
    left: &SymbolTable,
    right: &SymbolTable,
    symbols: &[Option<Symbol>],
    one: Symbol,
    other: Symbol,
) -> bool
    requires { symbols.now ≡ found_in left.now.state right.now.state }
    ensures { IsTrue result ↔ HaveSameText left.now.state one right.now.state other }
{
    valid_law(right);
    match entry(symbols, one) {
        Some(found) => found == other,
        None => false,
    }
}
