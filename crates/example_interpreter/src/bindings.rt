//! Names in nested scopes: an inner declaration shadows an outer one of the same name.
ghost use Rattle.std.specs.Prelude.{◌≡◌, ◌≢◌, ℕ, ◌≤◌, ◌++◌, ◌∷◌, [], Some, length, take, slice_get, IfOk, OnOk, OnErr};
ghost use Rattle.example_interpreter.specs.Names.{IsLast};

use intaglio::laws::valid_law;
use intaglio::{Symbol, SymbolTable, TableError};
use std::alloc::Global;
use std::marker::Model;

/// The names that are declared, the innermost last.
#[derive(Drop)]
pub struct Bindings {
    names: SymbolTable,
    // of each declaration, the symbol of its name
    declared: Vec<Symbol>,
}

impl Model for Bindings {
    ghost use Rattle.std.specs.Prelude.{ℕ, ◌<◌, List, length, map, All};
    ghost use Rattle.example_interpreter.specs.Names.{name_of};

    ghost Value = { List (List ℕ) };

    ghost view = { λ b. map (name_of b.names.state) b.declared.items };

    ghost invariant = { λ b. All (λ symbol. symbol < length b.names.state.contents) b.declared.items };
}

impl Bindings {
    /// No declarations.
    ///
    /// # Errors
    ///
    /// If an allocation fails.
    pub fn new(alloc: Global) -> Result<Bindings, TableError>
        ensures { IfOk result (λ bindings. bindings ≡ []) }
    {
        Ok(Bindings {
            names: SymbolTable::new(alloc)?,
            declared: Vec::new(alloc),
        })
    }

    /// How many declarations there are: what [`leave`](Bindings::leave) takes at the
    /// end of a scope that begins here.
    pub fn depth(&self) -> usize
        ensures { result ≡ length self.now }
    {
        self.declared.len()
    }

    /// Declares a name, and shadows those of the same name.
    ///
    /// # Errors
    ///
    /// If an allocation fails, or there are too many names. Then nothing is declared.
    pub fn declare(&mut self, name: &str) -> Result<(), TableError>
        ensures declared { OnOk result (self.new ≡ self.old ++ name.now ∷ []) }
        ensures refused { OnErr result (self.new ≡ self.old) }
    {
        self.declared.reserve(1)?;
        let symbol = self.names.get_or_intern(name)?;
        self.declared.push_reserved(symbol);
        Ok(())
    }

    /// The innermost declaration of a name, as the number of those outside it.
    pub fn resolve(&self, name: &str) -> Option<usize>
        ensures { IsLast self.now name.now result }
    {
        valid_law(&self.names);
        match self.names.check_interned(name) {
            None => None,
            Some(symbol) => last_of(&self.declared, symbol),
        }
    }

    /// Leaves a scope, at whose beginning there were `depth` declarations.
    pub fn leave(&mut self, depth: usize)
        ensures { self.new ≡ take depth self.old }
    {
        self.declared.truncate(depth);
    }
}

// The last position of a symbol.
fn last_of(symbols: &[Symbol], wanted: Symbol) -> Option<usize>
    ensures { IsLast symbols.now wanted result }
{
    let mut end = symbols.len();
    while end > 0 {
        end -= 1;
        if symbols[end] == wanted {
            return Some(end);
        }
    }
    None
}
