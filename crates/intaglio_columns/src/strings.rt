//! Writes strings of a dictionary.
ghost use Rattle.std.specs.Prelude.{◌≡◌, IfOk, IfErr};
ghost use Rattle.std.specs.List.{flat_map};
ghost use Rattle.intaglio_lines.specs.Decoded.{decoded};
ghost use Rattle.intaglio_lines.specs.Output.{spelling_line};
ghost use Rattle.intaglio_lines.specs.declared.error.StreamError.TheVariants.{Memory};
ghost use Rattle.intaglio_columns.specs.Answers.{AreSymbols};
ghost use Rattle.intaglio_columns.specs.declared.error.DictionaryError.TheVariants.{Stream};

use crate::dictionary::{Dictionary, WholeDictionary};
use crate::error::DictionaryError;
use intaglio_lines::error::StreamError;
use intaglio_lines::write::{Output, put_line};
use intaglio_symbol::Symbol;
use std::alloc::Global;
use std::io;
use std::io::Write;

/// The output: all strings in the order of their symbols, each on a line.
#[derive(Drop)]
pub struct Listing<'a, D> {
    /// The dictionary.
    pub table: &'a D,
}

impl<D: WholeDictionary> Output for Listing<'_, D> {
    ghost bytes = { λ output. flat_map spelling_line (D.strings output.table.now) };

    ghost is_ready = { λ _. Unit {0} };

    fn put_all<W: Write>(&self, block: &mut Vec<u8>, writer: &mut W) -> io::Result<()> {
        for number in 0..self.table.len() {
            let string = self.table.string_of(Symbol::new(number as u32)).unwrap();
            put_line(string, block, writer)?;
        }
        Ok(())
    }
}

/// The output: strings, each on a line.
#[derive(Drop)]
pub struct Selection<'a, 't> {
    /// The strings.
    pub strings: &'a [&'t [u8]],
}

impl Output for Selection<'_, '_> {
    ghost bytes = { λ output. flat_map (λ string. spelling_line string.now) output.strings.now };

    ghost is_ready = { λ _. Unit {0} };

    fn put_all<W: Write>(&self, block: &mut Vec<u8>, writer: &mut W) -> io::Result<()> {
        for string in self.strings {
            put_line(*string, block, writer)?;
        }
        Ok(())
    }
}

/// The string of each symbol.
///
/// # Errors
///
/// `Memory` if the allocation of the list fails; `NoString` if the dictionary isn't whole.
pub(crate) fn strings_of<'a, D: Dictionary>(
    alloc: Global,
    table: &'a D,
    symbols: &[Symbol],
) -> Result<Vec<&'a [u8]>, DictionaryError>
    requires { AreSymbols symbols.now (D.strings table.now) }
    ensures lines { IfOk result (λ strings.
        flat_map (λ string. spelling_line string.now) strings.items
        ≡ decoded symbols.now (D.strings table.now)) }
    ensures err { D.is_whole table.now → IfErr result (λ e. e ≡ Stream Memory) }
{
    let mut strings = Vec::new(alloc);
    for symbol in symbols {
        let Some(string) = table.string(*symbol) else {
            return Err(DictionaryError::NoString(symbol.id()));
        };
        let Ok(()) = strings.push(string) else {
            return Err(DictionaryError::Stream(StreamError::Memory));
        };
    }
    Ok(strings)
}
