//! The subcommand that counts how often each string occurs.
use crate::column_files::opening::{Question, ask};
use crate::io::input::name_of;
use crate::io::noticing::Noticing;
use crate::io::output::OUTPUT;
use crate::io::report;
use crate::io::report::Tell;
use clap::ArgMatches;
use intaglio_columns::Column;
use intaglio_columns::counting::write_counts;
use intaglio_columns::dictionary::Dictionary;
use intaglio_columns::error::DictionaryError;
use std::io;
use std::rt::Files;

// In which order the counts are asked for.
#[derive(Drop)]
struct Counting {
    by_symbol: bool,
}

/// Writes how often each string occurs. Otherwise the exit status after a message.
pub fn count<R: Files + Input + Print + Tell + AllocGlobal>(
    rt: &R,
    found: &ArgMatches<'_>,
) -> Result<(), u8> {
    let counting = Counting {
        by_symbol: found.get_flag("BY_SYMBOL"),
    };
    match ask(rt, found, &counting) {
        Ok(_) => Ok(()),
        Err(status) => Err(status),
    }
}

impl<R: Print + Tell + AllocGlobal> Question<R> for Counting {
    fn answer<D: Dictionary>(
        &self,
        rt: &R,
        table: &D,
        column: &Column<'_>,
        name: &str,
    ) -> Result<bool, u8> {
        let mut output = Noticing::new(io::writer(rt));
        match write_counts(rt.alloc(), table, column, self.by_symbol, &mut output) {
            Ok(()) => Ok(true),
            Err(DictionaryError::Stream(fault)) => Err(report::stopped(
                rt,
                fault,
                OUTPUT,
                output.error,
            )),
            Err(DictionaryError::NoString(symbol)) => Err(no_string(rt, name, symbol)),
        }
    }
}

// Of a code whose string isn't there, in a dictionary that was trusted.
fn no_string<R: Tell>(rt: &R, name: &str, symbol: u32) -> u8 {
    report::failed(
        rt,
        name_of(name),
        format_args!("the code {symbol} has no string; without --trusted all is checked"),
    )
}
