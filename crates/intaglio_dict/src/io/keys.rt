//! The keys of a dictionary, as the arguments ask for them.
use crate::io::report;
use crate::io::report::Tell;
use crate::io::symbols::plain_number;
use clap::ArgMatches;
use std::io;
use std::random::RandomSource;

/// The two keys that were asked for, or none if the library is to choose them. Otherwise the exit status
/// after a message.
pub fn keys_of<R: RandomSource + Tell>(
    rt: &R,
    found: &ArgMatches<'_>,
) -> Result<Option<(u64, u64)>, u8> {
    if found.get_flag("RANDOM_KEYS") {
        return match random_keys(rt) {
            Ok(keys) => Ok(Some(keys)),
            Err(_) => Err(report::no_random_bytes(rt)),
        };
    }
    let Some(typed) = found.get_str("KEYS") else {
        return Ok(None);
    };
    match two_numbers(typed) {
        Some(keys) => Ok(Some(keys)),
        None => Err(report::wrong_keys(rt, typed)),
    }
}

fn random_keys<R: RandomSource>(rt: &R) -> io::Result<(u64, u64)> {
    let (mut first, mut second) = ([0; 8], [0; 8]);
    rt.fill_bytes(&mut first)?;
    rt.fill_bytes(&mut second)?;
    Ok((u64::from_le_bytes(first), u64::from_le_bytes(second)))
}

// Two numbers with a comma between them.
fn two_numbers(text: &str) -> Option<(u64, u64)> {
    let (first, second) = text.split_once(',')?;
    Some((plain_number(first)?, plain_number(second)?))
}
