//! A linter for settings, which reports the first key that is set twice.
use crate::repeat::first_repeat;
use anyhow::Result;
use intaglio::TableError;
use std::alloc::Global;

const GOOD: &str = "host = example.org\nport = 80\nuser = guest\n";

const BAD: &str = "host = example.org\nport = 80\nuser = guest\nport = 8080\nhost = localhost\n";

// The keys of the lines, each the part before `=`.
fn keys_of(alloc: Global, text: &str) -> Result<Vec<&str>, TableError> {
    let mut keys = Vec::new(alloc);
    for line in text.lines() {
        let key = line.split_once('=').map_or(line, |parts| parts.0);
        keys.push(key.trim())?;
    }
    Ok(keys)
}

fn lint(rt: &(impl Print + AllocGlobal), name: &str, text: &str) -> Result<()> {
    let keys = keys_of(rt.alloc(), text)?;
    match first_repeat(rt.alloc(), &keys)? {
        Some(n) => print_repeat(rt, name, n + 1, keys[n]),
        None => print_fine(rt, name),
    }
}

fn print_repeat(rt: &impl Print, name: &str, line: usize, key: &str) -> Result<()> {
    println!(rt; "{name}:{line}: {key} is set twice")?;
    Ok(())
}

fn print_fine(rt: &impl Print, name: &str) -> Result<()> {
    println!(rt; "{name}: each key is set once")?;
    Ok(())
}

/// Checks two texts.
pub fn lint_settings(rt: &(impl Print + AllocGlobal)) -> Result<()> {
    lint(rt, "good", GOOD)?;
    lint(rt, "bad", BAD)
}
