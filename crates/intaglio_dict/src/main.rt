//! Makes dictionaries, which are frozen tables in files, looks up the lines of files in them, and translates
//! columns of lines to codes and back.
//!
//! What is asked is read from the arguments, and answered by `intaglio_columns`.
#![tactic(auto)]

mod column_files;
mod columns;
mod dictionaries;
mod freezing;
mod hashing;
mod io;
mod keeping;
mod look_ups;
mod maps;
mod merging;
mod misfit;
mod progress;
mod renumbering;
mod run;

use crate::io::command::matches;
use crate::io::report;
use crate::io::report::Tell;
use crate::io::words::words;
use std::process::ExitCode;
use std::random::RandomSource;
use std::rt::{Env, Files};

fn main(rt: HostRuntime) -> ExitCode {
    ExitCode::from(serve(&rt))
}

// Runs the program on its arguments, and returns the exit status.
fn serve<R: Files + Env + RandomSource + Input + Print + Eprint + Tell + AllocGlobal>(
    rt: &R,
) -> u8 {
    match words(rt) {
        Ok(words) => serve_words(rt, &words),
        Err(status) => status,
    }
}

fn serve_words<R: Files + RandomSource + Input + Print + Eprint + Tell + AllocGlobal>(
    rt: &R,
    words: &[String],
) -> u8 {
    match matches(rt.alloc(), words) {
        Ok(matches) => run::run(rt, &matches),
        Err(error) => report::usage(rt, error),
    }
}
