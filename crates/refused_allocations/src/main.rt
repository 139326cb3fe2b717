//! Makes fixed runs of calls on each table of owned contents and on each table in one buffer. It compares
//! every result with that of a list which was made before.
//!
//! It prints each call to standard error before it makes it, and each failure for memory that a call reports,
//! so that a harness that refuses requests for memory sees which call reported which. Without arguments it
//! makes all runs; with a table's name and a run's, that one; with `absorb` in place of a table's name, tables
//! that absorb another one.
#![tactic(auto)]

mod absorbing;
mod asks;
mod course;
mod fault;
mod results;
mod runs;
mod words;

use absorbing::absorb_each;
use course::{left_by, watch_equal};
use fault::{Fault, Told};
use intaglio::packed::{Packed, PackedForm};
use intaglio::{ContentOf, KindForm, Table};
use runs::{RUNS, Run};
use std::env;
use std::process::ExitCode;
use std::rt::Env;
use tests::support::builders::Fold;
use tests::support::kinds::{
    BStrKind, BytesKind, CStrKind, OfEnded, OsStrKind, PathKind, StrKind, TestKind,
};

const OWNED: &str = "text osstr path bytes bstr cstr";

const OWNED_RUNS: &str = "calls cut replies cut_replies making forms no_memory first room equal";

const PACKED: &str = "packed_text packed_osstr packed_path packed_bytes packed_bstr";

fn main(rt: HostRuntime) -> ExitCode {
    match asked(&rt) {
        Ok(()) => {
            let _ = println!(rt; "every answer is the list's");
            ExitCode::from(0)
        }
        Err(fault) => {
            let _ = println!(rt; "wrong: {fault:?}");
            ExitCode::from(1)
        }
    }
}

// The run that the arguments name, or all runs.
fn asked<R: Env + Told>(rt: &R) -> Result<(), Fault> {
    let Ok(mut words) = env::args(rt) else {
        return Err(Fault::Making);
    };
    let _program = words.next();
    let Some(table) = words.next() else {
        return all(rt);
    };
    match words.next() {
        Some(run) => one(rt, table.as_str(), run.as_str()),
        None => Err(Fault::Words),
    }
}

fn all(rt: &impl Told) -> Result<(), Fault> {
    each(rt, OWNED, OWNED_RUNS)?;
    each(rt, PACKED, "forms quiet")?;
    one(rt, "text", "known")?;
    absorb_each(rt)
}

fn each(rt: &impl Told, tables: &str, runs: &str) -> Result<(), Fault> {
    for table in tables.split(' ') {
        for run in runs.split(' ') {
            one(rt, table, run)?;
        }
    }
    Ok(())
}

// One run on one table.
fn one(rt: &impl Told, table: &str, run: &str) -> Result<(), Fault> {
    match table {
        "text" if run == "known" => known(rt),
        "text" => on_owned::<StrKind>(rt, run),
        "osstr" => on_owned::<OsStrKind>(rt, run),
        "path" => on_owned::<PathKind>(rt, run),
        "bytes" => on_owned::<BytesKind>(rt, run),
        "bstr" => on_owned::<BStrKind>(rt, run),
        "cstr" => on_owned::<CStrKind>(rt, run),
        "packed_text" => on_packed::<StrKind>(rt, run),
        "packed_osstr" => on_packed::<OsStrKind>(rt, run),
        "packed_path" => on_packed::<PathKind>(rt, run),
        "packed_bytes" => on_packed::<BytesKind>(rt, run),
        "packed_bstr" => on_packed::<BStrKind>(rt, run),
        "absorb" => absorb_each(rt),
        _ => Err(Fault::Words),
    }
}

fn run_of(name: &str) -> Result<Run<'static>, Fault> {
    let run = RUNS.iter().find(|run| run.0 == name);
    run.copied().ok_or(Fault::Words)
}

fn on_owned<'q, K: TestKind + KindForm<'q, Form: OfEnded>>(
    rt: &impl Told,
    name: &str,
) -> Result<(), Fault> {
    if name == "equal" {
        return watch_equal::<Vec<ContentOf<K>>>(rt, run_of(name)?);
    }
    let _table = left_on::<K>(rt, name)?;
    Ok(())
}

fn left_on<'q, K: TestKind + KindForm<'q, Form: OfEnded>>(
    rt: &impl Told,
    name: &str,
) -> Result<Table<ContentOf<K>, Fold>, Fault> {
    left_by::<Vec<ContentOf<K>>>(rt, run_of(name)?)
}

fn on_packed<'q, K: TestKind + PackedForm<'q, Form: OfEnded>>(
    rt: &impl Told,
    name: &str,
) -> Result<(), Fault> {
    let _table = left_by::<Packed<K>>(rt, run_of(name)?)?;
    Ok(())
}

// A word that a table of texts holds is got without memory.
fn known(rt: &impl Told) -> Result<(), Fault> {
    let table = left_on::<StrKind>(rt, "known")?;
    match table.get_interned("abc") {
        Some((symbol, "abc")) if symbol.is(0) => Ok(()),
        _ => Err(Fault::State(0)),
    }
}
