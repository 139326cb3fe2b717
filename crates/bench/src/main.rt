//! Measures tables of texts on generated words, or on lines of the input. The program in `bench/rust` makes
//! the same calls on the same words.
#![tactic(auto)]

mod frozen;
mod measure;
mod operations;
mod plan;
mod table;
mod turn;
mod words;

use anyhow::Result;
use intaglio::{SymbolTable, packed};
use intaglio_hash::{FixedState, KeyedState};
use measure::Bench;
use operations::hash;
use plan::{Hashing, Place, Plan, Task};
use std::env;
use std::hash::{BuildHasher, BuildHasherDefault, FoldHasher, RandomState};
use std::random::RandomSource;
use std::rt::{Clock, Env};

const USAGE: &str =
    "check|time|hold|hash|copy|frozen|words single|batch|both|packed|packed_batch|packed_both \
     fold|fixed|keyed|std CAPACITY SIZE|- TURNS";

fn main(rt: HostRuntime) -> Result<()> {
    let arguments: Vec<String> = env::args(&rt)?.collect(rt.alloc())?;
    let mut lines = Vec::new(rt.alloc());
    if arguments.get(5).is_some_and(|size| size.as_str() == "-") {
        for line in rt.lines(rt.alloc()) {
            lines.push(line?)?;
        }
    }
    let Some(plan) = Plan::read(&arguments, &lines) else {
        println!(rt; "usage: {USAGE}")?;
        return Ok(());
    };
    let bench = Bench { rt: &rt, plan };
    for _ in 0..plan.turns {
        bench.run()?;
    }
    Ok(())
}

impl<R: Print + Input + Clock + RandomSource + AllocGlobal> Bench<'_, R> {
    // Does once what the plan says.
    fn run(&self) -> Result<()> {
        match self.plan.task {
            Task::Frozen => self.frozen(),
            Task::Words => self.print_words(),
            _ => self.on_a_table(),
        }
    }

    // A turn with the hasher that the plan names.
    fn on_a_table(&self) -> Result<()> {
        match self.plan.hashing {
            Hashing::Fold => self.run_with(BuildHasherDefault::<FoldHasher>::new()),
            Hashing::Fixed => self.run_with(FixedState),
            Hashing::Keyed => self.run_with(KeyedState::from_random(&RandomState::new(self.rt)?)),
            Hashing::Std => self.run_with(RandomState::new(self.rt)?),
        }
    }

    fn run_with<S: BuildHasher + Drop>(&self, builder: S) -> Result<()> {
        if let Task::Hash = self.plan.task {
            let fresh = self.first_words()?;
            return self.measure("hash", || Ok(hash(&builder, &fresh)));
        }
        let (alloc, capacity) = (self.rt.alloc(), self.plan.capacity);
        match self.plan.place {
            Place::Owned => {
                self.turn(&mut SymbolTable::with_capacity_and_hasher(alloc, capacity, builder)?)
            }
            Place::Packed => {
                self.turn(&mut packed::SymbolTable::with_capacity_and_hasher(
                    alloc, capacity, builder,
                )?)
            }
        }
    }
}
