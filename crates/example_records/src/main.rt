//! Rows by their keys: counted, searched for a key that is there twice, and joined.
//!
//! The program prints the words of a text with their counts, checks two texts of settings, and prints what
//! each customer bought, with the customer's town.
#![tactic(auto)]

mod join;
mod repeat;
mod sales;
mod settings;
mod text;
mod words;

use anyhow::Result;
use sales::join_sales;
use settings::lint_settings;
use text::print_words;

fn main(rt: HostRuntime) -> Result<()> {
    print_words(&rt)?;
    lint_settings(&rt)?;
    join_sales(&rt)
}
