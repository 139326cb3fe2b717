//! Sales and towns, joined by their customers.
ghost use Rattle.std.specs.Prelude.{◌≡◌};
ghost use Rattle.example_records.specs.Texts.{found_in};

use crate::join::{have_same_text, symbols_in};
use anyhow::Result;
use intaglio::{Symbol, SymbolTable, TableError};
use std::alloc::Global;

const SALES: &str = "ada tea\nbob coffee\nada milk\ncleo tea\n";

const TOWNS: &str = "cleo Paris\nada London\ndan Rome\n";

// A line: the symbol of its key, and its value.
type Row<'a> = (Symbol, &'a str);

// The lines as rows, each a key, a blank and a value.
fn rows_of<'a>(
    alloc: Global,
    keys: &mut SymbolTable,
    lines: &'a str,
) -> Result<Vec<Row<'a>>, TableError> {
    let mut rows = Vec::new(alloc);
    for line in lines.lines() {
        let (key, value) = line.split_once(' ').unwrap_or((line, ""));
        let symbol = keys.get_or_intern(key)?;
        // (The checker doesn't cover a `push` of what holds a borrow.)
        rows.reserve(1)?;
        rows.push_reserved((symbol, value));
    }
    Ok(rows)
}

fn print_pair(rt: &impl Print, key: &str, value: &str, other: &str) -> Result<()> {
    println!(rt; "{key}: {value}, {other}")?;
    Ok(())
}

// Prints a sale with each town whose key is the same.
fn print_sale(
    rt: &impl Print,
    customers: &SymbolTable,
    people: &SymbolTable,
    symbols: &[Option<Symbol>],
    customer: Symbol,
    item: &str,
    towns: &[Row<'_>],
) -> Result<()>
    requires { symbols.now ≡ found_in customers.now.state people.now.state }
{
    for (person, town) in towns {
        if have_same_text(customers, people, symbols, customer, *person) {
            let key = customers.get(customer);
            let same = people.get(*person);
            prove!(key == same);
            print_pair(rt, key.unwrap_or(""), item, *town)?;
        }
    }
    Ok(())
}

// Prints all sales whose customers have a town.
fn print_sales(
    rt: &(impl Print + AllocGlobal),
    customers: &SymbolTable,
    people: &SymbolTable,
    sales: &[Row<'_>],
    towns: &[Row<'_>],
) -> Result<()> {
    let symbols = symbols_in(rt.alloc(), customers, people)?;
    for (customer, item) in sales {
        print_sale(rt, customers, people, &symbols, *customer, *item, towns)?;
    }
    Ok(())
}

/// Prints what each customer bought, with the customer's town.
pub fn join_sales(rt: &(impl Print + AllocGlobal)) -> Result<()> {
    let mut customers = SymbolTable::new(rt.alloc())?;
    let sales = rows_of(rt.alloc(), &mut customers, SALES)?;
    let mut people = SymbolTable::new(rt.alloc())?;
    let towns = rows_of(rt.alloc(), &mut people, TOWNS)?;
    print_sales(rt, &customers, &people, &sales, &towns)
}
