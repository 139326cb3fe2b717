//! The arguments of the program.

use crate::words::Source;

/// What is done with each table.
#[derive(Clone, Copy)]
pub enum Task {
    /// Each operation once.
    Check,
    /// Each operation once, with printed times.
    Time,
    /// The table is filled, and kept until the input ends.
    Hold,
    /// Words are only hashed, and the time is printed.
    Hash,
    /// New words are interned by their borrowed forms, and the time is printed.
    Copy,
    /// A packed table is frozen, and both are searched, with printed times.
    Frozen,
    /// The words are printed.
    Words,
}

/// How many words a call takes.
#[derive(Clone, Copy)]
pub enum Calls {
    /// One.
    Single,
    /// A batch.
    Batch,
    /// First the operations of single calls, then those of batches, on the same table.
    Both,
}

/// Where a table has its texts.
#[derive(Clone, Copy)]
pub enum Place {
    /// Each in an allocation of its own.
    Owned,
    /// All in one buffer.
    Packed,
}

/// Which hashers a table has.
#[derive(Clone, Copy)]
pub enum Hashing {
    /// std's `FoldHasher`, with a fixed seed.
    Fold,
    /// `FixedHasher`, with the same hashes.
    Fixed,
    /// `KeyedHasher`, with random keys.
    Keyed,
    /// std's `RandomState`.
    Std,
}

/// What the arguments ask for.
#[derive(Clone, Copy)]
pub struct Plan<'a> {
    pub task: Task,
    pub calls: Calls,
    pub place: Place,
    pub hashing: Hashing,
    /// The initial capacity of each table.
    pub capacity: usize,
    pub source: Source<'a>,
    /// The number of distinct words.
    pub size: u32,
    /// The number of tables, one after the other.
    pub turns: u32,
}

impl<'a> Plan<'a> {
    /// Reads the arguments that the program's usage says, after its name. If the size is `-`, the words are
    /// these lines: the first half of them is interned, and the others are absent.
    pub fn read(arguments: &[String], lines: &'a [String]) -> Option<Plan<'a>> {
        let [_, task, calls, hashing, capacity, size, turns] = arguments else {
            return None;
        };
        let (source, size) = match size.as_str() {
            "-" => (Source::Listed(lines), u32::try_from(lines.len() / 2).ok()?),
            _ => (Source::Generated, size.as_str().parse().ok()?),
        };
        Some(Plan {
            task: task_of(task)?,
            calls: calls_of(calls)?,
            place: place_of(calls),
            hashing: hashing_of(hashing)?,
            capacity: capacity.as_str().parse().ok()?,
            source,
            size,
            turns: turns.as_str().parse().ok()?,
        })
    }
}

fn task_of(word: &str) -> Option<Task> {
    Some(match word {
        "check" => Task::Check,
        "time" => Task::Time,
        "hold" => Task::Hold,
        "hash" => Task::Hash,
        "copy" => Task::Copy,
        "frozen" => Task::Frozen,
        "words" => Task::Words,
        _ => return None,
    })
}

fn calls_of(word: &str) -> Option<Calls> {
    match word {
        "single" | "packed" => Some(Calls::Single),
        "batch" | "packed_batch" => Some(Calls::Batch),
        "both" | "packed_both" => Some(Calls::Both),
        _ => None,
    }
}

fn place_of(word: &str) -> Place {
    if word.starts_with("packed") {
        Place::Packed
    } else {
        Place::Owned
    }
}

fn hashing_of(word: &str) -> Option<Hashing> {
    match word {
        "fold" => Some(Hashing::Fold),
        "fixed" => Some(Hashing::Fixed),
        "keyed" => Some(Hashing::Keyed),
        "std" => Some(Hashing::Std),
        _ => None,
    }
}
