//! The arguments: a row for each subcommand, with a row for each of its arguments.
use crate::io::files::CommandFiles;
use clap::{Arg, ArgAction, ArgMatches, Command};
use std::alloc::{AllocError, Global};

const NOTES: &str = "A file that is called - is standard input, or as the output standard output.

The status is 0 if all went well, 1 after an error, 2 after wrong arguments, and 141 if nobody reads the output.
That of find is 1 if some lines aren't in the dictionary, that of match is 1 if no row is selected, and both are 2
after an error.";

// What an argument takes.
#[derive(Clone, Copy)]
enum Takes {
    // Nothing: it is this option, given or not.
    Flag(&'static str),
    // One value, after this option.
    Value(&'static str),
    // The same, and no value of another argument with it.
    ValueInstead(&'static str, &'static str),
    // The name of an output, after -o or --output, and whether it is required: otherwise it is standard
    // output.
    Output(bool),
    // The same, which is required, and may be a folder of shards.
    Folder,
    // The name of another output, after this option.
    Written(&'static str),
    // The name of a folder for maps, after this option.
    Maps(&'static str),
    // The name of another input, a file or a folder, after this option, and whether it is required.
    Read(&'static str, bool),
    // The name of an input, by its position.
    One,
    // The names of inputs, by their position, and whether they are required: otherwise standard input is
    // read.
    Many(bool),
    // One or more numbers, by their position, which are otherwise read from standard input.
    Numbers,
    // One or more words, by their position.
    Words,
    // What lines are.
    Kind,
    // The keys of the hash.
    Keys,
}

// The name of an argument, what it takes, and its help.
type Argument = (&'static str, Takes, &'static str);

// The name of a subcommand, what it does, and its arguments.
type Subcommand = (&'static str, &'static str, &'static [Argument]);

const KINDS: &[&str] = &["bytes", "text"];

const DICT: Argument = ("DICT", Takes::One, "a dictionary");

const DICTS: Argument = ("DICT", Takes::Many(true), "dictionaries");

const FILES: Argument = (
    "FILE",
    Takes::Many(false),
    "files of lines; without any, standard input",
);

const COLUMN: Argument = ("COLUMN", Takes::One, "a column of this dictionary");

const MISSING_TEXT: Argument = (
    "TEXT",
    Takes::Value("missing"),
    "the line of missing lines, whose code is 4294967295, without a line end",
);

const OUT: &str = "the output, which is replaced when the new one is whole; - is standard output";

const OUTPUT: Argument = ("OUT", Takes::Output(false), OUT);

const SHARDS: Argument = (
    "SHARDS",
    Takes::Value("shards"),
    "writes the dictionary in so many shards, which are files in a folder",
);

const RAW: Argument = (
    "RAW",
    Takes::Flag("raw"),
    "plain codes in place of a column: each has four bytes, the lowest first",
);

const KEYS: Argument = (
    "KEYS",
    Takes::Keys,
    "the keys of the hash, two numbers below 2^64; without, the lines alone decide",
);

const RANDOM_KEYS: Argument = (
    "RANDOM_KEYS",
    Takes::Flag("random-keys"),
    "draws the keys at random, for lines that were chosen to have no places",
);

const PROGRESS: Argument = (
    "PROGRESS",
    Takes::Flag("progress"),
    "shows on standard error how far it is, and of how much where that is known",
);

const TRUSTED: Argument = (
    "TRUSTED",
    Takes::Flag("trusted"),
    "checks the dictionary's header alone, for one that was checked before",
);

const TRUSTED_PAIR: Argument = (
    "TRUSTED",
    Takes::Flag("trusted"),
    "checks headers alone, of files that were checked before",
);

const VERBOSE: Argument = (
    "VERBOSE",
    Takes::Flag("verbose"),
    "shows on standard error how many there were",
);

static SUBCOMMANDS: [Subcommand; 13] = [
    (
        "freeze",
        "Writes a dictionary of the distinct lines, numbered from 0 in the order of their first occurrences",
        &[
            ("KIND", Takes::Kind, "what lines are: any bytes, or UTF-8"),
            (
                "DICT",
                Takes::Folder,
                "the dictionary, which is replaced when the new one is whole; - is standard output",
            ),
            (
                "COLUMN",
                Takes::Written("column"),
                "also writes the column of the lines",
            ),
            SHARDS,
            KEYS,
            RANDOM_KEYS,
            PROGRESS,
            VERBOSE,
            FILES,
        ],
    ),
    (
        "find",
        "Writes the symbol of each line, or - if the line isn't in the dictionary",
        &[TRUSTED, DICT, FILES],
    ),
    (
        "get",
        "Writes the string of each symbol, a line each",
        &[
            TRUSTED,
            DICT,
            (
                "NUMBER",
                Takes::Numbers,
                "symbols; without any, the lines of standard input",
            ),
        ],
    ),
    (
        "list",
        "Writes all strings in the order of their symbols, a line each",
        &[DICT],
    ),
    (
        "encode",
        "Writes the column of the lines, which knows its dictionary",
        &[
            (
                "MISSING",
                Takes::Flag("missing"),
                "writes 4294967295 for a line that isn't in the dictionary",
            ),
            RAW,
            OUTPUT,
            PROGRESS,
            VERBOSE,
            DICT,
            FILES,
        ],
    ),
    (
        "decode",
        "Writes the line of each row of columns",
        &[
            MISSING_TEXT,
            RAW,
            OUTPUT,
            PROGRESS,
            VERBOSE,
            DICT,
            (
                "COLUMN",
                Takes::Many(false),
                "columns of this dictionary; without any, standard input",
            ),
        ],
    ),
    (
        "rows",
        "Writes the lines of rows of a column, by their numbers from 0",
        &[
            TRUSTED_PAIR,
            MISSING_TEXT,
            DICT,
            COLUMN,
            (
                "ROW",
                Takes::Words,
                "rows: a number, or the first and the last, as in 10-20",
            ),
        ],
    ),
    (
        "count",
        "Writes how often each line occurs in a column, and the line, the most frequent first, \
         and the missing last",
        &[
            TRUSTED_PAIR,
            (
                "BY_SYMBOL",
                Takes::Flag("by-symbol"),
                "writes the lines in the order of their symbols",
            ),
            DICT,
            COLUMN,
        ],
    ),
    (
        "match",
        "Writes the numbers of the rows of a column that have one of these lines, from 0",
        &[
            TRUSTED_PAIR,
            (
                "COUNT",
                Takes::Flag("count"),
                "writes how many rows there are, in place of their numbers",
            ),
            (
                "INVERT",
                Takes::Flag("invert"),
                "selects all other rows, also those whose lines are missing",
            ),
            DICT,
            COLUMN,
            ("STRING", Takes::Words, "lines, without a line end"),
        ],
    ),
    (
        "merge",
        "Writes a dictionary of the strings of all dictionaries, in the order of their first occurrences",
        &[
            (
                "SHARD",
                Takes::ValueInstead("shard", "SHARDS"),
                "merges the shards with this number alone, counted from 0, of dictionaries in as many shards",
            ),
            SHARDS,
            (
                "OUT",
                Takes::Folder,
                "the dictionary: a folder of shards if the dictionaries are, or with --shard or --shards; \
                 otherwise a file, or standard output, which is -",
            ),
            (
                "MAPS",
                Takes::Maps("maps"),
                "also writes maps, by which renumber renumbers columns, to this folder",
            ),
            KEYS,
            RANDOM_KEYS,
            PROGRESS,
            VERBOSE,
            DICTS,
        ],
    ),
    (
        "renumber",
        "Writes a column of the dictionary to which maps lead, with the lines of a column",
        &[
            (
                "MAPS",
                Takes::Read("maps", true),
                "the folder of the maps that merge wrote",
            ),
            (
                "INTO",
                Takes::Read("into", false),
                "a dictionary: the maps must lead to this one",
            ),
            OUTPUT,
            VERBOSE,
            (
                "COLUMN",
                Takes::One,
                "a column of a dictionary that was merged",
            ),
        ],
    ),
    (
        "check",
        "Checks dictionaries, and columns after theirs, and says what is wrong with each file that isn't one",
        &[(
            "DICT",
            Takes::Many(true),
            "dictionaries, and columns of the last dictionary before them",
        )],
    ),
    (
        "stat",
        "Writes the kind and number of strings, and the bytes of the file and the longest, \
         or what a column has",
        &[("DICT", Takes::One, "a dictionary or a column")],
    ),
];

/// What these words ask for. The first one is the program's name.
pub fn matches<'a>(alloc: Global, words: &'a [String]) -> Result<ArgMatches<'a>, clap::Error> {
    command(alloc)?.try_get_matches_from(words)
}

/// The files that the subcommand with this name reads and writes.
pub fn files_of<'a>(
    alloc: Global,
    name: &str,
    found: &ArgMatches<'a>,
) -> Result<CommandFiles<'a>, AllocError> {
    files_by(alloc, row_of(rows(), name), found)
}

// All rows. (A function of its own, since the prover unfolds what a static holds wherever it is named.)
fn rows() -> &'static [Subcommand] {
    &SUBCOMMANDS
}

// The row with this name.
fn row_of<'r>(rows: &'r [Subcommand], name: &str) -> Option<&'r Subcommand> {
    rows.iter().find(|row| row.0 == name)
}

fn files_by<'a>(
    alloc: Global,
    row: Option<&Subcommand>,
    found: &ArgMatches<'a>,
) -> Result<CommandFiles<'a>, AllocError> {
    let mut files = CommandFiles::new(alloc);
    if let Some(row) = row {
        for argument in row.2 {
            add_files(&mut files, *argument, found)?;
        }
    }
    Ok(files)
}

// Adds the files that an argument names.
fn add_files<'a>(
    files: &mut CommandFiles<'a>,
    row: Argument,
    found: &ArgMatches<'a>,
) -> Result<(), AllocError> {
    match row.1 {
        Takes::One | Takes::Many(_) => files.add_inputs(found.get_strs(row.0)),
        Takes::Numbers if !found.contains_id(row.0) => files.add_inputs(None),
        Takes::Output(_) => files.add_output(found.get_str(row.0)),
        Takes::Folder => {
            files.has_output();
            files.add_folder(found.get_str(row.0))
        }
        Takes::Written(_) => files.add_written(found.get_str(row.0)),
        Takes::Maps(_) => files.add_folder(found.get_str(row.0)),
        Takes::Read(_, _) => files.add_input(found.get_str(row.0)),
        _ => Ok(()),
    }
}

// What the program takes.
fn command<'a>(alloc: Global) -> Result<Command<'a>, AllocError> {
    program(alloc).subcommands(subcommands(alloc, rows())?)
}

fn program<'a>(alloc: Global) -> Command<'a> {
    Command::new(alloc, "intaglio_dict")
        .version("3.0.0")
        .about(
            "Numbers the distinct lines of files, \
             and keeps them in a file in which both strings and numbers are found",
        )
        .after_help(NOTES)
        .subcommand_required(true)
        .arg_required_else_help(true)
}

fn subcommands<'a>(alloc: Global, rows: &[Subcommand]) -> Result<Vec<Command<'a>>, AllocError> {
    let mut subcommands = Vec::new(alloc);
    for row in rows {
        subcommands.push(subcommand(alloc, row)?)?;
    }
    Ok(subcommands)
}

fn subcommand<'a>(alloc: Global, row: &Subcommand) -> Result<Command<'a>, AllocError> {
    let arguments = arguments(alloc, row.2)?;
    Command::new(alloc, row.0).about(row.1).args(arguments)
}

fn arguments<'a>(alloc: Global, rows: &[Argument]) -> Result<Vec<Arg<'a>>, AllocError> {
    let mut arguments = Vec::new(alloc);
    for row in rows {
        arguments.push(argument(alloc, *row)?)?;
    }
    Ok(arguments)
}

fn argument<'a>(alloc: Global, row: Argument) -> Result<Arg<'a>, AllocError> {
    let argument = Arg::new(alloc, row.0).help(row.2);
    match row.1 {
        Takes::Flag(option) => Ok(argument.long(option).action(ArgAction::SetTrue)),
        Takes::Value(option) | Takes::Written(option) | Takes::Maps(option) => Ok(argument.long(
            option,
        )),
        Takes::ValueInstead(option, other) => without(argument.long(option), other),
        Takes::Read(option, is_required) => Ok(argument.long(option).required(is_required)),
        Takes::Folder => Ok(argument.short('o').long("output").required(true)),
        Takes::Output(is_required) => Ok(argument.short('o').long("output").required(is_required)),
        Takes::One => Ok(argument.required(true)),
        Takes::Many(is_required) => Ok(argument.num_args(1..).required(is_required)),
        Takes::Numbers => Ok(argument.num_args(1..)),
        Takes::Words => Ok(argument.num_args(1..).required(true)),
        Takes::Kind => Ok(
            argument
                .long("kind")
                .value_parser(KINDS)
                .default_value("bytes"),
        ),
        Takes::Keys => without(argument.long("keys").value_name("K0,K1"), "RANDOM_KEYS"),
    }
}

// A function of its own: over arguments that are known, the proof of this one call takes minutes.
fn without<'a>(argument: Arg<'a>, other: &'a str) -> Result<Arg<'a>, AllocError> {
    argument.conflicts_with(other)
}
