//! Messages on standard error, each with the exit status. A message that can't be written is lost.
use clap::error::ErrorKind;
use intaglio_lines::error::StreamError;
use intaglio_lines::named::{MAX_NAME, program_name};
use std::fmt::Display;
use std::io;

/// Messages on standard error.
pub trait Tell {
    /// Writes a message behind the name by which the program was called, without its folder.
    fn tell<D: Display + Drop>(&self, what: D);
}

impl Tell for HostRuntime {
    fn tell<D: Display + Drop>(&self, what: D) {
        let mut bytes = [0; MAX_NAME];
        let program = program_name(self, "intaglio_dict", &mut bytes);
        let _ = eprintln!(self; "{program}: {what}");
    }
}

/// Writes a message.
pub fn say<R: Tell, D: Display + Drop>(rt: &R, what: D) {
    rt.tell(what);
}

/// The status if nobody reads the output: as a shell has it for a program that the signal SIGPIPE ended.
pub const UNREAD_OUTPUT: u8 = 141;

/// Of an error that a file's name goes before. The number that the system gives the error is left out.
pub fn of_file<R: Tell + AllocGlobal>(rt: &R, name: &str, error: io::Error) -> u8 {
    if error.kind() == io::ErrorKind::OutOfMemory {
        return out_of_memory(rt);
    }
    match format!(in rt.alloc(); "{error}") {
        Ok(text) => failed(rt, name, without_number(text.as_str())),
        Err(_) => out_of_memory(rt),
    }
}

// An error's text without the system's number.
fn without_number(text: &str) -> &str {
    match text.split_once(" (os error") {
        Some((words, _)) => words,
        None => text,
    }
}

/// Of an input that couldn't be read to its end, or an output that couldn't be written, by the last error.
/// Nothing is said if nobody reads the output.
pub fn stopped<R: Tell + AllocGlobal>(
    rt: &R,
    fault: StreamError,
    name: &str,
    error: Option<io::Error>,
) -> u8 {
    match (fault, error) {
        (StreamError::Memory, _) => out_of_memory(rt),
        (StreamError::Write, Some(error)) if error.kind() == io::ErrorKind::BrokenPipe =>
            UNREAD_OUTPUT,
        (_, Some(error)) => of_file(rt, name, error),
        (_, None) => failed(rt, name, fault),
    }
}

/// The name of an input or an output, and its last error.
pub type Stream<'a> = (&'a str, Option<io::Error>);

/// Of the one of an input and an output that the fault is of.
pub fn stopped_one<R: Tell + AllocGlobal>(
    rt: &R,
    fault: StreamError,
    input: Stream<'_>,
    output: Stream<'_>,
) -> u8 {
    let (name, error) = match fault {
        StreamError::Read => input,
        _ => output,
    };
    stopped(rt, fault, name, error)
}

/// Of what is wrong with a file, or with one of the standard streams.
pub fn failed<R: Tell, D: Display + Drop>(rt: &R, name: &str, what: D) -> u8 {
    say(rt, format_args!("{name}: {what}"));
    1
}

/// Of a line, counted from 1, that must be UTF-8.
pub fn line_not_utf8<R: Tell>(rt: &R, name: &str, line: usize) -> u8 {
    say(rt, format_args!("{name}: line {line} is not UTF-8"));
    1
}

/// Of a line, counted from 1, that must be a symbol.
pub fn not_a_symbol<R: Tell>(rt: &R, name: &str, line: usize, typed: &str) -> u8 {
    say(
        rt,
        format_args!("{name}: line {line} is no symbol: '{typed}'"),
    );
    1
}

/// Of an output that is also an input or another output.
pub fn same_file<R: Tell>(rt: &R, name: &str, role: &str, output: &str) -> u8 {
    say(
        rt,
        format_args!("{name}: this {role} is also the output {output}; nothing was written"),
    );
    2
}

/// Of a name of an input or an output that has no bytes.
pub fn empty_name<R: Tell>(rt: &R, what: &str) -> u8 {
    say(rt, format_args!("the name of {what} is empty"));
    2
}

/// Of an output that has the name of a shard or a map, in a folder into which these are written.
pub fn in_folder<R: Tell>(rt: &R, name: &str, folder: &str) -> u8 {
    let what = "shards or maps have such names there, so nothing was written";
    say(
        rt,
        format_args!("{name}: this output is in the folder {folder}: {what}"),
    );
    2
}

/// Of a number after an option that is no plain number, or is too large or too small.
pub fn wrong_number<R: Tell>(rt: &R, option: &str, typed: &str, needed: &str) -> u8 {
    say(rt, format_args!("{option} '{typed}': {needed}"));
    2
}

/// Of a folder of shards that an option doesn't take, or that takes other options.
pub fn of_folder<R: Tell>(rt: &R, name: &str, what: &str) -> u8 {
    say(rt, format_args!("{name}: {what}"));
    2
}

/// Of a symbol among the arguments that is no plain number.
pub fn not_a_number<R: Tell>(rt: &R, typed: &str) -> u8 {
    say(
        rt,
        format_args!("'{typed}' is no symbol: a number below 2^32 is needed, in digits alone"),
    );
    2
}

/// Of a symbol that no string of a dictionary has.
pub fn no_string<R: Tell>(rt: &R, name: &str, number: u32) -> u8 {
    failed(rt, name, format_args!("no string has the symbol {number}"))
}

/// Of a text for missing lines that would be several lines.
pub fn line_end<R: Tell>(rt: &R) -> u8 {
    say(rt, "the text after --missing has a line end");
    2
}

/// How many there are of something, in a summary.
pub fn count<R: Tell>(rt: &R, count: u64, what: &str) {
    say(rt, format_args!("{count} {what}"));
}

/// Of arguments by which standard input would be two inputs.
pub fn read_twice<R: Tell>(rt: &R) -> u8 {
    say(rt, "standard input can be only one of the inputs");
    2
}

/// Of what is wrong with the input as a whole.
pub fn of_input<R: Tell, D: Display + Drop>(rt: &R, what: D) -> u8 {
    say(rt, what);
    1
}

/// Of random bytes, which the system doesn't give.
pub fn no_random_bytes<R: Tell>(rt: &R) -> u8 {
    of_input(rt, "no random bytes")
}

/// Of memory.
pub fn out_of_memory<R: Tell>(rt: &R) -> u8 {
    of_input(rt, "out of memory")
}

/// Of an argument that isn't UTF-8. Number 0 is the program's name.
pub fn not_utf8<R: Tell>(rt: &R, number: usize, argument: &[u8]) -> u8 {
    let typed = argument.escape_ascii();
    say(rt, format_args!("argument {number} isn't UTF-8: '{typed}'"));
    2
}

/// Of an argument that isn't UTF-8, and is too long to be shown.
pub fn long_not_utf8<R: Tell>(rt: &R) -> u8 {
    say(rt, "a long argument isn't UTF-8");
    2
}

/// Of keys that aren't two numbers.
pub fn wrong_keys<R: Tell>(rt: &R, typed: &str) -> u8 {
    let needed = "two numbers below 2^64 are needed, as in 5,6";
    say(rt, format_args!("--keys '{typed}': {needed}"));
    2
}

/// Of arguments that the command doesn't take, or the help or version that they ask for.
pub fn usage<R: Print + Eprint + Tell>(rt: &R, error: clap::Error) -> u8 {
    if error.kind() == ErrorKind::OutOfMemory {
        return out_of_memory(rt);
    }
    match error.print(rt) {
        Ok(()) => {}
        Err(e) if e.kind() == io::ErrorKind::BrokenPipe => return UNREAD_OUTPUT,
        Err(_) => return 1,
    }
    if error.use_stderr() { 2 } else { 0 }
}
