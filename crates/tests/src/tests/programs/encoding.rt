//! What encoding writes for whole inputs, and its errors, with readers and writers that fail.
use super::fakes::{SmallWriter, StuckWriter, UnflushedWriter, failing, is, repeated, slow};
use crate::support::kinds::Host;
use crate::tests::assertions::holds;
use intaglio_encode::encode::encode;
use intaglio_encode::serve::serve;
use intaglio_lines::error::report;
use intaglio_lines::kind::Kind;
use intaglio_lines::tool_error::ToolError;
use std::alloc::Global;
use std::hash::{BuildHasherDefault, FoldHasher};
use std::io::{ErrorKind, Read, Write};

type Builder = BuildHasherDefault<FoldHasher>;

const INPUT: &[u8] = b"b\na\nb";

const OUTPUT: &[u8] = b"0\n1\n0\n\nb\na\n";

const USAGE: &[u8] = b"usage: intaglio_tool text|bytes|bstr|cstr|osstr|path\n";

fn run<R: Read, W: Write>(
    alloc: Global,
    kind: Kind,
    reader: &mut R,
    writer: &mut W,
) -> Result<(), ToolError> {
    let builder: Builder = BuildHasherDefault::new();
    encode(alloc, kind, builder, reader, writer)
}

// The output for the input, read at once and byte by byte.
fn writes(rt: &impl Host, kind: Kind, input: &[u8], output: &[u8]) {
    let mut written = Vec::new(rt.alloc());
    let at_once = run(rt.alloc(), kind, &mut { input }, &mut written);
    holds(rt, at_once.is_ok());
    is(rt, &written, output);
    written.clear();
    let in_bytes = run(rt.alloc(), kind, &mut slow(input), &mut written);
    holds(rt, in_bytes.is_ok());
    is(rt, &written, output);
}

#[test]
fn lines_become_symbols_and_spellings(rt: HostRuntime) {
    writes(&rt, Kind::Text, INPUT, OUTPUT);
    writes(&rt, Kind::Text, b"", b"\n");
    writes(&rt, Kind::Text, b"\n", b"0\n\n\n");
    writes(&rt, Kind::Text, b"\n\n", b"0\n0\n\n\n");
    writes(&rt, Kind::Text, b"a\r\na", b"0\n1\n\na\r\na\n");
    writes(&rt, Kind::Text, b"\0", b"0\n\n\0\n");
}

// What is written of a line of 80,000 bytes, and of 40,000 lines: both are longer than a block.
#[test]
fn output_longer_than_a_block_is_written_whole(rt: HostRuntime) {
    let line = repeated(&rt, "ab", 40_000);
    let input = format!(in rt.alloc(); "b\n{line}\nb").expect(&rt, "no memory");
    let output = format!(in rt.alloc(); "0\n1\n0\n\nb\n{line}\n").expect(&rt, "no memory");
    writes(&rt, Kind::Text, input.as_bytes(), output.as_bytes());
    let lines = repeated(&rt, "a\n", 40_000);
    let symbols = repeated(&rt, "0\n", 40_000);
    let output = format!(in rt.alloc(); "{symbols}\na\n").expect(&rt, "no memory");
    writes(&rt, Kind::Text, lines.as_bytes(), output.as_bytes());
}

#[test]
fn lines_of_several_groups_are_taken_in_order(rt: HostRuntime) {
    let lines = repeated(&rt, "a\n", 100);
    let symbols = repeated(&rt, "0\n", 100);
    let input = format!(in rt.alloc(); "{lines}b\na").expect(&rt, "no memory");
    let output = format!(in rt.alloc(); "{symbols}1\n0\n\na\nb\n").expect(&rt, "no memory");
    writes(&rt, Kind::Text, input.as_bytes(), output.as_bytes());
    let input = format!(in rt.alloc(); "{lines}b\0\n").expect(&rt, "no memory");
    let told = b"line 101 holds a zero byte\n";
    seeded(&rt, "cstr", input.as_bytes(), (1, b"", told));
}

// What the program writes for the words of `arguments`, the errors that it writes, and its exit status.
fn serves<R: Read>(
    rt: &impl Host,
    arguments: &str,
    builder: Option<Builder>,
    reader: &mut R,
    wanted: (u8, &[u8], &[u8]),
) {
    let mut words = Vec::new(rt.alloc());
    for word in arguments.split_whitespace() {
        let word = String::from_str(rt.alloc(), word).expect(rt, "no memory");
        words.push(word).expect(rt, "no memory");
    }
    let (mut written, mut told) = (Vec::new(rt.alloc()), Vec::new(rt.alloc()));
    let status = serve(rt.alloc(), &words, builder, reader, &mut written, &mut told);
    holds(rt, status == wanted.0);
    is(rt, &written, wanted.1);
    is(rt, &told, wanted.2);
}

// The same with a seed, read at once and byte by byte.
fn seeded(rt: &impl Host, arguments: &str, input: &[u8], wanted: (u8, &[u8], &[u8])) {
    let builder: Builder = BuildHasherDefault::new();
    serves(rt, arguments, Some(builder), &mut { input }, wanted);
    serves(rt, arguments, Some(builder), &mut slow(input), wanted);
}

#[test]
fn input_that_is_not_utf8_is_refused(rt: HostRuntime) {
    seeded(&rt, "text", b"\xff", (1, b"", b"input is not UTF-8\n"));
    seeded(&rt, "text", b"a\n\xc3", (1, b"", b"input is not UTF-8\n"));
}

#[test]
fn wrong_arguments_are_told(rt: HostRuntime) {
    seeded(&rt, "", INPUT, (2, b"", USAGE));
    seeded(&rt, "xml", INPUT, (2, b"", USAGE));
    seeded(&rt, "text text", INPUT, (2, b"", USAGE));
}

#[test]
fn a_run_with_a_seed_succeeds_and_one_without_is_told(rt: HostRuntime) {
    seeded(&rt, "text", INPUT, (0, OUTPUT, b""));
    let told = (1, b"".as_slice(), b"no random seed\n".as_slice());
    serves(&rt, "text", None, &mut { INPUT }, told);
}

fn tells(rt: &impl Host, fault: ToolError, wanted: &[u8]) {
    let mut told = Vec::new(rt.alloc());
    report(fault, &mut told);
    is(rt, &told, wanted);
}

#[test]
fn faults_have_their_texts(rt: HostRuntime) {
    tells(&rt, ToolError::NotUtf8, b"input is not UTF-8\n");
    tells(&rt, ToolError::ZeroByte(2), b"line 2 holds a zero byte\n");
    tells(&rt, ToolError::Overflow, b"Symbol overflow\n");
    tells(&rt, ToolError::Memory, b"out of memory\n");
    tells(&rt, ToolError::Read, b"read failed\n");
    tells(&rt, ToolError::Write, b"write failed\n");
}

// If the read with this number fails, the run ends; if it is only interrupted, the run goes on.
fn fails_at(rt: &impl Host, number: u64) {
    let mut written = Vec::new(rt.alloc());
    let mut other = failing(INPUT, number, ErrorKind::Other);
    let failed = run(rt.alloc(), Kind::Text, &mut other, &mut written);
    holds(rt, matches!(failed, Err(ToolError::Read)));
    holds(rt, written.is_empty());
    let mut interrupted = failing(INPUT, number, ErrorKind::Interrupted);
    let ended = run(rt.alloc(), Kind::Text, &mut interrupted, &mut written);
    holds(rt, ended.is_ok());
    is(rt, &written, OUTPUT);
}

#[test]
fn failed_reads_end_the_run_and_interrupted_ones_do_not(rt: HostRuntime) {
    for number in 1..7u64 {
        fails_at(&rt, number);
    }
}

fn is_told<W: Write>(rt: &impl Host, writer: &mut W) {
    let answer = run(rt.alloc(), Kind::Text, &mut { INPUT }, writer);
    holds(rt, matches!(answer, Err(ToolError::Write)));
}

#[test]
fn failed_writes_are_told(rt: HostRuntime) {
    for room in 0..OUTPUT.len() {
        let taken = Vec::new(rt.alloc());
        is_told(&rt, &mut SmallWriter { taken, room });
    }
    is_told(&rt, &mut StuckWriter);
    is_told(&rt, &mut UnflushedWriter);
}

#[test]
fn each_mode_encodes_read_at_once_and_byte_by_byte(rt: HostRuntime) {
    for mode in ["text", "bytes", "bstr", "cstr", "osstr", "path"] {
        seeded(&rt, mode, INPUT, (0, OUTPUT, b""));
    }
}

#[test]
fn modes_take_what_their_kind_takes(rt: HostRuntime) {
    seeded(&rt, "path", b"a//b\na/b\n", (0, b"0\n0\n\na//b\n", b""));
    seeded(&rt, "bytes", b"a\n\xc3", (0, b"0\n1\n\na\n\xc3\n", b""));
    seeded(&rt, "bytes", b"\xff", (0, b"0\n\n\xff\n", b""));
    seeded(&rt, "osstr", b"\xff", (1, b"", b"input is not UTF-8\n"));
    seeded(&rt, "path", b"\xff", (1, b"", b"input is not UTF-8\n"));
}

#[test]
fn a_zero_byte_is_told_by_the_first_line_that_holds_one(rt: HostRuntime) {
    let second = b"line 2 holds a zero byte\n";
    seeded(&rt, "cstr", b"a\nb\x00\n", (1, b"", second));
    let first = b"line 1 holds a zero byte\n";
    seeded(&rt, "cstr", b"\x00\n\x00", (1, b"", first));
}
