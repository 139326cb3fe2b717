//! What decoding writes for whole inputs, and its errors, with readers and writers that fail.
use super::fakes::{SmallWriter, StuckWriter, UnflushedWriter, failing, is, repeated, slow};
use crate::support::kinds::Host;
use crate::tests::assertions::holds;
use intaglio_decode::error::RestoreError;
use intaglio_decode::restore::restore;
use intaglio_decode::serve::serve;
use intaglio_lines::error::{StreamError, report};
use std::io::{ErrorKind, Read, Write};

const INPUT: &[u8] = b"0\n1\n0\n\nb\na\n";

const OUTPUT: &[u8] = b"b\na\nb\n";

fn runs<R: Read>(rt: &impl Host, reader: &mut R, output: &[u8]) {
    let mut written = Vec::new(rt.alloc());
    holds(rt, restore(rt.alloc(), reader, &mut written).is_ok());
    is(rt, &written, output);
}

// The output for the input, read at once and byte by byte.
fn gives(rt: &impl Host, input: &[u8], output: &[u8]) {
    runs(rt, &mut { input }, output);
    runs(rt, &mut slow(input), output);
}

#[test]
fn symbols_become_their_strings(rt: HostRuntime) {
    gives(&rt, INPUT, OUTPUT);
    gives(&rt, b"\n", b"");
    gives(&rt, b"0\n\n\n", b"\n");
    gives(&rt, b"1\n0\n\n\nb\n", b"b\n\n");
    gives(&rt, b"0\n\na\r\n", b"a\r\n");
    gives(&rt, b"0\n\n\xff\0\n", b"\xff\0\n");
    gives(&rt, b"1\n\na\nb\nc\n", b"b\n");
    gives(&rt, b"10\n\n\n1\n2\n3\n4\n5\n6\n7\n8\n9\nk\n", b"k\n");
}

// A string of 80,000 bytes, and 40,000 lines: both are longer than a block.
#[test]
fn strings_longer_than_a_block_are_written_whole(rt: HostRuntime) {
    let line = repeated(&rt, "ab", 40_000);
    let input = format!(in rt.alloc(); "0\n1\n0\n\nb\n{line}\n").expect(&rt, "no memory");
    let output = format!(in rt.alloc(); "b\n{line}\nb\n").expect(&rt, "no memory");
    gives(&rt, input.as_bytes(), output.as_bytes());
    let symbols = repeated(&rt, "0\n", 40_000);
    let input = format!(in rt.alloc(); "{symbols}\na\n").expect(&rt, "no memory");
    let output = repeated(&rt, "a\n", 40_000);
    gives(&rt, input.as_bytes(), output.as_bytes());
}

// The exit status of a run on the input, and what it writes to its two writers.
fn serves(rt: &impl Host, has_arguments: bool, input: &[u8], wanted: (u8, &[u8], &[u8])) {
    let (mut written, mut told) = (Vec::new(rt.alloc()), Vec::new(rt.alloc()));
    let reader = &mut { input };
    let status = serve(rt.alloc(), has_arguments, reader, &mut written, &mut told);
    holds(rt, status == wanted.0);
    is(rt, &written, wanted.1);
    is(rt, &told, wanted.2);
}

#[test]
fn a_run_succeeds_and_arguments_are_refused(rt: HostRuntime) {
    serves(&rt, false, INPUT, (0, OUTPUT, b""));
    serves(&rt, true, INPUT, (2, b"", b"usage: intaglio_restore\n"));
}

// Each line is an input, with a bar for each byte 10, and what is reported for it.
const FAULTS: &str = "\
>no empty line
0|1|>no empty line
0|1>last line not ended
0||a>last line not ended
0|1||a|b>last line not ended
x||a|>line 1: not a number
0|x|7||a|>line 2: not a number
0|x>line 2: not a number
+0||a|>line 1: not a number
-0||a|>line 1: not a number
00||a|>line 1: not a number
0|01||a|b|>line 2: not a number
0 ||a|>line 1: not a number
0x0||a|>line 1: not a number
/||a|>line 1: not a number
:||a|>line 1: not a number
1||a|>line 1: no string 1
0|2|x||a|b|>line 2: no string 2
0||>line 1: no string 0
2||a|b>line 1: no string 2
4294967296||a|>line 1: no string 4294967296
18446744073709551616||a|>line 1: no string 18446744073709551616
184467440737095516160||a|>line 1: no string 184467440737095516160";

#[test]
fn the_first_line_that_is_wrong_is_reported(rt: HostRuntime) {
    for row in FAULTS.lines() {
        let (input, wanted) = row.split_once('>').expect(&rt, "no fault");
        let input = input
            .replace(rt.alloc(), '|', "\n")
            .expect(&rt, "no memory");
        let wanted = format!(in rt.alloc(); "{wanted}\n").expect(&rt, "no memory");
        serves(&rt, false, input.as_bytes(), (1, b"", wanted.as_bytes()));
    }
}

// If the read with this number fails, the run ends; if it is only interrupted, the run goes on.
fn fails_at(rt: &impl Host, number: u64) {
    let (mut written, mut reported) = (Vec::new(rt.alloc()), Vec::new(rt.alloc()));
    let mut other = failing(INPUT, number, ErrorKind::Other);
    let status = serve(rt.alloc(), false, &mut other, &mut written, &mut reported);
    holds(rt, status == 1 && written.is_empty());
    is(rt, &reported, b"read failed\n");
    let mut interrupted = failing(INPUT, number, ErrorKind::Interrupted);
    runs(rt, &mut interrupted, OUTPUT);
}

#[test]
fn failed_reads_end_the_decoding_and_interrupted_ones_do_not(rt: HostRuntime) {
    for number in 1..13u64 {
        fails_at(&rt, number);
    }
}

fn fails_to_write<W: Write>(rt: &impl Host, writer: &mut W) {
    let mut reported = Vec::new(rt.alloc());
    let status = serve(rt.alloc(), false, &mut { INPUT }, writer, &mut reported);
    holds(rt, status == 1);
    is(rt, &reported, b"write failed\n");
}

#[test]
fn failed_writes_are_reported(rt: HostRuntime) {
    for room in 0..OUTPUT.len() {
        let taken = Vec::new(rt.alloc());
        fails_to_write(&rt, &mut SmallWriter { taken, room });
    }
    fails_to_write(&rt, &mut StuckWriter);
    fails_to_write(&rt, &mut UnflushedWriter);
}

#[test]
fn a_failed_allocation_is_reported(rt: HostRuntime) {
    let mut reported = Vec::new(rt.alloc());
    let error = RestoreError::Stream(StreamError::Memory);
    holds(&rt, report(error, &mut reported) == 1);
    is(&rt, &reported, b"out of memory\n");
}
