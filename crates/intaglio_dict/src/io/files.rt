//! The files of a command, and whether each output is a file of its own.
use crate::io::apart::{
    Named, check_given, check_inputs, check_messages, check_outputs, streams_of,
};
use crate::io::folders::add_all_entries;
use crate::io::identity::Identity;
use crate::io::input::{INPUT, STANDARD, STANDARD_INPUT};
use crate::io::output::OUTPUT;
use crate::io::report;
use crate::io::report::Tell;
use std::alloc::{AllocError, Global};
use std::io;
use std::rt::Files;

/// The path of standard input.
pub const INPUT_PATH: &str = "/dev/stdin";

// The paths of standard output and of standard error.
const OUTPUT_PATH: &str = "/dev/stdout";

const MESSAGES_PATH: &str = "/dev/stderr";

/// The names of a command's inputs and outputs.
#[derive(Drop)]
pub struct CommandFiles<'a> {
    inputs: Vec<&'a str>,
    outputs: Vec<&'a str>,
    // Whether the arguments have an output. Otherwise standard output is one.
    has_output: bool,
    // Those of the outputs that are folders of shards or maps, or can be.
    folders: Vec<&'a str>,
}

impl<'a> CommandFiles<'a> {
    /// No files.
    pub fn new(alloc: Global) -> CommandFiles<'a> {
        CommandFiles {
            inputs: Vec::new(alloc),
            outputs: Vec::new(alloc),
            has_output: false,
            folders: Vec::new(alloc),
        }
    }

    /// Adds inputs: standard input if none are named.
    pub fn add_inputs(&mut self, names: Option<&[&'a str]>) -> Result<(), AllocError> {
        self.inputs
            .extend_from_slice(names.unwrap_or(STANDARD_INPUT))
    }

    /// Adds another input, if one is named.
    pub fn add_input(&mut self, name: Option<&'a str>) -> Result<(), AllocError> {
        match name {
            Some(name) => self.inputs.extend_from_slice(&[name]),
            None => Ok(()),
        }
    }

    /// Adds the output: standard output if none is named.
    pub fn add_output(&mut self, name: Option<&'a str>) -> Result<(), AllocError> {
        self.has_output = true;
        self.add_written(Some(name.unwrap_or(STANDARD)))
    }

    /// Adds another output, if one is named.
    pub fn add_written(&mut self, name: Option<&'a str>) -> Result<(), AllocError> {
        if let Some(name) = name {
            self.outputs.push(name)?;
        }
        Ok(())
    }

    /// Adds a folder into which shards or maps are written, if one is named. It is also added as an output.
    pub fn add_folder(&mut self, name: Option<&'a str>) -> Result<(), AllocError> {
        if let Some(name) = name {
            self.folders.push(name)?;
        }
        self.add_written(name)
    }

    /// The output is one of the arguments, whether it is named or not.
    pub fn has_output(&mut self) {
        self.has_output = true;
    }

    /// Checks, before anything is read or written, that no output is also an input or another output, that no
    /// input is in a folder that is written, and that standard input is one input at most. Otherwise the exit
    /// status after a message.
    pub fn check<R: Files + Tell + AllocGlobal>(&mut self, rt: &R) -> Result<(), u8> {
        if !self.has_output && self.add_output(None).is_err() {
            return Err(report::out_of_memory(rt));
        }
        if self.inputs.contains(&"") {
            return Err(report::empty_name(rt, "an input"));
        }
        if self.outputs.contains(&"") {
            return Err(report::empty_name(rt, "an output"));
        }
        if self.inputs.iter().filter(|name| **name == STANDARD).count() > 1 {
            return Err(report::read_twice(rt));
        }
        self.check_apart(rt)
    }

    fn check_apart<R: Files + Tell + AllocGlobal>(&self, rt: &R) -> Result<(), u8> {
        let (Ok(inputs), Ok(mut outputs), Ok(messages)) = (
            self.named_inputs(rt),
            streams_of(rt, &self.outputs, OUTPUT_PATH, OUTPUT),
            Identity::of(rt, MESSAGES_PATH),
        ) else {
            return Err(report::out_of_memory(rt));
        };
        self.check_named(rt, &messages, &inputs, &mut outputs)
    }

    fn check_named<R: Files + Tell + AllocGlobal>(
        &self,
        rt: &R,
        messages: &Identity,
        inputs: &[Named],
        outputs: &mut Vec<Named>,
    ) -> Result<(), u8> {
        check_messages(messages, inputs, outputs)?;
        check_outputs(rt, outputs)?;
        check_given(rt, &self.outputs, &self.folders)?;
        if add_folders(rt, &self.folders, outputs).is_err() {
            return Err(report::out_of_memory(rt));
        }
        check_inputs(rt, inputs, outputs)
    }

    // The inputs, and what is in those that are folders.
    fn named_inputs<R: Files + AllocGlobal>(&self, rt: &R) -> io::Result<Vec<Named>> {
        let mut inputs = streams_of(rt, &self.inputs, INPUT_PATH, INPUT)?;
        add_folders(rt, &self.inputs, &mut inputs)?;
        Ok(inputs)
    }
}

// Adds what is in those of these names that are folders.
fn add_folders<R: Files + AllocGlobal>(
    rt: &R,
    names: &[&str],
    all: &mut Vec<Named>,
) -> io::Result<()> {
    for name in names {
        if *name != STANDARD {
            add_all_entries(rt, name, all)?;
        }
    }
    Ok(())
}
