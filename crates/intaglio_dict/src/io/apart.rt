//! Refuses an output of a command that is also one of its inputs or another output.
use crate::io::folders::is_given;
use crate::io::identity::Identity;
use crate::io::input::STANDARD;
use crate::io::report;
use crate::io::report::Tell;
use std::io;
use std::rt::Files;

/// An input or an output.
#[derive(Drop)]
pub struct Named {
    // What it is called in messages.
    name: String,
    is_standard: bool,
    identity: Identity,
}

impl Named {
    /// One that has a name of its own.
    ///
    /// # Errors
    ///
    /// That there is no memory.
    pub fn of<R: Files + AllocGlobal>(rt: &R, name: String) -> io::Result<Named> {
        let identity = Identity::of(rt, name.as_str())?;
        Ok(Named {
            name,
            is_standard: false,
            identity,
        })
    }

    // A standard stream, by its path and what it is called.
    fn standard<R: Files + AllocGlobal>(rt: &R, path: &str, name: &str) -> io::Result<Named> {
        Ok(Named {
            name: String::from_str(rt.alloc(), name)?,
            is_standard: true,
            identity: Identity::of(rt, path)?,
        })
    }

    // Whether this output is also the other one.
    fn is_output(&self, other: &Named) -> bool {
        self.name == other.name || self.identity.is_same(&other.identity)
    }
}

/// What these names lead to, each of which may be that of a standard stream, with
/// this path and what it is called.
///
/// # Errors
///
/// That there is no memory.
pub fn streams_of<R: Files + AllocGlobal>(
    rt: &R,
    names: &[&str],
    path: &str,
    called: &str,
) -> io::Result<Vec<Named>> {
    let mut all = Vec::new(rt.alloc());
    for name in names {
        let one = if *name == STANDARD {
            Named::standard(rt, path, called)?
        } else {
            Named::of(rt, String::from_str(rt.alloc(), name)?)?
        };
        all.push(one)?;
    }
    Ok(all)
}

/// Refuses messages that would go into an input or an output that is named. Nothing can be said then.
pub fn check_messages(messages: &Identity, inputs: &[Named], outputs: &[Named]) -> Result<(), u8> {
    let is_read = inputs.iter().any(|it| messages.overwrites(&it.identity));
    let is_written = outputs
        .iter()
        .any(|it| !it.is_standard && messages.overwrites(&it.identity));
    if is_read || is_written {
        Err(2)
    } else {
        Ok(())
    }
}

/// Refuses an output that is also an input: then the exit status after a message.
pub fn check_inputs<R: Tell>(rt: &R, inputs: &[Named], outputs: &[Named]) -> Result<(), u8> {
    for input in inputs {
        let written = outputs
            .iter()
            .find(|it| it.identity.overwrites(&input.identity));
        if let Some(output) = written {
            return Err(report::same_file(rt, &input.name, "input", &output.name));
        }
    }
    Ok(())
}

/// Refuses an output that is also another one: then the exit status after a message.
pub fn check_outputs<R: Tell>(rt: &R, outputs: &[Named]) -> Result<(), u8> {
    for number in 0..outputs.len() {
        let output = &outputs[number];
        let before = outputs[..number].iter().find(|it| it.is_output(output));
        if let Some(other) = before {
            return Err(report::same_file(rt, &output.name, "output", &other.name));
        }
    }
    Ok(())
}

/// Refuses an output that has the name of a shard or a map, in a folder into which these are written: then
/// the exit status after a message.
pub fn check_given<R: Files + Tell + AllocGlobal>(
    rt: &R,
    outputs: &[&str],
    folders: &[&str],
) -> Result<(), u8> {
    for output in outputs {
        if is_given(output) {
            check_not_in(rt, output, folders)?;
        }
    }
    Ok(())
}

// Refuses an output that is in one of these folders.
fn check_not_in<R: Files + Tell + AllocGlobal>(
    rt: &R,
    output: &str,
    folders: &[&str],
) -> Result<(), u8> {
    for folder in folders {
        let (Ok(place), Ok(written)) = (Identity::of_folder(rt, output), Identity::of(rt, folder))
        else {
            return Err(report::out_of_memory(rt));
        };
        if place.is_same(&written) {
            return Err(report::in_folder(rt, output, folder));
        }
    }
    Ok(())
}
