//! Decodes an output of `intaglio_tool`: writes the string of each symbol, as a line.
#![tactic(auto)]

ghost use Rattle.std.specs.Prelude.{◌≡◌, IfErr};
ghost use Rattle.intaglio_lines.specs.declared.error.StreamError.TheVariants.{Memory};

use intaglio_decode::serve::serve;
use intaglio_lines::error::{StreamError, report};
use intaglio_lines::named::{MAX_NAME, Named, program_name};
use std::env;
use std::io::ErrorKind;
use std::process::ExitCode;
use std::rt::Env;

fn main(rt: HostRuntime) -> ExitCode {
    let mut bytes = [0; MAX_NAME];
    let name = program_name(&rt, "intaglio_restore", &mut bytes);
    let (mut input, mut output, mut errors) = (
        rt.stdin(),
        rt.stdout(),
        Named::new(rt.stderr(), name),
    );
    let status = match has_arguments(&rt) {
        Ok(has_arguments) => serve(
            rt.alloc(),
            has_arguments,
            &mut input,
            &mut output,
            &mut errors,
        ),
        Err(error) => report(error, &mut errors),
    };
    ExitCode::from(status)
}

// Whether there are arguments after the program's name. One that isn't text counts too.
fn has_arguments<R: Env + AllocGlobal>(rt: &R) -> Result<bool, StreamError>
    ensures err { IfErr result (λ e. e ≡ Memory) }
{
    match env::args(rt) {
        Ok(args) => Ok(args.skip(1).next().is_some()),
        Err(e) => {
            if e.kind() == ErrorKind::OutOfMemory {
                Err(StreamError::Memory)
            } else {
                Ok(true)
            }
        }
    }
}
