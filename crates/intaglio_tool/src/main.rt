//! Interns the lines of its input, and writes the symbol of each line and then each distinct line.
#![tactic(auto)]

ghost use Rattle.std.specs.Prelude.{◌≡◌, IfErr};
ghost use Rattle.intaglio_lines.specs.declared.tool_error.ToolError.TheVariants.{Memory};

use intaglio_encode::serve::serve;
use intaglio_lines::error::report;
use intaglio_lines::tool_error::ToolError;
use std::env;
use std::hash::RandomState;
use std::io::ErrorKind;
use std::process::ExitCode;
use std::rt::Env;

fn main(rt: HostRuntime) -> ExitCode {
    let builder = RandomState::new(&rt).ok();
    let (mut input, mut output, mut faults) = (rt.stdin(), rt.stdout(), rt.stderr());
    let status = match words(&rt) {
        Ok(words) => serve(
            rt.alloc(),
            &words,
            builder,
            &mut input,
            &mut output,
            &mut faults,
        ),
        Err(fault) => report(fault, &mut faults),
    };
    ExitCode::from(status)
}

// The arguments after the program's name. If one of them isn't text, there are
// none, so that it is a usage error.
fn words<R: Env + AllocGlobal>(rt: &R) -> Result<Vec<String>, ToolError>
    ensures err { IfErr result (λ e. e ≡ Memory) }
{
    match env::args(rt) {
        Ok(args) => {
            // A loop, since `collect` asks for less memory again after an allocation failed.
            let mut words = Vec::new(rt.alloc());
            for word in args.skip(1) {
                words.push(word)?;
            }
            Ok(words)
        }
        Err(e) => {
            if e.kind() == ErrorKind::OutOfMemory {
                Err(ToolError::Memory)
            } else {
                Ok(Vec::new(rt.alloc()))
            }
        }
    }
}
