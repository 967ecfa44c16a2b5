//! What commands print: values, bytes, and components of texts, each on a line of its own.

ghost use Rattle.std.specs.Prelude.{[], IfSome, MatchOption, Some};
ghost use Rattle.uri_commands.specs.Output as spec;

use crate::failure::Failure;
use std::fmt::Display;
use std::io::Write;

/// Prints the value.
pub fn print_line<T: Display, O: Write>(value: &T, out: &mut O) -> Result<(), Failure>
    ensures { IfSome (T.output value.now) (λ t. spec.Writes (spec.line t) (O.contents out.old) (O.contents out.new) result) }
{
    Ok(writeln!(out, "{value}")?)
}

/// Prints the bytes, and a newline.
#[tactic(auto, using(crate::proofs::OutputLemmas::line_written))]
pub fn print_bytes<O: Write>(bytes: &[u8], out: &mut O) -> Result<(), Failure>
    ensures { spec.Writes (spec.line bytes.now) (O.contents out.old) (O.contents out.new) result }
{
    out.write_all(bytes)?;
    Ok(out.write_all(b"\n")?)
}

/// Prints the component after its name, if it is present.
#[tactic(auto, using(crate::proofs::ComponentLemmas::named, crate::proofs::ComponentLemmas::nothing))]
pub fn print_part<T: Display, O: Write>(
    name: &str,
    part: Option<&T>,
    out: &mut O,
) -> Result<(), Failure>
    ensures { MatchOption part.entry (spec.Writes [] (O.contents out.old) (O.contents out.new) result) (λ v. IfSome (T.output v.now) (λ t. spec.Writes (spec.component name.now (Some t)) (O.contents out.old) (O.contents out.new) result)) }
{
    match part {
        Some(part) => {
            out.write_all(name.as_bytes())?;
            out.write_all(b"=")?;
            print_line(part, out)
        }
        None => Ok(()),
    }
}
