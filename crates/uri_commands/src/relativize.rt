//! `uri relativize BASE URI`: the reference that leads from a base to a URI.

ghost use Rattle.uri_commands.specs.Output as spec;

use crate::failure::Failure;
use crate::print::print_line;
use crate::topic::Topic;
use std::alloc::Global;
use std::io::Write;
use uriparse::URI;

pub static ABOUT: Topic = (
    "relativize",
    "\
Prints the reference that leads from a base to a URI.

Usage: uri relativize BASE URI
       uri --lines relativize BASE

Use it for links that don't name their own site. It leaves out what both have in
common; uri resolve makes the same of the result as of the URI.

Exit status: 0 on success, 1 if BASE or URI is not a URI, 2 on a usage error.

Example:
    uri relativize 'http://a/b/c/d;p?q' 'http://a/b/g#s'
prints
    ../g#s
",
);

/// Prints the reference that leads from the base to the target. The base is read first.
#[tactic(auto, using(crate::proofs::OutputLemmas::relativized_first, crate::proofs::OutputLemmas::rejected_uri_unless))]
pub fn relativize<O: Write>(
    alloc: Global,
    base: &[u8],
    target: &[u8],
    out: &mut O,
) -> Result<(), Failure>
    ensures { spec.Does (spec.Relativizes base.now target.now) (O.contents out.old) (O.contents out.new) result }
{
    let base = URI::try_from_bytes(alloc, base)?;
    relativize_against(alloc, &base, target, out)
}

/// Reads the target, and prints the reference that leads to it from the base.
#[tactic(auto, using(crate::proofs::OutputLemmas::relativized, crate::proofs::OutputLemmas::rejected_uri_unless))]
pub fn relativize_against<O: Write>(
    alloc: Global,
    base: &URI<'_>,
    target: &[u8],
    out: &mut O,
) -> Result<(), Failure>
    ensures { spec.Does (spec.RelativizesAgainst base.now target.now) (O.contents out.old) (O.contents out.new) result }
{
    let target = URI::try_from_bytes(alloc, target)?;
    print_reference(alloc, base, &target, out)
}

/// Prints the reference that leads from the base to the target.
#[tactic(auto, using(crate::proofs::OutputLemmas::led, crate::proofs::OutputLemmas::ended))]
fn print_reference<O: Write>(
    alloc: Global,
    base: &URI<'_>,
    target: &URI<'_>,
    out: &mut O,
) -> Result<(), Failure>
    ensures { spec.Does (spec.LeadsTo base.now target.now) (O.contents out.old) (O.contents out.new) result }
{
    let reference = base.relativize(alloc, target)?;
    print_line(&reference, out)
}
