//! `uri pairs TEXT`: the pairs of a reference's query.

ghost use Rattle.std.specs.Option.{option_copied};
ghost use Rattle.uriparse.specs.Pairs.{pairs, piece_of};
ghost use Rattle.uri_commands.specs.Output as spec;

use crate::failure::Failure;
use crate::print::print_line;
use crate::topic::Topic;
use std::alloc::Global;
use std::io::Write;
use uriparse::{Query, URIReference};
use uriparse_text::internal::Held;

pub static ABOUT: Topic = (
    "pairs",
    "\
Prints the pairs of a reference's query, a line each.

Usage: uri pairs TEXT

Use it to see the parameters of a link. A pair is what stands between two `&`:
NAME=VALUE, or NAME without a `=`. The first `=` ends the name. Pairs are
printed undecoded, so each takes one line; uri decode decodes one.

Exit status: 0 on success, 1 if TEXT is not a reference, 2 on a usage error,
3 if it has no query; nothing is printed then.

Example:
    uri pairs 'http://h/?a=1&b=x%26y&c'
prints
    a=1
    b=x%26y
    c
",
);

/// Prints the pairs of the reference's query, or fails with `Failure::Absent` if it has no query.
#[tactic(auto, using(crate::proofs::OutputLemmas::pairs_printed, crate::proofs::OutputLemmas::no_pairs, crate::proofs::OutputLemmas::rejected_unless))]
pub fn pairs<O: Write>(alloc: Global, text: &[u8], out: &mut O) -> Result<(), Failure>
    ensures { spec.Does (spec.Pairs text.now) (O.contents out.old) (O.contents out.new) result }
{
    let reference = URIReference::try_from_bytes(alloc, text)?;
    match reference.query() {
        Some(query) => print_pairs(query, out),
        None => Err(Failure::Absent),
    }
}

/// Prints each pair as it stands in the query, on a line of its own.
#[tactic(auto, using(crate::proofs::OutputLemmas::pairs_start))]
fn print_pairs<O: Write>(query: &Query<'_>, out: &mut O) -> Result<(), Failure>
    ensures { spec.Writes (spec.pair_lines (pairs query.now)) (O.contents out.old) (O.contents out.new) result }
{
    for pair in query.pairs() {
        let pair = Held(pair);
        print_pair(&pair.0.0, pair.0.1.as_ref(), out)?;
    }
    Ok(())
}

/// Prints a pair of this name, and of this value if it is present.
#[tactic(auto, using(crate::proofs::OutputLemmas::valued, crate::proofs::OutputLemmas::valueless))]
fn print_pair<O: Write>(
    name: &Query<'_>,
    value: Option<&Query<'_>>,
    out: &mut O,
) -> Result<(), Failure>
    ensures { spec.Writes (spec.line (piece_of (name.now, option_copied value.entry))) (O.contents out.old) (O.contents out.new) result }
{
    match value {
        Some(value) => Ok(writeln!(out, "{name}={value}")?),
        None => print_line(name, out),
    }
}
