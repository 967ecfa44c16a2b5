//! `uri pair NAME TEXT`: the value of one pair of a reference's query.

ghost use Rattle.std.specs.Prelude.{[], unwrap_or};
ghost use Rattle.std.specs.Option.{option_map};
ghost use Rattle.uriparse.specs.Coding.{decoded};
ghost use Rattle.uri_commands.specs.Output as spec;

use crate::failure::Failure;
use crate::print::{print_bytes, print_line};
use crate::topic::Topic;
use std::alloc::Global;
use std::io::Write;
use uriparse::{Query, ReferenceView};
use uriparse_text::internal::Held;

pub static ABOUT: Topic = (
    "pair",
    "\
Prints the decoded value of a query parameter.

Usage: uri pair NAME TEXT
       uri --lines pair NAME

Use it to read one parameter of a link: the first pair of the query whose
decoded name is NAME. A pair without a `=` has an empty value. A `+` is a `+`.

With --lines the value is printed undecoded, since a decoded newline would break
the line in two. An absent pair is an empty line then, and the status is 0.

Exit status: 0 on success, 1 if TEXT is not a reference, 2 on a usage error,
3 without --lines if there is no such pair; nothing is printed then.

Example:
    uri pair q 'http://h/?p=1&q=a%20b'
prints
    a b
",
);

/// Prints the decoded value of the query's first pair of this name, or fails with `Failure::Absent`.
#[tactic(auto, using(crate::proofs::OutputLemmas::pair_of, crate::proofs::OutputLemmas::pair_without_query, crate::proofs::OutputLemmas::rejected_reference))]
pub fn pair<O: Write>(alloc: Global, name: &str, text: &[u8], out: &mut O) -> Result<(), Failure>
    ensures { spec.Does (spec.GetsPair name.now text.now) (O.contents out.old) (O.contents out.new) result }
{
    let reference = ReferenceView::try_from_bytes(text)?;
    match Held(reference.query()).0.as_ref() {
        Some(query) => print_value(alloc, query.pair(name.as_bytes()), out),
        None => Err(Failure::Absent),
    }
}

/// Prints the decoded value, or fails with `Failure::Absent`.
#[tactic(auto, using(crate::proofs::OutputLemmas::value_printed, crate::proofs::OutputLemmas::value_absent, crate::proofs::OutputLemmas::ended))]
fn print_value<O: Write>(
    alloc: Global,
    value: Option<Query<'_>>,
    out: &mut O,
) -> Result<(), Failure>
    ensures { spec.Does (spec.PrintsIfPresent (option_map decoded value.entry)) (O.contents out.old) (O.contents out.new) result }
{
    match Held(value).0.as_ref() {
        Some(value) => {
            let bytes = Held(value.decode(alloc)?);
            print_bytes(&bytes.0, out)
        }
        None => Err(Failure::Absent),
    }
}

/// Prints the value of a line's first pair of this name as it stands, or an empty line if it is absent.
#[tactic(auto, using(crate::proofs::OutputLemmas::pair_or_empty_of, crate::proofs::OutputLemmas::pair_or_empty_without_query, crate::proofs::OutputLemmas::rejected_reference))]
pub fn pair_or_empty<O: Write>(name: &str, line: &[u8], out: &mut O) -> Result<(), Failure>
    ensures { spec.Does (spec.GetsPairOrEmpty name.now line.now) (O.contents out.old) (O.contents out.new) result }
{
    let reference = ReferenceView::try_from_bytes(line)?;
    match Held(reference.query()).0.as_ref() {
        Some(query) => print_text(query.pair(name.as_bytes()), out),
        None => print_bytes(b"", out),
    }
}

/// Prints the value as it stands, or an empty line.
#[tactic(auto, using(crate::proofs::OutputLemmas::text_written, crate::proofs::OutputLemmas::empty_written))]
fn print_text<O: Write>(value: Option<Query<'_>>, out: &mut O) -> Result<(), Failure>
    ensures { spec.Writes (spec.line (unwrap_or value.entry [])) (O.contents out.old) (O.contents out.new) result }
{
    match Held(value).0.as_ref() {
        Some(value) => print_line(value, out),
        None => print_bytes(b"", out),
    }
}
