//! `uri equal A B`: whether two references are equal.

ghost use Rattle.std.specs.Prelude.{◌≡◌, MatchResult, None, Some, bytes_eq};
ghost use Rattle.uriparse.specs.Key.{key};
ghost use Rattle.uriparse.specs.TextCuts.{after, before};
ghost use Rattle.uri_commands.specs.Columns.{tab};
ghost use Rattle.uri_commands.specs.Output as spec;
ghost use Rattle.uri_commands.specs.declared.failure.Failure.TheVariants as failures;

use crate::failure::Failure;
use crate::print::print_bytes;
use crate::topic::Topic;
use std::io::Write;
use uriparse::{ReferenceView, URIReference};
use uriparse_text::internal::{split_at_delimiter, without_delimiter};

pub static ABOUT: Topic = (
    "equal",
    "\
Prints `equal` or `different` for two references.

Usage: uri equal A B
       uri --quiet equal A B
       uri --lines equal
       uri --lines --quiet equal

Use it to find links that differ only in spelling. References are equal if they
differ at most in the case of scheme, host and escapes, and in escapes that
aren't needed, such as %7E for ~. A host name differs from every address. Dot
segments count, so normalize first. With --lines a line has two references,
separated by a tab.

Exit status: 0 on success, 1 if A or B is not a reference, 2 on a usage error,
3 with --quiet if they differ.

Example:
    uri equal 'http://h/%7ea' 'HTTP://H/~a'
prints
    equal
",
);

/// Prints whether the references are equal. Does not allocate.
#[tactic(auto, using(crate::proofs::OutputLemmas::compared_first, crate::proofs::OutputLemmas::rejected_reference))]
pub fn equal<O: Write>(left: &[u8], right: &[u8], out: &mut O) -> Result<(), Failure>
    ensures { spec.Does (spec.Compares left.now right.now) (O.contents out.old) (O.contents out.new) result }
{
    let left = ReferenceView::try_from_bytes(left)?;
    compare(&left, right, out)
}

/// Reads the right reference, and prints whether it equals the left one.
#[tactic(auto, using(crate::proofs::OutputLemmas::compared, crate::proofs::OutputLemmas::rejected_reference))]
fn compare<O: Write>(left: &ReferenceView<'_>, right: &[u8], out: &mut O) -> Result<(), Failure>
    ensures { spec.Does (spec.ComparesWith left.now.parts right.now) (O.contents out.old) (O.contents out.new) result }
{
    let right = ReferenceView::try_from_bytes(right)?;
    print_comparison(left, &right, out)
}

/// What is printed of two references.
fn equal_or_different(is_equal: bool) -> &'static str
    ensures { result.now ≡ spec.equal_or_different is_equal }
{
    if is_equal { "equal" } else { "different" }
}

/// Prints whether the references are equal.
fn print_comparison<O: Write>(
    left: &ReferenceView<'_>,
    right: &ReferenceView<'_>,
    out: &mut O,
) -> Result<(), Failure>
    ensures { spec.Writes (spec.line (spec.equal_or_different (bytes_eq (key left.now.parts) (key right.now.parts)))) (O.contents out.old) (O.contents out.new) result }
{
    print_bytes(equal_or_different(left == right).as_bytes(), out)
}

/// The two texts that the line's first tab separates.
pub fn split_pair(line: &[u8]) -> Result<(&[u8], &[u8]), Failure>
    ensures { MatchResult result (λ pair. (pair.0.now ≡ before tab line.now) × (after tab line.now ≡ Some pair.1.now)) (λ f. (f ≡ failures.NoTab) × (after tab line.now ≡ None)) }
{
    let (left, following) = split_at_delimiter(line, b'\t');
    match without_delimiter(following) {
        Some(right) => Ok((left, right)),
        None => Err(Failure::NoTab),
    }
}

/// Where a line of two references is wrong: in the first, if that has a fault.
pub fn pair_fault_offset(line: &[u8]) -> usize {
    let Ok((left, right)) = split_pair(line) else {
        return 0;
    };
    match (
        URIReference::first_fault(left),
        URIReference::first_fault(right),
    ) {
        (Some((offset, _)), _) => offset,
        (None, Some((offset, _))) => left.len().saturating_add(1).saturating_add(offset),
        (None, None) => 0,
    }
}

/// Compares the line's two references, and prints the result.
#[tactic(auto, using(crate::proofs::OutputLemmas::of_pair, crate::proofs::OutputLemmas::no_pair))]
pub fn equal_pair<O: Write>(line: &[u8], out: &mut O) -> Result<(), Failure>
    ensures { spec.Does (spec.OfPair line.now spec.Compares) (O.contents out.old) (O.contents out.new) result }
{
    let (left, right) = split_pair(line)?;
    equal(left, right, out)
}
