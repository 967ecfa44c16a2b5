//! `uri --quiet parse TEXT` and `uri --quiet equal A B`: the status alone, for scripts.

ghost use Rattle.uri_commands.specs.Output as spec;

use crate::equal::split_pair;
use crate::failure::Failure;
use crate::topic::Topic;
use uriparse::{ReferenceView, URIReference};

pub static ABOUT: Topic = (
    "--quiet",
    "\
Prints nothing: the status alone reports the result.

Usage: uri --quiet parse TEXT
       uri --quiet equal A B
       uri --lines --quiet parse
       uri --lines --quiet equal

Use it in conditions. No message says why input is rejected. With --lines, a
failed read and running out of memory are still reported.

Exit status: 0 on success, 1 if input is not a reference, 2 on a usage error,
3 if two references differ.

Example:
    uri --quiet parse 'a b' || echo rejected
prints
    rejected
",
);

/// Checks whether the text is a reference. Does not allocate.
#[tactic(auto, using(crate::proofs::OutputLemmas::checked, crate::proofs::OutputLemmas::not_checked))]
pub fn check(text: &[u8]) -> Result<(), Failure>
    ensures { spec.Finds (spec.Checks text.now) result }
{
    URIReference::check(text)?;
    Ok(())
}

/// Checks whether two references are equal, and fails with `Failure::Different` if they differ. Does
/// not allocate.
#[tactic(auto, using(crate::proofs::OutputLemmas::found_equal_first, crate::proofs::OutputLemmas::found_rejected))]
pub fn check_equal(left: &[u8], right: &[u8]) -> Result<(), Failure>
    ensures { spec.Finds (spec.ChecksEqual left.now right.now) result }
{
    let left = ReferenceView::try_from_bytes(left)?;
    check_against(&left, right)
}

/// Reads the right reference, and checks whether it equals the left one.
#[tactic(auto, using(crate::proofs::OutputLemmas::found_equal, crate::proofs::OutputLemmas::found_different, crate::proofs::OutputLemmas::found_rejected))]
fn check_against(left: &ReferenceView<'_>, right: &[u8]) -> Result<(), Failure>
    ensures { spec.Finds (spec.ChecksAgainst left.now.parts right.now) result }
{
    let right = ReferenceView::try_from_bytes(right)?;
    if *left == right {
        Ok(())
    } else {
        Err(Failure::Different)
    }
}

/// Checks whether the line's two references are equal.
#[tactic(auto, using(crate::proofs::OutputLemmas::found_in_pair, crate::proofs::OutputLemmas::found_no_pair))]
pub fn check_pair(line: &[u8]) -> Result<(), Failure>
    ensures { spec.Finds (spec.OfPair line.now spec.ChecksEqual) result }
{
    let (left, right) = split_pair(line)?;
    check_equal(left, right)
}
