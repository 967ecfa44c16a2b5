//! Promises of references whose pairs of a query are edited. `must-fail` has wrong bodies.
ghost use Rattle.std.specs.List.{filter};
ghost use Rattle.std.specs.Option.{option_copied};
ghost use Rattle.std.specs.Prelude.{◌≡◌, ◌∷◌, [], IfOk, IsOk, None, map};
ghost use Rattle.uriparse_text.specs.Pairs.{decoded_pair, is_named};
ghost use Rattle.uriparse_reference.specs.PairEdits.{pairs_of};

use std::alloc::{AllocError, Global};
use uriparse_reference::uri_reference::{ReferenceText, URIReference};
use uriparse_text::query::Query;

/// Sets a pair of a reference's query, which is read back.
pub fn set_pair_read_back(
    reference: &mut URIReference<'_>,
    alloc: Global,
    name: &[u8],
    value: Option<&[u8]>,
) -> Result<(), AllocError>
    ensures { IfOk result (λ _. map decoded_pair (filter (is_named name.now) (pairs_of reference.new)) ≡ (name.now, option_copied value.entry) ∷ []) }
{
    reference.set_pair(alloc, name, value)
}

/// Removes pairs of a reference's query, if it has one.
pub fn remove_pairs_named(
    reference: &mut URIReference<'_>,
    alloc: Global,
    names: &Query<'_>,
) -> Result<(), AllocError>
    ensures { reference.old.query ≡ None → IsOk result × (reference.new ≡ reference.old) }
{
    reference.remove_pairs_named(alloc, names)
}

/// Sorts the pairs of a reference's query, if it has one.
pub fn sort_pairs(reference: &mut URIReference<'_>, alloc: Global) -> Result<(), AllocError>
    ensures { reference.old.query ≡ None → IsOk result × (reference.new ≡ reference.old) }
{
    reference.sort_pairs(alloc)
}

/// Sets a pair of the query of a string, which is read back.
pub fn set_pair_of_text(
    text: &mut ReferenceText,
    alloc: Global,
    name: &[u8],
    value: Option<&[u8]>,
) -> Result<(), AllocError>
    ensures { IfOk result (λ _. map decoded_pair (filter (is_named name.now) (pairs_of text.new.parts)) ≡ (name.now, option_copied value.entry) ∷ []) }
{
    text.set_pair(alloc, name, value)
}

/// Removes pairs of the query of a string, if it has one.
pub fn remove_pairs_of_text(
    text: &mut ReferenceText,
    alloc: Global,
    names: &Query<'_>,
) -> Result<(), AllocError>
    ensures { text.old.parts.query ≡ None → IsOk result }
{
    text.remove_pairs_named(alloc, names)
}
