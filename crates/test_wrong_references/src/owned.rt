//! Promises of strings that are owned.

ghost use Rattle.std.specs.Prelude.{◌≡◌, Err, IfOk, MatchResult, None, Ok, bytes_eq, is_some, false, string_bytes, true};
ghost use Rattle.uriparse_reference.specs.Edits.{edited};
ghost use Rattle.uriparse_reference.specs.OwnedText.{viewed_in};
ghost use Rattle.uriparse_reference.specs.PairEdits.{pair_in};
ghost use Rattle.uriparse_reference.specs.Reading.{fault};
ghost use Rattle.uriparse_reference.specs.Reference.{print};
ghost use Rattle.uriparse_reference.specs.Target.{ResolvesTo};
ghost use Rattle.uriparse_reference.specs.TextEdits.{with_fragment, with_query};
ghost use Rattle.uriparse_reference.specs.TextKey.{keyed};
ghost use Rattle.uriparse_reference.specs.View.{printed, view_key};
ghost use Rattle.uriparse_reference.specs.declared.uri_reference.edit.Edit.TheVariants as edits;
ghost use Rattle.uriparse_reference.specs.declared.uri_reference.error.TargetError.TheVariants as targets;

use std::alloc::{AllocError, Global};
use uriparse_reference::uri_reference::{
    ReferenceKey, ReferenceText, ReferenceView, RejectedText, TargetError, URIReference,
    URIReferenceError,
};
use uriparse_text::fragment::Fragment;
use uriparse_text::query::Query;

/// Reads a string that it takes over. A rejected one comes back with its fault.
pub fn read_string(text: String) -> Result<ReferenceText, RejectedText<URIReferenceError>>
    ensures { MatchResult result (λ v. v ≡ viewed_in (string_bytes text)) (λ r. (string_bytes r.text ≡ string_bytes text) × (fault (string_bytes text) ≡ Some r.error)) }
{
    ReferenceText::try_from_string(text)
}

/// A copy.
pub fn try_clone(alloc: Global, text: &ReferenceText) -> Result<ReferenceText, AllocError>
    ensures { IfOk result (λ v. v ≡ text.now) }
{
    text.try_clone(alloc)
}

/// The string that a reference prints.
pub fn to_text(alloc: Global, reference: &URIReference<'_>) -> Result<ReferenceText, AllocError>
    ensures { IfOk result (λ v. v.text ≡ print reference.now) }
{
    reference.to_text(alloc)
}

/// The target, if the base has a scheme.
pub fn resolve_to_text(
    base: &ReferenceView<'_>,
    alloc: Global,
    reference: &ReferenceView<'_>,
) -> Result<ReferenceText, TargetError>
    ensures base { is_some base.now.parts.scheme ≡ false → result ≡ Err targets.RelativeBase }
    ensures target { is_some base.now.parts.scheme ≡ true → ResolvesTo (λ t v. v ≡ printed t) base.now.parts reference.now.parts result }
{
    base.resolve_to_text(alloc, reference)
}

/// Sets the query, and keeps the rest of the string.
pub fn set_query(
    text: &mut ReferenceText,
    alloc: Global,
    query: Option<Query<'_>>,
) -> Result<(), AllocError>
    ensures { MatchResult result (λ _. text.new.text ≡ with_query text.old.text query.entry) (λ _. text.new ≡ text.old) }
{
    text.set_query(alloc, query)
}

/// The value of a pair of the query that was viewed.
pub fn pair<'t>(view: &ReferenceView<'t>, name: &[u8]) -> Option<Query<'t>>
    ensures { result ≡ pair_in name.now view.now.parts }
{
    view.pair(name)
}

/// Sets the fragment, and keeps the rest of the string.
pub fn set_fragment(
    text: &mut ReferenceText,
    alloc: Global,
    fragment: Option<Fragment<'_>>,
) -> Result<(), AllocError>
    ensures { MatchResult result (λ _. text.new.text ≡ with_fragment text.old.text fragment.entry) (λ _. text.new ≡ text.old) }
{
    text.set_fragment(alloc, fragment)
}

/// A copy of the string that was viewed, without its fragment.
pub fn without_fragment(
    alloc: Global,
    view: &ReferenceView<'_>,
) -> Result<ReferenceText, AllocError>
    ensures text { IfOk result (λ v. v.text ≡ with_fragment view.now.text None) }
    ensures parts { IfOk result (λ v. edited view.now.parts (edits.Fragment None) ≡ Ok v.parts) }
{
    Ok(view.to_text(alloc)?.without_fragment())
}

/// Whether two keys of a set are equal.
pub fn same_key(left: &ReferenceKey<'_>, right: &ReferenceKey<'_>) -> bool
    ensures { result ≡ bytes_eq (view_key (keyed left.now)) (view_key (keyed right.now)) }
{
    left == right
}
