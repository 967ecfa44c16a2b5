//! Promises of `URIReference`, its views and owned strings, and schemes. `must-fail` has wrong bodies,
//! as in `test_wrong_texts`.
#![tactic(auto)]

ghost use Rattle.std.specs.Cmp.Lexicographic.{slice_cmp};
ghost use Rattle.std.specs.Fmt.{DisplaysOnOk};
ghost use Rattle.std.specs.Ordering.{nat_cmp};
ghost use Rattle.std.specs.Prelude.{◌≡◌, ◌↔◌, Err, IfOk, IsTrue, MatchResult, None, Ok, OnErr, OnOk, Some, bytes_eq, false, is_some, length, string_bytes, true};
ghost use Rattle.uriparse_text.specs.Readings.{IsUnless, Settles, SettlesUnless};
ghost use Rattle.uriparse_text.specs.declared.segment.error.PathError.TheVariants.{OutOfMemory};
ghost use Rattle.uriparse_text.specs.Starts as texts;
ghost use Rattle.uriparse_scheme.specs.Scheme as schemes;
ghost use Rattle.uriparse_path.specs.Edits.{popped};
ghost use Rattle.uriparse_reference.specs.Edits.{Run, edited, of_parts, segment_pushed};
ghost use Rattle.uriparse_reference.specs.declared.uri_reference.edit.Edit.TheVariants as edits;
ghost use Rattle.uriparse_reference.specs.declared.uri_reference.error.URIReferenceError.{URIReferenceError};
ghost use Rattle.uriparse_reference.specs.declared.uri_reference.error.URIReferenceError.TheVariants as errors;
ghost use Rattle.uriparse_reference.specs.declared.uri_reference.error.TargetError.TheVariants as targets;
ghost use Rattle.uriparse_reference.specs.Escaped.{escaped};
ghost use Rattle.uriparse_reference.specs.Into.{Writes, WritesTarget};
ghost use Rattle.uriparse_reference.specs.Key.{key};
ghost use Rattle.uriparse_reference.specs.Masked.{masked};
ghost use Rattle.uriparse_reference.specs.Normal.{normal};
ghost use Rattle.uriparse_reference.specs.Offset.{first_fault};
ghost use Rattle.uriparse_reference.specs.Order.{reference_cmp};
ghost use Rattle.uriparse_reference.specs.Ports as ports;
ghost use Rattle.uriparse_reference.specs.Reading.{fault};
ghost use Rattle.uriparse_reference.specs.Reference.{Parts, Spells, print};
ghost use Rattle.uriparse_reference.specs.Target.{ResolvesTo};
ghost use Rattle.uriparse_reference.specs.View.{viewed};

use std::alloc::{AllocError, Global};
use std::cmp::Ordering;
use std::fmt;
use uriparse_authority::authority::Authority;
use uriparse_path::path::{Path, Segment};
use uriparse_reference::uri_reference::{
    BufferError, Edit, ReferenceView, TargetError, URIReference, URIReferenceError, escape_invalid,
    escape_invalid_into,
};
use uriparse_scheme::scheme::{Scheme, SchemeError, SchemeStatus};
use uriparse_text::fragment::Fragment;
use uriparse_text::internal::TooSmall;
use uriparse_text::query::Query;

pub mod builders;
pub mod changes;
pub mod owned;
pub mod pairs;

/// Reads a scheme, which is looked up in the table of registered ones.
pub fn read_scheme(bytes: &[u8]) -> Result<Scheme<'_>, SchemeError>
    ensures { result ≡ schemes.reading bytes.now }
{
    Scheme::try_from_bytes(bytes)
}

/// Reads a reference: what is read is what the grammar spells, what it spells is read unless memory
/// runs out, and a fault is returned whatever memory there is.
pub fn read(alloc: Global, bytes: &[u8]) -> Result<URIReference<'_>, URIReferenceError>
    ensures found { IfOk result (λ r. Spells bytes.now r) }
    ensures only { (p : Parts) → Spells bytes.now p → IsUnless (errors.Path OutOfMemory) result (Ok p) }
    ensures fault { (e : URIReferenceError) → fault bytes.now ≡ Some e → result ≡ Err e }
{
    URIReference::try_from_bytes(alloc, bytes)
}

/// The text of a reference, made of any text.
pub fn escape(alloc: Global, text: &[u8]) -> Result<String, AllocError>
    ensures text { IfOk result (λ s. string_bytes s ≡ escaped text.now) }
    ensures kept { fault text.now ≡ None → IfOk result (λ s. string_bytes s ≡ text.now) }
{
    escape_invalid(alloc, text)
}

/// Sets a reference's authority, or removes it.
pub fn set_authority<'r>(
    reference: &mut URIReference<'r>,
    authority: Option<Authority<'r>>,
) -> Result<(), URIReferenceError>
    ensures { Settles reference.old reference.new result (edited reference.old (edits.Authority authority.entry)) }
{
    reference.set_authority(authority)
}

/// Where a text is wrong, and why.
pub fn offset_and_fault(bytes: &[u8]) -> Option<(usize, URIReferenceError)>
    ensures { result ≡ first_fault bytes.now }
{
    URIReference::first_fault(bytes)
}

/// Makes the edits up to the first that is rejected, and returns its index.
pub fn apply_all<'r>(
    alloc: Global,
    reference: &mut URIReference<'r>,
    edits: Vec<Edit<'r>>,
) -> Result<(), (usize, URIReferenceError)>
    ensures { MatchResult result (λ _. Run reference.old edits.entry.items (length edits.entry.items) reference.new None) (λ e. Run reference.old edits.entry.items e.0 reference.new (Some e.1)) }
{
    reference.apply_all(alloc, edits)
}

/// Appends a segment to a reference's path, or leaves the reference as it was.
pub fn push_segment<'r>(
    alloc: Global,
    reference: &mut URIReference<'r>,
    segment: Segment<'r>,
) -> Result<(), URIReferenceError>
    ensures { SettlesUnless (errors.Path OutOfMemory) reference.old reference.new result (segment_pushed reference.old segment.entry) }
{
    reference.push_segment(alloc, segment)
}

/// Removes the last segment of a reference's path.
pub fn pop_segment(reference: &mut URIReference<'_>)
    ensures { reference.new ≡ record reference.old { path = popped reference.old.path } }
{
    reference.pop_segment();
}

/// Brings a reference into its normal form, or leaves it as it was.
pub fn normalize(alloc: Global, reference: &mut URIReference<'_>) -> Result<(), AllocError>
    ensures ok { OnOk result (reference.new ≡ normal reference.old) }
    ensures err { OnErr result (reference.new ≡ reference.old) }
{
    reference.normalize(alloc)
}

/// Sets a reference's path, and returns whether the reference then prints as its normal form.
pub fn set_path_and_test<'r>(
    reference: &mut URIReference<'r>,
    path: Path<'r>,
) -> Result<bool, URIReferenceError>
    ensures { IfOk result (λ r. IsTrue r ↔ (print (normal reference.new) ≡ print reference.new)) }
{
    reference.set_path(path)?;
    Ok(reference.is_normalized())
}

/// Views a reference in its text: exactly what the grammar spells, or the fault.
pub fn view(bytes: &[u8]) -> Result<ReferenceView<'_>, URIReferenceError>
    ensures { result ≡ viewed bytes.now }
{
    ReferenceView::try_from_bytes(bytes)
}

/// Whether two views are equal.
pub fn are_equal_views(left: &ReferenceView<'_>, right: &ReferenceView<'_>) -> bool
    ensures { result ≡ bytes_eq (key left.now.parts) (key right.now.parts) }
{
    left == right
}

/// Writes the text of the normal form to a buffer.
pub fn normalize_into(view: &ReferenceView<'_>, out: &mut [u8]) -> Result<usize, BufferError>
    ensures { Writes (print (normal view.now.parts)) result out.old out.new }
{
    view.normalize_into(out)
}

/// Writes the text of the target to a buffer, if the base has a scheme.
pub fn resolve_into(
    base: &ReferenceView<'_>,
    reference: &ReferenceView<'_>,
    out: &mut [u8],
) -> Result<usize, BufferError>
    ensures { is_some base.now.parts.scheme ≡ true → WritesTarget base.now.parts reference.now.parts result out.old out.new }
{
    base.resolve_into(reference, out)
}

/// The text of the target, if the base has a scheme.
pub fn resolve_to_string(
    base: &ReferenceView<'_>,
    alloc: Global,
    reference: &ReferenceView<'_>,
) -> Result<String, TargetError>
    ensures base { is_some base.now.parts.scheme ≡ false → result ≡ Err targets.RelativeBase }
    ensures target { is_some base.now.parts.scheme ≡ true → ResolvesTo (λ t s. string_bytes s ≡ print t) base.now.parts reference.now.parts result }
{
    base.resolve_to_string(alloc, reference)
}

/// The status of a scheme.
pub fn status(scheme: &Scheme<'_>) -> SchemeStatus
    ensures { result ≡ schemes.status scheme.now }
{
    scheme.status()
}

/// Compares two schemes by their canonical spellings.
pub fn compare_schemes(left: &Scheme<'_>, right: &Scheme<'_>) -> Ordering
    ensures { result ≡ slice_cmp nat_cmp (schemes.canonical_text left.now) (schemes.canonical_text right.now) }
{
    left.cmp(right)
}

/// The reference of these components.
pub fn from_parts<'r>(
    scheme: Option<Scheme<'r>>,
    authority: Option<Authority<'r>>,
    path: Path<'r>,
    query: Option<Query<'r>>,
    fragment: Option<Fragment<'r>>,
) -> Result<URIReference<'r>, URIReferenceError>
    ensures { result ≡ of_parts (record { scheme = scheme.entry; authority = authority.entry; path = path.entry; query = query.entry; fragment = fragment.entry }) }
{
    URIReference::from_parts(scheme, authority, path, query, fragment)
}

/// The components of a reference.
pub fn into_parts(
    reference: URIReference<'_>,
) -> (
    Option<Scheme<'_>>,
    Option<Authority<'_>>,
    Path<'_>,
    Option<Query<'_>>,
    Option<Fragment<'_>>,
)
    ensures scheme { result.0 ≡ reference.entry.scheme }
    ensures authority { result.1 ≡ reference.entry.authority }
    ensures path { result.2 ≡ reference.entry.path }
    ensures query { result.3 ≡ reference.entry.query }
    ensures fragment { result.4 ≡ reference.entry.fragment }
{
    reference.into_parts()
}

/// A copy of a reference that owns its texts.
pub fn to_owned(
    alloc: Global,
    reference: &URIReference<'_>,
) -> Result<URIReference<'static>, AllocError>
    ensures { IfOk result (λ r. r ≡ reference.now) }
{
    reference.to_owned(alloc)
}

/// Sets a reference's query to what the closure returns for it.
pub fn map_query<'r, F>(
    reference: URIReference<'r>,
    make: F,
) -> Result<URIReference<'r>, URIReferenceError>
where
    F: FnOnce(Option<Query<'r>>) -> Option<Query<'r>>,
    requires { F.pre make reference.query }
    ensures { (query : _) × F.post make reference.entry.query query × (edited reference.entry (edits.Query query) ≡ result) }
{
    reference.map_query(make)
}

/// The port, or the scheme's default port.
pub fn port_or_default(reference: &URIReference<'_>) -> Option<u16>
    ensures { result ≡ ports.port_or_default reference.now }
{
    reference.port_or_default()
}

/// Removes the scheme's default port.
pub fn normalize_port(reference: &mut URIReference<'_>)
    ensures { reference.new ≡ ports.without_default_port reference.old }
{
    reference.normalize_port();
}

/// Writes a reference with its password hidden.
pub fn write_masked<W: fmt::Write>(
    reference: &URIReference<'_>,
    f: &mut fmt::Formatter<W>,
) -> fmt::Result
    ensures { DisplaysOnOk W.write_str_gives f.old result (Some (print (masked reference.now))) f.new }
{
    fmt::Display::fmt(&reference.without_password(), f)
}

/// Writes the text of a reference, made of any text, to a buffer.
pub fn escape_into(text: &[u8], out: &mut [u8]) -> Result<usize, TooSmall>
    ensures { texts.Writes (escaped text.now) result out.old out.new }
{
    escape_invalid_into(text, out)
}

/// Whether a reference is equal to the one that a view builds.
pub fn eq_view(reference: &URIReference<'_>, view: &ReferenceView<'_>) -> bool
    ensures { result ≡ bytes_eq (key reference.now) (key view.now.parts) }
{
    reference.eq_view(view)
}

/// Compares two views, component by component.
pub fn compare_views(left: &ReferenceView<'_>, right: &ReferenceView<'_>) -> Ordering
    ensures { result ≡ reference_cmp left.now.parts right.now.parts }
{
    Ord::cmp(left, right)
}

/// Whether the text that was viewed is its normal form.
pub fn is_normalized_text(view: &ReferenceView<'_>) -> bool
    ensures { IsTrue result ↔ (print (normal view.now.parts) ≡ view.now.text) }
{
    view.is_normalized_text()
}
