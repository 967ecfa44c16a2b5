//! The reference that leads from a base to a target: the reverse of RFC 3986, section 5.2.
ghost use Rattle.std.specs.Prelude.{◌≡◌, ◌↔◌, ◌⊎◌, IfOk, IsOk, IsTrue, None, Some};
ghost use Rattle.uriparse_path.specs.Dots.{has_dot_segment};
ghost use Rattle.uriparse_path.specs.Path.{IsListed};
ghost use Rattle.uriparse_path.specs.Relate.{no_path};
ghost use Rattle.uriparse_reference.specs.Reference.{Valid};
ghost use Rattle.uriparse_reference.specs.Relate as spec;

use super::URIReference;
use super::same::{has_same_authority, has_same_scheme, has_same_text};
use std::alloc::{AllocError, Global};
use uriparse_path::internal::{empty_path, has_dots, has_two_slashes, is_same_path, leading_path};
use uriparse_path::path::Path;
use uriparse_text::internal::borrowed_text;
use uriparse_text::query::Query;

/// The target, without its scheme if it has an authority. It borrows the target's texts.
fn as_network_path<'r>(
    alloc: Global,
    target: &'r URIReference<'_>,
) -> Result<URIReference<'r>, AllocError>
    ensures { IfOk result (λ r. r ≡ spec.as_network_path target.now) }
{
    let mut copy = target.to_borrowed(alloc)?;
    if copy.authority.is_some() {
        copy.scheme = None;
    }
    Ok(copy)
}

/// Whether the paths are equal and have no dot segments, and the target has a query or the base has
/// none.
fn is_in_place(base: &URIReference<'_>, target: &URIReference<'_>) -> bool
    ensures { IsTrue result ↔ spec.IsInPlace base.now target.now }
{
    is_same_path(base.path(), target.path())
        && !has_dots(target.path())
        && (target.query().is_some() || base.query().is_none())
}

/// The target's query, or none if the base has the same.
fn query_left<'r>(base: &URIReference<'_>, target: &'r URIReference<'_>) -> Option<Query<'r>>
    ensures { spec.IsQueryLeft base.now target.now result }
{
    if has_same_text(base.query(), target.query()) {
        return None;
    }
    borrowed_text(target.query())
}

/// The reference that leads from a base to a target with the same path: a query, if it differs, and
/// a fragment. It borrows their texts.
fn in_place<'r>(base: &URIReference<'_>, target: &'r URIReference<'_>) -> URIReference<'r>
    ensures left { result ≡ record { scheme = None; authority = None; path = no_path; query = result.query; fragment = target.now.fragment } }
    ensures query { spec.IsQueryLeft base.now target.now result.query }
{
    URIReference {
        scheme: None,
        authority: None,
        path: empty_path(),
        query: query_left(base, target),
        fragment: borrowed_text(target.fragment.as_ref()),
    }
}

/// Whether the path is absolute, and its text does not start with `//`.
fn stands_alone(path: &Path<'_>) -> bool
    ensures { result ≡ spec.stands_alone path.now }
{
    path.is_absolute() && !has_two_slashes(path)
}

/// The path that leads from the base's path to the target's, if schemes and authorities are equal.
/// It borrows the texts of the target's path.
fn inner_path<'r>(
    alloc: Global,
    base: &Path<'_>,
    target: &'r Path<'_>,
) -> Result<Option<Path<'r>>, AllocError>
    ensures { IfOk result (λ o. o ≡ spec.inner base.now target.now) }
{
    if let Some(path) = leading_path(alloc, base, target)? {
        return Ok(Some(path));
    }
    if stands_alone(target) {
        return Ok(Some(target.to_borrowed(alloc)?));
    }
    Ok(None)
}

/// The reference of a path that leads to the target's path, with the target's query and fragment.
fn following_path<'r>(
    base: &URIReference<'_>,
    target: &'r URIReference<'_>,
    path: Path<'r>,
) -> URIReference<'r>
    requires { spec.inner base.now.path target.now.path ≡ Some path }
    ensures { result ≡ spec.following_path target.now path.entry }
{
    URIReference {
        scheme: None,
        authority: None,
        path,
        query: borrowed_text(target.query.as_ref()),
        fragment: borrowed_text(target.fragment.as_ref()),
    }
}

/// The reference that leads from a base to a target: resolved against the base, it yields what the
/// target itself yields, if that has a scheme. It borrows the target's texts. Allocates once, for
/// the list of segments, and not if no path is needed.
pub fn relativize<'r>(
    alloc: Global,
    base: &URIReference<'_>,
    target: &'r URIReference<'_>,
) -> Result<URIReference<'r>, AllocError>
    ensures exact { IfOk result (λ r. r ≡ spec.relative base.now target.now) }
    ensures valid { Valid base.now × Valid target.now }
    ensures takes_no_memory { spec.AreInOne base.now target.now → spec.IsInPlace base.now target.now → IsOk result }
{
    let base_path = base.path();
    let target_path = target.path();
    if !has_same_scheme(base.scheme(), target.scheme()) {
        return target.to_borrowed(alloc);
    }
    if !has_same_authority(base.authority(), target.authority()) {
        return as_network_path(alloc, target);
    }
    if is_in_place(base, target) {
        return Ok(in_place(base, target));
    }
    match inner_path(alloc, base_path, target_path)? {
        Some(path) => Ok(following_path(base, target, path)),
        None => as_network_path(alloc, target),
    }
}
