//! Resolving a reference against a base: RFC 3986, section 5.2.
ghost use Rattle.std.specs.Prelude.{◌≡◌, Err, IfOk, IsOk, IsSome, MatchOption, MatchResult, Ok, Some, false, if◌then◌else◌, length};
ghost use Rattle.uriparse_text.specs.Readings.{IsUnless};
ghost use Rattle.uriparse_path.specs.Dots.{without_dots};
ghost use Rattle.uriparse_path.specs.Edits.{with_dot_prefix};
ghost use Rattle.uriparse_path.specs.Merge.{merging};
ghost use Rattle.uriparse_path.specs.Path.{starts_with_empty_segment, text};
ghost use Rattle.uriparse_text.specs.declared.segment.error.PathError.TheVariants as paths;
ghost use Rattle.uriparse_reference.specs.declared.uri_reference.error.URIReferenceError.TheVariants as errors;
ghost use Rattle.uriparse_reference.specs.Reference.{Valid};
ghost use Rattle.uriparse_reference.specs.Target.{is_empty, target};

use super::URIReference;
use super::copy::{borrowed_authority, borrowed_scheme};
use super::error::URIReferenceError;
use std::alloc::Global;
use uriparse_path::internal::{merged_path, remove_dots};
use uriparse_path::path::{Path, PathError};
use uriparse_text::internal::borrowed_text;

/// Whether the path's text is empty.
fn is_empty(path: &Path<'_>) -> bool
    ensures { result ≡ is_empty (text path.now) }
{
    match path.segments() {
        [only] => path.is_relative() && only.as_bytes().is_empty(),
        _ => false,
    }
}

/// Copies the path, borrowing the texts of its segments, and removes the dot segments as section
/// 5.2.4 does.
fn path_without_dots<'r>(
    alloc: Global,
    path: &'r Path<'_>,
    has_authority: bool,
) -> Result<Path<'r>, PathError>
    requires { has_authority ≡ false → starts_with_empty_segment path.now.segments ≡ false }
    ensures answer { MatchResult result (λ p. p ≡ (if has_authority then without_dots path.now else with_dot_prefix (without_dots path.now))) (λ e. e ≡ paths.OutOfMemory) }
    ensures takes_no_memory { length path.now.segments ≡ 1 → IsOk result }
{
    let mut copy = path.to_borrowed(alloc)?;
    remove_dots(&mut copy, has_authority);
    Ok(copy)
}

/// Merges the paths as section 5.2.3 does, and removes the dot segments.
fn merged_without_dots<'r>(
    alloc: Global,
    base: &'r Path<'_>,
    path: &'r Path<'_>,
    has_authority: bool,
) -> Result<Path<'r>, PathError>
    requires { has_authority ≡ false → IfOk (merging base.now path.now) (λ m. starts_with_empty_segment m.segments ≡ false) }
    ensures answer { MatchResult (merging base.now path.now) (λ m. IsUnless paths.OutOfMemory result (Ok (if has_authority then without_dots m else with_dot_prefix (without_dots m)))) (λ e. result ≡ Err e) }
    ensures takes_no_memory { length base.now.segments ≡ 1 → length path.now.segments ≡ 1 → IsOk result }
{
    let mut merged = merged_path(alloc, base, path)?;
    remove_dots(&mut merged, has_authority);
    Ok(merged)
}

/// Copies the path, borrowing the texts of its segments.
fn same_path<'r>(alloc: Global, path: &'r Path<'_>) -> Result<Path<'r>, PathError>
    ensures answer { MatchResult result (λ p. p ≡ path.now) (λ e. e ≡ paths.OutOfMemory) }
    ensures takes_no_memory { length path.now.segments ≡ 1 → IsOk result }
{
    Ok(path.to_borrowed(alloc)?)
}

/// Resolves a reference against a base with a scheme. The target borrows the texts of both. Nothing
/// is normalized, but dot segments are removed as section 5.2.2 says. Without an authority, a path
/// that would start with `//` gets a leading `/.`.
///
/// Returns [`Path`](URIReferenceError::Path) with
/// [`ExceededMaximumLength`](PathError::ExceededMaximumLength) if merged paths have more segments
/// than a path may have, even if memory has run out. Allocates once, for the list of segments, and not
/// if both paths have one segment; if memory runs out, returns [`Path`](URIReferenceError::Path) with
/// [`OutOfMemory`](PathError::OutOfMemory).
pub fn resolve<'r>(
    alloc: Global,
    base: &'r URIReference<'_>,
    reference: &'r URIReference<'_>,
) -> Result<URIReference<'r>, URIReferenceError>
    requires { IsSome base.now.scheme }
    ensures scheme { IfOk result (λ t. IsSome t.scheme) }
    ensures valid { Valid base.now × Valid reference.now }
    ensures found { IfOk result (λ t. target base.now reference.now ≡ Some t) }
    ensures answer { MatchOption (target base.now reference.now) (result ≡ Err (errors.Path paths.ExceededMaximumLength)) (λ t. IsUnless (errors.Path paths.OutOfMemory) result (Ok t)) }
    ensures takes_no_memory { length base.now.path.segments ≡ 1 → length reference.now.path.segments ≡ 1 → IsOk result }
{
    let own = reference.path();
    let inherited = base.path();
    let query = reference.query();
    let (scheme, authority, path, query) = if reference.scheme().is_some() {
        let authority = reference.authority();
        let path = path_without_dots(alloc, own, authority.is_some());
        (reference.scheme(), authority, path, query)
    } else if reference.authority().is_some() {
        let path = path_without_dots(alloc, own, true);
        (base.scheme(), reference.authority(), path, query)
    } else if is_empty(own) {
        let path = same_path(alloc, inherited);
        let query = query.or(base.query());
        (base.scheme(), base.authority(), path, query)
    } else if own.is_absolute() {
        let path = path_without_dots(alloc, own, base.authority().is_some());
        (base.scheme(), base.authority(), path, query)
    } else {
        let path = merged_without_dots(alloc, inherited, own, base.authority().is_some());
        (base.scheme(), base.authority(), path, query)
    };
    Ok(URIReference {
        path: path?,
        scheme: borrowed_scheme(scheme),
        authority: borrowed_authority(authority),
        query: borrowed_text(query),
        fragment: borrowed_text(reference.fragment()),
    })
}
