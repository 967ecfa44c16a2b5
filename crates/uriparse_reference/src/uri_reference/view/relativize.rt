//! The text of the reference that leads from a base to a target: the reverse of RFC 3986, section
//! 5.2. It is that of `relativize`, put together from the texts of the two.
ghost use Rattle.std.specs.Prelude.{◌≡◌, ◌↔◌, IfOk, IsTrue, None, string_bytes};
ghost use Rattle.uriparse_path.specs.Path.{PathParts, text};
ghost use Rattle.uriparse_path.specs.Relate.{no_path};
ghost use Rattle.uriparse_reference.specs.Into.{Writes};
ghost use Rattle.uriparse_reference.specs.Reference.{Parts, Valid, print};
ghost use Rattle.uriparse_reference.specs.Relate as relate;
ghost use Rattle.uriparse_reference.specs.RelativeText as spec;

use super::super::error::BufferError;
use super::super::same::{has_same_authority, has_same_scheme, has_same_text};
use super::ReferenceView;
use super::put::{PutText, make_string, write};
use super::write::{prepend_query_and_fragment, prepend_scheme_and_authority};
use std::alloc::{AllocError, Global};
use uriparse_authority::authority::Authority;
use uriparse_path::internal::has_dot_segment;
use uriparse_scheme::scheme::Scheme;
use uriparse_text::fragment::Fragment;
use uriparse_text::internal::Form;
use uriparse_text::query::Query;

mod path;

use path::{PathText, inner, prepend_path, whole_path};

/// What a reference is put together from that leads to a target. It borrows the target's texts.
#[derive(Drop)]
struct RelativeParts<'t> {
    scheme: Option<Scheme<'t>>,
    authority: Option<Authority<'t>>,
    path: PathText<'t>,
    query: Option<Query<'t>>,
    fragment: Option<Fragment<'t>>,
}

/// The target.
fn whole<'t>(target: &ReferenceView<'t>) -> RelativeParts<'t>
    ensures { spec.IsOf result target.now.parts }
{
    RelativeParts {
        scheme: target.scheme(),
        authority: target.authority(),
        path: whole_path(target.path_bytes()),
        query: target.query(),
        fragment: target.fragment(),
    }
}

/// The target, without its scheme if it has an authority.
fn as_network_path<'t>(target: &ReferenceView<'t>) -> RelativeParts<'t>
    ensures { spec.IsOf result (relate.as_network_path target.now.parts) }
{
    let mut relative = whole(target);
    if relative.authority.is_some() {
        relative.scheme = None;
    }
    relative
}

/// Whether the paths are the same, segment for segment, with the same spelling.
fn is_same_path(base: &ReferenceView<'_>, target: &ReferenceView<'_>) -> bool
    ensures { IsTrue result ↔ (base.now.parts.path ≡ target.now.parts.path) }
{
    base.path_bytes() == target.path_bytes()
}

/// Whether the paths are equal and have no dot segments, and the target has a query or the base has
/// none.
fn is_in_place(base: &ReferenceView<'_>, target: &ReferenceView<'_>) -> bool
    ensures { IsTrue result ↔ relate.IsInPlace base.now.parts target.now.parts }
{
    is_same_path(base, target)
        && !has_dot_segment(target.segments())
        && (target.query().is_some() || base.query().is_none())
}

/// The target's query, or none if the base has the same.
fn query_left<'t>(base: &ReferenceView<'_>, target: &ReferenceView<'t>) -> Option<Query<'t>>
    ensures { relate.IsQueryLeft base.now.parts target.now.parts result }
{
    let query = target.query();
    if has_same_text(base.query().as_ref(), query.as_ref()) {
        return None;
    }
    query
}

/// What leads to a target with the same path: a query, if it differs, and a fragment.
fn in_place<'t>(base: &ReferenceView<'_>, target: &ReferenceView<'t>) -> RelativeParts<'t>
    ensures left { spec.IsOf result (record { scheme = None; authority = None; path = no_path; query = result.query; fragment = target.now.parts.fragment }) }
    ensures query { relate.IsQueryLeft base.now.parts target.now.parts result.query }
{
    RelativeParts {
        scheme: None,
        authority: None,
        path: whole_path(b""),
        query: query_left(base, target),
        fragment: target.fragment(),
    }
}

/// This path, with the target's query and fragment.
fn following<'t>(path: PathText<'t>, target: &ReferenceView<'t>) -> RelativeParts<'t>
    ensures { (p : PathParts) → spec.path_text path.entry ≡ text p → spec.IsOf result (relate.following_path target.now.parts p) }
{
    RelativeParts {
        scheme: None,
        authority: None,
        path,
        query: target.query(),
        fragment: target.fragment(),
    }
}

/// The reference that leads from a base to a target.
fn relative<'t>(base: &ReferenceView<'_>, target: &ReferenceView<'t>) -> RelativeParts<'t>
    ensures of { spec.IsOf result (relate.relative base.now.parts target.now.parts) }
    ensures valid { Valid (relate.relative base.now.parts target.now.parts) }
{
    let (base_path, target_path) = (base.path_bytes(), target.path_bytes());
    if !has_same_scheme(base.scheme().as_ref(), target.scheme().as_ref()) {
        return whole(target);
    }
    if !has_same_authority(base.authority().as_ref(), target.authority().as_ref()) {
        return as_network_path(target);
    }
    if is_in_place(base, target) {
        return in_place(base, target);
    }
    match inner(base_path, target_path) {
        Some(path) => following(path, target),
        None => as_network_path(target),
    }
}

impl<'t> PutText for RelativeParts<'t> {
    ghost can_be_put = { λ l. (r : Parts) × spec.IsOf l r × Valid r };

    ghost text = { λ l. spec.text_of l };

    fn put(&self, out: &mut [u8]) -> usize {
        let len = prepend_query_and_fragment(Form::AsIs, &self.query, &self.fragment, out);
        let len = prepend_path(&self.path, out, len);
        prepend_scheme_and_authority(Form::AsIs, &self.scheme, &self.authority, out, len)
    }
}

/// Writes the text of the reference that leads from a base to a target to the start of the buffer
/// and returns its length in bytes; what follows it in the buffer is unchanged. Does not allocate.
pub fn relativize_into(
    base: &ReferenceView<'_>,
    target: &ReferenceView<'_>,
    out: &mut [u8],
) -> Result<usize, BufferError>
    ensures { Writes (print (relate.relative base.now.parts target.now.parts)) result out.old out.new }
{
    write(&relative(base, target), target.text.len(), out)
}

/// The text that [`relativize_into`] writes. Allocates once, exactly its length.
pub fn relativize_to_string(
    alloc: Global,
    base: &ReferenceView<'_>,
    target: &ReferenceView<'_>,
) -> Result<String, AllocError>
    ensures { IfOk result (λ s. string_bytes s ≡ print (relate.relative base.now.parts target.now.parts)) }
{
    make_string(alloc, &relative(base, target))
}
