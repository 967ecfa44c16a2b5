//! Promises of paths. In `must-fail` stand wrong bodies, as in `test_wrong_texts`.
#![tactic(auto)]

ghost use Rattle.std.specs.Prelude.{◌≡◌, ◌↔◌, IsTrue, IfOk, Ok, OnOk, true, false, bytes_eq};
ghost use Rattle.uriparse_text.specs.Canonical.{canonical};
ghost use Rattle.uriparse_text.specs.Readings.{SettlesUnless};
ghost use Rattle.uriparse_text.specs.declared.segment.error.PathError.TheVariants as errors;
ghost use Rattle.uriparse_path.specs.Path.{starts_with_empty_segment, text};
ghost use Rattle.uriparse_path.specs.Dots.{without_dots};
ghost use Rattle.uriparse_path.specs.Edits.{cleared, pushing, with_dot_prefix_unless};
ghost use Rattle.uriparse_path.specs.Normal.{pnormal};

use std::alloc::{AllocError, Global};
use uriparse_path::internal::{PathContext, normalize_path};
use uriparse_path::path::{Path, PathError, Segment};

/// Whether two paths are equal, so that their texts have one canonical spelling.
pub fn same_path(left: &Path<'_>, right: &Path<'_>) -> bool
    ensures { result ≡ bytes_eq (canonical (text left.now)) (canonical (text right.now)) }
{
    left == right
}

/// Removes the dot segments of a path.
pub fn remove_dot_segments(path: &mut Path<'_>)
    ensures { path.new ≡ without_dots path.old }
{
    path.remove_dot_segments();
}

/// Brings a path into its normal form.
pub fn normalize(alloc: Global, path: &mut Path<'_>, as_reference: bool) -> Result<(), AllocError>
    ensures { OnOk result (path.new ≡ pnormal path.old as_reference) }
{
    path.normalize(alloc, as_reference)
}

/// Brings a path into its normal form. Without an authority, a path that would start with `//` gets
/// a leading `/.`.
pub fn normalize_shielded(
    alloc: Global,
    path: &mut Path<'_>,
    has_authority: bool,
) -> Result<(), AllocError>
    requires { has_authority ≡ false → starts_with_empty_segment path.old.segments ≡ false }
    ensures { OnOk result (path.new ≡ with_dot_prefix_unless has_authority (pnormal path.old false)) }
{
    let context = PathContext {
        has_scheme: true,
        has_authority,
    };
    normalize_path(path, alloc, context)
}

/// Whether a path has the text of its normal form.
pub fn is_normalized(path: &Path<'_>, as_reference: bool) -> bool
    ensures { IsTrue result ↔ (text (pnormal path.now as_reference) ≡ text path.now) }
{
    path.is_normalized(as_reference)
}

/// Puts a segment at the end, and returns whether the path has the text of its normal form then.
pub fn push_and_test<'p>(
    alloc: Global,
    path: &mut Path<'p>,
    segment: Segment<'p>,
) -> Result<bool, PathError>
    ensures { IfOk result (λ r. IsTrue r ↔ (text (pnormal path.new false) ≡ text path.new)) }
{
    path.push(alloc, segment)?;
    Ok(path.is_normalized(false))
}

/// Puts a segment at the end.
pub fn push<'p>(alloc: Global, path: &mut Path<'p>, last: Segment<'p>) -> Result<(), PathError>
    ensures { SettlesUnless errors.OutOfMemory path.old path.new result (pushing path.old (Ok last.entry)) }
{
    path.push(alloc, last)
}

/// Replaces all segments by an empty one.
pub fn clear(path: &mut Path<'_>)
    ensures { path.new ≡ cleared path.old }
{
    path.clear();
}

/// Makes a path absolute or relative.
pub fn set_absolute(path: &mut Path<'_>, absolute: bool)
    ensures { path.new ≡ record path.old { absolute = absolute } }
{
    path.set_absolute(absolute);
}
