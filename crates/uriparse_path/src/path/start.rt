//! What a path's text begins with: its root, its slashes and its first segment. RFC 3986, section
//! 3.3.
ghost use Rattle.std.specs.Prelude.{◌≡◌, ◌≤◌, ◌⊎◌, length};
ghost use Rattle.uriparse_text.specs.Bytes.{colon};
ghost use Rattle.uriparse_text.specs.Cuts.{lacks, up_to};
ghost use Rattle.uriparse_path.specs.Path as spec;

use super::Path;
use super::rules::{has_first_colon, starts_with_empty_segment};
use super::segments::starts_with_two_slashes;

/// An upper bound of the length of the path's text in bytes, or `usize::MAX`.
pub fn most_path_bytes(path: &Path<'_>) -> usize
    ensures { length (spec.text path.now) ≤ result ⊎ result ≡ usize.MAX }
{
    let mut len = 0usize;
    for segment in path.segments.as_slice() {
        len = len.saturating_add(1).saturating_add(segment.as_str().len());
    }
    len
}

/// Whether the path's text begins with two slashes.
pub fn has_two_slashes(path: &Path<'_>) -> bool
    ensures answer { result ≡ spec.has_two_slashes (spec.text path.now) }
    ensures listed { spec.IsListed path.now.segments }
{
    starts_with_two_slashes(path.is_absolute(), path.segments())
}

/// Whether no colon precedes the first slash of the path's text.
pub fn lacks_colon_segment(path: &Path<'_>) -> bool
    ensures { result ≡ lacks colon (up_to spec.is_slash (spec.text path.now)) }
{
    path.is_rooted() || !has_first_colon(path.segments())
}

/// Replaces the path by the one that its text spells. Changes only a relative path whose first
/// segment is empty and has others after it. Does not allocate.
pub fn respell(path: &mut Path<'_>)
    ensures { path.new ≡ spec.spelled (spec.text path.old) }
{
    if !starts_with_empty_segment(path.segments()) {
        return;
    }
    if path.is_absolute() {
        return;
    }
    path.segments.remove_first();
    path.counts_known = 0;
    path.absolute = 1;
}

/// The same path, made absolute.
pub fn into_absolute(path: Path<'_>) -> Path<'_>
    ensures { result ≡ spec.made_absolute path.entry }
{
    Path {
        segments: path.segments,
        absolute: 1,
        counts_known: path.counts_known,
        counts: path.counts,
    }
}
