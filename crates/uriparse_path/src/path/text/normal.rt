//! Whether the text of a path is its normal form's, without a list of its segments: RFC
//! 3986, sections 4.2 and 6.2.2.
ghost use Rattle.std.specs.Prelude.{◌≡◌, false, not, true};
ghost use Rattle.std.specs.List.{list_all, slice_split};
ghost use Rattle.uriparse_text.specs.Segment.{is_segment};
ghost use Rattle.uriparse_path.specs.Path.{IsPath, is_rooted, is_slash, pieces, spelled};
ghost use Rattle.uriparse_path.specs.Dots.{has_dot_segment};
ghost use Rattle.uriparse_path.specs.Normal as spec;

use super::last::last_dots;
use super::{Segments, segments_of};
use crate::path::normal::PathContext;
use crate::path::read::split_root;
use crate::path::rules::{
    SegmentSequence, begins_with_double_dots, has_needed_leading_dot, is_dot_prefixed,
};
use uriparse_text::internal::{Case, is_canonical};

/// Whether no segment of a text is a dot segment.
fn lacks_dots(text: &[u8]) -> bool
    requires { list_all is_segment (slice_split is_slash text.now) ≡ true }
    ensures { result ≡ not (has_dot_segment (slice_split is_slash text.now)) }
{
    last_dots(text).is_none()
}

/// Whether each segment of a text is canonical. Tests the text as a whole, by runs: its canonical
/// spelling is its segments'.
fn has_canonical_segments(text: &[u8]) -> bool
    requires { list_all is_segment (slice_split is_slash text.now) ≡ true }
    ensures { result ≡ list_all spec.is_canonical (slice_split is_slash text.now) }
{
    is_canonical(Case::Kept, text)
}

/// Whether the segments of a text are in normal form, for a path that stays relative or for another.
/// Most texts have no dot segment. Only those with one are walked segment by segment.
fn is_normal(stays_relative: bool, text: &[u8]) -> bool
    requires { IsPath text.now }
    ensures { result ≡ spec.are_normal stays_relative (pieces text.now) }
{
    let (_, rest) = split_root(text);
    if !has_canonical_segments(rest) {
        return false;
    }
    if lacks_dots(rest) {
        return true;
    }
    let segments = Segments { rest: Some(rest) };
    stays_relative
        && (begins_with_double_dots(segments.again()) || has_needed_leading_dot(segments))
}

/// Whether the text spells an absolute path that is normal except for a leading `.`, which is
/// needed without an authority.
fn is_text_dot_prefixed(text: &[u8]) -> bool
    requires { IsPath text.now }
    ensures { result ≡ spec.is_dot_prefixed (is_rooted text.now) (pieces text.now) }
{
    let (rooted, _) = split_root(text);
    is_dot_prefixed(rooted, segments_of(text))
}

/// Whether the text of a path is its normal form's at this place in a reference. Does not
/// allocate.
pub fn is_normal_path_text(text: &[u8], context: PathContext) -> bool
    requires { IsPath text.now }
    ensures { result ≡ spec.is_normal_at context (spelled text.now) }
{
    let (rooted, _) = split_root(text);
    is_normal(!context.has_scheme && !rooted, text)
        || (!context.has_authority && is_text_dot_prefixed(text))
}
