//! Lists of segments: what dot removal, normal forms, merging and edits share.
ghost use Rattle.std.specs.Prelude.{◌≡◌, ◌<◌, ◌≤◌, ◌∷◌, ◌++◌, ◌&&◌, ◌||◌, [], true, if◌then◌else◌, OnOk, length, take, drop};
ghost use Rattle.uriparse_text.specs.Bytes.{dot};
ghost use Rattle.uriparse_path.specs.Path as path;
ghost use Rattle.uriparse_path.specs.Dots as dots;
ghost use Rattle.uriparse_path.specs.Edits as edits;
ghost use Rattle.uriparse_path.specs.Relative as relative;

use super::Segment;
use super::list::SegmentList;
use super::rules::starts_with_empty_segment;
use super::segment::single_dot;
use std::alloc::AllocError;

/// Whether the text of the path with these segments begins with two slashes.
pub(super) fn starts_with_two_slashes(absolute: bool, segments: &[Segment<'_>]) -> bool
    ensures { result ≡ (path.starts_with_empty_segment segments.now && (absolute || path.starts_with_empty_segment (drop 1 segments.now))) }
{
    match segments {
        [_, followers @ ..] => starts_with_empty_segment(segments)
            && (absolute || starts_with_empty_segment(followers)),
        [] => false,
    }
}

/// Whether a pushed segment replaces the only one: that one is empty, and the pushed one is not.
pub(super) fn replaces_only_empty(segments: &[Segment<'_>], segment: &Segment<'_>) -> bool
    ensures empty { result ≡ true → segments.now ≡ [] ∷ [] }
    ensures with { edits.with_last segments.now segment.now ≡ (if result then segment.now ∷ [] else segments.now ++ segment.now ∷ []) }
{
    match segments {
        [only] => only.as_bytes().is_empty() && !segment.as_bytes().is_empty(),
        _ => false,
    }
}

/// The segments without the last one.
pub(super) fn directory<'d, 's>(segments: &'d [Segment<'s>]) -> &'d [Segment<'s>]
    requires { 0 < length segments.now }
    ensures { result.now ≡ dots.all_but_last segments.now }
{
    &segments[..segments.len() - 1]
}

/// Appends the segments to the list, borrowing their texts.
pub(super) fn push_borrowed<'p>(
    list: &mut Vec<Segment<'p>>,
    segments: &'p [Segment<'_>],
) -> Result<(), AllocError>
    ensures { OnOk result (list.new.items ≡ list.old.items ++ segments.now) }
{
    for segment in segments {
        list.push(segment.as_borrowed())?;
    }
    Ok(())
}

/// Keeps the first `kept` of the list, with a leading `.` if needed, or one empty segment if none
/// is left.
pub(super) fn truncate_with_leading_dot(
    segments: &mut SegmentList<Segment<'_>>,
    needs_leading_dot: bool,
    kept: usize,
)
    requires within { kept ≤ length segments.old }
    requires room { length (relative.filled (if needs_leading_dot then (dot ∷ []) ∷ take kept segments.old else take kept segments.old)) ≤ length segments.old }
    ensures { segments.new ≡ relative.filled (if needs_leading_dot then (dot ∷ []) ∷ take kept segments.old else take kept segments.old) }
{
    if needs_leading_dot {
        segments.put(kept, single_dot());
        segments.truncate(kept + 1);
        segments.rotate_right();
        return;
    }
    if kept == 0 {
        segments.put(0, Segment::empty());
        segments.truncate(1);
        return;
    }
    segments.truncate(kept);
}
