//! The relative normal form of a list of segments: RFC 3986, sections 4.2 and 6.2.2.
ghost use Rattle.std.specs.Prelude.{◌≡◌, ◌+◌, ◌<◌, ◌≤◌, ◌∷◌, [], false, if◌then◌else◌, not, length, take, drop, reverse};
ghost use Rattle.uriparse_text.specs.Bytes.{dot};
ghost use Rattle.uriparse_path.specs.Path as path;
ghost use Rattle.uriparse_path.specs.Dots as dots;
ghost use Rattle.uriparse_path.specs.Relative as relative;

use super::Segment;
use super::list::SegmentList;
use super::rules::{has_first_colon, needs_leading_dot};
use super::segments::truncate_with_leading_dot;

/// Whether the last segment is a dot segment.
fn ends_in_dots(segments: &[Segment<'_>]) -> bool
    ensures { result ≡ relative.is_last dots.is_dot_segment segments.now }
{
    match segments.split_last() {
        Some((last, _)) => last.is_dot_segment(),
        None => false,
    }
}

/// Whether the last segment is a double dot segment.
fn ends_in_double_dot(segments: &[Segment<'_>]) -> bool
    ensures { result ≡ relative.is_last dots.is_double_dot segments.now }
{
    match segments.split_last() {
        Some((last, _)) => last.is_double_dot_segment(),
        None => false,
    }
}

/// Whether there is a last segment and it is not a dot segment.
fn ends_in_name(segments: &[Segment<'_>]) -> bool
    ensures { result ≡ relative.is_last (λ s. not (dots.is_dot_segment s)) segments.now }
{
    match segments.split_last() {
        Some((last, _)) => !last.is_dot_segment(),
        None => false,
    }
}

/// Appends the segment at `at` to those that are left so far, the first `kept` of the list, or
/// makes the deletion that it causes. Returns how many are left.
fn put_segment(segments: &mut [Segment<'_>], kept: usize, at: usize) -> usize
    requires order { kept ≤ at }
    requires within { at < length segments.old }
    ensures order { result ≤ at + 1 }
    ensures len { length segments.new ≡ length segments.old }
    ensures put { relative.put_all (reverse (take result segments.new)) (drop (at + 1) segments.new) ≡ relative.put_all (reverse (take kept segments.old)) (drop at segments.old) }
{
    if segments[at].is_single_dot_segment() {
        return kept;
    }
    let double_dots = segments[at].is_double_dot_segment();
    if double_dots {
        let is_pair = ends_in_name(&segments[..kept]);
        if is_pair {
            return kept - 1;
        }
    }
    segments.swap(kept, at);
    kept + 1
}

/// Makes all deletions in one pass; what is left is at the start of the list. Returns how many
/// segments are left.
fn reduce(segments: &mut [Segment<'_>]) -> usize
    ensures left { take result segments.new ≡ relative.reduced segments.old }
    ensures within { result ≤ length segments.new }
    ensures len { length segments.new ≡ length segments.old }
{
    let mut kept = 0;
    for at in 0..segments.len() {
        kept = put_segment(segments, kept, at);
    }
    kept
}

/// Appends an empty segment to the first `kept` of the list if the old ones ended in a dot segment,
/// unless none is left or they end in `..`. Returns how many there are then.
fn close(segments: &mut [Segment<'_>], ended_in_dots: bool, kept: usize) -> usize
    requires within { kept ≤ length segments.old }
    requires room { length (relative.closed ended_in_dots (take kept segments.old)) ≤ length segments.old }
    ensures closed { take result segments.new ≡ relative.closed ended_in_dots (take kept segments.old) }
    ensures within { result ≤ length segments.new }
    ensures len { length segments.new ≡ length segments.old }
{
    if kept == 0 || !ended_in_dots {
        return kept;
    }
    let double_dots = ends_in_double_dot(&segments[..kept]);
    if double_dots {
        return kept;
    }
    segments[kept] = Segment::empty();
    kept + 1
}

/// Brings the segments of a relative path into their normal form, except for their spelling and a
/// leading `.`. What is left is at the start of the list. Returns whether that `.` is needed, and
/// how many segments are left.
fn shape(segments: &mut [Segment<'_>]) -> (bool, usize)
    requires some { 0 < length segments.old }
    requires shown { path.starts_with_empty_segment segments.old ≡ false }
    ensures shaped { relative.filled (if result.0 then (dot ∷ []) ∷ take result.1 segments.new else take result.1 segments.new) ≡ relative.ended segments.old (relative.reduced segments.old) }
    ensures within { result.1 ≤ length segments.new }
    ensures len { length segments.new ≡ length segments.old }
    ensures room { length (relative.ended segments.old (relative.reduced segments.old)) ≤ length segments.old }
{
    let ended_in_dots = ends_in_dots(segments);
    let had_colon = has_first_colon(&*segments);
    let left = reduce(segments);
    let kept = close(segments, ended_in_dots, left);
    let with_leading_dot = needs_leading_dot(had_colon, &segments[..kept]);
    (with_leading_dot, kept)
}

/// Brings the segments of a relative path into their normal form, except for their spelling.
pub(super) fn make_relative(list: &mut SegmentList<Segment<'_>>)
    requires some { 0 < length list.old }
    requires shown { path.starts_with_empty_segment list.old ≡ false }
    ensures { list.new ≡ relative.ended list.old (relative.reduced list.old) }
{
    let (with_leading_dot, kept) = shape(list.as_mut_slice());
    truncate_with_leading_dot(list, with_leading_dot, kept);
}
