//! What is asked of segments in order, of those in a list and of those in the text of a path: RFC
//! 3986, sections 4.2 and 6.2.2.
ghost use Rattle.std.specs.Prelude.{◌≡◌, ◌∷◌, ◌++◌, ◌&&◌, ◌||◌, [], ℕ, List, MatchOption, false, not};
ghost use Rattle.uriparse_path.specs.Path as path;
ghost use Rattle.uriparse_path.specs.Dots as dots;
ghost use Rattle.uriparse_path.specs.Normal as spec;
ghost use Rattle.uriparse_path.specs.Relative as relative;

use super::Segment;
use super::segment::has_colon;
use uriparse_text::internal::Held;

/// A sequence of segments: a list, or the segments of a path in its string.
pub trait SegmentSequence<'t>: Drop {
    ghost listed: { Self → List (List ℕ) };

    /// A copy of the sequence.
    fn again(&self) -> Self
        ensures { listed result ≡ listed self.now };

    /// The first segment, and those that follow it.
    fn split(&self) -> Option<(Segment<'t>, Self)>
        ensures { MatchOption result (listed self.now ≡ []) (λ r. listed self.now ≡ r.0 ∷ listed r.1) };

    /// The last segment, and those that precede it.
    fn split_last(&self) -> Option<(Self, Segment<'t>)>
        ensures { MatchOption result (listed self.now ≡ []) (λ r. listed self.now ≡ listed r.0 ++ r.1 ∷ []) };
}

impl<'t, 's> SegmentSequence<'t> for &'t [Segment<'s>] {
    ghost listed = { λ s. s.now };

    #[inline(always)]
    fn again(&self) -> &'t [Segment<'s>] {
        *self
    }

    #[inline(always)]
    fn split(&self) -> Option<(Segment<'t>, &'t [Segment<'s>])> {
        let (first, later) = (*self).split_first()?;
        Some((first.as_borrowed(), later))
    }

    #[inline(always)]
    fn split_last(&self) -> Option<(&'t [Segment<'s>], Segment<'t>)> {
        let (last, front) = (**self).split_last()?;
        Some((front, last.as_borrowed()))
    }
}

/// Whether the first segment is empty and others follow it. Then their text begins with a slash.
#[inline]
pub(super) fn starts_with_empty_segment<'t, L: SegmentSequence<'t>>(segments: L) -> bool
    ensures { result ≡ path.starts_with_empty_segment (L.listed segments) }
{
    match segments.split() {
        Some((first, later)) => {
            Held(first).0.as_bytes().is_empty() && Held(later.split()).0.is_some()
        }
        None => false,
    }
}

/// Whether the first segment has a colon.
#[inline]
pub(super) fn has_first_colon<'t, L: SegmentSequence<'t>>(segments: L) -> bool
    ensures { result ≡ relative.is_first relative.has_colon (L.listed segments) }
{
    match segments.split() {
        Some((first, _)) => has_colon(Held(first).0.as_bytes()),
        None => false,
    }
}

/// Whether segments that replace others need a leading `.`. `had_colon` says whether the first of
/// the others had a colon.
pub(super) fn needs_leading_dot<'t, L: SegmentSequence<'t>>(had_colon: bool, segments: L) -> bool
    ensures { result ≡ (path.starts_with_empty_segment (L.listed segments) || (relative.is_first relative.has_colon (L.listed segments) && not had_colon)) }
{
    starts_with_empty_segment(segments.again()) || (has_first_colon(segments) && !had_colon)
}

/// Whether there is a dot segment.
pub fn has_dot_segment<'t, L: SegmentSequence<'t>>(segments: L) -> bool
    ensures { result ≡ dots.has_dot_segment (L.listed segments) }
{
    let mut left = segments;
    'segments: while let Some((segment, later)) = left.split() {
        if Held(segment).0.is_dot_segment() {
            return true;
        }
        left = later;
    }
    false
}

/// Whether `..` segments come first and no dot segment follows them.
pub(super) fn begins_with_double_dots<'t, L: SegmentSequence<'t>>(segments: L) -> bool
    ensures { result ≡ spec.begins_with_double_dots (L.listed segments) }
{
    let mut left = segments;
    'segments: while let Some((segment, later)) = left.split() {
        let segment = Held(segment);
        if !segment.0.is_double_dot_segment() {
            return !segment.0.is_dot_segment() && !has_dot_segment(later);
        }
        left = later;
    }
    true
}

/// Whether a `.` comes first and is needed there. A call of its own, since few paths need it.
#[inline(never)]
pub(super) fn has_needed_leading_dot<'t, L: SegmentSequence<'t>>(segments: L) -> bool
    ensures { result ≡ spec.has_needed_leading_dot (L.listed segments) }
{
    match segments.split() {
        Some((first, later)) => {
            let first = Held(first);
            first.0.is_single_dot_segment()
                && begins_with_double_dots(later.again())
                && needs_leading_dot(has_colon(first.0.as_bytes()), later)
        }
        None => false,
    }
}

/// Whether each segment is canonical and none is a dot segment. Stops at the first that is not so.
pub(super) fn are_canonical<'t, L: SegmentSequence<'t>>(segments: L) -> bool
    ensures { result ≡ spec.are_normal false (L.listed segments) }
{
    let mut left = segments;
    'segments: while let Some((segment, later)) = left.split() {
        let segment = Held(segment);
        if !segment.0.is_normalized() || segment.0.is_dot_segment() {
            return false;
        }
        left = later;
    }
    true
}

/// Whether the segments form an absolute path that is normal except for a leading `.`,
/// which is needed without an authority. A call of its own, since few paths need it.
#[inline(never)]
pub(super) fn is_dot_prefixed<'t, L: SegmentSequence<'t>>(absolute: bool, segments: L) -> bool
    ensures { result ≡ spec.is_dot_prefixed absolute (L.listed segments) }
{
    match segments.split() {
        Some((first, later)) => {
            let first = Held(first);
            absolute
                && first.0.as_str() == "."
                && starts_with_empty_segment(later.again())
                && are_canonical(later)
        }
        None => false,
    }
}
