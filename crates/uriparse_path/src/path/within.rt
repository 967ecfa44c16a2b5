//! Whether a path is in the directory of another one, both in normal form, without a list of what
//! is left of their segments: RFC 3986, sections 3.3 and 6.2.2. Read from the last segment to the
//! first, a segment is kept or removed for good. Absolute paths without dot segments are compared
//! from the front.
ghost use Rattle.std.specs.Prelude.{◌≡◌, ◌↔◌, ◌+◌, ◌<◌, ◌≤◌, ◌++◌, ◌∷◌, ◌&&◌, [], ℕ, List, IsTrue, MatchOption, MatchResult, IfSome, Some, None, bytes_eq, length, map, not, true, false};
ghost use Rattle.std.specs.List.{list_any};
ghost use Rattle.std.specs.Option.{option_map};
ghost use Rattle.uriparse_text.specs.Ambiguous as ambiguous;
ghost use Rattle.uriparse_text.specs.Canonical.{canonical};
ghost use Rattle.uriparse_path.specs.Dots.{all_but_last, has_dot_segment as has_dots, is_dot_segment};
ghost use Rattle.uriparse_path.specs.Path.{IsListed, has_hidden_root, max_segments};
ghost use Rattle.uriparse_path.specs.Normal.{pnormal};
ghost use Rattle.uriparse_path.specs.Relative.{is_last};
ghost use Rattle.uriparse_path.specs.Remaining.{Remaining, process_all, process_one, remaining_of};
ghost use Rattle.uriparse_path.specs.Within as spec;

use super::Segment;
use super::rules::{SegmentSequence, has_dot_segment};
use uriparse_text::internal::{Held, lacks_name};

/// The `..` that have not met a segment to remove, and whether one removed the segment that was
/// read last, apart from dot segments.
#[derive(Clone, Copy)]
pub(super) struct PassedDots {
    pub(super) double_dots: usize,
    pub(super) removed: bool,
}

impl PassedDots {
    /// One segment before those that were read, or none if it is kept.
    fn pass(self, segment: &Segment<'_>) -> Option<PassedDots>
        requires { self.double_dots < usize.MAX }
        ensures passed { MatchOption result ((kept : List (List ℕ)) → process_one segment.now (spec.remaining_after self kept) ≡ record { double_dots = 0; kept = segment.now ∷ kept; removed = false }) (λ w. (kept : List (List ℕ)) → process_one segment.now (spec.remaining_after self kept) ≡ spec.remaining_after w kept) }
        ensures few { IfSome result (λ w. w.double_dots ≤ self.double_dots + 1) }
    {
        if segment.is_single_dot_segment() {
            return Some(self);
        }
        if segment.is_double_dot_segment() {
            return Some(PassedDots {
                double_dots: self.double_dots + 1,
                ..self
            });
        }
        if self.double_dots == 0 {
            return None;
        }
        Some(PassedDots {
            double_dots: self.double_dots - 1,
            removed: true,
        })
    }
}

/// The last segment that the removal of dot segments keeps, and those before it; or, if it keeps
/// none, whether it removes the first one that is no dot segment.
fn split_kept<'t, L: SegmentSequence<'t>>(segments: L) -> Result<(L, Segment<'t>), bool>
    requires { length (L.listed segments) ≤ max_segments }
    ensures { MatchResult result (λ x. spec.EndsWithKept (L.listed segments) (L.listed x.0) x.1) (λ removed. spec.KeepsNone (L.listed segments) removed) }
{
    let mut passed = PassedDots {
        double_dots: 0,
        removed: false,
    };
    let mut left = segments;
    'segments: while let Some((front, last)) = left.split_last() {
        let last = Held(last);
        match passed.pass(&last.0) {
            Some(more) => passed = more,
            None => return Ok((front, last.take())),
        }
        left = front;
    }
    Err(passed.removed)
}

/// What dot removal leaves of a path's segments, from the last one to the first: first the empty one
/// that a dot segment leaves at the end, last the empty one that precedes a slash at the front.
#[derive(Drop)]
pub struct NormalSegments<L: Drop> {
    absolute: bool,
    ended: bool,
    // The segments that were not read yet, none once all were.
    left: Option<L>,
}

impl<'t, L: SegmentSequence<'t>> NormalSegments<L> {
    /// What is left of the segments of a path.
    pub fn of(absolute: bool, segments: L) -> NormalSegments<L>
        ensures left { spec.normal_left result.absolute result.ended (option_map L.listed result.left) ≡ spec.normal_left absolute (is_last is_dot_segment (L.listed segments)) (Some (L.listed segments)) }
        ensures few { length (L.listed segments) ≤ max_segments → spec.AreFew (option_map L.listed result.left) }
    {
        NormalSegments {
            absolute,
            ended: ends_in_dots(&segments),
            left: Some(segments),
        }
    }
}

/// Whether the last segment is a dot segment.
fn ends_in_dots<'t, L: SegmentSequence<'t>>(segments: &L) -> bool
    ensures { result ≡ is_last is_dot_segment (L.listed segments.now) }
{
    match segments.split_last() {
        Some((_, last)) => Held(last).0.is_dot_segment(),
        None => false,
    }
}

/// The segment that a dot segment leaves at the end, or that precedes a slash at the front.
fn empty<'t>() -> Segment<'t>
    ensures { result ≡ [] }
{
    Segment::empty()
}

impl<'t, L: SegmentSequence<'t>> NormalSegments<L> {
    /// A copy of the sequence.
    fn again(&self) -> NormalSegments<L>
        ensures { (result.absolute ≡ self.now.absolute) × (result.ended ≡ self.now.ended) × (option_map L.listed result.left ≡ option_map L.listed self.now.left) }
    {
        let left = match &self.left {
            Some(segments) => Some(segments.again()),
            None => None,
        };
        NormalSegments {
            absolute: self.absolute,
            ended: self.ended,
            left,
        }
    }

    /// The last segment, and those that precede it.
    fn split_last(&self) -> Option<(NormalSegments<L>, Segment<'t>)>
        requires { spec.AreFew (option_map L.listed self.now.left) }
        ensures cut { MatchOption result (spec.normal_left self.now.absolute self.now.ended (option_map L.listed self.now.left) ≡ []) (λ x. spec.normal_left self.now.absolute self.now.ended (option_map L.listed self.now.left) ≡ spec.normal_left x.0.absolute x.0.ended (option_map L.listed x.0.left) ++ x.1 ∷ []) }
        ensures few { IfSome result (λ x. spec.AreFew (option_map L.listed x.0.left)) }
    {
        match &self.left {
            None => None,
            Some(left) => split_last_left(self.absolute, self.ended, left.again()),
        }
    }
}

/// The last of the segments that are left, and those that precede it.
fn split_last_left<'t, L: SegmentSequence<'t>>(
    absolute: bool,
    ended: bool,
    left: L,
) -> Option<(NormalSegments<L>, Segment<'t>)>
    requires { length (L.listed left) ≤ max_segments }
    ensures cut { MatchOption result (spec.normal_left absolute ended (Some (L.listed left)) ≡ []) (λ x. spec.normal_left absolute ended (Some (L.listed left)) ≡ spec.normal_left x.0.absolute x.0.ended (option_map L.listed x.0.left) ++ x.1 ∷ []) }
    ensures few { IfSome result (λ x. spec.AreFew (option_map L.listed x.0.left)) }
{
    if ended {
        return Some((unended(absolute, left), empty()));
    }
    match split_kept(left) {
        Ok((front, last)) => Some((unended(absolute, front), last)),
        Err(removed) => {
            if absolute || removed {
                Some((all_read(absolute), empty()))
            } else {
                None
            }
        }
    }
}

/// The segments that are left, after those that were read.
fn unended<'t, L: SegmentSequence<'t>>(absolute: bool, left: L) -> NormalSegments<L>
    ensures { (result.absolute ≡ absolute) × (result.ended ≡ false) × (option_map L.listed result.left ≡ Some (L.listed left)) }
{
    NormalSegments {
        absolute,
        ended: false,
        left: Some(left),
    }
}

/// Nothing is left.
fn all_read<'t, L: SegmentSequence<'t>>(absolute: bool) -> NormalSegments<L>
    ensures { (result.absolute ≡ absolute) × (result.ended ≡ false) × (option_map L.listed result.left ≡ None) }
{
    NormalSegments {
        absolute,
        ended: false,
        left: None,
    }
}

/// Whether the segment is ambiguous.
fn is_ambiguous(segment: &Segment<'_>) -> bool
    ensures { result ≡ ambiguous.is_ambiguous (canonical segment.now) }
{
    let _bytes = segment.as_bytes();
    segment.is_ambiguous()
}

/// The number of segments that are left.
fn count<'t, L: SegmentSequence<'t>>(segments: NormalSegments<L>) -> usize
    requires { spec.AreFew (option_map L.listed segments.left) }
    ensures { result ≡ length (spec.normal_left segments.absolute segments.ended (option_map L.listed segments.left)) }
{
    let mut count = 0;
    let mut left = segments;
    'segments: while let Some((front, last)) = left.split_last() {
        let _last = Held(last);
        left = front;
        count += 1;
    }
    count
}

/// What precedes this many segments at the end, unless one of these is ambiguous.
fn skip<'t, L: SegmentSequence<'t>>(
    segments: NormalSegments<L>,
    count: usize,
) -> Option<NormalSegments<L>>
    requires few { spec.AreFew (option_map L.listed segments.left) }
    requires within { count ≤ length (spec.normal_left segments.absolute segments.ended (option_map L.listed segments.left)) }
    ensures skips { MatchOption result (spec.MeetsAmbiguous count (spec.normal_left segments.absolute segments.ended (option_map L.listed segments.left))) (λ x. spec.Skips count (spec.normal_left segments.absolute segments.ended (option_map L.listed segments.left)) (spec.normal_left x.absolute x.ended (option_map L.listed x.left))) }
    ensures few { IfSome result (λ x. spec.AreFew (option_map L.listed x.left)) }
{
    let mut more = count;
    let mut left = segments;
    'segments: while more > 0 {
        let Some((front, last)) = left.split_last() else {
            return None;
        };
        if is_ambiguous(&Held(last).0) {
            return None;
        }
        left = front;
        more -= 1;
    }
    Some(left)
}

/// Whether the segments that are left of two paths are equal.
fn are_equal<'t, L: SegmentSequence<'t>>(
    segments: NormalSegments<L>,
    others: NormalSegments<L>,
) -> bool
    requires few { spec.AreFew (option_map L.listed segments.left) }
    requires few_others { spec.AreFew (option_map L.listed others.left) }
    ensures { IsTrue result ↔ (map canonical (spec.normal_left segments.absolute segments.ended (option_map L.listed segments.left)) ≡ map canonical (spec.normal_left others.absolute others.ended (option_map L.listed others.left))) }
{
    let mut left = segments;
    let mut other = others;
    'segments: while let Some((front, last)) = left.split_last() {
        let last = Held(last);
        let Some((other_front, other_last)) = other.split_last() else {
            return false;
        };
        if last.0 != Held(other_last).0 {
            return false;
        }
        left = front;
        other = other_front;
    }
    Held(other.split_last()).0.is_none()
}

/// Whether the segments that are left of a path begin with those that are left of a directory, and
/// more follow, none of which is ambiguous.
fn has_directory<'t, L: SegmentSequence<'t>>(
    segments: NormalSegments<L>,
    directory: NormalSegments<L>,
) -> bool
    requires few { spec.AreFew (option_map L.listed segments.left) }
    requires few_directories { spec.AreFew (option_map L.listed directory.left) }
    ensures { IsTrue result ↔ spec.HasDirectory (map canonical (spec.normal_left segments.absolute segments.ended (option_map L.listed segments.left))) (map canonical (spec.normal_left directory.absolute directory.ended (option_map L.listed directory.left))) }
{
    let depth = count(directory.again());
    let all = count(segments.again());
    if all <= depth {
        return false;
    }
    match skip(segments, all - depth) {
        Some(front) => are_equal(front, directory),
        None => false,
    }
}

/// Whether a segment is left.
fn is_some<'t, L: SegmentSequence<'t>>(segments: &NormalSegments<L>) -> bool
    requires { spec.AreFew (option_map L.listed segments.now.left) }
    ensures { IsTrue result ↔ (0 < length (spec.normal_left segments.now.absolute segments.now.ended (option_map L.listed segments.now.left))) }
{
    Held(segments.split_last()).0.is_some()
}

/// Whether what is left of the one path is in the directory of what is left of the other one.
fn are_within<'t, L: SegmentSequence<'t>>(
    segments: NormalSegments<L>,
    base: NormalSegments<L>,
) -> bool
    requires few { spec.AreFew (option_map L.listed segments.left) }
    requires few_bases { spec.AreFew (option_map L.listed base.left) }
    requires some { 0 < length (spec.normal_left base.absolute base.ended (option_map L.listed base.left)) }
    ensures { IsTrue result ↔ spec.AreWithin (map canonical (spec.normal_left segments.absolute segments.ended (option_map L.listed segments.left))) (map canonical (spec.normal_left base.absolute base.ended (option_map L.listed base.left))) }
{
    let Some((directory, last)) = base.split_last() else {
        return false;
    };
    let _last = Held(last);
    let has_slash = is_some(&directory);
    if !has_directory(segments.again(), directory) {
        return false;
    }
    has_slash || are_equal(segments, base)
}

/// Whether the segment is empty up to a first `;`, `?` or `#`, plain or escaped.
fn is_nameless(segment: &Segment<'_>) -> bool
    ensures { result ≡ bytes_eq (ambiguous.name_of (canonical segment.now)) [] }
{
    lacks_name(segment.as_bytes())
}

/// Whether readers disagree on whether the segment is one.
fn is_unclear(segment: &Segment<'_>) -> bool
    ensures { result ≡ spec.is_unclear (canonical segment.now) }
{
    is_ambiguous(segment) || is_nameless(segment)
}

/// Whether one of the waiting `..` removes the segment, and readers disagree on whether it is one.
fn removes(waiting: usize, segment: &Segment<'_>) -> bool
    ensures { result ≡ list_any spec.is_unclear (spec.onto_removed (canonical segment.now) waiting []) }
{
    let _bytes = segment.as_bytes();
    if waiting == 0 {
        return false;
    }
    if segment.is_dot_segment() {
        return false;
    }
    is_unclear(segment)
}

/// The number of `..` that wait before the segment, if this many wait after it.
fn waiting_before(waiting: usize, segment: &Segment<'_>) -> usize
    requires { waiting < usize.MAX }
    ensures before { (l : Remaining) → l.double_dots ≡ waiting → (process_one (canonical segment.now) l).double_dots ≡ result }
    ensures few { result ≤ waiting + 1 }
{
    let _bytes = segment.as_bytes();
    if segment.is_single_dot_segment() {
        waiting
    } else if segment.is_double_dot_segment() {
        waiting + 1
    } else {
        waiting.saturating_sub(1)
    }
}

/// Whether a `..` removes a segment on which readers disagree.
fn removes_unclear<'t, L: SegmentSequence<'t>>(segments: L) -> bool
    requires { length (L.listed segments) ≤ max_segments }
    ensures { result ≡ list_any spec.is_unclear (spec.removed_segments (map canonical (L.listed segments))) }
{
    let mut waiting = 0;
    let mut left = segments;
    'segments: while let Some((front, last)) = left.split_last() {
        let last = Held(last);
        if removes(waiting, &last.0) {
            return true;
        }
        waiting = waiting_before(waiting, &last.0);
        left = front;
    }
    false
}

/// What follows the segments of a directory, if others begin with them.
fn strip_directory<'t, L: SegmentSequence<'t>>(segments: L, directory: L) -> Option<L>
    ensures { MatchOption result ((rest : List (List ℕ)) → map canonical (L.listed segments) ≡ map canonical (L.listed directory) ++ rest → ⊥) (λ x. map canonical (L.listed segments) ≡ map canonical (L.listed directory) ++ map canonical (L.listed x)) }
{
    let mut left = segments;
    let mut more = directory;
    'segments: while let Some((expected, others)) = more.split() {
        let expected = Held(expected);
        let Some((first, following)) = left.split() else {
            return None;
        };
        if Held(first).0 != expected.0 {
            return None;
        }
        left = following;
        more = others;
    }
    Some(left)
}

/// Whether there is a segment.
fn has_segment<'t, L: SegmentSequence<'t>>(segments: &L) -> bool
    ensures { IsTrue result ↔ (0 < length (L.listed segments.now)) }
{
    Held(segments.split()).0.is_some()
}

/// Whether there is an ambiguous segment.
fn has_ambiguous<'t, L: SegmentSequence<'t>>(segments: L) -> bool
    ensures { result ≡ spec.has_ambiguous (map canonical (L.listed segments)) }
{
    let mut left = segments;
    'segments: while let Some((first, following)) = left.split() {
        if is_ambiguous(&Held(first).0) {
            return true;
        }
        left = following;
    }
    false
}

/// Whether there are segments, and none of them is ambiguous.
fn are_unambiguous<'t, L: SegmentSequence<'t>>(segments: L) -> bool
    ensures { IsTrue result ↔ ((0 < length (L.listed segments)) × (spec.has_ambiguous (map canonical (L.listed segments)) ≡ false)) }
{
    has_segment(&segments) && !has_ambiguous(segments)
}

/// Whether the segments begin with those of the base but the last one, and more follow, none of which
/// is ambiguous.
fn is_in_directory<'t, L: SegmentSequence<'t>>(segments: L, base: L) -> bool
    requires { 0 < length (L.listed base) }
    ensures { IsTrue result ↔ spec.HasDirectory (map canonical (L.listed segments)) (all_but_last (map canonical (L.listed base))) }
{
    let Some((directory, last)) = base.split_last() else {
        return false;
    };
    let _last = Held(last);
    match strip_directory(segments, directory) {
        Some(rest) => are_unambiguous(rest),
        None => false,
    }
}

/// Whether the path is absolute and has no dot segment.
fn is_plain<'t, L: SegmentSequence<'t>>(absolute: bool, segments: &L) -> bool
    ensures { result ≡ (absolute && not (has_dots (L.listed segments.now))) }
{
    absolute && !has_dot_segment(segments.again())
}

/// Whether the normal form of one path is in the directory of another one's, and no `..` of the first
/// removes a segment on which readers disagree. Neither is to follow a reference's beginning without a
/// scheme. Does not allocate.
pub fn is_path_within<'t, L: SegmentSequence<'t>>(
    absolute: bool,
    segments: L,
    base_absolute: bool,
    base: L,
) -> bool
    requires segments { IsListed (L.listed segments) }
    requires base { IsListed (L.listed base) }
    requires shown { has_hidden_root (record { absolute = absolute; segments = L.listed segments }) ≡ false }
    requires shown_base { has_hidden_root (record { absolute = base_absolute; segments = L.listed base }) ≡ false }
    ensures { IsTrue result ↔ (spec.IsPathWithin (pnormal (record { absolute = absolute; segments = L.listed segments }) false) (pnormal (record { absolute = base_absolute; segments = L.listed base }) false) × (spec.removes_unclear (record { absolute = absolute; segments = L.listed segments }) ≡ false)) }
{
    if is_plain(absolute, &segments) && is_plain(base_absolute, &base) {
        return is_in_directory(segments, base);
    }
    if removes_unclear(segments.again()) {
        return false;
    }
    let path = NormalSegments::of(absolute, segments);
    let directory = NormalSegments::of(base_absolute, base);
    are_within(path, directory)
}
