//! Removal of dot segments: RFC 3986, section 5.2.4.
ghost use Rattle.std.specs.Prelude.{◌≡◌, ◌+◌, ◌<◌, ◌≤◌, ◌&&◌, ◌||◌, [], length, not, true, false, take, drop};
ghost use Rattle.uriparse_path.specs.Path as paths;
ghost use Rattle.uriparse_path.specs.Dots as spec;
ghost use Rattle.uriparse_path.specs.Edits.{with_dot_prefix_unless};

use super::counts::Counts;
use super::list::SegmentList;
use super::rules::{has_dot_segment, starts_with_empty_segment};
use super::segments::{starts_with_two_slashes, truncate_with_leading_dot};
use super::{Path, Segment, word_of};

/// Replays the segment at `at` on the output so far, which is the first `kept` of the list. Returns
/// whether a slash precedes the output then, and how long it is.
fn replay_segment(
    segments: &mut [Segment<'_>],
    rooted: bool,
    kept: usize,
    at: usize,
) -> (bool, usize)
    requires order { kept ≤ at }
    requires within { at < length segments.old }
    ensures order { result.1 ≤ at + 1 }
    ensures len { length segments.new ≡ length segments.old }
    ensures segments { spec.replay (take result.1 segments.new) (drop (at + 1) segments.new) ≡ spec.replay (take kept segments.old) (drop at segments.old) }
    ensures root { spec.rooted_after result.0 (take result.1 segments.new) (drop (at + 1) segments.new) ≡ spec.rooted_after rooted (take kept segments.old) (drop at segments.old) }
{
    let is_last = at + 1 == segments.len();
    if segments[at].is_single_dot_segment() {
        if !is_last {
            return (rooted, kept);
        }
        segments[kept] = Segment::empty();
        return (rooted, kept + 1);
    }
    if segments[at].is_double_dot_segment() {
        let rooted = rooted || kept == 1;
        let kept = kept.saturating_sub(1);
        if !is_last {
            return (rooted, kept);
        }
        segments[kept] = Segment::empty();
        return (rooted, kept + 1);
    }
    segments.swap(kept, at);
    (rooted, kept + 1)
}

/// Removes the dot segments in one pass; what is left is at the start of the list. Returns whether
/// a slash precedes it, and how many segments are left.
fn replay(absolute: bool, segments: &mut [Segment<'_>]) -> (bool, usize)
    ensures segments { take result.1 segments.new ≡ spec.replay [] segments.old }
    ensures root { result.0 ≡ spec.rooted_after absolute [] segments.old }
    ensures within { result.1 ≤ length segments.new }
    ensures len { length segments.new ≡ length segments.old }
{
    let mut rooted = absolute;
    let mut kept = 0;
    for at in 0..segments.len() {
        (rooted, kept) = replay_segment(segments, rooted, kept, at);
    }
    (rooted, kept)
}

/// Removes the dot segments of a list in one pass, as [`replay`] does.
fn replay_list(absolute: bool, segments: &mut SegmentList<Segment<'_>>) -> (bool, usize)
    ensures segments { take result.1 segments.new ≡ spec.replay [] segments.old }
    ensures root { result.0 ≡ spec.rooted_after absolute [] segments.old }
    ensures within { result.1 ≤ length segments.new }
    ensures len { length segments.new ≡ length segments.old }
{
    replay(absolute, segments.as_mut_slice())
}

/// Makes the first `kept` of the list the segments of the path that their text spells: without a
/// slash before it, an empty first segment that others follow is removed. Returns whether a slash
/// precedes the segments then, and how many are left.
fn absorb_empty_first(
    rooted: bool,
    segments: &mut SegmentList<Segment<'_>>,
    kept: usize,
) -> (bool, usize)
    requires within { kept ≤ length segments.old }
    ensures path { record { absolute = result.0; segments = take result.1 segments.new } ≡ paths.respelled (record { absolute = rooted; segments = take kept segments.old }) }
    ensures within { result.1 ≤ length segments.new }
    ensures spare { length segments.new + kept ≡ length segments.old + result.1 }
    ensures no_longer { length segments.new ≤ length segments.old }
{
    if rooted {
        return (true, kept);
    }
    let hides = starts_with_empty_segment(&segments.as_slice()[..kept]);
    if !hides {
        return (false, kept);
    }
    segments.remove_first();
    (true, kept - 1)
}

/// Whether no authority precedes the path with these segments and its text begins with two slashes.
fn needs_dot_prefix(has_authority: bool, absolute: bool, segments: &[Segment<'_>]) -> bool
    ensures { result ≡ (not has_authority && (paths.starts_with_empty_segment segments.now && (absolute || paths.starts_with_empty_segment (drop 1 segments.now)))) }
{
    !has_authority && starts_with_two_slashes(absolute, segments)
}

/// Whether the path has a dot segment.
#[inline]
pub fn has_dots(path: &Path<'_>) -> bool
    ensures answer { result ≡ spec.has_dot_segment path.now.segments }
    ensures listed { paths.IsListed path.now.segments }
{
    let segments = path.segments();
    match path.known_counts() {
        Some(counts) => counts.has_dots(),
        None => has_dot_segment(segments),
    }
}

/// Removes the dot segments as [`Path::remove_dot_segments`] does. Without an authority, a path
/// that would start with `//` gets a leading `/.`. Does not allocate: the list has capacity for it,
/// since it has become shorter.
pub fn remove_dots(path: &mut Path<'_>, has_authority: bool)
    requires { has_authority ≡ false → paths.starts_with_empty_segment path.old.segments ≡ false }
    ensures { path.new ≡ with_dot_prefix_unless has_authority (spec.without_dots path.old) }
{
    if has_dots(path) {
        path.take_dots(has_authority);
    }
}

impl<'p> Path<'p> {
    /// Removes the dot segments as described in RFC 3986, section 5.2.4. Dots may be
    /// escaped. So `/a/b/..` becomes `/a/`, and `a/..//b` becomes `//b`. A path without dot
    /// segments is unchanged. Does not allocate.
    pub fn remove_dot_segments(&mut self)
        ensures { self.new ≡ spec.without_dots self.old }
    {
        remove_dots(self, true);
    }

    /// Removes the dot segments of a path that has one.
    fn take_dots(&mut self, has_authority: bool)
        requires shown { has_authority ≡ false → paths.starts_with_empty_segment self.old.segments ≡ false }
        requires dots { spec.has_dot_segment self.old.segments ≡ true }
        requires listed { paths.IsListed self.old.segments }
        ensures { self.new ≡ with_dot_prefix_unless has_authority (spec.without_dots self.old) }
    {
        let all_canonical = self.is_known_canonical();
        let (rooted, kept) = replay_list(self.absolute != 0, &mut self.segments);
        let (absolute, kept) = absorb_empty_first(rooted, &mut self.segments, kept);
        let dot_prefixed = needs_dot_prefix(
            has_authority,
            absolute,
            &self.segments.as_slice()[..kept],
        );
        truncate_with_leading_dot(&mut self.segments, dot_prefixed, kept);
        self.counts = Counts::without_dots(dot_prefixed);
        self.counts_known = word_of(all_canonical);
        self.absolute = word_of(absolute);
    }
}
