//! Reading of paths: one pass finds the leftmost fault and counts the segments, another one cuts
//! the text.
ghost use Rattle.std.specs.Prelude.{◌≡◌, ◌<◌, ◌≤◌, ◌&&◌, [], IfOk, IsOk, MatchResult, Some, true, false, length, take, ◌||◌};
ghost use Rattle.std.specs.List.{list_all, list_any, slice_split};
ghost use Rattle.uriparse_text.specs.Readings.{unless_fault};
ghost use Rattle.uriparse_text.specs.Segment as segment;
ghost use Rattle.uriparse_text.specs.Bytes.{percent};
ghost use Rattle.uriparse_text.specs.Cuts.{lacks, up_to};
ghost use Rattle.uriparse_path.specs.Path.{IsPath, is_slash, is_rooted, pieces, spelled, unrooted};
ghost use Rattle.uriparse_path.specs.Faults.{BeginsWithPath, ends_path, fault, fault_within, measured, path_front};
ghost use Rattle.uriparse_path.specs.Counts as tally;

use super::counts::Counts;
use super::list::SegmentList;
use super::{MAX_SEGMENTS, Path, PathError, Segment};
use std::alloc::{AllocError, Global};
use uriparse_text::internal::{
    Class, Is, Outside, TextKind, count_below, is_escape, lowest, next_mask, next_mask_by_two,
    text_from_checked, without, without_lowest,
};
use uriparse_text::segment::SegmentKind;

/// Whether the text begins with a slash, and the text without it.
pub fn split_root(text: &[u8]) -> (bool, &[u8])
    ensures root { result.0 ≡ is_rooted text.now }
    ensures rest { result.1.now ≡ unrooted text.now }
    ensures within { length result.1.now ≤ length text.now }
{
    match text {
        [b'/', rest @ ..] => (true, rest),
        _ => (false, text),
    }
}

/// Whether the path ends before this byte, if it may end before the text does.
#[inline(always)]
fn is_end(ends: bool, b: u8) -> bool
    ensures { result ≡ (ends && ends_path b) }
{
    ends && matches!(b, b'?' | b'#')
}

/// Counts the segments and the bytes of the path that a text begins with, or returns its leftmost
/// fault. The path may have `limit` segments. If `ends` is set it runs to the first `?` or `#`,
/// otherwise it is the whole text. Each byte outside the class of a segment is a slash, ends the
/// path, starts an escape or is the fault. The slashes of a block are counted at once. The last
/// number is 0 only if the path has no escape.
#[inline(always)]
pub(super) fn count_segments(
    limit: usize,
    ends: bool,
    text: &[u8],
) -> Result<(usize, usize, usize), PathError>
    requires { 0 < limit }
    ensures count { let front = path_front ends text.now in let ps = slice_split is_slash front in measured result ≡ unless_fault (fault_within limit ps) (length ps, length front) }
    ensures within { IfOk result (λ m. m.1 ≤ length text.now) }
    ensures escaped { IfOk result (λ m. m.2 ≡ 0 → lacks percent (take m.1 text.now) ≡ true) }
{
    let mut count = 1;
    let mut escaped = 0;
    let mut at = 0;
    'runs: while at < text.len() {
        let (marks, slashes, len) = next_mask_by_two(&Outside(Class::Segment), &Is(b'/'), text, at);
        let more = slashes.count_ones() as usize;
        if more > limit - count {
            return count_by_one(limit, ends, text);
        }
        let mut left = without(marks, slashes);
        'marks: while left != 0 {
            let k = lowest(left);
            let b = text[at + k];
            if is_end(ends, b) {
                return Ok((count + count_below(slashes, k), at + k, escaped));
            }
            if !is_escape(b, &text[at + k + 1..]) {
                return Err(SegmentKind::error_of(b));
            }
            escaped = 1;
            left = without_lowest(left);
        }
        count += more;
        at += len;
    }
    Ok((count, at, escaped))
}

/// Counts the segments and the bytes of that path one slash after the other, for a text near the
/// limit, or returns its leftmost fault. The last number is always 1.
#[inline(never)]
fn count_by_one(limit: usize, ends: bool, text: &[u8]) -> Result<(usize, usize, usize), PathError>
    requires { 0 < limit }
    ensures count { let front = path_front ends text.now in let ps = slice_split is_slash front in measured result ≡ unless_fault (fault_within limit ps) (length ps, length front) }
    ensures within { IfOk result (λ m. m.1 ≤ length text.now) }
    ensures escaped { IfOk result (λ m. m.2 ≡ 0 → lacks percent (take m.1 text.now) ≡ true) }
{
    let mut count = 1;
    let mut at = 0;
    'runs: while at < text.len() {
        let (marks, len) = next_mask(&Outside(Class::Segment), text, at);
        let mut left = marks;
        'marks: while left != 0 {
            let k = lowest(left);
            let b = text[at + k];
            if b == b'/' {
                if count == limit {
                    return Err(PathError::ExceededMaximumLength);
                }
                count += 1;
            } else if is_end(ends, b) {
                return Ok((count, at + k, 1));
            } else if !is_escape(b, &text[at + k + 1..]) {
                return Err(SegmentKind::error_of(b));
            }
            left = without_lowest(left);
        }
        at += len;
    }
    Ok((count, at, 1))
}

/// Whether this piece or one before it begins with a dot.
#[inline(always)]
fn is_dotted(dotted: bool, piece: &[u8]) -> bool
    ensures { result ≡ (dotted || tally.begins_with_dot piece.now) }
{
    dotted || matches!(piece, [b'.', ..])
}

/// The segments of the text, which is cut at its slashes and has `count`, and whether one of them
/// begins with a dot. Allocates for all of them once. `escaped` is 0 only if the text has no
/// escape: then each segment is canonical.
#[inline(always)]
fn split_segments<'p>(
    alloc: Global,
    count: usize,
    escaped: usize,
    text: &'p [u8],
) -> Result<(Vec<Segment<'p>>, bool), AllocError>
    requires count { count ≡ length (slice_split is_slash text.now) }
    requires segments { list_all segment.is_segment (slice_split is_slash text.now) ≡ true }
    requires escaped { escaped ≡ 0 → lacks percent text.now ≡ true }
    ensures { IfOk result (λ v. (v.0.items ≡ slice_split is_slash text.now) × (v.1 ≡ list_any tally.begins_with_dot (slice_split is_slash text.now))) }
{
    let mut segments = Vec::with_capacity(alloc, count)?;
    let mut dotted = false;
    let mut start = 0;
    let mut at = 0;
    'runs: while at < text.len() {
        let (marks, len) = next_mask(&Is(b'/'), text, at);
        let mut left = marks;
        'marks: while left != 0 {
            let end = at + lowest(left);
            let piece = &text[start..end];
            dotted = is_dotted(dotted, piece);
            segments.push_reserved(text_from_checked(piece, escaped == 0));
            start = end + 1;
            left = without_lowest(left);
        }
        at += len;
    }
    let piece = &text[start..];
    let dotted = is_dotted(dotted, piece);
    segments.push_reserved(text_from_checked(piece, escaped == 0));
    Ok((segments, dotted))
}

/// The segments of the text, which has `count`, and whether one of them begins with a dot. Does not
/// allocate for one segment.
#[inline(always)]
fn read_segments<'p>(
    alloc: Global,
    count: usize,
    escaped: usize,
    text: &'p [u8],
) -> Result<(SegmentList<Segment<'p>>, bool), AllocError>
    requires count { count ≡ length (slice_split is_slash text.now) }
    requires segments { list_all segment.is_segment (slice_split is_slash text.now) ≡ true }
    requires escaped { escaped ≡ 0 → lacks percent text.now ≡ true }
    ensures segments { IfOk result (λ v. (v.0 ≡ slice_split is_slash text.now) × (v.1 ≡ list_any tally.begins_with_dot (slice_split is_slash text.now))) }
    ensures takes_no_memory { count ≡ 1 → IsOk result }
{
    if count == 1 {
        let only = SegmentList::one(text_from_checked(text, escaped == 0));
        return Ok((only, is_dotted(false, text)));
    }
    let (segments, dotted) = split_segments(alloc, count, escaped, text)?;
    Ok((SegmentList::several(segments), dotted))
}

/// The path that a text begins with, which has no fault, and what follows it.
#[derive(Clone, Copy)]
pub struct PathSplit<'t> {
    /// The text of the path.
    pub text: &'t [u8],
    /// The number of segments of the path.
    pub count: usize,
    /// 0 only if the path has no escape. A word, since a `bool` would be moved with its padding.
    pub escaped: usize,
    /// What follows the path: nothing, or a `?` or `#` and more.
    pub following: &'t [u8],
}

/// Whether the path ends before the text's first byte, or the text is empty.
#[inline(always)]
fn ends_at_once(text: &[u8]) -> bool
    ensures { result ≡ true → up_to ends_path text.now ≡ [] }
{
    match text {
        [] => true,
        [b, ..] => is_end(true, *b),
    }
}

/// The path that a text begins with, up to the first `?` or `#`, or its leftmost fault. Reads it
/// once. Does not allocate.
#[inline(always)]
pub fn split_path(text: &[u8]) -> Result<PathSplit<'_>, PathError>
    ensures { MatchResult result (λ r. BeginsWithPath text.now r.text.now r.following.now r.count r.escaped) (λ e. fault (up_to ends_path text.now) ≡ Some e) }
{
    let (_, rest) = split_root(text);
    if ends_at_once(rest) {
        let (text, _) = text.split_at(text.len() - rest.len());
        return Ok(PathSplit {
            text,
            count: 1,
            escaped: 0,
            following: rest,
        });
    }
    let (count, len, escaped) = count_segments(MAX_SEGMENTS, true, rest)?;
    let (_, following) = rest.split_at(len);
    let (text, _) = text.split_at(text.len() - following.len());
    Ok(PathSplit {
        text,
        count,
        escaped,
        following,
    })
}

/// Whether no segment begins with a dot and none has an escape. Then none is a dot segment, and
/// each is canonical.
#[inline(always)]
fn is_known_canonical(escaped: usize, dotted: bool) -> bool
    ensures { result ≡ true → (escaped ≡ 0) × (dotted ≡ false) }
{
    escaped == 0 && !dotted
}

/// The path that a checked text spells, which has `count` segments. Allocates only for more than
/// one. `escaped` is 0 only if the text has no escape.
#[inline(always)]
pub fn counted_path(
    alloc: Global,
    count: usize,
    escaped: usize,
    text: &[u8],
) -> Result<Path<'_>, AllocError>
    requires path { IsPath text.now }
    requires count { count ≡ length (pieces text.now) }
    requires escaped { escaped ≡ 0 → lacks percent text.now ≡ true }
    ensures path { IfOk result (λ p. p ≡ spelled text.now) }
    ensures takes_no_memory { count ≡ 1 → IsOk result }
{
    let (absolute, rest) = split_root(text);
    let (segments, dotted) = read_segments(alloc, count, escaped, rest)?;
    let plain = is_known_canonical(escaped, dotted);
    Ok(Path::of(absolute, segments, Counts::none(), plain))
}
