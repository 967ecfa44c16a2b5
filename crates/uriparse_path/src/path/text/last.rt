//! The last dot segment of a path's text, looked for from its end, sixteen bytes at a time: RFC
//! 3986, section 3.3.
ghost use Rattle.std.specs.Prelude.{◌≡◌, ◌<◌, ◌≤◌, ◌+◌, ◌-◌, MatchOption, length, true};
ghost use Rattle.std.specs.List.{list_all, slice_split};
ghost use Rattle.uriparse_text.specs.Segment.{is_segment};
ghost use Rattle.uriparse_path.specs.Path.{is_slash};
ghost use Rattle.uriparse_path.specs.Dots.{is_dot_segment};
ghost use Rattle.uriparse_path.specs.Relative.{is_first, is_last};
ghost use Rattle.uriparse_path.specs.Last as spec;

use crate::path::segment::is_dots;
use uriparse_text::internal::{Is, IsAny, bits_below, highest, marks_of_pairs, split_at_delimiter};

/// Whether the text begins with a byte that a dot segment begins with: a dot, or the percent sign of
/// an escaped one.
#[inline(always)]
fn begins_like_dot_segment(text: &[u8]) -> bool
    ensures { result ≡ spec.begins_with_dot_candidate text.now }
{
    matches!(text, [b'.' | b'%', ..])
}

/// Whether the first segment of a text, which begins like a dot segment, is one.
#[inline(never)]
fn has_dots_first(text: &[u8]) -> bool
    requires { list_all is_segment (slice_split is_slash text.now) ≡ true }
    ensures { result ≡ is_first is_dot_segment (slice_split is_slash text.now) }
{
    let (segment, _) = split_at_delimiter(text, b'/');
    is_dots(segment)
}

/// Whether the first segment of a text is a dot segment.
#[inline(always)]
fn begins_with_dots(text: &[u8]) -> bool
    requires { list_all is_segment (slice_split is_slash text.now) ≡ true }
    ensures { result ≡ is_first is_dot_segment (slice_split is_slash text.now) }
{
    begins_like_dot_segment(text) && has_dots_first(text)
}

/// The place of the last dot segment of a short text that follows a slash, byte by byte.
#[inline(never)]
fn last_dots_of_short(text: &[u8]) -> Option<usize>
    requires { list_all is_segment (slice_split is_slash text.now) ≡ true }
    ensures { MatchOption result (spec.LacksDotsAfter 0 text.now) (λ at. spec.IsLastDots at text.now) }
{
    let mut at = text.len();
    'bytes: while at > 0 {
        if text[at - 1] == b'/' && begins_with_dots(&text[at..]) {
            return Some(at);
        }
        at -= 1;
    }
    None
}

/// Marks those of the sixteen places from `at` on that follow a slash and hold a byte that a dot
/// segment begins with.
#[inline(always)]
fn marks_of_dot_candidates(text: &[u8], at: usize) -> u64
    requires after { 0 < at }
    requires room { at + 16 ≤ length text.now }
    ensures { spec.AreHeadMarks text.now at 16 result }
{
    // A dot segment begins with one of two bytes. The test takes three, so one stands twice.
    marks_of_pairs(&Is(b'/'), &IsAny(b'.', b'%', b'%'), text, at)
}

/// The place of the last dot segment among the `count` places from `at` on, if none begins later. Only
/// the places with a mark are looked at, the last one first.
#[inline(always)]
fn last_dots_marked(text: &[u8], at: usize, count: usize, marks: u64) -> Option<usize>
    requires segments { list_all is_segment (slice_split is_slash text.now) ≡ true }
    requires after { 0 < at }
    requires few { count ≤ 16 }
    requires within { at + count ≤ length text.now }
    requires marks { spec.AreHeadMarks text.now at count marks }
    requires later { spec.LacksDotsAfter (at - 1 + count) text.now }
    ensures { MatchOption result (spec.LacksDotsAfter (at - 1) text.now) (λ offset. spec.IsLastDots offset text.now) }
{
    let mut end = count;
    let mut left = bits_below(marks, count);
    'marks: while left != 0 {
        end = highest(left);
        if has_dots_first(&text[at + end..]) {
            return Some(at + end);
        }
        left = bits_below(left, end);
    }
    None
}

/// The place of the last dot segment of a longer text that follows a slash. The first sixteen places
/// may overlap those after them.
fn last_dots_by_runs(text: &[u8]) -> Option<usize>
    requires segments { list_all is_segment (slice_split is_slash text.now) ≡ true }
    requires long { 16 < length text.now }
    ensures { MatchOption result (spec.LacksDotsAfter 0 text.now) (λ at. spec.IsLastDots at text.now) }
{
    let mut end = text.len();
    'runs: while end > 16 {
        end -= 16;
        let found = last_dots_marked(text, end, 16, marks_of_dot_candidates(text, end));
        if found.is_some() {
            return found;
        }
    }
    last_dots_marked(text, 1, end - 1, marks_of_dot_candidates(text, 1))
}

/// The place of the last dot segment of a text that follows a slash.
fn last_dots_after_slash(text: &[u8]) -> Option<usize>
    requires { list_all is_segment (slice_split is_slash text.now) ≡ true }
    ensures { MatchOption result (spec.LacksDotsAfter 0 text.now) (λ at. spec.IsLastDots at text.now) }
{
    if text.len() > 16 {
        last_dots_by_runs(text)
    } else {
        last_dots_of_short(text)
    }
}

/// The place of the last dot segment of a text.
pub(super) fn last_dots(text: &[u8]) -> Option<usize>
    requires { list_all is_segment (slice_split is_slash text.now) ≡ true }
    ensures { spec.IsLast result text.now }
{
    let found = last_dots_after_slash(text);
    if found.is_some() {
        return found;
    }
    if begins_with_dots(text) {
        Some(0)
    } else {
        None
    }
}

/// Whether the last segment of a text is a dot segment, by the place of the last dot segment.
pub(super) fn ends_in_dots(last: Option<usize>, text: &[u8]) -> bool
    requires { spec.IsLast last text.now }
    ensures { result ≡ is_last is_dot_segment (slice_split is_slash text.now) }
{
    match last {
        Some(at) => {
            let (_, following) = split_at_delimiter(&text[at..], b'/');
            following.is_empty()
        }
        None => false,
    }
}
