//! The relative path that leads from a base's path to another one: RFC 3986, sections 4.2 and 5.2.
ghost use Rattle.std.specs.Prelude.{◌≡◌, ◌↔◌, IsTrue, ◌+◌, ◌<◌, ◌≤◌, ◌∷◌, ◌++◌, [], if◌then◌else◌, IfOk, OnOk, bytes_eq, drop, length};
ghost use Rattle.uriparse_text.specs.Bytes.{dot};
ghost use Rattle.uriparse_path.specs.Path.{max_segments};
ghost use Rattle.uriparse_path.specs.Dots as dots;
ghost use Rattle.uriparse_path.specs.Relate as spec;
ghost use Rattle.uriparse_path.specs.Relative.{is_first};

use super::counts::Counts;
use super::list::SegmentList;
use super::rules::has_dot_segment;
use super::segment::{double_dot, has_colon, single_dot};
use super::segments::{directory, push_borrowed};
use super::{MAX_SEGMENTS, Path, Segment};
use std::alloc::{AllocError, Global};

/// Whether the segments have the same text.
fn is_same(left: &Segment<'_>, right: &Segment<'_>) -> bool
    ensures { result ≡ bytes_eq left.now right.now }
{
    left.as_bytes() == right.as_bytes()
}

/// How many leading directories both lists share. The last segment is not a directory.
fn shared_len(directories: &[Segment<'_>], segments: &[Segment<'_>]) -> usize
    requires { 0 < length segments.now }
    ensures apart { spec.apart directories.now segments.now ≡ spec.double_dots (drop result directories.now) ++ drop result segments.now }
    ensures within { result ≤ length directories.now }
    ensures some { result < length segments.now }
{
    let mut shared = 0;
    'directories: while shared < directories.len() {
        if shared + 1 == segments.len() {
            return shared;
        }
        if !is_same(&directories[shared], &segments[shared]) {
            return shared;
        }
        shared += 1;
    }
    shared
}

/// Appends a `..` to the list for each directory.
fn push_double_dots(
    list: &mut Vec<Segment<'_>>,
    directories: &[Segment<'_>],
) -> Result<(), AllocError>
    ensures { OnOk result (list.new.items ≡ list.old.items ++ spec.double_dots directories.now) }
{
    for _directory in directories {
        list.push(double_dot())?;
    }
    Ok(())
}

/// Whether the first segment is empty or has a colon.
fn begins_taken(segments: &[Segment<'_>]) -> bool
    ensures { result ≡ is_first spec.is_taken segments.now }
{
    match segments.first() {
        Some(first) => first.as_bytes().is_empty() || has_colon(first.as_bytes()),
        None => false,
    }
}

/// Whether a `..` for each directory, and then the segments, need a leading `.`.
fn needs_dot(directories: &[Segment<'_>], segments: &[Segment<'_>]) -> bool
    ensures { result ≡ is_first spec.is_taken (spec.double_dots directories.now ++ segments.now) }
{
    directories.is_empty() && begins_taken(segments)
}

/// Appends a `.` to the list if it is needed.
fn push_dot(list: &mut Vec<Segment<'_>>, needed: bool) -> Result<(), AllocError>
    ensures { OnOk result (list.new.items ≡ list.old.items ++ (if needed then (dot ∷ []) ∷ [] else [])) }
{
    if needed {
        list.push(single_dot())?;
    }
    Ok(())
}

/// A `..` for each directory, then the segments, with a leading `.` if it is needed. Borrows the
/// texts of the segments. Allocates the list once, and not for a single segment.
fn relative_segments<'p>(
    alloc: Global,
    directories: &[Segment<'_>],
    segments: &'p [Segment<'_>],
) -> Result<SegmentList<Segment<'p>>, AllocError>
    requires { length directories.now + length segments.now < max_segments }
    ensures { IfOk result (λ l. l ≡ spec.fronted (spec.double_dots directories.now ++ segments.now)) }
{
    let needs_dot = needs_dot(directories, segments);
    if directories.is_empty() && segments.len() == 1 && !needs_dot {
        return Ok(SegmentList::one(segments[0].as_borrowed()));
    }
    let mut list = Vec::with_capacity(alloc, directories.len() + segments.len() + 1)?;
    push_dot(&mut list, needs_dot)?;
    push_double_dots(&mut list, directories)?;
    push_borrowed(&mut list, segments)?;
    Ok(SegmentList::several(list))
}

/// Whether there are no directories, or the first one is also the first of the others.
fn stays_below(directories: &[Segment<'_>], segments: &[Segment<'_>]) -> bool
    ensures { result ≡ spec.stays_below directories.now segments.now }
{
    match directories {
        [first, ..] => match segments {
            [own, _, ..] => is_same(first, own),
            _ => false,
        },
        [] => true,
    }
}

/// Whether both lists have the same segments, with the same spelling.
fn are_same(left: &[Segment<'_>], right: &[Segment<'_>]) -> bool
    ensures { IsTrue result ↔ (left.now ≡ right.now) }
{
    if left.len() != right.len() {
        return false;
    }
    let mut at = 0;
    'segments: while at < left.len() {
        if !is_same(&left[at], &right[at]) {
            return false;
        }
        at += 1;
    }
    true
}

/// Whether the paths are the same, segment for segment, with the same spelling.
pub fn is_same_path(left: &Path<'_>, right: &Path<'_>) -> bool
    ensures { IsTrue result ↔ (left.now ≡ right.now) }
{
    left.is_absolute() == right.is_absolute() && are_same(left.segments(), right.segments())
}

/// The empty path. Does not allocate.
pub fn empty_path() -> Path<'static>
    ensures { result ≡ spec.no_path }
{
    let list = SegmentList::one(Segment::empty());
    Path::of(false, list, Counts::none(), false)
}

/// Whether both are absolute, or neither is and no `..` has to leave the base's first directory.
fn have_one_root(base: &Path<'_>, target: &Path<'_>) -> bool
    ensures { result ≡ spec.have_one_root base.now target.now }
{
    if base.is_absolute() {
        return target.is_absolute();
    }
    target.is_relative() && stays_below(directory(base.segments()), target.segments())
}

/// Whether they have one root in this way, and neither has a dot segment, except as the base's last
/// one.
fn may_lead(base: &Path<'_>, target: &Path<'_>) -> bool
    ensures { result ≡ spec.may_lead base.now target.now }
{
    have_one_root(base, target)
        && !has_dot_segment(directory(base.segments()))
        && !has_dot_segment(target.segments())
}

/// Returns the relative path that leads from the base's path to the target's, if there is one: a
/// `..` for each directory of the base that the target is not in, then the target's segments after
/// the shared directories. A leading `.` precedes a first segment that is empty or has a colon.
///
/// There is one if both paths are absolute, or if neither is and the target is in the base's first
/// directory or the base is in none. Neither may have a dot segment, except as the base's last one,
/// and they must not be too long. The result borrows the texts of the target's segments. Allocates
/// the list once.
pub fn leading_path<'p>(
    alloc: Global,
    base: &Path<'_>,
    target: &'p Path<'_>,
) -> Result<Option<Path<'p>>, AllocError>
    ensures { IfOk result (λ o. o ≡ spec.leading base.now target.now) }
{
    if !may_lead(base, target) {
        return Ok(None);
    }
    let directories = directory(base.segments());
    let segments = target.segments();
    let shared = shared_len(directories, segments);
    let left = &directories[shared..];
    let rest = &segments[shared..];
    if directories.len() + (left.len() + rest.len()) >= MAX_SEGMENTS {
        return Ok(None);
    }
    let segments = relative_segments(alloc, left, rest)?;
    Ok(Some(Path::of(false, segments, Counts::none(), false)))
}
