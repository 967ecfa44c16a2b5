//! Normal forms of paths: RFC 3986, sections 4.2 and 6.2.2.
ghost use Rattle.std.specs.Prelude.{◌≡◌, ◌↔◌, ◌<◌, true, false, not, IfOk, IsOk, IsTrue, OnOk, OnErr, length, map, slice_set};
ghost use Rattle.std.specs.List.{list_all};
ghost use Rattle.uriparse_text.specs.Canonical.{canonical};
ghost use Rattle.uriparse_path.specs.Path.{IsListed, starts_with_empty_segment, text};
ghost use Rattle.uriparse_path.specs.Relative as relative;
ghost use Rattle.uriparse_path.specs.Normal as spec;
ghost use Rattle.uriparse_path.specs.Copies as copy;
ghost use Rattle.uriparse_path.specs.Counts as tally;

use super::counts::Counts;
use super::dots::remove_dots;
use super::list::SegmentList;
use super::reduce::make_relative;
use super::rules::{
    are_canonical, begins_with_double_dots, has_needed_leading_dot, is_dot_prefixed,
};
use super::{Path, Segment};
use std::alloc::{AllocError, Global};
use uriparse_text::internal::normalized_text;

/// What precedes a path in a reference.
#[derive(Clone, Copy)]
pub struct PathContext {
    /// Without a scheme, a path whose text does not begin with a slash stays relative.
    pub has_scheme: bool,
    /// Without an authority, the path's text must not begin with two slashes.
    pub has_authority: bool,
}

impl PathContext {
    /// The place of a path on its own, in which two slashes may come first.
    fn alone(as_reference: bool) -> PathContext
        ensures { result ≡ record { has_scheme = not as_reference; has_authority = true } }
    {
        PathContext {
            has_scheme: !as_reference,
            has_authority: true,
        }
    }
}

/// Whether each segment is canonical.
fn all_canonical(segments: &[Segment<'_>]) -> bool
    ensures { result ≡ list_all spec.is_canonical segments.now }
{
    segments.iter().all(|segment| segment.is_normalized())
}

/// Whether the segments are in normal form, for a path that stays relative or for another. A call
/// of its own, since few paths need it.
#[inline(never)]
fn is_normal(stays_relative: bool, segments: &[Segment<'_>]) -> bool
    ensures { result ≡ spec.are_normal stays_relative segments.now }
{
    if stays_relative {
        all_canonical(segments)
            && (begins_with_double_dots(segments) || has_needed_leading_dot(segments))
    } else {
        are_canonical(segments)
    }
}

/// Whether the segments are in normal form, from their counts.
#[inline]
fn is_counted_normal(stays_relative: bool, counts: Counts, segments: &[Segment<'_>]) -> bool
    requires { counts ≡ tally.counts segments.now }
    ensures { result ≡ spec.are_normal stays_relative segments.now }
{
    if !counts.all_canonical() {
        return false;
    }
    if stays_relative {
        counts.begins_with_double_dots() || has_needed_leading_dot(segments)
    } else {
        !counts.has_dots()
    }
}

/// Copies of the segments that are not canonical, in canonical spelling and in order, each with its
/// place.
fn canonical_copies(
    alloc: Global,
    segments: &[Segment<'_>],
) -> Result<Vec<(usize, Segment<'static>)>, AllocError>
    ensures copies { IfOk result (λ v. v.items ≡ copy.placed 0 segments.now) }
    ensures takes_no_memory { list_all spec.is_canonical segments.now ≡ true → IsOk result }
{
    let mut copies = Vec::new(alloc);
    for at in 0..segments.len() {
        let segment = &segments[at];
        if !segment.is_normalized() {
            copies.push((at, normalized_text(alloc, segment)?))?;
        }
    }
    Ok(copies)
}

/// Replaces the segment at `at`.
fn put<'s>(segments: &mut [Segment<'s>], at: usize, segment: Segment<'s>)
    requires { at < length segments.old }
    ensures items { segments.new ≡ slice_set segments.old at segment.entry }
    ensures len { length segments.new ≡ length segments.old }
{
    segments[at] = segment;
}

/// Replaces the segments that are not canonical by these copies. The others are not looked at again.
fn put_copies<'s>(segments: &mut [Segment<'s>], copies: Vec<(usize, Segment<'s>)>)
    requires { copies.items ≡ copy.placed 0 segments.old }
    ensures { segments.new ≡ map canonical segments.old }
{
    for (at, copy) in copies {
        put(segments, at, copy);
    }
}

/// Replaces the segments of a list that are not canonical by these copies.
fn put_copies_in<'s>(list: &mut SegmentList<Segment<'s>>, copies: Vec<(usize, Segment<'s>)>)
    requires { copies.items ≡ copy.placed 0 list.old }
    ensures { list.new ≡ map canonical list.old }
{
    put_copies(list.as_mut_slice(), copies);
}

impl<'p> Path<'p> {
    /// Whether the path stays relative to a base: it may stand in a reference without a scheme,
    /// and its text does not begin with a slash.
    fn stays_relative(&self, as_reference: bool) -> bool
        ensures { result ≡ spec.stays_relative self.now as_reference }
    {
        as_reference && !self.is_rooted()
    }

    /// Whether the path has the text of its normal form: RFC 3986, section 6.2.2. Then it is that
    /// form, segment for segment. `as_reference` says whether it may be the path of a reference
    /// without a scheme. Does not allocate.
    pub fn is_normalized(&self, as_reference: bool) -> bool
        ensures text { IsTrue result ↔ (text (spec.pnormal self.now as_reference) ≡ text self.now) }
        ensures form { IsTrue result → spec.pnormal self.now as_reference ≡ self.now }
    {
        self.is_normal(self.stays_relative(as_reference))
    }

    /// Whether the segments are in normal form, for a path that stays relative or for another.
    #[inline]
    fn is_normal(&self, stays_relative: bool) -> bool
        ensures answer { result ≡ spec.are_normal stays_relative self.now.segments }
        ensures listed { IsListed self.now.segments }
    {
        let segments = self.segments();
        match self.known_counts() {
            Some(counts) => is_counted_normal(stays_relative, counts, segments),
            None => is_normal(stays_relative, segments),
        }
    }

    /// Whether the segments are known to be in normal form.
    fn is_known_normal(&self, stays_relative: bool) -> bool
        ensures answer { result ≡ true → spec.are_normal stays_relative self.now.segments ≡ true }
        ensures listed { IsListed self.now.segments }
    {
        let segments = self.segments();
        match self.known_counts() {
            Some(counts) => is_counted_normal(stays_relative, counts, segments),
            None => false,
        }
    }

    /// Counts the segments, which are canonical, if their counts are not known.
    fn count_canonical(&mut self)
        requires { list_all spec.is_canonical self.old.segments ≡ true }
        ensures { self.new ≡ self.old }
    {
        if self.counts_known != 0 {
            return;
        }
        self.counts = Counts::of(self.segments.as_slice());
        self.counts_known = 1;
    }

    /// Replaces the segments that are not canonical by canonical copies.
    fn put_canonical(&mut self, copies: Vec<(usize, Segment<'p>)>)
        requires copied { copies.items ≡ copy.placed 0 self.old.segments }
        requires listed { IsListed self.old.segments }
        ensures { self.new ≡ spec.canonical_path self.old }
    {
        let counts = self.counts.of_canonical();
        put_copies_in(&mut self.segments, copies);
        self.counts = counts;
    }

    /// Brings each segment into canonical spelling. On an error the path is unchanged.
    fn make_canonical(&mut self, alloc: Global) -> Result<(), AllocError>
        ensures ok { OnOk result (self.new ≡ spec.canonical_path self.old) }
        ensures err { OnErr result (self.new ≡ self.old) }
        ensures takes_no_memory { list_all spec.is_canonical self.old.segments ≡ true → IsOk result }
        ensures listed { IsListed self.old.segments }
    {
        let segments = self.segments();
        if self.is_known_canonical() {
            return Ok(());
        }
        let copies = canonical_copies(alloc, segments)?;
        self.put_canonical(copies);
        self.count_canonical();
        Ok(())
    }

    /// Brings a path with canonical segments, whose text does not begin with a slash, into its
    /// relative normal form.
    fn shape_relative(&mut self)
        requires canonical { list_all spec.is_canonical self.old.segments ≡ true }
        requires relative { self.old.absolute ≡ false }
        requires shown { starts_with_empty_segment self.old.segments ≡ false }
        ensures { self.new ≡ record { absolute = false; segments = relative.ended self.old.segments (relative.reduced self.old.segments) } }
    {
        make_relative(&mut self.segments);
        self.counts = Counts::of(self.segments.as_slice());
        self.counts_known = 1;
    }

    /// Brings the path into its normal form: RFC 3986, sections 4.2 and 6.2.2. Each segment gets
    /// its canonical spelling.
    ///
    /// With `as_reference` the path may stand in a reference without a scheme. If so and its text
    /// does not begin with a slash, each `.` is removed, and each `..` together with the segment
    /// before it, if there is one that is no `..`. If a dot segment was last, an empty segment is
    /// last then, unless nothing is left or a `..` is last. So `a/b/..` becomes `a/`, and `../.`
    /// becomes `..`. A leading `.` is added if the text would otherwise begin with a slash, or if
    /// its first segment has a colon and the old first one had none.
    ///
    /// Dot segments of other paths are removed as by
    /// [`remove_dot_segments`](Path::remove_dot_segments). A second call changes nothing.
    ///
    /// Does not allocate if each segment is canonical. Otherwise the segments that are not
    /// canonical are copied before anything is replaced, so on an error the path is unchanged.
    pub fn normalize(&mut self, alloc: Global, as_reference: bool) -> Result<(), AllocError>
        ensures ok { OnOk result (self.new ≡ spec.pnormal self.old as_reference) }
        ensures err { OnErr result (self.new ≡ self.old) }
        ensures takes_no_memory { text (spec.pnormal self.old as_reference) ≡ text self.old → IsOk result }
        ensures canonical_takes_no_memory { spec.canonical_path self.old ≡ self.old → IsOk result }
    {
        normalize_path(self, alloc, PathContext::alone(as_reference))
    }
}

/// Whether the path has the text of its normal form at this place in a reference.
#[inline]
pub fn is_normal_path(path: &Path<'_>, context: PathContext) -> bool
    ensures { result ≡ spec.is_normal_at context path.now }
{
    let stays_relative = path.stays_relative(!context.has_scheme);
    path.is_normal(stays_relative)
        || (!context.has_authority && is_dot_prefixed(path.is_absolute(), path.segments()))
}

/// Brings the path into its normal form as [`Path::normalize`] does. Without an authority, a path
/// that would start with `//` gets a leading `/.`. Allocates copies of the segments that are not
/// canonical. On an error the path is unchanged.
pub fn normalize_path(
    path: &mut Path<'_>,
    alloc: Global,
    context: PathContext,
) -> Result<(), AllocError>
    requires { context.has_authority ≡ false → starts_with_empty_segment path.old.segments ≡ false }
    ensures ok { OnOk result (path.new ≡ spec.normal_at context path.old) }
    ensures err { OnErr result (path.new ≡ path.old) }
    ensures takes_no_memory { list_all spec.is_canonical path.old.segments ≡ true → IsOk result }
    ensures listed { IsListed path.old.segments }
{
    let stays_relative = path.stays_relative(!context.has_scheme);
    if path.is_known_normal(stays_relative) {
        return Ok(());
    }
    path.make_canonical(alloc)?;
    if stays_relative {
        path.shape_relative();
    } else {
        remove_dots(path, context.has_authority);
    }
    Ok(())
}
