//! Edits of a path by segments: RFC 3986, section 3.3.
ghost use Rattle.std.specs.Prelude.{◌≡◌, ◌<◌, ◌∷◌, ◌++◌, [], IfErr, OnOk, OnErr, MatchResult, if◌then◌else◌, length, true};
ghost use Rattle.std.specs.Borrow.{sem};
ghost use Rattle.uriparse_text.specs.Readings.{SettlesUnless};
ghost use Rattle.uriparse_text.specs.declared.segment.error.PathError.TheVariants as errors;
ghost use Rattle.uriparse_text.specs.Segment as segment;
ghost use Rattle.uriparse_path.specs.Path.{max_segments};
ghost use Rattle.uriparse_path.specs.Edits as spec;
ghost use Rattle.uriparse_path.specs.Counts as counting;
ghost use Rattle.uriparse_path.specs.Dots.{all_but_last};
ghost use Rattle.uriparse_path.specs.Relative.{filled};

use super::counts::{Counts, Dotted};
use super::list::SegmentList;
use super::segments::replaces_only_empty;
use super::{MAX_SEGMENTS, Path, PathError, PathOf, Segment, word_of};
use std::alloc::{AllocError, Global};

/// Appends the segment, or replaces the only, empty one by it.
fn put_last<'p>(
    alloc: Global,
    segments: &mut SegmentList<Segment<'p>>,
    segment: Segment<'p>,
) -> Result<(), PathError>
    requires { 0 < length segments.old }
    ensures { MatchResult result (λ _. segments.new ≡ spec.with_last segments.old segment.entry) (λ e. (e ≡ errors.OutOfMemory) × (segments.new ≡ segments.old)) }
{
    if replaces_only_empty(segments.as_slice(), &segment) {
        segments.put(0, segment);
        return Ok(());
    }
    segments.push(alloc, segment)?;
    Ok(())
}

/// Removes the last segment. The only one is replaced by an empty one.
fn take_last(segments: &mut SegmentList<Segment<'_>>)
    requires { 0 < length segments.old }
    ensures { segments.new ≡ filled (all_but_last segments.old) }
{
    let len = segments.len();
    if len == 1 {
        segments.put(0, Segment::empty());
        return;
    }
    segments.truncate(len - 1);
}

/// The counts after a push, if they were known.
fn pushed_counts(
    counts_known: bool,
    counts: Counts,
    segments: &[Segment<'_>],
    segment: &Segment<'_>,
) -> Counts
    requires counted { counts_known ≡ true → counts ≡ counting.counts segments.now }
    requires room { length segments.now < u32.MAX }
    ensures { counts_known ≡ true → result ≡ counting.counts (spec.with_last segments.now segment.now) }
{
    if counts_known {
        counts.pushed(segments, segment)
    } else {
        counts
    }
}

/// The counts without the last segment, if they were known.
fn popped_counts(counts_known: bool, counts: Counts, segments: &[Segment<'_>]) -> Counts
    requires { counts_known ≡ true → counts ≡ counting.counts segments.now }
    ensures { counts_known ≡ true → result ≡ counting.counts (filled (all_but_last segments.now)) }
{
    if counts_known {
        counts.without_last(segments)
    } else {
        counts
    }
}

/// The new counts or the old ones.
fn new_or_old(is_new: bool, new: Counts, old: Counts) -> Counts
    ensures { result ≡ (if is_new then new else old) }
{
    if is_new { new } else { old }
}

impl<'p> Path<'p> {
    /// Appends the segment. A nonempty one replaces an empty segment that is the only one, so
    /// pushing `a` onto the empty path yields `a`, not `/a`.
    ///
    /// Returns [`ExceededMaximumLength`](PathError::ExceededMaximumLength) if the path has
    /// [`MAX_SEGMENTS`] already, else [`OutOfMemory`](PathError::OutOfMemory) if the list cannot
    /// grow. The list grows by doubling. On an error the path is unchanged.
    pub fn push(&mut self, alloc: Global, segment: Segment<'p>) -> Result<(), PathError>
        ensures answer { SettlesUnless errors.OutOfMemory self.old self.new result (spec.pushing self.old (Ok segment.entry)) }
        ensures always { IfErr (spec.pushing self.old (Ok segment.entry)) (λ e. result ≡ Err e) }
    {
        if self.segments.len() >= MAX_SEGMENTS {
            return Err(PathError::ExceededMaximumLength);
        }
        let counts = pushed_counts(
            self.counts_known != 0,
            self.counts,
            self.segments.as_slice(),
            &segment,
        );
        let result = put_last(alloc, &mut self.segments, segment);
        self.counts = new_or_old(result.is_ok(), counts, self.counts);
        result
    }

    /// Reads a segment, which borrows the bytes, and appends it as [`push`](Path::push) does.
    ///
    /// Returns [`ExceededMaximumLength`](PathError::ExceededMaximumLength) if the path has
    /// [`MAX_SEGMENTS`] already, else the error of [`Segment::try_from_bytes`], which rejects a
    /// slash too, else [`OutOfMemory`](PathError::OutOfMemory) if the list cannot grow. On an error
    /// the path is unchanged.
    pub fn push_bytes(&mut self, alloc: Global, bytes: &'p [u8]) -> Result<(), PathError>
        ensures answer { SettlesUnless errors.OutOfMemory self.old self.new result (spec.pushing self.old (segment.reading bytes.now)) }
        ensures always { IfErr (spec.pushing self.old (segment.reading bytes.now)) (λ e. result ≡ Err e) }
    {
        if self.segments.len() >= MAX_SEGMENTS {
            return Err(PathError::ExceededMaximumLength);
        }
        self.push(alloc, Segment::try_from_bytes(bytes)?)
    }

    /// Removes the last segment. The only one is replaced by an empty one. The path stays absolute
    /// or relative. Does not allocate.
    pub fn pop(&mut self)
        ensures { self.new ≡ spec.popped self.old }
    {
        let counts = popped_counts(
            self.counts_known != 0,
            self.counts,
            self.segments.as_slice(),
        );
        take_last(&mut self.segments);
        self.counts = counts;
    }

    /// Replaces all segments by one empty segment. The path stays absolute or relative. Does not
    /// allocate.
    pub fn clear(&mut self)
        ensures { self.new ≡ spec.cleared self.old }
    {
        self.segments.truncate(1);
        self.segments.put(0, Segment::empty());
        self.counts = Counts::none();
        self.counts_known = 1;
    }

    /// Makes the path absolute or relative, and keeps the segments. Does not allocate.
    pub fn set_absolute(&mut self, absolute: bool)
        ensures { self.new ≡ record self.old { absolute = absolute } }
    {
        self.absolute = word_of(absolute);
    }
}

impl<S: Dotted> PathOf<S> {
    ghost use Rattle.uriparse_path.specs.Lends.{lends_segments};

    /// The segments in order, for writing. Nothing else changes, and their number stays the same.
    /// Does not allocate.
    pub fn segments_mut(&mut self) -> &mut [S]
        ensures* lends { sem 𝓛 (lends_segments S.row S.Dotted self.entry result) }
        ensures value { result.now ≡ self.old.segments }
    {
        self.counts_known = 0;
        self.segments.as_mut_slice()
    }
}
