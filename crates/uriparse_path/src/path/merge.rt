//! A reference's path merged with a base's: RFC 3986, section 5.2.3.
ghost use Rattle.std.specs.Prelude.{◌≡◌, ◌+◌, ◌<◌, ◌≤◌, ◌++◌, Err, IfErr, IfOk, IsOk, length, true};
ghost use Rattle.uriparse_text.specs.Readings.{IsUnless};
ghost use Rattle.uriparse_text.specs.declared.segment.error.PathError.TheVariants as errors;
ghost use Rattle.uriparse_path.specs.Path.{max_segments};
ghost use Rattle.uriparse_path.specs.Dots.{all_but_last};
ghost use Rattle.uriparse_path.specs.Merge.{merging};
ghost use Rattle.uriparse_path.specs.Counts as tally;

use super::counts::Counts;
use super::list::SegmentList;
use super::segments::{directory, push_borrowed};
use super::{MAX_SEGMENTS, Path, PathError, Segment};
use std::alloc::{AllocError, Global};

/// Both lists, one after the other. Allocates once, and not for a single segment.
fn joined<'p>(
    alloc: Global,
    front: &'p [Segment<'_>],
    back: &'p [Segment<'_>],
) -> Result<SegmentList<Segment<'p>>, AllocError>
    requires { length front.now + length back.now ≤ max_segments }
    ensures list { IfOk result (λ l. l ≡ front.now ++ back.now) }
    ensures takes_no_memory { length front.now ≡ 0 → length back.now ≡ 1 → IsOk result }
{
    if front.is_empty() && back.len() == 1 {
        return Ok(SegmentList::one(back[0].as_borrowed()));
    }
    let mut segments = Vec::with_capacity(alloc, front.len() + back.len())?;
    push_borrowed(&mut segments, front)?;
    push_borrowed(&mut segments, back)?;
    Ok(SegmentList::several(segments))
}

/// The counts of the merged segments, and whether they are known.
fn merged_counts(base: &Path<'_>, reference: &Path<'_>) -> (Counts, bool)
    requires { length (all_but_last base.now.segments) + length reference.now.segments ≤ u32.MAX }
    ensures { result.1 ≡ true → result.0 ≡ tally.counts (all_but_last base.now.segments ++ reference.now.segments) }
{
    match (base.known_counts(), reference.known_counts()) {
        (Some(front), Some(back)) => {
            let segments = base.segments();
            let counts = front
                .without_last(segments)
                .joined(directory(segments), back, reference.segments());
            (counts, true)
        }
        _ => (Counts::none(), false),
    }
}

/// Merges a reference's path with a base's: the base's segments without the last one, then the
/// reference's. All borrow their texts. The result is absolute if the base's path is.
///
/// Returns [`ExceededMaximumLength`](PathError::ExceededMaximumLength) if there would be more than
/// [`MAX_SEGMENTS`] segments, even if memory has run out. Otherwise allocates the list once, but not for
/// two single segments, and returns [`OutOfMemory`](PathError::OutOfMemory) if that fails.
pub fn merged_path<'p>(
    alloc: Global,
    base: &'p Path<'_>,
    reference: &'p Path<'_>,
) -> Result<Path<'p>, PathError>
    ensures answer { IsUnless errors.OutOfMemory result (merging base.now reference.now) }
    ensures always { IfErr (merging base.now reference.now) (λ e. result ≡ Err e) }
    ensures takes_no_memory { length base.now.segments ≡ 1 → length reference.now.segments ≡ 1 → IsOk result }
{
    let front = directory(base.segments());
    let back = reference.segments();
    if front.len() + back.len() > MAX_SEGMENTS {
        return Err(PathError::ExceededMaximumLength);
    }
    let segments = joined(alloc, front, back)?;
    let (counts, is_known) = merged_counts(base, reference);
    Ok(Path::of(base.is_absolute(), segments, counts, is_known))
}
