//! Copies of a path. They allocate the list of several segments.
ghost use Rattle.std.specs.Prelude.{◌≡◌, IfOk, IsOk, length};

use super::list::{SegmentList, Storage};
use super::segments::push_borrowed;
use super::{Path, Segment};
use std::alloc::{AllocError, Global};

/// Copies of the segments that borrow their texts.
fn borrowed_segments<'s>(
    alloc: Global,
    segments: &'s [Segment<'_>],
) -> Result<Vec<Segment<'s>>, AllocError>
    ensures { IfOk result (λ v. v.items ≡ segments.now) }
{
    let mut borrowed = Vec::with_capacity(alloc, segments.len())?;
    push_borrowed(&mut borrowed, segments)?;
    Ok(borrowed)
}

/// The segments, owning their texts.
fn owned_segments(
    alloc: Global,
    segments: Vec<Segment<'_>>,
) -> Result<Vec<Segment<'static>>, AllocError>
    ensures { IfOk result (λ v. v.items ≡ segments.entry.items) }
{
    let mut owned = Vec::with_capacity(alloc, segments.len())?;
    for segment in segments {
        owned.push(segment.into_owned(alloc)?)?;
    }
    Ok(owned)
}

/// A copy of the list that borrows the texts of its segments. Allocates only for more than one.
fn borrowed_list<'s>(
    alloc: Global,
    list: &'s SegmentList<Segment<'_>>,
) -> Result<SegmentList<Segment<'s>>, AllocError>
    ensures copy { IfOk result (λ l. l ≡ list.now) }
    ensures takes_no_memory { length list.now ≡ 1 → IsOk result }
{
    match list.as_slice() {
        [only] => Ok(SegmentList::one(only.as_borrowed())),
        segments => Ok(SegmentList::several(borrowed_segments(alloc, segments)?)),
    }
}

/// The list, owning the texts of its segments.
fn owned_list(
    alloc: Global,
    list: SegmentList<Segment<'_>>,
) -> Result<SegmentList<Segment<'static>>, AllocError>
    ensures { IfOk result (λ l. l ≡ list.entry) }
{
    match list.kept {
        Storage::One(only) => Ok(SegmentList::one(only.into_owned(alloc)?)),
        Storage::Many(segments) => Ok(SegmentList::several(owned_segments(alloc, segments)?)),
    }
}

impl<'p> Path<'p> {
    /// A copy with segments that borrow the texts of this path's. Allocates the list once, if there
    /// is more than one segment.
    pub fn to_borrowed(&self, alloc: Global) -> Result<Path<'_>, AllocError>
        ensures copy { IfOk result (λ p. p ≡ self.now) }

        // One segment takes no memory.
        ensures takes_no_memory { length self.now.segments ≡ 1 → IsOk result }
    {
        Ok(Path {
            segments: borrowed_list(alloc, &self.segments)?,
            absolute: self.absolute,
            counts_known: self.counts_known,
            counts: self.counts,
        })
    }

    /// The path, with segments that own their texts. Allocates a copy of each borrowed text,
    /// and the list if there is more than one segment. On an error the path is lost.
    pub fn into_owned(self, alloc: Global) -> Result<Path<'static>, AllocError>
        ensures { IfOk result (λ p. p ≡ self.entry) }
    {
        Ok(Path {
            segments: owned_list(alloc, self.segments)?,
            absolute: self.absolute,
            counts_known: self.counts_known,
            counts: self.counts,
        })
    }

    /// A copy that owns its texts, in one call. Allocates a copy of each text and, for several
    /// segments, two lists of them, one of which is freed again.
    pub fn to_owned(&self, alloc: Global) -> Result<Path<'static>, AllocError>
        ensures { IfOk result (λ p. p ≡ self.now) }
    {
        self.to_borrowed(alloc)?.into_owned(alloc)
    }
}
