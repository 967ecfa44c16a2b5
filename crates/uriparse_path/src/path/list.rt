//! The list of a path's segments, which needs memory only for more than one.
ghost use Rattle.std.specs.Prelude.{◌≡◌, ◌-◌, ◌<◌, ◌≤◌, ◌∷◌, ◌++◌, [], OnOk, OnErr, length, take, drop, slice_set};

use super::Segment;
use super::counts::Dotted;
use std::alloc::{AllocError, Global};
use std::marker::Model;
use std::{mem, slice};
use uriparse_text::internal::Held;

/// Where a list keeps its elements.
#[derive(Drop)]
pub(super) enum Storage<S> {
    One(S),
    Many(Vec<S>),
}

impl<S: Dotted> Storage<S> {
    ghost use Rattle.std.specs.Borrow.{sem};
    ghost use Rattle.uriparse_path.specs.List.{elements};
    ghost use Rattle.uriparse_path.specs.ListLends.{lends_storage};

    /// The elements, for writing.
    fn as_mut_slice(&mut self) -> &mut [S]
        ensures* lends { sem 𝓛 (lends_storage S.row S.Dotted self.entry result) }
        ensures value { result.now ≡ elements self.old }
    {
        match self {
            Storage::One(only) => slice::from_mut(only),
            Storage::Many(list) => list.as_mut_slice(),
        }
    }
}

/// A list of segments. The only one is kept in place, several are in a `Vec`.
#[derive(Drop)]
pub struct SegmentList<S> {
    pub(super) kept: Storage<S>,
}

impl<S> Model for SegmentList<S> {
    ghost use Rattle.std.specs.Prelude.{List};
    ghost use Rattle.uriparse_path.specs.List.{elements};

    ghost Value = { List S };

    ghost view = { λ l. elements l.kept };
}

impl<S> SegmentList<S> {
    /// The list of this segment. Does not allocate.
    #[inline(always)]
    pub(super) fn one(segment: S) -> SegmentList<S>
        ensures { result ≡ segment ∷ [] }
    {
        SegmentList {
            kept: Storage::One(segment),
        }
    }

    /// The list of these segments.
    #[inline(always)]
    pub(super) fn several(segments: Vec<S>) -> SegmentList<S>
        ensures { result ≡ segments.items }
    {
        SegmentList {
            kept: Storage::Many(segments),
        }
    }
}

impl<S: Dotted> SegmentList<S> {
    ghost use Rattle.std.specs.Borrow.{sem};
    ghost use Rattle.uriparse_path.specs.ListLends.{lends_list};

    /// The segments in order.
    #[inline(always)]
    pub(super) fn as_slice(&self) -> &[S]
        ensures { result.now ≡ self.now }
    {
        match &self.kept {
            Storage::One(only) => slice::from_ref(only),
            Storage::Many(list) => list.as_slice(),
        }
    }

    /// The segments in order, for writing.
    #[inline(always)]
    pub(super) fn as_mut_slice(&mut self) -> &mut [S]
        ensures* lends { sem 𝓛 (lends_list S.row S.Dotted self.entry result) }
        ensures value { result.now ≡ self.old }
    {
        self.kept.as_mut_slice()
    }

    /// The number of segments.
    #[inline(always)]
    pub(super) fn len(&self) -> usize
        ensures { result ≡ length self.now }
    {
        self.as_slice().len()
    }
}

impl<'p> SegmentList<Segment<'p>> {
    /// Replaces the segment at `at`.
    pub(super) fn put(&mut self, at: usize, segment: Segment<'p>)
        requires { at < length self.old }
        ensures items { self.new ≡ slice_set self.old at segment.entry }
        ensures len { length self.new ≡ length self.old }
        ensures fits { length self.new ≤ usize.MAX }
    {
        self.as_mut_slice()[at] = segment;
    }

    /// Appends the segment. On an error the list is unchanged.
    pub(super) fn push(&mut self, alloc: Global, segment: Segment<'p>) -> Result<(), AllocError>
        ensures ok { OnOk result (self.new ≡ self.old ++ segment.entry ∷ []) }
        ensures err { OnErr result (self.new ≡ self.old) }
    {
        let segment = Held(segment);
        if let Storage::Many(list) = &mut self.kept {
            list.push(segment.take())?;
            return Ok(());
        }
        let list = Vec::with_capacity(alloc, 2)?;
        let kept = mem::replace(&mut self.kept, Storage::Many(list));
        if let Storage::Many(list) = &mut self.kept {
            if let Storage::One(first) = kept {
                list.push_reserved(first);
            }
            list.push_reserved(segment.take());
        }
        Ok(())
    }

    /// Keeps the first `kept` segments.
    pub(super) fn truncate(&mut self, kept: usize)
        requires { 0 < kept }
        ensures { self.new ≡ take kept self.old }
    {
        if let Storage::Many(list) = &mut self.kept {
            list.truncate(kept);
        }
    }

    /// Moves the last segment to the front.
    pub(super) fn rotate_right(&mut self)
        requires { 0 < length self.old }
        ensures { self.new ≡ drop (length self.old - 1) self.old ++ take (length self.old - 1) self.old }
    {
        if let Storage::Many(list) = &mut self.kept {
            list.rotate_right(1);
        }
    }

    /// Removes the first segment, if others follow it.
    pub(super) fn remove_first(&mut self)
        requires { 1 < length self.old }
        ensures { self.new ≡ drop 1 self.old }
    {
        if let Storage::Many(list) = &mut self.kept {
            let _ = Held(list.remove(0));
        }
    }
}
