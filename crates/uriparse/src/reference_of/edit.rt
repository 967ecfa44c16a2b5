//! Changing the components of a URI or a relative reference.
ghost use Rattle.std.specs.Prelude.{◌≡◌, Ok};
ghost use Rattle.uriparse_text.specs.Readings.{Settles, SettlesUnless};
ghost use Rattle.uriparse_path.specs.Edits.{popped};
ghost use Rattle.uriparse_text.specs.declared.segment.error.PathError.TheVariants.{OutOfMemory};
ghost use Rattle.uriparse_reference.specs.declared.uri_reference.edit.Edit.TheVariants as edits;
ghost use Rattle.uriparse_reference.specs.declared.uri_reference.error.URIReferenceError.TheVariants as errors;
ghost use Rattle.uriparse_reference.specs.Edits.{edited, segment_pushed};
ghost use Rattle.uriparse.specs.Kinds.{with_mapped_error};

use super::ReferenceOf;
use crate::kind::{ReferenceKind, map_error};
use std::alloc::Global;
use uriparse_authority::authority::Authority;
use uriparse_path::path::{Path, Segment};
use uriparse_text::fragment::Fragment;
use uriparse_text::query::Query;

impl<'r, K: ReferenceKind> ReferenceOf<'r, K> {
    /// Sets the authority and makes the path absolute, or removes the authority. If the path's text
    /// begins with two slashes, removing it fails with the kind's error
    /// `AbsolutePathStartsWithTwoSlashes`, and the value is unchanged. Does not allocate.
    pub fn set_authority(&mut self, authority: Option<Authority<'r>>) -> Result<(), K::Error>
        ensures { Settles self.old self.new result (with_mapped_error K.map_error (edited self.old (edits.Authority authority.entry))) }
    {
        map_error::<K, _>(self.reference.set_authority(authority))
    }

    /// Sets the path. With an authority it is made absolute, else it becomes the one that its text
    /// spells. Without an authority, fails with the kind's error `AbsolutePathStartsWithTwoSlashes`
    /// if the path's text begins with two slashes; without a scheme too, with
    /// `SchemelessPathStartsWithColonSegment` if it has a colon before any slash. The value is then
    /// unchanged. Does not allocate.
    pub fn set_path(&mut self, path: Path<'r>) -> Result<(), K::Error>
        ensures { Settles self.old self.new result (with_mapped_error K.map_error (edited self.old (edits.Path path.entry))) }
    {
        map_error::<K, _>(self.reference.set_path(path))
    }

    /// Appends a segment to the path, as
    /// [`push_segment`](uriparse_reference::uri_reference::URIReference::push_segment) does, with errors mapped to the kind's. On an
    /// error the value is unchanged. Allocates if the list of segments has to grow.
    pub fn push_segment(&mut self, alloc: Global, segment: Segment<'r>) -> Result<(), K::Error>
        ensures { SettlesUnless (K.map_error (errors.Path OutOfMemory)) self.old self.new result (with_mapped_error K.map_error (segment_pushed self.old segment.entry)) }
    {
        map_error::<K, _>(self.reference.push_segment(alloc, segment))
    }

    /// Removes the last segment of the path: the only one is replaced by an empty one. Does not
    /// allocate.
    pub fn pop_segment(&mut self)
        ensures value { self.new ≡ record self.old { path = popped self.old.path } }
        ensures edited { edited self.old (edits.Path (popped self.old.path)) ≡ Ok self.new }
    {
        self.reference.pop_segment();
    }

    /// Sets or removes the query. Always succeeds. Does not allocate.
    pub fn set_query(&mut self, query: Option<Query<'r>>) -> Result<(), K::Error>
        ensures { Settles self.old self.new result (with_mapped_error K.map_error (edited self.old (edits.Query query.entry))) }
    {
        map_error::<K, _>(self.reference.set_query(query))
    }

    /// Sets or removes the fragment. Always succeeds. Does not allocate.
    pub fn set_fragment(&mut self, fragment: Option<Fragment<'r>>) -> Result<(), K::Error>
        ensures { Settles self.old self.new result (with_mapped_error K.map_error (edited self.old (edits.Fragment fragment.entry))) }
    {
        map_error::<K, _>(self.reference.set_fragment(fragment))
    }

    /// Sets the authority to what the closure returns for it, as
    /// [`set_authority`](ReferenceOf::set_authority) does, except that an error consumes the value.
    /// Does not allocate, unless the closure does.
    pub fn map_authority<F>(self, make: F) -> Result<ReferenceOf<'r, K>, K::Error>
    where
        F: FnOnce(Option<Authority<'r>>) -> Option<Authority<'r>>,
        requires { F.pre make self.authority }
        ensures { (authority : _) × F.post make self.entry.authority authority × (with_mapped_error K.map_error (edited self.entry (edits.Authority authority)) ≡ result) }
    {
        ReferenceOf::map_error_of_checked(self.reference.map_authority(make))
    }

    /// Sets the path to what the closure returns for it, as [`set_path`](ReferenceOf::set_path)
    /// does, except that an error consumes the value. Does not allocate, unless the closure does.
    pub fn map_path<F>(self, make: F) -> Result<ReferenceOf<'r, K>, K::Error>
    where
        F: FnOnce(Path<'r>) -> Path<'r>,
        requires { F.pre make self.path }
        ensures { (path : _) × F.post make self.entry.path path × (with_mapped_error K.map_error (edited self.entry (edits.Path path)) ≡ result) }
    {
        ReferenceOf::map_error_of_checked(self.reference.map_path(make))
    }

    /// Sets the query to what the closure returns for it. Always succeeds. Does not allocate,
    /// unless the closure does.
    pub fn map_query<F>(self, make: F) -> Result<ReferenceOf<'r, K>, K::Error>
    where
        F: FnOnce(Option<Query<'r>>) -> Option<Query<'r>>,
        requires { F.pre make self.query }
        ensures { (query : _) × F.post make self.entry.query query × (with_mapped_error K.map_error (edited self.entry (edits.Query query)) ≡ result) }
    {
        ReferenceOf::map_error_of_checked(self.reference.map_query(make))
    }

    /// Sets the fragment to what the closure returns for it. Always succeeds. Does not allocate,
    /// unless the closure does.
    pub fn map_fragment<F>(self, make: F) -> Result<ReferenceOf<'r, K>, K::Error>
    where
        F: FnOnce(Option<Fragment<'r>>) -> Option<Fragment<'r>>,
        requires { F.pre make self.fragment }
        ensures { (fragment : _) × F.post make self.entry.fragment fragment × (with_mapped_error K.map_error (edited self.entry (edits.Fragment fragment)) ≡ result) }
    {
        ReferenceOf::map_error_of_checked(self.reference.map_fragment(make))
    }
}
