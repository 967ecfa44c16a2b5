//! Changing a reference: RFC 3986, section 4.1.
ghost use Rattle.std.specs.Prelude.{◌≡◌, Ok, Some, None, is_some, length, MatchResult};
ghost use Rattle.uriparse_path.specs.Path.{IsListed, text};
ghost use Rattle.uriparse_reference.specs.Reference.{path_refusal};
ghost use Rattle.uriparse_reference.specs.Edits.{placed};

use super::URIReference;
use super::error::URIReferenceError;
use std::alloc::Global;
use std::mem;
use uriparse_authority::authority::Authority;
use uriparse_path::internal::{has_two_slashes, into_absolute, lacks_colon_segment, respell};
use uriparse_path::path::{Path, PathError};
use uriparse_scheme::scheme::Scheme;
use uriparse_text::fragment::Fragment;
use uriparse_text::query::Query;

mod authority;

/// One change of a reference, for [`apply_all`](URIReference::apply_all): what the setter of that
/// name does, or [`normalize`](URIReference::normalize).
///
/// ```
/// let mut reference = URIReference::try_from_str(alloc, "http://h/%7Ea#f")?;
/// let mut edits = Vec::new(alloc);
/// edits.push(Edit::Fragment(None))?;
/// edits.push(Edit::Normalize)?;
/// reference.apply_all(alloc, edits)?;
/// assert_eq!(reference.to_string(alloc)?.as_str(), "http://h/~a");
/// ```
#[derive(Drop)]
pub enum Edit<'e> {
    /// Sets or removes the scheme.
    Scheme(Option<Scheme<'e>>),
    /// Sets or removes the authority.
    Authority(Option<Authority<'e>>),
    /// Sets the path.
    Path(Path<'e>),
    /// Sets or removes the query.
    Query(Option<Query<'e>>),
    /// Sets or removes the fragment.
    Fragment(Option<Fragment<'e>>),
    /// Normalizes the reference.
    Normalize,
}

/// Why the path is not allowed, given whether there is a scheme and an authority.
pub(super) fn path_conflict(
    has_scheme: bool,
    has_authority: bool,
    path: &Path<'_>,
) -> Option<URIReferenceError>
    ensures refusal { result ≡ path_refusal has_scheme has_authority (text path.now) }
    ensures listed { IsListed path.now.segments }
{
    let starts_with_two_slashes = has_two_slashes(path);
    if has_authority {
        return None;
    }
    if starts_with_two_slashes {
        return Some(URIReferenceError::AbsolutePathStartsWithTwoSlashes);
    }
    if has_scheme || lacks_colon_segment(path) {
        return None;
    }
    Some(URIReferenceError::SchemelessPathStartsWithColonSegment)
}

/// Makes the path the one that a reference holds, with or without an authority.
pub(super) fn fit_path(has_authority: bool, path: &mut Path<'_>)
    ensures { path.new ≡ placed has_authority path.old }
{
    if has_authority {
        path.set_absolute(true);
    } else {
        respell(path);
    }
}

/// The path as a reference holds it, with or without an authority.
pub(super) fn adjusted_path(has_authority: bool, path: Path<'_>) -> Path<'_>
    ensures { result ≡ placed has_authority path.entry }
{
    let mut path = path;
    fit_path(has_authority, &mut path);
    path
}

/// Puts a path in the place of another one.
fn put_path<'r>(held: &mut Path<'r>, path: Path<'r>)
    ensures { held.new ≡ path.entry }
{
    let _old = mem::replace(held, path);
}

impl<'r> URIReference<'r> {
    ghost use Rattle.uriparse_text.specs.Readings.{Settles};
    ghost use Rattle.uriparse_reference.specs.Edits.{IsRefused, Run, WantsMemory, edited};
    ghost use Rattle.uriparse_reference.specs.Normal.{normal};
    ghost use Rattle.uriparse_reference.specs.declared.uri_reference.edit.Edit.TheVariants as edits;

    /// Sets or removes the scheme. With neither a scheme nor an authority, fails with
    /// [`SchemelessPathStartsWithColonSegment`](URIReferenceError::SchemelessPathStartsWithColonSegment)
    /// if the path's text has a colon before any slash; the reference is then unchanged. Does not
    /// allocate.
    pub fn set_scheme(&mut self, scheme: Option<Scheme<'r>>) -> Result<(), URIReferenceError>
        ensures { Settles self.old self.new result (edited self.old (edits.Scheme scheme.entry)) }
    {
        match path_conflict(scheme.is_some(), self.authority.is_some(), &self.path) {
            Some(error) => Err(error),
            None => {
                self.scheme = scheme;
                Ok(())
            }
        }
    }

    /// Sets the authority, and makes the path absolute.
    fn put_authority(&mut self, authority: Authority<'r>)
        ensures { edited self.old (edits.Authority (Some authority.entry)) ≡ Ok self.new }
    {
        self.path.set_absolute(true);
        let _old = self.authority.replace(authority);
    }

    /// Removes the authority, unless the path's text starts with `//`.
    fn remove_authority(&mut self) -> Result<(), URIReferenceError>
        ensures { Settles self.old self.new result (edited self.old (edits.Authority None)) }
    {
        match path_conflict(self.scheme.is_some(), false, &self.path) {
            Some(error) => Err(error),
            None => {
                self.authority = None;
                Ok(())
            }
        }
    }

    /// Sets the authority and makes the path absolute, or removes the authority. Removing it may
    /// fail as [`from_parts`](URIReference::from_parts) does; the reference is then unchanged. Does
    /// not allocate.
    pub fn set_authority(
        &mut self,
        authority: Option<Authority<'r>>,
    ) -> Result<(), URIReferenceError>
        ensures { Settles self.old self.new result (edited self.old (edits.Authority authority.entry)) }
    {
        match authority {
            Some(authority) => {
                self.put_authority(authority);
                Ok(())
            }
            None => self.remove_authority(),
        }
    }

    /// Sets the path. With an authority it is made absolute, else it becomes the one that its text
    /// spells. Fails as [`from_parts`](URIReference::from_parts) does; the reference is then
    /// unchanged. Does not allocate.
    pub fn set_path(&mut self, path: Path<'r>) -> Result<(), URIReferenceError>
        ensures { Settles self.old self.new result (edited self.old (edits.Path path.entry)) }
    {
        let has_authority = self.authority.is_some();
        match path_conflict(self.scheme.is_some(), has_authority, &path) {
            Some(error) => Err(error),
            None => {
                put_path(&mut self.path, adjusted_path(has_authority, path));
                Ok(())
            }
        }
    }

    /// Sets or removes the query. Never fails. Does not allocate.
    pub fn set_query(&mut self, query: Option<Query<'r>>) -> Result<(), URIReferenceError>
        ensures { Settles self.old self.new result (edited self.old (edits.Query query.entry)) }
    {
        self.query = query;
        Ok(())
    }

    /// Sets or removes the fragment. Never fails. Does not allocate.
    pub fn set_fragment(&mut self, fragment: Option<Fragment<'r>>) -> Result<(), URIReferenceError>
        ensures { Settles self.old self.new result (edited self.old (edits.Fragment fragment.entry)) }
    {
        self.fragment = fragment;
        Ok(())
    }

    /// Normalizes the reference, as one edit of a list.
    fn apply_normal(&mut self, alloc: Global) -> Result<(), URIReferenceError>
        ensures { MatchResult result (λ _. self.new ≡ normal self.old) (λ x. WantsMemory self.old edits.Normalize x × (self.new ≡ self.old)) }
    {
        match self.normalize(alloc) {
            Ok(()) => Ok(()),
            Err(_) => Err(URIReferenceError::Path(PathError::OutOfMemory)),
        }
    }

    /// Makes one edit, as [`apply_all`](URIReference::apply_all) does. Fails as its setter does, or
    /// if memory runs out; the reference is then unchanged.
    pub fn apply(&mut self, alloc: Global, edit: Edit<'r>) -> Result<(), URIReferenceError>
        ensures { MatchResult result (λ _. edited self.old edit.entry ≡ Ok self.new) (λ x. IsRefused self.old edit.entry x × (self.new ≡ self.old)) }
    {
        match edit {
            Edit::Scheme(scheme) => self.set_scheme(scheme),
            Edit::Authority(authority) => self.set_authority(authority),
            Edit::Path(path) => self.set_path(path),
            Edit::Query(query) => self.set_query(query),
            Edit::Fragment(fragment) => self.set_fragment(fragment),
            Edit::Normalize => self.apply_normal(alloc),
        }
    }

    /// Makes the edits in order, up to the first that fails. Returns the index of that one, from 0,
    /// and its error. The edits before it remain in effect.
    ///
    /// Only [`Normalize`](Edit::Normalize) allocates, and only if it changes the printed text and
    /// the text of some component is not canonical. If memory runs out, it fails with
    /// [`Path`](URIReferenceError::Path) of [`OutOfMemory`](PathError::OutOfMemory).
    pub fn apply_all(
        &mut self,
        alloc: Global,
        edits: Vec<Edit<'r>>,
    ) -> Result<(), (usize, URIReferenceError)>
        ensures { MatchResult result (λ _. Run self.old edits.entry.items (length edits.entry.items) self.new None) (λ e. Run self.old edits.entry.items e.0 self.new (Some e.1)) }
    {
        let mut index = 0;
        for edit in edits {
            if let Err(error) = self.apply(alloc, edit) {
                return Err((index, error));
            }
            index += 1;
        }
        Ok(())
    }

    /// Sets the scheme that the closure returns, as [`set_scheme`](URIReference::set_scheme) does.
    /// An error consumes the reference. Only the closure may allocate.
    pub fn map_scheme<F>(self, make: F) -> Result<URIReference<'r>, URIReferenceError>
    where
        F: FnOnce(Option<Scheme<'r>>) -> Option<Scheme<'r>>,
        requires { F.pre make self.scheme }
        ensures { (scheme : _) × F.post make self.entry.scheme scheme × (edited self.entry (edits.Scheme scheme) ≡ result) }
    {
        let (scheme, authority, path, query, fragment) = self.into_parts();
        URIReference::from_parts(make(scheme), authority, path, query, fragment)
    }

    /// Sets the authority that the closure returns, as
    /// [`set_authority`](URIReference::set_authority) does. An error consumes the reference. Only
    /// the closure may allocate.
    pub fn map_authority<F>(self, make: F) -> Result<URIReference<'r>, URIReferenceError>
    where
        F: FnOnce(Option<Authority<'r>>) -> Option<Authority<'r>>,
        requires { F.pre make self.authority }
        ensures { (authority : _) × F.post make self.entry.authority authority × (edited self.entry (edits.Authority authority) ≡ result) }
    {
        let (scheme, authority, path, query, fragment) = self.into_parts();
        URIReference::from_parts(scheme, make(authority), path, query, fragment)
    }

    /// Sets the path that the closure returns, as [`set_path`](URIReference::set_path) does. An
    /// error consumes the reference. Only the closure may allocate.
    pub fn map_path<F>(self, make: F) -> Result<URIReference<'r>, URIReferenceError>
    where
        F: FnOnce(Path<'r>) -> Path<'r>,
        requires { F.pre make self.path }
        ensures { (path : _) × F.post make self.entry.path path × (edited self.entry (edits.Path path) ≡ result) }
    {
        let (scheme, authority, path, query, fragment) = self.into_parts();
        URIReference::from_parts(scheme, authority, make(path), query, fragment)
    }

    /// Sets the query that the closure returns. Never fails. Only the closure may allocate.
    pub fn map_query<F>(self, make: F) -> Result<URIReference<'r>, URIReferenceError>
    where
        F: FnOnce(Option<Query<'r>>) -> Option<Query<'r>>,
        requires { F.pre make self.query }
        ensures { (query : _) × F.post make self.entry.query query × (edited self.entry (edits.Query query) ≡ result) }
    {
        let mut reference = self;
        let old = reference.query.take();
        reference.query = make(old);
        Ok(reference)
    }

    /// Sets the fragment that the closure returns. Never fails. Only the closure may allocate.
    pub fn map_fragment<F>(self, make: F) -> Result<URIReference<'r>, URIReferenceError>
    where
        F: FnOnce(Option<Fragment<'r>>) -> Option<Fragment<'r>>,
        requires { F.pre make self.fragment }
        ensures { (fragment : _) × F.post make self.entry.fragment fragment × (edited self.entry (edits.Fragment fragment) ≡ result) }
    {
        let mut reference = self;
        let old = reference.fragment.take();
        reference.fragment = make(old);
        Ok(reference)
    }
}
