//! Building a reference component by component.
ghost use Rattle.std.specs.Prelude.{◌≡◌, IsErr, None, Some};
ghost use Rattle.std.specs.Option.{option_copied};
ghost use Rattle.uriparse_text.specs.Readings.{if_present, of_piece};
ghost use Rattle.uriparse_path.specs.Faults as paths;
ghost use Rattle.uriparse_text.specs.declared.segment.error.PathError.TheVariants.{OutOfMemory};
ghost use Rattle.uriparse_authority.specs.Authority as authorities;
ghost use Rattle.uriparse_scheme.specs.Scheme as schemes;
ghost use Rattle.uriparse_reference.specs.declared.uri_reference.error.URIReferenceError.TheVariants as errors;

use super::URIReference;
use super::error::URIReferenceError;
use std::alloc::Global;
use std::marker::Model;
use std::mem;
use uriparse_authority::authority::Authority;
use uriparse_path::path::Path;
use uriparse_scheme::scheme::Scheme;
use uriparse_text::fragment::{Fragment, FragmentKind};
use uriparse_text::internal::{Held, find_text_if};
use uriparse_text::query::{Query, QueryKind};

/// Builds a reference component by component. Only the path is required.
///
/// Each call sets one component and leaves the others. Two builders are equal if they have the same
/// components, and these are equal.
///
/// ```
/// let mut builder = URIReference::builder();
/// builder.try_path(alloc, b"/a")?;
/// builder.try_query(Some(b"q"))?;
/// assert_eq!(builder.build()?.to_string(alloc)?.as_str(), "/a?q");
/// ```
#[derive(Debug, Drop)]
pub struct URIReferenceBuilder<'b> {
    scheme: Option<Scheme<'b>>,
    authority: Option<Authority<'b>>,
    path: Option<Path<'b>>,
    query: Option<Query<'b>>,
    fragment: Option<Fragment<'b>>,
}

impl<'b> Model for URIReferenceBuilder<'b> {
    ghost use Rattle.uriparse_reference.specs.Builder.{Held};

    ghost Value = { Held };

    ghost view = { λ b. record { scheme = b.scheme; authority = b.authority; path = b.path; query = b.query; fragment = b.fragment } };
}

/// Reads the scheme, if there is one.
fn read_scheme_if(text: Option<&[u8]>) -> Result<Option<Scheme<'_>>, URIReferenceError>
    ensures { result ≡ of_piece errors.Scheme (if_present schemes.reading (option_copied text.entry)) }
{
    match text {
        Some(text) => Ok(Some(Scheme::try_from_bytes(text)?)),
        None => Ok(None),
    }
}

/// Reads the authority, if there is one.
fn read_whole_authority_if(text: Option<&[u8]>) -> Result<Option<Authority<'_>>, URIReferenceError>
    ensures { result ≡ of_piece errors.Authority (if_present authorities.whole_reading (option_copied text.entry)) }
{
    match text {
        Some(text) => Ok(Some(Authority::try_from_bytes(text)?)),
        None => Ok(None),
    }
}

impl<'b> URIReferenceBuilder<'b> {
    ghost use Rattle.uriparse_text.specs.Readings.{Settles, SettlesUnless};
    ghost use Rattle.uriparse_reference.specs.Builder.{authority_read, built, fragment_read, nothing, path_read, query_read, scheme_read};

    /// A builder without any component. Does not allocate.
    pub fn new() -> URIReferenceBuilder<'b>
        ensures { result ≡ nothing }
    {
        URIReferenceBuilder {
            scheme: None,
            authority: None,
            path: None,
            query: None,
            fragment: None,
        }
    }

    /// Sets or removes the scheme. Does not allocate.
    pub fn scheme(&mut self, scheme: Option<Scheme<'b>>)
        ensures { self.new ≡ record self.old { scheme = scheme.entry } }
    {
        self.scheme = scheme;
    }

    /// Sets or removes the authority. Does not allocate.
    pub fn authority(&mut self, authority: Option<Authority<'b>>)
        ensures { self.new ≡ record self.old { authority = authority.entry } }
    {
        let _old = Held(mem::replace(&mut self.authority, authority));
    }

    /// Sets the path. Does not allocate.
    pub fn path(&mut self, path: Path<'b>)
        ensures { self.new ≡ record self.old { path = Some path.entry } }
    {
        let _old = mem::replace(&mut self.path, Some(path));
    }

    /// Sets or removes the query. Does not allocate.
    pub fn query(&mut self, query: Option<Query<'b>>)
        ensures { self.new ≡ record self.old { query = query.entry } }
    {
        self.query = query;
    }

    /// Sets or removes the fragment. Does not allocate.
    pub fn fragment(&mut self, fragment: Option<Fragment<'b>>)
        ensures { self.new ≡ record self.old { fragment = fragment.entry } }
    {
        self.fragment = fragment;
    }

    /// The builder with this scheme, or without one. Does not allocate.
    pub fn with_scheme(self, scheme: Option<Scheme<'b>>) -> URIReferenceBuilder<'b>
        ensures { result ≡ record self.entry { scheme = scheme.entry } }
    {
        let mut builder = self;
        builder.scheme(scheme);
        builder
    }

    /// The builder with this authority, or without one. Does not allocate.
    pub fn with_authority(self, authority: Option<Authority<'b>>) -> URIReferenceBuilder<'b>
        ensures { result ≡ record self.entry { authority = authority.entry } }
    {
        let mut builder = self;
        builder.authority(authority);
        builder
    }

    /// The builder with this path. Does not allocate.
    pub fn with_path(self, path: Path<'b>) -> URIReferenceBuilder<'b>
        ensures { result ≡ record self.entry { path = Some path.entry } }
    {
        let mut builder = self;
        builder.path(path);
        builder
    }

    /// The builder with this query, or without one. Does not allocate.
    pub fn with_query(self, query: Option<Query<'b>>) -> URIReferenceBuilder<'b>
        ensures { result ≡ record self.entry { query = query.entry } }
    {
        let mut builder = self;
        builder.query(query);
        builder
    }

    /// The builder with this fragment, or without one. Does not allocate.
    pub fn with_fragment(self, fragment: Option<Fragment<'b>>) -> URIReferenceBuilder<'b>
        ensures { result ≡ record self.entry { fragment = fragment.entry } }
    {
        let mut builder = self;
        builder.fragment(fragment);
        builder
    }

    /// Reads and sets the scheme, or removes it. Rejects a text that is not a scheme with
    /// [`Scheme`](URIReferenceError::Scheme), and leaves the builder unchanged. Does not allocate.
    pub fn try_scheme(&mut self, scheme: Option<&'b [u8]>) -> Result<(), URIReferenceError>
        ensures { Settles self.old self.new result (scheme_read self.old (option_copied scheme.entry)) }
    {
        let scheme = read_scheme_if(scheme)?;
        self.scheme(scheme);
        Ok(())
    }

    /// Reads and sets the authority, or removes it. Rejects a text that is not an authority with
    /// [`Authority`](URIReferenceError::Authority), and leaves the builder unchanged. Does not
    /// allocate.
    pub fn try_authority(&mut self, authority: Option<&'b [u8]>) -> Result<(), URIReferenceError>
        ensures { Settles self.old self.new result (authority_read self.old (option_copied authority.entry)) }
    {
        let authority = read_whole_authority_if(authority)?;
        self.authority(authority);
        Ok(())
    }

    /// Reads and sets the path. Rejects a text that is not a path with
    /// [`Path`](URIReferenceError::Path), even if memory has run out. Allocates only the list of
    /// segments, if there is more than one; if memory runs out, the error is [`Path`](URIReferenceError::Path) of
    /// [`OutOfMemory`](uriparse_path::path::PathError::OutOfMemory). After an error the builder is
    /// unchanged.
    pub fn try_path(&mut self, alloc: Global, path: &'b [u8]) -> Result<(), URIReferenceError>
        ensures settles { SettlesUnless (errors.Path OutOfMemory) self.old self.new result (path_read self.old path.now) }
        ensures always { IsErr (paths.reading path.now) → Settles self.old self.new result (path_read self.old path.now) }
    {
        let path = Path::try_from_bytes(alloc, path)?;
        self.path(path);
        Ok(())
    }

    /// Reads and sets the query, or removes it. Rejects a text that is not a query with
    /// [`Query`](URIReferenceError::Query), and leaves the builder unchanged. Does not allocate.
    pub fn try_query(&mut self, query: Option<&'b [u8]>) -> Result<(), URIReferenceError>
        ensures { Settles self.old self.new result (query_read self.old (option_copied query.entry)) }
    {
        let query = find_text_if::<QueryKind>(query)?;
        self.query(query.to_text());
        Ok(())
    }

    /// Reads and sets the fragment, or removes it. Rejects a text that is not a fragment with
    /// [`Fragment`](URIReferenceError::Fragment), and leaves the builder unchanged. Does not
    /// allocate.
    pub fn try_fragment(&mut self, fragment: Option<&'b [u8]>) -> Result<(), URIReferenceError>
        ensures { Settles self.old self.new result (fragment_read self.old (option_copied fragment.entry)) }
    {
        let fragment = find_text_if::<FragmentKind>(fragment)?;
        self.fragment(fragment.to_text());
        Ok(())
    }

    /// Builds the reference. Does not allocate.
    ///
    /// Fails with [`MissingPath`](URIReferenceError::MissingPath) if there is no path, else as
    /// [`from_parts`](URIReference::from_parts) does. An error consumes the builder.
    pub fn build(self) -> Result<URIReference<'b>, URIReferenceError>
        ensures { result ≡ built self.entry }
    {
        let URIReferenceBuilder {
            scheme,
            authority,
            path,
            query,
            fragment,
        } = self;
        let others = Held((scheme, authority, query, fragment));
        match path {
            Some(path) => {
                let (scheme, authority, query, fragment) = others.take();
                URIReference::from_parts(scheme, authority, path, query, fragment)
            }
            None => Err(URIReferenceError::MissingPath),
        }
    }
}

impl<'b> Default for URIReferenceBuilder<'b> {
    ghost use Rattle.uriparse_reference.specs.Builder.{nothing};

    ghost is_default = { λ b. b ≡ nothing };

    fn default() -> URIReferenceBuilder<'b> {
        URIReferenceBuilder::new()
    }
}

impl<'b> PartialEq for URIReferenceBuilder<'b> {
    ghost use Rattle.std.proofs.Common.{rules};
    ghost use Rattle.std.specs.Cmp.Rules.{comparing};
    ghost use Rattle.uriparse_reference.specs.Builder.{alike};

    ghost eq = { alike };

    ghost laws = { Prim.search (comparing, rules) depth 10 };

    fn eq(&self, other: &URIReferenceBuilder<'b>) -> bool {
        self.scheme == other.scheme
            && self.authority == other.authority
            && self.path == other.path
            && self.query == other.query
            && self.fragment == other.fragment
    }
}

impl<'b> Eq for URIReferenceBuilder<'b> {
    ghost use Rattle.std.proofs.Common.{rules};
    ghost use Rattle.std.specs.Cmp.Rules.{comparing};

    ghost laws = { Prim.search (comparing, rules) depth 10 };
}

impl<'r> URIReference<'r> {
    ghost use Rattle.uriparse_reference.specs.Builder.{held, nothing};
    ghost use Rattle.uriparse_reference.specs.Reference.{Valid};

    /// A builder without any component. Does not allocate.
    pub fn builder() -> URIReferenceBuilder<'r>
        ensures { result ≡ nothing }
    {
        URIReferenceBuilder::new()
    }

    /// A builder with this reference's components, which builds the same reference. Does not
    /// allocate.
    pub fn into_builder(self) -> URIReferenceBuilder<'r>
        ensures parts { result ≡ held self.entry }
        ensures valid { Valid self.entry }
    {
        let (scheme, authority, path, query, fragment) = self.into_parts();
        URIReferenceBuilder {
            scheme,
            authority,
            path: Some(path),
            query,
            fragment,
        }
    }
}
