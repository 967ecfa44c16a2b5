//! A builder of references of one kind: what builders of URIs and of relative references share.
ghost use Rattle.std.specs.Prelude.{◌≡◌, IsErr, Some};
ghost use Rattle.std.specs.Option.{option_copied};
ghost use Rattle.uriparse_text.specs.Readings.{Settles, SettlesUnless};
ghost use Rattle.uriparse_path.specs.Faults as paths;
ghost use Rattle.uriparse_text.specs.declared.segment.error.PathError.TheVariants.{OutOfMemory};
ghost use Rattle.uriparse_reference.specs.declared.uri_reference.error.URIReferenceError.TheVariants as errors;
ghost use Rattle.uriparse.specs.Kinds.{HoldsKind, with_mapped_error};

use crate::kind::{ReferenceKind, map_error};
use std::alloc::Global;
use std::fmt;
use std::marker::{Model, PhantomData};
use uriparse_authority::authority::Authority;
use uriparse_path::path::Path;
use uriparse_reference::uri_reference::URIReferenceBuilder;
use uriparse_text::fragment::Fragment;
use uriparse_text::query::Query;

/// Builds a URI or a relative reference component by component. Users name it
/// [`URIBuilder`](crate::uri::URIBuilder) or
/// [`RelativeReferenceBuilder`](crate::relative_reference::RelativeReferenceBuilder).
///
/// Each call sets one component and leaves the others. Two builders are equal if they have the same
/// components, and these are equal.
#[derive(Drop)]
pub struct BuilderOf<'b, K: ReferenceKind> {
    pub(crate) builder: URIReferenceBuilder<'b>,
    kind: PhantomData<K>,
}

impl<'b, K: ReferenceKind> Model for BuilderOf<'b, K> {
    ghost use Rattle.uriparse_reference.specs.Builder.{Held};
    ghost use Rattle.uriparse.specs.Kinds.{HoldsKind};

    ghost Value = { Held };

    ghost view = { λ b. b.builder };

    ghost invariant = { λ b. HoldsKind K.has_scheme b.builder };
}

impl<'b, K: ReferenceKind> BuilderOf<'b, K> {
    ghost use Rattle.uriparse_reference.specs.Builder.{authority_read, fragment_read, nothing, path_read, query_read};

    /// Wraps a builder that is known to fit this kind.
    pub(crate) fn of_checked(builder: URIReferenceBuilder<'b>) -> BuilderOf<'b, K>
        requires { HoldsKind K.has_scheme builder }
        ensures { result ≡ builder.entry }
    {
        BuilderOf {
            builder,
            kind: PhantomData,
        }
    }

    /// A builder with no component. Does not allocate.
    pub fn new() -> BuilderOf<'b, K>
        ensures { result ≡ nothing }
    {
        BuilderOf::of_checked(URIReferenceBuilder::new())
    }

    /// Sets or removes the authority. Does not allocate.
    pub fn authority(&mut self, authority: Option<Authority<'b>>)
        ensures { self.new ≡ record self.old { authority = authority.entry } }
    {
        self.builder.authority(authority);
    }

    /// Sets the path. Does not allocate.
    pub fn path(&mut self, path: Path<'b>)
        ensures { self.new ≡ record self.old { path = Some path.entry } }
    {
        self.builder.path(path);
    }

    /// Sets or removes the query. Does not allocate.
    pub fn query(&mut self, query: Option<Query<'b>>)
        ensures { self.new ≡ record self.old { query = query.entry } }
    {
        self.builder.query(query);
    }

    /// Sets or removes the fragment. Does not allocate.
    pub fn fragment(&mut self, fragment: Option<Fragment<'b>>)
        ensures { self.new ≡ record self.old { fragment = fragment.entry } }
    {
        self.builder.fragment(fragment);
    }

    /// The builder with this authority, or with none. Does not allocate.
    pub fn with_authority(self, authority: Option<Authority<'b>>) -> BuilderOf<'b, K>
        ensures { result ≡ record self.entry { authority = authority.entry } }
    {
        BuilderOf::of_checked(self.builder.with_authority(authority))
    }

    /// The builder with this path. Does not allocate.
    pub fn with_path(self, path: Path<'b>) -> BuilderOf<'b, K>
        ensures { result ≡ record self.entry { path = Some path.entry } }
    {
        BuilderOf::of_checked(self.builder.with_path(path))
    }

    /// The builder with this query, or with none. Does not allocate.
    pub fn with_query(self, query: Option<Query<'b>>) -> BuilderOf<'b, K>
        ensures { result ≡ record self.entry { query = query.entry } }
    {
        BuilderOf::of_checked(self.builder.with_query(query))
    }

    /// The builder with this fragment, or with none. Does not allocate.
    pub fn with_fragment(self, fragment: Option<Fragment<'b>>) -> BuilderOf<'b, K>
        ensures { result ≡ record self.entry { fragment = fragment.entry } }
    {
        BuilderOf::of_checked(self.builder.with_fragment(fragment))
    }

    /// Reads and sets the authority, or removes it. A faulty text is rejected with the kind's error
    /// `Authority`, and the builder is unchanged. Does not allocate.
    pub fn try_authority(&mut self, authority: Option<&'b [u8]>) -> Result<(), K::Error>
        ensures { Settles self.old self.new result (with_mapped_error K.map_error (authority_read self.old (option_copied authority.entry))) }
    {
        map_error::<K, _>(self.builder.try_authority(authority))
    }

    /// Reads and sets the path. A faulty text is rejected with the kind's error `Path`, even if
    /// memory has run out. Allocates only the list of segments, if there is more than one; if memory
    /// runs out, the error is the kind's `Path` of [`OutOfMemory`](uriparse_path::path::PathError::OutOfMemory). After an
    /// error the builder is unchanged.
    pub fn try_path(&mut self, alloc: Global, path: &'b [u8]) -> Result<(), K::Error>
        ensures settles { SettlesUnless (K.map_error (errors.Path OutOfMemory)) self.old self.new result (with_mapped_error K.map_error (path_read self.old path.now)) }
        ensures always { IsErr (paths.reading path.now) → Settles self.old self.new result (with_mapped_error K.map_error (path_read self.old path.now)) }
    {
        map_error::<K, _>(self.builder.try_path(alloc, path))
    }

    /// Reads and sets the query, or removes it. A faulty text is rejected with the kind's error
    /// `Query`, and the builder is unchanged. Does not allocate.
    pub fn try_query(&mut self, query: Option<&'b [u8]>) -> Result<(), K::Error>
        ensures { Settles self.old self.new result (with_mapped_error K.map_error (query_read self.old (option_copied query.entry))) }
    {
        map_error::<K, _>(self.builder.try_query(query))
    }

    /// Reads and sets the fragment, or removes it. A faulty text is rejected with the kind's error
    /// `Fragment`, and the builder is unchanged. Does not allocate.
    pub fn try_fragment(&mut self, fragment: Option<&'b [u8]>) -> Result<(), K::Error>
        ensures { Settles self.old self.new result (with_mapped_error K.map_error (fragment_read self.old (option_copied fragment.entry))) }
    {
        map_error::<K, _>(self.builder.try_fragment(fragment))
    }
}

impl<'b, K: ReferenceKind> Default for BuilderOf<'b, K> {
    ghost use Rattle.uriparse_reference.specs.Builder.{nothing};

    ghost is_default = { λ b. b ≡ nothing };

    fn default() -> BuilderOf<'b, K> {
        BuilderOf::new()
    }
}

impl<'b, K: ReferenceKind> PartialEq for BuilderOf<'b, K> {
    ghost use Rattle.std.proofs.Common.{rules};
    ghost use Rattle.std.specs.Cmp.Rules.{comparing};
    ghost use Rattle.uriparse_reference.specs.Builder.{alike};

    ghost eq = { alike };

    ghost laws = { Prim.search (comparing, rules) depth 10 };

    fn eq(&self, other: &BuilderOf<'b, K>) -> bool {
        self.builder == other.builder
    }
}

impl<'b, K: ReferenceKind> Eq for BuilderOf<'b, K> {
    ghost use Rattle.std.proofs.Common.{rules};
    ghost use Rattle.std.specs.Cmp.Rules.{comparing};

    ghost laws = { Prim.search (comparing, rules) depth 10 };
}

impl<'b, K: ReferenceKind> fmt::Debug for BuilderOf<'b, K> {
    fn fmt<W: fmt::Write>(&self, f: &mut fmt::Formatter<W>) -> fmt::Result {
        f.debug_tuple("BuilderOf").field(&self.builder).finish()
    }
}
