//! Building a reference from its components, and taking it apart: RFC 3986, sections 3 and 4.1.
ghost use Rattle.std.specs.Prelude.{◌≡◌};
ghost use Rattle.uriparse_reference.specs.Edits.{of_parts};
ghost use Rattle.uriparse_reference.specs.Reference.{Valid};

use super::URIReference;
use super::edit::{adjusted_path, path_conflict};
use super::error::URIReferenceError;
use uriparse_authority::authority::Authority;
use uriparse_path::path::Path;
use uriparse_scheme::scheme::Scheme;
use uriparse_text::fragment::Fragment;
use uriparse_text::query::Query;

impl<'r> URIReference<'r> {
    /// Builds a reference from its components: RFC 3986, sections 3.3 and 4.2. With an authority
    /// the path is made absolute, else it becomes the one that its text spells. Does not allocate.
    ///
    /// Without an authority, fails with
    /// [`AbsolutePathStartsWithTwoSlashes`](URIReferenceError::AbsolutePathStartsWithTwoSlashes) if
    /// the path's text starts with `//`; without a scheme too, with
    /// [`SchemelessPathStartsWithColonSegment`](URIReferenceError::SchemelessPathStartsWithColonSegment)
    /// if it has a colon before any slash.
    pub fn from_parts(
        scheme: Option<Scheme<'r>>,
        authority: Option<Authority<'r>>,
        path: Path<'r>,
        query: Option<Query<'r>>,
        fragment: Option<Fragment<'r>>,
    ) -> Result<URIReference<'r>, URIReferenceError>
        ensures { result ≡ of_parts (record { scheme = scheme.entry; authority = authority.entry; path = path.entry; query = query.entry; fragment = fragment.entry }) }
    {
        let has_scheme = scheme.is_some();
        let has_authority = authority.is_some();
        match path_conflict(has_scheme, has_authority, &path) {
            Some(error) => Err(error),
            None => Ok(URIReference {
                scheme,
                authority,
                path: adjusted_path(has_authority, path),
                query,
                fragment,
            }),
        }
    }

    /// The scheme, the authority, the path, the query and the fragment. Does not allocate.
    pub fn into_parts(
        self,
    ) -> (
        Option<Scheme<'r>>,
        Option<Authority<'r>>,
        Path<'r>,
        Option<Query<'r>>,
        Option<Fragment<'r>>,
    )
        ensures scheme { result.0 ≡ self.entry.scheme }
        ensures authority { result.1 ≡ self.entry.authority }
        ensures path { result.2 ≡ self.entry.path }
        ensures query { result.3 ≡ self.entry.query }
        ensures fragment { result.4 ≡ self.entry.fragment }
        ensures valid { Valid self.entry }
    {
        let URIReference {
            scheme,
            authority,
            path,
            query,
            fragment,
        } = self;
        (scheme, authority, path, query, fragment)
    }
}
