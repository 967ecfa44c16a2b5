//! A URI: RFC 3986, section 3.
ghost use Rattle.std.specs.Prelude.{◌≡◌, true, Ok, Some, IfSome, is_none};
ghost use Rattle.uriparse_text.specs.Readings.{Settles};
ghost use Rattle.uriparse_reference.specs.Edits.{of_parts};
ghost use Rattle.uriparse_reference.specs.Builder.{scheme_read};
ghost use Rattle.uriparse.specs.Kinds.{with_mapped_error};
ghost use Rattle.uriparse.specs.Uri as spec;

use crate::builder_of::BuilderOf;
use crate::kind::{ReferenceKind, map_error};
use crate::reference_of::ReferenceOf;
use uriparse_authority::authority::Authority;
use uriparse_path::path::Path;
use uriparse_reference::uri_reference::{URIReference, URIReferenceError};
use uriparse_scheme::scheme::Scheme;
use uriparse_text::fragment::Fragment;
use uriparse_text::query::Query;

mod disagreement;
mod error;
mod origin;
mod relate;
mod resolve;
mod text;
mod view;
mod within;

pub use disagreement::Disagreement;
pub use error::URIError;
pub use origin::Origin;
pub use text::URIText;
pub use view::URIView;

/// The kind of reference that a URI is.
pub struct WithScheme;

impl ReferenceKind for WithScheme {
    type Error = URIError;

    ghost use Rattle.std.specs.Prelude.{true};
    ghost use Rattle.uriparse.specs.Uri.{map_error};
    ghost use Rattle.uriparse.specs.declared.uri.error.URIError.TheVariants.{NotURI};

    ghost has_scheme = { true };

    ghost map_error = { map_error };

    ghost other = { NotURI };

    fn name() -> &'static str {
        "URI"
    }

    fn has_scheme() -> bool {
        true
    }

    fn map_error(error: URIReferenceError) -> URIError {
        URIError::from(error)
    }

    fn other() -> URIError {
        URIError::NotURI
    }
}

/// A URI: a reference with a scheme. RFC 3986, section 3.
///
/// Its components borrow the text that it was read from, or own their texts. Two URIs are equal if
/// their hosts, if present, are of one kind and the canonical spellings of their texts agree.
/// Reading allocates only the list of the path's segments, if there is more than one; an owned copy and a normal form allocate
/// texts too. A setter that fails changes nothing. [`URIError`] says what is rejected. The calls
/// that it shares with relative references are at [`ReferenceOf`].
///
/// ```
/// let uri = URI::try_from_str(alloc, "HTTP://h/%7Ea?q#f")?;
/// assert!(uri.scheme() == &Scheme::HTTP && uri.has_authority());
/// assert_eq!(uri.into_base_uri().to_string(alloc)?.as_str(), "http://h/%7Ea?q");
/// ```
pub type URI<'u> = ReferenceOf<'u, WithScheme>;

/// Builds a URI component by component. A path and a scheme are required. The calls that it shares
/// with the builder of relative references are at [`BuilderOf`].
///
/// ```
/// let mut builder = URI::builder();
/// builder.scheme(Scheme::HTTP);
/// builder.try_authority(Some(b"h"))?;
/// builder.try_path(alloc, b"a")?;
/// assert_eq!(builder.build()?.to_string(alloc)?.as_str(), "http://h/a");
/// ```
pub type URIBuilder<'b> = BuilderOf<'b, WithScheme>;

impl<'u> URI<'u> {
    ghost use Rattle.uriparse_reference.specs.Reference.{Valid};

    /// The URI of these components: RFC 3986, sections 3 and 3.3. With an authority the path is
    /// made absolute, else it becomes the one that its text spells. Does not allocate.
    ///
    /// Fails with [`AbsolutePathStartsWithTwoSlashes`](URIError::AbsolutePathStartsWithTwoSlashes)
    /// if there is no authority and the path's text begins with two slashes.
    pub fn from_parts(
        scheme: Scheme<'u>,
        authority: Option<Authority<'u>>,
        path: Path<'u>,
        query: Option<Query<'u>>,
        fragment: Option<Fragment<'u>>,
    ) -> Result<URI<'u>, URIError>
        ensures { result ≡ with_mapped_error spec.map_error (of_parts (record { scheme = Some scheme.entry; authority = authority.entry; path = path.entry; query = query.entry; fragment = fragment.entry })) }
    {
        let answer = URIReference::from_parts(Some(scheme), authority, path, query, fragment);
        ReferenceOf::map_error_of_checked(answer)
    }

    /// The scheme, the authority, the path, the query and the fragment. Does not allocate.
    pub fn into_parts(
        self,
    ) -> (
        Scheme<'u>,
        Option<Authority<'u>>,
        Path<'u>,
        Option<Query<'u>>,
        Option<Fragment<'u>>,
    )
        ensures scheme { self.entry.scheme ≡ Some result.0 }
        ensures authority { result.1 ≡ self.entry.authority }
        ensures path { result.2 ≡ self.entry.path }
        ensures query { result.3 ≡ self.entry.query }
        ensures fragment { result.4 ≡ self.entry.fragment }
        ensures valid { Valid self.entry }
    {
        let (scheme, authority, path, query, fragment) = self.reference.into_parts();
        (scheme.unwrap(), authority, path, query, fragment)
    }

    /// The scheme.
    pub fn scheme(&self) -> &Scheme<'u>
        ensures { self.now.scheme ≡ Some result.now }
    {
        self.reference.scheme().unwrap()
    }

    /// Whether it is an absolute URI, without a fragment, as a base must be: RFC 3986, sections 4.3
    /// and 5.1. [`resolve`](URI::resolve) accepts any URI as a base and ignores its fragment.
    pub fn can_be_a_base(&self) -> bool
        ensures { result ≡ is_none self.now.fragment }
    {
        !self.reference.has_fragment()
    }

    /// The URI without its fragment. Always succeeds. Does not allocate.
    pub fn into_base_uri(self) -> URI<'u>
        ensures { result ≡ spec.base self.entry }
    {
        let mut uri = self;
        let _ok = uri.reference.set_fragment(None);
        uri
    }

    /// Sets the scheme. Always succeeds. Does not allocate.
    pub fn set_scheme(&mut self, scheme: Scheme<'u>) -> Result<(), URIError>
        ensures answer { result ≡ Ok tt }
        ensures value { self.new ≡ record self.old { scheme = Some scheme.entry } }
    {
        map_error::<WithScheme, _>(self.reference.set_scheme(Some(scheme)))
    }

    /// Sets the scheme to what the closure returns for it. Always succeeds. Does not allocate,
    /// unless the closure does.
    pub fn map_scheme<F>(self, make: F) -> Result<URI<'u>, URIError>
    where
        F: FnOnce(Scheme<'u>) -> Scheme<'u>,
        requires { IfSome self.scheme (λ old. F.pre make old) }
        ensures { (old : _) × (scheme : _) × (self.entry.scheme ≡ Some old) × F.post make old scheme × (result ≡ Ok (record self.entry { scheme = Some scheme })) }
    {
        let (scheme, authority, path, query, fragment) = self.into_parts();
        URI::from_parts(make(scheme), authority, path, query, fragment)
    }
}

impl<'b> URIBuilder<'b> {
    /// Sets the scheme. Does not allocate.
    pub fn scheme(&mut self, scheme: Scheme<'b>)
        ensures { self.new ≡ record self.old { scheme = Some scheme.entry } }
    {
        self.builder.scheme(Some(scheme));
    }

    /// The builder with this scheme. Does not allocate.
    pub fn with_scheme(self, scheme: Scheme<'b>) -> URIBuilder<'b>
        ensures { result ≡ record self.entry { scheme = Some scheme.entry } }
    {
        BuilderOf::of_checked(self.builder.with_scheme(Some(scheme)))
    }

    /// Reads and sets the scheme. A faulty text is rejected with [`Scheme`](URIError::Scheme), and
    /// the builder is unchanged. Does not allocate.
    pub fn try_scheme(&mut self, scheme: &'b [u8]) -> Result<(), URIError>
        ensures { Settles self.old self.new result (with_mapped_error spec.map_error (scheme_read self.old (Some scheme.now))) }
    {
        map_error::<WithScheme, _>(self.builder.try_scheme(Some(scheme)))
    }

    /// The URI of the components. Does not allocate.
    ///
    /// Fails with [`MissingPath`](URIError::MissingPath) if there is no path, else with
    /// [`AbsolutePathStartsWithTwoSlashes`](URIError::AbsolutePathStartsWithTwoSlashes) if there is
    /// no authority and the path's text begins with two slashes, else with
    /// [`MissingScheme`](URIError::MissingScheme) if there is no scheme. An error consumes the
    /// builder.
    pub fn build(self) -> Result<URI<'b>, URIError>
        ensures { result ≡ spec.uri_built self.entry }
    {
        match self.builder.build() {
            Ok(reference) if reference.has_scheme() => Ok(ReferenceOf::of_checked(reference)),
            Ok(_) => Err(URIError::MissingScheme),
            Err(error) => Err(URIError::try_from(error).unwrap_or(URIError::MissingScheme)),
        }
    }
}
